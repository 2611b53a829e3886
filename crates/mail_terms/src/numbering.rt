//! Rows that number the messages of a maildrop, in any order.

ghost use Rattle.std.specs.Prelude.{◌≡◌, length, IfOk};
ghost use Rattle.mail_terms.specs.Numbering.{IsNumbering, HasPlaces, IsOrderOf};

use crate::listing::ListingFault;
use std::alloc::Global;

/// For each number of 1 to `count`, at the index of that number less 1, its place in the list, if it
/// is there. Takes time in proportion to `count` and the list's length.
#[tactic(auto, using(crate::proofs::NumberingLemmas::not_numbering_taken))]
fn found_places(
    alloc: Global,
    count: u32,
    numbers: &[u32],
) -> Result<Vec<Option<usize>>, ListingFault>
    ensures ok { IfOk result (λ slots. HasPlaces count numbers.now (length numbers.now) slots.items) }
    ensures disagree { result ≡ Err ListingFault.Disagree → ¬ IsNumbering count numbers.now }
    ensures limit { result ≡ Err ListingFault.TooMany → ⊥ }
{
    let mut slots = vec![in alloc; None; count as usize]?;
    for (place, &number) in numbers.iter().enumerate() {
        if number == 0 || number > count {
            return Err(ListingFault::Disagree);
        }
        let slot = number as usize - 1;
        if slots[slot].is_some() {
            return Err(ListingFault::Disagree);
        }
        slots[slot] = Some(place);
    }
    Ok(slots)
}

/// The places of the numbers 1 to `count` in the list, in this order. Disagree if the list isn't
/// these numbers, each once.
pub(crate) fn places_in_order(
    alloc: Global,
    count: u32,
    numbers: &[u32],
) -> Result<Vec<usize>, ListingFault>
    ensures numbering { IfOk result (λ places. IsNumbering count numbers.now) }
    ensures order { IfOk result (λ places. IsOrderOf count numbers.now places.items) }
    ensures disagree { result ≡ Err ListingFault.Disagree → ¬ IsNumbering count numbers.now }
    ensures limit { result ≡ Err ListingFault.TooMany → ⊥ }
{
    let slots = found_places(alloc, count, numbers)?;
    let mut places = Vec::with_capacity(alloc, slots.len())?;
    for slot in &slots {
        let Some(place) = slot else {
            return Err(ListingFault::Disagree);
        };
        places.push(*place)?;
    }
    Ok(places)
}
