//! Which messages of a listing are the first, and which the last, with their ids. Each call takes
//! n log n comparisons of ids, or n if the ids ascend, as most servers' do.

ghost use Rattle.std.specs.{
  Prelude.{◌≡◌, map, IfOk},
  Bool.OnTrue,
  Cmp.Lexicographic.slice_cmp,
  Ordering.nat_cmp,
  declared.cmp.Ordering.TheVariants.Less,
};
ghost use Rattle.mail_terms.specs.Listing.{HasDistinctIds, numbered, is_first, is_last};

use mail_terms::{IdSet, Listing, id_text};
use std::alloc::{AllocError, Global};
use std::cmp::Ordering;

/// Whether the first id is certain to come before the second in the order of texts.
fn comes_before(first: &[u8], second: &[u8]) -> bool
    ensures { OnTrue result (slice_cmp nat_cmp first.now second.now ≡ Less) }
{
    match (id_text(first), id_text(second)) {
        (Some(first), Some(second)) => first.cmp(second) == Ordering::Less,
        _ => false,
    }
}

/// Whether each id comes after the one before it, so that no id occurs twice.
fn do_ascend(listing: &Listing) -> bool
    ensures { OnTrue result (HasDistinctIds listing.now) }
{
    for i in 1..listing.len() {
        if !comes_before(listing.uid(i - 1), listing.uid(i)) {
            return false;
        }
    }
    true
}

/// For each message, whether no earlier one has its id, by a set of the earlier ids.
fn firsts_by_set(alloc: Global, listing: &Listing) -> Result<Vec<bool>, AllocError>
    ensures { IfOk result (λ flags. flags.items ≡ map (is_first listing.now) (numbered listing.now)) }
{
    let mut ids = IdSet::new(alloc);
    let mut flags = Vec::with_capacity(alloc, listing.len() as usize)?;
    for i in 0..listing.len() {
        let new = ids.insert(listing.uid(i))?;
        flags.push(new)?;
    }
    Ok(flags)
}

/// For each message, whether no later one has its id, by a set of the later ids.
fn lasts_by_set(alloc: Global, listing: &Listing) -> Result<Vec<bool>, AllocError>
    ensures { IfOk result (λ flags. flags.items ≡ map (is_last listing.now) (numbered listing.now)) }
{
    let mut ids = IdSet::new(alloc);
    let mut flags = vec![in alloc; false; listing.len() as usize]?;
    for i in (0..listing.len()).rev() {
        flags[i as usize] = ids.insert(listing.uid(i))?;
    }
    Ok(flags)
}

/// For each message, whether no earlier one has its id.
pub(crate) fn are_first(alloc: Global, listing: &Listing) -> Result<Vec<bool>, AllocError>
    ensures { IfOk result (λ flags. flags.items ≡ map (is_first listing.now) (numbered listing.now)) }
{
    if do_ascend(listing) {
        let flags = vec![in alloc; true; listing.len() as usize]?;
        return Ok(flags);
    }
    firsts_by_set(alloc, listing)
}

/// For each message, whether no later one has its id.
pub(crate) fn are_last(alloc: Global, listing: &Listing) -> Result<Vec<bool>, AllocError>
    ensures { IfOk result (λ flags. flags.items ≡ map (is_last listing.now) (numbered listing.now)) }
{
    if do_ascend(listing) {
        let flags = vec![in alloc; true; listing.len() as usize]?;
        return Ok(flags);
    }
    lasts_by_set(alloc, listing)
}
