//! What a loss of power may leave of a file's octets.

ghost use Rattle.std.specs.Prelude.{◌≡◌, ◌↔◌, ◌<◌, ◌≤◌, ◌/◌, ◌++◌, ℕ, List, IsTrue, length, slice_index, take};
ghost use Rattle.mail_store.specs.{
  Durable.{IsByteLeft, IsTorn},
  Settling.block_size,
};

/// A disk writes a file in blocks of this many octets, or of a multiple of it.
const BLOCK: usize = 512;

/// Whether there are only zeros from a place of a file on, up to the end of its block.
fn is_lost_from(left: &[u8], place: usize) -> bool
    ensures { IsTrue result ↔ ((j : ℕ) → place ≤ j → j < length left.now → j / block_size ≡ place / block_size
        → slice_index left.now j ≡ 0) }
{
    for at in place..left.len() {
        if at / BLOCK != place / BLOCK {
            return true;
        }
        if left[at] != 0 {
            return false;
        }
    }
    true
}

/// Whether the octet at a place of some octets is this one.
fn has_at(octets: &[u8], place: usize, octet: u8) -> bool
    ensures { IsTrue result ↔ ((place < length octets.now) × (octet ≡ slice_index octets.now place)) }
{
    place < octets.len() && octets[place] == octet
}

/// Whether each octet from a place on may be there.
fn may_follow(content: &[u8], flushed: &[u8], left: &[u8], from: usize) -> bool
    ensures { IsTrue result ↔ ((i : ℕ) → from ≤ i → i < length left.now
        → IsByteLeft content.now flushed.now left.now i) }
{
    // The last block that was found to have only zeros from some octet on: it isn't read again for each of them.
    let mut lost = None;
    for place in from..left.len() {
        let octet = left[place];
        if has_at(content, place, octet) || has_at(flushed, place, octet) {
            continue;
        }
        let block = Some(place / BLOCK);
        if place >= content.len() || (lost != block && !is_lost_from(left, place)) {
            return false;
        }
        lost = block;
    }
    true
}

/// Whether octets begin with the first ones of others.
fn begins_with(left: &[u8], content: &[u8], count: usize) -> bool
    ensures { IsTrue result ↔ ((behind : List ℕ) × (left.now ≡ take count content.now ++ behind)) }
{
    left.starts_with(&content[..count.min(content.len())])
}

/// Whether this may be left of a file that reached the disk in part: it has these octets, and had others when it was
/// last flushed, of which so many weren't cut off since.
pub(crate) fn is_torn(content: &[u8], flushed: &[u8], uncut: usize, left: &[u8]) -> bool
    ensures { IsTrue result ↔ IsTorn content.now flushed.now uncut left.now }
{
    begins_with(left, content, uncut)
        && (left.len() <= content.len() || left.len() == flushed.len())
        && may_follow(content, flushed, left, uncut)
}
