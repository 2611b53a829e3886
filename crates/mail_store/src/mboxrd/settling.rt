//! What is left of an entry that was about to be appended when a session was cut.

ghost use Rattle.std.specs.Prelude.{◌≡◌, ◌≢◌, ◌==◌, ◌&&◌, ◌+◌, ◌%◌, ◌≤◌, ◌<◌, ◌^◌, ◌∷◌, ℕ, List, true, length, IfErr};
ghost use Rattle.std.specs.Prelude.{drop};
ghost use Rattle.mail_terms.specs.FailureCount.{Tallies, refuses};
ghost use Rattle.mail_store.specs.{
  DiskCalls.LooksOn,
  Fault.is_refusal,
  Mboxrd.text_in,
  Settling.{block_size, begin_with, has_size, is_lost, is_one_entry, is_ours, is_torn, is_whole, IsBehind},
  Settling.{LeftoversAreSettled, TellsSettled, WholeEntriesCount, listed_size},
  SettlingCalls.{LooksBehind, SettledFilesAreDurable, SettlesFile},
};

use crate::fault::StoreFault;
use crate::file::flat_file::FlatFile;
use crate::mboxrd::entry::{SEPARATOR, peek_front, peek_mbox, quoted_in};
use crate::mboxrd::quoting::text_size;
use mail_terms::Listing;
use memchr::memmem;
use std::alloc::Global;
use std::vec::Vec;

/// A disk writes a file in blocks of this many octets, or of a multiple of it.
const BLOCK: u64 = 512;

/// Whether there are only zeros up to the end of a block. The first octet is at `place` in its file.
fn is_lost(place: u64, bytes: &[u8]) -> bool
    ensures { result ≡ is_lost place bytes.now }
{
    let room = (BLOCK - place % BLOCK) as usize;
    bytes.iter().take(room).all(|byte| *byte == 0)
}

/// Whether an octet is the last of a block, and zero.
fn ends_torn(place: u64, byte: u8) -> bool
    requires { place + 1 < 2 ^ 64 }
    ensures { result ≡ ((place + 1) % block_size == 0 && byte == 0) }
{
    (place + 1) % BLOCK == 0 && byte == 0
}

/// Whether an octet that is the last of a block is zero. The first octet is at `place` in its file.
fn is_torn(place: u64, bytes: &[u8]) -> bool
    requires { place + length bytes.now < 2 ^ 64 }
    ensures { result ≡ is_torn place bytes.now }
{
    let mut at = place;
    for byte in bytes {
        if ends_torn(at, *byte) {
            return true;
        }
        at += 1;
    }
    false
}

/// Whether the octets begin with these words, as far as both go, except what is lost.
fn begin_with(place: u64, words: &[u8], bytes: &[u8]) -> bool
    requires { place + length bytes.now < 2 ^ 64 }
    ensures { result ≡ begin_with place words.now bytes.now }
{
    match words {
        [] => true,
        [word, words @ ..] => match bytes {
            [] => true,
            [byte, rest @ ..] => {
                (byte == word || is_lost(place, bytes)) && begin_with(place + 1, words, rest)
            }
        },
    }
}

/// Whether no line after the first begins with `From `.
#[tactic(auto, using(crate::proofs::SettlingLemmas::found_entry))]
fn is_one_entry(bytes: &[u8]) -> bool
    ensures { result ≡ is_one_entry bytes.now }
{
    memmem::find(bytes, b"\nFrom ").is_none()
}

/// Whether octets may be what is left of an entry that was appended at `place`, and nothing more.
fn is_ours(place: u64, bytes: &[u8]) -> bool
    requires { place + length bytes.now < 2 ^ 64 }
    ensures { result ≡ is_ours place bytes.now }
{
    begin_with(place, SEPARATOR, bytes) && is_one_entry(bytes)
}

/// The size that is listed for the message with this id, None if it isn't listed.
pub fn listed_size(listing: &Listing, uid: &[u8]) -> Option<u64>
    ensures { result ≡ listed_size listing.now uid.now }
{
    for i in 0..listing.len() {
        if listing.uid(i) == uid {
            return Some(listing.size(i));
        }
    }
    None
}

/// Whether the text of an entry has the listed size, where one is listed.
fn has_size(listed: Option<u64>, entry: &[u8]) -> bool
    ensures { result ≡ has_size listed (text_in entry.now) }
{
    match listed {
        Some(size) => text_size(quoted_in(entry)) == size,
        None => true,
    }
}

/// Whether octets are the whole entry of this length, and its text has the listed size.
fn is_whole(place: u64, len: u64, listed: Option<u64>, bytes: &[u8]) -> bool
    requires { place + length bytes.now < 2 ^ 64 }
    ensures { result ≡ is_whole place len listed bytes.now }
{
    bytes.len() as u64 == len
        && is_ours(place, bytes)
        && !is_torn(place, bytes)
        && bytes.ends_with(b"\n\n")
        && has_size(listed, bytes)
}

/// What stands at the place where an entry was about to be appended.
enum Behind {
    /// Nothing, or octets that aren't ours.
    Others,
    /// The whole entry.
    Whole,
    /// Octets that are ours, and no whole entry.
    Torn,
}

/// What the octets from `start` on are; at most `len` should be there, and these were read.
fn judge(start: u64, behind: u64, len: u64, listed: Option<u64>, rest: &[u8]) -> Behind
    requires part { (0 < behind) × (behind ≤ len) }
    requires place { start + length rest.now < 2 ^ 64 }
    ensures { (was : List ℕ) → rest.now ≡ drop start was → behind ≡ length rest.now
        → IsBehind result start len listed was }
{
    if (rest.len() as u64) < behind || !is_ours(start, rest) {
        return Behind::Others;
    }
    if is_whole(start, len, listed, rest) {
        return Behind::Whole;
    }
    Behind::Torn
}

/// Looks at what stands at `start` in a file.
fn look_behind<F: FlatFile>(
    alloc: Global,
    file: &mut F,
    start: u64,
    len: u64,
    listed: Option<u64>,
) -> Result<Behind, StoreFault>
    ensures looks { F.sound file.new → F.sound file.old
        × LooksBehind start len listed (F.disk file.old) result (F.disk file.new) }
    ensures fault { IfErr result (λ e. e ≢ StoreFault.NotMbox) }
    ensures count { Tallies (refuses is_refusal result) (F.refusals file.old) (F.refusals file.new) }
{
    let edges = file.edges()?;
    let behind = edges.size.saturating_sub(start);
    if behind == 0 || behind > len {
        return Ok(Behind::Others);
    }
    let mut bytes = vec![in alloc; 0; behind as usize]?;
    let count = file.read_at(start, &mut bytes)?;
    bytes.truncate(count);
    Ok(judge(start, behind, len, listed, bytes.as_slice()))
}

/// Settles what follows `start` in a file, where an entry of `len` octets was about to be appended
/// when a session was cut, and returns whether it is there whole. `listed` is the size that the
/// server lists for its message now, None if that isn't listed.
///
/// What follows is looked at first. It is ours only if it is no longer than the entry, begins as an
/// entry's first line does, as far as both go, and no other line begins with `From `. From any
/// octet of that line on there may be zeros to the end of the block. What isn't ours isn't touched.
/// What is ours is whole only if it has the entry's length, its last line is empty, its text has the
/// listed size, and the last octet of no block is zero, as a loss of power can leave it; otherwise
/// the file is cut back to `start`. An entry that has such a zero in its own text, or whose listed
/// size is another one, is cut off too, and fetched once more.
///
/// Missing if there is no file. Refused if the device refused: the file is as it was, or settled.
/// NoMemory if memory runs out: the file is as it was.
pub fn settle_file<F: FlatFile>(
    alloc: Global,
    file: &mut F,
    start: u64,
    len: u64,
    listed: Option<u64>,
) -> Result<bool, StoreFault>
    ensures settles { F.sound file.new → F.sound file.old
        × SettlesFile start len listed (F.disk file.old) result (F.disk file.new) }
    ensures fault { IfErr result (λ e. e ≢ StoreFault.NotMbox) }
    ensures count { Tallies (refuses is_refusal result) (F.refusals file.old) (F.refusals file.new) }
{
    match look_behind(alloc, file, start, len, listed)? {
        Behind::Others => Ok(false),
        Behind::Whole => Ok(true),
        Behind::Torn => {
            file.cut_to(start)?;
            Ok(false)
        }
    }
}

/// Returns what `settle_file` would return, if an entry may follow the file then. The file is only looked
/// at: it is as it was.
///
/// NotMbox if no entry may follow it once it is settled; else the faults of `settle_file`.
pub fn peek_settled<F: FlatFile>(
    alloc: Global,
    file: &mut F,
    start: u64,
    len: u64,
    listed: Option<u64>,
) -> Result<bool, StoreFault>
    ensures tells { F.sound file.new → F.sound file.old
        × LooksOn (TellsSettled start len listed) (F.disk file.old) result (F.disk file.new) }
    ensures count { Tallies (refuses is_refusal result) (F.refusals file.old) (F.refusals file.new) }
{
    match look_behind(alloc, file, start, len, listed)? {
        Behind::Others => {
            peek_mbox(file)?;
            Ok(false)
        }
        Behind::Whole => {
            peek_mbox(file)?;
            Ok(true)
        }
        Behind::Torn => {
            peek_front(file, start)?;
            Ok(false)
        }
    }
}

/// What calls see once a file was settled, whatever was answered, and what a crash may leave.
pub fn settled_files_are_durable()
    ensures { SettledFilesAreDurable }
{}

/// What a loss of power leaves of an entry that was appended to a file counts as whole only if it
/// is all of the entry; else settling cuts the file back to what it was.
pub fn leftovers_of_entries_are_settled()
    ensures { LeftoversAreSettled }
{}

/// An entry that is all there counts as whole if its text has the listed size, unless that text has
/// a zero at the end of a block; with another size it is cut off.
pub fn whole_entries_count()
    ensures { WholeEntriesCount }
{}

/// What is lost is zero.
pub fn what_is_lost_is_zero()
    ensures { (place byte : ℕ) (left : List ℕ) → is_lost place (byte ∷ left) ≡ true → byte ≡ 0 }
{}
