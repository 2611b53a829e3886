//! The lines of the record's file. After the header's line `getmail-seen 2` come rows, then groups
//! and intents. A row is the id, the second since 1970 at which it was first seen, and 1 if it was
//! delivered, else 0. A group is the line `+ N`, N from 1 to 100,000, and N rows. An intent is `!`, the
//! id, the size of the mboxrd file before the entry and the entry's length. Numbers are decimal, without
//! leading zeros; single spaces separate the fields, and LF ends each line. The header of version 1 is
//! `getmail-seen 1`; it has no intents.

ghost use Rattle.std.specs.Prelude.{◌≡◌, ◌≢◌, ℕ, ◌≤◌, ◌++◌, Bool, List, [], ◌∷◌, length, flat_map, OnOk, IfOk};
ghost use Rattle.std.specs.Prelude.{IfSome, IfNone};
ghost use Rattle.mail_terms.specs.Listing.{message_limit};
ghost use Rattle.fetch_record.specs.{
  Record.{Row, Intent as TheIntent, IsRow, IsIntent},
  RecordFile.{header, delivered_octets, record_row_line, group_line, intent_line, written, record_line, IsRecordLine},
  RecordFile.Line as FileLine,
  RecordMeaning.BeginsWithNoLine,
  Rows.row_from,
  Lines.{line_seen, intent_seen},
};

use crate::field::{id_before, number_before};
use crate::row_map::State;
use itoa::Buffer;
use mail_terms::MESSAGE_LIMIT;
use std::alloc::{AllocError, Global};

/// The line of the header.
pub(crate) const HEADER: &[u8] = b"getmail-seen 2\n";

/// The line of the header of version 1.
pub(crate) const OLDER_HEADER: &[u8] = b"getmail-seen 1\n";

/// What begins an intent's line.
const INTENT_SIGN: &[u8] = b"! ";

/// What begins the line that begins a group.
const SIGN: &[u8] = b"+ ";

/// A row as it is read.
#[derive(Clone, Copy)]
pub(crate) struct ReadRow<'a> {
    pub(crate) uid: &'a [u8],
    pub(crate) state: State,
}

/// An entry that is about to be appended to an mboxrd file.
#[derive(Clone, Copy)]
pub struct Intent<'a> {
    /// The id of the entry's message.
    pub uid: &'a [u8],
    /// The file's size before the entry, in octets.
    pub start: u64,
    /// The entry's length, in octets.
    pub len: u64,
}

/// A line after the header.
#[derive(Clone, Copy)]
pub(crate) enum Line<'a> {
    Row(ReadRow<'a>),
    /// The line that begins a group of this many rows.
    Group(u64),
    /// The line of an intent.
    Opening(Intent<'a>),
}

/// The state that ends a line, and what follows that line.
fn read_state(bytes: &[u8]) -> Option<(bool, &[u8])>
    ensures found { IfSome result (λ parts. bytes.now ≡ delivered_octets parts.0 ++ parts.1.now) }
    ensures none { IfNone result ((delivered : Bool) (behind : List ℕ)
        → bytes.now ≢ delivered_octets delivered ++ behind) }
{
    match bytes {
        [b'0', b'\n', rest @ ..] => Some((false, rest)),
        [b'1', b'\n', rest @ ..] => Some((true, rest)),
        _ => None,
    }
}

/// The row whose line the bytes begin with, if they do, and what follows it.
fn read_row(bytes: &[u8]) -> Option<(ReadRow<'_>, &[u8])>
    ensures is_row { IfSome result (λ parts. IsRow (row_from parts.0.uid.now parts.0.state)) }
    ensures found { IfSome result
        (λ parts. bytes.now ≡ record_row_line (row_from parts.0.uid.now parts.0.state) ++ parts.1.now) }
    ensures none { IfNone result ((row : Row) (behind : List ℕ) → IsRow row
        → bytes.now ≢ record_row_line row ++ behind) }
{
    let (uid, rest) = id_before(bytes)?;
    let (first_seen, rest) = number_before(rest, b' ')?;
    let (delivered, rest) = read_state(rest)?;
    let state = State {
        first_seen,
        delivered,
    };
    Some((ReadRow { uid, state }, rest))
}

/// The number of rows of the group whose first line the bytes begin with, if they do, and what
/// follows that line.
fn read_group_line(bytes: &[u8]) -> Option<(u64, &[u8])>
    ensures count { IfSome result (λ parts. (1 ≤ parts.0) × (parts.0 ≤ message_limit)) }
    ensures found { IfSome result (λ parts. bytes.now ≡ group_line parts.0 ++ parts.1.now) }
    ensures none { IfNone result ((count : ℕ) (behind : List ℕ) → 1 ≤ count → count ≤ message_limit
        → bytes.now ≢ group_line count ++ behind) }
{
    let Some(line) = bytes.strip_prefix(SIGN) else {
        return None;
    };
    let (count, rest) = number_before(line, b'\n')?;
    if count == 0 || count > u64::from(MESSAGE_LIMIT) {
        return None;
    }
    Some((count, rest))
}

/// The intent whose line the bytes begin with, if they do, and what follows that line.
fn read_intent_line(bytes: &[u8]) -> Option<(Intent<'_>, &[u8])>
    ensures is_intent { IfSome result (λ parts. IsIntent (intent_seen parts.0)) }
    ensures found { IfSome result (λ parts. bytes.now ≡ intent_line (intent_seen parts.0) ++ parts.1.now) }
    ensures none { IfNone result ((intent : TheIntent) (behind : List ℕ) → IsIntent intent
        → bytes.now ≢ intent_line intent ++ behind) }
{
    let Some(line) = bytes.strip_prefix(INTENT_SIGN) else {
        return None;
    };
    let (uid, rest) = id_before(line)?;
    let (start, rest) = number_before(rest, b' ')?;
    let (len, rest) = number_before(rest, b'\n')?;
    Some((Intent { uid, start, len }, rest))
}

/// The line that the bytes begin with, if they do, and what follows it.
pub(crate) fn read_line(bytes: &[u8]) -> Option<(Line<'_>, &[u8])>
    ensures is_line { IfSome result (λ parts. IsRecordLine (line_seen parts.0)) }
    ensures found { IfSome result (λ parts. bytes.now ≡ record_line (line_seen parts.0) ++ parts.1.now) }
    ensures none { IfNone result (BeginsWithNoLine bytes.now) }
{
    if let Some((count, rest)) = read_group_line(bytes) {
        return Some((Line::Group(count), rest));
    }
    if let Some((intent, rest)) = read_intent_line(bytes) {
        return Some((Line::Opening(intent), rest));
    }
    let (row, rest) = read_row(bytes)?;
    Some((Line::Row(row), rest))
}

/// Adds a row's line.
pub(crate) fn write_line(bytes: &mut Vec<u8>, uid: &[u8], state: State) -> Result<(), AllocError>
    ensures { OnOk result (bytes.new.items ≡ bytes.old.items ++ record_row_line (row_from uid.now state)) }
{
    let mut number = Buffer::new();
    let end = if state.delivered { b" 1\n" } else { b" 0\n" };
    bytes.extend_from_slice(uid)?;
    bytes.push(b' ')?;
    bytes.extend_from_slice(number.format(state.first_seen).as_bytes())?;
    bytes.extend_from_slice(end)
}

/// The line of an intent.
pub(crate) fn write_intent(alloc: Global, intent: Intent<'_>) -> Result<Vec<u8>, AllocError>
    ensures { IfOk result (λ bytes. bytes.items ≡ intent_line (intent_seen intent.entry)) }
{
    let numbers = format!(in alloc; " {} {}\n", intent.start, intent.len)?;
    let mut bytes = Vec::from_slice(alloc, INTENT_SIGN)?;
    bytes.extend_from_slice(intent.uid)?;
    bytes.extend_from_slice(numbers.as_bytes())?;
    Ok(bytes)
}

/// The group of one row.
pub(crate) fn row_group(alloc: Global, uid: &[u8], state: State) -> Result<Vec<u8>, AllocError>
    ensures { IfOk result (λ bytes. bytes.items ≡ written (row_from uid.now state ∷ [])) }
{
    let mut line = Vec::new(alloc);
    write_line(&mut line, uid, state)?;
    group(alloc, 1, line)
}

/// Puts bytes in front of others, in the memory that these have.
#[tactic(auto, using(crate::proofs::LineLemmas::rotated))]
fn put_in_front(bytes: &mut Vec<u8>, front: &[u8]) -> Result<(), AllocError>
    ensures { OnOk result (bytes.new.items ≡ front.now ++ bytes.old.items) }
{
    bytes.extend_from_slice(front)?;
    bytes.rotate_right(front.len());
    Ok(())
}

/// The group of `count` lines; empty if there are none.
pub(crate) fn group(alloc: Global, count: usize, lines: Vec<u8>) -> Result<Vec<u8>, AllocError>
    ensures { (rows : List Row) → length rows ≡ count → flat_map record_row_line rows ≡ lines.items
        → IfOk result (λ bytes. bytes.items ≡ written rows) }
{
    if count == 0 {
        return Ok(Vec::new(alloc));
    }
    let first = format!(in alloc; "+ {count}\n")?;
    let mut bytes = lines;
    put_in_front(&mut bytes, first.as_bytes())?;
    Ok(bytes)
}
