//! Quoting of texts for an mboxrd file, in which `From ` at the start of a line begins an entry: a
//! line that is `>` any number of times and then `From ` gets one more `>` (mboxrd).

ghost use Rattle.std.specs.Prelude.{◌≡◌, ◌↔◌, ◌<◌, ◌≤◌, ◌*◌, ◌+◌, ◌++◌, length, take, drop, slice_range, IfOk, OnOk};
ghost use Rattle.std.specs.Prelude.{IsTrue, false};
ghost use Rattle.mail_terms.specs.Text.{IsWhole};
ghost use Rattle.mail_store.specs.Mboxrd.{IsMboxLine, begins_entry, is_marked, quoted, quoted_text, unquoted};
ghost use Rattle.mail_store.specs.Mboxrd.{unquoted_text, wire_size, UnquotesQuoted, CutsLine};

use memchr::{memchr, memrchr};
use std::alloc::{AllocError, Global};

/// Whether a text is empty or ends in LF.
pub fn is_whole(text: &[u8]) -> bool
    ensures { IsTrue result ↔ IsWhole text.now }
{
    text.is_empty() || text.ends_with(b"\n")
}

/// Cuts off the first line of a text, its LF included. Without an LF that is all of it.
pub fn cut_line(text: &[u8]) -> (&[u8], &[u8])
    requires { 0 < length text.now }
    ensures some { 0 < length result.0.now }
    ensures shorter { length result.1.now < length text.now }
    ensures cuts { CutsLine text.now result.0.now result.1.now }
{
    match memchr(b'\n', text) {
        Some(place) => text.split_at(place + 1),
        None => (text, b""),
    }
}

/// Whether a line begins with `From `.
pub fn begins_entry(line: &[u8]) -> bool
    ensures { result ≡ begins_entry line.now }
{
    line.starts_with(b"From ")
}

/// Whether a line is `>` any number of times and then `From `.
fn is_marked(line: &[u8]) -> bool
    ensures { result ≡ is_marked line.now }
{
    let mut rest = line;
    while let [b'>', after @ ..] = rest {
        rest = after;
    }
    begins_entry(rest)
}

/// Whether a line is `>` at least once and then `From `.
fn is_quoted(line: &[u8]) -> bool
    ensures quoted { IsTrue result → (0 < length line.now) × (unquoted line.now ≡ drop 1 line.now) }
    ensures plain { result ≡ false → unquoted line.now ≡ line.now }
{
    match line {
        [b'>', rest @ ..] => is_marked(rest),
        _ => false,
    }
}

/// How many bytes the quoted text takes.
pub fn quoted_len(text: &[u8]) -> usize
    ensures value { result ≡ length (quoted_text text.now) }
    ensures bound { 5 * result ≤ 6 * length text.now }
{
    let mut marked = 0;
    let mut rest = text;
    while !rest.is_empty() {
        let (line, after) = cut_line(rest);
        if is_marked(line) {
            marked += 1;
        }
        rest = after;
    }
    text.len() + marked
}

/// A line of an entry as it was: without the first `>` if it is `>` at least once and then `From `.
fn unquoted(line: &[u8]) -> &[u8]
    ensures { result.now ≡ unquoted line.now }
{
    if is_quoted(line) {
        return &line[1..];
    }
    line
}

/// How many octets a line of an entry takes on the wire, once it is unquoted.
fn line_size(line: &[u8]) -> usize
    ensures value { result ≡ wire_size (unquoted line.now) }
    ensures bound { result ≤ 2 * length line.now }
{
    let text = unquoted(line);
    text.len() + text.iter().filter(|byte| **byte == b'\n').count()
}

/// How many octets the text that a quoted one stands for takes on the wire, without stuffing: each
/// LF is sent as CR LF.
#[tactic(auto, using(crate::proofs::MboxLemmas::sizes_line))]
pub fn text_size(quoted: &[u8]) -> u64
    ensures { result ≡ wire_size (unquoted_text quoted.now) }
{
    let mut size = 0;
    let mut rest = quoted;
    while !rest.is_empty() {
        let (line, after) = cut_line(rest);
        size += line_size(line) as u64;
        rest = after;
    }
    size
}

/// Where the last line of a whole text begins.
fn last_line(text: &[u8]) -> usize
    requires some { 0 < length text.now }
    requires whole { IsWhole text.now }
    ensures fits { result < length text.now }
    ensures front { IsWhole (take result text.now) }
    ensures line { IsMboxLine (drop result text.now) }
{
    match memrchr(b'\n', &text[..text.len() - 1]) {
        Some(place) => place + 1,
        None => 0,
    }
}

/// Moves a line, which is the bytes from `start` to `end`, so that it ends at `to`, with one more `>`
/// if it is marked. Returns where it begins then.
fn move_line(bytes: &mut Vec<u8>, start: usize, end: usize, to: usize) -> usize
    requires order { (start ≤ end) × (end ≤ to) × (to ≤ length bytes.old.items) }
    requires room { start + length (quoted (slice_range bytes.old.items start end)) ≤ to }
    ensures size { length bytes.new.items ≡ length bytes.old.items }
    ensures front { take start bytes.new.items ≡ take start bytes.old.items }
    ensures place { result + length (quoted (slice_range bytes.old.items start end)) ≡ to }
    ensures back { drop result bytes.new.items
        ≡ quoted (slice_range bytes.old.items start end) ++ drop to bytes.old.items }
{
    let marked = is_marked(&bytes[start..end]);
    let place = to - (end - start);
    bytes.copy_within(start..end, place);
    if !marked {
        return place;
    }
    bytes[place - 1] = b'>';
    place - 1
}

/// Quotes the text that is the first `count` bytes, from its last line to its first, so that it ends
/// at `end`. Returns where it begins then.
pub fn quote_within(bytes: &mut Vec<u8>, count: usize, end: usize) -> usize
    requires fits { (count ≤ length bytes.old.items) × (end ≤ length bytes.old.items) }
    requires whole { IsWhole (take count bytes.old.items) }
    requires room { length (quoted_text (take count bytes.old.items)) ≤ end }
    ensures size { length bytes.new.items ≡ length bytes.old.items }
    ensures place { result + length (quoted_text (take count bytes.old.items)) ≡ end }
    ensures quoted { drop result bytes.new.items
        ≡ quoted_text (take count bytes.old.items) ++ drop end bytes.old.items }
{
    let mut from = count;
    let mut to = end;
    while from > 0 {
        let start = last_line(&bytes[..from]);
        to = move_line(bytes, start, from, to);
        from = start;
    }
    to
}

/// A text as it is in an entry: each line that is `>` any number of times and then `From ` gets one
/// more `>`. The text must be whole (see `is_whole`). Allocates once.
#[tactic(auto, using(crate::proofs::MboxLemmas::copies_plain))]
pub fn quote(alloc: Global, text: &[u8]) -> Result<Vec<u8>, AllocError>
    requires { IsWhole text.now }
    ensures { IfOk result (λ quoted. quoted.items ≡ quoted_text text.now) }
{
    let mut quoted = Vec::with_capacity(alloc, quoted_len(text))?;
    let mut run = text;
    let mut rest = text;
    while !rest.is_empty() {
        let (line, after) = cut_line(rest);
        if is_marked(line) {
            quoted.extend_from_slice(&run[..run.len() - rest.len()])?;
            quoted.push(b'>')?;
            run = rest;
        }
        rest = after;
    }
    quoted.extend_from_slice(run)?;
    Ok(quoted)
}

/// The text that a quoted one stands for: each line that is `>` at least once and then `From ` loses
/// one `>`. Allocates once.
#[tactic(auto, using(crate::proofs::MboxLemmas::copies_plain))]
pub fn unquote(alloc: Global, text: &[u8]) -> Result<Vec<u8>, AllocError>
    ensures { IfOk result (λ unquoted. unquoted.items ≡ unquoted_text text.now) }
{
    let mut unquoted = Vec::with_capacity(alloc, text.len())?;
    let mut run = text;
    let mut rest = text;
    while !rest.is_empty() {
        let (line, after) = cut_line(rest);
        if is_quoted(line) {
            unquoted.extend_from_slice(&run[..run.len() - rest.len()])?;
            run = &rest[1..];
        }
        rest = after;
    }
    unquoted.extend_from_slice(run)?;
    Ok(unquoted)
}

/// Unquoting a quoted text gives the text.
#[tactic(auto, using(crate::proofs::MboxLemmas::unquotes_quoted))]
pub fn unquoting_undoes_quoting()
    ensures { UnquotesQuoted }
{}
