//! Whether a server may have given its messages new ids, by the record that a session left: all that it listed is new
//! there, and other mail was delivered before. Then all mail comes again.
ghost use Rattle.std.specs.{
  Prelude.{◌≡◌, ◌++◌, IfOk, OnOk, true},
  List.{filter_map, list_any},
  Option.option_to_list,
  String.string_bytes,
};
ghost use Rattle.mail_terms.specs.Text.{lines_of_text};
ghost use Rattle.getmail_program.specs.NewIds.{
  SaysNewIds,
  are_all_new,
  is_older_delivery,
  mark_for,
  row_end,
};

use crate::ending::Fetched;
use crate::told::RunTerms;
use fetch_rules::Settings;
use file_reading::ReadFile;
use mail_terms::cut_text;
use std::alloc::{AllocError, Global};
use std::vec::Vec;

/// How many messages a listing has at least of which it is told.
const LEAST: u32 = 10;

/// How many octets of a record are read.
const MOST: u64 = 268_435_456;

/// How the row of a message ends that was first seen at a second.
fn row_end(alloc: Global, second: u64, flag: &str) -> Result<String, AllocError>
    ensures { IfOk result (λ end. string_bytes end ≡ row_end second flag.now) }
{
    format!(in alloc; " {second}{flag}")
}

/// A mark for a line that ends so.
fn mark_for(end: &[u8], line: &[u8]) -> Option<bool>
    ensures { result ≡ mark_for end.now line.now }
{
    if line.ends_with(end) {
        Some(true)
    } else {
        None
    }
}

/// Adds a mark for a line that ends so.
fn add_mark(marks: &mut Vec<bool>, end: &[u8], line: &[u8]) -> Result<(), AllocError>
    ensures { OnOk result (marks.new.items ≡ marks.old.items ++ option_to_list (mark_for end.now line.now)) }
{
    if let Some(mark) = mark_for(end, line) {
        marks.push(mark)?;
    }
    Ok(())
}

/// A mark for each line that ends so.
#[tactic(auto, using(crate::proofs::NewIdsLemmas::picked_first))]
fn marks_in(alloc: Global, text: &[u8], end: &[u8]) -> Result<Vec<bool>, AllocError>
    ensures { IfOk result (λ marks. marks.items ≡ filter_map (mark_for end.now) (lines_of_text text.now)) }
{
    let mut marks = Vec::new(alloc);
    let mut rest = text;
    while !rest.is_empty() {
        let (line, behind) = cut_text(rest);
        rest = behind;
        add_mark(&mut marks, end, line)?;
    }
    Ok(marks)
}

/// Whether a line is the row of a message that was delivered, but not one that ends so. The line before a group of rows
/// has a `+` and their number.
fn is_older_delivery(end: &[u8], line: &[u8]) -> bool
    ensures { result ≡ is_older_delivery end.now line.now }
{
    line.ends_with(b" 1") && !line.starts_with(b"+ ") && !line.ends_with(end)
}

/// Whether a text has such a line.
fn has_older(text: &[u8], end: &[u8]) -> bool
    ensures { result ≡ list_any (is_older_delivery end.now) (lines_of_text text.now) }
{
    let mut rest = text;
    while !rest.is_empty() {
        let (line, behind) = cut_text(rest);
        if is_older_delivery(end, line) {
            return true;
        }
        rest = behind;
    }
    false
}

/// Whether all of so many messages that were listed at a second are new to a record that had delivered ones.
fn are_all_new(alloc: Global, text: &[u8], second: u64, listed: u32) -> Result<bool, AllocError>
    ensures { IfOk result (λ new. new ≡ are_all_new second listed text.now) }
{
    if listed < LEAST {
        return Ok(false);
    }
    let begun = row_end(alloc, second, " 0")?;
    let marks = marks_in(alloc, text, begun.as_bytes())?;
    if marks.len() as u64 != u64::from(listed) {
        return Ok(false);
    }
    let delivered = row_end(alloc, second, " 1")?;
    Ok(has_older(text, delivered.as_bytes()))
}

/// Whether the record that a session left says so, if the run deletes nothing. If the record can't be read it isn't
/// known.
pub fn has_new_ids<F: ReadFile>(
    alloc: Global,
    files: &F,
    settings: &Settings,
    terms: &RunTerms<'_>,
    fetched: &Fetched,
) -> bool
    ensures { result ≡ true → SaysNewIds (F.gave files.now) settings.now terms.entry.now.now
        terms.entry.now.record.now fetched.now.unknown }
{
    if settings.delete || settings.delete_after != 0 || fetched.unknown < LEAST {
        return false;
    }
    match files.read(terms.record, MOST) {
        Ok(text) => are_all_new(alloc, &text, terms.now, fetched.unknown).unwrap_or(false),
        Err(_) => false,
    }
}
