//! The line on messages that a session left out although they aren't known.
ghost use Rattle.std.specs.{Prelude.{◌≡◌, ℕ, List, IfOk}, String.string_bytes};
ghost use Rattle.getmail_setup.specs.Output.{Puts};
ghost use Rattle.getmail_program.specs.Telling.{SaysLeftOut, left_out_reason, left_out_line, left_out_text, with_comma};

use crate::reason::line_of;
use crate::told::Told;
use fetch_rules::Settings;
use fetch_session::LeftOut;
use getmail_setup::{Errors, OUT_OF_MEMORY};
use std::alloc::{AllocError, Global};
use std::io::Write;
use std::vec::Vec;

/// How many messages were left out for one reason, and its words; empty if there are none.
fn left_out_reason(alloc: Global, count: u32, words: &str) -> Result<String, AllocError>
    ensures { IfOk result (λ text. string_bytes text ≡ left_out_reason count words.now) }
{
    if count == 0 {
        return Ok(String::new(alloc));
    }
    format!(in alloc; "{count}{words}")
}

/// Two texts, with a comma between them if neither is empty.
fn with_comma(alloc: Global, first: String, second: String) -> Result<String, AllocError>
    ensures { IfOk result (λ text. string_bytes text ≡ with_comma (string_bytes first) (string_bytes second)) }
{
    if first.is_empty() {
        return Ok(second);
    }
    if second.is_empty() {
        return Ok(first);
    }
    format!(in alloc; "{first}, {second}")
}

/// How many messages were left out for each reason.
fn left_out_text(alloc: Global, left: &LeftOut) -> Result<String, AllocError>
    ensures { IfOk result (λ text. string_bytes text ≡ left_out_text left.now) }
{
    let obstructed = left_out_reason(alloc, left.obstructed, " obstructed")?;
    let large = left_out_reason(alloc, left.too_large, " too large")?;
    let past = left_out_reason(alloc, left.past_limit, " past the limit")?;
    let repeated = left_out_reason(alloc, left.repeated, " with a repeated unique-id")?;
    let two = with_comma(alloc, obstructed, large)?;
    let three = with_comma(alloc, two, past)?;
    with_comma(alloc, three, repeated)
}

/// The line on messages that were left out; empty if there are none.
fn left_out_line(alloc: Global, settings: &Settings, left: &LeftOut) -> Result<Vec<u8>, AllocError>
    ensures { IfOk result (λ line. line.items ≡ left_out_line settings.now left.now) }
{
    let counts = left_out_text(alloc, left)?;
    if counts.is_empty() {
        return Ok(Vec::new(alloc));
    }
    let text = format!(in alloc; "left out: {counts}")?;
    line_of(alloc, settings, text.as_bytes())
}

/// Writes how many messages that aren't known a session left out, by their reasons, if there are any and
/// reasons are to be written.
pub fn tell_left_out<E: Write>(
    alloc: Global,
    settings: &Settings,
    told: &Told,
    errors: &mut Errors<'_, E>,
)
    ensures { (line : List ℕ) × SaysLeftOut settings.now errors.old.says_why told.now line
        × Puts E.contents errors.old.err line errors.new.err }
{
    match (errors.says_why, told) {
        (true, Told::Done(report)) => match left_out_line(alloc, settings, &report.left_out) {
            Ok(line) => errors.err.put(&line),
            Err(_) => errors.err.put(OUT_OF_MEMORY.as_bytes()),
        },
        _ => errors.err.put(b""),
    }
}
