//! What is written to standard error at a session's end.
ghost use Rattle.std.specs.Prelude.{◌≡◌, ◌≤◌, IfOk};
ghost use Rattle.getmail_setup.specs.Output.{Puts};
ghost use Rattle.getmail_program.specs.{Findings.FindsOn, Reasons.reasons_said};
ghost use Rattle.getmail_program.specs.Telling.{TellsCut, TellsErrors, lacks_memory, outcome_line, status_when};
ghost use Rattle.getmail_program.specs.Telling.{unwritten_line};

use crate::fault_line::put_fault;
use crate::findings::{Findings, findings_on};
use crate::left_out::tell_left_out;
use crate::reason::reasons_said;
use crate::told::{RunTerms, Told};
use fetch_rules::Settings;
use fetch_session::{Fault, Outcome};
use getmail_setup::{Errors, OUT_OF_MEMORY, Output, OutputRefusal, Subject};
use std::alloc::{AllocError, Global};
use std::io::Write;
use std::vec::Vec;

/// How a run ended.
#[derive(Clone, Copy)]
pub struct Fetched {
    /// The exit status.
    pub status: u8,
    /// Whether it had nothing to fetch.
    pub is_idle: bool,
    /// How many messages were listed, if none was passed over because it is known; else 0.
    pub unknown: u32,
}

/// Writes the line of the fault that cut a session, if one did.
pub fn put_outcome<E: Write>(alloc: Global, outcome: &Outcome, err: &mut Output<E>)
    ensures { Puts E.contents err.old (outcome_line outcome.now) err.new }
{
    match outcome {
        Outcome::Ended => err.put(b""),
        Outcome::Cut(fault) => put_fault(alloc, fault, err),
    }
}

/// What is said of an outcome, if reasons are asked for.
fn reasons_on<E>(
    alloc: Global,
    settings: &Settings,
    terms: &RunTerms<'_>,
    outcome: &Outcome,
    errors: &Errors<'_, E>,
) -> Result<Vec<u8>, AllocError>
    ensures { IfOk result (λ lines. (found : Findings) × FindsOn errors.now.says_why outcome.now
        terms.entry.now.destination.now terms.entry.now.record.now found
        × (lines.items ≡ reasons_said settings.now errors.now.says_why outcome.now found)) }
{
    let found = findings_on(alloc, outcome, terms, errors)?;
    reasons_said(alloc, settings, errors.says_why, outcome, &found)
}

/// Writes the line of the fault that cut a session, if one did, and its reasons, if they are asked for.
fn tell_cut<E: Write>(
    alloc: Global,
    settings: &Settings,
    terms: &RunTerms<'_>,
    outcome: &Outcome,
    errors: &mut Errors<'_, E>,
)
    ensures { TellsCut E.contents settings.now terms.entry.now.destination.now terms.entry.now.record.now outcome.now
        errors.old errors.new }
{
    let reasons = reasons_on(alloc, settings, terms, outcome, errors);
    put_outcome(alloc, outcome, &mut errors.err);
    match reasons {
        Ok(lines) => errors.err.put(&lines),
        Err(_) => errors.err.lack_memory(),
    }
}

/// Whether a session was cut because memory ran out, which the line of its fault says.
fn lacks_memory(outcome: &Outcome) -> bool
    ensures { result ≡ lacks_memory outcome.now }
{
    matches!(outcome, Outcome::Cut(Fault::NoMemory))
}

/// The line of a text that wasn't written to standard output after a session that came out in this way. Want
/// of memory is told once.
pub fn unwritten_line(outcome: &Outcome, refusal: Option<OutputRefusal>) -> &'static str
    ensures { result.now ≡ unwritten_line outcome.now refusal }
{
    match refusal {
        None => "",
        Some(OutputRefusal::NoMemory) => {
            if lacks_memory(outcome) {
                ""
            } else {
                OUT_OF_MEMORY
            }
        }
        Some(OutputRefusal::Refused) => "getmail: cannot write standard output\n",
    }
}

/// The exit status.
pub fn status_when(outcome: Outcome, refusal: Option<OutputRefusal>) -> u8
    ensures status { result ≡ status_when outcome refusal }
    ensures within { result ≤ 1 }
{
    match (outcome, refusal) {
        (Outcome::Ended, None) => 0,
        _ => 1,
    }
}

/// What was written last is how many messages a session left out. What obstructs one is a notice of its own.
fn close_left_out<E>(told: &Told, errors: &Errors<'_, E>) {
    if let Told::Done(_) = told {
        errors.close(Subject::LeftOut);
    }
}

/// Notes that an unattended run came to its end, if it did.
fn note_end<E>(status: u8, errors: &Errors<'_, E>) {
    if let (0, Some(journal)) = (status, errors.journal) {
        journal.note_end();
    }
}

/// Writes to standard error the line of the fault that cut a session and its reasons, whether what it says
/// wasn't written, and how many messages were left out.
pub fn tell_all<E: Write>(
    alloc: Global,
    settings: &Settings,
    terms: &RunTerms<'_>,
    told: &Told,
    refusal: Option<OutputRefusal>,
    errors: &mut Errors<'_, E>,
) -> Fetched
    ensures within { result.status ≤ 1 }
    ensures told { TellsErrors E.contents settings.now terms.entry.now.destination.now terms.entry.now.record.now
        told.now refusal errors.old result errors.new }
{
    let outcome = told.outcome();
    tell_cut(alloc, settings, terms, &outcome, errors);
    errors.err.put(unwritten_line(&outcome, refusal).as_bytes());
    errors.close(Subject::Fault);
    tell_left_out(alloc, settings, told, errors);
    close_left_out(told, errors);
    let status = status_when(outcome, refusal);
    note_end(status, errors);
    Fetched {
        status,
        is_idle: told.is_idle(),
        unknown: told.unknown(),
    }
}
