//! What would keep a run from storing messages although a preview of it found nothing wrong.
ghost use Rattle.std.specs.{Prelude.{◌≡◌, IfSome}, IoError.error_kind, List.list_any};
ghost use Rattle.getmail_program.specs.Holding.{Doubts, DoubtsFound, RefusesFile, SaysAhead, fault_for, would_store};

use crate::told::RunTerms;
use fetch_rules::Dest;
use fetch_session::{Fault, Outcome, Preview, Why};
use getmail_setup::joined;
use std::fs::Metadata;
use std::io::{self, ErrorKind};
use std::rt::Files;
use std::vec::Vec;
use system_calls::System;

/// The folder of a Maildir in which messages are made.
const TMP: &str = "tmp";

/// The fault of a run that is refused `tmp`, as its device would be that begins a file there.
fn fault_of(error: &io::Error) -> Fault
    ensures fault { result ≡ fault_for (error_kind error.now) }
    ensures refuses { RefusesFile result }
{
    match error.kind() {
        ErrorKind::NotFound => Fault::StoreRefused(Why::Missing),
        ErrorKind::OutOfMemory => Fault::NoMemory,
        _ => Fault::StoreRefused(Why::Refused),
    }
}

/// Why no message could be made in a Maildir, by what was found in the place of its `tmp`.
fn doubt_by(found: &io::Result<Metadata>) -> Option<Fault>
    ensures doubts { DoubtsFound found.now result }
    ensures refuses { IfSome result RefusesFile }
{
    match found {
        Ok(found) if found.is_dir() => None,
        Ok(_) => Some(Fault::StoreRefused(Why::Refused)),
        Err(error) => Some(fault_of(error)),
    }
}

/// Why no message could be made in a Maildir.
fn doubt_of_maildir<R: Files + AllocGlobal>(system: &System<'_, R>, path: &str) -> Option<Fault>
    ensures { IfSome result RefusesFile }
{
    let Ok(tmp) = joined(system.alloc(), path, TMP) else {
        return Some(Fault::NoMemory);
    };
    let found = system.refusals.kept(system.stat(tmp.as_str()));
    let doubt = doubt_by(&found);
    if doubt.is_some() && found.is_ok() {
        let _ = system.refusals.refuse(tmp.as_str(), "not a folder");
    }
    doubt
}

/// Whether a run would put a message into a Maildir.
fn would_store(preview: &Preview) -> bool
    ensures { result ≡ list_any would_store preview.now.message_previews.items }
{
    preview
        .message_previews
        .iter()
        .any(|told| !told.held && told.step.skip.is_none())
}

/// What would cut a run that puts messages into this destination.
fn doubt_of<R: Files + AllocGlobal>(
    system: &System<'_, R>,
    dest: &Dest,
    path: &str,
    preview: &Preview,
) -> Option<Fault>
    ensures { IfSome result (Doubts dest.now preview.now.message_previews.items) }
{
    match dest {
        Dest::Maildir(_) if would_store(preview) => doubt_of_maildir(system, path),
        _ => None,
    }
}

/// What is said ahead of a run: what its preview says; or, if the preview found no fault, one that would keep
/// the run from storing a message in its Maildir. Nothing is changed.
pub fn said_ahead<R: Files + AllocGlobal>(
    system: &System<'_, R>,
    dest: &Dest,
    terms: &RunTerms<'_>,
    preview: Preview,
) -> Preview
    ensures { SaysAhead dest.now preview result }
{
    if let Outcome::Cut(_) = preview.outcome {
        return preview;
    }
    match doubt_of(system, dest, terms.destination, &preview) {
        Some(fault) => Preview {
            outcome: Outcome::Cut(fault),
            total: preview.total,
            message_previews: Vec::new(system.alloc()),
        },
        None => preview,
    }
}
