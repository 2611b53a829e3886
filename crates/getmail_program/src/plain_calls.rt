//! A session and a rehearsal that need nothing but a link and where to write: without reasons, progress or a trace.
ghost use Rattle.std.specs.Prelude.{◌≤◌};
ghost use Rattle.session_parts.specs.{
  Account.IsSameAccount,
  Durable.RunsSession,
  Text.report_text,
  declared.report.Report.Report,
};
ghost use Rattle.getmail_setup.specs.Output.{Puts};
ghost use Rattle.getmail_program.specs.{Rehearsal.Rehearses, Telling.TellsPlainly};

use crate::ending::{put_outcome, status_when};
use crate::rehearsal::rehearse_traced;
use crate::transcript::Transcript;
use fetch_rules::{Flags, Settings};
use fetch_session::{Account, Report, report_text, session};
use getmail_setup::Output;
use mail_store::{FlatFile, MaildirDisk, MemoryFile, MemoryMaildir};
use pop3_wire::{StreamWire, Wire};
use std::alloc::Global;
use std::hash::BuildHasher;
use std::io::{Read, Sink, Write, sink};
use trace::TracedWire;

/// Writes a session's report.
fn put_report<O: Write>(alloc: Global, report: &Report, settings: &Settings, out: &mut Output<O>)
    ensures { Puts O.contents out.old (report_text report.now settings.now) out.new }
{
    match report_text(alloc, report, settings) {
        Ok(text) => out.put(text.as_bytes()),
        Err(_) => out.lack_memory(),
    }
}

/// Writes a session's report, then the line of the fault that cut it, and returns the exit status.
fn tell<O: Write + Drop, E: Write + Drop>(
    alloc: Global,
    report: &Report,
    settings: &Settings,
    out: O,
    err: E,
) -> u8
    ensures within { result ≤ 1 }
    ensures tells { TellsPlainly O.contents E.contents settings.now report.now out err result }
{
    let mut out = Output::new(out);
    put_report(alloc, report, settings, &mut out);
    let mut err = Output::new(err);
    put_outcome(alloc, &report.outcome, &mut err);
    status_when(report.outcome, out.refusal())
}

/// Runs one session of the account over the link. The report is written to `out`, then the line of the fault that cut
/// the session, if one did, to `err`. The exit status is 0 if the session ended and the report was written, else 1.
pub fn fetch_into<W: Wire, D: MaildirDisk, F: FlatFile, O: Write + Drop, E: Write + Drop>(
    alloc: Global,
    account: &mut Account<D, F, impl BuildHasher>,
    wire: &mut W,
    now: u64,
    out: O,
    err: E,
) -> u8
    ensures within { result ≤ 1 }
    ensures same { IsSameAccount account.old account.new }
    ensures fetched { (report : Report)
        × RunsSession W.Wire D.MaildirDisk F.FlatFile now account.old wire.old report account.new wire.new
        × TellsPlainly O.contents E.contents account.old.settings report out err result }
{
    let report = session(account, wire, now);
    tell(alloc, &report, account.settings(), out, err)
}

/// Rehearses as `rehearse_traced` does, without a trace. That the output failed, or memory ran out, is told by the exit
/// status alone.
pub fn rehearse<R: Read + Drop, W: Write + Drop>(
    alloc: Global,
    flags: Flags,
    input: R,
    output: W,
) -> u8
    ensures within { result ≤ 2 }
    ensures rehearses { Rehearses ⟦<TracedWire<'static, StreamWire<R, Transcript<W>>, Sink> as Wire>⟧
        ⟦<MemoryMaildir as MaildirDisk>⟧ ⟦<MemoryFile as FlatFile>⟧ flags result }
{
    rehearse_traced::<R, W, Sink, Sink>(alloc, flags, (input, output), &mut sink(), None)
}
