//! What a session says at its end.
ghost use Rattle.std.specs.Prelude.{◌≡◌, [], true, if◌then◌else◌};
ghost use Rattle.session_parts.specs.{
  Account.IsSameAccount,
  Hearing.IsPlanOf,
  Reasons.told_report,
  Telling.preview_text,
};
ghost use Rattle.getmail_program.specs.{
  Holding.HoldsSession,
  Telling.{Reported, is_idle, is_none_known, told_outcome, unknown_in},
};
ghost use Rattle.getmail_setup.specs.Output.{Puts, PutsRest};

use crate::doubt::said_ahead;
use crate::teller::{Notes, Teller};
use fetch_rules::{Settings, Step};
use fetch_session::{
    Account, LeftOut, Outcome, Preview, Report, pretend, preview_text, session_told, told_report,
};
use getmail_setup::{Journal, Output, ShownWire};
use mail_store::{FlatFile, MaildirDisk};
use pop3_client::Client;
use pop3_wire::Wire;
use std::alloc::Global;
use std::hash::BuildHasher;
use std::io::Write;
use std::rt::Files;
use system_calls::System;

/// When a session is, where its texts go, and what is said of it.
#[derive(Clone, Copy)]
pub struct RunTerms<'a> {
    /// In seconds since 1970.
    pub now: u64,
    /// The destination's path.
    pub destination: &'a str,
    /// The record's path.
    pub record: &'a str,
    /// Whether nothing is to be done but to say what would be.
    pub pretends: bool,
    /// Whether the report says why messages are passed over.
    pub explains: bool,
    /// What an unattended run says, if it is one.
    pub journal: Option<&'a Journal>,
}

/// What a session says at its end.
#[derive(Drop)]
pub enum Told {
    /// What it did.
    Done(Report),
    /// What a run would do.
    Ahead(Preview),
}

impl Told {
    /// How the session came out.
    pub fn outcome(&self) -> Outcome
        ensures { result ≡ told_outcome self.now }
    {
        match self {
            Told::Done(report) => report.outcome,
            Told::Ahead(preview) => preview.outcome,
        }
    }

    /// Whether it had nothing to fetch.
    pub fn is_idle(&self) -> bool
        ensures { result ≡ is_idle self.now }
    {
        match self {
            Told::Done(report) => report.skipped == report.total,
            Told::Ahead(_) => true,
        }
    }

    /// How many messages were listed, if none is passed over because it is known; else 0.
    pub fn unknown(&self) -> u32
        ensures { result ≡ unknown_in self.now }
    {
        match self {
            Told::Done(report) if is_none_known(report) => report.total,
            _ => 0,
        }
    }
}

/// Whether all that a session passes over is left out, and so not known.
fn is_none_known(report: &Report) -> bool
    ensures { result ≡ is_none_known report.now }
{
    let LeftOut {
        obstructed,
        too_large,
        past_limit,
        repeated,
    } = report.left_out;
    let too_many = u64::from(past_limit) + u64::from(repeated);
    u64::from(report.skipped) == u64::from(obstructed) + u64::from(too_large) + too_many
}

/// Writes what a preview says.
fn put_preview<O: Write>(alloc: Global, preview: &Preview, settings: &Settings, out: &mut Output<O>)
    ensures { Puts O.contents out.old (preview_text preview.now settings.now) out.new }
{
    match preview_text(alloc, preview, settings) {
        Ok(text) => out.put(text.as_bytes()),
        Err(_) => out.lack_memory(),
    }
}

/// Writes the rest of a report after what was written of it.
fn put_report<O: Write>(
    alloc: Global,
    report: &Report,
    settings: &Settings,
    plan: &[Step],
    written: &[u8],
    out: &mut Output<O>,
)
    ensures { (start : Output O) → Puts O.contents start written.now out.old
        → PutsRest O.contents start written.now (told_report plan.now report.now settings.now) out.new }
{
    match told_report(alloc, report, settings, plan) {
        Ok(text) => out.put_rest(written, text.as_bytes()),
        Err(_) => out.lack_memory(),
    }
}

/// The plan, if reasons are asked for.
fn asked_for(explains: bool, plan: &[Step]) -> &[Step]
    ensures { result.now ≡ (if explains then plan.entry.now else []) }
{
    if explains { plan } else { &[] }
}

/// Has an unattended run know the plan of its session.
fn note_plan(terms: &RunTerms<'_>, plan: &[Step]) {
    if let Some(journal) = terms.journal {
        if !plan.is_empty() {
            journal.note_plan(plan);
        }
    }
}

/// Previews a session of the account over the link, wipes the line of progress, and writes what a run would do.
fn hold_preview<W: Wire, D: MaildirDisk, F: FlatFile, O: Write>(
    system: &System<'_, impl Files + AllocGlobal>,
    account: &mut Account<D, F, impl BuildHasher>,
    wire: &mut ShownWire<W, impl Write>,
    terms: RunTerms<'_>,
    out: &mut Output<O>,
) -> Told
    ensures same { IsSameAccount account.old account.new }
    ensures held { HoldsSession W.Wire D.MaildirDisk F.FlatFile true terms.entry.now account.old wire.old.wire result
        account.new wire.new.wire }
    ensures reported { Reported O.contents terms.entry.explains account.old.settings
        (IsPlanOf W.Wire D.MaildirDisk F.FlatFile terms.entry.now account.old wire.old.wire account.new wire.new.wire)
        result out.old out.new }
{
    let preview = pretend(account, wire, terms.now);
    wire.wipe();
    let settings = account.settings();
    let said = said_ahead(system, &settings.dest, &terms, preview);
    put_preview(system.alloc(), &said, settings, out);
    Told::Ahead(said)
}

/// Runs one session of the account over the link, or only previews it, and wipes the line of progress. What it
/// says is written to `out`: of a report the first line and those of its messages as they come, up to a deletion.
pub fn hold<W: Wire, D: MaildirDisk, F: FlatFile, O: Write>(
    system: &System<'_, impl Files + AllocGlobal>,
    account: &mut Account<D, F, impl BuildHasher>,
    wire: &mut ShownWire<W, impl Write>,
    terms: RunTerms<'_>,
    out: &mut Output<O>,
) -> Told
    ensures same { IsSameAccount account.old account.new }
    ensures held { HoldsSession W.Wire D.MaildirDisk F.FlatFile terms.entry.pretends terms.entry.now account.old
        wire.old.wire result
        account.new wire.new.wire }
    ensures reported { Reported O.contents terms.entry.explains account.old.settings
        (IsPlanOf W.Wire D.MaildirDisk F.FlatFile terms.entry.now account.old wire.old.wire account.new wire.new.wire)
        result out.old out.new }
{
    if terms.pretends {
        return hold_preview(system, account, wire, terms, out);
    }
    let alloc = system.alloc();
    let mut notes = Notes::new(alloc);
    let mut teller = Teller::new(alloc, out, &mut notes, account.settings(), terms.explains);
    let mut client = Client::new(wire);
    let report = session_told(account, &mut client, terms.now, &mut teller);
    wire.wipe();
    let settings = account.settings();
    let plan = asked_for(terms.explains, &notes.plan);
    note_plan(&terms, plan);
    put_report(alloc, &report, settings, plan, &notes.written, out);
    Told::Done(report)
}
