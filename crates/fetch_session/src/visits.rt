//! Sessions of an account, one after another, each over its own link.
ghost use Rattle.std.specs.Prelude.{◌≡◌, IfErr, IfOk, length};
ghost use Rattle.fetch_session.specs.Visits.{AreMade, WasMade};

use crate::account::Account;
use crate::one_session::session;
use mail_store::{FlatFile, MaildirDisk};
use pop3_wire::Wire;
use session_parts::Report;
use std::alloc::{AllocError, Global};
use std::hash::BuildHasher;
use std::vec::Vec;

/// Calls `session`. This is what `calls_keep_promises` and `mbox_calls_keep_promises` ask of a call: nobody
/// has to know what a session does.
pub fn promised_session<W: Wire, D: MaildirDisk, F: FlatFile, H: BuildHasher>(
    account: &mut Account<D, F, H>,
    wire: &mut W,
    now: u64,
) -> Report
    ensures { WasMade W.Wire D.MaildirDisk F.FlatFile now account.old wire.old result account.new wire.new }
{
    let _ = account.settings();
    session(account, wire, now)
}

/// A link, and the time of its session, in seconds since 1970.
#[derive(Drop)]
pub struct Visit<W> {
    pub wire: W,
    pub now: u64,
}

/// Calls `session` once for each visit, in order, and returns a report for each. Room for the reports is made first:
/// if memory runs out for it, no session is begun.
///
/// Visits are calls of the statement (`visits_are_calls`): what is promised of any list of calls is promised of these.
pub fn run_sessions<W: Wire, D: MaildirDisk, F: FlatFile, H: BuildHasher>(
    alloc: Global,
    account: &mut Account<D, F, H>,
    visits: &mut [Visit<W>],
) -> Result<Vec<Report>, AllocError>
    ensures none { IfErr result (λ e. (account.new ≡ account.old) × (visits.new ≡ visits.old)) }
    ensures count { IfOk result (λ reports. length reports.items ≡ length visits.old) }
    ensures made { IfOk result (λ reports. AreMade W.Wire D.MaildirDisk F.FlatFile visits.old account.old
        reports.items visits.new account.new) }
{
    let mut reports = Vec::with_capacity(alloc, visits.len())?;
    for i in 0..visits.len() {
        let visit = &mut visits[i];
        let now = visit.now;
        let report = promised_session(account, &mut visit.wire, now);
        reports.push(report).unwrap();
    }
    Ok(reports)
}
