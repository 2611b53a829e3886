//! One session of an account over a server in memory.
ghost use Rattle.std.specs.Prelude.{◌≡◌};
ghost use Rattle.pop3_server.specs.{HonestLoop.{IsUnused}, LoopLink.{Loop}};
ghost use Rattle.local_fetch.specs.Local.{WasFetchedLocally, loop_to};

use crate::loop_wire::LoopWire;
use fetch_runs::{mbox_sessions_follow_plans, sessions_are_conversations};
use fetch_session::{Account, Report, session, sessions_by_store};
use mail_store::{FlatFile, MaildirDisk};
use pop3_server::{Maildrop, Server, loops_are_honest};
use pop3_wire::Wire;
use std::alloc::Global;
use std::hash::BuildHasher;

/// Runs one session of an account over a link to this server, which is new, and returns the report
/// and the link, whose `into_inner` is the server as its answers left it. `now` is in seconds since
/// 1970.
///
/// The only premise on the server is its maildrop's: the conversation is honest over the
/// maildrop's messages, and of these only marked ones are gone, none while the server is open.
pub fn fetch_over_loop<D: MaildirDisk, F: FlatFile, H: BuildHasher, M: Maildrop>(
    alloc: Global,
    account: &mut Account<D, F, H>,
    server: Server<M>,
    now: u64,
) -> (Report, LoopWire<M>)
    requires new { IsUnused (loop_to server) }
    ensures settings { account.new.settings ≡ account.old.settings }
    ensures fetched { WasFetchedLocally ⟦<LoopWire<M> as Wire>⟧ D.MaildirDisk F.FlatFile
        M.Maildrop now account.old server
        result.0 account.new result.1 }
{
    sessions_are_conversations();
    mbox_sessions_follow_plans();
    loops_are_honest::<M>();
    sessions_by_store::<LoopWire<M>, D, F>();
    let _ = account.settings();
    let mut wire = LoopWire::new(alloc, server);
    let report = session(account, &mut wire, now);
    let _ = wire.failures();
    (report, wire)
}

/// Does what `fetch_over_loop` does, and returns the report and the server as its answers left it.
pub fn fetch_local<D: MaildirDisk, F: FlatFile, H: BuildHasher, M: Maildrop>(
    alloc: Global,
    account: &mut Account<D, F, H>,
    server: Server<M>,
    now: u64,
) -> (Report, Server<M>)
    requires new { IsUnused (loop_to server) }
    ensures settings { account.new.settings ≡ account.old.settings }
    ensures fetched { (wire : Loop M) × WasFetchedLocally ⟦<LoopWire<M> as Wire>⟧ D.MaildirDisk F.FlatFile
        M.Maildrop now account.old server
        result.0 account.new wire × (result.1 ≡ wire.machine) }
{
    let (report, wire) = fetch_over_loop(alloc, account, server, now);
    (report, wire.into_inner())
}
