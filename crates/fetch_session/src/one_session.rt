//! One session, from its greeting to its end.
ghost use Rattle.std.specs.{Prelude.{◌≡◌, []}, Vec.vec_len};
ghost use Rattle.pop3_client.specs.Client.{HasSameLink, link_of};
ghost use Rattle.rc_file.specs.Settings.{IsValid};
ghost use Rattle.mail_store.specs.FileName.{IsAccountText};
ghost use Rattle.session_parts.specs.{
  Account.IsSameAccount,
  Refusal.{IsWithinLimits, RefusesByOutcome, GotAtMost, session_limit, TookWithTail, listed_limit, parts_limit},
  Hearing.{HearsOne, IsListedBefore, IsPlanFor, IsPlanOf},
  Durable.RunsSession,
  Parts.{KeepsLink, KeepsStore},
  Report.{most_lines, none_skipped},
  Target.NoneBegun,
};
ghost use Rattle.fetch_session.specs.Runs.{RunsTillCut};

use crate::account::Account;
use crate::carrying_out::carry_out;
use mail_store::{FlatFile, MaildirDisk};
use pop3_client::{Client, conversations_are_paced};
use pop3_wire::{PIECE_ROOM, Wire};
use session_parts::{
    Cut, Listener, Outcome, Report, Silent, Skips, Terms, Work, enter, leave, none_skipped,
    report_of,
};
use std::hash::BuildHasher;
use std::mem;
use std::vec::Vec;

/// What a session counts for its report: the messages listed, and those that its plan passes over.
#[derive(Drop)]
struct Counts {
    total: u32,
    skipped: Skips,
}

/// Logs in, deals with the listed messages, and quits, up to the first fault.
fn proceed<W: Wire, D: MaildirDisk, F: FlatFile, H: BuildHasher, L: Listener>(
    client: &mut Client<'_, W>,
    work: &mut Work<D, F, H>,
    terms: Terms<'_>,
    counts: &mut Counts,
    listener: &mut L,
) -> Result<(), Cut>
    requires valid { IsValid terms.settings.now }
    requires digits { IsAccountText terms.account.now }
    requires none_begun { NoneBegun D.MaildirDisk F.FlatFile work.old.store }
    requires nothing { (counts.old.total ≡ 0) × (counts.old.skipped ≡ none_skipped)
        × (work.old.ledger.lines.items ≡ []) × (vec_len work.old.ledger.lines ≡ 0) }
    ensures link { KeepsLink W.Wire (TookWithTail (parts_limit counts.new.total)) client.old result client.new }
    ensures store { KeepsStore D.MaildirDisk F.FlatFile most_lines work.old work.new }
    ensures proceeds { RunsTillCut W.Wire D.MaildirDisk F.FlatFile terms.entry client.old work.old result client.new
        work.new counts.new }
    ensures heard { HearsOne L.hears (IsPlanFor D.MaildirDisk F.FlatFile terms.entry work.old counts.new.total
        counts.new.skipped work.new (IsListedBefore W.Wire terms.entry.settings.now (listed_limit counts.new.total)
        client.old result client.new)) listener.old listener.new }
{
    conversations_are_paced();
    let listing = enter(work.ledger.alloc, terms.settings, client)?;
    counts.total = listing.len();
    work.ledger.lines.reserve(2 * listing.len() as usize)?;
    carry_out(client, work, terms, &listing, &mut counts.skipped, listener)
}

/// As `session`, over a client with nothing waiting. The listener is told of the lines as they are noted.
pub fn session_told<W: Wire, D: MaildirDisk, F: FlatFile, H: BuildHasher, L: Listener>(
    account: &mut Account<D, F, H>,
    client: &mut Client<'_, W>,
    now: u64,
    listener: &mut L,
) -> Report
    requires { client.old.reader ≡ [] }
    ensures link { HasSameLink client.old client.new }
    ensures counted { RefusesByOutcome (link_of W.Wire client.old) result.outcome (link_of W.Wire client.new) }
    ensures same { IsSameAccount account.old account.new }
    ensures session { RunsSession W.Wire D.MaildirDisk F.FlatFile now account.old client.old.wire.now result
        account.new client.new.wire.now }
    ensures bounded { W.sound client.new.wire.now
        → GotAtMost (session_limit result.total) (link_of W.Wire client.old) (link_of W.Wire client.new) }
    ensures heard { HearsOne L.hears (IsPlanOf W.Wire D.MaildirDisk F.FlatFile now account.old client.old.wire.now
        account.new client.new.wire.now result) listener.old listener.new }
{
    conversations_are_paced();
    let mut counts = Counts {
        total: 0,
        skipped: none_skipped(),
    };
    let alloc = account.work.ledger.alloc;
    account.work.ledger.lines = Vec::new(alloc);
    let terms = Terms {
        settings: &account.settings,
        account: &account.id,
        now,
    };
    if let Err(cut) = proceed(client, &mut account.work, terms, &mut counts, listener) {
        let outcome = Outcome::Cut(cut.fault);
        leave(client, cut);
        prove!(client.waiting().len() < PIECE_ROOM);
        let lines = mem::replace(&mut account.work.ledger.lines, Vec::new(alloc));
        return report_of(outcome, counts.total, counts.skipped, lines);
    }
    prove!(client.waiting().len() < PIECE_ROOM);
    let lines = mem::replace(&mut account.work.ledger.lines, Vec::new(alloc));
    report_of(Outcome::Ended, counts.total, counts.skipped, lines)
}

/// Runs one session of an account over a link: it logs in, lists, stores what is wanted and isn't
/// held, deletes what is due, and quits. `now` is in seconds since 1970.
///
/// A text for a Maildir goes piece by piece into a file. A text for an mboxrd file is read whole,
/// its intent is written to the record, and then its entry is appended and its id marked; if the
/// session is cut before the mark is saved, the next one cuts the entry off or counts it, before it
/// asks for a text.
///
/// The first fault cuts it. Whatever the server sends and whichever call is refused, no text that
/// is stored is lost or changed. With n messages it takes from the link at most 2,048 octets for
/// each of 2n + 10 lines, as many for each row of two listings of 100,000 rows and their ends, and
/// 268,435,456 octets for each message, even if the store and the record's file don't do what their
/// traits say.
pub fn session<W: Wire, D: MaildirDisk, F: FlatFile, H: BuildHasher>(
    account: &mut Account<D, F, H>,
    wire: &mut W,
    now: u64,
) -> Report
    ensures limits { IsWithinLimits W.Wire wire.old result wire.new }
    ensures same { IsSameAccount account.old account.new }
    ensures session { RunsSession W.Wire D.MaildirDisk F.FlatFile now account.old wire.old result account.new wire.new }
{
    let mut client = Client::new(wire);
    session_told(account, &mut client, now, &mut Silent)
}
