//! The part of a session after its listing.
ghost use Rattle.std.specs.{Prelude.{◌≡◌, ◌≤◌, ◌*◌, length}, List.AllByRecursion};
ghost use Rattle.mail_terms.specs.{Listing.message_limit, UniqueId.IsLegalId};
ghost use Rattle.mail_store.specs.FileName.{IsAccountText};
ghost use Rattle.session_parts.specs.{
  Target.NoneBegun,
  Refusal.{TookWithTail, listed_limit},
  Hearing.{HearsOne, IsPlanFor},
  Parts.{KeepsLink, KeepsStore},
  Report.{HasRoom, none_skipped},
};
ghost use Rattle.fetch_session.specs.Runs.{RunsListing};

use crate::step::{Planned, do_steps};
use fetch_rules::{Listing, only_firsts_are_fetched};
use mail_store::{FlatFile, MaildirDisk};
use pop3_client::{Client, turns_join};
use pop3_wire::Wire;
use session_parts::{Cut, Listener, Ready, Skips, Terms, Work, end, prepare, skips_of, tell_plan};
use std::hash::BuildHasher;

/// Makes the record ready for a listing, does what is planned for it, and quits. How many messages the
/// plan passes over is put into `skipped`. The listener is told of the plan, and of the lines as they are noted.
pub fn carry_out<W: Wire, D: MaildirDisk, F: FlatFile, H: BuildHasher, L: Listener>(
    client: &mut Client<'_, W>,
    work: &mut Work<D, F, H>,
    terms: Terms<'_>,
    listing: &Listing,
    skipped: &mut Skips,
    listener: &mut L,
) -> Result<(), Cut>
    requires digits { IsAccountText terms.account.now }
    requires room { HasRoom work.old.ledger.lines (2 * length listing.now) }
    requires none_begun { NoneBegun D.MaildirDisk F.FlatFile work.old.store }
    requires legal { AllByRecursion (λ item. IsLegalId item.uid) listing.now }
    requires none_skipped { skipped.old ≡ none_skipped }
    requires few { length listing.now ≤ message_limit }
    ensures link { KeepsLink W.Wire (TookWithTail (listed_limit (length listing.now))) client.old result client.new }
    ensures store { KeepsStore D.MaildirDisk F.FlatFile (2 * length listing.now) work.old work.new }
    ensures carries { RunsListing W.Wire D.MaildirDisk F.FlatFile terms.entry listing.now client.old work.old result
        client.new work.new skipped.new }
    ensures heard { HearsOne L.hears (IsPlanFor D.MaildirDisk F.FlatFile terms.entry work.old (length listing.now)
        skipped.new work.new (λ items. items ≡ listing.now)) listener.old listener.new }
{
    turns_join();
    only_firsts_are_fetched();
    let ready = prepare(work, terms, listing)?;
    let Ready { held, steps } = ready;
    *skipped = skips_of(&steps);
    let plan = Planned {
        listing,
        steps: &steps,
        held: &held,
    };
    tell_plan(work.ledger.alloc, &steps, listener);
    do_steps(client, work, terms.account, plan, listener)?;
    end(client, work)?;
    Ok(())
}
