//! What is done with each message.
ghost use Rattle.std.specs.Prelude.{◌≡◌, ◌∷◌, ℕ, List, [], length};
ghost use Rattle.fetch_rules.specs.Plan.{fetches};
ghost use Rattle.session_parts.specs.{
  Parts.{RunsTasks, IsReadyFor},
  Report.HasRoom,
  Task.{deleting, fetching, tasks_planned},
};
ghost use Rattle.fetch_session.specs.Runs.{task_of};

use crate::storing::{reread, take_into_maildir};
use fetch_rules::{Listing, Step};
use mail_store::{AccountId, FlatFile, MaildirDisk};
use pop3_client::{Client, conversations_are_paced, turns_join};
use pop3_wire::Wire;
use session_parts::{Cut, Listener, ReportLine, Store, Work, note, take_into_mbox};
use std::hash::BuildHasher;

/// What is done first with one message.
#[derive(Clone, Copy)]
enum Task<'a> {
    /// Its text is taken, stored and marked.
    Store { number: u32, uid: &'a [u8] },
    /// Its text is taken and dropped: the store holds it already.
    Reread { number: u32, uid: &'a [u8] },
    /// It is passed over.
    Skip { number: u32, size: u64 },
}

/// What a step does first with its message, which has this id and size, and which the store holds
/// or not.
fn first_task<'a>(step: Step, uid: &'a [u8], size: u64, held: bool) -> Task<'a>
    ensures { fetching (fetches step) held step.number uid.now size ≡ task_of result ∷ [] }
{
    let number = step.number;
    if step.skip.is_some() {
        return Task::Skip { number, size };
    }
    if held {
        return Task::Reread { number, uid };
    }
    Task::Store { number, uid }
}

/// Deletes the message of a step, if that is planned.
fn delete<W: Wire, D: MaildirDisk, F: FlatFile, H: BuildHasher>(
    client: &mut Client<'_, W>,
    work: &mut Work<D, F, H>,
    step: Step,
) -> Result<(), Cut>
    requires { HasRoom work.old.ledger.lines (length (deleting step.delete step.number)) }
    ensures { (account : List ℕ)
        → IsReadyFor D.MaildirDisk F.FlatFile account (deleting step.delete step.number) work.old
        → RunsTasks W.Wire D.MaildirDisk F.FlatFile account (deleting step.delete step.number) client.old work.old
        result client.new work.new }
{
    conversations_are_paced();
    if !step.delete {
        return Ok(());
    }
    let number = step.number;
    client.delete(work.ledger.alloc, number)?;
    note(&mut work.ledger.lines, ReportLine::Deleted { number });
    Ok(())
}

/// Does one task.
fn do_task<W: Wire, D: MaildirDisk, F: FlatFile, H: BuildHasher>(
    client: &mut Client<'_, W>,
    work: &mut Work<D, F, H>,
    account: &AccountId,
    task: Task<'_>,
) -> Result<(), Cut>
    requires { IsReadyFor D.MaildirDisk F.FlatFile account.now (task_of task ∷ []) work.old }
    ensures { RunsTasks W.Wire D.MaildirDisk F.FlatFile account.now (task_of task.entry ∷ []) client.old work.old
        result client.new work.new }
{
    match task {
        Task::Store { number, uid } => match &mut work.store {
            Store::Maildir(disk) => {
                take_into_maildir(client, disk, &mut work.ledger, account, number, uid)
            }
            Store::Mboxrd(mbox) => {
                take_into_mbox::<W, D, F, H>(client, mbox, &mut work.ledger, number, uid)
            }
        },
        Task::Reread { number, .. } => reread(client, work, number),
        Task::Skip { number, size } => {
            note(&mut work.ledger.lines, ReportLine::Skipped { number, size });
            Ok(())
        }
    }
}

/// What is planned for a listing: a step for each message, and whether the store holds it.
#[derive(Clone, Copy)]
pub struct Planned<'a> {
    pub listing: &'a Listing,
    pub steps: &'a [Step],
    pub held: &'a [bool],
}

/// Does the planned steps, up to the first fault. The listener is told of the lines after each.
pub fn do_steps<W: Wire, D: MaildirDisk, F: FlatFile, H: BuildHasher, L: Listener>(
    client: &mut Client<'_, W>,
    work: &mut Work<D, F, H>,
    account: &AccountId,
    plan: Planned<'_>,
    listener: &mut L,
) -> Result<(), Cut>
    requires all_steps { length plan.steps.now ≡ length plan.listing.now }
    requires all_flags { length plan.held.now ≡ length plan.listing.now }
    requires ready { IsReadyFor D.MaildirDisk F.FlatFile account.now
        (tasks_planned plan.steps.now plan.listing.now plan.held.now) work.old }
    ensures runs { RunsTasks W.Wire D.MaildirDisk F.FlatFile account.now
        (tasks_planned plan.entry.steps.now plan.entry.listing.now plan.entry.held.now) client.old work.old result
        client.new work.new }
    ensures heard { L.hears listener.old [] listener.new }
{
    turns_join();
    let listing = plan.listing;
    for i in 0..listing.len() {
        let place = i as usize;
        let step = plan.steps[place];
        let first = first_task(step, listing.uid(i), listing.size(i), plan.held[place]);
        do_task(client, work, account, first)?;
        delete(client, work, step)?;
        listener.hear(listing.len(), &work.ledger.lines);
    }
    Ok(())
}
