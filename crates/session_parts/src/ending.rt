//! The end of a session whose planned steps were done.
ghost use Rattle.std.specs.Prelude.{◌≡◌, ◌∷◌, ℕ, List, [], IfOk, OnOk};
ghost use Rattle.pop3_client.specs.Turns.{quit};
ghost use Rattle.session_parts.specs.{
  Mbox.{IsToldOfMbox, LooksAgain, went},
  Refusal.{TookWithTail, tail_limit},
  Durable.{IsSafeStore, may_leave_in},
  Parts.{RunsTasks, KeepsLink, KeepsStore, IsReadyForNext},
  Target.{is_sound, kind_of, stores_of},
  Task.says,
};
ghost use Rattle.mail_store.specs.Power.{LeavesNoMore};

use crate::fault::{Cut, Fault};
use crate::report::{ReportLine, has_deletions};
use crate::work::{Store, Work};
use mail_store::{Edges, FlatFile, MaildirDisk, peek_ends};
use pop3_client::{Client, conversations_are_paced};
use pop3_wire::Wire;
use std::hash::BuildHasher;

/// If a message was deleted, looks at an mboxrd file once more, which its device refuses if others have
/// changed it meanwhile. Returns what the device told. A Maildir isn't asked.
fn look_again<D: MaildirDisk, F: FlatFile>(
    store: &mut Store<D, F>,
    lines: &[ReportLine],
) -> Result<Option<Edges>, Fault>
    ensures kind { kind_of store.new ≡ kind_of store.old }
    ensures looks { is_sound D.MaildirDisk F.FlatFile store.new → is_sound D.MaildirDisk F.FlatFile store.old
        × LooksAgain (kind_of store.old) lines.now (stores_of D.MaildirDisk F.FlatFile store.old) result
        (stores_of D.MaildirDisk F.FlatFile store.new) }
    ensures keeps { is_sound D.MaildirDisk F.FlatFile store.new
        → LeavesNoMore (may_leave_in F.FlatFile store.old) (may_leave_in F.FlatFile store.new) }
    ensures safe { is_sound D.MaildirDisk F.FlatFile store.new → IsSafeStore F.FlatFile store.old
        → OnOk result (IsSafeStore F.FlatFile store.new) }
{
    let Store::Mboxrd(mbox) = store else {
        return Ok(None);
    };
    if !has_deletions(lines) {
        return Ok(None);
    }
    Ok(Some(peek_ends(mbox)?))
}

/// Quits. If a message was deleted, an mboxrd file is looked at before: if others have changed it since
/// the session began, QUIT isn't said, so that nothing is deleted. What its device told then is
/// returned: only by asking it can that be known here.
pub fn end<W: Wire, D: MaildirDisk, F: FlatFile, H: BuildHasher>(
    client: &mut Client<'_, W>,
    work: &mut Work<D, F, H>,
) -> Result<Option<Edges>, Cut>
    requires { IsReadyForNext D.MaildirDisk F.FlatFile work.old }
    ensures told { IfOk result (λ told. is_sound D.MaildirDisk F.FlatFile work.new.store
        → IsToldOfMbox (kind_of work.old.store) work.old.ledger.lines.items
        (stores_of D.MaildirDisk F.FlatFile work.old.store) told) }
    ensures link { KeepsLink W.Wire (TookWithTail tail_limit) client.old (went result) client.new }
    ensures store { KeepsStore D.MaildirDisk F.FlatFile 0 work.old work.new }
    ensures runs { (account : List ℕ) → RunsTasks W.Wire D.MaildirDisk F.FlatFile account (says quit ∷ [])
        client.old work.old (went result) client.new work.new }
{
    conversations_are_paced();
    let told = look_again(&mut work.store, &work.ledger.lines)?;
    client.quit()?;
    Ok(told)
}
