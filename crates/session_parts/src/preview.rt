//! A session that tells what a run would do, and changes nothing.
ghost use Rattle.std.specs.Prelude.{◌≡◌, ℕ, Bool, List, [], None, IfOk, length, map};
ghost use Rattle.pop3_client.specs.Client.{HasSameLink, place_of};
ghost use Rattle.rc_file.specs.Settings.{IsValid};
ghost use Rattle.mail_store.specs.{Devices.stored_in, FileName.IsAccountText, Maildir.AfterTaking, Held.AreById};
ghost use Rattle.fetch_record.specs.{Intents.closed_rows, Record.merged};
ghost use Rattle.session_parts.specs.{
  Parts.{KeepsBegun, keeping_in},
  Pretend.{JudgesMbox, LooksAtMbox, LooksIn, PreviewsWork, PreviewsSession, previews_of, preview_told},
  Pretend.told_nothing,
  Readiness.HasFlags,
  Scene.WhereAllSound,
  Target.{AfterTakingIn, AsFiles, NoneBegun, in_maildir, is_sound, kind_of, Entries, Files, stores_of, target_of},
};

use crate::fault::{Cut, Fault};
use crate::message_preview::{MessagePreview, message_previews};
use crate::opening::enter;
use crate::readiness::{Found, read};
use crate::report::Outcome;
use crate::terms::Terms;
use crate::work::{Ledger, Store, Work};
use fetch_rules::{Listing, Seen, plan_without};
use mail_store::{
    AccountId, FlatFile, MaildirDisk, held, listed_size, odd_flags, peek_mbox, peek_settled,
};
use pop3_client::Client;
use pop3_wire::Wire;
use std::alloc::{AllocError, Global};
use std::hash::BuildHasher;
use std::vec::Vec;

/// What a run would do.
#[derive(Drop)]
pub struct Preview {
    /// How the session of the preview came out.
    pub outcome: Outcome,
    /// How many messages the server listed; 0 if the listings weren't joined.
    pub total: u32,
    /// What would be done with each message, in order; none if that isn't known.
    pub message_previews: Vec<MessagePreview>,
}

/// Whether the entry of the record's open intent is whole in the mboxrd file, and whether an entry may follow
/// once a run has settled that file. It is only looked at.
fn judge_mbox<F: FlatFile, H: BuildHasher>(
    alloc: Global,
    mbox: &mut F,
    seen: &Seen<H>,
    listing: &Listing,
) -> Result<bool, Fault>
    ensures { F.sound mbox.new → F.sound mbox.old
        × JudgesMbox seen.now.intent listing.now (stored_in F.FlatFile mbox.old) result
        (stored_in F.FlatFile mbox.new) }
{
    let Some(intent) = seen.intent() else {
        peek_mbox(mbox)?;
        return Ok(false);
    };
    let listed = listed_size(listing, intent.uid);
    Ok(peek_settled(alloc, mbox, intent.start, intent.len, listed)?)
}

/// What a run would find in an mboxrd file. No message is held, except by the record.
fn look_at_mbox<F: FlatFile, H: BuildHasher>(
    alloc: Global,
    mbox: &mut F,
    seen: &Seen<H>,
    listing: &Listing,
) -> Result<Found, Fault>
    ensures flags { IfOk result (HasFlags Entries listing.now) }
    ensures looks { F.sound mbox.new → F.sound mbox.old
        × LooksAtMbox seen.now.intent (stored_in F.FlatFile mbox.old) listing.now result
        (stored_in F.FlatFile mbox.new) }
{
    let stored = judge_mbox(alloc, mbox, seen, listing)?;
    let held = vec![in alloc; false; listing.len() as usize]?;
    let odd = vec![in alloc; false; listing.len() as usize]?;
    Ok(Found { held, odd, stored })
}

/// What a run would find in a Maildir, which stays as it is.
fn look_at_maildir<D: MaildirDisk>(
    alloc: Global,
    disk: &mut D,
    account: &AccountId,
    listing: &Listing,
) -> Result<Found, Fault>
    ensures flags { IfOk result (HasFlags Files listing.now) }
    ensures looks { D.sound disk.new → D.sound disk.old × AfterTaking (D.maildir disk.old)
        (λ left. LooksIn (AsFiles account.now) None (in_maildir left) listing.now result
        (in_maildir (D.maildir disk.new))) }
{
    let held = held(alloc, disk, account, listing)?;
    let odd = odd_flags(alloc, disk, account, listing)?;
    Ok(Found {
        held,
        odd,
        stored: false,
    })
}

/// What a run would find in a store, which stays as it is.
fn look<D: MaildirDisk, F: FlatFile, H: BuildHasher>(
    alloc: Global,
    store: &mut Store<D, F>,
    seen: &Seen<H>,
    account: &AccountId,
    listing: &Listing,
) -> Result<Found, Fault>
    ensures kind { kind_of store.new ≡ kind_of store.old }
    ensures flags { IfOk result (HasFlags (kind_of store.old) listing.now) }
    ensures stays { is_sound D.MaildirDisk F.FlatFile store.new → is_sound D.MaildirDisk F.FlatFile store.old
        × ((stores_of D.MaildirDisk F.FlatFile store.new).maildir.begun
        ≡ (stores_of D.MaildirDisk F.FlatFile store.old).maildir.begun) }
    ensures looks { is_sound D.MaildirDisk F.FlatFile store.new → is_sound D.MaildirDisk F.FlatFile store.old
        × AfterTakingIn (stores_of D.MaildirDisk F.FlatFile store.old)
        (λ left. LooksIn (target_of store.old account.now) seen.now.intent
        left listing.now result (stores_of D.MaildirDisk F.FlatFile store.new)) }
{
    match store {
        Store::Maildir(disk) => look_at_maildir(alloc, disk, account, listing),
        Store::Mboxrd(mbox) => look_at_mbox(alloc, mbox, seen, listing),
    }
}

/// What a preview says of a listing, once the open intent is ended and the listing merged into the record, only
/// in memory.
fn preview_merged<H: BuildHasher>(
    alloc: Global,
    terms: Terms<'_>,
    seen: &mut Seen<H>,
    listing: &Listing,
    found: &Found,
) -> Result<Vec<MessagePreview>, AllocError>
    requires { (length found.now.held.items ≡ length listing.now) × AreById listing.now found.now.odd.items }
    ensures { (is_odd : List ℕ → Bool) → found.now.odd.items ≡ map (λ item. is_odd item.uid) listing.now
        → IfOk result (λ told. told.items ≡ previews_of terms.entry.settings.now is_odd
        (merged (closed_rows found.now.stored seen.old.rows seen.old.intent) listing.now found.now.held.items
        terms.entry.now) listing.now found.now.held.items terms.entry.now) }
{
    let held: &[bool] = &found.held;
    seen.close(found.stored);
    seen.merge(listing, held, terms.now)?;
    let steps = plan_without(alloc, terms.settings, seen, listing, terms.now, &found.odd)?;
    message_previews(alloc, terms, seen, listing, held, &steps)
}

/// Reads the record, looks at the store as a run would, and tells what would be done. Nothing is saved.
fn preview_work<D: MaildirDisk, F: FlatFile, H: BuildHasher>(
    work: &mut Work<D, F, H>,
    terms: Terms<'_>,
    listing: &Listing,
) -> Result<Vec<MessagePreview>, Fault>
    ensures store { KeepsBegun D.MaildirDisk F.FlatFile work.old work.new }
    ensures previews { is_sound D.MaildirDisk F.FlatFile work.new.store → F.sound work.new.ledger.file
        → is_sound D.MaildirDisk F.FlatFile work.old.store × F.sound work.old.ledger.file
        × AfterTakingIn (stores_of D.MaildirDisk F.FlatFile work.old.store)
        (λ left. PreviewsWork terms.entry.settings.now
        (target_of work.old.store terms.entry.account.now) listing.now terms.entry.now
        (keeping_in F.FlatFile left work.old.ledger.file) result
        (keeping_in F.FlatFile (stores_of D.MaildirDisk F.FlatFile work.new.store) work.new.ledger.file)) }
{
    let alloc = work.ledger.alloc;
    let Ledger { file, seen, .. } = &mut work.ledger;
    read(alloc, file, seen)?;
    let found = look(alloc, &mut work.store, seen, terms.account, listing)?;
    Ok(preview_merged(alloc, terms, seen, listing, &found)?)
}

/// Logs in, tells what would be done with the listed messages, and quits, up to the first fault.
pub fn preview_session<W: Wire, D: MaildirDisk, F: FlatFile, H: BuildHasher>(
    client: &mut Client<'_, W>,
    work: &mut Work<D, F, H>,
    terms: Terms<'_>,
    preview: &mut Preview,
) -> Result<(), Cut>
    requires valid { IsValid terms.settings.now }
    requires none_begun { NoneBegun D.MaildirDisk F.FlatFile work.old.store }
    requires nothing { preview_told preview.old ≡ told_nothing 0 }
    ensures link { HasSameLink client.old client.new }
    ensures kind { kind_of work.new.store ≡ kind_of work.old.store }
    ensures outcome { preview.new.outcome ≡ preview.old.outcome }
    ensures none_begun { is_sound D.MaildirDisk F.FlatFile work.new.store
        → is_sound D.MaildirDisk F.FlatFile work.old.store
        × ((stores_of D.MaildirDisk F.FlatFile work.new.store).maildir.begun ≡ None) }
    ensures previews { WhereAllSound W.sound W.leads_to
        (is_sound D.MaildirDisk F.FlatFile) F.sound client.old.wire.now client.new.wire.now
        work.old.store work.new.store work.old.ledger.file work.new.ledger.file
        (AfterTakingIn (stores_of D.MaildirDisk F.FlatFile work.old.store)
        (λ left. PreviewsSession terms.entry.settings.now
        (target_of work.old.store terms.entry.account.now) terms.entry.now (place_of W.Wire client.old)
        (keeping_in F.FlatFile left work.old.ledger.file) result (place_of W.Wire client.new)
        (keeping_in F.FlatFile (stores_of D.MaildirDisk F.FlatFile work.new.store) work.new.ledger.file)
        (preview_told preview.new))) }
{
    let listing = enter(work.ledger.alloc, terms.settings, client)?;
    preview.total = listing.len();
    preview.message_previews = preview_work(work, terms, &listing)?;
    client.quit()?;
    Ok(())
}
