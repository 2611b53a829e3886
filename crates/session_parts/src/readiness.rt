//! What a session knows before its plan is carried out: the record, and what the store holds.
ghost use Rattle.std.specs.{
  Prelude.{◌≡◌, ◌⊎◌, ℕ, Bool, List, [], true, All, None, Some, length, OnOk, IfOk, IfSome},
  List.AllByRecursion,
};
ghost use Rattle.fetch_record.specs.{
  Record.{IsRecord, Loaded, has_row, is_delivered, none_open},
  RecordFile.file_of,
};
ghost use Rattle.fetch_rules.specs.Plan.{IsQuiet, planned};
ghost use Rattle.session_parts.specs.{
  Mbox.{AsksMbox, SettlesIntent},
  Durable.{AreTrusted, IsSafeFile, IsSafeStore, LeavesMerged, LeavesSettled, LeavesSettledIn, LeavesStore},
  Durable.{ReadiesDurably, is_trusted},
  Parts.{KeepsBegun, ReadiesWork, StandsForRows},
  Target.{AfterTakingIn, AreNamed, is_sound, kind_of, stores_of, Entries, Files, target_of},
  Readiness.{ChecksStore, FindsHeld, FindsIn, HasPlan, IsAsRead, IsHeldAsIn, IsIdle, ChecksIdle, HasFlags},
  Readiness.{are_undelivered, flags_found, taken_in},
  Record.{Gets, ReadsRecord, FileReadAs, Merges, IsLineFault, IsSecured, record_state_in},
};
ghost use Rattle.mail_store.specs.{
  Devices.stored_in,
  Durable.{Trusted, MayLeave},
  Maildir.AfterTaking,
  Power.LeavesNoMore,
};

use crate::fault::Fault;
use crate::record::{grow, save};
use crate::terms::Terms;
use crate::work::{Ledger, Store, Work};
use fetch_rules::{
    Listing, Seen, SeenFault, Step, ask_nothing, delivered_has_row, held_is_delivered,
    known_listings_change_nothing, listed_has_row, marked_is_delivered,
    merges_ask_only_for_new_ids, only_asked_for_are_fetched, plan_of_known, plan_without,
};
use mail_store::{
    FlatFile, Folder, MaildirDisk, Query, StoreFault, check_mbox, flush_held, listed_size,
    odd_flags, peek_mbox, settle_file,
};
use std::alloc::{AllocError, Global};
use std::hash::BuildHasher;
use std::vec::Vec;

/// The plan of a session, and what its store holds.
#[derive(Drop)]
pub struct Ready {
    /// For each message, whether the store holds it; always `false` for an mboxrd file.
    pub held: Vec<bool>,
    /// What is done with each message.
    pub steps: Vec<Step>,
}

/// What was found in the store.
#[derive(Drop)]
pub struct Found {
    /// For each message, whether the store holds it.
    pub held: Vec<bool>,
    /// For each message, whether what can't be opened bears its name there.
    pub odd: Vec<bool>,
    /// Whether the entry of the record's open intent is whole in the mboxrd file.
    pub stored: bool,
}

/// The fault of a session for a fault of the record's file: its line, or out of memory.
fn line_of(fault: SeenFault) -> Fault
    ensures { IsLineFault fault result }
{
    match fault {
        SeenFault::BadHeader => Fault::BadSeen(1),
        SeenFault::BadRow(line) => Fault::BadSeen(line),
        SeenFault::RepeatedId(line) => Fault::BadSeen(line),
        SeenFault::NoMemory => Fault::NoMemory,
    }
}

/// The bytes of the record's file; none if it isn't there. Nothing is flushed.
fn load<F: FlatFile>(alloc: Global, file: &mut F) -> Result<Vec<u8>, Fault>
    ensures gets { F.sound file.new → F.sound file.old
        × Gets (stored_in F.FlatFile file.old) result (stored_in F.FlatFile file.new) }
    ensures durable { F.sound file.new → F.disk file.new ≡ F.disk file.old }
{
    match file.peek() {
        Ok(bytes) => Ok(bytes),
        Err(StoreFault::Missing) => Ok(Vec::new(alloc)),
        Err(_) => Err(Fault::SeenRefused),
    }
}

/// Reads the record, and says whether its file is missing or empty.
pub(crate) fn read<F: FlatFile, H: BuildHasher>(
    alloc: Global,
    file: &mut F,
    seen: &mut Seen<H>,
) -> Result<bool, Fault>
    ensures reads { F.sound file.new → F.sound file.old
        × ReadsRecord (stored_in F.FlatFile file.old) seen.new result (stored_in F.FlatFile file.new) }
    ensures durable { F.sound file.new → F.disk file.new ≡ F.disk file.old }
    ensures is_record { OnOk result (IsRecord seen.new.rows) }
{
    let bytes = load(alloc, file)?;
    match seen.reread(&bytes) {
        Ok(()) => Ok(bytes.is_empty()),
        Err(fault) => Err(line_of(fault)),
    }
}

/// Flushes the record's file, if it is there, so that no loss of power takes back what was read.
fn secure<F: FlatFile>(file: &mut F) -> Result<(), Fault>
    ensures same { F.sound file.new → F.sound file.old × IsSecured (stored_in F.FlatFile file.old) result
        (stored_in F.FlatFile file.new) }
    ensures keeps { F.sound file.new → LeavesNoMore (MayLeave (F.disk file.old)) (MayLeave (F.disk file.new)) }
    ensures durable { F.sound file.new → Trusted (F.disk file.old).now → OnOk result (IsSafeFile F.FlatFile file.new) }
{
    match file.edges() {
        Ok(_) => Ok(()),
        Err(StoreFault::Missing) => Ok(()),
        Err(_) => Err(Fault::SeenRefused),
    }
}

/// For each message, whether the record doesn't show it as delivered.
fn undelivered<H: BuildHasher>(
    alloc: Global,
    seen: &Seen<H>,
    listing: &Listing,
) -> Result<Vec<bool>, AllocError>
    ensures { IfOk result (λ flags. flags.items ≡ are_undelivered seen.now.rows listing.now) }
{
    let mut flags = Vec::new(alloc);
    for i in 0..listing.len() {
        flags.push(!seen.is_delivered(listing.uid(i)))?;
    }
    Ok(flags)
}

/// Asks which of the messages a Maildir holds that the record doesn't show as delivered, or of all if all are
/// to be read, and of which what can't be opened bears the name. The files of the former that are held are flushed.
fn find_held<D: MaildirDisk, H: BuildHasher>(
    alloc: Global,
    disk: &mut D,
    seen: &Seen<H>,
    terms: Terms<'_>,
    listing: &Listing,
) -> Result<Found, Fault>
    ensures flags { IfOk result (HasFlags Files listing.now) }
    ensures finds { D.sound disk.new → D.sound disk.old
        × AfterTaking (D.maildir disk.old) (λ left. FindsHeld terms.entry.settings.now.read_all
        terms.entry.account.now seen.now.rows left listing.now result (D.maildir disk.new)) }
{
    let flags = undelivered(alloc, seen, listing)?;
    let asked = Query {
        all: terms.settings.read_all,
        flags: &flags,
    };
    let held = flush_held(alloc, disk, terms.account, listing, asked)?;
    let odd = odd_flags(alloc, disk, terms.account, listing)?;
    Ok(Found {
        held,
        odd,
        stored: false,
    })
}

/// Settles the open intent of the record in the mboxrd file, by the size that is listed for its
/// message, and returns whether its entry is whole. If no intent is open, the file isn't asked.
fn settle<F: FlatFile, H: BuildHasher>(
    alloc: Global,
    mbox: &mut F,
    seen: &Seen<H>,
    listing: &Listing,
) -> Result<bool, Fault>
    ensures settles { F.sound mbox.new → F.sound mbox.old
        × SettlesIntent seen.now.intent listing.now (stored_in F.FlatFile mbox.old) result
        (stored_in F.FlatFile mbox.new) }
    ensures durable { F.sound mbox.new → Trusted (F.disk mbox.old).now → OnOk result (Trusted (F.disk mbox.new).now) }
    ensures leaves { F.sound mbox.new → Trusted (F.disk mbox.old).now
        → LeavesSettled seen.now.intent (stored_in F.FlatFile mbox.old).content (MayLeave (F.disk mbox.old))
        (MayLeave (F.disk mbox.new)) }
{
    let Some(intent) = seen.intent() else {
        return Ok(false);
    };
    let listed = listed_size(listing, intent.uid);
    Ok(settle_file(alloc, mbox, intent.start, intent.len, listed)?)
}

/// Settles the mboxrd file, and checks whether an entry may follow it. No message is held, except
/// by the record.
fn ask_mbox<F: FlatFile, H: BuildHasher>(
    alloc: Global,
    mbox: &mut F,
    seen: &Seen<H>,
    listing: &Listing,
) -> Result<Found, Fault>
    ensures flags { IfOk result (HasFlags Entries listing.now) }
    ensures asks { F.sound mbox.new → F.sound mbox.old
        × AsksMbox seen.now.intent (stored_in F.FlatFile mbox.old) listing.now result (stored_in F.FlatFile mbox.new) }
    ensures durable { F.sound mbox.new → Trusted (F.disk mbox.old).now → OnOk result (IsSafeFile F.FlatFile mbox.new) }
    ensures leaves { F.sound mbox.new → Trusted (F.disk mbox.old).now
        → LeavesSettled seen.now.intent (stored_in F.FlatFile mbox.old).content (MayLeave (F.disk mbox.old))
        (MayLeave (F.disk mbox.new)) }
{
    let stored = settle(alloc, mbox, seen, listing)?;
    check_mbox(mbox)?;
    let held = vec![in alloc; false; listing.len() as usize]?;
    let odd = vec![in alloc; false; listing.len() as usize]?;
    Ok(Found { held, odd, stored })
}

/// Asks the store which messages it holds. In a Maildir only those are looked up that the record doesn't
/// show as delivered, unless all are to be read, and the files of those are flushed. An open intent of the record is
/// settled in the mboxrd file; in a Maildir it can't be, and counts as one without an entry.
fn ask_store<D: MaildirDisk, F: FlatFile, H: BuildHasher>(
    alloc: Global,
    store: &mut Store<D, F>,
    seen: &Seen<H>,
    terms: Terms<'_>,
    listing: &Listing,
) -> Result<Found, Fault>
    ensures kind { kind_of store.new ≡ kind_of store.old }
    ensures flags { IfOk result (HasFlags (kind_of store.old) listing.now) }
    ensures stays { is_sound D.MaildirDisk F.FlatFile store.new → is_sound D.MaildirDisk F.FlatFile store.old
        × ((stores_of D.MaildirDisk F.FlatFile store.new).maildir.begun
        ≡ (stores_of D.MaildirDisk F.FlatFile store.old).maildir.begun)
        × IfOk result (λ found. (found.held.items
        ≡ flags_found terms.entry.settings.now.read_all (target_of store.old terms.entry.account.now) seen.now.rows
        (stores_of D.MaildirDisk F.FlatFile store.new) listing.now) × AreNamed D.MaildirDisk F.FlatFile store.new) }
    ensures finds { is_sound D.MaildirDisk F.FlatFile store.new → is_sound D.MaildirDisk F.FlatFile store.old
        × AfterTakingIn (stores_of D.MaildirDisk F.FlatFile store.old)
        (λ left. FindsIn terms.entry.settings.now.read_all (target_of store.old terms.entry.account.now)
        (record_state_in seen.now) left listing.now result (stores_of D.MaildirDisk F.FlatFile store.new)) }
    ensures durable { is_sound D.MaildirDisk F.FlatFile store.new → is_trusted F.FlatFile store.old
        → OnOk result (IsSafeStore F.FlatFile store.new) }
    ensures leaves { is_sound D.MaildirDisk F.FlatFile store.new → is_trusted F.FlatFile store.old
        → LeavesSettledIn F.FlatFile seen.now.intent store.old store.new }
{
    match store {
        Store::Maildir(disk) => find_held(alloc, disk, seen, terms, listing),
        Store::Mboxrd(mbox) => ask_mbox(alloc, mbox, seen, listing),
    }
}

/// Merges a listing and what the store holds of it into the record, and saves what that changed:
/// the whole record if the file is missing, empty or must be written anew, else the rows appended.
/// An open intent is ended, by whether its entry was found whole.
fn take_in<F: FlatFile, H: BuildHasher>(
    file: &mut F,
    seen: &mut Seen<H>,
    listing: &Listing,
    found: &Found,
    now: u64,
    is_new: bool,
) -> Result<(), Fault>
    requires lengths { length found.now.held.items ≡ length listing.now }
    requires read { IsAsRead F.FlatFile file.old seen.old is_new }
    ensures rows { OnOk result (seen.new.rows ≡ taken_in seen.old found.now listing.now now) }
    ensures closed { OnOk result (seen.new.intent ≡ None) }
    ensures renewed { F.sound file.new → seen.old.stale ≡ true
        → OnOk result ((stored_in F.FlatFile file.new).content ≡ Some (file_of seen.new.rows None)) }
    ensures merges { F.sound file.new → F.sound file.old
        × Merges (stored_in F.FlatFile file.old) (record_state_in seen.old)
        (none_open (taken_in seen.old found.now listing.now now)) result (stored_in F.FlatFile file.new) }
    ensures durable { F.sound file.new → IsSafeFile F.FlatFile file.old
        → LeavesMerged (MayLeave (F.disk file.old)) (record_state_in seen.old)
        (taken_in seen.old found.now listing.now now) (MayLeave (F.disk file.new))
        × OnOk result (IsSafeFile F.FlatFile file.new) }
{
    seen.close(found.stored);
    if is_new || seen.needs_rewrite() {
        let changed = seen.merge(listing, &found.held, now)?;
        if changed || seen.needs_rewrite() {
            return save(file, seen);
        }
        return Ok(());
    }
    let group = seen.merge_rows(listing, &found.held, now)?;
    grow(file, &group)
}

/// The steps of the plan, if nothing that the store holds can change the record or what is done: each
/// listed id is recorded as delivered, nothing is to be fetched or deleted, and no intent is open.
fn idle_steps<H: BuildHasher>(
    alloc: Global,
    terms: Terms<'_>,
    seen: &Seen<H>,
    listing: &Listing,
) -> Result<Option<Vec<Step>>, AllocError>
    ensures { IfOk result (λ found. IfSome found (λ steps.
        IsIdle terms.entry.settings.now seen.now listing.now terms.entry.now steps.items)) }
{
    if terms.settings.read_all || seen.intent().is_some() {
        return Ok(None);
    }
    if !seen.knows(listing) {
        return Ok(None);
    }
    let steps = plan_of_known(alloc, terms.settings, seen, listing, terms.now)?;
    if !ask_nothing(&steps) {
        return Ok(None);
    }
    Ok(Some(steps))
}

/// Whether both folders of a Maildir are there, or an entry may follow an mboxrd file. Nothing is
/// flushed.
fn check_store<D: MaildirDisk, F: FlatFile>(store: &mut Store<D, F>) -> Result<(), StoreFault>
    ensures kind { kind_of store.new ≡ kind_of store.old }
    ensures checks { is_sound D.MaildirDisk F.FlatFile store.new → is_sound D.MaildirDisk F.FlatFile store.old
        × ChecksStore (kind_of store.old) (stores_of D.MaildirDisk F.FlatFile store.old) result
        (stores_of D.MaildirDisk F.FlatFile store.new) }
    ensures keeps { is_sound D.MaildirDisk F.FlatFile store.new → LeavesStore F.FlatFile store.old store.new }
{
    match store {
        Store::Maildir(disk) => {
            disk.check(Folder::New)?;
            disk.check(Folder::Cur)
        }
        Store::Mboxrd(mbox) => peek_mbox(mbox),
    }
}

/// What is ready if the store needn't be asked what it holds. It is only checked.
fn rest<D: MaildirDisk, F: FlatFile>(
    alloc: Global,
    store: &mut Store<D, F>,
    listing: &Listing,
    steps: Vec<Step>,
) -> Result<Ready, Fault>
    ensures kind { kind_of store.new ≡ kind_of store.old }
    ensures length { IfOk result (λ ready. length ready.held.items ≡ length listing.now) }
    ensures steps { IfOk result (λ ready. ready.steps.items ≡ steps.items) }
    ensures finds { is_sound D.MaildirDisk F.FlatFile store.new → is_sound D.MaildirDisk F.FlatFile store.old
        × ChecksIdle (kind_of store.old) (stores_of D.MaildirDisk F.FlatFile store.old) listing.now result
        (stores_of D.MaildirDisk F.FlatFile store.new) }
    ensures keeps { is_sound D.MaildirDisk F.FlatFile store.new → LeavesStore F.FlatFile store.old store.new }
{
    check_store(store)?;
    let held = vec![in alloc; false; listing.len() as usize]?;
    Ok(Ready { held, steps })
}

/// What is ready if nothing that the store holds can change what is done. The store is only checked, and
/// the record is written anew if its file needs that.
fn stay_idle<D: MaildirDisk, F: FlatFile, H: BuildHasher>(
    work: &mut Work<D, F, H>,
    terms: Terms<'_>,
    listing: &Listing,
    steps: Vec<Step>,
) -> Result<Ready, Fault>
    requires stands { F.sound work.old.ledger.file
        → FileReadAs (stored_in F.FlatFile work.old.ledger.file).content work.old.ledger.seen }
    requires idle { IsIdle terms.settings.now work.old.ledger.seen listing.now terms.now steps.items }
    ensures store { KeepsBegun D.MaildirDisk F.FlatFile work.old work.new }
    ensures steps { IfOk result (λ ready. ready.steps.items ≡ steps.items) }
    ensures length { IfOk result (λ ready. length ready.held.items ≡ length listing.now) }
    ensures seen { work.new.ledger.seen ≡ work.old.ledger.seen }
    ensures steady { F.sound work.new.ledger.file → F.sound work.old.ledger.file
        × OnOk result (StandsForRows F.FlatFile work.new.ledger.file work.old.ledger.seen.rows) }
    ensures readies { is_sound D.MaildirDisk F.FlatFile work.new.store → F.sound work.new.ledger.file
        → is_sound D.MaildirDisk F.FlatFile work.old.store × F.sound work.old.ledger.file
        × ReadiesDurably D.MaildirDisk F.FlatFile (Unit {0}) work.old.store work.old.ledger.file
        terms.entry.settings.now
        (target_of work.old.store terms.entry.account.now) listing.now terms.entry.now
        (stores_of D.MaildirDisk F.FlatFile work.old.store) result work.old.ledger.seen.rows work.new.store
        work.new.ledger.file }
{
    known_listings_change_nothing();
    let ready = rest(work.ledger.alloc, &mut work.store, listing, steps)?;
    let Ledger { file, seen, .. } = &mut work.ledger;
    if !seen.needs_rewrite() {
        return Ok(ready);
    }
    save(file, seen)?;
    Ok(ready)
}

/// Settles the open intent of the record that was read, merges the listing and what the store holds
/// of it, saves the record if that changed it, and makes the plan.
fn prepare_by_store<D: MaildirDisk, F: FlatFile, H: BuildHasher>(
    work: &mut Work<D, F, H>,
    terms: Terms<'_>,
    listing: &Listing,
    is_new: bool,
) -> Result<Ready, Fault>
    requires read { IsAsRead F.FlatFile work.old.ledger.file work.old.ledger.seen is_new }
    requires is_record { IsRecord work.old.ledger.seen.rows }
    ensures store { KeepsBegun D.MaildirDisk F.FlatFile work.old work.new }
    ensures plans { IfOk result
        (λ ready. HasPlan (kind_of work.old.store) terms.entry.settings.now listing.now terms.entry.now ready
        work.new.ledger.seen) }
    ensures held { is_sound D.MaildirDisk F.FlatFile work.new.store → IfOk result (λ ready.
        IsHeldAsIn D.MaildirDisk F.FlatFile work.old.store terms.entry.account.now listing.now ready work.new.store
        × AreNamed D.MaildirDisk F.FlatFile work.new.store) }
    ensures steady { F.sound work.new.ledger.file → F.sound work.old.ledger.file
        × OnOk result (StandsForRows F.FlatFile work.new.ledger.file work.new.ledger.seen.rows) }
    ensures readies { ReadiesWork D.MaildirDisk F.FlatFile
        (is_trusted F.FlatFile work.old.store × IsSafeFile F.FlatFile work.old.ledger.file) terms.entry listing.now
        work.old result work.new }
{
    listed_has_row();
    held_is_delivered();
    marked_is_delivered();
    merges_ask_only_for_new_ids();
    only_asked_for_are_fetched();
    let alloc = work.ledger.alloc;
    let found = ask_store(alloc, &mut work.store, &work.ledger.seen, terms, listing)?;
    let Ledger { file, seen, .. } = &mut work.ledger;
    take_in(file, seen, listing, &found, terms.now, is_new)?;
    let steps = plan_without(alloc, terms.settings, seen, listing, terms.now, &found.odd)?;
    Ok(Ready {
        held: found.held,
        steps,
    })
}

/// Reads the record, settles its open intent, merges the listing and what the store holds of it,
/// saves the record if that changed it, and makes the plan. A store isn't asked what it holds if
/// that can change nothing: then nothing is fetched or deleted, and nothing is written or flushed but a
/// record that has to be written anew.
pub fn prepare<D: MaildirDisk, F: FlatFile, H: BuildHasher>(
    work: &mut Work<D, F, H>,
    terms: Terms<'_>,
    listing: &Listing,
) -> Result<Ready, Fault>
    ensures store { KeepsBegun D.MaildirDisk F.FlatFile work.old work.new }
    ensures plans { IfOk result
        (λ ready. HasPlan (kind_of work.old.store) terms.entry.settings.now listing.now terms.entry.now ready
        work.new.ledger.seen) }
    ensures held { is_sound D.MaildirDisk F.FlatFile work.new.store → IfOk result (λ ready.
        IsHeldAsIn D.MaildirDisk F.FlatFile work.old.store terms.entry.account.now listing.now ready work.new.store) }
    ensures named { is_sound D.MaildirDisk F.FlatFile work.new.store → IfOk result (λ ready.
        All IsQuiet ready.steps.items ⊎ AreNamed D.MaildirDisk F.FlatFile work.new.store) }
    ensures steady { F.sound work.new.ledger.file → F.sound work.old.ledger.file
        × OnOk result (StandsForRows F.FlatFile work.new.ledger.file work.new.ledger.seen.rows) }
    ensures readies { ReadiesWork D.MaildirDisk F.FlatFile
        (AreTrusted F.FlatFile work.old.store work.old.ledger.file) terms.entry listing.now work.old result work.new }
{
    delivered_has_row();
    let alloc = work.ledger.alloc;
    let Ledger { file, seen, .. } = &mut work.ledger;
    let is_new = read(alloc, file, seen)?;
    if let Some(steps) = idle_steps(alloc, terms, seen, listing)? {
        return stay_idle(work, terms, listing, steps);
    }
    secure(file)?;
    prepare_by_store(work, terms, listing, is_new)
}
