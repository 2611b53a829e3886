//! Which messages of a listing are fetched, and which are deleted.

ghost use Rattle.std.specs.{
  Prelude.{◌≡◌, ◌<◌, false, ◌&&◌, ◌||◌, ◌↔◌, true, length, map, All, ℕ, Bool, List, IsTrue, HoldsAt, IfOk, None, Some},
  Prelude.if◌then◌else◌,
  Option.option_or,
};
ghost use Rattle.mail_terms.specs.Listing.{numbered, is_last};
ghost use Rattle.fetch_record.specs.Record.{is_delivered};
ghost use Rattle.fetch_rules.specs.{
  Wanted.{is_full, none_odd, own_skip, wanted},
  Due.{is_due, may_delete},
  Plan.{IsQuiet, may_be_deleted, seen_since, planned, retrieved},
};

use crate::occurrence::{are_first, are_last};
use fetch_record::Seen;
use mail_terms::Listing;
use rc_file::Settings;
use std::alloc::{AllocError, Global};
use std::hash::BuildHasher;

/// How many seconds a day has.
pub const SECONDS_PER_DAY: u64 = 86_400;

/// Why a message isn't fetched.
#[derive(Clone, Copy, Debug, PartialEq, Eq)]
pub enum Skip {
    /// The record has it as delivered.
    Delivered,
    /// What can't be opened bears its name in the store.
    Obstructed,
    /// Its size is above the limit.
    TooLarge,
    /// As many messages as a session may fetch come before it.
    PastLimit,
    /// An earlier message has its id.
    SameId,
}

/// What is done with the message of a number.
#[derive(Clone, Copy, Debug, PartialEq, Eq)]
pub struct Step {
    /// The message's number in the listing, from 1.
    pub number: u32,
    /// Why its text isn't fetched, if it isn't.
    pub skip: Option<Skip>,
    /// Whether it is deleted, after it was fetched if it is.
    pub delete: bool,
}

impl Step {
    ghost use Rattle.fetch_rules.specs.Plan.{fetches};

    /// Whether its text is fetched.
    pub fn retrieve(&self) -> bool
        ensures { result ≡ fetches self.now }
    {
        self.skip.is_none()
    }
}

/// Whether what was first seen at a second is to be deleted now. The difference is 0 if the clock
/// went back.
fn is_due(settings: &Settings, now: u64, since: u64) -> bool
    ensures { result ≡ is_due settings.now now since }
{
    let days = now.saturating_sub(since) / SECONDS_PER_DAY;
    settings.delete || (settings.delete_after != 0 && settings.delete_after <= days)
}

/// Whether the settings let any message be deleted.
fn may_delete(settings: &Settings) -> bool
    ensures { result ≡ may_delete settings.now }
{
    settings.delete || settings.delete_after != 0
}

/// For each message, whether no later one has its id. If nothing may be deleted the flags aren't
/// used, and mean nothing.
#[tactic(auto, using(crate::proofs::PlanLemmas::flags_count))]
fn lasts_where_asked(
    alloc: Global,
    settings: &Settings,
    listing: &Listing,
) -> Result<Vec<bool>, AllocError>
    ensures count { IfOk result (λ flags. length flags.items ≡ length listing.now) }
    ensures flags { may_delete settings.now ≡ true
        → IfOk result (λ flags. flags.items ≡ map (is_last listing.now) (numbered listing.now)) }
{
    if may_delete(settings) {
        return are_last(alloc, listing);
    }
    let flags = vec![in alloc; false; listing.len() as usize]?;
    Ok(flags)
}

/// Whether a session that fetched this many messages fetches no more.
fn is_full(settings: &Settings, fetched: u64) -> bool
    ensures { result ≡ is_full settings.now fetched }
{
    settings.max_count != 0 && settings.max_count <= fetched
}

/// Why the message of number `i + 1` isn't fetched, if there is a reason of its own; `odd` says whether what can't
/// be opened bears its name.
fn own_skip<H: BuildHasher>(
    settings: &Settings,
    seen: &Seen<H>,
    listing: &Listing,
    odd: bool,
    i: u32,
) -> Option<Skip>
    requires { i < length listing.now }
    ensures { HoldsAt (λ item. result ≡ own_skip settings.now odd (is_delivered seen.now.rows) item.uid item.size)
        listing.now i }
{
    if !settings.read_all && seen.is_delivered(listing.uid(i)) {
        return Some(Skip::Delivered);
    }
    if odd {
        return Some(Skip::Obstructed);
    }
    if settings.max_size != 0 && settings.max_size < listing.size(i) {
        return Some(Skip::TooLarge);
    }
    None
}

/// Why a message isn't fetched, if there is a reason, by its own; `first` says whether it is the first with its id,
/// and `full` whether a session is full before it.
fn skip_for(own: Option<Skip>, first: bool, full: bool) -> Option<Skip>
    ensures { result ≡ option_or own (if full then Some Skip.PastLimit else if first then None else Some Skip.SameId) }
{
    if own.is_some() {
        return own;
    }
    if full {
        return Some(Skip::PastLimit);
    }
    if first { None } else { Some(Skip::SameId) }
}

/// Whether a message that is passed over for this reason, or fetched, may be deleted once it is due.
pub fn may_be_deleted(delivered: bool, skip: Option<Skip>) -> bool
    ensures { result ≡ may_be_deleted delivered skip }
{
    (delivered || skip.is_none()) && !matches!(skip, Some(Skip::Obstructed))
}

/// Whether the message of number `i + 1` is to be deleted if no other message has its id; `skip` says why it isn't
/// fetched, if it isn't.
fn is_done_with<H: BuildHasher>(
    settings: &Settings,
    seen: &Seen<H>,
    listing: &Listing,
    now: u64,
    skip: Option<Skip>,
    i: u32,
) -> bool
    requires { i < length listing.now }
    ensures { HoldsAt (λ item. result ≡ (is_due settings.now now (seen_since seen.now.rows item.uid now)
        && may_be_deleted (is_delivered seen.now.rows item.uid) skip)) listing.now i }
{
    let uid = listing.uid(i);
    is_due(settings, now, seen.first_seen(uid).unwrap_or(now))
        && may_be_deleted(seen.is_delivered(uid), skip)
}

/// As `plan_without`, if no flag is set.
pub fn plan<H: BuildHasher>(
    alloc: Global,
    settings: &Settings,
    seen: &Seen<H>,
    listing: &Listing,
    now: u64,
) -> Result<Vec<Step>, AllocError>
    ensures steps { IfOk result
        (λ steps. steps.items ≡ planned settings.now none_odd seen.now.rows listing.now now) }

    // What is fetched is, in order, the wanted messages.
    ensures fetched { IfOk result
        (λ steps. retrieved steps.items listing.now ≡ wanted settings.now none_odd seen.now.rows listing.now) }
{
    let none = vec![in alloc; false; listing.len() as usize]?;
    plan_without(alloc, settings, seen, listing, now, &none)
}

/// One step for each message of the listing, in order.
///
/// A message is fetched unless it is recorded as delivered and `read_all` is false, its flag in `odd` says
/// that what can't be opened bears its name, its size is above `max_size`, `max_count` others that may be
/// fetched come before it, or an earlier one has its id; the first of these reasons is given. A 0 sets no
/// limit. One that is passed over for its flag isn't deleted; another is if it is recorded as delivered or is
/// fetched, no other message has its id, and `delete` is true or it was first seen `delete_after` days ago or
/// more; a 0 sets no age. An id without a row is not delivered, and is first seen now. `now` is in seconds since
/// 1970. Takes n log n comparisons of ids for n messages, and up to three look-ups in the record for each.
pub fn plan_without<H: BuildHasher>(
    alloc: Global,
    settings: &Settings,
    seen: &Seen<H>,
    listing: &Listing,
    now: u64,
    odd: &[bool],
) -> Result<Vec<Step>, AllocError>
    requires { length odd.now ≡ length listing.now }
    ensures { (is_odd : List ℕ → Bool) → odd.now ≡ map (λ item. is_odd item.uid) listing.now
        → IfOk result (λ steps. steps.items ≡ planned settings.now is_odd seen.now.rows listing.now now) }
{
    let firsts = are_first(alloc, listing)?;
    let lasts = lasts_where_asked(alloc, settings, listing)?;
    let mut steps = Vec::with_capacity(alloc, listing.len() as usize)?;
    let mut fetched: u64 = 0;
    for i in 0..listing.len() {
        let first = firsts[i as usize];
        // Both are known: `&&` would only be a branch more to prove.
        let alone = first & lasts[i as usize];
        let full = is_full(settings, fetched);
        let own = own_skip(settings, seen, listing, odd[i as usize], i);
        let skip = skip_for(own, first, full);
        let delete = is_done_with(settings, seen, listing, now, skip, i) & alone;
        steps.push(Step {
            number: i + 1,
            skip,
            delete,
        })?;
        fetched += u64::from(skip.is_none());
    }
    Ok(steps)
}

/// Whether a step neither fetches nor deletes.
fn is_quiet(step: &Step) -> bool
    ensures { IsTrue result ↔ IsQuiet step.now }
{
    step.skip.is_some() && !step.delete
}

/// Whether steps neither fetch nor delete anything.
pub fn ask_nothing(steps: &[Step]) -> bool
    ensures { IsTrue result ↔ All IsQuiet steps.now }
{
    steps.iter().all(|step| is_quiet(step))
}

/// As `plan_without`, whatever is odd, if each listed id is recorded as delivered and only what is new is fetched.
/// If nothing may be deleted, nothing is looked up.
pub fn plan_of_known<H: BuildHasher>(
    alloc: Global,
    settings: &Settings,
    seen: &Seen<H>,
    listing: &Listing,
    now: u64,
) -> Result<Vec<Step>, AllocError>
    requires new_alone { settings.now.read_all ≡ false }
    requires known { All (λ item. is_delivered seen.now.rows item.uid ≡ true) listing.now }
    ensures { (is_odd : List ℕ → Bool)
        → IfOk result (λ steps. steps.items ≡ planned settings.now is_odd seen.now.rows listing.now now) }
{
    if may_delete(settings) {
        return plan(alloc, settings, seen, listing, now);
    }
    let mut steps = Vec::with_capacity(alloc, listing.len() as usize)?;
    for i in 0..listing.len() {
        steps.push(Step {
            number: i + 1,
            skip: Some(Skip::Delivered),
            delete: false,
        })?;
    }
    Ok(steps)
}
