//! How a listing changes the rows of a record.

ghost use Rattle.std.specs.{
  Prelude.{◌≡◌, ◌≢◌, ◌⊎◌, ◌≤◌, ◌<◌, ◌++◌, ◌&&◌, ◌||◌, not, ℕ, List, length, map, take, All, true, false, OnOk, OnErr},
  Prelude.{IfOk, IsTrue},
  Bool.{OnTrue, OnFalse},
};
ghost use Rattle.mail_terms.specs.{Listing.{message_limit, is_flagged}, UniqueId.{IsLegalId, has_id}};
ghost use Rattle.fetch_record.specs.{
  Record.{IsRecord, marked, with_held, new_ids, undelivered, is_delivered},
  RecordFile.{changed, written},
};

use crate::line::{group, write_line};
use crate::row_map::{RowMap, State};
use mail_terms::{IdSet, Listing};
use std::alloc::{AllocError, Global};
use std::hash::BuildHasher;

/// Whether a row is delivered, or its id is among these.
fn is_marked(state: State, ids: &IdSet<'_>, uid: &[u8]) -> bool
    requires { IsLegalId uid.now }
    ensures { result ≡ (state.delivered || has_id ids.now uid.now) }
{
    state.delivered || ids.has(uid)
}

/// Whether a row at a place is one of the first `count`, and its state stays.
fn is_as_before(place: usize, count: usize, old: bool, new: bool) -> bool
    ensures same { IsTrue result → (place < count) × (new ≡ old) }
    ensures other { result ≡ false → (count ≤ place) ⊎ (new ≢ old) }
{
    place < count && new == old
}

impl<H: BuildHasher> RowMap<H> {
    /// Sets delivered for the id, if it has a row. Returns whether this changed the row.
    #[tactic(auto, using(crate::proofs::RowLemmas::mark_laws))]
    pub(crate) fn mark(&mut self, uid: &[u8]) -> bool
        ensures rows { self.new ≡ marked self.old uid.now }
        ensures changed { OnTrue result (self.new ≢ self.old) }
        ensures unchanged { OnFalse result (self.new ≡ self.old) }
        ensures is_record { IsRecord self.new }
    {
        let Some(state) = self.state(uid) else {
            return false;
        };
        if state.delivered {
            return false;
        }
        self.set_delivered(uid);
        true
    }

    /// Adds a row for each id of the listing that has none, until memory runs out.
    fn add_until_refused(&mut self, listing: &Listing, now: u64) -> Result<(), AllocError>
        ensures rows { OnOk result (self.new ≡ self.old ++ map (undelivered now) (new_ids self.old listing.now)) }
        ensures limit { length listing.now ≤ message_limit }
        ensures front { take (length self.old) self.new ≡ self.old }
        ensures is_record { IsRecord self.new }
    {
        // For the proof alone: `len` says that the rows are a record, from which the loop starts.
        let _ = self.len();
        for i in 0..listing.len() {
            let uid = listing.uid(i);
            if self.has(uid) {
                continue;
            }
            // The rest may be new too; room that is made at once leaves no smaller tables behind.
            self.reserve((listing.len() - i) as usize)?;
            let state = State {
                first_seen: now,
                delivered: false,
            };
            self.put(uid, state)?;
        }
        Ok(())
    }

    /// Adds a row for each id of the listing that has none. If memory runs out nothing has changed.
    pub(crate) fn add_listed(&mut self, listing: &Listing, now: u64) -> Result<(), AllocError>
        ensures rows { OnOk result (self.new ≡ self.old ++ map (undelivered now) (new_ids self.old listing.now)) }
        ensures limit { length listing.now ≤ message_limit }
        ensures err { OnErr result (self.new ≡ self.old) }
        ensures is_record { IsRecord self.new }
    {
        let count = self.len();
        let added = self.add_until_refused(listing, now);
        if added.is_err() {
            self.keep_first(count);
        }
        added
    }

    /// Whether all rows are recorded as delivered.
    fn are_delivered(&self) -> bool
        ensures { OnTrue result (All (λ row. row.delivered ≡ true) self.now) }
    {
        for place in 0..self.len() {
            let (_, state) = self.at(place);
            if !state.delivered {
                return false;
            }
        }
        true
    }

    /// Sets delivered for the held items' ids. Returns whether this changed a row.
    #[tactic(auto, using(crate::proofs::RowLemmas::with_held_same))]
    pub(crate) fn mark_held(&mut self, listing: &Listing, held: &[bool]) -> bool
        requires { length held.now ≡ length listing.now }
        ensures rows { self.new ≡ with_held listing.now held.now self.old }
        ensures changed { OnTrue result (self.new ≢ self.old) }
        ensures unchanged { OnFalse result (self.new ≡ self.old) }
        ensures is_record { IsRecord self.new }
    {
        // For the proof alone: `len` says that the rows are a record, from which the loop starts.
        let _ = self.len();
        if self.are_delivered() {
            return false;
        }
        let mut changed = false;
        for i in 0..listing.len() {
            if held[i as usize] {
                changed |= self.mark(listing.uid(i));
            }
        }
        changed
    }

    /// The ids of the items that are held and not recorded as delivered.
    fn held_anew<'a>(
        &self,
        alloc: Global,
        listing: &'a Listing,
        held: &[bool],
    ) -> Result<IdSet<'a>, AllocError>
        requires { length held.now ≡ length listing.now }
        ensures { IfOk result (λ ids. (uid : List ℕ)
            → has_id ids uid ≡ (is_flagged listing.now held.now uid && not (is_delivered self.now uid))) }
    {
        let mut ids = IdSet::new(alloc);
        for i in 0..listing.len() {
            let uid = listing.uid(i);
            if held[i as usize] && !self.is_delivered(uid) {
                ids.insert(uid)?;
            }
        }
        Ok(ids)
    }

    /// The group of the rows that change when the held items' ids are marked, and of all rows from
    /// place `count` on, which were added before.
    pub(crate) fn group_of_changes(
        &self,
        alloc: Global,
        listing: &Listing,
        held: &[bool],
        count: usize,
    ) -> Result<Vec<u8>, AllocError>
        requires flags { length held.now ≡ length listing.now }
        requires within { count ≤ length self.now }
        ensures { IfOk result (λ bytes. bytes.items
            ≡ written (changed (take count self.now) (with_held listing.now held.now self.now))) }
    {
        if count == self.len() && self.are_delivered() {
            return Ok(Vec::new(alloc));
        }
        let ids = self.held_anew(alloc, listing, held)?;
        let mut lines = Vec::new(alloc);
        let mut changes: usize = 0;
        for place in 0..self.len() {
            let (uid, state) = self.at(place);
            let delivered = is_marked(state, &ids, uid);
            if is_as_before(place, count, state.delivered, delivered) {
                continue;
            }
            let first_seen = state.first_seen;
            let state = State {
                first_seen,
                delivered,
            };
            write_line(&mut lines, uid, state)?;
            changes += 1;
        }
        group(alloc, changes, lines)
    }
}
