//! The record: which messages of a maildrop were seen, since when, and whether they were delivered.

ghost use Rattle.std.specs.{
  Prelude.{◌≡◌, ◌≢◌, ◌&&◌, ◌||◌, ◌↔◌, not, true, All, IsTrue, Some, None, length, OnErr, OnOk, IfOk, IfErr},
  Bool.{OnTrue, OnFalse},
};
ghost use Rattle.fetch_record.specs.{
  Record.{IsRecord, IntentHasRow, Loaded, empty, has_row, is_delivered, first_seen_of, marked, merged},
  Intents.{ReadAs, IsNoneOrOf, intent_from, intent_in, has_intent, is_older, closed_rows},
  Lines.{open_seen, intent_seen, version_of},
  RecordFile.{changed, marking, written, file_of, intent_line},
  RecordMeaning.{Means, Fault},
  RecordGrowth.Updates,
};

use crate::line::{Intent, row_group, write_intent};
use crate::row_map::{RowMap, State};
use mail_terms::Listing;
use std::alloc::{AllocError, AllocFailed, Global};
use std::hash::BuildHasher;
use std::marker::Model;
use thiserror::Error;

/// Why bytes are no record. Lines are counted from 1; one past 4,294,967,295 is reported as that.
#[derive(Clone, Copy, Debug, PartialEq, Eq, Error)]
pub enum SeenFault {
    /// The header's line is missing or another.
    #[error("not a record of this version")]
    BadHeader,
    /// This line isn't what belongs there: a row, the line that begins a group, or an intent.
    #[error("line {0} is no row")]
    BadRow(u32),
    /// The row of this line repeats an id that may not occur there again.
    #[error("line {0} repeats an id")]
    RepeatedId(u32),
    #[error("out of memory")]
    NoMemory,
}

impl From<AllocError> for SeenFault {
    ghost use Rattle.fetch_record.specs.declared.seen.SeenFault.TheVariants.{NoMemory};

    ghost from_gives = { λ _ fault. fault ≡ NoMemory };

    fn from(_error: AllocError) -> SeenFault {
        SeenFault::NoMemory
    }
}

/// The messages that were seen, each id once, in order of first appearance. Rows are never removed.
/// A look-up goes by the id's hash; a server chooses the ids, so a program passes in a hasher with
/// a random seed.
#[derive(Drop)]
pub struct Seen<H: BuildHasher> {
    alloc: Global,
    rows: RowMap<H>,
    intent: Option<OwnedIntent>,
    stale: bool,
}

/// An intent that a record keeps.
#[derive(Drop)]
pub(crate) struct OwnedIntent {
    pub(crate) uid: Vec<u8>,
    pub(crate) start: u64,
    pub(crate) len: u64,
}

impl OwnedIntent {
    fn as_intent(&self) -> Intent<'_>
        ensures { intent_seen result ≡ intent_from self.now }
    {
        Intent {
            uid: &self.uid,
            start: self.start,
            len: self.len,
        }
    }
}

/// Whether nothing may be appended to a file.
fn is_stale(older: bool, torn: bool, intent: &Option<OwnedIntent>, outgrown: bool) -> bool
    ensures { result ≡ (is_older (version_of older) || (torn || (has_intent (intent_in intent.now) || outgrown))) }
{
    older || torn || intent.is_some() || outgrown
}

/// Whether a mark of a row in this state changes nothing: it is delivered, and no intent is open.
fn has_mark(state: State, intent: &Option<OwnedIntent>) -> bool
    ensures { result ≡ (state.delivered && not (has_intent (intent_in intent.now))) }
{
    state.delivered && intent.is_none()
}

/// A copy of an intent.
fn copied(alloc: Global, found: Option<Intent<'_>>) -> Result<Option<OwnedIntent>, AllocError>
    ensures { IfOk result (λ copy. intent_in copy ≡ open_seen found.entry) }
{
    match found {
        None => Ok(None),
        Some(intent) => {
            let uid = Vec::from_slice(alloc, intent.uid)?;
            Ok(Some(OwnedIntent {
                uid,
                start: intent.start,
                len: intent.len,
            }))
        }
    }
}

impl<H: BuildHasher> Model for Seen<H> {
    ghost Value = { Loaded };

    ghost view = { λ seen. record { rows = seen.rows; intent = intent_in seen.intent; stale = seen.stale } };

    ghost invariant = { λ seen. IsRecord seen.rows × IntentHasRow seen.rows (intent_in seen.intent) };
}

impl<H: BuildHasher> Seen<H> {
    /// The empty record.
    pub fn new(alloc: Global, hasher: H) -> Seen<H>
        ensures { result ≡ empty }
    {
        Seen {
            alloc,
            rows: RowMap::new(alloc, hasher),
            intent: None,
            stale: false,
        }
    }

    /// The record that a file's bytes stand for. They are what `bytes` wrote, and groups and intents that
    /// were appended since. No bytes at all stand for the empty record. A file of version 1 is read
    /// too. A torn end counts for nothing: a last piece without LF, and a last group that lacks rows,
    /// as an append that was cut short leaves them. Anything else is refused with its first faulty
    /// line: BadHeader if the bytes don't begin with the header's line, else BadRow or RepeatedId.
    pub fn read(alloc: Global, bytes: &[u8], hasher: H) -> Result<Seen<H>, SeenFault>
    where
        H: Drop,
        ensures rows { IfOk result (λ seen. ReadAs bytes.now seen) }
        ensures is_record { IfOk result (λ seen. IsRecord seen.rows) }
        ensures fault { IfErr result (λ fault. fault ≢ SeenFault.NoMemory → Means bytes.now (Fault fault)) }
    {
        let mut seen = Seen::new(alloc, hasher);
        seen.reread(bytes)?;
        Ok(seen)
    }

    /// Replaces this record by the one that a file's bytes stand for, as `read` does. After a
    /// fault, NoMemory too, the record is empty.
    pub fn reread(&mut self, bytes: &[u8]) -> Result<(), SeenFault>
        ensures rows { OnOk result (ReadAs bytes.now self.new) }
        ensures fault { IfErr result (λ fault. fault ≢ SeenFault.NoMemory → Means bytes.now (Fault fault)) }
        ensures none { OnErr result (self.new ≡ empty) }
        ensures is_record { IsRecord self.new.rows }
    {
        self.intent = None;
        self.stale = false;
        let (file, torn) = match self.rows.read(bytes) {
            Ok(read) => read,
            Err(fault) => {
                self.rows.clear();
                return Err(fault);
            }
        };
        let Ok(copy) = copied(self.alloc, file.intent) else {
            self.rows.clear();
            return Err(SeenFault::NoMemory);
        };
        self.stale = is_stale(file.older, torn, &copy, file.outgrown);
        self.intent = copy;
        Ok(())
    }

    /// Whether the bytes that were last read were of version 1, had a torn end or an open intent, or
    /// were outgrown: more than 65,536 octets, more of them in groups and intents than in the rows
    /// after the header. Nothing may be appended to their file before it is written anew.
    pub fn needs_rewrite(&self) -> bool
        ensures { result ≡ self.now.stale }
    {
        self.stale
    }

    /// The record as a file of version 2, without groups. An open intent is its last line.
    pub fn bytes(&self) -> Result<Vec<u8>, AllocError>
        ensures file { IfOk result (λ bytes. bytes.items ≡ file_of self.now.rows self.now.intent) }
        ensures is_record { IsRecord self.now.rows }
    {
        let mut bytes = self.rows.bytes()?;
        if let Some(intent) = &self.intent {
            let line = write_intent(self.alloc, intent.as_intent())?;
            bytes.extend_from_slice(&line)?;
        }
        Ok(bytes)
    }

    /// Opens an intent for an id that has a row, and gives its line, to be appended to the record's
    /// file. None may be open before. If memory runs out nothing has changed.
    pub fn intend(&mut self, uid: &[u8], start: u64, len: u64) -> Result<Vec<u8>, AllocError>
        requires row { has_row self.old.rows uid.now ≡ true }
        requires closed { self.old.intent ≡ None }
        ensures after { OnOk result
            (self.new ≡ record self.old { intent = Some (record { uid = uid.now; start = start; len = len }) }) }
        ensures line { IfOk result
            (λ bytes. bytes.items ≡ intent_line (record { uid = uid.now; start = start; len = len })) }
        ensures err { OnErr result (self.new ≡ self.old) }
    {
        let _ = self.rows.state(uid);
        let intent = Intent { uid, start, len };
        let line = write_intent(self.alloc, intent)?;
        let copy = copied(self.alloc, Some(intent))?;
        self.intent = copy;
        Ok(line)
    }

    /// The intent that is open, if one is.
    pub fn intent(&self) -> Option<Intent<'_>>
        ensures { open_seen result ≡ self.now.intent }
    {
        match &self.intent {
            Some(intent) => Some(intent.as_intent()),
            None => None,
        }
    }

    /// Ends the open intent, if any, and records its id as delivered if the entry is whole.
    /// `needs_rewrite` doesn't change.
    pub fn close(&mut self, whole: bool)
        ensures after { self.new ≡ record self.old {
          rows = closed_rows whole self.old.rows self.old.intent;
          intent = None;
        } }
        ensures is_record { IsRecord self.new.rows }
    {
        let _ = self.rows.len();
        if let Some(intent) = &self.intent
            && whole
        {
            self.rows.set_delivered(&intent.uid);
        }
        self.intent = None;
    }

    /// Whether the id has a row.
    pub fn has_row(&self, uid: &[u8]) -> bool
        ensures { result ≡ has_row self.now.rows uid.now }
    {
        self.rows.has(uid)
    }

    /// Whether the id is recorded as delivered.
    pub fn is_delivered(&self, uid: &[u8]) -> bool
        ensures { result ≡ is_delivered self.now.rows uid.now }
    {
        self.rows.is_delivered(uid)
    }

    /// Whether each id of a listing is recorded as delivered.
    pub fn knows(&self, listing: &Listing) -> bool
        ensures known { IsTrue result ↔ All (λ item. is_delivered self.now.rows item.uid ≡ true) listing.now }
        ensures is_record { IsRecord self.now.rows }
    {
        let _ = self.rows.len();
        for i in 0..listing.len() {
            if !self.rows.is_delivered(listing.uid(i)) {
                return false;
            }
        }
        true
    }

    /// When the id was first seen, in seconds since 1970, if it was.
    pub fn first_seen(&self, uid: &[u8]) -> Option<u64>
        ensures { result ≡ first_seen_of self.now.rows uid.now }
    {
        match self.rows.state(uid) {
            Some(state) => Some(state.first_seen),
            None => None,
        }
    }

    /// Records the id as delivered, if it has a row. Returns whether this changed the row.
    pub fn mark(&mut self, uid: &[u8]) -> bool
        requires { self.old.intent ≡ None }
        ensures after { self.new ≡ record self.old { rows = marked self.old.rows uid.now } }
        ensures changed { OnTrue result (self.new ≢ self.old) }
        ensures unchanged { OnFalse result (self.new ≡ self.old) }
        ensures is_record { IsRecord self.new.rows }
    {
        self.rows.mark(uid)
    }

    /// Records the id as delivered, if it has a row, and gives the group of the changed row, to be
    /// appended to the record's file: empty if none changed. An open intent, which must be this
    /// id's, is ended, and the group then always has the id's row. If memory runs out nothing has
    /// changed.
    #[tactic(auto, using(crate::proofs::RowLemmas::mark_laws, crate::proofs::MeaningLemmas::none_without_row))]
    pub fn mark_rows(&mut self, uid: &[u8]) -> Result<Vec<u8>, AllocError>
        requires { IsNoneOrOf uid.now self.old.intent }
        ensures after { OnOk result
            (self.new ≡ record self.old { rows = marked self.old.rows uid.now; intent = None }) }
        ensures group { IfOk result
            (λ bytes. bytes.items ≡ written (marking self.old.intent uid.now self.old.rows self.new.rows)) }
        ensures updates { IfOk result
            (λ bytes. Updates self.old.rows self.old.intent bytes.items self.new.rows self.new.intent) }
        ensures err { OnErr result (self.new ≡ self.old) }
        ensures is_record { IsRecord self.new.rows }
    {
        let Some(state) = self.rows.state(uid) else {
            return Ok(Vec::new(self.alloc));
        };
        if has_mark(state, &self.intent) {
            return Ok(Vec::new(self.alloc));
        }
        let delivered = State {
            first_seen: state.first_seen,
            delivered: true,
        };
        let group = row_group(self.alloc, uid, delivered)?;
        self.rows.set_delivered(uid);
        self.intent = None;
        Ok(group)
    }

    /// Takes in a listing: sets delivered for each id that the flags, one for each item, call held,
    /// and adds a row, first seen at `now` seconds since 1970, for each id that has none. Returns
    /// whether a row was added or changed. If memory runs out nothing has changed.
    #[tactic(auto, using(crate::proofs::MergeLemmas::merged_steps))]
    pub fn merge(&mut self, listing: &Listing, held: &[bool], now: u64) -> Result<bool, AllocError>
        requires lengths { length held.now ≡ length listing.now }
        requires closed { self.old.intent ≡ None }
        ensures after { OnOk result
            (self.new ≡ record self.old { rows = merged self.old.rows listing.now held.now now }) }
        ensures changed { IfOk result (λ changed. OnTrue changed (self.new ≢ self.old)) }
        ensures unchanged { IfOk result (λ changed. OnFalse changed (self.new ≡ self.old)) }
        ensures err { OnErr result (self.new ≡ self.old) }
        ensures is_record { IsRecord self.new.rows }
    {
        let count = self.rows.len();
        self.rows.add_listed(listing, now)?;
        let added = count < self.rows.len();
        let marked = self.rows.mark_held(listing, held);
        // Both are known: `||` would only be a branch more to prove.
        Ok(added | marked)
    }

    /// As `merge`, but gives the group of the rows that were added or changed, in the record's
    /// order, to be appended to the record's file: empty if there are none. If memory runs out
    /// nothing has changed.
    #[tactic(auto, using(crate::proofs::MergeLemmas::merged_steps))]
    pub fn merge_rows(
        &mut self,
        listing: &Listing,
        held: &[bool],
        now: u64,
    ) -> Result<Vec<u8>, AllocError>
        requires lengths { length held.now ≡ length listing.now }
        requires closed { self.old.intent ≡ None }
        ensures after { OnOk result
            (self.new ≡ record self.old { rows = merged self.old.rows listing.now held.now now }) }
        ensures group { IfOk result (λ bytes. bytes.items ≡ written (changed self.old.rows self.new.rows)) }
        ensures updates { IfOk result (λ bytes. Updates self.old.rows None bytes.items self.new.rows None) }
        ensures err { OnErr result (self.new ≡ self.old) }
        ensures is_record { IsRecord self.new.rows }
    {
        let count = self.rows.len();
        self.rows.add_listed(listing, now)?;
        match self.rows.group_of_changes(self.alloc, listing, held, count) {
            Ok(group) => {
                self.rows.mark_held(listing, held);
                Ok(group)
            }
            Err(error) => {
                self.rows.keep_first(count);
                Err(error)
            }
        }
    }
}
