//! The rows of a record as a map from id to what is known of its message, in order of first
//! appearance.

ghost use Rattle.std.specs.Prelude.{◌≡◌, ◌<◌, ◌++◌, [], ◌∷◌, true, false, length, take, OnErr, IfOk, IsTrue, HoldsAt};
ghost use Rattle.std.specs.Prelude.{IfSome, IfNone, flat_map, List};
ghost use Rattle.mail_terms.specs.UniqueId.{IsLegalId};
ghost use Rattle.fetch_record.specs.{
  Record.{Row, IsRecord, has_row, is_delivered, marked},
  RecordFile.{Two, header, record_row_line},
  Rows.{row_from, rows_of_states, state_in},
};

use crate::id::Id;
use crate::line::{HEADER, write_line};
use indexmap::IndexMap;
use mail_terms::id_text;
use std::alloc::{AllocError, Global};
use std::cell::Cell;
use std::hash::BuildHasher;
use std::marker::Model;

/// What a row's line has besides the id, if its second is of this century: two spaces, ten digits, the
/// state and the end.
const LINE_ROOM: usize = 14;

/// What is known of one message.
#[derive(Clone, Copy)]
pub struct State {
    /// The second since 1970 at which it was first listed.
    pub first_seen: u64,
    pub delivered: bool,
}

/// The rows, each id once.
#[derive(Drop)]
pub(crate) struct RowMap<H: BuildHasher> {
    alloc: Global,
    states: IndexMap<Id, State, H>,
    /// The place of the row that was found last: ids are mostly looked up in the rows' order.
    last: Cell<usize>,
}

impl<H: BuildHasher> Model for RowMap<H> {
    ghost Value = { List Row };

    ghost view = { λ rows. rows_of_states rows.states.entries };

    ghost invariant = { λ rows. IsRecord (rows_of_states rows.states.entries) };
}

impl<H: BuildHasher> RowMap<H> {
    pub(crate) fn new(alloc: Global, hasher: H) -> RowMap<H>
        ensures { result ≡ [] }
    {
        RowMap {
            alloc,
            states: IndexMap::with_hasher(alloc, hasher),
            last: Cell::new(0),
        }
    }

    /// Makes room for this many rows more, so that the table needn't grow step by step.
    pub(crate) fn reserve(&mut self, more: usize) -> Result<(), AllocError>
        ensures rows { self.new ≡ self.old }
    {
        self.states.reserve(more)
    }

    pub(crate) fn len(&self) -> usize
        ensures count { result ≡ length self.now }
        ensures is_record { IsRecord self.now }
    {
        self.states.len()
    }

    /// The row at a place: its id, and what is known of its message.
    pub(crate) fn at(&self, place: usize) -> (&[u8], State)
        requires { place < length self.now }
        ensures { HoldsAt (λ row. row ≡ row_from result.0.now result.1) self.now place }
    {
        let (uid, state) = self.states.get_index(place).unwrap();
        (uid.as_str().as_bytes(), *state)
    }

    /// Whether an id has a row.
    #[tactic(auto, using(crate::proofs::RowLemmas::is_some_state_in))]
    pub(crate) fn has(&self, uid: &[u8]) -> bool
        ensures { result ≡ has_row self.now uid.now }
    {
        self.state(uid).is_some()
    }

    /// What is known of an id's message, if it has a row.
    #[tactic(auto, using(crate::proofs::RowLemmas::state_in_none))]
    pub(crate) fn state(&self, uid: &[u8]) -> Option<State>
        ensures value { result ≡ state_in self.now uid.now }
        ensures is_record { IsRecord self.now }
    {
        let place = self.place_of(uid)?;
        let (_, state) = self.at(place);
        Some(state)
    }

    /// Whether the row at a place is an id's.
    fn is_at(&self, place: usize, uid: &[u8]) -> bool
        ensures { IsTrue result → (place < length self.now) × HoldsAt (λ row. row.uid ≡ uid.now) self.now place }
    {
        place < self.len() && self.at(place).0 == uid
    }

    /// The place of an id's row, if that is the one behind the row that was found last, or this row again.
    pub(crate) fn place_near(&self, uid: &[u8]) -> Option<usize>
        ensures { IfSome result (λ place. (place < length self.now)
            × HoldsAt (λ row. row.uid ≡ uid.now) self.now place) }
    {
        let last = self.last.get();
        let next = last.saturating_add(1);
        if self.is_at(next, uid) {
            self.last.set(next);
            return Some(next);
        }
        if self.is_at(last, uid) {
            return Some(last);
        }
        None
    }

    /// The place of an id's row, if it has one. The id is hashed only if it isn't near.
    #[tactic(auto, using(crate::proofs::RowLemmas::illegal, crate::proofs::RowLemmas::no_place))]
    fn place_of(&self, uid: &[u8]) -> Option<usize>
        ensures found { IfSome result (λ place. (place < length self.now)
            × HoldsAt (λ row. row.uid ≡ uid.now) self.now place) }
        ensures none { IfNone result (has_row self.now uid.now ≡ false) }
        ensures is_record { IsRecord self.now }
    {
        // For the proof alone: `len` says that the rows are a record.
        let _ = self.len();
        if let Some(place) = self.place_near(uid) {
            return Some(place);
        }
        let place = self.states.get_index_of(id_text(uid)?)?;
        self.last.set(place);
        Some(place)
    }

    /// Whether an id is recorded as delivered.
    #[tactic(auto, using(crate::proofs::RowLemmas::is_delivered_none, crate::proofs::RowLemmas::is_delivered_some))]
    pub(crate) fn is_delivered(&self, uid: &[u8]) -> bool
        ensures { result ≡ is_delivered self.now uid.now }
    {
        match self.state(uid) {
            Some(state) => state.delivered,
            None => false,
        }
    }

    /// Sets delivered for the row at a place.
    pub(crate) fn deliver_at(&mut self, place: usize)
        requires { place < length self.old }
        ensures rows { HoldsAt (λ row. self.new ≡ marked self.old row.uid) self.old place }
        ensures is_record { IsRecord self.new }
    {
        match self.states.get_index_mut(place) {
            Some(state) => state.delivered = true,
            None => unreachable!(),
        }
    }

    /// Sets delivered for the id, if it has a row.
    #[tactic(auto, using(crate::proofs::RowLemmas::unmarked))]
    pub(crate) fn set_delivered(&mut self, uid: &[u8])
        ensures rows { self.new ≡ marked self.old uid.now }
        ensures is_record { IsRecord self.new }
    {
        if let Some(place) = self.place_of(uid) {
            self.deliver_at(place);
        }
    }

    /// Adds a row for an id, or replaces what is known of its message if it has one, and returns what
    /// was known before.
    pub(crate) fn put(&mut self, uid: &[u8], state: State) -> Result<Option<State>, AllocError>
        requires legal { IsLegalId uid.now }
        ensures old { IfOk result (λ old. old ≡ state_in self.old uid.now) }
        ensures added { IfOk result (λ old. IfNone old (self.new ≡ self.old ++ row_from uid.now state ∷ [])) }
        ensures marked { IfOk result (λ old. IfSome old (λ old. state ≡ record old { delivered = true }
            → self.new ≡ marked self.old uid.now)) }
        ensures err { OnErr result (self.new ≡ self.old) }
        ensures is_record { IsRecord self.new }
    {
        let Some(text) = id_text(uid) else {
            unreachable!()
        };
        let id = Id::from_text(self.alloc, text)?;
        Ok(self.states.insert(id, state)?)
    }

    /// About how many octets the rows' lines have, by the length of the first row's id.
    fn likely_octets(&self) -> usize {
        match self.states.get_index(0) {
            Some((uid, _)) => uid
                .as_str()
                .len()
                .saturating_add(LINE_ROOM)
                .saturating_mul(self.len()),
            None => 0,
        }
    }

    /// The rows as a file of version 2.
    pub(crate) fn bytes(&self) -> Result<Vec<u8>, AllocError>
        ensures file { IfOk result (λ bytes. bytes.items ≡ header Two ++ flat_map record_row_line self.now) }
        ensures is_record { IsRecord self.now }
    {
        let mut bytes = Vec::from_slice(self.alloc, HEADER)?;
        bytes.reserve(self.likely_octets())?;
        for place in 0..self.len() {
            let (uid, state) = self.at(place);
            write_line(&mut bytes, uid, state)?;
        }
        Ok(bytes)
    }

    /// Keeps only the first `count` rows.
    pub(crate) fn keep_first(&mut self, count: usize)
        ensures rows { self.new ≡ take count self.old }
        ensures is_record { IsRecord self.new }
    {
        self.states.truncate(count);
    }

    pub(crate) fn clear(&mut self)
        ensures rows { self.new ≡ [] }
        ensures is_record { IsRecord self.new }
    {
        self.states.clear();
    }
}
