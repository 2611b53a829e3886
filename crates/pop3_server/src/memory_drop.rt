//! A maildrop in memory.
ghost use Rattle.std.specs.{
  Prelude.{◌≡◌, ◌≤◌, ◌<◌, ◌+◌, ◌^◌, ◌∷◌, [], ◌++◌, ◌↔◌, ◌==◌, IsTrue, IfOk, OnErr, map, length, take, drop, slice_get},
  Prelude.Some,
  List.Contains,
};
ghost use Rattle.mail_terms.specs.{UniqueId.is_legal_id, Distinct.AreDistinct};
ghost use Rattle.pop3_wire.specs.World.{Message};
ghost use Rattle.pop3_server.specs.{Size.size_of, Maildrop.{DropMail, there, ids, listed_message, HasPlace, max_count}};

use crate::maildrop::{DropFault, Entry, MAX_COUNT, MAX_SIZE, Maildrop};
use crate::size::size_of;
use pop3_wire::Bytes;
use std::alloc::{AllocError, Global};
use std::marker::Model;

/// A message, with the size of its text.
#[derive(Drop)]
struct StoredMessage {
    entry: Entry,
    text: Vec<u8>,
}

impl Model for StoredMessage {
    ghost Value = { Message };

    ghost view = { λ k. record { uid = k.entry.uid; size = k.entry.size; text = k.text.items } };

    ghost invariant = { λ k. k.entry.size ≡ size_of k.text.items };
}

impl StoredMessage {
    /// A message of this id and text.
    fn new(alloc: Global, uid: &[u8], text: &[u8]) -> Result<StoredMessage, AllocError>
        requires legal { IsTrue (is_legal_id uid.now) }
        requires within { size_of text.now ≤ MAX_SIZE }
        ensures { IfOk result (λ message. message
            ≡ record { uid = uid.now; size = size_of text.now; text = text.now }) }
    {
        let size = size_of(text);
        let uid = Bytes::from_vec(Vec::from_slice(alloc, uid)?);
        let text = Vec::from_slice(alloc, text)?;
        Ok(StoredMessage {
            entry: Entry::new(uid, size),
            text,
        })
    }

    /// Its entry in a listing.
    fn listed(&self, alloc: Global) -> Result<Entry, AllocError>
        ensures { IfOk result (λ entry. entry ≡ listed_message self.now) }
    {
        let uid = Bytes::from_vec(Vec::from_slice(alloc, self.entry.uid())?);
        Ok(Entry::new(uid, self.entry.size()))
    }

    /// Whether it has this id.
    fn is(&self, uid: &[u8]) -> bool
        ensures { IsTrue result ↔ (self.now.uid ≡ uid.now) }
    {
        self.entry.uid() == uid
    }

    /// Puts its text from the octet `start` on into a piece, as much as there is room for, and
    /// returns how much that is.
    fn put_part(&self, start: usize, piece: &mut [u8]) -> usize
        requires { 0 < length piece.old }
        ensures within { result ≤ length piece.new }
        ensures part { take result piece.new ≡ take result (drop start self.now.text) }
        ensures none { result ≡ 0 → length self.now.text ≤ start }
        ensures countable { start + result < 2 ^ 64 }
    {
        let text = self.text.as_slice();
        if start >= text.len() {
            return 0;
        }
        let rest = &text[start..];
        let n = rest.len().min(piece.len());
        piece[..n].copy_from_slice(&rest[..n]);
        n
    }
}

/// How many messages these places hold.
fn count(slots: &[Option<StoredMessage>]) -> usize
    ensures value { result ≡ length (there slots.now) }
    ensures within { result ≤ length slots.now }
{
    let mut count = 0;
    for slot in slots {
        match slot {
            None => {}
            Some(_) => count += 1,
        }
    }
    count
}

/// The entries of the messages in these places.
fn list(alloc: Global, slots: &[Option<StoredMessage>]) -> Result<Vec<Entry>, AllocError>
    ensures { IfOk result (λ entries. entries.items ≡ map listed_message (there slots.now)) }
{
    let mut entries = Vec::new(alloc);
    for slot in slots {
        match slot {
            None => {}
            Some(message) => entries.push(message.listed(alloc)?)?,
        }
    }
    Ok(entries)
}

/// Whether one of the messages has this id.
fn has_id(slots: &[Option<StoredMessage>], uid: &[u8]) -> bool
    ensures { IsTrue result ↔ Contains (ids slots.now) uid.now }
{
    for slot in slots {
        match slot {
            None => {}
            Some(message) => {
                if message.is(uid) {
                    return true;
                }
            }
        }
    }
    false
}

/// A maildrop in memory. It refuses a call only if memory runs out.
#[derive(Drop)]
pub struct MemoryDrop {
    alloc: Global,
    slots: Vec<Option<StoredMessage>>,
    removals: u64,
}

impl Model for MemoryDrop {
    ghost Value = { DropMail };

    ghost view = { λ d. record { slots = d.slots.items; failures = 0; removals = d.removals } };

    ghost invariant = { λ d. AreDistinct (ids d.slots.items) × (length (there d.slots.items) ≤ max_count) };
}

impl MemoryDrop {
    /// A maildrop without messages.
    pub fn new(alloc: Global) -> MemoryDrop
        ensures { result ≡ record { slots = []; failures = 0; removals = 0 } }
    {
        MemoryDrop {
            alloc,
            slots: Vec::new(alloc),
            removals: 0,
        }
    }

    /// How many messages there are.
    pub fn len(&self) -> usize
        ensures value { result ≡ length (there self.now.slots) }
        ensures within { result ≤ MAX_COUNT }
    {
        count(self.slots.as_slice())
    }

    /// Whether there is no message.
    pub fn is_empty(&self) -> bool
        ensures { IsTrue result ↔ (there self.now.slots ≡ []) }
    {
        self.len() == 0
    }

    /// Whether a message has this id.
    pub fn contains(&self, uid: &[u8]) -> bool
        ensures { IsTrue result ↔ Contains (ids self.now.slots) uid.now }
    {
        has_id(self.slots.as_slice(), uid)
    }

    /// Whether there is a message at this place, as `text` and `remove` need.
    pub fn has_place(&self, i: usize) -> bool
        ensures { IsTrue result ↔ HasPlace self.now i }
    {
        match self.slots.get(i) {
            Some(Some(_)) => true,
            _ => false,
        }
    }

    /// The message at this place.
    fn stored_at(&self, i: usize) -> &StoredMessage
        requires { HasPlace self.now i }
        ensures { slice_get self.now.slots i ≡ Some (Some result.now) }
    {
        match &self.slots[i] {
            Some(message) => message,
            None => unreachable!(),
        }
    }

    /// Appends a message. Its id must be legal and new, its size at most `MAX_SIZE`, and there
    /// must be fewer than `MAX_COUNT` messages: `is_legal_id`, `contains`, `size_of` and `len`
    /// test this. A text whose last line has no LF is served with that line ended. If memory runs
    /// out, nothing is added.
    pub fn push(&mut self, uid: &[u8], text: &[u8]) -> Result<(), AllocError>
        requires legal { IsTrue (is_legal_id uid.now) }
        requires absent { Contains (ids self.old.slots) uid.now → ⊥ }
        requires within { size_of text.now ≤ MAX_SIZE }
        requires room { length (there self.old.slots) < MAX_COUNT }
        ensures ok { IfOk result (λ _. self.new ≡ record self.old {
          slots = self.old.slots ++ Some (record { uid = uid.now; size = size_of text.now; text = text.now }) ∷ [];
        }) }
        ensures err { OnErr result (self.new ≡ self.old) }
    {
        let message = StoredMessage::new(self.alloc, uid, text)?;
        self.slots.push(Some(message))?;
        Ok(())
    }
}

impl Maildrop for MemoryDrop {
    ghost mail = { λ d. d };

    ghost sound = { λ d. Unit {0} };

    fn entries(&mut self) -> Result<Vec<Entry>, DropFault> {
        let entries = list(self.alloc, self.slots.as_slice())?;
        self.slots.retain(|slot| slot.is_some());
        Ok(entries)
    }

    fn text(&mut self, i: usize) -> Result<Vec<u8>, DropFault> {
        Ok(Vec::from_slice(self.alloc, self.stored_at(i).text.as_slice())?)
    }

    fn part(&mut self, i: usize, start: usize, piece: &mut [u8]) -> Result<usize, DropFault> {
        Ok(self.stored_at(i).put_part(start, piece))
    }

    #[tactic(auto, using(crate::proofs::SlotLemmas::distinct_removed, crate::proofs::SlotLemmas::count_removed))]
    fn remove(&mut self, i: usize) -> Result<(), DropFault> {
        self.slots[i] = None;
        self.removals = self.removals.saturating_add(1);
        Ok(())
    }

    fn failures(&self) -> u64 {
        let _removals = self.removals;
        0
    }
}

/// A law: no maildrop in memory has refused a call.
pub fn memory_refuses_nothing(drop: &MemoryDrop)
    ensures { drop.now.failures ≡ 0 }
{
    let _removals = drop.removals;
}
