//! Maildrops: messages that a server lists, gives and removes (RFC 1939, section 4).
ghost use Rattle.std.specs.Prelude.{◌≡◌, ◌≤◌, ◌<◌, ◌+◌, ◌^◌, length, IsTrue, IfOk, IfErr, map, vec_len};
ghost use Rattle.mail_terms.specs.{
  UniqueId.is_legal_id,
  Distinct.AreDistinct,
  FailureCount.{Tallies, counted_up, refuses},
};
ghost use Rattle.pop3_server.specs.{
  declared.maildrop.DropFault.TheVariants.NoMemory,
  Maildrop.{DropMail, ListedMessage, HasPlace, ListsMessages, Gives, GivesPart, Removes, is_drop_refusal, max_size},
};

use pop3_wire::Bytes;
use std::alloc::AllocError;
use std::marker::Model;
use thiserror::Error;

/// The greatest size of a message that is listed, in octets.
pub const MAX_SIZE: u64 = 134_217_728;

/// The greatest number of messages that are listed.
pub const MAX_COUNT: usize = 100_000;

/// Why a maildrop didn't do what it was asked.
#[derive(Clone, Copy, Debug, PartialEq, Eq, Error)]
pub enum DropFault {
    /// The maildrop's device refused the call.
    #[error("refused")]
    Refused,
    /// Out of memory.
    #[error("out of memory")]
    NoMemory,
}

impl From<AllocError> for DropFault {
    ghost from_gives = { λ _ e. e ≡ NoMemory };

    fn from(_error: AllocError) -> DropFault {
        DropFault::NoMemory
    }
}

/// A message's entry in a listing: its unique-id, which is legal, and its size in octets, at most
/// [`MAX_SIZE`]. Each line's end counts as two octets (RFC 1939, section 11).
#[derive(Drop)]
pub struct Entry {
    uid: Bytes,
    size: u64,
}

impl Model for Entry {
    ghost Value = { ListedMessage };

    ghost view = { λ e. record { uid = e.uid; size = e.size } };

    ghost invariant = { λ e. IsTrue (is_legal_id e.uid) × (e.size ≤ max_size) };
}

impl Entry {
    /// The entry of this id and size. The id must be legal, which `is_legal_id` tests, and the
    /// size at most [`MAX_SIZE`].
    pub fn new(uid: Bytes, size: u64) -> Entry
        requires legal { IsTrue (is_legal_id uid) }
        requires within { size ≤ MAX_SIZE }
        ensures { result ≡ record { uid = uid; size = size } }
    {
        Entry { uid, size }
    }

    /// The unique-id.
    pub fn uid(&self) -> &[u8]
        ensures value { result.now ≡ self.now.uid }
        ensures legal { IsTrue (is_legal_id result.now) }
    {
        self.uid.as_slice()
    }

    /// The size in octets.
    pub fn size(&self) -> u64
        ensures value { result ≡ self.now.size }
        ensures within { result ≤ MAX_SIZE }
    {
        self.size
    }
}

/// Messages that a server lists, gives and removes.
pub trait Maildrop {
    // What is known of the messages. The two counts are kept by every maildrop.
    ghost mail: { Self → DropMail };

    // The premise: so far the device did what this trait says, and its count of refusals hasn't
    // reached its greatest value. It is never true of a real folder.
    ghost sound: { Self → Type 0 };

    /// Lists the messages: at most [`MAX_COUNT`], and no id twice. From then on a message's place
    /// is its place in this list. After a fault the places are as they were.
    fn entries(&mut self) -> Result<Vec<Entry>, DropFault>
        ensures within { IfOk result (λ entries. vec_len entries ≤ MAX_COUNT) }
        ensures distinct { IfOk result (λ entries. AreDistinct (map (λ (e : ListedMessage). e.uid) entries.items)) }
        ensures tally { Tallies (refuses is_drop_refusal result) (mail self.old).failures (mail self.new).failures }
        ensures removes_none { (mail self.new).removals ≡ (mail self.old).removals }
        ensures lists { sound self.new → sound self.old × ListsMessages (mail self.old) result (mail self.new) };

    /// The text of the message at a place, its lines ended by LF. After a fault no message has changed.
    fn text(&mut self, i: usize) -> Result<Vec<u8>, DropFault>
        requires { sound self.old → HasPlace (mail self.old) i }
        ensures tally { Tallies (refuses is_drop_refusal result) (mail self.old).failures (mail self.new).failures }
        ensures removes_none { (mail self.new).removals ≡ (mail self.old).removals }
        ensures gives { sound self.new → sound self.old × Gives (mail self.old) i result (mail self.new) };

    /// Puts octets of the text of the message at a place, from the octet `start` on, at the
    /// beginning of `piece`, and returns how many: 0 only if none are left. After the first part
    /// of a text, running out of memory is a refusal too.
    fn part(&mut self, i: usize, start: usize, piece: &mut [u8]) -> Result<usize, DropFault>
        requires place { sound self.old → HasPlace (mail self.old) i }
        requires room { 0 < length piece.old }
        ensures within { IfOk result (λ n. n ≤ length piece.new) }
        ensures countable { IfOk result (λ n. start + n < 2 ^ 64) }
        ensures later { 0 < start → IfErr result (λ e. e ≡ DropFault.Refused) }
        ensures tally { Tallies (refuses is_drop_refusal result) (mail self.old).failures (mail self.new).failures }
        ensures removes_none { (mail self.new).removals ≡ (mail self.old).removals }
        ensures gives { sound self.new
            → sound self.old × GivesPart (mail self.old) i start result piece.new (mail self.new) };

    /// Removes the message at a place. After a refusal the message may be gone or not. Running
    /// out of memory is a refusal too.
    fn remove(&mut self, i: usize) -> Result<(), DropFault>
        requires { sound self.old → HasPlace (mail self.old) i }
        ensures err { IfErr result (λ e. e ≡ DropFault.Refused) }
        ensures tally { Tallies (refuses is_drop_refusal result) (mail self.old).failures (mail self.new).failures }
        ensures asks { (mail self.new).removals ≡ counted_up (mail self.old).removals }
        ensures removes { sound self.new → sound self.old × Removes (mail self.old) i result (mail self.new) };

    /// How many calls were refused, up to the greatest count.
    fn failures(&self) -> u64
        ensures { result ≡ (mail self.now).failures };
}
