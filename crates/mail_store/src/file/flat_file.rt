//! Devices that keep one file.

ghost use Rattle.mail_store.specs.{
  DiskCalls.{DurableAppends, DurableCuts, DurableFlushes, DurableReplaces},
  Durable.{CrashesHappen, DurableIsLeft},
};

use crate::fault::StoreFault;

/// The size of a file and its ends.
#[derive(Clone, Copy, Debug, PartialEq, Eq)]
pub struct Edges {
    /// How many bytes the file has.
    pub size: u64,
    /// Its first five bytes, with zeros after them if it is shorter.
    pub head: [u8; 5],
    /// Its last two bytes, with zeros before them if it is shorter.
    pub tail: [u8; 2],
}

/// A device that keeps one file, and that can refuse any call.
pub trait FlatFile {
    ghost use Rattle.std.specs.Prelude.{◌≡◌, ◌≤◌, ◌<◌, ℕ, length, IfErr, IfOk, IsSome};
    ghost use Rattle.mail_terms.specs.FailureCount.{Tallies, refuses, greatest_count};
    ghost use Rattle.mail_store.specs.{Fault.{is_refusal, IsDeviceFault}, Durable.{Disk, seen_on}};
    ghost use Rattle.mail_store.specs.DiskCalls.{AppendsDisk, CutsDisk, PeeksDisk, ReadsDisk, ReplacesDisk};
    ghost use Rattle.mail_store.specs.FlatFile.{HasBytes, TellsBytes, TellsEdges, TellsPiece};

    // The file as calls see it, what of it is durable, and what its name led to before.
    ghost disk: { Self → Disk };

    // How many calls were refused.
    ghost refusals: { Self → ℕ };

    // The premise: so far the device did what this trait says, and its count is below its greatest
    // value. If it holds after a call, it held before it.
    ghost sound: { Self → Type 0 };

    /// The bytes of the file. Missing if there is none, else Refused.
    fn load(&mut self) -> Result<Vec<u8>, StoreFault>
        ensures loads { sound self.new → sound self.old
            × ReadsDisk TellsBytes (disk self.old) result (disk self.new) }
        ensures fault { IfErr result IsDeviceFault }
        ensures count { Tallies (refuses is_refusal result) (refusals self.old) (refusals self.new) };

    /// The bytes of the file, as `load` gives them, but nothing is flushed: a loss of power may take
    /// back what was read. Missing if there is none, else Refused.
    fn peek(&mut self) -> Result<Vec<u8>, StoreFault>
        ensures peeks { sound self.new → sound self.old
            × PeeksDisk TellsBytes (disk self.old) result (disk self.new) }
        ensures fault { IfErr result IsDeviceFault }
        ensures count { Tallies (refuses is_refusal result) (refusals self.old) (refusals self.new) };

    /// The size of the file, its first five bytes and its last two. Missing if there is none, else
    /// Refused.
    fn edges(&mut self) -> Result<Edges, StoreFault>
        ensures measures { sound self.new → sound self.old
            × ReadsDisk TellsEdges (disk self.old) result (disk self.new) }
        ensures fault { IfErr result IsDeviceFault }
        ensures count { Tallies (refuses is_refusal result) (refusals self.old) (refusals self.new) };

    /// The size and the ends of the file, as `edges` gives them, but nothing is flushed. Missing if
    /// there is none, else Refused.
    fn peek_edges(&mut self) -> Result<Edges, StoreFault>
        ensures peeks { sound self.new → sound self.old
            × PeeksDisk TellsEdges (disk self.old) result (disk self.new) }
        ensures fault { IfErr result IsDeviceFault }
        ensures count { Tallies (refuses is_refusal result) (refusals self.old) (refusals self.new) };

    /// Reads the bytes of the file from `start` on into the front of a buffer, and returns how
    /// many: as many as there are and fit, so none if `start` is at or past the end. Missing if
    /// there is no file, else Refused. After a fault the buffer may hold anything.
    fn read_at(&mut self, start: u64, buf: &mut [u8]) -> Result<usize, StoreFault>
        ensures within { IfOk result (λ count. count ≤ length buf.new) }
        ensures reads { sound self.new → sound self.old
            × ReadsDisk (TellsPiece start buf.new) (disk self.old) result (disk self.new) }
        ensures fault { IfErr result IsDeviceFault }
        ensures count { Tallies (refuses is_refusal result) (refusals self.old) (refusals self.new) };

    /// Appends bytes to the file, which must be there, as after a good `load`, `edges` or
    /// `replace`. The only fault is Refused: a front of the bytes may then have been appended.
    fn append(&mut self, bytes: &[u8]) -> Result<(), StoreFault>
        requires { sound self.old → IsSome (seen_on (disk self.old)) }
        ensures appends { sound self.new → sound self.old
            × AppendsDisk (disk self.old) bytes.now result (disk self.new) }
        ensures fault { IfErr result (λ e. e ≡ StoreFault.Refused) }
        ensures count { Tallies (refuses is_refusal result) (refusals self.old) (refusals self.new) };

    /// Cuts the file to its first `len` bytes; it must have that many (see `edges`). The only fault
    /// is Refused: the file is then as it was, or cut.
    fn cut_to(&mut self, len: u64) -> Result<(), StoreFault>
        requires { sound self.old → HasBytes (seen_on (disk self.old)) len }
        ensures cuts { sound self.new → sound self.old
            × CutsDisk (disk self.old) len result (disk self.new) }
        ensures fault { IfErr result (λ e. e ≡ StoreFault.Refused) }
        ensures count { Tallies (refuses is_refusal result) (refusals self.old) (refusals self.new) };

    /// Replaces the file's content by these bytes, whether or not there is a file. The only fault
    /// is Refused: the file is then as it was, or has these bytes.
    fn replace(&mut self, bytes: &[u8]) -> Result<(), StoreFault>
        ensures replaces { sound self.new → sound self.old
            × ReplacesDisk (disk self.old) bytes.now result (disk self.new) }
        ensures fault { IfErr result (λ e. e ≡ StoreFault.Refused) }
        ensures count { Tallies (refuses is_refusal result) (refusals self.old) (refusals self.new) };

    /// How many calls were refused.
    fn failures(&self) -> u64
        ensures { result ≡ refusals self.now };

    ghost below: { (file : Self) → sound file → refusals file < greatest_count };
}

/// A crash leaves what calls see of a file that is durable, and can leave whatever it may.
#[tactic(auto, using(crate::proofs::DurableLemmas::durable_is_left, crate::proofs::DurableLemmas::crashes_happen))]
pub fn durable_files_are_left()
    ensures durable { DurableIsLeft }
    ensures each { CrashesHappen }
{}

/// What a crash may leave of a file after each call of its device, whatever it answered.
#[tactic(auto, using(crate::proofs::DiskLemmas::call_laws))]
pub fn calls_are_durable()
    ensures flushes { DurableFlushes }
    ensures appends { DurableAppends }
    ensures cuts { DurableCuts }
    ensures replaces { DurableReplaces }
{}
