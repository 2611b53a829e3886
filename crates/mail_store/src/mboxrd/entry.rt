//! Entries of an mboxrd file: a line that begins with `From `, the quoted text and an empty line.

ghost use Rattle.std.specs.Prelude.{◌≡◌, ◌≢◌, ◌↔◌, ◌≤◌, ◌+◌, ◌-◌, ◌++◌, List, ℕ, drop, length, take, IfErr, IfOk};
ghost use Rattle.std.specs.Prelude.{IsTrue, OnOk};
ghost use Rattle.mail_terms.specs.{FailureCount.{Tallies, refuses}, Text.IsWhole};
ghost use Rattle.mail_store.specs.{
  DiskCalls.{LooksOn, PeeksDisk, ReadsDisk},
  Durable.seen_on,
  Fault.is_refusal,
  FlatFile.{HasBytes, edges_of},
  Mboxrd.{MayGoOn, entry_of, separator, EntryAddsText, OneListOfTexts, TextsMayGoOn},
  MboxCalls.{AppendsCopy, AppendsEntry, EntriesAreDurable, TalliesCopy, TalliesEntry, TellsEnds, TellsFront, TellsMbox},
};

use crate::fault::{EntryFault, StoreFault};
use crate::file::flat_file::{Edges, FlatFile};
use crate::mboxrd::quoting::{quote_within, quoted_len};
use std::alloc::Global;

pub const SEPARATOR: &[u8] = b"From MAILER-DAEMON Thu Jan  1 00:00:00 1970\n";

/// Whether an entry may follow a file of this size and these ends: it is empty, or begins with
/// `From ` and ends with LF LF.
fn may_go_on(edges: &Edges) -> bool
    ensures { (was : List ℕ) → edges.now ≡ edges_of was → (IsTrue result ↔ MayGoOn was) }
{
    edges.size == 0 || (edges.head == *b"From " && edges.tail == *b"\n\n")
}

/// The size and the ends of a file that an entry may follow.
fn look_at<F: FlatFile>(file: &mut F) -> Result<Edges, StoreFault>
    ensures looks { F.sound file.new → F.sound file.old
        × ReadsDisk TellsEnds (F.disk file.old) result (F.disk file.new) }
    ensures fault { IfErr result (λ e. e ≢ StoreFault.NoMemory) }
    ensures count { Tallies (refuses is_refusal result) (F.refusals file.old) (F.refusals file.new) }
{
    let edges = file.edges()?;
    if !may_go_on(&edges) {
        return Err(StoreFault::NotMbox);
    }
    Ok(edges)
}

/// Checks that an entry may follow a file: it is empty, or begins with `From ` and ends with LF LF.
/// Missing if there is no file, Refused if the device refused, NotMbox if no entry may follow. The
/// file stays as it was.
pub fn check_mbox<F: FlatFile>(file: &mut F) -> Result<(), StoreFault>
    ensures checks { F.sound file.new → F.sound file.old
        × ReadsDisk TellsMbox (F.disk file.old) result (F.disk file.new) }
    ensures fault { IfErr result (λ e. e ≢ StoreFault.NoMemory) }
    ensures count { Tallies (refuses is_refusal result) (F.refusals file.old) (F.refusals file.new) }
{
    look_at(file)?;
    Ok(())
}

/// The size and the ends of a file that an entry may follow, as `check_mbox` looks at it. Nothing is
/// flushed: a loss of power may take back what was seen.
pub fn peek_ends<F: FlatFile>(file: &mut F) -> Result<Edges, StoreFault>
    ensures looks { F.sound file.new → F.sound file.old
        × PeeksDisk TellsEnds (F.disk file.old) result (F.disk file.new) }
    ensures fault { IfErr result (λ e. e ≢ StoreFault.NoMemory) }
    ensures count { Tallies (refuses is_refusal result) (F.refusals file.old) (F.refusals file.new) }
{
    let edges = file.peek_edges()?;
    if !may_go_on(&edges) {
        return Err(StoreFault::NotMbox);
    }
    Ok(edges)
}

/// Checks what `check_mbox` checks, but flushes nothing.
pub fn peek_mbox<F: FlatFile>(file: &mut F) -> Result<(), StoreFault>
    ensures checks { F.sound file.new → F.sound file.old
        × PeeksDisk TellsMbox (F.disk file.old) result (F.disk file.new) }
    ensures fault { IfErr result (λ e. e ≢ StoreFault.NoMemory) }
    ensures count { Tallies (refuses is_refusal result) (F.refusals file.old) (F.refusals file.new) }
{
    peek_ends(file)?;
    Ok(())
}

/// The size and the ends of the first `size` bytes of a file, by its own ends and what these bytes end with.
fn front_edges(edges: &Edges, size: u64, tail: [u8; 2]) -> Edges
    requires { 5 ≤ size }
    ensures { (was : List ℕ) → edges.now ≡ edges_of was → size ≤ length was → tail ≡ take 2 (drop (size - 2) was)
        → result ≡ edges_of (take size was) }
{
    Edges {
        size,
        head: edges.head,
        tail,
    }
}

/// Checks that an entry may follow a file once it is cut to its first `size` bytes; it must have that
/// many. The file is only looked at.
pub fn peek_front<F: FlatFile>(file: &mut F, size: u64) -> Result<(), StoreFault>
    requires { F.sound file.old → HasBytes (seen_on (F.disk file.old)) size }
    ensures checks { F.sound file.new → F.sound file.old
        × LooksOn (TellsFront size) (F.disk file.old) result (F.disk file.new) }
    ensures fault { IfErr result (λ e. e ≢ StoreFault.NoMemory) }
    ensures count { Tallies (refuses is_refusal result) (F.refusals file.old) (F.refusals file.new) }
{
    let edges = file.peek_edges()?;
    if size == 0 {
        return Ok(());
    }
    if size < edges.head.len() as u64 {
        return Err(StoreFault::NotMbox);
    }
    let mut tail = [0; 2];
    file.read_at(size - 2, &mut tail)?;
    if !may_go_on(&front_edges(&edges, size, tail)) {
        return Err(StoreFault::NotMbox);
    }
    Ok(())
}

/// How many bytes the entry of a text takes.
fn entry_size(text: &[u8]) -> usize
    ensures { result ≡ length (entry_of text.now) }
{
    SEPARATOR.len() + quoted_len(text) + 1
}

/// Writes over the first bytes.
fn put_front(bytes: &mut [u8], front: &[u8])
    requires { length front.now ≤ length bytes.old }
    ensures { bytes.new ≡ front.now ++ drop (length front.now) bytes.old }
{
    bytes[..front.len()].copy_from_slice(front);
}

/// Makes a text its entry, within its own memory. If memory runs out, it is as it was.
fn make_entry(text: &mut Vec<u8>) -> Result<(), StoreFault>
    requires { IsWhole text.old.items }
    ensures entry { OnOk result (text.new.items ≡ entry_of text.old.items) }
    ensures fault { IfErr result (λ e. e ≡ StoreFault.NoMemory) }
{
    let count = text.len();
    let size = entry_size(text);
    text.resize(size, b'\n')?;
    quote_within(text, count, size - 1);
    put_front(text, SEPARATOR);
    Ok(())
}

/// The quoted text of an entry: what is between its first line and its last one, which is empty.
pub(crate) fn quoted_in(entry: &[u8]) -> &[u8]
    ensures { result.now ≡ take (length entry.now - (length separator + 1)) (drop (length separator) entry.now) }
{
    let ends = SEPARATOR.len() + 1;
    if entry.len() < ends {
        return &entry[..0];
    }
    let (quoted, _) = entry[SEPARATOR.len()..].split_at(entry.len() - ends);
    quoted
}

/// How many bytes the entry of a text takes. The text must be whole (see `is_whole`).
pub fn entry_len(text: &[u8]) -> u64
    requires { IsWhole text.now }
    ensures { result ≡ length (entry_of text.now) }
{
    entry_size(text) as u64
}

/// Appends the entry of a text to a file, by one `append`. The text must be whole (see `is_whole`), and
/// the entry takes its memory.
/// Nothing if the file is as it was: Missing if there is none, NotMbox if it isn't empty and doesn't both
/// begin with `From ` and end with LF LF, NoMemory if memory runs out, Refused if the device refused. After
/// a refused `append` the file is cut back to the size that it had; Front if that is refused too.
pub fn append_owned<F: FlatFile>(file: &mut F, text: Vec<u8>) -> Result<(), EntryFault>
    requires { IsWhole text.items }
    ensures appends { F.sound file.new → F.sound file.old
        × AppendsEntry (F.disk file.old) text.items result (F.disk file.new) }
    ensures count { TalliesEntry result (F.refusals file.old) (F.refusals file.new) }
{
    let edges = look_at(file)?;
    let mut entry = text;
    make_entry(&mut entry)?;
    match file.append(&entry) {
        Ok(()) => Ok(()),
        Err(fault) => match file.cut_to(edges.size) {
            Ok(()) => Err(EntryFault::Nothing(fault)),
            Err(_) => Err(EntryFault::Front),
        },
    }
}

/// Appends the entry of a text to a file, as `append_owned` does, in memory of its own. Refused may also mean that a
/// front of the entry is there.
pub fn append_entry<F: FlatFile>(alloc: Global, file: &mut F, text: &[u8]) -> Result<(), StoreFault>
    requires { IsWhole text.now }
    ensures appends { F.sound file.new → F.sound file.old
        × AppendsCopy (F.disk file.old) text.now result (F.disk file.new) }
    ensures count { TalliesCopy result (F.refusals file.old) (F.refusals file.new) }
{
    match append_owned(file, Vec::from_slice(alloc, text)?) {
        Ok(()) => Ok(()),
        Err(EntryFault::Nothing(fault)) => Err(fault),
        Err(EntryFault::Front) => Err(StoreFault::Refused),
    }
}

/// What calls see after an entry was appended, whatever was answered, and what a crash may leave.
pub fn appended_entries_are_durable()
    ensures { EntriesAreDurable }
{}

/// A file that stands for texts, followed by the entry of one more, stands for the texts and then
/// for that one.
#[tactic(auto, using(crate::proofs::MboxLemmas::adds_entry))]
pub fn entries_add_texts()
    ensures { EntryAddsText }
{}

/// A file stands for one list of texts only.
pub fn files_have_one_reading()
    ensures { OneListOfTexts }
{}

/// An entry may follow each file that stands for texts.
pub fn entries_may_follow_texts()
    ensures { TextsMayGoOn }
{}
