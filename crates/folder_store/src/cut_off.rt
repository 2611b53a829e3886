//! What is cut off from a file, kept in a file of its own.

ghost use Rattle.std.specs.Prelude.{◌≡◌, ◌<◌, ◌≤◌, ◌⊎◌, ◌-◌, ◌↔◌, ◌||◌, IsTrue, Ok, OnOk, false, true};
ghost use Rattle.std.specs.Prelude.{is_ok, length, not, take};
ghost use Rattle.folder_store.specs.{
  CutOff.{BeginsWith, Copies, HasAllKept, IsKeptDurable, KeepsText, KeepsCut, KeepsBeforeCut, MakesMissing, TellsHad},
  CutOff.{WhereKeptSound, bytes_from, has_others},
  Sound.{WhereFileSound, WhereFilesSound},
};
ghost use Rattle.mail_store.specs.DiskCalls.{AppendsDisk, CutsDisk};

use crate::durable_file::{Appending, append_in, cut_flushed, flush_both, replace_flushed};
use crate::file_folder::FileFolder;
use mail_store::StoreFault;

/// How many octets are kept by one write.
const PIECE: usize = 4_096;

/// Whether an entry begins with what is kept; zeros, as a loss of power leaves them, don't count.
fn begins_with(entry: &[u8], kept: &[u8]) -> bool
    ensures within { IsTrue result → length kept.now ≤ length entry.now }
    ensures begins { IsTrue result → BeginsWith entry.now kept.now }
{
    if kept.len() > entry.len() {
        return false;
    }
    for place in 0..kept.len() {
        if kept[place] != 0 && kept[place] != entry[place] {
            return false;
        }
    }
    true
}

/// Whether a piece is there, and bytes begin with it.
fn is_front(piece: &[u8], bytes: &[u8]) -> bool
    ensures { IsTrue result ↔ (0 < length piece.now) × (piece.now ≡ take (length piece.now) bytes.now) }
{
    !piece.is_empty() && bytes.starts_with(piece)
}

/// Whether it is known that an entry has all that is kept. It isn't if they couldn't be compared.
fn is_known(answer: Result<bool, StoreFault>) -> bool
    ensures { IsTrue result ↔ answer ≡ Ok true }
{
    matches!(answer, Ok(true))
}

/// A file in a folder of a file system, in which is kept what is cut off from another file. There
/// need be none. It is never written over: what is kept comes after what is there, without what a
/// refused or killed cut kept of the same octets.
#[derive(Drop)]
pub struct CutOff<'a, F> {
    folder: F,
    name: &'a str,
    /// Whether the last bytes that were appended to the other file were refused: what is cut off next
    /// is a part of them.
    is_refused: bool,
    /// Whether there may be a file.
    may_be_there: bool,
    /// Whether this run kept something.
    has_kept: bool,
    /// Whether bytes that were appended to the other file have all that is kept.
    are_ours: bool,
}

impl<'a, F> CutOff<'a, F> {
    /// The file of a name in a folder.
    pub fn over(folder: F, name: &'a str) -> CutOff<'a, F>
        ensures { (result.folder ≡ folder) × (result.name.now ≡ name.now) }
    {
        CutOff {
            folder,
            name,
            is_refused: false,
            may_be_there: true,
            has_kept: false,
            are_ours: false,
        }
    }

    /// Whether this run kept something that isn't known to be a part of what was appended since.
    pub fn has_others(&self) -> bool
        ensures { result ≡ has_others self.now }
    {
        self.has_kept && !self.are_ours
    }

    /// The folder and the name.
    pub fn place(&self) -> (&F, &str)
        ensures { (result.0.now ≡ self.now.folder) × (result.1.now ≡ self.now.name.now) }
    {
        (&self.folder, self.name)
    }

    /// Whether bytes that were appended since have all that this run kept.
    pub fn are_ours(&self) -> bool
        ensures { result ≡ self.now.are_ours }
    {
        self.are_ours
    }
}

impl<'a, F: FileFolder + Drop> CutOff<'a, F> {
    // The size of the file, which is made unless it is there.
    fn make(&mut self) -> Result<u64, StoreFault>
        ensures same { self.new ≡ record self.old { folder = self.new.folder } }
        ensures makes { WhereKeptSound F.sound F.directory self.old self.new (λ old new. MakesMissing old result new) }
    {
        match self.folder.edges(self.name) {
            Ok(edges) => Ok(edges.size),
            Err(StoreFault::Missing) => {
                replace_flushed(&mut self.folder, self.name, &[])?;
                Ok(0)
            }
            Err(fault) => Err(fault),
        }
    }

    // How many octets of another file from `start` to `end` this file has already: all, if it ends
    // with them; as many as it has, if it has no others; or none. The other file is only read.
    fn octets_there(
        &mut self,
        other: &mut F,
        name: &str,
        start: u64,
        end: u64,
    ) -> Result<u64, StoreFault>
        ensures same { self.new ≡ record self.old { folder = self.new.folder } }
        ensures reads { WhereFilesSound F.sound F.directory other.old other.new (λ old new. new ≡ old) }
        ensures tells { F.sound other.new → WhereKeptSound F.sound F.directory self.old self.new (λ old new.
            TellsHad (end - start) (bytes_from (F.directory other.old) name.now start) old result new) }
    {
        let size = self.make()?;
        let shared = size.min(end.saturating_sub(start));
        let mut theirs = [0u8; PIECE];
        let mut ours = [0u8; PIECE];
        let mut done = 0u64;
        while done < shared {
            let place = size - shared + done;
            let count = self.folder.read_at(self.name, place, &mut ours)?;
            let in_other = other.read_at(name, start + done, &mut theirs)?;
            if !is_front(&ours[..count], &theirs[..in_other]) {
                return Ok(0);
            }
            done = done.saturating_add(count as u64);
        }
        Ok(shared)
    }

    // Appends the bytes of another file from one place to another. Refused if the other file ends before: then another
    // program has cut it.
    fn copy(&mut self, other: &mut F, name: &str, from: u64, end: u64) -> Result<(), StoreFault>
        ensures same { self.new ≡ record self.old { folder = self.new.folder } }
        ensures reads { WhereFilesSound F.sound F.directory other.old other.new (λ old new. new ≡ old) }
        ensures copies { F.sound other.new → WhereKeptSound F.sound F.directory self.old self.new (λ old new.
            Copies (end - from) (bytes_from (F.directory other.old) name.now from) old result new) }
    {
        let mut at = from;
        let mut buf = [0u8; PIECE];
        while at < end {
            let count = other.read_at(name, at, &mut buf)?.min((end - at) as usize);
            if count == 0 {
                return Err(StoreFault::Refused);
            }
            append_in(
                &mut self.folder,
                self.name,
                &buf[..count],
                Appending::AtOnce,
            )?;
            at += count as u64;
        }
        Ok(())
    }

    // Keeps the bytes of another file from `start` on, and flushes them, also those that a killed run had kept. The
    // other file is only read. From the start on it isn't known that what is kept is ours, also if it is refused.
    #[tactic(auto, using(mail_store::proofs::DiskLemmas::flushed_settled))]
    fn keep(&mut self, other: &mut F, name: &str, start: u64) -> Result<(), StoreFault>
        ensures state { self.new ≡ record self.old {
          folder = self.new.folder;
          may_be_there = true;
          are_ours = false;
          has_kept = is_ok result || self.old.has_kept;
        } }
        ensures durable { OnOk result (F.sound self.new.folder → IsKeptDurable F.directory self.new) }
        ensures reads { WhereFilesSound F.sound F.directory other.old other.new (λ old new. new ≡ old) }
        ensures keeps { F.sound other.new → WhereKeptSound F.sound F.directory self.old self.new (λ old new.
            KeepsText (bytes_from (F.directory other.old) name.now start) old result new) }
    {
        self.may_be_there = true;
        self.are_ours = false;
        let end = other.edges(name)?.size;
        let from = start.saturating_add(self.octets_there(other, name, start, end)?);
        self.copy(other, name, from, end)?;
        flush_both(&mut self.folder, self.name)?;
        self.has_kept = true;
        Ok(())
    }

    // Cuts another file to its first bytes, and flushes it. What is cut off is kept first.
    fn cut(&mut self, other: &mut F, name: &str, len: u64) -> Result<(), StoreFault>
        ensures cuts { WhereFileSound F.sound F.directory name.now other.old other.new
            (λ old new. CutsDisk old len result new) }
        ensures keeps { KeepsCut F.sound F.directory name.now len other.old other.new result self.old self.new }
    {
        self.keep(other, name, len)?;
        cut_flushed(other, name, len)
    }

    // Whether an entry begins with all that is kept.
    fn is_in(&mut self, entry: &[u8]) -> Result<bool, StoreFault>
        ensures has { result ≡ Ok true → HasAllKept F.sound F.directory self.new entry.now }
        ensures same { self.new ≡ record self.old { folder = self.new.folder } }
    {
        let mut buf = [0u8; PIECE];
        let mut at = 0usize;
        'pieces: loop {
            let count = self.folder.read_at(self.name, at as u64, &mut buf)?;
            if count == 0 || !begins_with(&entry[at..], &buf[..count]) {
                return Ok(count == 0);
            }
            at += count;
        }
    }

    // Notes that bytes were appended to the other file, or refused.
    fn note(&mut self, bytes: &[u8], is_done: bool)
        ensures refused { self.new.is_refused ≡ not is_done }
        ensures stays { is_done ≡ false → has_others self.new ≡ has_others self.old }
        ensures ours { self.new.are_ours ≡ true
            → (self.old.are_ours ≡ true) ⊎ HasAllKept F.sound F.directory self.new bytes.now }
    {
        if is_done && self.may_be_there {
            self.are_ours = is_known(self.is_in(bytes));
            self.may_be_there = self.has_kept && !self.are_ours;
        }
        self.is_refused = !is_done;
    }
}

/// Appends bytes to a file, and flushes them in one of the two ways.
pub fn append_noting<F: FileFolder + Drop>(
    folder: &mut F,
    name: &str,
    bytes: &[u8],
    appending: Appending,
    cut_off: &mut Option<CutOff<'_, F>>,
) -> Result<(), StoreFault>
    ensures { WhereFileSound F.sound F.directory name.now folder.old folder.new
        (λ old new. AppendsDisk old bytes.now result new) }
{
    let answer = append_in(folder, name, bytes, appending);
    if let Some(cut_off) = cut_off {
        cut_off.note(bytes, answer.is_ok());
    }
    answer
}

/// Cuts a file to its first bytes, and flushes it. What is cut off is kept first, unless it is a part
/// of bytes of this run that were refused.
pub fn cut_keeping<F: FileFolder + Drop>(
    folder: &mut F,
    name: &str,
    len: u64,
    cut_off: &mut Option<CutOff<'_, F>>,
) -> Result<(), StoreFault>
    ensures cuts { WhereFileSound F.sound F.directory name.now folder.old folder.new
        (λ old new. CutsDisk old len result new) }
    ensures keeps { KeepsBeforeCut (KeepsCut F.sound F.directory name.now len folder.old folder.new result)
        cut_off.old cut_off.new }
{
    match cut_off {
        Some(cut_off) if !cut_off.is_refused => cut_off.cut(folder, name, len),
        _ => cut_flushed(folder, name, len),
    }
}
