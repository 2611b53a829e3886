//! What earlier unattended runs told, and the octets of the file that keeps it.
ghost use Rattle.std.specs.Prelude.{◌≡◌, ◌<◌, ◌≤◌, ◌++◌, ◌∷◌, [], bytes_eq, flat_map, length, position, IfOk, IfSome};
ghost use Rattle.std.specs.Prelude.{OnErr, OnOk};
ghost use Rattle.run_memory.specs.{
  Lines.{AreNumbers, known_fault_line, large_line, notice_line},
  Memory.{IsReadBack, with_lf, nothing, room, memory_text, told_in, with_fault, with_large, with_line, with_notice},
};

use crate::key::Key;
use crate::line::{
    KnownFault, Line, SaidNotice, put_fault, put_large, put_left, put_marks, put_notice, read_line,
};
use crate::run::{LeftMarks, RunMarks};
use mail_terms::cut_text;
use std::alloc::{AllocError, Global};
use std::marker::Model;

/// The first line, and its LF.
const HEADER: &[u8] = b"getmail-told 2\n";

/// The last line.
const END: &[u8] = b"end";

/// How many octets such a file has at most.
pub const MOST_OCTETS: u64 = 196_608;

/// How many faults are kept, how many notices and how many messages that are too large: the last ones.
const FAULTS: usize = 16;

const NOTICES: usize = 1_000;

const LARGE: usize = 1_000;

/// What earlier runs told: the faults that were seen, in the order in which they were told last, what is known of
/// messages that were left out, times of the account, which notices were told, and which messages are too large.
#[derive(Drop)]
pub struct Memory {
    pub(crate) faults: Vec<KnownFault>,
    pub(crate) left: LeftMarks,
    pub(crate) marks: RunMarks,
    pub(crate) notices: Vec<SaidNotice>,
    pub(crate) large: Vec<Key>,
}

impl Model for Memory {
    ghost use Rattle.run_memory.specs.Memory.{Told, IsKept};

    ghost Value = { Told };

    ghost view = { λ m. record {
      faults = m.faults.items;
      left = m.left;
      marks = m.marks;
      notices = m.notices.items;
      large = m.large.items;
    } };

    ghost invariant = { λ m. IsKept (record {
      faults = m.faults.items;
      left = m.left;
      marks = m.marks;
      notices = m.notices.items;
      large = m.large.items;
    }) };
}

/// Adds an item to the last ones of a list.
fn push_last<T: Copy + Drop>(items: &mut Vec<T>, item: T, most: usize) -> Result<(), AllocError>
    requires { 0 < most }
    ensures ok { OnOk result (items.new.items ≡ room most items.old.items ++ item ∷ []) }
    ensures err { OnErr result (items.new.items ≡ room most items.old.items) }
{
    if items.len() >= most {
        items.remove(0);
    }
    items.push(item)?;
    Ok(())
}

/// These are numbers of 64 bits.
fn fit(one: u64, two: u64, three: u64)
    ensures { AreNumbers one two three }
{}

/// Adds the lines of faults.
fn put_faults(alloc: Global, text: &mut Vec<u8>, faults: &[KnownFault]) -> Result<(), AllocError>
    ensures { OnOk result (text.new.items
        ≡ text.old.items ++ flat_map (λ fault. with_lf (known_fault_line fault)) faults.now) }
{
    for fault in faults {
        put_fault(alloc, text, fault)?;
    }
    Ok(())
}

/// Adds the lines of notices.
fn put_notices(alloc: Global, text: &mut Vec<u8>, notices: &[SaidNotice]) -> Result<(), AllocError>
    ensures { OnOk result (text.new.items
        ≡ text.old.items ++ flat_map (λ notice. with_lf (notice_line notice)) notices.now) }
{
    for notice in notices {
        put_notice(alloc, text, notice)?;
    }
    Ok(())
}

/// Adds the lines of messages that are too large.
fn put_keys(text: &mut Vec<u8>, keys: &[Key]) -> Result<(), AllocError>
    ensures { OnOk result (text.new.items
        ≡ text.old.items ++ flat_map (λ key. with_lf (large_line key)) keys.now) }
{
    for key in keys {
        put_large(text, key)?;
    }
    Ok(())
}

impl Memory {
    /// Nothing was told.
    pub fn new(alloc: Global) -> Memory
        ensures { result ≡ nothing }
    {
        Memory {
            faults: Vec::new(alloc),
            left: LeftMarks {
                unnamed: 0,
                limited: 0,
                repeated: 0,
            },
            marks: RunMarks {
                ended: 0,
                failing: 0,
                met: 0,
            },
            notices: Vec::new(alloc),
            large: Vec::new(alloc),
        }
    }

    /// What is known of messages that were left out.
    pub(crate) fn set_left(&mut self, left: LeftMarks)
        ensures { self.new ≡ record self.old { left = left } }
    {
        fit(left.unnamed, left.limited, left.repeated);
        self.left = left;
    }

    /// The times of the account.
    pub(crate) fn set_marks(&mut self, marks: RunMarks)
        ensures { self.new ≡ record self.old { marks = marks } }
    {
        fit(marks.ended, marks.failing, marks.met);
        self.marks = marks;
    }

    /// Since when another run's lock is met.
    pub fn met(&self) -> u64
        ensures { result ≡ self.now.marks.met }
    {
        self.marks.met
    }

    /// Adds a fault. If there are 16, the first one is forgotten, also if there is no memory.
    pub(crate) fn add_fault(&mut self, fault: KnownFault) -> Result<(), AllocError>
        ensures ok { OnOk result (self.new ≡ record self.old { faults = with_fault self.old.faults fault }) }
    {
        // For the proof alone: the key and the numbers can be read back.
        let _ = fault.key.as_slice();
        fit(fault.times.since, fault.times.told, fault.times.runs);
        push_last(&mut self.faults, fault, FAULTS)
    }

    /// Adds a notice. If there are 1,000, the first one is forgotten, also if there is no memory.
    pub(crate) fn add_notice(&mut self, notice: SaidNotice) -> Result<(), AllocError>
        ensures ok { OnOk result (self.new ≡ record self.old { notices = with_notice self.old.notices notice }) }
    {
        // For the proof alone: the key and the number can be read back.
        let _ = notice.key.as_slice();
        fit(notice.told, 0, 0);
        push_last(&mut self.notices, notice, NOTICES)
    }

    /// Adds a message that is too large. If there are 1,000, the first one is forgotten, also if there is no memory.
    pub(crate) fn add_large(&mut self, key: Key) -> Result<(), AllocError>
        ensures ok { OnOk result (self.new ≡ record self.old { large = with_large self.old.large key }) }
    {
        // For the proof alone: the key can be read back.
        let _ = key.as_slice();
        push_last(&mut self.large, key, LARGE)
    }

    /// The place of the first fault of a key.
    pub(crate) fn place_of(&self, key: Key) -> Option<usize>
        ensures place { result ≡ position (λ fault. bytes_eq fault.key key) self.now.faults }
        ensures within { IfSome result (λ place. place < length self.now.faults) }
    {
        self.faults.iter().position(|known| known.key == key)
    }

    /// Takes what a line says.
    fn take(&mut self, line: Line) -> Result<(), AllocError>
        ensures { OnOk result (self.new ≡ with_line self.old line) }
    {
        match line {
            Line::Left(left) => {
                self.set_left(left);
                Ok(())
            }
            Line::Marks(marks) => {
                self.set_marks(marks);
                Ok(())
            }
            Line::Fault(fault) => self.add_fault(fault),
            Line::Notice(notice) => self.add_notice(notice),
            Line::Large(key) => self.add_large(key),
        }
    }

    /// What the octets of a file say; nothing, if they aren't those of such a file, from its first line to `end`. Lines
    /// end at LF: with a CR before it, as an editor may put there, a line is another one.
    #[tactic(auto, using(crate::proofs::MemoryLemmas::line_laws))]
    pub fn read(alloc: Global, octets: &[u8]) -> Result<Memory, AllocError>
        ensures { IfOk result (λ memory. memory ≡ told_in octets.now) }
    {
        let mut memory = Memory::new(alloc);
        let Some(mut rest) = octets.strip_prefix(HEADER) else {
            return Ok(memory);
        };
        while !rest.is_empty() {
            let (line, behind) = cut_text(rest);
            if line == END {
                return Ok(memory);
            }
            let Some(line) = read_line(line) else {
                return Ok(Memory::new(alloc));
            };
            memory.take(line)?;
            rest = behind;
        }
        Ok(Memory::new(alloc))
    }

    /// What is written is read back as the same.
    fn is_read_back(&self)
        ensures { IsReadBack self.now }
    {
        let _ = &self.left;
    }

    /// The octets of the file. Reading them gives the same again.
    pub fn text(&self, alloc: Global) -> Result<Vec<u8>, AllocError>
        ensures written { IfOk result (λ text. text.items ≡ memory_text self.now) }
        ensures back { IsReadBack self.now }
    {
        self.is_read_back();
        let mut text = Vec::from_slice(alloc, HEADER)?;
        put_left(alloc, &mut text, self.left)?;
        put_marks(alloc, &mut text, self.marks)?;
        put_faults(alloc, &mut text, &self.faults)?;
        put_notices(alloc, &mut text, &self.notices)?;
        put_keys(&mut text, &self.large)?;
        text.extend_from_slice(END)?;
        Ok(text)
    }
}
