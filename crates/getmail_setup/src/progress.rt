//! The line of progress, which a terminal shows while messages come.
ghost use Rattle.std.specs.{Prelude.{◌≡◌, ◌<◌, IfOk, length}, String.string_bytes};
ghost use Rattle.getmail_setup.specs.Progress.{
  NotesProgress,
  HasNextSize,
  HasTaken,
  KnowsNothing,
  due_after,
  in_tenths,
  is_due_line,
  next_size,
  part_in,
  part_text,
  progress_text,
  size_for,
};

use crate::listed::without_end;
use pop3_wire::{Asked, Note, read_scan};
use std::alloc::{AllocError, Global};

/// How many octets of a message come before the line is shown again.
const STEP: u64 = 65_536;

/// How many rows of listings come before it is; a listing with fewer messages isn't shown.
const ROWS: u32 = 1_000;

/// From how many octets on a size is in megabytes.
const MEGABYTE: u64 = 1_000_000;

/// How far a fetch is, as commands and replies show it.
#[derive(Drop)]
pub struct Progress {
    total: u32,
    rows: u32,
    /// The sizes of the first messages, as LIST had them.
    sizes: Vec<u64>,
    /// The size of the message that comes; 0 if it isn't known.
    size: u64,
    octets: u64,
    due: u64,
    asked: Option<Asked>,
}

/// A number of tenths: with a digit after the point below ten.
fn in_tenths(alloc: Global, tenths: u64) -> Result<String, AllocError>
    ensures { IfOk result (λ text. string_bytes text ≡ in_tenths tenths) }
{
    let (whole, rest) = (tenths / 10, tenths % 10);
    if tenths < 100 {
        format!(in alloc; "{whole}.{rest}")
    } else {
        format!(in alloc; "{whole}")
    }
}

/// How much of a size has come, in a unit with tenths of so many octets.
fn part_in(
    alloc: Global,
    tenth: u64,
    unit: &str,
    octets: u64,
    size: u64,
) -> Result<String, AllocError>
    requires { 0 < tenth }
    ensures { IfOk result (λ text. string_bytes text ≡ part_in tenth unit.now octets size) }
{
    let part = in_tenths(alloc, octets.min(size) / tenth)?;
    let whole = in_tenths(alloc, size / tenth)?;
    format!(in alloc; ", {part} of {whole}{unit}")
}

/// How much of a size has come, if that is known.
fn part_text(alloc: Global, octets: u64, size: u64) -> Result<String, AllocError>
    ensures { IfOk result (λ text. string_bytes text ≡ part_text octets size) }
{
    if size == 0 {
        return Ok(String::new(alloc));
    }
    if size < MEGABYTE {
        return part_in(alloc, 100, " kB", octets, size);
    }
    part_in(alloc, 100_000, " MB", octets, size)
}

impl Progress {
    /// Nothing is known yet.
    pub fn new(alloc: Global) -> Progress
        ensures { KnowsNothing result }
    {
        Progress {
            total: 0,
            rows: 0,
            sizes: Vec::new(alloc),
            size: 0,
            octets: 0,
            due: 0,
            asked: None,
        }
    }

    /// The size in a row of LIST, if it is that of the next message: rows come in order.
    fn next_size(&self, row: &[u8]) -> Option<u64>
        ensures { result ≡ next_size (length self.now.sizes.items) row.now }
    {
        match read_scan(without_end(row)) {
            Ok((number, size)) => {
                if self.sizes.len() as u64 + 1 == u64::from(number) {
                    Some(size)
                } else {
                    None
                }
            }
            Err(_) => None,
        }
    }

    /// Takes a row of LIST. Where one isn't that of the next message, or there is no memory, no more sizes are known.
    fn add_size(&mut self, row: &[u8])
        ensures { HasNextSize self.old row.now self.new }
    {
        if let Some(size) = self.next_size(row) {
            let _ = self.sizes.push(size);
        }
    }

    /// The size of the message that is asked for; 0 if it isn't known.
    fn size_for(&self, asked: Option<Asked>) -> u64
        ensures { result ≡ size_for self.now.sizes.items asked }
    {
        match asked {
            Some(Asked::Retr(number)) if number > 0 => {
                let place = (number - 1) as usize;
                self.sizes.get(place).copied().unwrap_or(0)
            }
            _ => 0,
        }
    }

    /// Takes a part of a body.
    fn take(&mut self, text: &[u8], octets: usize)
        ensures { HasTaken self.old self.old.asked text.now octets self.new }
    {
        self.octets = self.octets.saturating_add(octets as u64);
        match self.asked {
            Some(Asked::Uidl) => self.rows = self.rows.saturating_add(1),
            Some(Asked::List) => {
                self.rows = self.rows.saturating_add(1);
                self.add_size(text);
            }
            _ => {}
        }
    }

    /// Takes note of a part of the conversation.
    pub fn note(&mut self, part: Note<'_>)
        ensures { NotesProgress self.old part.entry self.new }
    {
        match part {
            Note::Command(asked, _) => {
                self.size = self.size_for(asked);
                self.asked = asked;
                self.octets = 0;
                self.due = 0;
            }
            Note::Count(total) => self.total = total,
            Note::Body { text, octets, .. } => self.take(text, octets),
            Note::Reply(_) | Note::Refused => {}
        }
    }

    /// Whether the line is to be shown now: a message or a long listing has begun, or much more of it came since
    /// the last time.
    pub fn is_due(&mut self) -> bool
        ensures due { result ≡ is_due_line self.old self.old.asked }
        ensures next { self.new ≡ record self.old { due = due_after self.old self.old.asked } }
    {
        match self.asked {
            Some(Asked::Stat | Asked::Uidl | Asked::List) => {
                self.total >= ROWS && self.rows % ROWS == 0
            }
            Some(Asked::Retr(_)) => {
                if self.octets < self.due {
                    return false;
                }
                self.due = self.octets.saturating_add(STEP);
                true
            }
            _ => false,
        }
    }

    /// The text of the line. UIDL and LIST each have a row for each message.
    pub fn text(&self, alloc: Global) -> Result<String, AllocError>
        ensures { IfOk result (λ text. string_bytes text ≡ progress_text self.now) }
    {
        let total = self.total;
        if let Some(Asked::Retr(number)) = self.asked {
            let part = part_text(alloc, self.octets, self.size)?;
            return format!(in alloc; "message {number} of {total}{part}");
        }
        let listed = self.rows / 2;
        format!(in alloc; "listed {listed} of {total} messages")
    }
}
