//! The line of an rc file's fault.
ghost use Rattle.std.specs.Prelude.{◌≡◌, drop, take, IfOk};
ghost use Rattle.rc_file.specs.{
  FaultLine.{fault_line, is_about, is_near, is_near_after, last_line, line_at},
  RcMeaning.is_named,
  RowReading.{row_of, rows_in},
};

use crate::fault::RcFault;
use crate::file::{RC_LIMIT, read_rc};
use crate::key::Key;
use crate::row::{ReadRow, read_rows};
use std::alloc::{AllocError, Global};

/// The first n octets.
fn before(octets: &[u8], n: usize) -> &[u8]
    ensures { result.now ≡ take n octets.now }
{
    octets.get(..n).unwrap_or(octets)
}

/// The octets after the first n.
fn after(octets: &[u8], n: usize) -> &[u8]
    ensures { result.now ≡ drop n octets.now }
{
    octets.get(n..).unwrap_or_default()
}

/// Whether two names are the same but for one letter after the first n: another, one more or one less.
fn is_near_after(name: &[u8], other: &[u8], n: usize) -> bool
    ensures { result ≡ is_near_after name.now other.now n }
{
    let next = n.saturating_add(1);
    before(name, n) == before(other, n)
        && (after(name, next) == after(other, next)
            || after(name, n) == after(other, next)
            || after(name, next) == after(other, n))
}

/// Whether two names are the same but for one letter.
fn is_near(name: &str, other: &str) -> bool
    ensures { result ≡ is_near name.now other.now }
{
    let (name, other) = (name.as_bytes(), other.as_bytes());
    (0..other.len() + 1).any(|n| is_near_after(name, other, n))
}

fn is_named(section: &str, name: &str, key: Key) -> bool
    ensures { result ≡ is_named section.now name.now key }
{
    section == key.section() && name == key.name()
}

/// Whether a fault is about this key of this section. A missing key may have been meant by one whose name is
/// one letter off.
fn is_about(fault: &RcFault, section: &str, name: &str) -> bool
    ensures { result ≡ is_about fault.now section.now name.now }
{
    match *fault {
        RcFault::MissingKey(key) => section == key.section() && is_near(name, key.name()),
        RcFault::UnknownType(key) | RcFault::BadValue(key) | RcFault::Unsupported(key) => {
            is_named(section, name, key)
        }
        RcFault::BadPath => is_named(section, name, Key::Path),
        _ => false,
    }
}

impl ReadRow<'_> {
    /// The row's line, if a fault is about its key.
    fn line_at(&self, fault: &RcFault) -> Option<u32>
        ensures { result ≡ line_at fault.now (row_of self.now) }
    {
        match &self.entry {
            Some(entry) if is_about(fault, self.section, entry.key.as_str()) => Some(self.line),
            _ => None,
        }
    }
}

/// The line of the last row that a fault is about.
#[tactic(auto, unfolding(crate::specs::FaultLine::last_line))]
fn last_line(rows: &[ReadRow<'_>], fault: &RcFault) -> Option<u32>
    ensures { result ≡ last_line fault.now (rows_in rows.now) }
{
    let mut found = None;
    for row in rows {
        if let Some(line) = row.line_at(fault) {
            found = Some(line);
        }
    }
    found
}

/// The line of the fault that `read_rc` finds in an rc file, counted from 1: the bad line, or the last one with
/// the key whose value is wrong. A missing key has the last line of its section with a key that is one letter
/// off, if there is one. No other fault has a line.
#[tactic(auto, unfolding(crate::specs::FaultLine::fault_line, crate::specs::RcMeaning::rc_meaning))]
pub fn fault_line(alloc: Global, bytes: &[u8]) -> Result<Option<u32>, AllocError>
    ensures { IfOk result (λ line. line ≡ fault_line bytes.now) }
{
    if bytes.len() > RC_LIMIT {
        return Ok(None);
    }
    match read_rc(alloc, bytes) {
        Ok(_) => Ok(None),
        Err(RcFault::TooLong) => Ok(None),
        Err(RcFault::BadLine(line)) => Ok(Some(line)),
        Err(RcFault::NoMemory) => Err(AllocError),
        Err(fault) => {
            let rows = read_rows(alloc, bytes).map_err(|_| AllocError)?;
            Ok(last_line(&rows, &fault))
        }
    }
}
