//! The messages that PASS found, in order of their numbers (RFC 1939, section 4).
ghost use Rattle.std.specs.Prelude.{◌≡◌, ◌≤◌, ◌<◌, ◌+◌, ◌-◌, ℕ, List, map, length, slice_get, Some, None, IfOk};
ghost use Rattle.std.specs.Prelude.{MatchOption, vec_len};
ghost use Rattle.pop3_server.specs.{
  declared.rows.MessageRow.MessageRow,
  ServerMachine.{row_numbered, row_of_entry, mark_at, unmarked, left_count, left_total, KeepLimits},
};

use crate::maildrop::{Entry, MAX_COUNT, MAX_SIZE};
use pop3_wire::Bytes;
use std::alloc::{AllocError, Global};
use std::marker::Model;

/// A message that PASS found, and whether it is marked for removal.
#[derive(Drop)]
pub struct MessageRow {
    pub entry: Entry,
    pub marked: bool,
}

/// The messages that PASS found, in order of their numbers.
#[derive(Drop)]
pub struct Rows {
    rows: Vec<MessageRow>,
}

impl Model for Rows {
    ghost use Rattle.std.specs.Prelude.{◌≤◌, List, length};
    ghost use Rattle.pop3_server.specs.{declared.rows.MessageRow.MessageRow, Maildrop.max_count};

    ghost Value = { List MessageRow };

    ghost view = { λ r. r.rows.items };

    ghost invariant = { λ r. length r.rows.items ≤ max_count };
}

impl Rows {
    /// The rows of a listing, nothing marked.
    #[tactic(auto, using(crate::proofs::RowLemmas::small_push))]
    pub fn of(alloc: Global, entries: Vec<Entry>) -> Result<Rows, AllocError>
        requires { vec_len entries ≤ MAX_COUNT }
        ensures rows { IfOk result (λ rows. rows ≡ map row_of_entry entries.items) }
        ensures limits { IfOk result (λ rows. KeepLimits rows) }
    {
        let mut rows = Vec::with_capacity(alloc, entries.len())?;
        for entry in entries {
            // The call states the limit that an entry's type keeps.
            let _size = entry.size();
            rows.push(MessageRow {
                entry,
                marked: false,
            })?;
        }
        Ok(Rows { rows })
    }

    /// The rows.
    pub fn as_slice(&self) -> &[MessageRow]
        ensures value { result.now ≡ self.now }
        ensures within { length result.now ≤ MAX_COUNT }
    {
        self.rows.as_slice()
    }

    /// The place of the row of this message number, counted from 1. None if there is no such message,
    /// or it is marked.
    pub fn place(&self, number: u32) -> Option<usize>
        ensures { MatchOption result
            (row_numbered self.now number ≡ None)
            (λ i. (i ≡ number - 1) × (i < length self.now)
            × ((row : MessageRow) × (slice_get self.now i ≡ Some row) × (row_numbered self.now number ≡ Some row))) }
    {
        if number == 0 {
            return None;
        }
        let i = number as usize - 1;
        if i >= self.rows.len() {
            return None;
        }
        if self.rows[i].marked {
            return None;
        }
        Some(i)
    }

    /// The row at a place.
    pub fn row(&self, i: usize) -> &MessageRow
        requires { i < length self.now }
        ensures { slice_get self.now i ≡ Some result.now }
    {
        &self.rows[i]
    }

    /// Marks the row at a place.
    #[tactic(auto, using(crate::proofs::RowLemmas::set_mark))]
    pub fn mark(&mut self, i: usize)
        requires { i < length self.old }
        ensures { self.new ≡ mark_at self.old i }
    {
        self.rows[i].marked = true;
    }

    /// Unmarks all rows.
    pub fn unmark(&mut self)
        ensures { self.new ≡ map unmarked self.old }
    {
        for row in self.rows.iter_mut() {
            row.marked = false;
        }
    }
}

/// How many messages aren't marked, and their octets.
pub fn left(rows: &[MessageRow]) -> (usize, u64)
    requires { length rows.now ≤ MAX_COUNT }
    ensures count { result.0 ≡ left_count rows.now }
    ensures total { result.1 ≡ left_total rows.now }
{
    let mut count = 0;
    let mut total = 0;
    for row in rows {
        if !row.marked {
            count += 1;
            total += row.entry.size();
        }
    }
    (count, total)
}
