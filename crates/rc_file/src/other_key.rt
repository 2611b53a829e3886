//! The values of keys that settings don't have.
ghost use Rattle.std.specs.{Prelude.{◌≡◌, IfErr, IfOk, option_map}, Option.option_copied, String.string_bytes};
ghost use Rattle.rc_file.specs.{
  Answer.{IsFaultMeant, fault_in},
  FileRows.rows_of,
  OtherKey.{other_at, other_value},
  RcMeaning.rc_meaning,
  RowReading.{row_of, rows_in},
};

use crate::fault::RcFault;
use crate::file::RC_LIMIT;
use crate::row::{ReadRow, read_rows};
use std::alloc::Global;

impl ReadRow<'_> {
    /// The row's value, if it is a row of this key of this section.
    fn other_at(&self, section: &str, key: &str) -> Option<&str>
        ensures { option_copied result ≡ other_at section.now key.now (row_of self.now) }
    {
        match &self.entry {
            Some(entry) if self.section == section && entry.key.as_str() == key => {
                Some(entry.value.as_str())
            }
            _ => None,
        }
    }
}

/// The value of a key: that of its last row.
#[tactic(auto, unfolding(crate::specs::OtherKey::other_value))]
fn other_value<'r>(rows: &'r [ReadRow<'_>], section: &str, key: &str) -> Option<&'r str>
    ensures { option_copied result ≡ other_value section.now key.now (rows_in rows.now) }
{
    let mut found = None;
    for row in rows {
        if let Some(text) = row.other_at(section, key) {
            found = Some(text);
        }
    }
    found
}

/// The value that an rc file gives a key which settings don't have, that of its last row; none if it has no row. The
/// key is in ASCII lower case. Its fault is one that `read_rc` has of the file too.
#[tactic(auto, using(crate::proofs::RcMeaningLemmas::good_rows), unfolding(crate::specs::RcMeaning::rc_meaning))]
pub fn read_other(
    alloc: Global,
    bytes: &[u8],
    section: &str,
    key: &str,
) -> Result<Option<String>, RcFault>
    ensures ok { IfOk result (λ value. option_map string_bytes value
        ≡ other_value section.now key.now (rows_of bytes.now)) }
    ensures err { IfErr result (IsFaultMeant (fault_in (rc_meaning bytes.now))) }
{
    if bytes.len() > RC_LIMIT {
        return Err(RcFault::TooLong);
    }
    let rows = read_rows(alloc, bytes)?;
    match other_value(&rows, section, key) {
        None => Ok(None),
        Some(text) => Ok(Some(String::from_str(alloc, text)?)),
    }
}
