//! Looks up keys in the rows of an rc file.
ghost use Rattle.std.specs.{Prelude.{◌≡◌, IfErr, IfOk, None, Some}, Option.option_copied, List.list_any};
ghost use Rattle.rc_file.specs.{
  RcMeaning.{is_section, section_name, value_at, value_of, missing_section},
  Answer.fault_in,
  RowReading.{row_of, rows_in},
};

use crate::fault::RcFault;
use crate::key::{Key, Section};
use crate::row::ReadRow;

impl ReadRow<'_> {
    /// The row's value, if it is a row of the key.
    fn value_at(&self, key: Key) -> Option<&str>
        ensures { option_copied result ≡ value_at key (row_of self.now) }
    {
        match &self.entry {
            Some(entry) if self.section == key.section() && entry.key.as_str() == key.name() => {
                Some(entry.value.as_str())
            }
            _ => None,
        }
    }

    /// Whether the row is the line of the section.
    fn is_section(&self, section: Section) -> bool
        ensures { result ≡ is_section (section_name section) (row_of self.now) }
    {
        self.entry.is_none() && self.section == section.name()
    }
}

/// The key's value: that of its last row, or its default.
#[tactic(auto, unfolding(crate::specs::RcMeaning::value_of))]
fn value<'r>(rows: &'r [ReadRow<'_>], key: Key) -> Option<&'r str>
    ensures { option_copied result ≡ value_of (rows_in rows.now) key }
{
    let mut found = key.default_value();
    for row in rows {
        if let Some(text) = row.value_at(key) {
            found = Some(text);
        }
    }
    found
}

/// The key's value. MissingKey if it has none.
pub(crate) fn required<'r>(rows: &'r [ReadRow<'_>], key: Key) -> Result<&'r str, RcFault>
    ensures found { IfOk result (λ text. value_of (rows_in rows.now) key ≡ Some text.now) }
    ensures missing { IfErr result (λ fault. (value_of (rows_in rows.now) key ≡ None)
        × (fault ≡ RcFault.MissingKey key)) }
{
    value(rows, key).ok_or(RcFault::MissingKey(key))
}

/// MissingSection if no row is a line of the section.
#[tactic(auto, using(mail_terms::proofs::ListLemmas::any_map))]
pub(crate) fn expect_section(rows: &[ReadRow<'_>], section: Section) -> Result<(), RcFault>
    ensures { fault_in result ≡ missing_section (rows_in rows.now) section }
{
    if has_section(rows, section) {
        Ok(())
    } else {
        Err(RcFault::MissingSection(section))
    }
}

fn has_section(rows: &[ReadRow<'_>], section: Section) -> bool
    ensures { result ≡ list_any (λ row. is_section (section_name section) (row_of row)) rows.now }
{
    rows.iter().any(|row| row.is_section(section))
}
