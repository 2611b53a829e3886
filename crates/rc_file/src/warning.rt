//! Sections and keys of an rc file that have no effect.
ghost use Rattle.std.specs.Prelude.{◌≡◌, map, IfOk, OnOk};
ghost use Rattle.rc_file.specs.{
  RcMeaning.{has_no_effect, is_known_key, is_known_section, warned, warnings_in},
  RowReading.{row_of, rows_in},
  WarningSearch.{TellsWarning, warning_of},
};

use crate::key::Key;
use crate::row::ReadRow;
use std::alloc::{AllocError, Global};
use std::collections::HashSet;

/// A section or a key of an rc file that has no effect, with the first line that has it.
#[derive(Drop)]
pub struct Warning {
    /// The line's number, counted from 1.
    pub line: u32,
    /// The section's name.
    pub section: String,
    /// The key, in ASCII lower case; empty if the whole section has no effect.
    pub key: String,
}

/// The sections and keys without effect, in the order of lines, each once.
pub(crate) fn find_warnings(alloc: Global, rows: &[ReadRow<'_>]) -> Result<Vec<Warning>, AllocError>
    ensures { IfOk result (λ found. map warning_of found.items ≡ warnings_in (rows_in rows.now)) }
{
    let mut told = HashSet::new(alloc);
    let mut warnings = Vec::new(alloc);
    for row in rows {
        if row.has_no_effect() {
            tell(alloc, row, &mut told, &mut warnings)?;
        }
    }
    Ok(warnings)
}

/// Adds a warning for a row, unless there is one for its section and key.
fn tell<'r>(
    alloc: Global,
    row: &'r ReadRow<'_>,
    told: &mut HashSet<(&'r str, &'r str)>,
    warnings: &mut Vec<Warning>,
) -> Result<(), AllocError>
    ensures { OnOk result (TellsWarning (warned (row_of row.now))
        (map warning_of warnings.old.items) told.old (map warning_of warnings.new.items) told.new) }
{
    if !told.insert(row.name())? {
        return Ok(());
    }
    warnings.push(row.warning(alloc)?)?;
    Ok(())
}

impl ReadRow<'_> {
    /// Whether the row is a line of a section without effect, or a key without effect in a section that
    /// has one.
    fn has_no_effect(&self) -> bool
        ensures { result ≡ has_no_effect (row_of self.now) }
    {
        match &self.entry {
            None => !is_known_section(self.section),
            Some(entry) => {
                is_known_section(self.section) && !is_known_key(self.section, entry.key.as_str())
            }
        }
    }

    /// The section and the key; no key for a section line.
    fn name(&self) -> (&str, &str)
        ensures section { result.0.now ≡ (warned (row_of self.now)).section }
        ensures key { result.1.now ≡ (warned (row_of self.now)).key }
    {
        match &self.entry {
            None => (self.section, ""),
            Some(entry) => (self.section, entry.key.as_str()),
        }
    }

    /// The warning for the row.
    fn warning(&self, alloc: Global) -> Result<Warning, AllocError>
        ensures { IfOk result (λ warning. warning_of warning ≡ warned (row_of self.now)) }
    {
        let (section, key) = self.name();
        Ok(Warning {
            line: self.line,
            section: String::from_str(alloc, section)?,
            key: String::from_str(alloc, key)?,
        })
    }
}

fn is_known_section(name: &str) -> bool
    ensures { result ≡ is_known_section name.now }
{
    Key::ALL.iter().any(|key| name == key.section())
}

fn is_known_key(section: &str, name: &str) -> bool
    ensures { result ≡ is_known_key section.now name.now }
{
    Key::ALL
        .iter()
        .any(|key| section == key.section() && name == key.name())
}
