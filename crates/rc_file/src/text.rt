//! The texts of an rc file's faults and warnings. They hold no part of a value, and so no password.
ghost use Rattle.std.specs.{Prelude.{◌≡◌, ◌++◌, List, map, IfOk}, String.string_bytes};
ghost use Rattle.rc_file.specs.{
  RcMeaning.warnings_in,
  FileRows.RcRow,
  RcText.{key_text, key_warning, rc_text, section_warning, warning_text, without_value},
  WarningSearch.warning_of,
};

use crate::fault::RcFault;
use crate::key::Key;
use crate::warning::Warning;
use std::alloc::{AllocError, Global};

/// The text of a fault, without a line end.
pub fn rc_text(alloc: Global, fault: &RcFault) -> Result<String, AllocError>
    ensures { IfOk result (λ text. string_bytes text ≡ rc_text fault.now) }
{
    match *fault {
        RcFault::TooLong => String::from_str(alloc, "rc file too long"),
        RcFault::BadLine(line) => format!(in alloc; "rc file line {line} not understood"),
        RcFault::MissingSection(section) => {
            let name = section.name();
            format!(in alloc; "section [{name}] missing")
        }
        RcFault::MissingKey(key) => key_text(alloc, key, " missing"),
        RcFault::UnknownType(key) => key_text(alloc, key, " unknown"),
        RcFault::BadValue(key) => key_text(alloc, key, " has a bad value"),
        RcFault::Unsupported(key) => key_text(alloc, key, " unsupported"),
        RcFault::BadPath => String::from_str(alloc, "destination.path has a bad form"),
        RcFault::Contradiction => String::from_str(alloc, "opposite flags"),
        RcFault::NoMemory => String::from_str(alloc, "out of memory"),
    }
}

/// A key with its section, and a text about it.
fn key_text(alloc: Global, key: Key, said: &str) -> Result<String, AllocError>
    ensures { IfOk result (λ text. string_bytes text ≡ key_text key ++ said.now) }
{
    let section = key.section();
    let name = key.name();
    format!(in alloc; "{section}.{name}{said}")
}

/// The text of a warning, without a line end.
pub fn warning_text(alloc: Global, warning: &Warning) -> Result<String, AllocError>
    ensures { IfOk result (λ text. string_bytes text ≡ warning_text (warning_of warning.now)) }
{
    let section = warning.section.as_str();
    if warning.key.is_empty() {
        section_warning(alloc, warning.line, section)
    } else {
        key_warning(alloc, warning.line, section, warning.key.as_str())
    }
}

fn section_warning(alloc: Global, line: u32, section: &str) -> Result<String, AllocError>
    ensures { IfOk result (λ text. string_bytes text ≡ section_warning line section.now) }
{
    format!(in alloc; "warning: line {line}: section [{section}] has no effect")
}

fn key_warning(alloc: Global, line: u32, section: &str, key: &str) -> Result<String, AllocError>
    ensures { IfOk result (λ text. string_bytes text ≡ key_warning line section.now key.now) }
{
    format!(in alloc; "warning: line {line}: {section}.{key} has no effect")
}

/// No warning depends on a value of the file, such as a password.
#[tactic(auto, using(crate::proofs::RcMeaningLemmas::warnings_same))]
pub fn warnings_hide_values()
    ensures { (rows : List RcRow) → warnings_in (map without_value rows) ≡ warnings_in rows }
{}
