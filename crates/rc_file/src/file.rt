//! The meaning of an rc file.
//!
//! A file is read line by line into rows; settings and warnings are looked up in these rows.
ghost use Rattle.std.specs.Prelude.{IfOk};
ghost use Rattle.rc_file.specs.{Answer.IsMeant, RcMeaning.rc_meaning, Settings.IsValid};

use crate::account::read_settings;
use crate::fault::RcFault;
use crate::key::Section;
use crate::row::read_rows;
use crate::settings::Settings;
use crate::value::expect_section;
use crate::warning::{Warning, find_warnings};
use std::alloc::Global;

/// The most octets that an rc file may have.
pub const RC_LIMIT: usize = 65_536;

/// The settings that an rc file gives, and its sections and keys without effect, in the order of lines.
///
/// Lines end at LF; one CR before it is dropped. A blank is a space or a tab. The first of these
/// rules that fits decides what a line is: one that isn't UTF-8 is bad; one that is empty, blank or
/// begins with `#` or `;` after blanks is skipped; one that begins with a blank continues, after an
/// LF, the value of the key before it; one that begins with `[` names a section, up to the `]` at its
/// end; any other is a key, `=` or `:`, and a value, without the blanks around each. Keys are
/// compared in ASCII lower case, and the last row of a key decides.
///
/// The first of these that applies is the fault: TooLong past [`RC_LIMIT`] octets; BadLine for the
/// first bad line, counted from 1; MissingSection for `[retriever]`, then for
/// `[destination]`; then the first key, in the order of [`Key`](crate::Key), that is missing, or
/// whose value doesn't have its form. NoMemory may come in place of any result.
#[tactic(auto, using(crate::proofs::RcMeaningLemmas::good_rows), unfolding(crate::specs::RcMeaning::rc_meaning))]
pub fn read_rc(alloc: Global, bytes: &[u8]) -> Result<(Settings, Vec<Warning>), RcFault>
    ensures meaning { IsMeant (rc_meaning bytes.now) result }
    ensures valid { IfOk result (λ read. IsValid read.0) }
{
    if bytes.len() > RC_LIMIT {
        return Err(RcFault::TooLong);
    }
    let rows = read_rows(alloc, bytes)?;
    expect_section(&rows, Section::Retriever)?;
    expect_section(&rows, Section::Destination)?;
    let settings = read_settings(alloc, &rows)?;
    let warnings = find_warnings(alloc, &rows)?;
    Ok((settings, warnings))
}
