//! What clap's matches say of an option or a flag.
ghost use Rattle.std.specs.{Prelude.{◌≡◌, IfOk, option_map}, String.string_bytes};
ghost use Rattle.clap.specs.Words.{first_of, found_of, rows_of};
ghost use Rattle.command_line.specs.Rules.{is_given};

use clap::ArgMatches;
use std::alloc::{AllocError, Global};

/// A copy of the value of an option or a word, if it was given.
pub fn text(
    alloc: Global,
    matches: &ArgMatches<'_>,
    name: &str,
) -> Result<Option<String>, AllocError>
    ensures { IfOk result (λ owned. option_map string_bytes owned
        ≡ first_of name.now (rows_of (found_of matches.now))) }
{
    match matches.get_str(name) {
        None => Ok(None),
        Some(text) => Ok(Some(String::from_str(alloc, text)?)),
    }
}

/// Whether a flag was given.
pub fn is_given(matches: &ArgMatches<'_>, name: &str) -> bool
    ensures { result ≡ is_given name.now (rows_of (found_of matches.now)) }
{
    matches.get_count(name) > 0
}
