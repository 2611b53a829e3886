//! The part of a file's name that no other process has at the time.

ghost use Rattle.std.specs.{List.list_all, Prelude.{◌≡◌, ◌↔◌, IfOk, IsTrue, replicate, string_bytes}};
ghost use Rattle.mail_store.specs.FileName.{is_lower_hex_digit};
ghost use Rattle.folder_store.specs.{
  HostPaths.with_process_mark,
  Marks.{AreMarkParts, IsLastPart, EndsInMark, IsProcessId, is_random},
};

use std::alloc::{AllocError, Global};
use std::io;
use std::process::{self, Process};
use std::random::RandomSource;

/// What tells the files that this process is writing from those of every other one: its id and eight
/// octets of random, written as the Maildir format does (`P` and `R`,
/// <https://cr.yp.to/proto/maildir.html>).
#[derive(Clone, Copy)]
pub struct ProcessMark {
    process: u32,
    random: [u8; 8],
}

impl ProcessMark {
    /// The mark of this process. The error is that of the system's random octets.
    pub fn new(process: Process, random: &impl RandomSource) -> io::Result<ProcessMark> {
        let mut octets = [0u8; 8];
        random.fill_bytes(&mut octets)?;
        Ok(ProcessMark {
            process: process::id(process),
            random: octets,
        })
    }

    /// That of no process, for folders in which nothing is made.
    pub fn none() -> ProcessMark
        ensures { result ≡ record { process = 0; random = replicate 8 0 } }
    {
        ProcessMark {
            process: 0,
            random: [0; 8],
        }
    }

    /// A name with the mark after it: 14 to 29 octets more.
    pub fn marked(self, alloc: Global, name: &str) -> Result<String, AllocError>
        ensures { IfOk result (λ text. string_bytes text ≡ with_process_mark self name.now) }
    {
        let ProcessMark { process, random } = self;
        let digits = hex::encode(alloc, random.as_slice())?;
        format!(in alloc; "{name}.P{process}R{digits}")
    }
}

/// Whether a text is the id of a process.
fn is_id(text: &str) -> bool
    ensures { IsTrue result ↔ IsProcessId text.now }
{
    !text.starts_with('+') && text.parse::<u32>().is_ok()
}

/// Whether an octet is a lower-case hexadecimal digit.
fn is_digit(octet: u8) -> bool
    ensures { result ≡ is_lower_hex_digit octet }
{
    octet.is_ascii_digit() || (b'a'..=b'f').contains(&octet)
}

/// Whether all octets are.
fn are_digits(octets: &[u8]) -> bool
    ensures { result ≡ list_all is_lower_hex_digit octets.now }
{
    octets.iter().all(|octet| is_digit(*octet))
}

/// Whether a text is that of eight octets of random.
fn is_random(text: &str) -> bool
    ensures { result ≡ is_random text.now }
{
    text.len() == 16 && are_digits(text.as_bytes())
}

/// What is after the last full stop of a name.
fn last_part(name: &str) -> Option<&str>
    ensures { IsLastPart name.now result }
{
    match name.rsplit_once('.') {
        Some((_, part)) => Some(part),
        None => None,
    }
}

/// What is after `P` in a mark, and before and after the first `R` there.
fn mark_parts(mark: &str) -> Option<(&str, &str)>
    ensures { AreMarkParts mark.now result }
{
    match mark.strip_prefix('P') {
        Some(rest) => rest.split_once('R'),
        None => None,
    }
}

/// Whether a name ends in the mark of a process, as `marked` writes it.
pub fn is_marked(name: &str) -> bool
    ensures { IsTrue result ↔ EndsInMark name.now }
{
    let Some(mark) = last_part(name) else {
        return false;
    };
    match mark_parts(mark) {
        Some((id, random)) => is_id(id) && is_random(random),
        None => false,
    }
}
