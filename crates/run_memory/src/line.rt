//! The lines of the file that keeps what was told. After its first line come one on messages that were left out, one of
//! times, one for each fault, for each notice and for each message that is too large; the last is `end`. LF ends each
//! line, and single spaces separate the fields.
ghost use Rattle.std.specs.Prelude.{◌≡◌, ◌++◌, ◌∷◌, [], OnOk};
ghost use Rattle.run_memory.specs.Lines.{known_fault_in, known_fault_line, large_line, left_line, left_in, line_in};
ghost use Rattle.run_memory.specs.Lines.{marks_in, marks_line, notice_in, notice_line, said_by};

use crate::field::{cut_field, read_numbers};
use crate::key::Key;
use crate::run::{LeftMarks, RunMarks};
use crate::times::Times;
use mail_terms::read_numeral;
use std::alloc::{AllocError, Global};

/// A fault that earlier runs saw.
#[derive(Clone, Copy)]
pub struct KnownFault {
    pub key: Key,
    pub times: Times,
}

/// A notice that an earlier run told, and when it was told last.
#[derive(Clone, Copy)]
pub struct SaidNotice {
    pub key: Key,
    pub told: u64,
}

/// What a line says.
#[derive(Clone, Copy)]
pub enum Line {
    Left(LeftMarks),
    Marks(RunMarks),
    Fault(KnownFault),
    Notice(SaidNotice),
    Large(Key),
}

/// What is known of messages that were left out, in the fields of a line.
fn read_left(octets: &[u8]) -> Option<Line>
    ensures { result ≡ left_in octets.now }
{
    let (unnamed, limited, repeated) = read_numbers(octets)?;
    Some(Line::Left(LeftMarks {
        unnamed,
        limited,
        repeated,
    }))
}

/// The times in the fields of a line.
fn read_marks(octets: &[u8]) -> Option<Line>
    ensures { result ≡ marks_in octets.now }
{
    let (ended, failing, met) = read_numbers(octets)?;
    Some(Line::Marks(RunMarks {
        ended,
        failing,
        met,
    }))
}

/// The fault in the fields of a line.
fn read_fault(octets: &[u8]) -> Option<KnownFault>
    ensures { result ≡ known_fault_in octets.now }
{
    let (key, rest) = cut_field(octets);
    let key = Key::read(key)?;
    let (since, told, runs) = read_numbers(rest)?;
    let times = Times { since, told, runs };
    Some(KnownFault { key, times })
}

/// The notice in the fields of a line.
fn read_notice(octets: &[u8]) -> Option<SaidNotice>
    ensures { result ≡ notice_in octets.now }
{
    let (key, rest) = cut_field(octets);
    let key = Key::read(key)?;
    let told = read_numeral(rest)?;
    Some(SaidNotice { key, told })
}

/// What a line of a word says, if it is one of these.
fn said_by(word: &[u8], rest: &[u8]) -> Option<Line>
    ensures { result ≡ said_by word.now rest.now }
{
    if word == b"left".as_slice() {
        return read_left(rest);
    }
    if word == b"marks".as_slice() {
        return read_marks(rest);
    }
    if word == b"fault".as_slice() {
        return Some(Line::Fault(read_fault(rest)?));
    }
    if word == b"said".as_slice() {
        return Some(Line::Notice(read_notice(rest)?));
    }
    if word == b"large".as_slice() {
        return Some(Line::Large(Key::read(rest)?));
    }
    None
}

/// What a line says, if it is one of these.
pub fn read_line(line: &[u8]) -> Option<Line>
    ensures { result ≡ line_in line.now }
{
    let (word, rest) = cut_field(line);
    said_by(word, rest)
}

/// Adds the line on messages that were left out.
pub fn put_left(alloc: Global, text: &mut Vec<u8>, left: LeftMarks) -> Result<(), AllocError>
    ensures { OnOk result (text.new.items ≡ text.old.items ++ (left_line left ++ 10 ∷ [])) }
{
    let LeftMarks {
        unnamed,
        limited,
        repeated,
    } = left;
    let numbers = format!(in alloc; " {unnamed} {limited} {repeated}\n")?;
    text.extend_from_slice(b"left")?;
    text.extend_from_slice(numbers.as_bytes())
}

/// Adds the line of times.
pub fn put_marks(alloc: Global, text: &mut Vec<u8>, marks: RunMarks) -> Result<(), AllocError>
    ensures { OnOk result (text.new.items ≡ text.old.items ++ (marks_line marks ++ 10 ∷ [])) }
{
    let RunMarks {
        ended,
        failing,
        met,
    } = marks;
    let numbers = format!(in alloc; " {ended} {failing} {met}\n")?;
    text.extend_from_slice(b"marks")?;
    text.extend_from_slice(numbers.as_bytes())
}

/// Adds the line of a fault.
pub fn put_fault(alloc: Global, text: &mut Vec<u8>, fault: &KnownFault) -> Result<(), AllocError>
    ensures { OnOk result (text.new.items ≡ text.old.items ++ (known_fault_line fault.now ++ 10 ∷ [])) }
{
    let Times { since, told, runs } = fault.times;
    let numbers = format!(in alloc; " {since} {told} {runs}\n")?;
    text.extend_from_slice(b"fault ")?;
    text.extend_from_slice(fault.key.as_slice())?;
    text.extend_from_slice(numbers.as_bytes())
}

/// Adds the line of a notice.
pub fn put_notice(alloc: Global, text: &mut Vec<u8>, notice: &SaidNotice) -> Result<(), AllocError>
    ensures { OnOk result (text.new.items ≡ text.old.items ++ (notice_line notice.now ++ 10 ∷ [])) }
{
    let told = notice.told;
    let number = format!(in alloc; " {told}\n")?;
    text.extend_from_slice(b"said ")?;
    text.extend_from_slice(notice.key.as_slice())?;
    text.extend_from_slice(number.as_bytes())
}

/// Adds the line of a message that is too large.
pub fn put_large(text: &mut Vec<u8>, key: &Key) -> Result<(), AllocError>
    ensures { OnOk result (text.new.items ≡ text.old.items ++ (large_line key.now ++ 10 ∷ [])) }
{
    text.extend_from_slice(b"large ")?;
    text.extend_from_slice(key.as_slice())?;
    text.push(b'\n')?;
    Ok(())
}
