//! What record files stand for, for the tests from outside.

use crate::trouble::Result;
use fetch_rules::Seen;
use std::fs;
use std::hash::RandomState;
use std::io::Write;

/// Separates the records of the file that is read, and ends each answer. No record has this octet.
const END: u8 = 0xff;

/// Whether a record's file must be written anew, `true` or `false`, and the record as `bytes` writes it.
fn tell_record(seen: &Seen<RandomState>, answers: &mut Vec<u8>) -> Result<()> {
    let word: &[u8] = if seen.needs_rewrite() {
        b"true\n"
    } else {
        b"false\n"
    };
    answers.extend_from_slice(word)?;
    answers.extend_from_slice(&seen.bytes()?)?;
    Ok(())
}

/// Reads a record in place of the last one. The answer is the record, or the fault.
fn answer(seen: &mut Seen<RandomState>, record: &[u8], answers: &mut Vec<u8>) -> Result<()> {
    match seen.reread(record) {
        Ok(()) => tell_record(seen, answers)?,
        Err(fault) => writeln!(answers, "{fault}")?,
    }
    answers.push(END)?;
    Ok(())
}

/// Prints the answer for each record of a file's bytes.
fn answer_each(rt: &HostRuntime, seen: &mut Seen<RandomState>, bytes: &[u8]) -> Result<()> {
    let mut answers = Vec::new(rt.alloc());
    for record in bytes.split(|byte| *byte == END) {
        answer(seen, record, &mut answers)?;
    }
    rt.stdout().write_all(&answers)?;
    Ok(())
}

/// Prints the answer for each record of a file.
pub fn judge(rt: &HostRuntime, path: &str) -> Result<()> {
    let records = fs::read(rt, path)?;
    let hasher = RandomState::new(rt)?;
    answer_each(rt, &mut Seen::new(rt.alloc(), hasher), &records)
}
