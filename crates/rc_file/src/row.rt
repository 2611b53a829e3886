//! The rows of an rc file: its section lines and its keys, each with its line number.
#![tactic(auto, using(crate::proofs::RowLemmas::one_more), unfolding(crate::specs::RowReading::file_rows))]

ghost use Rattle.std.specs.{Prelude.{◌≡◌, ◌≤◌, ◌∷◌, ◌++◌, length, IfErr, OnOk}, String.string_bytes};
ghost use Rattle.rc_file.specs.{
  JudgedLine.judged_line,
  LineRules.{more, section, key},
  RowReading.{row_of, AddsText, ReadsRows, TakesLine},
  FileRows.rows_of,
};

use crate::fault::RcFault;
use crate::file::RC_LIMIT;
use crate::line::{JudgedLine, judge};
use bstr::ByteSlice;
use std::alloc::Global;

/// A section line, or a key of a section.
#[derive(Drop)]
pub(crate) struct ReadRow<'a> {
    /// The line's number, counted from 1.
    pub(crate) line: u32,
    /// The section's name.
    pub(crate) section: &'a str,
    /// The key; none for a section line.
    pub(crate) entry: Option<Entry>,
}

/// A key and its value.
#[derive(Drop)]
pub(crate) struct Entry {
    /// The key, in ASCII lower case.
    pub(crate) key: String,
    /// The value, with the lines that continue it.
    pub(crate) value: String,
}

impl ReadRow<'_> {
    /// Appends a line to the key's value.
    fn add_text(&mut self, number: u32, text: &str) -> Result<(), RcFault>
        ensures { AddsText (row_of self.old) number text.now result (row_of self.new) }
    {
        match &mut self.entry {
            Some(entry) => entry.add_text(text),
            None => Err(RcFault::BadLine(number)),
        }
    }
}

impl Entry {
    /// Appends a line to the value.
    fn add_text(&mut self, text: &str) -> Result<(), RcFault>
        ensures same { string_bytes self.new.key ≡ string_bytes self.old.key }
        ensures grown { OnOk result (string_bytes self.new.value ≡ string_bytes self.old.value ++ (10 ∷ text.now)) }
        ensures err { IfErr result (λ fault. fault ≡ RcFault.NoMemory) }
    {
        self.value.push('\n')?;
        self.value.push_str(text)?;
        Ok(())
    }
}

fn add_line<'a>(
    alloc: Global,
    rows: &mut Vec<ReadRow<'a>>,
    number: u32,
    line: JudgedLine<'a>,
) -> Result<(), RcFault>
    ensures { TakesLine rows.old.items number (judged_line line.entry) result rows.new.items }
{
    match line {
        JudgedLine::Skipped => Ok(()),
        JudgedLine::More(text) => add_more(rows, number, text),
        JudgedLine::Section(name) => add_section(rows, number, name),
        JudgedLine::Key(word, value) => add_key(alloc, rows, number, word, value),
        JudgedLine::Bad => Err(RcFault::BadLine(number)),
    }
}

fn add_section<'a>(rows: &mut Vec<ReadRow<'a>>, number: u32, name: &'a str) -> Result<(), RcFault>
    ensures { TakesLine rows.old.items number (section name.now) result rows.new.items }
{
    rows.push(ReadRow {
        line: number,
        section: name,
        entry: None,
    })?;
    Ok(())
}

fn add_key<'a>(
    alloc: Global,
    rows: &mut Vec<ReadRow<'a>>,
    number: u32,
    word: &str,
    value: &str,
) -> Result<(), RcFault>
    ensures { TakesLine rows.old.items number (key word.now value.now) result rows.new.items }
{
    let Some(last) = rows.last() else {
        return Err(RcFault::BadLine(number));
    };
    let section = last.section;
    let entry = Entry {
        key: word.to_ascii_lowercase(alloc)?,
        value: String::from_str(alloc, value)?,
    };
    rows.push(ReadRow {
        line: number,
        section,
        entry: Some(entry),
    })?;
    Ok(())
}

fn add_more(rows: &mut Vec<ReadRow<'_>>, number: u32, text: &str) -> Result<(), RcFault>
    ensures { TakesLine rows.old.items number (more text.now) result rows.new.items }
{
    match rows.last_mut() {
        Some(row) => row.add_text(number, text),
        None => Err(RcFault::BadLine(number)),
    }
}

/// The rows of a file. BadLine for the first line that is bad in its place.
pub(crate) fn read_rows<'a>(alloc: Global, bytes: &'a [u8]) -> Result<Vec<ReadRow<'a>>, RcFault>
    requires { length bytes.now ≤ RC_LIMIT }
    ensures { ReadsRows (rows_of bytes.now) result }
{
    let mut rows = Vec::new(alloc);
    let mut number = 0;
    for line in bytes.lines() {
        number += 1;
        add_line(alloc, &mut rows, number, judge(line))?;
    }
    Ok(rows)
}
