//! Reads the record's file, line by line.

ghost use Rattle.std.specs.Prelude.{◌≡◌, ◌≢◌, ◌≤◌, ◌-◌, ◌++◌, ◌==◌, ◌&&◌, not, true, false, ℕ, List, [], length};
ghost use Rattle.std.specs.Prelude.{IfOk, IfErr, IfSome, IfNone, OnOk};
ghost use Rattle.fetch_record.specs.{
  Record.{Row, IsRow, IsRecord},
  RecordFile.{Version, header},
  RecordMeaning.{Means, Rows, Fault, has_bytes},
  Outgrown.{RowsThen, IsOutgrown},
  Rows.row_from,
  Lines.{version_of, intent_seen, open_seen, open_behind, behind_base, IsPlaced, is_in_group, after_row, TakesRow},
  Lines.{RefusesRow, TakesIntent, RefusesIntent, EndsAt},
};

use crate::line::{HEADER, Intent, Line, OLDER_HEADER, ReadRow, read_line};
use crate::row_map::{RowMap, State};
use crate::seen::SeenFault;
use mail_terms::MESSAGE_LIMIT;
use std::hash::BuildHasher;

/// A file of at most this many octets is never written anew for what was appended to it.
const SMALL: usize = 65_536;

/// The part of the file that the next line is in.
#[derive(Clone, Copy)]
pub(crate) enum Part {
    /// The rows after the header.
    Base,
    /// After a whole group or an intent's line.
    Between,
    /// A group; this many rows are to come after the next one.
    Within(u64),
}

/// How a file ends.
#[derive(Clone, Copy)]
pub(crate) enum End {
    /// All rows count, and perhaps a piece of a line follows them.
    NoneOpen { torn: bool },
    /// A group lacks rows. This many bytes come before it.
    Open { front: usize },
}

impl Part {
    fn is_within(self) -> bool
        ensures { result ≡ is_in_group self }
    {
        matches!(self, Part::Within(_))
    }

    /// The part after a row.
    fn after_row(self) -> Part
        ensures { result ≡ after_row self }
    {
        match self {
            Part::Within(0) => Part::Between,
            Part::Within(more) => Part::Within(more - 1),
            part => part,
        }
    }

    /// The part after the line of this number, which begins a group of `count` rows. BadRow within
    /// a group.
    fn after_group_line(self, count: u64, number: u32) -> Result<Part, SeenFault>
        requires { 1 ≤ count }
        ensures ok { IfOk result (λ next. (is_in_group self ≡ false) × (next ≡ Part.Within (count - 1))) }
        ensures err { IfErr result (λ fault. (is_in_group self ≡ true) × (fault ≡ SeenFault.BadRow number)) }
    {
        match self {
            Part::Within(_) => Err(SeenFault::BadRow(number)),
            _ => Ok(Part::Within(count - 1)),
        }
    }

    /// What follows the rows after the header, so far: all of the rest while the next line may be
    /// one of them.
    fn behind_base<'a>(self, before: &'a [u8], rest: &'a [u8]) -> &'a [u8]
        ensures { result.now ≡ behind_base self before.now rest.now }
    {
        match self {
            Part::Base => rest,
            _ => before,
        }
    }

    /// The intent that is open after a row that leads into this part.
    fn open_behind(self, intent: Option<Intent<'_>>) -> Option<Intent<'_>>
        ensures { result ≡ open_behind self intent.entry }
    {
        match self {
            Part::Between => None,
            _ => intent,
        }
    }

    /// The end of the file, if the rest has no LF and `front` bytes come before the last group.
    fn end(self, front: usize, rest: &[u8]) -> End
        ensures within { is_in_group self ≡ true → result ≡ End.Open front }
        ensures between { is_in_group self ≡ false → result ≡ End.NoneOpen (has_bytes rest.now) }
    {
        match self {
            Part::Within(_) => End::Open { front },
            _ => End::NoneOpen {
                torn: !rest.is_empty(),
            },
        }
    }
}

/// What is read of a file besides its rows and its end.
#[derive(Clone, Copy)]
pub(crate) struct ReadFile<'a> {
    /// Whether it is of version 1.
    pub(crate) older: bool,
    /// The intent that is open.
    pub(crate) intent: Option<Intent<'a>>,
    /// Whether it is outgrown, as `is_outgrown` says.
    pub(crate) outgrown: bool,
}

/// What is read of a file that doesn't begin with a header's line: only an empty one has no fault.
fn read_without_header<'a>(bytes: &'a [u8]) -> Result<(ReadFile<'a>, End), SeenFault>
    requires { (version : Version) (rest : List ℕ) → bytes.now ≢ header version ++ rest }
    ensures ok { IfOk result (λ read. EndsAt bytes.now read.0.older read.1 (open_seen read.0.intent) []) }
    ensures grown { IfOk result (λ read. IsOutgrown bytes.now read.0.outgrown) }
    ensures err { IfErr result (λ fault. Means bytes.now (Fault fault)) }
{
    if !bytes.is_empty() {
        return Err(SeenFault::BadHeader);
    }
    let file = ReadFile {
        older: false,
        intent: None,
        outgrown: false,
    };
    Ok((file, End::NoneOpen { torn: false }))
}

/// Whether a group's row may repeat the id of an earlier row: it is delivered and has the same
/// second; in version 1 the earlier one isn't delivered.
fn delivers(older: bool, old: State, new: State) -> bool
    ensures { result ≡ (new.delivered && (not (older && old.delivered) && (old.first_seen == new.first_seen))) }
{
    new.delivered && !(older && old.delivered) && old.first_seen == new.first_seen
}

/// Whether a file of these lines has more than 65,536 octets, and more of them appended than in the
/// rows after its header.
fn is_outgrown(bytes: &[u8], lines: &[u8], appended: &[u8]) -> bool
    requires whole { (version : Version) × (bytes.now ≡ header version ++ lines.now) }
    requires parts { (rows : List Row) × RowsThen lines.now rows appended.now }
    requires fits { length appended.now ≤ length lines.now }
    ensures { IsOutgrown bytes.now result }
{
    if bytes.len() <= SMALL {
        return false;
    }
    lines.len() - appended.len() < appended.len()
}

/// About how many rows a file has, by the length of its first one: at most as many as a listing may have
/// messages.
fn likely_count(bytes: &[u8]) -> usize {
    let lines = &bytes[HEADER.len().min(bytes.len())..];
    match lines.iter().position(|byte| *byte == b'\n') {
        Some(length) => (lines.len() / (length + 1)).min(MESSAGE_LIMIT as usize),
        None => 0,
    }
}

/// Whether a file is of version 1, and its lines, if it begins with a header's line.
fn behind_header(bytes: &[u8]) -> Option<(bool, &[u8])>
    ensures found { IfSome result (λ parts. bytes.now ≡ header (version_of parts.0) ++ parts.1.now) }
    ensures none { IfNone result ((version : Version) (rest : List ℕ) → bytes.now ≢ header version ++ rest) }
{
    if let Some(rest) = bytes.strip_prefix(HEADER) {
        return Some((false, rest));
    }
    match bytes.strip_prefix(OLDER_HEADER) {
        Some(rest) => Some((true, rest)),
        None => None,
    }
}

impl<H: BuildHasher> RowMap<H> {
    /// Takes a row in this part of the file, on the line of this number.
    fn take_row(
        &mut self,
        older: bool,
        part: Part,
        row: &ReadRow<'_>,
        number: u32,
    ) -> Result<Part, SeenFault>
        requires { IsRow (row_from row.now.uid.now row.now.state) }
        ensures ok { IfOk result (λ next. TakesRow older part self.old
            (row_from row.now.uid.now row.now.state) next self.new) }
        ensures part { IfOk result (λ next. next ≡ after_row part) }
        ensures err { IfErr result (λ fault. fault ≢ SeenFault.NoMemory
            → RefusesRow older part self.old (row_from row.now.uid.now row.now.state) number fault) }
        ensures is_record { IsRecord self.new }
    {
        // For the proof alone: `len` says that the rows are a record.
        let _ = self.len();
        // Most rows of groups deliver the ids of earlier rows, in their order.
        if part.is_within()
            && let Some(place) = self.place_near(row.uid)
            && delivers(older, self.at(place).1, row.state)
        {
            self.deliver_at(place);
            return Ok(part.after_row());
        }
        let known = self.put(row.uid, row.state)?;
        if let Part::Between = part {
            return Err(SeenFault::BadRow(number));
        }
        let Some(old) = known else {
            return Ok(part.after_row());
        };
        if !part.is_within() || !delivers(older, old, row.state) {
            return Err(SeenFault::RepeatedId(number));
        }
        Ok(part.after_row())
    }

    /// Takes an intent in this part of the file, on the line of this number. BadRow in version 1,
    /// within a group, if an intent is open, and if its id has no row.
    fn take_intent(
        &self,
        older: bool,
        part: Part,
        before: Option<Intent<'_>>,
        intent: &Intent<'_>,
        number: u32,
    ) -> Result<(), SeenFault>
        requires { IsPlaced part (open_seen before) }
        ensures ok { OnOk result (TakesIntent older part (open_seen before.entry) self.now (intent_seen intent.now)) }
        ensures err { IfErr result (λ fault. RefusesIntent older part (open_seen before.entry) self.now
            (intent_seen intent.now) number fault) }
    {
        if older || part.is_within() || before.is_some() || !self.has(intent.uid) {
            return Err(SeenFault::BadRow(number));
        }
        Ok(())
    }

    /// Reads the lines of a file into the rows, which must be empty.
    fn read_lines<'a>(&mut self, bytes: &'a [u8]) -> Result<(ReadFile<'a>, End), SeenFault>
        requires empty { self.old ≡ [] }
        requires is_record { IsRecord self.old }
        ensures ok { IfOk result (λ read. EndsAt bytes.now read.0.older read.1 (open_seen read.0.intent) self.new) }
        ensures grown { IfOk result (λ read. IsOutgrown bytes.now read.0.outgrown) }
        ensures err { IfErr result (λ fault. fault ≢ SeenFault.NoMemory → Means bytes.now (Fault fault)) }
        ensures is_record { IsRecord self.new }
    {
        let Some((older, lines)) = behind_header(bytes) else {
            return read_without_header(bytes);
        };
        let mut rest = lines;
        let mut appended = lines;
        let mut number: u32 = 2;
        let mut part = Part::Base;
        let mut intent: Option<Intent<'a>> = None;
        let mut front = 0;
        while let Some((line, behind)) = read_line(rest) {
            match line {
                Line::Row(row) => {
                    part = self.take_row(older, part, &row, number)?;
                    intent = part.open_behind(intent);
                }
                Line::Group(count) => {
                    part = part.after_group_line(count, number)?;
                    front = bytes.len() - rest.len();
                }
                Line::Opening(opened) => {
                    self.take_intent(older, part, intent, &opened, number)?;
                    part = Part::Between;
                    intent = Some(opened);
                }
            }
            rest = behind;
            appended = part.behind_base(appended, behind);
            number = number.saturating_add(1);
        }
        if rest.contains(&b'\n') {
            return Err(SeenFault::BadRow(number));
        }
        let end = part.end(front, rest);
        let outgrown = is_outgrown(bytes, lines, appended);
        let file = ReadFile {
            older,
            intent,
            outgrown,
        };
        Ok((file, end))
    }

    /// Replaces the rows by those that a file's bytes stand for, and gives what else was read, and
    /// whether the file has a torn end.
    /// There may be some rows after a fault.
    pub(crate) fn read<'a>(&mut self, bytes: &'a [u8]) -> Result<(ReadFile<'a>, bool), SeenFault>
        ensures ok { IfOk result (λ read. Means bytes.now
            (Rows (version_of read.0.older) self.new (open_seen read.0.intent) read.1)) }
        ensures grown { IfOk result (λ read. IsOutgrown bytes.now read.0.outgrown) }
        ensures err { IfErr result (λ fault. fault ≢ SeenFault.NoMemory → Means bytes.now (Fault fault)) }
        ensures is_record { IsRecord self.new }
    {
        self.clear();
        self.reserve(likely_count(bytes))?;
        let lines = self.read_lines(bytes)?;
        let (file, end) = lines;
        match end {
            End::NoneOpen { torn } => Ok((file, torn)),
            End::Open { front } => {
                // The group's rows don't count: what comes before it is read again.
                self.clear();
                self.read_lines(&bytes[..front])?;
                Ok((file, true))
            }
        }
    }
}
