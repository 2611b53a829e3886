//! What a session reports.
ghost use Rattle.std.specs.{Prelude.{◌≡◌, ◌≤◌, ◌+◌, ◌++◌, ◌∷◌, [], vec_len, length, filter, not}, Vec.vec_capacity};
ghost use Rattle.session_parts.specs.Report.{HasRoom, is_deletion, length_in, takes_back, kept_lines, has_deletions};
ghost use Rattle.session_parts.specs.Report.{retrieved_in, length_of, deleted_in, skipped_in, most_bytes, most_lines};
ghost use Rattle.session_parts.specs.Report.{Reports, count_reasons, is_for_id, is_for_limit, is_for_size, reason_of};
ghost use Rattle.session_parts.specs.Report.{none_skipped, skips_of};
ghost use Rattle.mail_terms.specs.Listing.{message_limit};
ghost use Rattle.fetch_rules.specs.Plan.{is_for_odd};

use crate::fault::Fault;
use fetch_rules::{Skip, Step};
use std::vec::Vec;

/// What was done with one message. Numbers count from 1.
#[derive(Clone, Copy, Debug, PartialEq, Eq)]
pub enum ReportLine {
    /// Its text was fetched and stored. The length is in bytes, lines ended by LF.
    Delivered { number: u32, length: u64 },
    /// Its text was fetched, and the store held it already. The length is in bytes, lines ended by LF.
    Held { number: u32, length: u64 },
    /// It was passed over. The size is the listed one, in octets.
    Skipped { number: u32, size: u64 },
    /// It was deleted.
    Deleted { number: u32 },
}

/// How a session came out.
#[derive(Clone, Copy, Debug, PartialEq, Eq)]
pub enum Outcome {
    /// All that was planned was done.
    Ended,
    /// The session was cut.
    Cut(Fault),
}

/// How many messages that aren't known a session leaves out, by their reasons.
#[derive(Clone, Copy, Debug, PartialEq, Eq)]
pub struct LeftOut {
    /// What can't be opened bears their names in the store.
    pub obstructed: u32,
    /// Their size is above the limit.
    pub too_large: u32,
    /// As many messages as a session may fetch come before them.
    pub past_limit: u32,
    /// An earlier message has their id.
    pub repeated: u32,
}

/// How many messages a plan passes over.
#[derive(Clone, Copy, Drop)]
pub struct Skips {
    /// All of them.
    pub all: u32,
    /// Those that aren't known.
    pub left_out: LeftOut,
}

/// What a session did.
#[derive(Drop)]
pub struct Report {
    /// How the session came out.
    pub outcome: Outcome,
    /// How many messages the server listed; 0 if the listings weren't joined.
    pub total: u32,
    /// How many texts were fetched to their end, and stored or held already.
    pub retrieved: u32,
    /// The lengths of these texts together, in bytes, lines ended by LF.
    pub bytes: u64,
    /// How many messages the plan passes over, whether or not the session came to them.
    pub skipped: u32,
    /// Of these, those that aren't known.
    pub left_out: LeftOut,
    /// How many messages were deleted; 0 if the server was asked to take back its marks.
    pub deleted: u32,
    /// What was done, in order.
    pub lines: Vec<ReportLine>,
}

/// Before there is a plan, nothing is passed over.
pub fn none_skipped() -> Skips
    ensures { result ≡ none_skipped }
{
    Skips {
        all: 0,
        left_out: LeftOut {
            obstructed: 0,
            too_large: 0,
            past_limit: 0,
            repeated: 0,
        },
    }
}

/// Adds a line, for which there is room.
pub fn note(lines: &mut Vec<ReportLine>, line: ReportLine)
    requires { HasRoom lines.old 1 }
    ensures items { lines.new.items ≡ lines.old.items ++ line ∷ [] }
    ensures len { vec_len lines.new ≡ vec_len lines.old + 1 }
    ensures capacity { vec_capacity lines.old ≤ vec_capacity lines.new }
{
    lines.push(line).unwrap();
}

impl ReportLine {
    /// The length of the text that it reports, in bytes; 0 if it reports none.
    fn length(&self) -> u64
        ensures { result ≡ length_in self.now }
    {
        match self {
            ReportLine::Delivered { length, .. } | ReportLine::Held { length, .. } => *length,
            ReportLine::Skipped { .. } | ReportLine::Deleted { .. } => 0,
        }
    }

    /// Whether it reports a message that was deleted.
    fn is_deletion(&self) -> bool
        ensures { result ≡ is_deletion self.now }
    {
        matches!(self, ReportLine::Deleted { .. })
    }
}

/// Whether one of these lines reports a message that was deleted.
pub(crate) fn has_deletions(lines: &[ReportLine]) -> bool
    ensures { result ≡ has_deletions lines.now }
{
    lines.iter().any(|line| line.is_deletion())
}

/// Whether the server is asked to take back its marks, so that nothing is deleted.
fn takes_back(outcome: &Outcome) -> bool
    ensures { result ≡ takes_back outcome.now }
{
    matches!(
        outcome,
        Outcome::Cut(Fault::StoreRefused(_) | Fault::SeenRefused | Fault::BadSeen(_))
    )
}

/// How many texts were fetched to their end.
fn retrieved_in(lines: &[ReportLine]) -> usize
    ensures value { result ≡ retrieved_in lines.now }
    ensures few { result ≤ length lines.now }
{
    lines
        .iter()
        .filter(|line| matches!(line, ReportLine::Delivered { .. } | ReportLine::Held { .. }))
        .count()
}

/// How many messages were deleted.
fn deleted_in(lines: &[ReportLine]) -> usize
    ensures value { result ≡ deleted_in lines.now }
    ensures few { result ≤ length lines.now }
{
    lines.iter().filter(|line| line.is_deletion()).count()
}

/// The total length of the texts that were fetched, as far as 64 bits go.
fn length_of(lines: &[ReportLine]) -> u64
    ensures { result ≡ most_bytes (length_of lines.now) }
{
    let mut total = 0u64;
    for line in lines {
        total = total.saturating_add(line.length());
    }
    total
}

/// Why a message is passed over, as it is told; one that is deleted was delivered before.
pub(crate) fn reason_of(step: Step) -> Option<Skip>
    ensures { result ≡ reason_of step }
{
    if step.delete {
        return Some(Skip::Delivered);
    }
    step.skip
}

/// How many steps fetch nothing.
fn skipped_in(steps: &[Step]) -> usize
    ensures value { result ≡ skipped_in steps.now }
    ensures few { result ≤ length steps.now }
{
    steps.iter().filter(|step| !step.skip.is_none()).count()
}

/// How many of these steps pass over a message that is obstructed.
fn obstructed_in(steps: &[Step]) -> usize
    ensures value { result ≡ count_reasons is_for_odd steps.now }
    ensures few { result ≤ length steps.now }
{
    steps
        .iter()
        .filter(|step| matches!(reason_of(**step), Some(Skip::Obstructed)))
        .count()
}

/// How many of these steps pass over a message that is too large.
fn too_large_in(steps: &[Step]) -> usize
    ensures value { result ≡ count_reasons is_for_size steps.now }
    ensures few { result ≤ length steps.now }
{
    steps
        .iter()
        .filter(|step| matches!(reason_of(**step), Some(Skip::TooLarge)))
        .count()
}

/// How many of these steps pass over a message that is past the limit.
fn past_limit_in(steps: &[Step]) -> usize
    ensures value { result ≡ count_reasons is_for_limit steps.now }
    ensures few { result ≤ length steps.now }
{
    steps
        .iter()
        .filter(|step| matches!(reason_of(**step), Some(Skip::PastLimit)))
        .count()
}

/// How many of these steps pass over a message whose id an earlier one has.
fn repeated_in(steps: &[Step]) -> usize
    ensures value { result ≡ count_reasons is_for_id steps.now }
    ensures few { result ≤ length steps.now }
{
    steps
        .iter()
        .filter(|step| matches!(reason_of(**step), Some(Skip::SameId)))
        .count()
}

/// What these steps pass over.
pub fn skips_of(steps: &[Step]) -> Skips
    requires few { length steps.now ≤ message_limit }
    ensures { result ≡ skips_of steps.now }
{
    Skips {
        all: skipped_in(steps) as u32,
        left_out: LeftOut {
            obstructed: obstructed_in(steps) as u32,
            too_large: too_large_in(steps) as u32,
            past_limit: past_limit_in(steps) as u32,
            repeated: repeated_in(steps) as u32,
        },
    }
}

/// The lines that a report keeps: all, or all but those of deletions, if the server is asked to
/// take back its marks.
fn kept_lines(outcome: &Outcome, lines: Vec<ReportLine>) -> Vec<ReportLine>
    ensures kept { result.items ≡ kept_lines outcome.now lines.items }
    ensures fewer { length result.items ≤ length lines.items }
{
    if !takes_back(outcome) {
        return lines;
    }
    let mut lines = lines;
    lines.retain(|line| !line.is_deletion());
    lines
}

/// The report of a session with this outcome that noted these lines.
pub fn report_of(outcome: Outcome, total: u32, skipped: Skips, lines: Vec<ReportLine>) -> Report
    requires { length lines.items ≤ most_lines }
    ensures { Reports outcome total skipped lines.items result }
{
    let retrieved = retrieved_in(&lines) as u32;
    let bytes = length_of(&lines);
    let lines = kept_lines(&outcome, lines);
    let deleted = deleted_in(&lines) as u32;
    Report {
        outcome,
        total,
        retrieved,
        bytes,
        skipped: skipped.all,
        left_out: skipped.left_out,
        deleted,
        lines,
    }
}
