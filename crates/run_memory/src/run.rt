//! What an unattended run says, and what is told of it.
ghost use Rattle.std.specs.Prelude.{◌≡◌};
ghost use Rattle.run_memory.specs.News.{end_told, limit_told, marks_after, more_than, number_after, limited_after};
ghost use Rattle.run_memory.specs.News.{left_after};

use crate::key::Key;
use crate::times::{DAY, Telling, begun, is_over};

/// What a run says beside its fault.
#[derive(Clone, Copy)]
pub struct Notice {
    pub key: Key,
    /// Whether it is told again each week.
    pub lasts: bool,
}

/// How many messages were left out.
#[derive(Clone, Copy, Debug, PartialEq, Eq)]
pub struct Counts {
    pub past_limit: u64,
    pub repeated: u64,
}

/// What a run says.
#[derive(Drop)]
pub struct Run {
    /// What ended it.
    pub fault: Option<Key>,
    pub notices: Vec<Notice>,
    /// Whether it had a listing.
    pub has_listed: bool,
    /// The messages of its listing that are too large.
    pub large: Vec<Key>,
    pub counts: Counts,
    /// Whether it came to its end.
    pub has_ended: bool,
    /// Whether another run had the lock.
    pub has_met: bool,
}

/// What is told of what a run says.
#[derive(Drop)]
pub struct News {
    pub fault: Telling,
    /// Whether each notice is told.
    pub notices: Vec<bool>,
    /// Whether each message that is too large is named.
    pub large: Vec<bool>,
    /// How many more are too large, if that is told.
    pub unnamed: Option<u64>,
    /// Since when each run reached the limit on the number of messages, if that is told.
    pub limited: Option<u64>,
    /// How many messages have a repeated id, if that is told.
    pub repeated: Option<u64>,
    /// Since when runs had failed that work again, if that is told.
    pub end: Option<u64>,
}

/// What is known of messages that were left out: how many are too large beside those that were named, since when each
/// run reached the limit on their number, and how many have a repeated id.
#[derive(Clone, Copy, Debug, PartialEq, Eq)]
pub struct LeftMarks {
    pub unnamed: u64,
    pub limited: u64,
    pub repeated: u64,
}

/// When an end was told last, since when runs fail whose end wasn't told, and since when another run's lock is met.
#[derive(Clone, Copy, Debug, PartialEq, Eq)]
pub struct RunMarks {
    pub ended: u64,
    pub failing: u64,
    pub met: u64,
}

/// A number, if it is greater than before.
pub(crate) fn more_than(old: u64, new: u64) -> Option<u64>
    ensures { result ≡ more_than old new }
{
    if old < new { Some(new) } else { None }
}

/// Since when runs had failed, if that is told at this one.
pub(crate) fn end_told(marks: RunMarks, run: &Run, now: u64) -> Option<u64>
    ensures { result ≡ end_told marks run.now now }
{
    if run.has_ended && marks.failing > 0 && is_over(DAY, marks.ended, now) {
        Some(marks.failing.min(now))
    } else {
        None
    }
}

/// The times of the account after a run.
pub(crate) fn marks_after(marks: RunMarks, run: &Run, now: u64) -> RunMarks
    ensures { result ≡ marks_after marks run.now now }
{
    let is_end = end_told(marks, run, now).is_some();
    let failing = if is_end { 0 } else { marks.failing };
    RunMarks {
        ended: if is_end { now } else { marks.ended },
        failing: if run.fault.is_some() {
            begun(marks.failing, now)
        } else {
            failing
        },
        met: if run.has_met {
            begun(marks.met, now)
        } else {
            0
        },
    }
}

/// Since when each run reached the limit on the number of messages, if that is told: it is if each run of a day did.
pub(crate) fn limit_told(left: LeftMarks, run: &Run, now: u64) -> Option<u64>
    ensures { result ≡ limit_told left run.now now }
{
    let since = begun(left.limited, now);
    if run.counts.past_limit > 0 && now.saturating_sub(since) >= DAY {
        Some(since)
    } else {
        None
    }
}

/// A number after a run. One that was cut may not have come to all messages.
fn number_after(old: u64, new: u64, has_ended: bool) -> u64
    ensures { result ≡ number_after old new has_ended }
{
    if has_ended { new } else { old.max(new) }
}

/// Since when each run reaches the limit on the number of messages, after a run.
fn limited_after(left: LeftMarks, run: &Run, now: u64) -> u64
    ensures { result ≡ limited_after left run.now now }
{
    if run.counts.past_limit > 0 {
        if limit_told(left, run, now).is_some() {
            return now;
        }
        return begun(left.limited, now);
    }
    if run.has_ended { 0 } else { left.limited }
}

/// What is known of messages that were left out, after a run with so many that are too large and not named.
pub(crate) fn left_after(left: LeftMarks, run: &Run, unnamed: u64, now: u64) -> LeftMarks
    ensures { result ≡ left_after left run.now unnamed now }
{
    LeftMarks {
        unnamed: number_after(left.unnamed, unnamed, run.has_ended),
        limited: limited_after(left, run, now),
        repeated: number_after(left.repeated, run.counts.repeated, run.has_ended),
    }
}
