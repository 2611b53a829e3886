//! What an unattended run tells, by when it was told before. Times are seconds since 1970; a mark of 0 is none.
ghost use Rattle.std.specs.Prelude.{◌≡◌};
ghost use Rattle.run_memory.specs.Times.{begun, first_times, is_long_held, is_over, is_void, later_times, telling_of};
ghost use Rattle.run_memory.specs.Times.{times_after};

const HOUR: u64 = 3_600;

/// How many seconds a fault that was told isn't told again.
pub(crate) const DAY: u64 = 86_400;

/// When a fault was seen, in seconds since 1970, and in how many runs.
#[derive(Clone, Copy, Debug, PartialEq, Eq)]
pub struct Times {
    /// When it was first seen.
    pub since: u64,
    /// When it was last told.
    pub told: u64,
    /// In how many runs it was seen.
    pub runs: u64,
}

/// What is told of a fault.
#[derive(Clone, Copy, Debug, PartialEq, Eq)]
pub enum Telling {
    /// The fault, as a new one.
    First,
    /// The fault, since when it is seen, and in how many runs.
    Again(Times),
    /// Nothing.
    Nothing,
}

/// Whether a mark counts as none: there is none, or it is still to come, since the clock was ahead.
fn is_void(mark: u64, now: u64) -> bool
    ensures { result ≡ is_void mark now }
{
    mark == 0 || now < mark
}

/// Whether so many seconds have passed since a mark. They have if it counts as none.
pub(crate) fn is_over(seconds: u64, mark: u64, now: u64) -> bool
    ensures { result ≡ is_over seconds mark now }
{
    is_void(mark, now) || now - mark >= seconds
}

/// Since when something lasts that lasts now.
pub(crate) fn begun(mark: u64, now: u64) -> u64
    ensures { result ≡ begun mark now }
{
    if is_void(mark, now) { now } else { mark }
}

/// The times of a fault that is seen for the first time.
fn first_times(now: u64) -> Times
    ensures { result ≡ first_times now }
{
    Times {
        since: now,
        told: now,
        runs: 1,
    }
}

/// The times of a fault that was seen before, once it is seen now too.
fn later_times(times: Times, now: u64) -> Times
    ensures { result ≡ later_times times now }
{
    let is_told = now.saturating_sub(times.told) >= DAY;
    Times {
        since: times.since,
        told: if is_told { now } else { times.told },
        runs: times.runs.saturating_add(1),
    }
}

/// When a fault was seen, once it is seen now too.
pub(crate) fn times_after(known: Option<Times>, now: u64) -> Times
    ensures { result ≡ times_after known now }
{
    match known {
        Some(times) if !is_void(times.told, now) => later_times(times, now),
        _ => first_times(now),
    }
}

/// What is told of a fault that was seen before at these times, or wasn't.
pub(crate) fn telling_of(known: Option<Times>, now: u64) -> Telling
    ensures { result ≡ telling_of known now }
{
    match known {
        Some(times) if !is_void(times.told, now) => {
            if now.saturating_sub(times.told) >= DAY {
                Telling::Again(later_times(times, now))
            } else {
                Telling::Nothing
            }
        }
        _ => Telling::First,
    }
}

/// Whether another run has been at work for too long: for an hour since the mark of its lock or, if that counts as
/// none, since a run first met it.
pub fn is_long_held(held: u64, met: u64, now: u64) -> bool
    ensures { result ≡ is_long_held held met now }
{
    let since = if is_void(held, now) {
        begun(met, now)
    } else {
        held
    };
    now.saturating_sub(since) >= HOUR
}
