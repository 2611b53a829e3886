//! The names of a folder, listed exactly although others rename files in it meanwhile.

ghost use Rattle.std.specs.{Option.option_map, Prelude.{◌≡◌, ◌↔◌, ◌-◌, ◌≤◌, IsTrue}, Duration.as_nanos};
ghost use Rattle.folder_store.specs.{
  ExactListing.{ComesTo, IsLook, IsPass, IsReading, IsRest, ListsExactly, ListsOnce, MakesCalls, age_at, left_at},
  ExactListing.{left_of, most_nanos, name_texts, step_nanos},
  HostAnswers.seconds_at,
};

use crate::listing_calls::ListingCalls;
use crate::shared_calls::ListedNames;
use crate::wanted::{Search, Wanted};
use std::alloc::Global;
use std::fs::Metadata;
use std::os::unix::fs::MetadataExt;
use std::time::Duration;
use system_calls::Denial;

/// How many milliseconds a folder must be unchanged before it is listed, so that each later change
/// gives it another time: longer than the steps of the clock by which Linux stamps changes (1 to 10).
const STEP_MILLIS: u64 = 20;

/// The same for a file system that keeps whole seconds only.
const STEP_OF_SECONDS_MILLIS: u64 = 1_020;

/// For how many seconds a folder that changes all the time is listed again.
const MOST_SECONDS: u64 = 2;

/// How many octets of names are read at once.
const READ_AT_ONCE: usize = 32_768;

/// After how many reads a pass looks whether the folder has changed.
const LOOK_EACH: u64 = 8;

/// How many times a folder is listed.
const MOST_LISTINGS: u32 = 100;

/// Why a folder's names aren't told.
const CHANGES_ALWAYS: &str = "changes all the time";

/// A folder's time of change, in seconds and nanoseconds since 1970. It moves when a file comes, goes
/// or gets another name, and nobody can set it.
#[derive(Clone, Copy, PartialEq, Eq)]
pub struct ChangeTime {
    pub seconds: u64,
    pub nanoseconds: i64,
}

/// The seconds of a time since 1970. One before that counts as one that never comes, another one for each second.
fn seconds_of(seconds: i64) -> u64
    ensures { result ≡ seconds_at seconds }
{
    match u64::try_from(seconds) {
        Ok(seconds) => seconds,
        Err(_) => u64::MAX - seconds.unsigned_abs(),
    }
}

impl ChangeTime {
    /// The time of change that the system reports for a folder.
    pub fn of(folder: &Metadata) -> ChangeTime {
        ChangeTime {
            seconds: seconds_of(folder.ctime()),
            nanoseconds: folder.ctime_nsec(),
        }
    }

    /// How long a folder must be at rest so that a later change gives it another time than this.
    fn step(self) -> Duration
        ensures { as_nanos result ≡ step_nanos self.nanoseconds }
    {
        Duration::from_millis(if self.nanoseconds == 0 {
            STEP_OF_SECONDS_MILLIS
        } else {
            STEP_MILLIS
        })
    }

    /// How long ago it was at a time since 1970. Zero if it is later, or before 1970.
    fn age(self, now: Duration) -> Duration
        ensures { as_nanos result ≡ age_at self.seconds self.nanoseconds (as_nanos now) }
    {
        let Ok(nanoseconds) = u64::try_from(self.nanoseconds) else {
            return Duration::ZERO;
        };
        let part = Duration::from_nanos(nanoseconds);
        now.saturating_sub(Duration::from_secs(self.seconds).saturating_add(part))
    }
}

/// A folder's time of change, and when it was read, by the clock that never goes back.
#[derive(Clone, Copy)]
struct Sighting {
    change: ChangeTime,
    at: Duration,
}

impl Sighting {
    /// How long to wait before each later change gives the folder another time than the one seen.
    fn left(self, date: Option<Duration>, now: Duration) -> Duration
        ensures { as_nanos result ≡ left_at self date now }
    {
        // Without a clock of dates nothing is known of the age.
        let age = self.change.age(date.unwrap_or(Duration::ZERO));
        left_of(self.change.step(), age, now.saturating_sub(self.at))
    }
}

/// What is left of a step where the time of change is this old, by the clock of dates, and was seen this
/// long ago, whatever that clock says.
fn left_of(step: Duration, age: Duration, watched: Duration) -> Duration
    ensures { as_nanos result ≡ left_of (as_nanos step) (as_nanos age) (as_nanos watched) }
{
    step.saturating_sub(age).min(step.saturating_sub(watched))
}

/// Whether a folder has changed for so long, since its first look, that it isn't listed again.
fn is_late(start: Duration, now: Duration) -> bool
    ensures { IsTrue result ↔ most_nanos ≤ as_nanos now - as_nanos start }
{
    now.saturating_sub(start) >= Duration::from_secs(MOST_SECONDS)
}

/// Looks at a folder.
fn look<L: ListingCalls>(folder: &mut L) -> Result<Sighting, Denial>
    ensures { MakesCalls L.did folder.old folder.new (ComesTo IsLook result) }
{
    let change = folder.stat()?;
    let at = folder.clock()?;
    Ok(Sighting { change, at })
}

/// Leaves a folder alone until each later change gives it another time than the one seen.
fn rest<L: ListingCalls>(folder: &mut L, seen: Sighting) -> Result<(), Denial>
    ensures { MakesCalls L.did folder.old folder.new (ComesTo (λ _. IsRest seen) result) }
{
    let date = folder.date();
    let now = folder.clock()?;
    let left = seen.left(date, now);
    if left.is_zero() {
        return Ok(());
    }
    folder.sleep(left);
    Ok(())
}

/// The names wanted of an open folder, from the first on. If names change meanwhile, the system may leave
/// out a file that is there all the time; and on tmpfs it finds a renamed file again, so this
/// is given up once the folder isn't as it was seen.
fn read_to_end<L: ListingCalls>(
    folder: &mut L,
    opened: &mut L::Opened,
    octets: &mut [u8],
    alloc: Global,
    seen: ChangeTime,
    search: &mut Search<'_>,
) -> Result<Option<Vec<String>>, Denial>
    ensures wanted { search.new.wanted ≡ search.old.wanted }
    ensures makes { MakesCalls L.did folder.old folder.new
        (ComesTo (λ found. IsReading search.old.wanted seen (option_map name_texts found)) result) }
{
    let mut found = Vec::new(alloc);
    for reads in 1..u64::MAX {
        let count = folder.read(opened, octets)?;
        if count == 0 {
            return Ok(Some(found));
        }
        search.add(alloc, &octets[..count], &mut found)?;
        if reads % LOOK_EACH != 0 {
            continue;
        }
        if folder.stat()? != seen {
            return Ok(None);
        }
    }
    Ok(None)
}

/// The names wanted that one pass through a folder finds. None if it isn't as it was seen.
fn pass_through<L: ListingCalls>(
    folder: &mut L,
    alloc: Global,
    seen: ChangeTime,
    search: &mut Search<'_>,
) -> Result<Option<Vec<String>>, Denial>
    ensures wanted { search.new.wanted ≡ search.old.wanted }
    ensures makes { MakesCalls L.did folder.old folder.new
        (ComesTo (λ found. IsPass search.old.wanted seen (option_map name_texts found)) result) }
{
    let mut octets = vec![in alloc; 0u8; READ_AT_ONCE]?;
    let mut opened = folder.open()?;
    read_to_end(folder, &mut opened, &mut octets, alloc, seen, search)
}

/// Lists a folder once that was seen so, and looks at it again. Names are told only if none changed meanwhile.
fn list_once<L: ListingCalls>(
    folder: &mut L,
    alloc: Global,
    seen: Sighting,
    search: &mut Search<'_>,
) -> Result<(Option<Vec<String>>, Sighting), Denial>
    ensures wanted { search.new.wanted ≡ search.old.wanted }
    ensures makes { MakesCalls L.did folder.old folder.new
        (ComesTo (λ told. ListsOnce search.old.wanted seen (option_map name_texts told.0) told.1) result) }
{
    rest(folder, seen)?;
    let found = pass_through(folder, alloc, seen.change, search)?;
    let again = look(folder)?;
    if again.change != seen.change {
        return Ok((None, again));
    }
    Ok((found, again))
}

/// The names of a folder that are wanted, at one moment between the call and its end: none is left out and none
/// occurs twice, although others make, remove and rename files in it meanwhile. Names that begin
/// with a full stop and names that aren't UTF-8 are skipped.
///
/// The folder is listed only once its time of change is older than the step of the clock that stamps
/// changes. If the time is different after the listing, the folder is listed again. So a folder at
/// rest costs one listing and no wait, and one that was changed just now a sleep of 20 ms at most.
/// That holds for local file systems; one of the network may stamp by another clock, or report an
/// old time.
///
/// The error is the system's, or a refusal if the folder found no rest within 2 seconds.
pub fn list_names<L: ListingCalls>(
    folder: &mut L,
    alloc: Global,
    path: &str,
    wanted: Wanted<'_>,
) -> Result<ListedNames, Denial>
    ensures { MakesCalls L.did folder.old folder.new (ListsExactly wanted.entry path.now result) }
{
    let mut search = Search::new(wanted);
    let start = folder.clock()?;
    let mut seen = look(folder)?;
    for times in 0..MOST_LISTINGS {
        let (told, again) = list_once(folder, alloc, seen, &mut search)?;
        if let Some(names) = told {
            let change = again.change;
            return Ok(ListedNames { names, change });
        }
        if is_late(start, again.at) {
            return Err(Denial::because(alloc, path, CHANGES_ALWAYS));
        }
        seen = again;
    }
    Err(Denial::because(alloc, path, CHANGES_ALWAYS))
}
