//! The calls of the system by which a folder is listed.

ghost use Rattle.std.specs.{
  Prelude.{◌≤◌, ℕ, List, Option, IfOk, Result, length, take},
  declared.time.Duration.Duration,
};
ghost use Rattle.folder_store.specs.ExactListing.{
  Clock as Told,
  Date,
  ListingCall,
  Open,
  Read as Names,
  Sleep,
  Stat,
  call_of,
};

use crate::exact_listing::ChangeTime;
use std::io::Read;
use std::rt::Files;
use std::thread;
use std::time::{Clock, Duration};
use system_calls::{Denial, System};

/// A folder that is listed, and the clocks. Others make, remove and rename files in it meanwhile: each answer is only
/// of the moment of its call.
pub trait ListingCalls {
    type Opened: Drop;

    // It was asked for this, and told it: before the call it was the one, and after it the other.
    ghost did: { Self → ListingCall → Self → Type 0 };

    /// The folder's time of change, by stat(2).
    fn stat(&mut self) -> Result<ChangeTime, Denial>
        ensures { did self.old (call_of Stat result) self.new };

    /// clock_gettime(2), by the clock that never goes back.
    fn clock(&mut self) -> Result<Duration, Denial>
        ensures { did self.old (call_of Told result) self.new };

    /// clock_gettime(2): the time since 1970, if the clock of dates can be read and isn't before it.
    fn date(&mut self) -> Option<Duration>
        ensures { did self.old (Date result) self.new };

    /// clock_nanosleep(2).
    fn sleep(&mut self, time: Duration)
        ensures { did self.old (Sleep time) self.new };

    /// open(2) of the folder.
    fn open(&mut self) -> Result<Self::Opened, Denial>
        ensures { did self.old (call_of (λ _. Open) result) self.new };

    /// getdents(2): the names that come next in the folder that was opened last, each ended by a NUL. None at the end.
    fn read(&mut self, folder: &mut Self::Opened, octets: &mut [u8]) -> Result<usize, Denial>
        ensures bound { IfOk result (λ count. count ≤ length octets.new) }
        ensures did { did self.old (call_of (λ count. Names (take count octets.new)) result) self.new };
}

/// A folder of the machine's file system.
#[derive(Drop)]
pub struct SystemListing<'a, R> {
    pub system: &'a System<'a, R>,
    pub path: &'a str,
}

impl<'a, R: Files + Clock + AllocGlobal> ListingCalls for SystemListing<'a, R> {
    type Opened = R::Dir;

    ghost did = { λ _ _ _. Unit {0} };

    fn stat(&mut self) -> Result<ChangeTime, Denial> {
        Ok(ChangeTime::of(&self.system.stat(self.path)?))
    }

    fn clock(&mut self) -> Result<Duration, Denial> {
        let now = self.system.rt.monotonic();
        self.system.asked("clock_gettime", self.path, now)
    }

    fn date(&mut self) -> Option<Duration> {
        self.system.rt.since_1970().ok()
    }

    fn sleep(&mut self, time: Duration) {
        thread::sleep(self.system.rt, time);
    }

    fn open(&mut self) -> Result<R::Dir, Denial> {
        // With the slash a link to a folder is followed.
        let path = self.path;
        let within = format!(in self.system.alloc(); "{path}/")?;
        let opened = self.system.rt.open_dir(within.as_str());
        self.system.asked("open", path, opened)
    }

    fn read(&mut self, folder: &mut R::Dir, octets: &mut [u8]) -> Result<usize, Denial> {
        let read = folder.read(octets);
        self.system.asked("read", self.path, read)
    }
}
