//! The calls of the system by which a file is locked.
ghost use Rattle.std.specs.{
  Prelude.{◌≡◌, ℕ, Err, IfErr, List, Ok, Option, Result, Some},
  declared.{
    fs.{File.File, attrs.Metadata.Metadata, locks.TryLockError.TryLockError},
    io.Error.Error,
    time.SystemTime.SystemTime,
  },
};
ghost use Rattle.system_calls.specs.{Denials.IsAbout, declared.refusal.Denial.{Denial}};
ghost use Rattle.getmail_setup.specs.LockPlace.{MayBeOpened};

use std::fs::{File, Metadata, OpenOptions, TryLockError};
use std::io;
use std::os::unix::fs::OpenOptionsExt;
use std::rt::{Clock, Files};
use std::time::SystemTime;
use system_calls::{Denial, System};

/// A system in which files are locked. Others make, replace and lock files meanwhile: each answer is only
/// of the moment of its call.
pub trait LockCalls {
    // It told this of what a path names.
    ghost told: { Self → List ℕ → Result Metadata Denial → Type 0 };

    // It was asked to open a path, with this answer.
    ghost opened: { Self → List ℕ → Result File Error → Type 0 };

    // It was asked for the lock of a file, with this answer.
    ghost asked: { Self → File → Result (Unit {0}) TryLockError → Type 0 };

    // Its clock showed this time, or couldn't be read.
    ghost showed: { Self → Option SystemTime → Type 0 };

    // It was asked to mark a file with a time.
    ghost marks: { Self → File → SystemTime → Type 0 };

    // It told when a file was marked, or couldn't.
    ghost dated: { Self → File → Option SystemTime → Type 0 };

    /// lstat(2).
    fn lstat(&self, path: &str) -> Result<Metadata, Denial>
        ensures told { told self.now path.now result }
        ensures about { IfErr result (IsAbout path.now) };

    /// open(2) with O_RDWR and O_CREAT, and mode 0600.
    fn open(&self, path: &str) -> io::Result<File>
        requires { (found : Result Metadata Denial) × told self.now path.now found × MayBeOpened found }
        ensures { opened self.now path.now result };

    /// flock(2) with LOCK_EX and LOCK_NB.
    fn flock(&self, file: &File) -> Result<(), TryLockError>
        ensures { asked self.now file.now result };

    /// clock_gettime(2).
    fn now(&self) -> Option<SystemTime>
        ensures { showed self.now result };

    /// futimens(2). Nothing rests on it.
    fn futimens(&self, file: &File, time: SystemTime)
        requires locked { (done : Unit {0}) × asked self.now file.now (Ok done) }
        requires now { showed self.now (Some time) }
        ensures { marks self.now file.now time };

    /// When a file was marked, by fstat(2).
    fn fstat(&self, file: &File) -> Option<SystemTime>
        ensures { dated self.now file.now result };
}

/// The calls of a machine.
#[derive(Drop)]
pub struct SystemLocks<'a, R> {
    pub system: &'a System<'a, R>,
}

impl<'a, R: Files<File = File> + Clock + AllocGlobal> LockCalls for SystemLocks<'a, R> {
    ghost told = { λ _ _ _. Unit {0} };

    ghost opened = { λ _ _ _. Unit {0} };

    ghost asked = { λ _ _ _. Unit {0} };

    ghost showed = { λ _ _. Unit {0} };

    ghost marks = { λ _ _ _. Unit {0} };

    ghost dated = { λ _ _ _. Unit {0} };

    fn lstat(&self, path: &str) -> Result<Metadata, Denial> {
        self.system.lstat(path)
    }

    fn open(&self, path: &str) -> io::Result<File> {
        let mut how = OpenOptions::new();
        how.read(true).write(true).create(true).mode(0o600);
        how.open(self.system.rt, path)
    }

    fn flock(&self, file: &File) -> Result<(), TryLockError> {
        file.try_lock()
    }

    fn now(&self) -> Option<SystemTime> {
        SystemTime::now(self.system.rt).ok()
    }

    fn futimens(&self, file: &File, time: SystemTime) {
        let _ = file.set_modified(time);
    }

    fn fstat(&self, file: &File) -> Option<SystemTime> {
        file.metadata().ok()?.modified().ok()
    }
}
