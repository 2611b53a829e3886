//! The lock that keeps two runs of an account apart.
ghost use Rattle.std.specs.{
  IoError.error_kind,
  Prelude.{◌≡◌, Err, IfErr, Ok, OnOk, false, true},
  declared.fs.locks.TryLockError.TryLockError,
};
ghost use Rattle.getmail_setup.specs.{
  Lock.{DoesWith, MarksTime, IsSince, LocksAt, TakesLock},
  LockPlace.{Hinders, MayBeOpened},
};

use crate::clock::second_of;
use crate::errors::{Errors, tell_unlocked};
use crate::lock_calls::LockCalls;
use crate::setup::Setup;
use std::alloc::Global;
use std::fs::{File, Metadata, TryLockError};
use std::io::{ErrorKind, Write};
use system_calls::{Denial, Refusals};

/// What became of a run's lock.
#[derive(Drop)]
pub enum Lock {
    /// The run has it as long as this file is open.
    Held(File),
    /// Another run has it, since this second since 1970; 0 if that isn't known.
    Elsewhere(u64),
    /// There is none: the run changes nothing, or none is to be had.
    Without,
}

/// Whether a lock's file may be opened, by what was found in its place. Nothing but a regular file is: a device may be
/// waited for, and a link leads elsewhere.
fn check(alloc: Global, path: &str, found: Result<Metadata, Denial>) -> Result<(), Denial>
    ensures ok { OnOk result (MayBeOpened found) }
    ensures err { IfErr result (Hinders path.now found) }
{
    match found {
        Ok(found) if !found.is_file() => Err(Denial::because(alloc, path, "not a regular file")),
        Err(denial) if denial.kind() != ErrorKind::NotFound => Err(denial),
        _ => Ok(()),
    }
}

/// Marks a locked file with the time, for a run that finds it locked.
fn mark_time<L: LockCalls>(calls: &L, file: &File)
    requires { (done : Unit {0}) × L.asked calls.now file.now (Ok done) }
    ensures { MarksTime L.LockCalls calls.now file.now }
{
    if let Some(now) = calls.now() {
        calls.futimens(file, now);
    }
}

/// The second at which a file was marked that another process has locked, which is noted; 0 if it isn't known.
fn held_since<L: LockCalls>(calls: &L, refusals: &Refusals, path: &str, file: &File) -> u64
    requires { L.asked calls.now file.now (Err TryLockError.WouldBlock) }
    ensures { IsSince L.LockCalls calls.now file.now result }
{
    let _ = refusals.refuse(path, "another process has locked it");
    second_of(calls.fstat(file))
}

/// Tries to lock the file at a path, without waiting. It is made if there is none.
fn lock_at<L: LockCalls>(
    alloc: Global,
    calls: &L,
    refusals: &Refusals,
    path: &str,
) -> Result<Lock, Denial>
    ensures { LocksAt L.LockCalls calls.now path.now result }
{
    check(alloc, path, calls.lstat(path))?;
    let file = refusals.asked("open", path, calls.open(path))?;
    match calls.flock(&file) {
        Ok(()) => {
            mark_time(calls, &file);
            Ok(Lock::Held(file))
        }
        Err(TryLockError::WouldBlock) => {
            Ok(Lock::Elsewhere(held_since(calls, refusals, path, &file)))
        }
        Err(TryLockError::Error(error)) => refusals.asked("flock", path, Err(error)),
    }
}

/// The lock that was got, or none; then it is told why, if reasons are to be written.
fn lock_or_none<E: Write>(
    alloc: Global,
    setup: &Setup,
    answer: Result<Lock, Denial>,
    errors: &mut Errors<'_, E>,
) -> Lock
    ensures { DoesWith E.contents setup.now answer result errors.old errors.new }
{
    match answer {
        Ok(lock) => lock,
        Err(denial) => {
            tell_unlocked(alloc, &setup.settings, denial, errors);
            Lock::Without
        }
    }
}

/// Takes the lock of a run's account, unless the run changes nothing. If none is to be had, the run goes on without.
pub fn take_lock<L: LockCalls, E: Write>(
    alloc: Global,
    calls: &L,
    setup: &Setup,
    errors: &mut Errors<'_, E>,
) -> Lock
    ensures none { setup.now.pretends ≡ true → (result ≡ Lock.Without) × (errors.new ≡ errors.old) }
    ensures taken { setup.now.pretends ≡ false
        → TakesLock L.LockCalls calls.now E.contents setup.now result errors.old errors.new }
{
    if setup.pretends {
        return Lock::Without;
    }
    let path = setup.paths.lock.as_str();
    let answer = lock_at(alloc, calls, &errors.reasons.before, path);
    lock_or_none(alloc, setup, answer, errors)
}
