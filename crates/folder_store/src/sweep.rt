//! Removing from a folder what killed runs left behind.

ghost use Rattle.std.specs.{
  Fs.{IsFile, file_type},
  IoError.error_kind,
  List.All,
  Prelude.{◌≡◌, ◌≢◌, ◌↔◌, ◌++◌, Err, IfErr, IfOk, IsErrAnd, IsTrue, MatchOption, Ok, OnOk, codes, map, string_bytes},
};
ghost use Rattle.folder_store.specs.{Marks.IsOurs, Sweep.{IsDealtWith, IsLeftBehind, IsSwept}};

use crate::process_mark::is_marked;
use std::fs::Metadata;
use std::io::ErrorKind;
use std::rt::Files;
use std::time::{Clock, Duration, SystemTime};
use std::{fs, io};
use system_calls::{Denial, System};

/// How many seconds nothing is written to a file before it counts as left behind. A run at work waits
/// for the server for three minutes at most.
const LEFT_BEHIND_SECONDS: u64 = 3_600;

/// What bears a name: whether it is a regular file, and when it was written to last, as far as that is known.
#[derive(Clone, Copy)]
pub struct SweptFile {
    pub is_regular: bool,
    pub modified: Option<SystemTime>,
}

impl SweptFile {
    /// What the system reports.
    pub fn of(found: &Metadata) -> SweptFile
        ensures { IsTrue result.is_regular ↔ IsFile (file_type found.now) }
    {
        SweptFile {
            is_regular: found.is_file(),
            modified: found.modified().ok(),
        }
    }
}

/// A folder from which files are removed whose names begin so. Others make, write and remove files there meanwhile:
/// each answer is only of the moment of its call.
pub trait SweptFolder {
    ghost use Rattle.std.specs.{
      declared.time.SystemTime.{SystemTime},
      Prelude.{◌≡◌, ℕ, List, Result, IfOk, map, string_bytes},
    };
    ghost use Rattle.system_calls.specs.declared.refusal.Denial.{Denial};
    ghost use Rattle.folder_store.specs.{declared.sweep.SweptFile.SweptFile, Sweep.MayBeSwept};

    // What the names begin with.
    ghost front: { Self → List ℕ };

    // It told this time.
    ghost time: { Self → SystemTime → Type 0 };

    // It told that it has these names.
    ghost listed: { Self → List (List ℕ) → Type 0 };

    // It told this of what bears a name.
    ghost told: { Self → List ℕ → Result SweptFile Denial → Type 0 };

    // It was asked to remove a name.
    ghost removes: { Self → List ℕ → Type 0 };

    /// What the names begin with.
    fn front(&self) -> &str
        ensures { result.now ≡ front self.now };

    /// The time.
    fn now(&self) -> Result<SystemTime, Denial>
        ensures { IfOk result (time self.now) };

    /// Its names that are UTF-8, or of these only those that begin so, which take less memory.
    fn names(&self) -> Result<Vec<String>, Denial>
        ensures { IfOk result (λ names. listed self.now (map string_bytes names.items)) };

    /// What bears a name, by lstat(2).
    fn look_at(&self, name: &str) -> Result<SweptFile, Denial>
        ensures { told self.now name.now result };

    /// unlink(2). What can't be removed stays.
    fn remove(&self, name: &str)
        requires { MayBeSwept (front self.now) (time self.now) (told self.now) name.now }
        ensures { removes self.now name.now };
}

/// Whether this is a regular file that was changed last so long ago that no run is writing it.
fn is_left_behind(file: &SweptFile, now: SystemTime) -> bool
    ensures { IsTrue result ↔ IsLeftBehind file.now now }
{
    match file.modified {
        Some(modified) if file.is_regular => match now.duration_since(modified) {
            Ok(age) => age >= Duration::from_secs(LEFT_BEHIND_SECONDS),
            Err(_) => false,
        },
        _ => false,
    }
}

/// Whether a name begins so, and ends in the mark of a process.
fn is_ours(name: &str, front: &str) -> bool
    ensures { IsTrue result ↔ IsOurs front.now name.now }
{
    name.starts_with(front) && is_marked(name)
}

/// Removes what bears a name, if that is of those and what bears it was left behind.
fn sweep_name<F: SweptFolder>(folder: &F, name: &str, now: SystemTime)
    requires { F.time folder.now now }
    ensures { IsDealtWith (F.front folder.now) now (F.told folder.now) (F.removes folder.now) name.now }
{
    if !is_ours(name, folder.front()) {
        return;
    }
    if let Ok(file) = folder.look_at(name) {
        if is_left_behind(&file, now) {
            folder.remove(name);
        }
    }
}

/// Removes what bears these names, of which that is so.
fn sweep_names<F: SweptFolder>(folder: &F, names: Vec<String>, now: SystemTime)
    requires { F.time folder.now now }
    ensures { All (IsDealtWith (F.front folder.now) now (F.told folder.now) (F.removes folder.now))
        (map string_bytes names.items) }
{
    for name in names {
        sweep_name(folder, name.as_str(), now);
    }
}

/// Removes the files of a folder whose names begin so and end in the mark of a process, and that were left behind. One
/// that can't be looked at or removed stays. No message that was delivered has such a name, so none is lost if the
/// folder is a link to one of messages.
pub fn sweep<F: SweptFolder>(folder: &F) -> Result<(), Denial>
    ensures { OnOk result (IsSwept (F.front folder.now) (F.time folder.now) (F.listed folder.now) (F.told folder.now)
        (F.removes folder.now)) }
{
    let now = folder.now()?;
    let names = folder.names()?;
    sweep_names(folder, names, now);
    Ok(())
}

/// The folder of the machine's file system in which files are made.
#[derive(Drop)]
pub struct Scratch<'a, R> {
    pub system: &'a System<'a, R>,
    pub path: &'a str,
    pub front: &'a str,
}

/// An entry of a folder that is read. None if its name isn't UTF-8.
fn entry_in<T, R: AllocGlobal>(
    system: &System<'_, R>,
    folder: &str,
    entry: io::Result<T>,
) -> Result<Option<T>, Denial>
    ensures read { IfOk result (λ read. MatchOption read
        (IsErrAnd entry (λ error. error_kind error ≡ ErrorKind.InvalidFilename)) (λ value. entry ≡ Ok value)) }
    ensures denied { IfErr result (λ denial. (entry ≡ Err denial.error)
        × (error_kind denial.error ≢ ErrorKind.InvalidFilename)) }
{
    match entry {
        Err(fault) if fault.kind() == ErrorKind::InvalidFilename => Ok(None),
        entry => Ok(Some(system.asked("read", folder, entry)?)),
    }
}

impl<'a, R: AllocGlobal> Scratch<'a, R> {
    // The path of a name.
    fn path_of(&self, name: &str) -> Result<String, Denial>
        ensures { IfOk result (λ path. string_bytes path ≡ self.now.path.now ++ (codes "/" ++ name.now)) }
    {
        let path = self.path;
        Ok(format!(in self.system.alloc(); "{path}/{name}")?)
    }
}

impl<'a, R: Files + Clock + AllocGlobal + Clone + Drop> SweptFolder for Scratch<'a, R> {
    ghost front = { λ f. f.front.now };

    ghost time = { λ _ _. Unit {0} };

    ghost listed = { λ _ _. Unit {0} };

    ghost told = { λ _ _ _. Unit {0} };

    ghost removes = { λ _ _. Unit {0} };

    fn front(&self) -> &str {
        self.front
    }

    fn now(&self) -> Result<SystemTime, Denial> {
        let now = SystemTime::now(self.system.rt);
        self.system.asked("clock_gettime", self.path, now)
    }

    fn names(&self) -> Result<Vec<String>, Denial> {
        let mut names = Vec::new(self.system.alloc());
        let entries = fs::read_dir(self.system.rt, self.path);
        for entry in self.system.asked("open", self.path, entries)? {
            let Some(entry) = entry_in(self.system, self.path, entry)? else {
                continue;
            };
            if entry.file_name().starts_with(self.front) {
                names.push(String::from_str(self.system.alloc(), entry.file_name())?)?;
            }
        }
        Ok(names)
    }

    fn look_at(&self, name: &str) -> Result<SweptFile, Denial> {
        let path = self.path_of(name)?;
        Ok(SweptFile::of(&self.system.lstat(path.as_str())?))
    }

    fn remove(&self, name: &str) {
        if let Ok(path) = self.path_of(name) {
            let _ = self.system.unlink(path.as_str());
        }
    }
}
