//! What unattended runs told before: the file that keeps it, and the clock by which it is told again.
ghost use Rattle.std.specs.{
  Prelude.{◌≡◌, ◌≢◌, ◌++◌, ℕ, Bool, true, List, Option, Some, Result, Ok, IfErr, IfOk, IfSome, IsErr, IsSomeAnd},
  Prelude.{IsTrue, MatchOption, codes},
  Fmt.decimal,
  Fs.{IsDir, file_type, metadata_mode},
  Int.Bits.bit_and,
  IoError.error_kind,
  String.string_bytes,
  declared.{alloc.AllocError.AllocError, time.SystemTime.SystemTime},
};
ghost use Rattle.mail_store.specs.Durable.{all_durable};
ghost use Rattle.run_memory.specs.{Memory.{Told, nothing, told_in}, Times.is_void};
ghost use Rattle.getmail_setup.specs.Places.{IsToldPath};
ghost use Rattle.getmail_program.specs.News.{HasPatience, IsSparePath, ReadsFound, met_in};

use file_reading::ReadFile;
use folder_store::{HostFile, ProcessMark};
use getmail_setup::{Words, home, is_long_held, second_of, told_path};
use mail_store::FlatFile;
use run_memory::{MOST_OCTETS, Memory};
use std::alloc::{AllocError, Global};
use std::env::Env;
use std::fs::{self, Metadata};
use std::io::{self, ErrorKind};
use std::os::unix::fs::{MetadataExt, PermissionsExt};
use std::process::Process;
use std::random::RandomSource;
use std::rt::{Clock, Files};
use std::time::SystemTime;
use system_calls::{Refusals, System};

/// What earlier unattended runs told, and where it is kept what this one tells.
pub trait Past {
    // It gave this of what earlier runs told, or memory ran out.
    ghost gave: { Self → Result Told AllocError → Type 0 };

    // It was asked to keep these octets, and did so or not.
    ghost kept: { Self → List ℕ → Bool → Type 0 };

    // Its clock showed this time, or couldn't be read.
    ghost showed: { Self → Option SystemTime → Type 0 };

    /// What earlier runs told.
    fn memory(&self) -> Result<Memory, AllocError>
        ensures { gave self.now result };

    /// Keeps these octets, and whether that was done.
    fn keep(&self, octets: &[u8]) -> bool
        ensures { kept self.now octets.now result };

    /// What its clock shows, if it can be read.
    fn time(&self) -> Option<SystemTime>
        ensures { showed self.now result };
}

/// What an unattended run makes of another one that has the lock.
pub struct Waiting {
    /// Whether it says nothing of it.
    pub is_patient: bool,
    /// Whether this run counts as one that met it, since the other's own mark isn't known.
    pub has_met: bool,
}

/// Since when another run's lock is met, as earlier runs kept it, if that is asked for; 0 if it isn't known.
fn met_since<P: Past>(past: &P, is_asked: bool) -> u64
    ensures { is_asked ≡ true → (memory : Result Told AllocError) × P.gave past.now memory × (result ≡ met_in memory) }
{
    if !is_asked {
        return 0;
    }
    match past.memory() {
        Ok(memory) => memory.met(),
        Err(_) => 0,
    }
}

/// Whether a mark counts as none: there is none, or it is still to come.
fn is_void(mark: u64, now: u64) -> bool
    ensures { result ≡ is_void mark now }
{
    mark == 0 || now < mark
}

/// Nothing is said of another run for the first hour since it took the lock at a mark. If that mark isn't known or is
/// still to come, the hour begins at the first run that met it.
pub fn patience<P: Past>(past: &P, held: u64) -> Waiting
    ensures { HasPatience (P.gave past.now) (P.showed past.now) held result }
{
    let now = second_of(past.time());
    let has_met = is_void(held, now);
    let met = met_since(past, has_met);
    Waiting {
        is_patient: !is_long_held(held, met, now),
        has_met,
    }
}

/// What a file says of earlier runs, by what was read of it: nothing if there is none, or another one.
fn memory_in(alloc: Global, answer: &io::Result<Option<Vec<u8>>>) -> Result<Memory, AllocError>
    ensures read { IfOk answer.now (λ found. MatchOption found (result ≡ Ok nothing)
        (λ octets. IfOk result (λ memory. memory ≡ told_in octets.items))) }
    ensures lack { IfErr answer.now (λ error. error_kind error ≡ ErrorKind.OutOfMemory → IsErr result) }
    ensures other { IfErr answer.now (λ error. error_kind error ≢ ErrorKind.OutOfMemory → result ≡ Ok nothing) }
{
    match answer {
        Ok(Some(octets)) => Memory::read(alloc, octets),
        Err(error) if error.kind() == ErrorKind::OutOfMemory => Err(AllocError),
        _ => Ok(Memory::new(alloc)),
    }
}

/// What earlier runs told, by a machine's files.
#[derive(Drop)]
pub struct HostPast<'a, R> {
    rt: &'a R,
    process: Process,
    path: Option<String>,
    /// Where it is kept instead if the folder of that can't be written: then it is newer.
    spare: Option<String>,
}

/// The path of the file that keeps what was told, if it is known.
fn path_of<R: Env + AllocGlobal>(rt: &R, words: &Words) -> Option<String>
    ensures { IfSome result (λ path. (home : Option (List ℕ)) × IsToldPath home words.now (string_bytes path)) }
{
    let home = home(rt).ok()?;
    told_path(rt.alloc(), home.as_deref(), words).ok()
}

/// Whether a folder is a user's own, and nobody else's.
fn is_private(found: &Metadata, user: u32) -> bool
    ensures { IsTrue result → IsDir (file_type found.now) × (bit_and (metadata_mode found.now) 0o777 ≡ 0o700) }
{
    found.is_dir() && found.uid() == user && found.permissions().mode() & 0o777 == 0o700
}

/// The path of a file of this name in a folder; its name begins in this way.
fn spare_path(alloc: Global, user: u32, path: &str) -> Option<String>
    ensures { IfSome result (λ spare. IsSparePath user path.now (string_bytes spare)) }
{
    let (_, name) = path.rsplit_once('/')?;
    format!(in alloc; "/run/user/{user}/getmail-{name}").ok()
}

/// The folder that a system gives a user while there is a session.
fn run_folder(alloc: Global, user: u32) -> Option<String>
    ensures { IfSome result (λ folder. string_bytes folder ≡ codes "/run/user/" ++ decimal user) }
{
    format!(in alloc; "/run/user/{user}").ok()
}

/// Where it is kept what was told if the folder for it can't be written: in one of the user's own, if there is one.
fn spare_for<R: Files + AllocGlobal>(rt: &R, path: Option<&str>) -> Option<String>
    ensures { IfSome result (λ spare. IsSomeAnd path.entry (λ path.
        (user : ℕ) × IsSparePath user path.now (string_bytes spare))) }
{
    let alloc = rt.alloc();
    let user = libc::geteuid();
    let folder = run_folder(alloc, user)?;
    let found = fs::symlink_metadata(rt, folder.as_str()).ok()?;
    if !is_private(&found, user) {
        return None;
    }
    spare_path(alloc, user, path?)
}

/// The octets at a path, if a file was found there.
fn octets_at<F: ReadFile>(
    files: &F,
    path: &str,
    found: io::Result<Metadata>,
) -> io::Result<Option<Vec<u8>>>
    ensures { ReadsFound (F.gave files.now path.now MOST_OCTETS) (F.refused files.now path.now) found result }
{
    if !found?.is_file() {
        return Ok(None);
    }
    Ok(Some(files.read(path, MOST_OCTETS)?))
}

/// Writes these octets to a file, and whether that was done.
fn keep_in<F: FlatFile>(file: &mut F, octets: &[u8]) -> bool
    ensures { result ≡ true → F.sound file.new → F.disk file.new ≡ all_durable (Some octets.now) }
{
    file.replace(octets).is_ok()
}

/// Writes these octets to the file at a path, and whether that was done.
fn keep_at<R: Files + Clock + RandomSource + AllocGlobal + Clone + Drop>(
    rt: &R,
    process: Process,
    path: &str,
    octets: &[u8],
) -> bool {
    let Ok(mark) = ProcessMark::new(process, rt) else {
        return false;
    };
    let refusals = Refusals::new(rt.alloc(), None);
    let system = System::new(rt, &refusals);
    let mut file = HostFile::at(&system, path, mark);
    let is_kept = keep_in(&mut file, octets);
    file.sweep();
    is_kept
}

/// Writes these octets to the file at a path, if there is one, and whether that was done.
fn keep_in_place<R: Files + Clock + RandomSource + AllocGlobal + Clone + Drop>(
    rt: &R,
    process: Process,
    path: Option<&str>,
    octets: &[u8],
) -> bool {
    match path {
        Some(path) => keep_at(rt, process, path, octets),
        None => false,
    }
}

impl<'a, R: Files + Env + AllocGlobal> HostPast<'a, R> {
    /// What is kept for the rc file that these words name.
    pub fn new(rt: &'a R, process: Process, words: &Words) -> HostPast<'a, R>
        ensures { IfSome result.path (λ path. (home : Option (List ℕ))
            × IsToldPath home words.now (string_bytes path)) }
    {
        let path = path_of(rt, words);
        let spare = spare_for(rt, path.as_deref());
        HostPast {
            rt,
            process,
            path,
            spare,
        }
    }

    /// What a file keeps, if one is at this path.
    fn kept_at(&self, path: Option<&str>) -> io::Result<Option<Vec<u8>>> {
        let Some(path) = path else {
            return Ok(None);
        };
        let refusals = Refusals::new(self.rt.alloc(), None);
        let system = System::new(self.rt, &refusals);
        let found = refusals.kept(system.lstat(path));
        octets_at(&system, path, found)
    }
}

impl<'a, R> Past for HostPast<'a, R>
where
    R: Files + Env + Clock + RandomSource + AllocGlobal + Clone + Drop,
{
    ghost gave = { λ _ _. Unit {0} };

    ghost kept = { λ _ _ _. Unit {0} };

    ghost showed = { λ _ _. Unit {0} };

    fn memory(&self) -> Result<Memory, AllocError> {
        let alloc = self.rt.alloc();
        if let Ok(Some(octets)) = self.kept_at(self.spare.as_deref()) {
            return Memory::read(alloc, &octets);
        }
        memory_in(alloc, &self.kept_at(self.path.as_deref()))
    }

    fn keep(&self, octets: &[u8]) -> bool {
        if keep_in_place(self.rt, self.process, self.path.as_deref(), octets) {
            if let Some(spare) = &self.spare {
                let _ = fs::remove_file(self.rt, spare.as_str());
            }
            return true;
        }
        keep_in_place(self.rt, self.process, self.spare.as_deref(), octets)
    }

    fn time(&self) -> Option<SystemTime> {
        SystemTime::now(self.rt).ok()
    }
}

/// Nothing was kept of what is told, and nothing is to be. That counts as done, so that no line says why each run tells
/// it: a line before has said so.
#[derive(Drop)]
pub struct NoPast<'a, R> {
    pub rt: &'a R,
}

impl<'a, R: Clock + AllocGlobal> Past for NoPast<'a, R> {
    ghost gave = { λ _ memory. memory ≡ Ok nothing };

    ghost kept = { λ _ _ is_kept. is_kept ≡ true };

    ghost showed = { λ _ _. Unit {0} };

    fn memory(&self) -> Result<Memory, AllocError> {
        Ok(Memory::new(self.rt.alloc()))
    }

    fn keep(&self, _octets: &[u8]) -> bool {
        true
    }

    fn time(&self) -> Option<SystemTime> {
        SystemTime::now(self.rt).ok()
    }
}
