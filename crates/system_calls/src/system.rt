//! The machine's file system, whose refused calls are shown.
ghost use Rattle.std.specs.Prelude.{◌≡◌, ◌++◌, Err, IfErr, IfOk, Ok, codes, string_bytes};
ghost use Rattle.system_calls.specs.Denials.{IsAbout};

use crate::opened::OpenAt;
use crate::refusal::Denial;
use crate::refusals::Refusals;
use std::alloc::Global;
use std::fs;
use std::fs::{Metadata, OpenOptions};
use std::io::{self, ErrorKind};
use std::rt::Files;

/// The machine's file system, as one device asks it, and what is refused to that device.
#[derive(Drop)]
pub struct System<'a, R> {
    pub rt: &'a R,
    pub refusals: &'a Refusals,
}

impl<'a, R: AllocGlobal> System<'a, R> {
    /// The file system of this runtime.
    pub fn new(rt: &'a R, refusals: &'a Refusals) -> System<'a, R> {
        System { rt, refusals }
    }

    /// The allocator.
    pub fn alloc(&self) -> Global {
        self.rt.alloc()
    }

    /// The answer of a call of the system, which is shown if it is a refusal.
    pub fn asked<T>(&self, call: &str, path: &str, answer: io::Result<T>) -> Result<T, Denial>
        ensures done { IfOk result (λ value. answer ≡ Ok value) }
        ensures denied { IfErr result (λ denial. (answer ≡ Err denial.error) × IsAbout path.now denial) }
    {
        self.refusals.asked(call, path, answer)
    }
}

impl<'a, R: Files + AllocGlobal> System<'a, R> {
    /// The metadata of what a path leads to.
    pub fn stat(&self, path: &str) -> Result<Metadata, Denial>
        ensures denied { IfErr result (IsAbout path.now) }
    {
        self.asked("stat", path, fs::metadata(self.rt, path))
    }

    /// The metadata of what a path names. That there is nothing isn't shown: the programs ask whether a name
    /// is free.
    pub fn lstat(&self, path: &str) -> Result<Metadata, Denial>
        ensures denied { IfErr result (IsAbout path.now) }
    {
        match fs::symlink_metadata(self.rt, path) {
            Err(error) if error.kind() == ErrorKind::NotFound => {
                Err(Denial::of(self.alloc(), path, error))
            }
            answer => self.asked("lstat", path, answer),
        }
    }

    /// Opens a file or a folder to read it.
    pub fn open(&self, path: &str) -> Result<OpenAt<R::File>, Denial>
        ensures opened { IfOk result (λ handle. string_bytes handle.path ≡ path.now) }
        ensures denied { IfErr result (IsAbout path.now) }
    {
        self.open_with(OpenOptions::new().read(true), path)
    }

    /// Opens a file in another way.
    pub fn open_with(&self, how: &OpenOptions, path: &str) -> Result<OpenAt<R::File>, Denial>
        ensures opened { IfOk result (λ handle. string_bytes handle.path ≡ path.now) }
        ensures denied { IfErr result (IsAbout path.now) }
    {
        let own = String::from_str(self.alloc(), path)?;
        let inner = self.asked("open", path, how.open(self.rt, path))?;
        Ok(OpenAt {
            inner,
            path: own,
            trace: self.refusals.trace,
        })
    }

    /// Gives a file another name.
    pub fn rename(&self, from: &str, to: &str) -> Result<(), Denial>
        ensures denied { IfErr result (IsAbout (from.now ++ (codes " to " ++ to.now))) }
    {
        self.between("rename", from, to, fs::rename(self.rt, from, to))
    }

    /// Gives a file a second name. Fails if something has that.
    pub fn link(&self, from: &str, to: &str) -> Result<(), Denial>
        ensures denied { IfErr result (IsAbout (from.now ++ (codes " to " ++ to.now))) }
    {
        self.between("link", from, to, fs::hard_link(self.rt, from, to))
    }

    // The answer of a call with two paths.
    fn between(
        &self,
        call: &str,
        from: &str,
        to: &str,
        answer: io::Result<()>,
    ) -> Result<(), Denial>
        ensures done { IfOk result (λ value. answer ≡ Ok value) }
        ensures denied { IfErr result (IsAbout (from.now ++ (codes " to " ++ to.now))) }
    {
        if answer.is_ok() {
            return Ok(());
        }
        let paths = format!(in self.alloc(); "{from} to {to}")?;
        self.asked(call, paths.as_str(), answer)
    }

    /// Removes a file.
    pub fn unlink(&self, path: &str) -> Result<(), Denial>
        ensures denied { IfErr result (IsAbout path.now) }
    {
        self.asked("unlink", path, fs::remove_file(self.rt, path))
    }
}
