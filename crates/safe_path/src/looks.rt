//! One that looks at paths.
ghost use Rattle.std.specs.Prelude.{ℕ, ◌∷◌, Bool, List, IfErr, IfOk, string_bytes};
ghost use Rattle.std.specs.declared.io.Error.{Error};
ghost use Rattle.safe_path.specs.declared.rule.Found.{Found};

use crate::rule::Found;
use std::env::{self, Env};
use std::fs;
use std::io::{self, ErrorKind};
use std::os::unix::fs::MetadataExt;
use std::rt::Files;
use system_calls::System;

/// One that looks at paths, at different moments: nothing is taken for granted of two looks.
pub trait Looks {
    // It told of a path what is there. A link there is not followed; those before the last name are.
    ghost showed: { Self → List ℕ → Found → Type 0 };

    // It told of a path that this kept it from looking there.
    ghost hid: { Self → List ℕ → Error → Type 0 };

    // It told where the link at a path leads.
    ghost led: { Self → List ℕ → List ℕ → Type 0 };

    // It told of a path that this kept it from reading the link there.
    ghost barred: { Self → List ℕ → Error → Type 0 };

    // It told the working folder's path, which begins at the root.
    ghost works_in: { Self → List ℕ → Type 0 };

    // This kept it from telling the working folder's path.
    ghost is_lost: { Self → Error → Type 0 };

    // It told whether this process has the superuser's rights.
    ghost has_rights: { Self → Bool → Type 0 };

    /// Looks at a path.
    fn look(&self, path: &str) -> io::Result<Found>
        ensures showed { IfOk result (showed self.now path.now) }
        ensures hid { IfErr result (hid self.now path.now) };

    /// Where the link at a path leads.
    fn target(&self, path: &str) -> io::Result<String>
        ensures led { IfOk result (λ target. led self.now path.now (string_bytes target)) }
        ensures barred { IfErr result (barred self.now path.now) };

    /// The names of the working folder's path, which are behind its first `/`.
    fn working_folder(&self) -> io::Result<String>
        ensures works_in { IfOk result (λ names. works_in self.now (47 ∷ string_bytes names)) }
        ensures is_lost { IfErr result (is_lost self.now) };

    /// Whether this process has the superuser's rights.
    fn is_superuser(&self) -> bool
        ensures { has_rights self.now result };
}

impl<'a, R: Files + Env + AllocGlobal> Looks for System<'a, R> {
    ghost showed = { λ _ _ _. Unit {0} };

    ghost hid = { λ _ _ _. Unit {0} };

    ghost led = { λ _ _ _. Unit {0} };

    ghost barred = { λ _ _ _. Unit {0} };

    ghost works_in = { λ _ _. Unit {0} };

    ghost is_lost = { λ _ _. Unit {0} };

    ghost has_rights = { λ _ _. Unit {0} };

    fn look(&self, path: &str) -> io::Result<Found> {
        match self.lstat(path) {
            Ok(found) => Ok(Found {
                owner: found.uid(),
                mode: found.mode(),
            }),
            Err(denial) => Err(denial.error()),
        }
    }

    fn target(&self, path: &str) -> io::Result<String> {
        match self.asked("readlink", path, fs::read_link(self.rt, path)) {
            Ok(target) => Ok(target.into_string()),
            Err(denial) => Err(denial.error()),
        }
    }

    fn working_folder(&self) -> io::Result<String> {
        let folder = env::current_dir(self.rt)?;
        match folder.as_str().strip_prefix('/') {
            Some(names) => Ok(String::from_str(self.alloc(), names)?),
            None => Err(io::Error::from(ErrorKind::NotFound)),
        }
    }

    fn is_superuser(&self) -> bool {
        libc::geteuid() == 0
    }
}
