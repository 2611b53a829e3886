//! Why the superuser doesn't go along a path.
ghost use Rattle.std.specs.Prelude.{◌≡◌, string_bytes};
ghost use Rattle.safe_path.specs.{Check.WhereUnsafe};
ghost use Rattle.safe_path.specs.declared.rule.Flaw.TheVariants.{Unseen};

use crate::owner::name_of;
use crate::rule::Flaw;
use file_reading::ReadFile;
use std::alloc::{AllocError, AllocFailed, Global};
use std::io;
use system_calls::{Refusal, shown};

/// What a program of the superuser doesn't do, and who does it.
const STAYS: &str =
    ", and the superuser's programs stay with the superuser's own folders: run it as that user (";

const NOT_REGULAR: &str = "is no regular file, and the superuser's programs read no other";

const WRITABLE: &str = "may be written by others than the superuser: it has mode";

/// What is wrong on the way along a path.
#[derive(Drop)]
pub struct UnsafePath {
    /// The path of the thing on the way.
    pub path: String,
    pub flaw: Flaw,
}

/// Why a path isn't taken for a safe one.
#[derive(Drop)]
pub enum PathRefused {
    Unsafe(UnsafePath),
    NoMemory,
}

/// What is said of a thing of another user, whose name may be known.
fn other_owner(
    alloc: Global,
    path: &str,
    owner: u32,
    name: Option<&str>,
) -> Result<String, AllocError> {
    match name {
        Some(name) => format!(in alloc;
            "{path} belongs to {name}{STAYS}runuser -u {name} --, User={name} in a unit, docker run --user {owner})"
        ),
        None => format!(in alloc;
            "{path} belongs to user {owner}{STAYS}User={owner} in a unit, docker run --user {owner})"
        ),
    }
}

/// What is said of a thing that others may write.
fn writable(alloc: Global, path: &str, mode: u32) -> Result<String, AllocError> {
    let mode = mode & 0o7777;
    format!(in alloc; "{path} {WRITABLE} {mode:o}: chmod go-w {path} ends that, or another place")
}

/// What is said of one that can't be looked at.
fn unseen(alloc: Global, path: &str, error: io::Error) -> Result<Vec<u8>, AllocError> {
    let path = String::from_str(alloc, path)?;
    let rest = Refusal { path, error }.text(alloc)?;
    [b"cannot look at ".as_slice(), rest.as_slice()].concat(alloc)
}

impl UnsafePath {
    /// What a line says of it: the path, what is wrong there, and what to do. The owner's name is from /etc/passwd.
    pub fn text<S: ReadFile>(&self, alloc: Global, files: &S) -> Result<Vec<u8>, AllocError> {
        let path = self.path.as_str();
        match self.flaw {
            Flaw::OtherOwner(owner) => {
                let name = name_of(alloc, files, owner)?;
                let text = other_owner(alloc, path, owner, name.as_deref())?;
                shown(alloc, text.as_bytes())
            }
            Flaw::NotRegular => {
                let text = format!(in alloc; "{path} {NOT_REGULAR}")?;
                shown(alloc, text.as_bytes())
            }
            Flaw::Writable(mode) => shown(alloc, writable(alloc, path, mode)?.as_bytes()),
            Flaw::Unseen(error) => unseen(alloc, path, error),
        }
    }
}

impl PathRefused {
    /// A thing that couldn't be looked at.
    pub(crate) fn unseen(path: String, error: io::Error) -> PathRefused
        ensures { WhereUnsafe (λ at flaw. (at ≡ string_bytes path) × (flaw ≡ Unseen error)) result }
    {
        PathRefused::Unsafe(UnsafePath {
            path,
            flaw: Flaw::Unseen(error),
        })
    }
}

impl From<AllocError> for PathRefused {
    ghost use Rattle.std.specs.Prelude.{◌≡◌};
    ghost use Rattle.safe_path.specs.declared.refused.PathRefused.TheVariants.{NoMemory};

    ghost from_gives = { λ _ why. why ≡ NoMemory };

    fn from(_error: AllocError) -> PathRefused {
        PathRefused::NoMemory
    }
}

impl<T: Drop> From<AllocFailed<T>> for PathRefused {
    ghost use Rattle.std.specs.Prelude.{◌≡◌};
    ghost use Rattle.safe_path.specs.declared.refused.PathRefused.TheVariants.{NoMemory};

    ghost from_gives = { λ _ why. why ≡ NoMemory };

    fn from(_error: AllocFailed<T>) -> PathRefused {
        PathRefused::NoMemory
    }
}
