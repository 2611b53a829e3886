//! Why a call isn't done, and the line of a call that the system refused.
ghost use Rattle.std.specs.{
  Prelude.{◌≡◌, ◌↔◌, ◌++◌, IfNone, IfOk, IfSome, IsTrue, None, OnOk, Some, codes},
  String.string_bytes,
  IoError.{error_kind, raw_os_error},
};
ghost use Rattle.std.specs.declared.io.ErrorKind.TheVariants.{OutOfMemory};
ghost use Rattle.system_calls.specs.{
  Denials.{IsAbout, IsReason},
  Line.{IsRefusalText, TellsRefusal},
};

use crate::line::{shown, write_line};
use std::alloc::{AllocError, AllocFailed, Global};
use std::io::{self, ErrorKind, Write};

/// What was refused: the file, folder or address, and the reason.
#[derive(Drop)]
pub struct Refusal {
    pub path: String,
    pub error: io::Error,
}

/// Why a call isn't done: what was refused, or that memory ran out.
#[derive(Drop)]
pub struct Denial {
    pub(crate) error: io::Error,
    /// What it is about. None if memory ran out, which is no refusal.
    pub(crate) path: Option<String>,
}

impl Refusal {
    /// The path and the reason, as a trace shows them.
    pub fn text(&self, alloc: Global) -> Result<Vec<u8>, AllocError>
        ensures { IfOk result (λ text. IsRefusalText (string_bytes self.now.path) text.items) }
    {
        let Refusal { path, error } = self;
        let words = format!(in alloc; "{error}")?;
        let reason = reason(words.as_str());
        let text = format!(in alloc; "{path}: {reason}")?;
        shown(alloc, text.as_bytes())
    }
}

impl Denial {
    /// An error about a path.
    pub fn of(alloc: Global, path: &str, error: io::Error) -> Denial
        ensures error { result.error ≡ error }
        ensures path { IsAbout path.now result }
        ensures memory { error_kind error ≡ ErrorKind.OutOfMemory → raw_os_error error ≡ None → result.path ≡ None }
    {
        let path = if is_want_of_memory(&error) {
            None
        } else {
            String::from_str(alloc, path).ok()
        };
        Denial { error, path }
    }

    /// A refusal of what the system would grant, with the reason in words.
    pub fn because(alloc: Global, path: &str, words: &str) -> Denial
        ensures kind { error_kind result.error ≡ ErrorKind.Other }
        ensures path { IsAbout path.now result }
    {
        Denial::of(alloc, path, io::Error::other(words))
    }

    /// What kind of error it is.
    pub fn kind(&self) -> ErrorKind
        ensures { result ≡ error_kind self.now.error }
    {
        self.error.kind()
    }

    /// Whether it has words of its own in place of the system's.
    pub fn is_own(&self) -> bool
        ensures { IsTrue result ↔ (error_kind self.now.error ≡ ErrorKind.Other)
            × (raw_os_error self.now.error ≡ None) }
    {
        self.error.kind() == ErrorKind::Other && self.error.raw_os_error().is_none()
    }

    /// The error.
    pub fn error(&self) -> io::Error
        ensures { result ≡ self.now.error }
    {
        self.error
    }

    /// What was refused, if that is known.
    pub fn into_refusal(self) -> Option<Refusal>
        ensures some { IfSome result (λ refusal. (refusal.error ≡ self.error)
            × (self.path ≡ Some refusal.path)) }
        ensures none { IfNone result (self.path ≡ None) }
    {
        let Denial { error, path } = self;
        match path {
            Some(path) => Some(Refusal { path, error }),
            None => None,
        }
    }
}

impl From<AllocError> for Denial {
    ghost from_gives = { λ _ denial. (denial.path ≡ None) × (error_kind denial.error ≡ OutOfMemory) };

    fn from(_error: AllocError) -> Denial {
        Denial {
            error: io::Error::from(ErrorKind::OutOfMemory),
            path: None,
        }
    }
}

impl<T: Drop> From<AllocFailed<T>> for Denial {
    ghost from_gives = { λ _ denial. (denial.path ≡ None) × (error_kind denial.error ≡ OutOfMemory) };

    fn from(_error: AllocFailed<T>) -> Denial {
        Denial::from(AllocError)
    }
}

/// Whether memory ran out in this process: the system didn't refuse anything.
pub(crate) fn is_want_of_memory(error: &io::Error) -> bool
    ensures { IsTrue result ↔ (error_kind error.now ≡ ErrorKind.OutOfMemory) × (raw_os_error error.now ≡ None) }
{
    error.kind() == ErrorKind::OutOfMemory && error.raw_os_error().is_none()
}

/// The text about a refused call: its name, what it was asked for, and the reason.
pub fn refusal_text(
    alloc: Global,
    call: &str,
    path: &str,
    reason: &str,
) -> Result<String, AllocError>
    ensures { IfOk result (λ text. string_bytes text
        ≡ call.now ++ (codes " " ++ (path.now ++ (codes ": " ++ reason.now)))) }
{
    format!(in alloc; "{call} {path}: {reason}")
}

/// The system's words in the text of an error, without its number.
fn reason(text: &str) -> &str
    ensures { IsReason text.now result.now }
{
    match text.rsplit_once(" (os error ") {
        Some((reason, _)) => reason,
        None => text,
    }
}

/// Writes the line of a refused call: `trace: `, then the call's name, what it was asked for, and the
/// reason.
pub(crate) fn tell_refusal<E: Write>(
    alloc: Global,
    err: &mut E,
    call: &str,
    path: &str,
    error: &io::Error,
) -> io::Result<()>
    ensures { OnOk result (TellsRefusal E.contents err.old err.new call.now path.now) }
{
    let words = format!(in alloc; "{error}")?;
    let text = refusal_text(alloc, call, path, reason(words.as_str()))?;
    write_line(alloc, err, "trace: ", text.as_bytes())
}
