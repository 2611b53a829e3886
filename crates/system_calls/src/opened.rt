//! An open file or folder, with its path.
ghost use Rattle.std.specs.Prelude.{◌≡◌, Err, IfErr, IfOk, Ok, string_bytes};
ghost use Rattle.system_calls.specs.Denials.{IsAbout};

use crate::refusal::Denial;
use crate::refusals::CallTrace;
use std::io;

/// An open file or folder, by which path it was opened, and where its refused calls are shown.
#[derive(Drop)]
pub struct OpenAt<S> {
    pub inner: S,
    pub path: String,
    pub(crate) trace: CallTrace,
}

impl<S> OpenAt<S> {
    /// The answer of a call of this, which is shown if it is a refusal.
    pub fn asked<T>(&self, call: &str, answer: io::Result<T>) -> Result<T, Denial>
        ensures done { IfOk result (λ value. answer ≡ Ok value) }
        ensures denied { IfErr result (λ denial. (answer ≡ Err denial.error)
            × IsAbout (string_bytes self.now.path) denial) }
    {
        self.trace.asked(call, self.path.as_str(), answer)
    }

    /// An error about this, with its path.
    pub fn denied(&self, error: io::Error) -> Denial
        ensures error { result.error ≡ error }
        ensures path { IsAbout (string_bytes self.now.path) result }
    {
        Denial::of(self.trace.alloc, self.path.as_str(), error)
    }
}
