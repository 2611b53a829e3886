//! What is refused to a device or a connection.
ghost use Rattle.std.specs.{
  IoError.error_kind,
  Prelude.{◌≡◌, Err, IfErr, IfOk, IsErrAnd, Ok},
};
ghost use Rattle.system_calls.specs.Denials.{IsAbout};

use crate::refusal::{Denial, Refusal, is_want_of_memory, tell_refusal};
use std::alloc::Global;
use std::cell::Cell;
use std::io::{self, ErrorKind, Stderr};

/// Where the calls that the system refuses are shown, if they are: a line for each, at once: `trace: `, the name of the
/// call, the path, and the system's reason. A line that can't be written changes nothing.
#[derive(Clone, Copy)]
pub struct CallTrace {
    pub(crate) alloc: Global,
    lines: Option<Stderr>,
}

/// What was refused last to one device or connection, until it is asked for; none if memory ran out.
#[derive(Drop)]
pub struct Refusals {
    pub(crate) trace: CallTrace,
    last: Cell<Option<Refusal>>,
}

impl CallTrace {
    /// Shows a call that the system refused.
    pub(crate) fn show(&self, call: &str, path: &str, error: &io::Error) {
        if let (Some(mut lines), false) = (self.lines, is_want_of_memory(error)) {
            let _ = tell_refusal(self.alloc, &mut lines, call, path, error);
        }
    }

    /// The answer of a call of the system, which is shown if it is a refusal.
    pub(crate) fn asked<T>(
        &self,
        call: &str,
        path: &str,
        answer: io::Result<T>,
    ) -> Result<T, Denial>
        ensures done { IfOk result (λ value. answer ≡ Ok value) }
        ensures denied { IfErr result (λ denial. (answer ≡ Err denial.error) × IsAbout path.now denial) }
    {
        match answer {
            Ok(value) => Ok(value),
            Err(error) => {
                self.show(call, path, &error);
                Err(Denial::of(self.alloc, path, error))
            }
        }
    }
}

impl Refusals {
    /// Nothing was refused yet.
    pub fn new(alloc: Global, trace: Option<Stderr>) -> Refusals
        ensures { result.trace.lines ≡ trace }
    {
        Refusals {
            trace: CallTrace {
                alloc,
                lines: trace,
            },
            last: Cell::new(None),
        }
    }

    /// What gets the lines of the trace, if there is one.
    pub fn trace(&self) -> Option<Stderr>
        ensures { result ≡ self.now.trace.lines }
    {
        self.trace.lines
    }

    /// The answer of a call of the system, which is shown if it is a refusal.
    pub fn asked<T>(&self, call: &str, path: &str, answer: io::Result<T>) -> Result<T, Denial>
        ensures done { IfOk result (λ value. answer ≡ Ok value) }
        ensures denied { IfErr result (λ denial. (answer ≡ Err denial.error) × IsAbout path.now denial) }
    {
        self.trace.asked(call, path, answer)
    }

    /// The answer of a device's call. Why it was refused is kept.
    pub fn kept<T>(&self, answer: Result<T, Denial>) -> io::Result<T>
        ensures done { IfOk result (λ value. answer ≡ Ok value) }
        ensures denied { IfErr result (λ error. IsErrAnd answer (λ denial. denial.error ≡ error)) }
    {
        match answer {
            Ok(value) => Ok(value),
            Err(denial) => {
                let error = denial.error();
                self.last.set(denial.into_refusal());
                Err(error)
            }
        }
    }

    /// The answer of a call of the system that is the device's own: shown and kept, if it is a refusal.
    pub fn noted<T>(&self, call: &str, path: &str, answer: io::Result<T>) -> io::Result<T>
        ensures { result ≡ answer }
    {
        if let Err(error) = &answer {
            let _ = self.kept(self.asked(call, path, Err::<(), io::Error>(*error)));
        }
        answer
    }

    /// An error for something that the system would grant, with the reason in words. It is kept.
    pub fn refuse(&self, path: &str, words: &str) -> io::Error
        ensures { error_kind result ≡ ErrorKind.Other }
    {
        let denial = Denial::because(self.trace.alloc, path, words);
        let error = denial.error();
        self.last.set(denial.into_refusal());
        error
    }

    /// The error of what was refused last, which stays. If it isn't known, memory ran out.
    pub fn error(&self) -> io::Error {
        let last = self.last.take();
        let error = match &last {
            Some(refusal) => refusal.error,
            None => io::Error::from(ErrorKind::OutOfMemory),
        };
        self.last.set(last);
        error
    }

    /// What was refused last. It is taken out.
    pub fn take(&self) -> Option<Refusal> {
        self.last.take()
    }
}
