//! Why the program serves nothing, or ends early: its line on standard error and its exit status.
ghost use Rattle.std.specs.{Prelude.{◌≡◌, ◌≢◌, ◌⊎◌, ◌≤◌}, IoError.error_kind};
ghost use Rattle.pop3_server.specs.declared.fault.ServerFault.TheVariants.{NoMemory};
ghost use Rattle.popd_program.specs.{
  declared.failure.Failure.TheVariants.Fault,
  Failures.status_of_serving,
  Texts.words_of_fault,
};

use pop3_server::ServerFault;
use std::alloc::AllocError;
use std::fmt::{self, Display, Formatter, Write};
use std::io::{self, ErrorKind};
use std::str;
use system_calls::Refusals;

/// Why the program serves nothing, or ends early.
#[derive(Drop)]
pub enum Failure<'a> {
    /// There are too many or too few words besides the options.
    WrongCount,
    /// The password file of this name can't be read.
    CannotRead(&'a str),
    /// This address can't be listened on.
    CannotListen(&'a str),
    /// The superuser runs it, and others control a part of the way to the Maildir: this is said of it.
    Unsafe(String),
    /// The link failed, or memory ran out.
    Fault(ServerFault),
}

impl<'a> From<ServerFault> for Failure<'a> {
    ghost from_gives = { λ fault f. f ≡ Fault fault };

    fn from(fault: ServerFault) -> Failure<'a> {
        Failure::Fault(fault)
    }
}

impl<'a> From<AllocError> for Failure<'a> {
    ghost from_gives = { λ _ f. f ≡ Fault NoMemory };

    fn from(_error: AllocError) -> Failure<'a> {
        Failure::Fault(ServerFault::NoMemory)
    }
}

/// The failure for an error of the system: `failure`, unless memory ran out.
pub fn failure_of<'a>(error: io::Error, failure: Failure<'a>) -> Failure<'a>
    ensures memory { error_kind error ≡ ErrorKind.OutOfMemory → result ≡ Failure.Fault ServerFault.NoMemory }
    ensures other { error_kind error ≢ ErrorKind.OutOfMemory → result ≡ failure.entry }
    ensures either { (result ≡ Failure.Fault ServerFault.NoMemory) ⊎ (result ≡ failure.entry) }
{
    if error.kind() == ErrorKind::OutOfMemory {
        Failure::Fault(ServerFault::NoMemory)
    } else {
        failure
    }
}

/// What a line says of a fault.
pub fn words_of_fault(fault: ServerFault) -> &'static str
    ensures { result.now ≡ words_of_fault fault }
{
    match fault {
        ServerFault::ReadFailed => "read failed",
        ServerFault::WriteFailed => "write failed",
        ServerFault::MaildropFailed => "maildrop failed",
        ServerFault::NoMemory => "out of memory",
    }
}

impl<'a> Display for Failure<'a> {
    ghost use Rattle.std.specs.Prelude.{Some};
    ghost use Rattle.popd_program.specs.Texts.{words_of_failure};

    ghost output = { λ f. Some (words_of_failure f) };

    fn fmt<W: Write>(&self, f: &mut Formatter<W>) -> fmt::Result {
        match self {
            Failure::WrongCount => f.write_str("wrong number of arguments"),
            Failure::CannotRead(name) => write!(f, "cannot read {name}"),
            Failure::CannotListen(address) => write!(f, "cannot listen on {address}"),
            Failure::Unsafe(text) => f.write_str(text.as_str()),
            Failure::Fault(fault) => f.write_str(words_of_fault(*fault)),
        }
    }
}

/// Writes a failure's line to standard error. It allocates nothing, and a line that can't be written
/// changes nothing.
pub fn tell<R: Eprint>(rt: &R, failure: &Failure<'_>) {
    let _ = rt.eprintln(format_args!("popd: {failure}"));
}

/// Writes why a file couldn't be read or an address couldn't be listened on: the path or the address, and
/// what the system said.
pub fn tell_reason<R: Eprint + AllocGlobal>(
    rt: &R,
    outcome: &Result<(), Failure<'_>>,
    refusals: &Refusals,
) {
    let (Err(Failure::CannotRead(_) | Failure::CannotListen(_)), Some(refusal)) = (
        outcome,
        refusals.take(),
    ) else {
        return;
    };
    let Ok(reason) = refusal.text(rt.alloc()) else {
        return;
    };
    if let Ok(reason) = str::from_utf8(reason.as_slice()) {
        let _ = rt.eprintln(format_args!("popd: {reason}"));
    }
}

/// Writes the failure's line, if there was a failure, and returns the exit status: 0 if there was
/// none, 2 for a wrong number of words, 1 for any other failure.
pub fn end<R: Eprint>(rt: &R, outcome: &Result<(), Failure<'_>>) -> u8
    ensures status { result ≡ status_of_serving outcome.now }
    ensures within { result ≤ 2 }
{
    match outcome {
        Ok(()) => 0,
        Err(failure) => {
            tell(rt, failure);
            match failure {
                Failure::WrongCount => 2,
                _ => 1,
            }
        }
    }
}
