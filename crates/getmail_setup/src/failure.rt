//! Why a run ends before its session: the line on standard error, and the exit status.
ghost use Rattle.std.specs.{Prelude.{◌≡◌, ◌≢◌, ◌⊎◌, ◌≤◌, ℕ, List, true, false}, IoError.error_kind};
ghost use Rattle.clap.specs.Values.{kind_of};
ghost use Rattle.command_line.specs.Rules.{is_asked_text};
ghost use Rattle.getmail_setup.specs.{
  Failures.{IsFailureLine, IsRcLine, line_with, other_list_line, status_of, unconnected_line},
  Output.Puts,
  Places.peer_name,
};

use crate::connection::is_socket;
use crate::output::Output;
use clap::Error;
use command_line::show;
use fetch_rules::{RcFault, rc_text};
use std::alloc::{AllocError, AllocFailed, Global};
use std::io::{self, ErrorKind, Write};

/// The line of want of memory, which needs none.
pub const OUT_OF_MEMORY: &str = "getmail: out of memory\n";

/// Why a run ends before its session.
#[derive(Clone, Copy)]
pub enum Failure<'a> {
    /// HOME is needed, and isn't set or isn't UTF-8.
    NoHome,
    /// The rc file can't be read.
    CannotRead,
    /// The rc file or the flags are wrong.
    Rc(RcFault),
    /// This file lists what getmail6 fetched, and there is no record at this path.
    OtherList(&'a str, &'a str),
    /// Another run of the account is at work.
    AtWork,
    /// No address of this server takes a connection to this port.
    CannotConnect(&'a str, u16),
    /// Out of memory before there was a connection.
    NoMemory,
}

impl<'a> From<AllocError> for Failure<'a> {
    ghost use Rattle.std.specs.Prelude.{◌≡◌};
    ghost use Rattle.getmail_setup.specs.declared.failure.Failure.TheVariants.{NoMemory};

    ghost from_gives = { λ _ failure. failure ≡ NoMemory };

    fn from(_error: AllocError) -> Failure<'a> {
        Failure::NoMemory
    }
}

impl<'a, T: Drop> From<AllocFailed<T>> for Failure<'a> {
    ghost use Rattle.std.specs.Prelude.{◌≡◌};
    ghost use Rattle.getmail_setup.specs.declared.failure.Failure.TheVariants.{NoMemory};

    ghost from_gives = { λ _ failure. failure ≡ NoMemory };

    fn from(_error: AllocFailed<T>) -> Failure<'a> {
        Failure::NoMemory
    }
}

impl<'a> From<RcFault> for Failure<'a> {
    ghost use Rattle.std.specs.Prelude.{◌≡◌};
    ghost use Rattle.getmail_setup.specs.declared.failure.Failure.TheVariants.{Rc};

    ghost from_gives = { λ fault failure. failure ≡ Rc fault };

    fn from(fault: RcFault) -> Failure<'a> {
        Failure::Rc(fault)
    }
}

/// The failure for an error of the system: `failure`, unless memory ran out.
pub fn failure_of<'a>(error: io::Error, failure: Failure<'a>) -> Failure<'a>
    ensures memory { error_kind error ≡ ErrorKind.OutOfMemory → result ≡ Failure.NoMemory }
    ensures other { error_kind error ≢ ErrorKind.OutOfMemory → result ≡ failure.entry }
    ensures either { (result ≡ Failure.NoMemory) ⊎ (result ≡ failure.entry) }
{
    if error.kind() == ErrorKind::OutOfMemory {
        Failure::NoMemory
    } else {
        failure
    }
}

/// Writes a text as a line.
fn put_text<E: Write>(text: &str, err: &mut Output<E>)
    ensures { Puts E.contents err.old (line_with text.now) err.new }
{
    err.put(b"getmail: ");
    err.put(text.as_bytes());
    err.put(b"\n");
}

/// Writes the line of an rc file's fault.
fn tell_rc_fault<E: Write>(alloc: Global, fault: &RcFault, err: &mut Output<E>)
    ensures { (line : List ℕ) × IsRcLine fault.now line × Puts E.contents err.old line err.new }
{
    match rc_text(alloc, fault) {
        Ok(text) => put_text(text.as_str(), err),
        Err(_) => err.put(OUT_OF_MEMORY.as_bytes()),
    }
}

/// Writes the line of a first run in getmail6's place, which would fetch all mail again.
fn tell_other_list<E: Write>(list: &str, path: &str, err: &mut Output<E>)
    ensures { Puts E.contents err.old (other_list_line list.now path.now) err.new }
{
    err.put(b"getmail: ");
    err.put(list.as_bytes());
    err.put(
        b" lists what getmail6 fetched: make a record of it with from-getmail6.py, or an empty file ",
    );
    err.put(path.as_bytes());
    err.put(b" to fetch all mail\n");
}

/// Writes the name of a peer: a socket's path, or an address with its port.
pub(crate) fn put_peer<E: Write>(server: &str, port: u16, err: &mut Output<E>)
    ensures { Puts E.contents err.old (peer_name server.now port) err.new }
{
    if is_socket(server) {
        err.put(server.as_bytes());
        return;
    }
    err.put(server.as_bytes());
    err.put(b":");
    err.put_number(Some(u32::from(port)));
}

/// Writes the line of a server that takes no connection.
fn tell_unconnected<E: Write>(server: &str, port: u16, err: &mut Output<E>)
    ensures { Puts E.contents err.old (unconnected_line server.now port) err.new }
{
    err.put(b"getmail: cannot connect to ");
    put_peer(server, port, err);
    err.put(b"\n");
}

/// Writes a failure's line.
fn put_line<E: Write>(alloc: Global, failure: Failure<'_>, err: &mut Output<E>)
    ensures { (line : List ℕ) × IsFailureLine failure.entry line × Puts E.contents err.old line err.new }
{
    match failure {
        Failure::NoHome => err.put(b"getmail: HOME is not set\n"),
        Failure::CannotRead => err.put(b"getmail: cannot read rc file\n"),
        Failure::Rc(fault) => tell_rc_fault(alloc, &fault, err),
        Failure::OtherList(list, record) => tell_other_list(list, record, err),
        Failure::AtWork => err.put(b"getmail: another getmail is at work for this account\n"),
        Failure::CannotConnect(server, port) => tell_unconnected(server, port, err),
        Failure::NoMemory => err.put(OUT_OF_MEMORY.as_bytes()),
    }
}

/// Writes a failure's line and returns the exit status: 1 if another run is at work or there was no
/// connection, 2 for all that is found before. A line that can't be written changes nothing.
pub fn tell<E: Write>(alloc: Global, failure: Failure<'_>, err: &mut Output<E>) -> u8
    ensures status { result ≡ status_of failure.entry }
    ensures within { result ≤ 2 }
    ensures line { (line : List ℕ) × IsFailureLine failure.entry line × Puts E.contents err.old line err.new }
{
    put_line(alloc, failure, err);
    match failure {
        Failure::AtWork | Failure::CannotConnect(_, _) => 1,
        _ => 2,
    }
}

/// Shows why there are no words, and returns the exit status: 0 for help or the version that was written,
/// 1 for one that wasn't, 2 for a mistake or if memory ran out.
pub fn explain<R: Print + Eprint + AllocGlobal, E: Write>(
    rt: &R,
    error: &Error,
    err: &mut Output<E>,
) -> u8
    ensures text { is_asked_text (kind_of error.now) ≡ true → result ≤ 1 }
    ensures other { is_asked_text (kind_of error.now) ≡ false → result ≡ 2 }
    ensures within { result ≤ 2 }
{
    match show(rt, "getmail", error) {
        Some(status) => status,
        None => tell(rt.alloc(), Failure::NoMemory, err),
    }
}
