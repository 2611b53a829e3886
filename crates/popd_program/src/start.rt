//! Doing what the command line asks for, from its words to the exit status.
ghost use Rattle.std.specs.{
  Prelude.{◌≡◌, ◌≢◌, ◌≤◌, ◌⊎◌, true, false, Err, IfErr, IfOk, MatchResult, map},
  String.string_bytes,
};
ghost use Rattle.clap.specs.Values.{kind_of};
ghost use Rattle.command_line.specs.Rules.{is_asked_text};
ghost use Rattle.popd_program.specs.{
  Failures.{IsCause, has_right_count, status_of_serving},
  Starting.{EndsWith, IsServed},
};

use crate::account::{check_maildir, read_account};
use crate::failure::{Failure, end, failure_of, tell_reason};
use crate::rehearsal::rehearsal_server;
use crate::serving::{listen, serve_maildir, serve_streams};
use crate::telling::{Peer, Telling};
use crate::warning::warn_of;
use crate::words::{Words, command, read_words};
use clap::Error;
use clap::error::ErrorKind;
use command_line::show;
use pop3_server::ServerFault;
use std::env;
use std::io::{IsTerminal, Read, Stderr, Write};
use std::net::{IpAddr, Net, SocketAddr, TcpListener, TcpStream};
use std::random::RandomSource;
use std::rt::{Clock, Env, Files};
use system_calls::{Refusals, System};

/// The words of the command line, the program's name first. If they can't be read, for example because
/// one isn't UTF-8, the failure is that of a wrong number of words.
pub fn arguments<R: Env + AllocGlobal>(rt: &R) -> Result<Vec<String>, Failure<'static>>
    ensures { IfErr result (λ f. (f ≡ Failure.WrongCount) ⊎ (f ≡ Failure.Fault ServerFault.NoMemory)) }
{
    match env::args(rt) {
        Ok(words) => Ok(words.collect(rt.alloc())?),
        Err(error) => Err(failure_of(error, Failure::WrongCount)),
    }
}

/// Does what the command line asks for, or returns the first of these failures: a wrong number of
/// words, a password file that can't be read, an address that can't be listened on, a Maildir that the superuser is
/// refused, a fault of the link. With an address to listen on, a fault of one connection isn't a failure of the run.
/// Without one, the streams are served: standard input and output.
fn run<'a, R, I, O>(
    system: &System<'_, R>,
    words: &'a Words,
    tells_reasons: bool,
    peer: Peer,
    streams: (I, O),
) -> Result<(), Failure<'a>>
where
    R: Net<Listener = TcpListener, Stream = TcpStream> + Files + Env + Clock,
    R: RandomSource + AllocGlobal + Eprint + Copy + Drop,
    I: Read + Drop,
    O: Write + Drop,
    ensures { MatchResult result (λ _. has_right_count words.now ≡ true) (IsCause words.now) }
{
    let telling = Telling {
        rt: system.rt,
        verbose: words.verbose,
        peer,
    };
    if words.rehearse {
        if !words.is_bare() {
            return Err(Failure::WrongCount);
        }
        let mut server = rehearsal_server(system.alloc())?;
        return Ok(serve_streams(system, &mut server, telling, streams)?);
    }
    let account = read_account(system.alloc(), system, words)?;
    let passfile = words.passfile.as_deref().unwrap_or("");
    warn_of(system, &account, passfile)?;
    let maildir = account.open_maildir(system)?;
    match &words.listen {
        Some(address) => {
            listen(
                system,
                address.as_str(),
                words,
                &account,
                tells_reasons,
                maildir,
            )?;
            Ok(())
        }
        None => {
            check_maildir(system.alloc(), system, &account)?;
            Ok(serve_maildir(system, account, telling, streams, maildir).served?)
        }
    }
}

/// Shows why there are no words, and returns the exit status: 0 for help or the version that was written,
/// 1 for one that wasn't or if memory ran out, 2 for a mistake.
fn explain<R: Print + Eprint>(rt: &R, error: &Error) -> u8
    ensures memory { kind_of error.now ≡ ErrorKind.OutOfMemory → result ≡ 1 }
    ensures text { is_asked_text (kind_of error.now) ≡ true → result ≤ 1 }
    ensures mistake { kind_of error.now ≢ ErrorKind.OutOfMemory
        → is_asked_text (kind_of error.now) ≡ false → result ≡ 2 }
    ensures within { result ≤ 2 }
{
    match show(rt, "popd", error) {
        Some(status) => status,
        None => end(rt, &Err(Failure::Fault(ServerFault::NoMemory))),
    }
}

/// Writes the usage to standard error.
fn show_usage<R: Eprint + AllocGlobal>(rt: &R) {
    if let Ok(mut command) = command(rt.alloc()) {
        if let Ok(usage) = command.render_usage() {
            let _ = rt.eprintln(usage);
        }
    }
}

/// The client at standard input: its address, if what started the program gives that, as systemd does.
fn peer_of<R: Env + AllocGlobal>(rt: &R) -> Peer {
    let (Ok(address), Ok(port)) = (env::var(rt, "REMOTE_ADDR"), env::var(rt, "REMOTE_PORT")) else {
        return Peer::StandardInput;
    };
    match (
        address.as_str().parse::<IpAddr>(),
        port.as_str().parse::<u16>(),
    ) {
        (Ok(address), Ok(port)) => Peer::Address(SocketAddr::new(address, port)),
        _ => Peer::StandardInput,
    }
}

/// Does what the command line asks for, and returns the exit status. The reason of a failure follows its
/// line with `--verbose` and on a terminal.
fn obey_words<R, I, O>(rt: &R, words: &Words, streams: (I, O), err: Stderr) -> u8
where
    R: Net<Listener = TcpListener, Stream = TcpStream> + Files + Env + Clock,
    R: RandomSource + AllocGlobal + Eprint + Copy + Drop,
    I: Read + Drop,
    O: Write + Drop,
    ensures within { result ≤ 2 }
    ensures obeys { IsServed words.now result }
{
    let refusals = Refusals::new(rt.alloc(), if words.trace { Some(err) } else { None });
    let tells_reasons = words.verbose || err.is_terminal();
    let outcome = run(
        &System::new(rt, &refusals),
        words,
        tells_reasons,
        peer_of(rt),
        streams,
    );
    let status = end(rt, &outcome);
    if tells_reasons {
        tell_reason(rt, &outcome, &refusals);
    }
    status
}

/// Does what a command line asks for, and returns the exit status. If it is empty, the usage is shown too. The
/// streams are standard input and output; a trace goes to `err`.
pub fn obey_command_line<R, I, O>(
    rt: &R,
    arguments: Result<Vec<String>, Failure<'_>>,
    streams: (I, O),
    err: Stderr,
) -> u8
where
    R: Net<Listener = TcpListener, Stream = TcpStream> + Files + Env + Clock,
    R: RandomSource + AllocGlobal + Print + Eprint + Copy + Drop,
    I: Read + Drop,
    O: Write + Drop,
    ensures within { result ≤ 2 }
    ensures leads { IfOk arguments.entry (λ arguments. EndsWith (map string_bytes arguments.items) result) }
    ensures failed { IfErr arguments.entry (λ failure. result ≡ status_of_serving (Err failure)) }
{
    let arguments = match arguments {
        Ok(arguments) => arguments,
        Err(failure) => return end(rt, &Err(failure)),
    };
    match read_words(rt.alloc(), arguments.as_slice()) {
        Ok(words) => {
            let status = obey_words(rt, &words, streams, err);
            if arguments.len() <= 1 {
                show_usage(rt);
            }
            status
        }
        Err(error) => explain(rt, &error),
    }
}
