//! The lines of `--verbose` on standard error.
ghost use Rattle.std.specs.{Fmt.WritesOnOk, Prelude.◌≡◌};
ghost use Rattle.popd_program.specs.Texts.{has_line, words_of_end};

use pop3_server::{Event, Journal};
use std::fmt::{self, Display, Formatter, Write};
use std::net::{SocketAddr, TcpListener};

/// The client that is served.
#[derive(Clone, Copy)]
pub enum Peer {
    /// The one at standard input, whose address isn't known.
    StandardInput,
    /// The one that connected from this address.
    Address(SocketAddr),
}

impl Display for Peer {
    ghost use Rattle.std.specs.Prelude.{Some};
    ghost use Rattle.popd_program.specs.Texts.{client_name};

    ghost output = { λ p. Some (client_name p) };

    fn fmt<W: Write>(&self, f: &mut Formatter<W>) -> fmt::Result {
        match self {
            Peer::StandardInput => f.write_str("standard input"),
            Peer::Address(address) => address.fmt(f),
        }
    }
}

/// Writes how many messages were removed at a session's end, and how many weren't.
fn write_end<W: Write>(f: &mut Formatter<W>, removed: usize, refused: u64) -> fmt::Result
    ensures { WritesOnOk W.write_str_gives f.old result (words_of_end removed refused) f.new }
{
    if refused == 0 {
        return write!(f, "{removed} messages removed");
    }
    write!(f, "{removed} messages removed, {refused} not removed")
}

/// An event as its line tells it, after the client's name.
#[derive(Clone, Copy)]
struct Told(Event);

impl Display for Told {
    ghost use Rattle.std.specs.Prelude.{Some};
    ghost use Rattle.popd_program.specs.Texts.{words_of_event};

    ghost output = { λ t. Some (words_of_event t.0) };

    fn fmt<W: Write>(&self, f: &mut Formatter<W>) -> fmt::Result {
        match self.0 {
            Event::LoggedIn(messages) => write!(f, "logged in, {messages} messages"),
            Event::Refused => f.write_str("login refused"),
            Event::Unavailable => f.write_str("maildrop unavailable"),
            Event::Left(removed, refused) => write_end(f, removed, refused),
        }
    }
}

/// Whether an event has a line: with `--verbose` each, but for the end of a session in which nothing was to be removed.
fn has_line(verbose: bool, event: Event) -> bool
    ensures { result ≡ has_line verbose event }
{
    match event {
        Event::Left(removed, refused) => verbose && !(removed == 0 && refused == 0),
        _ => verbose,
    }
}

/// A journal on standard error, if `verbose` asks for it. It shows nothing that a client sent, not even
/// the name that was tried, since people type passwords there by mistake. It allocates nothing, and a
/// line that can't be written changes nothing.
#[derive(Drop)]
pub struct Telling<'a, R> {
    pub rt: &'a R,
    pub verbose: bool,
    pub peer: Peer,
}

impl<'a, R: Eprint> Journal for Telling<'a, R> {
    fn note(&mut self, event: Event) {
        if has_line(self.verbose, event) {
            let (peer, told) = (self.peer, Told(event));
            let _ = self.rt.eprintln(format_args!("popd: {peer}: {told}"));
        }
    }
}

/// Writes on which address and port clients are waited for, as the system has them: the port was chosen by
/// it if 0 was asked for.
pub fn tell_listening<R: Eprint>(rt: &R, listener: &TcpListener) {
    if let Ok(address) = listener.local_addr() {
        let _ = rt.eprintln(format_args!("popd: listening on {address}"));
    }
}
