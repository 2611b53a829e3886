//! How long a client may keep the server waiting (RFC 1939, section 3, asks for at least ten minutes
//! after the login).
ghost use Rattle.std.specs.{
  Duration.as_nanos,
  Io.KnownBytes.WriteAppends,
  Prelude.{◌≡◌, ◌≢◌, ◌≤◌, ◌+◌, ◌*◌, length, min, false, true, IfOk, IfSome, None},
};
ghost use Rattle.popd_program.specs.Waiting.{IsNext};

use pop3_server::{Event, Journal};
use std::cell::Cell;
use std::io::{self, ErrorKind, Read, Write};
use std::net::TcpStream;
use std::os::unix::fs::FileTypeExt;
use std::rt::{Clock, Files};
use std::time::{Duration, Instant};
use std::{fs, thread};

/// How long a client that is logged in may send nothing, or take nothing of an answer.
const IDLE_SECONDS: u64 = 600;

/// How long one try to write waits. A long one would end only after all of its time if the client took
/// a part at its start, and the next one would wait anew.
const TRY_SECONDS: u64 = 10;

/// How often a write is tried while the client takes nothing.
const MOST_TRIES: u64 = IDLE_SECONDS / TRY_SECONDS;

/// How long a client has to log in, all reads and writes together, so that a client that sends an
/// octet now and then can't keep the next one out for longer.
const LOGIN_SECONDS: u64 = 60;

/// How long the answer to a client's first refused password is held back, and how long any is at most, so that nobody
/// can try many.
const FIRST_PAUSE_SECONDS: u64 = 1;

const MOST_PAUSE_SECONDS: u64 = 8;

/// Where the system tells what standard input is.
const STANDARD_INPUT: &str = "/proc/self/fd/0";

/// How long the answer to the next refused password of a connection is held back: twice as long each time.
#[derive(Clone, Copy)]
pub struct Pause {
    seconds: u64,
}

impl Pause {
    /// That of the first one.
    pub fn first() -> Pause
        ensures { result.seconds ≡ 1 }
    {
        Pause {
            seconds: FIRST_PAUSE_SECONDS,
        }
    }

    /// How long it lasts; the next one lasts longer.
    pub fn take(&mut self) -> Duration
        ensures length { as_nanos result ≡ self.old.seconds * 1_000_000_000 }
        ensures next { IsNext self.old self.new }
    {
        let pause = Duration::from_secs(self.seconds);
        if self.seconds < MOST_PAUSE_SECONDS {
            self.seconds *= 2;
        }
        pause
    }
}

/// A pause that ends with the time to log in, of which so much is left.
fn cut_pause(pause: Duration, left: Duration) -> Duration
    ensures { as_nanos result ≡ min (as_nanos pause) (as_nanos left) }
{
    pause.min(left)
}

/// Whether standard input may be a connection, of which the system says that it is a socket.
pub fn may_be_connection<R: Files>(rt: &R) -> bool {
    match fs::metadata(rt, STANDARD_INPUT) {
        Ok(found) => found.file_type().is_socket(),
        Err(_) => true,
    }
}

/// How much of the time to log in is left after this much has passed, if any.
fn left_after(passed: Duration) -> Option<Duration>
    ensures some { IfSome result (λ left. as_nanos left + as_nanos passed ≡ 60 * 1_000_000_000) }
    ensures none { result ≡ None → 60 * 1_000_000_000 ≤ as_nanos passed }
{
    match Duration::from_secs(LOGIN_SECONDS).checked_sub(passed) {
        Some(left) if !left.is_zero() => Some(left),
        _ => None,
    }
}

/// Writes to a client that is logged in, as soon as it takes something.
fn write_patiently<W: Write>(stream: &mut W, buf: &[u8]) -> io::Result<usize>
    ensures bound { IfOk result (λ count. count ≤ length buf.now) }
    ensures bytes { WriteAppends (W.contents stream.old) (W.contents stream.new) result buf.now }
{
    for _ in 0..MOST_TRIES {
        match stream.write(buf) {
            Err(error) if error.kind() == ErrorKind::WouldBlock => {}
            answer => return answer,
        }
    }
    Err(ErrorKind::TimedOut.into())
}

/// A connection whose reads and writes have a time limit. One that takes longer fails, which ends the
/// connection and removes nothing.
#[derive(Drop)]
pub struct BoundedStream<'a, R> {
    rt: &'a R,
    stream: &'a TcpStream,
    /// When the connection was accepted; none after the login.
    taken: Cell<Option<Instant>>,
}

impl<'a, R: Clock> BoundedStream<'a, R> {
    /// A connection that was just accepted.
    pub fn new(rt: &'a R, stream: &'a TcpStream) -> io::Result<BoundedStream<'a, R>> {
        let now = Instant::now(rt)?;
        Ok(BoundedStream {
            rt,
            stream,
            taken: Cell::new(Some(now)),
        })
    }

    /// How much of the time to log in is left. None after the login.
    fn left(&self) -> io::Result<Option<Duration>> {
        let Some(taken) = self.taken.get() else {
            return Ok(None);
        };
        match left_after(taken.elapsed(self.rt)?) {
            Some(left) => Ok(Some(left)),
            None => Err(ErrorKind::TimedOut.into()),
        }
    }

    /// Waits before the answer to a refused password, no longer than the client has to log in.
    fn hold_back(&self, pause: Duration) {
        if let Ok(Some(left)) = self.left() {
            thread::sleep(self.rt, cut_pause(pause, left));
        }
    }

    /// The client has logged in: limits how long each read and each try to write waits from now on.
    fn end_login(&self) -> io::Result<()> {
        let wait = Duration::from_secs(IDLE_SECONDS);
        self.stream.set_read_timeout(Some(wait))?;
        let each_try = Duration::from_secs(TRY_SECONDS);
        self.stream.set_write_timeout(Some(each_try))?;
        self.taken.set(None);
        Ok(())
    }
}

impl<'a, R: Clock> Read for &BoundedStream<'a, R> {
    fn read(&mut self, buf: &mut [u8]) -> io::Result<usize> {
        if let Some(left) = self.left()? {
            self.stream.set_read_timeout(Some(left))?;
        }
        let mut stream = self.stream;
        stream.read(buf)
    }
}

impl<'a, R: Clock> Write for &BoundedStream<'a, R> {
    fn write(&mut self, buf: &[u8]) -> io::Result<usize> {
        let mut stream = self.stream;
        let Some(left) = self.left()? else {
            return write_patiently(&mut stream, buf);
        };
        stream.set_write_timeout(Some(left))?;
        stream.write(buf)
    }

    fn flush(&mut self) -> io::Result<()> {
        Ok(())
    }
}

/// A journal that passes events on to another one, holds back the answers to refused passwords, and lifts the limit on
/// logging in after the login.
#[derive(Drop)]
pub struct LoginJournal<'a, R, J: Journal + Drop> {
    pub stream: &'a BoundedStream<'a, R>,
    pub journal: &'a mut J,
    pub pause: Pause,
}

impl<'a, R: Clock, J: Journal + Drop> Journal for LoginJournal<'a, R, J> {
    fn note(&mut self, event: Event)
        ensures refused { event ≡ Event.Refused → IsNext self.old.pause self.new.pause }
        ensures other { event ≢ Event.Refused → self.new.pause ≡ self.old.pause }
    {
        if let Event::LoggedIn(_) = event {
            let _ = self.stream.end_login();
        }
        self.journal.note(event);
        let Event::Refused = event else {
            return;
        };
        self.stream.hold_back(self.pause.take());
    }
}

/// A journal that passes events on to another one, and holds back the answers to refused passwords on a connection
/// whose time isn't limited here.
#[derive(Drop)]
pub struct HoldingJournal<'a, R, J: Journal + Drop> {
    pub rt: &'a R,
    pub journal: &'a mut J,
    pub is_connection: bool,
    pub pause: Pause,
}

impl<'a, R: Clock, J: Journal + Drop> Journal for HoldingJournal<'a, R, J> {
    fn note(&mut self, event: Event)
        ensures refused { event ≡ Event.Refused → self.old.is_connection ≡ true
            → IsNext self.old.pause self.new.pause }
        ensures other { event ≢ Event.Refused → self.new.pause ≡ self.old.pause }
        ensures alone { self.old.is_connection ≡ false → self.new.pause ≡ self.old.pause }
    {
        self.journal.note(event);
        let Event::Refused = event else {
            return;
        };
        if !self.is_connection {
            return;
        }
        thread::sleep(self.rt, self.pause.take());
    }
}
