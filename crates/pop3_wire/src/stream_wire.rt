//! A link over a reader and a writer: the two ends of a socket, or the standard streams.
ghost use Rattle.std.specs.{Prelude.{◌≡◌, ◌≤◌, ◌<◌, length, IfOk, OnOk}, Io.KnownBytes.{Appends, Keeps, ReadConsumes}};
ghost use Rattle.pop3_wire.specs.Link.{uncharted, CountsFailure};

use crate::wire::{Wire, WireDown};
use mail_terms::FailureCount;
use std::io::{self, ErrorKind, Read, Write};

/// A link over a reader and a writer. Contracts know nothing of the octets that these take and give,
/// so its premise never holds: tests show what crosses it.
#[derive(Drop)]
pub struct StreamWire<R, W> {
    reader: R,
    writer: W,
    failures: FailureCount,
}

impl<R: Read, W: Write> StreamWire<R, W> {
    /// A link that reads from the reader and writes to the writer. Its failure count is 0.
    pub fn new(reader: R, writer: W) -> StreamWire<R, W>
        ensures { result ≡ record { reader = reader; writer = writer; failures = 0 } }
    {
        StreamWire {
            reader,
            writer,
            failures: FailureCount::new(),
        }
    }

    /// The reader and the writer, given back.
    pub fn into_parts(self) -> (R, W)
        ensures { result ≡ (self.reader, self.writer) }
    {
        let StreamWire {
            reader,
            writer,
            failures: _,
        } = self;
        (reader, writer)
    }
}

/// Writes all of the bytes, and flushes the writer; the error is the writer's.
fn write_whole<W: Write>(writer: &mut W, bytes: &[u8]) -> io::Result<()>
    ensures { OnOk result (Appends (W.contents writer.old) (W.contents writer.new) bytes.now) }
{
    writer.write_all(bytes)?;
    writer.flush()
}

/// Reads once, and tries again if that is interrupted: when a stopped process goes on, the system
/// interrupts a read that has a time limit.
fn read_once<R: Read>(reader: &mut R, buf: &mut [u8]) -> io::Result<usize>
    ensures within { IfOk result (λ n. n ≤ length buf.new) }
    ensures took { ReadConsumes (R.remaining reader.old) (R.remaining reader.new) result buf.new }
{
    for _ in 0..u64::MAX {
        match reader.read(buf) {
            Err(error) if error.kind() == ErrorKind::Interrupted => {}
            answer => return answer,
        }
    }
    Err(io::Error::from(ErrorKind::Interrupted))
}

impl<R: Read, W: Write> Wire for StreamWire<R, W> {
    ghost history = { λ w. uncharted w.failures };

    ghost sound = { λ _. ⊥ };

    ghost leads_to = { λ _ _. Unit {0} };

    fn send(&mut self, bytes: &[u8]) -> Result<(), WireDown>
        ensures counted { CountsFailure (uncharted self.old.failures) result (uncharted self.new.failures) }
        // If the writer's bytes are known, a call that succeeds wrote these bytes.
        ensures wrote { OnOk result (Appends (W.contents self.old.writer) (W.contents self.new.writer) bytes.now) }
        ensures same { self.new.reader ≡ self.old.reader }
    {
        if self.failures.is_full() {
            return Err(WireDown);
        }
        if write_whole(&mut self.writer, bytes).is_err() {
            self.failures.count_up();
            return Err(WireDown);
        }
        Ok(())
    }

    fn recv(&mut self, buf: &mut [u8]) -> Result<usize, WireDown>
        requires { 0 < length buf.old }
        ensures within { IfOk result (λ n. n ≤ length buf.new) }
        ensures counted { CountsFailure (uncharted self.old.failures) result (uncharted self.new.failures) }
        // If the reader's bytes are known, a call that succeeds took what it put into the buffer, and 0
        // says that none are left.
        ensures took { OnOk result
            (ReadConsumes (R.remaining self.old.reader) (R.remaining self.new.reader) result buf.new) }
        ensures same { self.new.writer ≡ self.old.writer }
    {
        if self.failures.is_full() {
            return Err(WireDown);
        }
        let Ok(n) = read_once(&mut self.reader, buf) else {
            self.failures.count_up();
            return Err(WireDown);
        };
        Ok(n)
    }

    fn failures(&self) -> u64 {
        self.failures.count()
    }

    ghost leads_same = { λ _. tt };

    ghost leads_on = { λ _ _ _ _ _. tt };
}
