//! A writer that remembers whether it refused something.
ghost use Rattle.std.specs.{Prelude.{◌≡◌, ◌≢◌, None, Some, OnOk}, Io.KnownBytes.Appends, IoError.error_kind};
ghost use Rattle.getmail_setup.specs.Output.{Puts, PutsRest, WritesFront, number_text};

use itoa::Buffer;
use std::io::{self, ErrorKind, Write};

/// Why something wasn't written.
#[derive(Clone, Copy)]
pub enum OutputRefusal {
    /// There was no memory for it.
    NoMemory,
    /// The system refused it.
    Refused,
}

/// A writer that remembers that something wasn't written, and why.
#[derive(Clone, Copy, Drop)]
pub struct Output<W> {
    writer: W,
    refusal: Option<OutputRefusal>,
}

/// Why an error of the system kept something from being written.
pub fn refusal_of(error: &io::Error) -> OutputRefusal
    ensures memory { error_kind error.now ≡ ErrorKind.OutOfMemory → result ≡ OutputRefusal.NoMemory }
    ensures other { error_kind error.now ≢ ErrorKind.OutOfMemory → result ≡ OutputRefusal.Refused }
{
    if error.kind() == ErrorKind::OutOfMemory {
        OutputRefusal::NoMemory
    } else {
        OutputRefusal::Refused
    }
}

/// Writes these octets, and flushes the writer. At an error a front of them may be written, and
/// nothing else: `write_all` of std says nothing of what was written then.
pub(crate) fn write_octets<W: Write>(writer: &mut W, octets: &[u8]) -> io::Result<()>
    ensures wrote { OnOk result (Appends (W.contents writer.old) (W.contents writer.new) octets.now) }
    ensures front { WritesFront (W.contents writer.old) (W.contents writer.new) octets.now }
{
    let mut rest = octets;
    for _ in 0..u64::MAX {
        if rest.is_empty() {
            return writer.flush();
        }
        match writer.write(rest) {
            Ok(0) => return Err(io::Error::from(ErrorKind::WriteZero)),
            Ok(taken) => rest = &rest[taken..],
            Err(error) if error.kind() == ErrorKind::Interrupted => {}
            Err(error) => return Err(error),
        }
    }
    Err(io::Error::from(ErrorKind::Interrupted))
}

impl<W: Write> Output<W> {
    /// A writer that refused nothing yet.
    pub fn new(writer: W) -> Output<W>
        ensures { result ≡ record { writer = writer; refusal = None } }
    {
        Output {
            writer,
            refusal: None,
        }
    }

    /// A copy of the writer.
    pub fn writer(&self) -> W
    where
        W: Copy,
        ensures { result ≡ self.now.writer }
    {
        self.writer
    }

    /// Why something wasn't written, if so.
    pub fn refusal(&self) -> Option<OutputRefusal>
        ensures { result ≡ self.now.refusal }
    {
        self.refusal
    }

    /// Writes these octets, unless something was refused before: no text is to have a gap.
    pub fn put(&mut self, octets: &[u8])
        ensures { Puts W.contents self.old octets.now self.new }
    {
        if self.refusal.is_some() {
            return;
        }
        if let Err(error) = write_octets(&mut self.writer, octets) {
            self.refusal = Some(refusal_of(&error));
        }
    }

    /// Writes a number, if there is one.
    pub fn put_number(&mut self, number: Option<u32>)
        ensures { Puts W.contents self.old (number_text number) self.new }
    {
        match number {
            Some(number) => self.put(Buffer::new().format(number).as_bytes()),
            None => self.put(b""),
        }
    }

    /// Remembers that there was no memory for something.
    pub fn lack_memory(&mut self)
        ensures { self.new ≡ record { writer = self.old.writer; refusal = Some OutputRefusal.NoMemory } }
    {
        self.refusal = Some(OutputRefusal::NoMemory);
    }

    /// Writes the rest of a text after what was written of it. A text that begins otherwise is refused, and
    /// after a refusal nothing is written.
    pub fn put_rest(&mut self, written: &[u8], text: &[u8])
        ensures { (start : Output W) → Puts W.contents start written.now self.old
            → PutsRest W.contents start written.now text.now self.new }
    {
        match text.strip_prefix(written) {
            Some(rest) => self.put(rest),
            None => self.refusal = Some(OutputRefusal::Refused),
        }
    }
}
