//! The commands that a rehearsal shows.
ghost use Rattle.std.specs.{
  Prelude.{◌≡◌, ◌≢◌, ◌++◌, ℕ, List, IfOk, MatchOption, OnOk, length},
  Io.KnownBytes.Appends,
};
ghost use Rattle.getmail_program.specs.Rehearsal.{IsCommandIn, shown_line, shown_of};

use std::io;
use std::io::Write;

/// A writer that shows each command that is written to it on a line of its own, after `C: `. The
/// argument of PASS is shown as `*`. Each command has to come in one write.
#[derive(Drop)]
pub struct Transcript<W> {
    writer: W,
}

/// A command as it is shown: PASS without its argument.
fn shown(command: &[u8]) -> &[u8]
    ensures { result.now ≡ shown_of command.now }
{
    if command.starts_with(b"PASS ") {
        return b"PASS *";
    }
    command
}

/// What is before an end, if octets end with it.
fn before<'a>(octets: &'a [u8], end: &[u8]) -> Option<&'a [u8]>
    ensures { MatchOption result ((front : List ℕ) → octets.now ≢ front ++ end.now)
        (λ front. octets.now ≡ front.now ++ end.now) }
{
    octets.strip_suffix(end)
}

/// The command that a line has; all octets if they don't end as a line does.
fn command_in(line: &[u8]) -> &[u8]
    ensures { IsCommandIn line.now result.now }
{
    match before(line, b"\r\n") {
        Some(command) => command,
        None => line,
    }
}

/// Writes a command's line as it is shown.
fn show<W: Write>(writer: &mut W, command: &[u8]) -> io::Result<()>
    ensures { OnOk result (Appends (W.contents writer.old) (W.contents writer.new) (shown_line command.now)) }
{
    writer.write_all(b"C: ")?;
    writer.write_all(shown(command))?;
    writer.write_all(b"\n")?;
    Ok(())
}

/// Shows the command that a line has, and returns the length of the line.
fn show_line<W: Write>(writer: &mut W, line: &[u8]) -> io::Result<usize>
    ensures count { IfOk result (λ count. count ≡ length line.now) }
    ensures shows { OnOk result ((command : List ℕ) × IsCommandIn line.now command
        × Appends (W.contents writer.old) (W.contents writer.new) (shown_line command)) }
{
    show(writer, command_in(line))?;
    Ok(line.len())
}

impl<W: Write> Transcript<W> {
    /// Shows commands on a writer.
    pub fn new(writer: W) -> Transcript<W>
        ensures { result.writer ≡ writer }
    {
        Transcript { writer }
    }

    /// Gives back the writer.
    pub fn into_inner(self) -> W
        ensures { result ≡ self.writer }
    {
        let Transcript { writer } = self;
        writer
    }
}

impl<W: Write> Write for Transcript<W> {
    fn write(&mut self, buf: &[u8]) -> io::Result<usize> {
        show_line(&mut self.writer, buf)
    }

    fn flush(&mut self) -> io::Result<()> {
        self.writer.flush()
    }
}
