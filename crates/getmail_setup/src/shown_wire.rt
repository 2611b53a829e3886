//! A link that shows progress on a terminal.
ghost use Rattle.std.specs.Prelude.{◌≡◌, IfOk, IsSomeAnd, None, option_map};
ghost use Rattle.getmail_setup.specs.{
  Listed.IsFresh,
  Output.WritesFront,
  Progress.{IsShownOn, ShowsNote, ShowsDue, Wipes, line_over},
};

use crate::listed::Listed;
use crate::output::write_octets;
use crate::progress::Progress;
use pop3_wire::{Note, Wire, WireDown};
use std::alloc::{AllocError, Global};
use std::io::Write;

/// What erases the line, so that another one can begin in its place.
const ERASED: &[u8] = b"\r\x1b[K";

/// A link that passes each call on, and shows on a line of `screen` which message is coming and how
/// much of it has come. The line is rewritten in place. Without a screen nothing is shown. A write
/// that the screen refuses changes nothing.
#[derive(Drop)]
pub struct ShownWire<W, S> {
    wire: W,
    screen: Option<S>,
    alloc: Global,
    progress: Progress,
    is_shown: bool,
    listed: Option<Listed>,
    /// How many octets came since a part of the conversation was noted: of no whole line, if that was a command.
    unread: u64,
}

/// The octets of a line that is written over the last one. The terminal doesn't wrap it: a narrow one shows its front.
fn line_over(alloc: Global, text: &str) -> Result<Vec<u8>, AllocError>
    ensures { IfOk result (λ line. line.items ≡ line_over text.now) }
{
    let text = text.as_bytes();
    let end = b"\x1b[K\x1b[?7h".as_slice();
    [b"\r\x1b[?7l".as_slice(), text, end].concat(alloc)
}

/// Writes a line over the last one, if there is memory for it: in one call, so that a run that is killed leaves the
/// terminal as it was.
fn write_line<S: Write>(alloc: Global, screen: &mut S, text: &str)
    ensures { WritesFront (S.contents screen.old) (S.contents screen.new) (line_over text.now) }
{
    let line = match line_over(alloc, text) {
        Ok(line) => line,
        Err(_) => return,
    };
    let _ = write_octets(screen, line.as_slice());
}

/// Takes note of a part of the conversation, and writes the line if it is due. Returns whether it is.
fn show_note<S: Write>(
    alloc: Global,
    progress: &mut Progress,
    part: Note<'_>,
    screen: &mut S,
) -> bool
    ensures { ShowsNote S.contents progress.old part.entry screen.old progress.new result screen.new }
{
    progress.note(part);
    if !progress.is_due() {
        return false;
    }
    if let Ok(text) = progress.text(alloc) {
        write_line(alloc, screen, text.as_str());
    }
    true
}

impl<W: Wire, S: Write> ShownWire<W, S> {
    /// A link around this one that shows how far the fetch is.
    pub fn new(alloc: Global, wire: W, screen: Option<S>) -> ShownWire<W, S>
        ensures shown { IsShownOn screen wire result }
        ensures listed { result.listed ≡ None }
    {
        ShownWire {
            wire,
            screen,
            alloc,
            progress: Progress::new(alloc),
            is_shown: false,
            listed: None,
            unread: 0,
        }
    }

    /// Keeps the rows of the listing that are about messages over a size limit.
    pub fn keep_listed(&mut self, limit: u64)
        ensures same { self.new ≡ record self.old { listed = self.new.listed } }
        ensures listed { IsSomeAnd self.new.listed (IsFresh limit) }
    {
        self.listed = Some(Listed::new(self.alloc, limit));
    }

    /// How many octets came since a part of the conversation was noted.
    pub fn unread(&self) -> u64
        ensures { result ≡ self.now.unread }
    {
        self.unread
    }

    /// The rows that were kept, if any were to be.
    pub fn listed(&self) -> Option<&Listed>
        ensures { option_map (λ listed. listed.now) result ≡ self.now.listed }
    {
        self.listed.as_ref()
    }

    /// Takes note of a part of the conversation, and shows how far the fetch is, if it is time to.
    fn show(&mut self, part: Note<'_>)
        ensures same { self.new ≡ record self.old {
          screen = self.new.screen;
          progress = self.new.progress;
          is_shown = self.new.is_shown;
        } }
        ensures shows { ShowsDue S.contents self.old.screen self.old part.entry self.new }
    {
        if let Some(screen) = &mut self.screen {
            if show_note(self.alloc, &mut self.progress, part, screen) {
                self.is_shown = true;
            }
        }
    }

    /// Wipes the line, so that something else can be written to the terminal.
    pub fn wipe(&mut self)
        ensures same { self.new ≡ record self.old { screen = self.new.screen; is_shown = self.new.is_shown } }
        ensures wipes { Wipes S.contents self.old.screen self.old.is_shown self.new.screen self.new.is_shown }
    {
        if let Some(screen) = &mut self.screen {
            if self.is_shown {
                let _ = write_octets(screen, ERASED);
                self.is_shown = false;
            }
        }
    }
}

impl<W: Wire, S: Write> Wire for ShownWire<W, S> {
    ghost history = { λ w. W.history w.wire };

    ghost sound = { λ w. W.sound w.wire };

    ghost leads_to = { λ u v. W.leads_to u.wire v.wire };

    fn send(&mut self, bytes: &[u8]) -> Result<(), WireDown> {
        self.wire.send(bytes)
    }

    fn recv(&mut self, buf: &mut [u8]) -> Result<usize, WireDown> {
        let answer = self.wire.recv(buf);
        if let Ok(count) = answer {
            self.unread = self.unread.saturating_add(count as u64);
        }
        answer
    }

    fn note(&mut self, part: Note<'_>) {
        self.unread = 0;
        self.show(part);
        // A line of the report may follow a message.
        if let Note::Body { ended: true, .. } = part {
            self.wipe();
        }
        if let Some(listed) = &mut self.listed {
            listed.note(part);
        }
        self.wire.note(part)
    }

    fn failures(&self) -> u64 {
        self.wire.failures()
    }

    ghost leads_same = { λ w. W.leads_same w.wire };

    ghost leads_on = { λ u v w p q. W.leads_on u.wire v.wire w.wire p q };
}
