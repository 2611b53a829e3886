//! Reads the lines that a server gets, within its limits.
ghost use Rattle.std.specs.Prelude.{◌≡◌, ◌≤◌, ◌<◌, ◌+◌, ◌-◌, ◌*◌, ◌++◌, ℕ, List, [], length, drop, true, false, IfOk};
ghost use Rattle.std.specs.Prelude.{IfErr, IfSome, IfNone, Ok, Err};
ghost use Rattle.pop3_wire.specs.{Link.{CountsFailure, WhereSound}, Place.{HasLine, HasNoLine}, Bodies.Drew};
ghost use Rattle.pop3_server.specs.{
  declared.intake.NextLine.TheVariants.LongLine,
  Got.Waiting,
  Serving.{Hears, TakesMore, Found},
};

use crate::fault::ServerFault;
use pop3_wire::{LineReader, Note, Wire};
use std::marker::Model;

/// How many octets a server reads from one connection; it treats what follows as the end of input.
pub const MAX_OCTETS: usize = 16_777_216;

/// How long a line may be, its CR LF included.
pub const MAX_LINE: usize = 512;

/// What came from the link.
#[derive(Clone, Copy)]
pub enum NextLine {
    /// A line of this number of octets, without its CR LF, waits.
    Line(usize),
    /// A line longer than [`MAX_LINE`] was read to its CR LF and dropped.
    LongLine,
    /// The input ended, and no whole line waits.
    End,
}

/// The octets that a server got and hasn't used yet, and how many more it may read. It allocates
/// nothing.
#[derive(Drop)]
pub struct Intake {
    reader: LineReader,
    left: usize,
}

impl Model for Intake {
    ghost use Rattle.pop3_server.specs.Got.{Waiting};

    ghost Value = { Waiting };

    ghost view = { λ i. record { octets = i.reader; left = i.left } };
}

impl Intake {
    /// At the start of a connection.
    pub fn new() -> Intake
        ensures { result ≡ record { octets = []; left = MAX_OCTETS } }
    {
        Intake {
            reader: LineReader::new(),
            left: MAX_OCTETS,
        }
    }

    /// The octets that wait to be used.
    pub fn waiting(&self) -> &[u8]
        ensures { result.now ≡ self.now.octets }
    {
        self.reader.waiting()
    }

    /// Drops the first `n` octets that wait, as used.
    pub fn skip(&mut self, n: usize)
        requires { n ≤ length self.old.octets }
        ensures { self.new ≡ record { octets = drop n self.old.octets; left = self.old.left } }
    {
        self.reader.skip(n);
    }

    /// The length of the line that waits, if one ends within [`MAX_LINE`].
    fn line_end(&mut self) -> Option<usize>
        ensures same { self.new ≡ self.old }
        ensures found { IfSome result (HasLine MAX_LINE self.new.octets) }
        ensures none { IfNone result (HasNoLine MAX_LINE self.new.octets) }
    {
        self.reader.line_end(MAX_LINE)
    }

    /// Reads what comes next, and returns whether anything came.
    fn more<W: Wire>(&mut self, wire: &mut W) -> Result<bool, ServerFault>
        requires { length self.old.octets < MAX_LINE }
        ensures counted { CountsFailure (W.history wire.old) result (W.history wire.new) }
        ensures err { IfErr result (λ e. e ≡ ServerFault.ReadFailed) }
        ensures takes { (piece : List ℕ) × (length piece + self.new.left ≡ self.old.left)
            × (self.new.octets ≡ self.old.octets ++ piece)
            × (result ≡ Ok true → 0 < length piece)
            × (result ≡ Ok false → length piece ≡ 0)
            × WhereSound W.sound W.leads_to wire.old wire.new (Drew (W.history wire.old) (W.history wire.new) piece
            × TakesMore result self.new.left (W.history wire.new)) }
    {
        if self.left == 0 {
            return Ok(false);
        }
        match self.reader.fill_at_most(wire, self.left) {
            Ok(n) => {
                self.left -= n;
                Ok(n != 0)
            }
            Err(_) => Err(ServerFault::ReadFailed),
        }
    }

    /// Waits for the next line. A line longer than [`MAX_LINE`] is read to its CR LF and dropped; the link is
    /// told of its front. No `recv` is made while a whole line waits. The only fault is ReadFailed.
    pub fn next<W: Wire>(&mut self, wire: &mut W) -> Result<NextLine, ServerFault>
        ensures counted { CountsFailure (W.history wire.old) result (W.history wire.new) }
        ensures err { IfErr result (λ e. e ≡ ServerFault.ReadFailed) }
        ensures found { IfOk result (λ heard. Found heard self.new) }
        ensures fewer { length self.new.octets + 2 * self.new.left ≤ length self.old.octets + 2 * self.old.left }
        ensures dropped { result ≡ Ok LongLine
            → length self.new.octets + 2 * self.new.left < length self.old.octets + 2 * self.old.left }
        ensures hears { WhereSound W.sound W.leads_to wire.old wire.new
            (Hears (W.history wire.old) self.old result (W.history wire.new) self.new) }
    {
        let mut is_long = false;
        loop {
            if let Some(length) = self.line_end() {
                if is_long {
                    self.skip(length + 2);
                    return Ok(NextLine::LongLine);
                }
                return Ok(NextLine::Line(length));
            }
            if self.waiting().len() < MAX_LINE {
                if !self.more(wire)? {
                    return Ok(NextLine::End);
                }
                continue;
            }
            if !is_long {
                let waiting = self.waiting();
                wire.note(Note::Command(None, &waiting[..MAX_LINE.min(waiting.len())]));
            }
            is_long = true;
            self.skip(MAX_LINE - 1);
        }
    }
}
