//! Reads lines from any link: the replies that a client gets, and the commands that a server gets.
ghost use Rattle.std.specs.Prelude.{◌≡◌, ◌≤◌, ◌<◌, ◌+◌, ◌-◌, ℕ, List, [], ◌++◌, length, take, drop, IfOk, IfErr};
ghost use Rattle.std.specs.Prelude.{OnErr, IfSome, IfNone};
ghost use Rattle.pop3_wire.specs.{
  Link.{CountsFailure, CountsRefusal, WhereSound},
  Place.{most_waiting, at, GotPiece, WasRefused, Gains, HasLine, HasNoLine, ReadsLine, is_line_refusal},
};

use crate::line::cut_line;
use crate::wire::{Wire, WireDown};
use std::marker::Model;
use thiserror::Error;

/// Why there is no whole line.
#[derive(Clone, Copy, Debug, PartialEq, Eq, Error)]
pub enum LineFault {
    /// The link gave 0 octets: it has ended.
    #[error("the link has ended")]
    Ended,
    /// The link refused a `recv`.
    #[error("the link failed")]
    Failed,
    /// No whole line ends within the limit.
    #[error("the line is too long")]
    TooLong,
}

/// How many octets may wait in a reader.
pub const MOST_WAITING: usize = 4_096;

/// The octets that a link gave and that wait to be used, at most 4,096. It allocates nothing.
///
/// It reads only when it must: while a whole line waits, it makes no `recv`.
#[derive(Drop)]
pub struct LineReader {
    bytes: [u8; MOST_WAITING],
    start: usize,
    end: usize,
    // how many of the waiting octets are known to hold no line end
    searched: usize,
}

impl Model for LineReader {
    ghost Value = { List ℕ };

    ghost view = { λ r. take (r.end - r.start) (drop r.start r.bytes) };

    ghost invariant = { λ r. (r.start ≤ r.end) × (r.end ≤ most_waiting) × (r.searched ≤ r.end - r.start)
        × HasNoLine r.searched (take (r.end - r.start) (drop r.start r.bytes)) };
}

/// Moves a part of the bytes to their front. If it is there already, nothing is copied, so that a line
/// that comes in many pieces is copied once.
fn move_to_front(bytes: &mut [u8], start: usize, end: usize)
    requires low { start ≤ end }
    requires high { end ≤ length bytes.old }
    ensures { take (end - start) bytes.new ≡ take (end - start) (drop start bytes.old) }
{
    if start > 0 {
        bytes.copy_within(start..end, 0);
    }
}

impl LineReader {
    /// A reader with nothing waiting.
    pub fn new() -> LineReader
        ensures { result ≡ [] }
    {
        LineReader {
            bytes: [0; MOST_WAITING],
            start: 0,
            end: 0,
            searched: 0,
        }
    }

    /// The octets that wait to be used.
    pub fn waiting(&self) -> &[u8]
        ensures value { result.now ≡ self.now }
        ensures short { length result.now ≤ most_waiting }
    {
        &self.bytes[self.start..self.end]
    }

    /// Drops the first `n` octets that wait, as used.
    pub fn skip(&mut self, n: usize)
        requires { n ≤ length self.old }
        ensures { self.new ≡ drop n self.old }
    {
        self.start += n;
        self.searched = self.searched.saturating_sub(n);
    }

    /// Takes what the link gives next, at most `most` octets, in one `recv`, after the octets that
    /// wait already, and returns how many came.
    pub fn fill_at_most<W: Wire>(&mut self, wire: &mut W, most: usize) -> Result<usize, WireDown>
        requires room { length self.old < most_waiting }
        requires some { 0 < most }
        ensures counted { CountsFailure (W.history wire.old) result (W.history wire.new) }
        ensures short { length self.new ≤ most_waiting }
        ensures within { IfOk result (λ n. n ≤ most) }
        ensures ok { IfOk result (λ n. (piece : List ℕ) × (length piece ≡ n) × (self.new ≡ self.old ++ piece)
            × WhereSound W.sound W.leads_to wire.old wire.new
            (GotPiece (W.history wire.old) piece (W.history wire.new))) }
        ensures err { OnErr result ((self.new ≡ self.old)
            × WhereSound W.sound W.leads_to wire.old wire.new (WasRefused (W.history wire.old) (W.history wire.new))) }
    {
        move_to_front(&mut self.bytes, self.start, self.end);
        self.end -= self.start;
        self.start = 0;
        let until = self.end + most.min(MOST_WAITING - self.end);
        let n = wire.recv(&mut self.bytes[self.end..until])?;
        self.end += n;
        Ok(n)
    }

    /// The length of the line that waits, if one ends within the limit. The search goes on from where
    /// the last one stopped.
    pub fn line_end(&mut self, limit: usize) -> Option<usize>
        ensures same { self.new ≡ self.old }
        ensures short { length self.new ≤ most_waiting }
        ensures found { IfSome result (HasLine limit self.old) }
        ensures none { IfNone result (HasNoLine limit self.old) }
    {
        let until = limit.min(self.waiting().len());
        let from = self.searched.min(until).saturating_sub(1);
        if let Some((line, _)) = cut_line(&self.waiting()[from..until]) {
            return Some(from + line.len());
        }
        self.searched = self.searched.max(until);
        None
    }

    /// Takes from the link until a line waits that ends within `limit` octets, its CR LF included,
    /// and returns its length without CR LF. The line isn't used yet.
    pub fn line<W: Wire>(&mut self, wire: &mut W, limit: usize) -> Result<usize, LineFault>
        requires { limit ≤ most_waiting }
        ensures counted { CountsRefusal is_line_refusal (W.history wire.old) result (W.history wire.new) }
        ensures short { length self.new ≤ most_waiting }
        ensures found { IfOk result (HasLine limit self.new) }
        ensures gained { (gained : List ℕ) × (self.new ≡ self.old ++ gained) }
        ensures read { WhereSound W.sound W.leads_to wire.old wire.new
            (((gained : List ℕ) × Gains (at (W.history wire.old) self.old) (at (W.history wire.new) self.new) gained)
            × ReadsLine limit (at (W.history wire.old) self.old) result (at (W.history wire.new) self.new)) }
    {
        loop {
            if let Some(length) = self.line_end(limit) {
                return Ok(length);
            }
            if self.waiting().len() >= limit {
                return Err(LineFault::TooLong);
            }
            let n = match self.fill_at_most(wire, MOST_WAITING) {
                Ok(n) => n,
                Err(_) => return Err(LineFault::Failed),
            };
            if n == 0 {
                return Err(LineFault::Ended);
            }
        }
    }
}
