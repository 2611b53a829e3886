//! Taking one body from a link, into its text (RFC 1939, section 3).
ghost use Rattle.std.specs.Prelude.{◌≡◌, ◌≢◌, ◌≤◌, ◌<◌, ◌+◌, ◌-◌, ◌++◌, ◌↔◌, ℕ, List, [], length, take, drop, min};
ghost use Rattle.std.specs.Prelude.{IsTrue, IfOk, IfErr, OnOk, OnErr};
ghost use Rattle.pop3_wire.specs.{
  Bodies.{Drew, DrawsNothing, Rest, UnderWay, TakesPiece, rest_of, is_body_refusal},
  Link.{CountsRefusal, WhereSound},
  Place.{Place, at, GoesOn},
  Unstuffing.Reaches,
  declared.unstuffer.Spot.TheVariants.{Start, Done},
};

use crate::line_reader::{LineReader, MOST_WAITING};
use crate::unstuffer::{Fed, Unstuffer};
use crate::wire::Wire;
use std::marker::Model;
use thiserror::Error;

/// The room that a piece of a text needs: for all octets that may wait in a reader, and for one that
/// was held back.
pub const PIECE_ROOM: usize = 4_097;

/// Why there is no text.
#[derive(Clone, Copy, Debug, PartialEq, Eq, Error)]
pub enum BodyFault {
    /// The link gave 0 octets: it has ended.
    #[error("the link has ended")]
    Ended,
    /// The link refused a `recv`.
    #[error("the link failed")]
    Failed,
    /// No whole body ends within the limit.
    #[error("the body is too long")]
    TooLong,
}

/// Takes octets from the link if none wait; after Ok some do.
fn draw<W: Wire>(wire: &mut W, reader: &mut LineReader) -> Result<(), BodyFault>
    ensures counted { CountsRefusal is_body_refusal (W.history wire.old) result (W.history wire.new) }
    ensures ok { OnOk result ((gained : List ℕ) × (reader.new ≡ reader.old ++ gained) × (0 < length reader.new)
        × WhereSound W.sound W.leads_to wire.old wire.new
        (Drew (W.history wire.old) (W.history wire.new) gained × GoesOn (W.history wire.old) (W.history wire.new))) }
    ensures err { IfErr result (λ fault. (reader.old ≡ []) × (reader.new ≡ [])
        × WhereSound W.sound W.leads_to wire.old wire.new
        (DrawsNothing fault (W.history wire.old) (W.history wire.new))) }
{
    if !reader.waiting().is_empty() {
        return Ok(());
    }
    match reader.fill_at_most(wire, MOST_WAITING) {
        Ok(0) => Err(BodyFault::Ended),
        Ok(_) => Ok(()),
        Err(_) => Err(BodyFault::Failed),
    }
}

/// Uses the octets that wait, up to the end of the body and at most `left` of them, and puts what
/// they add to the text into `out`.
fn use_waiting(
    reader: &mut LineReader,
    unstuffer: &mut Unstuffer,
    left: usize,
    out: &mut [u8; PIECE_ROOM],
) -> Fed
    ensures used { (result.used ≤ left) × (result.used ≤ length reader.old)
        × (reader.new ≡ drop result.used reader.old) }
    ensures put { result.put ≤ length out.new }
    ensures whole { unstuffer.new ≢ Done → result.used ≡ min left (length reader.old) }
    ensures ended { IsTrue result.ended ↔ (unstuffer.new ≡ Done) }
    ensures reached { (bytes known : List ℕ) → Reaches unstuffer.old bytes known
        → Reaches unstuffer.new (bytes ++ take result.used reader.old) (known ++ take result.put out.new) }
{
    let length = left.min(reader.waiting().len());
    let fed = unstuffer.feed(&reader.waiting()[..length], out);
    reader.skip(fed.used);
    fed
}

/// What one piece of a body brought.
#[derive(Clone, Copy, Debug, PartialEq, Eq)]
pub struct Piece {
    /// How many octets of the text were put into the buffer.
    pub put: usize,
    /// How many octets of the body it is.
    pub octets: usize,
    /// Whether the body ended.
    pub ended: bool,
}

/// Takes one body from a link, piece by piece, end mark included. It takes no memory.
#[derive(Drop)]
pub struct BodyReader {
    unstuffer: Unstuffer,
    left: usize,
}

impl Model for BodyReader {
    ghost Value = { Rest };

    ghost view = { λ b. rest_of b.unstuffer b.left };
}

impl BodyReader {
    /// A reader of a body of at most `limit` octets; none were read yet.
    #[tactic(auto, using(crate::proofs::BodiesLemmas::under_way_none))]
    pub fn new(limit: usize) -> BodyReader
        ensures value { result ≡ rest_of Start limit }
        ensures starts { (place : Place) → UnderWay limit place place result [] }
    {
        BodyReader {
            unstuffer: Unstuffer::new(),
            left: limit,
        }
    }

    /// Whether the body has ended.
    pub fn has_ended(&self) -> bool
        ensures { IsTrue result ↔ (self.now.spot ≡ Done) }
    {
        self.unstuffer.has_ended()
    }

    /// Takes one more piece, in at most one `recv`, and puts what it adds to the text into the
    /// buffer. It asks the link for no more than the body needs.
    pub fn next<W: Wire>(
        &mut self,
        wire: &mut W,
        reader: &mut LineReader,
        out: &mut [u8; PIECE_ROOM],
    ) -> Result<Piece, BodyFault>
        requires { self.old.spot ≢ Done }
        ensures counted { CountsRefusal is_body_refusal (W.history wire.old) result (W.history wire.new) }
        ensures fits { IfOk result (λ piece. piece.put ≤ length out.new) }
        ensures ended { IfOk result (λ piece. IsTrue piece.ended ↔ (self.new.spot ≡ Done)) }
        ensures less { IfOk result (λ piece. (self.old.left ≡ self.new.left + piece.octets)
            × (self.new.spot ≢ Done → self.new.left < self.old.left)) }
        ensures same { OnErr result (self.new ≡ self.old) }
        ensures takes { WhereSound W.sound W.leads_to wire.old wire.new
            ((limit : ℕ) (start : Place) (text : List ℕ)
            → UnderWay limit start (at (W.history wire.old) reader.old) self.old text
            → TakesPiece limit start text result out.new (at (W.history wire.new) reader.new) self.new) }
    {
        if self.left == 0 {
            return Err(BodyFault::TooLong);
        }
        draw(wire, reader)?;
        let fed = use_waiting(reader, &mut self.unstuffer, self.left, out);
        self.left -= fed.used;
        Ok(Piece {
            put: fed.put,
            octets: fed.used,
            ended: fed.ended,
        })
    }
}
