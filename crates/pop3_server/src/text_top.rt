//! The top of a text that comes piece by piece (RFC 1939, section 7).
ghost use Rattle.std.specs.Prelude.{◌≡◌, ◌<◌, ◌≤◌, ◌↔◌, length, ◌++◌, ◌∷◌, ℕ, List, IsTrue, true, false};
ghost use Rattle.mail_terms.specs.Text.{HasNoLf};
ghost use Rattle.pop3_server.specs.TextPiece.{taken_of_top, top_begun};

use crate::text_line::cut_line;

/// The place in the top of a text: its lines up to and including the first empty one, and a given
/// number of lines more.
#[derive(Clone, Copy)]
pub struct Top {
    // Whether the first empty line hasn't come yet.
    in_head: bool,
    // Whether a line has begun.
    in_line: bool,
    // How many lines are to come after the first empty one.
    left: u32,
}

impl Top {
    /// At the start of a text.
    pub fn new(count: u32) -> Top
        ensures { result ≡ top_begun count }
    {
        Top {
            in_head: true,
            in_line: false,
            left: count,
        }
    }

    /// Whether all of it has come.
    pub fn is_done(&self) -> bool
        ensures { IsTrue result ↔ (self.now.in_head ≡ false) × (self.now.left ≡ 0) }
    {
        !self.in_head && self.left == 0
    }

    /// Ends a line of it, after some octets of that line.
    #[tactic(auto, using(crate::proofs::TextTopLemmas::ends_head, crate::proofs::TextTopLemmas::ends_later))]
    fn end_line(&mut self, octets: &[u8])
        requires { self.old.in_head ≡ false → 0 < self.old.left }
        ensures { HasNoLf octets.now → (rest : List ℕ)
            → taken_of_top self.old (octets.now ++ 10 ∷ rest) ≡ octets.now ++ 10 ∷ taken_of_top self.new rest }
    {
        if self.in_head {
            self.in_head = !octets.is_empty() | self.in_line;
        } else {
            self.left -= 1;
        }
        self.in_line = false;
    }

    /// The octets of a piece of the text that belong to its top.
    pub fn take<'a>(&mut self, piece: &'a [u8]) -> &'a [u8]
        ensures taken { (rest : List ℕ)
            → taken_of_top self.old (piece.now ++ rest) ≡ result.now ++ taken_of_top self.new rest }
        ensures within { length result.now ≤ length piece.now }
    {
        let mut rest = piece;
        while !self.is_done() {
            match cut_line(rest) {
                Some((line, after)) => {
                    self.end_line(line);
                    rest = after;
                }
                None => {
                    self.in_line = !rest.is_empty() | self.in_line;
                    return piece;
                }
            }
        }
        &piece[..piece.len() - rest.len()]
    }
}
