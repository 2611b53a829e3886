//! Sizes of texts, in octets on the wire without stuffing: each line's end counts as two, and a last
//! piece without LF is a line (RFC 1939, section 11).
ghost use Rattle.std.specs.Prelude.{◌≡◌, ◌++◌, ℕ, List, [], false, ◌+◌};
ghost use Rattle.pop3_server.specs.Size.{CountsText, size_of, capped};

use crate::text_line::cut_line;

/// How many octets the end of a line counts for.
const LINE_END: u64 = 2;

/// Counts the size of a text that is read piece by piece.
#[derive(Clone, Copy)]
pub struct SizeCount {
    octets: u64,
    in_line: bool,
}

impl SizeCount {
    /// The count of the empty text.
    pub fn new() -> SizeCount
        ensures { CountsText result [] }
    {
        SizeCount {
            octets: 0,
            in_line: false,
        }
    }

    /// Counts one more piece.
    pub fn add(&mut self, piece: &[u8])
        ensures { (before : List ℕ) → CountsText self.old before → CountsText self.new (before ++ piece.now) }
    {
        let mut rest = piece;
        while let Some((line, after)) = cut_line(rest) {
            self.octets = self.octets.saturating_add(line.len() as u64);
            self.octets = self.octets.saturating_add(LINE_END);
            self.in_line = false;
            rest = after;
        }
        self.octets = self.octets.saturating_add(rest.len() as u64);
        self.in_line = !rest.is_empty() | self.in_line;
    }

    /// The size so far.
    #[tactic(auto, using(crate::proofs::SizeLemmas::size_open))]
    pub fn size(&self) -> u64
        ensures { (text : List ℕ) → CountsText self.now text → result ≡ capped (size_of text) }
    {
        if self.in_line {
            self.octets.saturating_add(LINE_END)
        } else {
            self.octets
        }
    }
}

/// The size of a text in octets, each line's end counted as two (RFC 1939, section 11), or
/// 18,446,744,073,709,551,615 if it is above that.
pub fn size_of(text: &[u8]) -> u64
    ensures { result ≡ capped (size_of text.now) }
{
    let mut count = SizeCount::new();
    count.add(text);
    count.size()
}
