//! The lines of a text that comes piece by piece.
ghost use Rattle.std.specs.Prelude.{◌≡◌, ◌<◌, ◌++◌, ◌∷◌, length, IfSome, MatchOption};
ghost use Rattle.mail_terms.specs.Text.{HasNoLf};

use memchr::memchr;

/// The bytes before the first LF of a piece, and those after it. None if there is no LF.
pub fn cut_line(piece: &[u8]) -> Option<(&[u8], &[u8])>
    ensures cut { MatchOption result (HasNoLf piece.now)
        (λ parts. HasNoLf parts.0.now × (piece.now ≡ parts.0.now ++ 10 ∷ parts.1.now)) }
    ensures shorter { IfSome result (λ parts. length parts.1.now < length piece.now) }
{
    let length = memchr(b'\n', piece)?;
    Some((&piece[..length], &piece[length + 1..]))
}
