//! Lines, which end at the pair CR LF and nowhere else (RFC 1939, section 3).
ghost use Rattle.std.specs.Prelude.{◌≡◌, ◌++◌, IfSome, IfNone};
ghost use Rattle.pop3_wire.specs.Line.{crlf, IsLine, OneLine};

use memchr::{memchr, memmem};

/// The line that the bytes begin with, and what follows its CR LF. None if no line ends in them.
pub fn cut_line(bytes: &[u8]) -> Option<(&[u8], &[u8])>
    ensures found { IfSome result (λ cut. IsLine cut.0.now × (bytes.now ≡ cut.0.now ++ (crlf ++ cut.1.now))) }
    ensures none { IfNone result (IsLine bytes.now) }
{
    let feed = memchr(b'\n', bytes)?;
    if feed > 0 && bytes[feed - 1] == b'\r' {
        return Some((&bytes[..feed - 1], &bytes[feed + 1..]));
    }
    // The first LF is a lone one, so that the pair has to be looked for.
    let length = memmem::find(bytes, b"\r\n")?;
    Some((&bytes[..length], &bytes[length + 2..]))
}

/// Bytes begin with at most one whole line.
#[tactic(auto, using(crate::proofs::BodyLemmas::one_line))]
pub fn only_one_line()
    ensures { OneLine }
{}
