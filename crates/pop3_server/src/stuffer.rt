//! The body of a text that comes piece by piece, dot-stuffed (RFC 1939, section 3).
ghost use Rattle.std.specs.Prelude.{◌≡◌, ◌≤◌, ◌+◌, ◌*◌, ◌++◌, length, false, IfOk, IsOk, vec_len, vec_capacity};
ghost use Rattle.pop3_server.specs.TextPiece.{is_open_after, sent_end, sent_piece, stuffing};

use crate::text_line::cut_line;
use std::alloc::AllocError;

/// The place in the body of a text that comes piece by piece.
#[derive(Clone, Copy)]
pub struct Stuffer {
    in_line: bool,
}

impl Stuffer {
    /// At the start of a text.
    pub fn new() -> Stuffer
        ensures { result.in_line ≡ false }
    {
        Stuffer { in_line: false }
    }

    /// Appends a full stop if some octets of a line need one in front of them.
    fn put_stuffing(self, body: &mut Vec<u8>, octets: &[u8]) -> Result<(), AllocError>
        ensures body { IfOk result (λ _. body.new.items ≡ body.old.items ++ stuffing self.in_line octets.now) }
        ensures len { IfOk result
            (λ _. vec_len body.new ≡ vec_len body.old + length (stuffing self.in_line octets.now)) }
        ensures capacity { vec_capacity body.old ≤ vec_capacity body.new }
        ensures room { vec_len body.old + length octets.now ≤ vec_capacity body.old → IsOk result }
    {
        if self.in_line {
            return Ok(());
        }
        if let [b'.', ..] = octets {
            body.push(b'.')?;
        }
        Ok(())
    }

    /// Appends what a piece of the text adds to its body.
    #[tactic(auto, using(crate::proofs::TextPieceLemmas::open_rest))]
    pub fn put(&mut self, body: &mut Vec<u8>, piece: &[u8]) -> Result<(), AllocError>
        ensures body { IfOk result (λ _. body.new.items ≡ body.old.items ++ sent_piece self.old.in_line piece.now) }
        ensures in_line { IfOk result (λ _. self.new.in_line ≡ is_open_after self.old.in_line piece.now) }
        ensures capacity { vec_capacity body.old ≤ vec_capacity body.new }
        ensures room { vec_len body.old + 2 * length piece.now ≤ vec_capacity body.old → IsOk result }
    {
        let mut rest = piece;
        while let Some((line, after)) = cut_line(rest) {
            self.put_stuffing(body, line)?;
            body.extend_from_slice(line)?;
            body.extend_from_slice(b"\r\n")?;
            self.in_line = false;
            rest = after;
        }
        if rest.is_empty() {
            return Ok(());
        }
        self.put_stuffing(body, rest)?;
        body.extend_from_slice(rest)?;
        self.in_line = true;
        Ok(())
    }

    /// Ends the body: ends the text's last line, if it has no LF, and appends the end mark.
    pub fn end(self, body: &mut Vec<u8>) -> Result<(), AllocError>
        ensures body { IfOk result (λ _. body.new.items ≡ body.old.items ++ sent_end self.in_line) }
        ensures capacity { vec_capacity body.old ≤ vec_capacity body.new }
        ensures room { vec_len body.old + 5 ≤ vec_capacity body.old → IsOk result }
    {
        if self.in_line {
            body.extend_from_slice(b"\r\n")?;
        }
        body.extend_from_slice(b".\r\n")?;
        Ok(())
    }
}
