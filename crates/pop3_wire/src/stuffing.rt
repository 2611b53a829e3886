//! Bodies of multi-line replies as a writer sends them, dot-stuffed (RFC 1939, section 3).
ghost use Rattle.std.specs.{Prelude.{◌≡◌, ◌<◌, ◌≤◌, ◌++◌, ◌∷◌, length, IfOk, IfErr}, Io.StartsWith};
ghost use Rattle.mail_terms.specs.Text.{lines_of_text};
ghost use Rattle.pop3_wire.specs.Stuffed.{sent_line, stuffed_lines, StuffedIsBody, StuffedIsRead, OneBody};

use crate::fault::WireFault;
use mail_terms::cut_text;
use std::alloc::Global;

/// Appends a line of a text to a body: with one more full stop if it begins with one, and ended by
/// CR LF. If memory runs out, a part of it may have been appended.
pub fn put_line(body: &mut Vec<u8>, line: &[u8]) -> Result<(), WireFault>
    ensures ok { IfOk result (λ _. body.new.items ≡ body.old.items ++ sent_line line.now) }
    ensures err { IfErr result (λ e. e ≡ WireFault.NoMemory) }
    ensures front { StartsWith body.new.items body.old.items }
{
    if let [b'.', ..] = line {
        body.push(b'.')?;
    }
    body.extend_from_slice(line)?;
    body.extend_from_slice(b"\r\n")?;
    Ok(())
}

/// Appends the body of a text, end mark included. The text's lines end at LF; a last piece without LF
/// is a line. If memory runs out, a part of it may have been appended.
fn put_body(body: &mut Vec<u8>, text: &[u8]) -> Result<(), WireFault>
    ensures ok { IfOk result (λ _. body.new.items ≡ body.old.items ++ stuffed_lines (lines_of_text text.now)) }
    ensures err { IfErr result (λ e. e ≡ WireFault.NoMemory) }
    ensures front { StartsWith body.new.items body.old.items }
{
    let mut rest = text;
    while !rest.is_empty() {
        let (line, after) = cut_text(rest);
        put_line(body, line)?;
        rest = after;
    }
    body.extend_from_slice(b".\r\n")?;
    Ok(())
}

/// The body of a text, end mark included. The text's lines end at LF; a last piece without LF is a
/// line.
pub fn stuff(alloc: Global, text: &[u8]) -> Result<Vec<u8>, WireFault>
    ensures ok { IfOk result (λ body. body.items ≡ stuffed_lines (lines_of_text text.now)) }
    ensures err { IfErr result (λ e. e ≡ WireFault.NoMemory) }
{
    let mut body = Vec::new(alloc);
    put_body(&mut body, text)?;
    Ok(body)
}

/// What a writer sends is a body of the text, its last line ended.
#[tactic(auto, using(crate::proofs::BodyLemmas::stuffed_is_body))]
pub fn stuffed_is_body()
    ensures { StuffedIsBody }
{}

/// Whatever follows the body that a writer sends, a reader finds that body and no other, and the text
/// with its last line ended.
pub fn stuffed_is_read()
    ensures { StuffedIsRead }
{}

/// No body begins another, so bytes begin with at most one body.
pub fn only_one_body()
    ensures { OneBody }
{}
