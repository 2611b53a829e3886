//! Bodies of multi-line replies, dot-stuffed, and their texts (RFC 1939, section 3).
ghost use Rattle.std.specs.Prelude.{◌≡◌, ◌≤◌, length, take, IfOk, IfErr, IfSome, IfNone, IsTrue, ◌↔◌};
ghost use Rattle.pop3_wire.specs.Body.{dot, Body, HasNoBody, unstuffed};

use crate::fault::WireFault;
use crate::line::cut_line;
use std::alloc::Global;

/// The line of the text that a line of a body stands for: without its first full stop, if it begins with one.
pub fn without_dot(line: &[u8]) -> &[u8]
    ensures { result.now ≡ unstuffed line.now }
{
    match line {
        [b'.', rest @ ..] => rest,
        _ => line,
    }
}

/// Whether the line is the one that ends a body: a full stop alone.
pub fn is_end_mark(line: &[u8]) -> bool
    ensures { IsTrue result ↔ (line.now ≡ dot) }
{
    line == b".".as_slice()
}

/// The text of the body that the bytes begin with, and how many octets the body takes, its end
/// mark included. None if no prefix of the bytes is a whole body. The text has the body's lines
/// as they were before they were stuffed, each ended by LF.
pub fn unstuff(alloc: Global, bytes: &[u8]) -> Result<Option<(Vec<u8>, usize)>, WireFault>
    ensures found { IfOk result (λ found. IfSome found (λ b. (b.1 ≤ length bytes.now)
        × Body (take b.1 bytes.now) b.0.items)) }
    ensures none { IfOk result (λ found. IfNone found (HasNoBody bytes.now)) }
    ensures err { IfErr result (λ e. e ≡ WireFault.NoMemory) }
{
    let mut text = Vec::new(alloc);
    let mut rest = bytes;
    while let Some((line, after)) = cut_line(rest) {
        if is_end_mark(line) {
            return Ok(Some((text, bytes.len() - after.len())));
        }
        text.extend_from_slice(without_dot(line))?;
        text.push(b'\n')?;
        rest = after;
    }
    Ok(None)
}
