//! The lines of a trace.
ghost use Rattle.std.specs.Prelude.{◌≡◌, [], ◌++◌, ◌↔◌, IfOk, OnOk, IsTrue, codes};
ghost use Rattle.system_calls.specs.Line.{IsTraceLine, IsShowable, HasTraceLine, changes_lines, shown_octet};
ghost use Rattle.std.specs.{List.list_any, Str.chars};

use std::alloc::{AllocError, Global};
use std::io::{self, Write};
use std::str;

/// Whether a character changes how a line is shown: it controls, reverses, divides or joins others, or isn't seen.
/// All from U+0080 to U+00BF count, of which some are control characters.
fn changes_lines(letter: char) -> bool
    ensures { result ≡ changes_lines letter }
{
    matches!(
        letter,
        '\u{80}'..='\u{bf}'
            | '\u{34f}'
            | '\u{61c}'
            | '\u{115f}'..='\u{1160}'
            | '\u{17b4}'..='\u{17b5}'
            | '\u{180b}'..='\u{180f}'
            | '\u{200b}'..='\u{200f}'
            | '\u{2028}'..='\u{202e}'
            | '\u{2060}'..='\u{206f}'
            | '\u{3164}'
            | '\u{fe00}'..='\u{fe0f}'
            | '\u{feff}'
            | '\u{ffa0}'
            | '\u{fff0}'..='\u{fffb}'
            | '\u{1bca0}'..='\u{1bca3}'
            | '\u{1d173}'..='\u{1d17a}'
            | '\u{e0000}'..='\u{e0fff}'
    )
}

/// Whether a text has such a character.
fn has_odd_one(text: &str) -> bool
    ensures { result ≡ list_any changes_lines (chars text.now) }
{
    text.chars().any(|letter| changes_lines(letter))
}

/// Whether octets above ASCII are shown as they are: if all together are UTF-8, and hold no character that changes
/// how a line is shown.
fn is_showable(octets: &[u8]) -> bool
    ensures { IsTrue result ↔ IsShowable octets.now }
{
    match str::from_utf8(octets) {
        Ok(text) => !has_odd_one(text),
        Err(_) => false,
    }
}

/// Appends what a line shows of an octet: the octet, or `\x` and two digits.
#[tactic(auto, unfolding(crate::specs::Line::shown_octet))]
fn put_octet(line: &mut Vec<u8>, wide: bool, octet: u8) -> Result<(), AllocError>
    ensures { OnOk result (line.new.items ≡ line.old.items ++ shown_octet wide octet) }
{
    let is_plain = octet >= b' ' && octet < 0x7F && octet != b'\\';
    if is_plain || (wide && octet >= 0x80) {
        line.push(octet)?;
        return Ok(());
    }
    let mut digits = [0; 2];
    hex::encode_to_slice([octet].as_slice(), &mut digits).unwrap();
    line.extend_from_slice(b"\\x")?;
    line.extend_from_slice(&digits)?;
    Ok(())
}

/// A line: the mark, and the octets. Control characters, backslashes and what isn't UTF-8 are escaped
/// as `\x` and two digits.
pub fn line_text(alloc: Global, mark: &str, octets: &[u8]) -> Result<Vec<u8>, AllocError>
    ensures { IfOk result (λ line. IsTraceLine mark.now octets.now line.items) }
{
    let wide = is_showable(octets);
    let mut line = Vec::from_slice(alloc, mark.as_bytes())?;
    for octet in octets {
        put_octet(&mut line, wide, *octet)?;
    }
    line.push(b'\n')?;
    Ok(line)
}

/// What a line shows of octets: all of a line without a mark, but its LF.
pub fn shown(alloc: Global, octets: &[u8]) -> Result<Vec<u8>, AllocError>
    ensures { IfOk result (λ text. IsTraceLine [] octets.now (text.items ++ codes "\n")) }
{
    let mut line = line_text(alloc, "", octets)?;
    line.pop();
    Ok(line)
}

/// Writes a line at once. If memory for it is refused, it is left out.
pub fn write_line<E: Write>(alloc: Global, err: &mut E, mark: &str, octets: &[u8]) -> io::Result<()>
    ensures { OnOk result (HasTraceLine E.contents err.old err.new mark.now octets.now) }
{
    let line = line_text(alloc, mark, octets)?;
    err.write_all(line.as_slice())
}
