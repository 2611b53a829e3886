//! The kinds of lines of an rc file.
ghost use Rattle.std.specs.{Prelude.{◌≡◌, ◌≤◌, length, slice_index}, List.{position, prefix_len, suffix_len}};
ghost use Rattle.rc_file.specs.{
  LineRules.{is_blank, is_sign, is_skipped, without_blanks, before_blanks, section_line, key_line, judge},
  JudgedLine.judged_line,
};

use std::str;

/// A line, by its kind.
pub(crate) enum JudgedLine<'a> {
    /// Empty, only blanks, or a comment.
    Skipped,
    /// A line that continues a value.
    More(&'a str),
    /// A section line, with the section's name.
    Section(&'a str),
    /// A key and its value.
    Key(&'a str, &'a str),
    /// A line that no rule fits.
    Bad,
}

/// The line's kind, by the first of five rules that fits it: a line that isn't UTF-8 is bad; one that
/// is empty, blank or a comment is skipped; one that begins with a blank continues a value; one that
/// begins with `[` is a section line; any other is a key line.
#[tactic(auto, using(crate::proofs::LineLemmas::texts), unfolding(crate::specs::LineRules::judge))]
pub(crate) fn judge(bytes: &[u8]) -> JudgedLine<'_>
    ensures { judged_line result ≡ judge bytes.now }
{
    let Ok(line) = str::from_utf8(bytes) else {
        return JudgedLine::Bad;
    };
    if is_skipped(line) {
        JudgedLine::Skipped
    } else if is_blank(first_byte(line)) {
        JudgedLine::More(trimmed(line))
    } else if first_byte(line) == b'[' {
        section_line(without_end_blanks(line))
    } else {
        key_line(line)
    }
}

fn is_blank(byte: u8) -> bool
    ensures { result ≡ is_blank byte }
{
    byte == b' ' || byte == b'\t'
}

/// How many blanks the text begins with.
fn front_blanks(text: &str) -> usize
    ensures count { result ≡ prefix_len is_blank text.now }
    ensures within { result ≤ length text.now }
{
    text.as_bytes()
        .iter()
        .take_while(|byte| is_blank(**byte))
        .count()
}

/// How many blanks the text ends with.
fn end_blanks(text: &str) -> usize
    ensures count { result ≡ suffix_len is_blank text.now }
    ensures within { result ≤ length text.now }
{
    text.as_bytes()
        .iter()
        .rev()
        .take_while(|byte| is_blank(**byte))
        .count()
}

/// Whether the line is empty, only blanks or a comment.
fn is_skipped(line: &str) -> bool
    ensures { result ≡ is_skipped line.now }
{
    match &line.as_bytes()[front_blanks(line)..] {
        [] | [b'#' | b';', ..] => true,
        _ => false,
    }
}

/// The line's first byte; 0 if it has none.
fn first_byte(line: &str) -> u8
    ensures { result ≡ slice_index line.now 0 }
{
    match line.as_bytes() {
        [first, ..] => *first,
        [] => 0,
    }
}

/// The text without the blanks at its end.
#[tactic(auto, using(crate::proofs::LineLemmas::end_boundary))]
fn without_end_blanks(text: &str) -> &str
    ensures { result.now ≡ before_blanks text.now }
{
    &text[..text.len() - end_blanks(text)]
}

/// The text without the blanks at its ends.
#[tactic(auto, using(crate::proofs::LineLemmas::front_boundary))]
fn trimmed(text: &str) -> &str
    ensures { result.now ≡ without_blanks text.now }
{
    without_end_blanks(&text[front_blanks(text)..])
}

/// The section named by a line that begins with `[` and doesn't end with a blank.
fn section_line(line: &str) -> JudgedLine<'_>
    requires { slice_index line.now 0 ≡ 91 }
    ensures { judged_line result ≡ section_line line.now }
{
    match line.as_bytes() {
        [_, _, .., b']'] => JudgedLine::Section(&line[1..line.len() - 1]),
        _ => JudgedLine::Bad,
    }
}

/// The key before the first `=` or `:`, and the value after it.
#[tactic(auto, using(crate::proofs::LineLemmas::before_sign, crate::proofs::LineLemmas::after_sign))]
fn key_line(line: &str) -> JudgedLine<'_>
    ensures { judged_line result ≡ key_line line.now }
{
    let Some(end) = sign_place(line) else {
        return JudgedLine::Bad;
    };
    let key = trimmed(&line[..end]);
    if key.is_empty() {
        return JudgedLine::Bad;
    }
    JudgedLine::Key(key, trimmed(&line[end + 1..]))
}

/// The place of the first `=` or `:`.
fn sign_place(line: &str) -> Option<usize>
    ensures { result ≡ position is_sign line.now }
{
    line.as_bytes()
        .iter()
        .position(|byte| *byte == b'=' || *byte == b':')
}
