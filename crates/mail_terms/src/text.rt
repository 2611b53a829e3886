//! Texts, whose lines end at LF.

ghost use Rattle.std.specs.{Prelude.{◌≡◌, ◌<◌, ◌≤◌, ◌∷◌, length}, List.{after_first, before_first, position_or_len}};
ghost use Rattle.mail_terms.specs.Text.{is_line_feed, lines_of_text};

use memchr::memchr;

/// How many octets come before the first LF, or how many there are if there is no LF.
#[tactic(auto, using(crate::proofs::TextLemmas::end_found))]
fn line_end(text: &[u8]) -> usize
    ensures value { result ≡ position_or_len is_line_feed text.now }
    ensures fits { result ≤ length text.now }
{
    memchr(b'\n', text).unwrap_or(text.len())
}

/// The first line of a text that isn't empty, without its LF, and what follows that LF. A text
/// without LF is one line.
#[tactic(auto, using(crate::proofs::TextLemmas::one_text_line))]
pub fn cut_text(text: &[u8]) -> (&[u8], &[u8])
    requires { 0 < length text.now }
    ensures line { result.0.now ≡ before_first is_line_feed text.now }
    ensures rest { result.1.now ≡ after_first is_line_feed text.now }
    ensures cut { lines_of_text text.now ≡ result.0.now ∷ lines_of_text result.1.now }
    ensures shorter { length result.1.now < length text.now }
{
    let length = line_end(text);
    if length == text.len() {
        return (text, b"");
    }
    (&text[..length], &text[length + 1..])
}
