//! The fields of a line of the record's file.

ghost use Rattle.std.specs.{
  Prelude.{◌≡◌, ◌≢◌, ◌↔◌, ℕ, List, ◌<◌, ◌≤◌, ◌^◌, ◌∷◌, ◌++◌, length, slice_index, All, IsTrue, IfSome, IfNone},
  Fmt.decimal,
};
ghost use Rattle.mail_terms.specs.UniqueId.{IsLegalId};

use mail_terms::{is_legal_id, read_numeral};

/// What comes before the first separator, and what follows it.
fn cut_at(bytes: &[u8], separator: u8) -> Option<(&[u8], &[u8])>
    ensures found { IfSome result (λ parts. bytes.now ≡ parts.0.now ++ separator ∷ parts.1.now) }
    ensures first { IfSome result (λ parts. All (λ byte. byte ≢ separator) parts.0.now) }
    ensures none { IfNone result (All (λ byte. byte ≢ separator) bytes.now) }
{
    let place = bytes.iter().position(|byte| *byte == separator)?;
    Some((&bytes[..place], &bytes[place + 1..]))
}

/// Whether the bytes begin like a numeral without leading zeros: with a digit, the only byte if it
/// is 0.
fn begins_as_numeral(field: &[u8]) -> bool
    ensures { IsTrue result ↔ ((0 < length field.now) × (48 ≤ slice_index field.now 0)
        × (slice_index field.now 0 ≤ 57) × (slice_index field.now 0 ≡ 48 → length field.now ≡ 1)) }
{
    match field {
        [b'0'] => true,
        [first, ..] => (b'1'..=b'9').contains(first),
        [] => false,
    }
}

/// The 64-bit number that the field is in decimal, without leading zeros.
#[tactic(auto, using(crate::proofs::LineLemmas::number_laws))]
fn read_number(field: &[u8]) -> Option<u64>
    ensures found { IfSome result (λ number. field.now ≡ decimal number) }
    ensures none { IfNone result ((number : ℕ) → number < 2 ^ 64 → field.now ≢ decimal number) }
{
    if !begins_as_numeral(field) {
        return None;
    }
    read_numeral(field)
}

/// The legal id before the first space, if there is one, and what follows the space.
pub(crate) fn id_before(bytes: &[u8]) -> Option<(&[u8], &[u8])>
    ensures legal { IfSome result (λ parts. IsLegalId parts.0.now) }
    ensures found { IfSome result (λ parts. bytes.now ≡ parts.0.now ++ 32 ∷ parts.1.now) }
    ensures none { IfNone result ((uid rest : List ℕ) → IsLegalId uid → bytes.now ≢ uid ++ 32 ∷ rest) }
{
    let (uid, rest) = cut_at(bytes, b' ')?;
    if !is_legal_id(uid) {
        return None;
    }
    Some((uid, rest))
}

/// The number before the first separator, which is no digit, if there is one, and what follows the
/// separator.
pub(crate) fn number_before(bytes: &[u8], separator: u8) -> Option<(u64, &[u8])>
    requires { separator < 48 }
    ensures fits { IfSome result (λ parts. parts.0 < 2 ^ 64) }
    ensures found { IfSome result (λ parts. bytes.now ≡ decimal parts.0 ++ separator ∷ parts.1.now) }
    ensures none { IfNone result ((number : ℕ) (rest : List ℕ) → number < 2 ^ 64
        → bytes.now ≢ decimal number ++ separator ∷ rest) }
{
    let (field, rest) = cut_at(bytes, separator)?;
    let number = read_number(field)?;
    Some((number, rest))
}
