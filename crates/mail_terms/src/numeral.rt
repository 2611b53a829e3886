//! Numerals of the protocol (RFC 1939, sections 5 and 7).

ghost use Rattle.std.specs.Prelude.{◌≡◌};
ghost use Rattle.mail_terms.specs.Numeral.{numeral_value};

/// The number that 1 to 20 digits stand for; leading zeros are allowed. None if it is above
/// 18,446,744,073,709,551,615, or if the text is anything else.
#[tactic(auto, using(crate::proofs::NumeralLemmas::no_value, crate::proofs::NumeralLemmas::whole_value))]
pub fn read_numeral(text: &[u8]) -> Option<u64>
    ensures { result ≡ numeral_value text.now }
{
    if text.is_empty() || text.len() > 20 {
        return None;
    }
    let mut value: u64 = 0;
    for &byte in text {
        if !byte.is_ascii_digit() {
            return None;
        }
        value = value.checked_mul(10)?.checked_add(u64::from(byte - b'0'))?;
    }
    Some(value)
}
