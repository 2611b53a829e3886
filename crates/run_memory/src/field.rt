//! The fields of a line.
ghost use Rattle.std.specs.{Prelude.{◌≡◌, ◌≤◌, length}, List.{after_first, before_first, position_or_len}};
ghost use Rattle.run_memory.specs.Fields.{is_separator, numbers_in};

use mail_terms::read_numeral;

/// How many octets come before the first space, or how many there are if there is none.
fn field_end(octets: &[u8]) -> usize
    ensures value { result ≡ position_or_len is_separator octets.now }
    ensures fits { result ≤ length octets.now }
{
    octets.iter().take_while(|octet| **octet != b' ').count()
}

/// The field before the first space, and what follows that space.
pub fn cut_field(octets: &[u8]) -> (&[u8], &[u8])
    ensures field { result.0.now ≡ before_first is_separator octets.now }
    ensures rest { result.1.now ≡ after_first is_separator octets.now }
{
    let end = field_end(octets);
    if end == octets.len() {
        return (octets, b"");
    }
    (&octets[..end], &octets[end + 1..])
}

/// Three numbers; none if the octets are anything else.
pub fn read_numbers(octets: &[u8]) -> Option<(u64, u64, u64)>
    ensures { result ≡ numbers_in octets.now }
{
    let (first, rest) = cut_field(octets);
    let (second, third) = cut_field(rest);
    Some((
        read_numeral(first)?,
        read_numeral(second)?,
        read_numeral(third)?,
    ))
}
