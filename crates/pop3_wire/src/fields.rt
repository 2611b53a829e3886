//! Fields of reply lines, separated by one or more spaces (RFC 1939, sections 5 and 7).
ghost use Rattle.std.specs.{
  Prelude.{◌≡◌, ◌≤◌, IfOk, IfErr, Ok, Err, length, take_while},
  Char.is_ascii_digit,
  List.prefix_len,
};
ghost use Rattle.pop3_wire.specs.{
  Fields.{is_space, is_in_field, past, number, next_field, legal_id, nothing_more, message_number, number_and_size},
  Fields.number_and_id,
  Honest.{ScanRowsHaveFields, UidRowsHaveFields},
  Rows.{ScanRowsHaveForm, UidRowsHaveForm},
};
ghost use Rattle.mail_terms.specs.{UniqueId.{is_legal_id, IsLegalId}, Numeral.{greatest_number, greatest_size}};

use crate::fault::WireFault;
use mail_terms::{is_legal_id, read_numeral};

/// How many spaces the bytes begin with.
fn leading_spaces(bytes: &[u8]) -> usize
    ensures value { result ≡ prefix_len is_space bytes.now }
    ensures fits { result ≤ length bytes.now }
{
    bytes.iter().take_while(|byte| **byte == b' ').count()
}

/// How long the field is that the bytes begin with.
pub fn field_length(bytes: &[u8]) -> usize
    ensures value { result ≡ prefix_len is_in_field bytes.now }
    ensures fits { result ≤ length bytes.now }
{
    bytes.iter().take_while(|byte| **byte != b' ').count()
}

/// How many digits the bytes begin with.
fn leading_digits(bytes: &[u8]) -> usize
    ensures value { result ≡ prefix_len is_ascii_digit bytes.now }
    ensures fits { result ≤ length bytes.now }
{
    bytes
        .iter()
        .take_while(|byte| byte.is_ascii_digit())
        .count()
}

/// The bytes without the spaces in front.
fn past_spaces(bytes: &[u8]) -> &[u8]
    ensures { result.now ≡ past is_space bytes.now }
{
    &bytes[leading_spaces(bytes)..]
}

/// The number that a field stands for, if it isn't above the limit.
#[tactic(auto, unfolding(crate::specs::Fields::number))]
pub fn number(limit: u64, field: &[u8]) -> Result<u64, WireFault>
    ensures value { result ≡ number limit field.now }
    ensures within { IfOk result (λ n. n ≤ limit) }
{
    match read_numeral(field) {
        Some(n) if n <= limit => Ok(n),
        _ => Err(WireFault::BadNumber),
    }
}

/// The bytes from the next field on.
#[tactic(auto, unfolding(crate::specs::Fields::next_field))]
fn next_field(bytes: &[u8]) -> Result<&[u8], WireFault>
    ensures ok { IfOk result (λ rest. next_field bytes.now ≡ Ok rest.now) }
    ensures err { IfErr result (λ e. next_field bytes.now ≡ Err e) }
{
    let rest = past_spaces(bytes);
    if rest.is_empty() {
        return Err(WireFault::BadField);
    }
    Ok(rest)
}

/// The id in a field.
#[tactic(auto, unfolding(crate::specs::Fields::legal_id))]
fn legal_id(field: &[u8]) -> Result<&[u8], WireFault>
    ensures ok { IfOk result (λ id. legal_id field.now ≡ Ok id.now) }
    ensures err { IfErr result (λ e. legal_id field.now ≡ Err e) }
{
    if !is_legal_id(field) {
        return Err(WireFault::BadField);
    }
    Ok(field)
}

/// An id, if only spaces follow it.
#[tactic(auto, unfolding(crate::specs::Fields::nothing_more))]
fn nothing_more<'a>(id: &'a [u8], bytes: &[u8]) -> Result<&'a [u8], WireFault>
    ensures ok { IfOk result (λ whole. nothing_more id.now bytes.now ≡ Ok whole.now) }
    ensures err { IfErr result (λ e. nothing_more id.now bytes.now ≡ Err e) }
{
    if !past_spaces(bytes).is_empty() {
        return Err(WireFault::BadField);
    }
    Ok(id)
}

/// A message number in front, and what follows its field.
fn message_number(line: &[u8]) -> Result<(u32, &[u8]), WireFault>
    ensures ok { IfOk result (λ read. message_number line.now ≡ Ok (read.0, read.1.now)) }
    ensures err { IfErr result (λ e. message_number line.now ≡ Err e) }
{
    let first = next_field(line)?;
    let length = field_length(first);
    let n = number(u64::from(u32::MAX), &first[..length])?;
    Ok((n as u32, &first[length..]))
}

/// The count and the total of STAT, from the rest of its first line: `nn mm` (RFC 1939, section 5).
/// What follows `mm` is ignored if it begins with a character that isn't a digit. BadField if
/// a field is missing; BadNumber if it isn't 1 to 20 digits, the count is above 4,294,967,295 or
/// the total is above 18,446,744,073,709,551,615. The first faulty field decides.
pub fn read_stat(rest: &[u8]) -> Result<(u32, u64), WireFault>
    ensures value { result ≡ number_and_size rest.now }
    ensures within { IfOk result (λ read. (read.0 ≤ greatest_number) × (read.1 ≤ greatest_size)) }
{
    read_scan(rest)
}

/// The number and the size of a scan listing, a row of LIST: `number size` (RFC 1939, section 5).
/// Its faults are those of `read_stat`.
#[tactic(auto, unfolding(crate::specs::Fields::number_and_size))]
pub fn read_scan(line: &[u8]) -> Result<(u32, u64), WireFault>
    ensures value { result ≡ number_and_size line.now }
    ensures within { IfOk result (λ read. (read.0 ≤ greatest_number) × (read.1 ≤ greatest_size)) }
{
    let (n, rest) = message_number(line)?;
    let second = next_field(rest)?;
    let size = number(u64::MAX, &second[..leading_digits(second)])?;
    Ok((n, size))
}

/// The number and the unique-id of a row of UIDL: `number id` (RFC 1939, section 7), after which
/// only spaces may follow. BadField if a field is missing, the id isn't legal or more follows;
/// BadNumber if the number isn't 1 to 20 digits or is above 4,294,967,295. The first faulty
/// field decides.
#[tactic(auto, using(crate::proofs::RowsLemmas::small_and_legal), unfolding(crate::specs::Fields::number_and_id))]
pub fn read_uid(line: &[u8]) -> Result<(u32, &[u8]), WireFault>
    ensures ok { IfOk result (λ read. number_and_id line.now ≡ Ok (read.0, read.1.now)) }
    ensures err { IfErr result (λ e. number_and_id line.now ≡ Err e) }
    ensures legal { IfOk result (λ read. (read.0 ≤ greatest_number) × IsLegalId read.1.now) }
{
    let (n, rest) = message_number(line)?;
    let second = next_field(rest)?;
    let length = field_length(second);
    let id = legal_id(&second[..length])?;
    let whole = nothing_more(id, &second[length..])?;
    Ok((n, whole))
}

/// A row of LIST, and STAT's rest, is accepted exactly if it has this form: any spaces, a message
/// number, one space or more, a size, and then anything that doesn't begin with a digit. A number is 1
/// to 20 digits, up to its limit. The result is these two numbers.
pub fn scan_rows_have_a_form()
    ensures { ScanRowsHaveForm }
{}

/// A row of UIDL is accepted exactly if it has this form: any spaces, a message number, one space
/// or more, a legal unique-id, and any spaces. The result is this number and this id.
pub fn uid_rows_have_a_form()
    ensures { UidRowsHaveForm }
{}

/// A row of UIDL, or of LIST, that is accepted has the fields of an honest server's row.
#[tactic(auto, using(crate::proofs::RowsLemmas::uid_fields, crate::proofs::RowsLemmas::scan_fields))]
pub fn rows_have_fields()
    ensures uid { UidRowsHaveFields }
    ensures scan { ScanRowsHaveFields }
{}
