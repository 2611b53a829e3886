//! Reads the values of keys, each by its form.
#![tactic(auto, unfolding(crate::specs::RcMeaning::fault_at))]

ghost use Rattle.std.specs.{Prelude.{◌≡◌, ◌≤◌, map, IfOk, IsTrue}, Char.to_ascii_lowercase};
ghost use Rattle.mail_terms.specs.Credential.{is_credential};
ghost use Rattle.rc_file.specs.{
  KeyTable.{rule, boolean, never, number, server, credential, is_boolean_word, is_yes, is_no},
  RcMeaning.{fault_at, is_true, number_in, value_text},
  KeyReading.{ReadsAs, ReadsValue},
  RowReading.rows_in,
  Settings.is_server,
};

use crate::fault::RcFault;
use crate::key::Key;
use crate::row::ReadRow;
use crate::settings::is_server;
use crate::value::required;
use mail_terms::{is_credential, read_numeral};

/// The value of a boolean key.
pub(crate) fn read_boolean(rows: &[ReadRow<'_>], key: Key) -> Result<bool, RcFault>
    requires { (rule key).form ≡ boolean }
    ensures { ReadsAs (fault_at (rows_in rows.now) key) (is_true (rows_in rows.now) key) result }
{
    let text = required(rows, key)?;
    if is_yes(text) {
        Ok(true)
    } else if is_no(text) {
        Ok(false)
    } else {
        Err(RcFault::BadValue(key))
    }
}

/// Refuses a boolean key that is true.
pub(crate) fn refuse_true(rows: &[ReadRow<'_>], key: Key) -> Result<(), RcFault>
    requires { (rule key).form ≡ never }
    ensures { ReadsAs (fault_at (rows_in rows.now) key) tt result }
{
    let text = required(rows, key)?;
    if is_yes(text) {
        Err(RcFault::Unsupported(key))
    } else if is_no(text) {
        Ok(())
    } else {
        Err(RcFault::BadValue(key))
    }
}

fn is_yes(text: &str) -> bool
    ensures { result ≡ is_yes text.now }
{
    is_word(text, "1") || is_word(text, "yes") || is_word(text, "true") || is_word(text, "on")
}

fn is_no(text: &str) -> bool
    ensures { result ≡ is_no text.now }
{
    is_word(text, "0") || is_word(text, "no") || is_word(text, "false") || is_word(text, "off")
}

fn is_word(text: &str, word: &str) -> bool
    requires { map to_ascii_lowercase word.now ≡ word.now }
    ensures { result ≡ is_boolean_word text.now word.now }
{
    text.eq_ignore_ascii_case(word)
}

/// The value of a key that takes a number from `low` to `high`.
pub(crate) fn read_number(
    rows: &[ReadRow<'_>],
    key: Key,
    low: u64,
    high: u64,
) -> Result<u64, RcFault>
    requires { (rule key).form ≡ number low high }
    ensures value { ReadsAs (fault_at (rows_in rows.now) key) (number_in (rows_in rows.now) key) result }
    ensures within { IfOk result (λ n. (low ≤ n) × (n ≤ high)) }
{
    match read_numeral(required(rows, key)?.as_bytes()) {
        Some(n) if low <= n && n <= high => Ok(n),
        _ => Err(RcFault::BadValue(key)),
    }
}

/// The name of the server.
pub(crate) fn read_server<'r>(rows: &'r [ReadRow<'_>], key: Key) -> Result<&'r str, RcFault>
    requires { (rule key).form ≡ server }
    ensures reads { ReadsValue (fault_at (rows_in rows.now) key) (value_text (rows_in rows.now) key) result }
    ensures valid { IfOk result (λ text. IsTrue (is_server text.now)) }
{
    let text = required(rows, key)?;
    if is_server(text) {
        Ok(text)
    } else {
        Err(RcFault::BadValue(key))
    }
}

/// The username or the password.
pub(crate) fn read_credential<'r>(rows: &'r [ReadRow<'_>], key: Key) -> Result<&'r str, RcFault>
    requires { (rule key).form ≡ credential }
    ensures reads { ReadsValue (fault_at (rows_in rows.now) key) (value_text (rows_in rows.now) key) result }
    ensures valid { IfOk result (λ text. IsTrue (is_credential text.now)) }
{
    let text = required(rows, key)?;
    if is_credential(text.as_bytes()) {
        Ok(text)
    } else {
        Err(RcFault::BadValue(key))
    }
}
