//! What is shown of an answer that tells of the password.
ghost use Rattle.std.specs.Prelude.{◌≡◌, ◌≤◌, ◌⊎◌, ◌+◌, ◌↔◌, IfOk, IsTrue, false, length, option_map, take};
ghost use Rattle.trace.specs.{
  Command.most_shown,
  Masking.{Occurs, OccursInBase64, TellsARow, hidden_answer, is_login, password_row, row_length},
  Shown.{ComesAfter, IsMasked, IsShown, IsWithheld},
};

use crate::command::{cut, is_word};
use crate::ways::{alone_first, alone_second, alone_third, masked};
use memchr::memmem;
use std::alloc::{AllocError, Global};

/// So many octets of a password in a row aren't shown.
const ROW: usize = 4;

/// Whether the answer to a command may repeat what was typed as a name or a password.
pub fn is_login(command: &[u8]) -> bool
    ensures { result ≡ is_login command.now }
{
    is_word(command, b"USER") || is_word(command, b"PASS")
}

fn occurs(answer: &[u8], octets: &[u8]) -> bool
    ensures { IsTrue result ↔ Occurs answer.now octets.now }
{
    match memmem::find(answer, octets) {
        Some(_) => true,
        None => false,
    }
}

/// Whether octets occur in an answer in base64, after any number of other octets.
fn occurs_in_base64(alloc: Global, answer: &[u8], octets: &[u8]) -> Result<bool, AllocError>
    ensures { IfOk result (λ does. IsTrue does ↔ OccursInBase64 answer.now octets.now) }
{
    if octets.len() < 2 {
        return Ok(false);
    }
    let first = alone_first(alloc, octets)?;
    let second = alone_second(alloc, octets)?;
    let third = alone_third(alloc, octets)?;
    if occurs(answer, first.as_slice()) {
        return Ok(true);
    }
    if occurs(answer, second.as_slice()) {
        return Ok(true);
    }
    Ok(occurs(answer, third.as_slice()))
}

/// Whether an answer, which is `said` in lower case, has a row of octets, which are `lower` in lower case.
fn has_row(
    alloc: Global,
    answer: &[u8],
    said: &[u8],
    row: &[u8],
    lower: &[u8],
) -> Result<bool, AllocError>
    ensures { IfOk result (λ has. IsTrue has ↔ (Occurs said.now lower.now ⊎ OccursInBase64 answer.now row.now)) }
{
    if occurs(said, lower) {
        return Ok(true);
    }
    occurs_in_base64(alloc, answer, row)
}

fn row_at(password: &[u8], start: usize) -> &[u8]
    requires { start + row_length password.now ≤ length password.now }
    ensures { result.now ≡ password_row password.now start }
{
    &password[start..start + password.len().min(ROW)]
}

/// Whether an answer has a row of the password, in upper or lower case or in base64.
fn tells_a_row(alloc: Global, answer: &[u8], password: &[u8]) -> Result<bool, AllocError>
    ensures { IfOk result (λ tells. IsTrue tells ↔ TellsARow answer.now password.now) }
{
    let said = answer.to_ascii_lowercase(alloc)?;
    let secret = password.to_ascii_lowercase(alloc)?;
    for start in 0..password.len() - password.len().min(ROW) + 1 {
        let (row, lower) = (row_at(password, start), row_at(secret.as_slice(), start));
        if has_row(alloc, answer, said.as_slice(), row, lower)? {
            return Ok(true);
        }
    }
    Ok(false)
}

/// Whether nothing but the status of an answer is shown: the server may know a short password, or the answer tells a
/// part of one that was typed.
fn is_withheld(
    alloc: Global,
    moment: Moment,
    answer: &[u8],
    password: &[u8],
) -> Result<bool, AllocError>
    ensures { IfOk result (λ is. IsTrue is ↔ IsWithheld moment answer.now password.now) }
{
    if moment.has_sent && password.len() < ROW {
        return Ok(true);
    }
    if !moment.to_login {
        return Ok(false);
    }
    tells_a_row(alloc, answer, password)
}

/// What is shown of an answer that tells of the password.
fn hidden_answer(answer: &[u8]) -> &'static [u8]
    ensures { result.now ≡ hidden_answer answer.now }
{
    if answer.starts_with(b"-ERR [AUTH]") {
        b"-ERR [AUTH]"
    } else if answer.starts_with(b"-ERR [IN-USE]") {
        b"-ERR [IN-USE]"
    } else if answer.starts_with(b"-ERR [LOGIN-DELAY]") {
        b"-ERR [LOGIN-DELAY]"
    } else if answer.starts_with(b"-ERR [SYS/PERM]") {
        b"-ERR [SYS/PERM]"
    } else if answer.starts_with(b"-ERR [SYS/TEMP]") {
        b"-ERR [SYS/TEMP]"
    } else if answer.starts_with(b"-ERR [UTF8]") {
        b"-ERR [UTF8]"
    } else if answer.starts_with(b"-ERR") {
        b"-ERR"
    } else if answer.starts_with(b"+OK") {
        b"+OK"
    } else {
        b"*"
    }
}

/// An answer in which this password is hidden.
fn hidden(
    alloc: Global,
    moment: Moment,
    answer: &[u8],
    password: &[u8],
) -> Result<Vec<u8>, AllocError>
    ensures { IfOk result (λ shown. IsMasked moment password.now answer.now shown.items) }
{
    if is_withheld(alloc, moment, answer, password)? {
        return Vec::from_slice(alloc, hidden_answer(answer));
    }
    if password.len() < ROW {
        return Vec::from_slice(alloc, answer);
    }
    masked(alloc, answer, password)
}

/// Where in a conversation an answer comes.
#[derive(Clone, Copy)]
pub struct Moment {
    /// Whether it is the answer to USER or PASS.
    pub to_login: bool,
    /// Whether the server has got a password.
    pub has_sent: bool,
}

/// What hides the password in a conversation.
#[derive(Drop)]
pub struct Mask {
    password: Option<Vec<u8>>,
    moment: Moment,
}

impl Mask {
    /// The password to hide, if one is known; nothing was said yet.
    pub fn new(password: Option<Vec<u8>>) -> Mask
        ensures { (result.password ≡ password) × (result.moment ≡ record { to_login = false; has_sent = false }) }
    {
        Mask {
            password,
            moment: Moment {
                to_login: false,
                has_sent: false,
            },
        }
    }

    /// A command was sent.
    pub fn pass(&mut self, command: &[u8])
        ensures { ComesAfter self.old.moment command.now self.new.moment × (self.new.password ≡ self.old.password) }
    {
        self.moment = Moment {
            to_login: is_login(command),
            has_sent: self.moment.has_sent || is_word(command, b"PASS"),
        };
    }

    /// What is shown of an answer or a row of one.
    pub fn shown(&self, alloc: Global, answer: &[u8]) -> Result<Shown, AllocError>
        ensures { IfOk result (λ shown. IsShown (option_map (λ secret. secret.items) self.now.password)
            self.now.moment answer.now shown.octets.items) }
    {
        let octets = match &self.password {
            None => Vec::from_slice(alloc, answer)?,
            Some(password) => hidden(alloc, self.moment, answer, password)?,
        };
        Ok(Shown { octets })
    }
}

/// An answer or a row of one as it is shown: only a mask makes one, so no other is shown or kept.
#[derive(Drop)]
pub struct Shown {
    octets: Vec<u8>,
}

impl Shown {
    /// The front of it that is shown.
    pub fn front(&self) -> &[u8]
        ensures { result.now ≡ take most_shown self.now.octets.items }
    {
        cut(&self.octets)
    }
}
