//! What faults and notices are known by.
ghost use Rattle.std.specs.{Prelude.◌≡◌, List.list_all};
ghost use Rattle.run_memory.specs.Fields.{IsFaultKey, is_digit, key_in};

use std::marker::Model;

/// How many digits a key has.
const DIGITS: usize = 64;

/// What a fault or a notice is known by: 64 hexadecimal digits, so that nothing is kept of a server's words.
#[derive(Clone, Copy, Debug, PartialEq, Eq)]
pub struct Key {
    digits: [u8; 64],
}

impl Model for Key {
    ghost use Rattle.std.specs.Prelude.{ℕ, List};
    ghost use Rattle.run_memory.specs.Fields.{IsFaultKey};

    ghost Value = { List ℕ };

    ghost view = { λ key. key.digits };

    ghost invariant = { λ key. IsFaultKey key.digits };

    ghost inverse = { λ digits. record { digits = digits } };
}

/// Whether all octets are hexadecimal digits in lower case.
fn are_digits(octets: &[u8]) -> bool
    ensures { result ≡ list_all is_digit octets.now }
{
    octets.iter().all(|octet| (b'0' <= *octet && *octet <= b'9')
        || (b'a' <= *octet && *octet <= b'f'))
}

impl Key {
    /// The key of these digits.
    pub fn new(digits: &str) -> Key
        requires { IsFaultKey digits.now }
        ensures { result ≡ digits.now }
    {
        let mut key = [0u8; 64];
        key.copy_from_slice(digits.as_bytes());
        Key { digits: key }
    }

    /// The key that octets are, if they are one.
    pub fn read(octets: &[u8]) -> Option<Key>
        ensures { result ≡ key_in octets.now }
    {
        if octets.len() != DIGITS || !are_digits(octets) {
            return None;
        }
        let mut digits = [0u8; 64];
        digits.copy_from_slice(octets);
        Some(Key { digits })
    }

    /// The digits.
    pub fn as_slice(&self) -> &[u8]
        ensures value { result.now ≡ self.now }
        ensures digits { IsFaultKey self.now }
    {
        &self.digits
    }
}
