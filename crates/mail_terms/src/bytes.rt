//! Byte strings that contracts see as lists.

ghost use Rattle.std.specs.Prelude.{ℕ, ◌≡◌, List};

use std::marker::Model;

/// A byte string. It allocates nothing: it is made from a `Vec` and gives it back.
#[derive(Drop)]
pub struct Bytes {
    bytes: Vec<u8>,
}

impl Model for Bytes {
    ghost Value = { List ℕ };

    ghost view = { λ b. b.bytes.items };
}

impl Bytes {
    /// The byte string of a `Vec`.
    pub fn from_vec(bytes: Vec<u8>) -> Bytes
        ensures { result ≡ bytes.items }
    {
        Bytes { bytes }
    }

    /// The bytes.
    pub fn as_slice(&self) -> &[u8]
        ensures { result.now ≡ self.now }
    {
        self.bytes.as_slice()
    }
}
