//! What tells accounts apart in the names of their files.

ghost use Rattle.std.specs.Prelude.{◌≡◌, ℕ, List, [], ◌∷◌, ◌++◌, length, decimal};
ghost use Rattle.hex.specs.Hex.{encode_lower};
ghost use Rattle.sha2.specs.Sha256.{sha256};
ghost use Rattle.mail_store.specs.FileName.{account_text, IsAccountText};

use itoa::Buffer;
use sha2::{Digest, Sha256};
use std::marker::Model;
use std::str;

/// The text that tells an account apart from every other: 64 hexadecimal digits in lower case.
#[derive(Clone, Copy, Debug, PartialEq, Eq)]
pub struct AccountId {
    text: [u8; 64],
}

impl Model for AccountId {
    ghost use Rattle.std.specs.Prelude.{ℕ, List};
    ghost use Rattle.mail_store.specs.FileName.{IsAccountText};

    ghost Value = { List ℕ };

    ghost view = { λ account. account.text };

    ghost invariant = { λ account. IsAccountText account.text };

    ghost inverse = { λ text. record { text = text } };
}

impl AccountId {
    /// The 64 digits.
    pub fn as_str(&self) -> &str
        ensures text { result.now ≡ self.now }
        ensures digits { IsAccountText self.now }
    {
        str::from_utf8(&self.text).unwrap()
    }
}

/// The SHA-256 of the server's name, NUL, the port in decimal, NUL and the user name.
fn digest_of(server: &str, port: u16, username: &str) -> [u8; 32]
    ensures { result ≡ sha256 (server.now ++ 0 ∷ [] ++ decimal port ++ 0 ∷ [] ++ username.now) }
{
    let mut hasher = Sha256::new();
    hasher.update(server);
    hasher.update([0u8].as_slice());
    hasher.update(Buffer::new().format(port));
    hasher.update([0u8].as_slice());
    hasher.update(username);
    hasher.finalize()
}

/// The bytes of a digest in lower-case hexadecimal.
fn lower_hex(digest: &[u8]) -> [u8; 64]
    requires { length digest.now ≡ 32 }
    ensures { result ≡ encode_lower digest.now }
{
    let mut text = [0u8; 64];
    hex::encode_to_slice(digest, &mut text).unwrap();
    text
}

/// The id of the account of a user on a server: the lower-case hexadecimal SHA-256 of the server's
/// name, NUL, the port in decimal, NUL and the user name.
pub fn account_id(server: &str, port: u16, username: &str) -> AccountId
    ensures text { result ≡ account_text server.now port username.now }
    ensures digits { IsAccountText result }
{
    account_texts_are_digits();
    let digest = digest_of(server, port, username);
    AccountId {
        text: lower_hex(&digest),
    }
}

/// The text of every account is 64 hexadecimal digits in lower case.
#[tactic(auto, using(crate::proofs::MaildirLemmas::account_digits))]
pub fn account_texts_are_digits()
    ensures { (server : List ℕ) (port : ℕ) (username : List ℕ) → IsAccountText (account_text server port username) }
{}
