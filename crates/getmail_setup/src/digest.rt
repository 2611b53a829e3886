//! What tells things apart that aren't accounts: the path of an rc file, a fault, a notice, a message.
ghost use Rattle.std.specs.Prelude.{◌≡◌};
ghost use Rattle.getmail_setup.specs.Digest.{digest_text};

use mail_store::{AccountId, account_id};

/// The digest of two texts, as 64 hexadecimal digits: that of an account with port 0, which none has.
pub fn digest_of(first: &str, second: &str) -> AccountId
    ensures { result ≡ digest_text first.now second.now }
{
    account_id(first, 0, second)
}
