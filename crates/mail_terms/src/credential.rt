//! The arguments that USER and PASS take (RFC 1939, section 7).

ghost use Rattle.std.specs.{Prelude.◌≡◌, List.list_all};
ghost use Rattle.mail_terms.specs.Credential.{is_plain, is_credential};

/// Whether bytes hold no CR, LF or NUL.
fn are_plain(bytes: &[u8]) -> bool
    ensures { result ≡ list_all is_plain bytes.now }
{
    bytes
        .iter()
        .all(|byte| *byte != b'\r' && *byte != b'\n' && *byte != 0)
}

/// Whether bytes may be a user name or a password: 1 to 500, without CR, LF and NUL.
pub fn is_credential(bytes: &[u8]) -> bool
    ensures { result ≡ is_credential bytes.now }
{
    !bytes.is_empty() && bytes.len() <= 500 && are_plain(bytes)
}
