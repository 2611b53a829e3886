//! The password file.
ghost use Rattle.std.specs.Prelude.{◌≡◌};
ghost use Rattle.popd_program.specs.Password.{password_of};

use mail_terms::cut_text;

/// The password in a password file: the bytes before its first LF, or all if there is no LF, without
/// one CR at their end.
pub fn password(bytes: &[u8]) -> &[u8]
    ensures { result.now ≡ password_of bytes.now }
{
    if bytes.is_empty() {
        return bytes;
    }
    let (line, _) = cut_text(bytes);
    line.strip_suffix(b"\r".as_slice()).unwrap_or(line)
}
