//! Names of files in a Maildir.

ghost use Rattle.std.specs.Prelude.{◌≡◌};
ghost use Rattle.mail_terms.specs.MaildirName.{base};

/// The part of a name in `new` or `cur` before the first colon; mail readers put their flags after
/// it.
pub fn base(name: &str) -> &str
    ensures { result.now ≡ base name.now }
{
    match name.split_once(':') {
        Some((base, _)) => base,
        None => name,
    }
}
