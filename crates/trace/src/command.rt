//! What is shown of a command.
ghost use Rattle.std.specs.Prelude.{◌≡◌, ◌++◌, ℕ, List, codes, take};
ghost use Rattle.trace.specs.Command.{is_word, most_shown, shown_command};

/// Whether a command begins with this word of four octets, in upper or lower case.
pub(crate) fn is_word(command: &[u8], word: &[u8]) -> bool
    ensures { result ≡ is_word command.now word.now }
{
    command[..command.len().min(4)].eq_ignore_ascii_case(word)
}

/// A command as it is shown. What follows the words PASS, AUTH and APOP, in upper or lower case, is
/// shown as `*`.
pub fn shown_command(command: &[u8]) -> &[u8]
    ensures { result.now ≡ shown_command command.now }
{
    if is_word(command, b"PASS") {
        return b"PASS *";
    }
    if is_word(command, b"AUTH") {
        return b"AUTH *";
    }
    if is_word(command, b"APOP") {
        return b"APOP *";
    }
    command
}

/// The front of an answer or a command that is shown.
pub fn cut(octets: &[u8]) -> &[u8]
    ensures { result.now ≡ take most_shown octets.now }
{
    &octets[..512_usize.min(octets.len())]
}

/// Whatever the password is, a PASS command is shown in the same way.
pub fn commands_hide_passwords()
    ensures { (password other : List ℕ)
        → shown_command (codes "PASS " ++ password) ≡ shown_command (codes "PASS " ++ other) }
{}
