//! Commands, and the lines that ask for them (RFC 1939, sections 3 and 5 to 7).

ghost use Rattle.std.specs.{Prelude.{ℕ, ◌≡◌, ◌++◌, ◌⊎◌, true, false, IfOk, IfErr, codes}, Fmt.decimal};
ghost use Rattle.pop3_wire.specs.{Line.crlf, Commands.{can_be_sent, line_of}};
ghost use Rattle.mail_terms.specs.Credential.{is_credential};

use crate::fault::WireFault;
use mail_terms::{Bytes, is_credential};
use std::alloc::Global;

/// A command of POP3. Message numbers are counted from 1; 0 can be written and asks for no message.
#[derive(Drop)]
pub enum Command {
    /// The user's name: 1 to 500 bytes without CR, LF and NUL.
    User(Bytes),
    /// The password: 1 to 500 bytes without CR, LF and NUL.
    Pass(Bytes),
    /// The number of messages and their octets.
    Stat,
    /// The unique ids of all messages.
    UidlAll,
    /// The unique id of one message.
    UidlOne(u32),
    /// The sizes of all messages.
    ListAll,
    /// The size of one message.
    ListOne(u32),
    /// A message.
    Retr(u32),
    /// Marks a message as deleted.
    Dele(u32),
    /// Unmarks all messages.
    Rset,
    /// Does nothing.
    Noop,
    /// The head of a message, and the given number of lines after it.
    Top(u32, u32),
    /// Ends the session; the server then removes the marked messages.
    Quit,
}

/// The line of a keyword and an argument.
fn text_line(alloc: Global, keyword: &[u8], argument: &[u8]) -> Result<Vec<u8>, WireFault>
    ensures ok { IfOk result (λ v. (is_credential argument.now ≡ true)
        × (v.items ≡ keyword.now ++ argument.now ++ crlf)) }
    ensures err { IfErr result (λ e. ((e ≡ WireFault.BadArgument) × (is_credential argument.now ≡ false))
        ⊎ ((e ≡ WireFault.NoMemory) × (is_credential argument.now ≡ true))) }
{
    if !is_credential(argument) {
        return Err(WireFault::BadArgument);
    }
    let mut line = Vec::new(alloc);
    line.extend_from_slice(keyword)?;
    line.extend_from_slice(argument)?;
    line.extend_from_slice(b"\r\n")?;
    Ok(line)
}

/// The line of a keyword alone.
fn bare_line(alloc: Global, keyword: &str) -> Result<Vec<u8>, WireFault>
    ensures ok { IfOk result (λ v. v.items ≡ keyword.now ++ crlf) }
    ensures err { IfErr result (λ e. e ≡ WireFault.NoMemory) }
{
    Ok(format!(in alloc; "{keyword}\r\n")?.into_bytes())
}

/// The line of a keyword and a number.
fn number_line(alloc: Global, keyword: &str, number: u32) -> Result<Vec<u8>, WireFault>
    ensures ok { IfOk result (λ v. v.items ≡ keyword.now ++ (codes " " ++ (decimal number ++ crlf))) }
    ensures err { IfErr result (λ e. e ≡ WireFault.NoMemory) }
{
    Ok(format!(in alloc; "{keyword} {number}\r\n")?.into_bytes())
}

/// The line that asks for a command, with its CR LF: the keyword in upper case, single spaces,
/// numerals without leading zeros. BadArgument for an argument of USER or PASS that is empty, is
/// longer than 500 bytes or holds CR, LF or NUL.
#[tactic(auto, unfolding(crate::specs::Commands::line_of))]
pub fn command_bytes(alloc: Global, command: &Command) -> Result<Vec<u8>, WireFault>
    ensures ok { IfOk result (λ v. (can_be_sent command.now ≡ true) × (v.items ≡ line_of command.now ++ crlf)) }
    ensures err { IfErr result (λ e. ((e ≡ WireFault.BadArgument) × (can_be_sent command.now ≡ false))
        ⊎ ((e ≡ WireFault.NoMemory) × (can_be_sent command.now ≡ true))) }
{
    match command {
        Command::User(name) => text_line(alloc, b"USER ", name.as_slice()),
        Command::Pass(password) => text_line(alloc, b"PASS ", password.as_slice()),
        Command::Stat => bare_line(alloc, "STAT"),
        Command::UidlAll => bare_line(alloc, "UIDL"),
        Command::UidlOne(number) => number_line(alloc, "UIDL", *number),
        Command::ListAll => bare_line(alloc, "LIST"),
        Command::ListOne(number) => number_line(alloc, "LIST", *number),
        Command::Retr(number) => number_line(alloc, "RETR", *number),
        Command::Dele(number) => number_line(alloc, "DELE", *number),
        Command::Rset => bare_line(alloc, "RSET"),
        Command::Noop => bare_line(alloc, "NOOP"),
        Command::Top(number, lines) => Ok(format!(in alloc;
            "TOP {number} {lines}\r\n"
        )?.into_bytes()),
        Command::Quit => bare_line(alloc, "QUIT"),
    }
}
