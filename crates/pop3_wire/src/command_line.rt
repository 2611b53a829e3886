//! The command that a line asks for (RFC 1939, sections 3 and 5 to 7).

ghost use Rattle.std.specs.{
  Prelude.{◌≡◌, ◌⊎◌, [], ◌∷◌, Ok, Err, IfOk, IfErr, IsOk, MatchOption},
  List.{before_first, after_first, slice_split},
};
ghost use Rattle.pop3_wire.specs.{
  Fields.is_space,
  CommandLine.{trimmed, arguments, after_keyword, text_argument, argument_number, no_argument, one_number, two_numbers},
  CommandLine.{number_or_none, command_by, command_of, CarriesBytes, ReadAsWritten, CommandsAreLines},
  Honest.{OneListOfCommands, FrontsAreAsked},
};

use crate::command::Command;
use crate::fault::WireFault;
use crate::fields::{field_length, number};
use crate::keyword::{Keyword, read_keyword};
use mail_terms::{Bytes, is_credential};
use std::alloc::Global;

/// How many bytes the line of a command may have, without its CR LF.
const COMMAND_LIMIT: usize = 510;

/// The bytes before the first space, and those after it, if there is a space.
fn cut_word(bytes: &[u8]) -> (&[u8], Option<&[u8]>)
    ensures word { result.0.now ≡ before_first is_space bytes.now }
    ensures rest { MatchOption result.1
        ((slice_split is_space bytes.now ≡ result.0.now ∷ []) × (after_first is_space bytes.now ≡ []))
        (λ rest. (slice_split is_space bytes.now ≡ result.0.now ∷ slice_split is_space rest.now)
        × (after_first is_space bytes.now ≡ rest.now)) }
{
    let length = field_length(bytes);
    if length == bytes.len() {
        return (bytes, None);
    }
    (&bytes[..length], Some(&bytes[length + 1..]))
}

/// The line without the spaces at its end.
fn without_spaces(line: &[u8]) -> &[u8]
    ensures { result.now ≡ trimmed line.now }
{
    let mut length = line.len();
    while length > 0 && line[length - 1] == b' ' {
        length -= 1;
    }
    &line[..length]
}

/// The bytes after the keyword, without the spaces at the line's end.
#[tactic(auto, unfolding(crate::specs::CommandLine::arguments))]
fn behind_keyword(line: &[u8]) -> Option<&[u8]>
    ensures { MatchOption result (arguments line.now ≡ [])
        (λ rest. arguments line.now ≡ slice_split is_space rest.now) }
{
    let (_, rest) = cut_word(without_spaces(line));
    rest
}

/// The argument of USER or PASS: all that follows the space after the keyword, spaces included.
#[tactic(auto, unfolding(crate::specs::CommandLine::text_argument))]
fn text_argument(alloc: Global, line: &[u8]) -> Result<Bytes, WireFault>
    ensures ok { IfOk result (λ text. text_argument (after_keyword line.now) ≡ Ok text) }
    ensures err { IfErr result (λ e. (text_argument (after_keyword line.now) ≡ Err e)
        ⊎ ((e ≡ WireFault.NoMemory) × IsOk (text_argument (after_keyword line.now)))) }
{
    let text = cut_word(line).1.unwrap_or(b"");
    if !is_credential(text) {
        return Err(WireFault::BadArgument);
    }
    Ok(Bytes::from_vec(Vec::from_slice(alloc, text)?))
}

/// A number of 1 to 10 digits, below 2^32.
#[tactic(auto, unfolding(crate::specs::CommandLine::argument_number))]
fn argument_number(word: &[u8]) -> Result<u32, WireFault>
    ensures { result ≡ argument_number word.now }
{
    if word.len() > 10 {
        return Err(WireFault::BadNumber);
    }
    Ok(number(4_294_967_295, word)? as u32)
}

/// Checks that there is no argument.
#[tactic(auto, using(crate::proofs::RowsLemmas::some_part), unfolding(crate::specs::CommandLine::no_argument))]
fn no_argument(line: &[u8]) -> Result<(), WireFault>
    ensures { result ≡ no_argument (arguments line.now) }
{
    match behind_keyword(line) {
        None => Ok(()),
        Some(_) => Err(WireFault::BadArgument),
    }
}

/// The one argument, a number.
#[tactic(auto, using(crate::proofs::RowsLemmas::some_part), unfolding(crate::specs::CommandLine::one_number))]
fn one_number(line: &[u8]) -> Result<u32, WireFault>
    ensures { result ≡ one_number (arguments line.now) }
{
    let Some(rest) = behind_keyword(line) else {
        return Err(WireFault::BadArgument);
    };
    match cut_word(rest) {
        (word, None) => argument_number(word),
        (_, Some(_)) => Err(WireFault::BadArgument),
    }
}

/// The one argument, a number, if there is one.
#[tactic(auto, using(crate::proofs::RowsLemmas::some_part), unfolding(crate::specs::CommandLine::number_or_none))]
fn number_or_none(line: &[u8]) -> Result<Option<u32>, WireFault>
    ensures { result ≡ number_or_none (arguments line.now) }
{
    let Some(rest) = behind_keyword(line) else {
        return Ok(None);
    };
    match cut_word(rest) {
        (word, None) => Ok(Some(argument_number(word)?)),
        (_, Some(_)) => Err(WireFault::BadArgument),
    }
}

/// The two arguments, both numbers.
#[tactic(auto, using(crate::proofs::RowsLemmas::some_part), unfolding(crate::specs::CommandLine::two_numbers))]
fn two_numbers(line: &[u8]) -> Result<(u32, u32), WireFault>
    ensures { result ≡ two_numbers (arguments line.now) }
{
    let Some(rest) = behind_keyword(line) else {
        return Err(WireFault::BadArgument);
    };
    let (first, after) = cut_word(rest);
    let Some(after) = after else {
        return Err(WireFault::BadArgument);
    };
    match cut_word(after) {
        (second, None) => Ok((argument_number(first)?, argument_number(second)?)),
        (_, Some(_)) => Err(WireFault::BadArgument),
    }
}

/// The command of a keyword and a line.
#[tactic(auto, unfolding(crate::specs::CommandLine::command_by))]
fn read_by(alloc: Global, keyword: Option<Keyword>, line: &[u8]) -> Result<Command, WireFault>
    ensures ok { IfOk result (λ c. command_by keyword (after_keyword line.now) (arguments line.now) ≡ Ok c) }
    ensures err { IfErr result (λ e. (command_by keyword (after_keyword line.now) (arguments line.now) ≡ Err e)
        ⊎ ((e ≡ WireFault.NoMemory) × IsOk (command_by keyword (after_keyword line.now) (arguments line.now)))) }
    ensures memory { IfErr result (λ e. e ≡ WireFault.NoMemory
        → IfOk (command_by keyword (after_keyword line.now) (arguments line.now)) CarriesBytes) }
{
    let Some(keyword) = keyword else {
        return Err(WireFault::BadCommand);
    };
    match keyword {
        Keyword::User => Ok(Command::User(text_argument(alloc, line)?)),
        Keyword::Pass => Ok(Command::Pass(text_argument(alloc, line)?)),
        Keyword::Stat => no_argument(line).and(Ok(Command::Stat)),
        Keyword::Uidl => match number_or_none(line)? {
            None => Ok(Command::UidlAll),
            Some(number) => Ok(Command::UidlOne(number)),
        },
        Keyword::List => match number_or_none(line)? {
            None => Ok(Command::ListAll),
            Some(number) => Ok(Command::ListOne(number)),
        },
        Keyword::Retr => Ok(Command::Retr(one_number(line)?)),
        Keyword::Dele => Ok(Command::Dele(one_number(line)?)),
        Keyword::Rset => no_argument(line).and(Ok(Command::Rset)),
        Keyword::Noop => no_argument(line).and(Ok(Command::Noop)),
        Keyword::Top => {
            let (number, lines) = two_numbers(line)?;
            Ok(Command::Top(number, lines))
        }
        Keyword::Quit => no_argument(line).and(Ok(Command::Quit)),
    }
}

/// The command that a line without its CR LF asks for. The keyword, in upper or lower case, ends at
/// the first space; USER and PASS take all that follows as their argument, the others split it at
/// single spaces. BadCommand for an unknown keyword and for a line of more than
/// 510 bytes; BadArgument for another count of arguments and for an argument of USER or PASS that
/// `command_bytes` refuses; BadNumber for a number that isn't 1 to 10 digits or is above 2^32 - 1;
/// NoMemory only for USER and PASS, whose argument is copied.
#[tactic(auto, unfolding(crate::specs::CommandLine::command_of))]
pub fn read_command(alloc: Global, line: &[u8]) -> Result<Command, WireFault>
    ensures ok { IfOk result (λ c. command_of line.now ≡ Ok c) }
    ensures err { IfErr result (λ e. (command_of line.now ≡ Err e)
        ⊎ ((e ≡ WireFault.NoMemory) × IsOk (command_of line.now))) }
    ensures memory { IfErr result (λ e. e ≡ WireFault.NoMemory → IfOk (command_of line.now) CarriesBytes) }
{
    if line.len() > COMMAND_LIMIT {
        return Err(WireFault::BadCommand);
    }
    read_by(alloc, read_keyword(cut_word(line).0), line)
}

/// The line that asks for a command is read as that command, whatever it is.
#[tactic(auto, using(crate::proofs::RowsLemmas::round_trip))]
pub fn read_as_written()
    ensures { ReadAsWritten }
{}

/// The line of a command that can be sent is one line.
#[tactic(auto, using(crate::proofs::RowsLemmas::is_line))]
pub fn commands_are_lines()
    ensures { CommandsAreLines }
{}

/// The octets sent determine which commands were sent whole.
pub fn only_one_list_of_commands()
    ensures { OneListOfCommands }
{}

/// A prefix of the octets of some commands is the first few of them whole, and perhaps a part of the
/// next.
#[tactic(auto, using(crate::proofs::RowsLemmas::fronts_are_asked))]
pub fn fronts_are_asked()
    ensures { FrontsAreAsked }
{}
