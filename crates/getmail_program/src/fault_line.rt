//! The line of a fault.
ghost use Rattle.std.specs.{Prelude.{◌≡◌, ◌++◌, IfOk, codes}, String.string_bytes};
ghost use Rattle.session_parts.specs.Text.{asked_text, fault_text};
ghost use Rattle.getmail_setup.specs.Output.{Puts, number_text};
ghost use Rattle.getmail_program.specs.Telling.{told_fault_line};

use fetch_session::{Fault, Why, fault_text};
use getmail_setup::Output;
use pop3_client::Asked;
use std::alloc::{AllocError, Global};
use std::io::Write;

/// The words on a refused reply, and the number behind them.
fn refused_words(asked: Asked) -> (&'static str, Option<u32>)
    ensures { codes "server refused " ++ asked_text asked ≡ result.0.now ++ number_text result.1 }
{
    match asked {
        Asked::Greeting => ("server refused greeting", None),
        Asked::User => ("server refused USER", None),
        Asked::Pass => ("server refused PASS", None),
        Asked::Stat => ("server refused STAT", None),
        Asked::Uidl => ("server refused UIDL", None),
        Asked::List => ("server refused LIST", None),
        Asked::Retr(number) => ("server refused RETR ", Some(number)),
        Asked::Dele(number) => ("server refused DELE ", Some(number)),
        Asked::Rset => ("server refused RSET", None),
        Asked::Quit => ("server refused QUIT", None),
    }
}

/// The words on a fault, and the number behind them.
fn words_of(fault: &Fault) -> (&'static str, Option<u32>)
    ensures { fault_text fault.now ≡ result.0.now ++ number_text result.1 }
{
    match *fault {
        Fault::ConnectionEnded => ("connection ended by the server", None),
        Fault::ReadFailed => ("reading from the server failed", None),
        Fault::WriteFailed => ("writing to the server failed", None),
        Fault::ReplyTooLong => ("reply line too long", None),
        Fault::BadReply => ("reply not understood", None),
        Fault::Refused(asked) => refused_words(asked),
        Fault::BadListing => ("listing not understood", None),
        Fault::ListingsDisagree => ("listings disagree", None),
        Fault::TooMany => ("too many messages", None),
        Fault::TextTooLong => ("message too long", None),
        Fault::StoreRefused(Why::Missing) => ("destination missing", None),
        Fault::StoreRefused(Why::Refused) => ("destination refused", None),
        Fault::StoreRefused(Why::NotMbox) => ("destination is no mbox", None),
        Fault::SeenRefused => ("seen file refused", None),
        Fault::NoMemory => ("out of memory", None),
        Fault::BadSeen(line) => ("seen file not understood at line ", Some(line)),
    }
}

/// The line of a fault.
fn fault_line(alloc: Global, fault: &Fault) -> Result<String, AllocError>
    ensures { IfOk result (λ line. string_bytes line ≡ told_fault_line fault.now) }
{
    let text = fault_text(alloc, fault)?;
    format!(in alloc; "getmail: {text}\n")
}

/// Writes the line of a fault in pieces, which needs no memory.
fn put_pieces<E: Write>(fault: &Fault, err: &mut Output<E>)
    ensures { Puts E.contents err.old (told_fault_line fault.now) err.new }
{
    let (words, number) = words_of(fault);
    err.put(b"getmail: ");
    err.put(words.as_bytes());
    err.put_number(number);
    err.put(b"\n");
}

/// Writes the line of a fault: at once if there is memory for it.
pub fn put_fault<E: Write>(alloc: Global, fault: &Fault, err: &mut Output<E>)
    ensures { Puts E.contents err.old (told_fault_line fault.now) err.new }
{
    match fault_line(alloc, fault) {
        Ok(line) => err.put(line.as_bytes()),
        Err(_) => put_pieces(fault, err),
    }
}
