//! Serving a link: the greeting, and an answer to each line.
ghost use Rattle.std.specs.Prelude.{◌≡◌, ◌≤◌, ◌+◌, not, true, IfOk, IfErr, IfSome, IsSome, vec_capacity};
ghost use Rattle.pop3_wire.specs.Link.{CountsFailure, CountsRefusal, Sends, WhereSound};
ghost use Rattle.pop3_server.specs.{ServerMachine.is_open, Serving.{SendsAnswer, ServedLines, is_server_refusal}};

use crate::fault::ServerFault;
use crate::intake::{Intake, NextLine};
use crate::journal::{Journal, NoJournal};
use crate::maildrop::Maildrop;
use crate::server::{Begun, Server};
use crate::text_part::{ROOM, TextBody};
use pop3_wire::{Note, Wire, cut_line};

/// How many octets of a text are gathered before they are sent, if more of it follows.
const CHUNK: usize = 65_536;

/// Tells the link of a piece of an answer: its first line, and what it has of a body. `is_first` and
/// `is_last` say whether the answer begins and ends with it.
fn tell_piece<W: Wire>(wire: &mut W, piece: &[u8], is_first: bool, is_last: bool)
    ensures same { W.history wire.new ≡ W.history wire.old }
    ensures kept { W.sound wire.new → W.sound wire.old × W.leads_to wire.old wire.new }
{
    let mut body = piece;
    if is_first {
        let (line, rest) = cut_line(piece).unwrap_or((piece, b""));
        wire.note(Note::Reply(line));
        if rest.is_empty() {
            return;
        }
        body = rest;
    }
    let mut text = body;
    if is_last {
        text = body.strip_suffix(b".\r\n".as_slice()).unwrap_or(body);
    }
    wire.note(Note::Body {
        text,
        octets: body.len(),
        ended: is_last,
    });
}

/// Sends a piece of an answer, all of it at once.
fn send<W: Wire>(
    wire: &mut W,
    bytes: &[u8],
    is_first: bool,
    is_last: bool,
) -> Result<(), ServerFault>
    ensures counted { CountsFailure (W.history wire.old) result (W.history wire.new) }
    ensures err { IfErr result (λ e. e ≡ ServerFault.WriteFailed) }
    ensures sends { WhereSound W.sound W.leads_to wire.old wire.new
        (Sends (W.history wire.old) bytes.now result (W.history wire.new)) }
{
    tell_piece(wire, bytes, is_first, is_last);
    match wire.send(bytes) {
        Ok(()) => Ok(()),
        Err(_) => Err(ServerFault::WriteFailed),
    }
}

/// Reserves room in a buffer for what follows of a text, if one follows.
fn make_room(buffer: &mut Vec<u8>, rest: &Option<TextBody>) -> Result<(), ServerFault>
    ensures same { buffer.new.items ≡ buffer.old.items }
    ensures room { IfOk result (λ _. IfSome rest.now (λ _. CHUNK + ROOM ≤ vec_capacity buffer.new)) }
    ensures err { IfErr result (λ e. (e ≡ ServerFault.NoMemory) × IsSome rest.now) }
{
    if rest.is_none() {
        return Ok(());
    }
    let room = (CHUNK + ROOM).saturating_sub(buffer.len());
    Ok(buffer.reserve(room)?)
}

/// Answers a line, and returns whether the session is over. A long text is sent as it is read, one
/// buffer after another; room for them is reserved before anything is sent.
fn answer_line<D: Maildrop, W: Wire, J: Journal>(
    server: &mut Server<D>,
    wire: &mut W,
    journal: &mut J,
    line: &[u8],
) -> Result<bool, ServerFault>
    requires { is_open server.old.state ≡ true }
    ensures counted { CountsRefusal is_server_refusal (W.history wire.old) result (W.history wire.new) }
    ensures closing { IfOk result (λ closing. closing ≡ not (is_open server.new.state)) }
    ensures removals { is_open server.new.state ≡ true
        → (D.mail server.new.drop).removals ≡ (D.mail server.old.drop).removals }
    ensures answers { WhereSound W.sound W.leads_to wire.old wire.new
        (SendsAnswer D.sound D.mail server.old line.now (W.history wire.old) result server.new (W.history wire.new)) }
{
    wire.note(Note::Command(None, line));
    let Begun { answer, mut rest } = server.begin(line, CHUNK)?;
    if let Some(event) = answer.event {
        journal.note(event);
    }
    let closing = answer.closing;
    let mut bytes = answer.bytes;
    let mut is_first = true;
    make_room(&mut bytes, &rest)?;
    loop {
        send(wire, bytes.as_slice(), is_first, rest.is_none())?;
        is_first = false;
        let Some(text) = rest else {
            return Ok(closing);
        };
        bytes.clear();
        rest = server.go_on(text, &mut bytes, CHUNK)?;
    }
}

/// Serves a link (RFC 1939): sends the greeting, then an answer to each line, until QUIT or the end
/// of input. Each answer is sent whole before the link is asked for more. A long text is sent as it
/// is read, so that the memory needed doesn't grow with it.
///
/// A line longer than 512 octets, its CR LF included, is read to its CR LF, and the answer is
/// `-ERR bad command`. At most 16,777,216 octets are read; what follows is treated as the end of
/// input. The server must be open, which `Server::is_open` tests.
///
/// ReadFailed or WriteFailed if the link refused a call; MaildropFailed if the maildrop refused a
/// part of a text after other parts of it were sent; NoMemory if memory ran out, before anything
/// of the answer was sent. After a fault nothing more is sent, and no message is removed that
/// QUIT hadn't removed. A journal is told of each event before the answer to its line is sent.
pub fn serve_and_note<D: Maildrop, W: Wire, J: Journal>(
    server: &mut Server<D>,
    wire: &mut W,
    journal: &mut J,
) -> Result<(), ServerFault>
    requires { is_open server.old.state ≡ true }
    ensures counted { CountsRefusal is_server_refusal (W.history wire.old) result (W.history wire.new) }
    ensures removals { is_open server.new.state ≡ true
        → (D.mail server.new.drop).removals ≡ (D.mail server.old.drop).removals }
    ensures served { WhereSound W.sound W.leads_to wire.old wire.new
        (ServedLines D.sound D.mail server.old (W.history wire.old) result server.new (W.history wire.new)) }
{
    let hello = server.greeting()?;
    send(wire, hello.bytes.as_slice(), true, true)?;
    let mut intake = Intake::new();
    loop {
        match intake.next(wire)? {
            NextLine::End => return Ok(()),
            NextLine::LongLine => {
                send(wire, b"-ERR bad command\r\n", true, true)?;
            }
            NextLine::Line(length) => {
                let line = &intake.waiting()[..length];
                let closing = answer_line(server, wire, journal, line)?;
                intake.skip(length + 2);
                if closing {
                    return Ok(());
                }
            }
        }
    }
}

/// Does what `serve_and_note` does, without a journal.
pub fn serve<D: Maildrop, W: Wire>(server: &mut Server<D>, wire: &mut W) -> Result<(), ServerFault>
    requires { is_open server.old.state ≡ true }
    ensures counted { CountsRefusal is_server_refusal (W.history wire.old) result (W.history wire.new) }
    ensures removals { is_open server.new.state ≡ true
        → (D.mail server.new.drop).removals ≡ (D.mail server.old.drop).removals }
    ensures served { WhereSound W.sound W.leads_to wire.old wire.new
        (ServedLines D.sound D.mail server.old (W.history wire.old) result server.new (W.history wire.new)) }
{
    serve_and_note(server, wire, &mut NoJournal)
}
