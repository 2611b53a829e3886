//! The lines after a fault's: the account, and the reason.
ghost use Rattle.std.specs.{Prelude.{◌≡◌, ◌++◌, IfOk, codes}, String.string_bytes};
ghost use Rattle.getmail_program.specs.Reasons.{ended_hint, hint_text, is_by_a_tunnel, line_if_any, or_else, place_in};
ghost use Rattle.getmail_program.specs.Reasons.{missing_hint, plain_hint, reason_line, reason_text, reasons_of};
ghost use Rattle.getmail_program.specs.Reasons.{login_hint, reasons_said, record_hint, rights_hint, rows_text};
ghost use Rattle.getmail_program.specs.Reasons.{says_cause, tunnel_hint, unread_text, wants_tls};

use crate::findings::Findings;
use fetch_rules::{Dest, Settings};
use fetch_session::{Fault, Outcome, Why};
use getmail_setup::{account_name, is_near};
use pop3_client::Asked;
use std::alloc::{AllocError, Global};
use trace::Said;

/// Two texts that follow each other.
fn concat(alloc: Global, first: &[u8], second: &[u8]) -> Result<Vec<u8>, AllocError>
    ensures { IfOk result (λ text. text.items ≡ first.now ++ second.now) }
{
    [first, second].concat(alloc)
}

/// Four texts that follow each other.
fn concat_four(
    alloc: Global,
    first: &[u8],
    second: &[u8],
    third: &[u8],
    fourth: &[u8],
) -> Result<Vec<u8>, AllocError>
    ensures { IfOk result (λ text. text.items ≡ first.now ++ (second.now ++ (third.now ++ fourth.now))) }
{
    [first, second, third, fourth].concat(alloc)
}

/// The part of a conversation that was under way.
fn place_in(alloc: Global, said: &Said) -> Result<Vec<u8>, AllocError>
    ensures { IfOk result (λ place. place.items ≡ place_in said.now) }
{
    if said.command.is_empty() {
        return Vec::from_slice(alloc, b"before the greeting");
    }
    concat(alloc, b"in the reply to ", &said.command)
}

/// Words, and the part of the conversation that was under way.
fn at_place(alloc: Global, words: &[u8], said: &Said) -> Result<Vec<u8>, AllocError>
    ensures { IfOk result (λ text. text.items ≡ words.now ++ place_in said.now) }
{
    let place = place_in(alloc, said)?;
    concat(alloc, words, &place)
}

/// The first text, unless it is empty.
fn or_else(alloc: Global, first: &[u8], second: Vec<u8>) -> Result<Vec<u8>, AllocError>
    ensures { IfOk result (λ text. text.items ≡ or_else first.now second.items) }
{
    if first.is_empty() {
        return Ok(second);
    }
    Vec::from_slice(alloc, first)
}

/// How many rows answered UIDL and LIST.
fn rows_text(alloc: Global, said: &Said) -> Result<String, AllocError>
    ensures { IfOk result (λ text. string_bytes text ≡ rows_text said.now) }
{
    let Said { uids, sizes, .. } = said;
    format!(in alloc; ", UIDL has {uids} rows and LIST {sizes}")
}

/// That octets came without a whole line, if so.
fn unread_text(alloc: Global, unread: u64) -> Result<String, AllocError>
    ensures { IfOk result (λ text. string_bytes text ≡ unread_text unread) }
{
    if unread == 0 {
        return Ok(String::new(alloc));
    }
    if unread == 1 {
        return String::from_str(alloc, ": 1 octet, no line with CR LF");
    }
    format!(in alloc; ": {unread} octets, no line with CR LF")
}

/// Why a connection ended or failed, and what came before that of a line.
fn with_unread(alloc: Global, words: &[u8], found: &Findings<'_>) -> Result<Vec<u8>, AllocError>
    ensures { IfOk result (λ text. text.items ≡ words.now ++ unread_text found.now.unread) }
{
    let unread = unread_text(alloc, found.unread)?;
    concat(alloc, words, unread.as_bytes())
}

/// What was refused at a path, which is told if nothing else was noted.
fn refused_at(alloc: Global, found: &Findings<'_>, path: &str) -> Result<Vec<u8>, AllocError>
    ensures { IfOk result (λ text. text.items
        ≡ or_else found.now.refused.items (path.now ++ codes ": the system gave no reason")) }
{
    let text = concat(alloc, path.as_bytes(), b": the system gave no reason")?;
    or_else(alloc, &found.refused, text)
}

/// What an mboxrd file isn't.
const NO_MBOX: &[u8] =
    b": it isn't empty, and has no `From ` at its front or no empty line at its end";

/// What a line of a record's file isn't.
const NO_LINE: &[u8] = b": a record has no such line";

/// Where a fault is, with what the server said or the system refused, if that was noted: there is a text for
/// each fault.
fn reason_text(alloc: Global, fault: &Fault, found: &Findings<'_>) -> Result<Vec<u8>, AllocError>
    ensures { IfOk result (λ text. text.items ≡ reason_text fault.now found.now) }
{
    let said = &found.said;
    let command = said.command.as_slice();
    match fault {
        Fault::ConnectionEnded => with_unread(alloc, &at_place(alloc, b"it ended ", said)?, found),
        Fault::ReadFailed => {
            let failed = or_else(alloc, &found.refused, at_place(alloc, b"it failed ", said)?)?;
            with_unread(alloc, &failed, found)
        }
        Fault::WriteFailed => or_else(alloc, &found.refused, at_place(alloc, b"it failed ", said)?),
        Fault::ReplyTooLong => at_place(alloc, b"2048 octets hold no whole line, ", said),
        Fault::BadReply | Fault::Refused(_) => concat(alloc, b"the server said: ", &said.answer),
        Fault::BadListing => {
            concat_four(
                alloc,
                b"the reply to ",
                command,
                b" has the row: ",
                &said.row,
            )
        }
        Fault::ListingsDisagree => {
            let counts = concat(alloc, &said.count, rows_text(alloc, said)?.as_bytes())?;
            concat(alloc, b"the answer to STAT is ", &counts)
        }
        Fault::TooMany => {
            let words = b"100000 can be fetched; the answer to ";
            concat_four(alloc, words, command, b" is ", &said.answer)
        }
        Fault::TextTooLong => at_place(alloc, b"268435456 octets hold no whole message, ", said),
        Fault::StoreRefused(Why::NotMbox) => concat(alloc, found.destination.as_bytes(), NO_MBOX),
        Fault::StoreRefused(_) => refused_at(alloc, found, found.destination),
        Fault::SeenRefused => refused_at(alloc, found, found.record),
        Fault::NoMemory => at_place(alloc, b"it ran out ", said),
        Fault::BadSeen(_) => concat(alloc, found.record.as_bytes(), NO_LINE),
    }
}

/// Whether nothing came and nothing was sent, and the server is on this machine.
fn is_by_a_tunnel(settings: &Settings, found: &Findings<'_>) -> bool
    ensures { result ≡ is_by_a_tunnel settings.now found.now }
{
    found.unread == 0 && found.said.command.is_empty() && is_near(settings.server.as_str())
}

/// Where a tunnel says why it ended a connection at once; empty if no tunnel did.
fn tunnel_hint(settings: &Settings, found: &Findings<'_>) -> &'static str
    ensures { result.now ≡ tunnel_hint settings.now found.now }
{
    if is_by_a_tunnel(settings, found) {
        "the tunnel's own log says why: journalctl --user -u getmail-tunnel, or the file that stunnel.conf names"
    } else {
        ""
    }
}

/// What may help if a server ends the connection: some do at each DELE.
fn ended_hint(settings: &Settings, found: &Findings<'_>) -> &'static str
    ensures { result.now ≡ ended_hint settings.now found.now }
{
    if found.said.command.starts_with(b"DELE ") {
        "if it ends at each DELE, this server deletes nothing: set delete = false, and mail is fetched"
    } else {
        tunnel_hint(settings, found)
    }
}

/// How a destination that is missing is made.
fn missing_hint(dest: &Dest) -> &'static str
    ensures { result.now ≡ missing_hint dest.now }
{
    match dest {
        Dest::Maildir(_) => {
            "is its disk mounted? else mkdir -p makes it: a Maildir is a folder with the folders cur, new and tmp"
        }
        Dest::Mboxrd(_) =>
            "is its disk mounted? else touch makes it: an empty file is an mbox file",
    }
}

/// What it costs to move a record away that isn't understood.
fn record_hint(dest: &Dest) -> &'static str
    ensures { result.now ≡ record_hint dest.now }
{
    match dest {
        Dest::Maildir(_) => {
            "a run makes a new one if it is moved away: what the Maildir holds isn't stored again, all else is"
        }
        Dest::Mboxrd(_) => {
            "a run makes a new one if it is moved away: all mail then comes into the mbox file again"
        }
    }
}

/// How rights that are missing are given.
fn rights_hint(found: &Findings<'_>) -> &'static str
    ensures { result.now ≡ rights_hint found.now }
{
    if found.is_denied {
        "it wants rights to read and write: chmod -R u+rwX gives them, if it is yours"
    } else {
        ""
    }
}

/// Whether an answer has another response code than AUTH, which says the cause itself (RFC 2449, RFC 3206).
fn says_cause(answer: &[u8]) -> bool
    ensures { result ≡ says_cause answer.now }
{
    answer.starts_with(b"-ERR [") && !answer.starts_with(b"-ERR [AUTH]")
}

/// Whether an answer says that passwords are taken over TLS alone.
fn wants_tls(answer: &[u8]) -> bool
    ensures { result ≡ wants_tls answer.now }
{
    answer.starts_with(b"-ERR [AUTH] Plaintext authentication disallowed")
        || answer.starts_with(b"-ERR Plaintext authentication disallowed")
}

/// A server that wants TLS can be reached by a tunnel.
fn plain_hint(found: &Findings<'_>) -> &'static str
    ensures { result.now ≡ plain_hint found.now }
{
    if wants_tls(&found.said.answer) {
        "this server takes passwords over TLS alone: use a tunnel, as getmail(1) says under TLS"
    } else {
        ""
    }
}

/// A name or a password that is wrong can be mended.
fn login_hint(found: &Findings<'_>) -> &'static str
    ensures { result.now ≡ login_hint found.now }
{
    if wants_tls(&found.said.answer) {
        plain_hint(found)
    } else if says_cause(&found.said.answer) {
        ""
    } else {
        "username or password is wrong; in the rc file a comment has a line of its own"
    }
}

/// What else may help, where there is one remedy; empty if nothing is known to.
fn hint_text(settings: &Settings, fault: &Fault, found: &Findings<'_>) -> &'static str
    ensures { result.now ≡ hint_text settings.now fault.now found.now }
{
    match fault {
        Fault::ConnectionEnded | Fault::ReadFailed => ended_hint(settings, found),
        Fault::BadReply if found.said.command.is_empty() => {
            "no POP3 server answers there: most have port 110"
        }
        Fault::Refused(Asked::User) => plain_hint(found),
        Fault::Refused(Asked::Pass) => login_hint(found),
        Fault::StoreRefused(Why::Missing) => missing_hint(&settings.dest),
        Fault::StoreRefused(Why::Refused) | Fault::SeenRefused => rights_hint(found),
        Fault::TextTooLong => "max_message_size passes such a message over",
        Fault::BadSeen(_) => record_hint(&settings.dest),
        _ => "",
    }
}

/// The line of a reason: `getmail: `, the account, and the reason.
pub fn line_of(alloc: Global, settings: &Settings, reason: &[u8]) -> Result<Vec<u8>, AllocError>
    ensures { IfOk result (λ line. line.items ≡ reason_line settings.now reason.now) }
{
    let account = account_name(alloc, settings)?;
    let front = format!(in alloc; "getmail: {account}: ")?;
    let mut line = Vec::from_slice(alloc, front.as_bytes())?;
    line.extend_from_slice(reason)?;
    line.extend_from_slice(b"\n")?;
    Ok(line)
}

/// Such a line, if it has words.
fn line_with(alloc: Global, settings: &Settings, words: &str) -> Result<Vec<u8>, AllocError>
    ensures { IfOk result (λ line. line.items ≡ line_if_any settings.now words.now) }
{
    if words.is_empty() {
        return Ok(Vec::new(alloc));
    }
    line_of(alloc, settings, words.as_bytes())
}

/// The lines after that of a fault: its reason, and then a hint, if there is one.
fn reasons_of(
    alloc: Global,
    settings: &Settings,
    fault: &Fault,
    found: &Findings<'_>,
) -> Result<Vec<u8>, AllocError>
    ensures { IfOk result (λ lines. lines.items ≡ reasons_of settings.now fault.now found.now) }
{
    let reason = reason_text(alloc, fault, found)?;
    let line = line_of(alloc, settings, &reason)?;
    let hint = line_with(alloc, settings, hint_text(settings, fault, found))?;
    concat(alloc, &line, &hint)
}

/// What is said of an outcome, if reasons are asked for.
pub fn reasons_said(
    alloc: Global,
    settings: &Settings,
    says_why: bool,
    outcome: &Outcome,
    found: &Findings<'_>,
) -> Result<Vec<u8>, AllocError>
    ensures { IfOk result (λ lines. lines.items ≡ reasons_said settings.now says_why outcome.now found.now) }
{
    match (says_why, outcome) {
        (true, Outcome::Cut(fault)) => reasons_of(alloc, settings, fault, found),
        _ => Ok(Vec::new(alloc)),
    }
}
