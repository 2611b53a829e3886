//! What a server does for each command: the table of states and commands (RFC 1939, sections 4 to 7).
ghost use Rattle.std.specs.Prelude.{◌≡◌, ◌<◌, ◌-◌, ℕ, Option, slice_get, Some, true, None, IfOk, IfErr, IfSome, ◌++◌};
ghost use Rattle.std.specs.Prelude.{MatchResult, bytes_eq, codes};
ghost use Rattle.pop3_server.specs.{
  declared.{rows.MessageRow.MessageRow, state.State.{State, TheVariants.{Authorization, Transaction, Closed}}},
  Maildrop.HasPlace,
  ServerMachine.{Say, Open, SamePlaces, Unanswered, Tied, Tries, Empties, with_marked, in_authorization, give, next_of},
  ServerMachine.{in_transaction, is_about_rows, said, of_row, row_numbered},
  ReplyLines.{row_line, text_line},
  TextAnswer.{AnswersOrBegins, Follows},
};
ghost use Rattle.mail_terms.specs.FailureCount.{counted_up};

use crate::fault::ServerFault;
use crate::maildrop::{DropFault, Maildrop};
use crate::reply::{Column, begin_text, say, say_count, say_left, say_row, say_rows};
use crate::rows::{MessageRow, Rows};
use crate::state::State;
use crate::text_part::TextBody;
use pop3_wire::{Bytes, Command};
use std::alloc::Global;

/// The result of a command.
#[derive(Drop)]
pub struct Outcome {
    /// The octets of the reply, or of its beginning if a text follows.
    pub bytes: Vec<u8>,
    /// The next state; none if the state stays.
    pub next: Option<State>,
    /// The text that follows these octets.
    pub rest: Option<TextBody>,
}

impl Outcome {
    /// A whole reply, after which the state stays.
    pub fn stay(bytes: Vec<u8>) -> Outcome
        ensures { result ≡ record { bytes = bytes; next = None; rest = None } }
    {
        Outcome {
            bytes,
            next: None,
            rest: None,
        }
    }

    /// A whole reply, and the next state.
    fn go(bytes: Vec<u8>, next: State) -> Outcome
        ensures { result ≡ record { bytes = bytes; next = Some next; rest = None } }
    {
        Outcome {
            bytes,
            next: Some(next),
            rest: None,
        }
    }
}

/// PASS with the right password: lists the maildrop.
fn open<D: Maildrop>(alloc: Global, drop: &mut D) -> Result<Outcome, ServerFault>
    ensures ok { IfOk result (λ outcome. (state : State) → AnswersOrBegins D.sound D.mail Open
        drop.old outcome.bytes.items outcome.rest (next_of state outcome.next) drop.new) }
    ensures tied { IfOk result (λ outcome. (state : State)
        → Tied (D.sound drop.new) (D.mail drop.new) (next_of state outcome.next)) }
    ensures whole { IfOk result (λ outcome. outcome.rest ≡ None) }
    ensures err { IfErr result (λ e. (e ≡ ServerFault.NoMemory) × Unanswered D.sound D.mail drop.old drop.new) }
{
    let unavailable = say(alloc, b"-ERR maildrop unavailable")?;
    let entries = match drop.entries() {
        Ok(entries) => entries,
        Err(DropFault::NoMemory) => return Err(ServerFault::NoMemory),
        Err(DropFault::Refused) => return Ok(Outcome::go(unavailable, State::Authorization(None))),
    };
    let rows = Rows::of(alloc, entries)?;
    let reply = say_count(alloc, rows.as_slice().len())?;
    Ok(Outcome::go(reply, State::Transaction(rows)))
}

/// The first line of the reply with the text of a message, or with its top if a count of lines is given.
fn first_line(
    alloc: Global,
    row: &MessageRow,
    count: Option<u32>,
    limit: usize,
) -> Result<Vec<u8>, ServerFault>
    ensures ok { IfOk result (λ reply. reply.items ≡ said (text_line count row.now)) }
    ensures err { IfErr result (λ e. e ≡ ServerFault.NoMemory) }
{
    match count {
        None => begin_text(alloc, row, limit),
        Some(_) => say(alloc, b"+OK"),
    }
}

/// RETR: the text of a message; and TOP: its head, and `count` lines after it. The reply is made until it
/// ends or has more than `limit` octets.
fn text<D: Maildrop>(
    alloc: Global,
    drop: &mut D,
    rows: &Rows,
    number: u32,
    count: Option<u32>,
    limit: usize,
) -> Result<Outcome, ServerFault>
    requires { Tied (D.sound drop.old) (D.mail drop.old) (Transaction rows.now) }
    ensures ok { IfOk result (λ outcome. AnswersOrBegins D.sound D.mail
        (give rows.now number (row_numbered rows.now number) (text_line count) count)
        drop.old outcome.bytes.items outcome.rest (Transaction rows.now) drop.new) }
    ensures stays { IfOk result (λ outcome. (outcome.next ≡ None) × IfSome outcome.rest (Follows limit)) }
    ensures tied { Tied (D.sound drop.new) (D.mail drop.new) (Transaction rows.now) }
    ensures err { IfErr result (λ e. (e ≡ ServerFault.NoMemory) × Unanswered D.sound D.mail drop.old drop.new) }
{
    let Some(i) = rows.place(number) else {
        return Ok(Outcome::stay(say(alloc, b"-ERR no such message")?));
    };
    let mut reply = first_line(alloc, rows.row(i), count, limit)?;
    let unavailable = say(alloc, b"-ERR message unavailable")?;
    match TextBody::new(i, count).put(drop, &mut reply, limit) {
        Ok(rest) => Ok(Outcome {
            bytes: reply,
            next: None,
            rest,
        }),
        Err(DropFault::NoMemory) => Err(ServerFault::NoMemory),
        Err(DropFault::Refused) => Ok(Outcome::stay(unavailable)),
    }
}

/// Removes one message, and returns whether it was removed.
fn remove_at<D: Maildrop>(drop: &mut D, i: usize) -> bool
    requires { D.sound drop.old → HasPlace (D.mail drop.old) i }
    ensures asks { (D.mail drop.new).removals ≡ counted_up (D.mail drop.old).removals }
    ensures tries { D.sound drop.new → D.sound drop.old × Tries (D.mail drop.old) i result (D.mail drop.new) }
{
    match drop.remove(i) {
        Ok(()) => true,
        Err(_) => false,
    }
}

/// QUIT: tries to remove each of the marked messages, in order, and returns whether all were removed.
fn leave<D: Maildrop>(drop: &mut D, rows: &[MessageRow]) -> bool
    requires { D.sound drop.old → (i : ℕ) (row : MessageRow) → slice_get rows.now i ≡ Some row
        → HasPlace (D.mail drop.old) i }
    ensures asks { (D.mail drop.new).removals ≡ with_marked rows.now (D.mail drop.old).removals }
    ensures empties { D.sound drop.new
        → D.sound drop.old × Empties 0 rows.now (D.mail drop.old) result (D.mail drop.new) }
{
    let mut all = true;
    for (i, row) in rows.iter().enumerate() {
        if !row.marked {
            continue;
        }
        let done = remove_at(drop, i);
        all = all & done;
    }
    all
}

/// Whether two texts are the same. The time that it takes depends only on their lengths, not on
/// where they differ.
fn are_same(one: &[u8], other: &[u8]) -> bool
    ensures { result ≡ bytes_eq one.now other.now }
{
    if one.len() != other.len() {
        return false;
    }
    let mut same = true;
    for i in 0..one.len() {
        same = same & (one[i] == other[i]);
    }
    same
}

/// A command in the AUTHORIZATION state.
pub fn authorize<D: Maildrop>(
    alloc: Global,
    drop: &mut D,
    user: &[u8],
    pass: &[u8],
    given: &Option<Bytes>,
    command: Command,
) -> Result<Outcome, ServerFault>
    ensures ok { IfOk result (λ outcome. AnswersOrBegins D.sound D.mail
        (in_authorization user.now pass.now given.now command)
        drop.old outcome.bytes.items outcome.rest (next_of (Authorization given.now) outcome.next) drop.new) }
    ensures whole { IfOk result (λ outcome. outcome.rest ≡ None) }
    ensures tied { IfOk result
        (λ outcome. Tied (D.sound drop.new) (D.mail drop.new) (next_of (Authorization given.now) outcome.next)) }
    ensures err { IfErr result (λ e. (e ≡ ServerFault.NoMemory) × Unanswered D.sound D.mail drop.old drop.new) }
{
    match command {
        Command::User(name) => Ok(Outcome::go(
            say(alloc, b"+OK send PASS")?,
            State::Authorization(Some(name)),
        )),
        Command::Pass(word) => {
            let Some(name) = given else {
                return Ok(Outcome::stay(say(alloc, b"-ERR USER first")?));
            };
            // Both are compared, so that the time doesn't tell which of them differs.
            let right_name = are_same(name.as_slice(), user);
            let right_word = are_same(word.as_slice(), pass);
            if right_name & right_word {
                open(alloc, drop)
            } else {
                Ok(Outcome::go(say(alloc, b"-ERR refused")?, State::Authorization(None)))
            }
        }
        Command::Quit => Ok(Outcome::go(say(alloc, b"+OK bye")?, State::Closed)),
        _ => Ok(Outcome::stay(say(alloc, b"-ERR not now")?)),
    }
}

/// LIST or UIDL of one message.
fn list_one(alloc: Global, column: Column, rows: &Rows, number: u32) -> Result<Vec<u8>, ServerFault>
    ensures ok { IfOk result (λ reply. reply.items
        ≡ of_row (λ row. said (codes "+OK " ++ row_line column number row)) (row_numbered rows.now number)) }
    ensures err { IfErr result (λ e. e ≡ ServerFault.NoMemory) }
{
    match rows.place(number) {
        None => say(alloc, b"-ERR no such message"),
        Some(i) => say_row(alloc, column, number, rows.row(i)),
    }
}

/// A command in the TRANSACTION state that is answered by the rows alone.
#[tactic(auto, using(crate::proofs::RowLemmas::mark_laws))]
fn answer_by_rows(alloc: Global, rows: &mut Rows, command: &Command) -> Result<Vec<u8>, ServerFault>
    requires { is_about_rows command.now ≡ true }
    ensures ok { IfOk result (λ reply. in_transaction rows.old command.now ≡ Say reply.items (Transaction rows.new)) }
    ensures same_places { SamePlaces rows.old rows.new }
    ensures err { IfErr result (λ e. (e ≡ ServerFault.NoMemory) × (rows.new ≡ rows.old)) }
{
    match command {
        Command::User(_) | Command::Pass(_) => say(alloc, b"-ERR not now"),
        Command::Stat => say_left(alloc, rows.as_slice()),
        Command::ListAll => say_rows(alloc, Column::Size, rows.as_slice()),
        Command::UidlAll => say_rows(alloc, Column::Uid, rows.as_slice()),
        Command::ListOne(number) => list_one(alloc, Column::Size, rows, *number),
        Command::UidlOne(number) => list_one(alloc, Column::Uid, rows, *number),
        Command::Dele(number) => match rows.place(*number) {
            None => say(alloc, b"-ERR no such message"),
            Some(i) => {
                let reply = say(alloc, b"+OK marked")?;
                rows.mark(i);
                Ok(reply)
            }
        },
        Command::Rset => {
            let reply = say(alloc, b"+OK")?;
            rows.unmark();
            Ok(reply)
        }
        Command::Noop => say(alloc, b"+OK"),
        Command::Retr(_) | Command::Top(_, _) | Command::Quit => unreachable!(),
    }
}

/// A command in the TRANSACTION state. A reply with a text is made until it ends or has more than
/// `limit` octets.
pub fn transact<D: Maildrop>(
    alloc: Global,
    drop: &mut D,
    rows: &mut Rows,
    command: &Command,
    limit: usize,
) -> Result<Outcome, ServerFault>
    requires { Tied (D.sound drop.old) (D.mail drop.old) (Transaction rows.old) }
    ensures ok { IfOk result (λ outcome. AnswersOrBegins D.sound D.mail (in_transaction rows.old command.now)
        drop.old outcome.bytes.items outcome.rest (next_of (Transaction rows.new) outcome.next) drop.new) }
    ensures follows { IfOk result (λ outcome. IfSome outcome.rest
        (λ text. Follows limit text × (outcome.next ≡ None) × (rows.new ≡ rows.old))) }
    ensures tied { MatchResult result
        (λ outcome. Tied (D.sound drop.new) (D.mail drop.new) (next_of (Transaction rows.new) outcome.next))
        (λ e. Tied (D.sound drop.new) (D.mail drop.new) (Transaction rows.new)) }
    ensures keeps { IfOk result (λ outcome. IfSome outcome.next (λ next. rows.new ≡ rows.old)) }
    ensures err { IfErr result (λ e. (e ≡ ServerFault.NoMemory) × (rows.new ≡ rows.old)
        × Unanswered D.sound D.mail drop.old drop.new) }
{
    match command {
        Command::Retr(number) => text(alloc, drop, rows, *number, None, limit),
        Command::Top(number, count) => text(alloc, drop, rows, *number, Some(*count), limit),
        Command::Quit => {
            // Both replies are made before a message is removed.
            let all = say(alloc, b"+OK bye")?;
            let some = say(alloc, b"-ERR some messages not removed")?;
            if leave(drop, rows.as_slice()) {
                Ok(Outcome::go(all, State::Closed))
            } else {
                Ok(Outcome::go(some, State::Closed))
            }
        }
        _ => Ok(Outcome::stay(answer_by_rows(alloc, rows, command)?)),
    }
}
