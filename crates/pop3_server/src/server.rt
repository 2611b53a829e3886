//! The server: it takes lines and gives answers (RFC 1939).
ghost use Rattle.std.specs.Prelude.{◌≡◌, ◌≤◌, ◌<◌, ◌+◌, ◌-◌, ◌++◌, ℕ, List, not, true, None, Some, Ok, IfOk, IfErr};
ghost use Rattle.std.specs.Prelude.{IfSome, vec_len, vec_capacity};
ghost use Rattle.pop3_server.specs.{
  declared.state.State.TheVariants.Authorization,
  AnswersLines.{AnswersLine, MakesAnswer, RefusesPart, SameServer},
  Events.event_of,
  Maildrop.HasPlace,
  ServerMachine.{Machine, greeting_line, is_open, next_of},
  TextAnswer.{Follows, IsFurther},
};

use crate::commands::{Outcome, authorize, transact};
use crate::fault::ServerFault;
use crate::journal::{Event, event_of};
use crate::maildrop::{DropFault, Maildrop};
use crate::reply::say;
use crate::state::State;
use crate::text_part::{ROOM, TextBody};
use pop3_wire::{Command, WireFault, read_command};
use std::alloc::Global;
use std::marker::Model;

/// A server's answer to a line.
#[derive(Drop)]
pub struct Answer {
    /// All octets of the reply, its last CR LF included.
    pub bytes: Vec<u8>,
    /// Whether the session is over after it.
    pub closing: bool,
    /// The event that a journal would note, if there is one.
    pub event: Option<Event>,
}

/// A server's answer to a line, or the beginning of one if a text follows.
#[derive(Drop)]
pub struct Begun {
    /// What was made so far.
    pub answer: Answer,
    /// The text that follows.
    pub rest: Option<TextBody>,
}

/// A server of one session, over a maildrop. Contracts see whom it lets in, its state, and the
/// maildrop.
#[derive(Drop)]
pub struct Server<D: Maildrop> {
    alloc: Global,
    drop: D,
    user: Vec<u8>,
    pass: Vec<u8>,
    state: State,
}

impl<D: Maildrop> Model for Server<D> {
    ghost use Rattle.pop3_server.specs.ServerMachine.{Machine, Tied};

    ghost Value = { Machine D };

    ghost view = { λ s. record { user = s.user.items; pass = s.pass.items; state = s.state; drop = s.drop } };

    ghost invariant = { λ s. Tied (D.sound s.drop) (D.mail s.drop) s.state };
}

/// Whether this is the end of a session.
fn is_closed(state: &State) -> bool
    ensures { result ≡ not (is_open state.now) }
{
    match state {
        State::Closed => true,
        _ => false,
    }
}

/// Goes to the state that an outcome leads to, and returns its answer. The maildrop refused `refused`
/// calls for it.
#[tactic(auto, using(crate::proofs::EventLemmas::event_of_same))]
fn take(state: &mut State, outcome: Outcome, refused: u64) -> Begun
    ensures state { state.new ≡ next_of state.old outcome.next }
    ensures bytes { result.answer.bytes.items ≡ outcome.bytes.items }
    ensures rest { result.rest ≡ outcome.rest }
    ensures closing { result.answer.closing ≡ not (is_open state.new) }
    ensures event { result.answer.event ≡ event_of state.old state.new refused }
{
    let Outcome { bytes, next, rest } = outcome;
    let mut event = None;
    if let Some(next) = next {
        event = event_of(state, &next, refused);
        *state = next;
    }
    Begun {
        answer: Answer {
            bytes,
            closing: is_closed(state),
            event,
        },
        rest,
    }
}

impl<D: Maildrop> Server<D> {
    /// A server at the start of a session, which lets in this user with this password. An empty
    /// name or password never matches, since no command carries one.
    pub fn new(alloc: Global, drop: D, user: Vec<u8>, pass: Vec<u8>) -> Server<D>
        ensures { result ≡ record { user = user.items; pass = pass.items; state = Authorization None; drop = drop } }
    {
        Server {
            alloc,
            drop,
            user,
            pass,
            state: State::Authorization(None),
        }
    }

    /// Whether the session goes on.
    pub fn is_open(&self) -> bool
        ensures { result ≡ is_open self.now.state }
    {
        !is_closed(&self.state)
    }

    /// The greeting, which is sent before the first line is read (RFC 1939, section 4). NoMemory if
    /// memory runs out.
    pub fn greeting(&mut self) -> Result<Answer, ServerFault>
        ensures same { self.new ≡ self.old }
        ensures ok { IfOk result (λ answer. (answer.bytes.items ≡ greeting_line)
            × (answer.closing ≡ not (is_open self.old.state))) }
        ensures event { IfOk result (λ answer. answer.event ≡ None) }
        ensures err { IfErr result (λ e. e ≡ ServerFault.NoMemory) }
    {
        Ok(Answer {
            bytes: say(self.alloc, b"+OK popd ready")?,
            closing: is_closed(&self.state),
            event: None,
        })
    }

    /// The answer to a line, which is given without its CR LF (RFC 1939, sections 4 to 7). The server
    /// must be open, which `is_open` tests. NoMemory if memory runs out: then the state is as it was,
    /// and no message and no count has changed.
    pub fn answer(&mut self, line: &[u8]) -> Result<Answer, ServerFault>
        requires { is_open self.old.state ≡ true }
        ensures ok { IfOk result (λ answer. AnswersLine D.sound D.mail self.old line.now answer.bytes.items self.new) }
        ensures closing { IfOk result (λ answer. answer.closing ≡ not (is_open self.new.state)) }
        ensures event { IfOk result (λ answer. answer.event ≡ event_of self.old.state self.new.state
            ((D.mail self.new.drop).failures - (D.mail self.old.drop).failures)) }
        ensures err { IfErr result (λ e. (e ≡ ServerFault.NoMemory) × SameServer D.sound D.mail self.old self.new) }
    {
        let Begun { answer, rest } = self.begin(line, usize::MAX)?;
        match rest {
            None => Ok(answer),
            Some(_) => unreachable!(),
        }
    }

    /// Begins the answer to a line, which is given without its CR LF. The answer is whole unless
    /// it has a text and more than `limit` octets: then `go_on` gives what follows. The server
    /// must be open, which `is_open` tests. NoMemory as for `answer`.
    pub fn begin(&mut self, line: &[u8], limit: usize) -> Result<Begun, ServerFault>
        requires { is_open self.old.state ≡ true }
        ensures ok { IfOk result (λ begun. MakesAnswer D.sound D.mail self.old line.now
            begun.answer.bytes.items begun.rest self.new) }
        ensures follows { IfOk result (λ begun. IfSome begun.rest (Follows limit)) }
        ensures closing { IfOk result (λ begun. begun.answer.closing ≡ not (is_open self.new.state)) }
        ensures event { IfOk result (λ begun. begun.answer.event ≡ event_of self.old.state self.new.state
            ((D.mail self.new.drop).failures - (D.mail self.old.drop).failures)) }
        ensures err { IfErr result (λ e. (e ≡ ServerFault.NoMemory) × SameServer D.sound D.mail self.old self.new) }
    {
        let command = match read_command(self.alloc, line) {
            Ok(command) => command,
            Err(WireFault::NoMemory) => return Err(ServerFault::NoMemory),
            Err(_) => {
                let outcome = Outcome::stay(say(self.alloc, b"-ERR bad command")?);
                return Ok(take(&mut self.state, outcome, 0));
            }
        };
        let failures = self.drop.failures();
        let outcome = match &mut self.state {
            State::Authorization(given) => authorize(
                self.alloc,
                &mut self.drop,
                self.user.as_slice(),
                self.pass.as_slice(),
                given,
                command,
            )?,
            State::Transaction(rows) => transact(
                self.alloc,
                &mut self.drop,
                rows,
                &command,
                limit,
            )?,
            State::Closed => unreachable!(),
        };
        let refused = self.drop.failures().saturating_sub(failures);
        Ok(take(&mut self.state, outcome, refused))
    }

    /// Puts what follows of a text into an empty reply, until the text has ended or the reply has more
    /// than `limit` octets; returns the text that follows then, if any. The reply must have room for
    /// `limit` and `ROOM` octets together. The only fault is MaildropFailed, if the maildrop refuses
    /// a part.
    #[tactic(auto, using(crate::proofs::TextAnswerLemmas::reads_tied))]
    pub fn go_on(
        &mut self,
        text: TextBody,
        reply: &mut Vec<u8>,
        limit: usize,
    ) -> Result<Option<TextBody>, ServerFault>
        requires place { D.sound self.old.drop → HasPlace (D.mail self.old.drop) text.place }
        requires begun { 0 < text.start }
        requires empty { vec_len reply.old ≡ 0 }
        requires room { limit + ROOM ≤ vec_capacity reply.old }
        ensures same { self.new ≡ record self.old { drop = self.new.drop } }
        ensures ok { IfOk result (λ rest. (old : Machine D) (line sent : List ℕ)
            → MakesAnswer D.sound D.mail old line sent (Some text) self.old
            → MakesAnswer D.sound D.mail old line (sent ++ reply.new.items) rest self.new) }
        ensures further { IfOk result (λ rest. IfSome rest (IsFurther text)) }
        ensures err { IfErr result (λ e. (e ≡ ServerFault.MaildropFailed)
            × RefusesPart D.sound D.mail self.old self.new) }
        ensures capacity { vec_capacity reply.old ≤ vec_capacity reply.new }
    {
        match text.put(&mut self.drop, reply, limit) {
            Ok(rest) => Ok(rest),
            Err(DropFault::Refused) => Err(ServerFault::MaildropFailed),
            Err(DropFault::NoMemory) => unreachable!(),
        }
    }

    /// The maildrop, given back.
    pub fn into_drop(self) -> D
        ensures { result ≡ self.drop }
    {
        self.drop
    }
}
