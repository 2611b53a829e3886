//! A link to a server in memory.
ghost use Rattle.std.specs.Prelude.{◌≡◌, ◌≤◌, ◌<◌, ◌+◌, ◌++◌, ◌-◌, ◌^◌, ℕ, List, [], length, take, drop, true, false};
ghost use Rattle.std.specs.Prelude.{IfOk, IfErr, IfSome, IfNone, MatchResult};
ghost use Rattle.pop3_wire.specs.{Link.{with_failures, CountsFailure, Sends, Receives, WhereSound}, Place.HasLine};
ghost use Rattle.mail_terms.specs.FailureCount.{greatest_count, counted_up};
ghost use Rattle.pop3_server.specs.{ServerMachine.{greeting_line, is_open}, LoopLink.{Loop, Serves, AnswersWholeLines}};
ghost use Rattle.local_fetch.specs.LoopLaws.{serves_same, serves_on};

use mail_terms::FailureCount;
use pop3_server::{Maildrop, Server};
use pop3_wire::{Wire, WireDown, cut_line};
use std::alloc::Global;
use std::marker::Model;

const GREETING: &[u8] = b"+OK popd ready\r\n";

/// A link to a server in the same process: it gives the greeting, and then an answer to each line that
/// is sent while the server is open. It keeps all octets that were sent and all answers.
///
/// A `recv` that finds nothing left ends the link: the server, which waits too, hangs up, and then a `send` is refused,
/// as over a socket whose other end is closed. Else a call is refused only when out of memory, and after a refused call
/// all are.
#[derive(Drop)]
pub struct LoopWire<D: Maildrop> {
    server: Server<D>,
    sent: Vec<u8>,
    // how many of the octets sent were answered
    used: usize,
    answers: Vec<u8>,
    // how many octets of the greeting and the answers were given
    given: usize,
    ended: bool,
    down: bool,
    failures: FailureCount,
}

impl<D: Maildrop> Model for LoopWire<D> {
    ghost use Rattle.std.specs.Prelude.{◌≡◌, ◌≤◌, ◌<◌, ◌++◌, [], length, take, drop, false, true};
    ghost use Rattle.pop3_server.specs.{ServerMachine.greeting_line, LoopLink.Loop};

    ghost Value = { Loop D };

    ghost view = { λ w. record {
      machine = w.server;
      link = record {
        sent = w.sent.items;
        got = take w.given (greeting_line ++ w.answers.items);
        ended = w.ended;
        failures = w.failures;
      };
      answers = w.answers.items;
      left = drop w.given (greeting_line ++ w.answers.items);
      waiting = drop w.used w.sent.items;
      down = w.down;
    } };

    ghost invariant = { λ w. (w.used ≤ length w.sent.items) × (w.given ≤ length (greeting_line ++ w.answers.items))
        × (w.down ≡ false → w.failures ≡ 0)
        × (w.ended ≡ true → drop w.given (greeting_line ++ w.answers.items) ≡ []) };
}

impl<D: Maildrop> LoopWire<D> {
    /// A link to this server; nothing was sent over it yet.
    pub fn new(alloc: Global, server: Server<D>) -> LoopWire<D>
        ensures state { result ≡ record {
          machine = server;
          link = record { sent = []; got = []; ended = false; failures = 0 };
          answers = [];
          left = greeting_line;
          waiting = [];
          down = false;
        } }
        ensures sound { ⟦<LoopWire<D> as Wire>⟧.sound result }
    {
        LoopWire {
            server,
            sent: Vec::new(alloc),
            used: 0,
            answers: Vec::new(alloc),
            given: 0,
            ended: false,
            down: false,
            failures: FailureCount::new(),
        }
    }

    /// The server, as its answers left it.
    pub fn into_inner(self) -> Server<D>
        ensures { result ≡ self.machine }
    {
        self.server
    }

    /// The length of the first whole line that waits, without its CR LF, while the server is open.
    #[tactic(auto, using(crate::proofs::LoopLemmas::waiting_line_found))]
    fn next_line(&self) -> Option<usize>
        ensures some { IfSome result (λ n. (is_open self.now.machine.state ≡ true)
            × HasLine (length self.now.waiting) self.now.waiting n) }
        ensures none { IfNone result (AnswersWholeLines self.now) }
    {
        if !self.server.is_open() {
            return None;
        }
        let (line, _) = cut_line(&self.sent[self.used..])?;
        Some(line.len())
    }

    /// Answers the first line that waits, which has `octets` octets without its CR LF.
    fn answer_line(&mut self, octets: usize) -> Result<(), WireDown>
        requires up { self.old.down ≡ false }
        requires goes_on { self.old.link.ended ≡ false }
        requires opened { is_open self.old.machine.state ≡ true }
        requires line { HasLine (length self.old.waiting) self.old.waiting octets }
        ensures link { self.new.link ≡ self.old.link }
        ensures up { IfOk result (λ _. self.new.down ≡ false) }
        ensures down { IfErr result (λ _. self.new.down ≡ true) }
        ensures fewer { IfOk result (λ _. length self.new.waiting < length self.old.waiting) }
        ensures serves { Serves D.sound D.mail self.old self.new }
    {
        let line = &self.sent[self.used..self.used + octets];
        let Ok(answer) = self.server.answer(line) else {
            self.down = true;
            return Err(WireDown);
        };
        self.used += octets + 2;
        let kept = self.answers.extend_from_slice(answer.bytes.as_slice());
        if kept.is_err() {
            self.down = true;
            return Err(WireDown);
        }
        Ok(())
    }

    /// Answers all whole lines that wait, while the server is open.
    #[tactic(auto, using(crate::specs::LoopLaws::serves_same, crate::specs::LoopLaws::serves_on))]
    fn answer_lines(&mut self) -> Result<(), WireDown>
        requires up { self.old.down ≡ false }
        requires goes_on { self.old.link.ended ≡ false }
        ensures link { self.new.link ≡ self.old.link }
        ensures up { IfOk result (λ _. (self.new.down ≡ false) × AnswersWholeLines self.new) }
        ensures down { IfErr result (λ _. self.new.down ≡ true) }
        ensures serves { Serves D.sound D.mail self.old self.new }
    {
        while let Some(octets) = self.next_line() {
            self.answer_line(octets)?;
        }
        Ok(())
    }

    /// The octets of the greeting and the answers that come next.
    fn piece(&self) -> &[u8]
        ensures begins { (rest : List ℕ) × (self.now.left ≡ result.now ++ rest) }
        ensures some { result.now ≡ [] → self.now.left ≡ [] }
        ensures fits { length self.now.link.got + length result.now < 2 ^ 64 }
    {
        if self.given < GREETING.len() {
            &GREETING[self.given..]
        } else {
            &self.answers[self.given - GREETING.len()..]
        }
    }

    /// Takes the link down, and counts the refused call.
    fn refuse(&mut self) -> WireDown
        ensures counted { self.new.link.failures ≡ counted_up self.old.link.failures }
        ensures same { self.new ≡ record self.old {
          down = true;
          link = with_failures self.new.link.failures self.old.link;
        } }
    {
        self.down = true;
        self.failures.count_up();
        WireDown
    }
}

impl<D: Maildrop> Wire for LoopWire<D> {
    ghost history = { λ w. w.link };

    ghost sound = { λ w. w.link.failures < greatest_count };

    ghost leads_to = { λ u v. Serves D.sound D.mail u v };

    fn send(&mut self, bytes: &[u8]) -> Result<(), WireDown>
        ensures counted { CountsFailure self.old.link result self.new.link }
        ensures sent { WhereSound (λ w. w.link.failures < greatest_count)
            (λ u v. Serves D.sound D.mail u v) self.old self.new
            (Sends self.old.link bytes.now result self.new.link) }
        // A call that succeeds has answered every whole line that was sent to an open server; after a
        // refused one all calls are refused.
        ensures answered { IfOk result (λ _. (self.old.down ≡ false) × (self.new.down ≡ false)
            × AnswersWholeLines self.new) }
        ensures down { IfErr result (λ _. self.new.down ≡ true) }
    {
        if self.down | self.ended {
            return Err(self.refuse());
        }
        if self.sent.extend_from_slice(bytes).is_err() {
            return Err(self.refuse());
        }
        match self.answer_lines() {
            Ok(()) => Ok(()),
            Err(_) => Err(self.refuse()),
        }
    }

    fn recv(&mut self, buf: &mut [u8]) -> Result<usize, WireDown>
        requires { 0 < length buf.old }
        ensures within { IfOk result (λ n. n ≤ length buf.new) }
        ensures counted { CountsFailure self.old.link result self.new.link }
        ensures got { WhereSound (λ w. w.link.failures < greatest_count)
            (λ u v. Serves D.sound D.mail u v) self.old self.new
            (Receives self.old.link result buf.new self.new.link) }
        // It is refused only after a refused call, and 0 says that nothing is left.
        ensures down { MatchResult result (λ _. (self.old.down ≡ false) × (self.new.down ≡ false))
            (λ _. (self.old.down ≡ true) × (self.new.down ≡ true)) }
        ensures gives { IfOk result (λ n. self.old.left ≡ take n buf.new ++ self.new.left) }
        ensures ends { IfOk result (λ n. n ≡ 0 → self.new.left ≡ []) }
    {
        if self.down {
            return Err(self.refuse());
        }
        let piece = self.piece();
        let n = piece.len().min(buf.len());
        buf[..n].copy_from_slice(&piece[..n]);
        self.given += n;
        self.ended = self.ended | (n == 0);
        Ok(n)
    }

    fn failures(&self) -> u64
        ensures value { result ≡ self.now.link.failures }
        // None is refused while the link is up, and nothing is left once it has ended.
        ensures up { self.now.down ≡ false → self.now.link.failures ≡ 0 }
        ensures over { self.now.link.ended ≡ true → self.now.left ≡ [] }
    {
        self.failures.count()
    }

    ghost leads_same = { λ w. serves_same D.sound D.mail w };

    ghost leads_on = { λ u v w p q. serves_on D.sound D.mail u v w p q };
}
