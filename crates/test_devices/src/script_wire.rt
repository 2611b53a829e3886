//! A link in memory with prepared replies.
ghost use Rattle.std.{
  specs.Prelude.{◌≡◌, ◌≤◌, ◌<◌, ◌-◌, ◌^◌, ◌++◌, ℕ, List, [], false, length, take, min, IsOk, IfOk},
  proofs.Common.{refl, ◌∙◌},
};
ghost use Rattle.mail_terms.specs.FailureCount.{greatest_count};
ghost use Rattle.pop3_wire.specs.Link.{Receives, CountsFailure, WhereSound};
ghost use Rattle.test_devices.specs.Script.{Script, is_script_sound, gives_on, TellsReplies};

use mail_terms::FailureCount;
use pop3_wire::{Wire, WireDown};
use std::alloc::Global;
use std::marker::Model;

/// A link that gives prepared replies, in pieces of a bounded length, and keeps what it is sent.
/// Below the greatest failure count only `send` fails, and only when out of memory.
#[derive(Drop)]
pub struct ScriptWire {
    replies: Vec<u8>,
    given: usize,
    cut: usize,
    ended: bool,
    sent: Vec<u8>,
    failures: FailureCount,
}

impl Model for ScriptWire {
    ghost Value = { Script };

    ghost view = { λ w. record {
      replies = w.replies.items;
      cut = w.cut;
      link = record {
        sent = w.sent.items;
        got = take w.given w.replies.items;
        ended = w.ended;
        failures = w.failures;
      };
    } };

    ghost invariant = { λ w. (w.given ≤ length w.replies.items) × (0 < w.cut) };
}

impl ScriptWire {
    /// A link that will give these replies, at most `cut` octets at once; nothing was sent to it yet.
    pub fn new(alloc: Global, replies: Vec<u8>, cut: usize) -> ScriptWire
        requires { 0 < cut }
        ensures value { result ≡ record {
          replies = replies.items;
          cut = cut;
          link = record { sent = []; got = []; ended = false; failures = 0 };
        } }
        ensures told { TellsReplies result }
    {
        ScriptWire {
            replies,
            given: 0,
            cut,
            ended: false,
            sent: Vec::new(alloc),
            failures: FailureCount::new(),
        }
    }

    /// What was sent so far.
    pub fn sent(&self) -> &[u8]
        ensures { result.now ≡ self.now.link.sent }
    {
        self.sent.as_slice()
    }
}

impl Wire for ScriptWire {
    ghost history = { λ w. w.link };

    ghost sound = { is_script_sound };

    ghost leads_to = { gives_on };

    fn send(&mut self, bytes: &[u8]) -> Result<(), WireDown> {
        if self.failures.is_full() {
            return Err(WireDown);
        }
        if self.sent.extend_from_slice(bytes).is_err() {
            self.failures.count_up();
            return Err(WireDown);
        }
        Ok(())
    }

    fn recv(&mut self, buf: &mut [u8]) -> Result<usize, WireDown>
        requires { 0 < length buf.old }
        ensures within { IfOk result (λ n. n ≤ length buf.new) }
        ensures counted { CountsFailure self.old.link result self.new.link }
        ensures got { WhereSound is_script_sound gives_on self.old self.new
            (Receives self.old.link result buf.new self.new.link) }
        // Below the greatest count it never fails, and it answers 0 only after all was given; a piece
        // is never longer than the cut.
        ensures gives { self.old.link.failures < greatest_count → IsOk result }
        ensures ends { IfOk result (λ n. n ≡ 0 → self.new.link.got ≡ self.new.replies) }
        ensures piece { IfOk result (λ n. n ≤ self.old.cut) }
        ensures front { (rest : List ℕ) × (self.new.replies ≡ self.new.link.got ++ rest) }
    {
        if self.failures.is_full() {
            return Err(WireDown);
        }
        let rest = &self.replies[self.given..];
        let n = rest.len().min(self.cut).min(buf.len());
        buf[..n].copy_from_slice(&rest[..n]);
        self.given += n;
        self.ended = self.ended || n == 0;
        Ok(n)
    }

    fn failures(&self) -> u64 {
        self.failures.count()
    }

    ghost leads_same = { λ _. (refl, refl, λ told. told) };

    ghost leads_on = { λ _ _ _ p q. (q.0 ∙ p.0, q.1 ∙ p.1, λ told. q.2 (p.2 told)) };
}
