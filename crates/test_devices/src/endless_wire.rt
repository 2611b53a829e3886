//! A link in memory that never comes to an end.
ghost use Rattle.std.{
  specs.{
    Prelude.{◌≡◌, ◌≤◌, ◌<◌, ◌+◌, ◌++◌, ℕ, List, [], false, length, take, drop, IsOk, IfOk},
    List.repeat,
  },
  proofs.Common.{refl, ◌∙◌},
};
ghost use Rattle.mail_terms.specs.FailureCount.{greatest_count};
ghost use Rattle.pop3_wire.specs.Link.{Receives, CountsFailure, WhereSound};
ghost use Rattle.test_devices.specs.Endless.{
  Endless,
  IsEndless,
  first_given,
  gives_endlessly,
  is_sound_endless,
  most_given,
};

use mail_terms::FailureCount;
use pop3_wire::{Wire, WireDown};
use std::alloc::Global;
use std::marker::Model;

/// A link that gives a front and then repeats a pattern, and keeps what it is sent. Below the
/// greatest failure count `send` fails only when out of memory, and `recv` only after
/// 18,446,744,073,709,551,615 octets.
#[derive(Drop)]
pub struct EndlessWire {
    front: Vec<u8>,
    pattern: Vec<u8>,
    given: u64,
    sent: Vec<u8>,
    failures: FailureCount,
}

impl Model for EndlessWire {
    ghost Value = { Endless };

    ghost view = { λ w. record {
      front = w.front.items;
      pattern = w.pattern.items;
      link = record {
        sent = w.sent.items;
        got = first_given w.front.items w.pattern.items w.given;
        ended = false;
        failures = w.failures;
      };
    } };

    ghost invariant = { λ w. 0 < length w.pattern.items };
}

impl EndlessWire {
    /// A link that will give the front and then repeat the pattern; nothing was sent to it yet.
    pub fn new(alloc: Global, front: Vec<u8>, pattern: Vec<u8>) -> EndlessWire
        requires { 0 < length pattern.items }
        ensures value { result ≡ record {
          front = front.items;
          pattern = pattern.items;
          link = record { sent = []; got = []; ended = false; failures = 0 };
        } }
        ensures told { IsEndless result }
    {
        EndlessWire {
            front,
            pattern,
            given: 0,
            sent: Vec::new(alloc),
            failures: FailureCount::new(),
        }
    }

    /// What was sent so far.
    pub fn sent(&self) -> &[u8]
        ensures { result.now ≡ self.now.link.sent }
    {
        self.sent.as_slice()
    }
}

/// What follows the first `given` octets, up to the end of the front or of the pattern.
fn next_piece<'a>(front: &'a [u8], pattern: &'a [u8], given: u64) -> &'a [u8]
    requires { 0 < length pattern.now }
    ensures some { 0 < length result.now }
    ensures follows { (count : ℕ) → given < count
        → (rest : List ℕ) × (drop given (front.now ++ repeat count pattern.now) ≡ result.now ++ rest) }
{
    let place = given as usize;
    if place < front.len() {
        return &front[place..];
    }
    &pattern[(place - front.len()) % pattern.len()..]
}

impl Wire for EndlessWire {
    ghost history = { λ w. w.link };

    ghost sound = { is_sound_endless };

    ghost leads_to = { gives_endlessly };

    fn send(&mut self, bytes: &[u8]) -> Result<(), WireDown> {
        if self.failures.is_full() {
            return Err(WireDown);
        }
        if self.sent.extend_from_slice(bytes).is_err() {
            self.failures.count_up();
            return Err(WireDown);
        }
        Ok(())
    }

    fn recv(&mut self, buf: &mut [u8]) -> Result<usize, WireDown>
        requires { 0 < length buf.old }
        ensures within { IfOk result (λ n. n ≤ length buf.new) }
        ensures counted { CountsFailure self.old.link result self.new.link }
        ensures got { WhereSound is_sound_endless gives_endlessly self.old self.new
            (Receives self.old.link result buf.new self.new.link) }
        // Below the greatest count it fails only past the last octet, and it never answers 0.
        ensures gives { self.old.link.failures < greatest_count → length self.old.link.got < most_given → IsOk result }
        ensures some { IfOk result (λ n. 0 < n) }
        ensures next { IfOk result (λ n. self.old.link.got ++ take n buf.new
            ≡ first_given self.old.front self.old.pattern (length self.old.link.got + n)) }
    {
        if self.failures.is_full() {
            return Err(WireDown);
        }
        let left = u64::MAX - self.given;
        if left == 0 {
            self.failures.count_up();
            return Err(WireDown);
        }
        let piece = next_piece(self.front.as_slice(), self.pattern.as_slice(), self.given);
        let n = piece.len().min(buf.len()).min(left as usize);
        buf[..n].copy_from_slice(&piece[..n]);
        self.given += n as u64;
        Ok(n)
    }

    fn failures(&self) -> u64 {
        self.failures.count()
    }

    ghost leads_same = { λ _. (refl, refl, λ told. told) };

    ghost leads_on = { λ _ _ _ p q. (q.0 ∙ p.0, q.1 ∙ p.1, λ told. q.2 (p.2 told)) };
}
