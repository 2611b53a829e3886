//! A link that passes on a number of calls and refuses the rest.
ghost use Rattle.std.specs.Prelude.{◌≡◌, ◌≤◌, ◌<◌, length, IfOk};
ghost use Rattle.mail_terms.specs.FailureCount.{greatest_count};
ghost use Rattle.pop3_wire.specs.Link.{Sends, Receives, CountsFailure, WhereSound};
ghost use Rattle.test_devices.specs.LinkFuse.{Fuse, fused_link, fused_is_sound, fused_leads_to, BurnsForLink};

use mail_terms::FailureCount;
use pop3_wire::{Note, Wire, WireDown};
use std::marker::Model;

/// A link with a fuse: a given number of calls of `send` and `recv` are passed on to it, and every
/// later call is refused and counted.
#[derive(Drop)]
pub struct FusedWire<W> {
    wire: W,
    left: u64,
    failures: FailureCount,
}

impl<W> Model for FusedWire<W> {
    ghost Value = { Fuse W };

    ghost view = { λ f. record { wire = f.wire; left = f.left; failures = f.failures } };
}

impl<W> FusedWire<W> {
    /// This link with a fuse that passes on `passes` calls.
    pub fn new(wire: W, passes: u64) -> FusedWire<W>
        ensures { result ≡ record { wire = wire; left = passes; failures = 0 } }
    {
        FusedWire {
            wire,
            left: passes,
            failures: FailureCount::new(),
        }
    }

    /// The link without the fuse.
    pub fn into_inner(self) -> W
        ensures { result ≡ self.wire }
    {
        let FusedWire { wire, .. } = self;
        wire
    }
}

impl<W: Wire> Wire for FusedWire<W> {
    ghost history = { fused_link W.history };

    ghost sound = { fused_is_sound W.sound };

    ghost leads_to = { fused_leads_to W.leads_to };

    fn send(&mut self, bytes: &[u8]) -> Result<(), WireDown>
        ensures counted { CountsFailure (fused_link W.history self.old) result (fused_link W.history self.new) }
        ensures sent { WhereSound (fused_is_sound W.sound) (fused_leads_to W.leads_to) self.old self.new
            (Sends (fused_link W.history self.old) bytes.now result (fused_link W.history self.new)) }
        ensures burns { self.old.failures < greatest_count → BurnsForLink W.history self.old result self.new }
    {
        if self.failures.is_full() {
            return Err(WireDown);
        }
        if self.left == 0 {
            self.failures.count_up();
            return Err(WireDown);
        }
        self.left -= 1;
        if self.wire.send(bytes).is_err() {
            self.failures.count_up();
            return Err(WireDown);
        }
        Ok(())
    }

    fn recv(&mut self, buf: &mut [u8]) -> Result<usize, WireDown>
        requires { 0 < length buf.old }
        ensures within { IfOk result (λ n. n ≤ length buf.new) }
        ensures counted { CountsFailure (fused_link W.history self.old) result (fused_link W.history self.new) }
        ensures got { WhereSound (fused_is_sound W.sound) (fused_leads_to W.leads_to) self.old self.new
            (Receives (fused_link W.history self.old) result buf.new (fused_link W.history self.new)) }
        ensures burns { self.old.failures < greatest_count → BurnsForLink W.history self.old result self.new }
    {
        if self.failures.is_full() {
            return Err(WireDown);
        }
        if self.left == 0 {
            self.failures.count_up();
            return Err(WireDown);
        }
        self.left -= 1;
        let Ok(n) = self.wire.recv(buf) else {
            self.failures.count_up();
            return Err(WireDown);
        };
        Ok(n)
    }

    fn note(&mut self, part: Note<'_>) {
        self.wire.note(part)
    }

    fn failures(&self) -> u64 {
        self.failures.count()
    }

    ghost leads_same = { λ w. W.leads_same w.wire };

    ghost leads_on = { λ u v w p q. W.leads_on u.wire v.wire w.wire p q };
}
