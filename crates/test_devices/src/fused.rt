//! A device that refuses every call after the first few.

ghost use Rattle.mail_store.specs.Fault.{is_refusal};

use mail_store::{Asked, Edges, FlatFile, Folder, MaildirDisk, StoreFault, admit, refuse};
use mail_terms::FailureCount;

/// A device that passes its first calls on to another one and then refuses every call, so that each
/// place where a device can fail can be tried. It counts the refusals of both.
#[derive(Drop)]
pub struct Fused<D> {
    device: D,
    passes_left: u64,
    takes_effect: bool,
    failures: FailureCount,
}

impl<D> Fused<D> {
    ghost use Rattle.std.specs.Prelude.{◌≡◌, ◌↔◌, ◌+◌, ◌-◌, ◌<◌, true, false, IfErr, IsTrue, OnErr, OnOk};
    ghost use Rattle.mail_terms.specs.FailureCount.{Tallies, refuses, greatest_count, counted_up};
    ghost use Rattle.test_devices.specs.StoreFuse.{device_of, passes_left, effect_is_due, refusals};

    /// Passes `passes` calls that return a `Result` on to the device, and refuses every later one.
    /// If `takes_effect` is true, the first call that it refuses itself still takes effect: whole,
    /// if it is `settle` or `replace`, and on the first half of its bytes, rounded down, if it is
    /// `append`.
    pub fn new(device: D, passes: u64, takes_effect: bool) -> Fused<D>
        ensures device { device_of result ≡ device }
        ensures passes { passes_left result ≡ passes }
        ensures effect { effect_is_due result ≡ takes_effect }
        ensures refusals { refusals result ≡ 0 }
    {
        Fused {
            device,
            passes_left: passes,
            takes_effect,
            failures: FailureCount::new(),
        }
    }

    /// Gives the device back.
    pub fn into_inner(self) -> D
        ensures { result ≡ device_of self }
    {
        self.device
    }

    // Whether a call that the fuse refuses now takes effect.
    fn is_last_effect(&self) -> bool
        ensures { IsTrue result ↔ ((self.now.failures < greatest_count) × (self.now.passes_left ≡ 0)
            × (self.now.takes_effect ≡ true)) }
    {
        !self.failures.is_full() && self.passes_left == 0 && self.takes_effect
    }

    // Uses up a pass, or refuses if none is left.
    fn pass(&mut self) -> Result<(), StoreFault>
        ensures passed { OnOk result ((self.old.failures < greatest_count) × (0 < self.old.passes_left)
            × (self.new ≡ record self.old { passes_left = self.old.passes_left - 1 })) }
        ensures fault { IfErr result (λ fault. fault ≡ StoreFault.Refused) }
        ensures behind { OnErr result (self.new.device ≡ self.old.device) }
        ensures counted { OnErr result (self.new.failures ≡ counted_up self.old.failures) }
        ensures blown { OnErr result (self.old.failures < greatest_count → (self.old.passes_left ≡ 0)
            × (self.new ≡ record self.old { failures = self.old.failures + 1; takes_effect = false })) }
        ensures sound { OnErr result (self.new.failures < greatest_count → (self.old.failures < greatest_count)
            × (self.new ≡ record self.old { failures = self.old.failures + 1; takes_effect = false })) }
    {
        admit(&self.failures)?;
        if self.passes_left == 0 {
            return Err(self.blow());
        }
        self.passes_left -= 1;
        Ok(())
    }

    // Counts a refusal of the fuse's own; no later one takes effect.
    fn blow(&mut self) -> StoreFault
        requires { self.old.failures < greatest_count }
        ensures fault { result ≡ StoreFault.Refused }
        ensures counted { self.new ≡ record self.old { failures = self.old.failures + 1; takes_effect = false } }
    {
        self.takes_effect = false;
        refuse(&mut self.failures)
    }

    // Counts the device's answer if it is a refusal.
    fn tally<T>(&mut self, answer: Result<T, StoreFault>) -> Result<T, StoreFault>
        requires { self.old.failures < greatest_count }
        ensures answer { result ≡ answer }
        ensures count { Tallies (refuses is_refusal answer) self.old.failures self.new.failures }
        ensures others { self.new ≡ record self.old { failures = self.new.failures } }
    {
        match answer {
            Err(StoreFault::Refused) => Err(refuse(&mut self.failures)),
            other => other,
        }
    }
}

impl<D: MaildirDisk> MaildirDisk for Fused<D> {
    ghost use Rattle.std.specs.Prelude.{◌≡◌, ◌<◌, false, true, IsSome, Ok, OnErr, OnOk, Some, None, map};
    ghost use Rattle.std.specs.Prelude.{string_bytes};
    ghost use Rattle.mail_terms.specs.FailureCount.{greatest_count};
    ghost use Rattle.mail_store.specs.{Held.{ListsAmong, asks}, Loss.Flushes};
    ghost use Rattle.mail_store.specs.Maildir.{AfterTaking, IsThere, Lists, Checks, Begins, Adds, Settles, dropped};
    ghost use Rattle.mail_store.specs.Maildir.{name_begun};
    ghost use Rattle.mail_store.specs.Devices.{DiskDoes, DiskRefuses};
    ghost use Rattle.test_devices.specs.StoreFuse.{device_of, passes_left, effect_is_due, refusals, fused_maildir};
    ghost use Rattle.test_devices.specs.StoreFuse.{FusedIsSound, FailsAndCounts, BurnsForStore, Fuses, SettlesBehind};

    ghost maildir = { λ f. fused_maildir D.maildir f };

    ghost sound = { λ f. FusedIsSound D.sound f };

    fn names(&mut self, folder: Folder) -> Result<Vec<String>, StoreFault>
        ensures lists { DiskDoes ⟦<Fused<D> as MaildirDisk>⟧ (λ old new.
            AfterTaking old (λ left. Lists left folder result new)) self.old self.new }
        ensures fails { FailsAndCounts self.old result self.new }
        ensures fuse { Fuses (λ d. (D.maildir d).failures) self.old result self.new }
    {
        self.pass()?;
        let answer = self.device.names(folder);
        self.tally(answer)
    }

    fn names_among(&mut self, asked: Asked<'_>) -> Result<Vec<String>, StoreFault>
        ensures lists { DiskDoes ⟦<Fused<D> as MaildirDisk>⟧ (λ old new.
            AfterTaking old (λ left. ListsAmong left (asks asked.entry) result new)) self.old self.new }
        ensures fails { FailsAndCounts self.old result self.new }
        ensures fuse { Fuses (λ d. (D.maildir d).failures) self.old result self.new }
    {
        self.pass()?;
        let answer = self.device.names_among(asked);
        self.tally(answer)
    }

    fn odd(&self) -> &[String]
        ensures { FusedIsSound D.sound self.now
            → map string_bytes result.now ≡ (D.maildir (device_of self.now)).told }
    {
        self.device.odd()
    }

    fn check(&mut self, folder: Folder) -> Result<(), StoreFault>
        ensures checks { DiskDoes ⟦<Fused<D> as MaildirDisk>⟧
            (λ old new. Checks old folder result new) self.old self.new }
        ensures fails { FailsAndCounts self.old result self.new }
        ensures fuse { Fuses (λ d. (D.maildir d).failures) self.old result self.new }
    {
        self.pass()?;
        let answer = self.device.check(folder);
        self.tally(answer)
    }

    fn flush(&mut self, stems: &[String], may_miss: bool) -> Result<bool, StoreFault>
        ensures misses { result ≡ Ok false → may_miss ≡ true }
        ensures flushes { DiskDoes ⟦<Fused<D> as MaildirDisk>⟧
            (λ old new. Flushes old stems.now result new) self.old self.new }
        ensures refuses { DiskRefuses ⟦<Fused<D> as MaildirDisk>⟧ self.old result self.new }
        ensures fuse { Fuses (λ d. (D.maildir d).failures) self.old result self.new }
    {
        self.pass()?;
        let answer = self.device.flush(stems, may_miss);
        self.tally(answer)
    }

    fn begin(&mut self, name: &str) -> Result<(), StoreFault>
        requires { FusedIsSound D.sound self.old → (D.maildir (device_of self.old)).begun ≡ None }
        ensures begins { DiskDoes ⟦<Fused<D> as MaildirDisk>⟧
            (λ old new. Begins old name.now result new) self.old self.new }
        ensures begun { OnOk result (name_begun (D.maildir (device_of self.new)) ≡ Some name.now)
            × OnErr result ((D.maildir (device_of self.new)).begun ≡ (D.maildir (device_of self.old)).begun) }
        ensures fails { FailsAndCounts self.old result self.new }
        ensures fuse { Fuses (λ d. (D.maildir d).failures) self.old result self.new }
    {
        self.pass()?;
        let answer = self.device.begin(name);
        self.tally(answer)
    }

    fn add(&mut self, bytes: &[u8]) -> Result<(), StoreFault>
        requires { FusedIsSound D.sound self.old → IsSome (D.maildir (device_of self.old)).begun }
        ensures adds { DiskDoes ⟦<Fused<D> as MaildirDisk>⟧
            (λ old new. Adds old bytes.now result new) self.old self.new }
        ensures begun { name_begun (D.maildir (device_of self.new)) ≡ name_begun (D.maildir (device_of self.old)) }
        ensures refuses { DiskRefuses ⟦<Fused<D> as MaildirDisk>⟧ self.old result self.new }
        ensures fuse { Fuses (λ d. (D.maildir d).failures) self.old result self.new }
    {
        self.pass()?;
        let answer = self.device.add(bytes);
        self.tally(answer)
    }

    fn settle(&mut self, name: &str) -> Result<(), StoreFault>
        requires begun { FusedIsSound D.sound self.old → IsSome (D.maildir (device_of self.old)).begun }
        requires not_there { FusedIsSound D.sound self.old → IsThere (D.maildir (device_of self.old)) name.now → ⊥ }
        ensures settles { DiskDoes ⟦<Fused<D> as MaildirDisk>⟧
            (λ old new. Settles old name.now result new) self.old self.new }
        ensures none_begun { (D.maildir (device_of self.new)).begun ≡ None }
        ensures refuses { DiskRefuses ⟦<Fused<D> as MaildirDisk>⟧ self.old result self.new }
        ensures fuse { (refusals self.old < greatest_count
            → BurnsForStore (λ d. (D.maildir d).failures) self.old result self.new)
            × (passes_left self.old ≡ 0 → FusedIsSound D.sound self.new
            → SettlesBehind (effect_is_due self.old) (D.maildir (device_of self.old)) name.now
            (D.maildir (device_of self.new))) }
    {
        if self.is_last_effect() {
            let _ = self.device.settle(name);
            return Err(self.blow());
        }
        if let Err(fault) = self.pass() {
            self.device.abandon();
            return Err(fault);
        }
        let answer = self.device.settle(name);
        self.tally(answer)
    }

    fn abandon(&mut self)
        ensures drops { DiskDoes ⟦<Fused<D> as MaildirDisk>⟧ (λ old new. new ≡ dropped old) self.old self.new }
        ensures none_begun { (D.maildir (device_of self.new)).begun ≡ None }
        ensures count { refusals self.new ≡ refusals self.old }
        ensures fuse { self.new ≡ record self.old { device = self.new.device } }
    {
        self.device.abandon();
    }

    fn failures(&self) -> u64 {
        self.failures.count()
    }
}

impl<D: FlatFile> FlatFile for Fused<D> {
    ghost use Rattle.std.specs.Prelude.{◌≡◌, ◌≤◌, ◌<◌, length, IfErr, IfOk, IsSome, OnOk};
    ghost use Rattle.mail_terms.specs.FailureCount.{Tallies, refuses, greatest_count};
    ghost use Rattle.mail_store.specs.DiskCalls.{AppendsDisk, CutsDisk, PeeksDisk, ReadsDisk, ReplacesDisk};
    ghost use Rattle.mail_store.specs.Durable.{seen_on};
    ghost use Rattle.mail_store.specs.FlatFile.{HasBytes, TellsBytes, TellsEdges, TellsPiece};
    ghost use Rattle.mail_store.specs.Devices.{FileAnswers, FileDoes, FileRefuses};
    ghost use Rattle.test_devices.specs.StoreFuse.{device_of, passes_left, effect_is_due, refusals};
    ghost use Rattle.test_devices.specs.StoreFuse.{FusedIsSound, BurnsForStore, Fuses, AppendsBehind, ReplacesBehind};

    ghost disk = { λ f. D.disk (device_of f) };

    ghost refusals = { λ f. refusals f };

    ghost sound = { λ f. FusedIsSound D.sound f };

    fn load(&mut self) -> Result<Vec<u8>, StoreFault>
        ensures loads { FileDoes ⟦<Fused<D> as FlatFile>⟧
            (λ old new. ReadsDisk TellsBytes old result new) self.old self.new }
        ensures tells { FileAnswers ⟦<Fused<D> as FlatFile>⟧ self.old result self.new }
        ensures fuse { Fuses D.refusals self.old result self.new }
    {
        self.pass()?;
        let answer = self.device.load();
        self.tally(answer)
    }

    fn peek(&mut self) -> Result<Vec<u8>, StoreFault>
        ensures peeks { FileDoes ⟦<Fused<D> as FlatFile>⟧
            (λ old new. PeeksDisk TellsBytes old result new) self.old self.new }
        ensures tells { FileAnswers ⟦<Fused<D> as FlatFile>⟧ self.old result self.new }
        ensures fuse { Fuses D.refusals self.old result self.new }
    {
        self.pass()?;
        let answer = self.device.peek();
        self.tally(answer)
    }

    fn edges(&mut self) -> Result<Edges, StoreFault>
        ensures measures { FileDoes ⟦<Fused<D> as FlatFile>⟧
            (λ old new. ReadsDisk TellsEdges old result new) self.old self.new }
        ensures tells { FileAnswers ⟦<Fused<D> as FlatFile>⟧ self.old result self.new }
        ensures fuse { Fuses D.refusals self.old result self.new }
    {
        self.pass()?;
        let answer = self.device.edges();
        self.tally(answer)
    }

    fn peek_edges(&mut self) -> Result<Edges, StoreFault>
        ensures peeks { FileDoes ⟦<Fused<D> as FlatFile>⟧
            (λ old new. PeeksDisk TellsEdges old result new) self.old self.new }
        ensures tells { FileAnswers ⟦<Fused<D> as FlatFile>⟧ self.old result self.new }
        ensures fuse { Fuses D.refusals self.old result self.new }
    {
        self.pass()?;
        let answer = self.device.peek_edges();
        self.tally(answer)
    }

    fn read_at(&mut self, start: u64, buf: &mut [u8]) -> Result<usize, StoreFault>
        ensures within { IfOk result (λ count. count ≤ length buf.new) }
        ensures reads { FileDoes ⟦<Fused<D> as FlatFile>⟧
            (λ old new. ReadsDisk (TellsPiece start buf.new) old result new) self.old self.new }
        ensures tells { FileAnswers ⟦<Fused<D> as FlatFile>⟧ self.old result self.new }
        ensures fuse { Fuses D.refusals self.old result self.new }
    {
        self.pass()?;
        let answer = self.device.read_at(start, buf);
        self.tally(answer)
    }

    fn append(&mut self, bytes: &[u8]) -> Result<(), StoreFault>
        requires { FusedIsSound D.sound self.old → IsSome (seen_on (D.disk (device_of self.old))) }
        ensures appends { FileDoes ⟦<Fused<D> as FlatFile>⟧
            (λ old new. AppendsDisk old bytes.now result new) self.old self.new }
        ensures refuses { FileRefuses ⟦<Fused<D> as FlatFile>⟧ self.old result self.new }
        ensures fuse { (refusals self.old < greatest_count
            → BurnsForStore D.refusals self.old result self.new)
            × (passes_left self.old ≡ 0 → FusedIsSound D.sound self.new
            → AppendsBehind D.FlatFile (effect_is_due self.old) (device_of self.old) bytes.now (device_of self.new)) }
    {
        if self.is_last_effect() {
            let _ = self.device.append(&bytes[..bytes.len() / 2]);
            return Err(self.blow());
        }
        self.pass()?;
        let answer = self.device.append(bytes);
        self.tally(answer)
    }

    fn cut_to(&mut self, len: u64) -> Result<(), StoreFault>
        requires { FusedIsSound D.sound self.old → HasBytes (seen_on (D.disk (device_of self.old))) len }
        ensures cuts { FileDoes ⟦<Fused<D> as FlatFile>⟧ (λ old new. CutsDisk old len result new) self.old self.new }
        ensures refuses { FileRefuses ⟦<Fused<D> as FlatFile>⟧ self.old result self.new }
        ensures fuse { Fuses D.refusals self.old result self.new }
    {
        self.pass()?;
        let answer = self.device.cut_to(len);
        self.tally(answer)
    }

    fn replace(&mut self, bytes: &[u8]) -> Result<(), StoreFault>
        ensures replaces { FileDoes ⟦<Fused<D> as FlatFile>⟧
            (λ old new. ReplacesDisk old bytes.now result new) self.old self.new }
        ensures refuses { FileRefuses ⟦<Fused<D> as FlatFile>⟧ self.old result self.new }
        ensures fuse { (refusals self.old < greatest_count
            → BurnsForStore D.refusals self.old result self.new)
            × (passes_left self.old ≡ 0 → FusedIsSound D.sound self.new
            → ReplacesBehind D.FlatFile (effect_is_due self.old) (device_of self.old) bytes.now (device_of self.new)) }
    {
        if self.is_last_effect() {
            let _ = self.device.replace(bytes);
            return Err(self.blow());
        }
        self.pass()?;
        let answer = self.device.replace(bytes);
        self.tally(answer)
    }

    fn failures(&self) -> u64 {
        self.failures.count()
    }

    ghost below = { λ f sound. sound.1 };
}
