//! What is told of what a run says, and what is remembered of it.
ghost use Rattle.std.specs.Prelude.{◌≡◌, IfOk, OnOk, [], bytes_eq, filter, not, set, if◌then◌else◌};
ghost use Rattle.std.specs.Option.{option_map_or};
ghost use Rattle.run_memory.specs.News.{IsNews, beside, faults_after, faults_without, has_key, is_large_news, is_news};
ghost use Rattle.run_memory.specs.News.{large_after, large_now, large_told, large_with, notices_after, notices_told};
ghost use Rattle.run_memory.specs.News.{notices_with, fault_place, fault_told, still_known, still_large, times_in};
ghost use Rattle.run_memory.specs.News.{told_next, with_seen, withholds, unnamed_now};
ghost use Rattle.run_memory.specs.Times.{telling_of};

use crate::key::Key;
use crate::line::{KnownFault, SaidNotice};
use crate::memory::Memory;
use crate::run::{News, Notice, Run, end_told, left_after, limit_told, marks_after, more_than};
use crate::times::{DAY, Telling, Times, is_over, telling_of, times_after};
use std::alloc::{AllocError, Global};

const WEEK: u64 = 604_800;

/// How many messages that are too large are remembered.
const LARGE: usize = 1_000;

/// Whether keys have this one.
fn has_key(keys: &[Key], key: Key) -> bool
    ensures { result ≡ has_key keys.now key }
{
    keys.iter().any(|known| *known == key)
}

/// Whether a notice that was told keeps another one from being told.
fn withholds(notice: &Notice, now: u64, said: &SaidNotice) -> bool
    ensures { result ≡ withholds notice.now now said.now }
{
    said.key == notice.key && !(notice.lasts && is_over(WEEK, said.told, now))
}

/// Whether a fault was seen less than a day ago: it was told less than two days ago.
fn is_still_known(known: &KnownFault, now: u64) -> bool
    ensures { result ≡ still_known now known.now }
{
    !is_over(2 * DAY, known.times.told, now)
}

/// Whether a notice is told.
fn is_news(notices: &[SaidNotice], notice: &Notice, now: u64) -> bool
    ensures { result ≡ is_news notices.now notice.now now }
{
    let mut rest = notices;
    while let [said, behind @ ..] = rest {
        if withholds(notice, now, said) {
            return false;
        }
        rest = behind;
    }
    true
}

/// The faults that were seen less than a day ago.
fn still_known(
    alloc: Global,
    faults: &[KnownFault],
    now: u64,
) -> Result<Vec<KnownFault>, AllocError>
    ensures { IfOk result (λ kept. kept.items ≡ filter (still_known now) faults.now) }
{
    let mut kept = Vec::new(alloc);
    let mut rest = faults;
    while let [known, behind @ ..] = rest {
        if is_still_known(known, now) {
            kept.push(*known)?;
        }
        rest = behind;
    }
    Ok(kept)
}

/// The other notices.
fn without(alloc: Global, notices: &[SaidNotice], key: Key) -> Result<Vec<SaidNotice>, AllocError>
    ensures { IfOk result (λ kept. kept.items ≡ filter (λ said. not (bytes_eq said.key key)) notices.now) }
{
    let mut kept = Vec::new(alloc);
    let mut rest = notices;
    while let [said, behind @ ..] = rest {
        if said.key != key {
            kept.push(*said)?;
        }
        rest = behind;
    }
    Ok(kept)
}

/// The messages that are among these.
fn still_large(alloc: Global, large: &[Key], keys: &[Key]) -> Result<Vec<Key>, AllocError>
    ensures { IfOk result (λ kept. kept.items ≡ still_large large.now keys.now) }
{
    let mut kept = Vec::new(alloc);
    let mut rest = large;
    while let [known, behind @ ..] = rest {
        if has_key(keys, *known) {
            kept.push(*known)?;
        }
        rest = behind;
    }
    Ok(kept)
}

impl Memory {
    /// When a fault was seen, if it was.
    fn times_of(&self, key: Key) -> Option<Times>
        ensures { result ≡ times_in self.now.faults key }
    {
        let known = self.faults.iter().find(|known| known.key == key)?;
        Some(known.times)
    }

    /// Forgets the first fault of a key.
    #[tactic(auto, using(crate::proofs::MemoryLemmas::removed_kept))]
    fn forget(&mut self, key: Key)
        ensures { self.new ≡ record self.old { faults = faults_without self.old.faults key } }
    {
        if let Some(place) = self.place_of(key) {
            self.faults.remove(place);
        }
    }

    /// Puts a fault in the place of the first one of its key.
    #[tactic(auto, using(crate::proofs::MemoryLemmas::replaced_kept))]
    fn renew(&mut self, fault: KnownFault)
        ensures { self.new ≡ record self.old {
          faults = option_map_or (λ place. set self.old.faults place fault) (fault_place self.old.faults fault.key)
              self.old.faults;
        } }
    {
        if let Some(place) = self.place_of(fault.key) {
            self.faults[place] = fault;
        }
    }

    /// A fault was seen: what is told of it.
    fn see_fault(&mut self, key: Key, now: u64) -> Result<Telling, AllocError>
        ensures told { IfOk result (λ telling. telling ≡ telling_of (times_in self.old.faults key) now) }
        ensures kept { OnOk result (self.new ≡ record self.old { faults = with_seen self.old.faults key now }) }
    {
        let known = self.times_of(key);
        let times = times_after(known, now);
        let fault = KnownFault { key, times };
        let telling = telling_of(known, now);
        if let Telling::Nothing = telling {
            self.renew(fault);
        } else {
            self.forget(key);
            self.add_fault(fault)?;
        }
        Ok(telling)
    }

    /// Forgets the faults that weren't seen for a day.
    fn forget_old(&mut self, alloc: Global, now: u64) -> Result<(), AllocError>
        ensures { OnOk result (self.new ≡ record self.old { faults = filter (still_known now) self.old.faults }) }
    {
        self.faults = still_known(alloc, &self.faults, now)?;
        Ok(())
    }

    /// What is told of the fault of a run.
    fn see_run_fault(&mut self, alloc: Global, run: &Run, now: u64) -> Result<Telling, AllocError>
        ensures told { IfOk result (λ telling. telling ≡ fault_told self.old.faults run.now now) }
        ensures kept { OnOk result (self.new ≡ record self.old { faults = faults_after self.old.faults run.now now }) }
    {
        let telling = match run.fault {
            Some(key) => self.see_fault(key, now)?,
            None => Telling::Nothing,
        };
        if run.has_ended {
            self.forget_old(alloc, now)?;
        }
        Ok(telling)
    }

    /// Forgets what was told of a notice.
    fn forget_notice(&mut self, alloc: Global, key: Key) -> Result<(), AllocError>
        ensures { OnOk result (self.new ≡ record self.old {
          notices = filter (λ said. not (bytes_eq said.key key)) self.old.notices;
        }) }
    {
        self.notices = without(alloc, &self.notices, key)?;
        Ok(())
    }

    /// Something was noticed: whether it is told.
    fn see_notice(&mut self, alloc: Global, notice: &Notice, now: u64) -> Result<bool, AllocError>
        ensures told { IfOk result (λ told. told ≡ is_news self.old.notices notice.now now) }
        ensures kept { OnOk result (self.new ≡ record self.old {
          notices = notices_with self.old.notices notice.now now;
        }) }
    {
        let is_told = is_news(&self.notices, notice, now);
        if is_told {
            let key = notice.key;
            self.forget_notice(alloc, key)?;
            self.add_notice(SaidNotice { key, told: now })?;
        }
        Ok(is_told)
    }

    /// Whether each of these notices is told.
    fn see_notices(
        &mut self,
        alloc: Global,
        notices: &[Notice],
        now: u64,
    ) -> Result<Vec<bool>, AllocError>
        ensures told { IfOk result (λ told. told.items ≡ notices_told self.old.notices notices.now now) }
        ensures kept { OnOk result (self.new ≡ record self.old {
          notices = notices_after self.old.notices notices.now now;
        }) }
    {
        let mut told = Vec::new(alloc);
        let mut rest = notices;
        while let [notice, behind @ ..] = rest {
            told.push(self.see_notice(alloc, notice, now)?)?;
            rest = behind;
        }
        Ok(told)
    }

    /// Forgets the messages that aren't among these.
    fn forget_gone(&mut self, alloc: Global, keys: &[Key]) -> Result<(), AllocError>
        ensures { OnOk result (self.new ≡ record self.old { large = still_large self.old.large keys.now }) }
    {
        self.large = still_large(alloc, &self.large, keys)?;
        Ok(())
    }

    /// A message is too large: whether it is named.
    fn see_large(&mut self, key: Key) -> Result<bool, AllocError>
        ensures told { IfOk result (λ told. told ≡ is_large_news self.old.large key) }
        ensures kept { OnOk result (self.new ≡ record self.old { large = large_with self.old.large key }) }
    {
        let is_named = !has_key(&self.large, key) && self.large.len() < LARGE;
        if is_named {
            self.add_large(key)?;
        }
        Ok(is_named)
    }

    /// Whether each of these messages, which are too large, is named.
    fn see_all_large(&mut self, alloc: Global, keys: &[Key]) -> Result<Vec<bool>, AllocError>
        ensures told { IfOk result (λ told. told.items ≡ large_told self.old.large keys.now) }
        ensures kept { OnOk result (self.new ≡ record self.old { large = large_after self.old.large keys.now }) }
    {
        let mut told = Vec::new(alloc);
        let mut rest = keys;
        while let [key, behind @ ..] = rest {
            told.push(self.see_large(*key)?)?;
            rest = behind;
        }
        Ok(told)
    }

    /// Whether each message of a run that is too large is named.
    fn see_run_large(&mut self, alloc: Global, run: &Run) -> Result<Vec<bool>, AllocError>
        ensures told { IfOk result (λ told. told.items ≡ (if run.now.has_listed then
            large_told (still_large self.old.large run.now.large.items) run.now.large.items else [])) }
        ensures kept { OnOk result (self.new ≡ record self.old { large = large_now self.old run.now }) }
    {
        if !run.has_listed {
            return Ok(Vec::new(alloc));
        }
        self.forget_gone(alloc, &run.large)?;
        self.see_all_large(alloc, &run.large)
    }

    /// How many messages of a run are too large beside those that are remembered.
    fn unnamed_of(&self, run: &Run) -> u64
        ensures { result ≡ (if run.now.has_listed then beside self.now.large run.now.large.items
            else self.now.left.unnamed) }
    {
        if run.has_listed {
            run.large.len().saturating_sub(self.large.len()) as u64
        } else {
            self.left.unnamed
        }
    }

    /// What is told of what a run says. It is remembered, unless there is no memory for it.
    pub fn take_in(&mut self, alloc: Global, run: &Run, now: u64) -> Result<News, AllocError>
        ensures told { IfOk result (IsNews self.old run.now now) }
        ensures kept { OnOk result (self.new ≡ told_next self.old run.now now) }
    {
        let (left, marks) = (self.left, self.marks);
        let fault = self.see_run_fault(alloc, run, now)?;
        let notices = self.see_notices(alloc, &run.notices, now)?;
        let large = self.see_run_large(alloc, run)?;
        let unnamed = self.unnamed_of(run);
        self.set_left(left_after(left, run, unnamed, now));
        self.set_marks(marks_after(marks, run, now));
        Ok(News {
            fault,
            notices,
            large,
            unnamed: more_than(left.unnamed, unnamed),
            limited: limit_told(left, run, now),
            repeated: more_than(left.repeated, run.counts.repeated),
            end: end_told(marks, run, now),
        })
    }
}
