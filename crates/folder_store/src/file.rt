//! A file in a folder of a file system.

ghost use Rattle.std.specs.{Prelude.{◌≡◌, ◌<◌, IfNone, IfSome, IsSomeAnd, false}, Option.option_copied};
ghost use Rattle.mail_terms.specs.FailureCount.{greatest_count};
ghost use Rattle.mail_store.specs.{Devices.stored_in, DiskCalls.FlushesBoth};
ghost use Rattle.folder_store.specs.{
  CutOff.has_others,
  Handles.unflushed_path,
  HostFile.{FlushHolds, unknown_file},
  HostPaths.IsFileAt,
  NewDevices.{LeftFilesStand, NewFilesKeepBytes},
  PowerLoss.disk_at,
  Sound.WhereFilesSound,
};

use crate::cut_off::{CutOff, append_noting, cut_keeping};
use crate::durable_file::{Appending, flush_both, replace_flushed};
use crate::file_folder::{FileFolder, FolderState};
use crate::host::{CallsFolder, HostFolder};
use crate::process_mark::ProcessMark;
use crate::system::parts_of;
use crate::tally::tally;
use mail_store::{Edges, FlatFile, StoreFault, admit, refuse};
use mail_terms::FailureCount;
use std::rt::Files;
use std::time::Clock;
use system_calls::System;

/// A file in a folder of a file system.
///
/// Each write is flushed before the call returns. `replace` writes a new file, flushes it, gives it
/// the name and flushes that. Before the first `load`, `edges` or `read_at` returns Ok, the file
/// and its name are flushed, so that no loss of power takes back what an earlier run wrote and this
/// one relies on.
#[derive(Drop)]
pub struct HostFile<'a, F: FolderState> {
    folder: F,
    name: &'a str,
    appending: Appending,
    /// Whether the file's bytes and its name were flushed.
    is_flushed: bool,
    /// Where what is cut off is kept, if it is.
    cut_off: Option<CutOff<'a, F>>,
    failures: FailureCount,
    // Then another flush would change nothing.
    ghost settled: { FlushHolds is_flushed (F.sound folder) (disk_at (F.directory folder) name.now) },
}

impl<'a, F: FolderState> HostFile<'a, F> {
    /// Whether this run kept what it cut off, and appended nothing since that begins with it.
    pub fn keeps_others(&self) -> bool
        ensures some { IfSome self.now.cut_off (λ kept. result ≡ has_others kept) }
        ensures none { IfNone self.now.cut_off (result ≡ false) }
    {
        match &self.cut_off {
            Some(cut_off) => cut_off.has_others(),
            None => false,
        }
    }
}

impl<'a, F: FileFolder + Drop> HostFile<'a, F> {
    /// The file of a name in a folder. There need be none.
    pub fn over(folder: F, name: &'a str, appending: Appending) -> HostFile<'a, F>
        ensures refusals { ⟦<HostFile<'a, F> as FlatFile>⟧.refusals result ≡ 0 }
        ensures disk { ⟦<HostFile<'a, F> as FlatFile>⟧.disk result ≡ disk_at (F.directory folder) name.now }
        ensures parts { (result.folder ≡ folder) × (result.name.now ≡ name.now) }
        ensures sound { F.sound folder → ⟦<HostFile<'a, F> as FlatFile>⟧.sound result }
    {
        HostFile {
            folder,
            name,
            appending,
            is_flushed: false,
            cut_off: None,
            failures: FailureCount::new(),
        }
    }

    /// Gives the folder back.
    pub fn into_folder(self) -> F
        ensures { result ≡ self.entry.folder }
    {
        let HostFile {
            folder,
            name: _,
            appending: _,
            is_flushed: _,
            cut_off: _,
            failures: _,
        } = self;
        folder
    }

    // Flushes the file and its name, unless they were flushed before.
    #[tactic(auto, using(mail_store::proofs::DiskLemmas::flushed_settled))]
    fn secure(&mut self) -> Result<(), StoreFault>
        ensures flushes { WhereFilesSound (λ f. F.sound f.folder) (λ f. disk_at (F.directory f.folder) f.name.now)
            self.old self.new (λ old new. FlushesBoth old result new) }
        ensures others { (self.new.name ≡ self.old.name) × (self.new.failures ≡ self.old.failures) }
    {
        if self.is_flushed {
            return Ok(());
        }
        flush_both(&mut self.folder, self.name)?;
        self.is_flushed = true;
        Ok(())
    }
}

impl<'a, R: Files + AllocGlobal> HostFile<'a, HostFolder<'a, R>> {
    /// Whether something is kept of what was cut off from the file, by this run or an earlier one.
    pub fn has_rests(&self) -> bool {
        match &self.cut_off {
            Some(cut_off) => {
                let (folder, name) = cut_off.place();
                folder.has_octets(name)
            }
            None => false,
        }
    }

    /// The path of a folder of the file whose names weren't flushed because the system flushes no folders, if
    /// there is one.
    pub fn unflushed(&self) -> Option<&str>
        ensures { option_copied result ≡ unflushed_path self.now.folder.handles }
    {
        self.folder.unflushed()
    }

    /// The file at a path, absolute or taken from the working folder. There need be none. What is
    /// appended is flushed once, which suits long texts whose writer finds and cuts off what a loss of
    /// power left of one.
    ///
    /// Once another program has changed the file since it was first measured, it is neither measured,
    /// appended to nor cut: these calls are refused.
    pub fn at(
        system: &'a System<'a, R>,
        path: &'a str,
        mark: ProcessMark,
    ) -> HostFile<'a, HostFolder<'a, R>>
        ensures state { stored_in ⟦<HostFile<'a, HostFolder<'a, R>> as FlatFile>⟧ result ≡ unknown_file }
        ensures place { IsFileAt result.folder.paths result.name.now path.now }
    {
        let (folder, name) = parts_of(path);
        let folder = CallsFolder::at(system, folder, mark, false);
        HostFile::over(folder, name, Appending::AtOnce)
    }

    /// The file at a path, likewise. What is appended is flushed at each border of 512 octets of the
    /// file before more is written, so that a loss of power leaves a front of it, and perhaps zeros behind
    /// that: for short texts.
    pub fn by_blocks(
        system: &'a System<'a, R>,
        path: &'a str,
        mark: ProcessMark,
    ) -> HostFile<'a, HostFolder<'a, R>>
        ensures state { stored_in ⟦<HostFile<'a, HostFolder<'a, R>> as FlatFile>⟧ result ≡ unknown_file }
        ensures place { IsFileAt result.folder.paths result.name.now path.now }
    {
        let (folder, name) = parts_of(path);
        let folder = CallsFolder::at(system, folder, mark, true);
        HostFile::over(folder, name, Appending::ByBlocks)
    }

    /// The file at a path, as `at` has it. What is cut off is first kept in the file at another path,
    /// after what that has, unless it is a part of bytes of this run whose `append` was refused.
    pub fn keeping(
        system: &'a System<'a, R>,
        path: &'a str,
        cut_off: &'a str,
        mark: ProcessMark,
    ) -> HostFile<'a, HostFolder<'a, R>>
        ensures state { stored_in ⟦<HostFile<'a, HostFolder<'a, R>> as FlatFile>⟧ result ≡ unknown_file }
        ensures place { IsFileAt result.folder.paths result.name.now path.now }
        ensures rests { IsSomeAnd result.cut_off (λ kept. IsFileAt kept.folder.paths kept.name.now cut_off.now) }
    {
        let (folder, name) = parts_of(cut_off);
        let kept = CutOff::over(CallsFolder::at(system, folder, mark, false), name);
        let mut file = HostFile::at(system, path, mark);
        file.cut_off = Some(kept);
        file
    }

    /// Removes the file that keeps what was cut off, if bytes that were appended since begin
    /// with all of it.
    pub fn drop_ours(&self) {
        if let Some(cut_off) = &self.cut_off {
            if cut_off.are_ours() {
                let (folder, name) = cut_off.place();
                folder.remove(name);
            }
        }
    }
}

impl<'a, R: Files + Clock + AllocGlobal + Clone + Drop> HostFile<'a, HostFolder<'a, R>> {
    /// Removes the files that `replace` of killed runs left beside this one: those that weren't changed
    /// for an hour. What can't be removed stays.
    pub fn sweep(&self) {
        let name = self.name;
        if let Ok(front) = format!(in self.folder.alloc(); "{name}.tmp") {
            self.folder.sweep(front.as_str());
        }
    }
}

impl<'a, F: FileFolder + Drop> FlatFile for HostFile<'a, F> {
    ghost disk = { λ f. disk_at (F.directory f.folder) f.name.now };

    ghost refusals = { λ f. f.failures };

    ghost sound = { λ f. F.sound f.folder × (f.failures < greatest_count) };

    fn load(&mut self) -> Result<Vec<u8>, StoreFault> {
        admit(&self.failures)?;
        match self.folder.read(self.name) {
            Ok(bytes) => {
                if self.secure().is_err() {
                    return Err(refuse(&mut self.failures));
                }
                Ok(bytes)
            }
            Err(fault) => tally(&mut self.failures, Err(fault)),
        }
    }

    fn peek(&mut self) -> Result<Vec<u8>, StoreFault> {
        admit(&self.failures)?;
        tally(&mut self.failures, self.folder.read(self.name))
    }

    fn edges(&mut self) -> Result<Edges, StoreFault> {
        admit(&self.failures)?;
        match self.folder.edges(self.name) {
            Ok(edges) => {
                if self.secure().is_err() {
                    return Err(refuse(&mut self.failures));
                }
                Ok(edges)
            }
            Err(fault) => tally(&mut self.failures, Err(fault)),
        }
    }

    fn peek_edges(&mut self) -> Result<Edges, StoreFault> {
        admit(&self.failures)?;
        tally(&mut self.failures, self.folder.edges(self.name))
    }

    fn read_at(&mut self, start: u64, buf: &mut [u8]) -> Result<usize, StoreFault> {
        admit(&self.failures)?;
        match self.folder.read_at(self.name, start, buf) {
            Ok(count) => {
                if self.secure().is_err() {
                    return Err(refuse(&mut self.failures));
                }
                Ok(count)
            }
            Err(fault) => tally(&mut self.failures, Err(fault)),
        }
    }

    #[tactic(auto, using(crate::proofs::Files::append_settled))]
    fn append(&mut self, bytes: &[u8]) -> Result<(), StoreFault> {
        admit(&self.failures)?;
        match append_noting(
            &mut self.folder,
            self.name,
            bytes,
            self.appending,
            &mut self.cut_off,
        ) {
            Ok(()) => Ok(()),
            Err(_) => {
                self.is_flushed = false;
                Err(refuse(&mut self.failures))
            }
        }
    }

    #[tactic(auto, using(crate::proofs::Files::cut_settled))]
    fn cut_to(&mut self, len: u64) -> Result<(), StoreFault> {
        admit(&self.failures)?;
        match cut_keeping(&mut self.folder, self.name, len, &mut self.cut_off) {
            Ok(()) => Ok(()),
            Err(_) => {
                self.is_flushed = false;
                Err(refuse(&mut self.failures))
            }
        }
    }

    #[tactic(auto, using(mail_store::proofs::DiskLemmas::replaced_settled))]
    fn replace(&mut self, bytes: &[u8]) -> Result<(), StoreFault> {
        admit(&self.failures)?;
        match replace_flushed(&mut self.folder, self.name, bytes) {
            Ok(_) => {
                self.is_flushed = true;
                Ok(())
            }
            Err(_) => {
                self.is_flushed = false;
                Err(refuse(&mut self.failures))
            }
        }
    }

    fn failures(&self) -> u64 {
        self.failures.count()
    }

    ghost below = { λ f sound. sound.1 };
}

/// A file made anew over the same folder has what the last one had, and the same of it is durable; over a folder that
/// a loss of power left, all that calls see is.
pub fn new_files_keep_bytes<'a, F: FileFolder + Drop>()
    ensures anew { NewFilesKeepBytes ⟦<HostFile<'a, F> as FlatFile>⟧ (λ f. F.directory f.folder) (λ f. f.name.now) }
    ensures left { LeftFilesStand ⟦<HostFile<'a, F> as FlatFile>⟧ (λ f. F.directory f.folder) }
{}
