//! The folders of a Maildir in a file system, over single calls.

ghost use Rattle.std.specs.{Option.{option_copied, option_or}, Prelude.{◌≡◌, codes}};
ghost use Rattle.folder_store.specs.{
  Handles.unflushed_path,
  HostPaths.AreInMaildir,
  MailFolders.unknown_directories,
  SharedCalls.KnowsListed,
};

use crate::exact_listing::ChangeTime;
use crate::host::CallsFolder;
use crate::host_calls::HostCalls;
use crate::host_shared::{CallsShared, HostShared};
use crate::mail_folders::{FoundNames, MailFolders, Sought};
use crate::new_file::{CallsNewFile, answer_of};
use crate::process_mark::ProcessMark;
use crate::shared_calls::SharedCalls;
use crate::shared_folders::{check_folder, check_rest, flush_files, flush_names, look_up, put_new};
use mail_store::{Folder, StoreFault};
use std::alloc::Global;
use std::rt::Files;
use std::time::{Clock, Duration};
use system_calls::{Refusals, System};

/// The folders `new` and `cur` of a Maildir in a file system, over its single calls. What is known of them is what is
/// known of these.
#[derive(Drop)]
pub struct CallsFolders<'a, S: SharedCalls> {
    calls: S,
    refusals: &'a Refusals,
    alloc: Global,
    /// The time of change of `new` when it was last listed.
    new_listed: Option<ChangeTime>,
    /// The same of `cur`.
    cur_listed: Option<ChangeTime>,
    /// When a folder was first seen to change during the present answer, by the clock that never goes back.
    start: Duration,
    /// The path of each name that was last found to be odd, and why it is.
    obstructions: Vec<Vec<u8>>,
    /// Whether a file wasn't put because something that is no file has its name.
    is_name_taken: bool,
    ghost knows: { KnowsListed (S.sound calls) (S.shared calls) new_listed cur_listed },
}

/// The folders of a Maildir in the machine's file system; files are made in `tmp`.
pub type HostFolders<'a, R> = CallsFolders<'a, HostShared<'a, R>>;

impl<'a, R: Files + Clock + AllocGlobal + Clone + Drop> CallsFolders<
    'a,
    CallsShared<'a, R, HostCalls<'a, R>>,
> {
    /// The folders of the Maildir at a path, absolute or taken from the working folder.
    pub fn of_maildir(
        system: &'a System<'a, R>,
        path: &'a str,
        mark: ProcessMark,
    ) -> HostFolders<'a, R>
        ensures state { ⟦<HostFolders<'a, R> as MailFolders>⟧.directories result ≡ unknown_directories }
        ensures in_new { AreInMaildir result.calls.new_folder.paths path.now (codes "new") }
        ensures in_cur { AreInMaildir result.calls.cur_folder.paths path.now (codes "cur") }
    {
        CallsFolders {
            calls: CallsShared {
                system,
                new_folder: CallsFolder::of_maildir(system, path, "new", mark),
                cur_folder: CallsFolder::of_maildir(system, path, "cur", mark),
            },
            refusals: system.refusals,
            alloc: system.alloc(),
            new_listed: None,
            cur_listed: None,
            start: Duration::ZERO,
            obstructions: Vec::new(system.alloc()),
            is_name_taken: false,
        }
    }

    /// Removes the files of `tmp` whose names begin with `front` that killed runs left behind: those
    /// that weren't changed for an hour. What can't be removed stays.
    pub fn sweep(&self, front: &str) {
        self.calls.new_folder.sweep(front);
    }

    /// What bears the name of a message and can't be opened: the path of each, and why.
    pub fn obstructions(&self) -> &[Vec<u8>]
        ensures { result.now ≡ self.now.obstructions.items }
    {
        &self.obstructions
    }

    /// Whether a delivery was refused because something that is no file has its name.
    pub fn is_name_taken(&self) -> bool
        ensures { result ≡ self.now.is_name_taken }
    {
        self.is_name_taken
    }

    /// The path of a folder whose names weren't flushed because the system flushes no folders, if there is
    /// one.
    pub fn unflushed(&self) -> Option<&str>
        ensures { option_copied result ≡ option_or (unflushed_path self.now.calls.new_folder.handles)
            (unflushed_path self.now.calls.cur_folder.handles) }
    {
        match self.calls.new_folder.unflushed() {
            None => self.calls.cur_folder.unflushed(),
            path => path,
        }
    }
}

impl<'a, S: SharedCalls + Drop> MailFolders for CallsFolders<'a, S> {
    type File = CallsNewFile<'a, S::Made>;

    ghost directories = { λ f. (S.shared f.calls).directories };

    ghost sound = { λ f. S.sound f.calls };

    fn check(&mut self, folder: Folder) -> Result<(), StoreFault> {
        let answer = check_folder(&mut self.calls, folder);
        answer_of(self.refusals, answer)
    }

    fn list(&mut self, folder: Folder, sought: Sought<'_>) -> Result<Vec<String>, StoreFault> {
        let answer = self.calls.list(folder, sought);
        let found = answer_of(self.refusals, answer)?;
        match folder {
            Folder::New => self.new_listed = Some(found.change),
            Folder::Cur => self.cur_listed = Some(found.change),
        }
        Ok(found.names)
    }

    fn files_among(
        &mut self,
        in_new: Vec<String>,
        in_cur: Vec<String>,
    ) -> Result<FoundNames, StoreFault> {
        self.obstructions.clear();
        let answer = look_up(
            self.alloc,
            &mut self.calls,
            in_new,
            in_cur,
            &mut self.obstructions,
        );
        match answer_of(self.refusals, answer) {
            Ok(found) => Ok(found),
            Err(_) => Err(StoreFault::Refused),
        }
    }

    // The time of change that a listing gives had rested for a step of the clock, so that each later
    // change gives the folder another one.
    fn rests(&mut self, folder: Folder, times: u32) -> Result<bool, StoreFault> {
        let listed = match folder {
            Folder::New => self.new_listed,
            Folder::Cur => self.cur_listed,
        };
        let answer = check_rest(&mut self.calls, folder, listed, &mut self.start, times);
        answer_of(self.refusals, answer)
    }

    fn flush_files(&mut self, stems: &[String], may_miss: bool) -> Result<bool, StoreFault> {
        let answer = flush_files(self.alloc, &mut self.calls, stems, may_miss);
        answer_of(self.refusals, answer)
    }

    fn make(&mut self, name: &str) -> Result<CallsNewFile<'a, S::Made>, StoreFault> {
        let answer = self.calls.create(name);
        match answer_of(self.refusals, answer) {
            Ok(file) => Ok(CallsNewFile {
                refusals: self.refusals,
                file,
            }),
            Err(fault) => Err(fault),
        }
    }

    fn put(&mut self, file: CallsNewFile<'a, S::Made>, name: &str) -> Result<(), StoreFault> {
        let answer = put_new(&mut self.calls, &file.file, name);
        if let Err(denial) = &answer {
            self.is_name_taken = denial.is_own() && self.calls.is_other(name);
        }
        answer_of(self.refusals, answer)
    }

    fn discard(&mut self, file: CallsNewFile<'a, S::Made>) {
        let _ = self.calls.unlink(&file.file);
    }

    fn flush_names(&mut self, folder: Folder) -> Result<bool, StoreFault> {
        let answer = flush_names(&mut self.calls, folder);
        answer_of(self.refusals, answer)
    }
}
