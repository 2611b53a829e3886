//! Folders of a file system, over its single calls.

ghost use Rattle.std.specs.{Option.option_copied, Prelude.{◌≡◌, IfOk, string_bytes}};
ghost use Rattle.folder_store.specs.{
  Calls.{Creates, IsAbsent, Stats, SyncsNames},
  FileFolder.unknown_directory,
  Handles.{NotesFolder, unflushed_path},
  HostAnswers.TellsThere,
  HostPaths.{AreIn, AreInMaildir, folder_of, path_named},
  Kept.KeptHolds,
  Sound.{WhereFilesSound, WhereFilesStay},
  Under.{directory_under, front_of},
};

use crate::calls::{Access, FileCalls, FileKind, FileStat};
use crate::exact_listing::list_names;
use crate::file_folder::{FileFolder, FolderState};
use crate::flush_pass::is_opened_anew;
use crate::handles::Handles;
use crate::host_calls::HostCalls;
use crate::host_paths::HostPaths;
use crate::kept_file::{
    append_kept, cut_kept, flush_kept, flush_links, flush_names, make_marked, put_made, size_of,
    sync_names,
};
use crate::listed_names::tells_odd;
use crate::listing_calls::SystemListing;
use crate::new_file::{CallsNewFile, answer_of};
use crate::opened_file::{IRREGULAR, LEADS_NOWHERE, open_found, read_all, read_edges, read_piece};
use crate::process_mark::ProcessMark;
use crate::shared_calls::ListedNames;
use crate::sweep::{Scratch, sweep};
use crate::wanted::Wanted;
use mail_store::{Edges, StoreFault};
use std::alloc::Global;
use std::collections::BTreeSet;
use std::fs::Metadata;
use std::io::ErrorKind;
use std::rt::Files;
use std::time::Clock;
use system_calls::{Denial, OpenAt, Refusals, System};

/// A folder of a file system, over its single calls. What is known of it is what is known of them.
///
/// A file is made so that its owner alone can read it (mode 0600), and its name ends with the process's
/// mark until it is put into the folder, so that no other run writes it.
#[derive(Drop)]
pub struct CallsFolder<'a, C: FileCalls> {
    calls: C,
    refusals: &'a Refusals,
    paths: HostPaths<'a>,
    handles: Handles<C::File>,
    // What is open is what its path leads to.
    ghost kept: { KeptHolds C.FileCalls C.File.OpenHandle calls (folder_of paths) handles },
}

/// A folder of the machine's file system. The listing is exact although others rename files meanwhile.
pub type HostFolder<'a, R> = CallsFolder<'a, HostCalls<'a, R>>;

impl<'a, C: FileCalls> CallsFolder<'a, C> {
    // The path of a name.
    pub(crate) fn path_of(&self, name: &str) -> Result<String, Denial>
        ensures { IfOk result (λ path. string_bytes path ≡ path_named self.now.paths name.now) }
    {
        self.paths.path_of(name)
    }

    // Makes a file to be put under a name.
    pub(crate) fn create(&mut self, name: &str) -> Result<C::Made, Denial>
        ensures { WhereFilesStay C.sound C.tree self.old.calls self.new.calls
            (λ tree. IfOk result C.Made.sound → Creates C.Made.made tree.directory.can_make result) }
    {
        make_marked(&mut self.calls, &self.paths, name)
    }

    // stat(2) of the folder.
    pub(crate) fn stat(&mut self) -> Result<FileStat, Denial>
        ensures { WhereFilesStay C.sound C.tree self.old.calls self.new.calls
            (λ tree. Stats tree (folder_of self.old.paths) result) }
    {
        let path = self.paths.folder_path()?;
        self.calls.stat(path.as_str())
    }

    // fsync(2) of the folder.
    pub(crate) fn sync_names(&mut self) -> Result<(), Denial>
        ensures syncs { WhereFilesSound C.sound C.tree self.old.calls self.new.calls
            (λ old new. SyncsNames old (folder_of self.old.paths) result new) }
        ensures notes { NotesFolder (folder_of self.old.paths) self.old.handles result self.new.handles }
    {
        sync_names(&mut self.calls, &self.paths, &mut self.handles)
    }
}

impl<'a, R: Files + AllocGlobal> CallsFolder<'a, HostCalls<'a, R>> {
    /// A folder of the Maildir at a path, absolute or taken from the working folder. Files are made in
    /// the Maildir's folder `tmp`.
    pub fn of_maildir(
        system: &'a System<'a, R>,
        path: &'a str,
        folder: &'a str,
        mark: ProcessMark,
    ) -> HostFolder<'a, R>
        ensures state { ⟦<HostFolder<'a, R> as FolderState>⟧.directory result ≡ unknown_directory }
        ensures place { AreInMaildir result.paths path.now folder.now }
    {
        CallsFolder {
            calls: HostCalls { system },
            refusals: system.refusals,
            paths: HostPaths {
                alloc: system.alloc(),
                base: path,
                folder,
                scratch: "tmp",
                suffix: "",
                mark,
            },
            handles: Handles::new(false, false),
        }
    }

    /// The folder at a path, absolute or taken from the working folder. Files are made in it too, with
    /// `.tmp` and the process's mark after their names. If `keeps_handle` is true, a file that was changed
    /// stays open for its next change: for one that nobody else replaces. Else the one file that is used
    /// there is watched: its edges aren't told, and it is neither appended to nor cut, once another program
    /// has changed it since it was first looked at.
    pub fn at(
        system: &'a System<'a, R>,
        path: &'a str,
        mark: ProcessMark,
        keeps_handle: bool,
    ) -> HostFolder<'a, R>
        ensures state { ⟦<HostFolder<'a, R> as FolderState>⟧.directory result ≡ unknown_directory }
        ensures place { AreIn result.paths path.now }
    {
        CallsFolder {
            calls: HostCalls { system },
            refusals: system.refusals,
            paths: HostPaths {
                alloc: system.alloc(),
                base: path,
                folder: "",
                scratch: "",
                suffix: ".tmp",
                mark,
            },
            handles: Handles::new(keeps_handle, !keeps_handle),
        }
    }

    /// Removes a file, if it can be.
    pub fn remove(&self, name: &str) {
        if let Ok(path) = self.paths.path_of(name) {
            let _ = self.calls.system.unlink(path.as_str());
        }
    }

    /// The allocator of what the folder returns.
    pub fn alloc(&self) -> Global
        ensures { result ≡ self.now.paths.alloc }
    {
        self.paths.alloc
    }

    /// Whether there is a file of a name that has octets.
    pub fn has_octets(&self, name: &str) -> bool {
        matches!(self.look_up(name), Ok(found) if !found.is_dir() && found.len() > 0)
    }

    /// The path of a folder whose names weren't flushed because the system flushes no folders, if there is one: of this
    /// one, or of one that holds what a link leads to.
    pub fn unflushed(&self) -> Option<&str>
        ensures { option_copied result ≡ unflushed_path self.now.handles }
    {
        self.handles.unflushed.as_deref()
    }

    // Why the folder isn't used.
    pub(crate) fn folder_refusal(&self, words: &str) -> Denial
        ensures { IsAbsent result → ⊥ }
    {
        self.paths.folder_refusal(words)
    }

    // Why a file isn't used.
    pub(crate) fn refusal(&self, name: &str, words: &str) -> Denial
        ensures { IsAbsent result → ⊥ }
    {
        self.paths.refusal(name, words)
    }

    // What a name itself is.
    pub(crate) fn look_up(&self, name: &str) -> Result<Metadata, Denial> {
        self.calls.system.lstat(self.paths.path_of(name)?.as_str())
    }

    // Opens a regular file, or one that a link leads to, if the name is still there. It is refused if the name
    // stands for anything else.
    fn open_if_there(&mut self, name: &str) -> Result<Option<OpenAt<R::File>>, Denial> {
        let found = match open_found(&mut self.calls, &self.paths, name, Access::Read) {
            Ok(found) => found,
            Err(fault) => {
                if fault.kind() != ErrorKind::NotFound {
                    return Err(fault);
                }
                self.check_gone(name)?;
                return Ok(None);
            }
        };
        if let Some(file) = found {
            if self.calls.fstat(&file)?.kind != FileKind::Folder {
                return Ok(Some(file));
            }
        }
        Err(self.paths.refusal(name, IRREGULAR))
    }

    // Flushes the bytes of such a file, and says whether the name is still there; None if it can't be opened. A file
    // that is no link may go away once it is open, and counts only if it wasn't opened before, as another name's.
    pub(crate) fn sync_if_there(
        &mut self,
        name: &str,
        opened: &mut BTreeSet<(u64, u64)>,
    ) -> Result<Option<bool>, Denial> {
        let is_link = self.is_link(name);
        match self.open_if_there(name) {
            Ok(Some(file)) => {
                self.calls.fsync(&file)?;
                if is_link {
                    return Ok(Some(self.are_targets_synced(name)?));
                }
                Ok(Some(is_opened_anew(opened, &self.calls.fstat(&file)?)?))
            }
            Ok(None) => Ok(Some(false)),
            Err(fault) if self.is_odd(name, &fault) => Ok(None),
            Err(fault) => Err(fault),
        }
    }

    // Flushes the folders that hold what a link leads to. False if one of the links went away meanwhile.
    fn are_targets_synced(&mut self, name: &str) -> Result<bool, Denial> {
        is_there(flush_links(&self.calls, &self.paths, &mut self.handles, name))
    }

    // Whether a name can't be opened because of what it stands for, or of its rights. If it can't even be looked up,
    // that is because of the folder.
    fn is_odd(&self, name: &str, fault: &Denial) -> bool {
        (tells_odd(fault) || fault.is_own()) && self.look_up(name).is_ok()
    }

    // Whether a name stands for a link itself.
    fn is_link(&self, name: &str) -> bool {
        matches!(self.look_up(name), Ok(found) if found.is_symlink())
    }

    // What leads to nothing has gone, or is a link, which is refused.
    fn check_gone(&self, name: &str) -> Result<(), Denial> {
        match self.look_up(name) {
            Ok(found) if found.is_symlink() => Err(self.paths.refusal(name, LEADS_NOWHERE)),
            Err(fault) if fault.kind() != ErrorKind::NotFound => Err(fault),
            _ => Ok(()),
        }
    }
}

impl<'a, R: Files + Clock + AllocGlobal + Clone + Drop> CallsFolder<'a, HostCalls<'a, R>> {
    /// Removes the files whose names begin with `front` that killed runs left behind: those that
    /// weren't changed for an hour. What can't be removed stays.
    pub fn sweep(&self, front: &str) {
        if let Ok(path) = self.paths.scratch_path() {
            let _ = sweep(&Scratch {
                system: self.calls.system,
                path: path.as_str(),
                front,
            });
        }
    }

    // The names of the folder that are wanted, whatever they lead to.
    pub(crate) fn read_names(&self, wanted: Wanted<'_>) -> Result<ListedNames, Denial> {
        let path = self.paths.folder_path()?;
        let mut folder = SystemListing {
            system: self.calls.system,
            path: path.as_str(),
        };
        list_names(&mut folder, self.paths.alloc, path.as_str(), wanted)
    }
}

/// Whether something is there, by the answer to a call for it.
fn is_there<T: Drop>(answer: Result<T, Denial>) -> Result<bool, Denial>
    ensures { TellsThere answer result }
{
    match answer {
        Ok(_found) => Ok(true),
        Err(fault) => match fault.kind() {
            ErrorKind::NotFound => Ok(false),
            _ => Err(fault),
        },
    }
}

impl<'a, C: FileCalls> FolderState for CallsFolder<'a, C> {
    ghost directory = { λ f. directory_under (front_of (folder_of f.paths)) (C.tree f.calls).directory };

    ghost sound = { λ f. C.sound f.calls };
}

impl<'a, C: FileCalls + Drop> FileFolder for CallsFolder<'a, C> {
    type File = CallsNewFile<'a, C::Made>;

    fn make(&mut self, name: &str) -> Result<CallsNewFile<'a, C::Made>, StoreFault> {
        let answer = make_marked(&mut self.calls, &self.paths, name);
        match answer_of(self.refusals, answer) {
            Ok(file) => Ok(CallsNewFile {
                refusals: self.refusals,
                file,
            }),
            Err(fault) => Err(fault),
        }
    }

    fn put(&mut self, file: CallsNewFile<'a, C::Made>, name: &str) -> Result<(), StoreFault> {
        self.handles.forget_changed();
        let answer = put_made(&mut self.calls, &self.paths, &file.file, name);
        answer_of(self.refusals, answer)
    }

    fn discard(&mut self, file: CallsNewFile<'a, C::Made>) {
        let _ = self.calls.unlink(&file.file);
    }

    fn read(&mut self, name: &str) -> Result<Vec<u8>, StoreFault> {
        let answer = read_all(&mut self.calls, &self.paths, name);
        answer_of(self.refusals, answer)
    }

    fn edges(&mut self, name: &str) -> Result<Edges, StoreFault> {
        let answer = read_edges(&mut self.calls, &self.paths, &mut self.handles.watch, name);
        answer_of(self.refusals, answer)
    }

    fn read_at(&mut self, name: &str, start: u64, buf: &mut [u8]) -> Result<usize, StoreFault> {
        let answer = read_piece(&mut self.calls, &self.paths, name, start, buf);
        answer_of(self.refusals, answer)
    }

    fn size(&mut self, name: &str) -> Result<u64, StoreFault> {
        let answer = size_of(&mut self.calls, &self.paths, &mut self.handles, name);
        answer_of(self.refusals, answer)
    }

    fn append(&mut self, name: &str, bytes: &[u8]) -> Result<(), StoreFault> {
        let answer = append_kept(&mut self.calls, &self.paths, &mut self.handles, name, bytes);
        answer_of(self.refusals, answer)
    }

    fn cut_to(&mut self, name: &str, len: u64) -> Result<(), StoreFault> {
        let answer = cut_kept(&mut self.calls, &self.paths, &mut self.handles, name, len);
        answer_of(self.refusals, answer)
    }

    fn flush(&mut self, name: &str) -> Result<(), StoreFault> {
        let answer = flush_kept(&mut self.calls, &self.paths, &mut self.handles, name);
        answer_of(self.refusals, answer)
    }

    fn flush_names(&mut self) -> Result<bool, StoreFault> {
        let answer = flush_names(&mut self.calls, &self.paths, &mut self.handles);
        answer_of(self.refusals, answer)
    }
}
