//! The machine's file system, call by call, as the folders of a Maildir ask it.

ghost use Rattle.std.specs.Prelude.{◌≡◌};
ghost use Rattle.folder_store.specs.SharedCalls.{unknown_shared};

use crate::calls::{Access, FileCalls, FileStat};
use crate::flush_pass::{Found, set_of, unsettled};
use crate::host::{CallsFolder, HostFolder};
use crate::host_calls::HostCalls;
use crate::mail_folders::Sought;
use crate::shared_calls::{ListedNames, SharedCalls};
use crate::wanted::Wanted;
use mail_store::{Folder, stem};
use std::collections::BTreeSet;
use std::rt::Files;
use std::time::{Clock, Duration};
use system_calls::{Denial, OpenAt, System};

/// The two folders of a Maildir over single calls, and what was seen in them.
#[derive(Drop)]
pub struct CallsShared<'a, R, C: FileCalls> {
    pub system: &'a System<'a, R>,
    pub new_folder: CallsFolder<'a, C>,
    pub cur_folder: CallsFolder<'a, C>,
}

/// A pass through the folders: the stems whose files it flushes, the files that it opened, by device and inode number,
/// and what it found.
#[derive(Drop)]
struct Pass<'s> {
    stems: BTreeSet<&'s str>,
    opened: BTreeSet<(u64, u64)>,
    found: Vec<Found>,
}

/// The machine's file system, for the folders of a Maildir; files are made in `tmp`. Nothing is known of what it does.
pub type HostShared<'a, R> = CallsShared<'a, R, HostCalls<'a, R>>;

impl<'a, R: Files + Clock + AllocGlobal + Clone + Drop> CallsShared<'a, R, HostCalls<'a, R>> {
    // Flushes the files with one of these stems, all of which are wanted, that both folders have at one moment. If
    // `new` changed while they were listed, a reader may have moved one past the listing: then none counts as found.
    fn sync_pass(&mut self, wanted: Wanted<'_>, stems: &[&str]) -> Result<Vec<Found>, Denial> {
        let alloc = self.system.alloc();
        let mut pass = Pass {
            stems: set_of(alloc, stems)?,
            opened: BTreeSet::new(alloc),
            found: Vec::new(alloc),
        };
        let in_new = self.new_folder.read_names(wanted)?;
        let in_cur = self.cur_folder.read_names(wanted)?;
        if in_new.change == self.new_folder.stat()?.change {
            pass.sync_named(&mut self.new_folder, in_new.names)?;
            pass.sync_named(&mut self.cur_folder, in_cur.names)?;
        }
        Ok(pass.found)
    }

    // The calls of the whole file system.
    fn calls(&self) -> HostCalls<'a, R>
        ensures { result.system ≡ self.now.system }
    {
        HostCalls {
            system: self.system,
        }
    }

    fn folder(&self, folder: Folder) -> &HostFolder<'a, R>
        ensures in_new { folder ≡ Folder.New → result.now ≡ self.now.new_folder }
        ensures in_cur { folder ≡ Folder.Cur → result.now ≡ self.now.cur_folder }
    {
        match folder {
            Folder::New => &self.new_folder,
            Folder::Cur => &self.cur_folder,
        }
    }

    fn folder_mut(&mut self, folder: Folder) -> &mut HostFolder<'a, R>
        ensures in_new { folder ≡ Folder.New → result.now ≡ self.old.new_folder }
        ensures in_cur { folder ≡ Folder.Cur → result.now ≡ self.old.cur_folder }
    {
        match folder {
            Folder::New => &mut self.new_folder,
            Folder::Cur => &mut self.cur_folder,
        }
    }
}

impl Pass<'_> {
    // Flushes those of a folder's files that have one of the stems. What can't be opened is none.
    fn sync_named<R: Files + AllocGlobal>(
        &mut self,
        host: &mut HostFolder<'_, R>,
        names: Vec<String>,
    ) -> Result<(), Denial> {
        for name in names {
            if self.stems.contains(stem(name.as_str())) {
                if let Some(is_flushed) = host.sync_if_there(name.as_str(), &mut self.opened)? {
                    self.found.push(Found { name, is_flushed })?;
                }
            }
        }
        Ok(())
    }
}

impl<'a, R: Files + Clock + AllocGlobal + Clone + Drop> SharedCalls
    for CallsShared<'a, R, HostCalls<'a, R>> {
    type Made = OpenAt<R::File>;

    type File = OpenAt<R::File>;

    ghost shared = { λ _. unknown_shared };

    ghost was_free = { λ _ _ _. ⊥ };

    ghost was_file = { λ _ _ _. ⊥ };

    ghost was_refused = { λ _ _ _ _. ⊥ };

    ghost was_left = { λ _ _ _ _. ⊥ };

    ghost was_denied = { λ _ _. ⊥ };

    // Of the file system nothing is known.
    ghost sound = { λ _. ⊥ };

    fn stat(&mut self, folder: Folder) -> Result<FileStat, Denial> {
        self.folder_mut(folder).stat()
    }

    fn list(&mut self, folder: Folder, sought: Sought<'_>) -> Result<ListedNames, Denial> {
        self.folder(folder).read_names(Wanted::of(sought))
    }

    fn stat_name(&mut self, folder: Folder, name: &str) -> Result<FileStat, Denial> {
        let path = self.folder(folder).path_of(name)?;
        self.calls().stat(path.as_str())
    }

    fn open(&mut self, folder: Folder, name: &str) -> Result<OpenAt<R::File>, Denial> {
        let path = self.folder(folder).path_of(name)?;
        self.calls().open(path.as_str(), Access::Read)
    }

    fn fstat(&self, file: &OpenAt<R::File>) -> Result<FileStat, Denial> {
        self.calls().fstat(file)
    }

    fn lstat(&mut self, folder: Folder, name: &str) -> Result<FileStat, Denial> {
        Ok(FileStat::of(&self.folder(folder).look_up(name)?))
    }

    fn flush_pass<'b>(
        &mut self,
        stems: &[String],
        left: &[&'b str],
    ) -> Result<Vec<&'b str>, Denial> {
        let found = self.sync_pass(Wanted::Stems(stems), left)?;
        Ok(unsettled(self.system.alloc(), left, &found)?)
    }

    fn create(&mut self, name: &str) -> Result<OpenAt<R::File>, Denial> {
        self.new_folder.create(name)
    }

    fn link(&mut self, file: &OpenAt<R::File>, name: &str) -> Result<(), Denial> {
        let to = self.new_folder.path_of(name)?;
        self.system.link(file.path.as_str(), to.as_str())
    }

    fn rename(&mut self, file: &OpenAt<R::File>, name: &str) -> Result<(), Denial> {
        let to = self.new_folder.path_of(name)?;
        self.system.rename(file.path.as_str(), to.as_str())
    }

    fn unlink(&mut self, file: &OpenAt<R::File>) -> Result<(), Denial> {
        self.system.unlink(file.path.as_str())
    }

    fn fsync_folder(&mut self, folder: Folder) -> Result<(), Denial> {
        self.folder_mut(folder).sync_names()
    }

    fn now(&self) -> Option<Duration> {
        self.system.rt.monotonic().ok()
    }

    fn is_other(&self, name: &str) -> bool {
        matches!(self.new_folder.look_up(name), Ok(found) if !found.is_file())
    }

    fn refusal(&self, folder: Folder, name: &str, words: &str) -> Denial {
        self.folder(folder).refusal(name, words)
    }

    fn folder_refusal(&self, folder: Folder, words: &str) -> Denial {
        self.folder(folder).folder_refusal(words)
    }
}
