//! The folders of a Maildir in memory, call by call.

ghost use Rattle.std.specs.{IoError.error_kind, Prelude.{◌≡◌, IfErr, IfOk, IfSome, OnOk, Some, false, true}};
ghost use Rattle.folder_store.specs.{
  Calls.unknown_opened,
  MailFolders.{Moved, rests_in},
  SharedCalls.{was_unopened, listed_in},
};
ghost use Rattle.test_devices.specs.{MemoryCalls.IsRefusal, MemoryShared.{MayRefuse, memory_shared}};

use crate::memory_calls::{CallFuse, MemoryMade, refusal, stat_of};
use crate::memory_folders::MemoryFolders;
use crate::new_file::MemoryNewFile;
use folder_store::{
    ChangeTime, FileKind, FileStat, ListedNames, OpenHandle, SharedCalls, Sought, readers_move,
};
use mail_store::Folder;
use std::alloc::{AllocError, Global};
use std::io::{self, ErrorKind};
use std::time::Duration;
use system_calls::Denial;

/// The folders of a Maildir in memory, as single calls use them, and their reader, which moves files, or takes them
/// away, before each call, but for calls on `tmp` and for rename(2): nothing gets a name between lstat(2) of it and
/// rename(2) to it. A call is refused if the system of a machine would refuse it too, if a fuse says so, or if memory
/// runs out; fstat(2) never is.
#[derive(Drop)]
pub struct MemoryShared {
    alloc: Global,
    pub folders: MemoryFolders,
    /// The time of change of `new` when it was last listed.
    new_listed: Option<ChangeTime>,
    /// The same of `cur`.
    cur_listed: Option<ChangeTime>,
    /// Whether a file may have two names.
    pub has_links: bool,
    /// Which calls are refused.
    pub fuse: CallFuse,
    /// The same of the calls on each file that is made from now on.
    pub made_fuse: CallFuse,
}

/// A file of it that was opened, and what fstat(2) tells of it.
#[derive(Drop)]
pub struct OpenedMail {
    alloc: Global,
    name: String,
    size: u64,
}

impl OpenHandle for OpenedMail {
    ghost use Rattle.folder_store.specs.declared.calls.FileKind.{FileKind};

    ghost opened = { λ _. unknown_opened };

    ghost told = { λ _ stat. stat.kind ≡ FileKind.File };

    fn denied(&self, error: io::Error) -> Denial {
        Denial::of(self.alloc, self.name.as_str(), error)
    }
}

/// A folder's time of change: if it has rested, that of its last listing, else a later one.
fn change_since(listed: Option<ChangeTime>, rests: bool) -> Option<ChangeTime>
    ensures { IfSome result (λ change. listed ≡ Some change → rests ≡ true) }
{
    let Some(listed) = listed else {
        return Some(ChangeTime {
            seconds: 0,
            nanoseconds: 0,
        });
    };
    if rests {
        return Some(listed);
    }
    Some(ChangeTime {
        seconds: listed.seconds.checked_add(1)?,
        nanoseconds: listed.nanoseconds,
    })
}

/// The name of a folder.
fn name_of(folder: Folder) -> &'static str {
    match folder {
        Folder::New => "new",
        Folder::Cur => "cur",
    }
}

impl MemoryShared {
    /// These folders, which weren't listed yet.
    pub fn new(alloc: Global, folders: MemoryFolders) -> MemoryShared
        ensures { result.folders ≡ folders }
    {
        MemoryShared {
            alloc,
            folders,
            new_listed: None,
            cur_listed: None,
            has_links: true,
            fuse: CallFuse::Whole,
            made_fuse: CallFuse::Whole,
        }
    }

    /// Refuses a call if the fuse says so.
    fn pass(&mut self, path: &str) -> Result<(), Denial>
        ensures same { memory_shared self.new ≡ memory_shared self.old }
        ensures moves { Moved self.old.folders self.new.folders }
        ensures refused { IfErr result IsRefusal }
    {
        readers_move();
        match self.fuse.burn() {
            Some(kind) => Err(refusal(self.alloc, path, kind)),
            None => Ok(()),
        }
    }

    /// The same, after the reader has moved.
    fn begin(&mut self, path: &str) -> Result<(), Denial>
        ensures moves { Moved self.old.folders self.new.folders }
        ensures stays { memory_shared self.new ≡ record (memory_shared self.old) { directories = self.new.folders } }
        ensures refused { IfErr result IsRefusal }
    {
        self.folders.let_reader_move();
        self.pass(path)
    }

    /// The size of the file that has a name.
    fn size_of(&self, folder: Folder, name: &str) -> Result<u64, Denial>
        ensures ok { OnOk result (was_unopened self.now.folders folder name.now ≡ false) }
        ensures err { IfErr result (λ d. MayRefuse self.now.folders folder name.now (error_kind d.error)) }
    {
        if self.folders.is_odd(folder, name) {
            return Err(refusal(self.alloc, name, ErrorKind::FilesystemLoop));
        }
        if let Some(size) = self.folders.size_at(folder, name) {
            return Ok(size);
        }
        if self.folders.is_obstructed(name) {
            return Err(refusal(self.alloc, name, ErrorKind::Other));
        }
        Err(refusal(self.alloc, name, ErrorKind::NotFound))
    }

    /// Those of these stems that no file has.
    fn missing<'a>(&self, stems: &[&'a str]) -> Result<Vec<&'a str>, AllocError> {
        let mut missing = Vec::new(self.alloc);
        for stem in stems {
            if !self.folders.has_stem(*stem) {
                missing.push(*stem)?;
            }
        }
        Ok(missing)
    }

    /// A folder's time of change.
    fn change_of(&self, folder: Folder) -> Result<ChangeTime, Denial>
        ensures ok { IfOk result (λ change.
            listed_in folder (memory_shared self.now) ≡ Some change → rests_in folder self.now.folders ≡ true) }
        ensures err { IfErr result IsRefusal }
    {
        let listed = match folder {
            Folder::New => self.new_listed,
            Folder::Cur => self.cur_listed,
        };
        match change_since(listed, self.folders.has_rested(folder)) {
            Some(change) => Ok(change),
            None => Err(refusal(self.alloc, name_of(folder), ErrorKind::Other)),
        }
    }
}

impl SharedCalls for MemoryShared {
    ghost use Rattle.folder_store.specs.MailCalls.{IsFree};

    type Made = MemoryMade;

    type File = OpenedMail;

    ghost shared = { memory_shared };

    ghost was_free = { λ m folder name. IsFree folder name m.folders };

    ghost was_file = { λ _ _ _. Unit {0} };

    ghost was_refused = { λ m. MayRefuse m.folders };

    ghost was_left = { λ _ _ _ _. Unit {0} };

    ghost was_denied = { λ _ _. Unit {0} };

    ghost sound = { λ _. Unit {0} };

    fn stat(&mut self, folder: Folder) -> Result<FileStat, Denial> {
        self.begin(name_of(folder))?;
        self.folders.are_there();
        let mut found = stat_of(FileKind::Folder, 0, 0);
        found.change = self.change_of(folder)?;
        Ok(found)
    }

    fn list(&mut self, folder: Folder, sought: Sought<'_>) -> Result<ListedNames, Denial> {
        self.begin(name_of(folder))?;
        let change = self.change_of(folder)?;
        let names = self.folders.list_now(folder, sought)?;
        match folder {
            Folder::New => self.new_listed = Some(change),
            Folder::Cur => self.cur_listed = Some(change),
        }
        Ok(ListedNames { names, change })
    }

    fn stat_name(&mut self, folder: Folder, name: &str) -> Result<FileStat, Denial> {
        self.begin(name)?;
        let size = self.size_of(folder, name)?;
        Ok(stat_of(FileKind::File, size, 0))
    }

    fn open(&mut self, folder: Folder, name: &str) -> Result<OpenedMail, Denial> {
        self.begin(name)?;
        let size = self.size_of(folder, name)?;
        let name = String::from_str(self.alloc, name)?;
        Ok(OpenedMail {
            alloc: self.alloc,
            name,
            size,
        })
    }

    fn fstat(&self, file: &OpenedMail) -> Result<FileStat, Denial> {
        Ok(stat_of(FileKind::File, file.size, 0))
    }

    // The reader leaves what can't be opened where it is.
    fn lstat(&mut self, folder: Folder, name: &str) -> Result<FileStat, Denial> {
        let is_obstructed = self.folders.is_obstructed(name);
        self.begin(name)?;
        if self.folders.is_odd(folder, name) {
            return Ok(stat_of(FileKind::Other, 0, 0));
        }
        if is_obstructed {
            return Ok(stat_of(FileKind::Other, 0, 0));
        }
        if self.folders.free_name(folder, name)?.is_some() {
            return Err(refusal(self.alloc, name, ErrorKind::NotFound));
        }
        let size = self.folders.size_at(folder, name).unwrap_or(0);
        Ok(stat_of(FileKind::File, size, 0))
    }

    fn flush_pass<'a>(
        &mut self,
        stems: &[String],
        left: &[&'a str],
    ) -> Result<Vec<&'a str>, Denial> {
        self.begin("")?;
        let still = self.missing(left)?;
        if still.is_empty() {
            self.folders.flush_now(stems)?;
        }
        Ok(still)
    }

    fn create(&mut self, name: &str) -> Result<MemoryMade, Denial> {
        self.pass(name)?;
        self.folders.are_there();
        Ok(MemoryMade {
            alloc: self.alloc,
            path: String::from_str(self.alloc, name)?,
            file: MemoryNewFile::new(self.alloc),
            fuse: self.made_fuse,
        })
    }

    fn link(&mut self, file: &MemoryMade, name: &str) -> Result<(), Denial> {
        self.begin(name)?;
        let copy = file.copy()?;
        let Some(title) = self.folders.free_name(Folder::New, name)? else {
            return Err(refusal(self.alloc, name, ErrorKind::AlreadyExists));
        };
        if !self.has_links {
            return Err(refusal(self.alloc, name, ErrorKind::PermissionDenied));
        }
        self.folders.put_now(copy, title)?;
        Ok(())
    }

    fn rename(&mut self, file: &MemoryMade, name: &str) -> Result<(), Denial> {
        self.pass(name)?;
        let copy = file.copy()?;
        let title = String::from_str(self.alloc, name)?;
        self.folders.put_now(copy, title)?;
        Ok(())
    }

    fn unlink(&mut self, file: &MemoryMade) -> Result<(), Denial> {
        self.pass(file.path.as_str())
    }

    fn fsync_folder(&mut self, folder: Folder) -> Result<(), Denial> {
        self.begin(name_of(folder))?;
        self.folders.flush_names_now(folder)?;
        Ok(())
    }

    // It stands still: the folders may be listed again as long as the reader moves.
    fn now(&self) -> Option<Duration> {
        Some(Duration::ZERO)
    }

    fn is_other(&self, name: &str) -> bool {
        self.folders.is_obstructed(name)
    }

    fn refusal(&self, _folder: Folder, name: &str, words: &str) -> Denial {
        Denial::because(self.alloc, name, words)
    }

    fn folder_refusal(&self, folder: Folder, words: &str) -> Denial {
        Denial::because(self.alloc, name_of(folder), words)
    }
}
