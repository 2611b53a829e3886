//! The machine's file system, call by call.

ghost use Rattle.std.specs.{Fs.metadata_len, Prelude.◌≡◌};
ghost use Rattle.folder_store.specs.{
  Calls.{unknown_opened, unknown_tree},
  FileFolder.empty_made,
  HostAnswers.IsKindOf,
};

use crate::calls::{Access, FileCalls, FileKind, FileStat, MadeHandle, OpenHandle};
use crate::exact_listing::ChangeTime;
use crate::system::{flush_targets, opened_answer};
use std::fs::{Metadata, OpenFile, OpenOptions};
use std::io::{self, Read, Seek, SeekFrom, Write};
use std::os::unix::fs::{MetadataExt, OpenOptionsExt};
use std::rt::Files;
use system_calls::{Denial, OpenAt, System};

/// The machine's file system. Nothing is known of what it does: each call passes one call on. An open file isn't told
/// to be missing.
#[derive(Drop)]
pub struct HostCalls<'a, R> {
    pub system: &'a System<'a, R>,
}

/// What it is that the system reports of.
fn kind_of(found: &Metadata) -> FileKind
    ensures { IsKindOf found.now result }
{
    if found.is_file() {
        FileKind::File
    } else if found.is_dir() {
        FileKind::Folder
    } else {
        FileKind::Other
    }
}

impl FileStat {
    /// What the system reports.
    pub fn of(found: &Metadata) -> FileStat
        ensures kind { IsKindOf found.now result.kind }
        ensures size { result.len ≡ metadata_len found.now }
    {
        FileStat {
            kind: kind_of(found),
            len: found.len(),
            links: found.nlink(),
            device: found.dev(),
            inode: found.ino(),
            change: ChangeTime::of(found),
        }
    }
}

impl<F: OpenFile + Write> MadeHandle for OpenAt<F> {
    ghost made = { λ _. empty_made };

    ghost sound = { λ _. ⊥ };

    fn write(&mut self, bytes: &[u8]) -> Result<usize, Denial> {
        let answer = self.inner.write(bytes);
        opened_answer(self, "write", answer)
    }

    fn fsync(&mut self) -> Result<(), Denial> {
        opened_answer(self, "fsync", self.inner.sync_all())
    }

    fn denied(&self, error: io::Error) -> Denial {
        OpenAt::denied(self, error)
    }
}

impl<F> OpenHandle for OpenAt<F> {
    ghost opened = { λ _. unknown_opened };

    ghost told = { λ _ _. Unit {0} };

    fn denied(&self, error: io::Error) -> Denial {
        OpenAt::denied(self, error)
    }
}

// A file doesn't borrow from the system: the checker of borrows would not see at which lifetime.
impl<'a, R: Files + AllocGlobal> FileCalls for HostCalls<'a, R> {
    type Made = OpenAt<R::File>;

    type File = OpenAt<R::File>;

    ghost tree = { λ _. unknown_tree };

    ghost told_at = { λ _ _ _. Unit {0} };

    ghost flushed_targets = { λ _ _ _. Unit {0} };

    // Of the file system nothing is known.
    ghost sound = { λ _. ⊥ };

    fn create(&mut self, path: &str) -> Result<OpenAt<R::File>, Denial> {
        self.system.open_with(
            OpenOptions::new().write(true).create_new(true).mode(0o600),
            path,
        )
    }

    fn rename(&mut self, file: &OpenAt<R::File>, to: &str) -> Result<(), Denial> {
        self.system.rename(file.path.as_str(), to)
    }

    fn unlink(&self, file: &OpenAt<R::File>) -> Result<(), Denial> {
        self.system.unlink(file.path.as_str())
    }

    fn stat(&mut self, path: &str) -> Result<FileStat, Denial> {
        Ok(FileStat::of(&self.system.stat(path)?))
    }

    fn is_link(&self, path: &str) -> bool {
        matches!(self.system.lstat(path), Ok(found) if found.is_symlink())
    }

    fn flush_targets(&self, path: &str) -> Result<Option<String>, Denial> {
        flush_targets(self.system, String::from_str(self.system.alloc(), path)?)
    }

    fn open(&mut self, path: &str, access: Access) -> Result<OpenAt<R::File>, Denial> {
        match access {
            Access::Read => self.system.open(path),
            Access::Append => self.system.open_with(OpenOptions::new().append(true), path),
        }
    }

    fn fstat(&mut self, file: &OpenAt<R::File>) -> Result<FileStat, Denial> {
        Ok(FileStat::of(&opened_answer(file, "fstat", file.inner.metadata())?))
    }

    fn read(&mut self, file: &mut OpenAt<R::File>, buf: &mut [u8]) -> Result<usize, Denial> {
        let answer = file.inner.read(buf);
        opened_answer(file, "read", answer)
    }

    fn seek(&mut self, file: &mut OpenAt<R::File>, place: u64) -> Result<(), Denial> {
        let answer = file.inner.seek(SeekFrom::Start(place));
        opened_answer(file, "lseek", answer)?;
        Ok(())
    }

    fn write(&mut self, file: &mut OpenAt<R::File>, bytes: &[u8]) -> Result<usize, Denial> {
        let answer = file.inner.write(bytes);
        opened_answer(file, "write", answer)
    }

    fn ftruncate(&mut self, file: &OpenAt<R::File>, len: u64) -> Result<(), Denial> {
        opened_answer(file, "ftruncate", file.inner.set_len(len))
    }

    fn fsync(&mut self, file: &OpenAt<R::File>) -> Result<(), Denial> {
        opened_answer(file, "fsync", file.inner.sync_all())
    }

    fn fsync_folder(&mut self, folder: &OpenAt<R::File>) -> Result<(), Denial> {
        opened_answer(folder, "fsync", folder.inner.sync_all())
    }
}
