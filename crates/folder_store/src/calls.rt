//! The calls of a file system, one a method but for those on links, and what each promises.

use crate::exact_listing::ChangeTime;
use std::io;
use system_calls::Denial;

/// What a path leads to.
#[derive(Clone, Copy, PartialEq, Eq)]
pub enum FileKind {
    File,
    Folder,
    Other,
}

/// What a system reports of a file: what it is, its size and how many names it has, which one it is, and its time of
/// change.
#[derive(Clone, Copy)]
pub struct FileStat {
    pub kind: FileKind,
    pub len: u64,
    pub links: u64,
    pub device: u64,
    pub inode: u64,
    pub change: ChangeTime,
}

/// How a file is opened.
#[derive(Clone, Copy, PartialEq, Eq)]
pub enum Access {
    Read,
    Append,
}

/// A file that was made, at a path that no other call is given.
pub trait MadeHandle {
    ghost use Rattle.std.specs.Prelude.{◌≡◌, ◌≤◌, true, IfOk, OnOk, length};
    ghost use Rattle.folder_store.specs.FileFolder.{MadeFile};
    ghost use Rattle.folder_store.specs.Calls.{WritesMade};

    // What it holds, and whether that is durable.
    ghost made: { Self → MadeFile };

    // The premise: so far the system did what its calls promise. If it holds after a call, it held before.
    ghost sound: { Self → Type 0 };

    /// write(2)
    fn write(&mut self, bytes: &[u8]) -> Result<usize, Denial>
        ensures within { IfOk result (λ n. n ≤ length bytes.now) }
        ensures writes { sound self.new → sound self.old
            × WritesMade (made self.old) bytes.now result (made self.new) };

    /// fsync(2)
    fn fsync(&mut self) -> Result<(), Denial>
        ensures { sound self.new → sound self.old
            × OnOk result (made self.new ≡ record (made self.old) { is_flushed = true }) };

    /// An error about it.
    fn denied(&self, error: io::Error) -> Denial
        ensures { result.error ≡ error };
}

/// A file or a folder that was opened.
pub trait OpenHandle {
    ghost use Rattle.std.specs.Prelude.{◌≡◌};
    ghost use Rattle.folder_store.specs.{declared.calls.FileStat.{FileStat}, Calls.{OpenPath}};

    ghost opened: { Self → OpenPath };

    // What fstat(2) told of it.
    ghost told: { Self → FileStat → Type 0 };

    /// An error about it.
    fn denied(&self, error: io::Error) -> Denial
        ensures { result.error ≡ error };
}

/// A file system, as one device asks it, each call of which may be refused.
pub trait FileCalls {
    ghost use Rattle.std.specs.Prelude.{◌≡◌, ◌<◌, ◌≤◌, ℕ, IfOk, List, Option, length, option_map, string_bytes};
    ghost use Rattle.folder_store.specs.Calls.{
      Creates,
      Truncates,
      IsLongEnough,
      Opens,
      ReadsInto,
      Renames,
      Seeks,
      Stats,
    };
    ghost use Rattle.folder_store.specs.Calls.{NeverAbsent, StatsOpened, Syncs, SyncsNames, Tree, WritesOnto};
    ghost use Rattle.folder_store.specs.declared.calls.FileStat.{FileStat};

    type Made: MadeHandle + Drop;

    type File: OpenHandle + Drop;

    // The files that its paths lead to.
    ghost tree: { Self → Tree };

    // What stat(2) told of a path, the call before.
    ghost told_at: { Self → List ℕ → FileStat → Type 0 };

    // The folders that hold what a path leads to by links were flushed, but for the one at this path.
    ghost flushed_targets: { Self → List ℕ → Option (List ℕ) → Type 0 };

    // The premise: so far the system did what its calls promise, and nobody else changed these files. It was asked for
    // each file by one path, written in one way, and for no file in a folder within one whose names it flushes:
    // fsync(2) of a folder is of its own names alone. A file that was made was neither written nor put once it had a
    // name, nor put after a flush of it was refused, which Linux tells once. If it holds after a call, it held before.
    ghost sound: { Self → Type 0 };

    /// open(2) with O_CREAT, O_EXCL and O_WRONLY, for the owner alone.
    fn create(&mut self, path: &str) -> Result<Self::Made, Denial>
        ensures { sound self.new → sound self.old × (tree self.new ≡ tree self.old)
            × (IfOk result Self.Made.sound → Creates Self.Made.made (tree self.old).directory.can_make result) };

    /// rename(2) of a file that was made.
    fn rename(&mut self, file: &Self::Made, to: &str) -> Result<(), Denial>
        ensures { sound self.new → sound self.old
            × Renames (Self.Made.sound file.now) (tree self.old) (Self.Made.made file.now) to.now result
            (tree self.new) };

    /// unlink(2) of a file that was made. No other call is given its path, so none sees a change, and nothing else is
    /// promised.
    fn unlink(&self, file: &Self::Made) -> Result<(), Denial>;

    /// stat(2)
    fn stat(&mut self, path: &str) -> Result<FileStat, Denial>
        ensures tells { IfOk result (told_at self.new path.now) }
        ensures stats { sound self.new → sound self.old × (tree self.new ≡ tree self.old)
            × Stats (tree self.old) path.now result };

    /// Whether lstat(2) says that the path names a link.
    fn is_link(&self, path: &str) -> bool;

    /// lstat(2) and readlink(2) of a path and of what it leads to by links, and fsync(2) of the folders that hold that:
    /// the path of one that the system doesn't flush.
    fn flush_targets(&self, path: &str) -> Result<Option<String>, Denial>
        ensures { IfOk result (λ unflushed. flushed_targets self.now path.now (option_map string_bytes unflushed)) };

    /// open(2) of what is there.
    fn open(&mut self, path: &str, access: Access) -> Result<Self::File, Denial>
        ensures { sound self.new → sound self.old × (tree self.new ≡ tree self.old)
            × Opens Self.File.opened (tree self.old) path.now result };

    /// fstat(2)
    fn fstat(&mut self, file: &Self::File) -> Result<FileStat, Denial>
        ensures there { NeverAbsent result }
        ensures tells { IfOk result (Self.File.told file.now) }
        ensures stats { sound self.new → sound self.old × (tree self.new ≡ tree self.old)
            × StatsOpened (tree self.old) (Self.File.opened file.now) result };

    /// read(2)
    fn read(&mut self, file: &mut Self::File, buf: &mut [u8]) -> Result<usize, Denial>
        requires { 0 < length buf.old }
        ensures within { IfOk result (λ n. n ≤ length buf.new) }
        ensures there { NeverAbsent result }
        ensures reads { sound self.new → sound self.old × (tree self.new ≡ tree self.old)
            × ReadsInto (tree self.old) (Self.File.opened file.old) result buf.new (Self.File.opened file.new) };

    /// lseek(2), from the beginning on.
    fn seek(&mut self, file: &mut Self::File, place: u64) -> Result<(), Denial>
        ensures there { NeverAbsent result }
        ensures seeks { sound self.new → sound self.old × (tree self.new ≡ tree self.old)
            × Seeks (Self.File.opened file.old) place result (Self.File.opened file.new) };

    /// write(2) to a file that was opened to append.
    fn write(&mut self, file: &mut Self::File, bytes: &[u8]) -> Result<usize, Denial>
        ensures within { IfOk result (λ n. n ≤ length bytes.now) }
        ensures writes { sound self.new → sound self.old
            × (Self.File.opened file.new ≡ Self.File.opened file.old)
            × WritesOnto (tree self.old) (Self.File.opened file.old) bytes.now result (tree self.new) };

    /// ftruncate(2), to at most what there is.
    fn ftruncate(&mut self, file: &Self::File, len: u64) -> Result<(), Denial>
        requires { sound self.old → IsLongEnough (tree self.old) (Self.File.opened file.now) len }
        ensures { sound self.new → sound self.old
            × Truncates (tree self.old) (Self.File.opened file.now) len result (tree self.new) };

    /// fsync(2) of a file.
    fn fsync(&mut self, file: &Self::File) -> Result<(), Denial>
        ensures { sound self.new → sound self.old
            × Syncs (tree self.old) (Self.File.opened file.now) result (tree self.new) };

    /// fsync(2) of a folder.
    fn fsync_folder(&mut self, folder: &Self::File) -> Result<(), Denial>
        ensures { sound self.new → sound self.old
            × SyncsNames (tree self.old) (Self.File.opened folder.now).path result (tree self.new) };
}
