//! The calls that use the folders of a Maildir in which others move files, one a method, and what each promises.

use crate::calls::{FileStat, MadeHandle, OpenHandle};
use crate::exact_listing::ChangeTime;
use crate::mail_folders::Sought;
use mail_store::Folder;
use std::time::Duration;
use system_calls::Denial;

/// Names of a folder, and the folder's time of change before and after they were listed.
#[derive(Drop)]
pub struct ListedNames {
    pub names: Vec<String>,
    pub change: ChangeTime,
}

/// A file system, as one device asks it for the folders `new` and `cur` of a Maildir, each call of which may be
/// refused. Readers may move files between the two, change their marks and take files away before each call. A delivery
/// agent may add files of other names at any moment: what no listing seeks is no file of the two until the calls end.
pub trait SharedCalls {
    ghost use Rattle.std.specs.{
      Prelude.{◌≡◌, ℕ, List, IfErr, IfOk, map, string_bytes},
      declared.io.ErrorKind.ErrorKind,
    };
    ghost use Rattle.system_calls.specs.declared.refusal.Denial.{Denial};
    ghost use Rattle.mail_store.specs.declared.maildir.disk.Folder.{Folder};
    ghost use Rattle.folder_store.specs.MailCalls.{PutsDraft};
    ghost use Rattle.folder_store.specs.Calls.{Creates, IsAbsent, answered};
    ghost use Rattle.folder_store.specs.SharedCalls.{
      AreUnflushed,
      Did,
      FlushesPass,
      IsSame,
      LeavesStems,
      LeftAfter,
      Links,
      ListsShared,
      LstatsName,
      OpensName,
      Shared,
      StatsFolder,
      StatsName,
      SyncsFolder,
      was_odd,
      was_unopened,
      listed_in,
      borrowed_texts,
    };

    type Made: MadeHandle + Drop;

    type File: OpenHandle + Drop;

    // The folders, as its calls see them.
    ghost shared: { Self → Shared };

    // A name that nothing in a folder had when lstat(2) was asked for it, by the call before.
    ghost was_free: { Self → Folder → List ℕ → Type 0 };

    // A name in a folder that leads to a regular file, by stat(2), the call before. Nothing else is opened: a pipe that
    // nobody writes to would be waited for.
    ghost was_file: { Self → Folder → List ℕ → Type 0 };

    // A name in a folder for which stat(2) or open(2) was refused, and how, by the call before.
    ghost was_refused: { Self → Folder → List ℕ → ErrorKind → Type 0 };

    // The stems that are left of these after so many passes for their files, one just after the other, up to the call
    // before.
    ghost was_left: { Self → LeftAfter };

    // Why a pass was refused, the call before.
    ghost was_denied: { Self → Denial → Type 0 };

    // The premise: so far the system did what its calls promise, flushed folders when it was asked to, and others did
    // nothing but move, mark and take away files, and add files that no listing sought, and gave no name in `new`
    // between lstat(2) of it and rename(2) to it. Each change gives a folder another time of change, once it has rested
    // for a step of the clock. Only names that the last listing of their folder told, as ones that were sought, are
    // looked at by stat(2) and open(2). Until the lstat(2) just after, each leads to what it led to then, unless it is
    // a file's that moved or went. If the premise holds after a call, it held before.
    ghost sound: { Self → Type 0 };

    /// stat(2) of a folder.
    fn stat(&mut self, folder: Folder) -> Result<FileStat, Denial>
        ensures { sound self.new → sound self.old
            × Did (StatsFolder folder (listed_in folder (shared self.old)) result)
            (shared self.old) (shared self.new) };

    /// The names of a folder that are sought, at one moment, by stat(2) and getdents(2) until the folder's time of
    /// change is the same before and after.
    fn list(&mut self, folder: Folder, sought: Sought<'_>) -> Result<ListedNames, Denial>
        ensures { sound self.new → sound self.old
            × ListsShared folder sought.entry result (shared self.old) (shared self.new) };

    /// stat(2) of a name.
    fn stat_name(&mut self, folder: Folder, name: &str) -> Result<FileStat, Denial>
        ensures { sound self.new → sound self.old × Did IsSame (shared self.old) (shared self.new)
            × StatsName (was_file self.new folder name.now) (was_refused self.new folder name.now) result
            (was_unopened (shared self.old).directories folder name.now) };

    /// open(2) of a name, to read.
    fn open(&mut self, folder: Folder, name: &str) -> Result<Self::File, Denial>
        requires { sound self.old → was_file self.old folder name.now }
        ensures { sound self.new → sound self.old × Did IsSame (shared self.old) (shared self.new)
            × OpensName Self.File.told (was_refused self.new folder name.now) result
            (was_unopened (shared self.old).directories folder name.now) };

    /// fstat(2)
    fn fstat(&self, file: &Self::File) -> Result<FileStat, Denial>
        ensures { IfOk result (Self.File.told file.now) };

    /// lstat(2) of a name.
    fn lstat(&mut self, folder: Folder, name: &str) -> Result<FileStat, Denial>
        ensures { sound self.new → sound self.old × Did IsSame (shared self.old) (shared self.new)
            × IfErr result (λ d. IsAbsent d → was_free self.new folder name.now)
            × LstatsName (was_refused self.old folder name.now) folder result
            (was_unopened (shared self.old).directories folder name.now)
            (was_odd (shared self.old).directories folder name.now) };

    /// One pass for the files of these stems, of which the passes just before left some: lists both folders, and each
    /// file there that has a stem left is opened by open(2), and flushed by fsync(2). Tells which stems are left still:
    /// those of which no file was found, or one that wasn't there any more.
    fn flush_pass<'a>(&mut self, stems: &[String], left: &[&'a str]) -> Result<Vec<&'a str>, Denial>
        requires { sound self.old → (passes : ℕ)
            × AreUnflushed (was_left self.old) (map string_bytes stems.now) passes (borrowed_texts left.now) }
        ensures { sound self.new → sound self.old
            × Did (FlushesPass stems.now result) (shared self.old) (shared self.new)
            × LeavesStems (was_left self.old) (map string_bytes stems.now) (borrowed_texts left.now) result
            (was_left self.new) (was_denied self.new) };

    /// open(2) with O_CREAT, O_EXCL and O_WRONLY in `tmp`, for the owner alone, to be put under a name.
    fn create(&mut self, name: &str) -> Result<Self::Made, Denial>
        ensures { sound self.new → sound self.old × (shared self.new ≡ shared self.old)
            × (IfOk result Self.Made.sound
            → Creates Self.Made.made (shared self.old).directories.there.tmp result) };

    /// link(2) of a file that was made to a name in `new`.
    fn link(&mut self, file: &Self::Made, name: &str) -> Result<(), Denial>
        ensures { sound self.new → sound self.old × Self.Made.sound file.now
            × Did (Links (Self.Made.made file.now) name.now result) (shared self.old) (shared self.new) };

    /// rename(2) of a file that was made to a name in `new`, which was free just before.
    fn rename(&mut self, file: &Self::Made, name: &str) -> Result<(), Denial>
        requires { sound self.old → was_free self.old Folder.New name.now }
        ensures { sound self.new → sound self.old × Self.Made.sound file.now
            × Did (PutsDraft (Self.Made.made file.now) name.now (answered result))
            (shared self.old) (shared self.new) };

    /// unlink(2) of a file that was made, in `tmp`.
    fn unlink(&mut self, file: &Self::Made) -> Result<(), Denial>
        ensures { sound self.new → sound self.old × Self.Made.sound file.now × (shared self.new ≡ shared self.old) };

    /// fsync(2) of a folder.
    fn fsync_folder(&mut self, folder: Folder) -> Result<(), Denial>
        ensures { sound self.new → sound self.old
            × Did (SyncsFolder folder result) (shared self.old) (shared self.new) };

    /// clock_gettime(2), by the clock that never goes back, if it can be read.
    fn now(&self) -> Option<Duration>;

    /// Whether lstat(2) says that what has a name in `new` is no file. Nothing is promised of it.
    fn is_other(&self, name: &str) -> bool;

    /// Why a name isn't used.
    fn refusal(&self, folder: Folder, name: &str, words: &str) -> Denial
        ensures { IsAbsent result → ⊥ };

    /// Why a folder isn't used.
    fn folder_refusal(&self, folder: Folder, words: &str) -> Denial
        ensures { IsAbsent result → ⊥ };
}
