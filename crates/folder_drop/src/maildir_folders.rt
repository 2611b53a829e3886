//! The two folders of a Maildir whose files are messages.
ghost use Rattle.std.specs.{
  List.Sorted.IsPermutation,
  Prelude.{◌≡◌, ◌++◌, [], IfOk, OnOk, codes, map, string_bytes},
};
ghost use Rattle.folder_drop.specs.{
  declared.maildir_names.Folder.TheVariants.{Cur, New},
  MaildirNames.folder_name,
  Places.{AreInOrder, folder_and_name, place_cmp, named_in},
};

use crate::folders_look::FoldersLook;
use crate::mail_files::{FileWay, Found, MailFiles};
use crate::maildir_names::{FileNumber, Folder, PlacedFile, check_name, folder_path};
use crate::safe_maildir::check_maildir;
use folder_store::{ChangeTime, HostFolders, ProcessMark, Sought, list_both};
use safe_path::PathRefused;
use std::alloc::{AllocError, Global};
use std::env::Env;
use std::fs;
use std::fs::{Metadata, OpenFile};
use std::hash::RandomState;
use std::io::{self, ErrorKind, Seek, SeekFrom};
use std::random::RandomSource;
use std::rt::Files;
use std::time::Clock;
use system_calls::{Noted, System};

/// Why a folder isn't used.
const REPLACED: &str = "another folder is in its place";

/// Why the superuser doesn't use what is on the way to a folder.
const OF_OTHERS: &str = "others than the superuser control it";

/// The folders `new` and `cur` of the Maildir at a path. What they hold is no part of this value, so that no clause may
/// say that a call leaves it as it was: only its path stays.
#[derive(Drop)]
pub struct MaildirFolders<'a, R: Files + AllocGlobal + Clone + Drop> {
    system: &'a System<'a, R>,
    path: String,
    /// Which folders `new` and `cur` were at the last look.
    folders: Option<(FileNumber, FileNumber)>,
}

/// Adds the files of these names in a folder.
fn add_files(
    files: &mut Vec<PlacedFile>,
    folder: Folder,
    names: Vec<String>,
) -> Result<(), AllocError>
    ensures { OnOk result (map folder_and_name files.new.items
        ≡ map folder_and_name files.old.items ++ named_in folder names.items) }
{
    for name in names {
        files.push(PlacedFile::of(folder, name))?;
    }
    Ok(())
}

/// The files of these names in `new` and in `cur`, in order.
fn files_of(
    alloc: Global,
    in_new: Vec<String>,
    in_cur: Vec<String>,
) -> Result<Vec<PlacedFile>, AllocError>
    ensures all { IfOk result (λ files. IsPermutation
        (named_in New in_new.items ++ named_in Cur in_cur.items) (map folder_and_name files.items)) }
    ensures in_order { IfOk result (λ files. AreInOrder files.items) }
{
    let mut files = Vec::new(alloc);
    add_files(&mut files, Folder::New, in_new)?;
    add_files(&mut files, Folder::Cur, in_cur)?;
    files.sort_unstable_by(
        |a, b|
            ensures { result ≡ place_cmp a.now b.now }
        { a.cmp_place(b) },
    );
    Ok(files)
}

impl<'a, R: Files + Env + Clock + AllocGlobal + Clone + Drop> MaildirFolders<'a, R> {
    /// The folders of the Maildir at this path.
    pub fn at(system: &'a System<'a, R>, path: String) -> MaildirFolders<'a, R>
        ensures { string_bytes result.path ≡ string_bytes path }
    {
        MaildirFolders {
            system,
            path,
            folders: None,
        }
    }

    /// Refused if the superuser runs this, and others control a part of the way to the folders.
    fn check_way(&self) -> io::Result<()> {
        match check_maildir(self.system.alloc(), self.system, self.path.as_str()) {
            Ok(()) => Ok(()),
            Err(PathRefused::NoMemory) => Err(io::Error::from(ErrorKind::OutOfMemory)),
            Err(PathRefused::Unsafe(way)) => {
                Err(self.system.refusals.refuse(way.path.as_str(), OF_OTHERS))
            }
        }
    }

    /// What the system reports of a folder.
    fn stat(&self, folder: Folder) -> io::Result<Metadata> {
        let path = folder_path(self.system.alloc(), self.path.as_str(), folder)?;
        self.system.refusals.kept(self.system.stat(path.as_str()))
    }

    /// Refused if another folder than this is in its place by now, or none.
    fn check_folder(&self, folder: Folder, before: FileNumber) -> io::Result<()> {
        let found = self.stat(folder)?;
        if FileNumber::of(&found) == before {
            return Ok(());
        }
        let path = folder_path(self.system.alloc(), self.path.as_str(), folder)?;
        Err(self.system.refusals.refuse(path.as_str(), REPLACED))
    }

    /// The names in both folders at one moment: each once, although others move files between the two meanwhile.
    /// Refused if `new` changes all the time.
    fn names(&self) -> io::Result<(Vec<String>, Vec<String>)> {
        let path = self.path.as_str();
        let mut folders = HostFolders::of_maildir(self.system, path, ProcessMark::none());
        match list_both(&mut folders, Sought::All) {
            Ok(names) => Ok(names),
            Err(_) => Err(self.system.refusals.error()),
        }
    }

    fn noted<T>(&self, call: &str, file: &FileWay, answer: io::Result<T>) -> io::Result<T>
        ensures { result ≡ answer }
    {
        self.system.refusals.noted(call, file.path.as_str(), answer)
    }
}

impl<'a, R: Files + Env + Clock + RandomSource + AllocGlobal + Clone + Drop> MailFiles
    for MaildirFolders<'a, R> {
    type File = Noted<'a, R::File>;

    ghost path = { λ d. string_bytes d.path };

    ghost told = { λ _ _. Unit {0} };

    ghost found = { λ _ _ _. Unit {0} };

    ghost gave = { λ _ _ _. Unit {0} };

    ghost opened = { λ _ _ _ _. Unit {0} };

    ghost removed = { λ _ _ _. Unit {0} };

    ghost files = { λ _. [] };

    ghost sound = { λ _. ⊥ };

    ghost looked = { λ _ _ _. Unit {0} };

    fn alloc(&self) -> Global {
        self.system.alloc()
    }

    fn hasher(&self) -> io::Result<RandomState> {
        RandomState::new(self.system.rt)
    }

    // The clock is read first, so that a change which the look misses has a time no older than the look.
    fn look(&mut self) -> io::Result<FoldersLook>
        ensures { string_bytes self.new.path ≡ string_bytes self.old.path }
    {
        self.check_way()?;
        let at = match self.system.rt.since_1970() {
            Ok(passed) => passed.as_secs(),
            Err(_) => 0,
        };
        let (in_new, in_cur) = (self.stat(Folder::New)?, self.stat(Folder::Cur)?);
        self.folders = Some((FileNumber::of(&in_new), FileNumber::of(&in_cur)));
        Ok(FoldersLook {
            at,
            new: ChangeTime::of(&in_new),
            cur: ChangeTime::of(&in_cur),
        })
    }

    fn close(&mut self)
        ensures { string_bytes self.new.path ≡ string_bytes self.old.path }
    {
        self.folders = None;
    }

    fn list(&self) -> io::Result<Vec<PlacedFile>> {
        let (in_new, in_cur) = self.names()?;
        if let Some((new_folder, cur_folder)) = self.folders {
            self.check_folder(Folder::New, new_folder)?;
            self.check_folder(Folder::Cur, cur_folder)?;
        }
        let files = files_of(self.system.alloc(), in_new, in_cur)?;
        Ok(files)
    }

    fn way(&self, folder: Folder, name: &str) -> io::Result<FileWay>
        ensures place { IfOk result (λ way. (way.folder ≡ folder) × (string_bytes way.name ≡ name.now)) }
        ensures path { IfOk result (λ way. string_bytes way.path
            ≡ string_bytes self.now.path ++ (codes "/" ++ (folder_name folder ++ (codes "/" ++ name.now)))) }
    {
        check_name(name)?;
        let alloc = self.system.alloc();
        let (path, part) = (self.path.as_str(), folder.name());
        Ok(FileWay {
            folder,
            name: String::from_str(alloc, name)?,
            path: format!(in alloc; "{path}/{part}/{name}")?,
        })
    }

    fn look_up(&self, file: &FileWay) -> io::Result<Found> {
        let found = match fs::symlink_metadata(self.system.rt, file.path.as_str()) {
            Err(error) if error.kind() == ErrorKind::NotFound => return Err(error),
            answer => self.noted("lstat", file, answer)?,
        };
        Ok(Found::of(&found))
    }

    fn open(&self, file: &FileWay) -> io::Result<Noted<'a, R::File>> {
        let (path, refusals) = (file.path.as_str(), self.system.refusals);
        let opened = self.noted("open", file, fs::open(self.system.rt, path))?;
        Ok(Noted::new(self.system.alloc(), opened, path, refusals))
    }

    fn stat_opened(&self, file: &Noted<'a, R::File>) -> io::Result<Found> {
        let found = file.metadata()?;
        Ok(Found::of(&found))
    }

    fn skip(&self, file: &mut Noted<'a, R::File>, count: u64) -> io::Result<()> {
        let Ok(count) = i64::try_from(count) else {
            return Err(io::Error::from(ErrorKind::InvalidInput));
        };
        file.seek(SeekFrom::Current(count))?;
        Ok(())
    }

    fn unlink(&mut self, file: &FileWay) -> io::Result<()>
        ensures { string_bytes self.new.path ≡ string_bytes self.old.path }
    {
        let path = file.path.as_str();
        self.noted("unlink", file, fs::remove_file(self.system.rt, path))
    }

    fn refuse(&self, file: &FileWay, words: &str) -> io::Error {
        self.system.refusals.refuse(file.path.as_str(), words)
    }

    fn take_refused(&self) -> Option<String> {
        let refusal = self.system.refusals.take()?;
        Some(refusal.path)
    }

    ghost lists = { λ _ _ none _. absurd none };

    ghost finds = { λ _ _ _ none _. absurd none };

    ghost reads = { λ _ _ _ _ none _. absurd none };

    ghost keeps = { λ _ _ _ _ _ none _ _ _ _ _. absurd none };

    ghost rests = { λ _ _ _ _ _ none _ _ _. absurd none };

    ghost unlinks = { λ _ _ _ none _. absurd none };

    ghost whole = { λ _ none. absurd none };
}
