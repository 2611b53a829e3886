//! A Maildir in memory: all that `MailFiles` says of the calls can hold of one system.
ghost use Rattle.std.specs.Prelude.{◌≡◌, ◌++◌, ◌∷◌, ◌<◌, [], All, OnErr, OnOk, length};
ghost use Rattle.folder_drop.specs.MemoryNames.{HaveFiles};

use crate::folders_look::FoldersLook;
use crate::mail_files::{FileWay, Found, MailFiles};
use crate::maildir_names::{FileNumber, Folder, PlacedFile, Stamp, check_name};
use crate::memory_names::{MemoryName, MemoryNames};
use folder_store::ChangeTime;
use std::alloc::{AllocError, Global};
use std::hash::RandomState;
use std::io::{self, ErrorKind, Read};
use std::mem;

/// A regular file, or what is none.
#[derive(Clone, Copy)]
pub struct MemoryFile<'a> {
    is_regular: bool,
    content: &'a [u8],
}

/// A file that was opened.
#[derive(Drop)]
pub struct MemoryHandle<'a> {
    /// What it is.
    found: Found,
    /// What is left to read.
    rest: &'a [u8],
}

impl<'a> Read for MemoryHandle<'a> {
    ghost use Rattle.std.specs.Prelude.{Some};

    ghost remaining = { λ handle. Some handle.rest.now };

    fn read(&mut self, buf: &mut [u8]) -> io::Result<usize> {
        self.rest.read(buf)
    }
}

/// A Maildir in memory, in which several names may be those of one file. Texts and names are lent to it.
#[derive(Drop)]
pub struct MemoryFiles<'a> {
    alloc: Global,
    hasher: RandomState,
    /// Each file that ever came: its number is its place here.
    files: Vec<MemoryFile<'a>>,
    /// The names now.
    names: MemoryNames<'a>,
    /// The names before each change.
    past: Vec<MemoryNames<'a>>,
    /// When the names were last changed.
    changed: u64,
    /// The time, in seconds since 1970.
    clock: u64,
    ghost known: { All (λ names. HaveFiles (length files.items) names.items.items) (past.items ++ names ∷ []) },
}

impl<'a> MemoryFiles<'a> {
    ghost use Rattle.std.specs.Prelude.{◌+◌, ◌-◌, ◌^◌, false, min, true};
    ghost use Rattle.folder_drop.specs.MemoryFiles.{FindsNamed, LinksName, PutsName, RenamesName, StaysLooked};
    ghost use Rattle.folder_drop.specs.MemoryFiles.{TakesName, file_put, found_at, mail_files, place_given};

    /// An empty Maildir.
    pub fn new(alloc: Global, hasher: RandomState) -> MemoryFiles<'a>
        ensures { mail_files result ≡ [] }
    {
        MemoryFiles {
            alloc,
            hasher,
            files: Vec::new(alloc),
            names: MemoryNames::new(alloc),
            past: Vec::new(alloc),
            changed: 0,
            clock: 0,
        }
    }

    /// From now on these are the names.
    fn change(&mut self, names: MemoryNames<'a>) -> Result<(), AllocError>
        requires { HaveFiles (length self.old.files.items) names.items.items }
        ensures files { self.new.files ≡ self.old.files }
        ensures ok { OnOk result (self.new.names ≡ names.entry) }
        ensures past { OnOk result (self.new.past.items ≡ self.old.past.items ++ self.old.names ∷ []) }
        ensures err { OnErr result ((self.new.names ≡ self.old.names) × (self.new.past.items ≡ self.old.past.items)) }
    {
        self.past.reserve(1)?;
        let before = mem::replace(&mut self.names, names);
        self.past.push(before).unwrap();
        self.changed = self.clock;
        Ok(())
    }

    /// A file comes under a name.
    fn add(&mut self, folder: Folder, name: &'a str, file: MemoryFile<'a>) -> io::Result<()>
        ensures puts { PutsName (file_put self.old (folder, name.now) file.entry.is_regular file.entry.content.now)
            (mail_files self.old) result (mail_files self.new) }
        ensures stays { StaysLooked self.old self.new }
    {
        let one = MemoryName {
            folder,
            name,
            file: self.files.len(),
        };
        let names = self.names.with(self.alloc, one)?;
        self.files.push(file)?;
        self.change(names)?;
        Ok(())
    }

    /// A file with these octets comes under a name. AlreadyExists if something has it.
    pub fn put(&mut self, folder: Folder, name: &'a str, content: &'a [u8]) -> io::Result<()>
        ensures puts { PutsName (file_put self.old (folder, name.now) true content.now)
            (mail_files self.old) result (mail_files self.new) }
        ensures stays { StaysLooked self.old self.new }
    {
        let file = MemoryFile {
            is_regular: true,
            content,
        };
        self.add(folder, name, file)
    }

    /// What is no regular file comes under a name. AlreadyExists if something has it.
    pub fn put_other(&mut self, folder: Folder, name: &'a str) -> io::Result<()>
        ensures puts { PutsName (file_put self.old (folder, name.now) false [])
            (mail_files self.old) result (mail_files self.new) }
        ensures stays { StaysLooked self.old self.new }
    {
        let file = MemoryFile {
            is_regular: false,
            content: b"",
        };
        self.add(folder, name, file)
    }

    /// link(2): a file gets a second name. NotFound if nothing has the first, AlreadyExists if something has the
    /// second.
    pub fn link(&mut self, from: (Folder, &str), to: (Folder, &'a str)) -> io::Result<()>
        ensures links { LinksName (place_given from.entry) (place_given to.entry) (mail_files self.old) result
            (mail_files self.new) }
        ensures stays { StaysLooked self.old self.new }
    {
        let MemoryName { file, .. } = self.names.find(from.0, from.1)?;
        let one = MemoryName {
            folder: to.0,
            name: to.1,
            file,
        };
        let names = self.names.with(self.alloc, one)?;
        self.change(names)?;
        Ok(())
    }

    /// rename(2), to a name that nothing has. NotFound if nothing has the first, AlreadyExists if something has the
    /// second.
    pub fn rename(&mut self, from: (Folder, &str), to: (Folder, &'a str)) -> io::Result<()>
        ensures renames { RenamesName (place_given from.entry) (place_given to.entry) (mail_files self.old) result
            (mail_files self.new) }
        ensures stays { StaysLooked self.old self.new }
    {
        let MemoryName { file, .. } = self.names.find(from.0, from.1)?;
        if self.names.find(to.0, to.1).is_ok() {
            return Err(io::Error::from(ErrorKind::AlreadyExists));
        }
        let one = MemoryName {
            folder: to.0,
            name: to.1,
            file,
        };
        let others = self.names.without(self.alloc, from.0, from.1)?;
        let names = others.with(self.alloc, one)?;
        self.change(names)?;
        Ok(())
    }

    /// A name is taken away. NotFound if nothing has it.
    pub fn take(&mut self, from: (Folder, &str)) -> io::Result<()>
        ensures takes { TakesName (place_given from.entry) (mail_files self.old) result (mail_files self.new) }
        ensures stays { StaysLooked self.old self.new }
    {
        self.names.find(from.0, from.1)?;
        let others = self.names.without(self.alloc, from.0, from.1)?;
        self.change(others)?;
        Ok(())
    }

    /// So many seconds pass.
    pub fn rest(&mut self, seconds: u64)
        ensures clock { self.new.clock ≡ min (self.old.clock + seconds) (2 ^ 64 - 1) }
        ensures same { mail_files self.new ≡ mail_files self.old }
        ensures stays { StaysLooked self.old self.new }
    {
        self.clock = self.clock.saturating_add(seconds);
    }

    /// What a look at a file tells.
    fn found(&self, file: usize) -> Found
        requires { file < length self.now.files.items }
        ensures { result ≡ found_at self.now.files.items file }
    {
        let MemoryFile {
            is_regular,
            content,
        } = self.files[file];
        Found {
            is_regular,
            stamp: Stamp {
                number: FileNumber {
                    device: 0,
                    inode: file as u64,
                },
                length: content.len() as u64,
                seconds: 0,
                nanoseconds: 0,
            },
        }
    }

    /// What has a name, opened.
    fn opened(&self, way: &FileWay) -> io::Result<MemoryHandle<'a>>
        ensures { FindsNamed self.now way.now result }
    {
        let MemoryName { file, .. } = self.names.find(way.folder, way.name.as_str())?;
        Ok(MemoryHandle {
            found: self.found(file),
            rest: self.files[file].content,
        })
    }
}

impl<'a> MailFiles for MemoryFiles<'a> {
    ghost use Rattle.std.specs.Prelude.{None, Some};
    ghost use Rattle.folder_drop.specs.{
      MailFiles.{Bears, HasOctetsOf, TellsEach},
      MemoryFiles.{HasLooked, IsHandle, mail_files},
    };
    ghost use Rattle.folder_drop.specs.MemoryLaws.{keeps_content, keeps_whole, rests_so};

    type File = MemoryHandle<'a>;

    ghost path = { λ _. [] };

    ghost told = { λ d all. TellsEach (mail_files d) all };

    ghost found = { λ d way what. Bears (mail_files d) way what };

    ghost gave = { λ d _ handle. IsHandle d handle };

    ghost opened = { λ d _ number handle. HasOctetsOf (λ h. Some h.rest.now) (mail_files d) number handle };

    ghost removed = { λ d way _. Bears (mail_files d) way None };

    ghost files = { mail_files };

    ghost sound = { λ _. Unit {0} };

    ghost looked = { HasLooked };

    fn alloc(&self) -> Global {
        self.alloc
    }

    fn hasher(&self) -> io::Result<RandomState> {
        Ok(self.hasher)
    }

    // The time of change shows how many changes were.
    fn look(&mut self) -> io::Result<FoldersLook> {
        let Ok(changes) = i64::try_from(self.past.len()) else {
            return Err(io::Error::from(ErrorKind::OutOfMemory));
        };
        let change = ChangeTime {
            seconds: self.changed,
            nanoseconds: changes,
        };
        Ok(FoldersLook {
            new: change,
            cur: change,
            at: self.clock,
        })
    }

    fn close(&mut self) {}

    fn list(&self) -> io::Result<Vec<PlacedFile>> {
        let files = self.names.listed(self.alloc)?;
        Ok(files)
    }

    fn way(&self, folder: Folder, name: &str) -> io::Result<FileWay> {
        check_name(name)?;
        Ok(FileWay {
            folder,
            name: String::from_str(self.alloc, name)?,
            path: String::from_str(self.alloc, name)?,
        })
    }

    fn look_up(&self, way: &FileWay) -> io::Result<Found> {
        let handle = self.opened(way)?;
        Ok(handle.found)
    }

    fn open(&self, way: &FileWay) -> io::Result<MemoryHandle<'a>> {
        self.opened(way)
    }

    fn stat_opened(&self, handle: &MemoryHandle<'a>) -> io::Result<Found> {
        Ok(handle.found)
    }

    fn skip(&self, handle: &mut MemoryHandle<'a>, count: u64) -> io::Result<()> {
        let rest: &'a [u8] = handle.rest;
        handle.rest = match rest.get(count as usize..) {
            Some(later) => later,
            None => b"",
        };
        Ok(())
    }

    fn unlink(&mut self, way: &FileWay) -> io::Result<()> {
        self.take((way.folder, way.name.as_str()))
    }

    fn refuse(&self, _file: &FileWay, _words: &str) -> io::Error {
        io::Error::from(ErrorKind::InvalidInput)
    }

    fn take_refused(&self) -> Option<String> {
        None
    }

    ghost lists = { λ _ _ _ told. told };

    ghost finds = { λ _ _ _ _ found. found };

    ghost reads = { λ _ _ _ _ _ opened. opened };

    ghost keeps = { λ d look was file before _ looked there had same stamp. keeps_content d look was file before looked
        there had stamp };

    ghost rests = { λ d earlier later was now _ one other same. rests_so d earlier later was now one other same };

    ghost unlinks = { λ _ _ _ _ removed. removed };

    ghost whole = { λ d _. keeps_whole d };
}
