//! What a maildrop asks of the folders of a Maildir.
ghost use Rattle.std.specs.Prelude.{◌≡◌, true, string_bytes};
ghost use Rattle.folder_drop.specs.MaildirNames.{is_listable_name};

use crate::folders_look::FoldersLook;
use crate::listed_file::stamp_of;
use crate::maildir_names::{FileNumber, Folder, PlacedFile, Stamp};
use std::alloc::Global;
use std::fs::Metadata;
use std::hash::RandomState;
use std::io::{self, ErrorKind, Read};

/// What bears a name in a folder.
#[derive(Clone, Copy)]
pub struct Found {
    pub is_regular: bool,
    pub stamp: Stamp,
}

impl Found {
    ghost use Rattle.std.specs.{Fs.{file_type, metadata_len, IsFile}, Prelude.{◌↔◌, IsTrue, OnOk}};

    /// What the system reports this of.
    pub fn of(metadata: &Metadata) -> Found
        ensures regular { IsTrue result.is_regular ↔ IsFile (file_type metadata.now) }
        ensures length { result.stamp.length ≡ metadata_len metadata.now }
    {
        Found {
            is_regular: metadata.is_file(),
            stamp: stamp_of(metadata),
        }
    }

    /// NotFound if it is something else than the regular file of this number.
    pub fn check(&self, number: FileNumber) -> io::Result<()>
        ensures { OnOk result ((self.now.is_regular ≡ true) × (self.now.stamp.number ≡ number)) }
    {
        if self.is_regular && self.stamp.number == number {
            return Ok(());
        }
        Err(io::Error::from(ErrorKind::NotFound))
    }
}

/// A name in a folder, of those that a listing may tell.
#[derive(Drop)]
pub struct FileWay {
    pub folder: Folder,
    pub name: String,
    pub path: String,
    ghost listable: { is_listable_name (string_bytes name) ≡ true },
}

/// The files in `new` and `cur` of a Maildir. Others put files there, move them and take them away at any moment, so
/// each answer is only of the moment of its call. The laws say what it tells while nobody does.
pub trait MailFiles {
    ghost use Rattle.std.specs.Prelude.{ℕ, List, Contains, Option, None, IfOk, OnOk};
    ghost use Rattle.folder_drop.specs.{
      declared.{
        folders_look.FoldersLook.FoldersLook,
        mail_files.{FileWay.FileWay, Found.Found},
        maildir_names.{FileNumber.FileNumber, PlacedFile.PlacedFile},
      },
      Finding.LooksUp,
      FoldersLook.IsUnchanged,
      MailFiles.{AreMailFiles, Bears, DropFile, FoundRegular, Has, HasOctetsOf, Looks, Skips, Stays, TakesSome},
      MailFiles.{TellsEach, TellsHandle, file_place},
      Places.AreInOrder,
    };

    type File: Read + Drop;

    // The path of the Maildir.
    ghost path: { Self → List ℕ };

    // It answered that the folders had these files.
    ghost told: { Self → List PlacedFile → Type 0 };

    // It answered that this bears a name, or that nothing does.
    ghost found: { Self → FileWay → Option Found → Type 0 };

    // It opened this under a name.
    ghost gave: { Self → FileWay → Self.File → Type 0 };

    // It told of what it opened under a name that it is the regular file of this number, to be read so.
    ghost opened: { Self → FileWay → FileNumber → Self.File → Type 0 };

    // It removed a name, under which the regular file of this number had been found since the last removal.
    ghost removed: { Self → FileWay → FileNumber → Type 0 };

    // What is there now under the names that a listing tells: those in UTF-8 that don't begin with a full stop. After
    // `close` it is what the next look will find.
    ghost files: { Self → List DropFile };

    // The premise: the system does what its calls promise, `new` and `cur` are two folders, and a device and a number
    // are those of one file. From a look to the next `close` nobody but this server changes the Maildir. Nobody ever
    // changes a file in place, or gives a file the name, number, length and time of modification that another one had.
    ghost sound: { Self → Type 0 };

    // It looked at the folders so when these files were there.
    ghost looked: { Self → FoldersLook → List DropFile → Type 0 };

    /// The allocator.
    fn alloc(&self) -> Global;

    /// A hasher of its own. Random, since the names of files may come from ids that a server chose.
    fn hasher(&self) -> io::Result<RandomState>;

    /// A look at both folders: clock_gettime(2), and stat(2) of each.
    fn look(&mut self) -> io::Result<FoldersLook>
        ensures stays { Stays path looked self.old self.new }
        ensures looks { sound self.new → sound self.old
            × Looks (files self.old) result (files self.new) (looked self.new) };

    /// The session is over: others may change the Maildir until the next look.
    fn close(&mut self)
        ensures stays { Stays path looked self.old self.new }
        ensures kept { sound self.new → sound self.old };

    /// The files of both folders at one moment, in order, by stat(2), open(2) and getdents(2) until the time of change
    /// of each is the same before and after, with clock_gettime(2) and clock_nanosleep(2).
    fn list(&self) -> io::Result<Vec<PlacedFile>>
        ensures told { IfOk result (λ files. told self.now files.items) }
        ensures in_order { IfOk result (λ files. AreInOrder files.items) };

    /// A name in a folder. The calls for it need no more memory.
    fn way(&self, folder: Folder, name: &str) -> io::Result<FileWay>
        ensures { IfOk result (λ way. (way.folder ≡ folder) × (string_bytes way.name ≡ name.now)) };

    /// lstat(2) of what bears a name. NotFound if nothing does.
    fn look_up(&self, file: &FileWay) -> io::Result<Found>
        ensures { LooksUp (found self.now file.now) result };

    /// open(2) of what bears a name, under which a regular file was found.
    fn open(&self, file: &FileWay) -> io::Result<Self::File>
        requires { (number : FileNumber) × FoundRegular (found self.now) file.now number }
        ensures { IfOk result (gave self.now file.now) };

    /// fstat(2) of what was opened.
    fn stat_opened(&self, file: &Self::File) -> io::Result<Found>
        ensures { IfOk result (TellsHandle (gave self.now) (opened self.now) file.now) };

    /// lseek(2): past so many octets.
    fn skip(&self, file: &mut Self::File, count: u64) -> io::Result<()>
        ensures { sound self.now → OnOk result
            (Skips (Self.File.remaining file.old) count (Self.File.remaining file.new)) };

    /// unlink(2) of a name, under which a regular file was found since the last removal.
    fn unlink(&mut self, file: &FileWay) -> io::Result<()>
        requires { (number : FileNumber) × FoundRegular (found self.old) file.now number }
        ensures removed { (number : FileNumber) → FoundRegular (found self.old) file.now number
            → IfOk result (λ _. removed self.new file.now number) }
        ensures takes { TakesSome path looked removed sound files (Has file.now) self.old self.new };

    /// The error for a name, with the reason.
    fn refuse(&self, file: &FileWay, words: &str) -> io::Error;

    /// The path of the file or folder for which a call was refused since the last time it was asked for.
    fn take_refused(&self) -> Option<String>;

    // getdents(2): all names of a folder that nobody changes meanwhile.
    ghost lists: { (d : Self) (all : List PlacedFile) → sound d → told d all → TellsEach (files d) all };

    // lstat(2).
    ghost finds: { (d : Self) (way : FileWay) (what : Option Found) → sound d → found d way what
        → Bears (files d) way what };

    // read(2), inode(7): a device and a number are one file, which has the same octets under each name.
    ghost reads: { (d : Self) (way : FileWay) (number : FileNumber) (file : Self.File) → sound d
        → opened d way number file → HasOctetsOf Self.File.remaining (files d) number file };

    // A file that has the name, number, length and time of modification that one had at a look has the octets of that.
    ghost keeps: { (d : Self) (look : FoldersLook) (was : List DropFile) (file before : DropFile) → sound d
        → looked d look was → Contains (files d) file → Contains was before → file_place file ≡ file_place before
        → file.stamp ≡ before.stamp → file.content ≡ before.content };

    // stat(2) of a folder, inode(7): it gets another time of change with each change of its names, once it has rested.
    // A change within a file gives it none: by the premise there is no such change.
    ghost rests: { (d : Self) (earlier later : FoldersLook) (was now : List DropFile) → sound d → looked d earlier was
        → looked d later now → IsUnchanged earlier later → was ≡ now };

    // unlink(2): nothing bears a name that was removed.
    ghost unlinks: { (d : Self) (way : FileWay) (number : FileNumber) → sound d → removed d way number
        → Bears (files d) way None };

    // Each name is there once, and the names of one file have its octets.
    ghost whole: { (d : Self) → sound d → AreMailFiles (files d) };
}
