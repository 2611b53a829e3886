//! What a Maildir asks of the file system that keeps it.

use crate::file_folder::NewFile;
use mail_store::{Asked, Folder, StoreFault};

/// Which names a listing tells.
#[derive(Clone, Copy)]
pub enum Sought<'a> {
    /// All, whatever they lead to: each counts as that of a file.
    All,
    /// Those with the stem of an item that is asked for. What can't be opened is no file (see
    /// `MailFolders::files_among`).
    Items(Asked<'a>),
}

/// What names that were listed lead to.
#[derive(Drop)]
pub struct FoundNames {
    /// The names of files.
    pub files: Vec<String>,
    /// The names that what can't be opened bears.
    pub odd: Vec<String>,
}

/// The folders `new` and `cur` of a Maildir, any of whose calls may be refused. Mail readers may move
/// files between the two, change their marks and take files away at any moment: what a call does, it
/// does to what they left. Only `list` sees that a file was taken away. Files that no listing seeks may
/// be added too, as by a delivery agent: they count as added after the last call.
///
/// A file is made without a name in the two, at a place that no other call sees, and then put into
/// `new` at one step. No call removes a file that has a name.
pub trait MailFolders {
    ghost use Rattle.std.specs.Prelude.{◌≡◌, false, true, IfErr, IfOk, Ok, map, string_bytes};
    ghost use Rattle.mail_store.specs.Fault.{IsDeviceFault};
    ghost use Rattle.folder_store.specs.MailFolders.{Directories, Moved};
    ghost use Rattle.folder_store.specs.MailCalls.{ChecksIn, FlushesFiles, FlushesNamesIn, ListsIn, Then};
    ghost use Rattle.folder_store.specs.MailCalls.{MakesDraft, PutsDraft, TellsFiles, TellsRest};

    // Whoever makes one puts it or gives it up: only that shows that it was sound, which `make` asks.
    type File: NewFile;

    // What calls see of the folders, and what of it is durable.
    ghost directories: { Self → Directories };

    // The premise: so far the file system did what this trait says, flushed folders when it was asked to, and others
    // did nothing but move, mark and take away files, and add files that no listing sought. If it holds after a call,
    // it held before.
    ghost sound: { Self → Type 0 };

    /// Whether a folder is there: Missing if it isn't.
    fn check(&mut self, folder: Folder) -> Result<(), StoreFault>
        ensures checks { sound self.new → sound self.old
            × Then (ChecksIn folder result) (directories self.old) (directories self.new) }
        ensures fault { IfErr result IsDeviceFault };

    /// Of the names of a folder at one moment those that are sought, whatever they lead to, in any order. Missing if
    /// the folder isn't there.
    fn list(&mut self, folder: Folder, sought: Sought<'_>) -> Result<Vec<String>, StoreFault>
        ensures lists { sound self.new → sound self.old
            × Then (ListsIn folder sought.entry result) (directories self.old) (directories self.new) }
        ensures fault { IfErr result IsDeviceFault };

    /// What these names lead to, which the last listings of `new` and of `cur` told.
    fn files_among(
        &mut self,
        in_new: Vec<String>,
        in_cur: Vec<String>,
    ) -> Result<FoundNames, StoreFault>
        ensures tells { sound self.new → sound self.old
            × Then (TellsFiles (map string_bytes in_new.items) (map string_bytes in_cur.items) result)
            (directories self.old) (directories self.new) }
        ensures fault { IfErr result (λ fault. fault ≡ StoreFault.Refused) };

    /// Whether a folder has rested since it was last listed: no file came, went or got another name there. False if
    /// that isn't known. It was asked so many times before for the same answer: Refused if the folder changes all the
    /// time.
    fn rests(&mut self, folder: Folder, times: u32) -> Result<bool, StoreFault>
        ensures tells { sound self.new → sound self.old
            × Then (TellsRest folder result) (directories self.old) (directories self.new) }
        ensures fault { IfErr result IsDeviceFault };

    /// Flushes the bytes of each file whose name has one of these stems, whichever folder it is in by
    /// now. False, only if `may_miss`, if one of them has no file: then nothing is known of the others.
    fn flush_files(&mut self, stems: &[String], may_miss: bool) -> Result<bool, StoreFault>
        ensures flushes { sound self.new → sound self.old
            × Then (FlushesFiles stems.now result) (directories self.old) (directories self.new) }
        ensures misses { result ≡ Ok false → may_miss ≡ true };

    /// Makes a file, which its owner alone can read. The name tells it from others that were made.
    /// Missing if the place for such files isn't there.
    fn make(&mut self, name: &str) -> Result<Self::File, StoreFault>
        ensures makes { sound self.new → IfOk result Self.File.sound → sound self.old
            × Then (MakesDraft Self.File.made result) (directories self.old) (directories self.new) }
        ensures fault { IfErr result IsDeviceFault };

    /// Puts a file that was made into `new`. Refused if something there has the name: nothing is replaced.
    fn put(&mut self, file: Self::File, name: &str) -> Result<(), StoreFault>
        ensures { sound self.new → sound self.old × Self.File.sound file
            × Then (PutsDraft (Self.File.made file) name.now result) (directories self.old) (directories self.new) };

    /// Gives up a file that was made.
    fn discard(&mut self, file: Self::File)
        ensures { sound self.new → sound self.old × Self.File.sound file
            × Moved (directories self.old) (directories self.new) };

    /// Flushes the names of a folder. Missing if it isn't there. False if its file system flushes no folders: then no
    /// name is known to be durable, and the premise holds no more.
    fn flush_names(&mut self, folder: Folder) -> Result<bool, StoreFault>
        ensures flushes { sound self.new → sound self.old
            × Then (FlushesNamesIn folder result) (directories self.old) (directories self.new) }
        ensures fault { IfErr result IsDeviceFault };
}
