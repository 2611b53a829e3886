//! The folders of a Maildir in memory.

ghost use Rattle.std.specs.{
  Prelude.{◌≡◌, ◌↔◌, ◌≤◌, ◌++◌, [], ◌∷◌, HoldsAt, IfNone, IfOk, IfSome, IsTrue, Ok, OnErr, OnOk, false},
  Prelude.{if◌then◌else◌, length, true, map, option_map, string_bytes},
  List.filter,
};
ghost use Rattle.mail_terms.specs.UniqueId.{has_id};
ghost use Rattle.mail_store.specs.Maildir.{all_there};
ghost use Rattle.folder_store.specs.{
  MailCalls.{IsFree, ListsIn, ShowsOdd, entry_flushed_by, file_names, files_flushed, named_by, names_flushed_in},
  MailCalls.{names_sought, names_told, odd_names, put_as, without_taken},
  MailFolders.{Moved, closed_in, entries_in, is_taken, is_told, name_at, odd_names_in, rests_in, unopened_in},
  MailPower.{EntriesLeftAs, LosesMail},
};
ghost use Rattle.test_devices.specs.{
  MemoryFolder.made_of,
  MemoryFolders.{MayBeFound, MayFind, found_file, list_of, size_at, stored_file},
};

use crate::new_file::MemoryNewFile;
use crate::stored_mail::{FoundMail, MailLeft, StoredMail, is_one_of};
use folder_store::{FolderMaildir, FoundNames, MailFolders, Sought, readers_move};
use mail_store::{Folder, StoreFault, sought_names, stem};
use std::alloc::{AllocError, Global};
use std::marker::Model;

/// What a reader does before a call, to the file that came at a place among those that are known.
#[derive(Clone, Copy)]
pub enum ReaderStep {
    /// Nothing.
    Rest,
    /// Moves it to `new`, without marks.
    ToNew(usize),
    /// Moves it to `cur`, and marks it as seen.
    ToCur(usize),
    /// Takes it away.
    Away(usize),
}

/// The folders of a Maildir in memory, and a reader that moves files, or takes them away, before each call. A call is
/// refused only if memory runs out, or something has the name that a file is to be put under. What can't be opened
/// is told beside the files, if names with some stems are sought, unless a file has its name.
#[derive(Drop)]
pub struct MemoryFolders {
    alloc: Global,
    files: Vec<StoredMail>,
    new_rests: bool,
    cur_rests: bool,
    taken: Vec<StoredMail>,
    /// The names that what can't be opened has in each folder.
    obstacles: Vec<String>,
    /// Those of them that the last listing of `new`, and of `cur`, told.
    odd_new: Vec<String>,
    odd_cur: Vec<String>,
    steps: Vec<ReaderStep>,
    next: usize,
}

/// A Maildir in them.
pub type MemoryFolderMaildir = FolderMaildir<MemoryFolders, MemoryNewFile>;

impl Model for MemoryFolders {
    ghost use Rattle.std.specs.Prelude.{[], map, string_bytes};
    ghost use Rattle.mail_store.specs.Maildir.{all_there};
    ghost use Rattle.folder_store.specs.MailFolders.{Directories, files_at};
    ghost use Rattle.test_devices.specs.MemoryFolders.{stored_file};

    ghost Value = { Directories };

    ghost view = { λ m. record {
      there = all_there;
      entries = map stored_file m.files.items;
      new_rests = m.new_rests;
      cur_rests = m.cur_rests;
      taken = files_at (map stored_file m.taken.items);
      closed_new = map string_bytes m.obstacles.items;
      closed_cur = map string_bytes m.obstacles.items;
      odd_new = map string_bytes m.odd_new.items;
      odd_cur = map string_bytes m.odd_cur.items;
      dirs_cur = [];
    } };
}

/// Appends the name of a file, if it is in the folder and wasn't taken away.
fn add_name(names: &mut Vec<String>, file: &StoredMail, folder: Folder) -> Result<(), AllocError>
    ensures { OnOk result (map string_bytes names.new.items ≡ map string_bytes names.old.items
        ++ (if is_told folder (stored_file file.now) then string_bytes file.now.name ∷ [] else [])) }
{
    if file.is_told(folder) {
        names.push(file.name.clone()?)?;
    }
    Ok(())
}

/// The names of the files of a folder.
fn names_in(alloc: Global, files: &[StoredMail], folder: Folder) -> Result<Vec<String>, AllocError>
    ensures { IfOk result (λ names. map string_bytes names.items
        ≡ map name_at (entries_in folder (map stored_file files.now))) }
{
    let mut names = Vec::new(alloc);
    for file in files {
        add_name(&mut names, file, folder)?;
    }
    Ok(names)
}

/// Those of some names that are among the others, and those that aren't.
fn parted(
    alloc: Global,
    names: Vec<String>,
    others: &[String],
) -> Result<(Vec<String>, Vec<String>), AllocError>
    ensures { IfOk result (λ parts. (map string_bytes parts.0.items
        ≡ odd_names (map string_bytes others.now) (map string_bytes names.items))
        × (map string_bytes parts.1.items
        ≡ file_names (map string_bytes others.now) (map string_bytes names.items))) }
{
    names
        .into_iter()
        .partition(alloc, |name| is_one_of(others, name.as_str()))
}

/// The files once the names of a folder were flushed.
fn named_files(
    alloc: Global,
    files: &[StoredMail],
    folder: Folder,
) -> Result<Vec<StoredMail>, AllocError>
    ensures { IfOk result (λ named. map stored_file named.items ≡ map (named_by folder) (map stored_file files.now)) }
{
    let mut named = Vec::new(alloc);
    for file in files {
        named.push(file.named_by(folder)?)?;
    }
    Ok(named)
}

/// The files once those with these stems were flushed.
fn flushed_files(
    alloc: Global,
    files: &[StoredMail],
    stems: &[String],
) -> Result<Vec<StoredMail>, AllocError>
    ensures { IfOk result (λ flushed. map stored_file flushed.items
        ≡ map (entry_flushed_by stems.now) (map stored_file files.now)) }
{
    let mut flushed = Vec::new(alloc);
    for file in files {
        flushed.push(file.flushed_by(stems)?)?;
    }
    Ok(flushed)
}

/// What is left of some files, one by one.
fn files_left(
    alloc: Global,
    files: &[StoredMail],
    choices: &[MailLeft],
) -> Result<Vec<StoredMail>, AllocError>
    ensures { IfOk result (λ left. EntriesLeftAs (map stored_file files.now) (map stored_file left.items)) }
{
    let mut left = Vec::new(alloc);
    for (i, file) in files.iter().enumerate() {
        let choice = choices.get(i).copied().unwrap_or(MailLeft::Here);
        let rest = file.left(choice)?;
        add_left(&mut left, rest)?;
    }
    Ok(left)
}

/// Appends what is left of a file, if anything is.
fn add_left(left: &mut Vec<StoredMail>, file: Option<StoredMail>) -> Result<(), AllocError>
    ensures { OnOk result (map stored_file left.new.items
        ≡ map stored_file left.old.items ++ list_of (option_map stored_file file)) }
{
    match file {
        Some(file) => {
            left.push(file)?;
            Ok(())
        }
        None => Ok(()),
    }
}

/// Whether after a loss of power these files of some may be found, in this order, and no others.
fn may_be_found(files: &[StoredMail], there: &[FoundMail]) -> bool
    ensures { IsTrue result ↔ MayBeFound (map stored_file files.now) (map found_file there.now) }
{
    match files {
        [] => there.is_empty(),
        [file, rest @ ..] => {
            if file.may_go() && may_be_found(rest, there) {
                return true;
            }
            match there {
                [] => false,
                [first, others @ ..] => file.may_be(first) && may_be_found(rest, others),
            }
        }
    }
}

/// Appends a file, if a reader took it away.
fn add_taken(taken: &mut Vec<StoredMail>, file: &StoredMail) -> Result<(), AllocError>
    ensures { OnOk result (map stored_file taken.new.items ≡ map stored_file taken.old.items
        ++ filter is_taken (stored_file file.now ∷ [])) }
{
    if file.is_gone {
        taken.push(file.copy()?)?;
    }
    Ok(())
}

/// The files that a reader took away.
fn taken_files(alloc: Global, files: &[StoredMail]) -> Result<Vec<StoredMail>, AllocError>
    ensures { IfOk result (λ taken. map stored_file taken.items ≡ filter is_taken (map stored_file files.now)) }
{
    let mut taken = Vec::new(alloc);
    for file in files {
        add_taken(&mut taken, file)?;
    }
    Ok(taken)
}

/// Whether a folder still rests once a file was moved: it did, and the file wasn't and isn't there.
fn still_rests(rests: bool, was_there: bool, is_there: bool) -> bool
    ensures { IsTrue result → (rests ≡ true) × (was_there ≡ false) × (is_there ≡ false) }
{
    rests && !was_there && !is_there
}

impl MemoryFolders {
    /// Folders without files, and what a reader does before each of the calls that follow.
    pub fn new(alloc: Global, steps: Vec<ReaderStep>) -> MemoryFolders
        ensures { result ≡ record {
          there = all_there;
          entries = [];
          new_rests = false;
          cur_rests = false;
          taken = [];
          closed_new = [];
          closed_cur = [];
          odd_new = [];
          odd_cur = [];
          dirs_cur = [];
        } }
    {
        MemoryFolders {
            alloc,
            files: Vec::new(alloc),
            new_rests: false,
            cur_rests: false,
            taken: Vec::new(alloc),
            obstacles: Vec::new(alloc),
            odd_new: Vec::new(alloc),
            odd_cur: Vec::new(alloc),
            steps,
            next: 0,
        }
    }

    /// The bytes of the file that came at this place among those that are there.
    pub fn content_at(&self, place: usize) -> Option<&[u8]>
        ensures some { IfSome result (λ bytes. HoldsAt (λ s. s.content ≡ bytes.now) self.now.entries place) }
        ensures none { IfNone result (length self.now.entries ≤ place) }
    {
        match self.files.get(place) {
            Some(file) => Some(file.content.as_slice()),
            None => None,
        }
    }

    /// Loses the power: what is left of each file is what its choice says, or what calls see if it
    /// has none. The choices are in the order in which the files came. Refused if memory runs out: then
    /// nothing is lost.
    pub fn lose_power(&mut self, choices: &[MailLeft]) -> Result<(), StoreFault>
        ensures ok { OnOk result (LosesMail self.old self.new) }
        ensures err { OnErr result (self.new ≡ self.old) }
    {
        match files_left(self.alloc, &self.files, choices) {
            Ok(files) => {
                self.files = files;
                Ok(())
            }
            Err(_) => Err(StoreFault::Refused),
        }
    }

    /// Whether after a loss of power these files may be found, in this order, and no others.
    pub fn may_leave(&self, there: &[FoundMail]) -> bool
        ensures { IsTrue result ↔ MayFind self.now (map found_file there.now) }
    {
        may_be_found(&self.files, there)
    }

    /// Puts what can't be opened into both folders, under this name.
    pub fn obstruct(&mut self, name: &str) -> Result<(), AllocError>
        ensures ok { OnOk result (self.new ≡ record self.old {
          closed_new = self.old.closed_new ++ name.now ∷ [];
          closed_cur = self.old.closed_cur ++ name.now ∷ [];
        }) }
        ensures err { OnErr result (self.new ≡ self.old) }
    {
        let name = String::from_str(self.alloc, name)?;
        self.obstacles.push(name)?;
        Ok(())
    }

    // The names of a folder that are sought, and which of them are odd.
    fn listed(
        &self,
        folder: Folder,
        sought: Sought<'_>,
    ) -> Result<(Vec<String>, Vec<String>), AllocError>
        ensures files { IfOk result (λ listed. names_told sought.entry (map string_bytes listed.1.items)
            (map string_bytes listed.0.items)
            ≡ names_sought sought.entry (map name_at (entries_in folder self.now.entries))) }
        ensures odd { IfOk result (λ listed. ShowsOdd sought.entry (map name_at (entries_in folder self.now.entries))
            (closed_in folder self.now) (map string_bytes listed.1.items) (map string_bytes listed.0.items)) }
    {
        let names = names_in(self.alloc, &self.files, folder)?;
        let Sought::Items(asked) = sought else {
            return Ok((names, Vec::new(self.alloc)));
        };
        let mut names = sought_names(self.alloc, &names, asked)?;
        let obstacles = sought_names(self.alloc, &self.obstacles, asked)?;
        let (_, odd) = parted(self.alloc, obstacles, &names)?;
        names.append(&mut odd.clone()?)?;
        Ok((names, odd))
    }

    // The names of files among these, and the odd ones.
    fn told(&self, in_new: Vec<String>, in_cur: Vec<String>) -> Result<FoundNames, AllocError>
        ensures odd { IfOk result (λ found. map string_bytes found.odd.items
            ≡ odd_names self.now.odd_new (map string_bytes in_new.items)
            ++ odd_names self.now.odd_cur (map string_bytes in_cur.items)) }
        ensures files { IfOk result (λ found. map string_bytes found.files.items
            ≡ file_names self.now.odd_new (map string_bytes in_new.items)
            ++ file_names (self.now.dirs_cur ++ self.now.odd_cur) (map string_bytes in_cur.items)) }
    {
        let (mut odd, mut files) = parted(self.alloc, in_new, &self.odd_new)?;
        let (mut odd_cur, mut in_cur) = parted(self.alloc, in_cur, &self.odd_cur)?;
        odd.append(&mut odd_cur)?;
        files.append(&mut in_cur)?;
        Ok(FoundNames { files, odd })
    }

    // What the reader does before a call.
    pub(crate) fn let_reader_move(&mut self)
        ensures { Moved self.old self.new }
    {
        readers_move();
        let step = self
            .steps
            .get(self.next)
            .copied()
            .unwrap_or(ReaderStep::Rest);
        self.next = self.next.saturating_add(1);
        match step {
            ReaderStep::Rest => {}
            ReaderStep::ToNew(place) => self.move_file(place, true),
            ReaderStep::ToCur(place) => self.move_file(place, false),
            ReaderStep::Away(place) => self.take_file(place),
        }
    }

    // Moves a file to `new` or to `cur`. If there is none at the place, or memory runs out, nothing is
    // moved.
    fn move_file(&mut self, place: usize, is_new: bool)
        ensures { Moved self.old self.new }
    {
        readers_move();
        if place >= self.files.len() {
            return;
        }
        let file = &self.files[place];
        let was_new = file.is_new;
        let Ok(moved) = file.moved(self.alloc, is_new) else {
            return;
        };
        self.new_rests = still_rests(self.new_rests, was_new, is_new);
        self.cur_rests = still_rests(self.cur_rests, !was_new, !is_new);
        self.files[place] = moved;
    }

    // Takes a file away. If there is none at the place, nothing is taken.
    fn take_file(&mut self, place: usize)
        ensures { Moved self.old self.new }
    {
        readers_move();
        if place >= self.files.len() {
            return;
        }
        let file = &mut self.files[place];
        let was_new = file.is_new;
        file.is_gone = true;
        self.new_rests = still_rests(self.new_rests, was_new, was_new);
        self.cur_rests = still_rests(self.cur_rests, !was_new, !was_new);
    }

    // A copy of a name, if nothing in a folder has it.
    pub(crate) fn free_name(&self, folder: Folder, name: &str) -> Result<Option<String>, AllocError>
        ensures { IfOk result (λ free. IfSome free (λ copy.
            (string_bytes copy ≡ name.now) × IsFree folder name.now self.now)) }
    {
        let names = names_in(self.alloc, &self.files, folder)?;
        if is_one_of(&names, name) || is_one_of(&self.obstacles, name) {
            return Ok(None);
        }
        Ok(Some(String::from_str(self.alloc, name)?))
    }

    // All folders are there: so it is of each value, whatever was done. Nothing happens.
    pub(crate) fn are_there(&self)
        ensures { self.now.there ≡ all_there }
    {
        let _ = self.files.len();
    }

    // Whether a folder has rested since it was last listed.
    pub(crate) fn has_rested(&self, folder: Folder) -> bool
        ensures { result ≡ rests_in folder self.now }
    {
        match folder {
            Folder::New => self.new_rests,
            Folder::Cur => self.cur_rests,
        }
    }

    // The names of a folder that are sought. If memory runs out, nothing changes.
    pub(crate) fn list_now(
        &mut self,
        folder: Folder,
        sought: Sought<'_>,
    ) -> Result<Vec<String>, AllocError>
        ensures ok { IfOk result (λ names. ListsIn folder sought.entry (Ok names) self.old self.new) }
        ensures err { OnErr result (self.new ≡ self.old) }
    {
        let (names, odd) = self.listed(folder, sought)?;
        self.forget_taken()?;
        match folder {
            Folder::New => {
                self.new_rests = true;
                self.odd_new = odd;
            }
            Folder::Cur => {
                self.cur_rests = true;
                self.odd_cur = odd;
            }
        }
        Ok(names)
    }

    // Whether a name was seen in a folder's last listing as that of what can't be opened.
    pub(crate) fn is_odd(&self, folder: Folder, name: &str) -> bool
        ensures odd { result ≡ has_id (odd_names_in folder self.now) name.now }
        ensures unopened { result ≡ has_id (unopened_in folder self.now) name.now }
    {
        match folder {
            Folder::New => is_one_of(&self.odd_new, name),
            Folder::Cur => is_one_of(&self.odd_cur, name),
        }
    }

    // Flushes the files with these stems. If memory runs out, nothing changes.
    pub(crate) fn flush_now(&mut self, stems: &[String]) -> Result<(), AllocError>
        ensures ok { OnOk result (self.new ≡ files_flushed stems.now self.old) }
        ensures err { OnErr result (self.new ≡ self.old) }
    {
        self.files = flushed_files(self.alloc, &self.files, stems)?;
        Ok(())
    }

    // Puts a file that was made into `new`. If memory runs out, nothing changes.
    pub(crate) fn put_now(&mut self, file: MemoryNewFile, name: String) -> Result<(), AllocError>
        ensures ok { OnOk result (self.new ≡ record self.old {
          entries = self.old.entries ++ put_as (string_bytes name) (made_of file) ∷ [];
          new_rests = false;
        }) }
        ensures err { OnErr result (self.new ≡ self.old) }
    {
        self.files.push(StoredMail {
            is_new: true,
            name,
            content: file.content,
            is_flushed: file.is_flushed,
            is_named: false,
            left_new: false,
            left_cur: false,
            is_gone: false,
        })?;
        self.new_rests = false;
        Ok(())
    }

    // Flushes the names of a folder. If memory runs out, nothing changes.
    pub(crate) fn flush_names_now(&mut self, folder: Folder) -> Result<(), AllocError>
        ensures ok { OnOk result (self.new ≡ names_flushed_in folder self.old) }
        ensures err { OnErr result (self.new ≡ self.old) }
    {
        self.files = named_files(self.alloc, &self.files, folder)?;
        Ok(())
    }

    // How many octets the first file with a name in a folder has, if one has it.
    pub(crate) fn size_at(&self, folder: Folder, name: &str) -> Option<u64>
        ensures { result ≡ size_at folder name.now self.now }
    {
        match self.files.iter().find(|file| file.is_at(folder, name)) {
            Some(file) => Some(file.content.as_slice().len() as u64),
            None => None,
        }
    }

    // Whether a file that is there has this stem.
    pub(crate) fn has_stem(&self, wanted: &str) -> bool {
        self.files
            .iter()
            .any(|file| !file.is_gone && stem(file.name.as_str()) == wanted)
    }

    // Whether what can't be opened has a name in a folder: in both, then.
    pub(crate) fn is_obstructed(&self, name: &str) -> bool
        ensures { (folder : Folder) → result ≡ has_id (closed_in folder self.now) name.now }
    {
        is_one_of(&self.obstacles, name)
    }

    // Leaves out the files that the reader took away. If memory runs out, nothing changes.
    fn forget_taken(&mut self) -> Result<(), AllocError>
        ensures ok { OnOk result (self.new ≡ without_taken self.old) }
        ensures err { OnErr result (self.new ≡ self.old) }
    {
        let mut taken = taken_files(self.alloc, &self.files)?;
        self.taken.append(&mut taken)?;
        self.files.retain(|file| !file.is_gone);
        Ok(())
    }
}

impl MailFolders for MemoryFolders {
    type File = MemoryNewFile;

    ghost directories = { λ m. m };

    ghost sound = { λ _. Unit {0} };

    fn check(&mut self, _folder: Folder) -> Result<(), StoreFault> {
        self.let_reader_move();
        self.are_there();
        Ok(())
    }

    fn list(&mut self, folder: Folder, sought: Sought<'_>) -> Result<Vec<String>, StoreFault> {
        self.let_reader_move();
        match self.list_now(folder, sought) {
            Ok(names) => Ok(names),
            Err(_) => Err(StoreFault::Refused),
        }
    }

    fn files_among(
        &mut self,
        in_new: Vec<String>,
        in_cur: Vec<String>,
    ) -> Result<FoundNames, StoreFault> {
        self.let_reader_move();
        match self.told(in_new, in_cur) {
            Ok(found) => Ok(found),
            Err(_) => Err(StoreFault::Refused),
        }
    }

    fn rests(&mut self, folder: Folder, _times: u32) -> Result<bool, StoreFault> {
        self.let_reader_move();
        Ok(self.has_rested(folder))
    }

    fn flush_files(&mut self, stems: &[String], _may_miss: bool) -> Result<bool, StoreFault> {
        self.let_reader_move();
        match self.flush_now(stems) {
            Ok(()) => Ok(true),
            Err(_) => Err(StoreFault::Refused),
        }
    }

    fn make(&mut self, _name: &str) -> Result<MemoryNewFile, StoreFault> {
        self.let_reader_move();
        Ok(MemoryNewFile::new(self.alloc))
    }

    fn put(&mut self, file: MemoryNewFile, name: &str) -> Result<(), StoreFault> {
        self.let_reader_move();
        let Ok(Some(name)) = self.free_name(Folder::New, name) else {
            return Err(StoreFault::Refused);
        };
        match self.put_now(file, name) {
            Ok(()) => Ok(()),
            Err(_) => Err(StoreFault::Refused),
        }
    }

    fn discard(&mut self, _file: MemoryNewFile) {
        self.let_reader_move();
    }

    fn flush_names(&mut self, folder: Folder) -> Result<bool, StoreFault> {
        self.let_reader_move();
        match self.flush_names_now(folder) {
            Ok(()) => Ok(true),
            Err(_) => Err(StoreFault::Refused),
        }
    }
}
