//! A folder in memory.

ghost use Rattle.std.specs.Prelude.{◌≡◌, ◌≢◌, ◌<◌, ◌≤◌, ◌↔◌, ◌++◌, ℕ, [], ◌∷◌, length, map, slice_index_or};
ghost use Rattle.std.specs.Prelude.{HoldsAt, IfErr, IfNone, IfOk, IfSome, IsOk, IsTrue, OnErr, OnOk, option_map, take};
ghost use Rattle.std.specs.Prelude.{string_bytes, true};
ghost use Rattle.mail_store.specs.{Fault.IsDeviceFault, DiskCalls.{appended, cut, flushed}};
ghost use Rattle.mail_store.specs.Durable.{IsLeft, IsLeftOf, secured};
ghost use Rattle.std.specs.Option.{is_some};
ghost use Rattle.folder_store.specs.{
  Under.{after, outside},
  FileFolder.{Makes, find, placed, put_in, with_blob, FlushesNames, MeasuresFile, ReadsPiece, TellsFileSize},
  PowerLoss.{Loses, MayBe, WasOnce, left_under},
};
ghost use Rattle.test_devices.specs.MemoryFolder.{MayBeOf, Survive, blob_of, folder_entries, folder_entry, made_of};
ghost use Rattle.test_devices.specs.MemoryFolder.{older_of};

use crate::new_file::MemoryNewFile;
use crate::torn::is_torn;
use folder_store::{FileFolder, FolderState};
use mail_store::{Edges, StoreFault, edges_of, read_piece};
use std::alloc::{AllocError, Global};
use std::marker::Model;
use std::mem;

/// A file in memory: its bytes, those that were flushed last, and how many of these weren't cut off
/// since.
#[derive(Drop)]
struct MemoryBlob {
    content: Vec<u8>,
    flushed: Vec<u8>,
    uncut: usize,
}

/// What a loss of power leaves of a file that has a name.
#[derive(Clone, Copy)]
pub enum Left {
    /// What calls see.
    All,
    /// What was flushed last.
    Flushed,
    /// The first octets of what calls see, as many as this number, if all that were flushed and not
    /// cut off since are among them; else what calls see.
    Front(usize),
    /// The same, and zeros in the place of the others.
    Zeros(usize),
    /// What the name led to before it was changed last, if the names weren't flushed since: a file as
    /// it was flushed, or none. Else what calls see.
    Older,
}

/// A folder in memory. It refuses a call only if memory runs out.
#[derive(Drop)]
pub struct MemoryFolder {
    alloc: Global,
    files: Vec<(String, MemoryBlob)>,
    older: Vec<(String, Option<MemoryBlob>)>,
}

impl Model for MemoryFolder {
    ghost use Rattle.std.specs.Prelude.{map, true};
    ghost use Rattle.mail_terms.specs.Distinct.{AreDistinct};
    ghost use Rattle.folder_store.specs.FileFolder.{Directory, names_in};

    ghost Value = { Directory };

    ghost use Rattle.test_devices.specs.MemoryFolder.{folder_entries, older_of};

    ghost view = { λ m. record {
      can_make = true;
      entries = folder_entries m.files.items;
      older = map older_of m.older.items;
    } };

    ghost invariant = { λ m. AreDistinct (names_in (folder_entries m.files.items)) };
}

/// The place at which this name is first, if it is among the names.
fn place_of<T>(named: &[(String, T)], name: &str) -> Option<usize>
    ensures inside { IfSome result (λ i. i < length named.now) }
    ensures named { IfSome result (λ i. HoldsAt (λ f. string_bytes f.0 ≡ name.now) named.now i) }
    ensures first { IfSome result (λ i. (k : ℕ) (d : _) → k < i
        → string_bytes (slice_index_or named.now k d).0 ≢ name.now) }
    ensures none { IfNone result ((k : ℕ) (d : _) → k < length named.now
        → string_bytes (slice_index_or named.now k d).0 ≢ name.now) }
{
    for (i, pair) in named.iter().enumerate() {
        if pair.0.as_str() == name {
            return Some(i);
        }
    }
    None
}

/// Whether a name begins with a text.
fn is_under(front: &str, name: &str) -> bool
    ensures { result ≡ is_some (after front.now name.now) }
{
    name.as_bytes().starts_with(front.as_bytes())
}

/// The file of this name, if there is one.
fn stored_at<'a>(files: &'a [(String, MemoryBlob)], name: &str) -> Option<&'a MemoryBlob>
    ensures { option_map (λ k. blob_of k.now) result ≡ find name.now (folder_entries files.now) }
{
    match place_of(files, name) {
        Some(i) => Some(&files[i].1),
        None => None,
    }
}

/// Gives the name a file, and answers the one that it had.
fn place(
    files: &mut Vec<(String, MemoryBlob)>,
    name: String,
    file: MemoryBlob,
) -> Result<Option<MemoryBlob>, AllocError>
    ensures placed { OnOk result
        (folder_entries files.new.items ≡ placed (string_bytes name) (blob_of file) (folder_entries files.old.items)) }
    ensures was { IfOk result
        (λ was. option_map blob_of was ≡ find (string_bytes name) (folder_entries files.old.items)) }
    ensures err { OnErr result (files.new.items ≡ files.old.items) }
{
    match place_of(files, name.as_str()) {
        Some(i) => Ok(Some(mem::replace(&mut files[i].1, file))),
        None => {
            files.push((name, file))?;
            Ok(None)
        }
    }
}

/// What is left under the name of a file, as the choice says: its bytes, or no file.
fn bytes_left(
    file: &(String, MemoryBlob),
    older: &[(String, Option<MemoryBlob>)],
    left: Left,
) -> Result<Option<Vec<u8>>, AllocError>
    ensures { IfOk result (λ text. MayBeOf (map older_of older.now) (folder_entry file.now)
        (option_map (λ bytes. bytes.items) text)) }
{
    if let Left::Older = left {
        if let Some(i) = place_of(older, file.0.as_str()) {
            return match &older[i].1 {
                Some(was) => Ok(Some(was.left(Left::Flushed)?)),
                None => Ok(None),
            };
        }
    }
    Ok(Some(file.1.left(left)?))
}

/// Appends a file with the bytes that are left of it, all durable, if it is still there.
fn add_left(
    left: &mut Vec<(String, MemoryBlob)>,
    file: &(String, MemoryBlob),
    bytes: Option<Vec<u8>>,
) -> Result<(), AllocError>
    ensures { OnOk result (folder_entries left.new.items
        ≡ folder_entries left.old.items ++ left_under (string_bytes file.now.0)
        (option_map (λ bytes. bytes.items) bytes)) }
{
    match bytes {
        Some(bytes) => {
            left.push((file.0.clone()?, MemoryBlob::whole(bytes)?))?;
            Ok(())
        }
        None => Ok(()),
    }
}

/// What is left of some files, one by one.
fn survivors(
    alloc: Global,
    files: &[(String, MemoryBlob)],
    older: &[(String, Option<MemoryBlob>)],
    choices: &[Left],
) -> Result<Vec<(String, MemoryBlob)>, AllocError>
    ensures { IfOk result (λ left. Survive (map older_of older.now) (folder_entries files.now)
        (folder_entries left.items)) }
{
    let mut left = Vec::new(alloc);
    for (i, file) in files.iter().enumerate() {
        let choice = choices.get(i).copied().unwrap_or(Left::All);
        let bytes = bytes_left(file, older, choice)?;
        add_left(&mut left, file, bytes)?;
    }
    Ok(left)
}

/// Whether a loss of power may leave these octets of a file, or no file if there was none.
fn may_leave_of(file: Option<&MemoryBlob>, left: Option<&[u8]>) -> bool
    ensures { IsTrue result
        ↔ IsLeftOf (option_map (λ k. blob_of k.now) file.entry) (option_map (λ octets. octets.now) left.entry) }
{
    match (file, left) {
        (Some(file), Some(left)) => file.may_leave(left),
        (None, None) => true,
        _ => false,
    }
}

/// The same of what a name led to, before one of these changes.
fn may_leave_older(older: &[(String, Option<MemoryBlob>)], name: &str, left: Option<&[u8]>) -> bool
    ensures { IsTrue result
        ↔ WasOnce (map older_of older.now) name.now (option_map (λ octets. octets.now) left.entry) }
{
    match older {
        [] => false,
        [link, rest @ ..] => {
            (link.0.as_str() == name && may_leave_of(link.1.as_ref(), left))
                || may_leave_older(rest, name, left)
        }
    }
}

impl MemoryBlob {
    ghost use Rattle.folder_store.specs.FileFolder.{blob_made};
    ghost use Rattle.test_devices.specs.MemoryFolder.{IsZeroed, blob_of, made_of};

    fn of(alloc: Global, file: MemoryNewFile) -> Result<MemoryBlob, AllocError>
        ensures { IfOk result (λ blob. blob_of blob ≡ blob_made (made_of file)) }
    {
        if file.is_flushed {
            return MemoryBlob::whole(file.content);
        }
        Ok(MemoryBlob {
            content: file.content,
            flushed: Vec::new(alloc),
            uncut: 0,
        })
    }

    fn whole(bytes: Vec<u8>) -> Result<MemoryBlob, AllocError>
        ensures { IfOk result (λ blob. blob_of blob ≡ secured bytes.items) }
    {
        let flushed = bytes.clone()?;
        let uncut = bytes.len();
        Ok(MemoryBlob {
            content: bytes,
            flushed,
            uncut,
        })
    }

    fn front(&self, len: usize) -> Result<Vec<u8>, AllocError>
        ensures { IfOk result (λ bytes. bytes.items ≡ take len self.now.content.items) }
    {
        let mut bytes = self.content.clone()?;
        bytes.truncate(len);
        Ok(bytes)
    }

    // The first bytes, and zeros in the place of the others.
    fn zeroed(&self, len: usize) -> Result<Vec<u8>, AllocError>
        ensures { IfOk result (λ bytes. IsZeroed self.now.content.items len bytes.items) }
    {
        let size = self.content.len();
        let mut bytes = self.front(len)?;
        while bytes.len() < size {
            bytes.push(0)?;
        }
        Ok(bytes)
    }

    // What is left of the file, as the choice says.
    fn left(&self, left: Left) -> Result<Vec<u8>, AllocError>
        ensures { IfOk result (λ bytes. IsLeft (blob_of self.now) bytes.items) }
    {
        match left {
            Left::Flushed => self.flushed.clone(),
            Left::Front(len) if len >= self.uncut => self.front(len),
            Left::Zeros(len) if len >= self.uncut => self.zeroed(len),
            _ => self.content.clone(),
        }
    }

    // Whether a loss of power may leave these octets of the file.
    fn may_leave(&self, left: &[u8]) -> bool
        ensures { IsTrue result ↔ IsLeft (blob_of self.now) left.now }
    {
        left == self.flushed.as_slice()
            || left == self.content.as_slice()
            || is_torn(&self.content, &self.flushed, self.uncut, left)
    }

    fn copy(&self) -> Result<MemoryBlob, AllocError>
        ensures { IfOk result (λ blob. blob_of blob ≡ blob_of self.now) }
    {
        Ok(MemoryBlob {
            content: self.content.clone()?,
            flushed: self.flushed.clone()?,
            uncut: self.uncut,
        })
    }

    fn appended(&self, bytes: &[u8]) -> Result<MemoryBlob, AllocError>
        ensures { IfOk result (λ blob. blob_of blob ≡ appended (blob_of self.now) bytes.now) }
    {
        let mut copy = self.copy()?;
        copy.content.extend_from_slice(bytes)?;
        Ok(copy)
    }

    fn cut(&self, len: usize) -> Result<MemoryBlob, AllocError>
        ensures { IfOk result (λ blob. blob_of blob ≡ cut (blob_of self.now) len) }
    {
        let mut copy = self.copy()?;
        copy.content.truncate(len);
        copy.uncut = len.min(self.uncut);
        Ok(copy)
    }

    fn flushed(&self) -> Result<MemoryBlob, AllocError>
        ensures { IfOk result (λ blob. blob_of blob ≡ flushed (blob_of self.now)) }
    {
        MemoryBlob::whole(self.content.clone()?)
    }
}

impl MemoryFolder {
    /// A folder without files.
    pub fn new(alloc: Global) -> MemoryFolder
        ensures { result ≡ record { can_make = true; entries = []; older = [] } }
    {
        MemoryFolder {
            alloc,
            files: Vec::new(alloc),
            older: Vec::new(alloc),
        }
    }

    /// Loses the power: what is left of each file is what its choice says, or what calls see if it
    /// has none. The choices are in the order in which the files came. Refused if memory runs out: then
    /// nothing is lost.
    pub fn lose_power(&mut self, choices: &[Left]) -> Result<(), StoreFault>
        ensures ok { OnOk result (Loses self.old self.new) }
        ensures err { OnErr result (self.new ≡ self.old) }
    {
        match survivors(self.alloc, &self.files, &self.older, choices) {
            Ok(files) => {
                self.files = files;
                self.older.clear();
                Ok(())
            }
            Err(_) => Err(StoreFault::Refused),
        }
    }

    /// Whether a loss of power may leave a file with these octets under a name, or none.
    pub fn may_leave(&self, name: &str, left: Option<&[u8]>) -> bool
        ensures { IsTrue result ↔ MayBe self.now name.now (option_map (λ octets. octets.now) left.entry) }
    {
        may_leave_of(stored_at(&self.files, name), left) || may_leave_older(&self.older, name, left)
    }

    /// Flushes the names that begin with a text.
    pub(crate) fn flush_names_under(&mut self, front: &str)
        ensures { self.new ≡ record self.old { older = outside front.now self.old.older } }
    {
        self.older.retain(|link| !is_under(front, link.0.as_str()));
    }

    /// Gives the file of a name other bytes.
    fn change(&mut self, name: &str, file: MemoryBlob) -> Result<(), StoreFault>
        ensures ok { OnOk result (self.new ≡ with_blob self.old name.now (blob_of file)) }
        ensures err { OnErr result (self.new ≡ self.old) }
    {
        let Ok(title) = String::from_str(self.alloc, name) else {
            return Err(StoreFault::Refused);
        };
        match place(&mut self.files, title, file) {
            Ok(_) => Ok(()),
            Err(_) => Err(StoreFault::Refused),
        }
    }

    /// Puts a file under a name, in the place of another, if there is one.
    fn put_file(&mut self, name: &str, file: MemoryNewFile) -> Result<(), AllocError>
        ensures ok { OnOk result (self.new ≡ put_in self.old (made_of file) name.now) }
        ensures err { OnErr result (self.new ≡ self.old) }
    {
        let title = String::from_str(self.alloc, name)?;
        let link = String::from_str(self.alloc, name)?;
        let file = MemoryBlob::of(self.alloc, file)?;
        self.older.reserve(1)?;
        let was = place(&mut self.files, title, file)?;
        self.older.insert(0, (link, was)).unwrap();
        Ok(())
    }
}

impl FolderState for MemoryFolder {
    ghost directory = { λ m. m };

    ghost sound = { λ _. Unit {0} };
}

impl FileFolder for MemoryFolder {
    type File = MemoryNewFile;

    // The calls that take no memory answer.
    fn make(&mut self, _name: &str) -> Result<MemoryNewFile, StoreFault>
        ensures makes { Unit {0} → Unit {0} × (self.new ≡ self.old)
            × (IfOk result (λ _. Unit {0}) → Makes made_of self.old.can_make result) }
        ensures fault { IfErr result IsDeviceFault }
        ensures answers { IsOk result }
    {
        Ok(MemoryNewFile::new(self.alloc))
    }

    fn put(&mut self, file: MemoryNewFile, name: &str) -> Result<(), StoreFault> {
        match self.put_file(name, file) {
            Ok(()) => Ok(()),
            Err(_) => Err(StoreFault::Refused),
        }
    }

    fn discard(&mut self, _file: MemoryNewFile) {}

    fn read(&mut self, name: &str) -> Result<Vec<u8>, StoreFault> {
        let Some(file) = stored_at(&self.files, name) else {
            return Err(StoreFault::Missing);
        };
        match file.content.clone() {
            Ok(bytes) => Ok(bytes),
            Err(_) => Err(StoreFault::Refused),
        }
    }

    fn edges(&mut self, name: &str) -> Result<Edges, StoreFault>
        ensures measures { Unit {0} → Unit {0} × MeasuresFile self.old name.now result self.new }
        ensures fault { IfErr result IsDeviceFault }
        ensures answers { result ≢ Err StoreFault.Refused }
    {
        match stored_at(&self.files, name) {
            Some(file) => Ok(edges_of(file.content.as_slice())),
            None => Err(StoreFault::Missing),
        }
    }

    fn read_at(&mut self, name: &str, start: u64, buf: &mut [u8]) -> Result<usize, StoreFault>
        ensures within { IfOk result (λ count. count ≤ length buf.new) }
        ensures reads { Unit {0} → Unit {0} × ReadsPiece self.old name.now start result buf.new self.new }
        ensures fault { IfErr result IsDeviceFault }
        ensures answers { result ≢ Err StoreFault.Refused }
    {
        match stored_at(&self.files, name) {
            Some(file) => Ok(read_piece(file.content.as_slice(), start, buf)),
            None => Err(StoreFault::Missing),
        }
    }

    fn size(&mut self, name: &str) -> Result<u64, StoreFault>
        ensures tells { Unit {0} → Unit {0} × TellsFileSize self.old name.now result self.new }
        ensures answers { result ≢ Err StoreFault.Refused }
    {
        match stored_at(&self.files, name) {
            Some(file) => Ok(file.content.len() as u64),
            None => Err(StoreFault::Missing),
        }
    }

    fn append(&mut self, name: &str, bytes: &[u8]) -> Result<(), StoreFault> {
        let Some(file) = stored_at(&self.files, name) else {
            return Err(StoreFault::Missing);
        };
        match file.appended(bytes) {
            Ok(file) => self.change(name, file),
            Err(_) => Err(StoreFault::Refused),
        }
    }

    fn cut_to(&mut self, name: &str, len: u64) -> Result<(), StoreFault> {
        let Some(file) = stored_at(&self.files, name) else {
            return Err(StoreFault::Missing);
        };
        match file.cut(len as usize) {
            Ok(file) => self.change(name, file),
            Err(_) => Err(StoreFault::Refused),
        }
    }

    fn flush(&mut self, name: &str) -> Result<(), StoreFault> {
        let Some(file) = stored_at(&self.files, name) else {
            return Err(StoreFault::Missing);
        };
        match file.flushed() {
            Ok(file) => self.change(name, file),
            Err(_) => Err(StoreFault::Refused),
        }
    }

    fn flush_names(&mut self) -> Result<bool, StoreFault>
        ensures flushes { Unit {0} → Unit {0} × FlushesNames self.old result self.new }
        ensures answers { result ≡ Ok true }
    {
        self.older.clear();
        Ok(true)
    }
}
