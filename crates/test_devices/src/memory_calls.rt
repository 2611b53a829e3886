//! A file system in memory, call by call.

ghost use Rattle.std.specs.{
  Prelude.{◌≡◌, ◌<◌, ◌+◌, ◌↔◌, None, IfErr, IfNone, IfOk, IfSome, IsTrue, OnErr, OnOk, length},
  Prelude.option_map,
  IoError.error_kind,
};
ghost use Rattle.folder_store.specs.{Calls.Stats, PowerLoss.{Loses, MayBe}};
ghost use Rattle.test_devices.specs.MemoryCalls.{HasSize, IsBare, IsRefusal, IsRefusalKind, memory_opened, memory_tree};

use crate::memory_folder::{Left, MemoryFolder};
use crate::new_file::MemoryNewFile;
use folder_store::{
    Access, ChangeTime, FileCalls, FileFolder, FileKind, FileStat, MadeHandle, NewFile, OpenHandle,
};
use mail_store::{StoreFault, read_piece};
use std::alloc::Global;
use std::io::{self, ErrorKind};
use std::path::PathBuf;
use system_calls::Denial;

/// Which calls are refused.
#[derive(Clone, Copy)]
pub enum CallFuse {
    /// None.
    Whole,
    /// All after so many.
    Refuses(u64),
    /// One after so many, which is interrupted.
    Interrupts(u64),
}

impl CallFuse {
    /// Why a call is refused, if it is.
    pub(crate) fn burn(&mut self) -> Option<ErrorKind>
        ensures { IfSome result IsRefusalKind }
    {
        match *self {
            CallFuse::Whole => None,
            CallFuse::Refuses(0) => Some(ErrorKind::Other),
            CallFuse::Refuses(left) => {
                *self = CallFuse::Refuses(left - 1);
                None
            }
            CallFuse::Interrupts(0) => {
                *self = CallFuse::Whole;
                Some(ErrorKind::Interrupted)
            }
            CallFuse::Interrupts(left) => {
                *self = CallFuse::Interrupts(left - 1);
                None
            }
        }
    }
}

/// A file that lost its name to another one, and may still be open.
#[derive(Drop)]
struct Replaced {
    path: String,
    /// How many names had been given.
    turn: u64,
    content: Vec<u8>,
}

/// A file system in memory that has one folder. A call is refused if the system of a machine would refuse it too, if a
/// fuse says so, or if memory runs out; `unlink` and `flush_targets` never are.
#[derive(Drop)]
pub struct MemoryCalls {
    alloc: Global,
    folder: String,
    /// By the texts of their paths.
    files: MemoryFolder,
    turn: u64,
    replaced: Vec<Replaced>,
    fuse: CallFuse,
    made_fuse: CallFuse,
}

/// A file of it that was made.
#[derive(Drop)]
pub struct MemoryMade {
    pub(crate) alloc: Global,
    pub(crate) path: String,
    pub(crate) file: MemoryNewFile,
    pub(crate) fuse: CallFuse,
}

/// A file of it that was opened, or its folder.
#[derive(Drop)]
pub struct MemoryOpened {
    alloc: Global,
    path: String,
    access: Access,
    turn: u64,
    place: u64,
}

/// A refusal of this kind.
pub(crate) fn refusal(alloc: Global, path: &str, kind: ErrorKind) -> Denial
    ensures { error_kind result.error ≡ kind }
{
    Denial::of(alloc, path, io::Error::from(kind))
}

/// What the system tells of a file or folder.
pub(crate) fn stat_of(kind: FileKind, len: u64, inode: u64) -> FileStat
    ensures { (result.kind ≡ kind) × (result.len ≡ len) }
{
    FileStat {
        kind,
        len,
        links: 1,
        device: 0,
        inode,
        change: ChangeTime {
            seconds: 0,
            nanoseconds: 0,
        },
    }
}

impl MemoryMade {
    ghost use Rattle.test_devices.specs.MemoryFolder.{made_of};

    /// Another file with the same bytes.
    pub(crate) fn copy(&self) -> Result<MemoryNewFile, Denial>
        ensures { IfOk result (λ file. made_of file ≡ made_of self.now.file) }
    {
        Ok(MemoryNewFile {
            content: self.file.content.clone()?,
            is_flushed: self.file.is_flushed,
        })
    }

    /// Refuses a call if the fuse says so.
    fn pass(&mut self) -> Result<(), Denial>
        ensures same { made_of self.new.file ≡ made_of self.old.file }
        ensures refused { IfErr result IsRefusal }
    {
        match self.fuse.burn() {
            Some(kind) => Err(refusal(self.alloc, self.path.as_str(), kind)),
            None => Ok(()),
        }
    }
}

impl MadeHandle for MemoryMade {
    ghost use Rattle.test_devices.specs.MemoryFolder.{made_of};

    ghost made = { λ m. made_of m.file };

    ghost sound = { λ _. Unit {0} };

    fn write(&mut self, bytes: &[u8]) -> Result<usize, Denial> {
        self.pass()?;
        match self.file.write(bytes) {
            Ok(()) => Ok(bytes.len()),
            Err(_) => Err(refusal(self.alloc, self.path.as_str(), ErrorKind::OutOfMemory)),
        }
    }

    fn fsync(&mut self) -> Result<(), Denial> {
        self.pass()?;
        match self.file.flush() {
            Ok(()) => Ok(()),
            Err(_) => Err(refusal(self.alloc, self.path.as_str(), ErrorKind::OutOfMemory)),
        }
    }

    fn denied(&self, error: io::Error) -> Denial {
        Denial::of(self.alloc, self.path.as_str(), error)
    }
}

impl OpenHandle for MemoryOpened {
    ghost opened = { memory_opened };

    ghost told = { λ _ _. Unit {0} };

    fn denied(&self, error: io::Error) -> Denial {
        Denial::of(self.alloc, self.path.as_str(), error)
    }
}

impl MemoryOpened {
    /// A refusal of a call on it.
    fn refusal(&self, kind: ErrorKind) -> Denial
        ensures { error_kind result.error ≡ kind }
    {
        refusal(self.alloc, self.path.as_str(), kind)
    }

    /// So many octets were read: the next are those behind them.
    fn move_by(&mut self, count: usize) -> Result<usize, Denial>
        ensures ok { IfOk result (λ n. (n ≡ count) × (memory_opened self.new
            ≡ record (memory_opened self.old) { place = (memory_opened self.old).place + count })) }
        ensures err { IfErr result IsRefusal }
        ensures stays { OnErr result (memory_opened self.new ≡ memory_opened self.old) }
    {
        let Some(place) = self.place.checked_add(count as u64) else {
            return Err(self.refusal(ErrorKind::Other));
        };
        self.place = place;
        Ok(count)
    }
}

impl MemoryCalls {
    /// A file system that has this folder, which is empty.
    pub fn new(alloc: Global, folder: String) -> MemoryCalls {
        MemoryCalls {
            alloc,
            folder,
            files: MemoryFolder::new(alloc),
            turn: 0,
            replaced: Vec::new(alloc),
            fuse: CallFuse::Whole,
            made_fuse: CallFuse::Whole,
        }
    }

    /// From now on calls are refused as the first fuse says, and those on each file that is made as the second one.
    pub fn refuse(&mut self, fuse: CallFuse, made_fuse: CallFuse)
        ensures { memory_tree self.new ≡ memory_tree self.old }
    {
        self.fuse = fuse;
        self.made_fuse = made_fuse;
    }

    /// Refuses a call if the fuse says so.
    fn pass(&mut self, path: &str) -> Result<(), Denial>
        ensures same { memory_tree self.new ≡ memory_tree self.old }
        ensures refused { IfErr result IsRefusal }
    {
        match self.fuse.burn() {
            Some(kind) => Err(refusal(self.alloc, path, kind)),
            None => Ok(()),
        }
    }

    /// Loses the power: what is left of each file is what its choice says, or what calls see if it has none. The
    /// choices are in the order in which the files came. Refused if memory runs out: then nothing is lost.
    pub fn lose_power(&mut self, choices: &[Left]) -> Result<(), StoreFault>
        ensures ok { OnOk result (Loses (memory_tree self.old).directory (memory_tree self.new).directory) }
        ensures err { OnErr result (memory_tree self.new ≡ memory_tree self.old) }
    {
        self.files.lose_power(choices)?;
        self.replaced.clear();
        Ok(())
    }

    /// Whether a loss of power may leave a file with these octets at a path, or none.
    pub fn may_leave(&self, path: &str, left: Option<&[u8]>) -> bool
        ensures { IsTrue result
            ↔ MayBe (memory_tree self.now).directory path.now (option_map (λ octets. octets.now) left.entry) }
    {
        self.files.may_leave(path, left)
    }

    /// How many octets the file at a path has, if there is one.
    fn size_at(&mut self, path: &str) -> Option<u64>
        ensures same { memory_tree self.new ≡ memory_tree self.old }
        ensures some { IfSome result (λ size. HasSize (memory_tree self.old) path.now size) }
        ensures none { IfNone result (IsBare (memory_tree self.old) path.now) }
    {
        match self.files.edges(path) {
            Ok(edges) => Some(edges.size),
            Err(_) => None,
        }
    }

    /// What is at a path.
    fn found_at(&mut self, path: &str) -> Result<FileStat, Denial>
        ensures same { memory_tree self.new ≡ memory_tree self.old }
        ensures stats { Stats (memory_tree self.old) path.now result }
    {
        match self.size_at(path) {
            Some(size) => Ok(stat_of(FileKind::File, size, 0)),
            None => {
                if self.folder.as_str() == path {
                    return Ok(stat_of(FileKind::Folder, 0, 0));
                }
                Err(refusal(self.alloc, path, ErrorKind::NotFound))
            }
        }
    }

    /// The place of an open file among those that lost their names, if it is one of them.
    fn place_of(&self, file: &MemoryOpened) -> Option<usize>
        ensures inside { IfSome result (λ i. i < length self.now.replaced.items) }
        ensures here { file.now.turn ≡ self.now.turn → result ≡ None }
    {
        if file.turn == self.turn {
            return None;
        }
        for (i, replaced) in self.replaced.iter().enumerate() {
            if replaced.turn >= file.turn && replaced.path == file.path {
                return Some(i);
            }
        }
        None
    }

    /// Keeps the bytes of the file at a path, which is about to lose its name.
    fn keep_replaced(&mut self, path: &str) -> Result<(), Denial>
        ensures { memory_tree self.new ≡ memory_tree self.old }
    {
        match self.files.read(path) {
            Ok(content) => {
                let path = String::from_str(self.alloc, path)?;
                let turn = self.turn;
                self.replaced.push(Replaced {
                    path,
                    turn,
                    content,
                })?;
                Ok(())
            }
            Err(StoreFault::Missing) => Ok(()),
            Err(_) => Err(refusal(self.alloc, path, ErrorKind::OutOfMemory)),
        }
    }
}

impl FileCalls for MemoryCalls {
    type Made = MemoryMade;

    type File = MemoryOpened;

    ghost tree = { memory_tree };

    ghost told_at = { λ _ _ _. Unit {0} };

    ghost flushed_targets = { λ _ _ _. Unit {0} };

    ghost sound = { λ _. Unit {0} };

    fn create(&mut self, path: &str) -> Result<MemoryMade, Denial> {
        self.pass(path)?;
        let title = String::from_str(self.alloc, path)?;
        if self.size_at(path).is_some() {
            return Err(refusal(self.alloc, path, ErrorKind::AlreadyExists));
        }
        match self.files.make(path) {
            Ok(file) => Ok(MemoryMade {
                alloc: self.alloc,
                path: title,
                file,
                fuse: self.made_fuse,
            }),
            Err(_) => Err(refusal(self.alloc, path, ErrorKind::OutOfMemory)),
        }
    }

    fn rename(&mut self, file: &MemoryMade, to: &str) -> Result<(), Denial> {
        self.pass(to)?;
        let copy = file.copy()?;
        let Some(turn) = self.turn.checked_add(1) else {
            return Err(refusal(self.alloc, to, ErrorKind::OutOfMemory));
        };
        if self.folder.as_str() == to {
            return Err(refusal(self.alloc, to, ErrorKind::IsADirectory));
        }
        self.keep_replaced(to)?;
        match self.files.put(copy, to) {
            Ok(()) => {
                self.turn = turn;
                Ok(())
            }
            Err(_) => Err(refusal(self.alloc, to, ErrorKind::OutOfMemory)),
        }
    }

    fn unlink(&self, _file: &MemoryMade) -> Result<(), Denial> {
        Ok(())
    }

    fn stat(&mut self, path: &str) -> Result<FileStat, Denial> {
        self.pass(path)?;
        self.found_at(path)
    }

    fn is_link(&self, _path: &str) -> bool {
        false
    }

    fn flush_targets(&self, _path: &str) -> Result<Option<String>, Denial> {
        Ok(None)
    }

    fn open(&mut self, path: &str, access: Access) -> Result<MemoryOpened, Denial> {
        self.pass(path)?;
        let title = String::from_str(self.alloc, path)?;
        let found = self.found_at(path)?;
        if found.kind == FileKind::Folder && access == Access::Append {
            return Err(refusal(self.alloc, path, ErrorKind::IsADirectory));
        }
        Ok(MemoryOpened {
            alloc: self.alloc,
            path: title,
            access,
            turn: self.turn,
            place: 0,
        })
    }

    fn fstat(&mut self, file: &MemoryOpened) -> Result<FileStat, Denial> {
        self.pass(file.path.as_str())?;
        if let Some(i) = self.place_of(file) {
            let len = self.replaced[i].content.len() as u64;
            return Ok(stat_of(FileKind::File, len, i as u64 + 1));
        }
        match self.size_at(file.path.as_str()) {
            Some(size) => Ok(stat_of(FileKind::File, size, 0)),
            None => Ok(stat_of(FileKind::Folder, 0, 0)),
        }
    }

    fn read(&mut self, file: &mut MemoryOpened, buf: &mut [u8]) -> Result<usize, Denial> {
        self.pass(file.path.as_str())?;
        if file.access == Access::Append {
            return Err(file.refusal(ErrorKind::Other));
        }
        if let Some(i) = self.place_of(file) {
            let count = read_piece(self.replaced[i].content.as_slice(), file.place, buf);
            return file.move_by(count);
        }
        match self.files.read_at(file.path.as_str(), file.place, buf) {
            Ok(count) => file.move_by(count),
            Err(_) => Err(file.refusal(ErrorKind::IsADirectory)),
        }
    }

    fn seek(&mut self, file: &mut MemoryOpened, place: u64) -> Result<(), Denial> {
        self.pass(file.path.as_str())?;
        file.place = place;
        Ok(())
    }

    fn write(&mut self, file: &mut MemoryOpened, bytes: &[u8]) -> Result<usize, Denial> {
        self.pass(file.path.as_str())?;
        if file.access == Access::Read {
            return Err(file.refusal(ErrorKind::Other));
        }
        if let Some(i) = self.place_of(file) {
            self.replaced[i].content.extend_from_slice(bytes)?;
            return Ok(bytes.len());
        }
        match self.files.append(file.path.as_str(), bytes) {
            Ok(()) => Ok(bytes.len()),
            Err(_) => Err(file.refusal(ErrorKind::OutOfMemory)),
        }
    }

    fn ftruncate(&mut self, file: &MemoryOpened, len: u64) -> Result<(), Denial> {
        self.pass(file.path.as_str())?;
        if file.access == Access::Read {
            return Err(file.refusal(ErrorKind::InvalidInput));
        }
        if let Some(i) = self.place_of(file) {
            self.replaced[i].content.truncate(len as usize);
            return Ok(());
        }
        match self.files.cut_to(file.path.as_str(), len) {
            Ok(()) => Ok(()),
            Err(_) => Err(file.refusal(ErrorKind::OutOfMemory)),
        }
    }

    fn fsync(&mut self, file: &MemoryOpened) -> Result<(), Denial> {
        self.pass(file.path.as_str())?;
        if self.place_of(file).is_some() {
            return Ok(());
        }
        match self.files.flush(file.path.as_str()) {
            Ok(()) => Ok(()),
            Err(_) => Err(file.refusal(ErrorKind::OutOfMemory)),
        }
    }

    fn fsync_folder(&mut self, folder: &MemoryOpened) -> Result<(), Denial> {
        self.pass(folder.path.as_str())?;
        let mut front = PathBuf::from_str(self.alloc, folder.path.as_str())?;
        front.push("")?;
        self.files.flush_names_under(front.into_string().as_str());
        Ok(())
    }
}
