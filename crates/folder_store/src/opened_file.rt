//! What is done to an open file in several calls.

ghost use Rattle.std.specs.Prelude.{◌≡◌, ◌<◌, ◌≤◌, length, take, IfErr, IfOk, IfSome, OnOk};
ghost use Rattle.folder_store.specs.{
  Calls.{
    Fills,
    FillsWhole,
    NeverAbsent,
    MeasuresOpened,
    OpensFound,
    OpensRegular,
    ReadsOpened,
    ReadsPieceOpened,
    ReadsSome,
  },
  Calls.answered,
  FileFolder.{MeasuresFile, ReadsFile, ReadsPiece, TellsFileSize},
  HostPaths.path_named,
  Sound.WhereFilesStay,
  Watch.ReadsWatched,
};

use crate::calls::{Access, FileCalls, FileKind, OpenHandle};
use crate::host_paths::HostPaths;
use crate::watch::Watch;
use mail_store::{Edges, edges_of};
use std::alloc::{AllocError, Global};
use std::io::{self, ErrorKind};
use system_calls::Denial;

/// Why what a name leads to isn't used.
pub const IRREGULAR: &str = "not a regular file";

pub const LEADS_NOWHERE: &str = "a link that leads nowhere";

/// Opens a regular file, or one that a link leads to; None if it is a folder. Nothing else is opened: a pipe that
/// nobody writes to would be waited for.
pub fn open_found<C: FileCalls>(
    calls: &mut C,
    paths: &HostPaths<'_>,
    name: &str,
    access: Access,
) -> Result<Option<C::File>, Denial>
    ensures { WhereFilesStay C.sound C.tree calls.old calls.new
        (λ tree. OpensFound C.File.opened tree (path_named paths.now name.now) result) }
{
    let path = paths.path_of(name)?;
    match calls.stat(path.as_str()) {
        Ok(found) => match found.kind {
            FileKind::File => {
                let file = calls.open(path.as_str(), access)?;
                Ok(Some(file))
            }
            FileKind::Folder => Ok(None),
            FileKind::Other => Err(paths.refusal(name, IRREGULAR)),
        },
        Err(fault) => {
            if fault.kind() == ErrorKind::NotFound && calls.is_link(path.as_str()) {
                return Err(paths.refusal(name, LEADS_NOWHERE));
            }
            Err(fault)
        }
    }
}

/// Why a folder isn't used as a file: the system itself refuses it.
fn folder_fault<C: FileCalls>(
    calls: &mut C,
    paths: &HostPaths<'_>,
    name: &str,
    access: Access,
) -> Result<C::File, Denial>
    ensures { WhereFilesStay C.sound C.tree calls.old calls.new
        (λ tree. OpensRegular C.File.opened tree (path_named paths.now name.now) result) }
{
    let path = paths.path_of(name)?;
    let mut folder = calls.open(path.as_str(), access)?;
    calls.read(&mut folder, &mut [0u8])?;
    Err(paths.refusal(name, IRREGULAR))
}

/// Opens a regular file, or one that a link leads to.
pub fn open_regular<C: FileCalls>(
    calls: &mut C,
    paths: &HostPaths<'_>,
    name: &str,
    access: Access,
) -> Result<C::File, Denial>
    ensures { WhereFilesStay C.sound C.tree calls.old calls.new
        (λ tree. OpensRegular C.File.opened tree (path_named paths.now name.now) result) }
{
    match open_found(calls, paths, name, access)? {
        Some(file) => Ok(file),
        None => folder_fault(calls, paths, name, access),
    }
}

/// Reads some bytes of an open file, and returns how many; None if the call was interrupted.
fn read_some<C: FileCalls>(
    calls: &mut C,
    file: &mut C::File,
    buf: &mut [u8],
) -> Result<Option<usize>, Denial>
    requires { 0 < length buf.old }
    ensures within { IfOk result (λ got. IfSome got (λ n. n ≤ length buf.new)) }
    ensures reads { WhereFilesStay C.sound C.tree calls.old calls.new
        (λ tree. IfOk result (ReadsSome tree (C.File.opened file.old) buf.new (C.File.opened file.new))) }
    ensures there { NeverAbsent result }
{
    match calls.read(file, buf) {
        Ok(count) => Ok(Some(count)),
        Err(fault) => {
            if fault.kind() == ErrorKind::Interrupted {
                return Ok(None);
            }
            Err(fault)
        }
    }
}

/// Puts bytes of an open file into a buffer, and returns how many: as many as fit, or all that are left.
fn fill<C: FileCalls>(calls: &mut C, file: &mut C::File, buf: &mut [u8]) -> Result<usize, Denial>
    ensures within { IfOk result (λ n. n ≤ length buf.new) }
    ensures reads { WhereFilesStay C.sound C.tree calls.old calls.new
        (λ tree. Fills tree (C.File.opened file.old) result buf.new (C.File.opened file.new)) }
{
    let mut filled = 0;
    for _ in 0..u64::MAX {
        if filled >= buf.len() {
            return Ok(filled);
        }
        let got = read_some(calls, file, &mut buf[filled..])?;
        match got {
            Some(count) => {
                if count == 0 {
                    return Ok(filled);
                }
                filled += count;
            }
            None => {}
        }
    }
    Err(file.denied(io::Error::from(ErrorKind::ResourceBusy)))
}

/// The same, but a buffer that isn't full is an error.
fn fill_whole<C: FileCalls>(calls: &mut C, file: &mut C::File, buf: &mut [u8]) -> Result<(), Denial>
    ensures { WhereFilesStay C.sound C.tree calls.old calls.new
        (λ tree. FillsWhole tree (C.File.opened file.old) result buf.new (C.File.opened file.new)) }
{
    if fill(calls, file, buf)? < buf.len() {
        return Err(file.denied(io::Error::new(
            ErrorKind::UnexpectedEof,
            "failed to fill whole buffer",
        )));
    }
    Ok(())
}

/// Makes room behind the first bytes of a buffer, if there is none.
fn make_room(bytes: &mut Vec<u8>, filled: usize, more: usize) -> Result<(), Denial>
    requires { filled ≤ length bytes.old.items }
    ensures front { take filled bytes.new.items ≡ take filled bytes.old.items }
    ensures room { OnOk result (filled < length bytes.new.items) }
    ensures there { NeverAbsent result }
{
    if filled < bytes.len() {
        return Ok(());
    }
    bytes.resize(filled.saturating_add(more), 0)?;
    if filled < bytes.len() {
        return Ok(());
    }
    Err(Denial::from(AllocError))
}

/// The bytes of an open file. There is room for all of them at once: a Vec that grows as it is read has up to twice the
/// file's size.
fn bytes_in<C: FileCalls>(
    calls: &mut C,
    file: &mut C::File,
    alloc: Global,
) -> Result<Vec<u8>, Denial>
    ensures { WhereFilesStay C.sound C.tree calls.old calls.new
        (λ tree. ReadsOpened tree (C.File.opened file.old) result) }
{
    let size = calls.fstat(file)?.len as usize;
    let mut bytes = Vec::new(alloc);
    let mut filled = 0;
    for _ in 0..u64::MAX {
        make_room(&mut bytes, filled, size.saturating_add(1))?;
        let got = read_some(calls, file, &mut bytes[filled..])?;
        match got {
            Some(count) => {
                if count == 0 {
                    bytes.truncate(filled);
                    return Ok(bytes);
                }
                filled += count;
            }
            None => {}
        }
    }
    Err(file.denied(io::Error::from(ErrorKind::ResourceBusy)))
}

/// The size of a small open file, which is known, and its ends.
fn small_edges<C: FileCalls>(
    calls: &mut C,
    file: &mut C::File,
    size: usize,
) -> Result<Edges, Denial>
    requires { size < 5 }
    ensures { WhereFilesStay C.sound C.tree calls.old calls.new
        (λ tree. MeasuresOpened tree (C.File.opened file.old) size result) }
{
    let mut buf = [0u8; 4];
    let front = &mut buf[..size];
    fill_whole(calls, file, front)?;
    Ok(edges_of(front))
}

/// The size of an open file, which is known, and its ends.
fn edges_in<C: FileCalls>(calls: &mut C, file: &mut C::File, size: u64) -> Result<Edges, Denial>
    ensures { WhereFilesStay C.sound C.tree calls.old calls.new
        (λ tree. MeasuresOpened tree (C.File.opened file.old) size result) }
{
    if size < 5 {
        return small_edges(calls, file, size as usize);
    }
    let mut head = [0u8; 5];
    let mut tail = [0u8; 2];
    fill_whole(calls, file, &mut head)?;
    calls.seek(file, size - 2)?;
    fill_whole(calls, file, &mut tail)?;
    Ok(Edges { size, head, tail })
}

/// Puts the bytes of an open file from `start` on at the front of a buffer, and returns how many.
fn piece_in<C: FileCalls>(
    calls: &mut C,
    file: &mut C::File,
    start: u64,
    buf: &mut [u8],
) -> Result<usize, Denial>
    ensures within { IfOk result (λ count. count ≤ length buf.new) }
    ensures reads { WhereFilesStay C.sound C.tree calls.old calls.new
        (λ tree. ReadsPieceOpened tree (C.File.opened file.old) start result buf.new) }
{
    let there = calls.fstat(file)?.len.saturating_sub(start);
    let count = there.min(buf.len() as u64) as usize;
    if count > 0 {
        calls.seek(file, start)?;
        fill_whole(calls, file, &mut buf[..count])?;
    }
    Ok(count)
}

/// The bytes of the file of a name.
pub fn read_all<C: FileCalls>(
    calls: &mut C,
    paths: &HostPaths<'_>,
    name: &str,
) -> Result<Vec<u8>, Denial>
    ensures { WhereFilesStay C.sound C.tree calls.old calls.new
        (λ tree. ReadsFile tree.directory (path_named paths.now name.now) (answered result) tree.directory) }
{
    let mut file = open_regular(calls, paths, name, Access::Read)?;
    bytes_in(calls, &mut file, paths.alloc)
}

/// The size of the file of a name, which may be watched, and its ends.
pub fn read_edges<C: FileCalls>(
    calls: &mut C,
    paths: &HostPaths<'_>,
    watch: &mut Watch,
    name: &str,
) -> Result<Edges, Denial>
    ensures watches { ReadsWatched C.File.told watch.old result watch.new }
    ensures measures { WhereFilesStay C.sound C.tree calls.old calls.new
        (λ tree. MeasuresFile tree.directory (path_named paths.now name.now) (answered result) tree.directory) }
{
    let mut file = open_regular(calls, paths, name, Access::Read)?;
    let found = calls.fstat(&file)?;
    watch.check(paths, name, &found)?;
    edges_in(calls, &mut file, found.len)
}

/// Puts the bytes of the file of a name from `start` on at the front of a buffer, and returns how many.
pub fn read_piece<C: FileCalls>(
    calls: &mut C,
    paths: &HostPaths<'_>,
    name: &str,
    start: u64,
    buf: &mut [u8],
) -> Result<usize, Denial>
    ensures within { IfOk result (λ count. count ≤ length buf.new) }
    ensures reads { WhereFilesStay C.sound C.tree calls.old calls.new
        (λ tree. ReadsPiece tree.directory (path_named paths.now name.now) start (answered result) buf.new
        tree.directory) }
{
    let mut file = open_regular(calls, paths, name, Access::Read)?;
    piece_in(calls, &mut file, start, buf)
}

/// The size of the file of a name.
pub fn measure<C: FileCalls>(
    calls: &mut C,
    paths: &HostPaths<'_>,
    name: &str,
) -> Result<u64, Denial>
    ensures { WhereFilesStay C.sound C.tree calls.old calls.new
        (λ tree. TellsFileSize tree.directory (path_named paths.now name.now) (answered result) tree.directory) }
{
    let path = paths.path_of(name)?;
    let found = calls.stat(path.as_str())?;
    match found.kind {
        FileKind::File => Ok(found.len),
        _ => Err(paths.refusal(name, IRREGULAR)),
    }
}
