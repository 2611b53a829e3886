//! What changes a folder's files and makes them durable, by handles that may be kept.

ghost use Rattle.std.specs.Prelude.{◌≡◌, ◌-◌, ◌≤◌, None, Ok, IfOk, IfSome, OnOk, length, string_bytes, true};
ghost use Rattle.folder_store.specs.{
  Calls.{AppendsOpened, AppendsSome, Creates, FlushesFolder, OpensRegular, Renames, Syncs, SyncsNames},
  Calls.{Truncates, answered},
  FileFolder.{AppendsTo, CutsTo, FlushesFile, TellsFileSize},
  Handles.{FlushesTargets, KeepsHandle, NotesFolder},
  HostPaths.{folder_of, path_named},
  Kept.{IsAsTold, KeptHolds, MeasuresKept, OpensNames},
  Sound.{WhereFilesSound, WhereFilesStay},
  Watch.{AppendsWatched, ChecksWatched, CutsWatched, NotesWatched},
};

use crate::calls::{Access, FileCalls, OpenHandle};
use crate::handles::{Changed, Handles, Names};
use crate::host_paths::HostPaths;
use crate::new_file::no_octet;
use crate::opened_file::{measure, open_regular};
use crate::system::{are_flushed, flushes_none, gone};
use crate::watch::{CHANGED, Watch};
use std::io::{self, ErrorKind};
use system_calls::Denial;

/// Makes a file to be put under a name.
pub fn make_marked<C: FileCalls>(
    calls: &mut C,
    paths: &HostPaths<'_>,
    name: &str,
) -> Result<C::Made, Denial>
    ensures { WhereFilesStay C.sound C.tree calls.old calls.new
        (λ tree. IfOk result C.Made.sound → Creates C.Made.made tree.directory.can_make result) }
{
    let path = paths.made_path(name)?;
    calls.create(path.as_str())
}

/// Puts a file that was made under a name.
fn rename_made<C: FileCalls>(
    calls: &mut C,
    paths: &HostPaths<'_>,
    file: &C::Made,
    name: &str,
) -> Result<(), Denial>
    ensures { WhereFilesSound C.sound C.tree calls.old calls.new
        (λ old new. Renames (C.Made.sound file.now) old (C.Made.made file.now) (path_named paths.now name.now)
        result new) }
{
    let path = paths.path_of(name)?;
    calls.rename(file, path.as_str())
}

/// The same. If that is refused, the file is given up.
pub fn put_made<C: FileCalls>(
    calls: &mut C,
    paths: &HostPaths<'_>,
    file: &C::Made,
    name: &str,
) -> Result<(), Denial>
    ensures { WhereFilesSound C.sound C.tree calls.old calls.new
        (λ old new. Renames (C.Made.sound file.now) old (C.Made.made file.now) (path_named paths.now name.now)
        result new) }
{
    match rename_made(calls, paths, file, name) {
        Ok(()) => Ok(()),
        Err(fault) => {
            let _ = calls.unlink(file);
            Err(fault)
        }
    }
}

/// The handle kept from the file's last change, or a new one.
fn handle_of<C: FileCalls>(
    calls: &mut C,
    paths: &HostPaths<'_>,
    handles: &mut Handles<C::File>,
    name: &str,
) -> Result<Changed<C::File>, Denial>
    requires { KeptHolds C.FileCalls C.File.OpenHandle calls.old (folder_of paths.now) handles.old }
    ensures opens { WhereFilesStay C.sound C.tree calls.old calls.new
        (λ tree. OpensRegular (λ c. C.File.opened c.file) tree (path_named paths.now name.now) result) }
    ensures named { IfOk result (λ c. string_bytes c.name ≡ name.now) }
    ensures keeps { (c : Changed C.File) → KeepsHandle handles.old name.now c → result ≡ Ok c }
    ensures others { handles.new ≡ record handles.old { changed = None } }
{
    if let Some(changed) = handles.take_kept(name) {
        return Ok(changed);
    }
    let title = String::from_str(paths.alloc, name)?;
    let file = open_regular(calls, paths, name, Access::Append)?;
    Ok(Changed { file, name: title })
}

/// The size of a file by the handle that is kept, which also tells whether the file was removed meanwhile: nothing is
/// written to one that has no name any more. That is a refusal: something else may have the name by now.
fn measure_kept<C: FileCalls>(
    calls: &mut C,
    paths: &HostPaths<'_>,
    handles: &mut Handles<C::File>,
    name: &str,
) -> Result<u64, Denial>
    requires { KeptHolds C.FileCalls C.File.OpenHandle calls.old (folder_of paths.now) handles.old }
    ensures tells { WhereFilesStay C.sound C.tree calls.old calls.new
        (λ tree. TellsFileSize tree.directory (path_named paths.now name.now) (answered result) tree.directory) }
    ensures asks { MeasuresKept C.File.told handles.old name.now result handles.new }
    ensures kept { KeptHolds C.FileCalls C.File.OpenHandle calls.new (folder_of paths.now) handles.new }
{
    let changed = handle_of(calls, paths, handles, name)?;
    let found = calls.fstat(&changed.file)?;
    if found.links == 0 {
        return Err(changed.file.denied(gone()));
    }
    handles.keep(changed);
    Ok(found.len)
}

/// The size of the file of a name.
pub fn size_of<C: FileCalls>(
    calls: &mut C,
    paths: &HostPaths<'_>,
    handles: &mut Handles<C::File>,
    name: &str,
) -> Result<u64, Denial>
    requires { KeptHolds C.FileCalls C.File.OpenHandle calls.old (folder_of paths.now) handles.old }
    ensures tells { WhereFilesStay C.sound C.tree calls.old calls.new
        (λ tree. TellsFileSize tree.directory (path_named paths.now name.now) (answered result) tree.directory) }
    ensures asks { handles.old.keeps_handle ≡ true
        → MeasuresKept C.File.told handles.old name.now result handles.new }
    ensures kept { KeptHolds C.FileCalls C.File.OpenHandle calls.new (folder_of paths.now) handles.new }
{
    if handles.keeps_handle {
        return measure_kept(calls, paths, handles, name);
    }
    measure(calls, paths, name)
}

/// Writes some octets behind those of an open file, and returns how many; None if the call was interrupted.
fn append_some<C: FileCalls>(
    calls: &mut C,
    file: &mut C::File,
    bytes: &[u8],
) -> Result<Option<usize>, Denial>
    ensures within { IfOk result (λ wrote. IfSome wrote (λ n. n ≤ length bytes.now)) }
    ensures appends { WhereFilesSound C.sound C.tree calls.old calls.new
        (λ old new. (C.File.opened file.new ≡ C.File.opened file.old)
        × AppendsSome old (C.File.opened file.old) bytes.now result new) }
{
    match calls.write(file, bytes) {
        Ok(count) => {
            if count == 0 && !bytes.is_empty() {
                return Err(file.denied(no_octet()));
            }
            Ok(Some(count))
        }
        Err(fault) => {
            if fault.kind() == ErrorKind::Interrupted {
                return Ok(None);
            }
            Err(fault)
        }
    }
}

/// Writes octets behind those of an open file, and returns how many of them were taken, and what refused the others.
fn append_counted<C: FileCalls>(
    calls: &mut C,
    file: &mut C::File,
    bytes: &[u8],
) -> (u64, Result<(), Denial>)
    ensures appends { WhereFilesSound C.sound C.tree calls.old calls.new
        (λ old new. (C.File.opened file.new ≡ C.File.opened file.old)
        × AppendsOpened old (C.File.opened file.old) bytes.now result.1 new) }
    ensures counts { OnOk result.1 (result.0 ≡ length bytes.now) }
{
    let mut rest = bytes;
    for _ in 0..u64::MAX {
        if rest.is_empty() {
            return (bytes.len() as u64, Ok(()));
        }
        let wrote = match append_some(calls, file, rest) {
            Ok(wrote) => wrote,
            Err(fault) => return (taken(bytes, rest), Err(fault)),
        };
        match wrote {
            Some(count) => {
                rest = &rest[count..];
            }
            None => {}
        }
    }
    let fault = file.denied(io::Error::from(ErrorKind::ResourceBusy));
    (taken(bytes, rest), Err(fault))
}

/// How many of these octets were taken, of which the rest wasn't.
fn taken(bytes: &[u8], rest: &[u8]) -> u64
    ensures { result ≡ length bytes.now - length rest.now }
{
    bytes.len().saturating_sub(rest.len()) as u64
}

/// A watched file must be as it was left.
fn check_watched<C: FileCalls>(
    calls: &mut C,
    paths: &HostPaths<'_>,
    watch: &mut Watch,
    changed: &Changed<C::File>,
) -> Result<(), Denial>
    ensures same { WhereFilesSound C.sound C.tree calls.old calls.new (λ old new. new ≡ old) }
    ensures checks { ChecksWatched (C.File.told changed.now.file) watch.old result watch.new }
{
    if watch.watches() {
        let found = calls.fstat(&changed.file)?;
        watch.check(paths, changed.name.as_str(), &found)?;
    }
    Ok(())
}

/// Takes note of a watched file after a change that added `more` octets to it, or none.
fn note_watched<C: FileCalls>(
    calls: &mut C,
    paths: &HostPaths<'_>,
    watch: &mut Watch,
    changed: &Changed<C::File>,
    more: u64,
) -> Result<(), Denial>
    ensures same { WhereFilesSound C.sound C.tree calls.old calls.new (λ old new. new ≡ old) }
    ensures notes { NotesWatched (C.File.told changed.now.file) watch.old more result watch.new }
{
    if watch.is_set() {
        let found = calls.fstat(&changed.file)?;
        watch.note(paths, changed.name.as_str(), &found, more)?;
    }
    Ok(())
}

/// Appends to an open file, which may be watched. What others append meanwhile isn't taken for a part of it.
fn append_watched<C: FileCalls>(
    calls: &mut C,
    paths: &HostPaths<'_>,
    watch: &mut Watch,
    changed: &mut Changed<C::File>,
    bytes: &[u8],
) -> Result<(), Denial>
    ensures appends { WhereFilesSound C.sound C.tree calls.old calls.new
        (λ old new. (C.File.opened changed.new.file ≡ C.File.opened changed.old.file)
        × (changed.new.name ≡ changed.old.name)
        × AppendsOpened old (C.File.opened changed.old.file) bytes.now result new) }
    ensures watches { AppendsWatched C.File.told watch.old (length bytes.now) result watch.new }
{
    check_watched(calls, paths, watch, changed)?;
    let (count, answer) = append_counted(calls, &mut changed.file, bytes);
    match note_watched(calls, paths, watch, changed, count) {
        Ok(()) => answer,
        Err(fault) => Err(fault),
    }
}

/// Appends to a file.
pub fn append_kept<C: FileCalls>(
    calls: &mut C,
    paths: &HostPaths<'_>,
    handles: &mut Handles<C::File>,
    name: &str,
    bytes: &[u8],
) -> Result<(), Denial>
    requires { KeptHolds C.FileCalls C.File.OpenHandle calls.old (folder_of paths.now) handles.old }
    ensures watches { AppendsWatched C.File.told handles.old.watch (length bytes.now) result handles.new.watch }
    ensures appends { WhereFilesSound C.sound C.tree calls.old calls.new
        (λ old new. AppendsTo old.directory (path_named paths.now name.now) bytes.now (answered result) new.directory) }
    ensures kept { KeptHolds C.FileCalls C.File.OpenHandle calls.new (folder_of paths.now) handles.new }
{
    let mut changed = handle_of(calls, paths, handles, name)?;
    let answer = append_watched(calls, paths, &mut handles.watch, &mut changed, bytes);
    handles.keep(changed);
    answer
}

/// Cuts an open file, which may be watched, to its first octets.
fn cut_watched<C: FileCalls>(
    calls: &mut C,
    paths: &HostPaths<'_>,
    watch: &mut Watch,
    changed: &Changed<C::File>,
    len: u64,
) -> Result<(), Denial>
    ensures cuts { WhereFilesSound C.sound C.tree calls.old calls.new
        (λ old new. Truncates old (C.File.opened changed.now.file) len result new) }
    ensures watches { CutsWatched C.File.told watch.old result watch.new }
{
    let found = calls.fstat(&changed.file)?;
    watch.check(paths, changed.name.as_str(), &found)?;
    if found.len < len {
        return Err(paths.refusal(changed.name.as_str(), CHANGED));
    }
    calls.ftruncate(&changed.file, len)?;
    if !watch.watches() {
        return Ok(());
    }
    watch.leave(&calls.fstat(&changed.file)?);
    Ok(())
}

/// Cuts a file to its first octets.
pub fn cut_kept<C: FileCalls>(
    calls: &mut C,
    paths: &HostPaths<'_>,
    handles: &mut Handles<C::File>,
    name: &str,
    len: u64,
) -> Result<(), Denial>
    requires { KeptHolds C.FileCalls C.File.OpenHandle calls.old (folder_of paths.now) handles.old }
    ensures watches { CutsWatched C.File.told handles.old.watch result handles.new.watch }
    ensures cuts { WhereFilesSound C.sound C.tree calls.old calls.new
        (λ old new. CutsTo old.directory (path_named paths.now name.now) len (answered result) new.directory) }
    ensures kept { KeptHolds C.FileCalls C.File.OpenHandle calls.new (folder_of paths.now) handles.new }
{
    let changed = handle_of(calls, paths, handles, name)?;
    let answer = cut_watched(calls, paths, &mut handles.watch, &changed, len);
    handles.keep(changed);
    answer
}

/// Flushes an open file, which may be watched. Some systems set its time of change only now.
fn flush_watched<C: FileCalls>(
    calls: &mut C,
    paths: &HostPaths<'_>,
    watch: &mut Watch,
    changed: &Changed<C::File>,
) -> Result<(), Denial>
    ensures flushes { WhereFilesSound C.sound C.tree calls.old calls.new
        (λ old new. Syncs old (C.File.opened changed.now.file) result new) }
    ensures watches { NotesWatched (C.File.told changed.now.file) watch.old 0 result watch.new }
{
    match calls.fsync(&changed.file) {
        Ok(()) => note_watched(calls, paths, watch, changed, 0),
        Err(fault) => Err(fault),
    }
}

/// Flushes the folders that hold what a name leads to by way of links: else the file's name may not be durable.
pub fn flush_links<C: FileCalls>(
    calls: &C,
    paths: &HostPaths<'_>,
    handles: &mut Handles<C::File>,
    name: &str,
) -> Result<(), Denial>
    ensures flushes { OnOk result (FlushesTargets (C.flushed_targets calls.now) (path_named paths.now name.now)
        handles.old.unflushed handles.new.unflushed) }
    ensures others { (handles.new.changed ≡ handles.old.changed) × (handles.new.names ≡ handles.old.names) }
{
    let path = paths.path_of(name)?;
    let unflushed = calls.flush_targets(path.as_str())?;
    handles.note_unflushed(unflushed);
    Ok(())
}

/// Flushes the file of a name by a new handle.
fn flush_anew<C: FileCalls>(
    calls: &mut C,
    paths: &HostPaths<'_>,
    handles: &mut Handles<C::File>,
    name: &str,
) -> Result<(), Denial>
    ensures flushes { WhereFilesSound C.sound C.tree calls.old calls.new
        (λ old new. FlushesFile old.directory (path_named paths.now name.now) (answered result) new.directory) }
    ensures links { OnOk result (FlushesTargets (C.flushed_targets calls.new) (path_named paths.now name.now)
        handles.old.unflushed handles.new.unflushed) }
    ensures others { (handles.new.changed ≡ handles.old.changed) × (handles.new.names ≡ handles.old.names) }
{
    let file = open_regular(calls, paths, name, Access::Read)?;
    match calls.fsync(&file) {
        Ok(()) => flush_links(calls, paths, handles, name),
        Err(fault) => Err(fault),
    }
}

/// Flushes a file by the handle that changed it last, if it is open: the system may report a fault to no other. After a
/// fault that handle isn't used again.
pub fn flush_kept<C: FileCalls>(
    calls: &mut C,
    paths: &HostPaths<'_>,
    handles: &mut Handles<C::File>,
    name: &str,
) -> Result<(), Denial>
    requires { KeptHolds C.FileCalls C.File.OpenHandle calls.old (folder_of paths.now) handles.old }
    ensures flushes { WhereFilesSound C.sound C.tree calls.old calls.new
        (λ old new. FlushesFile old.directory (path_named paths.now name.now) (answered result) new.directory) }
    ensures kept { KeptHolds C.FileCalls C.File.OpenHandle calls.new (folder_of paths.now) handles.new }
{
    match handles.take_changed(name) {
        Some(changed) => {
            let answer = flush_watched(calls, paths, &mut handles.watch, &changed);
            handles.keep_flushed(changed, answer.is_ok());
            answer
        }
        None => flush_anew(calls, paths, handles, name),
    }
}

/// The folder itself: it is opened once, and again if its path leads to another one by now, since files are put there
/// by their paths. It is taken out.
fn names_of<C: FileCalls>(
    calls: &mut C,
    paths: &HostPaths<'_>,
    handles: &mut Handles<C::File>,
) -> Result<Names<C::File>, Denial>
    requires { KeptHolds C.FileCalls C.File.OpenHandle calls.old (folder_of paths.now) handles.old }
    ensures opens { WhereFilesStay C.sound C.tree calls.old calls.new
        (λ tree. IfOk result (OpensNames C.File.OpenHandle (C.told_at calls.new (folder_of paths.now)) tree
        (folder_of paths.now) handles.old)) }
    ensures which { IfOk result (IsAsTold C.File.told) }
    ensures others { handles.new ≡ record handles.old { names = None } }
{
    let kept = handles.names.take();
    let path = paths.folder_path()?;
    if let Some(names) = kept {
        let found = calls.stat(path.as_str())?;
        if names.is_of(&found) {
            return Ok(names);
        }
    }
    let folder = calls.open(path.as_str(), Access::Read)?;
    let found = calls.fstat(&folder)?;
    Ok(Names {
        folder,
        device: found.device,
        inode: found.inode,
    })
}

/// fsync(2) of the folder, which stays open unless that is refused. Only that call's own answer says that the system
/// flushes no folders, of which a note is taken.
pub fn sync_names<C: FileCalls>(
    calls: &mut C,
    paths: &HostPaths<'_>,
    handles: &mut Handles<C::File>,
) -> Result<(), Denial>
    requires { KeptHolds C.FileCalls C.File.OpenHandle calls.old (folder_of paths.now) handles.old }
    ensures syncs { WhereFilesSound C.sound C.tree calls.old calls.new
        (λ old new. SyncsNames old (folder_of paths.now) result new) }
    ensures notes { NotesFolder (folder_of paths.now) handles.old result handles.new }
    ensures kept { KeptHolds C.FileCalls C.File.OpenHandle calls.new (folder_of paths.now) handles.new }
{
    let names = match names_of(calls, paths, handles) {
        Ok(names) => names,
        Err(fault) if flushes_none(&fault) => return Err(paths.folder_refusal("can't be opened")),
        Err(fault) => return Err(fault),
    };
    match calls.fsync_folder(&names.folder) {
        Ok(()) => {
            handles.keep_names(names);
            Ok(())
        }
        Err(fault) => {
            if flushes_none(&fault) {
                handles.note_unflushed(Some(paths.folder_path()?));
            }
            Err(fault)
        }
    }
}

/// Flushes the names of a folder. False if its file system flushes no folders.
pub fn flush_names<C: FileCalls>(
    calls: &mut C,
    paths: &HostPaths<'_>,
    handles: &mut Handles<C::File>,
) -> Result<bool, Denial>
    requires { KeptHolds C.FileCalls C.File.OpenHandle calls.old (folder_of paths.now) handles.old }
    ensures flushes { WhereFilesSound C.sound C.tree calls.old calls.new
        (λ old new. FlushesFolder old (folder_of paths.now) result new) }
    ensures kept { KeptHolds C.FileCalls C.File.OpenHandle calls.new (folder_of paths.now) handles.new }
{
    are_flushed(sync_names(calls, paths, handles))
}
