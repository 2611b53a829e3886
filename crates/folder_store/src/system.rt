//! What the devices of the file system share: the parts of a path, and what a flush or an open file answers.

ghost use Rattle.std.specs.{IoError.error_kind, Path.path_join, Prelude.{◌≡◌, IfErr, IfOk, string_bytes}};
ghost use Rattle.system_calls.specs.Denials.{IsAbout};
ghost use Rattle.folder_store.specs.{
  Calls.flushes_none,
  HostAnswers.{TellsFlush, TellsOpened},
  HostPaths.ArePartsOf,
};

use std::alloc::{AllocError, Global};
use std::fs::OpenFile;
use std::io::ErrorKind;
use std::path::PathBuf;
use std::rt::Files;
use std::{fs, io};
use system_calls::{Denial, OpenAt, System};

/// How many links the system follows in a path, at most.
const MOST_LINKS: u32 = 40;

/// An open file isn't there any more.
pub fn gone() -> io::Error
    ensures { error_kind result ≡ ErrorKind.StaleNetworkFileHandle }
{
    io::Error::new(
        ErrorKind::StaleNetworkFileHandle,
        "not there any more, although it was opened",
    )
}

/// The answer of a call of an open file or folder, which is shown if it is a refusal. ENOENT is one like any other, and
/// not that nothing is there: a file system in user space may give it of a file that it opened.
pub fn opened_answer<F, T>(file: &OpenAt<F>, call: &str, answer: io::Result<T>) -> Result<T, Denial>
    ensures tells { TellsOpened answer result }
    ensures path { IfErr result (IsAbout (string_bytes file.now.path)) }
{
    match file.asked(call, answer) {
        Err(fault) if fault.kind() == ErrorKind::NotFound => Err(file.denied(gone())),
        answer => answer,
    }
}

/// Flushes the names of a folder to the disk. False if the system flushes no folders, which is no
/// fault.
fn flush_folder<F: OpenFile>(folder: &OpenAt<F>) -> Result<bool, Denial> {
    are_flushed(opened_answer(folder, "fsync", folder.inner.sync_all()))
}

/// Whether a refused call says that the system flushes no folders, if it is fsync(2) of one.
pub fn flushes_none(fault: &Denial) -> bool
    ensures { result ≡ flushes_none (error_kind fault.now.error) }
{
    matches!(
        fault.kind(),
        ErrorKind::InvalidInput | ErrorKind::Unsupported
    )
}

/// Whether names were flushed, by the system's answer.
pub fn are_flushed(answer: Result<(), Denial>) -> Result<bool, Denial>
    ensures { TellsFlush answer result }
{
    match answer {
        Ok(()) => Ok(true),
        Err(fault) if flushes_none(&fault) => Ok(false),
        Err(fault) => Err(fault),
    }
}

/// The folder that holds what a path names, and its name there.
pub fn parts_of(path: &str) -> (&str, &str)
    ensures { ArePartsOf path.now result.0.now result.1.now }
{
    let Some((folder, name)) = path.rsplit_once('/') else {
        return (".", path);
    };
    if folder.is_empty() {
        return ("/", name);
    }
    (folder, name)
}

/// Flushes the names of each folder that holds what a path leads to by way of links: else a loss of power may leave a
/// link to nothing. The path of one that isn't flushed, because the system flushes no folders.
pub fn flush_targets<R: Files + AllocGlobal>(
    system: &System<'_, R>,
    path: String,
) -> Result<Option<String>, Denial> {
    let mut path = path;
    let mut unflushed = None;
    for _ in 0..MOST_LINKS {
        if !system.lstat(path.as_str())?.is_symlink() {
            break;
        }
        path = target_of(system, path.as_str())?;
        let folder = parts_of(path.as_str()).0;
        if !flush_folder(&system.open(folder)?)? {
            unflushed = Some(String::from_str(system.alloc(), folder)?);
        }
    }
    Ok(unflushed)
}

/// The path that a link leads to, absolute or taken from the link's folder.
fn target_of<R: Files + AllocGlobal>(system: &System<'_, R>, link: &str) -> Result<String, Denial> {
    let target = system.asked("readlink", link, fs::read_link(system.rt, link))?;
    let path = joined(system.alloc(), parts_of(link).0, target.as_str())?;
    Ok(path)
}

/// A path that is absolute or taken from a folder.
fn joined(alloc: Global, folder: &str, path: &str) -> Result<String, AllocError>
    ensures { IfOk result (λ whole. string_bytes whole ≡ path_join folder.now path.now) }
{
    let mut whole = PathBuf::from_str(alloc, folder)?;
    whole.push(path)?;
    Ok(whole.into_string())
}
