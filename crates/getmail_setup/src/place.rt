//! The paths of the rc file, the record and the destination.
ghost use Rattle.std.specs.{Prelude.{◌≡◌, Some, IfErr, IfOk, option_map}, String.string_bytes};
ghost use Rattle.getmail_setup.specs.{
  NoSetup.{HasNoPath, home_of},
  Places.{folder_path, joined, rc_path, stands_alone, whole_path},
};

use crate::failure::Failure;
use fetch_rules::full_path;
use std::alloc::{AllocError, Global};
use std::env::{self, Env, VarError};

/// The default folder of the rc file and the record.
const FOLDER: &str = "~/.getmail";

/// The default name of the rc file.
const RC_FILE: &str = "getmailrc";

/// The path of a file of a folder, with one `/` between them.
pub fn joined(alloc: Global, folder: &str, file: &str) -> Result<String, AllocError>
    ensures { IfOk result (λ path. string_bytes path ≡ joined folder.now file.now) }
{
    let mut path = String::from_str(alloc, folder)?;
    if !folder.as_bytes().ends_with(b"/") {
        path.push_str("/")?;
    }
    path.push_str(file)?;
    Ok(path)
}

/// Whether a path begins with `/` or `~/`, so that it isn't looked up in the program's folder.
fn stands_alone(path: &str) -> bool
    ensures { result ≡ stands_alone path.now }
{
    path.as_bytes().starts_with(b"/") || path.as_bytes().starts_with(b"~/")
}

/// The home, by what the environment says of HOME.
fn home_of<'a>(answer: Result<String, VarError>) -> Result<Option<String>, Failure<'a>>
    ensures { result ≡ home_of answer }
{
    match answer {
        Ok(home) => Ok(Some(home)),
        Err(VarError::OutOfMemory) => Err(Failure::NoMemory),
        Err(_) => Ok(None),
    }
}

/// The user's home; none if HOME isn't set or isn't UTF-8.
pub fn home<'a, R: Env + AllocGlobal>(rt: &R) -> Result<Option<String>, Failure<'a>> {
    home_of(env::var(rt, "HOME"))
}

/// A path, with the home in place of a leading `~`.
pub fn whole_path<'a>(alloc: Global, home: Option<&str>, path: &str) -> Result<String, Failure<'a>>
    ensures whole { IfOk result
        (λ whole. whole_path (option_map (λ text. text.now) home.entry) path.now ≡ Some (string_bytes whole)) }
    ensures none { IfErr result (HasNoPath (whole_path (option_map (λ text. text.now) home.entry) path.now)) }
{
    if !path.as_bytes().starts_with(b"~/") {
        return Ok(String::from_str(alloc, path)?);
    }
    match home {
        Some(home) => Ok(full_path(alloc, path, home)?),
        None => Err(Failure::NoHome),
    }
}

/// The folder of the rc file and the record.
pub fn folder<'a>(
    alloc: Global,
    home: Option<&str>,
    given: Option<&str>,
) -> Result<String, Failure<'a>>
    ensures known { IfOk result (λ folder. folder_path (option_map (λ text. text.now) home.entry)
        (option_map (λ text. text.now) given.entry)
        ≡ Some (string_bytes folder)) }
    ensures none { IfErr result (HasNoPath (folder_path (option_map (λ text. text.now) home.entry)
        (option_map (λ text. text.now) given.entry))) }
{
    match given {
        Some(path) => whole_path(alloc, home, path),
        None => whole_path(alloc, home, FOLDER),
    }
}

/// The rc file's path: in the folder, unless it begins with `/` or `~/`.
pub fn rc_file<'a>(
    alloc: Global,
    home: Option<&str>,
    folder: &str,
    given: Option<&str>,
) -> Result<String, Failure<'a>>
    ensures known { IfOk result (λ path. rc_path (option_map (λ text. text.now) home.entry) folder.now
        (option_map (λ text. text.now) given.entry)
        ≡ Some (string_bytes path)) }
    ensures none { IfErr result (HasNoPath (rc_path (option_map (λ text. text.now) home.entry) folder.now
        (option_map (λ text. text.now) given.entry))) }
{
    match given {
        None => Ok(joined(alloc, folder, RC_FILE)?),
        Some(path) if stands_alone(path) => whole_path(alloc, home, path),
        Some(path) => Ok(joined(alloc, folder, path)?),
    }
}
