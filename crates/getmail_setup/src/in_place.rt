//! A list of what getmail6 fetched, in whose place a first run would fetch all mail again.
ghost use Rattle.std.specs.{
  Prelude.{◌≡◌, ◌≢◌, ◌≤◌, ◌<◌, ◌++◌, ◌↔◌, ℕ, Bool, List, ◌∷◌, IfOk, IfSome, IfNone, IsErrAnd, IsOkAnd, IsTrue},
  Prelude.{MatchOption, length, map, option_map},
  Fs.{IsFile, file_type, metadata_len},
  Char.is_ascii_digit,
  List.{AllWithin, suffix_len},
  IoError.error_kind,
  String.string_bytes,
};
ghost use Rattle.getmail_setup.specs.InPlace.{HasNone, IsFolderOf, IsFullList, IsListOf, IsOtherList};
ghost use Rattle.getmail_setup.specs.InPlace.{dash_for, dashed, is_address, is_mark, without_runs};

use crate::place::joined;
use crate::setup::Setup;
use std::alloc::{AllocError, Global};
use std::fs::{self, Metadata};
use std::io::{self, ErrorKind};
use std::rt::Files;

/// Whether getmail6 leaves an octet in no name of a file.
fn is_mark(octet: u8) -> bool
    ensures { result ≡ is_mark octet }
{
    octet == b'/'
        || octet == b'\\'
        || octet == b':'
        || octet == b';'
        || octet == b'<'
        || octet == b'>'
        || octet == b'|'
}

/// Of octets that getmail6 leaves out and that follow one another, the first alone.
fn without_runs(mut text: Vec<u8>) -> Vec<u8>
    ensures { result.items ≡ without_runs text.items }
{
    text.dedup_by(|a, b| is_mark(*a) && is_mark(*b));
    text
}

/// What getmail6 writes for an octet.
fn dash_for(octet: u8) -> u8
    ensures { result ≡ dash_for octet }
{
    if is_mark(octet) { b'-' } else { octet }
}

/// Each octet as getmail6 writes it.
fn with_dashes(alloc: Global, text: &[u8]) -> Result<Vec<u8>, AllocError>
    ensures { IfOk result (λ name. name.items ≡ map dash_for text.now) }
{
    text.iter().map(|octet| dash_for(*octet)).collect(alloc)
}

/// A text as getmail6 has it in the name of a file: each run of such octets is one `-`.
fn dashed(alloc: Global, text: &[u8]) -> Result<Vec<u8>, AllocError>
    ensures { IfOk result (λ name. name.items ≡ dashed text.now) }
{
    let text = without_runs(Vec::from_slice(alloc, text)?);
    with_dashes(alloc, text.as_slice())
}

/// How many digits octets end with.
fn end_digits(octets: &[u8]) -> usize
    ensures count { result ≡ suffix_len is_ascii_digit octets.now }
    ensures within { result ≤ length octets.now }
{
    octets
        .iter()
        .rev()
        .take_while(|octet| octet.is_ascii_digit())
        .count()
}

/// Whether octets are a host, a `-` and a port.
fn is_address(octets: &[u8]) -> bool
    ensures { result ≡ is_address octets.now }
{
    let digits = end_digits(octets);
    let host = &octets[..octets.len() - digits];
    digits > 0 && host.len() > 1 && host.ends_with(b"-")
}

/// What is before an end, if octets end with it.
fn before<'a>(octets: &'a [u8], end: &[u8]) -> Option<&'a [u8]>
    ensures { MatchOption result ((front : List ℕ) → octets.now ≢ front ++ end.now)
        (λ front. octets.now ≡ front.now ++ end.now) }
{
    octets.strip_suffix(end)
}

/// What is after a front, if octets begin with it.
fn after<'a>(octets: &'a [u8], front: &[u8]) -> Option<&'a [u8]>
    ensures { MatchOption result ((rest : List ℕ) → octets.now ≢ front.now ++ rest)
        (λ rest. octets.now ≡ front.now ++ rest.now) }
{
    octets.strip_prefix(front)
}

/// How the name of a list ends: a `-`, and the user's name.
fn end_for(alloc: Global, username: &[u8]) -> Result<Vec<u8>, AllocError>
    ensures { IfOk result (λ end. end.items ≡ 45 ∷ dashed username.now) }
{
    let user = dashed(alloc, username)?;
    let mut end = Vec::from_slice(alloc, b"-".as_slice())?;
    end.extend_from_slice(user.as_slice())?;
    Ok(end)
}

/// Whether a name is that of a list of what getmail6 fetched for a user.
fn is_list_of(alloc: Global, name: &[u8], username: &[u8]) -> Result<bool, AllocError>
    ensures { IfOk result (λ is. IsTrue is ↔ IsListOf name.now username.now) }
{
    let end = end_for(alloc, username)?;
    let Some(rest) = after(name, b"oldmail-") else {
        return Ok(false);
    };
    match before(rest, end.as_slice()) {
        Some(address) => Ok(is_address(address)),
        None => Ok(false),
    }
}

/// One that looks at paths, and lists folders.
pub trait LookAt {
    // It said of a path whether it leads to a file that isn't empty.
    ghost said: { Self → List ℕ → Bool → Type 0 };

    // It said of a path whether nothing is there.
    ghost said_free: { Self → List ℕ → Bool → Type 0 };

    // It gave these names of a folder.
    ghost gave: { Self → List ℕ → List (List ℕ) → Type 0 };

    fn has_octets(&self, path: &str) -> bool
        ensures { said self.now path.now result };

    fn is_free(&self, path: &str) -> bool
        ensures { said_free self.now path.now result };

    fn names(&self, folder: &str) -> Result<Vec<String>, AllocError>
        ensures { IfOk result (λ names. gave self.now folder.now (map string_bytes names.items)) };
}

/// Whether the answer to a look at a path says that nothing is there. Of what can't be looked at it isn't known.
fn says_free<T>(answer: &io::Result<T>) -> bool
    ensures { IsTrue result ↔ IsErrAnd answer.now (λ error. error_kind error ≡ ErrorKind.NotFound) }
{
    match answer {
        Ok(_) => false,
        Err(error) => error.kind() == ErrorKind::NotFound,
    }
}

/// Whether the answer to a look at a path says that a file is there that isn't empty.
fn says_full(answer: &io::Result<Metadata>) -> bool
    ensures { IsTrue result ↔ IsOkAnd answer.now (λ found. IsFile (file_type found) × (0 < metadata_len found)) }
{
    match answer {
        Ok(found) => found.is_file() && found.len() > 0,
        Err(_) => false,
    }
}

/// A machine's files.
#[derive(Drop)]
pub struct OnMachine<'a, R> {
    pub rt: &'a R,
}

impl<'a, R: Files + AllocGlobal + Clone + Drop> LookAt for OnMachine<'a, R> {
    ghost said = { λ _ _ _. Unit {0} };

    ghost said_free = { λ _ _ _. Unit {0} };

    ghost gave = { λ _ _ _. Unit {0} };

    fn has_octets(&self, path: &str) -> bool {
        says_full(&fs::metadata(self.rt, path))
    }

    fn is_free(&self, path: &str) -> bool {
        says_free(&fs::symlink_metadata(self.rt, path))
    }

    /// None if the folder can't be listed.
    fn names(&self, folder: &str) -> Result<Vec<String>, AllocError> {
        let alloc = self.rt.alloc();
        let mut names = Vec::new(alloc);
        let Ok(entries) = fs::read_dir(self.rt, folder) else {
            return Ok(names);
        };
        for entry in entries {
            if let Ok(entry) = entry {
                names.push(String::from_str(alloc, entry.file_name())?)?;
            }
        }
        Ok(names)
    }
}

/// The path of a name of a folder, if it is a list of what getmail6 fetched for a user and isn't empty.
fn list_at<F: LookAt>(
    alloc: Global,
    files: &F,
    folder: &str,
    name: &str,
    username: &str,
) -> Result<Option<String>, AllocError>
    ensures some { IfOk result (λ found. IfSome found (λ path.
        IsFullList (F.said files.now) folder.now username.now (string_bytes path))) }
    ensures none { IfOk result (λ found. IfNone found (HasNone (F.said files.now) folder.now username.now name.now)) }
{
    if !is_list_of(alloc, name.as_bytes(), username.as_bytes())? {
        return Ok(None);
    }
    let path = joined(alloc, folder, name)?;
    if !files.has_octets(path.as_str()) {
        return Ok(None);
    }
    Ok(Some(path))
}

/// The path of the first of some names of a folder that is such a list.
fn list_among<F: LookAt>(
    alloc: Global,
    files: &F,
    folder: &str,
    names: &[String],
    username: &str,
) -> Result<Option<String>, AllocError>
    ensures some { IfOk result (λ found. IfSome found (λ path.
        IsFullList (F.said files.now) folder.now username.now (string_bytes path))) }
    ensures none { IfOk result (λ found. IfNone found (AllWithin (λ name.
        HasNone (F.said files.now) folder.now username.now (string_bytes name)) names.now 0 (length names.now))) }
{
    for name in names {
        if let Some(path) = list_at(alloc, files, folder, name.as_str(), username)? {
            return Ok(Some(path));
        }
    }
    Ok(None)
}

/// The folder that holds what a path names.
fn folder_of(path: &str) -> &str
    ensures { IsFolderOf path.now result.now }
{
    match path.rsplit_once('/') {
        Some((folder, _)) => { if folder.is_empty() { "/" } else { folder } }
        None => ".",
    }
}

/// The path of a list of what getmail6 fetched for the user, if there is one beside where the record would be,
/// there is no record, and only new messages are to be fetched: all of them would count as new.
pub fn other_list<F: LookAt>(
    alloc: Global,
    files: &F,
    setup: &Setup,
) -> Result<Option<String>, AllocError>
    ensures { IfOk result (λ found. IsOtherList (F.said files.now) (F.said_free files.now) (F.gave files.now) setup.now
        (option_map string_bytes found)) }
{
    let record = setup.paths.record.as_str();
    if setup.settings.read_all || !files.is_free(record) {
        return Ok(None);
    }
    let folder = folder_of(record);
    let names = files.names(folder)?;
    let username = setup.settings.username.as_str();
    let found = list_among(alloc, files, folder, names.as_slice(), username)?;
    Ok(found)
}
