//! A user's name.
use file_reading::ReadFile;
use std::alloc::{AllocError, Global};
use std::str;

/// Where the names are.
const ACCOUNTS: &str = "/etc/passwd";

/// How much of it is read.
const ACCOUNTS_ROOM: u64 = 1_048_576;

/// The name in a line of an account, if it is that of the user with this number in decimal.
fn name_in<'a>(line: &'a str, number: &str) -> Option<&'a str> {
    let (name, rest) = line.split_once(':')?;
    let (_, rest) = rest.split_once(':')?;
    let (user, _) = rest.split_once(':')?;
    if user == number { Some(name) } else { None }
}

/// The name of the user with this number, if it has an account there.
pub(crate) fn name_of<S: ReadFile>(
    alloc: Global,
    files: &S,
    owner: u32,
) -> Result<Option<String>, AllocError> {
    let number = format!(in alloc; "{owner}")?;
    let Ok(octets) = files.read(ACCOUNTS, ACCOUNTS_ROOM) else {
        return Ok(None);
    };
    let Ok(text) = str::from_utf8(octets.as_slice()) else {
        return Ok(None);
    };
    for line in text.lines() {
        if let Some(name) = name_in(line, number.as_str()) {
            return Ok(Some(String::from_str(alloc, name)?));
        }
    }
    Ok(None)
}
