//! Maildirs in folders.

use std::fs;
use std::rt::Files;
use std::test::Fail;

/// Makes a folder in a folder.
fn make_within(rt: &(impl Files + AllocGlobal), path: &str, name: &str) -> Result<(), Fail> {
    let at = format!(in rt.alloc(); "{path}/{name}")?;
    fs::create_dir(rt, at.as_str())?;
    Ok(())
}

/// An empty Maildir in a folder of the test's own.
pub fn make_maildir(rt: &(impl Files + AllocGlobal), path: &str) -> Result<(), Fail> {
    let _ = fs::remove_dir_all(rt, path);
    fs::create_dir(rt, path)?;
    for name in ["tmp", "new", "cur"] {
        make_within(rt, path, name)?;
    }
    Ok(())
}
