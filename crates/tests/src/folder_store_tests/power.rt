//! What a loss of power leaves of folders in memory, and of what the devices over them did.

use crate::support::{listing_of, stem_of};
use folder_store::{Appending, FileFolder, FolderMaildir, HostFile, MailFolders};
use mail_store::{Asked, FlatFile, Folder, MaildirDisk, StoreFault, account_id};
use std::alloc::Global;
use std::test::Fail;
use test_devices::{Left, MailLeft, MemoryFolder, MemoryFolders, ReaderStep};

const WAYS: [Left; 5] = [
    Left::All,
    Left::Flushed,
    Left::Front(0),
    Left::Zeros(0),
    Left::Older,
];

/// What a reader does who moves the file to `cur` before the call of this number.
fn moved_before(alloc: Global, number: usize) -> Result<Vec<ReaderStep>, Fail> {
    let mut steps = Vec::from_elem(alloc, ReaderStep::Rest, number)?;
    steps.push(ReaderStep::ToCur(0))?;
    Ok(steps)
}

/// How many names a Maildir of one file in `cur` tells, and whether it stays, if a reader does this
/// before the call of this number.
fn told_of_one(alloc: Global, number: usize, step: ReaderStep) -> Result<(usize, bool), Fail> {
    let mut steps = moved_before(alloc, 3)?;
    for _ in 0..number {
        steps.push(ReaderStep::Rest)?;
    }
    steps.push(step)?;
    let account = account_id("server", 110, "user");
    let listing = listing_of(alloc, &[("one", 1)])?;
    let mut folders = MemoryFolders::new(alloc, steps);
    let file = folders.make("one")?;
    folders.put(file, stem_of(alloc, &account, "one")?.as_str())?;
    folders.rests(Folder::New, 0)?;
    folders.rests(Folder::New, 0)?;
    let mut disk = FolderMaildir::over(alloc, folders);
    let names = disk.names_among(Asked {
        account: &account,
        listing: &listing,
        flags: &[true],
    })?;
    let mut folders = disk.into_folders();
    folders.lose_power(&[MailLeft::Gone])?;
    Ok((names.len(), folders.content_at(0).is_some()))
}

#[test]
fn names_are_told_once_and_stay(rt: HostRuntime) -> Result<(), Fail> {
    for number in 0..12 {
        let (count, stays) = told_of_one(rt.alloc(), number, ReaderStep::ToNew(0))?;
        assert!(rt; count == 1 && stays, "moved before call {number}");
    }
    Ok(())
}

#[test]
fn names_are_told_until_their_files_are_taken_away(rt: HostRuntime) -> Result<(), Fail> {
    // The second call lists `cur`.
    for number in 0..8 {
        let (count, _) = told_of_one(rt.alloc(), number, ReaderStep::Away(0))?;
        assert_eq!(rt;
            count,
            usize::from(number > 1),
            "taken before call {number}"
        );
    }
    Ok(())
}

/// The folder of a file that was replaced and appended to.
fn folder_of_one<F: FileFolder + Drop>(folder: F, appending: Appending) -> Result<F, Fail> {
    let mut file = HostFile::over(folder, "kept", appending);
    file.replace(b"abc")?;
    file.append(b"defgh")?;
    Ok(file.into_folder())
}

/// Whether a folder has all of that file, and no other one.
fn has_one<F: FileFolder + Drop>(mut folder: F) -> Result<bool, Fail> {
    let whole = folder.read("kept")?.as_slice() == b"abcdefgh".as_slice();
    Ok(whole && folder.read("other") == Err(StoreFault::Missing))
}

/// Whether a loss of power leaves all of that file.
fn is_durable(alloc: Global, appending: Appending, left: Left) -> Result<bool, Fail> {
    let mut folder = folder_of_one(MemoryFolder::new(alloc), appending)?;
    folder.lose_power(&[left])?;
    has_one(folder)
}

#[test]
fn what_is_flushed_is_durable(rt: HostRuntime) -> Result<(), Fail> {
    for appending in [Appending::AtOnce, Appending::ByBlocks] {
        for left in WAYS {
            assert!(rt; is_durable(rt.alloc(), appending, left)?);
        }
    }
    Ok(())
}
