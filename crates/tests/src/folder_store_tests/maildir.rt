//! A Maildir in folders, asked for what no program asks of it.

use crate::support::{listing_of, stem_of};
use folder_store::{FolderMaildir, MailFolders};
use mail_store::{Asked, Folder, MaildirDisk, StoreFault, account_id};
use std::test::Fail;
use test_devices::MemoryFolders;

#[test]
fn names_no_file_of_another_folder(rt: HostRuntime) -> Result<(), Fail> {
    let alloc = rt.alloc();
    let mut disk = FolderMaildir::over(alloc, MemoryFolders::new(alloc, Vec::new(alloc)));
    assert_eq!(rt; disk.begin("sub/one"), Err(StoreFault::Refused));
    disk.begin("one")?;
    assert_eq!(rt; disk.settle("sub/one"), Err(StoreFault::Refused));
    assert_eq!(rt; disk.failures(), 2);
    Ok(())
}

#[test]
fn folders_that_are_there_are_found(rt: HostRuntime) -> Result<(), Fail> {
    let alloc = rt.alloc();
    let mut disk = FolderMaildir::over(alloc, MemoryFolders::new(alloc, Vec::new(alloc)));
    disk.check(Folder::New)?;
    disk.check(Folder::Cur)?;
    Ok(())
}

#[test]
fn what_cant_be_opened_is_no_file(rt: HostRuntime) -> Result<(), Fail> {
    let alloc = rt.alloc();
    let account = account_id("server", 110, "user");
    let listing = listing_of(alloc, &[("file", 1), ("odd", 1), ("other", 1)])?;
    let file = stem_of(alloc, &account, "file")?;
    let odd = stem_of(alloc, &account, "odd")?;
    let mut folders = MemoryFolders::new(alloc, Vec::new(alloc));
    let made = folders.make("file")?;
    folders.put(made, file.as_str())?;
    folders.obstruct(odd.as_str())?;
    folders.obstruct(file.as_str())?;
    let mut disk = FolderMaildir::over(alloc, folders);
    let names = disk.names_among(Asked {
        account: &account,
        listing: &listing,
        flags: &[false, true, true],
    })?;
    assert!(rt; names.is_empty() && disk.odd().iter().all(|name| name.as_str() == odd.as_str()));
    assert_eq!(rt; disk.odd().len(), 2);
    let names = disk.names_among(Asked {
        account: &account,
        listing: &listing,
        flags: &[true, false, true],
    })?;
    assert_eq!(rt; (names.len(), disk.odd().len()), (1, 1));
    Ok(())
}
