//! Tests of `folder_drop`.

use folder_drop::{FilesDrop, Folder, MemoryFiles};
use pop3_server::{DropFault, Maildrop};
use std::hash::RandomState;
use std::process::Abort;
use std::test::Fail;

/// Lists the message of a maildrop, and reads it, whole and in parts.
fn read_message(rt: &impl Abort, maildrop: &mut FilesDrop<MemoryFiles<'_>>) -> Result<(), Fail> {
    let entries = maildrop.entries()?;
    let [entry] = entries.as_slice() else {
        return Err(Fail::new("one message"));
    };
    assert!(rt; entry.uid() == b"a".as_slice());
    assert_eq!(rt; entry.size(), 10);
    let text = maildrop.text(0)?;
    assert!(rt; text.as_slice() == b"one\ntwo\n".as_slice());
    let mut piece = [0; 3];
    for (start, part) in [
        (4, b"two".as_slice()),
        (7, b"\n".as_slice()),
        (8, b"".as_slice()),
    ] {
        let count = maildrop.part(0, start, &mut piece)?;
        assert!(rt; &piece[..count] == part);
    }
    Ok(())
}

/// The ids that a maildrop lists, in order.
fn check_ids(
    rt: &impl Abort,
    maildrop: &mut FilesDrop<MemoryFiles<'_>>,
    ids: &[&[u8]],
) -> Result<(), Fail> {
    let entries = maildrop.entries()?;
    assert_eq!(rt; entries.len(), ids.len());
    let mut pairs = entries.iter().zip(ids);
    assert!(rt; pairs.all(|(entry, id)| entry.uid() == *id));
    Ok(())
}

/// What is assumed of the calls for a Maildir can hold of calls that are granted.
#[test]
fn a_maildir_in_memory_is_served(rt: HostRuntime) -> Result<(), Fail> {
    let mut files = MemoryFiles::new(rt.alloc(), RandomState::new(&rt)?);
    files.put(Folder::New, "a:2,S", b"one\ntwo\n")?;
    let mut first = FilesDrop::over(files);
    read_message(&rt, &mut first)?;
    let mut maildrop = first.renewed();
    read_message(&rt, &mut maildrop)?;
    maildrop.remove(0)?;
    assert!(rt; maildrop.text(0).is_err());
    assert!(rt; maildrop.entries().err() == Some(DropFault::Refused));
    assert_eq!(rt; maildrop.removals(), 1);
    let mut last = maildrop.renewed();
    assert!(rt; last.entries()?.is_empty());
    Ok(())
}

/// Files are in the order of their bases, and what is no regular file is none.
#[test]
fn files_in_memory_are_in_order(rt: HostRuntime) -> Result<(), Fail> {
    let mut files = MemoryFiles::new(rt.alloc(), RandomState::new(&rt)?);
    files.put(Folder::New, "b", b"one")?;
    files.put(Folder::New, "a.b", b"two")?;
    files.put(Folder::Cur, "a:2,S", b"three")?;
    files.put_other(Folder::Cur, "a-")?;
    assert!(rt; files.put(Folder::New, "b", b"four").is_err());
    assert!(rt; files.put(Folder::New, ".c", b"four").is_err());
    files.rename((Folder::New, "b"), (Folder::Cur, "c:2,"))?;
    assert!(rt; files.take((Folder::New, "b")).is_err());
    let mut maildrop = FilesDrop::over(files);
    check_ids(&rt, &mut maildrop, &[b"a".as_slice(), b"a.b", b"c"])
}

/// A message goes with all names of its file and with its copies. Its listing is valid until then, and no longer.
#[test]
fn a_message_in_memory_goes_with_its_copies(rt: HostRuntime) -> Result<(), Fail> {
    let mut files = MemoryFiles::new(rt.alloc(), RandomState::new(&rt)?);
    files.put(Folder::New, "a", b"one")?;
    files.link((Folder::New, "a"), (Folder::Cur, "a:2,S"))?;
    files.put(Folder::Cur, "a:2,F", b"one")?;
    files.put(Folder::New, "b", b"two")?;
    files.rest(3);
    let mut first = FilesDrop::over(files);
    check_ids(&rt, &mut first, &[b"a".as_slice(), b"b"])?;
    let mut next = first.renewed();
    check_ids(&rt, &mut next, &[b"a".as_slice(), b"b"])?;
    next.remove(0)?;
    let mut last = next.renewed();
    check_ids(&rt, &mut last, &[b"b".as_slice()])
}

/// Of two messages with one base neither goes, and both are told.
#[test]
fn two_messages_in_memory_stay(rt: HostRuntime) -> Result<(), Fail> {
    let mut files = MemoryFiles::new(rt.alloc(), RandomState::new(&rt)?);
    files.put(Folder::New, "a", b"one")?;
    files.put(Folder::Cur, "a:2,S", b"two")?;
    let mut maildrop = FilesDrop::over(files);
    check_ids(&rt, &mut maildrop, &[b"a".as_slice()])?;
    assert!(rt; maildrop.remove(0).err() == Some(DropFault::Refused));
    assert_eq!(rt; maildrop.not_removed().len(), 1);
    let mut last = maildrop.renewed();
    check_ids(&rt, &mut last, &[b"a".as_slice()])
}
