//! What a loss of power, and a refused call, leave of a file system in memory.

use folder_store::{Access, FileCalls, MadeHandle};
use std::alloc::Global;
use std::io;
use std::test::Fail;
use system_calls::Denial;
use test_devices::{CallFuse, Left, MemoryCalls};

/// Makes a file of some octets and puts it in the place of another. If wanted, the octets are flushed before, and the
/// name afterwards.
fn put(calls: &mut MemoryCalls, octets: &[u8], flushes: bool) -> Result<(), Denial> {
    let mut file = calls.create("folder/made")?;
    file.write(octets)?;
    if flushes {
        file.fsync()?;
    }
    calls.rename(&file, "folder/kept")?;
    if flushes {
        let folder = calls.open("folder", Access::Read)?;
        calls.fsync_folder(&folder)?;
    }
    Ok(())
}

/// A file system with a file that was flushed.
fn calls_of_one(alloc: Global) -> Result<MemoryCalls, Fail> {
    let mut calls = MemoryCalls::new(alloc, String::from_str(alloc, "folder")?);
    done(put(&mut calls, b"old", true))?;
    Ok(calls)
}

/// The answer of a call that has to be granted.
fn done<T: Drop>(answer: Result<T, Denial>) -> io::Result<T> {
    match answer {
        Ok(value) => Ok(value),
        Err(denial) => Err(denial.error()),
    }
}

/// Whether the file has these octets.
fn has(calls: &mut MemoryCalls, octets: &[u8]) -> Result<bool, Denial> {
    let mut file = calls.open("folder/kept", Access::Read)?;
    let mut buf = [0; 8];
    let count = calls.read(&mut file, &mut buf)?;
    Ok(&buf[..count] == octets)
}

/// What a loss of power leaves of a file that is put in the place of the first one: whether it is the new one.
fn is_new(alloc: Global, flushes: bool, left: Left) -> Result<bool, Fail> {
    let mut calls = calls_of_one(alloc)?;
    done(put(&mut calls, b"newer", flushes))?;
    calls.lose_power(&[left])?;
    Ok(done(has(&mut calls, b"newer"))?)
}

#[test]
fn flushes_of_calls_make_durable(rt: HostRuntime) -> Result<(), Fail> {
    for left in [Left::Flushed, Left::Front(0), Left::Zeros(0), Left::Older] {
        assert!(rt; is_new(rt.alloc(), true, left)?);
        assert!(rt; !is_new(rt.alloc(), false, left)?);
    }
    Ok(())
}

/// Whether `put` is refused by these fuses, and whether the file is the old one then.
fn is_refused(alloc: Global, fuse: CallFuse, made_fuse: CallFuse) -> Result<(bool, bool), Fail> {
    let mut calls = calls_of_one(alloc)?;
    calls.refuse(fuse, made_fuse);
    let refused = put(&mut calls, b"newer", true).is_err();
    calls.refuse(CallFuse::Whole, CallFuse::Whole);
    let is_old = done(has(&mut calls, b"old"))?;
    Ok((refused, is_old))
}

#[test]
fn each_call_can_be_refused(rt: HostRuntime) -> Result<(), Fail> {
    // create, rename, open, fsync of the folder
    for passes in 0..5 {
        let found = is_refused(rt.alloc(), CallFuse::Refuses(passes), CallFuse::Whole)?;
        assert!(rt; found == (passes < 4, passes < 2), "after {passes} calls");
        let found = is_refused(rt.alloc(), CallFuse::Interrupts(passes), CallFuse::Whole)?;
        assert!(rt; found == (passes < 4, passes < 2), "after {passes} calls");
    }
    // write, fsync
    for passes in 0..3 {
        let found = is_refused(rt.alloc(), CallFuse::Whole, CallFuse::Refuses(passes))?;
        assert!(rt;
            found == (passes < 2, passes < 2),
            "after {passes} calls on the file"
        );
    }
    Ok(())
}
