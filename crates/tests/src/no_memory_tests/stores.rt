//! A Maildir in memory, which refuses if there is no memory for its own growth.

use crate::no_memory_tests::watched::{begin, end, tell, tell_bytes, tell_no_memory};
use mail_store::{Folder, MemoryMaildir, StoreFault, deliver};
use std::alloc::Global;
use std::test::Fail;

/// Prints a fault.
fn tell_store_fault(rt: &HostRuntime, fault: StoreFault) {
    match fault {
        StoreFault::NoMemory => tell_no_memory(rt),
        StoreFault::Refused => tell(rt, "refused"),
        _ => tell(rt, "another fault"),
    }
}

/// Prints each file of `new`, and whether one is begun.
fn tell_maildir(rt: &HostRuntime, disk: &MemoryMaildir) {
    for (name, content) in disk.files(Folder::New) {
        tell(rt, name.as_str());
        tell_bytes(rt, content);
    }
    tell(
        rt,
        if disk.is_begun() {
            "begun"
        } else {
            "none begun"
        },
    );
}

/// Prints what a call answered that answers no value, and what it left.
fn tell_left(rt: &HostRuntime, answer: Result<(), StoreFault>, disk: &MemoryMaildir) {
    match answer {
        Ok(()) => tell(rt, "done"),
        Err(fault) => tell_store_fault(rt, fault),
    }
    tell_maildir(rt, disk);
}

fn deliver_one(rt: &HostRuntime) {
    let mut disk = MemoryMaildir::new(rt.alloc());
    begin(rt);
    let answer = deliver(rt.alloc(), &mut disk, "one", b"x\n");
    end(rt);
    tell_left(rt, answer, &disk);
}

#[test]
fn deliver_row(rt: HostRuntime) {
    deliver_one(&rt);
    deliver_one(&rt);
}

/// Moves the file `one,S=2`; returns whether it did.
fn move_one(rt: &HostRuntime, disk: &mut MemoryMaildir) -> bool {
    begin(rt);
    let answer = disk.move_to_cur("one,S=2", ":2,S");
    end(rt);
    match answer {
        Ok(moved) => tell(rt, if moved { "moved" } else { "not moved" }),
        Err(_) => tell_no_memory(rt),
    }
    tell_maildir(rt, disk);
    answer.is_ok()
}

fn move_twice(rt: &HostRuntime, disk: &mut MemoryMaildir) {
    tell_maildir(rt, disk);
    if !move_one(rt, disk) {
        move_one(rt, disk);
    }
}

/// A Maildir with the file `one,S=2`.
fn maildir_of_one(alloc: Global) -> Result<MemoryMaildir, StoreFault> {
    let mut disk = MemoryMaildir::new(alloc);
    deliver(alloc, &mut disk, "one", b"x\n")?;
    Ok(disk)
}

#[test]
fn move_to_cur_row(rt: HostRuntime) -> Result<(), Fail> {
    move_twice(&rt, &mut maildir_of_one(rt.alloc())?);
    Ok(())
}
