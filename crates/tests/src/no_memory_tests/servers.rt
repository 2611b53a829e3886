//! Whole texts of a maildrop.

use crate::no_memory_tests::watched::{begin, end, tell, tell_bytes, tell_no_memory};
use crate::support::{maildrop_of, make_maildir};
use folder_drop::MaildirDrop;
use pop3_server::{DropFault, Maildrop, MemoryDrop};
use std::fs;
use std::test::Fail;
use system_calls::{Refusals, System};

/// Prints a maildrop's fault.
fn tell_drop_fault(rt: &HostRuntime, fault: DropFault) {
    match fault {
        DropFault::NoMemory => tell_no_memory(rt),
        DropFault::Refused => tell(rt, "refused"),
    }
}

/// Prints the text that `text` answered.
fn tell_mail(rt: &HostRuntime, answer: Result<Vec<u8>, DropFault>) {
    match answer {
        Ok(text) => tell_bytes(rt, &text),
        Err(fault) => tell_drop_fault(rt, fault),
    }
}

fn read_memory(rt: &HostRuntime, maildrop: &mut MemoryDrop) {
    if !maildrop.has_place(0) {
        return;
    }
    begin(rt);
    let answer = maildrop.text(0);
    end(rt);
    tell_mail(rt, answer);
}

#[test]
fn memory_text_row(rt: HostRuntime) -> Result<(), Fail> {
    let mut maildrop = maildrop_of(rt.alloc(), &[("a", "one\n")])?;
    read_memory(&rt, &mut maildrop);
    read_memory(&rt, &mut maildrop);
    Ok(())
}

fn read_folder(rt: &HostRuntime, maildrop: &mut MaildirDrop<'_, HostRuntime>) {
    begin(rt);
    let answer = maildrop.text(0);
    end(rt);
    tell_mail(rt, answer);
}

fn read_twice(rt: &HostRuntime, maildrop: &mut MaildirDrop<'_, HostRuntime>) -> Result<(), Fail> {
    maildrop.entries()?;
    read_folder(rt, maildrop);
    read_folder(rt, maildrop);
    Ok(())
}

/// Reads from the Maildir at a path. A maildrop of a folder is large, and is made where there is one way out.
fn read_at(rt: &HostRuntime, path: String) -> Result<(), Fail> {
    let refusals = Refusals::new(rt.alloc(), None);
    let system = System::new(rt, &refusals);
    read_twice(rt, &mut MaildirDrop::at(&system, path))
}

#[test]
fn folder_text_row(rt: HostRuntime) -> Result<(), Fail> {
    make_maildir(&rt, "mail")?;
    fs::write(&rt, "mail/new/a", b"one\n")?;
    read_at(&rt, String::from_str(rt.alloc(), "mail")?)?;
    Ok(fs::remove_dir_all(&rt, "mail")?)
}
