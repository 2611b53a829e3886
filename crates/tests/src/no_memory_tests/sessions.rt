//! Whole sessions. After one that was cut since memory ran out, a whole one leaves each message once.

use crate::no_memory_tests::watched::{begin, end, tell, tell_bytes, tell_no_memory, tell_text};
use crate::support::{
    Fred, Link, MESSAGES, SOUND, account, fetch, files_of, link, login, maildrop_of, no_files,
};
use fetch_session::{Outcome, Report, Visit, fault_text, run_sessions};
use mail_store::Folder;
use pop3_server::MemoryDrop;
use std::alloc::Global;
use std::test::Fail;

/// Prints how a session ended.
fn tell_outcome(rt: &HostRuntime, report: &Report) {
    match &report.outcome {
        Outcome::Ended => tell(rt, "ended"),
        Outcome::Cut(fault) => tell_text(rt, fault_text(rt.alloc(), fault)),
    }
}

/// Prints the texts that the sessions of an account left.
fn tell_held(rt: &HostRuntime, account: Fred) {
    for (_name, text) in files_of(rt.alloc(), account).maildir.files(Folder::New) {
        tell_bytes(rt, text);
    }
}

/// Runs a session over a server with these messages.
fn fetch_all(rt: &HostRuntime, account: &mut Fred, maildrop: MemoryDrop) {
    let Ok(login) = login(rt.alloc()) else {
        return;
    };
    begin(rt);
    let (report, _) = fetch(rt.alloc(), account, maildrop, login);
    end(rt);
    tell_outcome(rt, &report);
}

#[test]
fn fetch_local_row(rt: HostRuntime) -> Result<(), Fail> {
    let alloc = rt.alloc();
    let first = maildrop_of(alloc, &MESSAGES)?;
    let second = maildrop_of(alloc, &MESSAGES)?;
    let mut account = account(alloc, b"", no_files(alloc), SOUND, SOUND)?;
    fetch_all(&rt, &mut account, first);
    fetch_all(&rt, &mut account, second);
    tell_held(&rt, account);
    Ok(())
}

/// A session over a server with the first message.
fn visit(alloc: Global) -> Result<Visit<Link>, Fail> {
    let maildrop = maildrop_of(alloc, &MESSAGES[..1])?;
    Ok(Visit {
        wire: link(alloc, maildrop, u64::MAX)?,
        now: 0,
    })
}

/// Runs two sessions by one call.
fn run_both(rt: &HostRuntime, account: &mut Fred, visits: &mut [Visit<Link>]) {
    begin(rt);
    let answer = run_sessions(rt.alloc(), account, visits);
    end(rt);
    match answer {
        Ok(reports) => {
            for report in &reports {
                tell_outcome(rt, report);
            }
        }
        Err(_) => tell_no_memory(rt),
    }
}

#[test]
fn run_sessions_row(rt: HostRuntime) -> Result<(), Fail> {
    let alloc = rt.alloc();
    let whole = maildrop_of(alloc, &MESSAGES)?;
    let mut visits = [visit(alloc)?, visit(alloc)?];
    let mut account = account(alloc, b"", no_files(alloc), SOUND, SOUND)?;
    run_both(&rt, &mut account, &mut visits);
    fetch_all(&rt, &mut account, whole);
    tell_held(&rt, account);
    Ok(())
}
