//! The calls of `getmail_program` that need nothing but a link and where to write.

use crate::support::{MESSAGES, SOUND, account, files_of, link, maildrop_of, no_files};
use fetch_rules::Flags;
use getmail_program::{fetch_into, rehearse};
use std::alloc::Global;
use std::test::Fail;

/// What a run of an account with three messages writes.
const REPORT: &[u8] = b"SimplePOP3Retriever:fred@mail.example.org:110:\n\
    msg 1/3 (4 bytes) delivered\nmsg 2/3 (4 bytes) delivered\nmsg 3/3 (6 bytes) delivered\n\
    3 messages (14 bytes) retrieved, 0 skipped, 0 deleted\n";

/// A conversation about one message.
const REPLIES: &[u8] =
    b"+OK hi\r\n+OK\r\n+OK\r\n+OK 1 18\r\n+OK\r\n1 a1\r\n.\r\n+OK\r\n1 18\r\n.\r\n\
    +OK\r\nSubject: a\r\n\r\n..x\r\n.\r\n+OK bye\r\n";

/// What a rehearsal with it writes.
const REHEARSED: &[u8] = b"C: USER u\nC: PASS *\nC: STAT\nC: UIDL\nC: LIST\nC: RETR 1\nC: QUIT\n\
    stored a1 15\nended\n";

/// Runs a session over a link that passes so many calls. Returns the exit status, and what was written to both writers.
fn run(alloc: Global, passes: u64) -> Result<(u8, Vec<u8>, Vec<u8>), Fail> {
    let mut wire = link(alloc, maildrop_of(alloc, &MESSAGES)?, passes)?;
    let mut account = account(alloc, b"", no_files(alloc), SOUND, SOUND)?;
    let (mut out, mut err) = (Vec::new(alloc), Vec::new(alloc));
    let status = fetch_into(alloc, &mut account, &mut wire, 0, &mut out, &mut err);
    let _files = files_of(alloc, account);
    Ok((status, out, err))
}

#[test]
fn fetch_into_writes_the_report(rt: HostRuntime) -> Result<(), Fail> {
    let (status, out, err) = run(rt.alloc(), u64::MAX)?;
    assert!(rt; status == 0 && err.is_empty());
    assert!(rt; out.as_slice() == REPORT);
    Ok(())
}

#[test]
fn fetch_into_tells_what_cut_it(rt: HostRuntime) -> Result<(), Fail> {
    let (status, out, err) = run(rt.alloc(), 0)?;
    assert!(rt; status == 1 && !out.is_empty());
    assert!(rt; err.as_slice() == b"getmail: reading from the server failed\n".as_slice());
    Ok(())
}

#[test]
fn rehearse_shows_commands_and_files(rt: HostRuntime) -> Result<(), Fail> {
    let alloc = rt.alloc();
    let flags = Flags {
        all: false,
        new_only: false,
        delete: false,
        dont_delete: false,
        quiet: false,
        verbose: 0,
    };
    let mut output = Vec::new(alloc);
    let status = rehearse(alloc, flags, REPLIES, &mut output);
    assert!(rt; status == 0);
    assert!(rt; output.as_slice() == REHEARSED);
    Ok(())
}
