//! Sessions that are cut, each at another place, and a whole session after each.

use crate::support::{
    Files, Fred, Fuse, Link, MESSAGES, SOUND, account, fetch, files_of, link, login, maildrop_of,
    no_files,
};
use fetch_session::session;
use mail_store::{Folder, MemoryMaildir};
use pop3_server::MemoryDrop;
use std::alloc::Global;
use std::process::Abort;
use std::test::Fail;

/// Options of accounts: one that fetches what it doesn't hold, one that fetches all each time, and one
/// that deletes what it holds.
const OPTIONS: [&[u8]; 3] = [b"read_all = false\n", b"read_all = true\n", DELETING];

const DELETING: &[u8] = b"read_all = false\ndelete = true\n";

/// No session has more calls of the link or of a device.
const MOST_CALLS: u64 = 30;

/// After how many calls the link refuses, and the devices of an account.
#[derive(Clone, Copy)]
struct Fuses {
    link: u64,
    disk: Fuse,
    record: Fuse,
}

/// What sessions leave at both ends.
#[derive(Drop)]
struct Ends {
    files: Files,
    maildrop: MemoryDrop,
}

/// Runs a session. Its contract is long, so nothing else is in this function.
fn run(account: &mut Fred, wire: &mut Link) {
    let _ = session(account, wire, 0);
}

/// Runs a session in which calls are refused.
fn cut(alloc: Global, options: &[u8], fuses: Fuses) -> Result<Ends, Fail> {
    let mut wire = link(alloc, maildrop_of(alloc, &MESSAGES)?, fuses.link)?;
    let mut account = account(alloc, options, no_files(alloc), fuses.disk, fuses.record)?;
    run(&mut account, &mut wire);
    Ok(Ends {
        files: files_of(alloc, account),
        maildrop: wire.into_inner().into_inner().into_drop(),
    })
}

/// Runs a whole session.
fn complete(alloc: Global, options: &[u8], ends: Ends) -> Result<Ends, Fail> {
    let login = login(alloc)?;
    let mut account = account(alloc, options, ends.files, SOUND, SOUND)?;
    let (_, maildrop) = fetch(alloc, &mut account, ends.maildrop, login);
    Ok(Ends {
        files: files_of(alloc, account),
        maildrop,
    })
}

/// Whether each message is held once.
fn holds_each_once(maildir: &MemoryMaildir) -> bool {
    let files = maildir.files(Folder::New);
    files.len() == 3
        && files[0].1.as_slice() == b"one\n".as_slice()
        && files[1].1.as_slice() == b"two\n".as_slice()
        && files[2].1.as_slice() == b"three\n".as_slice()
        && maildir.files(Folder::Cur).is_empty()
}

/// Each message is held once, and the maildrop is empty if the sessions delete.
fn expect_whole(rt: &impl Abort, ends: &Ends, delete: bool) {
    assert!(rt; holds_each_once(&ends.files.maildir));
    assert_eq!(rt; ends.maildrop.is_empty(), delete);
}

/// Runs a session that is cut, and a whole one after it.
fn expect(rt: &(impl Abort + AllocGlobal), options: &[u8], fuses: Fuses) -> Result<(), Fail> {
    let ends = complete(rt.alloc(), options, cut(rt.alloc(), options, fuses)?)?;
    expect_whole(rt, &ends, options == DELETING);
    Ok(())
}

/// Sessions whose link, Maildir or record's file refuses each call after the first `passes`; of the last two,
/// the first refused call takes effect or not.
fn fuses_after(passes: u64) -> [Fuses; 5] {
    let whole = Fuses {
        link: u64::MAX,
        disk: SOUND,
        record: SOUND,
    };
    let blown = Fuse {
        passes,
        takes_effect: false,
    };
    let done = Fuse {
        passes,
        takes_effect: true,
    };
    [
        Fuses {
            link: passes,
            ..whole
        },
        Fuses {
            disk: blown,
            ..whole
        },
        Fuses {
            disk: done,
            ..whole
        },
        Fuses {
            record: blown,
            ..whole
        },
        Fuses {
            record: done,
            ..whole
        },
    ]
}

/// Cuts sessions after this many calls.
fn expect_after(rt: &(impl Abort + AllocGlobal), options: &[u8], passes: u64) -> Result<(), Fail> {
    for fuses in fuses_after(passes) {
        expect(rt, options, fuses)?;
    }
    Ok(())
}

#[test]
fn stores_each_message_once_whichever_call_is_refused(rt: HostRuntime) -> Result<(), Fail> {
    for passes in 0..MOST_CALLS {
        for options in OPTIONS {
            expect_after(&rt, options, passes)?;
        }
    }
    Ok(())
}
