//! Several sessions by one call, over links with prepared replies.

use crate::support::{Files, Fred, Fuse, SOUND, account, files_of, no_files};
use fetch_session::{Fault, Outcome, Report, Visit, Why, run_sessions};
use mail_store::{Folder, MemoryFile};
use std::alloc::{AllocError, Global};
use std::process::Abort;
use std::test::Fail;
use test_devices::ScriptWire;

/// What each session sends first.
const OPENING: &[u8] = b"USER fred\r\nPASS secret\r\nSTAT\r\nUIDL\r\nLIST\r\n";

const OK: &str = "+OK\r\n";

// The replies to STAT, UIDL and LIST of maildrops with these messages.
const A: &str = "+OK 1 5\r\n+OK\r\n1 a\r\n.\r\n+OK\r\n1 5\r\n.\r\n";

const B: &str = "+OK 1 5\r\n+OK\r\n1 b\r\n.\r\n+OK\r\n1 5\r\n.\r\n";

const A_B: &str = "+OK 2 10\r\n+OK\r\n1 a\r\n2 b\r\n.\r\n+OK\r\n1 5\r\n2 5\r\n.\r\n";

const A_B_C: &str =
    "+OK 3 17\r\n+OK\r\n1 a\r\n2 b\r\n3 c\r\n.\r\n+OK\r\n1 5\r\n2 5\r\n3 7\r\n.\r\n";

const A_TO_E: &str = "+OK 5 29\r\n+OK\r\n1 a\r\n2 b\r\n3 c\r\n4 d\r\n5 e\r\n.\r\n\
    +OK\r\n1 5\r\n2 5\r\n3 7\r\n4 6\r\n5 6\r\n.\r\n";

// The replies to RETR.
const ONE: &str = "+OK\r\none\r\n.\r\n";

const TWO: &str = "+OK\r\ntwo\r\n.\r\n";

const THREE: &str = "+OK\r\nthree\r\n.\r\n";

const FOUR: &str = "+OK\r\nfour\r\n.\r\n";

const FIVE: &str = "+OK\r\nfive\r\n.\r\n";

/// How many calls of the Maildir pass before the second file is settled: one that lists its names, three for the
/// first file, and two for the second.
const UP_TO_SECOND_SETTLE: u64 = 6;

/// A session: when it is, the replies after those to the login, what it sends after `OPENING`, and its report.
#[derive(Clone, Copy)]
struct Session {
    now: u64,
    replies: &'static [&'static str],
    sent: &'static [u8],
    outcome: Outcome,
    retrieved: u32,
    deleted: u32,
}

/// A session that comes to its end, and finds nothing to do.
const IDLE: Session = Session {
    now: 0,
    replies: &[A, OK],
    sent: b"QUIT\r\n",
    outcome: Outcome::Ended,
    retrieved: 0,
    deleted: 0,
};

/// The first session of an account with one message.
const FIRST: Session = Session {
    replies: &[A, ONE, OK],
    sent: b"RETR 1\r\nQUIT\r\n",
    retrieved: 1,
    ..IDLE
};

fn visit(alloc: Global, session: &Session) -> Result<Visit<ScriptWire>, AllocError> {
    let mut replies = Vec::from_slice(alloc, b"+OK\r\n+OK\r\n+OK\r\n")?;
    for reply in session.replies {
        replies.extend_from_slice(reply.as_bytes())?;
    }
    Ok(Visit {
        wire: ScriptWire::new(alloc, replies, 4096),
        now: session.now,
    })
}

fn visits_of(alloc: Global, sessions: &[Session]) -> Result<Vec<Visit<ScriptWire>>, Fail> {
    let mut visits = Vec::new(alloc);
    for session in sessions {
        visits.push(visit(alloc, session)?)?;
    }
    Ok(visits)
}

/// Runs the sessions. The contract is long, so nothing else is in this function.
fn call(
    alloc: Global,
    account: &mut Fred,
    visits: &mut [Visit<ScriptWire>],
) -> Result<Vec<Report>, AllocError> {
    run_sessions(alloc, account, visits)
}

/// What a session sent, and its report, are as they should be.
fn expect(rt: &impl Abort, session: &Session, report: &Report, wire: &ScriptWire) {
    assert_eq!(rt; report.outcome, session.outcome);
    assert_eq!(rt; report.retrieved, session.retrieved);
    assert_eq!(rt; report.deleted, session.deleted);
    assert!(rt; wire.sent().strip_prefix(OPENING) == Some(session.sent));
}

/// Runs these sessions of an account by one call, with a Maildir that refuses calls as `fuse` says, and returns
/// what they leave.
fn run(
    rt: &(impl Abort + AllocGlobal),
    options: &[u8],
    (files, fuse): (Files, Fuse),
    sessions: &[Session],
) -> Result<Files, Fail> {
    let alloc = rt.alloc();
    let mut visits = visits_of(alloc, sessions)?;
    let mut account = account(alloc, options, files, fuse, SOUND)?;
    let answer = call(alloc, &mut account, &mut visits);
    let files = files_of(alloc, account);
    let reports = answer?;
    assert_eq!(rt; reports.len(), sessions.len());
    for (session, (report, visit)) in sessions.iter().zip(reports.iter().zip(visits.iter())) {
        expect(rt, session, report, &visit.wire);
    }
    Ok(files)
}

/// The texts of a folder, in order.
fn expect_held(rt: &impl Abort, files: &Files, folder: Folder, texts: &[&str]) {
    let stored = files.maildir.files(folder);
    assert_eq!(rt; stored.len(), texts.len());
    for ((_name, text), wanted) in stored.iter().zip(texts) {
        assert!(rt; text.as_slice() == wanted.as_bytes());
    }
}

/// With two messages a session, three sessions fetch 2, 2 and 1 of five.
#[test]
fn three_sessions(rt: HostRuntime) -> Result<(), Fail> {
    let sessions = [
        Session {
            replies: &[A_TO_E, ONE, TWO, OK],
            sent: b"RETR 1\r\nRETR 2\r\nQUIT\r\n",
            retrieved: 2,
            ..IDLE
        },
        Session {
            replies: &[A_TO_E, THREE, FOUR, OK],
            sent: b"RETR 3\r\nRETR 4\r\nQUIT\r\n",
            retrieved: 2,
            ..IDLE
        },
        Session {
            replies: &[A_TO_E, FIVE, OK],
            sent: b"RETR 5\r\nQUIT\r\n",
            retrieved: 1,
            ..IDLE
        },
    ];
    let options = b"read_all = false\nmax_messages_per_session = 2\n".as_slice();
    let files = run(&rt, options, (no_files(rt.alloc()), SOUND), &sessions)?;
    let texts = ["one\n", "two\n", "three\n", "four\n", "five\n"];
    expect_held(&rt, &files, Folder::New, &texts);
    Ok(())
}

/// After a session whose link ends in the second text and a whole one each message is held once.
#[test]
fn cut_in_second(rt: HostRuntime) -> Result<(), Fail> {
    let sessions = [
        Session {
            replies: &[A_B_C, ONE, "+OK\r\ntw"],
            sent: b"RETR 1\r\nRETR 2\r\n",
            outcome: Outcome::Cut(Fault::ConnectionEnded),
            retrieved: 1,
            ..IDLE
        },
        Session {
            replies: &[A_B_C, TWO, THREE, OK],
            sent: b"RETR 2\r\nRETR 3\r\nQUIT\r\n",
            retrieved: 2,
            ..IDLE
        },
    ];
    let files = run(
        &rt,
        b"read_all = false\n",
        (no_files(rt.alloc()), SOUND),
        &sessions,
    )?;
    expect_held(&rt, &files, Folder::New, &["one\n", "two\n", "three\n"]);
    Ok(())
}

/// A message is deleted seven days after it was first seen, and not before, also if the clock goes back.
#[test]
fn delete_after(rt: HostRuntime) -> Result<(), Fail> {
    let sessions = [
        Session {
            now: 1_000_000,
            ..FIRST
        },
        Session {
            now: 999_999,
            ..IDLE
        },
        Session {
            now: 1_604_799,
            ..IDLE
        },
        Session {
            now: 1_604_800,
            replies: &[A, OK, OK],
            sent: b"DELE 1\r\nQUIT\r\n",
            deleted: 1,
            ..IDLE
        },
    ];
    let options = b"read_all = false\ndelete_after = 7\n".as_slice();
    let files = run(&rt, options, (no_files(rt.alloc()), SOUND), &sessions)?;
    expect_held(&rt, &files, Folder::New, &["one\n"]);
    Ok(())
}

/// Whose removal the server didn't make before the link ended is deleted in the next session.
#[test]
fn delete_then_cut(rt: HostRuntime) -> Result<(), Fail> {
    let sessions = [
        Session {
            replies: &[A_B, ONE, OK, TWO, OK],
            sent: b"RETR 1\r\nDELE 1\r\nRETR 2\r\nDELE 2\r\nQUIT\r\n",
            outcome: Outcome::Cut(Fault::ConnectionEnded),
            retrieved: 2,
            deleted: 2,
            ..IDLE
        },
        Session {
            replies: &[B, OK, OK],
            sent: b"DELE 1\r\nQUIT\r\n",
            deleted: 1,
            ..IDLE
        },
    ];
    let options = b"read_all = false\ndelete = true\n".as_slice();
    let files = run(&rt, options, (no_files(rt.alloc()), SOUND), &sessions)?;
    expect_held(&rt, &files, Folder::New, &["one\n", "two\n"]);
    Ok(())
}

/// A file whose `settle` is refused although it takes effect isn't fetched again.
#[test]
fn settle_refused_but_done(rt: HostRuntime) -> Result<(), Fail> {
    let cut = [Session {
        replies: &[A_B_C, ONE, TWO, OK, OK],
        sent: b"RETR 1\r\nRETR 2\r\nRSET\r\nQUIT\r\n",
        outcome: Outcome::Cut(Fault::StoreRefused(Why::Refused)),
        retrieved: 1,
        ..IDLE
    }];
    let whole = [Session {
        replies: &[A_B_C, THREE, OK],
        sent: b"RETR 3\r\nQUIT\r\n",
        retrieved: 1,
        ..IDLE
    }];
    let options = b"read_all = false\n".as_slice();
    let fuse = Fuse {
        passes: UP_TO_SECOND_SETTLE,
        takes_effect: true,
    };
    let files = run(&rt, options, (no_files(rt.alloc()), fuse), &cut)?;
    expect_held(&rt, &files, Folder::New, &["one\n", "two\n"]);
    let files = run(&rt, options, (files, SOUND), &whole)?;
    expect_held(&rt, &files, Folder::New, &["one\n", "two\n", "three\n"]);
    Ok(())
}

/// A message whose file a reader moved isn't fetched again, even if the record was lost.
#[test]
fn moved_and_forgotten(rt: HostRuntime) -> Result<(), Fail> {
    let whole = [Session {
        replies: &[A_B_C, TWO, THREE, OK],
        sent: b"RETR 2\r\nRETR 3\r\nQUIT\r\n",
        retrieved: 2,
        ..IDLE
    }];
    let alloc = rt.alloc();
    let options = b"read_all = false\n".as_slice();
    let mut files = run(&rt, options, (no_files(alloc), SOUND), &[FIRST])?;
    assert!(rt; !files.maildir.move_to_cur("another", ":2,S")?);
    let name = match files.maildir.files(Folder::New).first() {
        Some((name, _text)) => name.clone()?,
        None => String::new(alloc),
    };
    assert!(rt; files.maildir.move_to_cur(name.as_str(), ":2,S")?);
    files.record = MemoryFile::new(alloc);
    let files = run(&rt, options, (files, SOUND), &whole)?;
    expect_held(&rt, &files, Folder::Cur, &["one\n"]);
    expect_held(&rt, &files, Folder::New, &["two\n", "three\n"]);
    Ok(())
}

/// What was marked before a fault of the Maildir is deleted in the next session.
#[test]
fn begin_refused(rt: HostRuntime) -> Result<(), Fail> {
    let cut = [Session {
        replies: &[A_B_C, ONE, OK, TWO, OK, OK],
        sent: b"RETR 1\r\nDELE 1\r\nRETR 2\r\nRSET\r\nQUIT\r\n",
        outcome: Outcome::Cut(Fault::StoreRefused(Why::Refused)),
        retrieved: 1,
        ..IDLE
    }];
    let whole = [Session {
        replies: &[A_B_C, OK, TWO, OK, THREE, OK, OK],
        sent: b"DELE 1\r\nRETR 2\r\nDELE 2\r\nRETR 3\r\nDELE 3\r\nQUIT\r\n",
        retrieved: 2,
        deleted: 3,
        ..IDLE
    }];
    let options = b"read_all = false\ndelete = true\n".as_slice();
    let fuse = Fuse {
        passes: UP_TO_SECOND_SETTLE - 2,
        takes_effect: false,
    };
    let files = run(&rt, options, (no_files(rt.alloc()), fuse), &cut)?;
    expect_held(&rt, &files, Folder::New, &["one\n"]);
    let files = run(&rt, options, (files, SOUND), &whole)?;
    expect_held(&rt, &files, Folder::New, &["one\n", "two\n", "three\n"]);
    Ok(())
}

/// No visits are no sessions.
#[test]
fn no_visits(rt: HostRuntime) -> Result<(), Fail> {
    let files = run(&rt, b"", (no_files(rt.alloc()), SOUND), &[])?;
    expect_held(&rt, &files, Folder::New, &[]);
    assert!(rt; files.record.content().is_none());
    Ok(())
}
