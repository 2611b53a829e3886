//! Sessions over links that never come to an end.
ghost use Rattle.std.specs.Prelude.{◌<◌, length};

use crate::support::{
    Fred, MESSAGES, SOUND, account, fetch, files_of, login, maildrop_of, no_files,
};
use fetch_session::{Fault, Outcome, session};
use std::process::Abort;
use std::test::Fail;
use test_devices::EndlessWire;

/// Runs a session. Its contract is long, so nothing else is in this function.
fn run(account: &mut Fred, wire: &mut EndlessWire) -> Outcome {
    session(account, wire, 0).outcome
}

/// How often the pattern stands in what a link repeats, of which one read gives at most the rest: with a few octets at
/// a time a text of the greatest length takes a minute on a busy machine.
const TIMES: usize = 1_000;

/// A session over a link that gives `front` and then `pattern` for ever is cut for this fault.
fn expect(
    rt: &(impl Abort + AllocGlobal),
    account: &mut Fred,
    front: &[u8],
    pattern: &[u8],
    fault: Fault,
) -> Result<(), Fail>
    requires { 0 < length pattern.now }
{
    let alloc = rt.alloc();
    let front = Vec::from_slice(alloc, front)?;
    let mut wire = EndlessWire::new(alloc, front, pattern.repeat(alloc, TIMES)?);
    assert_eq!(rt; run(account, &mut wire), Outcome::Cut(fault));
    Ok(())
}

/// A first line, a listing and the text of a message that is held.
fn expect_all(rt: &(impl Abort + AllocGlobal), account: &mut Fred) -> Result<(), Fail> {
    expect(rt, account, b"", b"a", Fault::ReplyTooLong)?;
    let listing = b"+OK\r\n+OK\r\n+OK\r\n+OK 1 5\r\n+OK\r\n".as_slice();
    expect(rt, account, listing, b"1 a\r\n", Fault::TooMany)?;
    let text =
        b"+OK\r\n+OK\r\n+OK\r\n+OK 1 5\r\n+OK\r\n1 a\r\n.\r\n+OK\r\n1 5\r\n.\r\n+OK\r\n".as_slice();
    expect(rt, account, text, b"x\r\n", Fault::TextTooLong)
}

#[test]
fn replies_without_end(rt: HostRuntime) -> Result<(), Fail> {
    let alloc = rt.alloc();
    let maildrop = maildrop_of(alloc, &MESSAGES[..1])?;
    let login = login(alloc)?;
    let mut account = account(alloc, b"read_all = true\n", no_files(alloc), SOUND, SOUND)?;
    let (report, _maildrop) = fetch(alloc, &mut account, maildrop, login);
    let answer = expect_all(&rt, &mut account);
    let _files = files_of(alloc, account);
    assert_eq!(rt; report.outcome, Outcome::Ended);
    answer
}
