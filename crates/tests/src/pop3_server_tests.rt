//! Tests of `pop3_server`.

use crate::support::login;
use pop3_server::{MemoryDrop, Server, serve};
use std::test::Fail;
use test_devices::EndlessWire;

/// A client that never stops is answered until 16,777,216 octets were taken from it.
#[test]
fn commands_without_end(rt: HostRuntime) -> Result<(), Fail> {
    let alloc = rt.alloc();
    let (user, pass) = login(alloc)?;
    let mut server = Server::new(alloc, MemoryDrop::new(alloc), user, pass);
    let pattern = Vec::from_slice(alloc, b"NOOP\r\n")?;
    let mut wire = EndlessWire::new(alloc, Vec::new(alloc), pattern);
    assert!(rt; serve(&mut server, &mut wire).is_ok());
    let Some(answers) = wire.sent().strip_prefix(b"+OK popd ready\r\n".as_slice()) else {
        return Err(Fail::new("a greeting"));
    };
    assert_eq!(rt; answers.len(), 2_796_202 * 14);
    assert!(rt;
        answers
            .chunks(14)
            .all(|answer| answer == b"-ERR not now\r\n".as_slice())
    );
    Ok(())
}
