//! Links with ample memory.

use pop3_wire::{StreamWire, Wire};
use std::io::BufWriter;
use std::test::Fail;

#[test]
fn a_stream_is_flushed_at_each_send(rt: HostRuntime) -> Result<(), Fail> {
    let alloc = rt.alloc();
    let writer = BufWriter::new(alloc, Vec::new(alloc))?;
    let mut wire = StreamWire::new(b"".as_slice(), writer);
    assert!(rt; wire.send(b"QUIT\r\n").is_ok());
    let (_, writer) = wire.into_parts();
    assert_eq!(rt; writer.get_ref().as_slice(), b"QUIT\r\n".as_slice());
    Ok(())
}
