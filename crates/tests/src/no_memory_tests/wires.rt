//! Bodies and links.

use crate::no_memory_tests::watched::{begin, end, tell, tell_bytes, tell_no_memory};
use pop3_wire::{Wire, WireFault, stuff, unstuff};
use test_devices::ScriptWire;

/// Prints what a call answered.
fn tell_wire(rt: &HostRuntime, answer: Result<Vec<u8>, WireFault>) {
    match answer {
        Ok(bytes) => tell_bytes(rt, &bytes),
        Err(WireFault::NoMemory) => tell_no_memory(rt),
        Err(_) => tell(rt, "another fault"),
    }
}

fn stuff_text(rt: &HostRuntime) {
    begin(rt);
    let answer = stuff(rt.alloc(), b"a\n.b\n");
    end(rt);
    tell_wire(rt, answer);
}

#[test]
fn stuff_row(rt: HostRuntime) {
    stuff_text(&rt);
    stuff_text(&rt);
}

fn unstuff_body(rt: &HostRuntime) {
    begin(rt);
    let answer = unstuff(rt.alloc(), b"a\r\n..b\r\n.\r\n+OK");
    end(rt);
    match answer {
        Ok(Some((text, _length))) => tell_bytes(rt, &text),
        Err(WireFault::NoMemory) => tell_no_memory(rt),
        _ => tell(rt, "another answer"),
    }
}

#[test]
fn unstuff_row(rt: HostRuntime) {
    unstuff_body(&rt);
    unstuff_body(&rt);
}

fn send_to_script(rt: &HostRuntime, wire: &mut ScriptWire) -> bool {
    begin(rt);
    let answer = wire.send(b"QUIT\r\n");
    end(rt);
    tell(rt, if answer.is_ok() { "sent" } else { "refused" });
    tell_bytes(rt, wire.sent());
    answer.is_ok()
}

fn send_twice(rt: &HostRuntime, wire: &mut ScriptWire) {
    tell_bytes(rt, wire.sent());
    if !send_to_script(rt, wire) {
        send_to_script(rt, wire);
    }
}

#[test]
fn script_wire_row(rt: HostRuntime) {
    let alloc = rt.alloc();
    send_twice(&rt, &mut ScriptWire::new(alloc, Vec::new(alloc), 1));
}
