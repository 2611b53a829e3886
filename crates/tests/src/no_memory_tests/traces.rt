//! The lines of a trace.

use crate::no_memory_tests::watched::{
    begin, end, tell, tell_answer, tell_bytes, tell_no_memory, tell_text,
};
use pop3_wire::{Note, Wire};
use std::io::Read;
use system_calls::{Refusals, System, line_text, refusal_text};
use test_devices::ScriptWire;
use trace::TracedWire;

fn tell_line(rt: &HostRuntime) {
    begin(rt);
    let answer = line_text(rt.alloc(), "C: ", b"RETR 1\x1B");
    end(rt);
    tell_answer(rt, answer);
}

#[test]
fn line_text_row(rt: HostRuntime) {
    tell_line(&rt);
    tell_line(&rt);
}

fn tell_refusal(rt: &HostRuntime) {
    begin(rt);
    let answer = refusal_text(rt.alloc(), "open", "mail/new", "Permission denied");
    end(rt);
    tell_text(rt, answer);
}

#[test]
fn refusal_text_row(rt: HostRuntime) {
    tell_refusal(&rt);
    tell_refusal(&rt);
}

/// Notes and sends a command.
fn send<W: Wire>(rt: &HostRuntime, wire: &mut W) {
    begin(rt);
    wire.note(Note::Command(None, b"NOOP".as_slice()));
    let answer = wire.send(b"NOOP\r\n");
    end(rt);
    tell(rt, if answer.is_ok() { "sent" } else { "refused" });
}

/// Sends a command over a traced link, and prints what the link inside sent. A line of the trace
/// for which there is no memory is left out.
fn send_traced(rt: &HostRuntime) {
    let alloc = rt.alloc();
    let script = ScriptWire::new(alloc, Vec::new(alloc), 4096);
    let err: Vec<u8> = Vec::new(alloc);
    let mut wire = TracedWire::new(alloc, script, Some(err), None, None);
    send(rt, &mut wire);
    tell_bytes(rt, wire.into_inner().sent());
}

#[test]
fn traced_wire_row(rt: HostRuntime) {
    send_traced(&rt);
    send_traced(&rt);
}

/// Prints what was refused last.
fn tell_kept(rt: &HostRuntime, refusals: &Refusals) {
    match refusals.take() {
        Some(refusal) => tell_answer(rt, refusal.text(rt.alloc())),
        None => tell_no_memory(rt),
    }
}

/// A rename that is refused, after another call was.
fn rename(rt: &HostRuntime) {
    let refusals = Refusals::new(rt.alloc(), None);
    let system = System::new(rt, &refusals);
    let _ = refusals.kept(system.stat("older"));
    begin(rt);
    let _ = refusals.kept(system.rename("none", "other"));
    end(rt);
    tell_kept(rt, &refusals);
}

#[test]
fn rename_row(rt: HostRuntime) {
    rename(&rt);
    rename(&rt);
}

/// A read of a folder, which is refused, after another call was.
fn read(rt: &HostRuntime) {
    let refusals = Refusals::new(rt.alloc(), None);
    let system = System::new(rt, &refusals);
    let _ = refusals.kept(system.stat("older"));
    begin(rt);
    let answer = match system.open(".") {
        Ok(mut folder) => {
            let answer = folder.inner.read(&mut [0; 4]);
            folder.asked("read", answer)
        }
        Err(denial) => Err(denial),
    };
    let _ = refusals.kept(answer);
    end(rt);
    tell_kept(rt, &refusals);
}

#[test]
fn read_row(rt: HostRuntime) {
    read(&rt);
    read(&rt);
}
