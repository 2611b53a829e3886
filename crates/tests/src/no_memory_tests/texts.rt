//! Texts of an mboxrd file, and the line of a fault.

use crate::no_memory_tests::watched::{
    begin, end, tell, tell_answer, tell_bytes, tell_no_memory, tell_text,
};
use fetch_session::{Fault, fault_text};
use mail_store::{StoreFault, is_whole, quote, read_mbox};
use pop3_client::Asked;

fn quote_text(rt: &HostRuntime) {
    if !is_whole(b"From x\n") {
        return;
    }
    begin(rt);
    let answer = quote(rt.alloc(), b"From x\n");
    end(rt);
    tell_answer(rt, answer);
}

#[test]
fn quote_row(rt: HostRuntime) {
    quote_text(&rt);
    quote_text(&rt);
}

fn read_texts(rt: &HostRuntime) {
    begin(rt);
    let answer = read_mbox(rt.alloc(), b"From a\n>From x\n\nFrom b\ny\n\n");
    end(rt);
    match answer {
        Ok(texts) => {
            for text in &texts {
                tell_bytes(rt, text);
            }
        }
        Err(StoreFault::NoMemory) => tell_no_memory(rt),
        Err(_) => tell(rt, "another fault"),
    }
}

#[test]
fn read_mbox_row(rt: HostRuntime) {
    read_texts(&rt);
    read_texts(&rt);
}

fn tell_fault(rt: &HostRuntime) {
    begin(rt);
    let answer = fault_text(rt.alloc(), &Fault::Refused(Asked::Retr(7)));
    end(rt);
    tell_text(rt, answer);
}

#[test]
fn fault_text_row(rt: HostRuntime) {
    tell_fault(&rt);
    tell_fault(&rt);
}
