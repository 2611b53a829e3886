//! The lines that the test from outside reads.

use std::alloc::{AllocError, Global};

/// The call begins: from here its growths are counted, and one of them may be refused.
pub fn begin(rt: &HostRuntime) {
    let _ = rt.println("called");
}

/// The call has answered: from here no growth is refused.
pub fn end(rt: &HostRuntime) {
    let _ = rt.println("answered");
}

/// Prints what was answered, or what is left.
pub fn tell(rt: &HostRuntime, line: &str) {
    let _ = rt.println(line);
}

/// The call answered that memory ran out.
pub fn tell_no_memory(rt: &HostRuntime) {
    tell(rt, "no memory");
}

/// Bytes as a text in which `|` stands for CR LF and `/` for any other LF.
fn shown(alloc: Global, bytes: &[u8]) -> Result<String, AllocError> {
    let mut text = Vec::new(alloc);
    for byte in bytes {
        match *byte {
            b'\n' if text.last() == Some(&b'\r') => {
                text.pop();
                text.push(b'|')?;
            }
            b'\n' => text.push(b'/')?,
            other => text.push(other)?,
        }
    }
    String::from_utf8_lossy(alloc, &text)
}

/// Prints bytes in one line, with `|` for CR LF and `/` for LF.
pub fn tell_bytes(rt: &HostRuntime, bytes: &[u8]) {
    match shown(rt.alloc(), bytes) {
        Ok(text) => tell(rt, text.as_str()),
        Err(_) => tell(rt, "not told"),
    }
}

/// Prints the bytes that a call answered.
pub fn tell_answer(rt: &HostRuntime, answer: Result<Vec<u8>, AllocError>) {
    match answer {
        Ok(bytes) => tell_bytes(rt, &bytes),
        Err(_) => tell_no_memory(rt),
    }
}

/// Prints the text that a call answered.
pub fn tell_text(rt: &HostRuntime, answer: Result<String, AllocError>) {
    match answer {
        Ok(text) => tell_bytes(rt, text.as_bytes()),
        Err(_) => tell_no_memory(rt),
    }
}
