//! Maildrops in memory.

use pop3_server::{MemoryDrop, size_of};
use pop3_wire::is_legal_id;
use std::alloc::Global;
use std::test::Fail;

/// Three messages, each an id and a text.
pub const MESSAGES: [(&str, &str); 3] = [("a", "one\n"), ("b", "two\n"), ("c", "three\n")];

/// Puts a message into a maildrop of fewer than 1,000; its size is at most 100,000 octets.
fn put(maildrop: &mut MemoryDrop, uid: &[u8], text: &[u8]) -> Result<(), Fail> {
    if !is_legal_id(uid) || maildrop.contains(uid) {
        return Err(Fail::new("an id that is free"));
    }
    if size_of(text) > 100_000 || maildrop.len() >= 1000 {
        return Err(Fail::new("a small maildrop"));
    }
    maildrop.push(uid, text)?;
    Ok(())
}

/// A maildrop of these messages.
pub fn maildrop_of(alloc: Global, messages: &[(&str, &str)]) -> Result<MemoryDrop, Fail> {
    let mut maildrop = MemoryDrop::new(alloc);
    for (uid, text) in messages {
        put(&mut maildrop, uid.as_bytes(), text.as_bytes())?;
    }
    Ok(maildrop)
}
