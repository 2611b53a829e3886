//! Reading an mboxrd file.

ghost use Rattle.std.specs.Prelude.{◌<◌, List, ℕ, length, IfNone, IfSome};
ghost use Rattle.mail_store.specs.{MboxCalls.ReadsMbox, Mboxrd.{CutsGroup, HoldsText}};

use crate::fault::StoreFault;
use crate::mboxrd::quoting::{begins_entry, cut_line, is_whole, unquote};
use std::alloc::Global;

/// Cuts off the first line and the lines after it, up to the next that begins with `From `.
fn cut_group(bytes: &[u8]) -> (&[u8], &[u8])
    requires { 0 < length bytes.now }
    ensures cuts { CutsGroup bytes.now result.0.now result.1.now }
    ensures some { 0 < length result.0.now }
    ensures shorter { length result.1.now < length bytes.now }
{
    let (_, mut rest) = cut_line(bytes);
    while !rest.is_empty() {
        let (line, after) = cut_line(rest);
        if begins_entry(line) {
            return bytes.split_at(bytes.len() - rest.len());
        }
        rest = after;
    }
    (bytes, rest)
}

/// The quoted text of a group of lines: what is between its first line, which begins with `From `,
/// and its last one, which is empty. None if the group has another form.
fn quoted_part(group: &[u8]) -> Option<&[u8]>
    requires { 0 < length group.now }
    ensures found { IfSome result (λ text. HoldsText group.now text.now) }
    ensures none { IfNone result ((text : List ℕ) → HoldsText group.now text → ⊥) }
{
    let (head, rest) = cut_line(group);
    let quoted = rest.strip_suffix(b"\n")?;
    if !begins_entry(head) {
        return None;
    }
    if !is_whole(quoted) {
        return None;
    }
    Some(quoted)
}

/// The texts that an mboxrd file stands for, in order. An empty file has none. Each line that begins
/// with `From ` starts an entry, whose last line is empty and not part of the text; the rest is
/// unquoted. NotMbox for any other file, NoMemory if memory runs out.
pub fn read_mbox(alloc: Global, bytes: &[u8]) -> Result<Vec<Vec<u8>>, StoreFault>
    ensures { ReadsMbox bytes.now result }
{
    let mut texts = Vec::new(alloc);
    let mut rest = bytes;
    while !rest.is_empty() {
        let (group, after) = cut_group(rest);
        let Some(quoted) = quoted_part(group) else {
            return Err(StoreFault::NotMbox);
        };
        texts.push(unquote(alloc, quoted)?)?;
        rest = after;
    }
    Ok(texts)
}
