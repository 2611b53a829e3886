//! Calls of `mail_store` on an mboxrd file.
ghost use Rattle.std.specs.Prelude.{IfOk};
ghost use Rattle.mail_terms.specs.Text.{IsWhole};

use crate::stopwatch::Stopwatch;
use crate::trouble::{Result, Trouble};
use mail_store::{FlatFile, append_entry, is_whole, quote, read_mbox};
use std::fs;

/// The text in a file, which must be whole.
fn text_of(rt: &HostRuntime, path: &str) -> Result<Vec<u8>>
    ensures { IfOk result (λ text. IsWhole text.items) }
{
    let text = fs::read(rt, path)?;
    if !is_whole(&text) {
        return Err(Trouble::Other);
    }
    Ok(text)
}

/// Appends the entry of a text to the file, `count` times. The text is in the file of that name
/// with `.text` after it.
pub fn append<F: FlatFile>(rt: &HostRuntime, path: &str, file: &mut F, count: u32) -> Result<()> {
    let beside = format!(in rt.alloc(); "{path}.text")?;
    let text = text_of(rt, beside.as_str())?;
    for _ in 0..count {
        append_entry(rt.alloc(), file, &text)?;
    }
    println!(rt; "{count}")?;
    Ok(())
}

/// Reads the texts of the file. Prints how many there are, and the time.
pub fn time_texts<F: FlatFile>(rt: &HostRuntime, file: &mut F) -> Result<()> {
    let bytes = file.load()?;
    let watch = Stopwatch::new(rt)?;
    let texts = read_mbox(rt.alloc(), &bytes)?;
    watch.tell(rt, texts.len())
}

/// Quotes the text of the file. Prints how many bytes that gives, and the time.
pub fn time_quote(rt: &HostRuntime, path: &str) -> Result<()> {
    let text = text_of(rt, path)?;
    let watch = Stopwatch::new(rt)?;
    let quoted = quote(rt.alloc(), &text)?;
    watch.tell(rt, quoted.len())
}
