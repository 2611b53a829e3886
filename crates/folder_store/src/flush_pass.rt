//! Which files are still to be flushed after a pass through the folders of a Maildir.

ghost use Rattle.std.specs.{
  Prelude.{◌≡◌, ℕ, List, ◌||◌, bytes_eq, map, nat_lt, not, string_bytes, true, IfOk, OnOk},
  BTreeSet.{Updates, contains},
  List.filter,
};
ghost use Rattle.mail_store.specs.{FileName.stem, Held.has_text};
ghost use Rattle.folder_store.specs.{
  FlushPass.{has_flushed, has_missed, was_flushed},
  SharedCalls.borrowed_texts,
  Wanted.has_octets,
};

use crate::calls::FileStat;
use mail_store::stem;
use std::alloc::{AllocError, Global};
use std::collections::BTreeSet;

/// A file that a pass found under a name.
#[derive(Drop)]
pub struct Found {
    pub name: String,
    /// Whether it was flushed; else it had gone from there.
    pub is_flushed: bool,
}

/// Notes that a file was opened under a name. False if it was before, under another one, and has one name alone: it was
/// moved meanwhile, and what had this name may not have been opened.
pub fn is_opened_anew(
    opened: &mut BTreeSet<(u64, u64)>,
    file: &FileStat,
) -> Result<bool, AllocError>
    ensures anew { IfOk result (λ is_anew.
        is_anew ≡ (not (contains ⟦<(u64, u64) as Ord>⟧.cmp opened.old (file.now.device, file.now.inode))
        || nat_lt 1 file.now.links)) }
    ensures notes { OnOk result (Updates ⟦<(u64, u64) as Ord>⟧.cmp opened.old opened.new
        (file.now.device, file.now.inode) true) }
{
    let is_first = opened.insert((file.device, file.inode))?;
    Ok(is_first || file.links > 1)
}

/// These texts.
pub fn texts_of(alloc: Global, texts: &[String]) -> Result<Vec<&str>, AllocError>
    ensures { IfOk result (λ all. borrowed_texts all.items ≡ map string_bytes texts.now) }
{
    let mut all = Vec::new(alloc);
    for text in texts {
        all.push(text.as_str())?;
    }
    Ok(all)
}

/// Adds a text.
fn add_text<'a>(texts: &mut BTreeSet<&'a str>, text: &'a str) -> Result<(), AllocError>
    ensures { OnOk result ((q : List ℕ) → has_text texts.new q ≡ (has_text texts.old q || bytes_eq q text.now)) }
{
    texts.insert(text)?;
    Ok(())
}

/// These texts, as a set.
pub fn set_of<'a>(alloc: Global, texts: &[&'a str]) -> Result<BTreeSet<&'a str>, AllocError>
    ensures { IfOk result (λ set. (q : List ℕ) → has_text set q ≡ has_octets texts.now q) }
{
    let mut set = BTreeSet::new(alloc);
    for text in texts {
        add_text(&mut set, *text)?;
    }
    Ok(set)
}

/// Adds the stem of a name.
fn add_stem<'a>(stems: &mut BTreeSet<&'a str>, name: &'a str) -> Result<(), AllocError>
    ensures { OnOk result ((q : List ℕ) → has_text stems.new q ≡ (has_text stems.old q || bytes_eq q (stem name.now))) }
{
    add_text(stems, stem(name))
}

/// Adds the stems of the files that were flushed, and of those that weren't.
fn add_stems<'a>(
    flushed: &mut BTreeSet<&'a str>,
    missed: &mut BTreeSet<&'a str>,
    found: &'a [Found],
) -> Result<(), AllocError>
    ensures flushed { OnOk result ((q : List ℕ)
        → has_text flushed.new q ≡ (has_text flushed.old q || has_flushed found.now q)) }
    ensures missed { OnOk result ((q : List ℕ)
        → has_text missed.new q ≡ (has_text missed.old q || has_missed found.now q)) }
{
    for file in found {
        if file.is_flushed {
            add_stem(flushed, file.name.as_str())?;
        } else {
            add_stem(missed, file.name.as_str())?;
        }
    }
    Ok(())
}

/// Whether a stem isn't among those of the files that were flushed, or is among the others.
fn is_left(flushed: &BTreeSet<&str>, missed: &BTreeSet<&str>, stem: &str) -> bool
    ensures { result ≡ (not (has_text flushed.now stem.now) || has_text missed.now stem.now) }
{
    !flushed.contains(stem) || missed.contains(stem)
}

/// Those of the stems whose messages aren't settled by a pass that found these files.
pub fn unsettled<'a>(
    alloc: Global,
    stems: &[&'a str],
    found: &[Found],
) -> Result<Vec<&'a str>, AllocError>
    ensures { IfOk result (λ left. left.items ≡ filter (λ stem. not (was_flushed found.now stem.now)) stems.now) }
{
    let mut flushed = BTreeSet::new(alloc);
    let mut missed = BTreeSet::new(alloc);
    add_stems(&mut flushed, &mut missed, found)?;
    let mut left = Vec::new(alloc);
    for stem in stems {
        if is_left(&flushed, &missed, *stem) {
            left.push(*stem)?;
        }
    }
    Ok(left)
}
