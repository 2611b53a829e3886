//! The messages of a listing that are over the size limit, as the rows of the listing name them.
ghost use Rattle.std.specs.{
  Prelude.{◌≡◌, ◌++◌, IfOk, OnErr, OnOk, codes},
  Option.option_to_list,
  List.filter_map,
  Str.IsUtf8,
};
ghost use Rattle.mail_terms.specs.Text.{lines_of_text};
ghost use Rattle.getmail_setup.specs.Digest.{digest_text};
ghost use Rattle.getmail_setup.specs.Listed.{
  BeginsListing,
  NotesRow,
  HasRow,
  HasSameRows,
  IsFresh,
  large_in,
  large_size,
  size_over,
  without_end,
};

use crate::digest::digest_of;
use mail_terms::cut_text;
use pop3_wire::{Asked, Note, read_scan, read_uid};
use run_memory::Key;
use std::alloc::{AllocError, Global};
use std::str;

/// A message that is over the size limit.
#[derive(Clone, Copy)]
pub struct Large {
    pub number: u32,
    pub size: u64,
    /// A digest of its id.
    pub key: Key,
}

/// The rows of the last listing: all of UIDL, and those of LIST with a size over the limit.
#[derive(Drop)]
pub struct Listed {
    limit: u64,
    asked: Option<Asked>,
    uids: Vec<u8>,
    sizes: Vec<(u32, u64)>,
}

/// The key of an id. No line of a fault has a NUL.
fn key_of(uid: &[u8]) -> Key
    requires { IsUtf8 uid.now }
    ensures { result ≡ digest_text uid.now (codes "too large") }
{
    Key::new(digest_of(str::from_utf8(uid).unwrap_or(""), "too large").as_str())
}

/// A row of a listing, without blanks and what ends a line at its end.
pub(crate) fn without_end(row: &[u8]) -> &[u8]
    ensures { result.now ≡ without_end row.now }
{
    row.trim_ascii_end()
}

/// The number and the size in a row of LIST, if the size is over a limit.
fn size_over(limit: u64, row: &[u8]) -> Option<(u32, u64)>
    ensures { result ≡ size_over limit row.now }
{
    match read_scan(without_end(row)) {
        Ok((number, size)) => {
            if size > limit {
                Some((number, size))
            } else {
                None
            }
        }
        Err(_) => None,
    }
}

/// Adds what there is to a list.
pub(crate) fn push_some<T: Copy>(list: &mut Vec<T>, item: Option<T>) -> Result<(), AllocError>
    ensures { OnOk result (list.new.items ≡ list.old.items ++ option_to_list item) }
{
    if let Some(item) = item {
        list.push(item)?;
    }
    Ok(())
}

impl Listed {
    /// Nothing is listed yet.
    pub fn new(alloc: Global, limit: u64) -> Listed
        ensures { IsFresh limit result }
    {
        Listed {
            limit,
            asked: None,
            uids: Vec::new(alloc),
            sizes: Vec::new(alloc),
        }
    }

    /// A listing that is asked for takes the place of an earlier one.
    fn begin(&mut self, asked: Option<Asked>)
        ensures { BeginsListing self.old asked self.new }
    {
        match asked {
            Some(Asked::Uidl) => self.uids.clear(),
            Some(Asked::List) => self.sizes.clear(),
            _ => {}
        }
        self.asked = asked;
    }

    /// Takes a row of a listing.
    fn add(&mut self, row: &[u8]) -> Result<(), AllocError>
        ensures ok { OnOk result (HasRow self.old self.old.asked row.now self.new) }
        ensures err { OnErr result (HasSameRows self.old self.new) }
    {
        match self.asked {
            Some(Asked::Uidl) => self.uids.extend_from_slice(row),
            Some(Asked::List) => match size_over(self.limit, row) {
                Some(size) => Ok(self.sizes.push(size)?),
                None => Ok(()),
            },
            _ => Ok(()),
        }
    }

    /// Takes note of a part of the conversation. A row that there is no memory for isn't known.
    pub fn note(&mut self, part: Note<'_>)
        ensures { NotesRow self.old part.entry self.new }
    {
        match part {
            Note::Command(asked, _) => self.begin(asked),
            Note::Body { text, .. } => {
                let _ = self.add(text);
            }
            _ => {}
        }
    }

    /// The size of a message, if it is over the limit.
    fn size_of(&self, number: u32) -> Option<u64>
        ensures { result ≡ large_size self.now.sizes.items number }
    {
        let (_, size) = self.sizes.iter().find(|(listed, _)| *listed == number)?;
        Some(*size)
    }

    /// The message over the limit that a row of UIDL names, if its number is among these.
    fn large_in(&self, numbers: &[u32], row: &[u8]) -> Option<Large>
        ensures { result ≡ large_in self.now.sizes.items numbers.now row.now }
    {
        let Ok((number, uid)) = read_uid(without_end(row)) else {
            return None;
        };
        if !numbers.contains(&number) {
            return None;
        }
        let size = self.size_of(number)?;
        let key = key_of(uid);
        Some(Large { number, size, key })
    }

    /// The messages among these numbers that are over the limit, in the order of the rows of UIDL.
    #[tactic(auto, using(crate::proofs::ListedLemmas::picked_first))]
    pub fn among(&self, alloc: Global, numbers: &[u32]) -> Result<Vec<Large>, AllocError>
        ensures { IfOk result (λ found. found.items
            ≡ filter_map (large_in self.now.sizes.items numbers.now) (lines_of_text self.now.uids.items)) }
    {
        let mut found = Vec::new(alloc);
        let mut rest = self.uids.as_slice();
        while !rest.is_empty() {
            let (row, behind) = cut_text(rest);
            rest = behind;
            push_some(&mut found, self.large_in(numbers, row))?;
        }
        Ok(found)
    }
}
