//! Which names of a folder are wanted, and which of those that the system tells.

ghost use Rattle.std.specs.{
  List.{AllPass, filter},
  Option.ForSome,
  Prelude.{◌≡◌, ◌∷◌, ◌++◌, ℕ, List, [], IfOk, MatchOption, OnOk, if◌then◌else◌, map, string_bytes},
};
ghost use Rattle.mail_store.specs.{Held.asks, Loss.is_among};
ghost use Rattle.folder_store.specs.{
  MailCalls.names_sought,
  Wanted.{AreKeysOf, AreLegal, AreSearchable, AreSorted, TellsNames, fits_name, has_octets, has_stem_of},
  Wanted.{is_hidden_name, is_listed, is_sought_by, keys_have},
};

use crate::mail_folders::Sought;
use mail_store::{AccountId, Asked, stem, stems_differ, uid_of};
use memchr::memchr;
use std::alloc::{AllocError, Global};

/// Which names of a folder are wanted.
#[derive(Clone, Copy)]
pub enum Wanted<'a> {
    All,
    /// Those with the stem of an item that is asked for.
    Items(Asked<'a>),
    /// Those with one of these stems.
    Stems(&'a [String]),
}

impl<'a> Wanted<'a> {
    /// The names that are sought.
    pub fn of(sought: Sought<'a>) -> Wanted<'a>
        ensures { (names : List (List ℕ)) → filter (is_sought_by result) names ≡ names_sought sought.entry names }
    {
        match sought {
            Sought::All => Wanted::All,
            Sought::Items(asked) => Wanted::Items(asked),
        }
    }
}

/// By what the names that are wanted are found.
#[derive(Drop)]
enum Keys<'b> {
    Any,
    /// The ids of files of the account, in order.
    Ids(&'b AccountId, Vec<&'b [u8]>),
    /// The stems, in order.
    Texts(Vec<&'b [u8]>),
}

/// The ids of the items that are asked for.
fn ids_of<'a>(alloc: Global, asked: Asked<'a>) -> Result<Vec<&'a [u8]>, AllocError>
    ensures all { IfOk result (λ ids. (text : List ℕ)
        → has_stem_of asked.entry.account.now ids.items text ≡ asks asked.entry text) }
    ensures legal { IfOk result (λ ids. AreLegal ids.items) }
{
    let mut ids = Vec::new(alloc);
    let count = asked.flags.len().min(asked.listing.len() as usize);
    let flags = asked.flags;
    for i in 0..count {
        if !flags[i] {
            continue;
        }
        ids.push(asked.listing.uid(i as u32))?;
    }
    Ok(ids)
}

/// The octets of these texts.
fn octets_of(alloc: Global, texts: &[String]) -> Result<Vec<&[u8]>, AllocError>
    ensures { IfOk result (λ all. (text : List ℕ) → has_octets all.items text ≡ is_among texts.now text) }
{
    let mut all = Vec::new(alloc);
    for text in texts {
        all.push(text.as_bytes())?;
    }
    Ok(all)
}

/// Whether a text is one of these, which are in order.
fn has_octets(texts: &[&[u8]], text: &[u8]) -> bool
    requires { AreSorted texts.now }
    ensures { result ≡ has_octets texts.now text.now }
{
    texts.binary_search(&text).is_ok()
}

impl<'b> Keys<'b> {
    fn of(alloc: Global, wanted: Wanted<'b>) -> Result<Keys<'b>, AllocError>
        ensures { IfOk result (AreKeysOf wanted.entry) }
    {
        match wanted {
            Wanted::All => Ok(Keys::Any),
            Wanted::Items(asked) => {
                let mut ids = ids_of(alloc, asked)?;
                ids.sort_unstable();
                Ok(Keys::Ids(asked.account, ids))
            }
            Wanted::Stems(stems) => {
                let mut texts = octets_of(alloc, stems)?;
                texts.sort_unstable();
                Ok(Keys::Texts(texts))
            }
        }
    }

    /// Whether a name has one of them.
    fn have(&self, alloc: Global, name: &str) -> Result<bool, AllocError>
        requires { AreSearchable self.now }
        ensures { IfOk result (λ is. is ≡ keys_have self.now name.now) }
    {
        stems_differ();
        match self {
            Keys::Any => Ok(true),
            Keys::Ids(account, ids) => match uid_of(alloc, *account, name)? {
                Some(uid) => Ok(has_octets(ids.as_slice(), uid.as_slice())),
                None => Ok(false),
            },
            Keys::Texts(stems) => Ok(has_octets(stems.as_slice(), stem(name).as_bytes())),
        }
    }
}

/// Whether mail readers don't look at a name.
fn is_hidden_name(name: &[u8]) -> bool
    ensures { result ≡ is_hidden_name name.now }
{
    name.is_empty() || name.starts_with(b".")
}

/// The first name of those that the system tells, each of which a NUL ends, and what comes after it.
fn cut_name(octets: &[u8]) -> Option<(&[u8], &[u8])>
    ensures { MatchOption result (AllPass fits_name octets.now)
        (λ cut. (octets.now ≡ cut.0.now ++ 0 ∷ cut.1.now) × AllPass fits_name cut.0.now) }
{
    let end = memchr(0, octets)?;
    Some((&octets[..end], &octets[end + 1..]))
}

/// What is wanted, so that each name of a folder can be looked up.
#[derive(Drop)]
pub struct Search<'b> {
    wanted: Wanted<'b>,
    /// The keys, once a name was looked up.
    keys: Option<Keys<'b>>,
    ghost found: { ForSome keys (AreKeysOf wanted) },
}

impl<'b> Search<'b> {
    pub fn new(wanted: Wanted<'b>) -> Search<'b>
        ensures { result.wanted ≡ wanted.entry }
    {
        Search { wanted, keys: None }
    }

    /// Whether a name is wanted.
    fn has(&mut self, alloc: Global, name: &str) -> Result<bool, AllocError>
        ensures wanted { self.new.wanted ≡ self.old.wanted }
        ensures has { IfOk result (λ is. is ≡ is_sought_by self.old.wanted name.now) }
    {
        if let Some(keys) = &self.keys {
            return keys.have(alloc, name);
        }
        let keys = Keys::of(alloc, self.wanted)?;
        let has = keys.have(alloc, name)?;
        self.keys = Some(keys);
        Ok(has)
    }

    /// Adds a name, if it is told.
    fn add_name(
        &mut self,
        alloc: Global,
        name: &[u8],
        found: &mut Vec<String>,
    ) -> Result<(), AllocError>
        ensures wanted { self.new.wanted ≡ self.old.wanted }
        ensures adds { OnOk result (map string_bytes found.new.items ≡ map string_bytes found.old.items
            ++ (if is_listed self.old.wanted name.now then name.now ∷ [] else [])) }
    {
        if is_hidden_name(name) {
            return Ok(());
        }
        let Ok(text) = str::from_utf8(name) else {
            return Ok(());
        };
        if self.has(alloc, text)? {
            found.push(String::from_str(alloc, text)?)?;
        }
        Ok(())
    }

    /// Adds those of the names that are wanted, in order. Readers look at none that begins with a full stop, and one
    /// that isn't UTF-8 is skipped.
    pub fn add(
        &mut self,
        alloc: Global,
        octets: &[u8],
        found: &mut Vec<String>,
    ) -> Result<(), AllocError>
        ensures wanted { self.new.wanted ≡ self.old.wanted }
        ensures adds { OnOk result ((names : List (List ℕ)) → TellsNames octets.now names
            → map string_bytes found.new.items ≡ map string_bytes found.old.items
            ++ filter (is_listed self.old.wanted) names) }
    {
        let mut left = octets;
        while let Some((name, rest)) = cut_name(left) {
            self.add_name(alloc, name, found)?;
            left = rest;
        }
        Ok(())
    }
}
