//! The names in the folders of a Maildir in memory.
ghost use Rattle.std.specs.{
  IoError.error_kind,
  List.{HoldsAt, Sorted.{IsPartitionPoint, IsPermutation}, filter},
  Prelude.{◌≡◌, ◌≢◌, ◌≤◌, ◌<◌, ◌∷◌, [], All, Contains, IfErr, IfOk, length, map, true},
  declared.{cmp.Ordering.TheVariants.{Greater, Less}, io.ErrorKind.TheVariants.NotFound},
};
ghost use Rattle.folder_drop.specs.{
  MaildirNames.is_listable_name,
  MemoryNames.{AreAscendingPlaces, RefusesName, is_elsewhere, place_of_name},
  Places.{folder_and_name, places_cmp},
};

use crate::maildir_names::{Folder, PlacedFile, check_name};
use mail_terms::base;
use std::alloc::{AllocError, Global};
use std::cmp::Ordering;
use std::io::{self, ErrorKind};

/// A name, and which file has it.
#[derive(Clone, Copy)]
pub struct MemoryName<'a> {
    pub folder: Folder,
    pub name: &'a str,
    pub file: usize,
}

impl<'a> MemoryName<'a> {
    /// How its place is ordered beside another one, in the order of messages.
    fn cmp_place(&self, folder: Folder, name: &str) -> Ordering
        ensures { result ≡ places_cmp (place_of_name self.now) (folder, name.now) }
    {
        let own = (
            base(self.name).as_bytes(),
            self.folder,
            self.name.as_bytes(),
        );
        own.cmp(&(base(name).as_bytes(), folder, name.as_bytes()))
    }

    /// Whether it is another one.
    fn is_elsewhere(&self, folder: Folder, name: &str) -> bool
        ensures { result ≡ is_elsewhere (folder, name.now) (place_of_name self.now) }
    {
        self.folder != folder || self.name != name
    }
}

/// Names in the order of messages, each once.
#[derive(Drop)]
pub struct MemoryNames<'a> {
    items: Vec<MemoryName<'a>>,
    ghost ascending: { AreAscendingPlaces (map place_of_name items.items) },
}

impl<'a> MemoryNames<'a> {
    /// No names.
    pub fn new(alloc: Global) -> MemoryNames<'a>
        ensures { result.items.items ≡ [] }
    {
        MemoryNames {
            items: Vec::new(alloc),
        }
    }

    /// Where a name is, or how many come before it.
    fn search(&self, folder: Folder, name: &str) -> Result<usize, usize>
        ensures found { IfOk result (λ at. (at < length self.now.items.items)
            × HoldsAt (λ one. place_of_name one ≡ (folder, name.now)) self.now.items.items at) }
        ensures between { IfErr result (λ at. (at ≤ length self.now.items.items)
            × IsPartitionPoint (λ one. places_cmp (place_of_name one) (folder, name.now) ≡ Less)
            (λ one. places_cmp (place_of_name one) (folder, name.now) ≡ Greater) self.now.items.items at) }
    {
        self.items.binary_search_by(
            |one|
                ensures { result ≡ places_cmp (place_of_name one.entry.now) (folder, name.entry.now) }
            { one.cmp_place(folder, name) },
        )
    }

    /// Which file has a name.
    pub fn find(&self, folder: Folder, name: &str) -> io::Result<MemoryName<'a>>
        ensures ok { IfOk result (λ one. Contains self.now.items.items one × (place_of_name one ≡ (folder, name.now))) }
        ensures err { IfErr result (λ error. (error_kind error ≡ NotFound)
            × All (λ one. place_of_name one ≢ (folder, name.now)) self.now.items.items) }
    {
        match self.search(folder, name) {
            Ok(at) => Ok(self.items[at]),
            Err(_) => Err(io::Error::from(ErrorKind::NotFound)),
        }
    }

    /// These and one more.
    pub fn with(&self, alloc: Global, one: MemoryName<'a>) -> io::Result<MemoryNames<'a>>
        ensures ok { IfOk result (λ names. (is_listable_name one.entry.name.now ≡ true)
            × IsPermutation (one.entry ∷ self.now.items.items) names.items.items) }
        ensures err { IfErr result (λ error.
            RefusesName (map place_of_name self.now.items.items) (place_of_name one.entry) (error_kind error)) }
    {
        check_name(one.name)?;
        let Err(at) = self.search(one.folder, one.name) else {
            return Err(io::Error::from(ErrorKind::AlreadyExists));
        };
        let mut items = Vec::from_slice(alloc, self.items.as_slice())?;
        items.insert(at, one)?;
        Ok(MemoryNames { items })
    }

    /// These without one.
    pub fn without(
        &self,
        alloc: Global,
        folder: Folder,
        name: &str,
    ) -> Result<MemoryNames<'a>, AllocError>
        ensures { IfOk result (λ names. names.items.items
            ≡ filter (λ one. is_elsewhere (folder, name.now) (place_of_name one)) self.now.items.items) }
    {
        let mut items = Vec::new(alloc);
        for one in &self.items {
            if one.is_elsewhere(folder, name) {
                items.push(*one)?;
            }
        }
        Ok(MemoryNames { items })
    }

    /// A listing of them.
    pub fn listed(&self, alloc: Global) -> Result<Vec<PlacedFile>, AllocError>
        ensures { IfOk result (λ files. map folder_and_name files.items ≡ map place_of_name self.now.items.items) }
    {
        let mut files = Vec::new(alloc);
        for one in &self.items {
            let name = String::from_str(alloc, one.name)?;
            files.push(PlacedFile::of(one.folder, name))?;
        }
        Ok(files)
    }
}
