//! The listing of a Maildir: the files of the messages, which have different ids.
ghost use Rattle.std.specs.Prelude.{
  ◌≡◌,
  ◌≤◌,
  ◌<◌,
  ◌++◌,
  ◌∷◌,
  ◌↔◌,
  [],
  IsTrue,
  IsFalse,
  IfOk,
  OnOk,
  length,
  map,
  vec_len,
};
ghost use Rattle.folder_drop.specs.{
  declared.folders_look.FoldersLook.FoldersLook,
  FoldersLook.IsUnchanged,
  Listing.{AreListed, FollowsLast, IsBeforeLast, IsUnseen, MayBeListed, size_of_entry, size_of_file},
  RealMaildir.{AreAscending, HaveIds, listed_name, listed_names, uid_of},
};
ghost use Rattle.mail_terms.specs.{Distinct.AreDistinct, MaildirName.base as base_of};
ghost use Rattle.pop3_server.specs.Maildrop.{max_size};

use crate::folders_look::FoldersLook;
use crate::listed_file::ListedFile;
use crate::maildir_names::unique_id;
use pop3_server::{Entry, MAX_COUNT};
use pop3_wire::Bytes;
use std::alloc::{AllocError, Global};
use std::collections::HashSet;
use std::hash::RandomState;
use std::marker::Model;

/// The files of the listed messages, in their order, and the look at the folders after which they were
/// found.
#[derive(Drop)]
pub struct DropListing {
    look: FoldersLook,
    files: Vec<ListedFile>,
}

impl Model for DropListing {
    ghost use Rattle.folder_drop.specs.Listing.{AreMessages, FileListing};

    ghost Value = { FileListing };

    ghost view = { λ l. record { look = l.look; files = l.files.items } };

    ghost invariant = { λ l. AreMessages l.files.items };
}

impl DropListing {
    /// No listing; it is never valid.
    pub fn none(alloc: Global) -> DropListing
        ensures files { result.files ≡ [] }
        ensures never { (later : FoldersLook) → IsUnchanged result.look later → ⊥ }
    {
        DropListing {
            look: FoldersLook::none(),
            files: Vec::new(alloc),
        }
    }

    /// The look at the folders after which the files were found.
    pub fn look(&self) -> &FoldersLook
        ensures { result.now ≡ self.now.look }
    {
        &self.look
    }

    /// The files.
    pub fn files(&self) -> &[ListedFile]
        ensures files { result.now ≡ self.now.files }
        ensures in_order { AreAscending (listed_names self.now.files) }
    {
        self.files.as_slice()
    }

    /// The messages, each with its id and the size of its file.
    pub fn entries(&self, alloc: Global) -> Result<Vec<Entry>, AllocError>
        ensures within { IfOk result (λ entries. vec_len entries ≤ MAX_COUNT) }
        ensures distinct { IfOk result (λ entries. AreDistinct (map uid_of entries.items)) }
        ensures names { IfOk result (λ entries. HaveIds entries.items (listed_names self.now.files)) }
        ensures sizes { IfOk result (λ entries. map size_of_entry entries.items ≡ map size_of_file self.now.files) }
        ensures in_order { AreAscending (listed_names self.now.files) }
    {
        let mut entries = Vec::with_capacity(alloc, self.files.len())?;
        for file in self.files.as_slice() {
            let uid = Bytes::from_vec(unique_id(alloc, file.base().as_bytes())?);
            entries.push(Entry::new(uid, file.size))?;
        }
        Ok(entries)
    }
}

/// The files that are listed so far, and those of their ids that are as long as a digest. All other ids are bases,
/// and these differ, since files are listed in their order.
#[derive(Drop)]
pub struct ListedFiles {
    pub files: Vec<ListedFile>,
    pub long_ids: HashSet<Vec<u8>, RandomState>,
}

impl ListedFiles {
    /// None yet, with room for so many.
    pub fn with_capacity(
        alloc: Global,
        capacity: usize,
        hasher: RandomState,
    ) -> Result<ListedFiles, AllocError>
        ensures empty { IfOk result (λ listed. listed.files.items ≡ []) }
        ensures listed { IfOk result (λ listed. AreListed listed.long_ids listed.files.items) }
    {
        Ok(ListedFiles {
            files: Vec::with_capacity(alloc, capacity)?,
            long_ids: HashSet::with_hasher(alloc, hasher),
        })
    }

    /// Whether as many messages are listed as may be.
    pub fn is_full(&self) -> bool
        ensures { IsTrue result ↔ MAX_COUNT ≤ vec_len self.now.files }
    {
        self.files.len() >= MAX_COUNT
    }

    /// Whether a base comes after those of all files that are listed.
    pub fn is_behind(&self, base: &str) -> bool
        ensures behind { IsTrue result → FollowsLast self.now.files.items base.now }
        ensures before { IsFalse result → IsBeforeLast self.now.files.items base.now }
    {
        match self.files.last() {
            Some(last) => last.base() < base,
            None => true,
        }
    }

    /// Whether an id isn't one of the long ones that are listed.
    pub fn is_unseen(&self, long_id: &Option<Vec<u8>>) -> bool
        ensures { IsTrue result ↔ IsUnseen self.now.long_ids long_id.now }
    {
        match long_id {
            Some(id) => !self.long_ids.contains(id),
            None => true,
        }
    }

    /// Lists one more file.
    pub fn add(&mut self, long_id: Option<Vec<u8>>, file: ListedFile) -> Result<(), AllocError>
        ensures added { OnOk result (self.new.files.items ≡ self.old.files.items ++ file ∷ []) }
        ensures listed { OnOk result (MayBeListed self.old.long_ids self.old.files.items long_id
            (base_of (listed_name file)) → vec_len self.old.files < MAX_COUNT → file.size ≤ max_size
            → AreListed self.old.long_ids self.old.files.items → AreListed self.new.long_ids self.new.files.items) }
    {
        if let Some(id) = long_id {
            self.long_ids.insert(id)?;
        }
        self.files.push(file)?;
        Ok(())
    }

    /// The listing of these files, found after this look.
    pub fn into_listing(self, look: FoldersLook) -> DropListing
        requires { AreListed self.long_ids self.files.items }
        ensures { result ≡ record { look = look; files = self.files.items } }
    {
        DropListing {
            look,
            files: self.files,
        }
    }
}
