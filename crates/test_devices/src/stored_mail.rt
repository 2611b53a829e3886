//! A file of a Maildir in memory, and what a loss of power leaves of it.

ghost use Rattle.std.specs.{
  Prelude.{◌≡◌, ◌⊎◌, ◌↔◌, ◌||◌, Contains, IfOk, IsTrue, false, if◌then◌else◌, true, map, option_map},
  Prelude.string_bytes,
};
ghost use Rattle.mail_terms.specs.{MaildirName.base, UniqueId.has_id};
ghost use Rattle.mail_store.specs.Loss.{is_among};
ghost use Rattle.folder_store.specs.{
  MailCalls.{entry_flushed_by, named_by},
  MailFolders.{MovesFile, is_in, is_told, touches},
  MailPower.IsMailLeftAs,
};
ghost use Rattle.test_devices.specs.MemoryFolders.{MayBeLeftAs, found_file, is_at, left_with, stored_file};

use mail_store::{Folder, stem};
use mail_terms::base;
use std::alloc::{AllocError, Global};

/// A file of one of the folders, and what of it is durable.
#[derive(Drop)]
pub(crate) struct StoredMail {
    pub(crate) is_new: bool,
    pub(crate) name: String,
    pub(crate) content: Vec<u8>,
    pub(crate) is_flushed: bool,
    pub(crate) is_named: bool,
    pub(crate) left_new: bool,
    pub(crate) left_cur: bool,
    pub(crate) is_gone: bool,
}

/// What a loss of power leaves of a file.
#[derive(Clone, Copy)]
pub enum MailLeft {
    /// It is where calls see it.
    Here,
    /// It is in the other folder, if it left that one since the names there were last flushed.
    Elsewhere,
    /// It is gone, if no name of it is durable.
    Gone,
    /// Its first octets, as many as this number, unless it was flushed.
    Front(usize),
}

/// A file that is found after a loss of power.
#[derive(Drop)]
pub struct FoundMail {
    pub is_new: bool,
    pub name: String,
    pub content: Vec<u8>,
}

/// Whether one of some texts is this one.
pub(crate) fn is_one_of(texts: &[String], text: &str) -> bool
    ensures is { result ≡ is_among texts.now text.now }
    ensures id { result ≡ has_id (map string_bytes texts.now) text.now }
    ensures has { IsTrue result ↔ Contains (map string_bytes texts.now) text.now }
{
    texts.iter().any(|other| other.as_str() == text)
}

/// The base of a name, with the mark of a file that was seen after it, unless it is for `new`.
fn name_for(alloc: Global, name: &str, is_new: bool) -> Result<String, AllocError>
    ensures { IfOk result (λ text. base (string_bytes text) ≡ base name.now) }
{
    let mut text = String::from_str(alloc, base(name))?;
    if is_new {
        return Ok(text);
    }
    text.push_str(":2,S")?;
    Ok(text)
}

impl StoredMail {
    fn is_in(&self, folder: Folder) -> bool
        ensures { result ≡ is_in folder (stored_file self.now) }
    {
        match folder {
            Folder::New => self.is_new,
            Folder::Cur => !self.is_new,
        }
    }

    // Whether it is in the folder and wasn't taken away.
    pub(crate) fn is_told(&self, folder: Folder) -> bool
        ensures { result ≡ is_told folder (stored_file self.now) }
    {
        !self.is_gone && self.is_in(folder)
    }

    // Whether it has a name in a folder, and wasn't taken away.
    pub(crate) fn is_at(&self, folder: Folder, name: &str) -> bool
        ensures { result ≡ is_at folder name.now (stored_file self.now) }
    {
        self.is_told(folder) && self.name.as_str() == name
    }

    // Whether it is in the folder, or left it since the names there were last flushed.
    fn touches(&self, folder: Folder) -> bool
        ensures { result ≡ touches folder (stored_file self.now) }
    {
        match folder {
            Folder::New => self.is_new || self.left_new,
            Folder::Cur => !self.is_new || self.left_cur,
        }
    }

    // Whether some name of it is durable once the names of the folder were flushed.
    fn is_named_by(&self, folder: Folder) -> bool
        ensures { result ≡ (self.now.is_named || touches folder (stored_file self.now)) }
    {
        self.is_named || self.touches(folder)
    }

    pub(crate) fn copy(&self) -> Result<StoredMail, AllocError>
        ensures { IfOk result (λ stored. stored_file stored ≡ stored_file self.now) }
    {
        Ok(StoredMail {
            is_new: self.is_new,
            name: self.name.clone()?,
            content: self.content.clone()?,
            is_flushed: self.is_flushed,
            is_named: self.is_named,
            left_new: self.left_new,
            left_cur: self.left_cur,
            is_gone: self.is_gone,
        })
    }

    // The file once the names of a folder were flushed.
    pub(crate) fn named_by(&self, folder: Folder) -> Result<StoredMail, AllocError>
        ensures { IfOk result (λ stored. stored_file stored ≡ named_by folder (stored_file self.now)) }
    {
        let mut copy = self.copy()?;
        copy.is_named = self.is_named_by(folder);
        match folder {
            Folder::New => copy.left_new = false,
            Folder::Cur => copy.left_cur = false,
        }
        Ok(copy)
    }

    // Whether its bytes are durable once files with these stems were flushed.
    fn is_flushed_by(&self, stems: &[String]) -> bool
        ensures { result ≡ (entry_flushed_by stems.now (stored_file self.now)).is_flushed }
    {
        self.is_flushed || is_one_of(stems, stem(self.name.as_str()))
    }

    // The file once those with these stems were flushed.
    pub(crate) fn flushed_by(&self, stems: &[String]) -> Result<StoredMail, AllocError>
        ensures { IfOk result (λ stored. stored_file stored ≡ entry_flushed_by stems.now (stored_file self.now)) }
    {
        let mut copy = self.copy()?;
        copy.is_flushed = self.is_flushed_by(stems);
        Ok(copy)
    }

    // The file once a reader moved it to `new`, or to `cur` with a mark.
    pub(crate) fn moved(&self, alloc: Global, is_new: bool) -> Result<StoredMail, AllocError>
        ensures moves { IfOk result (λ stored. MovesFile (stored_file self.now) (stored_file stored)) }
        ensures place { IfOk result (λ stored. stored.is_new ≡ is_new) }
    {
        let name = name_for(alloc, self.name.as_str(), is_new)?;
        let content = self.content.clone()?;
        Ok(StoredMail {
            is_new,
            name,
            content,
            is_flushed: self.is_flushed,
            is_named: self.is_named,
            left_new: self.touches(Folder::New),
            left_cur: self.touches(Folder::Cur),
            is_gone: self.is_gone,
        })
    }

    // The file after a loss of power, all of it durable.
    fn left_with(&self, is_new: bool, content: Vec<u8>) -> Result<StoredMail, AllocError>
        ensures { IfOk result (λ stored. stored_file stored ≡ left_with is_new content.items (stored_file self.now)) }
    {
        Ok(StoredMail {
            is_new,
            name: self.name.clone()?,
            content,
            is_flushed: true,
            is_named: true,
            left_new: false,
            left_cur: false,
            is_gone: self.is_gone,
        })
    }

    // Whether it may be in the other folder: it left that one since the names there were last flushed.
    fn may_be_elsewhere(&self) -> bool
        ensures { result ≡ (if self.now.is_new then self.now.left_cur else self.now.left_new) }
    {
        if self.is_new {
            self.left_cur
        } else {
            self.left_new
        }
    }

    // Whether a loss of power may leave nothing of it to be found.
    pub(crate) fn may_go(&self) -> bool
        ensures { IsTrue result ↔ (self.now.is_named ≡ false) ⊎ (self.now.is_gone ≡ true) }
    {
        !self.is_named || self.is_gone
    }

    // Whether a loss of power may leave it as this.
    pub(crate) fn may_be(&self, found: &FoundMail) -> bool
        ensures { IsTrue result ↔ IsMailLeftAs (stored_file self.now) (found_file found.now) }
    {
        let folder = if found.is_new {
            Folder::New
        } else {
            Folder::Cur
        };
        base(self.name.as_str()) == base(found.name.as_str())
            && self.touches(folder)
            && (!self.is_flushed || self.content.as_slice() == found.content.as_slice())
    }

    // What is left of the file, as the choice says.
    pub(crate) fn left(&self, choice: MailLeft) -> Result<Option<StoredMail>, AllocError>
        ensures { IfOk result (λ left. MayBeLeftAs (stored_file self.now) (option_map stored_file left)) }
    {
        match choice {
            MailLeft::Gone if !self.is_named => Ok(None),
            MailLeft::Elsewhere if self.may_be_elsewhere() => {
                Ok(Some(self.left_with(!self.is_new, self.content.clone()?)?))
            }
            MailLeft::Front(len) if !self.is_flushed => {
                let mut bytes = self.content.clone()?;
                bytes.truncate(len);
                Ok(Some(self.left_with(self.is_new, bytes)?))
            }
            _ => Ok(Some(self.left_with(self.is_new, self.content.clone()?)?)),
        }
    }
}
