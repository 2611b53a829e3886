//! A Maildir in folders of a file system.

ghost use Rattle.std.specs.{
  Prelude.{◌≡◌, ◌<◌, ◌+◌, [], IfSome, codes, map, option_map, string_bytes},
  List.list_any,
  Option.{option_copied, option_or},
};
ghost use Rattle.mail_terms.specs.FailureCount.{greatest_count};
ghost use Rattle.folder_store.specs.{
  Handles.unflushed_path,
  HostPaths.AreInMaildir,
  MailFolders.{draft_begun, is_file_name, ends_name, maildir_in, unknown_maildir},
  NewDevices.{LeftMaildirsStay, LossesMayLeave, NewMaildirsKeepMail},
};

use crate::durable_names::{put_durably, told_names, told_names_of};
use crate::file_folder::NewFile;
use crate::host_folders::{CallsFolders, HostFolders};
use crate::mail_folders::MailFolders;
use crate::new_file::HostNewFile;
use crate::process_mark::ProcessMark;
use crate::tally::tally;
use mail_store::{AccountId, Asked, Folder, MaildirDisk, StoreFault, admit, refuse};
use mail_terms::FailureCount;
use std::alloc::Global;
use std::rt::Files;
use std::time::Clock;
use system_calls::System;

/// A Maildir in the folders `new` and `cur` of a file system, whatever mail readers move there
/// meanwhile; what is made for `new` is in `tmp`.
///
/// A file is flushed before it is put into `new`, and then the names of `new` are flushed, so that a
/// delivered text is durable. The names of both folders are flushed before they are returned, so that
/// no loss of power takes one back.
#[derive(Drop)]
pub struct FolderMaildir<F, N> {
    alloc: Global,
    folders: F,
    /// The name and the file that is being written.
    begun: Option<(String, N)>,
    /// The names that the last listing of both folders found to be borne by what can't be opened.
    odd: Vec<String>,
    failures: FailureCount,
}

/// One in the folders of the host.
pub type HostMaildir<'a, R> = FolderMaildir<HostFolders<'a, R>, HostNewFile<'a, R>>;

impl<N: NewFile + Drop, F: MailFolders<File = N> + Drop> FolderMaildir<F, N> {
    /// The Maildir of these folders.
    pub fn over(alloc: Global, folders: F) -> FolderMaildir<F, N>
        ensures state { ⟦<FolderMaildir<F, N> as MaildirDisk>⟧.maildir result
            ≡ maildir_in (F.directories folders) None [] 0 }
        ensures over { result.folders ≡ folders }
        ensures sound { F.sound folders → ⟦<FolderMaildir<F, N> as MaildirDisk>⟧.sound result }
    {
        FolderMaildir {
            alloc,
            folders,
            begun: None,
            odd: Vec::new(alloc),
            failures: FailureCount::new(),
        }
    }

    /// Gives the folders back.
    pub fn into_folders(self) -> F
        ensures { result ≡ self.folders }
    {
        let FolderMaildir {
            alloc: _,
            folders,
            begun: _,
            odd: _,
            failures: _,
        } = self;
        folders
    }
}

impl<'a, R: Files + Clock + AllocGlobal + Clone + Drop> HostMaildir<'a, R> {
    /// The Maildir at a path, absolute or taken from the working folder. It must hold the folders
    /// `tmp`, `new` and `cur`; none of them is made.
    pub fn at(system: &'a System<'a, R>, path: &'a str, mark: ProcessMark) -> HostMaildir<'a, R>
        ensures state { ⟦<HostMaildir<'a, R> as MaildirDisk>⟧.maildir result ≡ unknown_maildir }
        ensures in_new { AreInMaildir result.folders.calls.new_folder.paths path.now (codes "new") }
        ensures in_cur { AreInMaildir result.folders.calls.cur_folder.paths path.now (codes "cur") }
    {
        FolderMaildir::over(system.alloc(), CallsFolders::of_maildir(system, path, mark))
    }

    /// Removes from `tmp` the files of an account that killed runs left behind: those that weren't
    /// changed for an hour. What can't be removed stays.
    pub fn sweep(&self, account: &AccountId) {
        let digits = account.as_str();
        if let Ok(front) = format!(in self.alloc; "{digits}.") {
            self.folders.sweep(front.as_str());
        }
    }

    /// What the last call that told names found to bear the name of a message and couldn't open: the path of each, and
    /// why.
    pub fn obstructions(&self) -> &[Vec<u8>]
        ensures { result.now ≡ self.now.folders.obstructions.items }
    {
        self.folders.obstructions()
    }

    /// Whether a delivery was refused because something that is no file has its name.
    pub fn is_name_taken(&self) -> bool
        ensures { result ≡ self.now.folders.is_name_taken }
    {
        self.folders.is_name_taken()
    }

    /// The path of a folder whose names weren't flushed because the system flushes no folders, if there is
    /// one.
    pub fn unflushed(&self) -> Option<&str>
        ensures { option_copied result ≡ option_or (unflushed_path self.now.folders.calls.new_folder.handles)
            (unflushed_path self.now.folders.calls.cur_folder.handles) }
    {
        self.folders.unflushed()
    }
}

/// Whether an octet is in no file's name.
fn ends_name(octet: u8) -> bool
    ensures { result ≡ ends_name octet }
{
    octet == b'/' || octet == 0
}

/// Whether octets have one that is in no file's name.
fn has_end(octets: &[u8]) -> bool
    ensures { result ≡ list_any ends_name octets.now }
{
    octets.iter().any(|octet| ends_name(*octet))
}

/// Whether a name stands for a file of the folder itself that readers of a Maildir look at: it
/// isn't empty, doesn't begin with a full stop and holds no `/` and no NUL.
fn is_file_name(name: &str) -> bool
    ensures { result ≡ is_file_name name.now }
{
    let octets = name.as_bytes();
    !octets.is_empty() && !octets.starts_with(b".") && !has_end(octets)
}

impl<N: NewFile + Drop, F: MailFolders<File = N> + Drop> MaildirDisk for FolderMaildir<F, N> {
    ghost maildir = { λ d. maildir_in (F.directories d.folders) (option_map (draft_begun N.made) d.begun)
        (map string_bytes d.odd.items) d.failures };

    ghost sound = { λ d. F.sound d.folders × IfSome d.begun (λ begun. N.sound begun.1)
        × (d.failures < greatest_count) };

    fn names(&mut self, folder: Folder) -> Result<Vec<String>, StoreFault> {
        admit(&self.failures)?;
        tally(&mut self.failures, told_names_of(&mut self.folders, folder))
    }

    fn names_among(&mut self, asked: Asked<'_>) -> Result<Vec<String>, StoreFault> {
        admit(&self.failures)?;
        let found = tally(&mut self.failures, told_names(&mut self.folders, asked))?;
        self.odd = found.odd;
        Ok(found.files)
    }

    fn odd(&self) -> &[String] {
        &self.odd
    }

    fn check(&mut self, folder: Folder) -> Result<(), StoreFault> {
        admit(&self.failures)?;
        tally(&mut self.failures, self.folders.check(folder))
    }

    fn flush(&mut self, stems: &[String], may_miss: bool) -> Result<bool, StoreFault> {
        admit(&self.failures)?;
        match self.folders.flush_files(stems, may_miss) {
            Ok(are_flushed) => Ok(are_flushed),
            Err(_) => Err(refuse(&mut self.failures)),
        }
    }

    fn begin(&mut self, name: &str) -> Result<(), StoreFault> {
        admit(&self.failures)?;
        if self.begun.is_some() || !is_file_name(name) {
            return Err(refuse(&mut self.failures));
        }
        let Ok(title) = String::from_str(self.alloc, name) else {
            return Err(refuse(&mut self.failures));
        };
        match self.folders.make(name) {
            Ok(file) => {
                self.begun = Some((title, file));
                Ok(())
            }
            Err(StoreFault::Missing) => Err(StoreFault::Missing),
            Err(_) => Err(refuse(&mut self.failures)),
        }
    }

    fn add(&mut self, bytes: &[u8]) -> Result<(), StoreFault> {
        admit(&self.failures)?;
        let Some((title, file)) = self.begun.take() else {
            return Err(refuse(&mut self.failures));
        };
        let mut file = file;
        let answer = file.write(bytes);
        self.begun = Some((title, file));
        match answer {
            Ok(()) => Ok(()),
            Err(_) => Err(refuse(&mut self.failures)),
        }
    }

    fn settle(&mut self, name: &str) -> Result<(), StoreFault> {
        if let Err(fault) = admit(&self.failures) {
            self.abandon();
            return Err(fault);
        }
        let Some((_, file)) = self.begun.take() else {
            return Err(refuse(&mut self.failures));
        };
        if !is_file_name(name) {
            self.folders.discard(file);
            return Err(refuse(&mut self.failures));
        }
        match put_durably(&mut self.folders, file, name) {
            Ok(_) => Ok(()),
            Err(_) => Err(refuse(&mut self.failures)),
        }
    }

    fn abandon(&mut self) {
        if let Some((_, file)) = self.begun.take() {
            self.folders.discard(file);
        }
    }

    fn failures(&self) -> u64 {
        self.failures.count()
    }
}

/// A loss of power of the folders is one of the Maildir. Made anew over the same folders, a Maildir has the
/// files of the last one, and as much of them is durable; over folders that a loss of power left, all is.
pub fn new_maildirs_keep_mail<N: NewFile + Drop, F: MailFolders<File = N> + Drop>()
    ensures losses { LossesMayLeave ⟦<FolderMaildir<F, N> as MaildirDisk>⟧ (λ d. F.directories d.folders) }
    ensures keeps { NewMaildirsKeepMail ⟦<FolderMaildir<F, N> as MaildirDisk>⟧ (λ d. F.directories d.folders) }
    ensures stays { LeftMaildirsStay ⟦<FolderMaildir<F, N> as MaildirDisk>⟧ (λ d. F.directories d.folders) }
{}
