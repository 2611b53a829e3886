//! A Maildir as a maildrop: the files of `cur` and `new` whose names don't begin with a full stop. In the Maildir
//! format a name stays the same up to its first colon; flags follow.
ghost use Rattle.std.specs.{
  IoError.error_kind,
  Prelude.{◌≡◌, ◌≢◌, ◌≤◌, ◌<◌, ◌+◌, ◌^◌, ◌↔◌, length, map, vec_len, IfOk, IfErr, IsTrue, Ok, None, []},
  String.string_bytes,
};
ghost use Rattle.mail_terms.specs.{
  Distinct.AreDistinct,
  FailureCount.{Tallies, counted_up, greatest_count, refuses},
};
ghost use Rattle.pop3_server.specs.Maildrop.{Gives, GivesPart, ListsMessages, Removes, is_drop_refusal};
ghost use Rattle.folder_drop.specs.{FilesMail.{FilesMail, ListsNames, mail_of}, RealMaildir.uid_of};

mod known_mail;
mod listing;
mod texts;

use crate::mail_files::MailFiles;
use crate::maildir_drop::known_mail::KnownMail;
use crate::maildir_folders::MaildirFolders;
use crate::removal::TwoMessages;
use mail_terms::FailureCount;
use pop3_server::{DropFault, Entry, MAX_COUNT, Maildrop};
use std::alloc::Global;
use std::env::Env;
use std::io::{self, ErrorKind};
use std::marker::Model;
use std::random::RandomSource;
use std::rt::Files;
use std::time::Clock;
use system_calls::System;

/// A maildrop over the calls for a Maildir. NoMemory means that a growth of its own was refused, or that a call of the
/// kernel answered ENOMEM.
#[derive(Drop)]
pub struct FilesDrop<D: MailFiles> {
    known: KnownMail<D>,
    /// The path of the file or folder that couldn't be read, if that made a listing fail.
    unread: Option<String>,
    /// The messages that weren't removed, each with the other one of its name.
    not_removed: Vec<TwoMessages>,
    failures: FailureCount,
    removals: u64,
}

/// A Maildir in a real folder. Nothing is known of what it holds: contracts see its path, the names of the files that
/// were listed, and the counts.
pub type MaildirDrop<'a, R> = FilesDrop<MaildirFolders<'a, R>>;

/// A message's file that is read in parts: the message's place, and how many octets were read.
#[derive(Drop)]
pub(crate) struct OpenText<F: Drop> {
    pub(crate) place: usize,
    pub(crate) read: usize,
    pub(crate) file: F,
}

impl<D: MailFiles> Model for FilesDrop<D> {
    ghost use Rattle.folder_drop.specs.FilesMail.{FilesMail, Knows};

    ghost Value = { FilesMail D };

    ghost view = { λ d. record {
      files = d.known.files;
      listed = d.known.listing.files;
      failures = d.failures;
      removals = d.removals;
    } };

    ghost invariant = { λ d. D.sound d.known.files → Knows D.File.remaining (D.files d.known.files)
        (D.looked d.known.files) d.known.listing d.known.earlier d.known.since d.known.reading };
}

impl<'a, R> FilesDrop<MaildirFolders<'a, R>>
where
    R: Files + Env + Clock + RandomSource + AllocGlobal + Clone + Drop,
{
    /// The maildrop of the Maildir at this path, which must have the folders `new` and `cur`.
    pub fn at(system: &'a System<'a, R>, path: String) -> FilesDrop<MaildirFolders<'a, R>>
        ensures path { string_bytes result.files.path ≡ string_bytes path }
        ensures new { (result.listed ≡ []) × (result.failures ≡ 0) × (result.removals ≡ 0) }
    {
        FilesDrop::over(MaildirFolders::at(system, path))
    }
}

/// Keeps the two messages that a removal told, if it did. Returns whether the message is removed.
fn is_removed(not_removed: &mut Vec<TwoMessages>, told: io::Result<Option<TwoMessages>>) -> bool
    ensures { IsTrue result ↔ told ≡ Ok None }
{
    match told {
        Ok(None) => true,
        Ok(Some(two)) => {
            let _ = not_removed.push(two);
            false
        }
        Err(_) => false,
    }
}

impl<D: MailFiles> FilesDrop<D> {
    /// The maildrop over these files.
    pub fn over(files: D) -> FilesDrop<D>
        ensures { result ≡ record { files = files; listed = []; failures = 0; removals = 0 } }
    {
        let alloc = files.alloc();
        FilesDrop {
            known: KnownMail::of(files),
            unread: None,
            not_removed: Vec::new(alloc),
            failures: FailureCount::new(),
            removals: 0,
        }
    }

    /// The same Maildir for another server, as at the start, except that removals are counted on, that the
    /// folders aren't searched again while the last listing is valid, and that the sizes of unchanged files
    /// aren't counted again.
    pub fn renewed(self) -> FilesDrop<D>
        ensures rest { result ≡ record self { files = result.files; listed = []; failures = 0 } }
        ensures path { D.path result.files ≡ D.path self.files }
        ensures kept { D.sound result.files → D.sound self.files }
    {
        let FilesDrop {
            known,
            removals,
            ..
        } = self;
        let known = known.renewed();
        let alloc = known.files.alloc();
        FilesDrop {
            known,
            unread: None,
            not_removed: Vec::new(alloc),
            failures: FailureCount::new(),
            removals,
        }
    }

    /// The path of the file or folder that couldn't be read, if that made a listing fail.
    pub fn unread(&self) -> Option<&str> {
        self.unread.as_deref()
    }

    /// The messages that weren't removed because another file of the same name, up to the first colon, is
    /// another message.
    pub fn not_removed(&self) -> &[TwoMessages] {
        self.not_removed.as_slice()
    }

    /// How many removals it was asked for.
    pub fn removals(&self) -> u64
        ensures { result ≡ self.now.removals }
    {
        self.removals
    }

    /// The path of what was refused last, unless memory ran out.
    fn unread_at(&self, error: &io::Error) -> Option<String> {
        let path = self.known.files.take_refused()?;
        if error.kind() == ErrorKind::OutOfMemory {
            return None;
        }
        Some(path)
    }

    /// The fault for an error of the system: NoMemory if memory ran out; any other error is a
    /// refusal, which is counted.
    fn refuse(&mut self, error: io::Error) -> DropFault
        ensures memory { error_kind error ≡ ErrorKind.OutOfMemory → result ≡ DropFault.NoMemory }
        ensures other { error_kind error ≢ ErrorKind.OutOfMemory → result ≡ DropFault.Refused }
        ensures others { self.new ≡ record self.old { failures = self.new.failures } }
        ensures count { Tallies (is_drop_refusal result) self.old.failures self.new.failures }
    {
        if error.kind() == ErrorKind::OutOfMemory {
            return DropFault::NoMemory;
        }
        self.failures.count_up();
        DropFault::Refused
    }
}

impl<D: MailFiles> Maildrop for FilesDrop<D> {
    ghost mail = { λ d. mail_of D.files d };

    ghost sound = { λ d. D.sound d.files × (d.failures < greatest_count) };

    fn entries(&mut self) -> Result<Vec<Entry>, DropFault>
        ensures within { IfOk result (λ entries. vec_len entries ≤ MAX_COUNT) }
        ensures distinct { IfOk result (λ entries. AreDistinct (map uid_of entries.items)) }
        ensures tally { Tallies (refuses is_drop_refusal result) self.old.failures self.new.failures }
        ensures removes_none { self.new.removals ≡ self.old.removals }
        ensures names { ListsNames self.old.listed result self.new.listed ×
            (D.path self.new.files ≡ D.path self.old.files) }
        ensures lists { D.sound self.new.files × (self.new.failures < greatest_count)
            → D.sound self.old.files × (self.old.failures < greatest_count)
            × ListsMessages (mail_of D.files self.old) result (mail_of D.files self.new) }
    {
        if self.failures.is_full() {
            return Err(DropFault::Refused);
        }
        // A message that the last listing left out may have the id of one that was removed.
        if self.known.are_removed() {
            self.failures.count_up();
            return Err(DropFault::Refused);
        }
        let _ = self.known.files.take_refused();
        match self.known.list_messages() {
            Ok(entries) => Ok(entries),
            Err(error) => {
                self.unread = self.unread_at(&error);
                Err(self.refuse(error))
            }
        }
    }

    fn text(&mut self, i: usize) -> Result<Vec<u8>, DropFault>
        ensures tally { Tallies (refuses is_drop_refusal result) self.old.failures self.new.failures }
        ensures others { self.new ≡ record self.old { failures = self.new.failures } }
        ensures gives { D.sound self.new.files × (self.new.failures < greatest_count)
            → D.sound self.old.files × (self.old.failures < greatest_count)
            × Gives (mail_of D.files self.old) i result (mail_of D.files self.new) }
    {
        if self.failures.is_full() {
            return Err(DropFault::Refused);
        }
        match self.known.read_file(i) {
            Ok(text) => Ok(text),
            Err(error) => Err(self.refuse(error)),
        }
    }

    fn part(&mut self, i: usize, start: usize, piece: &mut [u8]) -> Result<usize, DropFault>
        requires room { 0 < length piece.old }
        ensures within { IfOk result (λ n. n ≤ length piece.new) }
        ensures countable { IfOk result (λ n. start + n < 2 ^ 64) }
        ensures later { 0 < start → IfErr result (λ e. e ≡ DropFault.Refused) }
        ensures tally { Tallies (refuses is_drop_refusal result) self.old.failures self.new.failures }
        ensures others { self.new ≡ record self.old { failures = self.new.failures } }
        ensures gives { D.sound self.new.files × (self.new.failures < greatest_count)
            → D.sound self.old.files × (self.old.failures < greatest_count)
            × GivesPart (mail_of D.files self.old) i start result piece.new (mail_of D.files self.new) }
    {
        if self.failures.is_full() {
            return Err(DropFault::Refused);
        }
        match self.known.read_part(i, start, piece) {
            Ok(n) => Ok(n),
            Err(error) => {
                if start == 0 {
                    return Err(self.refuse(error));
                }
                self.failures.count_up();
                Err(DropFault::Refused)
            }
        }
    }

    fn remove(&mut self, i: usize) -> Result<(), DropFault>
        ensures err { IfErr result (λ e. e ≡ DropFault.Refused) }
        ensures tally { Tallies (refuses is_drop_refusal result) self.old.failures self.new.failures }
        ensures asks { self.new.removals ≡ counted_up self.old.removals }
        ensures others { (D.path self.new.files ≡ D.path self.old.files) × (self.new.listed ≡ self.old.listed) }
        ensures removes { D.sound self.new.files × (self.new.failures < greatest_count)
            → D.sound self.old.files × (self.old.failures < greatest_count)
            × Removes (mail_of D.files self.old) i result (mail_of D.files self.new) }
    {
        self.removals = self.removals.saturating_add(1);
        if self.failures.is_full() {
            return Err(DropFault::Refused);
        }
        let told = self.known.remove_file(i);
        if is_removed(&mut self.not_removed, told) {
            return Ok(());
        }
        self.failures.count_up();
        Err(DropFault::Refused)
    }

    fn failures(&self) -> u64 {
        self.failures.count()
    }
}
