//! A Maildir in memory.

ghost use Rattle.std.specs.{
  Prelude.{◌≡◌, ◌<◌, ◌↔◌, ◌++◌, [], length, map, Contains, HoldsAt, IfOk, IfSome, IsSome, OnOk},
  List.filter,
  String.string_bytes,
};
ghost use Rattle.mail_store.specs.{Held.{asks, is_sought}, Maildir.{all_there, names_of, memory_file}};

use crate::fault::StoreFault;
use crate::maildir::disk::{Asked, Folder, MaildirDisk};
use crate::maildir::names::sought_names;
use crate::refusal::{admit, refuse};
use mail_terms::FailureCount;
use std::alloc::{AllocError, Global};
use std::marker::Model;

/// A Maildir in memory. As long as the program runs, no loss of power reaches it: all of its files count as
/// durable. Below the greatest count it refuses a call only if memory runs out.
#[derive(Drop)]
pub struct MemoryMaildir {
    alloc: Global,
    in_new: Vec<(String, Vec<u8>)>,
    in_cur: Vec<(String, Vec<u8>)>,
    begun: Option<(String, Vec<u8>)>,
    failures: FailureCount,
}

impl Model for MemoryMaildir {
    ghost use Rattle.std.specs.Prelude.{[], ◌++◌, map, option_map};
    ghost use Rattle.mail_store.specs.{Maildir.{all_there, draft_of, memory_file}, MemoryMaildir.{MemoryMail, shown}};

    ghost Value = { MemoryMail };

    ghost view = { λ d. record {
      maildir = record {
        there = all_there;
        files = map shown (map memory_file d.in_cur.items ++ map memory_file d.in_new.items);
        begun = option_map draft_of d.begun;
        failures = d.failures;
        taken = [];
        odd = [];
        told = [];
      };
      in_new = map memory_file d.in_new.items;
      in_cur = map memory_file d.in_cur.items;
    } };
}

impl MemoryMaildir {
    ghost use Rattle.std.specs.Prelude.{◌≡◌, ◌↔◌, ◌++◌, ◌∷◌, [], None, map, slice_index, IsTrue, IsSome, OnErr, OnOk};
    ghost use Rattle.mail_store.specs.{
      Maildir.{all_there, file, memory_file, mail},
      MemoryMaildir.{MovesToCur, files_of_folder},
    };

    /// A Maildir without files.
    pub fn new(alloc: Global) -> MemoryMaildir
        ensures maildir { result ≡ record {
          maildir = record {
            there = all_there;
            files = [];
            begun = None;
            failures = 0;
            taken = [];
            odd = [];
            told = [];
          };
          in_new = [];
          in_cur = [];
        } }
        ensures sound { ⟦<MemoryMaildir as MaildirDisk>⟧.sound result }
    {
        MemoryMaildir {
            alloc,
            in_new: Vec::new(alloc),
            in_cur: Vec::new(alloc),
            begun: None,
            failures: FailureCount::new(),
        }
    }

    /// The files of a folder, each with its name and its bytes, in the order in which they came to it.
    pub fn files(&self, folder: Folder) -> &[(String, Vec<u8>)]
        ensures { map memory_file result.now ≡ files_of_folder self.now folder }
    {
        match folder {
            Folder::New => self.in_new.as_slice(),
            Folder::Cur => self.in_cur.as_slice(),
        }
    }

    /// Whether a file is begun.
    pub fn is_begun(&self) -> bool
        ensures { IsTrue result ↔ IsSome self.now.maildir.begun }
    {
        self.begun.is_some()
    }

    /// Adds a file to `new`. If memory runs out, nothing changes.
    fn put(&mut self, name: &str, content: Vec<u8>) -> Result<(), AllocError>
        ensures puts { OnOk result (self.new ≡ record self.old {
          maildir = record self.old.maildir { files = self.old.maildir.files ++ mail name.now content.items ∷ [] };
          in_new = self.old.in_new ++ file name.now content.items ∷ [];
        }) }
        ensures same { OnErr result (self.new ≡ self.old) }
    {
        let name = String::from_str(self.alloc, name)?;
        self.in_new.push((name, content))?;
        Ok(())
    }

    /// Moves a file from `new` to `cur` and appends a suffix, which begins with a colon, to its name, as a reader
    /// does after it has seen the message. False, with nothing changed, if no file of `new` has the name, or a
    /// file of `cur` has the name that would result.
    pub fn move_to_cur(&mut self, name: &str, suffix: &str) -> Result<bool, AllocError>
        requires { slice_index suffix.now 0 ≡ 58 }
        ensures { MovesToCur self.old name.now (name.now ++ suffix.now) result self.new }
    {
        let mut moved = String::from_str(self.alloc, name)?;
        moved.push_str(suffix)?;
        if place_of(&self.in_cur, moved.as_str()).is_some() {
            return Ok(false);
        }
        let Some(at) = place_of(&self.in_new, name) else {
            return Ok(false);
        };
        self.in_cur.reserve(1)?;
        let (_, content) = self.in_new.remove(at);
        self.in_cur.push((moved, content)).unwrap();
        Ok(true)
    }
}

/// The place of a file of this name, if there is one.
fn place_of(files: &[(String, Vec<u8>)], name: &str) -> Option<usize>
    ensures some { IfSome result (λ place. (place < length files.now)
        × HoldsAt (λ file. string_bytes file.0 ≡ name.now) files.now place) }
    ensures there { IsSome result ↔ Contains (names_of (map memory_file files.now)) name.now }
{
    for (place, file) in files.iter().enumerate() {
        if file.0.as_str() == name {
            return Some(place);
        }
    }
    None
}

/// Adds the names of some files.
fn add_names(names: &mut Vec<String>, files: &[(String, Vec<u8>)]) -> Result<(), AllocError>
    ensures { OnOk result (map string_bytes names.new.items
        ≡ map string_bytes names.old.items ++ names_of (map memory_file files.now)) }
{
    for (name, _) in files {
        names.push(name.clone()?)?;
    }
    Ok(())
}

/// The names of the files of two folders that have the stem of an item that is asked for.
fn names_among(
    alloc: Global,
    cur: &[(String, Vec<u8>)],
    new: &[(String, Vec<u8>)],
    asked: Asked<'_>,
) -> Result<Vec<String>, AllocError>
    ensures { IfOk result (λ names. map string_bytes names.items ≡ filter (is_sought (asks asked.entry))
        (names_of (map memory_file cur.now) ++ names_of (map memory_file new.now))) }
{
    let mut names = Vec::new(alloc);
    add_names(&mut names, cur)?;
    add_names(&mut names, new)?;
    sought_names(alloc, &names, asked)
}

/// A law: of any Maildir in memory the folders are there, and all in it can be opened.
pub fn memory_can_be_opened(disk: &MemoryMaildir)
    ensures there { disk.now.maildir.there ≡ all_there }
    ensures none_odd { disk.now.maildir.odd ≡ [] }
{
    let _failures = disk.failures.count();
}

/// The names of some files.
fn names_of(alloc: Global, files: &[(String, Vec<u8>)]) -> Result<Vec<String>, AllocError>
    ensures { IfOk result (λ names. map string_bytes names.items ≡ names_of (map memory_file files.now)) }
{
    let mut names = Vec::new(alloc);
    add_names(&mut names, files)?;
    Ok(names)
}

impl MaildirDisk for MemoryMaildir {
    ghost use Rattle.std.specs.Prelude.{◌≡◌, ◌<◌, ◌++◌, false, map, true, None, Some, Ok, IfOk, IsOk, IsSome, OnErr};
    ghost use Rattle.std.specs.Prelude.{OnOk};
    ghost use Rattle.mail_terms.specs.FailureCount.{greatest_count};
    ghost use Rattle.mail_store.specs.{Devices.{DiskDoes, DiskRefuses}, Loss.Flushes};
    ghost use Rattle.mail_store.specs.Maildir.{Adds, AfterTaking, Begins, Checks, IsThere, Lists, Settles, dropped};
    ghost use Rattle.mail_store.specs.Maildir.{name_begun};
    ghost use Rattle.mail_store.specs.MemoryMaildir.{AddsAlone, BeginsAlone, ChangesOnlyCount, SettlesAlone};
    ghost use Rattle.mail_store.specs.MemoryMaildir.{files_of_folder, with_begun};

    ghost maildir = { λ d. d.maildir };

    ghost sound = { λ d. d.maildir.failures < greatest_count };

    fn names(&mut self, folder: Folder) -> Result<Vec<String>, StoreFault>
        ensures tells { IfOk result (λ names. map string_bytes names.items
            ≡ names_of (files_of_folder self.old folder)) }
        ensures keeps { ChangesOnlyCount self.old self.new }
        ensures lists { DiskDoes ⟦<MemoryMaildir as MaildirDisk>⟧
            (λ old new. AfterTaking old (λ left. Lists left folder result new)) self.old self.new }
        ensures refuses { DiskRefuses ⟦<MemoryMaildir as MaildirDisk>⟧ self.old result self.new }
    {
        admit(&self.failures)?;
        match names_of(self.alloc, self.files(folder)) {
            Ok(names) => Ok(names),
            Err(_) => Err(refuse(&mut self.failures)),
        }
    }

    fn names_among(&mut self, asked: Asked<'_>) -> Result<Vec<String>, StoreFault> {
        admit(&self.failures)?;
        match names_among(self.alloc, &self.in_cur, &self.in_new, asked) {
            Ok(names) => Ok(names),
            Err(_) => Err(refuse(&mut self.failures)),
        }
    }

    fn odd(&self) -> &[String] {
        let _ = self.in_new.len();
        &[]
    }

    // It takes no memory, so below the greatest count it isn't refused.
    fn check(&mut self, folder: Folder) -> Result<(), StoreFault>
        ensures answers { self.old.maildir.failures < greatest_count → IsOk result }
        ensures keeps { self.new ≡ self.old }
        ensures checks { DiskDoes ⟦<MemoryMaildir as MaildirDisk>⟧
            (λ old new. Checks old folder result new) self.old self.new }
        ensures refuses { DiskRefuses ⟦<MemoryMaildir as MaildirDisk>⟧ self.old result self.new }
    {
        admit(&self.failures)
    }

    // It takes no memory either.
    #[tactic(auto, using(crate::proofs::MaildirLemmas::all_flushed))]
    fn flush(&mut self, stems: &[String], may_miss: bool) -> Result<bool, StoreFault>
        ensures answers { self.old.maildir.failures < greatest_count → result ≡ Ok true }
        ensures keeps { self.new ≡ self.old }
        ensures flushes { DiskDoes ⟦<MemoryMaildir as MaildirDisk>⟧
            (λ old new. Flushes old stems.now result new) self.old self.new }
        ensures misses { result ≡ Ok false → may_miss ≡ true }
        ensures refuses { DiskRefuses ⟦<MemoryMaildir as MaildirDisk>⟧ self.old result self.new }
    {
        admit(&self.failures)?;
        Ok(true)
    }

    fn begin(&mut self, name: &str) -> Result<(), StoreFault>
        ensures begins_alone { BeginsAlone self.old name.now result self.new }
        ensures begins { DiskDoes ⟦<MemoryMaildir as MaildirDisk>⟧
            (λ old new. Begins old name.now result new) self.old self.new }
        ensures begun { OnOk result (name_begun self.new.maildir ≡ Some name.now) }
        ensures not_begun { OnErr result (self.new.maildir.begun ≡ self.old.maildir.begun) }
        ensures refuses { DiskRefuses ⟦<MemoryMaildir as MaildirDisk>⟧ self.old result self.new }
    {
        admit(&self.failures)?;
        match String::from_str(self.alloc, name) {
            Ok(name) => {
                self.begun = Some((name, Vec::new(self.alloc)));
                Ok(())
            }
            Err(_) => Err(refuse(&mut self.failures)),
        }
    }

    fn add(&mut self, bytes: &[u8]) -> Result<(), StoreFault>
        requires { self.old.maildir.failures < greatest_count → IsSome self.old.maildir.begun }
        ensures adds_alone { AddsAlone self.old bytes.now result self.new }
        ensures adds { DiskDoes ⟦<MemoryMaildir as MaildirDisk>⟧
            (λ old new. Adds old bytes.now result new) self.old self.new }
        ensures begun { name_begun self.new.maildir ≡ name_begun self.old.maildir }
        ensures refuses { DiskRefuses ⟦<MemoryMaildir as MaildirDisk>⟧ self.old result self.new }
    {
        admit(&self.failures)?;
        let Some((_, content)) = &mut self.begun else {
            unreachable!()
        };
        match content.extend_from_slice(bytes) {
            Ok(()) => Ok(()),
            Err(_) => Err(refuse(&mut self.failures)),
        }
    }

    fn settle(&mut self, name: &str) -> Result<(), StoreFault>
        requires begun { self.old.maildir.failures < greatest_count → IsSome self.old.maildir.begun }
        ensures settles_alone { SettlesAlone self.old name.now result self.new }
        ensures settles { DiskDoes ⟦<MemoryMaildir as MaildirDisk>⟧
            (λ old new. Settles old name.now result new) self.old self.new }
        ensures none_begun { self.new.maildir.begun ≡ None }
        ensures refuses { DiskRefuses ⟦<MemoryMaildir as MaildirDisk>⟧ self.old result self.new }
    {
        if let Err(fault) = admit(&self.failures) {
            self.abandon();
            return Err(fault);
        }
        let Some((_, content)) = self.begun.take() else {
            unreachable!()
        };
        match self.put(name, content) {
            Ok(()) => Ok(()),
            Err(_) => Err(refuse(&mut self.failures)),
        }
    }

    fn abandon(&mut self)
        ensures { self.new ≡ with_begun None self.old }
    {
        self.begun = None;
    }

    fn failures(&self) -> u64 {
        self.failures.count()
    }
}
