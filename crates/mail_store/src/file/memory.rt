//! A file in memory.

ghost use Rattle.std.specs.Prelude.{◌≡◌, ◌<◌, ◌+◌, [], option_map};
ghost use Rattle.mail_terms.specs.FailureCount.{greatest_count};

use crate::fault::StoreFault;
use crate::file::flat_file::{Edges, FlatFile};
use crate::file::reading::{edges_of, read_piece};
use crate::refusal::{admit, refuse};
use mail_terms::FailureCount;
use std::alloc::Global;
use std::marker::Model;

/// A file in memory. Below the greatest count it refuses a call only if memory runs out.
#[derive(Drop)]
pub struct MemoryFile {
    alloc: Global,
    content: Option<Vec<u8>>,
    failures: FailureCount,
}

impl Model for MemoryFile {
    ghost use Rattle.std.specs.Prelude.{option_map};
    ghost use Rattle.mail_store.specs.FlatFile.{Stored};

    ghost Value = { Stored };

    ghost view = { λ f. record { content = option_map (λ bytes. bytes.items) f.content; failures = f.failures } };
}

impl MemoryFile {
    /// An empty file.
    pub fn new(alloc: Global) -> MemoryFile
        ensures stored { result ≡ record { content = Some []; failures = 0 } }
        ensures sound { ⟦<MemoryFile as FlatFile>⟧.sound result }
    {
        MemoryFile {
            alloc,
            content: Some(Vec::new(alloc)),
            failures: FailureCount::new(),
        }
    }

    /// No file, until one is made by `replace`.
    pub fn missing(alloc: Global) -> MemoryFile
        ensures stored { result ≡ record { content = None; failures = 0 } }
        ensures sound { ⟦<MemoryFile as FlatFile>⟧.sound result }
    {
        MemoryFile {
            alloc,
            content: None,
            failures: FailureCount::new(),
        }
    }

    /// The bytes of the file, None if there is no file.
    pub fn content(&self) -> Option<&[u8]>
        ensures { option_map (λ bytes. bytes.now) result ≡ self.now.content }
    {
        self.content.as_deref()
    }
}

impl FlatFile for MemoryFile {
    ghost use Rattle.std.{specs.Prelude.{◌≡◌, ◌≢◌, ◌≤◌, ◌<◌, length, IfOk, IsOk, None, Some}, proofs.Common.refl};
    ghost use Rattle.mail_terms.specs.FailureCount.{greatest_count};
    ghost use Rattle.mail_store.specs.Devices.{FileAnswers, FileDoes, FileRefuses};
    ghost use Rattle.mail_store.specs.{DiskCalls.{CutsDisk, PeeksDisk, ReadsDisk}, Durable.all_durable};
    ghost use Rattle.mail_store.specs.FlatFile.{HasBytes, TellsEdges, TellsPiece};

    // As long as the program runs, no crash reaches what is in memory.
    ghost disk = { λ f. all_durable f.content };

    ghost refusals = { λ f. f.failures };

    ghost sound = { λ f. f.failures < greatest_count };

    fn load(&mut self) -> Result<Vec<u8>, StoreFault> {
        self.peek()
    }

    fn peek(&mut self) -> Result<Vec<u8>, StoreFault> {
        admit(&self.failures)?;
        let Some(bytes) = &self.content else {
            return Err(StoreFault::Missing);
        };
        match bytes.clone() {
            Ok(copy) => Ok(copy),
            Err(_) => Err(refuse(&mut self.failures)),
        }
    }

    fn edges(&mut self) -> Result<Edges, StoreFault>
        ensures measures { FileDoes ⟦<MemoryFile as FlatFile>⟧
            (λ old new. ReadsDisk TellsEdges old result new) self.old self.new }
        ensures tells { FileAnswers ⟦<MemoryFile as FlatFile>⟧ self.old result self.new }
        ensures answers { self.old.failures < greatest_count → result ≢ Err StoreFault.Refused }
    {
        self.peek_edges()
    }

    // It takes no memory, so below the greatest count it isn't refused.
    fn peek_edges(&mut self) -> Result<Edges, StoreFault>
        ensures peeks { FileDoes ⟦<MemoryFile as FlatFile>⟧
            (λ old new. PeeksDisk TellsEdges old result new) self.old self.new }
        ensures tells { FileAnswers ⟦<MemoryFile as FlatFile>⟧ self.old result self.new }
        ensures answers { self.old.failures < greatest_count → result ≢ Err StoreFault.Refused }
    {
        admit(&self.failures)?;
        match &self.content {
            Some(bytes) => Ok(edges_of(bytes.as_slice())),
            None => Err(StoreFault::Missing),
        }
    }

    // It takes no memory, so below the greatest count it isn't refused.
    #[tactic(auto, using(crate::proofs::DiskLemmas::all_stay, crate::proofs::DiskLemmas::stays_flushed))]
    fn read_at(&mut self, start: u64, buf: &mut [u8]) -> Result<usize, StoreFault>
        ensures within { IfOk result (λ count. count ≤ length buf.new) }
        ensures reads { FileDoes ⟦<MemoryFile as FlatFile>⟧
            (λ old new. ReadsDisk (TellsPiece start buf.new) old result new) self.old self.new }
        ensures tells { FileAnswers ⟦<MemoryFile as FlatFile>⟧ self.old result self.new }
        ensures answers { self.old.failures < greatest_count → result ≢ Err StoreFault.Refused }
    {
        admit(&self.failures)?;
        match &self.content {
            Some(bytes) => Ok(read_piece(bytes.as_slice(), start, buf)),
            None => Err(StoreFault::Missing),
        }
    }

    fn append(&mut self, bytes: &[u8]) -> Result<(), StoreFault> {
        admit(&self.failures)?;
        let Some(content) = &mut self.content else {
            unreachable!()
        };
        match content.extend_from_slice(bytes) {
            Ok(()) => Ok(()),
            Err(_) => Err(refuse(&mut self.failures)),
        }
    }

    // It takes no memory, so below the greatest count it isn't refused.
    fn cut_to(&mut self, len: u64) -> Result<(), StoreFault>
        requires { self.old.failures < greatest_count → HasBytes self.old.content len }
        ensures cuts { FileDoes ⟦<MemoryFile as FlatFile>⟧ (λ old new. CutsDisk old len result new) self.old self.new }
        ensures refuses { FileRefuses ⟦<MemoryFile as FlatFile>⟧ self.old result self.new }
        ensures answers { self.old.failures < greatest_count → IsOk result }
    {
        admit(&self.failures)?;
        let Some(content) = &mut self.content else {
            unreachable!()
        };
        content.truncate(len as usize);
        Ok(())
    }

    fn replace(&mut self, bytes: &[u8]) -> Result<(), StoreFault> {
        admit(&self.failures)?;
        match Vec::from_slice(self.alloc, bytes) {
            Ok(content) => {
                self.content = Some(content);
                Ok(())
            }
            Err(_) => Err(refuse(&mut self.failures)),
        }
    }

    fn failures(&self) -> u64 {
        self.failures.count()
    }

    ghost below = { λ f sound. sound };
}
