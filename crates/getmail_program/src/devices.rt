//! The devices of a run on a machine's files, and the time there.
ghost use Rattle.std.specs.{Option.option_copied, Prelude.{◌≡◌}};
ghost use Rattle.session_parts.specs.Target.{NoneBegun};
ghost use Rattle.getmail_program.specs.Devices.{
  IsAt,
  StoreFor,
  StoreKeepsRests,
  is_name_taken,
  obstructions_of,
  unflushed_of,
};

use fetch_rules::{Dest, Settings};
use fetch_session::Store;
use folder_store::{HostFile, HostFolder, HostMaildir, ProcessMark};
use getmail_setup::account_of;
use mail_store::{FlatFile, MaildirDisk};
use std::rt::{Clock, Files};
use std::time::SystemTime;
use system_calls::System;

/// A file of a run on a machine, and its store.
pub type MachineFile<'a, R> = HostFile<'a, HostFolder<'a, R>>;

pub type MachineStore<'a, R> = Store<HostMaildir<'a, R>, MachineFile<'a, R>>;

/// What makes devices on a machine's files, with the mark of a process. Calls that the system refuses are noted.
#[derive(Drop)]
pub struct HostDevices<'a, R> {
    pub for_store: &'a System<'a, R>,
    pub for_record: &'a System<'a, R>,
    pub mark: ProcessMark,
}

impl<'a, R: Files + Clock + AllocGlobal + Clone + Drop> HostDevices<'a, R> {
    /// The store of a run, for a destination at a path, and for what is cut off from it at another path. An entry of an
    /// mboxrd file is flushed once: what a loss of power left of one is found and cut off by the next run, and is kept
    /// beside the record.
    pub fn store(&self, dest: &Dest, path: &'a str, rests: &'a str) -> MachineStore<'a, R>
        ensures made { StoreFor dest.now path.now rests.now result }
        ensures none_begun { NoneBegun ⟦<HostMaildir<'a, R> as MaildirDisk>⟧
            ⟦<MachineFile<'a, R> as FlatFile>⟧ result }
    {
        let (system, mark) = (self.for_store, self.mark);
        match dest {
            Dest::Maildir(_) => Store::Maildir(HostMaildir::at(system, path, mark)),
            Dest::Mboxrd(_) => Store::Mboxrd(HostFile::keeping(system, path, rests, mark)),
        }
    }

    /// The file of its record.
    pub fn record_file(&self, path: &'a str) -> MachineFile<'a, R>
        ensures { IsAt path.now result }
    {
        HostFile::by_blocks(self.for_record, path, self.mark)
    }

    /// What its clock shows, if it can be read.
    pub fn time(&self) -> Option<SystemTime> {
        SystemTime::now(self.for_store.rt).ok()
    }

    /// Whether something is kept of what was cut off from an mboxrd file and isn't known to have been a part of an
    /// entry that was appended since. If it is known, it is removed. Of what an earlier run cut off, a run that had
    /// nothing to fetch says no.
    pub fn keeps_rests(&self, store: &MachineStore<'a, R>, is_idle: bool) -> bool
        ensures { StoreKeepsRests is_idle store.now result }
    {
        let Store::Mboxrd(mbox) = store else {
            return false;
        };
        mbox.drop_ours();
        mbox.keeps_others() || (!is_idle && mbox.has_rests())
    }

    /// What bears the names of messages in a Maildir and can't be opened: the path of each, and why.
    pub fn obstructions<'b>(&self, store: &'b MachineStore<'a, R>) -> &'b [Vec<u8>]
        ensures { result.now ≡ obstructions_of store.entry.now }
    {
        match store {
            Store::Maildir(maildir) => maildir.obstructions(),
            Store::Mboxrd(_) => &[],
        }
    }

    /// Whether a delivery into a Maildir was refused because something that is no file has its name.
    pub fn is_name_taken(&self, store: &MachineStore<'a, R>) -> bool
        ensures { result ≡ is_name_taken store.now }
    {
        match store {
            Store::Maildir(maildir) => maildir.is_name_taken(),
            Store::Mboxrd(_) => false,
        }
    }

    /// The path of a folder whose names weren't flushed because the system flushes no folders, if there is one.
    pub fn unflushed<'b>(
        &self,
        store: &'b MachineStore<'a, R>,
        seen_file: &'b MachineFile<'a, R>,
    ) -> Option<&'b str>
        ensures { option_copied result ≡ unflushed_of store.entry.now seen_file.entry.now }
    {
        let in_store = match store {
            Store::Maildir(maildir) => maildir.unflushed(),
            Store::Mboxrd(mbox) => mbox.unflushed(),
        };
        match in_store {
            None => seen_file.unflushed(),
            path => path,
        }
    }

    /// Removes what killed runs of an account left.
    pub fn sweep(
        &self,
        settings: &Settings,
        store: &MachineStore<'a, R>,
        seen_file: &MachineFile<'a, R>,
    ) {
        if let Store::Maildir(maildir) = store {
            maildir.sweep(&account_of(settings));
        }
        seen_file.sweep();
    }
}
