//! The account that sessions are for.
ghost use Rattle.std.specs.Prelude.{◌≡◌};
ghost use Rattle.rc_file.specs.Settings.{IsValid};
ghost use Rattle.session_parts.specs.Target.{NoneBegun};

use fetch_rules::{Seen, Settings};
use mail_store::{AccountId, FlatFile, MaildirDisk, account_id};
use session_parts::{Ledger, Store, Work};
use std::alloc::Global;
use std::hash::BuildHasher;
use std::marker::Model;
use std::vec::Vec;

/// An account: its settings, its store and the file of its record.
///
/// No file is begun in the store between sessions, and the settings hold only values that an rc file
/// may give.
pub struct Account<D: MaildirDisk, F: FlatFile, H: BuildHasher> {
    pub(crate) settings: Settings,
    pub(crate) id: AccountId,
    pub(crate) work: Work<D, F, H>,
}

impl<D: MaildirDisk, F: FlatFile, H: BuildHasher> Model for Account<D, F, H> {
    ghost use Rattle.std.specs.{Prelude.◌≡◌, String.string_bytes};
    ghost use Rattle.rc_file.specs.Settings.{IsValid};
    ghost use Rattle.mail_store.specs.FileName.{IsAccountText, account_text};
    ghost use Rattle.session_parts.specs.{Account.Holding, Target.NoneBegun};

    ghost Value = { Holding D F };

    ghost view = { λ a. record { settings = a.settings; store = a.work.store; file = a.work.ledger.file } };

    ghost invariant = { λ a. IsValid a.settings
        × (a.id ≡ account_text (string_bytes a.settings.server) a.settings.port (string_bytes a.settings.username))
        × NoneBegun D.MaildirDisk F.FlatFile a.work.store };
}

impl<D: MaildirDisk, F: FlatFile, H: BuildHasher> Account<D, F, H> {
    /// An account with these settings, over this store and this file of its record. A server
    /// chooses the ids of the record, so a program passes a hasher with a random seed.
    pub fn new(
        alloc: Global,
        settings: Settings,
        store: Store<D, F>,
        seen_file: F,
        hasher: H,
    ) -> Account<D, F, H>
        requires valid { IsValid settings }
        requires none_begun { NoneBegun D.MaildirDisk F.FlatFile store }
        ensures { result ≡ record { settings = settings; store = store; file = seen_file } }
    {
        let id = account_id(
            settings.server.as_str(),
            settings.port,
            settings.username.as_str(),
        );
        Account {
            settings,
            id,
            work: Work {
                store,
                ledger: Ledger {
                    alloc,
                    file: seen_file,
                    seen: Seen::new(alloc, hasher),
                    lines: Vec::new(alloc),
                },
            },
        }
    }

    /// The settings.
    pub fn settings(&self) -> &Settings
        ensures value { result.now ≡ self.now.settings }
        ensures valid { IsValid result.now }
    {
        &self.settings
    }

    /// Takes the account apart.
    pub fn into_parts(self) -> (Settings, Store<D, F>, F)
    where
        H: Drop,
        ensures parts { (result.0 ≡ self.settings) × (result.1 ≡ self.store) × (result.2 ≡ self.file) }
        ensures valid { IsValid result.0 }
        ensures none_begun { NoneBegun D.MaildirDisk F.FlatFile result.1 }
    {
        let Account {
            settings,
            id: _,
            work,
        } = self;
        let Work { store, ledger } = work;
        (settings, store, ledger.file)
    }
}
