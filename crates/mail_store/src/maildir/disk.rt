//! Devices that keep a Maildir (<https://cr.yp.to/proto/maildir.html>).

use crate::account::AccountId;
use crate::fault::StoreFault;
use mail_terms::Listing;

/// A folder of a Maildir that readers look into.
#[derive(Clone, Copy, Debug, PartialEq, Eq)]
pub enum Folder {
    /// Files that no reader has seen.
    New,
    /// Files that a reader has taken.
    Cur,
}

/// Items of an account's listing, of which it is asked whether they are held.
#[derive(Clone, Copy)]
pub struct Asked<'a> {
    pub account: &'a AccountId,
    pub listing: &'a Listing,
    /// For each item, in the listing's order, whether it is asked for.
    pub flags: &'a [bool],
}

/// A device that keeps a Maildir, and that can refuse any call.
///
/// A file is begun in `tmp`, written there by any number of `add`, and then settled: only then is
/// it in `new`, whole, under the name that `settle` takes. No other call changes `new` or `cur`.
///
/// A mail reader may move files between `new` and `cur`, change the marks after the first colon of a
/// name, and take files away at any moment, also while a call runs. What calls see of a file is its
/// name before that colon and its bytes, and neither its folder nor its marks; and only those that
/// tell names see that a file was taken away.
///
/// What can't be opened, as a pipe or a file without rights, is no file: `names_among` doesn't tell it. See `odd`.
pub trait MaildirDisk {
    ghost use Rattle.std.specs.Prelude.{◌≡◌, false, true, IfErr, IsSome, Ok, OnErr, OnOk, Some, None, map};
    ghost use Rattle.std.specs.Prelude.{string_bytes};
    ghost use Rattle.mail_terms.specs.FailureCount.{Tallies, refuses};
    ghost use Rattle.mail_store.specs.{Fault.{is_refusal, IsDeviceFault}, Held.{ListsAmong, asks}, Loss.Flushes};
    ghost use Rattle.mail_store.specs.Maildir.{Maildir, AfterTaking, IsThere, Lists, Checks, Begins, Adds, Settles};
    ghost use Rattle.mail_store.specs.Maildir.{dropped, name_begun};

    // What is known of the Maildir, and of what a loss of power leaves of it (see `LosesPower`). Whether
    // a file is begun, its name and the count of refusals are known even if the device isn't sound.
    ghost maildir: { Self → Maildir };

    // The premise: so far the device did what this trait says, and its count is below its greatest
    // value. If it holds after a call, it held before it.
    ghost sound: { Self → Type 0 };

    /// The names of the files of a folder, in any order. While a reader moves files, each name is
    /// that of a file which is there, in this folder or already in the other one; `names_among` tells
    /// of every file. Missing if the folder isn't there, else Refused.
    fn names(&mut self, folder: Folder) -> Result<Vec<String>, StoreFault>
        ensures lists { sound self.new → sound self.old
            × AfterTaking (maildir self.old) (λ left. Lists left folder result (maildir self.new)) }
        ensures fault { IfErr result IsDeviceFault }
        ensures count { Tallies (refuses is_refusal result) (maildir self.old).failures (maildir self.new).failures };

    /// Of the names of the files of `new` and `cur` those that have the stem of an item that is asked for (see `stem`
    /// and `file_stem`), in any order: each file once, even if a reader moves it meanwhile. Missing if `new` or `cur`
    /// isn't there, else Refused.
    fn names_among(&mut self, asked: Asked<'_>) -> Result<Vec<String>, StoreFault>
        ensures lists { sound self.new → sound self.old
            × AfterTaking (maildir self.old) (λ left. ListsAmong left (asks asked.entry) result (maildir self.new)) }
        ensures fault { IfErr result IsDeviceFault }
        ensures count { Tallies (refuses is_refusal result) (maildir self.old).failures (maildir self.new).failures };

    /// The names that the last `names_among` found to be borne by what can't be opened, of those that it sought.
    fn odd(&self) -> &[String]
        ensures { sound self.now → map string_bytes result.now ≡ (maildir self.now).told };

    /// Whether a folder is there: Missing if it isn't, else Refused. Its names aren't read or flushed.
    fn check(&mut self, folder: Folder) -> Result<(), StoreFault>
        ensures checks { sound self.new → sound self.old
            × Checks (maildir self.old) folder result (maildir self.new) }
        ensures fault { IfErr result IsDeviceFault }
        ensures count { Tallies (refuses is_refusal result) (maildir self.old).failures (maildir self.new).failures };

    /// Flushes the bytes of the files whose names have one of these stems (see `stem`). False, only if
    /// `may_miss`, if a stem has no file any more, as when a reader took it away: then nothing is known of
    /// the others. The only fault is Refused.
    fn flush(&mut self, stems: &[String], may_miss: bool) -> Result<bool, StoreFault>
        ensures flushes { sound self.new → sound self.old
            × Flushes (maildir self.old) stems.now result (maildir self.new) }
        ensures misses { result ≡ Ok false → may_miss ≡ true }
        ensures fault { IfErr result (λ e. e ≡ StoreFault.Refused) }
        ensures count { Tallies (refuses is_refusal result) (maildir self.old).failures (maildir self.new).failures };

    /// Begins an empty file of this name in `tmp`; an older file of that name there is replaced. None
    /// may be begun already (see `abandon`). Missing if `tmp` isn't there, else Refused; after a
    /// fault none is begun.
    fn begin(&mut self, name: &str) -> Result<(), StoreFault>
        requires { sound self.old → (maildir self.old).begun ≡ None }
        ensures begins { sound self.new → sound self.old
            × Begins (maildir self.old) name.now result (maildir self.new) }
        ensures begun { OnOk result (name_begun (maildir self.new) ≡ Some name.now) }
        ensures not_begun { OnErr result ((maildir self.new).begun ≡ (maildir self.old).begun) }
        ensures fault { IfErr result IsDeviceFault }
        ensures count { Tallies (refuses is_refusal result) (maildir self.old).failures (maildir self.new).failures };

    /// Appends bytes to the file begun; there must be one, as after a good `begin`. The only fault
    /// is Refused: the file is then still begun, with any bytes.
    fn add(&mut self, bytes: &[u8]) -> Result<(), StoreFault>
        requires { sound self.old → IsSome (maildir self.old).begun }
        ensures adds { sound self.new → sound self.old
            × Adds (maildir self.old) bytes.now result (maildir self.new) }
        ensures begun { name_begun (maildir self.new) ≡ name_begun (maildir self.old) }
        ensures fault { IfErr result (λ e. e ≡ StoreFault.Refused) }
        ensures count { Tallies (refuses is_refusal result) (maildir self.old).failures (maildir self.new).failures };

    /// Puts the file begun into `new` under this name. No file of `new` or `cur` may have it, with
    /// whatever marks. The only fault is Refused: the file is then not there, or there
    /// and whole. Either way none is begun afterwards.
    fn settle(&mut self, name: &str) -> Result<(), StoreFault>
        requires begun { sound self.old → IsSome (maildir self.old).begun }
        requires not_there { sound self.old → IsThere (maildir self.old) name.now → ⊥ }
        ensures settles { sound self.new → sound self.old
            × Settles (maildir self.old) name.now result (maildir self.new) }
        ensures none_begun { (maildir self.new).begun ≡ None }
        ensures fault { IfErr result (λ e. e ≡ StoreFault.Refused) }
        ensures count { Tallies (refuses is_refusal result) (maildir self.old).failures (maildir self.new).failures };

    /// Gives up the file begun, if there is one.
    fn abandon(&mut self)
        ensures drops { sound self.new → sound self.old
            × (maildir self.new ≡ dropped (maildir self.old)) }
        ensures none_begun { (maildir self.new).begun ≡ None }
        ensures count { (maildir self.new).failures ≡ (maildir self.old).failures };

    /// How many calls were refused.
    fn failures(&self) -> u64
        ensures { result ≡ (maildir self.now).failures };
}
