//! Laws over what sessions over a server in memory did.
ghost use Rattle.fetch_runs.specs.Headline.{Headline, MboxHeadline};
ghost use Rattle.local_fetch.specs.{
  Fetches.{FetchesFromNothing, FetchesKeepPromises, FirstFetchesKeepMail, MboxFetchesFromNothing},
  Fetches.{MboxFetchesKeepPromises, MboxFirstFetchesKeepMail},
  Good.{GoodFetchesStoreAll, OneIsStored},
  Kills.{AllGetFar, AllKeepMboxPromises, AllKeepPromises, KillsHappen},
  Losses.{BytesAreTaken, LossesHappen, MboxLossesHappen, NamesAreTaken},
  Moves.MailIsMoved,
  Twice.SecondsFetchNothing,
};

use crate::loop_wire::LoopWire;
use fetch_runs::{
    calls_get_far, calls_keep_order, calls_keep_promises, empty_accounts_hold, headline,
    laws_below, mbox_calls_get_far, mbox_calls_keep_order, mbox_calls_keep_promises, mbox_headline,
    mbox_starts, sessions_are_conversations,
};
use fetch_session::good_sessions_store_all;
use folder_store::HostFile;
use mail_store::{FlatFile, MaildirDisk, MemoryFile, MemoryMaildir, memory_can_be_opened};
use pop3_server::{Maildrop, MemoryDrop, memory_refuses_nothing};
use pop3_wire::Wire;
use test_devices::{
    Fused, FusedWire, MemoryFolder, MemoryFolderMaildir, files_are_lost, mail_is_lost,
};

/// A law: kills are events of the statement. A program that is killed makes no more calls, so it leaves, but for a
/// draft in `tmp`, what the same call of `session` leaves over a link and devices of which each, from some call on,
/// refuses all without effect. Any number of calls of each may pass, and the last of them be refused with all that
/// its trait allows. So a kill may come at any call, also within a text, a merge or a settling; the statement goes
/// on after it, and power may be lost there too.
pub fn killed_calls_keep_promises<W: Wire, D: MaildirDisk, F: FlatFile>()
    ensures calls { AllKeepPromises ⟦<FusedWire<W> as Wire>⟧ ⟦<Fused<D> as MaildirDisk>⟧ ⟦<Fused<F> as FlatFile>⟧ }
    ensures mbox_calls { AllKeepMboxPromises ⟦<FusedWire<W> as Wire>⟧ ⟦<Fused<D> as MaildirDisk>⟧
        ⟦<Fused<F> as FlatFile>⟧ }
    ensures in_order { Headline ⟦<FusedWire<W> as Wire>⟧ ⟦<Fused<D> as MaildirDisk>⟧ ⟦<Fused<F> as FlatFile>⟧ }
    ensures mbox_in_order { MboxHeadline ⟦<FusedWire<W> as Wire>⟧ ⟦<Fused<D> as MaildirDisk>⟧
        ⟦<Fused<F> as FlatFile>⟧ }
    ensures progress { AllGetFar ⟦<FusedWire<W> as Wire>⟧ ⟦<Fused<D> as MaildirDisk>⟧ ⟦<Fused<F> as FlatFile>⟧ }
    ensures happen { KillsHappen W.Wire D.MaildirDisk F.FlatFile ⟦<FusedWire<W> as Wire>⟧
        ⟦<Fused<D> as MaildirDisk>⟧ ⟦<Fused<F> as FlatFile>⟧ }
{
    calls_keep_promises::<FusedWire<W>, Fused<D>, Fused<F>>();
    calls_keep_order::<FusedWire<W>, Fused<D>, Fused<F>>();
    mbox_calls_keep_promises::<FusedWire<W>, Fused<D>, Fused<F>>();
    mbox_calls_keep_order::<FusedWire<W>, Fused<D>, Fused<F>>();
    headline::<FusedWire<W>, Fused<D>, Fused<F>>();
    mbox_headline::<FusedWire<W>, Fused<D>, Fused<F>>();
    calls_get_far::<FusedWire<W>, Fused<D>, Fused<F>>();
    mbox_calls_get_far::<FusedWire<W>, Fused<D>, Fused<F>>();
}

/// A law: losses of power happen, over folders in memory: whatever account they show, and whatever may be left of its
/// files, some event that the statement reads as a loss leaves it. From some state it takes a file, and from another
/// bytes of an mboxrd file.
pub fn losses_happen<'a>()
    ensures maildir { LossesHappen ⟦<MemoryFolderMaildir as MaildirDisk>⟧ ⟦<HostFile<'a, MemoryFolder> as FlatFile>⟧ }
    ensures taken { NamesAreTaken ⟦<MemoryFolderMaildir as MaildirDisk>⟧ ⟦<HostFile<'a, MemoryFolder> as FlatFile>⟧ }
    ensures mbox { MboxLossesHappen ⟦<HostFile<'a, MemoryFolder> as FlatFile>⟧ }
    ensures mbox_taken { BytesAreTaken ⟦<HostFile<'a, MemoryFolder> as FlatFile>⟧ }
{
    mail_is_lost();
    files_are_lost();
}

/// A law: all that `calls_keep_promises` promises holds of any list of calls of
/// [`fetch_local`](crate::fetch_local). That their servers are honest is no premise.
pub fn fetches_keep_promises<M: Maildrop, D: MaildirDisk, F: FlatFile>()
    ensures { FetchesKeepPromises ⟦<LoopWire<M> as Wire>⟧ D.MaildirDisk F.FlatFile M.Maildrop }
{
    calls_keep_order::<LoopWire<M>, D, F>();
    calls_keep_promises::<LoopWire<M>, D, F>();
}

/// What the promises come to, for the first call of an account with a Maildir: each message that is no longer on
/// the server, or that DELE was sent for, is held; and if the call is uncut, it reports as many texts as it sent
/// RETRs, and each message that the server had is in one file, with its text, unless a limit leaves it out or
/// what can't be opened bears its name.
pub fn first_fetches_keep_mail<M: Maildrop, D: MaildirDisk, F: FlatFile>()
    ensures { FirstFetchesKeepMail ⟦<LoopWire<M> as Wire>⟧ D.MaildirDisk F.FlatFile M.Maildrop }
{
    fetches_keep_promises::<M, D, F>();
    empty_accounts_hold();
}

/// A law, for mail that is moved from one Maildir into another, or from any maildrop: after any list of calls of
/// [`fetch_local`](crate::fetch_local), cut or not, which may delete, each message is still in the maildrop, or is gone
/// from it and held or was taken away. After a call that ended, had no limits and met no name of what can't be opened,
/// each is in one file, with its text, or was taken away; and if it was to delete, the maildrop is empty.
pub fn mail_is_moved<M: Maildrop, D: MaildirDisk, F: FlatFile>()
    ensures { MailIsMoved ⟦<LoopWire<M> as Wire>⟧ D.MaildirDisk F.FlatFile M.Maildrop }
{
    fetches_keep_promises::<M, D, F>();
    laws_below();
    sessions_are_conversations();
}

/// A law: all that `mbox_calls_keep_promises` promises holds of any list of calls of
/// [`fetch_local`](crate::fetch_local).
pub fn mbox_fetches_keep_promises<M: Maildrop, D: MaildirDisk, F: FlatFile>()
    ensures { MboxFetchesKeepPromises ⟦<LoopWire<M> as Wire>⟧ D.MaildirDisk F.FlatFile M.Maildrop }
{
    mbox_calls_keep_order::<LoopWire<M>, D, F>();
    mbox_calls_keep_promises::<LoopWire<M>, D, F>();
}

/// What these come to for a first call: as `first_fetches_keep_mail`, with entries; and if the call is uncut, the
/// file is what it was, then these entries, and no intent is open.
pub fn mbox_first_fetches_keep_mail<M: Maildrop, D: MaildirDisk, F: FlatFile>()
    ensures { MboxFirstFetchesKeepMail ⟦<LoopWire<M> as Wire>⟧ D.MaildirDisk F.FlatFile M.Maildrop }
{
    mbox_fetches_keep_promises::<M, D, F>();
    mbox_starts();
}

/// The statement can hold: in memory, from a Maildir without files and no record on, all that it promises holds
/// of any list of calls of [`fetch_local`](crate::fetch_local). The only premises of a call are that the ids of its
/// server's mail are legal and distinct, and its texts end in LF, and that fewer calls lacked memory than can be
/// counted.
pub fn promises_hold_in_memory()
    ensures { FetchesFromNothing ⟦<LoopWire<MemoryDrop> as Wire>⟧ ⟦<MemoryMaildir as MaildirDisk>⟧
        ⟦<MemoryFile as FlatFile>⟧ ⟦<MemoryDrop as Maildrop>⟧ }
{
    fetches_keep_promises::<MemoryDrop, MemoryMaildir, MemoryFile>();
    empty_accounts_hold();
}

/// The same over folders in memory, where a mail reader moves files and takes them away before each call.
pub fn promises_hold_in_folders<'a>()
    ensures { FetchesFromNothing ⟦<LoopWire<MemoryDrop> as Wire>⟧ ⟦<MemoryFolderMaildir as MaildirDisk>⟧
        ⟦<HostFile<'a, MemoryFolder> as FlatFile>⟧ ⟦<MemoryDrop as Maildrop>⟧ }
{
    fetches_keep_promises::<MemoryDrop, MemoryFolderMaildir, HostFile<'a, MemoryFolder>>();
    empty_accounts_hold();
}

/// The same for an mboxrd file in memory, whatever it holds at first, if each call reads only what is new.
pub fn mbox_promises_hold_in_memory()
    ensures { MboxFetchesFromNothing ⟦<LoopWire<MemoryDrop> as Wire>⟧ ⟦<MemoryMaildir as MaildirDisk>⟧
        ⟦<MemoryFile as FlatFile>⟧ ⟦<MemoryDrop as Maildrop>⟧ }
{
    mbox_fetches_keep_promises::<MemoryDrop, MemoryMaildir, MemoryFile>();
    mbox_starts();
}

/// The same for one in a folder in memory.
pub fn mbox_promises_hold_in_folders<'a>()
    ensures { MboxFetchesFromNothing ⟦<LoopWire<MemoryDrop> as Wire>⟧ ⟦<MemoryFolderMaildir as MaildirDisk>⟧
        ⟦<HostFile<'a, MemoryFolder> as FlatFile>⟧ ⟦<MemoryDrop as Maildrop>⟧ }
{
    mbox_fetches_keep_promises::<MemoryDrop, MemoryFolderMaildir, HostFile<'a, MemoryFolder>>();
    mbox_starts();
}

/// A law: a call of [`fetch_local`](crate::fetch_local) in which nothing fails ends, and has stored what it wants.
pub fn good_fetches_store_all<M: Maildrop, D: MaildirDisk, F: FlatFile>()
    ensures { GoodFetchesStoreAll ⟦<LoopWire<M> as Wire>⟧ D.MaildirDisk F.FlatFile M.Maildrop }
{
    good_sessions_store_all();
}

/// The same in memory.
pub fn all_is_stored_in_memory()
    ensures { GoodFetchesStoreAll ⟦<LoopWire<MemoryDrop> as Wire>⟧ ⟦<MemoryMaildir as MaildirDisk>⟧
        ⟦<MemoryFile as FlatFile>⟧ ⟦<MemoryDrop as Maildrop>⟧ }
{
    good_fetches_store_all::<MemoryDrop, MemoryMaildir, MemoryFile>();
}

/// The good path can happen: from a new Maildir in memory and no record on, a call to a new server in memory that has
/// one message and the account's user and password, and that left this Maildir and this maildrop, ends, and the message
/// is in one file, with its text. The only premises are that the message's id is legal, its text is empty or ends in LF
/// and is within the limits, that the devices are new, and that memory doesn't run out.
pub fn one_is_stored_in_memory(store: &MemoryMaildir, drop: &MemoryDrop)
    ensures { OneIsStored ⟦<LoopWire<MemoryDrop> as Wire>⟧ ⟦<MemoryMaildir as MaildirDisk>⟧
        ⟦<MemoryFile as FlatFile>⟧ ⟦<MemoryDrop as Maildrop>⟧ store.now drop.now }
{
    memory_can_be_opened(store);
    memory_refuses_nothing(drop);
    good_fetches_store_all::<MemoryDrop, MemoryMaildir, MemoryFile>();
    first_fetches_keep_mail::<MemoryDrop, MemoryMaildir, MemoryFile>();
}

/// A second call fetches nothing: over any messages with distinct ids, from an empty Maildir in memory and no record
/// on, without limits, a call that ended has stored each in one file; and one after it over the same messages that
/// ended too and reads only what is new has sent no RETR and added no file.
pub fn seconds_fetch_nothing_in_memory()
    ensures { SecondsFetchNothing ⟦<LoopWire<MemoryDrop> as Wire>⟧ ⟦<MemoryMaildir as MaildirDisk>⟧
        ⟦<MemoryFile as FlatFile>⟧ ⟦<MemoryDrop as Maildrop>⟧ }
{
    empty_accounts_hold();
    fetches_keep_promises::<MemoryDrop, MemoryMaildir, MemoryFile>();
    first_fetches_keep_mail::<MemoryDrop, MemoryMaildir, MemoryFile>();
}
