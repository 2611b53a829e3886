//! Laws over what a session did.
ghost use Rattle.session_parts.specs.{
  Cuts.CutsHaveCauses,
  Laws.{MaildirSessions, MboxSessions, SessionsAreDurable, SessionsKeepFiles, SteadyFilesKeep, StoppingCutsShort},
  Laws.UnsavedFilesKeep,
  Served.GoodSessionsStoreAll,
};

use fetch_rules::{
    bytes_have_one_meaning, files_stand_for_one_record, held_is_delivered, marked_is_delivered,
    plans_fetch_wanted,
};
use mail_store::{FlatFile, MaildirDisk, names_are_bases, names_have_stems};
use pop3_client::{conversations_are_paced, turns_join};
use pop3_wire::Wire;

/// A law: a list of tasks that stopped leaves what tasks that were cut short leave.
#[tactic(auto, using(crate::proofs::SceneLemmas::stopping_cuts_short))]
pub fn stopping_cuts_short()
    ensures { StoppingCutsShort }
{
    conversations_are_paced();
    turns_join();
}

/// A law: a file of version 2 that stands for a record and has no torn end stands for that record.
#[tactic(auto, using(crate::proofs::SceneLemmas::steady_keeps))]
pub fn steady_files_keep()
    ensures { SteadyFilesKeep }
{}

/// A law: the file of a record that wasn't saved stands for the old record or for the new one.
#[tactic(auto, using(crate::proofs::SceneLemmas::unsaved_keeps))]
pub fn unsaved_files_keep()
    ensures { UnsavedFilesKeep }
{}

/// A law: a session of a Maildir takes no file away: what is missing after it, readers were seen to have taken
/// before it or, as its contract says, while it was under way.
pub fn sessions_keep_files()
    ensures { SessionsKeepFiles }
{}

/// A law: the files that a session stores in a Maildir are durable, but perhaps the name of the last; and so is
/// a file of each message that it records as delivered. What was recorded before may have been taken away.
pub fn sessions_are_durable()
    ensures { SessionsAreDurable }
{
    files_stand_for_one_record();
    marked_is_delivered();
    held_is_delivered();
    names_have_stems();
    names_are_bases();
}

/// A law: a session of an account is one with a Maildir, or one with an mboxrd file.
pub fn sessions_by_store<W: Wire, D: MaildirDisk, F: FlatFile>()
    ensures maildir { MaildirSessions W.Wire D.MaildirDisk F.FlatFile }
    ensures mbox { MboxSessions W.Wire D.MaildirDisk F.FlatFile }
{}

/// A law: a session that didn't end has its cause, in what its server answered, in a call that was refused, in
/// its store or in its record, unless memory ran out.
pub fn cuts_have_causes()
    ensures { CutsHaveCauses }
{
    turns_join();
}

/// A law: if each turn of its plan that a session sent is answered well (what came begins a whole and positive reply,
/// within the limits, and is all of it if the link ended), the listings agree, the store can be used, the record can be
/// read, no call is refused and memory doesn't run out, a session ends. One that ended has stored each message that it
/// wants, with the text that came, unless the store held it.
pub fn good_sessions_store_all()
    ensures { GoodSessionsStoreAll }
{
    conversations_are_paced();
    cuts_have_causes();
    bytes_have_one_meaning();
    plans_fetch_wanted();
}
