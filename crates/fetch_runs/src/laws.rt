//! Laws over what sessions sent and left, and over lists of calls, for the programs and crates above: a function here
//! does nothing, and its contract is the law.
ghost use Rattle.fetch_runs.specs.{
  Below.Below,
  Calls.{CallsKeepPromises, EmptyAccountsHold, DurableMboxesAreSafe, MboxCallsKeepPromises},
  Conversations.{MboxSessionsFollowPlans, SessionsAreConversations},
  Headline.{EmptyFrontsBegin, EntriesMeanTexts, Headline, MboxHeadline, MboxFrontsBegin, NoneTaken, TakenStaysAway},
  Losses.{DurableAccountsAreSafe, DurableFrontsBegin},
  Order.{CallsKeepOrder, MboxCallsKeepOrder},
  Progress.{CallsGetFar, CallsRecordTheLimit, MboxCallsGetFar},
  Outcomes.{FirstsAreEntries, FirstsArePrefixes, LossesKeepEntries, LossesKeepTheRecorded, LossesTakeOne},
  Passwords.PasswordsAreInPass,
  Promises.MboxStarts,
  Sharing.TurnsKeepPromises,
  Steps.{MboxSessionsLoseNothing, SessionsLoseNothing},
  VisitPromises.VisitsKeepPromises,
  Visits.{VisitsAreCalls, VisitsKeepStates},
  Witnesses.PremisesHold,
};

use fetch_rules::{
    appended_counts, bytes_have_one_meaning, files_stand_for_one_record, held_is_delivered,
    listed_has_row, marked_is_delivered, marked_keeps_rows, open_intents_have_rows,
    plans_fetch_wanted, torn_is_ignored_or_seen, wanted_are_first,
};
use fetch_session::{
    sessions_are_durable, sessions_by_store, sessions_keep_files, steady_files_keep,
    unsaved_files_keep,
};
use mail_store::{
    FlatFile, MaildirDisk, account_texts_are_digits, entries_add_texts, flags_tell_what_is_held,
    leftovers_of_entries_are_settled, marks_keep_the_base, names_are_bases, names_have_stems,
    stems_differ,
};
use pop3_client::{conversations_are_paced, turns_join};
use pop3_wire::{
    Wire, fronts_are_asked, only_one_body, only_one_line, only_one_list_of_commands,
    only_one_list_of_lines, only_one_reading, rows_have_fields,
};

/// What is taken from the laws of the crates below, here and in the proofs of crates above.
pub fn laws_below()
    ensures { Below }
{
    stems_differ();
    names_have_stems();
    names_are_bases();
    marks_keep_the_base();
    account_texts_are_digits();
    flags_tell_what_is_held();
    wanted_are_first();
    plans_fetch_wanted();
    held_is_delivered();
    listed_has_row();
    marked_is_delivered();
    marked_keeps_rows();
    files_stand_for_one_record();
    bytes_have_one_meaning();
    appended_counts();
    open_intents_have_rows();
    torn_is_ignored_or_seen();
    steady_files_keep();
    unsaved_files_keep();
    leftovers_of_entries_are_settled();
    entries_add_texts();
    only_one_line();
    only_one_reading();
    only_one_list_of_commands();
    only_one_body();
    only_one_list_of_lines();
    rows_have_fields();
    fronts_are_asked();
    turns_join();
    conversations_are_paced();
    sessions_keep_files();
    sessions_are_durable();
}

/// What a link gains in a session is one conversation that follows the plan. What was sent is the
/// octets of the plan's first turns and a prefix of the next one's; each turn is begun only after
/// the whole and good replies to all before it have come. After a fault, what was sent is these
/// turns whole and a prefix of the turns that follow that fault. If no listing was joined, the
/// plan is the opening alone. After the texts that the report counts, at most one more came whole,
/// only if the store refused that text, and then nothing more of the plan was sent. A session that
/// ended sent the whole plan.
pub fn sessions_are_conversations()
    ensures { SessionsAreConversations }
{
    laws_below();
}

/// If the record's file stood for a record, then, whatever its server says, a session loses and changes
/// no file of `new` and `cur`, and each DELE that it sent is for a message whose unique-id was recorded
/// as delivered before, or was held, or whose text it got by the same number and stored. What it
/// sent of one more command begins the line of such a DELE or of another command.
///
/// If its server is honest, whatever its maildrop, it leaves the account as it was; or its joined listing is the
/// maildrop's, and each file that it stores is that of one of the maildrop's messages, with the message's text.
pub fn sessions_lose_nothing()
    ensures { SessionsLoseNothing }
{
    laws_below();
}

/// With an mboxrd file: what a link sends in a session is the first commands of a plan, perhaps the
/// commands that follow a fault, and perhaps a beginning of one more.
pub fn mbox_sessions_follow_plans()
    ensures { MboxSessionsFollowPlans }
{
    laws_below();
}

/// With an mboxrd file: if the record's file stood for a record, then, whatever its server says, a
/// session keeps what the file holds, except for the rest of an entry that an open intent had begun,
/// and each DELE that it sent is for a message that was recorded as delivered, or whose text it got
/// by the same number and appended as an entry. If it ended, it got a text for each wanted message, and left a
/// file that stands for the texts of the settled file, followed by these, in order.
///
/// If its server is honest, whatever its maildrop, it leaves the account as it was, its file perhaps cut back; or
/// its joined listing is the maildrop's, and what it appends are the entries of messages of the maildrop, with
/// their texts, and at most a beginning of one more.
pub fn mbox_sessions_lose_nothing()
    ensures { MboxSessionsLoseNothing }
{
    laws_below();
}

/// The statement, for a Maildir: whatever calls of `session`, others and losses of power come, in any order, each
/// message is in one file, with a text that came for its unique-id, or in none; no file is lost; DELE was sent only for
/// messages held; an uncut call leaves out only what its own limits exclude, and messages whose file name is taken by
/// what can't be opened; and what is recorded as delivered, or is gone from the server, is held or was taken away. A
/// loss of power takes nothing of that, but what was taken away before. `docs/HEADLINE.md` has it all in words.
pub fn calls_keep_promises<W: Wire, D: MaildirDisk, F: FlatFile>()
    ensures { CallsKeepPromises W.Wire D.MaildirDisk F.FlatFile }
{
    laws_below();
    calls_keep_order::<W, D, F>();
}

/// Order, for a Maildir: if exactly the first of some messages were held or taken away before a call, others or a loss
/// of power, and all of them but perhaps the last were durable, so it is afterwards, if the server shows what is next
/// and the call met no odd name, or others hold no more and leave it as durable. With each call's promises comes what
/// it keeps of the record.
pub fn calls_keep_order<W: Wire, D: MaildirDisk, F: FlatFile>()
    ensures { CallsKeepOrder W.Wire D.MaildirDisk F.FlatFile }
{
    laws_below();
}

/// The visits of `run_sessions` are calls, as the statement speaks of them, whatever is said of their servers: so
/// what is promised of any list of calls is promised of them.
pub fn visits_are_calls<W: Wire, D: MaildirDisk, F: FlatFile>()
    ensures { VisitsAreCalls W.Wire D.MaildirDisk F.FlatFile }
{}

/// If their servers were honest, and the devices did what their traits say, they leave a state with the invariant, if
/// they began with one. With an mboxrd file, if they read only what is new, the file holds the entries of messages
/// after them, if it did before: those, and perhaps more.
pub fn visits_keep_states<W: Wire, D: MaildirDisk, F: FlatFile>()
    ensures { VisitsKeepStates W.Wire D.MaildirDisk F.FlatFile }
{
    calls_keep_promises::<W, D, F>();
    mbox_calls_keep_promises::<W, D, F>();
}

/// A message that is recorded as delivered and was taken away isn't stored again by a call that reads only what
/// is new.
pub fn taken_stays_away<W: Wire, D: MaildirDisk, F: FlatFile>()
    ensures { TakenStaysAway W.Wire D.MaildirDisk F.FlatFile }
{
    laws_below();
}

/// If no reader takes anything away, nothing counts as taken away.
#[tactic(auto, using(crate::proofs::Calls::nothing_taken))]
pub fn none_taken()
    ensures { NoneTaken }
{}

/// The headline: where a server's unique-ids are distinct and persistent, its mail unchanged, and all in the Maildir
/// can be opened, after any list of calls of `session`, each cut at any reply or refused write, the Maildir holds
/// exactly a prefix of the selected messages in maildrop order, each once, byte for byte with lines ended by LF; an
/// uncut call leaves out only what its limits exclude; and DELE was sent only for messages held.
///
/// Each call has its own settings, except for the server, the port, the user name and `max_message_size`. All
/// that `calls_keep_promises` says of readers, new processes, records that are lost and losses of power is so
/// here too, if what readers put back was held or taken away. Messages may be gone from the server, and one
/// that wasn't fetched is then no longer part of its mail. A loss of power takes at most the last message
/// that was stored, and such as were taken away before and stored again.
#[tactic(auto, using(crate::proofs::Calls::headline))]
pub fn headline<W: Wire, D: MaildirDisk, F: FlatFile>()
    ensures { Headline W.Wire D.MaildirDisk F.FlatFile }
{
    calls_keep_order::<W, D, F>();
    calls_keep_promises::<W, D, F>();
}

/// Progress: over a maildrop that stays, but for messages that are recorded, with the same limits, if all in the
/// Maildir can be opened, after any list of calls of `session` that read only what is new, of which k were uncut, the
/// record shows all that the limit on sizes leaves as delivered, or at least k times as many messages as a call may
/// fetch. Each of these is held or was taken away.
///
/// It is so whatever readers do, and if others keep the record. If no flush of the record's file was refused, calls
/// count in a loss of power too: all until the last uncut one that changed the record's rows, or before which whatever
/// could be left of it showed all of it.
pub fn calls_get_far<W: Wire, D: MaildirDisk, F: FlatFile>()
    ensures { CallsGetFar W.Wire D.MaildirDisk F.FlatFile }
{
    laws_below();
    calls_keep_order::<W, D, F>();
    calls_keep_promises::<W, D, F>();
}

/// In order it begins, if nothing is held or was taken away.
#[tactic(auto, using(crate::proofs::Calls::empty_fronts_begin))]
pub fn empty_fronts_begin()
    ensures { EmptyFrontsBegin }
{}

/// A state with the invariant is safe from a loss of power if the files of the account are durable, and
/// nothing else may be left of the record's file than what it holds: so is what a new device finds after a
/// loss of power.
#[tactic(auto, using(crate::proofs::Losses::durable_is_safe))]
pub fn durable_accounts_are_safe<F: FlatFile>()
    ensures { DurableAccountsAreSafe F.FlatFile }
{
    laws_below();
}

/// So is a front, if the files of the account are durable: its messages have durable names or were taken away.
#[tactic(auto, using(crate::proofs::Losses::durable_fronts_begin))]
pub fn durable_fronts_begin()
    ensures { DurableFrontsBegin }
{}

/// The statement may begin with an account without rows in its record and without a file of its own.
#[tactic(auto, using(crate::proofs::Calls::empty_is_kept))]
pub fn empty_accounts_hold()
    ensures { EmptyAccountsHold }
{}

/// The statement, for an mboxrd file, where a unique-id names one text and calls read only what is new: the file holds
/// what it held before the first call, then the entries of messages, each once, those of earlier calls first, and at
/// most a prefix of one more, or what a loss of power left of it, whose intent is then open; after an uncut call there
/// is none, and only what its own limits exclude is left out; and DELE was sent only for messages whose entry is whole,
/// or that were recorded before the first call or before others last wrote the file.
pub fn mbox_calls_keep_promises<W: Wire, D: MaildirDisk, F: FlatFile>()
    ensures { MboxCallsKeepPromises W.Wire D.MaildirDisk F.FlatFile }
{
    laws_below();
    sessions_by_store::<W, D, F>();
}

/// Order, with an mboxrd file: if exactly the first of some messages were recorded before the first call or have
/// entries, so it is after a call whose server shows what is next. With what a call appends comes what it keeps of the
/// record.
pub fn mbox_calls_keep_order<W: Wire, D: MaildirDisk, F: FlatFile>()
    ensures { MboxCallsKeepOrder W.Wire D.MaildirDisk F.FlatFile }
{
    laws_below();
    sessions_by_store::<W, D, F>();
}

/// Progress with an mboxrd file: so it is, and each of these messages has its entry, or was recorded before the first
/// call or before others last wrote the file.
pub fn mbox_calls_get_far<W: Wire, D: MaildirDisk, F: FlatFile>()
    ensures { MboxCallsGetFar W.Wire D.MaildirDisk F.FlatFile }
{
    laws_below();
    mbox_calls_keep_order::<W, D, F>();
}

/// With an mboxrd file: what a loss of power leaves holds entries if nothing else may be left of both files than
/// what calls see.
#[tactic(auto, using(crate::proofs::Calls::durable_is_mbox_safe))]
pub fn durable_mboxes_are_safe<F: FlatFile>()
    ensures { DurableMboxesAreSafe F.FlatFile }
{
    laws_below();
}

/// With an mboxrd file: it may begin with any account that has no open intent, also after others wrote.
#[tactic(auto, using(crate::proofs::MboxPromised::mbox_begins))]
pub fn mbox_starts()
    ensures { MboxStarts }
{}

/// If the file held texts before the first call, it holds the same and then those of the entries.
#[tactic(auto, using(crate::proofs::Calls::entries_mean_texts))]
pub fn entries_mean_texts()
    ensures { EntriesMeanTexts }
{
    laws_below();
}

/// The headline for an mboxrd file: with a server that keeps its order and one limit on sizes, after any list
/// of calls that read only what is new the file holds what it held before, followed by the entries of the
/// first of the selected messages that weren't recorded before, each once, and by at most a part of the next
/// entry.
pub fn mbox_headline<W: Wire, D: MaildirDisk, F: FlatFile>()
    ensures { MboxHeadline W.Wire D.MaildirDisk F.FlatFile }
{
    laws_below();
    sessions_by_store::<W, D, F>();
}

/// With an mboxrd file: this may begin with any file, and with a record that has no open intent
/// and shows exactly a prefix of the selected messages as delivered, as an empty one does.
pub fn mbox_fronts_begin()
    ensures { MboxFrontsBegin }
{}

/// All that is promised of any list of calls, and of those in order, by the headlines, and of progress, is promised of
/// the visits of `run_sessions`.
pub fn visits_keep_promises<W: Wire, D: MaildirDisk, F: FlatFile>()
    ensures { VisitsKeepPromises W.Wire D.MaildirDisk F.FlatFile }
{
    visits_are_calls::<W, D, F>();
    calls_keep_promises::<W, D, F>();
    headline::<W, D, F>();
    calls_get_far::<W, D, F>();
    mbox_calls_keep_promises::<W, D, F>();
    mbox_headline::<W, D, F>();
    mbox_calls_get_far::<W, D, F>();
}

/// The premises on mail, on what calls show and on what others leave hold of plain data: of any messages with legal and
/// distinct ids, of their maildrops without some that are done, and of their files, if these are durable.
pub fn premises_hold<W: Wire, D: MaildirDisk, F: FlatFile>()
    ensures { PremisesHold W.Wire D.MaildirDisk F.FlatFile }
{
    laws_below();
}

/// Progress from both sides: an uncut call with a limit on the number of messages, over at least as many new ones
/// within the limit on sizes, records exactly as many.
pub fn calls_record_the_limit<W: Wire, D: MaildirDisk, F: FlatFile>()
    ensures { CallsRecordTheLimit W.Wire D.MaildirDisk F.FlatFile }
{
    calls_get_far::<W, D, F>();
}

/// The calls of any fetchers that share an account are one list of calls, if each makes its devices once no other is at
/// work, and these show what the last call left.
pub fn turns_keep_promises<W: Wire, D: MaildirDisk, F: FlatFile>()
    ensures { TurnsKeepPromises W.Wire D.MaildirDisk F.FlatFile }
{
    calls_keep_promises::<W, D, F>();
}

/// Of the commands of a plan PASS alone depends on the password, and the plan doesn't; and what is said of a session
/// with a Maildir holds of it with any other password too.
pub fn passwords_are_in_pass()
    ensures { PasswordsAreInPass }
{}

/// After a call during which no reader is seen to take a file away, and a loss of power right after it, and another,
/// what the record that is left shows as delivered is held.
pub fn losses_keep_the_recorded<W: Wire, D: MaildirDisk, F: FlatFile>()
    ensures { LossesKeepTheRecorded W.Wire D.MaildirDisk F.FlatFile }
{
    calls_keep_promises::<W, D, F>();
}

/// What the headline comes to, for a first call that is uncut: the Maildir has exactly the files of the first messages
/// within the limit on sizes, as many as the limit on their number says.
pub fn firsts_are_prefixes<W: Wire, D: MaildirDisk, F: FlatFile>()
    ensures { FirstsArePrefixes W.Wire D.MaildirDisk F.FlatFile }
{
    laws_below();
    headline::<W, D, F>();
}

/// After a loss of power that follows such a call, all of these messages but perhaps one are still held.
pub fn losses_take_one<W: Wire, D: MaildirDisk, F: FlatFile>()
    ensures { LossesTakeOne W.Wire D.MaildirDisk F.FlatFile }
{
    laws_below();
    headline::<W, D, F>();
}

/// What the headline for an mboxrd file comes to, for a first call: the file has what it had, then entries, and perhaps
/// a front of one more; and if the call is uncut and has no limit on the number of messages, exactly the entries of
/// those within the limit on sizes.
pub fn firsts_are_entries<W: Wire, D: MaildirDisk, F: FlatFile>()
    ensures { FirstsAreEntries W.Wire D.MaildirDisk F.FlatFile }
{
    laws_below();
    mbox_headline::<W, D, F>();
}

/// With an mboxrd file: after a call and a loss of power right after it, each message that was recorded, that is gone
/// from the server, or that the record that is left shows as delivered has its entry; and so have those that are
/// recorded after another loss.
pub fn losses_keep_entries<W: Wire, D: MaildirDisk, F: FlatFile>()
    ensures { LossesKeepEntries W.Wire D.MaildirDisk F.FlatFile }
{
    mbox_calls_keep_promises::<W, D, F>();
}
