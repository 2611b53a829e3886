//! Stores for mail: a Maildir and an mboxrd file, over devices that can refuse any call.
#![tactic(auto)]

mod account;
mod fault;
mod file;
mod maildir;
mod mboxrd;
mod refusal;

pub use account::{AccountId, account_id, account_texts_are_digits};
pub use fault::{EntryFault, StoreFault};
pub use file::flat_file::{Edges, FlatFile, calls_are_durable, durable_files_are_left};
pub use file::memory::MemoryFile;
pub use file::reading::{edges_of, read_piece};
pub use maildir::delivery::deliver;
pub use maildir::disk::{Asked, Folder, MaildirDisk};
pub use maildir::held::{Query, flags_tell_what_is_held, flush_held, held, held_asked, odd_flags};
pub use maildir::loss::{
    calls_keep_files_flushed, calls_leave_no_more, losses_leave_what_is_durable,
};
pub use maildir::memory::{MemoryMaildir, memory_can_be_opened};
pub use maildir::names::{
    add_size, file_name, file_stem, marks_keep_the_base, names_are_bases, names_have_stems,
    one_more_is_held, sought_names, stem, stems_are_stems, stems_differ, uid_of,
    unheld_ids_are_not_there,
};
pub use mboxrd::entry::{
    append_entry, append_owned, appended_entries_are_durable, check_mbox, entries_add_texts,
    entries_may_follow_texts, entry_len, files_have_one_reading, peek_ends, peek_mbox,
};
pub use mboxrd::quoting::{is_whole, quote, unquote, unquoting_undoes_quoting};
pub use mboxrd::reading::read_mbox;
pub use mboxrd::settling::{
    leftovers_of_entries_are_settled, listed_size, peek_settled, settle_file,
    settled_files_are_durable, what_is_lost_is_zero, whole_entries_count,
};
pub use refusal::{admit, refuse};
