//! What a session of a POP3 retriever is, its laws, and those of its parts that don't call what stores a text in a
//! Maildir: the login, the record, appending to an mboxrd file, the end, the report and the preview.
#![tactic(auto)]

mod appending;
mod ending;
mod fault;
mod laws;
mod listener;
mod message_preview;
mod opening;
mod preview;
mod readiness;
mod reasons;
mod record;
mod report;
mod tail;
mod telling;
mod terms;
mod text;
mod work;

pub use appending::take_into_mbox;
pub use ending::end;
pub use fault::{Cut, Fault, Why};
pub use laws::{
    cuts_have_causes, good_sessions_store_all, sessions_are_durable, sessions_by_store,
    sessions_keep_files, steady_files_keep, stopping_cuts_short, unsaved_files_keep,
};
pub use listener::{Listener, Silent};
pub use message_preview::MessagePreview;
pub use opening::enter;
pub use pop3_wire::Asked;
pub use preview::{Preview, preview_session};
pub use readiness::{Ready, prepare};
pub use reasons::{explained_line, tell_plan, told_report};
pub use record::remember;
pub use report::{
    LeftOut, Outcome, Report, ReportLine, Skips, none_skipped, note, report_of, skips_of,
};
pub use tail::leave;
pub use telling::preview_text;
pub use terms::Terms;
pub use text::{fault_number, fault_text, heading, line_text, report_text};
pub use work::{Ledger, Store, Work};
