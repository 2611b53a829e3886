//! A session of a POP3 retriever: what it asks, stores, remembers and deletes; and several, one after another. What
//! doesn't call what stores a text in a Maildir is in `session_parts`.
#![tactic(auto)]

mod account;
mod carrying_out;
mod one_session;
mod pretending;
mod step;
mod storing;
mod visits;

pub use account::Account;
pub use one_session::{session, session_told};
pub use pretending::pretend;
pub use session_parts::{
    Asked, Cut, Fault, LeftOut, Listener, MessagePreview, Outcome, Preview, Report, ReportLine,
    Silent, Store, Why, cuts_have_causes, explained_line, fault_number, fault_text,
    good_sessions_store_all, heading, line_text, preview_text, report_text, sessions_are_durable,
    sessions_by_store, sessions_keep_files, steady_files_keep, stopping_cuts_short, told_report,
    unsaved_files_keep,
};
pub use visits::{Visit, promised_session, run_sessions};
