//! What a session works on.
use crate::report::ReportLine;
use fetch_rules::Seen;
use std::alloc::Global;
use std::hash::BuildHasher;
use std::vec::Vec;

/// Where texts are stored.
#[derive(Drop)]
pub enum Store<D, F> {
    /// A Maildir: each text is a file of its own.
    Maildir(D),
    /// An mboxrd file: each text is an entry appended to it. Nobody else writes it meanwhile.
    Mboxrd(F),
}

/// What a session writes down: the record with its file, and the lines of the report.
#[derive(Drop)]
pub struct Ledger<F, H: BuildHasher> {
    pub alloc: Global,
    pub file: F,
    pub seen: Seen<H>,
    pub lines: Vec<ReportLine>,
}

/// What a session works on: its store, and what it writes down.
#[derive(Drop)]
pub struct Work<D, F, H: BuildHasher> {
    pub store: Store<D, F>,
    pub ledger: Ledger<F, H>,
}
