//! What a POP3 retriever decides, as rules over values: which messages of a maildrop are fetched, and
//! which are deleted. Settings come from `rc_file`, listings from `mail_terms`, and the record, with
//! what is remembered from one session to the next, from `fetch_record`. Nothing here waits for
//! anybody: no call reads a file, a socket or the clock.
#![tactic(auto)]

mod laws;
mod occurrence;
mod plans;

pub use fetch_record::{
    Intent, Seen, SeenFault, appended_counts, bytes_have_one_meaning, bytes_stand, cut_is_ignored,
    delivered_has_row, files_stand_for_one_record, held_is_delivered,
    known_listings_change_nothing, listed_has_row, marked_is_delivered, marked_keeps_rows,
    merges_ask_only_for_new_ids, open_intents_have_rows, torn_is_ignored_or_seen,
};
pub use laws::{
    only_asked_for_are_fetched, only_firsts_are_fetched, plans_fetch_wanted, rows_join_in_one_way,
    wanted_are_first,
};
pub use mail_terms::{Listing, ListingFault, MESSAGE_LIMIT, ScanRow, UidRow, UidRows, is_legal_id};
pub use plans::{
    SECONDS_PER_DAY, Skip, Step, ask_nothing, may_be_deleted, plan, plan_of_known, plan_without,
};
pub use rc_file::{
    Dest, Flags, Key, RcFault, Section, Settings, Warning, full_path, override_with, rc_text,
    read_rc, warning_text,
};
