//! The record of what was delivered: which messages of a maildrop were seen, since when, and whether
//! they were delivered; and its file. Nothing here waits for anybody: no call reads a file or the clock.
#![tactic(auto)]

mod change;
mod field;
mod id;
mod laws;
mod line;
mod reading;
mod row_map;
mod seen;

pub use laws::{
    appended_counts, bytes_have_one_meaning, bytes_stand, cut_is_ignored, delivered_has_row,
    files_stand_for_one_record, held_is_delivered, known_listings_change_nothing, listed_has_row,
    marked_is_delivered, marked_keeps_rows, merges_ask_only_for_new_ids, older_files_are_read,
    open_intents_have_rows, torn_is_ignored_or_seen,
};
pub use line::Intent;
pub use seen::{Seen, SeenFault};
