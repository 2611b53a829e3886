//! One session over a server in memory: both ends in one program.
#![tactic(auto)]

mod fetch;
mod laws;
mod loop_wire;

pub use fetch::{fetch_local, fetch_over_loop};
pub use laws::{
    all_is_stored_in_memory, fetches_keep_promises, first_fetches_keep_mail,
    good_fetches_store_all, killed_calls_keep_promises, losses_happen, mail_is_moved,
    mbox_fetches_keep_promises, mbox_first_fetches_keep_mail, mbox_promises_hold_in_folders,
    mbox_promises_hold_in_memory, one_is_stored_in_memory, promises_hold_in_folders,
    promises_hold_in_memory, seconds_fetch_nothing_in_memory,
};
pub use loop_wire::LoopWire;
