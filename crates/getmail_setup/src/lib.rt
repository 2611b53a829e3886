//! What `getmail` does before its session: its words, its settings and paths, its output and the link.
#![tactic(auto)]

mod clock;
mod connection;
mod digest;
mod errors;
mod failure;
mod in_place;
mod journal;
mod listed;
mod lock;
mod lock_calls;
mod output;
mod place;
mod progress;
mod rc_reason;
mod setup;
mod shown_wire;
mod words;

pub use clock::second_of;
pub use connection::{
    Connection, Link, Peer, SILENT, account_name, connect, is_near, link_over, peer_of,
};
pub use digest::digest_of;
pub use errors::{Errors, Reasons, fail, tell_reason, warn_of_network};
pub use failure::{Failure, OUT_OF_MEMORY, explain, failure_of, tell};
pub use in_place::{LookAt, OnMachine, other_list};
pub use journal::{Journal, Kept, LeftOut, Notes, Part, Subject};
pub use listed::Large;
pub use lock::{Lock, take_lock};
pub use lock_calls::{LockCalls, SystemLocks};
pub use output::{Output, OutputRefusal, refusal_of};
pub use place::{folder, home, joined, rc_file};
pub use run_memory::is_long_held;
pub use setup::{Paths, Setup, account_of, set_up, told_path};
pub use shown_wire::ShownWire;
pub use words::{Words, WordsFault, read_words, words_fault};
