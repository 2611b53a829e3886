//! What `popd` does with its command line, over any runtime.
#![tactic(auto)]

mod account;
mod failure;
mod password;
mod rehearsal;
mod serving;
mod start;
mod telling;
mod visit;
mod waits;
mod warning;
mod words;

pub use failure::Failure;
pub use rehearsal::rehearsal_drop;
pub use start::{arguments, obey_command_line};
