//! A trace of a conversation, line by line, and what is kept of it to tell the reason of a fault.
#![tactic(auto)]

mod command;
mod masking;
mod talk;
mod ways;
mod wire;

pub use command::commands_hide_passwords;
pub use talk::{Said, Talk};
pub use wire::TracedWire;
