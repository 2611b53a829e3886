//! The conversation of a POP3 client over any link: one command at a time, and its reply.
#![tactic(auto)]

mod client;
mod fault;
mod laws;
mod listing;
mod login;
mod row;
mod tail;
mod talk;
mod text;

pub use client::Client;
pub use fault::ClientFault;
pub use laws::{conversations_are_paced, turns_join};
pub use pop3_wire::Asked;
