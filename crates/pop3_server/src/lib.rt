//! A POP3 server that takes lines and gives answers, over any maildrop (RFC 1939).
#![tactic(auto)]

mod commands;
mod fault;
mod honesty;
mod intake;
mod journal;
mod laws;
mod maildrop;
mod memory_drop;
mod reply;
mod rows;
mod server;
mod serving;
mod size;
mod state;
mod stuffer;
mod text_line;
mod text_part;
mod text_top;

pub use fault::ServerFault;
pub use honesty::{conversations_are_honest, loops_are_honest};
pub use journal::{Event, Journal};
pub use laws::{only_quit_closes, quit_leaves_few};
pub use maildrop::{DropFault, Entry, MAX_COUNT, MAX_SIZE, Maildrop};
pub use memory_drop::{MemoryDrop, memory_refuses_nothing};
pub use server::{Answer, Server};
pub use serving::{serve, serve_and_note};
pub use size::{SizeCount, size_of};
