//! The calls of the file system, for devices: those that are refused are shown in a trace, line by line. An answer
//! that is a refusal has its path; a device keeps what was refused to it last, to tell the reason of a fault.
#![tactic(auto)]

mod line;
mod noted;
mod opened;
mod refusal;
mod refusals;
mod system;

pub use line::{line_text, shown, write_line};
pub use noted::Noted;
pub use opened::OpenAt;
pub use refusal::{Denial, Refusal, refusal_text};
pub use refusals::Refusals;
pub use system::System;
