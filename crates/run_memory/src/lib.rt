//! What unattended runs tell, and what they remember of it.
#![tactic(auto)]

mod field;
mod key;
mod line;
mod memory;
mod news;
mod run;
mod times;

pub use key::Key;
pub use memory::{MOST_OCTETS, Memory};
pub use run::{Counts, News, Notice, Run};
pub use times::{Telling, Times, is_long_held};
