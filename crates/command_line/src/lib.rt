//! What the programs share: command lines read with clap, and standing in for closed standard files.
#![tactic(auto)]

mod matched;
mod options;
mod shown;
mod standard_files;

pub use matched::{is_given, text};
pub use options::{add, flag, long_flag, long_value_option, program, value_option, word};
pub use shown::show;
pub use standard_files::StandIns;
