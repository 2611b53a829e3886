//! What `getmail` does with a command line, over any runtime.
#![tactic(auto)]

mod devices;
mod doubt;
mod ending;
mod errand;
mod fault_line;
mod fetch;
mod findings;
mod left_out;
mod new_ids;
mod news;
mod news_file;
mod news_text;
mod own_paths;
mod plain_calls;
mod reason;
mod rehearsal;
mod start;
mod teller;
mod told;
mod transcript;

pub use ending::Fetched;
pub use errand::fetch_told;
pub use fetch::Machine;
pub use plain_calls::{fetch_into, rehearse};
pub use rehearsal::rehearse_traced;
pub use start::{arguments, obey_command_line};
pub use told::{RunTerms, Told};
