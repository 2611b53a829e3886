//! The settings of a POP3 retriever: the meaning of its rc file, and the flags of a command line,
//! which override it. No call reads a file or prints: all take and return bytes, values and texts.
#![tactic(auto)]

mod account;
mod fault;
mod file;
mod flags;
mod form;
mod key;
mod line;
mod other_key;
mod place;
mod row;
mod settings;
mod text;
mod value;
mod warning;

pub use fault::RcFault;
pub use file::{RC_LIMIT, read_rc};
pub use flags::{Flags, override_with};
pub use key::{Key, Section};
pub use other_key::read_other;
pub use place::fault_line;
pub use settings::{DELETE_AFTER_LIMIT, Dest, Settings, full_path};
pub use text::{rc_text, warning_text, warnings_hide_values};
pub use warning::Warning;
