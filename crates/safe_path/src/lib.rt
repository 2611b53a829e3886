//! The superuser's programs use no path that others control. Each path that they are to use is walked by looks that
//! follow no link, and refused if anything on the way belongs to somebody else or may be changed by others.
#![tactic(auto)]

mod check;
mod looks;
mod owner;
mod refused;
mod rule;
mod users;
mod walk;

pub use check::check_paths;
pub use looks::Looks;
pub use refused::{PathRefused, UnsafePath};
pub use rule::{Flaw, Found, Kind, Named};
