//! What the tests of several libraries are made of.

mod accounts;
mod listings;
mod maildirs;
mod maildrops;
mod records;

pub use accounts::{
    Files, Fred, Fuse, Link, SOUND, account, fetch, files_of, link, login, no_files,
};
pub use listings::{listing_of, stem_of};
pub use maildirs::make_maildir;
pub use maildrops::{MESSAGES, maildrop_of};
pub use records::{Record, read_record};
