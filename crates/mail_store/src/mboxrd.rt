//! Texts in an mboxrd file: quoting, entries, and reading.

pub mod entry;
pub mod quoting;
pub mod reading;
pub mod settling;
