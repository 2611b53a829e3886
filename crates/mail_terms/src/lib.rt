//! The terms of mail that the wire, the stores and the programs share: unique-ids and sets of them,
//! credentials, numerals, texts and their lines, the listing of a maildrop, the names of a Maildir's
//! files, and the count of the calls that a device refused.
#![tactic(auto)]

mod bytes;
mod credential;
mod failure_count;
mod id_set;
mod listing;
mod maildir_name;
mod numbering;
mod numeral;
mod text;
mod unique_id;

pub use bytes::Bytes;
pub use credential::is_credential;
pub use failure_count::FailureCount;
pub use id_set::{IdSet, id_text};
pub use listing::{Listing, ListingFault, MESSAGE_LIMIT, ScanRow, UidRow, UidRows};
pub use maildir_name::base;
pub use numeral::read_numeral;
pub use text::cut_text;
pub use unique_id::{is_legal_id, legal_ids_have_ranges};
