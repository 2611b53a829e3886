//! Listings.

use mail_store::{AccountId, file_stem};
use mail_terms::{Listing, ListingFault, MESSAGE_LIMIT, ScanRow, UidRows, is_legal_id};
use std::alloc::Global;

/// A listing of these ids and sizes, numbered in this order.
pub fn listing_of(alloc: Global, items: &[(&str, u64)]) -> Result<Listing, ListingFault> {
    let mut uids = UidRows::new(alloc);
    let mut sizes = Vec::new(alloc);
    let mut number = 0u32;
    for (uid, size) in items {
        number = number.saturating_add(1);
        if uids.len() >= MESSAGE_LIMIT as usize || !is_legal_id(uid.as_bytes()) {
            return Err(ListingFault::Disagree);
        }
        uids.push(number, uid.as_bytes())?;
        sizes.push(ScanRow {
            number,
            size: *size,
        })?;
    }
    uids.join(alloc, number, &sizes)
}

/// The stem of the files that hold an id.
pub fn stem_of(alloc: Global, account: &AccountId, uid: &str) -> Result<String, ListingFault> {
    if !is_legal_id(uid.as_bytes()) {
        return Err(ListingFault::Disagree);
    }
    Ok(file_stem(alloc, account, uid.as_bytes())?)
}
