//! Records of what was seen and delivered.

use fetch_rules::{Seen, SeenFault};
use std::alloc::Global;
use std::hash::{BuildHasherDefault, FoldHasher};

/// A record whose hasher has a fixed seed.
pub type Record = Seen<BuildHasherDefault<FoldHasher>>;

/// The record in these bytes.
pub fn read_record(alloc: Global, bytes: &[u8]) -> Result<Record, SeenFault> {
    Seen::read(alloc, bytes, BuildHasherDefault::new())
}
