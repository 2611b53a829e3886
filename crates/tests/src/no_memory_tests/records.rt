//! The record.

use crate::no_memory_tests::watched::{begin, end, tell, tell_answer, tell_no_memory};
use crate::support::{Record, listing_of, read_record};
use fetch_rules::{Listing, SeenFault};
use std::test::Fail;

/// A record of two rows, and one with an open intent too.
const ROWS: &[u8] = b"getmail-seen 2\na 5 0\nb 6 1\n";

const OPEN: &[u8] = b"getmail-seen 2\na 5 0\nb 6 1\n! a 7 8\n";

/// Prints the rows of a record and its intent.
fn tell_record(rt: &HostRuntime, record: &Record) {
    tell_answer(rt, record.bytes());
}

fn read(rt: &HostRuntime) {
    begin(rt);
    let answer = read_record(rt.alloc(), OPEN);
    end(rt);
    match answer {
        Ok(record) => tell_record(rt, &record),
        Err(SeenFault::NoMemory) => tell_no_memory(rt),
        Err(_) => tell(rt, "another fault"),
    }
}

#[test]
fn read_row(rt: HostRuntime) {
    read(&rt);
    read(&rt);
}

/// A new id, too long to be kept without memory of its own.
const NEW: &str = "c-that-is-not-short";

/// Merges three messages, the first and the last of which are held; returns whether it did.
fn merge(rt: &HostRuntime, record: &mut Record, listing: &Listing) -> bool {
    let held = [true, false, true];
    if record.intent().is_some() || listing.len() != 3 {
        return true;
    }
    begin(rt);
    let answer = record.merge(listing, &held, 9);
    end(rt);
    match answer {
        Ok(changed) => tell(rt, if changed { "changed" } else { "the same" }),
        Err(_) => tell_no_memory(rt),
    }
    tell_record(rt, record);
    answer.is_ok()
}

#[test]
fn merge_row(rt: HostRuntime) -> Result<(), Fail> {
    let listing = listing_of(rt.alloc(), &[("b", 1), (NEW, 1), ("a", 1)])?;
    let mut record = read_record(rt.alloc(), ROWS)?;
    tell_record(&rt, &record);
    if !merge(&rt, &mut record, &listing) {
        merge(&rt, &mut record, &listing);
    }
    Ok(())
}
