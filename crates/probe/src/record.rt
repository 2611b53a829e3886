//! The calls of `fetch_rules` that a session makes over its record and its listing.

use crate::trouble::{Result, Trouble};
use fetch_rules::{
    Listing, MESSAGE_LIMIT, ScanRow, Seen, Settings, UidRows, is_legal_id, plan, read_rc,
};
use std::alloc::Global;
use std::hash::RandomState;
use std::time::{CpuClock, Duration};

/// An rc file: only new messages are fetched, and old ones deleted after a week.
const RC: &[u8] =
    b"[retriever]\ntype = SimplePOP3Retriever\nserver = s\nusername = u\npassword = p\n\
    [destination]\ntype = Maildir\npath = m/\n[options]\nread_all = false\ndelete_after = 7\n";

/// The id of a number: sixteen digits, in no order.
fn id_of(alloc: Global, number: u32) -> Result<Vec<u8>> {
    let mixed = u64::from(number).wrapping_mul(0x9E37_79B9_7F4A_7C15);
    Ok(format!(in alloc; "{mixed:016x}")?.into_bytes())
}

/// The file of a record that has seen the ids of the numbers 1 to `count`, and has every other one
/// delivered.
fn file_of(alloc: Global, count: u32) -> Result<Vec<u8>> {
    let mut file = Vec::from_slice(alloc, b"getmail-seen 2\n")?;
    for number in 1..=count {
        file.extend_from_slice(&id_of(alloc, number)?)?;
        let rest = format!(in alloc; " 1700000000 {}\n", number % 2)?;
        file.extend_from_slice(rest.as_bytes())?;
    }
    Ok(file)
}

/// Adds a row of UIDL.
pub fn add_row(rows: &mut UidRows, number: u32, uid: &[u8]) -> Result<()> {
    if rows.len() >= MESSAGE_LIMIT as usize || !is_legal_id(uid) {
        return Err(Trouble::Other);
    }
    rows.push(number, uid)?;
    Ok(())
}

/// UIDL's rows of `count` messages, whose ids are those of the numbers above `known`.
fn uid_rows(alloc: Global, known: u32, count: u32) -> Result<UidRows> {
    let mut rows = UidRows::new(alloc);
    for number in 1..=count {
        add_row(
            &mut rows,
            number,
            &id_of(alloc, known.saturating_add(number))?,
        )?;
    }
    Ok(rows)
}

/// LIST's rows of `count` messages.
pub fn scan_rows(alloc: Global, count: u32) -> Result<Vec<ScanRow>> {
    let mut rows = Vec::with_capacity(alloc, count as usize)?;
    for number in 1..=count {
        rows.push(ScanRow { number, size: 2048 })?;
    }
    Ok(rows)
}

/// Prints the name of a call and the microseconds of the processor since `start`.
fn tell(rt: &HostRuntime, call: &str, start: Duration) -> Result<()> {
    let used = rt.process_cpu_time()?.saturating_sub(start);
    println!(rt; "{call} {}", used.as_micros())?;
    Ok(())
}

/// Joins the rows of `count` messages. The ids of half of them are those of a record of `count` rows.
fn time_join(rt: &HostRuntime, count: u32) -> Result<Listing> {
    let uids = uid_rows(rt.alloc(), count / 2, count)?;
    let sizes = scan_rows(rt.alloc(), count)?;
    let start = rt.process_cpu_time()?;
    let listing = uids.join(rt.alloc(), count, &sizes)?;
    tell(rt, "join", start)?;
    Ok(listing)
}

/// Reads a record in place of the last one. Its file needn't be written anew.
fn time_reading(rt: &HostRuntime, seen: &mut Seen<RandomState>, file: &[u8]) -> Result<()> {
    let start = rt.process_cpu_time()?;
    seen.reread(file)?;
    tell(rt, "read", start)?;
    if seen.needs_rewrite() {
        return Err(Trouble::Other);
    }
    Ok(())
}

/// Merges a listing whose messages are all held.
fn time_merge(rt: &HostRuntime, listing: &Listing, seen: &mut Seen<RandomState>) -> Result<()> {
    if seen.intent().is_some() {
        return Err(Trouble::Other);
    }
    let held = vec![in rt.alloc(); true; listing.len() as usize]?;
    let start = rt.process_cpu_time()?;
    seen.merge(listing, &held, 1_700_000_000)?;
    tell(rt, "merge", start)
}

/// Plans the steps of a session.
fn time_plan(
    rt: &HostRuntime,
    settings: &Settings,
    listing: &Listing,
    seen: &Seen<RandomState>,
) -> Result<()> {
    let start = rt.process_cpu_time()?;
    let steps = plan(rt.alloc(), settings, seen, listing, 1_800_000_000)?;
    tell(rt, "plan", start)?;
    if steps.len() != listing.len() as usize {
        return Err(Trouble::Other);
    }
    Ok(())
}

/// Writes a record that has at least the rows of a file of `least` octets.
fn time_bytes(rt: &HostRuntime, least: usize, seen: &Seen<RandomState>) -> Result<()> {
    let start = rt.process_cpu_time()?;
    let bytes = seen.bytes()?;
    tell(rt, "bytes", start)?;
    if bytes.len() < least {
        return Err(Trouble::Other);
    }
    Ok(())
}

/// Makes the calls of one session over `count` messages and a record of as many rows. The record
/// knows half of the messages.
pub fn time_session(rt: &HostRuntime, count: u32) -> Result<()> {
    let listing = time_join(rt, count)?;
    let file = file_of(rt.alloc(), count)?;
    let mut seen = Seen::new(rt.alloc(), RandomState::new(rt)?);
    time_reading(rt, &mut seen, &file)?;
    time_merge(rt, &listing, &mut seen)?;
    let (settings, _warnings) = read_rc(rt.alloc(), RC)?;
    time_plan(rt, &settings, &listing, &seen)?;
    time_bytes(rt, file.len(), &seen)
}

/// Reads a record of `count` rows.
pub fn time_read(rt: &HostRuntime, count: u32) -> Result<()> {
    let file = file_of(rt.alloc(), count)?;
    let hasher = RandomState::new(rt)?;
    time_reading(rt, &mut Seen::new(rt.alloc(), hasher), &file)
}
