//! A conversation of `pop3_client` with standard input as the server.

use crate::trouble::Trouble;
use pop3_client::{Client, ClientFault};
use pop3_wire::{StreamWire, Wire};
use std::alloc::Global;
use std::io;

/// The octets of a message's text.
fn text_length<W: Wire>(
    alloc: Global,
    client: &mut Client<'_, W>,
    number: u32,
) -> Result<u64, ClientFault> {
    let mut body = client.open(alloc, number)?;
    let mut out = [0u8; 4097];
    let mut length = 0u64;
    for _ in 0..u64::MAX {
        if body.has_ended() {
            break;
        }
        let piece = client.next_piece(&mut body, &mut out)?;
        length = length.saturating_add(piece.put as u64);
    }
    Ok(length)
}

/// How many messages there are, and how many octets their texts have together.
fn fetch_all<W: Wire>(alloc: Global, wire: &mut W) -> Result<(u32, u64), ClientFault> {
    let mut client = Client::new(wire);
    client.log_in(alloc, b"u", b"p")?;
    let told = client.count()?;
    let listing = client.list(alloc, told)?;
    let mut octets = 0u64;
    for index in 0..listing.len() {
        octets = octets.saturating_add(text_length(alloc, &mut client, index + 1)?);
    }
    client.quit()?;
    Ok((listing.len(), octets))
}

/// Fetches each message piece by piece, and prints how many messages and how many octets of text there
/// were.
pub fn fetch(rt: &HostRuntime) -> Result<(), Trouble> {
    let mut wire = StreamWire::new(rt.stdin(), io::sink());
    match fetch_all(rt.alloc(), &mut wire) {
        Ok((messages, octets)) => println!(rt; "{messages} {octets}")?,
        Err(_) => println!(rt; "cut")?,
    }
    Ok(())
}
