//! The replies of a server, each whole, with its CR LF (RFC 1939, sections 5 to 7).
ghost use Rattle.std.specs.{Prelude.{◌≡◌, ◌≤◌, ◌<◌, ◌++◌, length, IfOk, IfErr, codes}, Fmt.decimal};
ghost use Rattle.pop3_server.specs.{
  ServerMachine.{said, listed, left_count, left_total, octets_line},
  ReplyLines.row_line,
};

use crate::fault::ServerFault;
use crate::maildrop::MAX_COUNT;
use crate::rows::{MessageRow, left};
use crate::text_part::PART;
use std::alloc::Global;

/// A reply of one line.
pub fn say(alloc: Global, text: &[u8]) -> Result<Vec<u8>, ServerFault>
    ensures ok { IfOk result (λ reply. reply.items ≡ said text.now) }
    ensures err { IfErr result (λ e. e ≡ ServerFault.NoMemory) }
{
    let mut reply = Vec::from_slice(alloc, text)?;
    reply.extend_from_slice(b"\r\n")?;
    Ok(reply)
}

/// The reply to PASS: how many messages there are.
pub fn say_count(alloc: Global, count: usize) -> Result<Vec<u8>, ServerFault>
    ensures ok { IfOk result (λ reply. reply.items ≡ said (codes "+OK " ++ decimal count ++ codes " messages")) }
    ensures err { IfErr result (λ e. e ≡ ServerFault.NoMemory) }
{
    Ok(format!(in alloc; "+OK {count} messages\r\n")?.into_bytes())
}

/// The reply to STAT: how many messages aren't marked, and their octets.
pub fn say_left(alloc: Global, rows: &[MessageRow]) -> Result<Vec<u8>, ServerFault>
    requires { length rows.now ≤ MAX_COUNT }
    ensures ok { IfOk result (λ reply. reply.items
        ≡ said (codes "+OK " ++ decimal (left_count rows.now) ++ codes " " ++ decimal (left_total rows.now))) }
    ensures err { IfErr result (λ e. e ≡ ServerFault.NoMemory) }
{
    let (count, total) = left(rows);
    Ok(format!(in alloc; "+OK {count} {total}\r\n")?.into_bytes())
}

/// What a listing says of each message.
#[derive(Clone, Copy)]
pub enum Column {
    /// Its size, for LIST.
    Size,
    /// Its unique-id, for UIDL.
    Uid,
}

/// Appends a message's line of a listing.
fn put_row(
    reply: &mut Vec<u8>,
    alloc: Global,
    column: Column,
    number: usize,
    row: &MessageRow,
) -> Result<(), ServerFault>
    ensures ok { IfOk result (λ _. reply.new.items ≡ reply.old.items ++ said (row_line column number row.now)) }
    ensures err { IfErr result (λ e. e ≡ ServerFault.NoMemory) }
{
    match column {
        Column::Size => {
            let size = row.entry.size();
            let line = format!(in alloc; "{number} {size}\r\n")?;
            Ok(reply.extend_from_slice(line.as_bytes())?)
        }
        Column::Uid => {
            let front = format!(in alloc; "{number} ")?;
            reply.extend_from_slice(front.as_bytes())?;
            reply.extend_from_slice(row.entry.uid())?;
            Ok(reply.extend_from_slice(b"\r\n")?)
        }
    }
}

/// The reply to LIST or UIDL of one message: its number, and its size or unique-id.
pub fn say_row(
    alloc: Global,
    column: Column,
    number: u32,
    row: &MessageRow,
) -> Result<Vec<u8>, ServerFault>
    ensures ok { IfOk result (λ reply. reply.items ≡ said (codes "+OK " ++ row_line column number row.now)) }
    ensures err { IfErr result (λ e. e ≡ ServerFault.NoMemory) }
{
    let mut reply = Vec::from_slice(alloc, b"+OK ")?;
    put_row(&mut reply, alloc, column, number as usize, row)?;
    Ok(reply)
}

/// The reply to LIST or UIDL: the sizes or the unique-ids of the messages that aren't marked.
pub fn say_rows(alloc: Global, column: Column, rows: &[MessageRow]) -> Result<Vec<u8>, ServerFault>
    requires { length rows.now ≤ MAX_COUNT }
    ensures ok { IfOk result (λ reply. reply.items ≡ listed (row_line column) rows.now) }
    ensures err { IfErr result (λ e. e ≡ ServerFault.NoMemory) }
{
    let mut reply = Vec::from_slice(alloc, b"+OK\r\n")?;
    for (i, row) in rows.iter().enumerate() {
        if row.marked {
            continue;
        }
        put_row(&mut reply, alloc, column, i + 1, row)?;
    }
    reply.extend_from_slice(b".\r\n")?;
    Ok(reply)
}

/// The first line of the reply to RETR, with the message's size. There is room for the text after
/// it, as far as a reply is made that ends soon after `limit` octets.
pub fn begin_text(alloc: Global, row: &MessageRow, limit: usize) -> Result<Vec<u8>, ServerFault>
    ensures ok { IfOk result (λ reply. reply.items ≡ said (octets_line row.now)) }
    ensures err { IfErr result (λ e. e ≡ ServerFault.NoMemory) }
{
    let size = row.entry.size();
    let mut reply = format!(in alloc; "+OK {size} octets\r\n")?.into_bytes();
    // The size counts all that is sent except stuffed dots and the end mark; the last part may go
    // over the limit.
    let room = limit.saturating_add(PART).min(size as usize);
    reply.reserve(room + b".\r\n".len())?;
    Ok(reply)
}
