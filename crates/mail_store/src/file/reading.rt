//! Reading the bytes of a file that is in memory: what devices in memory are made of.

ghost use Rattle.std.specs.Prelude.{◌≡◌, ◌≤◌, length, drop, take, slice_index};
ghost use Rattle.mail_store.specs.FlatFile.{edges_of, piece_at};

use crate::file::flat_file::Edges;

/// The byte at a place, or zero past the end.
fn byte_at(bytes: &[u8], place: usize) -> u8
    ensures { result ≡ slice_index bytes.now place }
{
    bytes.get(place).copied().unwrap_or(0)
}

/// The last two bytes, with zeros in front of them if there are fewer.
fn tail_of(bytes: &[u8]) -> [u8; 2]
    ensures { result ≡ (edges_of bytes.now).tail }
{
    match bytes.len() {
        0 => [0, 0],
        1 => [0, bytes[0]],
        size => [bytes[size - 2], bytes[size - 1]],
    }
}

/// The size of some bytes and their ends.
pub fn edges_of(bytes: &[u8]) -> Edges
    ensures { result ≡ edges_of bytes.now }
{
    Edges {
        size: bytes.len() as u64,
        head: [
            byte_at(bytes, 0),
            byte_at(bytes, 1),
            byte_at(bytes, 2),
            byte_at(bytes, 3),
            byte_at(bytes, 4),
        ],
        tail: tail_of(bytes),
    }
}

/// The bytes from a place on: none if it is at or past the end.
pub fn bytes_from(bytes: &[u8], start: u64) -> &[u8]
    ensures { result.now ≡ drop start bytes.now }
{
    if start >= bytes.len() as u64 {
        return &[];
    }
    &bytes[start as usize..]
}

/// Puts the bytes from a place on at the front of a buffer, as many as there are and fit, and returns how
/// many.
pub fn read_piece(bytes: &[u8], start: u64, buf: &mut [u8]) -> usize
    ensures within { result ≤ length buf.new }
    ensures count { result ≡ length (piece_at start (length buf.new) bytes.now) }
    ensures put { take result buf.new ≡ piece_at start (length buf.new) bytes.now }
{
    let piece = bytes_from(bytes, start);
    let count = piece.len().min(buf.len());
    buf[..count].copy_from_slice(&piece[..count]);
    count
}
