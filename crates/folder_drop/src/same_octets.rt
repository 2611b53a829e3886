//! Whether two files have the same octets.
ghost use Rattle.std.specs.Prelude.{IfOk};
ghost use Rattle.folder_drop.specs.SameOctets.{TellsSame, TellsSameLater};

use std::io::{self, BufRead, ErrorKind};

/// Compares the next octets of two readers, as many as both hold, and goes on behind them. Some answer if they
/// differ, or if a reader has ended.
fn compare_next<F: BufRead, G: BufRead>(one: &mut F, other: &mut G) -> io::Result<Option<bool>>
    ensures { IfOk result (λ answer. TellsSameLater (F.Read.remaining one.old) (G.Read.remaining other.old) answer
        (F.Read.remaining one.new) (G.Read.remaining other.new)) }
{
    let front = one.fill_buf()?;
    let other_front = other.fill_buf()?;
    let count = front.len().min(other_front.len());
    if count == 0 {
        return Ok(Some(front.len() == other_front.len()));
    }
    if front[..count] != other_front[..count] {
        return Ok(Some(false));
    }
    one.consume(count);
    other.consume(count);
    Ok(None)
}

/// Whether two readers have the same octets left.
pub fn have_same_octets<F: BufRead, G: BufRead>(one: &mut F, other: &mut G) -> io::Result<bool>
    ensures { IfOk result (λ answer. TellsSame (F.Read.remaining one.old) (G.Read.remaining other.old) answer) }
{
    for _ in 0..u64::MAX {
        if let Some(answer) = compare_next(one, other)? {
            return Ok(answer);
        }
    }
    Err(io::Error::from(ErrorKind::FileTooLarge))
}
