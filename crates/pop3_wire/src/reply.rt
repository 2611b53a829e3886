//! First lines of replies (RFC 1939, section 3).
ghost use Rattle.std.specs.Prelude.{◌≡◌, ℕ, List, IfOk, IfErr};
ghost use Rattle.pop3_wire.specs.{
  Honest.FirstLinesAreRead,
  Reading.{OneReading, OneListOfLines},
  Reply.{IsFirstLine, without_space},
  Rows.{NumbersAreRead, ScanRowsAreRead, UidRowsAreRead},
};

use crate::fault::WireFault;

/// What a reply says of the command before it.
#[derive(Clone, Copy, Debug, PartialEq, Eq)]
pub enum Status {
    /// `+OK`
    Positive,
    /// `-ERR`
    Negative,
}

/// The text after a status indicator, without the space between the two.
fn without_space(after: &[u8]) -> &[u8]
    ensures { result.now ≡ without_space after.now }
{
    match after {
        [b' ', rest @ ..] => rest,
        _ => after,
    }
}

/// The status and the rest of a first line, which is given without its CR LF. BadStatus if it begins
/// with neither `+OK` nor `-ERR`, in upper case. One space in front of the rest is dropped.
pub fn read_status(line: &[u8]) -> Result<(Status, &[u8]), WireFault>
    ensures ok { IfOk result (λ read. IsFirstLine line.now read.0 read.1.now) }
    ensures err { IfErr result (λ e. (e ≡ WireFault.BadStatus)
        × ((status : Status) (rest : List ℕ) → IsFirstLine line.now status rest → ⊥)) }
{
    if let Some(after) = line.strip_prefix(b"+OK".as_slice()) {
        return Ok((Status::Positive, without_space(after)));
    }
    match line.strip_prefix(b"-ERR".as_slice()) {
        Some(after) => Ok((Status::Negative, without_space(after))),
        None => Err(WireFault::BadStatus),
    }
}

/// Octets split into whole replies to given commands in one way only: a first line, and after a
/// positive one the body that its command asks for.
#[tactic(auto, using(crate::proofs::BodyLemmas::one_list_of_replies))]
pub fn only_one_reading()
    ensures { OneReading }
{}

/// The octets of a body split into its lines in one way only.
#[tactic(auto, using(crate::proofs::BodyLemmas::same_lines))]
pub fn only_one_list_of_lines()
    ensures { OneListOfLines }
{}

/// What a server writes is read as it was meant: a status and the text after it; a number; a row
/// of LIST, which is STAT's rest too; and a row of UIDL. In a body these rows need no stuffing.
pub fn replies_are_read_as_written()
    ensures first { FirstLinesAreRead }
    ensures numbers { NumbersAreRead }
    ensures scan { ScanRowsAreRead }
    ensures uid { UidRowsAreRead }
{}
