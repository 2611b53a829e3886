//! Whose rights a process has.
ghost use Rattle.std.specs.{
  Prelude.{◌≡◌, ◌≤◌, length},
  List.prefix_len,
};
ghost use Rattle.safe_path.specs.Users.{IsWatched, behind, is_gap, is_one_user, is_solid, past_gaps, word};

use crate::looks::Looks;
use file_reading::ReadFile;

/// Where the map of this process's users is.
const MAP: &str = "/proc/self/uid_map";

/// How much of it is read.
const MAP_ROOM: u64 = 4_096;

/// Whether an octet is a space or the end of a line.
fn is_gap(octet: u8) -> bool
    ensures { result ≡ is_gap octet }
{
    octet == b' ' || octet == b'\n'
}

/// How many gaps octets begin with.
fn leading_gaps(octets: &[u8]) -> usize
    ensures count { result ≡ prefix_len is_gap octets.now }
    ensures within { result ≤ length octets.now }
{
    octets.iter().take_while(|octet| is_gap(**octet)).count()
}

/// How many other octets they begin with.
fn leading_solids(octets: &[u8]) -> usize
    ensures count { result ≡ prefix_len is_solid octets.now }
    ensures within { result ≤ length octets.now }
{
    octets.iter().take_while(|octet| !is_gap(**octet)).count()
}

/// The first word, and what is behind it.
fn first_word(octets: &[u8]) -> (&[u8], &[u8])
    ensures word { result.0.now ≡ word octets.now }
    ensures behind { result.1.now ≡ behind octets.now }
{
    let octets = &octets[leading_gaps(octets)..];
    octets.split_at(leading_solids(octets))
}

/// Whether a map of users is that of one user alone, who has the superuser's number inside and another one outside.
fn is_one_user(octets: &[u8]) -> bool
    ensures { result ≡ is_one_user octets.now }
{
    let (inside, rest) = first_word(octets);
    let (outside, rest) = first_word(rest);
    let (count, rest) = first_word(rest);
    let (more, _) = first_word(rest);
    inside == b"0".as_slice()
        && outside != b"0".as_slice()
        && count == b"1".as_slice()
        && more.is_empty()
}

/// Whether paths are looked at: if the process has the superuser's rights, and more than one user's.
pub(crate) fn is_watched<L: Looks + ReadFile>(looks: &L) -> bool
    ensures { IsWatched L.Looks L.ReadFile looks.now result }
{
    if !looks.is_superuser() {
        return false;
    }
    match looks.read(MAP, MAP_ROOM) {
        Ok(octets) => !is_one_user(octets.as_slice()),
        Err(_) => true,
    }
}
