//! The ways to write a password, and where in an answer it is written.
ghost use Rattle.std.specs.Prelude.{◌≡◌, ◌≢◌, ◌<◌, ◌+◌, ◌++◌, ◌^◌, ℕ, List, [], ◌∷◌, IfOk, IfSome, MatchOption, length};
ghost use Rattle.std.specs.Prelude.{map, option_map};
ghost use Rattle.std.specs.{Option.unwrap_or, Prelude.if◌then◌else◌};
ghost use Rattle.hex.specs.Hex.{encode_lower};
ghost use Rattle.trace.specs.Masking.{AreMarked, IsLongest, IsMix, Masks, Writes, alone_first, alone_second};
ghost use Rattle.trace.specs.Masking.{alone_third, base64_after, is_hidden, longer, percent_encoded, runs};
ghost use Rattle.trace.specs.Ways.{WaysOf, end_after};

use base64::engine::general_purpose::STANDARD_NO_PAD;
use std::alloc::{AllocError, Global};

/// The base64 of octets that follow others, with a last character that further octets could change left out.
fn base64_after(alloc: Global, before: &[u8], octets: &[u8]) -> Result<Vec<u8>, AllocError>
    ensures { IfOk result (λ text. text.items ≡ base64_after before.now octets.now) }
{
    let mut whole = Vec::from_slice(alloc, before)?;
    whole.extend_from_slice(octets)?;
    let mut text = STANDARD_NO_PAD
        .encode(alloc, whole.as_slice())?
        .into_bytes();
    if whole.len() % 3 != 0 {
        text.pop();
    }
    Ok(text)
}

/// The characters of the base64 of octets that they alone determine, at the first place of a group of three.
pub(crate) fn alone_first(alloc: Global, octets: &[u8]) -> Result<Vec<u8>, AllocError>
    ensures { IfOk result (λ text. text.items ≡ alone_first octets.now) }
{
    base64_after(alloc, &[], octets)
}

/// Those at the second place.
pub(crate) fn alone_second(alloc: Global, octets: &[u8]) -> Result<Vec<u8>, AllocError>
    ensures { IfOk result (λ text. text.items ≡ alone_second octets.now) }
{
    let text = base64_after(alloc, &[0], octets)?;
    Vec::from_slice(alloc, &text[2.min(text.len())..])
}

/// Those at the third place.
pub(crate) fn alone_third(alloc: Global, octets: &[u8]) -> Result<Vec<u8>, AllocError>
    ensures { IfOk result (λ text. text.items ≡ alone_third octets.now) }
{
    let text = base64_after(alloc, &[0, 0], octets)?;
    Vec::from_slice(alloc, &text[3.min(text.len())..])
}

/// An octet as it is percent-encoded.
fn percent_encoded(octet: u8) -> [u8; 3]
    ensures { result ≡ percent_encoded octet }
{
    let mut digits = [0; 2];
    hex::encode_to_slice([octet].as_slice(), &mut digits).unwrap();
    [b'%', digits[0], digits[1]]
}

/// The greater of two numbers, if there are any.
fn longer(one: Option<usize>, other: Option<usize>) -> Option<usize>
    ensures { result ≡ longer one other }
{
    match (one, other) {
        (Some(a), Some(b)) => Some(a.max(b)),
        (None, b) => b,
        (a, None) => a,
    }
}

/// So many octets more, if there are any.
fn with_front(front: usize, rest: Option<usize>) -> Option<usize>
    requires { IfSome rest (λ size. front + size < 2 ^ 64) }
    ensures { result ≡ option_map (λ size. front + size) rest }
{
    match rest {
        Some(size) => Some(front + size),
        None => None,
    }
}

/// How many octets a text begins with that are a way to write these, in lower case.
fn fixed(text: &[u8], way: &[u8]) -> Option<usize>
    ensures { IsLongest (λ written. written ≡ way.now) text.now result }
{
    if text.starts_with(way) {
        Some(way.len())
    } else {
        None
    }
}

/// The first octet and the others, if there is one.
fn parted(octets: &[u8]) -> Option<(u8, &[u8])>
    ensures { MatchOption result (octets.now ≡ []) (λ parts. octets.now ≡ parts.0 ∷ parts.1.now) }
{
    match octets {
        [octet, rest @ ..] => Some((*octet, rest)),
        [] => None,
    }
}

/// What follows a front, if a text begins with it.
fn after<'a>(text: &'a [u8], front: &[u8]) -> Option<&'a [u8]>
    ensures { MatchOption result ((rest : List ℕ) → text.now ≢ front.now ++ rest)
        (λ rest. text.now ≡ front.now ++ rest.now) }
{
    text.strip_prefix(front)
}

/// How many octets a text in lower case, if there is one, begins with that are a mix of a password's octets, plain and
/// percent-encoded.
fn mix(text: Option<&[u8]>, password: &[u8]) -> Option<usize>
    ensures { MatchOption text.entry (result ≡ None) (λ text. IsLongest (IsMix password.now) text.now result) }
{
    let text = text?;
    match parted(password) {
        None => Some(0),
        Some((octet, rest)) => {
            let plain = after(text, [octet.to_ascii_lowercase()].as_slice());
            let encoded = after(text, percent_encoded(octet).as_slice());
            longer(
                with_front(1, mix(plain, rest)),
                with_front(3, mix(encoded, rest)),
            )
        }
    }
}

/// A password, and the other ways to write it, in lower case.
#[derive(Drop)]
struct Ways<'a> {
    password: &'a [u8],
    hex: String,
    first: Vec<u8>,
    second: Vec<u8>,
    third: Vec<u8>,
}

impl<'a> Ways<'a> {
    fn new(alloc: Global, password: &'a [u8]) -> Result<Ways<'a>, AllocError>
        ensures { IfOk result (WaysOf password.now) }
    {
        Ok(Ways {
            password,
            hex: hex::encode(alloc, password)?,
            first: alone_first(alloc, password)?.to_ascii_lowercase(alloc)?,
            second: alone_second(alloc, password)?.to_ascii_lowercase(alloc)?,
            third: alone_third(alloc, password)?.to_ascii_lowercase(alloc)?,
        })
    }

    /// How many octets a text in lower case begins with that write the password.
    fn longest(&self, text: &[u8]) -> Option<usize>
        ensures { (password : List ℕ) → WaysOf password self.now → IsLongest (Writes password) text.now result }
    {
        let mix = mix(Some(text), self.password);
        let hex = fixed(text, self.hex.as_bytes());
        let first = fixed(text, self.first.as_slice());
        let second = fixed(text, self.second.as_slice());
        let third = fixed(text, self.third.as_slice());
        longer(mix, longer(hex, longer(first, longer(second, third))))
    }
}

/// How far the ways go that begin up to some octet: as far as earlier ones, or as this one.
fn end_after(end: usize, start: usize, size: Option<usize>) -> usize
    requires { IfSome size (λ n. start + n < 2 ^ 64) }
    ensures { result ≡ end_after end start size }
{
    match size {
        Some(size) => end.max(start + size),
        None => end,
    }
}

/// Each octet of an answer that isn't one of those that write the password.
fn parts_of(alloc: Global, answer: &[u8], password: &[u8]) -> Result<Vec<Option<u8>>, AllocError>
    ensures { IfOk result (λ parts. AreMarked answer.now password.now (length answer.now) parts.items) }
{
    let ways = Ways::new(alloc, password)?;
    let lower = answer.to_ascii_lowercase(alloc)?;
    let mut parts = Vec::new(alloc);
    let mut end = 0;
    for start in 0..answer.len() {
        end = end_after(end, start, ways.longest(&lower[start..]));
        parts.push(kept(answer[start], start < end))?;
    }
    Ok(parts)
}

/// An octet, unless it is hidden.
fn kept(octet: u8, is_hidden: bool) -> Option<u8>
    ensures { result ≡ (if is_hidden then None else Some octet) }
{
    if is_hidden { None } else { Some(octet) }
}

/// Whether an octet isn't shown.
fn is_hidden(part: &Option<u8>) -> bool
    ensures { result ≡ is_hidden part.now }
{
    match part {
        Some(_) => false,
        None => true,
    }
}

/// What is shown of an octet.
fn shown(part: &Option<u8>) -> u8
    ensures { result ≡ unwrap_or part.now 42 }
{
    match part {
        Some(octet) => *octet,
        None => b'*',
    }
}

/// Of hidden octets that follow one another, the first alone.
fn runs(mut parts: Vec<Option<u8>>) -> Vec<Option<u8>>
    ensures { result.items ≡ runs parts.items }
{
    parts.dedup_by(|a, b| is_hidden(a) && is_hidden(b));
    parts
}

/// What is shown of octets.
fn stars(alloc: Global, parts: &[Option<u8>]) -> Result<Vec<u8>, AllocError>
    ensures { IfOk result (λ text. text.items ≡ map (λ part. unwrap_or part 42) parts.now) }
{
    parts.iter().map(|part| shown(part)).collect(alloc)
}

/// An answer, without the octets that write the password.
pub(crate) fn masked(alloc: Global, answer: &[u8], password: &[u8]) -> Result<Vec<u8>, AllocError>
    ensures { IfOk result (λ shown. Masks password.now answer.now shown.items) }
{
    let parts = runs(parts_of(alloc, answer, password)?);
    stars(alloc, parts.as_slice())
}
