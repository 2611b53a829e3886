//! Reads bodies piece by piece, wherever the pieces are cut (RFC 1939, section 3).
ghost use Rattle.std.specs.Prelude.{◌≡◌, ◌≢◌, ◌≤◌, ◌<◌, ◌+◌, ◌++◌, ◌↔◌, ◌∷◌, ℕ, List, [], length, slice_index, take};
ghost use Rattle.std.specs.Prelude.{IsTrue, IfSome};
ghost use Rattle.pop3_wire.specs.{
  Body.{Body, HasNoBody},
  Unstuffing.{Reaches, held_back, bytes_given},
  declared.unstuffer.Spot.Spot,
};

use memchr::memchr;
use std::marker::Model;

/// The place in a body after the octets read so far.
#[derive(Clone, Copy, Debug, PartialEq, Eq)]
pub enum Spot {
    /// At the start of a line.
    Start,
    /// After a full stop at the start of a line.
    Dot,
    /// After a full stop at the start of a line, and CR.
    DotCr,
    /// In a line, not after CR.
    Middle,
    /// In a line, after CR.
    Cr,
    /// After the end mark.
    Done,
}

/// What an octet of a body adds to the text.
#[derive(Clone, Copy, Debug, PartialEq, Eq)]
pub enum Given {
    /// Nothing yet.
    Nothing,
    /// One octet.
    One(u8),
    /// A CR that was held back, and an octet.
    CrAnd(u8),
}

/// How a piece was used.
#[derive(Clone, Copy, Debug, PartialEq, Eq)]
pub struct Fed {
    /// How many octets of the piece belong to the body.
    pub used: usize,
    /// How many octets of the text were put into the buffer.
    pub put: usize,
    /// Whether the body ended.
    pub ended: bool,
}

/// What an octet does at a spot inside the body.
fn step(spot: Spot, byte: u8) -> (Spot, Given)
    requires { spot ≢ Spot.Done }
    ensures reached { (bytes text : List ℕ) → Reaches spot bytes text
        → Reaches result.0 (bytes ++ byte ∷ []) (text ++ bytes_given result.1) }
    ensures few { length (bytes_given result.1) + held_back result.0 ≤ 1 + held_back spot }
{
    match spot {
        Spot::Start => match byte {
            b'.' => (Spot::Dot, Given::Nothing),
            b'\r' => (Spot::Cr, Given::Nothing),
            _ => (Spot::Middle, Given::One(byte)),
        },
        Spot::Dot => match byte {
            b'\r' => (Spot::DotCr, Given::Nothing),
            _ => (Spot::Middle, Given::One(byte)),
        },
        Spot::DotCr => match byte {
            b'\n' => (Spot::Done, Given::Nothing),
            b'\r' => (Spot::Cr, Given::One(byte)),
            _ => (Spot::Middle, Given::CrAnd(byte)),
        },
        Spot::Middle => match byte {
            b'\r' => (Spot::Cr, Given::Nothing),
            _ => (Spot::Middle, Given::One(byte)),
        },
        Spot::Cr => match byte {
            b'\n' => (Spot::Start, Given::One(byte)),
            b'\r' => (Spot::Cr, Given::One(byte)),
            _ => (Spot::Middle, Given::CrAnd(byte)),
        },
        Spot::Done => (Spot::Done, Given::Nothing),
    }
}

/// The place after the two octets that a piece begins with, and the octet that they give, for common
/// pairs: CR LF in a line, and a full stop at its start with an octet that isn't CR.
#[tactic(auto, using(crate::proofs::BodyLemmas::middle_two))]
fn pair(spot: Spot, piece: &[u8]) -> Option<(Spot, u8)>
    ensures fits { IfSome result (λ r. (2 ≤ length piece.now) × (r.0 ≢ Spot.Done) × (held_back r.0 ≤ held_back spot)) }
    ensures reached { IfSome result (λ r. (bytes text : List ℕ) → Reaches spot bytes text
        → Reaches r.0 (bytes ++ take 2 piece.now) (text ++ r.1 ∷ [])) }
{
    match spot {
        Spot::Start => match piece {
            [b'.', b'\r', ..] => None,
            [b'.', byte, ..] => Some((Spot::Middle, *byte)),
            _ => None,
        },
        Spot::Middle => match piece {
            [b'\r', b'\n', ..] => Some((Spot::Start, b'\n')),
            _ => None,
        },
        _ => None,
    }
}

/// Writes what an octet gave after the first `put` octets, and returns how many there are now.
fn write(out: &mut [u8], put: usize, given: Given) -> usize
    requires { put + length (bytes_given given) ≤ length out.old }
    ensures value { result ≡ put + length (bytes_given given) }
    ensures kept { take result out.new ≡ take put out.old ++ bytes_given given }
{
    match given {
        Given::Nothing => put,
        Given::One(byte) => {
            out[put] = byte;
            put + 1
        }
        Given::CrAnd(byte) => {
            out[put] = b'\r';
            out[put + 1] = byte;
            put + 2
        }
    }
}

/// How many octets a piece begins with before its first CR.
fn run_length(piece: &[u8]) -> usize
    ensures fits { result ≤ length piece.now }
    ensures none { (k : ℕ) → k < result → slice_index piece.now k ≢ 13 }
{
    if let [b'\r', ..] = piece {
        return 0;
    }
    match memchr(b'\r', piece) {
        Some(length) => length,
        None => piece.len(),
    }
}

/// Copies the front of a piece after the first `put` octets, as far as it is the same in the body and
/// in its text: within a line, all up to CR. It returns how many octets that were.
#[tactic(auto, using(crate::proofs::BodyLemmas::middle_run))]
fn copy_run(spot: Spot, piece: &[u8], out: &mut [u8], put: usize) -> usize
    requires { put + length piece.now ≤ length out.old }
    ensures fits { result ≤ length piece.now }
    ensures kept { take (put + result) out.new ≡ take put out.old ++ take result piece.now }
    ensures reached { (bytes text : List ℕ) → Reaches spot bytes text
        → Reaches spot (bytes ++ take result piece.now) (text ++ take result piece.now) }
{
    match spot {
        Spot::Middle => {
            let run = run_length(piece);
            out[put..put + run].copy_from_slice(&piece[..run]);
            run
        }
        _ => 0,
    }
}

/// The place after the first octets of a piece, how many they are, and how many octets are in the
/// buffer then.
#[derive(Clone, Copy)]
struct Advance {
    spot: Spot,
    used: usize,
    put: usize,
}

/// Reads the first octets of a piece, and puts what they give after the first `put` octets.
fn go_on(spot: Spot, piece: &[u8], out: &mut [u8], put: usize) -> Advance
    requires inside { spot ≢ Spot.Done }
    requires some { 0 < length piece.now }
    requires room { put + length piece.now + held_back spot ≤ length out.old }
    ensures fits { (0 < result.used) × (result.used ≤ length piece.now) }
    ensures few { result.put + held_back result.spot ≤ put + result.used + held_back spot }
    ensures reached { (bytes text : List ℕ) → Reaches spot bytes (text ++ take put out.old)
        → Reaches result.spot (bytes ++ take result.used piece.now) (text ++ take result.put out.new) }
{
    if let Some((next, byte)) = pair(spot, piece) {
        let put = write(out, put, Given::One(byte));
        return Advance {
            spot: next,
            used: 2,
            put,
        };
    }
    let run = copy_run(spot, piece, out, put);
    if run > 0 {
        return Advance {
            spot,
            used: run,
            put: put + run,
        };
    }
    let (next, given) = step(spot, piece[0]);
    let put = write(out, put, given);
    Advance {
        spot: next,
        used: 1,
        put,
    }
}

/// Reads one body, piece by piece, into its text.
#[derive(Drop)]
pub struct Unstuffer {
    spot: Spot,
}

impl Model for Unstuffer {
    ghost Value = { Spot };

    ghost view = { λ u. u.spot };
}

impl Unstuffer {
    /// A reader at the start of a body.
    pub fn new() -> Unstuffer
        ensures { result ≡ Spot.Start }
    {
        Unstuffer { spot: Spot::Start }
    }

    /// Whether the body has ended.
    pub fn has_ended(&self) -> bool
        ensures { IsTrue result ↔ (self.now ≡ Spot.Done) }
    {
        self.spot == Spot::Done
    }

    /// Reads one more piece, and puts what it adds to the text into the buffer. The whole piece is
    /// used, unless the body ends in it; after the end nothing is used and nothing put.
    pub fn feed(&mut self, piece: &[u8], out: &mut [u8]) -> Fed
        requires { length piece.now < length out.old }
        ensures fits { (result.used ≤ length piece.now) × (result.put ≤ length out.new) }
        ensures whole { (self.new ≢ Spot.Done) → result.used ≡ length piece.now }
        ensures reached { (bytes text : List ℕ) → Reaches self.old bytes text
            → Reaches self.new (bytes ++ take result.used piece.now) (text ++ take result.put out.new) }
        ensures ended { IsTrue result.ended ↔ (self.new ≡ Spot.Done) }
        ensures after { self.old ≡ Spot.Done → (result.used ≡ 0) × (result.put ≡ 0) }
    {
        let mut spot = self.spot;
        let mut used = 0;
        let mut put = 0;
        'octets: while used < piece.len() && spot != Spot::Done {
            let next = go_on(spot, &piece[used..], out, put);
            spot = next.spot;
            used += next.used;
            put = next.put;
        }
        self.spot = spot;
        Fed {
            used,
            put,
            ended: spot == Spot::Done,
        }
    }
}

/// At the start nothing was read, and nothing put.
#[tactic(auto, using(crate::proofs::BodyLemmas::partly_none))]
pub fn starts_empty()
    ensures { Reaches Spot.Start [] [] }
{}

/// The octets read are a body exactly at the end, and then what was put is its text.
pub fn ends_with_body()
    ensures { (spot : Spot) (bytes text : List ℕ) → Reaches spot bytes text
        → (spot ≡ Spot.Done → Body bytes text) × ((whole : List ℕ) → Body bytes whole → spot ≡ Spot.Done) }
{}

/// Before the end no prefix of the octets read is a body.
pub fn holds_no_body()
    ensures { (spot : Spot) (bytes text : List ℕ) → Reaches spot bytes text → spot ≢ Spot.Done → HasNoBody bytes }
{}

/// The text put so far begins the text of every body that begins with the octets read.
pub fn shows_a_beginning()
    ensures { (spot : Spot) (bytes text rest whole : List ℕ) → Reaches spot bytes text → Body (bytes ++ rest) whole
        → (more : List ℕ) × (whole ≡ text ++ more) }
{}
