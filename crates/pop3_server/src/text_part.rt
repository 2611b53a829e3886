//! Texts of a maildrop, read part by part.
ghost use Rattle.std.specs.Prelude.{◌≡◌, ◌≤◌, ◌<◌, ◌+◌, ◌*◌, ◌^◌, ◌-◌, ◌++◌, ℕ, List, [], length, IsTrue, IfOk};
ghost use Rattle.std.specs.Prelude.{IfErr, IfSome, vec_len, vec_capacity};
ghost use Rattle.mail_terms.specs.FailureCount.{refuses};
ghost use Rattle.pop3_server.specs.{
  Maildrop.{HasPlace, is_drop_refusal},
  ServerMachine.text_body,
  TextAnswer.{ContinuesAnswer, IsFurther, OnlyReads},
  TextBody.{belonging, still},
};

use crate::maildrop::{DropFault, Maildrop};
use crate::stuffer::Stuffer;
use crate::text_top::Top;

/// How many octets of a text are asked for at once.
pub const PART: usize = 16_384;

/// How many octets one part and the end of its body add to a reply at most: each octet gives at
/// most two.
pub const ROOM: usize = 32_773;

/// The place in the body of a text, or in that of its top.
#[derive(Clone, Copy)]
pub struct TextBody {
    // The place of its message.
    place: usize,
    // How many octets of the text were given.
    start: usize,
    // The place in the top, if only the top is asked for.
    top: Option<Top>,
    stuffer: Stuffer,
}

impl TextBody {
    /// The start of the text at a place: of all of it, or of its head and `count` lines after it.
    #[tactic(auto, using(crate::proofs::TextBodyLemmas::whole_of_all, crate::proofs::TextBodyLemmas::whole_of_top))]
    pub fn new(place: usize, count: Option<u32>) -> TextBody
        ensures place { result.place ≡ place }
        ensures start { result.start ≡ 0 }
        ensures whole { (text : List ℕ) → still result text ≡ text_body count text }
    {
        TextBody {
            place,
            start: 0,
            top: count.map(|count| Top::new(count)),
            stuffer: Stuffer::new(),
        }
    }

    /// Whether nothing that may follow in the text belongs to it.
    #[tactic(auto, using(crate::proofs::TextTopLemmas::done_takes_none))]
    fn is_whole(&self) -> bool
        ensures { IsTrue result → (rest : List ℕ) → belonging self.now.top rest ≡ [] }
    {
        match self.top {
            Some(top) => top.is_done(),
            None => false,
        }
    }

    /// The octets of a piece of the text that belong to it.
    fn take<'a>(&mut self, piece: &'a [u8]) -> &'a [u8]
        ensures belong { (rest : List ℕ)
            → belonging self.old.top (piece.now ++ rest) ≡ result.now ++ belonging self.new.top rest }
        ensures within { length result.now ≤ length piece.now }
        ensures others { self.new ≡ record self.old { top = self.new.top } }
    {
        let Some(mut top) = self.top else {
            return piece;
        };
        let octets = top.take(piece);
        self.top = Some(top);
        octets
    }

    /// Asks for the next part of the text, and appends what it adds to the body to a reply;
    /// returns the place after it, or None if the body has ended.
    fn put_part<D: Maildrop>(
        self,
        drop: &mut D,
        part: &mut [u8],
        reply: &mut Vec<u8>,
    ) -> Result<Option<TextBody>, DropFault>
        requires place { D.sound drop.old → HasPlace (D.mail drop.old) self.place }
        requires part { 0 < length part.old }
        ensures reads { OnlyReads D.sound D.mail (refuses is_drop_refusal result) drop.old drop.new }
        ensures goes_on { IfOk result
            (λ rest. ContinuesAnswer D.sound D.mail drop.old reply.old.items self drop.new reply.new.items rest) }
        ensures further { IfOk result (λ rest. IfSome rest (λ next. IsFurther self next)) }
        ensures capacity { vec_capacity reply.old ≤ vec_capacity reply.new }
        ensures room { vec_len reply.old + (2 * length part.old + 5) ≤ vec_capacity reply.old → 0 < self.start
            → IfErr result (λ fault. fault ≡ DropFault.Refused) }
    {
        if self.is_whole() {
            self.stuffer.end(reply)?;
            return Ok(None);
        }
        let n = drop.part(self.place, self.start, part)?;
        if n == 0 {
            self.stuffer.end(reply)?;
            return Ok(None);
        }
        let mut next = self;
        let octets = next.take(&part[..n]);
        next.stuffer.put(reply, octets)?;
        next.start += n;
        Ok(Some(next))
    }

    /// Asks for parts of the text, at least one, and appends the body to a reply, until it has
    /// ended or the reply has more than `limit` octets; returns the place after them, or None if
    /// the body has ended. No more than one part of the text is kept at a time, and nothing is
    /// asked for after all that was wanted has come. If a reply within the limit has room for
    /// `limit` and `ROOM` octets, and this isn't the first part of the text, the only fault is a
    /// refusal by the maildrop.
    pub fn put<D: Maildrop>(
        self,
        drop: &mut D,
        reply: &mut Vec<u8>,
        limit: usize,
    ) -> Result<Option<TextBody>, DropFault>
        requires { D.sound drop.old → HasPlace (D.mail drop.old) self.place }
        ensures reads { OnlyReads D.sound D.mail (refuses is_drop_refusal result) drop.old drop.new }
        ensures goes_on { IfOk result
            (λ rest. ContinuesAnswer D.sound D.mail drop.old reply.old.items self drop.new reply.new.items rest) }
        ensures further { IfOk result (λ rest. IfSome rest (λ next. IsFurther self next × (limit < 2 ^ 64 - 1))) }
        ensures capacity { vec_capacity reply.old ≤ vec_capacity reply.new }
        ensures room { limit + ROOM ≤ vec_capacity reply.old → vec_len reply.old ≤ limit → 0 < self.start
            → IfErr result (λ fault. fault ≡ DropFault.Refused) }
    {
        let mut part = [0; PART];
        let mut text = self;
        loop {
            let Some(next) = text.put_part(drop, &mut part, reply)? else {
                return Ok(None);
            };
            if reply.len() > limit {
                return Ok(Some(next));
            }
            text = next;
        }
    }
}
