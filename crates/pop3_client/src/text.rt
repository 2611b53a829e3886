//! The text of a message.
ghost use Rattle.std.specs.Prelude.{◌≡◌, ◌≢◌, ◌≤◌, ℕ, List, Ok, IfOk, OnOk, IfErr};
ghost use Rattle.pop3_wire.specs.{declared.unstuffer.Spot.TheVariants.Done, Place.Place};
ghost use Rattle.pop3_client.specs.{
  Client.{HasSameLink, CountsRefusals, WhereLinkSound, place_of},
  Turns.{retr, text_limit},
  Texts.{Fetching, OpensText, TookPiece, FetchesPiece, TakesRest},
};

use crate::client::Client;
use crate::fault::ClientFault;
use crate::talk::command_line;
use pop3_wire::{Asked, BodyFault, BodyReader, Command, Note, PIECE_ROOM, Piece, Wire};
use std::alloc::Global;

/// The greatest body of RETR in octets, end mark included.
const TEXT_LIMIT: usize = 268_435_456;

impl<'a, W: Wire> Client<'a, W> {
    /// Asks for the text of a message (RETR), and takes the first line of the reply; `next_piece`
    /// takes the text. The line is made first, so that nothing has changed if memory runs out.
    pub fn open(&mut self, alloc: Global, number: u32) -> Result<BodyReader, ClientFault>
        ensures link { HasSameLink self.old self.new }
        ensures counted { CountsRefusals W.Wire self.old result self.new }
        ensures open { IfOk result (λ body. body.spot ≢ Done) }
        ensures within { IfOk result (λ body. body.left ≤ text_limit) }
        ensures opens { WhereLinkSound W.Wire self.old self.new (λ old new. OpensText (retr number) old result new) }
    {
        let line = command_line(alloc, &Command::Retr(number))?;
        self.ask(Asked::Retr(number), &line)?;
        Ok(BodyReader::new(TEXT_LIMIT))
    }

    /// Takes one more piece of a text, and puts what it adds to the text into the buffer. It
    /// allocates nothing.
    pub fn next_piece(
        &mut self,
        body: &mut BodyReader,
        out: &mut [u8; PIECE_ROOM],
    ) -> Result<Piece, ClientFault>
        requires { body.old.spot ≢ Done }
        ensures link { HasSameLink self.old self.new }
        ensures counted { CountsRefusals W.Wire self.old result self.new }
        ensures took { IfOk result (λ piece. TookPiece body.old piece out.new body.new) }
        ensures frugal { IfErr result (λ fault. fault ≢ ClientFault.NoMemory) }
        ensures takes { WhereLinkSound W.Wire self.old self.new
            (λ old new. (number : ℕ) (start : Place) (text : List ℕ) → Fetching (retr number) start old body.old text
            → FetchesPiece (retr number) start text result out.new new body.new) }
    {
        match body.next(self.wire, &mut self.reader, out) {
            Ok(piece) => {
                self.tell(Note::Body {
                    text: &out[..piece.put],
                    octets: piece.octets,
                    ended: piece.ended,
                });
                Ok(piece)
            }
            Err(BodyFault::Ended) => Err(ClientFault::ConnectionEnded),
            Err(BodyFault::Failed) => Err(ClientFault::ReadFailed),
            Err(BodyFault::TooLong) => Err(ClientFault::TextTooLong),
        }
    }

    /// Takes the rest of a text, and drops it. After a text's end nothing is left, and the link
    /// stays as it is. It allocates nothing.
    pub fn drop_rest(&mut self, body: &mut BodyReader) -> Result<(), ClientFault>
        ensures link { HasSameLink self.old self.new }
        ensures counted { CountsRefusals W.Wire self.old result self.new }
        ensures ended { OnOk result (body.new.spot ≡ Done) }
        ensures frugal { IfErr result (λ fault. fault ≢ ClientFault.NoMemory) }
        ensures whole { body.old.spot ≡ Done
            → (result ≡ Ok tt) × (place_of W.Wire self.new ≡ place_of W.Wire self.old) }
        ensures completes { WhereLinkSound W.Wire self.old self.new
            (λ old new. (number : ℕ) (start : Place) (text : List ℕ) → Fetching (retr number) start old body.old text
            → TakesRest (retr number) start result new) }
    {
        if body.has_ended() {
            return Ok(());
        }
        let mut out = [0u8; PIECE_ROOM];
        'pieces: loop {
            let piece = self.next_piece(body, &mut out)?;
            if piece.ended {
                return Ok(());
            }
        }
    }
}
