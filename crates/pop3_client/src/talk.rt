//! One turn of a conversation: a command is sent, and the first line of its reply is read
//! (RFC 1939, section 3).
ghost use Rattle.std.specs.Prelude.{◌≡◌, ◌≤◌, true, false, ℕ, List, take, Some, IfOk, IfErr};
ghost use Rattle.pop3_wire.specs.{Commands.can_be_sent, Place.{Gains, HasLine}, Reply.IsFirstLine};
ghost use Rattle.pop3_client.specs.{
  Client.{HasSameLink, CountsRefusals, WhereLinkSound, link_of},
  Turns.{Turn, Names, turn_bytes, gives_count, greeting, dele, quit, line_limit},
  Conversation.{Waits, Heard, Sent, AsksTurn, CountsMessages, Completes, GivesFew},
};
ghost use Rattle.mail_terms.specs.Listing.{message_limit};

use crate::client::Client;
use crate::fault::ClientFault;
use mail_terms::MESSAGE_LIMIT;
use pop3_wire::{
    Asked, Command, LineFault, Note, Status, Wire, command_bytes, is_end_mark, read_stat,
    read_status,
};
use std::alloc::Global;
use std::vec::Vec;

/// The longest line of a reply in octets, its CR LF included.
const LINE_LIMIT: usize = 2_048;

/// The line of a command that can be sent, its CR LF included.
pub(crate) fn command_line(alloc: Global, command: &Command) -> Result<Vec<u8>, ClientFault>
    requires { can_be_sent command.now ≡ true }
    ensures ok { IfOk result (λ line. line.items ≡ turn_bytes (Some command.now)) }
    ensures err { IfErr result (λ fault. fault ≡ ClientFault.NoMemory) }
{
    match command_bytes(alloc, command) {
        Ok(line) => Ok(line),
        Err(_) => Err(ClientFault::NoMemory),
    }
}

/// The number of messages that a positive first line gives. BadReply if it gives none, TooMany if
/// it is above 100,000.
fn count_of(line: &[u8]) -> Result<u32, ClientFault>
    requires { (rest : List ℕ) × IsFirstLine line.now Status.Positive rest }
    ensures { GivesFew line.now result }
{
    let Ok((_, rest)) = read_status(line) else {
        return Err(ClientFault::BadReply);
    };
    let Ok((count, _)) = read_stat(rest) else {
        return Err(ClientFault::BadReply);
    };
    if count > MESSAGE_LIMIT {
        return Err(ClientFault::TooMany);
    }
    Ok(count)
}

impl<'a, W: Wire> Client<'a, W> {
    /// Tells the link something of the conversation.
    pub(crate) fn tell(&mut self, part: Note<'_>)
        ensures link { HasSameLink self.old self.new }
        ensures silent { self.new.reader ≡ self.old.reader }
        ensures same { link_of W.Wire self.new ≡ link_of W.Wire self.old }
        ensures kept { WhereLinkSound W.Wire self.old self.new (λ old new. new ≡ old) }
    {
        self.wire.note(part);
    }

    /// Tells the link of a line of a reply that waits, which has this length: its first line, or one of
    /// its body.
    fn tell_line(&mut self, is_first: bool, length: usize)
        ensures link { HasSameLink self.old self.new }
        ensures silent { self.new.reader ≡ self.old.reader }
        ensures same { link_of W.Wire self.new ≡ link_of W.Wire self.old }
        ensures kept { WhereLinkSound W.Wire self.old self.new (λ old new. new ≡ old) }
    {
        let waiting = self.reader.waiting();
        let line = &waiting[..length.min(waiting.len())];
        if is_first {
            return self.wire.note(Note::Reply(line));
        }
        let octets = length.saturating_add(2);
        let ended = is_end_mark(line);
        let text = if ended {
            b"".as_slice()
        } else {
            &waiting[..octets.min(waiting.len())]
        };
        self.wire.note(Note::Body {
            text,
            octets,
            ended,
        });
    }

    /// Takes from the link until a line of a reply waits, and returns its length; the line isn't
    /// taken yet. It is the first line of the reply, or one of its body.
    pub(crate) fn next_line(&mut self, is_first: bool) -> Result<usize, ClientFault>
        ensures link { HasSameLink self.old self.new }
        ensures counted { CountsRefusals W.Wire self.old result self.new }
        ensures line { IfOk result (HasLine line_limit self.new.reader) }
        ensures waits { WhereLinkSound W.Wire self.old self.new
            (λ old new. ((gained : List ℕ) × Gains old new gained) × Waits old result new) }
    {
        match self.reader.line(self.wire, LINE_LIMIT) {
            Ok(length) => {
                self.tell_line(is_first, length);
                Ok(length)
            }
            Err(LineFault::Ended) => Err(ClientFault::ConnectionEnded),
            Err(LineFault::Failed) => Err(ClientFault::ReadFailed),
            Err(LineFault::TooLong) => {
                self.tell_line(is_first, LINE_LIMIT);
                Err(ClientFault::ReplyTooLong)
            }
        }
    }

    /// Sends a command, its CR LF included.
    fn say(&mut self, asked: Asked, bytes: &[u8]) -> Result<(), ClientFault>
        ensures link { HasSameLink self.old self.new }
        ensures counted { CountsRefusals W.Wire self.old result self.new }
        ensures silent { self.new.reader ≡ self.old.reader }
        ensures sent { WhereLinkSound W.Wire self.old self.new (λ old new. Sent bytes.now old.link result new.link) }
    {
        self.tell(Note::Command(Some(asked), &bytes[..bytes.len().saturating_sub(2)]));
        match self.wire.send(bytes) {
            Ok(()) => Ok(()),
            Err(_) => Err(ClientFault::WriteFailed),
        }
    }

    /// Waits for a positive first line, and returns its length; the line isn't taken yet. A
    /// negative one is a whole reply, and is taken.
    fn hear(&mut self, asked: Asked) -> Result<usize, ClientFault>
        ensures link { HasSameLink self.old self.new }
        ensures counted { CountsRefusals W.Wire self.old result self.new }
        ensures line { IfOk result (HasLine line_limit self.new.reader) }
        ensures positive { IfOk result
            (λ n. (rest : List ℕ) × IsFirstLine (take n self.new.reader) Status.Positive rest) }
        ensures heard { WhereLinkSound W.Wire self.old self.new
            (λ old new. (turn : Turn) → Names asked turn → Heard turn old result new) }
    {
        let length = self.next_line(true)?;
        match read_status(&self.reader.waiting()[..length]) {
            Ok((Status::Positive, _)) => Ok(length),
            Ok((Status::Negative, _)) => {
                self.reader.skip(length + 2);
                self.tell(Note::Refused);
                Err(ClientFault::Refused(asked))
            }
            Err(_) => Err(ClientFault::BadReply),
        }
    }

    /// Takes the greeting.
    #[tactic(auto, using(crate::proofs::TalkLemmas::nothing_said, crate::proofs::TalkLemmas::broke_there))]
    pub(crate) fn greet(&mut self) -> Result<(), ClientFault>
        ensures link { HasSameLink self.old self.new }
        ensures counted { CountsRefusals W.Wire self.old result self.new }
        ensures asks { WhereLinkSound W.Wire self.old self.new (λ old new. AsksTurn greeting old result new) }
    {
        let length = self.hear(Asked::Greeting)?;
        self.reader.skip(length + 2);
        Ok(())
    }

    /// Sends a command, and takes the first line of its reply. If the command is refused, the fault
    /// names it as `asked`. STAT isn't sent this way, since its first line has to give a count.
    #[tactic(auto, using(crate::proofs::TalkLemmas::sent_for, crate::proofs::TalkLemmas::broke_there))]
    pub(crate) fn ask(&mut self, asked: Asked, bytes: &[u8]) -> Result<(), ClientFault>
        ensures link { HasSameLink self.old self.new }
        ensures counted { CountsRefusals W.Wire self.old result self.new }
        ensures asks { WhereLinkSound W.Wire self.old self.new
            (λ old new. (turn : Turn) → Names asked turn → gives_count turn ≡ false → bytes.now ≡ turn_bytes turn
            → AsksTurn turn old result new) }
    {
        self.say(asked, bytes)?;
        let length = self.hear(asked)?;
        self.reader.skip(length + 2);
        Ok(())
    }

    /// Asks how many messages there are (STAT): at most 100,000.
    pub fn count(&mut self) -> Result<u32, ClientFault>
        ensures link { HasSameLink self.old self.new }
        ensures counted { CountsRefusals W.Wire self.old result self.new }
        ensures few { IfOk result (λ n. n ≤ message_limit) }
        ensures counts { WhereLinkSound W.Wire self.old self.new (λ old new. CountsMessages old result new) }
    {
        self.say(Asked::Stat, b"STAT\r\n")?;
        let length = self.hear(Asked::Stat)?;
        let count = count_of(&self.reader.waiting()[..length])?;
        self.reader.skip(length + 2);
        self.tell(Note::Count(count));
        Ok(count)
    }

    /// Asks to mark a message as deleted (DELE). The line is made first, so that nothing has
    /// changed if memory runs out.
    #[tactic(auto, using(crate::proofs::TalkLemmas::asks_completes))]
    pub fn delete(&mut self, alloc: Global, number: u32) -> Result<(), ClientFault>
        ensures link { HasSameLink self.old self.new }
        ensures counted { CountsRefusals W.Wire self.old result self.new }
        ensures completes { WhereLinkSound W.Wire self.old self.new
            (λ old new. Completes (dele number) old result new) }
    {
        let line = command_line(alloc, &Command::Dele(number))?;
        self.ask(Asked::Dele(number), &line)
    }

    /// Ends the session (QUIT). It allocates nothing.
    #[tactic(auto, using(crate::proofs::TalkLemmas::asks_completes), unfolding(pop3_wire::specs::Commands::line_of))]
    pub fn quit(&mut self) -> Result<(), ClientFault>
        ensures link { HasSameLink self.old self.new }
        ensures counted { CountsRefusals W.Wire self.old result self.new }
        ensures completes { WhereLinkSound W.Wire self.old self.new (λ old new. Completes quit old result new) }
    {
        self.ask(Asked::Quit, b"QUIT\r\n")
    }
}
