//! The last turns of a session that was cut.
ghost use Rattle.pop3_client.specs.{
  Client.{HasSameLink, CountsRefusals, WhereLinkSound},
  Turns.rset,
  Conversation.{Completes, Talks, undoing},
};

use crate::client::Client;
use crate::fault::ClientFault;
use pop3_wire::{Asked, Wire};

impl<'a, W: Wire> Client<'a, W> {
    /// Unmarks what was marked as deleted (RSET).
    #[tactic(auto, using(crate::proofs::TalkLemmas::asks_completes), unfolding(pop3_wire::specs::Commands::line_of))]
    fn reset(&mut self) -> Result<(), ClientFault>
        ensures link { HasSameLink self.old self.new }
        ensures counted { CountsRefusals W.Wire self.old result self.new }
        ensures completes { WhereLinkSound W.Wire self.old self.new (λ old new. Completes rset old result new) }
    {
        self.ask(Asked::Rset, b"RSET\r\n")
    }

    /// Leaves after a fault that isn't the conversation's own: sends RSET, so that no marked message is
    /// removed, and after a positive reply QUIT. It reads both replies, and allocates nothing.
    #[tactic(auto, using(crate::proofs::TalkLemmas::stopped_first))]
    pub fn reset_and_quit(&mut self) -> Result<(), ClientFault>
        ensures link { HasSameLink self.old self.new }
        ensures counted { CountsRefusals W.Wire self.old result self.new }
        ensures talks { WhereLinkSound W.Wire self.old self.new (λ old new. Talks undoing old result new) }
    {
        self.reset()?;
        self.quit()
    }
}
