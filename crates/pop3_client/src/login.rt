//! The beginning of a session: the greeting, the user and the password.
ghost use Rattle.std.specs.Prelude.{◌≡◌, true};
ghost use Rattle.mail_terms.specs.Credential.{is_credential};
ghost use Rattle.pop3_client.specs.{Client.{HasSameLink, CountsRefusals, WhereLinkSound}, Conversation.{login, Talks}};

use crate::client::Client;
use crate::fault::ClientFault;
use crate::talk::command_line;
use pop3_wire::{Asked, Bytes, Command, Wire};
use std::alloc::Global;
use std::vec::Vec;

impl<'a, W: Wire> Client<'a, W> {
    /// Takes the greeting and logs in (USER, PASS). Both lines are made before the greeting is taken.
    #[tactic(auto, using(crate::proofs::TalkLemmas::stopped_first))]
    pub fn log_in(&mut self, alloc: Global, name: &[u8], password: &[u8]) -> Result<(), ClientFault>
        requires name { is_credential name.now ≡ true }
        requires password { is_credential password.now ≡ true }
        ensures link { HasSameLink self.old self.new }
        ensures counted { CountsRefusals W.Wire self.old result self.new }
        ensures talks { WhereLinkSound W.Wire self.old self.new
            (λ old new. Talks (login name.now password.now) old result new) }
    {
        let name = Bytes::from_vec(Vec::from_slice(alloc, name)?);
        let name_line = command_line(alloc, &Command::User(name))?;
        let password = Bytes::from_vec(Vec::from_slice(alloc, password)?);
        let password_line = command_line(alloc, &Command::Pass(password))?;
        self.greet()?;
        self.ask(Asked::User, &name_line)?;
        self.ask(Asked::Pass, &password_line)
    }
}
