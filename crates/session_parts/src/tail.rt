//! What is said after a fault.
ghost use Rattle.std.specs.Prelude.{◌≡◌, None, Ok};
ghost use Rattle.pop3_client.specs.{Client.{HasSameLink, CountsRefusals, place_of, link_of}, Conversation.Talks};
ghost use Rattle.pop3_wire.specs.Link.{WhereSound};
ghost use Rattle.session_parts.specs.{
  Refusal.{RefusesNone, RefusesAtMostOne},
  Tail.{turns_of_tail, tail, Drops, TalksTail},
};

use crate::fault::{Cut, Fault};
use pop3_client::{Asked, Client, ClientFault, conversations_are_paced, turns_join};
use pop3_wire::{BodyReader, Wire};

/// What is said after a fault.
#[derive(Clone, Copy)]
enum Tail {
    Nothing,
    Leave,
    Undo,
}

fn tail_of(fault: Fault) -> Tail
    ensures { result ≡ tail fault }
{
    match fault {
        Fault::Refused(Asked::Quit) => Tail::Nothing,
        Fault::Refused(_) => Tail::Leave,
        Fault::StoreRefused(_) => Tail::Undo,
        Fault::SeenRefused => Tail::Undo,
        Fault::BadSeen(_) => Tail::Undo,
        _ => Tail::Nothing,
    }
}

fn say_tail<W: Wire>(client: &mut Client<'_, W>, kind: Tail) -> Result<(), ClientFault>
    ensures link { HasSameLink client.old client.new }
    ensures counted { CountsRefusals W.Wire client.old result client.new }
    ensures nothing { kind ≡ Tail.Nothing → result ≡ Ok tt }
    ensures still { kind ≡ Tail.Nothing → place_of W.Wire client.new ≡ place_of W.Wire client.old }
    ensures talks { WhereSound W.sound W.leads_to client.old.wire.now client.new.wire.now
        (Talks (turns_of_tail kind) (place_of W.Wire client.old) result (place_of W.Wire client.new)) }
{
    match kind {
        Tail::Nothing => Ok(()),
        Tail::Leave => client.quit(),
        Tail::Undo => client.reset_and_quit(),
    }
}

/// Takes what is left of the reply under way, if one is, and drops it.
fn drop_under_way<W: Wire>(
    client: &mut Client<'_, W>,
    rest: Option<BodyReader>,
) -> Result<(), ClientFault>
    ensures link { HasSameLink client.old client.new }
    ensures counted { CountsRefusals W.Wire client.old result client.new }
    ensures nothing { rest ≡ None → result ≡ Ok tt }
    ensures drops { WhereSound W.sound W.leads_to client.old.wire.now client.new.wire.now
        (Drops rest (place_of W.Wire client.old) result (place_of W.Wire client.new)) }
{
    match rest {
        None => Ok(()),
        Some(mut body) => client.drop_rest(&mut body),
    }
}

/// Ends a session after a cut: drops the reply under way, and then says the tail of the fault.
pub fn leave<W: Wire>(client: &mut Client<'_, W>, cut: Cut)
    ensures link { HasSameLink client.old client.new }
    ensures counted { RefusesAtMostOne (link_of W.Wire client.old) (link_of W.Wire client.new) }
    ensures silent { cut.rest ≡ None → tail cut.fault ≡ Tail.Nothing
        → RefusesNone (link_of W.Wire client.old) (link_of W.Wire client.new) }
    ensures leaves { WhereSound W.sound W.leads_to client.old.wire.now client.new.wire.now
        (TalksTail cut (place_of W.Wire client.old) (place_of W.Wire client.new)) }
{
    conversations_are_paced();
    turns_join();
    let Cut { fault, rest } = cut;
    if let Err(_) = drop_under_way(client, rest) {
        return;
    }
    let _ = say_tail(client, tail_of(fault));
}
