//! What holds of every conversation.
ghost use Rattle.pop3_client.specs.Conversation.{ConversationsArePaced, TurnsJoin};

/// A conversation sends its turns' octets in order. It begins a command only after a whole and
/// good reply to each command before it has come. In all it takes at most as many octets as its
/// turns may take.
#[tactic(auto, using(crate::proofs::TalkLemmas::paced))]
pub fn conversations_are_paced()
    ensures { ConversationsArePaced }
{}

/// No turns make a conversation in which nothing happens, and turns after turns make one conversation.
#[tactic(auto, using(crate::proofs::TalkLemmas::talked_none, crate::proofs::TalkLemmas::talked_on))]
pub fn turns_join()
    ensures { TurnsJoin }
{}
