//! The server is honest: laws about its definitions.
ghost use Rattle.pop3_server.specs.{HonestServer.ConversesHonestly, HonestLoop.GivesHonest};

use crate::maildrop::Maildrop;

/// A new server's greeting and its answers to any commands that a session sends, one after another,
/// are an honest conversation over the messages of its maildrop; while the server is open all of
/// these are there, and after QUIT only marked ones may be gone, the others in their order. If its
/// answer to QUIT is positive, all marked ones are.
#[tactic(auto, using(crate::proofs::HonestLemmas::is_honest))]
pub fn conversations_are_honest<D: Maildrop>()
    ensures { ConversesHonestly D.sound D.mail }
{}

/// The same for a link to a new server in the same process, for whole commands of a session and a
/// part of one more, even if the link went down; and the server is open unless QUIT was sent whole.
pub fn loops_are_honest<D: Maildrop>()
    ensures { GivesHonest D.sound D.mail }
{}
