//! Laws of the server's table.
ghost use Rattle.pop3_server.specs.{
  Quitting.OnlyQuitCloses,
  Removal.{FewAreLeft, AllAreRemoved, SomeAreRefused, OthersStay},
};

use crate::maildrop::Maildrop;

/// Of the messages that are marked at QUIT, at most as many are left as the maildrop's count of
/// refusals rose by. If the answer is `+OK bye`, it didn't rise; else it did. Messages that aren't
/// marked stay.
#[tactic(auto, using(crate::proofs::RemovalLemmas::removal_laws))]
pub fn quit_leaves_few()
    ensures few { FewAreLeft }
    ensures all { AllAreRemoved }
    ensures some { SomeAreRefused }
    ensures others { OthersStay }
{}

/// A server that is closed after it served a link, and was open before, read a line QUIT there.
pub fn only_quit_closes<D: Maildrop>()
    ensures { OnlyQuitCloses D.sound D.mail }
{}
