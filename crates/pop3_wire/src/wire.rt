//! The link that carries a conversation.
ghost use Rattle.std.specs.Prelude.{◌≡◌, ◌≤◌, ◌<◌, length, IfOk};
ghost use Rattle.pop3_wire.specs.Link.{Link, Sends, Receives, CountsFailure, WhereSound};

use crate::note::Note;
use thiserror::Error;

/// A call of a link was refused.
#[derive(Clone, Copy, Debug, PartialEq, Eq, Error)]
#[error("the link is down")]
pub struct WireDown;

/// A link that takes octets and gives octets, in order.
///
/// Its failure count rises by one exactly when a call is refused; at its greatest value,
/// 18,446,744,073,709,551,615, it stays. All other clauses hold under the premise `sound`: nothing is
/// known of a real socket.
pub trait Wire {
    // What contracts know of the link.
    ghost history: { Self → Link };

    // The premise: so far the link did what this trait says, and its failure count hasn't reached
    // its greatest value. It runs backwards: a link that is sound after a call was sound before it.
    ghost sound: { Self → Type 0 };

    // A relation of the link's own that each call keeps.
    ghost leads_to: { Self → Self → Type 0 };

    /// Sends all of the bytes before it returns. A refused call has sent a prefix of them.
    fn send(&mut self, bytes: &[u8]) -> Result<(), WireDown>
        ensures counted { CountsFailure (history self.old) result (history self.new) }
        ensures sent { WhereSound sound leads_to self.old self.new
            (Sends (history self.old) bytes.now result (history self.new)) };

    /// Puts the octets that come next into the buffer, at least one, and returns how many; 0 says that
    /// the link has ended. It may wait.
    fn recv(&mut self, buf: &mut [u8]) -> Result<usize, WireDown>
        requires { 0 < length buf.old }
        ensures within { IfOk result (λ n. n ≤ length buf.new) }
        ensures counted { CountsFailure (history self.old) result (history self.new) }
        ensures got { WhereSound sound leads_to self.old self.new
            (Receives (history self.old) result buf.new (history self.new)) };

    /// Takes note of a part of the conversation. Both ends tell it what they send and read, and nothing
    /// of that changes the link: only links that show conversations do anything here.
    fn note(&mut self, _part: Note<'_>)
        ensures same { history self.new ≡ history self.old }
        ensures kept { sound self.new → sound self.old × leads_to self.old self.new }
    {}

    /// How many calls were refused.
    fn failures(&self) -> u64
        ensures { result ≡ (history self.now).failures };

    // `leads_to` is reflexive and transitive.
    ghost leads_same: { (w : Self) → leads_to w w };

    ghost leads_on: { (u v w : Self) → leads_to u v → leads_to v w → leads_to u w };
}
