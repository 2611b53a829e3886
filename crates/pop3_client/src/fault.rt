//! What can go wrong in a conversation.
ghost use Rattle.std.specs.Prelude.{◌≡◌};
ghost use Rattle.pop3_client.specs.declared.fault.ClientFault.TheVariants.{NoMemory};

use pop3_wire::Asked;
use std::alloc::{AllocError, AllocFailed};

/// What can go wrong in a conversation.
#[derive(Clone, Copy, Debug, PartialEq, Eq)]
pub enum ClientFault {
    /// The link gave 0 octets before the reply was whole.
    ConnectionEnded,
    /// The link refused a `recv`.
    ReadFailed,
    /// The link refused a `send`.
    WriteFailed,
    /// 2,048 octets hold no whole line.
    ReplyTooLong,
    /// A first line is neither positive nor negative, or STAT's doesn't give a count and a size.
    BadReply,
    /// The reply to this is negative.
    Refused(Asked),
    /// A row of a listing can't be read.
    BadListing,
    /// Both listings are whole, but don't agree with the count or with each other.
    ListingsDisagree,
    /// There are more than 100,000 messages.
    TooMany,
    /// 268,435,456 octets hold no whole body.
    TextTooLong,
    /// Out of memory.
    NoMemory,
}

impl From<AllocError> for ClientFault {
    ghost from_gives = { λ _ e. e ≡ NoMemory };

    fn from(_error: AllocError) -> ClientFault {
        ClientFault::NoMemory
    }
}

impl<T: Drop> From<AllocFailed<T>> for ClientFault {
    ghost from_gives = { λ _ e. e ≡ NoMemory };

    fn from(_error: AllocFailed<T>) -> ClientFault {
        ClientFault::NoMemory
    }
}
