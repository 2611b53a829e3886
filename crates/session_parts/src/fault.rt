//! A session's fault, and how a session is cut.
ghost use Rattle.std.specs.Prelude.{◌≡◌, None};

use mail_store::StoreFault;
use pop3_client::{Asked, ClientFault};
use pop3_wire::BodyReader;
use std::alloc::AllocError;

/// Why a store refused a call.
#[derive(Clone, Copy, Debug, PartialEq, Eq)]
pub enum Why {
    /// A folder or a file isn't there.
    Missing,
    /// The device refused the call.
    Refused,
    /// The file is no mboxrd file.
    NotMbox,
}

/// Why a session is cut. Each has a number, which `cut N` shows.
#[derive(Clone, Copy, Debug, PartialEq, Eq)]
pub enum Fault {
    /// 1: the link gave 0 octets before the reply was whole.
    ConnectionEnded,
    /// 2: the link refused a `recv`.
    ReadFailed,
    /// 3: the link refused a `send`.
    WriteFailed,
    /// 4: 2,048 octets hold no whole line.
    ReplyTooLong,
    /// 5: a first line is neither positive nor negative, or STAT's doesn't give a count and a size.
    BadReply,
    /// 6: the reply to this is negative.
    Refused(Asked),
    /// 7: a row of a listing can't be read.
    BadListing,
    /// 8: both listings are whole, but don't agree with the count or with each other.
    ListingsDisagree,
    /// 9: there are more than 100,000 messages.
    TooMany,
    /// 10: 268,435,456 octets hold no whole body.
    TextTooLong,
    /// 11: the store refused a call.
    StoreRefused(Why),
    /// 12: the record's file refused a call.
    SeenRefused,
    /// 13: out of memory.
    NoMemory,
    /// 14: the record's file isn't understood; this is its first faulty line, counted from 1.
    BadSeen(u32),
}

impl From<ClientFault> for Fault {
    ghost use Rattle.session_parts.specs.Fault.{fault_of};

    ghost from_gives = { λ fault e. e ≡ fault_of fault };

    fn from(fault: ClientFault) -> Fault {
        match fault {
            ClientFault::ConnectionEnded => Fault::ConnectionEnded,
            ClientFault::ReadFailed => Fault::ReadFailed,
            ClientFault::WriteFailed => Fault::WriteFailed,
            ClientFault::ReplyTooLong => Fault::ReplyTooLong,
            ClientFault::BadReply => Fault::BadReply,
            ClientFault::Refused(asked) => Fault::Refused(asked),
            ClientFault::BadListing => Fault::BadListing,
            ClientFault::ListingsDisagree => Fault::ListingsDisagree,
            ClientFault::TooMany => Fault::TooMany,
            ClientFault::TextTooLong => Fault::TextTooLong,
            ClientFault::NoMemory => Fault::NoMemory,
        }
    }
}

impl From<StoreFault> for Fault {
    ghost use Rattle.session_parts.specs.Mbox.{IsStoreFault};

    ghost from_gives = { IsStoreFault };

    fn from(fault: StoreFault) -> Fault {
        match fault {
            StoreFault::Missing => Fault::StoreRefused(Why::Missing),
            StoreFault::Refused => Fault::StoreRefused(Why::Refused),
            StoreFault::NotMbox => Fault::StoreRefused(Why::NotMbox),
            StoreFault::NoMemory => Fault::NoMemory,
        }
    }
}

impl From<AllocError> for Fault {
    ghost use Rattle.session_parts.specs.declared.fault.Fault.TheVariants.{NoMemory};

    ghost from_gives = { λ _ fault. fault ≡ NoMemory };

    fn from(_error: AllocError) -> Fault {
        Fault::NoMemory
    }
}

/// Why a session is cut, and the reply that is under way then, if one is. No public call returns or
/// takes a `Cut`: it is public because the definitions of what a session did use it.
#[derive(Drop)]
pub struct Cut {
    /// Why.
    pub fault: Fault,
    /// The text that is under way.
    pub rest: Option<BodyReader>,
}

/// A cut with no reply under way.
impl From<Fault> for Cut {
    ghost use Rattle.session_parts.specs.Fault.{cut_of};

    ghost from_gives = { λ fault cut. cut ≡ cut_of fault None };

    fn from(fault: Fault) -> Cut {
        Cut { fault, rest: None }
    }
}

/// A cut because the conversation went wrong.
impl From<ClientFault> for Cut {
    ghost use Rattle.session_parts.specs.Fault.{cut_of, fault_of};

    ghost from_gives = { λ fault cut. cut ≡ cut_of (fault_of fault) None };

    fn from(fault: ClientFault) -> Cut {
        Cut::from(Fault::from(fault))
    }
}

impl From<AllocError> for Cut {
    ghost use Rattle.session_parts.specs.{Fault.cut_of, declared.fault.Fault.TheVariants.NoMemory};

    ghost from_gives = { λ _ cut. cut ≡ cut_of NoMemory None };

    fn from(_error: AllocError) -> Cut {
        Cut::from(Fault::NoMemory)
    }
}
