//! Why a store refused a call.

ghost use Rattle.std.specs.Prelude.{◌≡◌};

use std::alloc::{AllocError, AllocFailed};
use thiserror::Error;

/// Why a call on a store was refused.
#[derive(Clone, Copy, Debug, PartialEq, Eq, Error)]
pub enum StoreFault {
    /// A folder or a file that the call needs isn't there.
    #[error("destination missing")]
    Missing,
    /// The device refused the call. Its count of refusals has risen by one.
    #[error("destination refused")]
    Refused,
    /// The file isn't an mboxrd file.
    #[error("destination is no mbox")]
    NotMbox,
    /// Memory ran out outside the device.
    #[error("out of memory")]
    NoMemory,
}

impl From<AllocError> for StoreFault {
    ghost use Rattle.mail_store.specs.declared.fault.StoreFault.TheVariants.{NoMemory};

    ghost from_gives = { λ _ e. e ≡ NoMemory };

    fn from(_fault: AllocError) -> StoreFault {
        StoreFault::NoMemory
    }
}

impl<T: Drop> From<AllocFailed<T>> for StoreFault {
    ghost use Rattle.mail_store.specs.declared.fault.StoreFault.TheVariants.{NoMemory};

    ghost from_gives = { λ _ e. e ≡ NoMemory };

    fn from(_fault: AllocFailed<T>) -> StoreFault {
        StoreFault::NoMemory
    }
}

/// Why the entry of a text wasn't appended to an mboxrd file, and whether some of it is there.
#[derive(Clone, Copy, Debug, PartialEq, Eq, Error)]
pub enum EntryFault {
    /// The file is as it was, for this reason.
    #[error("{0}")]
    Nothing(StoreFault),
    /// The device refused the append, and then the cut back: a front of the entry may be there.
    #[error("destination refused")]
    Front,
}

impl From<StoreFault> for EntryFault {
    ghost use Rattle.mail_store.specs.declared.fault.EntryFault.TheVariants.{Nothing};

    ghost from_gives = { λ fault e. e ≡ Nothing fault };

    fn from(fault: StoreFault) -> EntryFault {
        EntryFault::Nothing(fault)
    }
}
