//! The faults of an rc file.
ghost use Rattle.std.specs.Prelude.{◌≡◌};
ghost use Rattle.rc_file.specs.declared.fault.RcFault.TheVariants.{NoMemory};

use crate::key::{Key, Section};
use std::alloc::{AllocError, AllocFailed};
use thiserror::Error;

/// Why an rc file, or a command line with it, gives no settings.
#[derive(Clone, Copy, Debug, PartialEq, Eq, Error)]
pub enum RcFault {
    /// The file has more than 65,536 octets.
    #[error("rc file too long")]
    TooLong,
    /// The line of this number, counted from 1, isn't understood.
    #[error("rc file line {0} not understood")]
    BadLine(u32),
    /// A required section is missing.
    #[error("section missing")]
    MissingSection(Section),
    /// A required key is missing.
    #[error("key missing")]
    MissingKey(Key),
    /// The type isn't one that this program knows.
    #[error("type unknown")]
    UnknownType(Key),
    /// The value doesn't have the key's form.
    #[error("bad value")]
    BadValue(Key),
    /// The value asks for something that this program doesn't support.
    #[error("value unsupported")]
    Unsupported(Key),
    /// The destination's path doesn't have the form that its type needs.
    #[error("path has a bad form")]
    BadPath,
    /// Two flags of the command line ask for opposite things.
    #[error("opposite flags")]
    Contradiction,
    /// Out of memory.
    #[error("out of memory")]
    NoMemory,
}

impl From<AllocError> for RcFault {
    ghost from_gives = { λ _ fault. fault ≡ NoMemory };

    fn from(_error: AllocError) -> RcFault {
        RcFault::NoMemory
    }
}

impl<T: Drop> From<AllocFailed<T>> for RcFault {
    ghost from_gives = { λ _ fault. fault ≡ NoMemory };

    fn from(_error: AllocFailed<T>) -> RcFault {
        RcFault::NoMemory
    }
}
