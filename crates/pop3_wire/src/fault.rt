//! Why a line of the protocol can't be read or written.
ghost use Rattle.std.specs.Prelude.{◌≡◌};
ghost use Rattle.pop3_wire.specs.declared.fault.WireFault.TheVariants.{NoMemory};

use std::alloc::{AllocError, AllocFailed};
use thiserror::Error;

/// Why a line can't be read or written.
#[derive(Clone, Copy, Debug, PartialEq, Eq, Error)]
pub enum WireFault {
    /// A first line begins with neither `+OK` nor `-ERR`.
    #[error("no status")]
    BadStatus,
    /// A number isn't written in digits, has too many of them, or is above the limit of its field.
    #[error("bad number")]
    BadNumber,
    /// A field is missing, or an id isn't legal.
    #[error("bad field")]
    BadField,
    /// The line is too long for a command, or its keyword is unknown.
    #[error("bad command")]
    BadCommand,
    /// A command has too many or too few arguments, or its argument can't be sent.
    #[error("bad argument")]
    BadArgument,
    /// Out of memory.
    #[error("out of memory")]
    NoMemory,
}

impl From<AllocError> for WireFault {
    ghost from_gives = { λ _ e. e ≡ NoMemory };

    fn from(_error: AllocError) -> WireFault {
        WireFault::NoMemory
    }
}

impl<T: Drop> From<AllocFailed<T>> for WireFault {
    ghost from_gives = { λ _ e. e ≡ NoMemory };

    fn from(_error: AllocFailed<T>) -> WireFault {
        WireFault::NoMemory
    }
}
