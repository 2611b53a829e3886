//! Why a server stops.
ghost use Rattle.std.specs.Prelude.{◌≡◌};
ghost use Rattle.pop3_server.specs.declared.fault.ServerFault.TheVariants.{NoMemory};

use std::alloc::AllocError;
use thiserror::Error;

/// Why a server stops.
#[derive(Clone, Copy, Debug, PartialEq, Eq, Error)]
pub enum ServerFault {
    /// The link refused to read.
    #[error("read failed")]
    ReadFailed,
    /// The link refused to write.
    #[error("write failed")]
    WriteFailed,
    /// The maildrop refused a part of a text after other parts of it were sent.
    #[error("maildrop failed")]
    MaildropFailed,
    /// Out of memory.
    #[error("out of memory")]
    NoMemory,
}

impl From<AllocError> for ServerFault {
    ghost from_gives = { λ _ e. e ≡ NoMemory };

    fn from(_error: AllocError) -> ServerFault {
        ServerFault::NoMemory
    }
}
