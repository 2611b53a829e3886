//! Why a call didn't do what was wanted.

use fetch_rules::{RcFault, SeenFault};
use mail_store::StoreFault;
use mail_terms::ListingFault;
use std::alloc::{AllocError, AllocFailed};
use std::io;
use std::num::ParseIntError;
use system_calls::Denial;

/// A refusal by a store, which is told, or anything else.
#[derive(Clone, Copy)]
pub enum Trouble {
    Store(StoreFault),
    Other,
}

pub type Result<T> = std::result::Result<T, Trouble>;

impl From<StoreFault> for Trouble {
    fn from(fault: StoreFault) -> Trouble {
        Trouble::Store(fault)
    }
}

impl From<AllocError> for Trouble {
    fn from(_error: AllocError) -> Trouble {
        Trouble::Other
    }
}

impl<T: Drop> From<AllocFailed<T>> for Trouble {
    fn from(_error: AllocFailed<T>) -> Trouble {
        Trouble::Other
    }
}

impl From<Denial> for Trouble {
    fn from(_denial: Denial) -> Trouble {
        Trouble::Other
    }
}

impl From<io::Error> for Trouble {
    fn from(_error: io::Error) -> Trouble {
        Trouble::Other
    }
}

impl From<ParseIntError> for Trouble {
    fn from(_error: ParseIntError) -> Trouble {
        Trouble::Other
    }
}

impl From<ListingFault> for Trouble {
    fn from(_fault: ListingFault) -> Trouble {
        Trouble::Other
    }
}

impl From<SeenFault> for Trouble {
    fn from(_fault: SeenFault) -> Trouble {
        Trouble::Other
    }
}

impl From<RcFault> for Trouble {
    fn from(_fault: RcFault) -> Trouble {
        Trouble::Other
    }
}
