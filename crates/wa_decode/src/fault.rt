//! Why bytes aren't known to spell a module.

ghost use Rattle.std.specs.Prelude.{◌≡◌};
ghost use Rattle.wa_decode.specs.declared.fault.DecodeFault.TheVariants.{NoMemory};

use std::alloc::{AllocError, AllocFailed};
use thiserror::Error;

/// Why bytes aren't known to spell a module.
#[derive(Clone, Copy, Debug, PartialEq, Eq, Hash, Error)]
pub enum DecodeFault {
    /// No module is spelled so.
    #[error("malformed module")]
    Malformed,
    /// Memory has run out.
    #[error("out of memory")]
    NoMemory,
}

impl From<AllocError> for DecodeFault {
    ghost from_gives = { λ _ e. e ≡ NoMemory };

    fn from(_: AllocError) -> DecodeFault {
        DecodeFault::NoMemory
    }
}

impl<T: Drop> From<AllocFailed<T>> for DecodeFault {
    ghost from_gives = { λ _ e. e ≡ NoMemory };

    fn from(_: AllocFailed<T>) -> DecodeFault {
        DecodeFault::NoMemory
    }
}
