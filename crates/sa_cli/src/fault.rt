//! Why arguments give no command.

ghost use Rattle.sa_cli.specs.declared.fault.ArgsError.TheVariants.{NoMemory};
ghost use Rattle.std.specs.Prelude.{◌≡◌};

use std::alloc::{AllocError, AllocFailed};
use thiserror::Error;

/// Why arguments give no command.
#[derive(Clone, Copy, Debug, PartialEq, Eq, Hash, Error)]
pub enum ArgsError {
    /// The arguments aren't a command, or a number is out of its range.
    #[error("the words are no command")]
    Usage,
    #[error("out of memory")]
    NoMemory,
}

impl From<AllocError> for ArgsError {
    ghost from_gives = { λ _ fault. fault ≡ NoMemory };

    fn from(_error: AllocError) -> ArgsError {
        ArgsError::NoMemory
    }
}

impl<T: Drop> From<AllocFailed<T>> for ArgsError {
    ghost from_gives = { λ _ fault. fault ≡ NoMemory };

    fn from(_error: AllocFailed<T>) -> ArgsError {
        ArgsError::NoMemory
    }
}
