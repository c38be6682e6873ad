//! Why a source isn't accepted.

ghost use Rattle.std.specs.Prelude.{◌≡◌};
ghost use Rattle.failure.specs.declared.reason.Failure.TheVariants as failure;
ghost use Rattle.sa_ast.specs.declared.refusal.Rejection.TheVariants as fault;

use crate::pos::Pos;
use crate::rule::Rule;
use failure::{Failure, NoMemory};
use std::alloc::{AllocError, AllocFailed};
use thiserror::Error;

/// The written rule that a source breaks, and the position where it does.
#[derive(Clone, Copy, Debug, PartialEq, Eq, Hash, Error)]
#[error("{rule}")]
pub struct Refusal {
    pub rule: Rule,
    pub pos: Pos,
}

/// Why a pass over a source gives no result.
#[derive(Clone, Copy, Debug, PartialEq, Eq, Hash, Error)]
pub enum Rejection {
    #[error(transparent)]
    Refused(Refusal),
    #[error(transparent)]
    Failed(Failure),
}

impl From<Refusal> for Rejection {
    ghost from_gives = { λ refusal e. e ≡ fault.Refused refusal };

    fn from(refusal: Refusal) -> Rejection {
        Rejection::Refused(refusal)
    }
}

impl From<AllocError> for Rejection {
    ghost from_gives = { λ _ e. e ≡ fault.Failed failure.NoMemory };

    fn from(_error: AllocError) -> Rejection {
        Rejection::Failed(Failure::NoMemory)
    }
}

impl<T: Drop> From<AllocFailed<T>> for Rejection {
    ghost from_gives = { λ _ e. e ≡ fault.Failed failure.NoMemory };

    fn from(_error: AllocFailed<T>) -> Rejection {
        Rejection::Failed(Failure::NoMemory)
    }
}

impl From<NoMemory> for Rejection {
    ghost from_gives = { λ _ e. e ≡ fault.Failed failure.NoMemory };

    fn from(_error: NoMemory) -> Rejection {
        Rejection::Failed(Failure::NoMemory)
    }
}

impl From<Failure> for Rejection {
    ghost from_gives = { λ failure e. e ≡ fault.Failed failure };

    fn from(failure: Failure) -> Rejection {
        Rejection::Failed(failure)
    }
}
