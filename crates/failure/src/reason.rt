//! The reasons for which a pass gives no answer that aren't in its input.

ghost use Rattle.std.specs.Prelude.{◌≡◌, IfOk, IfErr, Some};
ghost use Rattle.failure.specs.declared.reason.Failure.TheVariants as failure;

use crate::invariant::Invariant;
use crate::no_memory::NoMemory;
use std::alloc::{AllocError, AllocFailed};
use thiserror::Error;

/// Why a pass gives no answer, whatever its input is.
#[derive(Clone, Copy, Debug, PartialEq, Eq, Hash, Error)]
pub enum Failure {
    /// Memory has run out, or a stated limit of resources is passed.
    #[error("out of memory")]
    NoMemory,
    /// The compiler is wrong: something that it relies on isn't so.
    #[error("internal error: {0}")]
    Broken(Invariant),
}

impl From<NoMemory> for Failure {
    ghost from_gives = { λ _ e. e ≡ failure.NoMemory };

    fn from(_: NoMemory) -> Failure {
        Failure::NoMemory
    }
}

impl From<AllocError> for Failure {
    ghost from_gives = { λ _ e. e ≡ failure.NoMemory };

    fn from(_: AllocError) -> Failure {
        Failure::NoMemory
    }
}

impl<T: Drop> From<AllocFailed<T>> for Failure {
    ghost from_gives = { λ _ e. e ≡ failure.NoMemory };

    fn from(_: AllocFailed<T>) -> Failure {
        Failure::NoMemory
    }
}

/// What an invariant says is there.
///
/// # Errors
///
/// `Broken` with the invariant where it isn't.
pub fn known<T>(found: Option<T>, invariant: Invariant) -> Result<T, Failure>
    ensures value { IfOk result (λ value. found ≡ Some value) }
    ensures broken { IfErr result (λ why. why ≡ failure.Broken invariant) }
{
    found.ok_or(Failure::Broken(invariant))
}

/// The answer where an invariant is broken.
///
/// # Errors
///
/// `Broken` with the invariant, always.
pub fn broken<T>(invariant: Invariant) -> Result<T, Failure>
    ensures never { IfOk result (λ _. ⊥) }
    ensures broken { IfErr result (λ why. why ≡ failure.Broken invariant) }
{
    Err(Failure::Broken(invariant))
}

/// The answer where a stated limit of resources is passed: by the written rules this is want of memory.
///
/// # Errors
///
/// `NoMemory`, always.
pub fn limit<T>() -> Result<T, Failure>
    ensures never { IfOk result (λ _. ⊥) }
    ensures memory { IfErr result (λ why. why ≡ failure.NoMemory) }
{
    Err(Failure::NoMemory)
}
