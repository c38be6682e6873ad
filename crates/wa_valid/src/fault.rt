//! Why a module is not known to be valid.

ghost use Rattle.std.specs.Prelude.{◌≡◌, IsTrue};
ghost use Rattle.wa_valid.specs.declared.fault.Fault.TheVariants.{NoMemory};
ghost use Rattle.wa_valid.specs.Rules.{Says};
ghost use Rattle.wa_valid.specs.Verdict.{IsInBody, outside_bodies};

use std::alloc::{AllocError, AllocFailed};
use thiserror::Error;

/// Why a module is not known to be valid.
#[derive(Clone, Copy, Debug, PartialEq, Eq, Hash, Error)]
pub enum ValidFault {
    /// The module is not valid. `func` is the index, among the module's own functions, of the first whose body is ill
    /// typed, or `None` where a rule outside bodies is broken.
    #[error("invalid module")]
    Invalid { func: Option<u32> },
    /// Memory has run out.
    #[error("out of memory")]
    NoMemory,
}

/// Why a rule is not known to hold.
#[derive(Clone, Copy, Debug, PartialEq, Eq, Hash)]
pub enum Fault {
    /// The rule is broken.
    Invalid,
    /// Memory has run out.
    NoMemory,
}

impl Fault {
    /// The fault of a module where the body of the own function at this place has this one. A place that no `u32` numbers
    /// is taken as want of memory.
    pub fn in_body(self, at: usize) -> ValidFault
        ensures { IsInBody self at result }
    {
        match self {
            Fault::Invalid => invalid_at(at),
            Fault::NoMemory => ValidFault::NoMemory,
        }
    }
}

/// The fault of a module where the body of the own function at this index is ill typed.
fn invalid_at(at: usize) -> ValidFault
    ensures { IsInBody Fault.Invalid at result }
{
    if at <= u32::MAX as usize {
        ValidFault::Invalid {
            func: Some(at as u32),
        }
    } else {
        ValidFault::NoMemory
    }
}

/// The fault of a module where a rule outside bodies has this one.
impl From<Fault> for ValidFault {
    ghost from_gives = { λ fault f. f ≡ outside_bodies fault };

    fn from(fault: Fault) -> ValidFault {
        match fault {
            Fault::Invalid => ValidFault::Invalid { func: None },
            Fault::NoMemory => ValidFault::NoMemory,
        }
    }
}

impl From<AllocError> for Fault {
    ghost from_gives = { λ _ e. e ≡ NoMemory };

    fn from(_: AllocError) -> Fault {
        Fault::NoMemory
    }
}

impl<T: Drop> From<AllocFailed<T>> for Fault {
    ghost from_gives = { λ _ e. e ≡ NoMemory };

    fn from(_: AllocFailed<T>) -> Fault {
        Fault::NoMemory
    }
}

/// The result of checking a rule.
pub type ValidationRule = Result<(), Fault>;

/// A rule that holds exactly where the condition does.
pub fn require(condition: bool) -> ValidationRule
    ensures { Says (IsTrue condition) result }
{
    if condition {
        Ok(())
    } else {
        Err(Fault::Invalid)
    }
}
