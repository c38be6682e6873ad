//! How a run halts, and why a module can't be started.

ghost use Rattle.std.specs.Prelude.{◌≡◌};
ghost use Rattle.wa_exec.specs.declared.halt.StartFault.{StartFault};
ghost use Rattle.wa_exec.specs.Links.{not_instantiated};

use std::alloc::{AllocError, AllocFailed};
use thiserror::Error;
use wa_flatten::InstanceFault;
use wa_syntax::{NoMemory, TrapKind};

/// How a call of [`Machine::step_until`](crate::Machine::step_until) ended.
#[derive(Clone, Copy, Debug, PartialEq, Eq)]
pub enum Halt {
    /// `main` has returned, with its result if it has one.
    Ended(Option<u32>),
    /// The module called `env.stop` with these two numbers.
    Stopped { code: u32, site: u32 },
    /// An instruction trapped.
    Trap(TrapKind),
    /// The steps have reached the fuel. The run can go on.
    Spent,
    /// A call would have made the 40,001st activation.
    TooDeep,
    /// The source failed.
    InFault,
    /// The sink failed.
    OutFault,
    /// There is no memory for an activation, for the growth of the linear memory or in the sink.
    NoMemory,
}

/// Why a module can't be started.
#[derive(Clone, Copy, Debug, PartialEq, Eq, Error)]
pub enum StartFault {
    /// The import of this index is none of `env.put`, `env.get` and `env.stop` with their types; or, where it is the
    /// number of all imports, no function of the module's own without arguments and with no result or one `i32` is exported
    /// as `main`.
    #[error("import {0} can't be linked")]
    Unlinked(u32),
    /// A segment goes past the end of the table or the memory.
    #[error("a segment doesn't fit")]
    Segment,
    #[error("out of memory")]
    NoMemory,
}

impl From<InstanceFault> for StartFault {
    ghost from_gives = { λ fault f. f ≡ not_instantiated fault };

    fn from(fault: InstanceFault) -> StartFault {
        match fault {
            InstanceFault::Segment => StartFault::Segment,
            InstanceFault::NoMemory => StartFault::NoMemory,
        }
    }
}

impl From<NoMemory> for StartFault {
    ghost from_gives = { λ _ f. f ≡ StartFault.NoMemory };

    fn from(_: NoMemory) -> StartFault {
        StartFault::NoMemory
    }
}

impl From<AllocError> for StartFault {
    ghost from_gives = { λ _ f. f ≡ StartFault.NoMemory };

    fn from(_: AllocError) -> StartFault {
        StartFault::NoMemory
    }
}

impl<T: Drop> From<AllocFailed<T>> for StartFault {
    ghost from_gives = { λ _ f. f ≡ StartFault.NoMemory };

    fn from(_: AllocFailed<T>) -> StartFault {
        StartFault::NoMemory
    }
}
