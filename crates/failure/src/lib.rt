//! Why a pass gives no answer: memory has run out, or an invariant of the compiler is broken.
#![tactic(auto)]

mod invariant;
mod no_memory;
mod reason;

pub use invariant::Invariant;
pub use no_memory::NoMemory;
pub use reason::{Failure, broken, known, limit};
