//! Type safety of the integer WebAssembly machine: a module that validates never gets stuck. No code runs this; it is a law of
//! the definitions of `wa_syntax`.
#![tactic(auto)]

mod law;

pub use law::{ends_as_main, never_stuck, spelled_is_in_range, stays_typed};
