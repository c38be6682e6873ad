//! Runs of the WebAssembly machine of `wa_syntax`: what fragments of code do, in how many steps. No code runs this; these are laws of the
//! definitions of `wa_syntax`, on which proofs about emitted code rest.
#![tactic(auto)]

mod law;

pub use law::{composes, is_deterministic, is_steady, runs_straight, stores_words};
