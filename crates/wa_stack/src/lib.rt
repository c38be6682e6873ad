//! The words of a machine's activations as frames, last in, first out, in one vector.
#![tactic(auto)]

mod frame_stack;

pub use failure::NoMemory;
pub use frame_stack::FrameStack;
