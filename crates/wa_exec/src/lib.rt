//! A machine that runs modules of WebAssembly Core 1.0 in its integer part (chapter 4 of the specification), step by step.
#![tactic(auto)]

mod activation;
mod calls;
mod environment;
mod halt;
mod host;
mod law;
mod link;
mod machine;
mod run;
mod state;

pub use halt::{Halt, StartFault};
pub use host::Host;
pub use law::{are_one_run, called};
pub use machine::{Machine, check_start};
