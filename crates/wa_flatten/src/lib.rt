//! A valid module of WebAssembly Core 1.0, in its integer part, in the form that a machine runs: the instructions of all its
//! functions in one array, in which a branch names the index at which it continues, and what its globals, table and memory begin
//! with.
#![tactic(auto)]

mod builder;
mod code;
mod flat;
mod functions;
mod instance;
mod labels;
mod layout;
mod number;
mod op;
mod segments;
mod table;
mod types;

pub use code::{Code, FlatFunction};
pub use instance::{InstanceFault, ModuleInstance, PAGE};
pub use op::{BranchTarget, FlatOp};
pub use segments::segments_fit;
pub use table::TableInstance;
