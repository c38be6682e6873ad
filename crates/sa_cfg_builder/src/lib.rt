//! The builder that lowering fills: the tables of the program, and the body that is being built, with the fragments for iters, raises and
//! bound values. The context of a statement is a value that is passed down.
#![tactic(auto)]

mod binds;
mod body;
mod builder;
mod context;
mod iters;
mod raises;
mod tables;
mod texts;

pub use body::{BodyBuilder, BodyHeader};
pub use builder::ProgramBuilder;
pub use context::{CaughtException, LoopExits, LoweringContext};
pub use raises::ClassTest;
pub use tables::Tables;
pub use texts::TextPool;
