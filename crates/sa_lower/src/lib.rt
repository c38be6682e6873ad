//! Lowers a well-typed program to control-flow graphs: a body for each feature with its statements, adapters for the implementations of
//! signatures that have to box or unbox what goes in or comes out, and the body that a run begins with.
#![tactic(auto)]

mod adapter;
mod adapter_iter;
mod arguments;
mod context;
mod entries;
mod features;
mod instance;
mod leaving;
mod lines;
mod loop_sites;
mod looping;
mod passing;
mod protecting;
mod run;
mod signatures;
mod simple;
mod stmts;
mod targets;
mod typecase;
mod value;
mod whole;

pub use stmts::lower_body;
pub use whole::lower;
