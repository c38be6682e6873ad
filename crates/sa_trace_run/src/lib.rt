//! The run of a traced module: its output is parsed into records, and these are written to out and err.
#![tactic(auto)]

mod stretch;
mod traced_run;

pub use traced_run::{TracedRun, run_traced};
