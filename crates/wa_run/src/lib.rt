//! Runs a module from its bytes: they are decoded and validated, the module is linked to the functions of a host, and a
//! machine runs it.
#![tactic(auto)]

mod answer;
mod load;
mod module_run;
mod within;

pub use answer::{Answer, answer_of_halt, answer_of_start};
pub use load::runnable;
pub use module_run::{RunResult, answer_after_flush, run_bytes, run_module};
pub use within::run_within;
