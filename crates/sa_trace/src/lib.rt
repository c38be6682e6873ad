//! The trace of a program: parses the records that its module puts, and writes its output to one sink and the lines of the events of
//! its iters' instances to another.
#![tactic(auto)]

mod first_record;
mod line;
mod sinks;
mod trace_parser;
mod trace_record;

pub use sinks::{ErrStatus, write_records};
pub use trace_parser::TraceParser;
pub use trace_record::{Event, EventKind, TraceRecord};
