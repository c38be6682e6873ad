//! How a command ended.

ghost use Rattle.std.specs.Prelude.{◌≡◌, [], None};
ghost use Rattle.sa_trace.specs.declared.sinks.ErrStatus.TheVariants as listening;

use crate::cause::Cause;
use sa_ast::{Refusal, Sources};
use sa_trace::ErrStatus;
use std::alloc::Global;

/// How a command ended, and what is reported of that.
#[derive(Drop)]
pub struct Outcome<'a> {
    pub cause: Cause,
    /// The status where the cause is `Done`.
    pub done: u8,
    /// The texts that contain the cause's position.
    pub sources: Sources,
    /// The name of the module's or the listing's file, where the command reads one.
    pub file: &'a str,
    /// The bytes of the module that was encoded, or that was read to be run.
    pub module: Vec<u8>,
    /// The lines of further refusals, after that of the cause.
    pub further: Vec<u8>,
    /// These refusals, in the order of their lines.
    pub refusals: Vec<Refusal>,
    /// How many steps the machine made, where they are to be shown.
    pub steps: Option<u64>,
    /// The index of the function of the module whose instruction ended its run by a trap or by a call that is nested too deep, where one
    /// did.
    pub func: Option<usize>,
    /// Whether err has taken all lines of the trace, where there is one.
    pub listening: ErrStatus,
}

impl<'a> Outcome<'a> {
    /// The outcome of a command that has run no module.
    pub fn without_run(
        alloc: Global,
        cause: Cause,
        sources: Sources,
        module: Vec<u8>,
    ) -> Outcome<'a>
        ensures cause { result.cause ≡ cause }
        ensures done { result.done ≡ 0 }
        ensures sources { result.sources ≡ sources }
        ensures bytes { result.«module».items ≡ «module».items }
        ensures file { result.file.now ≡ [] }
        ensures further { result.further.items ≡ [] }
        ensures steps { result.steps ≡ None }
        ensures listening { result.listening ≡ listening.Yes }
    {
        Outcome {
            cause,
            done: 0,
            sources,
            file: "",
            module,
            further: Vec::new(alloc),
            refusals: Vec::new(alloc),
            steps: None,
            func: None,
            listening: ErrStatus::Yes,
        }
    }

    /// The outcome of a command that has neither made nor read a module.
    pub fn without_module(alloc: Global, cause: Cause, sources: Sources) -> Outcome<'a>
        ensures cause { result.cause ≡ cause }
        ensures done { result.done ≡ 0 }
        ensures sources { result.sources ≡ sources }
        ensures bytes { result.«module».items ≡ [] }
        ensures file { result.file.now ≡ [] }
        ensures further { result.further.items ≡ [] }
        ensures steps { result.steps ≡ None }
        ensures listening { result.listening ≡ listening.Yes }
    {
        Outcome::without_run(alloc, cause, sources, Vec::new(alloc))
    }
}
