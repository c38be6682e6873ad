//! The command `exec`: a module is read from its file and run.

ghost use Rattle.std.specs.Prelude.{◌≡◌, ◌<◌, ◌&&◌, ℕ, [], None, Some, is_some, length};
ghost use Rattle.host_io.specs.Output.{Grew};
ghost use Rattle.sa_trace.specs.declared.sinks.ErrStatus.TheVariants as listening;
ghost use Rattle.sa_driver.specs.Answer.{IsExecuted, has_steps};
ghost use Rattle.sa_driver.specs.Ends.{ComesBeforeOutput, cause_of};
ghost use Rattle.sa_driver.specs.Lines.{IsPlaced};
ghost use Rattle.sa_driver.specs.Runs.{IsRunBounded, done_of, ended_of};
ghost use Rattle.sa_driver.specs.HostParts.{part};
ghost use Rattle.sa_ast.specs.declared.pos.Sources.{Sources as Places};
ghost use Rattle.wa_run.specs.Answers.{IsBeforeRun};
ghost use Rattle.wa_run.specs.declared.module_run.RunResult.{RunResult as Runs};

use crate::cause::Cause;
use crate::compiler::{no_sources, unread};
use crate::outcome::Outcome;
use host_io::{ReadFiles, Sink, Source};
use sa_ast::Sources;
use sa_cli::Exec;
use sa_read::{FileContents, read_file};
use sa_trace::ErrStatus;
use std::alloc::Global;
use wa_run::{Answer, RunResult, run_bytes, run_within};

/// How many bytes a module's file has at most.
pub const MOST_MODULE_BYTES: usize = 67_108_864;

/// How the run of a module ended.
#[derive(Clone, Copy)]
pub struct RunEnd {
    pub cause: Cause,
    /// The status where the cause is `Done`: the low 8 bits of what `main` returned.
    pub done: u8,
    /// How many steps the machine made.
    pub steps: u64,
    /// The index of the function of the module whose instruction ended the run by a trap or by a call that is nested too deep, where one
    /// did.
    pub func: Option<usize>,
}

impl RunEnd {
    /// The outcome of a command that ran this module. It has the steps where they are asked for and the module ended by itself or when its
    /// fuel was spent.
    pub fn outcome<'a>(
        self,
        alloc: Global,
        sources: Sources,
        file: &'a str,
        module: Vec<u8>,
        stats: bool,
    ) -> Outcome<'a>
        ensures cause { result.cause ≡ self.cause }
        ensures sources { result.sources ≡ sources }
        ensures file { result.file.now ≡ file.entry.now }
        ensures bytes { result.«module».items ≡ «module».items }
        ensures done { result.done ≡ self.done }
        ensures steps { (steps : ℕ) → result.steps ≡ Some steps → steps ≡ self.steps }
        ensures further { result.further.items ≡ [] }
        ensures reported { is_some result.steps ≡ (stats && has_steps self.cause) }
        ensures listening { result.listening ≡ listening.Yes }
    {
        let steps = (stats && has_steps(&self.cause)).then_some(self.steps);
        Outcome {
            cause: self.cause,
            done: self.done,
            sources,
            file,
            module,
            further: Vec::new(alloc),
            refusals: Vec::new(alloc),
            steps,
            func: self.func,
            listening: ErrStatus::Yes,
        }
    }
}

/// Whether the steps of a run with this cause may be shown.
fn has_steps(cause: &Cause) -> bool
    ensures { result ≡ has_steps cause.now }
{
    matches!(
        cause,
        Cause::Done | Cause::Fault(_, _) | Cause::Stopped(_, _) | Cause::Spent(_)
    )
}

/// Runs the module in the file.
pub fn exec<'a, S: ReadFiles, I: Source, O: Sink>(
    alloc: Global,
    line: &Exec<'a>,
    store: &mut S,
    input: &mut I,
    out: &mut O,
) -> Outcome<'a>
    ensures does { IsExecuted (part S.files S.faults store.old store.new) (part I.input I.faults input.old input.new)
        (part O.output O.faults out.old out.new) line.now.fuel line.now.pages line.now.«module».now result }
    ensures placed { IsPlaced result.sources result.cause }
    ensures steps { is_some result.steps ≡ (line.now.stats && has_steps result.cause) }
    ensures further { result.further.items ≡ [] }
    ensures file { result.file.now ≡ line.now.«module».now }
    ensures listening { result.listening ≡ listening.Yes }
    ensures files { S.files store.new ≡ S.files store.old }
    ensures output { Grew (O.output out.old) (O.output out.new) }
    ensures untouched { ComesBeforeOutput result.cause → (out.new ≡ out.old) × (input.new ≡ input.old) }
{
    match read_file(alloc, store, line.module, MOST_MODULE_BYTES) {
        Ok(FileContents::Whole(bytes)) => {
            let ended = run_module(alloc, bytes.as_slice(), line.pages, line.fuel, input, out);
            ended.outcome(alloc, no_sources(alloc), line.module, bytes, line.stats)
        }
        Ok(FileContents::Cut(_bytes)) => without_file(alloc, line.module, Cause::Malformed),
        Err(fault) => without_file(alloc, line.module, unread(fault)),
    }
}

/// The outcome of a command that was to read this file and has no module to give out.
pub fn without_file<'a>(alloc: Global, file: &'a str, cause: Cause) -> Outcome<'a>
    ensures cause { result.cause ≡ cause }
    ensures done { result.done ≡ 0 }
    ensures file { result.file.now ≡ file.entry.now }
    ensures listening { result.listening ≡ listening.Yes }
    ensures bytes { result.«module».items ≡ [] }
    ensures steps { result.steps ≡ None }
    ensures further { result.further.items ≡ [] }
{
    let outcome = Outcome::without_module(alloc, cause, no_sources(alloc));
    Outcome { file, ..outcome }
}

/// Runs the module of these bytes, with this bound of its memory in pages, if there is one.
fn run_module<I: Source, O: Sink>(
    alloc: Global,
    bytes: &[u8],
    pages: Option<u32>,
    fuel: u64,
    input: &mut I,
    out: &mut O,
) -> RunEnd
    requires { length bytes.now < 4294967295 }
    ensures ran { (run : Runs) × (result ≡ ended_of fuel run) × IsRunBounded (part I.input I.faults input.old input.new)
        (part O.output O.faults out.old out.new) pages bytes.now fuel run }
    ensures placed { (sources : Places) → IsPlaced sources result.cause }
    ensures output { Grew (O.output out.old) (O.output out.new) }
    ensures untouched { ComesBeforeOutput result.cause → (out.new ≡ out.old) × (input.new ≡ input.old) }
{
    match pages {
        Some(pages) => ended_of(run_within(alloc, bytes, pages, fuel, input, out), fuel),
        None => ended_of(run_bytes(alloc, bytes, fuel, input, out), fuel),
    }
}

/// How a run with this fuel ended.
fn ended_of(run: RunResult, fuel: u64) -> RunEnd
    ensures value { result ≡ ended_of fuel run }
    ensures before { ComesBeforeOutput result.cause → IsBeforeRun run.answer }
    ensures placed { (sources : Places) → IsPlaced sources result.cause }
{
    RunEnd {
        cause: cause_of(run.answer, fuel),
        done: done_of(run.answer),
        steps: run.steps,
        func: run.func,
    }
}

/// The cause for an answer of a run with this fuel.
pub fn cause_of(answer: Answer, fuel: u64) -> Cause
    ensures value { result ≡ cause_of fuel answer }
    ensures before { ComesBeforeOutput result → IsBeforeRun answer }
    ensures placed { (sources : Places) → IsPlaced sources result }
{
    match answer {
        Answer::Malformed => Cause::Malformed,
        Answer::Invalid(func) => Cause::Invalid(func),
        Answer::Unlinked(import) => Cause::Unlinked(import),
        Answer::Segment => Cause::Segment,
        Answer::Ended(_) => Cause::Done,
        Answer::Stopped(code, site) => Cause::Stopped(code, site),
        Answer::Trap(kind) => Cause::Trap(kind),
        Answer::TooDeep => Cause::TooDeep,
        Answer::Spent => Cause::Spent(fuel),
        Answer::InFault => Cause::InFault,
        Answer::OutFault => Cause::OutFault,
        Answer::NoMemory => Cause::NoMemory,
    }
}

/// The status of a module that ended: the low 8 bits of what `main` returned, and 0 where it returned nothing.
pub fn done_of(answer: Answer) -> u8
    ensures { result ≡ done_of answer }
{
    match answer {
        Answer::Ended(Some(value)) => (value & 0xff) as u8,
        _ => 0,
    }
}
