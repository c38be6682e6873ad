//! The command `run`: a program is compiled, and its module is run.

ghost use Rattle.std.specs.Prelude.{◌≡◌, ◌&&◌, ℕ, [], is_some, map};
ghost use Rattle.host_io.specs.Output.{Grew};
ghost use Rattle.sa_correctness.specs.Confined.{IsConfined};
ghost use Rattle.sa_ast.specs.declared.pos.Sources.{Sources as Places};
ghost use Rattle.wa_run.specs.declared.module_run.RunResult.{RunResult as Runs};
ghost use Rattle.wa_syntax.specs.ValidModule.{IsValid};
ghost use Rattle.sa_trace.specs.declared.sinks.ErrStatus.TheVariants as listening;
ghost use Rattle.sa_driver.specs.Answer.{IsRun, has_steps};
ghost use Rattle.sa_driver.specs.Built.{IsVerified};
ghost use Rattle.sa_driver.specs.Ends.{ComesBeforeOutput, IsOfModule};
ghost use Rattle.sa_driver.specs.Lines.{IsPlaced};
ghost use Rattle.sa_driver.specs.Runs.{IsRunOfModule, RanBuilt, ended_of};
ghost use Rattle.sa_driver.specs.HostParts.{part};

use crate::cause::Cause;
use crate::compiler::{CompileResult, compile_files};
use crate::exec::{RunEnd, cause_of, done_of};
use crate::module::BuiltModule;
use crate::outcome::Outcome;
use crate::place::is_place_in;
use failure::Invariant;
use host_io::{ReadFiles, Sink, Source};
use sa_ast::{FaultKind, Pos, Sources};
use sa_cli::{Run, Trace};
use std::alloc::Global;
use wa_run::run_module;
use wa_valid::Valid;

/// Compiles the program and runs its module, which isn't traced.
pub fn run<'a, S: ReadFiles, I: Source, O: Sink>(
    alloc: Global,
    line: &Run<'a>,
    store: &mut S,
    input: &mut I,
    out: &mut O,
) -> Outcome<'a>
    ensures does { IsRun (part S.files S.faults store.old store.new) (part I.input I.faults input.old input.new)
        (part O.output O.faults out.old out.new) line.now.room line.now.fuel
        (map (λ file. file.now) line.now.files.items) result }
    ensures placed { IsPlaced result.sources result.cause }
    ensures steps { is_some result.steps ≡ (line.now.stats && has_steps result.cause) }
    ensures further { result.further.items ≡ [] }
    ensures file { result.file.now ≡ [] }
    ensures listening { result.listening ≡ listening.Yes }
    ensures files { S.files store.new ≡ S.files store.old }
    ensures output { Grew (O.output out.old) (O.output out.new) }
    ensures untouched { ComesBeforeOutput result.cause → (out.new ≡ out.old) × (input.new ≡ input.old) }
{
    let CompileResult { sources, module } = compile_files(
        alloc,
        store,
        line.files.as_slice(),
        line.contracts,
        line.room,
        Trace::Silent,
    );
    match module {
        Ok(built) => run_built(alloc, sources, built, line.fuel, line.stats, input, out),
        Err(cause) => Outcome::without_module(alloc, cause, sources),
    }
}

/// Runs the module of the program of these texts.
pub fn run_built<'a, I: Source, O: Sink>(
    alloc: Global,
    sources: Sources,
    built: BuiltModule,
    fuel: u64,
    stats: bool,
    input: &mut I,
    out: &mut O,
) -> Outcome<'a>
    requires tried { IsVerified built }
    ensures ran { (room : ℕ) → IsConfined room built.«module» → RanBuilt (part I.input I.faults input.old input.new)
        (part O.output O.faults out.old out.new) room fuel (IsOfModule built.positions sources) result }
    ensures sources { result.sources ≡ sources }
    ensures placed { IsPlaced result.sources result.cause }
    ensures steps { is_some result.steps ≡ (stats && has_steps result.cause) }
    ensures further { result.further.items ≡ [] }
    ensures file { result.file.now ≡ [] }
    ensures listening { result.listening ≡ listening.Yes }
    ensures output { Grew (O.output out.old) (O.output out.new) }
    ensures untouched { ComesBeforeOutput result.cause → (out.new ≡ out.old) × (input.new ≡ input.old) }
{
    let BuiltModule {
        module,
        bytes,
        positions,
        sites: _,
    } = built;
    let ended = run_valid(alloc, &module, fuel, input, out);
    let cause = at_place(ended.cause, positions.as_slice(), &sources);
    RunEnd { cause, ..ended }.outcome(alloc, sources, "", bytes, stats)
}

/// Runs a valid module.
fn run_valid<I: Source, O: Sink>(
    alloc: Global,
    module: &Valid,
    fuel: u64,
    input: &mut I,
    out: &mut O,
) -> RunEnd
    requires valid { IsValid «module».now }
    ensures ran { (run : Runs) × (result ≡ ended_of fuel run) × IsRunOfModule (part I.input I.faults input.old input.new)
        (part O.output O.faults out.old out.new) «module».now fuel run }
    ensures placed { (sources : Places) → IsPlaced sources result.cause }
    ensures output { Grew (O.output out.old) (O.output out.new) }
    ensures untouched { ComesBeforeOutput result.cause → (out.new ≡ out.old) × (input.new ≡ input.old) }
{
    let run = run_module(alloc, module, fuel, input, out);
    RunEnd {
        cause: cause_of(run.answer, fuel),
        done: done_of(run.answer),
        steps: run.steps,
        func: run.func,
    }
}

/// The cause for a program whose module ended with this one: where the module stopped, the fault at the position whose index it gave.
pub fn at_place(cause: Cause, positions: &[Pos], sources: &Sources) -> Cause
    ensures of_module { IsOfModule positions.now sources.now cause result }
    ensures placed { IsPlaced sources.now cause → IsPlaced sources.now result }
    ensures untouched { ComesBeforeOutput result → ComesBeforeOutput cause }
{
    match cause {
        Cause::Stopped(code, place) => fault_at(code, place, positions, sources),
        _ => cause,
    }
}

/// The fault of this kind at the position with this number. A stop that names no kind of a fault or no position of the
/// program, which no module of a program makes, is an internal error.
fn fault_at(code: u32, place: u32, positions: &[Pos], sources: &Sources) -> Cause
    ensures of_module { IsOfModule positions.now sources.now (Cause.Stopped code place) result }
    ensures placed { IsPlaced sources.now result }
    ensures later { ComesBeforeOutput result → ⊥ }
{
    let Some(kind) = FaultKind::of_number(code) else {
        return Cause::Broken(Invariant::PositionMissing);
    };
    let Some(pos) = positions.get(place as usize) else {
        return Cause::Broken(Invariant::PositionMissing);
    };
    if !is_place_in(sources.texts.as_slice(), *pos) {
        return Cause::Broken(Invariant::PositionMissing);
    }
    Cause::Fault(kind, *pos)
}
