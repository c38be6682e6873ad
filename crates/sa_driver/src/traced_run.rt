//! The command `run` with `--trace`: a program is compiled, and its traced module is run.

ghost use Rattle.std.specs.Prelude.{◌≡◌, ◌&&◌, ℕ, [], is_some, map};
ghost use Rattle.host_io.specs.Output.{Grew};
ghost use Rattle.sa_correctness.specs.Confined.{IsConfined};
ghost use Rattle.sa_driver.specs.Answer.{IsTraced, has_steps};
ghost use Rattle.sa_driver.specs.Built.{IsVerified};
ghost use Rattle.sa_driver.specs.Ends.{ComesBeforeOutput, IsOfModule};
ghost use Rattle.sa_driver.specs.Lines.{IsPlaced};
ghost use Rattle.sa_driver.specs.Runs.{RanTraced};
ghost use Rattle.sa_driver.specs.HostParts.{host_state, part};

use crate::compiler::{CompileResult, compile_files};
use crate::exec::{RunEnd, cause_of, done_of};
use crate::module::BuiltModule;
use crate::outcome::Outcome;
use crate::run::at_place;
use host_io::{ReadFiles, Sink, Source};
use sa_ast::Sources;
use sa_cli::{Run, Trace};
use sa_trace_run::run_traced;
use std::alloc::Global;

/// Compiles the program and runs its traced module. Err takes a line for each event of the instances of its iters.
pub fn run_with_trace<'a, S: ReadFiles, I: Source, O: Sink, E: Sink>(
    alloc: Global,
    line: &Run<'a>,
    store: &mut S,
    input: &mut I,
    out: &mut O,
    err: &mut E,
) -> Outcome<'a>
    ensures does { IsTraced (host_state (part S.files S.faults store.old store.new) (part I.input I.faults input.old input.new)
        (part O.output O.faults out.old out.new) (part E.output E.faults err.old err.new)) line.now.room line.now.fuel
        (map (λ file. file.now) line.now.files.items) result }
    ensures placed { IsPlaced result.sources result.cause }
    ensures steps { is_some result.steps ≡ (line.now.stats && has_steps result.cause) }
    ensures further { result.further.items ≡ [] }
    ensures file { result.file.now ≡ [] }
    ensures files { S.files store.new ≡ S.files store.old }
    ensures output { Grew (O.output out.old) (O.output out.new) }
    ensures untouched { ComesBeforeOutput result.cause → (out.new ≡ out.old) × (input.new ≡ input.old) }
{
    let CompileResult { sources, module } = compile_files(
        alloc,
        store,
        line.files.as_slice(),
        line.contracts,
        line.room,
        Trace::Reported,
    );
    match module {
        Ok(built) => run_built_with_trace(
            alloc, sources, built, line.fuel, line.stats, input, out, err,
        ),
        Err(cause) => Outcome::without_module(alloc, cause, sources),
    }
}

/// Runs the traced module of the program of these texts.
fn run_built_with_trace<'a, I: Source, O: Sink, E: Sink>(
    alloc: Global,
    sources: Sources,
    built: BuiltModule,
    fuel: u64,
    stats: bool,
    input: &mut I,
    out: &mut O,
    err: &mut E,
) -> Outcome<'a>
    requires tried { IsVerified built }
    ensures ran { (room : ℕ) → IsConfined room built.«module» → RanTraced (part I.input I.faults input.old input.new)
        (part O.output O.faults out.old out.new) (part E.output E.faults err.old err.new) room fuel
        (IsOfModule built.positions sources) built.sites result }
    ensures sources { result.sources ≡ sources }
    ensures placed { IsPlaced result.sources result.cause }
    ensures steps { is_some result.steps ≡ (stats && has_steps result.cause) }
    ensures further { result.further.items ≡ [] }
    ensures file { result.file.now ≡ [] }
    ensures output { Grew (O.output out.old) (O.output out.new) }
    ensures untouched { ComesBeforeOutput result.cause → (out.new ≡ out.old) × (input.new ≡ input.old) }
{
    let BuiltModule {
        module,
        bytes,
        positions,
        sites,
    } = built;
    let traced = run_traced(
        alloc,
        &module,
        fuel,
        sites.as_slice(),
        &sources,
        input,
        out,
        err,
    );
    let cause = cause_of(traced.run.answer, fuel);
    let ended = RunEnd {
        cause: at_place(cause, positions.as_slice(), &sources),
        done: done_of(traced.run.answer),
        steps: traced.run.steps,
        func: traced.run.func,
    };
    let outcome = ended.outcome(alloc, sources, "", bytes, stats);
    Outcome {
        listening: traced.listening,
        ..outcome
    }
}
