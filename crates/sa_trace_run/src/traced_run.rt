//! The run of a traced module, stretch after stretch.

ghost use Rattle.std.specs.Prelude.{◌≡◌, ◌≤◌, ℕ, List, [], None, Some};
ghost use Rattle.host_io.specs.Faults.{Rose};
ghost use Rattle.host_io.specs.Output.{Grew};
ghost use Rattle.sa_trace.specs.Writing.{sink};
ghost use Rattle.sa_trace_run.specs.Stretches.{Beginning, HasRunTo, IsUnderWay};
ghost use Rattle.sa_trace_run.specs.Traced.{AreReported, sinks};
ghost use Rattle.wa_run.specs.Answers.{IsBeforeRun, IsFaultReported};
ghost use Rattle.wa_run.specs.Modules.{SaysOfValid};
ghost use Rattle.wa_run.specs.Runs.{HasRunModule, streams};
ghost use Rattle.wa_syntax.specs.Runs.{IsLinked, SegmentsFit};
ghost use Rattle.wa_syntax.specs.ValidModule.{IsValid};

use crate::stretch::{TracedState, stretch};
use host_io::{Sink, Source};
use sa_ast::{Pos, Sources};
use sa_trace::{ErrStatus, TraceParser};
use std::alloc::Global;
use wa_exec::{Host, Machine};
use wa_run::{Answer, RunResult, answer_of_start};
use wa_valid::Valid;

/// How many steps a machine makes before its output is parsed.
const STRETCH: u64 = 4096;

/// The run of a traced module.
#[derive(Clone, Copy, Debug)]
pub struct TracedRun {
    pub run: RunResult,
    /// Whether err has taken all lines of the trace.
    pub listening: ErrStatus,
}

/// Runs a valid module whose output is records, with at most `fuel` steps, where the sites of its program have these positions. The bytes
/// of the output go to out, and the lines of the events to err, in the order of the records. Both come after the stretch of 4,096 steps in
/// which the module puts them, also where it waits for input meanwhile.
pub fn run_traced<I: Source, O: Sink, E: Sink>(
    alloc: Global,
    module: &Valid,
    fuel: u64,
    positions: &[Pos],
    sources: &Sources,
    input: &mut I,
    out: &mut O,
    err: &mut E,
) -> TracedRun
    requires valid { IsValid «module».now }
    ensures says { SaysOfValid «module».now result.run.answer }
    ensures reported { IsFaultReported result.run.answer (Rose (I.faults input.old) (I.faults input.new)) (Rose (O.faults out.old) (O.faults out.new)) }
    ensures within { result.run.steps ≤ fuel }
    ensures output { Grew (O.output out.old) (O.output out.new) }
    ensures untouched { IsBeforeRun result.run.answer → (out.new ≡ out.old) × (input.new ≡ input.old) × (err.new ≡ err.old) }
    // The run is that of the standard's machine, with these bytes as its output; they are records, and out and err took what these say.
    ensures ran { (framed : List ℕ)
        × HasRunModule «module».now fuel result.run (streams (I.input input.old) (Some [])) (streams (I.input input.new) (Some framed))
        × AreReported positions.now sources.now framed (sinks (sink (O.output out.old) (O.faults out.old))
        (sink (O.output out.new) (O.faults out.new)) (sink (E.output err.old) (E.faults err.old))
        (sink (E.output err.new) (E.faults err.new)) result.listening) result.run.answer }
    // A module that is linked and whose segments fit is run.
    ensures starts { IsLinked «module».now → SegmentsFit «module».now → IsBeforeRun result.run.answer → ⊥ }
{
    let Ok(host) = Host::new(alloc) else {
        return unrun(Answer::NoMemory);
    };
    let machine = match Machine::new(alloc, module) {
        Ok(machine) => machine,
        Err(fault) => return unrun(answer_of_start(fault)),
    };
    let mut running = TracedState {
        machine,
        host,
        parting: TraceParser::new(alloc),
        listening: ErrStatus::Yes,
    };
    let answer = run_on(
        alloc,
        &mut running,
        fuel,
        positions,
        sources,
        input,
        out,
        err,
    );
    TracedRun {
        run: RunResult {
            answer,
            steps: running.machine.steps(),
            func: running.machine.halted_in(),
        },
        listening: running.listening,
    }
}

/// The run of a module that made no step.
fn unrun(answer: Answer) -> TracedRun
    ensures answer { result.run.answer ≡ answer }
    ensures steps { result.run.steps ≡ 0 }
    ensures listening { result.listening ≡ ErrStatus.Yes }
{
    TracedRun {
        run: RunResult {
            answer,
            steps: 0,
            func: None,
        },
        listening: ErrStatus::Yes,
    }
}

/// Runs stretch after stretch, up to the end or the fuel.
fn run_on<I: Source, O: Sink, E: Sink>(
    alloc: Global,
    running: &mut TracedState,
    fuel: u64,
    positions: &[Pos],
    sources: &Sources,
    input: &mut I,
    out: &mut O,
    err: &mut E,
) -> Answer
    requires halt { running.old.machine.halt ≡ None }
    requires first { running.old.machine.steps ≡ 0 }
    ensures reported { IsFaultReported result (Rose (I.faults input.old) (I.faults input.new)) (Rose (O.faults out.old) (O.faults out.new)) }
    ensures runs { IsBeforeRun result → ⊥ }
    ensures within { running.new.machine.steps ≤ fuel }
    ensures ran { (b : Beginning)
        → IsUnderWay b positions.now sources.now running.old.machine running.old.host running.old.parting (I.input input.old)
        (I.ended input.old) (sinks (sink (O.output out.old) (O.faults out.old)) (sink (O.output out.old) (O.faults out.old))
        (sink (E.output err.old) (E.faults err.old)) (sink (E.output err.old) (E.faults err.old)) running.old.listening)
        → (framed : List ℕ) × HasRunTo b fuel result running.new.machine.steps (I.input input.new) framed
        × AreReported positions.now sources.now framed (sinks (sink (O.output out.old) (O.faults out.old))
        (sink (O.output out.new) (O.faults out.new)) (sink (E.output err.old) (E.faults err.old))
        (sink (E.output err.new) (E.faults err.new)) running.new.listening) result }
{
    let mut end = 0;
    loop {
        end += STRETCH.min(fuel - end);
        let answer = stretch(alloc, running, end, positions, sources, input, out, err);
        if end == fuel {
            return answer;
        }
        let Answer::Spent = answer else {
            return answer;
        };
    }
}
