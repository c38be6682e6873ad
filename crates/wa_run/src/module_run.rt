//! The run of a module.

ghost use Rattle.std.specs.Prelude.{◌≡◌, ◌<◌, ◌≤◌, ◌⊎◌, [], None, length};
ghost use Rattle.host_io.specs.Faults.{Rose};
ghost use Rattle.host_io.specs.Output.{Grew};
ghost use Rattle.wa_run.specs.Answers.{IsBeforeRun, IsOutage, IsFaultReported};
ghost use Rattle.wa_run.specs.Modules.{SaysOf, SaysOfValid};
ghost use Rattle.wa_run.specs.Runs.{HasRun, HasRunModule, IsClosed, IsStandardRun, IsStandardModuleRun, streams};
ghost use Rattle.wa_flatten.specs.Codes.{layout_of};
ghost use Rattle.wa_exec.specs.Goes.{first};
ghost use Rattle.wa_exec.specs.Linking.{flat_of};
ghost use Rattle.wa_exec.specs.Machines.{Represents};
ghost use Rattle.wa_exec.specs.Progress.{Runs};
ghost use Rattle.wa_syntax.specs.Machine.{Input};
ghost use Rattle.wa_syntax.specs.Runs.{IsLinked, SegmentsFit};
ghost use Rattle.wa_syntax.specs.ValidModule.{IsValid};
ghost use Rattle.wa_syntax.specs.declared.module.Module.{Module};

use crate::answer::{Answer, answer_of_halt, answer_of_start};
use crate::load::load;
use host_io::{Outage, Sink, Source};
use std::alloc::Global;
use wa_exec::{Host, Machine};
use wa_valid::Valid;

/// The answer of a run, how many steps the machine made, and in which function it ended.
#[derive(Clone, Copy, Debug, PartialEq, Eq)]
pub struct RunResult {
    pub answer: Answer,
    pub steps: u64,
    /// The function whose instruction ended the run, by a trap or by a call that is too deep, where one did: its index among all
    /// functions of the module, the imported ones first.
    pub func: Option<usize>,
}

/// Runs the module that these bytes spell, with at most `fuel` steps. Its output goes to `out` and its input comes from
/// `input`; all that it put before its end, a trap or the end of its fuel is flushed.
pub fn run_bytes<I: Source, O: Sink>(
    alloc: Global,
    bytes: &[u8],
    fuel: u64,
    input: &mut I,
    out: &mut O,
) -> RunResult
    requires size { length bytes.now < 4294967295 }
    // Malformed, Invalid, Unlinked and Segment come exactly where the standard says.
    ensures says { SaysOf bytes.now result.answer }
    // A fault is answered only where the source or the sink counted one, and Spent only at the fuel.
    ensures reported { IsFaultReported result.answer (Rose (I.faults input.old) (I.faults input.new)) (Rose (O.faults out.old) (O.faults out.new)) }
    ensures spent { result.answer ≡ Answer.Spent → result.steps ≡ fuel }
    ensures within { result.steps ≤ fuel }
    // What out has is after what it had, and nothing where the answer comes before the run.
    ensures output { Grew (O.output out.old) (O.output out.new) }
    ensures untouched { IsBeforeRun result.answer → (out.new ≡ out.old) × (input.new ≡ input.old) }
    ensures source { I.faults input.old ≤ I.faults input.new }
    ensures sink { O.faults out.old ≤ O.faults out.new }
    // What the run of the module was, whatever the source and the sink do.
    ensures ran { HasRun bytes.now fuel result (streams (I.input input.old) (O.output out.old))
        (streams (I.input input.new) (O.output out.new)) }
    // Over a source that says what it has left, the run is the standard's over these bytes.
    ensures whole { IsStandardRun bytes.now fuel result (streams (I.input input.old) (O.output out.old))
        (streams (I.input input.new) (O.output out.new)) }
{
    match load(alloc, bytes) {
        Ok(valid) => run_module(alloc, &valid, fuel, input, out),
        Err(answer) => RunResult {
            answer,
            steps: 0,
            func: None,
        },
    }
}

/// Runs a valid module with at most `fuel` steps, as [`run_bytes`] runs the one that its bytes spell.
pub fn run_module<I: Source, O: Sink>(
    alloc: Global,
    valid: &Valid,
    fuel: u64,
    input: &mut I,
    out: &mut O,
) -> RunResult
    requires valid { IsValid valid.now }
    ensures says { SaysOfValid valid.now result.answer }
    ensures reported { IsFaultReported result.answer (Rose (I.faults input.old) (I.faults input.new)) (Rose (O.faults out.old) (O.faults out.new)) }
    ensures spent { result.answer ≡ Answer.Spent → result.steps ≡ fuel }
    ensures within { result.steps ≤ fuel }
    ensures output { Grew (O.output out.old) (O.output out.new) }
    ensures untouched { IsBeforeRun result.answer → (out.new ≡ out.old) × (input.new ≡ input.old) }
    ensures source { I.faults input.old ≤ I.faults input.new }
    ensures sink { O.faults out.old ≤ O.faults out.new }
    ensures ran { HasRunModule valid.now fuel result (streams (I.input input.old) (O.output out.old))
        (streams (I.input input.new) (O.output out.new)) }
    ensures whole { IsStandardModuleRun valid.now fuel result (streams (I.input input.old) (O.output out.old))
        (streams (I.input input.new) (O.output out.new)) }
    // A module that is linked and whose segments fit is run.
    ensures starts { IsLinked valid.now → SegmentsFit valid.now → IsBeforeRun result.answer → ⊥ }
{
    let mut host = match Host::new(alloc) {
        Ok(host) => host,
        Err(_no_memory) => {
            return RunResult {
                answer: Answer::NoMemory,
                steps: 0,
                func: None,
            };
        }
    };
    match Machine::new(alloc, valid) {
        Ok(machine) => run_machine(machine, fuel, &mut host, input, out),
        Err(fault) => RunResult {
            answer: answer_of_start(fault),
            steps: 0,
            func: None,
        },
    }
}

/// Runs a machine that has made no step.
fn run_machine<I: Source, O: Sink>(
    mut machine: Machine,
    fuel: u64,
    host: &mut Host,
    input: &mut I,
    out: &mut O,
) -> RunResult
    requires steps { machine.steps ≡ 0 }
    requires halt { machine.halt ≡ None }
    ensures reported { IsFaultReported result.answer (Rose (I.faults input.old) (I.faults input.new)) (Rose (O.faults out.old) (O.faults out.new)) }
    ensures spent { result.answer ≡ Answer.Spent → result.steps ≡ fuel }
    ensures within { result.steps ≤ fuel }
    ensures runs { IsBeforeRun result.answer → ⊥ }
    ensures output { Grew (O.output out.old) (O.output out.new) }
    ensures source { I.faults input.old ≤ I.faults input.new }
    ensures sink { O.faults out.old ≤ O.faults out.new }
    ensures ran { (m : Module)
        → IsValid m → IsLinked m → Runs m machine
        → ((input : Input) → Represents m (layout_of machine.linked.code) (flat_of machine.state) (first m input)) → host.old ≡ []
        → HasRunModule m fuel result (streams (I.input input.old) (O.output out.old)) (streams (I.input input.new) (O.output out.new)) }
{
    let halt = machine.step_until(fuel, host, input, out);
    RunResult {
        answer: answer_after_flush(answer_of_halt(halt), host, out),
        steps: machine.steps(),
        func: machine.halted_in(),
    }
}

/// The answer after the buffered output is flushed. After a fault of the sink, or where it had no memory, nothing
/// more is flushed: the sink has taken a prefix of the buffered bytes.
pub fn answer_after_flush<O: Sink>(answer: Answer, host: &mut Host, out: &mut O) -> Answer
    ensures same { result ≡ answer ⊎ IsOutage result (Rose (O.faults out.old) (O.faults out.new)) }
    ensures output { Grew (O.output out.old) (O.output out.new) }
    ensures sink { O.faults out.old ≤ O.faults out.new }
    ensures closed { IsClosed answer result host.old (O.output out.old) (O.output out.new) }
    // Where a run can go on, the buffer is then empty.
    ensures empties { result ≡ Answer.Spent → host.new ≡ [] }
{
    match answer {
        Answer::OutFault | Answer::NoMemory => answer,
        _ => match host.flush(out) {
            Ok(()) => answer,
            Err(Outage::Failed) => Answer::OutFault,
            Err(Outage::NoMemory) => Answer::NoMemory,
        },
    }
}
