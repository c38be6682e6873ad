//! A stretch of a run: the module runs up to a number of steps, and its output is parsed into records, which are written.

ghost use Rattle.std.specs.Prelude.{◌≡◌, ◌≤◌, ◌++◌, ℕ, List, [], None, IsErrOf, OnErr, OnOk};
ghost use Rattle.host_io.specs.Faults.{Rose};
ghost use Rattle.sa_trace.specs.Writing.{Hears, HearsPart, Sink as Taken, sink};
ghost use Rattle.sa_trace_run.specs.Stretches.{Beginning, CameTo, GoesOn, IsStretch, IsUnderWay};
ghost use Rattle.sa_trace_run.specs.Traced.{FrontIsWritten, SoFar, sinks};
ghost use Rattle.wa_run.specs.Answers.{IsBeforeRun, IsFaultReported};

use host_io::{Outage, Sink, Source, SureSink};
use sa_ast::{Pos, Sources};
use sa_trace::{ErrStatus, TraceParser, write_records};
use std::alloc::Global;
use wa_exec::{Host, Machine};
use wa_run::{Answer, answer_after_flush, answer_of_halt};

/// A run that has begun: the machine, the output that it has put and that isn't written yet, and the state of its records.
#[derive(Drop)]
pub(crate) struct TracedState {
    pub(crate) machine: Machine,
    pub(crate) host: Host,
    pub(crate) parting: TraceParser,
    pub(crate) listening: ErrStatus,
}

/// Runs until `end` steps are made in total, and writes the records that end there.
pub(crate) fn stretch<I: Source, O: Sink, E: Sink>(
    alloc: Global,
    running: &mut TracedState,
    end: u64,
    positions: &[Pos],
    sources: &Sources,
    input: &mut I,
    out: &mut O,
    err: &mut E,
) -> Answer
    requires halt { running.old.machine.halt ≡ None }
    requires steps { running.old.machine.steps ≤ end }
    ensures reported { IsFaultReported result (Rose (I.faults input.old) (I.faults input.new)) (Rose (O.faults out.old) (O.faults out.new)) }
    ensures runs { IsBeforeRun result → ⊥ }
    ensures within { running.new.machine.steps ≤ end }
    ensures spent { result ≡ Answer.Spent → running.new.machine.steps ≡ end }
    ensures goes { result ≡ Answer.Spent → running.new.machine.halt ≡ None }
    ensures source { I.faults input.old ≤ I.faults input.new }
    ensures sink { O.faults out.old ≤ O.faults out.new }
    // Whatever the run has put and reported before, it is one run with this stretch.
    ensures made { (b : Beginning) (fuel : ℕ) (out_old err_old : Taken) → end ≤ fuel
        → IsUnderWay b positions.now sources.now running.old.machine running.old.host running.old.parting (I.input input.old)
        (I.ended input.old) (sinks out_old (sink (O.output out.old) (O.faults out.old)) err_old
        (sink (E.output err.old) (E.faults err.old)) running.old.listening)
        → IsStretch b positions.now sources.now fuel result running.new.machine running.new.host running.new.parting
        (I.input input.new) (I.ended input.new) (sinks out_old (sink (O.output out.new) (O.faults out.new)) err_old
        (sink (E.output err.new) (E.faults err.new)) running.new.listening) }
{
    let mut buffer = SureSink::new(alloc);
    let answer = put_until(
        &mut running.machine,
        end,
        &mut running.host,
        input,
        &mut buffer,
    );
    let reported = tell(
        alloc,
        buffer.taken(),
        positions,
        sources,
        &mut running.parting,
        &mut running.listening,
        out,
        err,
    );
    match reported {
        Ok(()) => answer,
        Err(outage) => match answer {
            // The fault of the input came first.
            Answer::InFault => {
                running.listening = listening_behind(outage, running.listening);
                Answer::InFault
            }
            _ => answer_of_outage(outage),
        },
    }
}

/// Runs until `end` steps are made in total, and puts into the buffer what the module puts.
fn put_until<I: Source>(
    machine: &mut Machine,
    end: u64,
    host: &mut Host,
    input: &mut I,
    buffer: &mut SureSink,
) -> Answer
    requires halt { machine.old.halt ≡ None }
    requires steps { machine.old.steps ≤ end }
    requires empty { buffer.old ≡ [] }
    ensures reported { IsFaultReported result (Rose (I.faults input.old) (I.faults input.new)) ⊥ }
    ensures runs { IsBeforeRun result → ⊥ }
    ensures within { machine.new.steps ≤ end }
    ensures spent { result ≡ Answer.Spent → machine.new.steps ≡ end }
    ensures goes { result ≡ Answer.Spent → machine.new.halt ≡ None }
    ensures source { I.faults input.old ≤ I.faults input.new }
    ensures came { (b : Beginning) (fuel : ℕ) (put : List ℕ) → end ≤ fuel
        → GoesOn b machine.old host.old (I.input input.old) (I.ended input.old) put
        → CameTo b fuel result machine.new host.new (I.input input.new) (I.ended input.new) (put ++ buffer.new) }
{
    let halt = machine.step_until(end, host, input, buffer);
    answer_after_flush(answer_of_halt(halt), host, buffer)
}

/// Writes the records that end in these bytes.
fn tell<O: Sink, E: Sink>(
    alloc: Global,
    bytes: &[u8],
    positions: &[Pos],
    sources: &Sources,
    parting: &mut TraceParser,
    listening: &mut ErrStatus,
    out: &mut O,
    err: &mut E,
) -> Result<(), Outage>
    ensures ok { OnOk result ((put : List ℕ) (out_old err_old : Taken)
        → SoFar positions.now sources.now put parting.old (sinks out_old (sink (O.output out.old) (O.faults out.old)) err_old
        (sink (E.output err.old) (E.faults err.old)) listening.old)
        → SoFar positions.now sources.now (put ++ bytes.now) parting.new (sinks out_old (sink (O.output out.new) (O.faults out.new))
        err_old (sink (E.output err.new) (E.faults err.new)) listening.new)) }
    ensures part { OnErr result ((put : List ℕ) (out_old err_old : Taken)
        → SoFar positions.now sources.now put parting.old (sinks out_old (sink (O.output out.old) (O.faults out.old)) err_old
        (sink (E.output err.old) (E.faults err.old)) listening.old)
        → FrontIsWritten positions.now sources.now (put ++ bytes.now) (sinks out_old (sink (O.output out.new) (O.faults out.new))
        err_old (sink (E.output err.new) (E.faults err.new)) listening.new) (HearsPart ErrStatus.Yes listening.new err_old
        (sink (E.output err.new) (E.faults err.new)))) }
    // Where out fails, err has the whole lines.
    ensures lines { IsErrOf result Outage.Failed → (put : List ℕ) (out_old err_old : Taken)
        → SoFar positions.now sources.now put parting.old (sinks out_old (sink (O.output out.old) (O.faults out.old)) err_old
        (sink (E.output err.old) (E.faults err.old)) listening.old)
        → FrontIsWritten positions.now sources.now (put ++ bytes.now) (sinks out_old (sink (O.output out.new) (O.faults out.new))
        err_old (sink (E.output err.new) (E.faults err.new)) listening.new) (Hears ErrStatus.Yes listening.new err_old
        (sink (E.output err.new) (E.faults err.new))) }
    ensures failed { IsErrOf result Outage.Failed → Rose (O.faults out.old) (O.faults out.new) }
    ensures out { O.faults out.old ≤ O.faults out.new }
{
    match parting.part(alloc, bytes, positions, sources) {
        Ok(frames) => write_records(alloc, frames.as_slice(), sources, listening, out, err),
        Err(_) => Err(Outage::NoMemory),
    }
}

/// Whether err still takes lines, where the input has failed and an outage came after it.
fn listening_behind(outage: Outage, listening: ErrStatus) -> ErrStatus
    ensures failed { outage ≡ Outage.Failed → result ≡ listening }
    ensures short { outage ≡ Outage.NoMemory → result ≡ ErrStatus.NoMemory }
{
    match outage {
        Outage::Failed => listening,
        Outage::NoMemory => ErrStatus::NoMemory,
    }
}

/// The answer of a run that an outage ends.
fn answer_of_outage(outage: Outage) -> Answer
    ensures failed { outage ≡ Outage.Failed → result ≡ Answer.OutFault }
    ensures short { outage ≡ Outage.NoMemory → result ≡ Answer.NoMemory }
{
    match outage {
        Outage::Failed => Answer::OutFault,
        Outage::NoMemory => Answer::NoMemory,
    }
}
