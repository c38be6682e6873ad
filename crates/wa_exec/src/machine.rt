//! A machine that runs a valid module (section 4.5 of the WebAssembly Core Specification 1.0).

ghost use Rattle.std.specs.Prelude.{◌≡◌, ◌≢◌, ◌≤◌, ◌<◌, max, Some, IfOk, IfErr, OnOk, ◌∷◌, option_to_list};
ghost use Rattle.wa_exec.specs.Beginning.{IsBeginning};
ghost use Rattle.wa_exec.specs.Goes.{first};
ghost use Rattle.wa_exec.specs.Halted.{halted_in};
ghost use Rattle.wa_exec.specs.Linking.{flat_of};
ghost use Rattle.wa_exec.specs.Machines.{Represents};
ghost use Rattle.wa_exec.specs.Interaction.{Makes, sides};
ghost use Rattle.wa_exec.specs.Progress.{Runs, Stays, halted};
ghost use Rattle.wa_exec.specs.declared.halt.Halt.{Halt};
ghost use Rattle.wa_flatten.specs.Codes.{layout_of};
ghost use Rattle.wa_syntax.specs.Machine.{Input};
ghost use Rattle.wa_syntax.specs.declared.module.Module.{Module};
ghost use Rattle.host_io.specs.Output.{Grew};
ghost use Rattle.wa_exec.specs.Links.{IsUnfit, IsUnstartable};
ghost use Rattle.wa_syntax.specs.Runs.{IsLinked, SegmentsFit};
ghost use Rattle.wa_exec.specs.Describes.{Describes, faults_of};

use crate::calls::CallStack;
use crate::halt::{Halt, StartFault};
use crate::host::Host;
use crate::link::{Linked, imported, main_of};
use crate::run::run;
use crate::state::State;
use host_io::{Sink, Source};
use std::alloc::Global;
use std::marker::Model;
use wa_flatten::{Code, ModuleInstance, segments_fit};
use wa_syntax::{Module, NoMemory};
use wa_valid::Valid;

/// A machine that runs a module. Contracts see how many steps it has made and whether it has halted.
#[derive(Drop)]
pub struct Machine {
    linked: Linked,
    state: State,
    steps: u64,
    halt: Option<Halt>,
}

impl Model for Machine {
    ghost use Rattle.wa_exec.specs.Progress.{Progress};

    ghost Value = { Progress };

    ghost view = { λ m. record { steps = m.steps; halt = m.halt; linked = m.linked; state = m.state } };
}

impl Machine {
    /// A machine at the beginning of a run of the module: its start function, if it has one, and then `main`.
    ///
    /// # Errors
    ///
    /// `Unlinked` where an import is none of the functions of the host, or `main` is missing; `Segment` where a segment
    /// doesn't fit; and `NoMemory`.
    pub fn new(alloc: Global, v: &Valid) -> Result<Machine, StartFault>
        ensures first { IfOk result (λ machine. (machine.steps ≡ 0) × (machine.halt ≡ None)) }
        ensures runs { IfOk result (λ machine. Runs v.now machine) }
        ensures begins { IfOk result (λ machine. (input : Input)
            → Represents v.now (layout_of machine.linked.code) (flat_of machine.state) (first v.now input)) }
        ensures linked { OnOk result (IsLinked v.now) }
        ensures fit { OnOk result (SegmentsFit v.now) }
        ensures refused { IfErr result (IsUnstartable v.now) }
    {
        let module = v.module();
        let callees = imported(alloc, module)?;
        let main = main_of(module)?;
        let linked = Linked::new(Code::new(alloc, v)?, callees)?;
        let state = beginning(alloc, v, main)?;
        Ok(Machine {
            linked,
            state,
            steps: 0,
            halt: None,
        })
    }

    /// How many steps were made.
    pub fn steps(&self) -> u64
        ensures { result ≡ self.now.steps }
    {
        self.steps
    }

    /// The function whose instruction has ended the run, by a trap or by a call that is too deep: its index among all functions of the
    /// module, the imported ones first. None where the run hasn't ended so.
    pub fn halted_in(&self) -> Option<usize>
        ensures { result ≡ halted_in self.now }
    {
        match self.halt {
            Some(Halt::Trap(_) | Halt::TooDeep) => Some(
                self.linked
                    .begun_before(self.state.calls.at)
                    .saturating_sub(1),
            ),
            _ => None,
        }
    }

    /// Runs until the steps have reached the fuel or the run halts. A machine that has halted gives its halt again, and
    /// nothing is read or flushed; nor is it where the fuel is below the steps.
    ///
    /// Each instruction is a step, also one that halts; `else` and `end` are none. A `loop` is one each time control falls into
    /// it, and a branch to it goes to the first instruction in it. Output is flushed where 4,096 bytes are buffered,
    /// and before each read of input.
    pub fn step_until<I: Source, O: Sink>(
        &mut self,
        fuel: u64,
        host: &mut Host,
        input: &mut I,
        out: &mut O,
    ) -> Halt
        ensures stays { Stays result self.old self.new }
        ensures untouched { (halt : Halt) → self.old.halt ≡ Some halt
            → (host.new ≡ host.old) × (input.new ≡ input.old) × (out.new ≡ out.old) }
        ensures short { fuel < self.old.steps → self.new ≡ self.old }
        ensures spent { self.old.halt ≡ None → fuel < self.old.steps
            → (result ≡ Halt.Spent) × (host.new ≡ host.old) × (input.new ≡ input.old) × (out.new ≡ out.old) }
        ensures linked { self.new.linked ≡ self.old.linked }
        ensures halted { self.old.halt ≡ None → self.new.halt ≡ halted result }
        ensures runs { (m : Module) → Runs m self.old → result ≢ Halt.NoMemory → Runs m self.new }
        ensures makes { (m : Module) → Runs m self.old → self.old.halt ≡ None → self.old.steps ≤ fuel
            → Makes m (layout_of self.old.linked.code) (flat_of self.old.state) (flat_of self.new.state) self.old.steps
            self.new.steps (Some result) (sides (I.input input.old) (I.ended input.old) (O.output out.old))
            (sides (I.input input.new) (I.ended input.new) (O.output out.new)) host.old host.new }
        ensures steps { self.old.steps ≤ self.new.steps }
        ensures within { self.new.steps ≤ max self.old.steps fuel }
        ensures reports { self.old.halt ≡ None
            → Describes result (faults_of (I.faults input.old) (O.faults out.old))
            (faults_of (I.faults input.new) (O.faults out.new)) self.new.steps fuel }
        ensures source { I.faults input.old ≤ I.faults input.new }
        ensures sink { O.faults out.old ≤ O.faults out.new }

        // What out has is after what it had.
        ensures output { Grew (O.output out.old) (O.output out.new) }
    {
        if let Some(halt) = self.halt {
            return halt;
        }
        if fuel < self.steps {
            return Halt::Spent;
        }
        let outcome = run(
            &self.linked,
            &mut self.state,
            self.steps,
            fuel,
            host,
            input,
            out,
        );
        self.steps = outcome.steps;
        self.halt = kept(outcome.halt);
        outcome.halt
    }
}

/// Checks whether a machine can be started, without making one.
///
/// # Errors
///
/// Those of [`Machine::new`].
pub fn check_start(alloc: Global, v: &Valid) -> Result<(), StartFault>
    ensures linked { OnOk result (IsLinked v.now) }
    ensures fit { OnOk result (SegmentsFit v.now) }
    ensures refused { IfErr result (IsUnstartable v.now) }
{
    let module = v.module();
    imported(alloc, module)?;
    main_of(module)?;
    if segments_fit(module) {
        Ok(())
    } else {
        Err(StartFault::Segment)
    }
}

/// The halt that the machine keeps: each but `Spent`.
fn kept(halt: Halt) -> Option<Halt>
    ensures { result ≡ halted halt }
{
    match halt {
        Halt::Spent => None,
        other => Some(other),
    }
}

/// The functions that are to be run, the next one last: `main`, and after it the start function.
fn waiting(alloc: Global, m: &Module, main: u32) -> Result<Vec<u32>, NoMemory>
    ensures { IfOk result (λ waiting. waiting.items ≡ main ∷ option_to_list m.now.start) }
{
    let mut waiting = Vec::new(alloc);
    waiting.push(main)?;
    if let Some(start) = m.start {
        waiting.push(start)?;
    }
    Ok(waiting)
}

/// The state at the beginning of a run.
///
/// # Errors
///
/// `Segment` where a segment goes past the end of the table or the memory, and `NoMemory`.
fn beginning(alloc: Global, v: &Valid, main: u32) -> Result<State, StartFault>
    ensures begins { IfOk result (IsBeginning v.now main) }
    ensures fit { OnOk result (SegmentsFit v.now) }
    ensures segment { IfErr result (IsUnfit v.now) }
{
    let waiting = waiting(alloc, v.module(), main)?;
    let ModuleInstance {
        globals,
        table,
        bytes,
        most_pages,
    } = ModuleInstance::new(alloc, v)?;
    Ok(State {
        calls: CallStack::new(alloc),
        waiting,
        value: None,
        globals,
        table,
        bytes,
        most_pages,
    })
}
