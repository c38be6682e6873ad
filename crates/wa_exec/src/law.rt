//! The law of calls one after another, and what a call contributes to it, each as what a function ensures. No code runs these.

ghost use Rattle.std.specs.Prelude.{◌≡◌, None};
ghost use Rattle.wa_exec.specs.Law.{AreOneRun, Called, between};
ghost use Rattle.wa_exec.specs.Interaction.{sides};
ghost use Rattle.wa_exec.specs.Progress.{Runs};
ghost use Rattle.wa_syntax.specs.declared.module.Module.{Module};

use crate::halt::Halt;
use crate::host::Host;
use crate::machine::Machine;
use host_io::{Sink, Source};
use wa_syntax::Module;

/// All calls of `step_until` on a machine, with whatever fuels, are together one run.
pub fn are_one_run(program: &Module)
    ensures { AreOneRun program.now }
{}

/// A call of `step_until` on a machine that runs a module is one of those that the law is about, also after a halt.
pub fn called<I: Source, O: Sink>(
    machine: &mut Machine,
    fuel: u64,
    host: &mut Host,
    input: &mut I,
    out: &mut O,
) -> Halt
    ensures { (m : Module) → (machine.old.halt ≡ None → Runs m machine.old)
        → Called m fuel (between machine.old host.old (sides (I.input input.old) (I.ended input.old) (O.output out.old)))
        (between machine.new host.new (sides (I.input input.new) (I.ended input.new) (O.output out.new))) result }
{
    machine.step_until(fuel, host, input, out)
}
