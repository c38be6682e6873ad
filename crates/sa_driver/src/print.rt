//! The command `gen`: the text of a generated program is put on out.

ghost use Rattle.std.specs.Prelude.{◌≡◌, [], None};
ghost use Rattle.sa_gen.specs.Generated.{generated};
ghost use Rattle.host_io.specs.Output.{Grew};
ghost use Rattle.sa_trace.specs.declared.sinks.ErrStatus.TheVariants as listening;
ghost use Rattle.sa_driver.specs.Answer.{IsGenerated};
ghost use Rattle.sa_driver.specs.Ends.{ComesBeforeOutput, IsPrinted};
ghost use Rattle.sa_driver.specs.Lines.{IsPlaced};
ghost use Rattle.sa_driver.specs.HostParts.{part};

use crate::cause::Cause;
use crate::compiler::no_sources;
use crate::outcome::Outcome;
use failure::NoMemory;
use host_io::{Outage, Sink};
use sa_gen::generate;
use std::alloc::Global;

/// Puts the text of the generated program of this many classes on out.
pub fn print_generated<'a, O: Sink>(alloc: Global, classes: u32, out: &mut O) -> Outcome<'a>
    ensures does { IsGenerated (part O.output O.faults out.old out.new) classes result }
    ensures placed { IsPlaced result.sources result.cause }
    ensures steps { result.steps ≡ None }
    ensures further { result.further.items ≡ [] }
    ensures file { result.file.now ≡ [] }
    ensures listening { result.listening ≡ listening.Yes }
    ensures done { result.done ≡ 0 }
    ensures output { Grew (O.output out.old) (O.output out.new) }
    ensures later { ComesBeforeOutput result.cause → ⊥ }
{
    let cause = generate_on(alloc, classes, out);
    Outcome::without_module(alloc, cause, no_sources(alloc))
}

/// The cause after putting the text of the generated program on out; `Done` where out took it.
fn generate_on<O: Sink>(alloc: Global, classes: u32, out: &mut O) -> Cause
    ensures printed { IsPrinted (part O.output O.faults out.old out.new) (generated classes) result }
    ensures output { Grew (O.output out.old) (O.output out.new) }
    ensures later { ComesBeforeOutput result → ⊥ }
{
    match generate(alloc, classes) {
        Ok(text) => print(text.as_slice(), out),
        Err(NoMemory) => Cause::NoMemory,
    }
}

/// The cause after putting these bytes on out; `Done` where out took them.
pub fn print<O: Sink>(bytes: &[u8], out: &mut O) -> Cause
    ensures printed { IsPrinted (part O.output O.faults out.old out.new) bytes.now result }
    ensures output { Grew (O.output out.old) (O.output out.new) }
    ensures later { ComesBeforeOutput result → ⊥ }
{
    match out.put(bytes) {
        Ok(()) => Cause::Done,
        Err(Outage::Failed) => Cause::OutFault,
        Err(Outage::NoMemory) => Cause::NoMemory,
    }
}
