//! The command `selftest`: a generated program is compiled and run, and its result is printed.

ghost use Rattle.std.specs.Prelude.{◌≡◌, [], IfOk, false, is_some};
ghost use Rattle.host_io.specs.Output.{Grew};
ghost use Rattle.sa_trace.specs.declared.sinks.ErrStatus.TheVariants as listening;
ghost use Rattle.sa_correctness.specs.Confined.{IsConfined};
ghost use Rattle.sa_driver.specs.Answer.{IsRunApart, IsTested, default_room};
ghost use Rattle.sa_driver.specs.Built.{IsCompiled, IsVerified};
ghost use Rattle.sa_driver.specs.Ends.{ComesBeforeOutput, IsPrinted};
ghost use Rattle.sa_driver.specs.Files.{IsSpelledGenerated};
ghost use Rattle.sa_driver.specs.Lines.{IsPlaced, selftest_line};
ghost use Rattle.sa_driver.specs.HostParts.{part};

use crate::cause::Cause;
use crate::compiler::{CompileResult, compile_generated};
use crate::module::BuiltModule;
use crate::outcome::Outcome;
use crate::print::print;
use crate::run::run_built;
use host_io::{Sink, SureSink, SureSource};
use sa_ast::Sources;
use sa_gen::add_numbered;
use std::alloc::{AllocError, Global};

/// Compiles and runs the generated program of this many classes. Where it ends, the number of bytes of its output and its status are
/// printed on out; its output isn't.
pub fn selftest<'a, O: Sink>(alloc: Global, classes: u32, out: &mut O) -> Outcome<'a>
    ensures does { IsTested (part O.output O.faults out.old out.new) classes result }
    ensures placed { IsPlaced result.sources result.cause }
    ensures steps { is_some result.steps ≡ false }
    ensures further { result.further.items ≡ [] }
    ensures file { result.file.now ≡ [] }
    ensures listening { result.listening ≡ listening.Yes }
    ensures done { result.cause ≡ Cause.Done → result.done ≡ 0 }
    ensures output { Grew (O.output out.old) (O.output out.new) }
    ensures untouched { ComesBeforeOutput result.cause → out.new ≡ out.old }
{
    let CompileResult { sources, module } = compile_generated(alloc, classes);
    match module {
        Ok(built) => run_apart(alloc, classes, sources, built, out),
        Err(cause) => Outcome::without_module(alloc, cause, sources),
    }
}

/// Runs the module of the generated program with an empty input and an output of its own, and prints its result on out.
fn run_apart<'a, O: Sink>(
    alloc: Global,
    classes: u32,
    sources: Sources,
    built: BuiltModule,
    out: &mut O,
) -> Outcome<'a>
    requires tried { IsVerified built }
    requires confined { IsConfined default_room built.«module» }
    requires tree { IsCompiled built }
    requires taken { IsSpelledGenerated classes sources }
    ensures ran { IsRunApart (part O.output O.faults out.old out.new) classes result }
    ensures placed { IsPlaced result.sources result.cause }
    ensures steps { is_some result.steps ≡ false }
    ensures further { result.further.items ≡ [] }
    ensures file { result.file.now ≡ [] }
    ensures listening { result.listening ≡ listening.Yes }
    ensures done { result.cause ≡ Cause.Done → result.done ≡ 0 }
    ensures output { Grew (O.output out.old) (O.output out.new) }
    ensures untouched { ComesBeforeOutput result.cause → out.new ≡ out.old }
{
    let mut input = SureSource::new(Vec::new(alloc));
    let mut output = SureSink::new(alloc);
    let ran = run_built(
        alloc,
        sources,
        built,
        u64::MAX,
        false,
        &mut input,
        &mut output,
    );
    match ran.cause {
        Cause::Done => {
            let bytes = output.taken().len() as u64;
            let cause = tell(alloc, classes, bytes, ran.done, out);
            Outcome::without_run(alloc, cause, ran.sources, ran.module)
        }
        _ => ran,
    }
}

/// The cause after putting the line of a selftest on out; `Done` where out took it.
fn tell<O: Sink>(alloc: Global, classes: u32, bytes: u64, status: u8, out: &mut O) -> Cause
    ensures printed { IsPrinted (part O.output O.faults out.old out.new) (selftest_line classes bytes status) result }
    ensures output { Grew (O.output out.old) (O.output out.new) }
    ensures later { ComesBeforeOutput result → ⊥ }
{
    match line(alloc, classes, bytes, status) {
        Ok(line) => print(line.as_slice(), out),
        Err(AllocError) => Cause::NoMemory,
    }
}

/// `selftest N: B bytes, status S`, ended by a line feed.
fn line(alloc: Global, classes: u32, bytes: u64, status: u8) -> Result<Vec<u8>, AllocError>
    ensures { IfOk result (λ line. line.items ≡ selftest_line classes bytes status) }
{
    let mut line = Vec::new(alloc);
    add_numbered(&mut line, b"selftest ", classes as u64, b": ")?;
    add_numbered(&mut line, b"", bytes, b" bytes, status ")?;
    add_numbered(&mut line, b"", status as u64, b"\n")?;
    Ok(line)
}
