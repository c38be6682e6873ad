//! The run of a module whose memory has a bound that isn't the module's.

ghost use Rattle.std.specs.Prelude.{◌≡◌, ◌<◌, ◌≤◌, ◌⊎◌, length, map, IfOk, IfErr};
ghost use Rattle.host_io.specs.Faults.{Rose};
ghost use Rattle.host_io.specs.Output.{Grew};
ghost use Rattle.wa_run.specs.Answers.{IsBeforeRun, IsFaultReported};
ghost use Rattle.wa_run.specs.Runs.{streams};
ghost use Rattle.wa_run.specs.Within.{HasRunWithin, SaysOfWithin, limits_within, within};
ghost use Rattle.wa_syntax.specs.Binary.{SpellsModule};
ghost use Rattle.wa_syntax.specs.ValidModule.{IsValid};
ghost use Rattle.wa_syntax.specs.declared.module.Module.{Module as Modules};
ghost use Rattle.wa_valid.specs.Verdict.{IsRefused};

use crate::answer::Answer;
use crate::module_run::{RunResult, run_module};
use host_io::{Sink, Source};
use sqlite_items::Items;
use std::alloc::Global;
use wa_decode::{DecodeFault, decode};
use wa_syntax::{Limits, Module, NoMemory};
use wa_valid::{Valid, ValidFault, validate};

/// Runs the module that these bytes spell, as [`run_bytes`](crate::run_bytes) does, but with a memory of at most so many pages of 65,536
/// bytes: it is run as the same module whose memory has this maximum, where it has none or a greater one. One whose memory begins with
/// more is answered `NoMemory`.
pub fn run_within<I: Source, O: Sink>(
    alloc: Global,
    bytes: &[u8],
    pages: u32,
    fuel: u64,
    input: &mut I,
    out: &mut O,
) -> RunResult
    requires size { length bytes.now < 4294967295 }
    // Malformed, Invalid, Unlinked and Segment come exactly where the standard says of the module with this memory.
    ensures says { SaysOfWithin pages bytes.now result.answer }
    ensures reported { IsFaultReported result.answer (Rose (I.faults input.old) (I.faults input.new)) (Rose (O.faults out.old) (O.faults out.new)) }
    ensures spent { result.answer ≡ Answer.Spent → result.steps ≡ fuel }
    ensures within { result.steps ≤ fuel }
    ensures output { Grew (O.output out.old) (O.output out.new) }
    ensures untouched { IsBeforeRun result.answer → (out.new ≡ out.old) × (input.new ≡ input.old) }
    ensures source { I.faults input.old ≤ I.faults input.new }
    ensures sink { O.faults out.old ≤ O.faults out.new }
    // What the run of the module with this memory was, whatever the source and the sink do.
    ensures ran { HasRunWithin pages bytes.now fuel result (streams (I.input input.old) (O.output out.old))
        (streams (I.input input.new) (O.output out.new)) }
{
    match load_within(alloc, bytes, pages) {
        Ok(valid) => run_module(alloc, &valid, fuel, input, out),
        Err(answer) => RunResult {
            answer,
            steps: 0,
            func: None,
        },
    }
}

/// The valid module that the bytes spell, with a memory of at most so many pages, or the answer where there is none.
fn load_within(alloc: Global, bytes: &[u8], pages: u32) -> Result<Valid, Answer>
    requires size { length bytes.now < 4294967295 }
    ensures spelled { IfOk result (λ valid. (m : Modules) × SpellsModule bytes.now m × (valid ≡ within pages m) × IsValid valid) }
    ensures says { IfErr result (SaysOfWithin pages bytes.now) }
    ensures before { IfErr result (λ answer. IsBeforeRun answer ⊎ (answer ≡ Answer.NoMemory)) }
{
    let module = match decode(alloc, bytes) {
        Ok(module) => module,
        Err(DecodeFault::Malformed) => return Err(Answer::Malformed),
        Err(DecodeFault::NoMemory) => return Err(Answer::NoMemory),
    };
    if begins_past(&module, pages) {
        return Err(Answer::NoMemory);
    }
    let Ok(module) = with_memory_within(alloc, module, pages) else {
        return Err(Answer::NoMemory);
    };
    match validate(alloc, module) {
        Ok(valid) => Ok(valid),
        Err(ValidFault::Invalid { func }) => Err(Answer::Invalid(func)),
        Err(ValidFault::NoMemory) => Err(Answer::NoMemory),
    }
}

/// Whether a memory begins with more than so many pages.
fn begins_past(module: &Module, pages: u32) -> bool {
    module
        .memories
        .as_slice()
        .iter()
        .any(|limits| limits.min > pages)
}

/// The module with a memory of at most so many pages.
fn with_memory_within(alloc: Global, module: Module, pages: u32) -> Result<Module, NoMemory>
    ensures { IfOk result (λ m. m ≡ within pages «module») }
{
    let memories = memories_within(alloc, module.memories.as_slice(), pages)?;
    Ok(Module { memories, ..module })
}

/// The limits of memories that have at most so many pages.
fn memories_within(
    alloc: Global,
    memories: &[Limits],
    pages: u32,
) -> Result<Items<Limits>, NoMemory>
    ensures { IfOk result (λ bounded. bounded ≡ map (limits_within pages) memories.now) }
{
    let mut bounded = Items::new(alloc);
    for limits in memories {
        bounded.push(limits_within(*limits, pages))?;
    }
    Ok(bounded)
}

/// Limits of at most so many pages.
fn limits_within(limits: Limits, pages: u32) -> Limits
    ensures { result ≡ limits_within pages limits }
{
    let max = match limits.max {
        Some(max) => pages.min(max),
        None => pages,
    };
    Limits {
        min: limits.min,
        max: Some(max),
    }
}
