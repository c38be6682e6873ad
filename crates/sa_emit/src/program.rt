//! A CFG program as a module.

ghost use Rattle.std.specs.Prelude.{IfOk};
ghost use Rattle.sa_emit.specs.Tables.{AreFunctionsOf};

use crate::memory::{Memory, memory_of};
use crate::module::{functions_of, module};
use crate::places::{Places, places_of};
use crate::pool::{slot_bytes, slot_words};
use crate::reachability::{Reachable, reachable_of};
use crate::runtime::{Runtime, runtime_of};
use crate::types::own_types;
use failure::{Failure, Invariant, known};
use sa_cfg::CfgProgram;
use sa_dispatch::ImplementationTable;
use sa_runtime::layout::FIRST_TRACE_FUNCTION;
use sa_runtime::trace::{TraceFunctions, Tracing};
use sa_templates::{EmitProgram, SubtypeRanges};
use sqlite_items::Items;
use std::alloc::Global;
use wa_syntax::{FuncTy, Module};

/// The module of a program, whose objects have so many KiB.
///
/// # Errors
///
/// A `Failure`: `Broken` where an address or a number of the module doesn't fit 32 bits, and where a number of the program names
/// nothing.
pub fn emit(
    alloc: Global,
    flat: &CfgProgram,
    rows: &ImplementationTable,
    room: u32,
) -> Result<Module, Failure>
    ensures tables { IfOk result (λ made. AreFunctionsOf flat.now.bodies made.funcs) }
{
    emitted(alloc, flat, rows, room, Tracing::Off)
}

/// The module of a program that is traced: what it writes reports, among the bytes of the output, the events of the instances of iters.
/// `sa_runtime::trace` has the format. A site is reported by its index among those of all bodies, in the order of the bodies.
///
/// # Errors
///
/// Those of [`emit`].
pub fn emit_traced(
    alloc: Global,
    flat: &CfgProgram,
    rows: &ImplementationTable,
    room: u32,
) -> Result<Module, Failure>
    ensures tables { IfOk result (λ made. AreFunctionsOf flat.now.bodies made.funcs) }
{
    let tellers = TraceFunctions::from_first(FIRST_TRACE_FUNCTION)?;
    emitted(alloc, flat, rows, room, Tracing::On(tellers))
}

/// What is found out about a program before its first instruction.
#[derive(Drop)]
struct AnalysisResult {
    reached: Reachable,
    memory: Memory,
    below: SubtypeRanges,
    places: Places,
}

/// What is found out about a program.
fn analysis_of(
    alloc: Global,
    flat: &CfgProgram,
    rows: &ImplementationTable,
    room: u32,
    tracing: Tracing,
) -> Result<AnalysisResult, Failure> {
    let slot_bytes = slot_bytes(slot_words(flat, tracing)?)?;
    let reached = reachable_of(alloc, flat, rows, tracing)?;
    let memory = memory_of(alloc, flat, &reached, slot_bytes, room)?;
    let below = SubtypeRanges::of(alloc, flat)?;
    let places = places_of(alloc, flat, rows, &reached)?;
    Ok(AnalysisResult {
        reached,
        memory,
        below,
        places,
    })
}

/// The module of a program, traced or not. The functions that write trace records are named as those of the runtime.
fn emitted(
    alloc: Global,
    flat: &CfgProgram,
    rows: &ImplementationTable,
    room: u32,
    tracing: Tracing,
) -> Result<Module, Failure>
    ensures { IfOk result (λ made. AreFunctionsOf flat.now.bodies made.funcs) }
{
    let found = analysis_of(alloc, flat, rows, room, tracing)?;
    let mut types = own_types(alloc)?;
    let called = found.reached.runtime.as_slice();
    let runtime = runtime_of(alloc, &mut types, &found.memory, room, tracing, called)?;
    with_runtime(alloc, flat, rows, &found, types, runtime, tracing)
}

/// The module of a program, with the functions of the runtime that it needs, and the types so far.
fn with_runtime(
    alloc: Global,
    flat: &CfgProgram,
    rows: &ImplementationTable,
    found: &AnalysisResult,
    types: Items<FuncTy>,
    runtime: Runtime,
    tracing: Tracing,
) -> Result<Module, Failure>
    ensures { IfOk result (λ made. AreFunctionsOf flat.now.bodies made.funcs) }
{
    let Runtime { funcs, numbers } = runtime;
    let functions = functions_of(alloc, &found.reached, funcs.len())?;
    let program = EmitProgram {
        flat,
        rows,
        texts: found.memory.texts.as_slice(),
        below: &found.below,
        entries: found.memory.entries.as_slice(),
        places: found.places.of.as_slice(),
        runtime: numbers.as_slice(),
        functions: functions.as_slice(),
        tracing: in_module(tracing, numbers.as_slice())?,
    };
    module(
        alloc,
        program,
        &found.reached,
        &found.memory,
        &found.places,
        funcs,
        types,
    )
}

/// The same, with the functions named by the numbers that they have in the module.
fn in_module(tracing: Tracing, numbers: &[Option<u32>]) -> Result<Tracing, Failure> {
    match tracing {
        Tracing::Off => Ok(Tracing::Off),
        Tracing::On(tellers) => {
            let first = known(
                numbers.get(tellers.byte as usize).copied(),
                Invariant::CfgNumber,
            )?;
            Ok(Tracing::On(TraceFunctions::from_first(known(first, Invariant::CfgNumber)?)?))
        }
    }
}
