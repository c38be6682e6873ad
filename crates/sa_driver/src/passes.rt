//! The passes from the texts of a program to the bytes of its module. Each takes what the passes before it gave. `in` names the file of
//! this crate that calls a pass, where it isn't this one.
//!
//! | pass | gives | what is proved of it: clauses, by the definition |
//! |---|---|---|
//! | `parse_program`, in `compiler` | `ParsedFiles` | the classes that the texts spell: `classes`, `only`, `refused`, by `IsProgramOf` |
//! | `weave`, in `accepted`, with `--contracts` | `WovenProgram` | the checks that contracts ask for: `classes`, by `woven_classes` |
//! | `flatten`, in `classes` | `FlatClass` | what is written stays, nothing conflicts: `flattened`, `apart`, by `AreFlattened`, `IsApart` |
//! | `SubtypeRelation::make` | `SubtypeRelation` | the subtypes of the classes: `subtypes`, `refused`, by `AreSubtypesOf`, `RefusesEdges` |
//! | `Instances::instantiate` | `Instances` | it is safe and ends |
//! | `Signatures::make`, `check_conformance` | `Signatures`, `ConformingMember` | they are safe and end |
//! | `ConstTable::make` | `ConstTable` | it is safe and ends |
//! | `check_bodies` | `TypedProgram` | it is safe and ends |
//! | `is_well_typed`, in `module` | `bool` | whether the typed AST is well typed, exactly: `IsWellTyped` |
//! | `positions`, `sites` | `Items<Pos>` | those of the typed AST, in their order: `program_positions`, `program_sites` |
//! | `lower` | `CfgProgram` | of a well-typed AST; it has these positions: `positions` |
//! | `implementation_table` | `ImplementationTable` | the implementation for each class: `tables_of` |
//! | `emitted` | `Module` | which functions there are: `tables` of `emit` and `emit_traced`, by `AreFunctionsOf` |
//! | `encode` | `Vec<u8>` | the one shortest spelling of the module: `shortest`, by `SpellsModule` |
//! | `tried` | `BuiltModule` | its bytes spell it, it can be run, and it is confined: `tried`, `confined`, by `IsVerified`, `IsConfined` |

ghost use Rattle.std.specs.Prelude.{IfOk};
ghost use Rattle.sa_driver.specs.Built.{IsNumbered, IsVerified};
ghost use Rattle.sa_correctness.specs.Confined.{IsConfined};
ghost use Rattle.sa_typing.specs.WellTyped.{IsWellTyped};

use crate::module::{BuiltModule, emitted, sites, tried};
use failure::{Failure, limit};
use sa_ast::{FlatClass, Rejection};
use sa_cfg::CfgProgram;
use sa_check::{Diagnostics, check_bodies};
use sa_cli::Trace;
use sa_conformance::{Signatures, check_conformance};
use sa_constants::ConstTable;
use sa_dispatch::implementation_table;
use sa_instantiate::Instances;
use sa_lower::lower;
use sa_subtypes::SubtypeRelation;
use sa_typed::{TypedProgram, positions};
use sqlite_items::Items;
use std::alloc::Global;
use wa_encode::encode;

/// The typed AST of classes without includes. It lacks the features that are refused, where more than the first refusal is looked for.
pub(crate) fn typed_program(
    alloc: Global,
    flat: &FlatClass,
    texts: &[Items<u8>],
    refused: &mut Diagnostics,
) -> Result<TypedProgram, Rejection> {
    let subtypes = SubtypeRelation::make(alloc, flat)?;
    let instances = Instances::instantiate(alloc, flat, &subtypes)?;
    let sigs = Signatures::make(alloc, &instances)?;
    let impls = check_conformance(alloc, &instances, &sigs)?;
    let consts = ConstTable::make(alloc, &instances)?;
    let impls = impls.as_slice();
    check_bodies(alloc, &instances, &sigs, impls, &consts, texts, refused)
}

/// The module of a typed AST that is well typed.
pub(crate) fn module_of_well_typed(
    alloc: Global,
    core: TypedProgram,
    room: u32,
    trace: Trace,
) -> Result<BuiltModule, Failure>
    requires well { IsWellTyped core }
    ensures tried { IfOk result IsVerified }
    ensures confined { IfOk result (λ built. IsConfined room built.«module») }
    ensures numbered { IfOk result (IsNumbered core) }
{
    let positions = positions(alloc, &core)?;
    let sites = sites(alloc, core.features.as_slice())?;
    let flat = lower(alloc, &core, positions)?;
    let rows = implementation_table(alloc, &core)?;
    drop(core);
    let module = emitted(alloc, &flat, &rows, room, trace)?;
    let CfgProgram { positions, .. } = flat;
    match encode(alloc, &module) {
        Ok(bytes) if bytes.len() < u32::MAX as usize => tried(alloc, bytes, room, positions, sites),
        _ => limit(),
    }
}
