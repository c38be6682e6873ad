//! Lowers a whole typed program to control-flow graphs.

ghost use Rattle.std.specs.Prelude.{◌≡◌, IfOk, OnOk};
ghost use Rattle.sa_typing.specs.Rows.{rows};
ghost use Rattle.sa_typing.specs.WellTyped.{IsWellTyped, rows_of};

use crate::features::feature_bodies;
use crate::lines::line_numbers;
use crate::run::run_body;
use crate::targets::targets;
use failure::Failure;
use sa_ast::Pos;
use sa_cfg::{CfgProgram, TypeLayout};
use sa_cfg_builder::{ProgramBuilder, Tables};
use sa_typed::{TypeDef, TypedProgram, TypedShared};
use sa_typing::{CallTypes, TypingView};
use sqlite_items::Items;
use std::alloc::Global;

/// The control-flow graphs of a program that is well typed, which has these positions.
///
/// # Errors
///
/// A `Failure`: `Broken` where a position is in none of its texts.
pub fn lower(
    alloc: Global,
    core: &TypedProgram,
    positions: Items<Pos>,
) -> Result<CfgProgram, Failure>
    requires { IsWellTyped core.now }
    ensures positions { IfOk result (λ flat. flat.positions ≡ positions) }
{
    let mut program = empty(alloc, positions);
    add_tables(alloc, core, &mut program)?;
    let positions = program.positions.as_slice();
    let lines = line_numbers(alloc, core.newlines.as_slice(), positions)?;
    let tables = Tables::new(alloc, positions, lines.as_slice())?;
    let mut draft = ProgramBuilder::new(alloc, tables);
    let shapes = CallTypes::of(alloc, core)?;
    add_bodies(alloc, core, &shapes.view(core), &mut draft, &mut program)?;
    let ProgramBuilder { tables, .. } = draft;
    let Tables { texts, binds, .. } = tables;
    program.texts = texts.in_order(alloc)?;
    program.binds = binds;
    Ok(program)
}

/// Adds the bodies to a program, and the targets of its signatures.
#[tactic(auto, using(crate::proofs::Parts::parts))]
fn add_bodies(
    alloc: Global,
    core: &TypedProgram,
    view: &TypingView<'_>,
    draft: &mut ProgramBuilder,
    program: &mut CfgProgram,
) -> Result<(), Failure>
    requires well { IsWellTyped core.now }
    requires rows { rows view.now ≡ rows_of core.now }
    ensures positions { OnOk result (program.new.positions ≡ program.old.positions) }
{
    program.bodies = feature_bodies(alloc, view, draft)?;
    program.targets = targets(alloc, view, &mut program.bodies)?;
    let run = run_body(alloc, view, core.main, draft)?;
    program.bodies.push(run)?;
    Ok(())
}

/// Adds to a program what the typed one says of its types and shareds.
fn add_tables(alloc: Global, core: &TypedProgram, program: &mut CfgProgram) -> Result<(), Failure>
    ensures positions { OnOk result (program.new.positions ≡ program.old.positions) }
{
    program.types = slots(alloc, core.types.as_slice())?;
    program.layouts = layouts(alloc, core.types.as_slice())?;
    program.shareds = shared_types(alloc, core.shareds.as_slice())?;
    Ok(())
}

/// A program with these positions and nothing else.
fn empty(alloc: Global, positions: Items<Pos>) -> CfgProgram
    ensures { result.positions ≡ positions }
{
    CfgProgram {
        bodies: Items::new(alloc),
        texts: Items::new(alloc),
        positions,
        types: Items::new(alloc),
        targets: Items::new(alloc),
        layouts: Items::new(alloc),
        shareds: Items::new(alloc),
        binds: Items::new(alloc),
    }
}

/// How many attributes each type has.
fn slots(alloc: Global, types: &[TypeDef]) -> Result<Items<u32>, Failure> {
    let mut slots = Items::new(alloc);
    for info in types {
        slots.push(info.slots)?;
    }
    Ok(slots)
}

/// The layout of each type.
fn layouts(alloc: Global, types: &[TypeDef]) -> Result<Items<TypeLayout>, Failure> {
    let mut layouts = Items::new(alloc);
    for info in types {
        layouts.push(TypeLayout {
            kind: info.kind,
            attrs: Items::from_slice(alloc, info.attrs.as_slice())?,
            array: info.array,
            elem: info.elem,
            above: Items::from_slice(alloc, info.above.as_slice())?,
        })?;
    }
    Ok(layouts)
}

/// The index of the type of each shared.
fn shared_types(alloc: Global, shareds: &[TypedShared]) -> Result<Items<u32>, Failure> {
    let mut types = Items::new(alloc);
    for shared in shareds {
        types.push(shared.ty)?;
    }
    Ok(types)
}
