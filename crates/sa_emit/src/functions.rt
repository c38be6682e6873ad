//! The functions of a module: after those of the runtime that of each body that is reached, in order, and `main`.

ghost use Rattle.std.specs.List.{FoldsTo};
ghost use Rattle.std.specs.Prelude.{OnOk};
ghost use Rattle.sa_emit.specs.Tables.{AreFunctionsOf, HoldsNoTable, IsAdded, IsEmitted};

use crate::entry::main_function;
use crate::function::function;
use crate::reachability::Reachable;
use crate::sums::{number, sum};
use crate::verifier::{has_table, have_table};
use failure::{Failure, Invariant, broken};
use sa_cfg::CfgBody;
use sa_templates::{EmitProgram, Role};
use sqlite_items::Items;
use std::alloc::Global;
use wa_syntax::Func;

/// Appends the functions of the bodies that are reached, and `main`, to those of the runtime.
#[tactic(auto, using(crate::proofs::Growing::grown))]
pub(crate) fn emit_functions(
    alloc: Global,
    funcs: &mut Items<Func>,
    program: EmitProgram<'_>,
    reached: &Reachable,
) -> Result<(), Failure>
    ensures { OnOk result (AreFunctionsOf program.entry.flat.now.bodies funcs.new) }
{
    if have_table(funcs.as_slice()) {
        return broken(Invariant::DispatchLeft);
    }
    emit_bodies(
        alloc,
        funcs,
        program.flat.bodies.as_slice(),
        program,
        reached,
    )?;
    emit_main(alloc, funcs, program)?;
    Ok(())
}

/// Appends the function of each body that is reached.
#[tactic(auto, using(crate::proofs::Growing::grown))]
fn emit_bodies(
    alloc: Global,
    funcs: &mut Items<Func>,
    bodies: &[CfgBody],
    program: EmitProgram<'_>,
    reached: &Reachable,
) -> Result<(), Failure>
    ensures { OnOk result (FoldsTo IsEmitted funcs.old bodies.now funcs.new) }
{
    let mut first_site = 0u32;
    for (place, body) in bodies.iter().enumerate() {
        let role = role_of(body, place + 1 == bodies.len());
        let is_reached = reached.bodies.get(place) == Some(&true);
        emit_body(alloc, funcs, program, body, role, is_reached, first_site)?;
        first_site = sum(first_site, body.sites)?;
    }
    Ok(())
}

/// What a body is for.
fn role_of(body: &CfgBody, is_last: bool) -> Role {
    match body.feature {
        _ if is_last => Role::Entry,
        Some(_) => Role::Feature,
        None => Role::Adapter,
    }
}

/// Appends the function of a body, if it is reached. Its first site has this index among all sites of the program.
#[tactic(auto, using(crate::proofs::Growing::grown))]
fn emit_body(
    alloc: Global,
    funcs: &mut Items<Func>,
    program: EmitProgram<'_>,
    body: &CfgBody,
    role: Role,
    is_reached: bool,
    first_site: u32,
) -> Result<(), Failure>
    ensures { OnOk result (IsEmitted funcs.old body.now funcs.new) }
{
    if !is_reached {
        return Ok(());
    }
    let func = function(alloc, program, body, role, first_site)?;
    funcs.push(func)?;
    Ok(())
}

/// Appends `main`.
#[tactic(auto, using(crate::proofs::Growing::grown))]
fn emit_main(
    alloc: Global,
    funcs: &mut Items<Func>,
    program: EmitProgram<'_>,
) -> Result<(), Failure>
    ensures { OnOk result (IsAdded HoldsNoTable funcs.old funcs.new) }
{
    let main = main_function(alloc, last_function(program)?)?;
    if has_table(&main) {
        return broken(Invariant::DispatchLeft);
    }
    funcs.push(main)?;
    Ok(())
}

/// The function of the last body.
fn last_function(program: EmitProgram<'_>) -> Result<u32, Failure> {
    let last = program.flat.bodies.len().saturating_sub(1);
    program.function_of(number(last)?)
}
