//! `typecase`: the first arm whose type is a supertype of the class of a variable's value. Where the variable's own type is immutable its
//! value has that class, so the arm is known and lowered alone.

ghost use Rattle.std.specs.Prelude.{◌<◌, All, length};
ghost use Rattle.sa_lower.specs.TypedStatements.{IsArm, env_of, stmt_context};

use crate::context::StmtContext;
use crate::stmts::stmts;
use failure::Failure;
use sa_ast::{FaultKind, Pos};
use sa_cfg::{CfgOperation, Terminator};
use sa_cfg_builder::{BodyBuilder, ClassTest, LoweringContext, ProgramBuilder};
use sa_typed::TypedArm;
use std::alloc::Global;

/// The arms of a `typecase`. The block where none of them fits is open afterwards, and the result is the block after the typecase; or None
/// where the arm is known, and the block after it is open.
#[cycle(stmts)]
pub(crate) fn typecase_arms(
    alloc: Global,
    around: &StmtContext<'_>,
    draft: &mut ProgramBuilder,
    var: u32,
    arms: &[TypedArm],
) -> Result<Option<u32>, Failure>
    requires variable { var < length around.now.scope.now.vars.now }
    requires arms { All (IsArm (env_of around.now) (stmt_context around.now)) arms.now }
{
    let ty = around.scope.vars[var as usize];
    if around.scope.view.is_immutable(ty) {
        return known_arm(alloc, around, draft, var, ty, arms);
    }
    let after = draft.body.block(alloc)?;
    tested_arms(alloc, around, draft, var, arms, after)?;
    Ok(Some(after))
}

/// The first arm whose type is a supertype of an immutable type.
#[cycle(stmts)]
fn known_arm(
    alloc: Global,
    around: &StmtContext<'_>,
    draft: &mut ProgramBuilder,
    var: u32,
    ty: u32,
    arms: &[TypedArm],
) -> Result<Option<u32>, Failure>
    requires { All (IsArm (env_of around.now) (stmt_context around.now)) arms.now }
{
    for arm in arms {
        if around.scope.view.is_supertype(arm.ty, ty) {
            draft.body.move_to(arm.var, var)?;
            stmts(alloc, around, draft, arm.body.as_slice())?;
            return Ok(None);
        }
    }
    Ok(Some(draft.body.block(alloc)?))
}

/// The arms in order, each with the test of its type.
#[cycle(stmts)]
fn tested_arms(
    alloc: Global,
    around: &StmtContext<'_>,
    draft: &mut ProgramBuilder,
    var: u32,
    arms: &[TypedArm],
    after: u32,
) -> Result<(), Failure>
    requires { All (IsArm (env_of around.now) (stmt_context around.now)) arms.now }
{
    for arm in arms {
        tested_arm(alloc, around, draft, var, arm, after)?;
    }
    Ok(())
}

/// An arm with the test of its type.
#[cycle(stmts)]
fn tested_arm(
    alloc: Global,
    around: &StmtContext<'_>,
    draft: &mut ProgramBuilder,
    var: u32,
    arm: &TypedArm,
    after: u32,
) -> Result<(), Failure>
    requires { IsArm (env_of around.now) (stmt_context around.now) arm.now }
{
    let next = arm_test(alloc, &around.inside, &mut draft.body, var, arm.ty)?;
    take_arm(around, &mut draft.body, var, arm)?;
    stmts(alloc, around, draft, arm.body.as_slice())?;
    draft.body.end(alloc, Terminator::Jump(after), next)
}

/// Tests the class of a variable's value. The block where it fits is open afterwards; the result is the one where it doesn't.
fn arm_test(
    alloc: Global,
    inside: &LoweringContext,
    body: &mut BodyBuilder,
    var: u32,
    ty: u32,
) -> Result<u32, Failure> {
    let fits = body.block(alloc)?;
    let next = body.block(alloc)?;
    let exit = body.test_class(inside, var, ClassTest { ty, block: fits }, next)?;
    body.end(alloc, exit, fits)?;
    Ok(next)
}

/// Copies the tested value into the variable of an arm.
fn take_arm(
    around: &StmtContext<'_>,
    body: &mut BodyBuilder,
    var: u32,
    arm: &TypedArm,
) -> Result<(), Failure> {
    if around.scope.view.is_immutable(arm.ty) {
        return body.step(CfgOperation::Unbox {
            to: arm.var,
            from: var,
            ty: arm.ty,
        });
    }
    body.move_to(arm.var, var)
}

/// A typecase without `else`: where no arm fits it is a fault.
pub(crate) fn no_arm_fits(
    alloc: Global,
    around: &StmtContext<'_>,
    draft: &mut ProgramBuilder,
    pos: Pos,
    after: u32,
) -> Result<(), Failure> {
    let fail = draft.tables.fail(pos, around.inside.raised)?;
    let exit = Terminator::Fault {
        kind: FaultKind::NoBranch,
        fail,
    };
    draft.body.end(alloc, exit, after)
}
