//! `protect`: a raise in its statements goes to the first branch whose type is a supertype of the raised object's class, otherwise to the
//! statements after `else`, and where there are none on to the handler around it. A raise in a branch goes to the handler around the
//! protect.

ghost use Rattle.std.specs.Prelude.{◌≡◌, All};
ghost use Rattle.sa_lower.specs.TypedStatements.{AreWellTypedStmts, IsBranch, env_of, stmt_context};
ghost use Rattle.sa_cfg_builder.specs.Contexts.{context_of};
ghost use Rattle.sa_typing.specs.Builtins.{ob_type};
ghost use Rattle.sa_typing.specs.Contexts.{guarded, in_branch};

use crate::context::StmtContext;
use crate::stmts::stmts;
use failure::{Failure, Invariant, known};
use sa_cfg::{CfgOperation, Handler, Terminator};
use sa_cfg_builder::{BodyBuilder, CaughtException, ClassTest, LoweringContext, ProgramBuilder};
use sa_typed::{TypedArm, TypedStmt};
use sa_typing::{OB, TypingView};
use sqlite_items::Items;
use std::alloc::Global;

/// A protect: the handler of raises in its statements, the variable that holds the exception in its branches, the first temporary of the
/// statements inside it, and the block after it.
#[derive(Clone, Copy)]
pub(crate) struct Protect {
    raised: Handler,
    exception: u32,
    first_temporary: u32,
    after: u32,
}

impl Protect {
    /// The context of the statements that the protect guards.
    fn guarded(&self, around: LoweringContext) -> LoweringContext
        ensures { context_of result ≡ guarded (context_of around) }
    {
        LoweringContext {
            raised: self.raised,
            ..self.following(around)
        }
    }

    /// The context of the block to which the raises of these statements go: that of the protect, whose variables no statement inside it
    /// uses as temporaries.
    fn following(&self, around: LoweringContext) -> LoweringContext
        ensures { context_of result ≡ guarded (context_of around) }
    {
        LoweringContext {
            guarded: true,
            protected: true,
            first_temporary: self.first_temporary,
            ..around
        }
    }

    /// The context of the statements of a branch of this type.
    fn branch(&self, around: LoweringContext, ty: u32) -> LoweringContext
        ensures { context_of result ≡ in_branch ty (guarded (context_of around)) }
    {
        LoweringContext {
            exception: Some(CaughtException {
                var: self.exception,
                ty,
            }),
            ..self.following(around)
        }
    }
}

/// The statements that a protect guards. The block to which their raises go is open afterwards.
#[cycle(stmts)]
pub(crate) fn guarded(
    alloc: Global,
    around: &StmtContext<'_>,
    draft: &mut ProgramBuilder,
    list: &[TypedStmt],
) -> Result<Protect, Failure>
    requires { AreWellTypedStmts (env_of around.now) (guarded (stmt_context around.now)) list.now }
{
    let protect = begin_protect(alloc, around, &mut draft.body)?;
    let inside = around.with(protect.guarded(around.inside));
    stmts(alloc, &inside, draft, list)?;
    let exit = Terminator::Jump(protect.after);
    draft.body.end(alloc, exit, protect.raised.block)?;
    Ok(protect)
}

/// The variables of a protect, the three of a raise in its statements and the one of the exception in its branches, and its
/// blocks.
fn begin_protect(
    alloc: Global,
    around: &StmtContext<'_>,
    body: &mut BodyBuilder,
) -> Result<Protect, Failure> {
    let value = around.inside.first_temporary;
    let place = known(value.checked_add(1), Invariant::CheckedCount)?;
    let kind = known(place.checked_add(1), Invariant::CheckedCount)?;
    let exception = known(kind.checked_add(1), Invariant::CheckedCount)?;
    let first_temporary = known(exception.checked_add(1), Invariant::CheckedCount)?;
    body.use_up_to(first_temporary);
    let raised = Handler {
        block: body.block(alloc)?,
        value,
        place,
        kind,
    };
    Ok(Protect {
        raised,
        exception,
        first_temporary,
        after: body.block(alloc)?,
    })
}

/// Dispatches to the branch of a raised object, and gives the block in which the statements of each branch begin. The block that is open
/// afterwards is the one where no branch fits.
pub(crate) fn choose_arm(
    alloc: Global,
    around: &StmtContext<'_>,
    body: &mut BodyBuilder,
    protect: &Protect,
    list: &[TypedArm],
) -> Result<Items<u32>, Failure> {
    let mut blocks = Items::new(alloc);
    let mut arms = Items::new(alloc);
    for arm in list {
        let block = body.block(alloc)?;
        blocks.push(block)?;
        arms.push(ClassTest { ty: arm.ty, block })?;
    }
    let rest = body.block(alloc)?;
    let inside = protect.following(around.inside);
    let value = protect.raised.value;
    body.choose_arm(alloc, &inside, value, arms.as_slice(), rest)?;
    Ok(blocks)
}

/// The statements after `else`.
#[cycle(stmts)]
pub(crate) fn other_stmts(
    alloc: Global,
    around: &StmtContext<'_>,
    draft: &mut ProgramBuilder,
    protect: &Protect,
    list: &[TypedStmt],
) -> Result<(), Failure>
    requires { AreWellTypedStmts (env_of around.now) (in_branch ob_type (guarded (stmt_context around.now))) list.now }
{
    let from = protect.raised.value;
    draft.body.move_to(protect.exception, from)?;
    let inside = around.with(protect.branch(around.inside, OB));
    stmts(alloc, &inside, draft, list)
}

/// A protect without `else`: where no branch fits the raise goes on to the handler around the protect.
pub(crate) fn forward_raise(
    alloc: Global,
    around: &StmtContext<'_>,
    body: &mut BodyBuilder,
    protect: &Protect,
) -> Result<(), Failure> {
    body.forward_raise(alloc, protect.raised, around.inside.raised)
}

/// The branches in order, each in its block. The block after the protect is open afterwards.
#[cycle(stmts)]
pub(crate) fn protect_arms(
    alloc: Global,
    around: &StmtContext<'_>,
    draft: &mut ProgramBuilder,
    protect: &Protect,
    list: &[TypedArm],
    blocks: &[u32],
) -> Result<(), Failure>
    requires { All (IsBranch (env_of around.now) (guarded (stmt_context around.now))) list.now }
{
    for (arm, block) in list.iter().zip(blocks.iter()) {
        protect_arm(alloc, around, draft, protect, arm, *block)?;
    }
    let exit = Terminator::Jump(protect.after);
    draft.body.end(alloc, exit, protect.after)
}

/// A branch in its block.
#[cycle(stmts)]
fn protect_arm(
    alloc: Global,
    around: &StmtContext<'_>,
    draft: &mut ProgramBuilder,
    protect: &Protect,
    arm: &TypedArm,
    block: u32,
) -> Result<(), Failure>
    requires { IsBranch (env_of around.now) (guarded (stmt_context around.now)) arm.now }
{
    let exit = Terminator::Jump(protect.after);
    draft.body.end(alloc, exit, block)?;
    take_exception(&around.scope.view, &mut draft.body, protect, arm.ty)?;
    let inside = around.with(protect.branch(around.inside, arm.ty));
    stmts(alloc, &inside, draft, arm.body.as_slice())
}

/// Copies the raised object into the variable of the exception, as a branch of this type has it.
fn take_exception(
    view: &TypingView<'_>,
    body: &mut BodyBuilder,
    protect: &Protect,
    ty: u32,
) -> Result<(), Failure> {
    let to = protect.exception;
    let from = protect.raised.value;
    if view.is_immutable(ty) {
        return body.step(CfgOperation::Unbox { to, from, ty });
    }
    body.move_to(to, from)
}
