//! Loops: each round spends a turn, and each exit of a loop ends the instances that belong to it.

ghost use Rattle.std.specs.Prelude.{◌≡◌, IfOk};
ghost use Rattle.sa_lower.specs.TypedStatements.{AreWellTypedStmts, env_of, stmt_context};
ghost use Rattle.sa_cfg_builder.specs.Contexts.{context_of};
ghost use Rattle.sa_typing.specs.Contexts.{in_loop};

use crate::context::StmtContext;
use crate::stmts::stmts;
use failure::Failure;
use sa_cfg::{CfgOperation, Handler, Terminator};
use sa_cfg_builder::{BodyBuilder, LoopExits, LoweringContext, ProgramBuilder};
use sa_typed::TypedStmt;
use std::alloc::Global;

/// A loop by its index: the block in which each round begins, the block after the loop, and the blocks that end its instances, where it has
/// sites.
#[derive(Clone, Copy)]
struct LoopBlocks {
    number: u32,
    head: u32,
    after: u32,
    ending: Option<ReleaseBlocks>,
}

/// The blocks that end the instances of a loop: where the loop is left, where the body is left, and where a raise leaves the
/// loop.
#[derive(Clone, Copy)]
struct ReleaseBlocks {
    breaking: u32,
    leaving: u32,
    raising: u32,
}

/// A loop with this index.
#[cycle(stmts)]
pub(crate) fn loop_stmt(
    alloc: Global,
    around: &StmtContext<'_>,
    draft: &mut ProgramBuilder,
    number: u32,
    list: &[TypedStmt],
) -> Result<(), Failure>
    requires { AreWellTypedStmts (env_of around.now) (in_loop number (stmt_context around.now)) list.now }
{
    let blocks = begin_loop(alloc, around, &mut draft.body, number)?;
    let inside = around.with(inside_loop(around.inside, blocks));
    stmts(alloc, &inside, draft, list)?;
    end_loop(alloc, around, &mut draft.body, blocks)
}

/// Opens the block in which each round of a loop begins.
fn begin_loop(
    alloc: Global,
    around: &StmtContext<'_>,
    body: &mut BodyBuilder,
    number: u32,
) -> Result<LoopBlocks, Failure>
    ensures { IfOk result (λ blocks. blocks.number ≡ number) }
{
    let head = body.block(alloc)?;
    let after = body.block(alloc)?;
    let ending = if around.sites.has(number) {
        Some(ending_blocks(alloc, body)?)
    } else {
        None
    };
    body.end(alloc, Terminator::Jump(head), head)?;
    body.step(CfgOperation::Turn)?;
    Ok(LoopBlocks {
        number,
        head,
        after,
        ending,
    })
}

/// The blocks that end the instances of a loop.
fn ending_blocks(alloc: Global, body: &mut BodyBuilder) -> Result<ReleaseBlocks, Failure> {
    Ok(ReleaseBlocks {
        breaking: body.block(alloc)?,
        leaving: body.block(alloc)?,
        raising: body.block(alloc)?,
    })
}

/// The context of the statements of a loop. What leaves a loop with sites ends their instances first; a loop without sites leaves the body
/// as the loop around it does. The variables of a raise stay those of the raise around the loop.
fn inside_loop(around: LoweringContext, blocks: LoopBlocks) -> LoweringContext
    ensures { context_of result ≡ in_loop blocks.number (context_of around) }
{
    let Some(ending) = blocks.ending else {
        return LoweringContext {
            innermost: Some(LoopExits {
                number: blocks.number,
                after: blocks.after,
                out: around.out(),
            }),
            guarded: false,
            ..around
        };
    };
    LoweringContext {
        raised: Handler {
            block: ending.raising,
            ..around.raised
        },
        innermost: Some(LoopExits {
            number: blocks.number,
            after: ending.breaking,
            out: Some(ending.leaving),
        }),
        guarded: false,
        ..around
    }
}

/// Ends the round, and opens the block after the loop.
fn end_loop(
    alloc: Global,
    around: &StmtContext<'_>,
    body: &mut BodyBuilder,
    blocks: LoopBlocks,
) -> Result<(), Failure> {
    let Some(ending) = blocks.ending else {
        return body.end(alloc, Terminator::Jump(blocks.head), blocks.after);
    };
    body.end(alloc, Terminator::Jump(blocks.head), ending.breaking)?;
    end_instances(alloc, around, body, blocks, ending)
}

/// The blocks that end the instances of a loop, the first of which is open. The block after the loop is open then.
fn end_instances(
    alloc: Global,
    around: &StmtContext<'_>,
    body: &mut BodyBuilder,
    blocks: LoopBlocks,
    ending: ReleaseBlocks,
) -> Result<(), Failure> {
    let sites = around.sites.of_loop(blocks.number);
    body.release(alloc, sites)?;
    body.end(alloc, Terminator::Jump(blocks.after), ending.leaving)?;
    body.release(alloc, sites)?;
    body.end(alloc, leaving_exit(around), ending.raising)?;
    body.release(alloc, sites)?;
    let raised = around.inside.raised;
    body.end(alloc, Terminator::Jump(raised.block), blocks.after)
}

/// The terminator by which the body is left from a loop once its instances have ended: it goes on to the loops around, or leaves at once.
fn leaving_exit(around: &StmtContext<'_>) -> Terminator {
    if let Some(out) = around.inside.out() {
        return Terminator::Jump(out);
    }
    if around.scope.iter {
        return Terminator::Quit;
    }
    let value = match around.scope.gives {
        Some(_) => Some(returned()),
        None => None,
    };
    Terminator::Return { value }
}

/// The variable that holds the value of a `return` while the instances of loops are ended. It is one of those of a raise that
/// leaves the body: no raise begins before the body is left.
pub(crate) fn returned() -> u32 {
    LoweringContext::of_body().raised.value
}
