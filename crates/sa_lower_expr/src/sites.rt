//! Calls of iters. A site without an instance starts one, otherwise it resumes its instance. The receiver and the `once` arguments are
//! evaluated on the path of a start alone. The other arguments are evaluated on both paths, at a start after the `once` ones: they are
//! lowered once, in a block where both paths join, since calls of iters may nest in them, and the site is tested again after them.

ghost use Rattle.std.specs.Prelude.{IfOk, IsTrue, is_some};
ghost use Rattle.sa_lower_expr.specs.ExprContext.{IsResult, env_of};

use crate::arguments::is_once;
use crate::call::{Invocation, plan_of, result_of_call};
use crate::context::ExprContext;
use crate::copies::copy_back;
use crate::lowered::LoweredExpr;
use crate::passing::LoweredArgs;
use failure::Failure;
use sa_cfg::{CallOperation, Terminator};
use sa_cfg_builder::{BodyBuilder, ProgramBuilder};
use sa_typed::TypedArg;
use std::alloc::Global;

/// A site whose call is being lowered.
#[derive(Clone, Copy)]
pub(crate) struct SiteBlocks {
    number: u32,
    /// The block in which an instance is resumed, where the site has one.
    again: u32,
    /// The block after the call, where the value is there.
    following: u32,
    /// The blocks for arguments that are evaluated at each call, where there are such arguments.
    others: Option<PerCallArgs>,
}

/// The blocks of a site with arguments that are evaluated at each call.
#[derive(Clone, Copy)]
struct PerCallArgs {
    /// The block in which they are evaluated.
    joined: u32,
    /// The block after them in which an instance is started.
    starting: u32,
}

/// Tests whether the site has an instance, and opens the block in which the receiver and the `once` arguments of a start are evaluated.
pub(crate) fn begin_site(
    alloc: Global,
    body: &mut BodyBuilder,
    number: u32,
    args: &[TypedArg],
) -> Result<SiteBlocks, Failure> {
    let fresh = body.block(alloc)?;
    let site = SiteBlocks {
        number,
        again: body.block(alloc)?,
        following: body.block(alloc)?,
        others: others_of(alloc, body, args)?,
    };
    body.test_site(alloc, number, fresh, resumed_in(site))?;
    Ok(site)
}

/// The blocks for arguments that are evaluated at each call, where there are such arguments.
fn others_of(
    alloc: Global,
    body: &mut BodyBuilder,
    args: &[TypedArg],
) -> Result<Option<PerCallArgs>, Failure> {
    if !has_others(args) {
        return Ok(None);
    }
    Ok(Some(PerCallArgs {
        joined: body.block(alloc)?,
        starting: body.block(alloc)?,
    }))
}

/// Whether an argument is evaluated at each call.
fn has_others(args: &[TypedArg]) -> bool {
    for arg in args {
        if !is_once(arg) {
            return true;
        }
    }
    false
}

/// The block in which the call goes on where the site has an instance.
fn resumed_in(site: SiteBlocks) -> u32 {
    match site.others {
        Some(others) => others.joined,
        None => site.again,
    }
}

/// Opens the block of the arguments that are evaluated at each call, where there are such arguments.
pub(crate) fn begin_others(
    alloc: Global,
    body: &mut BodyBuilder,
    site: SiteBlocks,
) -> Result<(), Failure> {
    let Some(others) = site.others else {
        return Ok(());
    };
    body.end(alloc, Terminator::Jump(others.joined), others.joined)
}

/// Starts or resumes the instance of the site, and gives the value that it has yielded. Where the instance ends, the loop of the site is
/// left, and nothing is copied out.
pub(crate) fn end_site(
    alloc: Global,
    around: &ExprContext<'_>,
    draft: &mut ProgramBuilder,
    site: SiteBlocks,
    invocation: Invocation,
    passed: LoweredArgs,
) -> Result<LoweredExpr, Failure>
    requires { IsTrue (is_some around.now.inside.now.innermost) }
    ensures { IfOk result (IsResult (env_of around.now).rows invocation.reached) }
{
    end_others(alloc, &mut draft.body, site)?;
    let placed = result_of_call(&around.scope.view, &mut draft.body, invocation.reached)?;
    let plan = plan_of(around, &draft.tables, invocation, passed.args, placed.var)?;
    let fail = plan.fail;
    let left = around.inside.after();
    start(alloc, &mut draft.body, site, plan.copy(alloc)?, left)?;
    resume(alloc, &mut draft.body, site, plan, left)?;
    copy_back(&mut draft.body, passed.copies.as_slice(), fail)?;
    Ok(placed)
}

/// Tests again whether the site has an instance, after the arguments that are evaluated at each call.
fn end_others(alloc: Global, body: &mut BodyBuilder, site: SiteBlocks) -> Result<(), Failure> {
    let Some(others) = site.others else {
        return Ok(());
    };
    body.test_site(alloc, site.number, others.starting, site.again)
}

/// Starts an instance, and opens the block in which an instance is resumed. Where the instance ends it goes on in `left`.
fn start(
    alloc: Global,
    body: &mut BodyBuilder,
    site: SiteBlocks,
    plan: CallOperation,
    left: u32,
) -> Result<(), Failure> {
    body.start(alloc, site.number, plan, left)?;
    body.end(alloc, Terminator::Jump(site.following), site.again)
}

/// Resumes the instance, and opens the block after the call. Where the instance ends it goes on in `left`.
fn resume(
    alloc: Global,
    body: &mut BodyBuilder,
    site: SiteBlocks,
    plan: CallOperation,
    left: u32,
) -> Result<(), Failure> {
    body.resume(alloc, site.number, plan, left)?;
    body.end(alloc, Terminator::Jump(site.following), site.following)
}
