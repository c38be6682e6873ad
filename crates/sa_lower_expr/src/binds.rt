//! Binds: the receiver and the given arguments are stored in a bound value. The value of an immutable class that is given at a bind of a
//! signature is boxed where the implementation that the receiver chooses takes it at an abstract type, so that a call of the bound value
//! finds it as it has to be.

ghost use Rattle.sa_lower_expr.specs.ExprContext.{IsThere, env_of};

use crate::call::{Invocation, plan_of};
use crate::context::ExprContext;
use crate::parameters::{immutable_parameter, takes_abstract};
use crate::passing::LoweredArgs;
use failure::Failure;
use sa_cfg::{CallOperand, CfgOperation, FaultExit};
use sa_cfg_builder::{BodyBuilder, ProgramBuilder};
use sa_typed::TypedImplementation;
use sa_typing::{ResolvedCallee, TypingView};
use sqlite_items::Items;
use std::alloc::Global;

/// A bound value of the type with the index `ty`.
pub(crate) fn bind(
    alloc: Global,
    around: &ExprContext<'_>,
    draft: &mut ProgramBuilder,
    invocation: Invocation,
    passed: LoweredArgs,
    ty: u32,
) -> Result<u32, Failure>
    requires { IsThere (env_of around.now).rows invocation.reached }
{
    let args = kept(alloc, around, draft, invocation, passed.args)?;
    let value = draft.body.temporary()?;
    let plan = plan_of(around, &draft.tables, invocation, args, Some(value))?;
    draft.bind(alloc, plan, ty)?;
    Ok(value)
}

/// The arguments as the bound value stores them. Only a bind of a signature boxes.
fn kept(
    alloc: Global,
    around: &ExprContext<'_>,
    draft: &mut ProgramBuilder,
    invocation: Invocation,
    args: Items<CallOperand>,
) -> Result<Items<CallOperand>, Failure>
    requires { IsThere (env_of around.now).rows invocation.reached }
{
    let ResolvedCallee::Signature(signature) = invocation.reached else {
        return Ok(args);
    };
    let view = &around.scope.view;
    let chosen = SignatureBind {
        view,
        signature: invocation.reached,
        implementations: view.signatures[signature as usize].impls.as_slice(),
        recv: invocation.recv,
        fail: draft.tables.fail(invocation.pos, around.inside.raised)?,
    };
    kept_for(alloc, draft, chosen, args.as_slice())
}

/// A bind of a signature, whose implementation the receiver chooses, and where its faults go.
#[derive(Clone, Copy)]
struct SignatureBind<'a> {
    view: &'a TypingView<'a>,
    signature: ResolvedCallee,
    implementations: &'a [TypedImplementation],
    recv: u32,
    fail: FaultExit,
}

/// The arguments as they are stored for what the receiver chooses.
fn kept_for(
    alloc: Global,
    draft: &mut ProgramBuilder,
    chosen: SignatureBind<'_>,
    args: &[CallOperand],
) -> Result<Items<CallOperand>, Failure> {
    let mut kept = Items::new(alloc);
    for (place, arg) in args.iter().enumerate() {
        let var = kept_value(alloc, draft, chosen, place, arg.var)?;
        kept.push(CallOperand {
            mode: arg.mode,
            var,
        })?;
    }
    Ok(kept)
}

/// The variable that holds what is stored of an argument, if it is given.
fn kept_value(
    alloc: Global,
    draft: &mut ProgramBuilder,
    chosen: SignatureBind<'_>,
    place: usize,
    given: Option<u32>,
) -> Result<Option<u32>, Failure> {
    let Some(from) = given else {
        return Ok(None);
    };
    let Some(ty) = immutable_parameter(chosen.view, chosen.signature, place) else {
        return Ok(given);
    };
    let types = takers(alloc, chosen, place)?;
    if types.is_empty() {
        return Ok(given);
    }
    Ok(Some(widened_for(&mut draft.body, chosen, from, ty, types)?))
}

/// The indices of the types, rising, whose implementations take the argument at this index at an abstract type.
fn takers(alloc: Global, chosen: SignatureBind<'_>, place: usize) -> Result<Items<u32>, Failure> {
    let mut types = Items::new(alloc);
    for implementation in chosen.implementations {
        if takes_abstract(chosen.view, implementation, place) {
            types.push(implementation.ty)?;
        }
    }
    Ok(types)
}

/// A value of the immutable class `ty`, boxed where the receiver is of one of the types.
fn widened_for(
    body: &mut BodyBuilder,
    chosen: SignatureBind<'_>,
    from: u32,
    ty: u32,
    types: Items<u32>,
) -> Result<u32, Failure> {
    let to = body.temporary()?;
    body.step(CfgOperation::BoxFor {
        to,
        from,
        ty,
        recv: chosen.recv,
        types,
        fail: chosen.fail,
    })?;
    Ok(to)
}
