//! The adapter of an implementation of a signature: it takes the arguments as the signature has them, calls the implementation with them as
//! that has them, and gives back what the signature gives. Its faults are those of the call that entered it, so its operations report no
//! position.

use crate::adapter_iter::adapter_iter;
use crate::arguments::{Arguments, pass_all, widen_back, widened_value};
use crate::passing::widened_result;
use crate::signatures::{AdapterCall, formals_of};
use failure::{Failure, Invariant, known};
use sa_cfg::{CallOperation, CfgBody, CfgOperation, FaultExit, Terminator};
use sa_cfg_builder::{BodyBuilder, BodyHeader, LoweringContext};
use sa_lower_expr::callee_of;
use sa_typed::Target;
use sa_typing::{ParamType, is_target_iter};
use sqlite_items::Items;
use std::alloc::Global;

/// The adapter of an implementation of a signature.
pub(crate) fn adapter(alloc: Global, implemented: AdapterCall<'_>) -> Result<CfgBody, Failure> {
    let iter = iter_number(implemented);
    let head = head(alloc, iter, implemented.params())?;
    let mut body = BodyBuilder::begin(alloc, head)?;
    if let Some(iter) = iter {
        return adapter_iter(alloc, implemented, iter, &mut body);
    }
    let value = call(alloc, implemented, &mut body)?;
    body.finish(alloc, Terminator::Return { value })
}

/// The header of an adapter, where an iter with this index or something else implements the signature.
fn head(alloc: Global, iter: Option<u32>, params: &[ParamType]) -> Result<BodyHeader, Failure> {
    let formals = formals_of(alloc, params)?;
    let own = known(u32::try_from(formals.len()).ok(), Invariant::CheckedCount)?;
    Ok(BodyHeader {
        feature: None,
        iter: iter.is_some(),
        formals,
        variable_count: own,
        sites: 0,
    })
}

/// The fault exit of an operation that has no position of its own.
pub(crate) fn no_position() -> FaultExit {
    FaultExit {
        place: 0,
        line: 0,
        raised: LoweringContext::of_body().raised,
    }
}

/// The iter that implements the signature, if it is one.
fn iter_number(implemented: AdapterCall<'_>) -> Option<u32> {
    let target = implemented.implementation.target;
    match target {
        Target::Feature(number) if is_target_iter(implemented.view, target) => Some(number),
        _ => None,
    }
}

/// The call with all that is boxed before and after it, and the variable that holds the result of the signature.
fn call(
    alloc: Global,
    implemented: AdapterCall<'_>,
    body: &mut BodyBuilder,
) -> Result<Option<u32>, Failure> {
    let recv = receiver(implemented, body)?;
    let Arguments { args, backs } = pass_all(alloc, implemented, body)?;
    let value = value_of(implemented, body)?;
    body.step(CfgOperation::Call {
        plan: CallOperation {
            callee: callee_of(implemented.implementation.target),
            class: implemented.implementation.ty,
            recv,
            args,
            value,
            fail: no_position(),
        },
    })?;
    let value = widened_value(value, widened_result(implemented), body)?;
    widen_back(backs.as_slice(), body)?;
    Ok(value)
}

/// The variable that holds the receiver, unboxed where its class is immutable.
pub(crate) fn receiver(
    implemented: AdapterCall<'_>,
    body: &mut BodyBuilder,
) -> Result<u32, Failure> {
    let me = body.temporary()?;
    body.step(CfgOperation::SelfRef { to: me })?;
    let ty = implemented.implementation.ty;
    if !implemented.view.is_immutable(ty) {
        return Ok(me);
    }
    let to = body.temporary()?;
    body.step(CfgOperation::Unbox { to, from: me, ty })?;
    Ok(to)
}

/// A variable for what the implementation gives, if it gives anything.
pub(crate) fn value_of(
    implemented: AdapterCall<'_>,
    body: &mut BodyBuilder,
) -> Result<Option<u32>, Failure> {
    match implemented.result() {
        Some(_) => Ok(Some(body.temporary()?)),
        None => Ok(None),
    }
}
