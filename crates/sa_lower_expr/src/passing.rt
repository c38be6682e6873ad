//! How the arguments of a call are passed. A variable that the call writes is passed itself, and the call copies out into it, unless more
//! has to be done:
//!
//! - what an `out` argument gives has to be boxed, which is an operation after the call;
//! - an argument after an `inout` one writes variables, so that the value of the `inout` argument is copied when it is evaluated.
//!
//! From the first such argument on each written one is passed in a temporary, so that copies out stay in their order.

use crate::context::{Effects, ExprContext};
use crate::copies::OutCopy;
use crate::effects::written_up_to;
use crate::parameters::immutable_parameter;
use crate::simple::copied;
use failure::Failure;
use sa_ast::Mode;
use sa_cfg::CallOperand;
use sa_cfg_builder::{BodyBuilder, ProgramBuilder};
use sa_typed::TypedArg;
use sa_typing::ResolvedCallee;
use sqlite_items::Items;
use std::alloc::Global;

/// The arguments of a call so far.
#[derive(Drop)]
pub(crate) struct LoweredArgs {
    pub args: Items<CallOperand>,
    /// What has to be done after the call, in this order.
    pub copies: Items<OutCopy>,
    /// The index of the first argument from which on the written ones are passed in temporaries.
    temporaries_from: usize,
}

impl LoweredArgs {
    /// No arguments so far, of a call that writes none.
    pub fn of_values(alloc: Global) -> LoweredArgs {
        LoweredArgs {
            args: Items::new(alloc),
            copies: Items::new(alloc),
            temporaries_from: 0,
        }
    }
}

/// No arguments so far, of a call that will have these.
pub(crate) fn none_passed(
    alloc: Global,
    around: &ExprContext<'_>,
    reached: ResolvedCallee,
    args: &[TypedArg],
) -> LoweredArgs {
    LoweredArgs {
        args: Items::new(alloc),
        copies: Items::new(alloc),
        temporaries_from: temporaries_from(around, reached, args),
    }
}

/// The index of the first argument from which on the written ones are passed in temporaries, or the number of arguments.
fn temporaries_from(around: &ExprContext<'_>, reached: ResolvedCallee, args: &[TypedArg]) -> usize {
    if around.variables == Effects::Pure {
        return args.len();
    }
    let written = written_up_to(args);
    for (place, arg) in args.iter().enumerate() {
        if needs_temporary(around, reached, place, arg, written) {
            return place;
        }
    }
    args.len()
}

/// Whether an argument can't be passed as the variable that it names. The evaluation of the first `written` arguments
/// writes variables.
fn needs_temporary(
    around: &ExprContext<'_>,
    reached: ResolvedCallee,
    place: usize,
    arg: &TypedArg,
    written: usize,
) -> bool {
    match arg {
        TypedArg::Variable(Mode::Out, var) => widening(around, reached, place, *var).is_some(),
        TypedArg::Variable(_, _) => place < written,
        TypedArg::Value(_, _) => false,
        TypedArg::Open => false,
    }
}

/// The index of the immutable type whose value, given by an `out` argument, is boxed for the variable, if it is.
fn widening(
    around: &ExprContext<'_>,
    reached: ResolvedCallee,
    place: usize,
    var: u32,
) -> Option<u32> {
    let view = &around.scope.view;
    let own = *around.scope.vars.get(var as usize)?;
    if !view.is_abstract(own) {
        return None;
    }
    immutable_parameter(view, reached, place)
}

/// Passes a value.
pub(crate) fn pass_value(passed: &mut LoweredArgs, mode: Mode, value: u32) -> Result<(), Failure> {
    passed.args.push(CallOperand {
        mode,
        var: Some(value),
    })?;
    Ok(())
}

/// Leaves an argument of a bind open.
pub(crate) fn pass_open(passed: &mut LoweredArgs) -> Result<(), Failure> {
    passed.args.push(CallOperand {
        mode: Mode::In,
        var: None,
    })?;
    Ok(())
}

/// Passes a variable that the call writes.
pub(crate) fn pass_variable(
    around: &ExprContext<'_>,
    draft: &mut ProgramBuilder,
    reached: ResolvedCallee,
    passed: &mut LoweredArgs,
    mode: Mode,
    var: u32,
) -> Result<(), Failure> {
    let place = passed.args.len();
    if place < passed.temporaries_from {
        return pass_value(passed, mode, var);
    }
    let copy = match mode {
        Mode::Out => out_copy(around, draft, reached, place, var)?,
        _ => inout_copy(&mut draft.body, var)?,
    };
    passed.copies.push(copy)?;
    pass_value(passed, mode, copy.from)
}

/// An `out` argument in a temporary.
fn out_copy(
    around: &ExprContext<'_>,
    draft: &mut ProgramBuilder,
    reached: ResolvedCallee,
    place: usize,
    var: u32,
) -> Result<OutCopy, Failure> {
    let widened = widening(around, reached, place, var);
    Ok(OutCopy {
        to: var,
        from: draft.body.temporary()?,
        widened,
    })
}

/// An `inout` argument in a temporary, with the value that the variable has when the argument is evaluated.
fn inout_copy(body: &mut BodyBuilder, var: u32) -> Result<OutCopy, Failure> {
    Ok(OutCopy {
        to: var,
        from: copied(body, var)?,
        widened: None,
    })
}
