//! Calls: the callee is resolved by the types of the arguments, and the arguments are assigned to the types of its parameters.

use crate::const_call::const_call;
use crate::iter::{innermost_loop, is_iter_name, iter_call};
use crate::leaving::LeavingCall;
use crate::passing::{PassedArgs, actual_args, pass_args};
use crate::receiver::Receiver;
use crate::synthesised::{Synthesised, SynthesisedArg, only_argument};
use crate::{
    BodyOutput, CheckContext, CheckTables, CheckedExpr, ChosenFeature, Expected, Resolved,
    bound_callee, bound_name, first_iter, resolve_call,
};
use failure::Failure;
use sa_ast::{ExprReceiver, Name, Pos, Rejection, Rule};
use sa_typed::{TypedCallee, TypedExpr};
use sqlite_items::Boxed;
use std::alloc::Global;

/// A call by name at `pos`, whose receiver and arguments are typed.
#[derive(Drop)]
pub struct Call<'n> {
    pub on: Receiver,
    pub name: &'n [u8],
    pub args: Vec<SynthesisedArg>,
    pub pos: Pos,
}

impl<'n> Call<'n> {
    /// A call with a value as its only argument. It fails only where memory runs out.
    pub fn with_value(
        alloc: Global,
        on: Receiver,
        name: &'n [u8],
        value: Synthesised,
        pos: Pos,
    ) -> Result<Call<'n>, Failure> {
        Ok(Call {
            on,
            name,
            args: only_argument(alloc, value)?,
            pos,
        })
    }
}

/// The head of a call by name, as it is written: the receiver, the name, and its position.
#[derive(Clone, Copy)]
pub struct CallHead<'e> {
    pub on: &'e ExprReceiver,
    pub name: &'e Name,
    pub pos: Pos,
}

/// A call by name that is no variable, with its subexpressions typed. `while!`, `until!` and `break!` give no result, so that as
/// expressions they are refused: E35, E38, E31.
pub fn call_form(
    context: CheckContext<'_>,
    built: &mut BodyOutput,
    head: CallHead<'_>,
    on: Receiver,
    args: Vec<SynthesisedArg>,
    expected: Expected,
) -> Result<CheckedExpr, Rejection> {
    let pos = head.pos;
    if LeavingCall::of_call(head.on, head.name).is_some() {
        innermost_loop(context.place, pos)?;
        return Err(Rule::NoFeatureFits.at(pos).into());
    }
    let name = head.name.as_slice();
    let form = Call {
        on,
        name,
        args,
        pos,
    };
    typed_call(context, built, form, expected)
}

/// A call by name, in a context that expects a result or none. It is refused at its position:
///
/// - E35, E38: an iter call is outside a loop, or a protect is between it and its loop.
/// - E41: the receiver is contextual. E12: the receiver is a class that isn't concrete.
/// - As `resolve_call` refuses, or on a bound value E30 and E31.
/// - E31: a contextual argument has another type than its parameter.
/// - E36, at the first iter call in the receiver or an argument of a `once` parameter of an iter call.
///
/// A contextual argument is refused by its own rules where it isn't assignable to the type of its parameter.
pub fn typed_call(
    context: CheckContext<'_>,
    built: &mut BodyOutput,
    form: Call<'_>,
    expected: Expected,
) -> Result<CheckedExpr, Rejection> {
    if is_iter_name(form.name) {
        return iter_call(context, built, form, expected);
    }
    plain_call(context.view, built, form, expected)
}

/// A call that is no iter call.
fn plain_call(
    view: &CheckTables<'_>,
    built: &mut BodyOutput,
    form: Call<'_>,
    expected: Expected,
) -> Result<CheckedExpr, Rejection> {
    let callee = callee(view, built, &form, expected)?;
    let ChosenFeature {
        resolved: reached,
        params,
        result: ty,
    } = callee;
    let Call {
        on,
        name: _name,
        args,
        pos,
    } = form;
    match reached {
        Resolved::Value(value) => Ok(const_call(built, on, value, ty)),
        Resolved::Called(called) => {
            let passed = pass_args(view, built, args, params.as_slice(), pos)?;
            Ok(called_value(view.alloc, called, on, passed, ty, pos)?)
        }
    }
}

/// The call of a callee, whose result has the type `ty`.
pub(crate) fn called_value(
    alloc: Global,
    called: TypedCallee,
    on: Receiver,
    passed: PassedArgs,
    ty: Option<u32>,
    pos: Pos,
) -> Result<CheckedExpr, Failure> {
    let PassedArgs {
        args,
        iter,
        once: _once,
    } = passed;
    let iter = first_iter(on.iter(), iter);
    let on = Boxed::new(alloc, on.into_expr()?)?;
    Ok(CheckedExpr {
        core: TypedExpr::Call(called, on, args, pos),
        ty,
        iter,
    })
}

/// What a call resolves to, by the types of its receiver and of its arguments. On a bound value E30 where the name isn't that of its kind.
pub(crate) fn callee(
    view: &CheckTables<'_>,
    built: &BodyOutput,
    form: &Call<'_>,
    expected: Expected,
) -> Result<ChosenFeature, Rejection> {
    let pos = form.pos;
    let of = form.on.ty(view, pos)?;
    let seen = actual_args(view, built, form.args.as_slice())?;
    let Some(word) = value_name(view, built, &form.on, of) else {
        return resolve_call(view, of, form.name, seen.as_slice(), expected, pos);
    };
    if form.name != word {
        return Err(Rule::UnknownName.at(pos).into());
    }
    bound_callee(view, built, of, seen.as_slice(), pos, expected)
}

/// The name by which a bound value is called, where the receiver of a call is one.
fn value_name(
    view: &CheckTables<'_>,
    built: &BodyOutput,
    on: &Receiver,
    of: u32,
) -> Option<&'static [u8]> {
    match on {
        Receiver::Value(_, _) => bound_name(view, built, of),
        Receiver::Own | Receiver::Class(_) | Receiver::Untyped => None,
    }
}
