//! The children of a form, typed from left to right before the form itself. Of a contextual form only the children are typed here: it waits
//! for the type that its context expects (`Synthesised`).

use crate::rows::type_expr;
use failure::{Invariant, known};
use sa_ast::{Expr, ExprArg, Mode, Pos, Rejection, Rule, Ty};
use sa_check_calls::{
    BodyOutput, CheckContext, CheckTables, Expected, Synthesised, SynthesisedArg, Variable,
    position, variable_named, written_type,
};

/// Types an expression without the type that its context expects: of a contextual one only the children. The context expects a result.
#[cycle(typed)]
pub fn synthesise(
    context: CheckContext<'_>,
    built: &mut BodyOutput,
    e: &Expr,
) -> Result<Synthesised, Rejection> {
    match e {
        Expr::Void(pos) => Ok(Synthesised::Void(*pos)),
        Expr::Create(None, args, pos) => {
            let args = arguments(context, built, args.as_slice(), ArgContext::Call)?;
            Ok(Synthesised::Create(args, *pos))
        }
        Expr::Items(items, pos) => {
            let items = synthesise_all(context, built, items.as_slice())?;
            Ok(Synthesised::Items(items, *pos))
        }
        _ => {
            let value = type_expr(context, built, e, Expected::Value)?;
            Ok(Synthesised::Typed(value, position(e)))
        }
    }
}

/// Types expressions from left to right, as `synthesise` does each of them.
#[cycle(typed)]
pub fn synthesise_all(
    context: CheckContext<'_>,
    built: &mut BodyOutput,
    list: &[Expr],
) -> Result<Vec<Synthesised>, Rejection> {
    let mut all = Vec::new(context.view.alloc);
    for e in list {
        all.push(synthesise(context, built, e)?)?;
    }
    Ok(all)
}

/// The form to which arguments belong. A bind may leave some of them open.
#[derive(Clone, Copy, PartialEq, Eq)]
pub(crate) enum ArgContext {
    Call,
    BindHead,
}

/// Types arguments from left to right.
#[cycle(typed)]
pub(crate) fn arguments(
    context: CheckContext<'_>,
    built: &mut BodyOutput,
    args: &[ExprArg],
    given_to: ArgContext,
) -> Result<Vec<SynthesisedArg>, Rejection> {
    let mut all = Vec::new(context.view.alloc);
    for given in args {
        all.push(argument(context, built, given, given_to)?)?;
    }
    Ok(all)
}

/// Types an argument. Refused at the argument:
///
/// - E45: it is left open outside the head of a bind.
/// - E39: the call writes it, and it names no variable. Refusals in its subexpressions come first.
/// - E42: the call writes it, and it is the variable of a typecase in one of its branches.
#[cycle(typed)]
fn argument(
    context: CheckContext<'_>,
    built: &mut BodyOutput,
    given: &ExprArg,
    given_to: ArgContext,
) -> Result<SynthesisedArg, Rejection> {
    match given {
        ExprArg::Unbound(ty, pos) => open_argument(context.view, ty, *pos, given_to),
        ExprArg::Value(Mode::In | Mode::Once, e) => {
            let value = synthesise(context, built, e)?;
            Ok(SynthesisedArg::Value(value))
        }
        ExprArg::Value(mode, e) => {
            if let Some(variable) = variable_named(context.place, e) {
                return written_argument(*mode, variable, position(e));
            }
            let _inside = synthesise(context, built, e)?;
            Err(Rule::NotAssignable.at(position(e)).into())
        }
    }
}

/// A variable that a call writes.
fn written_argument(mode: Mode, variable: Variable, pos: Pos) -> Result<SynthesisedArg, Rejection> {
    if variable.narrowed {
        return Err(Rule::TypecaseVariable.at(pos).into());
    }
    Ok(SynthesisedArg::Variable(mode, variable))
}

/// An argument that a bind leaves open: `_`, and `_:T` with its type.
fn open_argument(
    view: &CheckTables<'_>,
    ty: &Option<Ty>,
    pos: Pos,
    given_to: ArgContext,
) -> Result<SynthesisedArg, Rejection> {
    if given_to == ArgContext::Call {
        return Err(Rule::BadBind.at(pos).into());
    }
    match ty {
        None => Ok(SynthesisedArg::Open(None)),
        Some(ty) => Ok(SynthesisedArg::Open(Some(known(
            written_type(view, ty),
            Invariant::CheckedNumber,
        )?))),
    }
}
