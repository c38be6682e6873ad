//! The type of an expression, where it is well typed.

ghost use Rattle.std.specs.Prelude.{◌≡◌};
ghost use Rattle.sa_typed.specs.Copy.{arg_of, args_of, expr_of, exprs_of};
ghost use Rattle.sa_typing.specs.Expressions.{are_assignable, arg_fits, bound_arg_fits, args_fit, is_assignable_expr, is_open, bound_args_fit};
ghost use Rattle.sa_typing.specs.Expressions.{type_of_expr};
ghost use Rattle.sa_typing.specs.Contexts.{env};

use crate::binds::is_open_alike;
use crate::builtins::{BOOL, CHAR, INT, STR};
use crate::callee::{arity, parameter};
use crate::context::{TypingContext, TypingEnv};
use crate::expr_type::{ExprType, ParamType, ResolvedCallee, is_count};
use crate::forms::{
    callee_of_bind, callee_of_call, elements_type, is_assignable_type, plain_if, result_if,
    site_called, type_of_array, type_of_boxed, type_of_connective, type_of_exception,
    type_of_object, type_of_reversed, type_of_test, type_of_variable, type_of_void, value_fits,
    variable_fits,
};
use sa_typed::{TypedArg, TypedExpr};

/// The type of an expression, or `None` where it isn't well typed in its context.
#[tactic(auto, using(sa_typed::proofs::Copies::copies))]
#[cycle(type_of)]
pub(crate) fn type_of_expr(
    scope: &TypingEnv<'_>,
    at: TypingContext,
    e: &TypedExpr,
) -> Option<ExprType>
    ensures { result ≡ type_of_expr (env scope.now) at (expr_of e.now) }
{
    match e {
        TypedExpr::Int(_) => Some(ExprType::Of(INT)),
        TypedExpr::Bool(_) => Some(ExprType::Of(BOOL)),
        TypedExpr::Char(_) => Some(ExprType::Of(CHAR)),
        TypedExpr::Text(_) => Some(ExprType::Of(STR)),
        TypedExpr::VoidValue(ty) => type_of_void(&scope.view, *ty),
        TypedExpr::SelfRef => Some(ExprType::Of(scope.class)),
        TypedExpr::Var(var) => type_of_variable(scope, *var),
        TypedExpr::Exception => type_of_exception(at),
        TypedExpr::IsVoid(of) => type_of_test(type_of_expr(scope, at, of.get())?),
        TypedExpr::New(ty, _) => type_of_object(&scope.view, *ty),
        TypedExpr::NewArray(ty, size, _) => {
            type_of_array(&scope.view, *ty, type_of_expr(scope, at, size.get())?)
        }
        TypedExpr::Array(ty, elements, _) => {
            let element = elements_type(&scope.view, *ty)?;
            plain_if(*ty, are_assignable(scope, at, element, elements.as_slice()))
        }
        TypedExpr::Call(called, on, args, _) => {
            let on = type_of_expr(scope, at, on.get())?;
            let reached = callee_of_call(&scope.view, *called, on, false)?;
            result_if(
                &scope.view,
                reached,
                args_fit(scope, at, reached, args.as_slice()),
            )
        }
        TypedExpr::IterCall(site, on, args, _) => {
            let called = site_called(scope, at, *site)?;
            let on = type_of_expr(scope, at, on.get())?;
            let reached = callee_of_call(&scope.view, called, on, true)?;
            result_if(
                &scope.view,
                reached,
                args_fit(scope, at, reached, args.as_slice()),
            )
        }
        TypedExpr::Bind(called, on, args, ty, _) => {
            let on = type_of_expr(scope, at, on.get())?;
            let reached = callee_of_bind(&scope.view, *called, on, *ty)?;
            let bound = ResolvedCallee::Bound(*ty);
            plain_if(
                *ty,
                bound_args_fit(scope, at, reached, bound, args.as_slice()),
            )
        }
        TypedExpr::Reversed(target, first, second, _) => {
            let first = type_of_expr(scope, at, first.get())?;
            let second = type_of_expr(scope, at, second.get())?;
            type_of_reversed(&scope.view, *target, first, second)
        }
        TypedExpr::And(first, second) | TypedExpr::Or(first, second) => {
            let first = type_of_expr(scope, at, first.get())?;
            let second = type_of_expr(scope, at, second.get())?;
            type_of_connective(first, second)
        }
        TypedExpr::Box(ty, of, _) => {
            type_of_boxed(&scope.view, *ty, type_of_expr(scope, at, of.get())?)
        }
    }
}

/// Whether a call has as many arguments as its callee has parameters, and each parameter takes its argument.
#[tactic(auto, using(crate::proofs::Arguments::arguments))]
#[cycle(type_of)]
fn args_fit(
    scope: &TypingEnv<'_>,
    at: TypingContext,
    reached: ResolvedCallee,
    args: &[TypedArg],
) -> bool
    ensures { result ≡ args_fit (env scope.now) at reached 0 (args_of args.now) }
{
    for (place, arg) in args.iter().enumerate() {
        if !arg_fits(scope, at, parameter(&scope.view, reached, place), arg) {
            return false;
        }
    }
    is_count(args.len(), arity(&scope.view, reached))
}

/// Whether a parameter takes an argument.
#[tactic(auto, using(sa_typed::proofs::Copies::copies))]
#[cycle(type_of)]
fn arg_fits(
    scope: &TypingEnv<'_>,
    at: TypingContext,
    param: Option<ParamType>,
    arg: &TypedArg,
) -> bool
    ensures { result ≡ arg_fits (env scope.now) at param (arg_of arg.now) }
{
    match arg {
        TypedArg::Value(mode, value) => {
            value_fits(&scope.view, param, *mode, type_of_expr(scope, at, value))
        }
        TypedArg::Variable(mode, var) => variable_fits(scope, param, *mode, *var),
        TypedArg::Open => false,
    }
}

/// Whether a bind has as many arguments as its callee has parameters, each parameter takes its argument, and those that are left open are
/// the parameters of the bound value, in order.
#[tactic(auto, using(crate::proofs::Arguments::arguments))]
#[cycle(type_of)]
fn bound_args_fit(
    scope: &TypingEnv<'_>,
    at: TypingContext,
    reached: ResolvedCallee,
    bound: ResolvedCallee,
    args: &[TypedArg],
) -> bool
    ensures { result ≡ bound_args_fit (env scope.now) at reached bound 0 0 (args_of args.now) }
{
    let mut next = 0usize;
    for (place, arg) in args.iter().enumerate() {
        let param = parameter(&scope.view, reached, place);
        if !bound_arg_fits(scope, at, param, parameter(&scope.view, bound, next), arg) {
            return false;
        }
        if is_open(arg) {
            next += 1;
        }
    }
    is_count(args.len(), arity(&scope.view, reached)) && is_count(next, arity(&scope.view, bound))
}

/// Whether a parameter takes an argument of a bind; or, where the argument is left open, is the next parameter of the bound value.
#[tactic(auto, using(sa_typed::proofs::Copies::copies))]
#[cycle(type_of)]
fn bound_arg_fits(
    scope: &TypingEnv<'_>,
    at: TypingContext,
    param: Option<ParamType>,
    next: Option<ParamType>,
    arg: &TypedArg,
) -> bool
    ensures { result ≡ bound_arg_fits (env scope.now) at param next (arg_of arg.now) }
{
    match arg {
        TypedArg::Value(mode, value) => {
            value_fits(&scope.view, param, *mode, type_of_expr(scope, at, value))
        }
        TypedArg::Open => is_open_alike(param, next),
        TypedArg::Variable(_, _) => false,
    }
}

/// Whether an argument is left open.
#[tactic(auto, using(sa_typed::proofs::Copies::copies))]
fn is_open(arg: &TypedArg) -> bool
    ensures { result ≡ is_open (arg_of arg.now) }
{
    match arg {
        TypedArg::Open => true,
        TypedArg::Value(_, _) | TypedArg::Variable(_, _) => false,
    }
}

/// Whether each of these expressions is assignable to a type.
#[tactic(auto, using(crate::proofs::Arguments::arguments))]
#[cycle(type_of)]
fn are_assignable(scope: &TypingEnv<'_>, at: TypingContext, ty: u32, list: &[TypedExpr]) -> bool
    ensures { result ≡ are_assignable (env scope.now) at ty (exprs_of list.now) }
{
    for e in list {
        if !is_assignable_type(&scope.view, ty, type_of_expr(scope, at, e)) {
            return false;
        }
    }
    true
}

/// Whether an expression is assignable to a type.
pub(crate) fn is_assignable_expr(
    scope: &TypingEnv<'_>,
    at: TypingContext,
    ty: u32,
    e: &TypedExpr,
) -> bool
    ensures { result ≡ is_assignable_expr (env scope.now) at ty (expr_of e.now) }
{
    is_assignable_type(&scope.view, ty, type_of_expr(scope, at, e))
}
