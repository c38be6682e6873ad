//! The types of the forms of expressions, by the types of their operands.

ghost use Rattle.std.specs.Prelude.{◌≡◌};
ghost use Rattle.sa_typing.specs.Forms.{type_of_array, callee_of_bind, callee_of_call, type_of_connective, elements_type, type_of_exception};
ghost use Rattle.sa_typing.specs.Forms.{has_bound_type, is_comparison, is_test, type_of_object, plain_if, result_if, site_called, type_of_reversed};
ghost use Rattle.sa_typing.specs.Forms.{takes_first, type_of_test, value_fits, is_assignable_type, variable_fits, type_of_variable, type_of_void};
ghost use Rattle.sa_typing.specs.Forms.{type_of_boxed};
ghost use Rattle.sa_typing.specs.Contexts.{env};
ghost use Rattle.sa_typing.specs.Rows.{rows};

use crate::binds::{is_bindable, is_bound_alike};
use crate::builtins::{BOOL, INT};
use crate::callee::{is_iter, reached, result_type};
use crate::context::{TypingContext, TypingEnv};
use crate::expr_type::{ExprType, ParamType, ResolvedCallee, agree, is_count, is_just};
use crate::passing::{takes_value, takes_variable};
use crate::targets::{is_target_iter, target_arity, target_parameter, target_result};
use crate::view::{TypingView, call_type_at};
use sa_ast::Mode;
use sa_typed::{Target, TypedCallee};

/// A value of a type, where a test is true.
pub(crate) fn plain_if(ty: u32, test: bool) -> Option<ExprType>
    ensures { result ≡ plain_if ty test }
{
    if test { Some(ExprType::Of(ty)) } else { None }
}

/// The void value of a type.
pub(crate) fn type_of_void(view: &TypingView<'_>, ty: u32) -> Option<ExprType>
    ensures { result ≡ type_of_void (rows view.now) ty }
{
    if view.is_type(ty) {
        Some(ExprType::Of(ty))
    } else {
        None
    }
}

/// The value of a variable.
pub(crate) fn type_of_variable(scope: &TypingEnv<'_>, var: u32) -> Option<ExprType>
    ensures { result ≡ type_of_variable (env scope.now) var }
{
    match scope.vars.get(var as usize) {
        Some(ty) => Some(ExprType::Of(*ty)),
        None => None,
    }
}

/// `exception`, in a branch of a protect.
pub(crate) fn type_of_exception(at: TypingContext) -> Option<ExprType>
    ensures { result ≡ type_of_exception at }
{
    match at.branch {
        Some(ty) => Some(ExprType::Of(ty)),
        None => None,
    }
}

/// A test whether a value is void.
pub(crate) fn type_of_test(of: ExprType) -> Option<ExprType>
    ensures { result ≡ type_of_test of }
{
    if of.is_value() {
        Some(ExprType::Of(BOOL))
    } else {
        None
    }
}

/// A new object.
pub(crate) fn type_of_object(view: &TypingView<'_>, ty: u32) -> Option<ExprType>
    ensures { result ≡ type_of_object (rows view.now) ty }
{
    if view.has_objects(ty) && !view.has_array(ty) {
        Some(ExprType::Of(ty))
    } else {
        None
    }
}

/// A new object with an array part, by the type of its length.
pub(crate) fn type_of_array(view: &TypingView<'_>, ty: u32, size: ExprType) -> Option<ExprType>
    ensures { result ≡ type_of_array (rows view.now) ty size }
{
    if size.is_plain(INT) && view.has_objects(ty) && view.has_array(ty) {
        Some(ExprType::Of(ty))
    } else {
        None
    }
}

/// The number of the type of the elements of an array literal.
pub(crate) fn elements_type(view: &TypingView<'_>, ty: u32) -> Option<u32>
    ensures { result ≡ elements_type (rows view.now) ty }
{
    if view.has_objects(ty) && view.has_array(ty) {
        view.element_of(ty)
    } else {
        None
    }
}

/// The callee of a call, where it is an iter, or where it isn't.
pub(crate) fn callee_of_call(
    view: &TypingView<'_>,
    called: TypedCallee,
    on: ExprType,
    iter: bool,
) -> Option<ResolvedCallee>
    ensures { result ≡ callee_of_call (rows view.now) called on iter }
{
    let found = reached(view, called, on)?;
    if agree(is_iter(view, found), iter) {
        Some(found)
    } else {
        None
    }
}

/// The callee of a site of the innermost loop.
pub(crate) fn site_called(
    scope: &TypingEnv<'_>,
    at: TypingContext,
    site: u32,
) -> Option<TypedCallee>
    ensures { result ≡ site_called (env scope.now) at site }
{
    let site = *scope.sites.get(site as usize)?;
    if at.is_in_loop(site.owner) {
        Some(site.called)
    } else {
        None
    }
}

/// The type of a call, where its arguments fit.
pub(crate) fn result_if(
    view: &TypingView<'_>,
    reached: ResolvedCallee,
    fits: bool,
) -> Option<ExprType>
    ensures { result ≡ result_if (rows view.now) reached fits }
{
    if fits {
        Some(ExprType::of_result(result_type(view, reached)))
    } else {
        None
    }
}

/// Whether a parameter takes an expression of this type.
pub(crate) fn value_fits(
    view: &TypingView<'_>,
    param: Option<ParamType>,
    mode: Mode,
    given: Option<ExprType>,
) -> bool
    ensures { result ≡ value_fits (rows view.now) param mode given }
{
    match (param, given) {
        (Some(param), Some(given)) => takes_value(view, param, mode, given),
        _ => false,
    }
}

/// Whether a parameter takes a variable.
pub(crate) fn variable_fits(
    scope: &TypingEnv<'_>,
    param: Option<ParamType>,
    mode: Mode,
    var: u32,
) -> bool
    ensures { result ≡ variable_fits (env scope.now) param mode var }
{
    match (param, scope.vars.get(var as usize)) {
        (Some(param), Some(ty)) => takes_variable(&scope.view, param, mode, *ty),
        _ => false,
    }
}

/// The callee of a bind whose value has this bound type.
pub(crate) fn callee_of_bind(
    view: &TypingView<'_>,
    called: TypedCallee,
    on: ExprType,
    ty: u32,
) -> Option<ResolvedCallee>
    ensures { result ≡ callee_of_bind (rows view.now) called on ty }
{
    let found = reached(view, called, on)?;
    if is_bindable(called) && has_bound_type(view, ty, found) {
        Some(found)
    } else {
        None
    }
}

/// Whether a bound type is that of the callee, but for its parameters.
fn has_bound_type(view: &TypingView<'_>, ty: u32, found: ResolvedCallee) -> bool
    ensures { result ≡ has_bound_type (rows view.now) ty found }
{
    match call_type_at(view.bound, ty as usize) {
        Some(shape) => is_bound_alike(view, shape, found),
        None => false,
    }
}

/// A comparison that is called on the second of two operands, with the first as its argument.
pub(crate) fn type_of_reversed(
    view: &TypingView<'_>,
    target: Target,
    first: ExprType,
    second: ExprType,
) -> Option<ExprType>
    ensures { result ≡ type_of_reversed (rows view.now) target first second }
{
    match second {
        ExprType::Of(class) => {
            if is_comparison(view, class, target, first) {
                Some(ExprType::Of(BOOL))
            } else {
                None
            }
        }
        ExprType::NoValue | ExprType::BoxedOf(_) => None,
    }
}

/// Whether a target of a class is a routine that takes one argument, of this type, and gives a BOOL.
fn is_comparison(view: &TypingView<'_>, class: u32, target: Target, given: ExprType) -> bool
    ensures { result ≡ is_comparison (rows view.now) class target given }
{
    is_count(1, target_arity(view, class, target))
        && !is_target_iter(view, target)
        && takes_first(view, target_parameter(view, class, target, 0), given)
        && is_just(BOOL, target_result(view, class, target))
}

/// Whether a parameter takes a value by its own mode.
fn takes_first(view: &TypingView<'_>, param: Option<ParamType>, given: ExprType) -> bool
    ensures { result ≡ takes_first (rows view.now) param given }
{
    match param {
        Some(param) => takes_value(view, param, param.mode, given),
        None => false,
    }
}

/// `and` and `or`
pub(crate) fn type_of_connective(first: ExprType, second: ExprType) -> Option<ExprType>
    ensures { result ≡ type_of_connective first second }
{
    if first.is_plain(BOOL) && second.is_plain(BOOL) {
        Some(ExprType::Of(BOOL))
    } else {
        None
    }
}

/// A value of an immutable class, boxed.
pub(crate) fn type_of_boxed(view: &TypingView<'_>, ty: u32, of: ExprType) -> Option<ExprType>
    ensures { result ≡ type_of_boxed (rows view.now) ty of }
{
    if of.is_plain(ty) && view.is_immutable(ty) {
        Some(ExprType::BoxedOf(ty))
    } else {
        None
    }
}

/// Whether an expression of this type is assignable to a type.
pub(crate) fn is_assignable_type(view: &TypingView<'_>, ty: u32, given: Option<ExprType>) -> bool
    ensures { result ≡ is_assignable_type (rows view.now) ty given }
{
    match given {
        Some(given) => view.is_assignable(given, ty),
        None => false,
    }
}

/// Whether an expression of this type is a BOOL.
pub(crate) fn is_test(given: Option<ExprType>) -> bool
    ensures { result ≡ is_test given }
{
    match given {
        Some(given) => given.is_plain(BOOL),
        None => false,
    }
}
