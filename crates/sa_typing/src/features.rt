//! Whether features and shareds are well typed, and what the program runs.

ghost use Rattle.std.specs.Prelude.{◌≡◌, IfOk, count_by};
ghost use Rattle.std.specs.List.{list_all};
ghost use Rattle.sa_typed.specs.Copy.{option_expr_of, stmt_of};
ghost use Rattle.sa_typing.specs.Features.{are_types, ends_in_stop, ends_well, feature_env, has_well_header, has_types};
ghost use Rattle.sa_typing.specs.Features.{is_concrete_class, is_out};
ghost use Rattle.sa_typing.specs.Features.{is_status, is_stop, is_type_or_none, main_fits, shared_env, starts_well, well_feature};
ghost use Rattle.sa_typing.specs.Features.{well_main};
ghost use Rattle.sa_typing.specs.Features.{well_shared, within_limits};
ghost use Rattle.sa_typing.specs.Contexts.{env};
ghost use Rattle.sa_typing.specs.Rows.{rows};

use crate::builtins::INT;
use crate::context::{TypingContext, TypingEnv};
use crate::expr::is_assignable_expr;
use crate::sites::sites_agree;
use crate::stmt::well_stmts;
use crate::view::{TypingView, call_type_at, is_abstract_kind};
use failure::Failure;
use sa_ast::Mode;
use sa_typed::{TypedExpr, TypedFeature, TypedShared, TypedStmt};
use std::alloc::Global;

/// How many variables a feature has at most, parameters among them.
const MOST_VARIABLES: usize = 200;

/// How many `out` and `inout` parameters a feature has at most.
const MOST_OUT: usize = 16;

/// Whether all features are well typed.
#[tactic(auto, using(crate::proofs::Listed::all))]
pub(crate) fn well_features(alloc: Global, view: &TypingView<'_>) -> Result<bool, Failure>
    ensures { IfOk result (λ well. well ≡ list_all (well_feature (rows view.now)) view.now.features.now) }
{
    for feature in view.features {
        if !well_feature(alloc, view, feature)? {
            return Ok(false);
        }
    }
    Ok(true)
}

/// Whether a feature is well typed.
fn well_feature(
    alloc: Global,
    view: &TypingView<'_>,
    feature: &TypedFeature,
) -> Result<bool, Failure>
    ensures { IfOk result (λ well. well ≡ well_feature (rows view.now) feature.now) }
{
    if !has_well_header(view, feature) {
        return Ok(false);
    }
    let scope = env_of(view, feature);
    if !well_stmts(&scope, TypingContext::outside(), feature.body.as_slice()) {
        return Ok(false);
    }
    sites_agree(alloc, &scope, feature.body.as_slice())
}

/// Whether the types, the limits and the end of a feature are right.
fn has_well_header(view: &TypingView<'_>, feature: &TypedFeature) -> bool
    ensures { result ≡ has_well_header (rows view.now) feature.now }
{
    has_types(view, feature) && within_limits(feature) && ends_well(feature)
}

/// The environment of a feature's body.
pub fn env_of<'a>(view: &TypingView<'a>, feature: &'a TypedFeature) -> TypingEnv<'a>
    ensures env { env result ≡ feature_env (rows view.now) feature.now }
    ensures sites { result.sites.now ≡ feature.now.sites }
{
    TypingEnv {
        view: *view,
        class: feature.class,
        vars: feature.vars.as_slice(),
        sites: feature.sites.as_slice(),
        iter: feature.iter,
        gives: feature.result,
    }
}

/// Whether the types of a feature are types of the program, its class is a concrete one, and its parameters are variables.
fn has_types(view: &TypingView<'_>, feature: &TypedFeature) -> bool
    ensures { result ≡ has_types (rows view.now) feature.now }
{
    is_concrete_class(view, feature.class)
        && are_types(view, feature.vars.as_slice())
        && is_type_or_none(view, feature.result)
        && feature.modes.len() <= feature.vars.len()
}

/// Whether a type is a concrete class: neither an abstract nor a bound type.
pub(crate) fn is_concrete_class(view: &TypingView<'_>, ty: u32) -> bool
    ensures { result ≡ is_concrete_class (rows view.now) ty }
{
    match view.types.get(ty as usize) {
        Some(info) => {
            !is_abstract_kind(info.kind) && call_type_at(view.bound, ty as usize).is_none()
        }
        None => false,
    }
}

/// Whether these are numbers of types.
#[tactic(auto, using(crate::proofs::Listed::all))]
pub(crate) fn are_types(view: &TypingView<'_>, list: &[u32]) -> bool
    ensures { result ≡ are_types (rows view.now) list.now }
{
    for ty in list {
        if !view.is_type(*ty) {
            return false;
        }
    }
    true
}

/// Whether it is the number of a type, where there is one.
pub(crate) fn is_type_or_none(view: &TypingView<'_>, ty: Option<u32>) -> bool
    ensures { result ≡ is_type_or_none (rows view.now) ty }
{
    match ty {
        Some(ty) => view.is_type(ty),
        None => true,
    }
}

/// Whether a feature has no more variables and no more `out` arguments than it may have.
fn within_limits(feature: &TypedFeature) -> bool
    ensures { result ≡ within_limits feature.now }
{
    feature.vars.len() <= MOST_VARIABLES && out_arguments(feature.modes.as_slice()) <= MOST_OUT
}

/// How many of these parameters are `out` or `inout`.
#[tactic(auto, using(crate::proofs::Counted::counts))]
fn out_arguments(modes: &[Mode]) -> usize
    ensures { result ≡ count_by is_out modes.now }
{
    let mut count = 0usize;
    for mode in modes {
        if is_out(*mode) {
            count += 1;
        }
    }
    count
}

fn is_out(mode: Mode) -> bool
    ensures { result ≡ is_out mode }
{
    matches!(mode, Mode::Out | Mode::Inout)
}

/// Whether execution never reaches the end of a routine with a result: its last statement is a fault.
fn ends_well(feature: &TypedFeature) -> bool
    ensures { result ≡ ends_well feature.now }
{
    feature.iter || feature.result.is_none() || ends_in_stop(feature.body.as_slice())
}

/// Whether the last statement is a fault.
#[tactic(auto, using(crate::proofs::Listed::last))]
fn ends_in_stop(body: &[TypedStmt]) -> bool
    ensures { result ≡ ends_in_stop body.now }
{
    if body.is_empty() {
        return false;
    }
    is_stop(&body[body.len() - 1])
}

#[tactic(auto, using(sa_typed::proofs::Copies::copies))]
fn is_stop(stmt: &TypedStmt) -> bool
    ensures { result ≡ is_stop (stmt_of stmt.now) }
{
    match stmt {
        TypedStmt::Fault(_, _) => true,
        TypedStmt::Assign(_, _)
        | TypedStmt::ExprStmt(_)
        | TypedStmt::If(_, _)
        | TypedStmt::Loop(_, _)
        | TypedStmt::ExitLoop(_)
        | TypedStmt::TypeCase(_, _, _, _)
        | TypedStmt::Protect(_, _, _)
        | TypedStmt::Return(_)
        | TypedStmt::Yield(_)
        | TypedStmt::Quit
        | TypedStmt::Raise(_, _) => false,
    }
}

/// Whether all shareds are well typed.
#[tactic(auto, using(crate::proofs::Listed::all))]
pub(crate) fn well_shareds(view: &TypingView<'_>) -> bool
    ensures { result ≡ list_all (well_shared (rows view.now)) view.now.shareds.now }
{
    for shared in view.shareds {
        if !well_shared(view, shared) {
            return false;
        }
    }
    true
}

/// Whether a shared is well typed.
fn well_shared(view: &TypingView<'_>, shared: &TypedShared) -> bool
    ensures { result ≡ well_shared (rows view.now) shared.now }
{
    view.is_type(shared.ty)
        && is_concrete_class(view, shared.class)
        && starts_well(view, shared.class, shared.ty, &shared.start)
}

/// The environment of the initialiser of a shared of this class.
pub fn env_of_initialiser<'a>(view: &TypingView<'a>, class: u32) -> TypingEnv<'a>
    ensures { env result ≡ shared_env (rows view.now) class }
{
    TypingEnv {
        view: *view,
        class,
        vars: &[],
        sites: &[],
        iter: false,
        gives: None,
    }
}

/// Whether the initialiser of a shared of this class and this type, if it has one, is of the type.
fn starts_well(view: &TypingView<'_>, class: u32, ty: u32, start: &Option<TypedExpr>) -> bool
    ensures { result ≡ starts_well (rows view.now) class ty (option_expr_of start.now) }
{
    let scope = env_of_initialiser(view, class);
    match start {
        Some(value) => is_assignable_expr(&scope, TypingContext::outside(), ty, value),
        None => true,
    }
}

/// Whether what the program runs is a routine of a reference class without arguments, and gives an INT or nothing.
pub(crate) fn well_main(view: &TypingView<'_>, main: u32) -> bool
    ensures { result ≡ well_main (rows view.now) main }
{
    match view.features.get(main as usize) {
        Some(feature) => main_fits(view, feature),
        None => false,
    }
}

fn main_fits(view: &TypingView<'_>, feature: &TypedFeature) -> bool
    ensures { result ≡ main_fits (rows view.now) feature.now }
{
    !feature.iter
        && feature.modes.is_empty()
        && is_status(feature.result)
        && view.is_reference(feature.class)
}

fn is_status(ty: Option<u32>) -> bool
    ensures { result ≡ is_status ty }
{
    match ty {
        Some(ty) => ty == INT,
        None => true,
    }
}
