//! Whether the signatures of abstract types have their implementations: one for each concrete subtype.

ghost use Rattle.std.specs.Prelude.{◌≡◌, IfSome, None};
ghost use Rattle.sa_typing.specs.Rows.{rows, call_type_at};
ghost use Rattle.sa_typing.specs.Signatures.{IsCount, all_implement, are_implementations, is_implementation, is_lower, lower_count};
ghost use Rattle.sa_typing.specs.Signatures.{param_conforms, params_conform, result_conforms, rise_from, type_conforms, well_signature};
ghost use Rattle.sa_typing.specs.Signatures.{well_signatures};
ghost use Rattle.sa_typing.specs.Targets.{target_parameter};
ghost use Rattle.sa_typing.specs.Types.{is_after};

use crate::call_type::CallType;
use crate::expr_type::{ParamType, agree, is_count, is_same_mode};
use crate::features::is_concrete_class;
use crate::targets::{is_target_iter, target_arity, target_parameter, target_result};
use crate::types::is_after;
use crate::view::{TypingView, call_type_at, has_supertype, is_abstract_kind};
use sa_ast::Mode;
use sa_typed::{TypeDef, TypedImplementation, TypedSignature};

/// A type, and how many concrete subtypes it has.
#[derive(Clone, Copy)]
struct Lowers {
    ty: u32,
    count: usize,
}

/// Whether all signatures have their implementations.
#[tactic(auto, using(crate::proofs::Listed::signatures))]
pub(crate) fn well_signatures(view: &TypingView<'_>) -> bool
    ensures { result ≡ well_signatures (rows view.now) 0 view.now.signatures.now }
{
    let mut last = None;
    for (number, signature) in view.signatures.iter().enumerate() {
        let lowers = lowers_of(view, last, signature.ty);
        if !well_signature(view, number, lowers.count, signature) {
            return false;
        }
        last = Some(lowers);
    }
    true
}

/// How many concrete subtypes a type has, where the number is known of another one, perhaps the same.
fn lowers_of(view: &TypingView<'_>, last: Option<Lowers>, ty: u32) -> Lowers
    requires { IfSome last (IsCount (rows view.now)) }
    ensures ty { result.ty ≡ ty }
    ensures count { IsCount (rows view.now) result }
{
    match last {
        Some(last) => {
            if last.ty == ty {
                last
            } else {
                counted(view, ty)
            }
        }
        None => counted(view, ty),
    }
}

fn counted(view: &TypingView<'_>, ty: u32) -> Lowers
    ensures ty { result.ty ≡ ty }
    ensures count { IsCount (rows view.now) result }
{
    Lowers {
        ty,
        count: lower_count(view, ty),
    }
}

/// How many concrete subtypes a type has.
#[tactic(auto, using(crate::proofs::Counted::counts))]
fn lower_count(view: &TypingView<'_>, ty: u32) -> usize
    ensures { result ≡ lower_count (rows view.now) ty }
{
    let mut count = 0usize;
    for info in view.types {
        if is_lower(ty, info) {
            count += 1;
        }
    }
    count
}

/// Whether a type is a concrete subtype of another.
fn is_lower(ty: u32, info: &TypeDef) -> bool
    ensures { result ≡ is_lower ty info.now }
{
    !is_abstract_kind(info.kind) && has_supertype(ty, info)
}

/// Whether a signature of an abstract type with this many concrete subtypes has as many implementations, each by one of them, and in
/// ascending order of their numbers.
fn well_signature(
    view: &TypingView<'_>,
    number: usize,
    lowers: usize,
    signature: &TypedSignature,
) -> bool
    requires { lowers ≡ lower_count (rows view.now) signature.now.ty }
    ensures { result ≡ well_signature (rows view.now) number signature.now }
{
    view.is_abstract(signature.ty)
        && lowers == signature.impls.len()
        && are_rising(signature.impls.as_slice())
        && are_implementations(view, number, signature)
}

/// Whether implementations come in ascending order of the numbers of their types.
#[tactic(auto, using(crate::proofs::Listed::rising))]
fn are_rising(impls: &[TypedImplementation]) -> bool
    ensures { result ≡ rise_from None impls.now }
{
    let mut last = None;
    for implementation in impls {
        if !is_after(last, implementation.ty) {
            return false;
        }
        last = Some(implementation.ty);
    }
    true
}

fn are_implementations(view: &TypingView<'_>, number: usize, signature: &TypedSignature) -> bool
    ensures { result ≡ are_implementations (rows view.now) (call_type_at (rows view.now).shapes number) signature.now }
{
    match call_type_at(view.shapes, number) {
        Some(shape) => all_implement(view, shape, signature.ty, signature.impls.as_slice()),
        None => false,
    }
}

#[tactic(auto, using(crate::proofs::Listed::implementations))]
fn all_implement(
    view: &TypingView<'_>,
    shape: &CallType,
    upper: u32,
    impls: &[TypedImplementation],
) -> bool
    ensures { result ≡ all_implement (rows view.now) shape.now upper impls.now }
{
    for implementation in impls {
        if !is_implementation(view, shape, upper, *implementation) {
            return false;
        }
    }
    true
}

/// Whether the implementation by a concrete class of a signature of an abstract supertype takes what the signature takes, and gives what it
/// gives.
fn is_implementation(
    view: &TypingView<'_>,
    shape: &CallType,
    upper: u32,
    found: TypedImplementation,
) -> bool
    ensures { result ≡ is_implementation (rows view.now) shape.now upper found }
{
    is_concrete_class(view, found.ty)
        && view.is_strict_supertype(upper, found.ty)
        && agree(is_target_iter(view, found.target), shape.iter)
        && is_count(
            shape.params.len(),
            target_arity(view, found.ty, found.target),
        )
        && params_conform(view, shape.params.as_slice(), found)
        && result_conforms(
            view,
            shape.result,
            target_result(view, found.ty, found.target),
        )
}

#[tactic(auto, using(crate::proofs::Listed::implementations))]
fn params_conform(view: &TypingView<'_>, params: &[ParamType], found: TypedImplementation) -> bool
    ensures { result ≡ params_conform (rows view.now) found 0 params.now }
{
    for (place, param) in params.iter().enumerate() {
        if !conforms_at(view, found, place, *param) {
            return false;
        }
    }
    true
}

/// Whether the parameter at an index conforms.
fn conforms_at(
    view: &TypingView<'_>,
    found: TypedImplementation,
    place: usize,
    param: ParamType,
) -> bool
    ensures { result ≡ param_conforms (rows view.now) param (target_parameter (rows view.now) found.ty found.target place) }
{
    param_conforms(
        view,
        param,
        target_parameter(view, found.ty, found.target, place),
    )
}

fn param_conforms(view: &TypingView<'_>, param: ParamType, own: Option<ParamType>) -> bool
    ensures { result ≡ param_conforms (rows view.now) param own }
{
    match own {
        Some(own) => {
            is_same_mode(own.mode, param.mode) && type_conforms(view, param.mode, param.ty, own.ty)
        }
        None => false,
    }
}

/// Whether the type of a parameter conforms to that of the signature, by its mode.
fn type_conforms(view: &TypingView<'_>, mode: Mode, ty: u32, own: u32) -> bool
    ensures { result ≡ type_conforms (rows view.now) mode ty own }
{
    match mode {
        Mode::In => view.is_supertype(own, ty),
        Mode::Once => view.is_supertype(own, ty),
        Mode::Out => view.is_supertype(ty, own),
        Mode::Inout => own == ty,
    }
}

fn result_conforms(view: &TypingView<'_>, gives: Option<u32>, own: Option<u32>) -> bool
    ensures { result ≡ result_conforms (rows view.now) gives own }
{
    match (gives, own) {
        (Some(ty), Some(own)) => view.is_supertype(ty, own),
        (None, None) => true,
        _ => false,
    }
}
