//! The callee of a call, by the type of its receiver, and the callee's parameters and result.

ghost use Rattle.std.specs.Prelude.{◌≡◌, false, length, option_and_then, option_map, slice_get};
ghost use Rattle.std.specs.Option.{option_map_or};
ghost use Rattle.sa_typing.specs.Rows.{rows, call_type_at};
ghost use Rattle.sa_typing.specs.Calls.{arity, bound_by, is_iter, parameter, reached, result_type, signature_of};

use crate::call_type::CallType;
use crate::expr_type::{ExprType, ParamType, ResolvedCallee};
use crate::targets::{is_target_iter, target_arity, target_parameter, target_result};
use crate::view::{TypingView, call_type_at};
use sa_typed::TypedCallee;

/// The callee of a call on this receiver, or `None` where the receiver isn't of the type on which it is called.
pub(crate) fn reached(
    view: &TypingView<'_>,
    called: TypedCallee,
    on: ExprType,
) -> Option<ResolvedCallee>
    ensures { result ≡ reached (rows view.now) called on }
{
    match called {
        TypedCallee::Static(target, class) => {
            if on.is_plain(class) && target_arity(view, class, target).is_some() {
                Some(ResolvedCallee::Target(target, class))
            } else {
                None
            }
        }
        TypedCallee::Dispatch(number) => signature_of(view, number, on),
        TypedCallee::Bound => bound_by(view, on),
    }
}

/// A signature, where the receiver is of its abstract type.
fn signature_of(view: &TypingView<'_>, number: u32, on: ExprType) -> Option<ResolvedCallee>
    ensures { result ≡ signature_of (rows view.now) number on }
{
    let signature = view.signatures.get(number as usize)?;
    if on.is_plain(signature.ty) {
        Some(ResolvedCallee::Signature(number))
    } else {
        None
    }
}

/// The bound value that the receiver is.
fn bound_by(view: &TypingView<'_>, on: ExprType) -> Option<ResolvedCallee>
    ensures { result ≡ bound_by (rows view.now) on }
{
    match on {
        ExprType::Of(ty) => {
            if call_type_at(view.bound, ty as usize).is_some() {
                Some(ResolvedCallee::Bound(ty))
            } else {
                None
            }
        }
        ExprType::NoValue | ExprType::BoxedOf(_) => None,
    }
}

/// How many parameters the callee has, or `None` where it lacks a call type.
pub(crate) fn arity(view: &TypingView<'_>, reached: ResolvedCallee) -> Option<usize>
    ensures { result ≡ arity (rows view.now) reached }
{
    match reached {
        ResolvedCallee::Target(target, class) => target_arity(view, class, target),
        ResolvedCallee::Signature(number) => shape_arity(view.shapes, number as usize),
        ResolvedCallee::Bound(ty) => shape_arity(view.bound, ty as usize),
    }
}

fn shape_arity(list: &[Option<CallType>], at: usize) -> Option<usize>
    ensures { result ≡ option_map (λ s. length s.params) (call_type_at list.now at) }
{
    match call_type_at(list, at) {
        Some(shape) => Some(shape.params.len()),
        None => None,
    }
}

/// The parameter of the callee at an index, or `None` where it has none.
pub fn parameter(view: &TypingView<'_>, reached: ResolvedCallee, place: usize) -> Option<ParamType>
    ensures { result ≡ parameter (rows view.now) reached place }
{
    match reached {
        ResolvedCallee::Target(target, class) => target_parameter(view, class, target, place),
        ResolvedCallee::Signature(number) => shape_parameter(view.shapes, number as usize, place),
        ResolvedCallee::Bound(ty) => shape_parameter(view.bound, ty as usize, place),
    }
}

fn shape_parameter(list: &[Option<CallType>], at: usize, place: usize) -> Option<ParamType>
    ensures { result ≡ option_and_then (λ s. slice_get s.params place) (call_type_at list.now at) }
{
    match call_type_at(list, at) {
        Some(shape) => shape.params.get(place).copied(),
        None => None,
    }
}

/// The number of the type of the callee's result, or `None` where it gives nothing.
pub fn result_type(view: &TypingView<'_>, reached: ResolvedCallee) -> Option<u32>
    ensures { result ≡ result_type (rows view.now) reached }
{
    match reached {
        ResolvedCallee::Target(target, class) => target_result(view, class, target),
        ResolvedCallee::Signature(number) => shape_result(view.shapes, number as usize),
        ResolvedCallee::Bound(ty) => shape_result(view.bound, ty as usize),
    }
}

fn shape_result(list: &[Option<CallType>], at: usize) -> Option<u32>
    ensures { result ≡ option_and_then (λ s. s.result) (call_type_at list.now at) }
{
    match call_type_at(list, at) {
        Some(shape) => shape.result,
        None => None,
    }
}

/// Whether the callee is an iter.
pub(crate) fn is_iter(view: &TypingView<'_>, reached: ResolvedCallee) -> bool
    ensures { result ≡ is_iter (rows view.now) reached }
{
    match reached {
        ResolvedCallee::Target(target, _) => is_target_iter(view, target),
        ResolvedCallee::Signature(number) => is_iter_shape(view.shapes, number as usize),
        ResolvedCallee::Bound(ty) => is_iter_shape(view.bound, ty as usize),
    }
}

fn is_iter_shape(list: &[Option<CallType>], at: usize) -> bool
    ensures { result ≡ option_map_or (λ s. s.iter) (call_type_at list.now at) false }
{
    match call_type_at(list, at) {
        Some(shape) => shape.iter,
        None => false,
    }
}
