//! What is boxed between a signature and an implementation of it: an immutable value that goes in where the implementation has an abstract
//! type, and one that comes out where the signature has one.

use crate::signatures::AdapterCall;
use sa_ast::Mode;
use sa_lower_expr::takes_abstract;
use sa_typing::{ParamType, TypingView};

/// How an argument is converted between a signature and an implementation.
#[derive(Clone, Copy, Debug, PartialEq, Eq)]
pub(crate) enum ArgConversion {
    /// It is passed as it is.
    Plain,
    /// It is a value of this immutable class and is boxed before the call.
    WidenedIn(u32),
    /// It is copied out as a value of this immutable class and is boxed after the call.
    WidenedOut(u32),
}

/// How the argument at an index is converted, where the signature has this parameter.
pub(crate) fn passing_of(
    implemented: AdapterCall<'_>,
    place: usize,
    param: ParamType,
) -> ArgConversion {
    match param.mode {
        Mode::In => passing_in(implemented, place, param.ty),
        Mode::Once => passing_in(implemented, place, param.ty),
        Mode::Out => passing_out(implemented, place, param.ty),
        Mode::Inout => ArgConversion::Plain,
    }
}

/// An argument that goes in.
fn passing_in(implemented: AdapterCall<'_>, place: usize, ty: u32) -> ArgConversion {
    let AdapterCall {
        view,
        implementation,
        ..
    } = implemented;
    if view.is_immutable(ty) && takes_abstract(view, implementation, place) {
        return ArgConversion::WidenedIn(ty);
    }
    ArgConversion::Plain
}

/// An argument that comes out.
fn passing_out(implemented: AdapterCall<'_>, place: usize, ty: u32) -> ArgConversion {
    match implemented.parameter(place) {
        Some(own) if is_widened(implemented.view, own.ty, ty) => ArgConversion::WidenedOut(own.ty),
        _ => ArgConversion::Plain,
    }
}

/// The immutable class of which an implementation gives a value that has to be boxed for the result of the signature.
pub(crate) fn widened_result(implemented: AdapterCall<'_>) -> Option<u32> {
    match (implemented.result(), implemented.shape.result) {
        (Some(own), Some(ty)) if is_widened(implemented.view, own, ty) => Some(own),
        _ => None,
    }
}

/// Whether a value of the first type is boxed to be one of the other.
fn is_widened(view: &TypingView<'_>, own: u32, ty: u32) -> bool {
    view.is_abstract(ty) && view.is_immutable(own)
}
