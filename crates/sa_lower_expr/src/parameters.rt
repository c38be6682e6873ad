//! Which arguments may be of an immutable class, and which implementations of a signature take them at an abstract type.

use sa_typed::TypedImplementation;
use sa_typing::{ResolvedCallee, TypingView, parameter, target_parameter};

/// The index of the immutable class that a call takes for the argument at this index, where it takes one.
pub(crate) fn immutable_parameter(
    view: &TypingView<'_>,
    reached: ResolvedCallee,
    place: usize,
) -> Option<u32> {
    let param = parameter(view, reached, place)?;
    if view.is_immutable(param.ty) {
        Some(param.ty)
    } else {
        None
    }
}

/// Whether an implementation takes the argument at this index at an abstract type.
pub fn takes_abstract(
    view: &TypingView<'_>,
    implementation: &TypedImplementation,
    place: usize,
) -> bool {
    match target_parameter(view, implementation.ty, implementation.target, place) {
        Some(param) => view.is_abstract(param.ty),
        None => false,
    }
}
