//! The target of a call or a bind.

use sa_ast::Pos;
use sa_typed::{Target, TypedCallee};

/// A feature, or each implementation of a signature, by its number.
#[derive(Clone, Copy)]
pub(crate) enum CalledFeature {
    Feature(u32),
    Signature(u32),
}

/// A call or a bind at a position, in the body of a feature, or in the initialiser of a shared.
#[derive(Clone, Copy)]
pub(crate) struct Call {
    pub feature: Option<u32>,
    pub to: CalledFeature,
    pub pos: Pos,
}

/// The target of a call, where it isn't a built-in feature, an attribute or a shared. A call of a bound value has none, since the bind
/// has it.
pub(crate) fn reached_by(called: TypedCallee) -> Option<CalledFeature> {
    match called {
        TypedCallee::Static(target, _) => reached_at(target),
        TypedCallee::Dispatch(signature) => Some(CalledFeature::Signature(signature)),
        TypedCallee::Bound => None,
    }
}

/// The feature that a call runs, or none.
pub(crate) fn reached_at(target: Target) -> Option<CalledFeature> {
    match target {
        Target::Feature(number) => Some(CalledFeature::Feature(number)),
        Target::Builtin(_)
        | Target::Get(_)
        | Target::Set(_)
        | Target::GetShared(_)
        | Target::SetShared(_) => None,
    }
}
