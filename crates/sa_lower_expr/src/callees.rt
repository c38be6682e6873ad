//! What a call resolves to by what its receiver gives.

ghost use Rattle.std.specs.Prelude.{◌≡◌, IsTrue, is_some};
ghost use Rattle.sa_lower_expr.specs.Typed.{IsPlain};
ghost use Rattle.sa_typing.specs.Calls.{reached};
ghost use Rattle.sa_typing.specs.Rows.{Rows};

use sa_cfg::CallTarget;
use sa_typed::{Target, TypedCallee};
use sa_typing::{ExprType, ResolvedCallee};

/// What a call resolves to on a receiver that gives this.
pub(crate) fn reached_on(called: TypedCallee, on: ExprType) -> ResolvedCallee
    requires { IsPlain on }
    ensures { (w : Rows) → IsTrue (is_some (reached w called on)) → reached w called on ≡ Some result }
{
    match called {
        TypedCallee::Static(target, class) => ResolvedCallee::Target(target, class),
        TypedCallee::Dispatch(signature) => ResolvedCallee::Signature(signature),
        TypedCallee::Bound => ResolvedCallee::Bound(type_of(on)),
    }
}

/// The index of the type of an unboxed value.
pub(crate) fn type_of(given: ExprType) -> u32
    requires { IsPlain given }
    ensures { given ≡ ExprType.Of result }
{
    match given {
        ExprType::Of(ty) => ty,
        ExprType::NoValue | ExprType::BoxedOf(_) => unreachable!(),
    }
}

/// The target of the operation of a call of this.
pub(crate) fn callee(reached: ResolvedCallee) -> CallTarget {
    match reached {
        ResolvedCallee::Target(target, _) => callee_of(target),
        ResolvedCallee::Signature(signature) => CallTarget::Dispatch(signature),
        ResolvedCallee::Bound(_) => CallTarget::Bound,
    }
}

/// The call target for a target of the typed AST.
pub fn callee_of(target: Target) -> CallTarget {
    match target {
        Target::Feature(feature) => CallTarget::Body(feature),
        Target::Builtin(feature) => CallTarget::Builtin(feature),
        Target::Get(place) => CallTarget::Get(place),
        Target::Set(place) => CallTarget::Set(place),
        Target::GetShared(shared) => CallTarget::GetShared(shared),
        Target::SetShared(shared) => CallTarget::SetShared(shared),
    }
}
