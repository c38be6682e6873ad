//! The types of a signature's implementations, which rise, and the index of one of them.

ghost use Rattle.std.specs.Prelude.{◌≡◌, ◌==◌, [], ◌∷◌, ◌++◌, map, OnOk, IfOk, IfSome, length, ◌<◌};
ghost use Rattle.std.specs.List.{position};
ghost use Rattle.sa_dispatch.specs.Rising.{IsRising};
ghost use Rattle.sa_dispatch.specs.Implementations.{types_of};

use failure::{Failure, Invariant};
use sa_typed::TypedImplementation;
use sqlite_items::Items;
use std::alloc::Global;

/// The types of implementations.
///
/// # Errors
///
/// A `Failure`: `Broken` where the types don't rise, which the checker sees to.
pub fn implemented(
    alloc: Global,
    implementations: &[TypedImplementation],
) -> Result<Items<u32>, Failure>
    ensures types { IfOk result (λ types. types ≡ types_of implementations.now) }
    ensures rising { IfOk result (λ types. IsRising types) }
{
    let mut types = Items::new(alloc);
    for implementation in implementations {
        add_type(&mut types, implementation.ty)?;
    }
    Ok(types)
}

/// One more type, which is greater than those before it.
fn add_type(types: &mut Items<u32>, ty: u32) -> Result<(), Failure>
    requires { IsRising types.old }
    ensures types { OnOk result (types.new ≡ types.old ++ ty ∷ []) }
    ensures rising { OnOk result (IsRising types.new) }
{
    if let Some(last) = types.as_slice().last() {
        if ty <= *last {
            return Err(not_rising());
        }
    }
    types.push(ty)?;
    Ok(())
}

/// The error where the types of a signature don't rise, which the checker sees to.
fn not_rising() -> Failure {
    Failure::Broken(Invariant::SignatureTable)
}

/// The index of a type among types that rise.
pub fn place_of(types: &[u32], ty: u32) -> Option<usize>
    requires { IsRising types.now }
    ensures place { result ≡ position (λ t. t == ty) types.now }
    ensures within { IfSome result (λ place. place < length types.now) }
{
    match types.binary_search(&ty) {
        Ok(place) => Some(place),
        Err(_) => None,
    }
}
