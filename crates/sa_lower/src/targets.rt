//! The body that does each implementation of a signature: that of the feature, or an adapter around it. As soon as one
//! implementation of a signature needs an adapter, all of them have one, so that a dispatched call, which doesn't know
//! which one it will call, can make the checks of a call for all or for none.

ghost use Rattle.std.specs.Prelude.{All};
ghost use Rattle.sa_lower.specs.TypedParts.{HasCallType};

use crate::adapter::adapter;
use crate::passing::{ArgConversion, passing_of, widened_result};
use crate::signatures::AdapterCall;
use failure::{Failure, Invariant, known};
use sa_cfg::CfgBody;
use sa_typed::{Target, TypedImplementation};
use sa_typing::{CallType, TypingView};
use sqlite_items::Items;
use std::alloc::Global;

/// The index of the body of each implementation, in the order of the signatures and of their implementations. The adapters come after the
/// other bodies.
#[tactic(auto, unfolding(crate::specs::TypedParts::HasCallType))]
pub(crate) fn targets(
    alloc: Global,
    view: &TypingView<'_>,
    bodies: &mut Items<CfgBody>,
) -> Result<Items<u32>, Failure>
    requires { All HasCallType view.now.shapes.now }
{
    let mut targets = Items::new(alloc);
    for (signature, shape) in view.signatures.iter().zip(view.shapes) {
        let Some(shape) = shape else { unreachable!() };
        add_targets(
            alloc,
            view,
            shape,
            signature.impls.as_slice(),
            bodies,
            &mut targets,
        )?;
    }
    Ok(targets)
}

/// Adds those of the implementations of a signature: their features, or an adapter for each.
fn add_targets(
    alloc: Global,
    view: &TypingView<'_>,
    shape: &CallType,
    implementations: &[TypedImplementation],
    bodies: &mut Items<CfgBody>,
    targets: &mut Items<u32>,
) -> Result<(), Failure> {
    let Some(features) = plain_features(alloc, view, shape, implementations)? else {
        return add_adapters(alloc, view, shape, implementations, bodies, targets);
    };
    targets.append(features)?;
    Ok(())
}

/// Adds an adapter for each implementation of a signature.
fn add_adapters(
    alloc: Global,
    view: &TypingView<'_>,
    shape: &CallType,
    implementations: &[TypedImplementation],
    bodies: &mut Items<CfgBody>,
    targets: &mut Items<u32>,
) -> Result<(), Failure> {
    for implementation in implementations {
        let number = known(u32::try_from(bodies.len()).ok(), Invariant::CheckedCount)?;
        let implemented = AdapterCall {
            view,
            implementation,
            shape,
        };
        bodies.push(adapter(alloc, implemented)?)?;
        targets.push(number)?;
    }
    Ok(())
}

/// The features that implement a signature, where no implementation needs an adapter.
fn plain_features<'a>(
    alloc: Global,
    view: &'a TypingView<'a>,
    shape: &'a CallType,
    implementations: &'a [TypedImplementation],
) -> Result<Option<Items<u32>>, Failure> {
    let mut features = Items::new(alloc);
    for implementation in implementations {
        let implemented = AdapterCall {
            view,
            implementation,
            shape,
        };
        let Some(feature) = plain_feature(implemented) else {
            return Ok(None);
        };
        features.push(feature)?;
    }
    Ok(Some(features))
}

/// The feature that implements a signature, where it is called with the receiver, the arguments and the result that the signature
/// has.
fn plain_feature(implemented: AdapterCall<'_>) -> Option<u32> {
    let Target::Feature(number) = implemented.implementation.target else {
        return None;
    };
    let ty = implemented.implementation.ty;
    if implemented.view.is_immutable(ty)
        || widened_result(implemented).is_some()
        || is_any_argument_widened(implemented)
    {
        return None;
    }
    Some(number)
}

fn is_any_argument_widened(implemented: AdapterCall<'_>) -> bool {
    for (place, param) in implemented.params().iter().enumerate() {
        if passing_of(implemented, place, *param) != ArgConversion::Plain {
            return true;
        }
    }
    false
}
