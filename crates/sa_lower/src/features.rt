//! The bodies of the features, each at the index of its feature.

ghost use Rattle.std.specs.Prelude.{All};
ghost use Rattle.sa_lower.specs.TypedParts.{HasFewVariables, HasWellTypedBody};
ghost use Rattle.sa_typing.specs.Rows.{rows};

use crate::lower_body;
use failure::{Failure, Invariant, known};
use sa_cfg::{BodyParam, CfgBody, Terminator};
use sa_cfg_builder::{BodyBuilder, BodyHeader, ProgramBuilder};
use sa_liveness::saved_variables;
use sa_typed::TypedFeature;
use sa_typing::{TypingView, env_of};
use sqlite_items::Items;
use std::alloc::Global;

/// The bodies of all features.
pub(crate) fn feature_bodies(
    alloc: Global,
    view: &TypingView<'_>,
    draft: &mut ProgramBuilder,
) -> Result<Items<CfgBody>, Failure>
    requires bodies { All (HasWellTypedBody (rows view.now)) view.now.features.now }
    requires variables { All HasFewVariables view.now.features.now }
{
    let mut bodies = Items::new(alloc);
    for (number, feature) in view.features.iter().enumerate() {
        let number = known(u32::try_from(number).ok(), Invariant::CheckedCount)?;
        bodies.push(feature_body(alloc, view, number, feature, draft)?)?;
    }
    Ok(bodies)
}

/// The body of a feature.
fn feature_body(
    alloc: Global,
    view: &TypingView<'_>,
    number: u32,
    feature: &TypedFeature,
    draft: &mut ProgramBuilder,
) -> Result<CfgBody, Failure>
    requires body { HasWellTypedBody (rows view.now) feature.now }
    requires variables { HasFewVariables feature.now }
{
    draft.begin(alloc, head(alloc, number, feature)?)?;
    let scope = env_of(view, feature);
    lower_body(alloc, &scope, draft, feature.body.as_slice())?;
    if feature.iter {
        return iter_body(alloc, &mut draft.body);
    }
    draft.body.finish(alloc, Terminator::Return { value: None })
}

/// The header of the body of a feature.
#[tactic(auto, unfolding(crate::specs::TypedParts::HasFewVariables))]
fn head(alloc: Global, number: u32, feature: &TypedFeature) -> Result<BodyHeader, Failure>
    requires { HasFewVariables feature.now }
{
    Ok(BodyHeader {
        feature: Some(number),
        iter: feature.iter,
        formals: formals(alloc, feature)?,
        variable_count: feature.vars.len() as u32,
        sites: known(
            u32::try_from(feature.sites.len()).ok(),
            Invariant::CheckedCount,
        )?,
    })
}

/// The body of an iter, whose statements have been lowered: after them the instance ends.
fn iter_body(alloc: Global, body: &mut BodyBuilder) -> Result<CfgBody, Failure> {
    let mut body = body.finish(alloc, Terminator::Quit)?;
    body.saved = saved_variables(alloc, &body)?;
    Ok(body)
}

/// The arguments of a feature, which are its first variables.
fn formals(alloc: Global, feature: &TypedFeature) -> Result<Items<BodyParam>, Failure> {
    let mut formals = Items::new(alloc);
    for (mode, ty) in feature
        .modes
        .as_slice()
        .iter()
        .zip(feature.vars.as_slice().iter())
    {
        formals.push(BodyParam {
            mode: *mode,
            ty: *ty,
        })?;
    }
    Ok(formals)
}
