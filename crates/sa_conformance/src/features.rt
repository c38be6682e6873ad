//! What members are as features: their names, and whether they are constants.

use failure::{Failure, Invariant, known};
use sa_ast::{Feature, FeatureBody};
use sa_instantiate::{Instances, Member};

/// The feature of a member of a type.
pub(crate) fn feature_of<'p>(
    program: &'p Instances<'_>,
    ty: u32,
    member: &Member,
) -> Result<&'p Feature, Failure> {
    known(
        program.feature(ty, member.feature),
        Invariant::SignatureTable,
    )
}

/// Whether a member may implement a signature: it is public, and no constant.
pub(crate) fn may_implement(
    program: &Instances<'_>,
    ty: u32,
    member: &Member,
) -> Result<bool, Failure> {
    let feature = feature_of(program, ty, member)?;
    Ok(!member.private && !matches!(feature.part, FeatureBody::Const(_, _)))
}
