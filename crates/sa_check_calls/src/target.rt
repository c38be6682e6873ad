//! What a feature or a signature is at run time.

use crate::candidates::Candidate;
use crate::check_tables::CheckTables;
use crate::constant::constant_value;
use failure::{Failure, Invariant, known};
use sa_ast::FeatureBody;
use sa_instantiate::{Accessor, Instances};
use sa_prelude::{BuiltinFeature, builtin};
use sa_typed::{Target, TypedCallee, TypedExpr};

/// What a call resolves to.
#[derive(Drop)]
pub enum Resolved {
    Called(TypedCallee),
    /// The value of a const.
    Value(TypedExpr),
}

impl Resolved {
    /// The callee, where it isn't a const.
    pub fn called(&self) -> Option<TypedCallee> {
        match self {
            Resolved::Called(called) => Some(*called),
            Resolved::Value(_) => None,
        }
    }
}

/// What a call on a type calls by its candidate. A signature is dispatched by the receiver's class.
pub(crate) fn resolved_by(
    view: &CheckTables<'_>,
    of: u32,
    candidate: Candidate,
) -> Result<Resolved, Failure> {
    match candidate.signature {
        Some(signature) => Ok(Resolved::Called(TypedCallee::Dispatch(signature))),
        None => resolved_feature(view, of, candidate.member),
    }
}

/// What a call of a concrete type's member resolves to.
fn resolved_feature(view: &CheckTables<'_>, of: u32, member: u32) -> Result<Resolved, Failure> {
    let feature = known(view.program.member(of, member), Invariant::CheckedNumber)?.feature;
    if let Some(value) = view.consts.value(of, feature) {
        return Ok(Resolved::Value(constant_value(view.alloc, value)?));
    }
    let target = known(
        member_target(view.program, of, member),
        Invariant::CheckedNumber,
    )?;
    Ok(Resolved::Called(TypedCallee::Static(target, of)))
}

/// The target that a member of a concrete type is at run time, by its index. A const is nothing that can be called.
pub fn member_target(program: &Instances<'_>, ty: u32, place: u32) -> Option<Target> {
    let member = program.member(ty, place)?;
    let feature = program.feature(ty, member.feature)?;
    match &feature.part {
        FeatureBody::Routine(_) => Some(Target::Feature(program.body_number(ty, member.feature)?)),
        FeatureBody::Builtin(class, name) => {
            let args = u32::try_from(feature.formals.len()).ok()?;
            let found = builtin(class.as_slice(), name.as_slice(), args)?;
            Some(Target::Builtin(BuiltinFeature::of_number(found.number)?))
        }
        FeatureBody::Attr => attribute(member.side, program.slot_of(ty, member.feature)?),
        FeatureBody::Shared(_) => shared(member.side, program.shared_number(ty, member.feature)?),
        FeatureBody::Const(_, _) | FeatureBody::Signature | FeatureBody::Stub => None,
    }
}

/// The reader or writer of the attribute at an index.
fn attribute(side: Accessor, slot: u32) -> Option<Target> {
    match side {
        Accessor::Reader => Some(Target::Get(slot)),
        Accessor::Writer => Some(Target::Set(slot)),
        Accessor::Whole => None,
    }
}

/// The reader or writer of the shared with a number.
fn shared(side: Accessor, number: u32) -> Option<Target> {
    match side {
        Accessor::Reader => Some(Target::GetShared(number)),
        Accessor::Writer => Some(Target::SetShared(number)),
        Accessor::Whole => None,
    }
}
