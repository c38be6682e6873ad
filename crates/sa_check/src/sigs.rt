//! The signatures of the abstract types, each with its implementations.

use failure::{Failure, Invariant, known};
use sa_ast::Pos;
use sa_check_calls::member_target;
use sa_conformance::{ConformingMember, Signatures};
use sa_instantiate::Instances;
use sa_typed::{TypedImplementation, TypedSignature};
use sqlite_items::Items;
use std::alloc::Global;

/// The signatures in order, where `implementations` has for each of them the members that conform to it, in ascending order of the numbers
/// of their types.
pub(crate) fn program_signatures(
    alloc: Global,
    program: &Instances<'_>,
    signatures: &Signatures,
    implementations: &[Items<ConformingMember>],
) -> Result<Items<TypedSignature>, Failure> {
    let mut cores = Items::new(alloc);
    for place in 0..signatures.count() {
        let found = known(
            implementations.get(place as usize),
            Invariant::CheckedNumber,
        )?;
        cores.push(program_signature(alloc, program, signatures, place, found.as_slice())?)?;
    }
    Ok(cores)
}

/// A signature with its implementations.
fn program_signature(
    alloc: Global,
    program: &Instances<'_>,
    signatures: &Signatures,
    place: u32,
    found: &[ConformingMember],
) -> Result<TypedSignature, Failure> {
    let origin = known(signatures.origin(place), Invariant::CheckedNumber)?;
    let mut impls = Items::new(alloc);
    for implementation in found {
        let ty = implementation.ty;
        let target = known(
            member_target(program, ty, implementation.member),
            Invariant::CheckedNumber,
        )?;
        impls.push(TypedImplementation { ty, target })?;
    }
    Ok(TypedSignature {
        ty: origin.ty,
        sig: program.signature(alloc, origin.from, origin.member)?,
        impls,
    })
}

/// The position of a signature's name.
pub(crate) fn sig_pos(
    program: &Instances<'_>,
    signatures: &Signatures,
    place: u32,
) -> Result<Pos, Failure> {
    let origin = known(signatures.origin(place), Invariant::CheckedNumber)?;
    let member = known(
        program.member(origin.from, origin.member),
        Invariant::CheckedNumber,
    )?;
    let feature = known(
        program.feature(origin.from, member.feature),
        Invariant::CheckedNumber,
    )?;
    Ok(feature.name.pos)
}
