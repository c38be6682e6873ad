//! Conformance: for each signature of each needed abstract supertype of a needed class, exactly one public feature of the class that isn't
//! a constant conforms to it.

use crate::features::{feature_of, may_implement};
use crate::signatures::Signatures;
use failure::{Failure, Invariant, known, limit};
use sa_ast::{Rejection, Rule};
use sa_instantiate::Instances;
use sa_overload::conforms;
use sa_subst::Sig;
use sqlite_items::Items;
use std::alloc::Global;

/// The greatest number of listed pairs of a signature and a type that implements it: one more than the checker of bodies accepts.
const MOST_LISTED: usize = 100_001;

/// How many pairs are looked for. Past them the answer is that memory has run out, since a short source can have a hundred
/// million.
const MOST_ASKED: usize = 1_000_000;

/// The member of a class that implements a signature.
#[derive(Clone, Copy, Debug, PartialEq, Eq)]
pub struct ConformingMember {
    pub ty: u32,
    pub member: u32,
}

/// The members that implement each signature, in ascending order of the numbers of their types; for all signatures together only the first
/// 100,001.
///
/// # Errors
///
/// At the name of the first class in the order of need, and there by the first signature in the order of their numbers:
/// E20 where no feature conforms, E21 where several do. E20 also at an abstract class of which a written signature doesn't
/// conform to an inherited one that it hides. `NoMemory`, also where there are more than 1,000,000 pairs of a signature and
/// a class that is a subtype of its type.
pub fn check_conformance(
    alloc: Global,
    program: &Instances<'_>,
    signatures: &Signatures,
) -> Result<Items<Items<ConformingMember>>, Rejection> {
    let mut found = ImplementationSearch::new(alloc, program, signatures)?;
    for ty in 0..program.count() {
        if signatures.unlike == Some(ty) {
            return Err(refused(Rule::NoConformingFeature, program, ty));
        }
        if program.class(ty).is_some() && !program.is_abstract(ty) {
            found.implement_all(alloc, program, signatures, ty)?;
        }
    }
    let ImplementationSearch { by_signature, .. } = found;
    Ok(Items::from_vec(by_signature))
}

/// What is found so far.
#[derive(Drop)]
struct ImplementationSearch {
    /// The abstract types that have signatures.
    uppers: Vec<u32>,
    by_signature: Vec<Items<ConformingMember>>,
    pairs: usize,
}

impl ImplementationSearch {
    fn new(
        alloc: Global,
        program: &Instances<'_>,
        signatures: &Signatures,
    ) -> Result<ImplementationSearch, Failure> {
        let mut uppers = Vec::new(alloc);
        for ty in 0..program.count() {
            let (from, to) = signatures.of(ty);
            if from < to {
                uppers.push(ty)?;
            }
        }
        let mut by_signature = Vec::new(alloc);
        for _ in 0..signatures.count() {
            by_signature.push(Items::new(alloc))?;
        }
        Ok(ImplementationSearch {
            uppers,
            by_signature,
            pairs: 0,
        })
    }

    /// Finds the implementations by a class of the signatures of all its abstract supertypes.
    fn implement_all(
        &mut self,
        alloc: Global,
        program: &Instances<'_>,
        signatures: &Signatures,
        ty: u32,
    ) -> Result<(), Rejection> {
        for i in 0..self.uppers.len() {
            let Some(upper) = self.uppers.get(i).copied() else {
                break;
            };
            if program.is_sub(ty, upper) {
                self.implement(alloc, program, signatures, ty, upper)?;
            }
        }
        Ok(())
    }

    /// Finds the implementations by a class of the signatures of an abstract type.
    fn implement(
        &mut self,
        alloc: Global,
        program: &Instances<'_>,
        signatures: &Signatures,
        ty: u32,
        upper: u32,
    ) -> Result<(), Rejection> {
        let (from, to) = signatures.of(upper);
        for place in from..to {
            let member = conforming(alloc, program, signatures, ty, place)?;
            self.hold(place, ConformingMember { ty, member })?;
        }
        Ok(())
    }

    fn hold(&mut self, place: u32, implementation: ConformingMember) -> Result<(), Failure> {
        if self.pairs >= MOST_ASKED {
            return limit();
        }
        self.pairs = self.pairs.saturating_add(1);
        if self.pairs > MOST_LISTED {
            return Ok(());
        }
        let list = known(
            self.by_signature.get_mut(place as usize),
            Invariant::SignatureTable,
        )?;
        list.push(implementation)?;
        Ok(())
    }
}

/// The one member of a class that conforms to a signature.
fn conforming(
    alloc: Global,
    program: &Instances<'_>,
    signatures: &Signatures,
    ty: u32,
    place: u32,
) -> Result<u32, Rejection> {
    let origin = known(signatures.origin(place), Invariant::SignatureTable)?;
    let signature = program.signature(alloc, origin.from, origin.member)?;
    let written = known(
        program.member(origin.from, origin.member),
        Invariant::SignatureTable,
    )?;
    let name = feature_of(program, origin.from, written)?
        .name
        .name
        .as_slice();
    let mut found = None;
    for member in program.named(ty, name) {
        if does_implement(alloc, program, ty, *member, &signature)? {
            if found.is_some() {
                return Err(refused(Rule::SeveralConformingFeatures, program, ty));
            }
            found = Some(*member);
        }
    }
    found.ok_or(refused(Rule::NoConformingFeature, program, ty))
}

/// Whether a member of a class implements a signature.
fn does_implement(
    alloc: Global,
    program: &Instances<'_>,
    ty: u32,
    place: u32,
    signature: &Sig,
) -> Result<bool, Failure> {
    let member = known(program.member(ty, place), Invariant::SignatureTable)?;
    if !may_implement(program, ty, member)? {
        return Ok(false);
    }
    let own = program.signature(alloc, ty, place)?;
    Ok(conforms(&own, signature, program.edges()))
}

/// The refusal at the name of a type's class.
fn refused(rule: Rule, program: &Instances<'_>, ty: u32) -> Rejection {
    match program.class(ty) {
        None => Rejection::Failed(Failure::Broken(Invariant::SignatureTable)),
        Some(class) => rule.at(class.name.pos).into(),
    }
}
