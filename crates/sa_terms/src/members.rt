//! The features of a class as calls can name them: an attribute or a shared is a reader and a writer.

use crate::terms::{OWN, PLAIN_INT, TypeTerms};
use failure::{Failure, Invariant, known};
use sa_ast::{Access, Class, ClassKind, Feature, FeatureBody, FormalParam, Mode};
use sa_graph::word;
use sqlite_items::Items;
use std::alloc::Global;

/// How a call names a feature: an attribute or a shared has a reader and a writer.
#[derive(Clone, Copy, Debug, PartialEq, Eq, Hash)]
pub enum Accessor {
    Whole,
    Reader,
    Writer,
}

/// A feature as a call can name it.
#[derive(Drop)]
pub struct Member {
    /// The index among the features of the class.
    pub feature: u32,
    pub side: Accessor,
    /// Whether it is visible only to the code of the class. A read-only attribute has a public reader and a private writer.
    pub private: bool,
    /// The modes of the parameters.
    pub modes: Items<Mode>,
    /// The terms of the parameters' types.
    pub args: Items<u32>,
    /// The term of the result's type.
    pub result: Option<u32>,
}

/// The members of a class, in the order of its features, each reader before its writer.
pub(crate) fn members_of(
    alloc: Global,
    class: &Class,
    terms: &TypeTerms<'_>,
) -> Result<Items<Member>, Failure> {
    let mut members = Items::new(alloc);
    let answer = attribute_answer(class.kind);
    for (place, feature) in class.features.as_slice().iter().enumerate() {
        let place = word(place, Invariant::ClassTable)?;
        match &feature.part {
            FeatureBody::Attr => add_sides(alloc, &mut members, feature, place, terms, answer)?,
            FeatureBody::Shared(_) => add_sides(alloc, &mut members, feature, place, terms, None)?,
            _ => members.push(whole(alloc, feature, place, terms)?)?,
        }
    }
    Ok(members)
}

/// Appends the reader and the writer of a feature.
fn add_sides(
    alloc: Global,
    members: &mut Items<Member>,
    feature: &Feature,
    place: u32,
    terms: &TypeTerms<'_>,
    answer: Option<u32>,
) -> Result<(), Failure> {
    let term = result_term(feature, terms)?;
    members.push(reader(alloc, feature.access, place, term))?;
    members.push(writer(alloc, feature.access, place, term, answer)?)?;
    Ok(())
}

/// The result of the writer of an attribute: in an immutable class a changed copy, else none.
fn attribute_answer(kind: ClassKind) -> Option<u32> {
    match kind {
        ClassKind::Immutable => Some(OWN),
        _ => None,
    }
}

fn reader(alloc: Global, access: Access, place: u32, term: u32) -> Member {
    Member {
        feature: place,
        side: Accessor::Reader,
        private: access == Access::Private,
        modes: Items::new(alloc),
        args: Items::new(alloc),
        result: Some(term),
    }
}

fn writer(
    alloc: Global,
    access: Access,
    place: u32,
    term: u32,
    answer: Option<u32>,
) -> Result<Member, Failure> {
    let modes = Items::from_slice(alloc, &[Mode::In])?;
    let args = Items::from_slice(alloc, &[term])?;
    Ok(Member {
        feature: place,
        side: Accessor::Writer,
        private: access != Access::Public,
        modes,
        args,
        result: answer,
    })
}

fn whole(
    alloc: Global,
    feature: &Feature,
    place: u32,
    terms: &TypeTerms<'_>,
) -> Result<Member, Failure> {
    let result_term = whole_result(feature, terms)?;
    let modes = modes_of(alloc, feature.formals.as_slice())?;
    let args = arg_terms(alloc, feature.formals.as_slice(), terms)?;
    Ok(Member {
        feature: place,
        side: Accessor::Whole,
        private: feature.access == Access::Private,
        modes,
        args,
        result: result_term,
    })
}

fn modes_of(alloc: Global, formals: &[FormalParam]) -> Result<Items<Mode>, Failure> {
    let mut modes = Items::new(alloc);
    for formal in formals {
        modes.push(formal.mode)?;
    }
    Ok(modes)
}

fn arg_terms(
    alloc: Global,
    formals: &[FormalParam],
    terms: &TypeTerms<'_>,
) -> Result<Items<u32>, Failure> {
    let mut args = Items::new(alloc);
    for formal in formals {
        args.push(known(terms.term(&formal.ty), Invariant::ClassTable)?)?;
    }
    Ok(args)
}

/// The terms of the results of the features at these indices.
pub(crate) fn result_terms(
    alloc: Global,
    features: &[Feature],
    places: &[u32],
    terms: &TypeTerms<'_>,
) -> Result<Items<u32>, Failure> {
    let mut list = Items::new(alloc);
    for place in places {
        let feature = known(features.get(*place as usize), Invariant::ClassTable)?;
        list.push(result_term(feature, terms)?)?;
    }
    Ok(list)
}

/// The term of the written result. A constant without one is an INT.
fn result_term(feature: &Feature, terms: &TypeTerms<'_>) -> Result<u32, Failure> {
    match &feature.result {
        None => Ok(PLAIN_INT),
        Some(ty) => known(terms.term(ty), Invariant::ClassTable),
    }
}

/// The term of the result, if there is one. A constant always has one.
fn whole_result(feature: &Feature, terms: &TypeTerms<'_>) -> Result<Option<u32>, Failure> {
    if let Some(ty) = &feature.result {
        return Ok(Some(known(terms.term(ty), Invariant::ClassTable)?));
    }
    match &feature.part {
        FeatureBody::Const(_, _) => Ok(Some(PLAIN_INT)),
        _ => Ok(None),
    }
}
