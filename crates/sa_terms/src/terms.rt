//! The distinct types that a class writes, in text order, each before the types nested in it.
//!
//! A type that is deeper than a type may be is refused wherever its class is needed, so those nested in it aren't looked at.

use crate::expressions::optional_expr;
use crate::extent::{DEEPEST, depth};
use crate::statements::stmts;
use failure::Failure;
use indexmap::IndexSet;
use sa_ast::{Class, Feature, FeatureBody, FormalParam, ModeTy, Ty, TypeParam};
use sqlite_items::Boxed;
use std::alloc::Global;

/// The term of the class itself, which is what SAME denotes.
pub(crate) const OWN: u32 = 0;
/// The term of the class INT, which is the type of a constant without a written one.
pub(crate) const PLAIN_INT: u32 = 1;
/// The term of the first type that the class writes.
pub(crate) const FIRST_WRITTEN: u32 = 2;

/// The distinct types that a class writes, in the order of their first occurrences.
#[derive(Drop)]
pub(crate) struct TypeTerms<'a> {
    types: IndexSet<&'a Ty>,
}

impl<'a> TypeTerms<'a> {
    /// The types of a class: those of its header first, then those of its features in order.
    pub(crate) fn of_class(alloc: Global, class: &'a Class) -> Result<TypeTerms<'a>, Failure> {
        let mut terms = TypeTerms {
            types: IndexSet::new(alloc),
        };
        header(&mut terms, class)?;
        features(&mut terms, class.features.as_slice())?;
        Ok(terms)
    }

    /// How many there are.
    pub(crate) fn count(&self) -> usize {
        self.types.len()
    }

    /// One of them by its index.
    pub(crate) fn at(&self, place: usize) -> Option<&'a Ty> {
        self.types.as_slice().get(place).copied()
    }

    /// The term of a type that the class writes.
    pub(crate) fn term(&self, ty: &Ty) -> Option<u32> {
        if let Ty::Same(_) = ty {
            return Some(OWN);
        }
        let place = self.types.get_index_of(&ty)?;
        u32::try_from(place).ok()?.checked_add(FIRST_WRITTEN)
    }

    /// Appends a type if it isn't there yet.
    fn add(&mut self, ty: &'a Ty) -> Result<(), Failure> {
        self.types.insert(ty)?;
        Ok(())
    }
}

fn header<'a>(terms: &mut TypeTerms<'a>, class: &'a Class) -> Result<(), Failure> {
    params(terms, class.params.as_slice())?;
    types(terms, class.below.as_slice())?;
    types(terms, class.above.as_slice())
}

fn params<'a>(terms: &mut TypeTerms<'a>, list: &'a [TypeParam]) -> Result<(), Failure> {
    for param in list {
        optional_type(terms, &param.bound)?;
    }
    Ok(())
}

fn types<'a>(terms: &mut TypeTerms<'a>, list: &'a [Ty]) -> Result<(), Failure> {
    for ty in list {
        written(terms, ty)?;
    }
    Ok(())
}

fn features<'a>(terms: &mut TypeTerms<'a>, list: &'a [Feature]) -> Result<(), Failure> {
    for each in list {
        formals(terms, each.formals.as_slice())?;
        optional_type(terms, &each.result)?;
        part(terms, &each.part)?;
    }
    Ok(())
}

fn formals<'a>(terms: &mut TypeTerms<'a>, list: &'a [FormalParam]) -> Result<(), Failure> {
    for formal in list {
        written(terms, &formal.ty)?;
    }
    Ok(())
}

fn part<'a>(terms: &mut TypeTerms<'a>, part: &'a FeatureBody) -> Result<(), Failure> {
    match part {
        FeatureBody::Routine(body) => stmts(terms, body.get().as_slice()),
        FeatureBody::Shared(start) => optional_expr(terms, start),
        FeatureBody::Const(value, _) => optional_expr(terms, value),
        _ => Ok(()),
    }
}

pub(crate) fn optional_type<'a>(
    terms: &mut TypeTerms<'a>,
    ty: &'a Option<Ty>,
) -> Result<(), Failure> {
    match ty {
        None => Ok(()),
        Some(ty) => written(terms, ty),
    }
}

/// A type as it is written, and those nested in it.
pub(crate) fn written<'a>(terms: &mut TypeTerms<'a>, ty: &'a Ty) -> Result<(), Failure> {
    if depth(ty) > DEEPEST {
        return terms.add(ty);
    }
    with_inside(terms, ty)
}

#[cycle(inside)]
fn with_inside<'a>(terms: &mut TypeTerms<'a>, ty: &'a Ty) -> Result<(), Failure> {
    terms.add(ty)?;
    match ty {
        Ty::Named(_, args, _) => each_inside(terms, args.as_slice()),
        Ty::Same(_) => Ok(()),
        Ty::Rout(args, result, _) => {
            args_inside(terms, args.as_slice())?;
            result_inside(terms, result)
        }
        Ty::Iter(args, result, _) => {
            args_inside(terms, args.as_slice())?;
            result_inside(terms, result)
        }
    }
}

#[cycle(inside)]
fn each_inside<'a>(terms: &mut TypeTerms<'a>, list: &'a [Ty]) -> Result<(), Failure> {
    for ty in list {
        with_inside(terms, ty)?;
    }
    Ok(())
}

#[cycle(inside)]
fn args_inside<'a>(terms: &mut TypeTerms<'a>, args: &'a [ModeTy]) -> Result<(), Failure> {
    for arg in args {
        with_inside(terms, &arg.ty)?;
    }
    Ok(())
}

#[cycle(inside)]
fn result_inside<'a>(terms: &mut TypeTerms<'a>, of: &'a Option<Boxed<Ty>>) -> Result<(), Failure> {
    match of {
        None => Ok(()),
        Some(ty) => with_inside(terms, ty.get()),
    }
}
