//! The bodies of a program: of each needed type in order, feature by feature.

use crate::feature_refusals::Diagnostics;
use crate::limits::{MOST_PAIRS, Size};
use crate::sigs::sig_pos;
use failure::{Failure, Invariant, known};
use indexmap::IndexMap;
use sa_ast::{ClassKind, Feature, FeatureBody, Rejection, Rule};
use sa_check_expr::{BodyOutput, CheckTables};
use sa_check_stmt::{body, shared_body};
use sa_conformance::Signatures;
use sa_constants::ConstTable;
use sa_instantiate::Instances;
use sa_typed::{TypedFeature, TypedShared, feature_nodes, shared_nodes};
use sqlite_items::Items;
use std::alloc::Global;

/// What typing the bodies has made so far.
#[derive(Drop)]
pub(crate) struct Typing {
    pub(crate) features: Items<TypedFeature>,
    pub(crate) shareds: Items<TypedShared>,
    pub(crate) built: BodyOutput,
    size: Size,
    /// The number of dispatch pairs.
    pairs: u32,
}

impl Typing {
    fn new(alloc: Global) -> Typing {
        Typing {
            features: Items::new(alloc),
            shareds: Items::new(alloc),
            built: BodyOutput {
                sites: Items::new(alloc),
                bound: IndexMap::new(alloc),
            },
            size: Size::new(),
            pairs: 0,
        }
    }
}

/// The features and the shareds of a program, typed, where `above` has the abstract supertypes of each needed type.
///
/// They are refused type by type: by the rules of bodies, then with E55 where the program is too large; an abstract type with E56 where
/// there are too many dispatch pairs. The refusals of bodies are added to `refused`, and checking ends with the first one where no more are
/// looked for.
pub(crate) fn typed_bodies<'a>(
    alloc: Global,
    program: &'a Instances<'_>,
    signatures: &'a Signatures,
    consts: &'a ConstTable,
    above: &[Items<u32>],
    refused: &mut Diagnostics,
) -> Result<Typing, Rejection> {
    let below = concrete_below(alloc, program, above)?;
    let mut typing = Typing::new(alloc);
    for class in 0..program.count() {
        let view = CheckTables {
            alloc,
            program: &*program,
            signatures: &*signatures,
            consts: &*consts,
            class,
        };
        type_instance(&view, &mut typing, below.as_slice(), refused)?;
    }
    Ok(typing)
}

/// By needed type, the number of its concrete class subtypes.
fn concrete_below(
    alloc: Global,
    program: &Instances<'_>,
    above: &[Items<u32>],
) -> Result<Vec<u32>, Failure> {
    let mut below = vec![in alloc; 0u32; above.len()]?;
    let mut ty = 0u32;
    for uppers in above {
        if is_concrete_class(program, ty) {
            count_below(below.as_mut_slice(), uppers.as_slice());
        }
        ty = known(ty.checked_add(1), Invariant::CheckedCount)?;
    }
    Ok(below)
}

/// Whether a type is a concrete class, and no bound type.
fn is_concrete_class(program: &Instances<'_>, ty: u32) -> bool {
    match program.class(ty) {
        None => false,
        Some(class) => class.kind != ClassKind::Abstract,
    }
}

/// Counts one subtype for each of the types with these numbers.
fn count_below(below: &mut [u32], uppers: &[u32]) {
    for upper in uppers {
        let at = *upper as usize;
        if at < below.len() {
            below[at] = below[at].saturating_add(1);
        }
    }
}

/// The bodies of a needed type. A bound type has none.
fn type_instance(
    view: &CheckTables<'_>,
    typing: &mut Typing,
    below: &[u32],
    refused: &mut Diagnostics,
) -> Result<(), Rejection> {
    let Some(class) = view.program.class(view.class) else {
        return Ok(());
    };
    if class.kind == ClassKind::Abstract {
        let types = known(below.get(view.class as usize), Invariant::CheckedNumber)?;
        return count_pairs(view, typing, *types);
    }
    for f in class.features.as_slice() {
        if let Err(fault) = type_feature(view, typing, f) {
            refused.take(f.name.pos, fault)?;
        }
    }
    typing.size.within()
}

/// Counts the dispatch pairs of an abstract type's signatures: E56 at the name of the one with which they are too many.
fn count_pairs(view: &CheckTables<'_>, typing: &mut Typing, below: u32) -> Result<(), Rejection> {
    let (from, to) = view.signatures.of(view.class);
    for place in from..to {
        typing.pairs = typing.pairs.saturating_add(below);
        if typing.pairs > MOST_PAIRS {
            let pos = sig_pos(view.program, view.signatures, place)?;
            return Err(Rule::TooManyPairs.at(pos).into());
        }
    }
    Ok(())
}

/// A feature of a concrete class. Once the program is too large, what is typed isn't kept.
fn type_feature(view: &CheckTables<'_>, typing: &mut Typing, f: &Feature) -> Result<(), Rejection> {
    match &f.part {
        FeatureBody::Routine(_) => type_routine(view, typing, f),
        FeatureBody::Shared(_) => type_shared(view, typing, f),
        _ => Ok(()),
    }
}

fn type_routine(view: &CheckTables<'_>, typing: &mut Typing, f: &Feature) -> Result<(), Rejection> {
    let core = body(view, &mut typing.built, f)?;
    if typing.size.add(f.name.pos, feature_nodes(&core)) {
        typing.features.push(core)?;
    }
    Ok(())
}

fn type_shared(view: &CheckTables<'_>, typing: &mut Typing, f: &Feature) -> Result<(), Rejection> {
    let core = shared_body(view, &mut typing.built, f)?;
    if typing.size.add(f.name.pos, shared_nodes(&core)) {
        typing.shareds.push(core)?;
    }
    Ok(())
}
