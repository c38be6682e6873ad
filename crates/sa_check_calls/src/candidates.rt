//! The features and signatures that a call by name can resolve to.

use crate::check_tables::CheckTables;
use failure::{Failure, Invariant, known};
use sa_ast::{Pos, Rejection, Rule};
use sa_overload::CandidateSignature;
use sa_subst::Sig;
use sqlite_items::Items;

/// A feature of a concrete class, or a signature of an abstract type.
#[derive(Clone, Copy, Debug, PartialEq, Eq)]
pub struct Candidate {
    /// The number of the instance that writes it, whose types it is written in.
    pub from: u32,
    /// Its index among the members of that instance.
    pub member: u32,
    /// The number of the signature, where it is one.
    pub signature: Option<u32>,
}

/// The candidates of a call by name on a type, in order: E30 where nothing has the name, and E34 where only private features have it that
/// aren't visible to the code of the class.
pub(crate) fn candidates(
    view: &CheckTables<'_>,
    of: u32,
    name: &[u8],
    pos: Pos,
) -> Result<Items<Candidate>, Rejection> {
    if view.program.is_abstract(of) {
        return signatures(view, view.signatures.named(of, name), pos);
    }
    features(view, of, view.program.named(of, name), pos)
}

/// The signatures with these numbers.
fn signatures(
    view: &CheckTables<'_>,
    places: &[u32],
    pos: Pos,
) -> Result<Items<Candidate>, Rejection> {
    if places.is_empty() {
        return Err(Rule::UnknownName.at(pos).into());
    }
    let mut found = Items::new(view.alloc);
    for place in places {
        let origin = known(view.signatures.origin(*place), Invariant::CheckedNumber)?;
        found.push(Candidate {
            from: origin.from,
            member: origin.member,
            signature: Some(*place),
        })?;
    }
    Ok(found)
}

/// The features of a concrete type at these indices that are visible.
fn features(
    view: &CheckTables<'_>,
    of: u32,
    places: &[u32],
    pos: Pos,
) -> Result<Items<Candidate>, Rejection> {
    if places.is_empty() {
        return Err(Rule::UnknownName.at(pos).into());
    }
    let is_own = view.program.is_same_class(view.class, of);
    let mut found = Items::new(view.alloc);
    for place in places {
        let member = known(view.program.member(of, *place), Invariant::CheckedNumber)?;
        if is_own || !member.private {
            found.push(Candidate {
                from: of,
                member: *place,
                signature: None,
            })?;
        }
    }
    if found.is_empty() {
        return Err(Rule::PrivateFeature.at(pos).into());
    }
    Ok(found)
}

/// The candidates as overload resolution sees them.
pub(crate) fn described(
    view: &CheckTables<'_>,
    candidates: &[Candidate],
) -> Result<Items<CandidateSignature>, Failure> {
    let mut described = Items::new(view.alloc);
    for candidate in candidates {
        described.push(description(view, *candidate)?)?;
    }
    Ok(described)
}

/// The parameters and the result of a candidate, with the types of its instance substituted.
pub fn description(
    view: &CheckTables<'_>,
    candidate: Candidate,
) -> Result<CandidateSignature, Failure> {
    let signature = view
        .program
        .signature(view.alloc, candidate.from, candidate.member)?;
    let Sig {
        name: _name,
        args,
        result: gives,
    } = signature;
    Ok(CandidateSignature {
        args,
        result: gives,
    })
}
