//! Overload resolution: which candidate a call resolves to, and what it then calls.

use crate::candidates::{Candidate, candidates, described};
use crate::check_tables::CheckTables;
use crate::expected::Expected;
use crate::target::{Resolved, resolved_by};
use failure::{Failure, Invariant, known};
use sa_ast::{Mode, Pos, Rejection, Rule};
use sa_overload::{ActualArg, CandidateSignature, Resolution, choose, fits};
use sqlite_items::Items;

/// A parameter of a callee.
#[derive(Clone, Copy, Debug, PartialEq, Eq)]
pub struct ChosenParam {
    pub mode: Mode,
    /// The number of its type.
    pub ty: u32,
}

/// What a call resolves to, with its parameters and its result.
#[derive(Drop)]
pub struct ChosenFeature {
    pub resolved: Resolved,
    pub params: Items<ChosenParam>,
    /// The number of the result's type, or none where it gives no result.
    pub result: Option<u32>,
}

/// Resolves a call by name on the type with the number `of`, by the types of its arguments, in a context that expects a result or none.
/// Refused at `pos`:
///
/// - E30: nothing has the name. E34: only private features have it that aren't visible here.
/// - E31: none fits. E32: several do, and none of them is the most specific one.
/// - E41: those that fit have several types where an argument has none, which is a contextual one.
pub fn resolve_call(
    view: &CheckTables<'_>,
    of: u32,
    name: &[u8],
    args: &[ActualArg],
    expected: Expected,
    pos: Pos,
) -> Result<ChosenFeature, Rejection> {
    let candidates = Candidates::new(view, of, name, pos)?;
    let candidate = candidates.choice(view, args, expected, pos)?;
    Ok(described_choice(view, of, candidate)?)
}

/// The candidate to which the head of a bind resolves: one with a result where one fits, and else one without. It is refused as
/// `resolve_call` refuses.
pub fn bound_candidate(
    view: &CheckTables<'_>,
    of: u32,
    name: &[u8],
    args: &[ActualArg],
    pos: Pos,
) -> Result<Candidate, Rejection> {
    let candidates = Candidates::new(view, of, name, pos)?;
    let expected = candidates.result_expected(view, args);
    candidates.choice(view, args, expected, pos)
}

/// What a call on a type resolves to by its candidate: the callee, its parameters and its result.
pub fn described_choice(
    view: &CheckTables<'_>,
    of: u32,
    candidate: Candidate,
) -> Result<ChosenFeature, Failure> {
    let member = known(
        view.program.member(candidate.from, candidate.member),
        Invariant::CheckedNumber,
    )?;
    let mut params = Items::new(view.alloc);
    for (place, mode) in member.modes.as_slice().iter().enumerate() {
        let ty = known(
            view.program.argument(candidate.from, member, place),
            Invariant::CheckedNumber,
        )?;
        params.push(ChosenParam { mode: *mode, ty })?;
    }
    Ok(ChosenFeature {
        resolved: resolved_by(view, of, candidate)?,
        params,
        result: view.program.result(candidate.from, member),
    })
}

/// The candidates of a call, with their numbers and as overload resolution sees them.
#[derive(Drop)]
struct Candidates {
    candidates: Items<Candidate>,
    described: Items<CandidateSignature>,
}

impl Candidates {
    fn new(
        view: &CheckTables<'_>,
        of: u32,
        name: &[u8],
        pos: Pos,
    ) -> Result<Candidates, Rejection> {
        let candidates = candidates(view, of, name, pos)?;
        let described = described(view, candidates.as_slice())?;
        Ok(Candidates {
            candidates,
            described,
        })
    }

    /// What a bind expects of its head: a result where a candidate that has one fits.
    fn result_expected(&self, view: &CheckTables<'_>, args: &[ActualArg]) -> Expected {
        let edges = view.program.edges();
        let described = self.described.as_slice();
        if described.iter().any(|cand| fits(cand, args, true, edges)) {
            return Expected::Value;
        }
        Expected::Nothing
    }

    /// The candidate that the call resolves to: E31, E32, E41.
    fn choice(
        &self,
        view: &CheckTables<'_>,
        args: &[ActualArg],
        expected: Expected,
        pos: Pos,
    ) -> Result<Candidate, Rejection> {
        let described = self.described.as_slice();
        if described.len() >= u32::MAX as usize {
            return Err(Rejection::Failed(Failure::Broken(Invariant::CheckedCount)));
        }
        let place = match choose(described, args, expected.is_result(), view.program.edges()) {
            Resolution::One(place) => place as usize,
            Resolution::NoneFits => return Err(Rule::NoFeatureFits.at(pos).into()),
            Resolution::Several(_, _) => return Err(Rule::SeveralFeaturesFit.at(pos).into()),
        };
        let cand = known(described.get(place), Invariant::CheckedNumber)?;
        if !have_one_context(view, described, cand, args, expected) {
            return Err(Rule::NoTypeFromContext.at(pos).into());
        }
        Ok(*known(self.candidates.get(place), Invariant::CheckedNumber)?)
    }
}

/// Whether all candidates that fit have the same types as the chosen one where an argument is contextual.
fn have_one_context(
    view: &CheckTables<'_>,
    described: &[CandidateSignature],
    chosen: &CandidateSignature,
    args: &[ActualArg],
    expected: Expected,
) -> bool {
    if !args.iter().any(is_contextual) {
        return true;
    }
    let edges = view.program.edges();
    for cand in described {
        if fits(cand, args, expected.is_result(), edges) && !is_one_context(cand, chosen, args) {
            return false;
        }
    }
    true
}

/// Whether an argument takes its type from its parameter.
fn is_contextual(arg: &ActualArg) -> bool {
    arg.ty.is_none() && !arg.left
}

/// Whether two candidates have the same types where an argument is contextual.
fn is_one_context(
    one: &CandidateSignature,
    other: &CandidateSignature,
    args: &[ActualArg],
) -> bool {
    let params = one.args.as_slice().iter().zip(other.args.as_slice());
    for (arg, (one, other)) in args.iter().zip(params) {
        if is_contextual(arg) && one.ty != other.ty {
            return false;
        }
    }
    true
}
