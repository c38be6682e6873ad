//! The composition of two pairs, of which the second begins at the type at which the first ends.

ghost use Rattle.std.specs.Prelude.{IfOk, option_map};
ghost use Rattle.sa_unify.specs.Terms.{IsComposed, IsJoined};

use crate::pair::EdgePairs;
use crate::pattern::Node;
use crate::unification::{add_all, copied, free_number, later_of, shifted, term_end, unify};
use crate::work::WorkBudget;
use failure::{Failure, Invariant, broken, known};
use std::alloc::Global;

/// The pair from the subtype of `first` to the supertype of `second`, where the supertype of `first` and the subtype of `second` are
/// unified: made equal by types for their variables. There is none if they have no unifier.
pub fn compose(
    alloc: Global,
    work: &mut WorkBudget,
    pairs: &mut EdgePairs,
    first: u32,
    second: u32,
) -> Result<Option<u32>, Failure> {
    let one = known(pairs.shape(first), Invariant::SubtypeTable)?;
    let two = known(pairs.shape(second), Invariant::SubtypeTable)?;
    work.unit()?;
    if one.above != two.below {
        return Ok(None);
    }
    // The first pair keeps the arguments, or there are none: the composition is the second pair.
    if one.kept || (one.below == 0 && one.above == 0) {
        return Ok(Some(second));
    }
    let Some(nodes) = composed(alloc, work, pairs.nodes(first), pairs.nodes(second))? else {
        return Ok(None);
    };
    Ok(Some(pairs.add(alloc, work, nodes, two.head)?))
}

/// The nodes of the composition of two pairs.
#[tactic(auto, using(crate::proofs::Compositions::composes))]
pub fn composed(
    alloc: Global,
    work: &mut WorkBudget,
    first: &[Node],
    second: &[Node],
) -> Result<Option<Vec<Node>>, Failure>
    ensures { IfOk result (λ nodes. IsComposed first.now second.now (option_map (λ v. v.items) nodes)) }
{
    let Some(one) = term_end(first, 0) else {
        return broken(Invariant::SubtypeTable);
    };
    let Some(two) = term_end(second, 0) else {
        return broken(Invariant::SubtypeTable);
    };
    if one == first.len() {
        return broken(Invariant::SubtypeTable);
    }
    if two == 0 {
        return broken(Invariant::SubtypeTable);
    }
    let Node::Class(_, above) = &first[one] else {
        return broken(Invariant::SubtypeTable);
    };
    let Node::List(below) = &second[0] else {
        return broken(Invariant::SubtypeTable);
    };
    if *above != *below {
        return Ok(None);
    }
    let ends = &first[one + 1..];
    let begins = &second[1..two];
    let nodes = joined(alloc, work, &first[..one], ends, begins, &second[two..])?;
    Ok(nodes)
}

/// The nodes `below` and then `above`, under a most general unifier of `ends` and `begins`. The variables of
/// `below` and `ends` are distinct from those of `begins` and `above`. There are none if there is no unifier.
fn joined(
    alloc: Global,
    work: &mut WorkBudget,
    below: &[Node],
    ends: &[Node],
    begins: &[Node],
    above: &[Node],
) -> Result<Option<Vec<Node>>, Failure>
    ensures { IfOk result (λ joined. IsJoined below.now ends.now begins.now above.now (option_map (λ v. v.items) joined)) }
{
    work.units(below.len())?;
    work.units(above.len())?;
    let lower = free_number(below)?;
    let upper = free_number(ends)?;
    let more = later_of(lower, upper);
    let later = shifted(alloc, above, more)?;
    let mut kept = copied(alloc, below)?;
    add_all(alloc, &mut kept, later.as_slice())?;
    let one = copied(alloc, ends)?;
    let other = shifted(alloc, begins, more)?;
    let unified = unify(alloc, work, kept, one, other)?;
    Ok(unified)
}
