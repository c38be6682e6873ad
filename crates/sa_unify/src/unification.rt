//! Unification: lists of nodes are made equal by terms for their variables.

ghost use Rattle.std.specs.Prelude.{◌≡◌, ◌↔◌, IsTrue, ◌≤◌, ◌∷◌, ◌++◌, [], IfOk, IfSome, Some, drop, length, max, option_map, take};
ghost use Rattle.sa_unify.specs.Terms.{Differ, IsBound, IsStep, IsUnified, after, following, comes, free};
ghost use Rattle.sa_unify.specs.Terms.{is_variable, later, only, substitute, value_of, variable_in};

use crate::pattern::Node;
use crate::work::WorkBudget;
use failure::{Failure, Invariant, broken, known, limit};
use std::alloc::Global;

/// The next step of a unification.
#[derive(Drop)]
pub(crate) enum Step {
    /// The lists are equal.
    Equal,
    /// The lists have no unifier.
    Never,
    /// The variable has to be bound to the term.
    Bind(u32, Vec<Node>),
}

/// What the nodes `kept` become under a most general unifier of two lists of nodes. There is none if the lists have no
/// unifier.
pub(crate) fn unify(
    alloc: Global,
    work: &mut WorkBudget,
    kept: Vec<Node>,
    one: Vec<Node>,
    other: Vec<Node>,
) -> Result<Option<Vec<Node>>, Failure>
    ensures { IfOk result (λ unified. IsUnified kept.items one.items other.items (option_map (λ v. v.items) unified)) }
{
    let mut kept = kept;
    let mut one = one;
    let mut other = other;
    'rounds: for _ in 0..work.left() {
        match next_step(alloc, work, one.as_slice(), other.as_slice())? {
            Step::Equal => return Ok(Some(kept)),
            Step::Never => return Ok(None),
            Step::Bind(number, term) => {
                kept = substitute_one(alloc, work, kept.as_slice(), number, term.as_slice())?;
                one = substitute_one(alloc, work, one.as_slice(), number, term.as_slice())?;
                other = substitute_one(alloc, work, other.as_slice(), number, term.as_slice())?;
            }
        }
    }
    limit()
}

/// The step at the first index where the two lists differ. If both have a variable there, that of the
/// second is bound.
#[tactic(auto, using(crate::proofs::Differences::steps))]
fn next_step(
    alloc: Global,
    work: &mut WorkBudget,
    one: &[Node],
    other: &[Node],
) -> Result<Step, Failure>
    ensures { IfOk result (IsStep one.now other.now) }
{
    work.units(one.len())?;
    let at = difference(one, other);
    if at == one.len() {
        return ended(one, other, at);
    }
    if at == other.len() {
        return broken(Invariant::SubtypeTable);
    }
    match variable_at(other, at) {
        Some(number) => bound(alloc, number, one, at),
        None => match variable_at(one, at) {
            Some(number) => bound(alloc, number, other, at),
            None => Ok(Step::Never),
        },
    }
}

/// The step if the first list has ended and the two don't differ.
#[tactic(auto, using(crate::proofs::Differences::steps))]
fn ended(one: &[Node], other: &[Node], at: usize) -> Result<Step, Failure>
    requires at_end { at ≡ length one.now }
    requires same { take at one.now ≡ take at other.now }
    ensures { IfOk result (IsStep one.now other.now) }
{
    if at == other.len() {
        Ok(Step::Equal)
    } else {
        broken(Invariant::SubtypeTable)
    }
}

/// The variable bound to the term at an index. It can't be bound if it occurs in the term.
#[tactic(auto, using(crate::proofs::Differences::bounds))]
fn bound(alloc: Global, number: u32, nodes: &[Node], at: usize) -> Result<Step, Failure>
    requires { at ≤ length nodes.now }
    ensures { IfOk result (IsBound number (drop at nodes.now)) }
{
    let Some(end) = term_end(nodes, at) else {
        return broken(Invariant::SubtypeTable);
    };
    let term = &nodes[at..end];
    if has_variable(term, number) {
        return Ok(Step::Never);
    }
    let copy = copied(alloc, term)?;
    Ok(Step::Bind(number, copy))
}

/// The first index at which the two lists differ, or at which one of them ends.
#[tactic(auto, using(crate::proofs::Places::places))]
pub(crate) fn difference(one: &[Node], other: &[Node]) -> usize
    ensures same { take result one.now ≡ take result other.now }
    ensures differ { Differ (drop result one.now) (drop result other.now) }
    ensures within { result ≤ length one.now }
    ensures within_other { result ≤ length other.now }
{
    for (i, node) in one.iter().enumerate() {
        if i == other.len() {
            return i;
        }
        if !is_same(node, &other[i]) {
            return i;
        }
    }
    one.len()
}

fn is_same(one: &Node, other: &Node) -> bool
    ensures { IsTrue result ↔ (one.now ≡ other.now) }
{
    *one == *other
}

/// The variable at an index, if there is one.
fn variable_at(nodes: &[Node], at: usize) -> Option<u32>
    requires { at ≤ length nodes.now }
    ensures { result ≡ variable_in (drop at nodes.now) }
{
    if at == nodes.len() {
        return None;
    }
    match &nodes[at] {
        Node::Variable(number) => Some(*number),
        _ => None,
    }
}

/// The index after the term that begins at an index, if it is whole.
#[tactic(auto, using(crate::proofs::Places::places))]
pub fn term_end(nodes: &[Node], at: usize) -> Option<usize>
    requires { at ≤ length nodes.now }
    ensures following { IfSome result (λ end. following (drop at nodes.now) 1 ≡ Some (drop end nodes.now)) }
    ensures after { IfSome result (λ end. at ≤ end) }
    ensures within { IfSome result (λ end. end ≤ length nodes.now) }
{
    let mut missing = 1usize;
    for i in at..nodes.len() {
        if missing == 0 {
            return Some(i);
        }
        missing = (missing - 1).checked_add(nodes[i].holds())?;
    }
    if missing == 0 {
        Some(nodes.len())
    } else {
        None
    }
}

/// Whether a variable occurs in the nodes.
#[tactic(auto, using(crate::proofs::Places::places))]
fn has_variable(nodes: &[Node], number: u32) -> bool
    ensures { result ≡ comes number nodes.now }
{
    for node in nodes {
        if is_variable(node, number) {
            return true;
        }
    }
    false
}

fn is_variable(node: &Node, number: u32) -> bool
    ensures { result ≡ is_variable number node.now }
{
    match node {
        Node::Variable(other) => *other == number,
        _ => false,
    }
}

/// The nodes with a term substituted for a variable.
fn substitute_one(
    alloc: Global,
    work: &mut WorkBudget,
    nodes: &[Node],
    number: u32,
    term: &[Node],
) -> Result<Vec<Node>, Failure>
    ensures { IfOk result (λ v. v.items ≡ substitute (only number term.now) nodes.now) }
{
    let mut out = Vec::new(alloc);
    for node in nodes {
        work.nodes(1)?;
        if is_variable(node, number) {
            work.nodes(term.len())?;
            add_all(alloc, &mut out, term)?;
        } else {
            out.push(node.copy(alloc)?)?;
        }
    }
    Ok(out)
}

/// A copy of these nodes.
pub(crate) fn copied(alloc: Global, nodes: &[Node]) -> Result<Vec<Node>, Failure>
    ensures { IfOk result (λ v. v.items ≡ nodes.now) }
{
    let mut out = Vec::new(alloc);
    add_all(alloc, &mut out, nodes)?;
    Ok(out)
}

/// Adds copies of these nodes.
pub(crate) fn add_all(alloc: Global, out: &mut Vec<Node>, nodes: &[Node]) -> Result<(), Failure>
    ensures { IfOk result (λ _. out.new.items ≡ out.old.items ++ nodes.now) }
{
    for node in nodes {
        out.push(node.copy(alloc)?)?;
    }
    Ok(())
}

/// The nodes with each variable's number increased by this much.
#[tactic(auto, using(crate::proofs::Places::places))]
pub(crate) fn shifted(alloc: Global, nodes: &[Node], more: u32) -> Result<Vec<Node>, Failure>
    ensures { IfOk result (λ v. v.items ≡ substitute (later more) nodes.now) }
{
    let mut out = Vec::new(alloc);
    for node in nodes {
        out.push(shifted_node(alloc, node, more)?)?;
    }
    Ok(out)
}

fn shifted_node(alloc: Global, node: &Node, more: u32) -> Result<Node, Failure>
    ensures { IfOk result (λ a. a ∷ [] ≡ value_of (later more) node.now) }
{
    match node {
        Node::Variable(number) => Ok(Node::Variable(known(
            number.checked_add(more),
            Invariant::SubtypeTable,
        )?)),
        _ => node.copy(alloc),
    }
}

/// The number after those of all variables in the nodes.
#[tactic(auto, using(crate::proofs::Places::places))]
pub(crate) fn free_number(nodes: &[Node]) -> Result<u32, Failure>
    ensures { IfOk result (λ number. number ≡ free nodes.now) }
{
    let mut number = 0u32;
    for node in nodes {
        number = later_of(number, after(node)?);
    }
    Ok(number)
}

/// The number after that of a variable.
fn after(node: &Node) -> Result<u32, Failure>
    ensures { IfOk result (λ number. number ≡ after node.now) }
{
    match node {
        Node::Variable(number) => known(number.checked_add(1), Invariant::SubtypeTable),
        _ => Ok(0),
    }
}

/// The greater of two numbers.
pub(crate) fn later_of(one: u32, other: u32) -> u32
    ensures { result ≡ max one other }
{
    if one < other { other } else { one }
}
