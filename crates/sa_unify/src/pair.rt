//! A type of a class and a supertype of it, both with variables.

ghost use Rattle.std.specs.Prelude.{◌≡◌, ◌∷◌, [], IfOk, get_or};
ghost use Rattle.sa_unify.specs.EdgePairs.{nodes_of};
ghost use Rattle.sa_unify.specs.Terms.{SameInstances, named, substitute, value_of};

use crate::pattern::Node;
use crate::unification::{difference, free_number, term_end};
use crate::work::WorkBudget;
use failure::{Failure, Invariant, broken, known};
use indexmap::IndexSet;
use sa_graph::{entry, put, word};
use std::alloc::Global;

/// Facts of the nodes of a pair.
#[derive(Clone, Copy)]
pub struct NodeShape {
    /// How many arguments the subtype has.
    pub below: usize,
    /// Whether these are the variables 0, 1, 2 and so on.
    pub plain: bool,
    /// The index of the supertype.
    pub upper: usize,
    /// The class of the supertype.
    pub head: u32,
    /// How many arguments the supertype has.
    pub above: usize,
    /// Whether these are the arguments of the subtype, and the pair is plain.
    pub kept: bool,
}

/// The pairs of a program, each once. A pair is spelled as the list of the subtype's arguments and then the supertype,
/// and its variables are numbered in the order of their first occurrences.
#[derive(Drop)]
pub struct EdgePairs {
    spelled: IndexSet<Vec<Node>>,
    shapes: Vec<NodeShape>,
}

impl EdgePairs {
    /// The pairs of a program for which none is known.
    pub fn new(alloc: Global) -> EdgePairs {
        EdgePairs {
            spelled: IndexSet::new(alloc),
            shapes: Vec::new(alloc),
        }
    }

    /// How many pairs there are.
    pub fn count(&self) -> usize {
        self.shapes.len()
    }

    /// The number of the pair that is spelled by these nodes, whose supertype is of the class `head`.
    pub fn add(
        &mut self,
        alloc: Global,
        work: &mut WorkBudget,
        nodes: Vec<Node>,
        head: u32,
    ) -> Result<u32, Failure> {
        work.nodes(nodes.len())?;
        let nodes = renumbered(alloc, nodes.as_slice())?;
        if let Some(number) = self.spelled.get_index_of(nodes.as_slice()) {
            return word(number, Invariant::SubtypeTable);
        }
        let shape = shape_of(&nodes, head)?;
        self.shapes.push(shape)?;
        let (number, _) = known(
            self.spelled.insert_full(nodes).ok(),
            Invariant::SubtypeTable,
        )?;
        word(number, Invariant::SubtypeTable)
    }

    /// The nodes of a pair.
    pub fn nodes(&self, number: u32) -> &[Node]
        ensures { result.now ≡ nodes_of self.now number }
    {
        match self.spelled.get_index(number as usize) {
            Some(nodes) => nodes.as_slice(),
            None => &[],
        }
    }

    /// The number of the pair with these nodes.
    pub fn number(&self, nodes: &[Node]) -> Result<u32, Failure> {
        word(
            known(self.spelled.get_index_of(nodes), Invariant::SubtypeTable)?,
            Invariant::SubtypeTable,
        )
    }

    /// The facts of a pair's nodes, if there is such a pair.
    pub fn shape(&self, number: u32) -> Option<NodeShape> {
        self.shapes.get(number as usize).copied()
    }
}

/// No number yet.
const NONE: u32 = u32::MAX;

/// The new numbers of variables by their old ones, and the old numbers by the new ones.
#[derive(Drop)]
struct Numbers {
    new: Vec<u32>,
    old: Vec<u32>,
}

impl Numbers {
    /// Numbers the variables in the order of their first occurrences.
    fn of(alloc: Global, nodes: &[Node]) -> Result<Numbers, Failure> {
        let mut numbers = Numbers {
            new: vec![in alloc; NONE; free_number(nodes)? as usize]?,
            old: Vec::new(alloc),
        };
        for node in nodes {
            if let Node::Variable(number) = node {
                numbers.note(*number)?;
            }
        }
        Ok(numbers)
    }

    /// Gives a variable the next number, if it has none.
    fn note(&mut self, number: u32) -> Result<(), Failure> {
        if entry(&self.new, number as usize, Invariant::SubtypeTable)? == NONE {
            put(
                &mut self.new,
                number as usize,
                word(self.old.len(), Invariant::SubtypeTable)?,
                Invariant::SubtypeTable,
            )?;
            self.old.push(number)?;
        }
        Ok(())
    }
}

/// The nodes with their variables numbered in the order of their first occurrences. It is checked that the inverse renumbering gives
/// the old nodes again.
#[tactic(auto, using(crate::proofs::Renumbering::renumbers))]
pub fn renumbered(alloc: Global, nodes: &[Node]) -> Result<Vec<Node>, Failure>
    ensures { IfOk result (λ v. SameInstances nodes.now v.items) }
{
    let numbers = Numbers::of(alloc, nodes)?;
    let renamed_nodes = renamed(alloc, nodes, &numbers.new)?;
    let back = renamed(alloc, renamed_nodes.as_slice(), &numbers.old)?;
    try_equal(nodes, back.as_slice())?;
    Ok(renamed_nodes)
}

/// The nodes with the variables numbered by a list.
#[tactic(auto, using(crate::proofs::Places::places))]
fn renamed(alloc: Global, nodes: &[Node], numbers: &[u32]) -> Result<Vec<Node>, Failure>
    ensures { IfOk result (λ v. v.items ≡ substitute (named numbers.now) nodes.now) }
{
    let mut out = Vec::new(alloc);
    for node in nodes {
        out.push(renamed_node(alloc, node, numbers)?)?;
    }
    Ok(out)
}

fn renamed_node(alloc: Global, node: &Node, numbers: &[u32]) -> Result<Node, Failure>
    ensures { IfOk result (λ a. a ∷ [] ≡ value_of (named numbers.now) node.now) }
{
    match node {
        Node::Variable(number) => Ok(Node::Variable(number_at(numbers, *number as usize)?)),
        _ => node.copy(alloc),
    }
}

fn number_at(numbers: &[u32], at: usize) -> Result<u32, Failure>
    ensures { IfOk result (λ number. number ≡ get_or numbers.now at 0) }
{
    if at < numbers.len() {
        Ok(numbers[at])
    } else {
        broken(Invariant::SubtypeTable)
    }
}

/// Checks that two lists of nodes are equal.
#[tactic(auto, using(crate::proofs::Equal::equals))]
pub fn try_equal(one: &[Node], other: &[Node]) -> Result<(), Failure>
    ensures { IfOk result (λ _. one.now ≡ other.now) }
{
    let at = difference(one, other);
    if at != one.len() {
        return broken(Invariant::SubtypeTable);
    }
    if at != other.len() {
        return broken(Invariant::SubtypeTable);
    }
    Ok(())
}

fn shape_of(nodes: &[Node], head: u32) -> Result<NodeShape, Failure> {
    let below = known(nodes.first(), Invariant::SubtypeTable)?.holds();
    let upper = known(term_end(nodes, 0), Invariant::SubtypeTable)?;
    let Some(Node::Class(_, above)) = nodes.get(upper) else {
        return broken(Invariant::SubtypeTable);
    };
    let above = *above as usize;
    let plain = counts_up(nodes, 1, below);
    let kept = plain && above == below && counts_up(nodes, upper.saturating_add(1), below);
    Ok(NodeShape {
        below,
        plain,
        upper,
        head,
        above,
        kept,
    })
}

/// Whether n nodes from an index on are the variables 0, 1, 2 and so on.
fn counts_up(nodes: &[Node], from: usize, count: usize) -> bool {
    for i in 0..count {
        match nodes.get(from.saturating_add(i)) {
            Some(Node::Variable(number)) => {
                if *number as usize != i {
                    return false;
                }
            }
            _ => return false,
        }
    }
    true
}
