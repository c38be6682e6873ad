//! The form of a pair's nodes.

ghost use Rattle.std.specs.Prelude.{◌≡◌, ◌++◌, IfOk, IsTrue, nat_eq};
ghost use Rattle.std.specs.Cmp.Lexicographic.{pointwise};
ghost use Rattle.sa_hierarchy.specs.Hierarchies.{BeginsBare, HasForm, IsBare, counts, kept};

use failure::{Failure, Invariant, broken};
use sa_ast::Name;
use sa_unify::{Node, term_end};
use std::alloc::Global;

/// Checks that the nodes are those of a pair whose supertype's class has this name, and gives how many arguments it has.
#[tactic(auto, using(crate::proofs::Trials::forms))]
pub(crate) fn try_form(nodes: &[Node], name: &[u8]) -> Result<u32, Failure>
    ensures { IfOk result (λ above. HasForm nodes.now name.now above) }
{
    let Some(end) = term_end(nodes, 0) else {
        return broken(Invariant::HierarchyTable);
    };
    if end == nodes.len() {
        return broken(Invariant::HierarchyTable);
    }
    if end == 0 {
        return broken(Invariant::HierarchyTable);
    }
    let Some(last) = term_end(nodes, end) else {
        return broken(Invariant::HierarchyTable);
    };
    if last != nodes.len() {
        return broken(Invariant::HierarchyTable);
    }
    let Node::Class(head, above) = &nodes[end] else {
        return broken(Invariant::HierarchyTable);
    };
    let Node::List(_) = &nodes[0] else {
        return broken(Invariant::HierarchyTable);
    };
    if is_named(head, name) {
        Ok(*above)
    } else {
        broken(Invariant::HierarchyTable)
    }
}

fn is_named(own: &Name, name: &[u8]) -> bool
    ensures { result ≡ pointwise nat_eq own.now name.now }
{
    *own.as_slice() == *name
}

/// Whether a pair leads from a class without arguments to another.
#[tactic(auto, using(crate::proofs::Trials::bares))]
pub(crate) fn is_bare(nodes: &[Node]) -> bool
    ensures { IsTrue result → IsBare nodes.now }
{
    if nodes.len() != 2 {
        return false;
    }
    let Node::List(count) = &nodes[0] else {
        return false;
    };
    let Node::Class(_, above) = &nodes[1] else {
        return false;
    };
    if *count != 0 {
        return false;
    }
    *above == 0
}

/// Whether a pair begins at a class without arguments.
#[tactic(auto, using(crate::proofs::Trials::bares))]
pub(crate) fn begins_bare(nodes: &[Node]) -> bool
    ensures { IsTrue result → BeginsBare nodes.now }
{
    if nodes.is_empty() {
        return false;
    }
    let Node::List(count) = &nodes[0] else {
        return false;
    };
    *count == 0
}

/// The nodes of the pair that keeps its arguments.
pub(crate) fn kept_nodes(alloc: Global, name: &[u8], count: u32) -> Result<Vec<Node>, Failure>
    ensures { IfOk result (λ v. v.items ≡ kept name.now count) }
{
    let mut nodes = Vec::new(alloc);
    nodes.push(Node::List(count))?;
    push_counts(&mut nodes, count)?;
    nodes.push(Node::Class(Name::from_slice(alloc, name)?, count))?;
    push_counts(&mut nodes, count)?;
    Ok(nodes)
}

/// Adds n variables, in order.
#[tactic(auto, using(crate::proofs::Trials::counting))]
fn push_counts(nodes: &mut Vec<Node>, count: u32) -> Result<(), Failure>
    ensures { IfOk result (λ _. nodes.new.items ≡ nodes.old.items ++ counts 0 count) }
{
    for number in 0..count {
        nodes.push(Node::Variable(number))?;
    }
    Ok(())
}
