//! The declared edges are arranged as tables, or a cycle of edges is refused.

ghost use Rattle.std.specs.Prelude.{◌≡◌, IfErr, IfOk, OnOk};
ghost use Rattle.sa_hierarchy.specs.Cycles.{HasEdgeIn, HasNoCycle, IsBetween, NamesCycle, RefusesCycle};

use crate::class_hierarchy::{Edged, Hierarchy, Lists, links_of};
use crate::links::ParentLink;
use failure::{Failure, Invariant};
use sa_ast::{Class, Rejection, Rule};
use sa_graph::{Graph, IndexGroups, put, word};
use sa_unify::{Edge, EdgePairs, Names, WorkBudget, WrittenEdge, edges_of, lowers, uppers};
use std::alloc::Global;

/// The tables of the written edges. E18 if edges form a cycle.
#[tactic(auto, using(crate::proofs::Between::along))]
pub fn build_hierarchy(
    alloc: Global,
    work: &mut WorkBudget,
    classes: &[Class],
    names: Names,
    written: &[WrittenEdge],
) -> Result<Hierarchy, Rejection>
    ensures names { IfOk result (λ lineage. lineage.names ≡ names) }
    ensures acyclic { OnOk result (HasNoCycle (IsBetween written.now) classes.now) }
    ensures cycle { IfErr result (RefusesCycle (IsBetween written.now) classes.now) }
{
    let mut pairs = EdgePairs::new(alloc);
    let edges = edges_of(alloc, work, written, &mut pairs)?;
    let order = order_of(alloc, classes, edges.as_slice())?;
    let rank = rank_of(alloc, order.as_slice())?;
    let (links, lists) = tables_of(
        alloc,
        work,
        &names,
        edges.as_slice(),
        order.as_slice(),
        rank.as_slice(),
        &mut pairs,
    )?;
    let Lists { lists, above, .. } = lists;
    Ok(Hierarchy {
        names,
        pairs,
        edges,
        links,
        lists,
        above,
        rank,
    })
}

/// The trees and the lists, by the order of the classes and the index of each in it.
fn tables_of(
    alloc: Global,
    work: &mut WorkBudget,
    names: &Names,
    edges: &[Edge],
    order: &[u32],
    rank: &[u32],
    pairs: &mut EdgePairs,
) -> Result<(Vec<ParentLink>, Lists), Failure> {
    let lower = lowers(alloc, edges)?;
    let by_lower = IndexGroups::new(alloc, names.classes(), lower.as_slice())?;
    let edged = Edged {
        names,
        edges,
        by_lower: &by_lower,
        order,
        rank,
    };
    let links = links_of(alloc, pairs, &edged)?;
    let lists = Lists::make(alloc, work, &edged, links.as_slice(), pairs)?;
    Ok((links, lists))
}

/// The classes in topological order: each after those that it has edges to. E18 if edges form a cycle.
#[tactic(auto, using(crate::proofs::Between::ordered))]
fn order_of(alloc: Global, classes: &[Class], edges: &[Edge]) -> Result<Vec<u32>, Rejection>
    ensures acyclic { OnOk result (HasNoCycle (HasEdgeIn edges.now) classes.now) }
    ensures cycle { IfErr result (RefusesCycle (HasEdgeIn edges.now) classes.now) }
{
    let starts = lowers(alloc, edges)?;
    let ends = uppers(alloc, edges)?;
    let graph = Graph::new(alloc, classes.len(), starts, ends)?;
    let order = graph.order(alloc)?;
    match graph.first_on_cycle(alloc, order.as_slice())? {
        None => Ok(order),
        Some(number) => Err(cycle_at(classes, number)),
    }
}

/// The refusal at the name of a class on a cycle.
fn cycle_at(classes: &[Class], number: usize) -> Rejection
    ensures { NamesCycle classes.now number result }
{
    match classes.get(number) {
        Some(class) => Rejection::Refused(Rule::SubtypeCycle.at(class.name.pos)),
        None => Rejection::Failed(Failure::Broken(Invariant::HierarchyTable)),
    }
}

/// The index of each class in the order.
fn rank_of(alloc: Global, order: &[u32]) -> Result<Vec<u32>, Failure> {
    let mut rank = vec![in alloc; 0u32; order.len()]?;
    for (place, class) in order.iter().enumerate() {
        put(
            &mut rank,
            *class as usize,
            word(place, Invariant::HierarchyTable)?,
            Invariant::HierarchyTable,
        )?;
    }
    Ok(rank)
}
