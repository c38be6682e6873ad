//! The supertypes of each class, as tables.
//!
//! A root of a tree has a list of pairs, each once: it reaches each of its supertypes by one of them, or as an ancestor of the supertype's
//! class of one of them in its tree, with the same arguments.

use crate::links::{ParentLink, link_below, root_link};
use failure::{Failure, Invariant, known};
use sa_graph::{IndexGroups, entry, put, word};
use sa_unify::{Edge, EdgePairs, Names, WorkBudget, compose};
use std::alloc::Global;

/// A pair of a root's list. It is the pair of an edge, or the composition of an edge and an earlier pair.
#[derive(Clone, Copy)]
pub struct Ancestor {
    /// The root.
    pub class: u32,
    /// The supertype's class.
    pub upper: u32,
    /// The number of the pair.
    pub pair: u32,
    /// The number of the edge.
    pub edge: u32,
    /// The index of the edge's own pair in the list.
    pub own: u32,
    /// The index of the earlier pair, if there is one.
    pub next: Option<u32>,
}

/// The edges of a program, the node of each class in its tree, and the lists of the roots.
#[derive(Drop)]
pub struct Hierarchy {
    /// The names of the classes.
    pub names: Names,
    /// The nodes of the pairs.
    pub pairs: EdgePairs,
    /// The declared edges by their numbers.
    pub edges: Vec<Edge>,
    /// The links of the classes by their numbers.
    pub links: Vec<ParentLink>,
    /// The bounds of the list of each class. The list is empty if the class is no root.
    pub lists: Vec<(u32, u32)>,
    /// The pairs of all lists.
    pub above: Vec<Ancestor>,
    /// The index of each class in a topological order: each class is after those that it has edges to.
    pub rank: Vec<u32>,
}

/// The edges with the order of the classes.
#[derive(Clone, Copy)]
pub(crate) struct Edged<'a> {
    pub names: &'a Names,
    pub edges: &'a [Edge],
    /// The edges by their subtype's class.
    pub by_lower: &'a IndexGroups,
    /// The classes, each after those that it has edges to.
    pub order: &'a [u32],
    /// The index of each class in the order.
    pub rank: &'a [u32],
}

/// The links of the classes.
pub(crate) fn links_of(
    alloc: Global,
    pairs: &EdgePairs,
    edged: &Edged<'_>,
) -> Result<Vec<ParentLink>, Failure> {
    let mut links = vec![in alloc; root_link(0); edged.names.classes()]?;
    for class in edged.order {
        let link = match followed(pairs, edged, *class)? {
            None => root_link(*class),
            Some(number) => {
                let edge = entry(edged.edges, number as usize, Invariant::HierarchyTable)?;
                link_below(&links, number, edge.upper)?
            }
        };
        put(&mut links, *class as usize, link, Invariant::HierarchyTable)?;
    }
    Ok(links)
}

/// The edge of a class that has exactly one, which keeps its arguments.
fn followed(pairs: &EdgePairs, edged: &Edged<'_>, class: u32) -> Result<Option<u32>, Failure> {
    let [number] = edged.by_lower.of(class) else {
        return Ok(None);
    };
    let edge = entry(edged.edges, *number as usize, Invariant::HierarchyTable)?;
    let shape = known(pairs.shape(edge.pair), Invariant::HierarchyTable)?;
    let own = edged.names.arity(class);
    let kept = shape.kept && shape.below == own && own == edged.names.arity(edge.upper);
    Ok(if kept { Some(*number) } else { None })
}

/// The lists of the roots.
#[derive(Drop)]
pub(crate) struct Lists {
    /// The bounds of the list of each class.
    pub lists: Vec<(u32, u32)>,
    pub above: Vec<Ancestor>,
    /// For each pair the number plus 1 of the class to whose list it was added last.
    listed: Vec<u32>,
}

impl Lists {
    /// The lists of the classes that are roots.
    pub(crate) fn make(
        alloc: Global,
        work: &mut WorkBudget,
        edged: &Edged<'_>,
        links: &[ParentLink],
        pairs: &mut EdgePairs,
    ) -> Result<Lists, Failure> {
        let mut lists = Lists {
            lists: vec![in alloc; (0u32, 0u32); links.len()]?,
            above: Vec::new(alloc),
            listed: Vec::new(alloc),
        };
        for class in edged.order {
            if entry(links, *class as usize, Invariant::HierarchyTable)?
                .edge
                .is_none()
            {
                lists.add_root(alloc, work, edged, links, pairs, *class)?;
            }
        }
        Ok(lists)
    }

    /// Builds the list of a root, after those of the classes that its edges lead to.
    fn add_root(
        &mut self,
        alloc: Global,
        work: &mut WorkBudget,
        edged: &Edged<'_>,
        links: &[ParentLink],
        pairs: &mut EdgePairs,
        class: u32,
    ) -> Result<(), Failure> {
        let first = self.above.len();
        for number in nearest_first(alloc, edged, class)?.as_slice() {
            let edge = entry(edged.edges, *number as usize, Invariant::HierarchyTable)?;
            let own = Ancestor {
                class,
                upper: edge.upper,
                pair: edge.pair,
                edge: *number,
                own: word(self.above.len(), Invariant::HierarchyTable)?,
                next: None,
            };
            if self.add(pairs, own)? {
                self.add_all_above(alloc, work, edged, links, pairs, own)?;
            }
        }
        let end = word(self.above.len(), Invariant::HierarchyTable)?;
        put(
            &mut self.lists,
            class as usize,
            (word(first, Invariant::HierarchyTable)?, end),
            Invariant::HierarchyTable,
        )
    }

    /// Adds an edge and its compositions with the list of the supertype's class. If this class is no root, the list is that of its
    /// parameters, and an edge to it with another number of arguments goes no further.
    fn add_all_above(
        &mut self,
        alloc: Global,
        work: &mut WorkBudget,
        edged: &Edged<'_>,
        links: &[ParentLink],
        pairs: &mut EdgePairs,
        own: Ancestor,
    ) -> Result<(), Failure> {
        let root = entry(links, own.upper as usize, Invariant::HierarchyTable)?.root;
        let count = known(pairs.shape(own.pair), Invariant::HierarchyTable)?.above;
        if root != own.upper && count != edged.names.arity(own.upper) {
            return Ok(());
        }
        let (first, end) = entry(&self.lists, root as usize, Invariant::HierarchyTable)?;
        for place in first..end {
            let next = entry(&self.above, place as usize, Invariant::HierarchyTable)?;
            if let Some(pair) = compose(alloc, work, pairs, own.pair, next.pair)? {
                let both = Ancestor {
                    upper: next.upper,
                    pair,
                    next: Some(place),
                    ..own
                };
                self.add(pairs, both)?;
            }
        }
        Ok(())
    }

    /// Adds a pair to the list of its class, unless it is in it, and reports whether it was added.
    fn add(&mut self, pairs: &EdgePairs, both: Ancestor) -> Result<bool, Failure> {
        let more = pairs.count().saturating_sub(self.listed.len());
        for _ in 0..more {
            self.listed.push(0)?;
        }
        let mark = both.class.saturating_add(1);
        if entry(&self.listed, both.pair as usize, Invariant::HierarchyTable)? == mark {
            return Ok(false);
        }
        put(
            &mut self.listed,
            both.pair as usize,
            mark,
            Invariant::HierarchyTable,
        )?;
        self.above.push(both)?;
        Ok(true)
    }
}

/// The edges of a class, those to the classes that are last in the order first: most of what these reach is then known
/// when the others come.
fn nearest_first(alloc: Global, edged: &Edged<'_>, class: u32) -> Result<Vec<u32>, Failure> {
    let mut ranked = Vec::new(alloc);
    for number in edged.by_lower.of(class) {
        let upper = entry(edged.edges, *number as usize, Invariant::HierarchyTable)?.upper;
        ranked.push((
            entry(edged.rank, upper as usize, Invariant::HierarchyTable)?,
            *number,
        ))?;
    }
    ranked.sort_unstable();
    let mut nearest = Vec::new(alloc);
    for (_, number) in ranked.iter().rev() {
        nearest.push(*number)?;
    }
    Ok(nearest)
}
