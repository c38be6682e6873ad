//! The pairs of the edges that classes declare, and the rule that each type after `<` is an abstract class.

ghost use Rattle.std.specs.Prelude.{◌≡◌, IfOk, flat_map, map, slice_get};
ghost use Rattle.sa_ast.specs.Types.{bare};
ghost use Rattle.sa_unify.specs.DeclaredEdges.{ends_of, ends_written};
ghost use Rattle.sa_unify.specs.Numbers.{kind_of_name};
ghost use Rattle.sa_unify.specs.Supertypes.{is_abstract_class, is_abstract_kind, misplaced, misplaced_type, position_of};

use crate::names::Names;
use crate::pair::EdgePairs;
use crate::unification::copied;
use crate::work::WorkBudget;
use crate::written::WrittenEdge;
use failure::Failure;
use sa_ast::{Class, ClassKind, Pos, Ty};
use std::alloc::Global;

/// A declared edge: the class of the subtype, the class of the supertype, and the pair that it declares.
#[derive(Clone, Copy)]
pub struct Edge {
    /// The number of the subtype's class.
    pub lower: u32,
    /// The number of the supertype's class.
    pub upper: u32,
    /// The number of the pair.
    pub pair: u32,
}

/// The position of the first type after a `<`, in source order, that is no abstract class: a concrete class, a parameter, SAME, a
/// bound type, or a name that is no class.
#[tactic(auto, using(crate::proofs::Supertypes::classes_walk))]
pub fn first_misplaced(classes: &[Class], names: &Names) -> Option<Pos>
    ensures { result ≡ slice_get (misplaced (kind_of_name names.now) classes.now) 0 }
{
    for class in classes {
        if let Some(pos) = first_of(class.below.as_slice(), names) {
            return Some(pos);
        }
    }
    None
}

/// The same of the types after one `<`.
#[tactic(auto, using(crate::proofs::Supertypes::types_walk))]
fn first_of(types: &[Ty], names: &Names) -> Option<Pos>
    ensures { result ≡ slice_get (flat_map (misplaced_type (kind_of_name names.now)) types.now) 0 }
{
    for ty in types {
        if !is_abstract_class(ty, names) {
            return Some(position(ty));
        }
    }
    None
}

/// Whether a type is an abstract class. The name of a parameter is never that of an abstract class.
#[tactic(auto, using(sa_ast::proofs::BareTypes::bares))]
fn is_abstract_class(ty: &Ty, names: &Names) -> bool
    ensures { result ≡ is_abstract_class (kind_of_name names.now) (bare ty.now) }
{
    match ty {
        Ty::Named(name, _, _) => match names.kind_named(name) {
            Some(kind) => is_abstract_kind(kind),
            None => false,
        },
        Ty::Same(_) => false,
        Ty::Rout(_, _, _) => false,
        Ty::Iter(_, _, _) => false,
    }
}

fn is_abstract_kind(kind: ClassKind) -> bool
    ensures { result ≡ is_abstract_kind kind }
{
    match kind {
        ClassKind::Reference => false,
        ClassKind::Immutable => false,
        ClassKind::Abstract => true,
        ClassKind::Partial => false,
    }
}

/// The position of a type.
#[tactic(auto, using(crate::proofs::Supertypes::positions))]
fn position(ty: &Ty) -> Pos
    ensures { result ≡ position_of ty.now }
{
    match ty {
        Ty::Named(_, _, pos) => *pos,
        Ty::Same(pos) => *pos,
        Ty::Rout(_, _, pos) => *pos,
        Ty::Iter(_, _, pos) => *pos,
    }
}

/// The written edges with their pairs.
#[tactic(auto, using(crate::proofs::Ends::ends_more))]
pub fn edges_of(
    alloc: Global,
    work: &mut WorkBudget,
    written: &[WrittenEdge],
    pairs: &mut EdgePairs,
) -> Result<Vec<Edge>, Failure>
    ensures { IfOk result (λ edges. map ends_of edges.items ≡ map ends_written written.now) }
{
    let mut edges = Vec::new(alloc);
    for own in written {
        edges.push(edge_of(alloc, work, own, pairs)?)?;
    }
    Ok(edges)
}

/// A written edge with its pair.
fn edge_of(
    alloc: Global,
    work: &mut WorkBudget,
    own: &WrittenEdge,
    pairs: &mut EdgePairs,
) -> Result<Edge, Failure>
    ensures { IfOk result (λ edge. ends_of edge ≡ ends_written own.now) }
{
    let nodes = copied(alloc, own.nodes.as_slice())?;
    let pair = pairs.add(alloc, work, nodes, own.upper)?;
    Ok(Edge {
        lower: own.lower,
        upper: own.upper,
        pair,
    })
}

/// The subtype's class of each edge.
#[tactic(auto, using(std::proofs::lemmas::List::map_more))]
pub fn lowers(alloc: Global, edges: &[Edge]) -> Result<Vec<u32>, Failure>
    ensures { IfOk result (λ lowers. lowers.items ≡ map (λ e. e.lower) edges.now) }
{
    let mut lowers = Vec::new(alloc);
    for edge in edges {
        lowers.push(edge.lower)?;
    }
    Ok(lowers)
}

/// The supertype's class of each edge.
#[tactic(auto, using(std::proofs::lemmas::List::map_more))]
pub fn uppers(alloc: Global, edges: &[Edge]) -> Result<Vec<u32>, Failure>
    ensures { IfOk result (λ uppers. uppers.items ≡ map (λ e. e.upper) edges.now) }
{
    let mut uppers = Vec::new(alloc);
    for edge in edges {
        uppers.push(edge.upper)?;
    }
    Ok(uppers)
}
