//! The edges that classes declare, each as the nodes of its two types.
//!
//! `class C < $A` and `abstract class $A > C` both declare that C is a subtype of $A.

ghost use Rattle.std.specs.Prelude.{◌≡◌, ◌++◌, IfOk, Some, flat_map};
ghost use Rattle.sa_unify.specs.Headers.{IsHeaderOf, place_in};
ghost use Rattle.sa_unify.specs.Numbers.{number_in};
ghost use Rattle.sa_unify.specs.DeclaredEdges.{above_edge, above_in, below_edge, below_in, class_number_in, declared_edges};
ghost use Rattle.sa_unify.specs.DeclaredEdges.{edges_at, header_edges, lower_in, number_alone, number_named, seen};

use crate::header::{Header, param_places};
use crate::names::Names;
use crate::pattern::Node;
use crate::work::WorkBudget;
use failure::{Failure, Invariant};
use sa_ast::{Class, Name, Ty};
use sa_graph::word;
use std::alloc::Global;

/// A declared edge: the class of the subtype, the class of the supertype, and the nodes of their types: the list of the subtype's
/// arguments, and then the supertype.
#[derive(Drop)]
pub struct WrittenEdge {
    /// The number of the subtype's class.
    pub lower: u32,
    /// The number of the supertype's class.
    pub upper: u32,
    /// The nodes of the two types.
    pub nodes: Vec<Node>,
}

/// The edges of these classes in source order. A second class of one name declares nothing.
#[tactic(auto, using(crate::proofs::Declaring::class_steps))]
pub fn written_edges(
    alloc: Global,
    work: &mut WorkBudget,
    classes: &[Class],
    names: &Names,
) -> Result<Vec<WrittenEdge>, Failure>
    ensures { IfOk result (λ edges. seen edges.items ≡ declared_edges (number_in names.now.places) classes.now) }
{
    let mut edges = Vec::new(alloc);
    for (place, class) in classes.iter().enumerate() {
        add_class(alloc, work, &mut edges, names, place, class)?;
    }
    Ok(edges)
}

/// Adds the edges of the class at an index.
#[tactic(auto, using(crate::proofs::Declaring::class_steps))]
fn add_class(
    alloc: Global,
    work: &mut WorkBudget,
    out: &mut Vec<WrittenEdge>,
    names: &Names,
    place: usize,
    class: &Class,
) -> Result<(), Failure>
    ensures { IfOk result (λ _. seen out.new.items ≡ seen out.old.items ++ edges_at (number_in names.now.places) place (Some class.now)) }
{
    let Some(own) = names.number(&class.name.name) else {
        return Ok(());
    };
    if own as usize != place {
        return Ok(());
    }
    let header = header_of(alloc, names, own, class)?;
    add_edges(out, work, &header, class)?;
    Ok(())
}

/// The header of a class with its number.
fn header_of<'a>(
    alloc: Global,
    names: &'a Names,
    own: u32,
    class: &'a Class,
) -> Result<Header<'a>, Failure>
    ensures { IfOk result (IsHeaderOf names.now own class.now) }
{
    let arity = word(class.params.len(), Invariant::SubtypeTable)?;
    let params = param_places(alloc, class.params.as_slice())?;
    Ok(Header {
        alloc,
        class: own,
        name: &class.name.name,
        arity,
        params,
        names,
    })
}

/// Adds the edges of the class with this header.
#[tactic(auto, using(crate::proofs::Declaring::both_edges))]
fn add_edges(
    out: &mut Vec<WrittenEdge>,
    work: &mut WorkBudget,
    header: &Header<'_>,
    class: &Class,
) -> Result<(), Failure>
    ensures { IfOk result (λ _. seen out.new.items ≡ seen out.old.items ++ header_edges header.now class.now) }
{
    add_all_below(out, work, header, class.below.as_slice())?;
    add_all_above(out, work, header, class.above.as_slice())?;
    Ok(())
}

/// Adds an edge from the class to each type after its `<`.
fn add_all_below(
    out: &mut Vec<WrittenEdge>,
    work: &mut WorkBudget,
    header: &Header<'_>,
    types: &[Ty],
) -> Result<(), Failure>
    ensures { IfOk result (λ _. seen out.new.items ≡ seen out.old.items ++ flat_map (below_edge header.now) types.now) }
{
    for ty in types {
        add_below(out, work, header, ty)?;
    }
    Ok(())
}

/// Adds an edge to the class from each type after its `>`.
fn add_all_above(
    out: &mut Vec<WrittenEdge>,
    work: &mut WorkBudget,
    header: &Header<'_>,
    types: &[Ty],
) -> Result<(), Failure>
    ensures { IfOk result (λ _. seen out.new.items ≡ seen out.old.items ++ flat_map (above_edge header.now) types.now) }
{
    for ty in types {
        add_above(out, work, header, ty)?;
    }
    Ok(())
}

/// Adds the edge from the class to a type, if the type is a class.
#[tactic(auto, using(crate::proofs::Declaring::edge_steps))]
fn add_below(
    out: &mut Vec<WrittenEdge>,
    work: &mut WorkBudget,
    header: &Header<'_>,
    ty: &Ty,
) -> Result<(), Failure>
    ensures { IfOk result (λ _. seen out.new.items ≡ seen out.old.items ++ below_edge header.now ty.now) }
{
    let Some(upper) = class_of(header, ty) else {
        return Ok(());
    };
    let nodes = nodes_below(header, ty)?;
    work.nodes(nodes.len())?;
    let lower = header.class;
    out.push(WrittenEdge {
        lower,
        upper,
        nodes,
    })?;
    Ok(())
}

/// Adds the edge from a type to the class, if the type is a class.
#[tactic(auto, using(crate::proofs::Declaring::edge_steps))]
fn add_above(
    out: &mut Vec<WrittenEdge>,
    work: &mut WorkBudget,
    header: &Header<'_>,
    ty: &Ty,
) -> Result<(), Failure>
    ensures { IfOk result (λ _. seen out.new.items ≡ seen out.old.items ++ above_edge header.now ty.now) }
{
    let Some(lower) = class_of(header, ty) else {
        return Ok(());
    };
    let nodes = nodes_above(header, ty)?;
    work.nodes(nodes.len())?;
    let upper = header.class;
    out.push(WrittenEdge {
        lower,
        upper,
        nodes,
    })?;
    Ok(())
}

/// The class that a type of the header is, if it is one: SAME is the class itself, and a parameter is none.
#[tactic(auto, using(crate::proofs::Declaring::edges))]
fn class_of(header: &Header<'_>, ty: &Ty) -> Option<u32>
    ensures { result ≡ class_number_in header.now ty.now }
{
    match ty {
        Ty::Same(_) => Some(header.class),
        Ty::Named(name, args, _) => class_named(header, name, args.as_slice()),
        Ty::Rout(_, _, _) => None,
        Ty::Iter(_, _, _) => None,
    }
}

fn class_named(header: &Header<'_>, name: &Name, args: &[Ty]) -> Option<u32>
    ensures { result ≡ number_named header.now name.now args.now }
{
    if args.is_empty() {
        return class_alone(header, name);
    }
    header.names.number(name)
}

fn class_alone(header: &Header<'_>, name: &Name) -> Option<u32>
    ensures { result ≡ number_alone (place_in header.now name.now) (number_in header.now.names.now.places name.now) }
{
    match header.param(name) {
        Some(_) => None,
        None => header.names.number(name),
    }
}

/// The nodes of an edge from the class to a type.
#[tactic(auto, using(crate::proofs::Headers::headers))]
fn nodes_below(header: &Header<'_>, ty: &Ty) -> Result<Vec<Node>, Failure>
    ensures { IfOk result (λ nodes. nodes.items ≡ below_in header.now ty.now) }
{
    let mut nodes = Vec::new(header.alloc);
    nodes.push(Node::List(header.arity))?;
    header.spell_params(&mut nodes)?;
    header.spell(&mut nodes, ty)?;
    Ok(nodes)
}

/// The nodes of an edge from a type to the class.
#[tactic(auto, using(crate::proofs::Headers::headers))]
fn nodes_above(header: &Header<'_>, ty: &Ty) -> Result<Vec<Node>, Failure>
    ensures { IfOk result (λ nodes. nodes.items ≡ above_in header.now ty.now) }
{
    let mut nodes = Vec::new(header.alloc);
    spell_lower(header, ty, &mut nodes)?;
    header.spell_own(&mut nodes)?;
    Ok(nodes)
}

/// Spells the list of the arguments of a type after `>`.
#[tactic(auto, using(crate::proofs::Declaring::edges, crate::proofs::Declaring::bound_types))]
fn spell_lower(header: &Header<'_>, ty: &Ty, out: &mut Vec<Node>) -> Result<(), Failure>
    ensures { IfOk result (λ _. out.new.items ≡ out.old.items ++ lower_in header.now ty.now) }
{
    match ty {
        Ty::Named(_, args, _) => {
            out.push(Node::List(word(args.len(), Invariant::SubtypeTable)?))?;
            header.spell_types(out, args.as_slice())
        }
        Ty::Same(_) => {
            out.push(Node::List(header.arity))?;
            header.spell_params(out)
        }
        Ty::Rout(_, _, _) => Ok(()),
        Ty::Iter(_, _, _) => Ok(()),
    }
}
