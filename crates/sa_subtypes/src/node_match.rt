//! Matching a node against a type or a mode: whether it is a variable, or the node with which the type begins.

ghost use Rattle.std.specs.Prelude.{◌≡◌, ◌+◌, ◌*◌, ◌<◌, drop, nat_eq};
ghost use Rattle.sa_subtypes.specs.Questions.{is_class, is_head, is_iter, is_list, is_passed};
ghost use Rattle.sa_subtypes.specs.Questions.{is_routine, is_type_head, item_of, meets, met};
ghost use Rattle.sa_unify.specs.Spelled.{count_args, count_result};
ghost use Rattle.sa_ast.specs.Types.{all_bare_args, bare, option_bare};

use crate::part::TypePart;
use sa_ast::{Mode, ModeTy, Name, Ty};
use sa_unify::Node;
use sqlite_items::Boxed;

/// The match of the node at an index against a type or a mode, with the index after the node.
#[derive(Clone, Copy)]
pub(crate) enum NodeMatch {
    /// A variable by its number.
    Variable(u32, usize),
    /// The node with which the type begins, or the mode.
    Head(usize),
    /// Another node, or none.
    Another,
}

/// Matches the node at an index against a type or a mode.
#[tactic(auto, using(crate::proofs::Comparing::meeting))]
pub(crate) fn match_at(nodes: &[Node], at: usize, part: TypePart<'_>) -> NodeMatch
    ensures { met nodes.now result ≡ meets (item_of part.entry) (drop at nodes.now) }
{
    if at >= nodes.len() {
        return NodeMatch::Another;
    }
    let next = at + 1;
    let node = &nodes[at];
    match node {
        Node::Variable(number) => NodeMatch::Variable(*number, next),
        _ => {
            if is_head(node, part) {
                NodeMatch::Head(next)
            } else {
                NodeMatch::Another
            }
        }
    }
}

/// Whether it is the node with which the type begins, or the mode.
fn is_head(node: &Node, part: TypePart<'_>) -> bool
    ensures { result ≡ is_head (item_of part.entry) node.now }
{
    match part {
        TypePart::Typed(ty) => is_type_head(node, ty),
        TypePart::Passed(mode) => is_passed(node, mode),
    }
}

#[tactic(auto, using(crate::proofs::Comparing::heads))]
fn is_type_head(node: &Node, ty: &Ty) -> bool
    ensures { result ≡ is_type_head (bare ty.now) node.now }
{
    match ty {
        Ty::Named(name, args, _) => is_class(node, name, args.len()),
        Ty::Same(_) => is_list(node, 0),
        Ty::Rout(args, result, _) => is_routine(node, args.as_slice(), result),
        Ty::Iter(args, result, _) => is_iter(node, args.as_slice(), result),
    }
}

fn is_class(node: &Node, name: &Name, count: usize) -> bool
    ensures { result ≡ is_class name.now count node.now }
{
    match node {
        Node::Class(own, other) => own == name && is_count(*other, count),
        _ => false,
    }
}

fn is_list(node: &Node, count: usize) -> bool
    ensures { result ≡ is_list count node.now }
{
    match node {
        Node::List(other) => is_count(*other, count),
        _ => false,
    }
}

fn is_routine(node: &Node, args: &[ModeTy], of: &Option<Boxed<Ty>>) -> bool
    ensures { result ≡ is_routine (count_args (all_bare_args args.now) + count_result (option_bare of.now)) node.now }
{
    match node {
        Node::Routine(count) => is_held(*count, args, of),
        _ => false,
    }
}

fn is_iter(node: &Node, args: &[ModeTy], of: &Option<Boxed<Ty>>) -> bool
    ensures { result ≡ is_iter (count_args (all_bare_args args.now) + count_result (option_bare of.now)) node.now }
{
    match node {
        Node::Iter(count) => is_held(*count, args, of),
        _ => false,
    }
}

/// Whether a bound type has n child nodes: the mode and the type of each argument, and the type of the result, if
/// it has one.
#[tactic(auto, using(crate::proofs::Comparing::bound))]
fn is_held(count: u32, args: &[ModeTy], of: &Option<Boxed<Ty>>) -> bool
    ensures { result ≡ nat_eq count (count_args (all_bare_args args.now) + count_result (option_bare of.now)) }
{
    match of {
        None => is_double(count, args.len(), 0),
        Some(_) => is_double(count, args.len(), 1),
    }
}

/// Whether a count is twice another, and a few more.
#[tactic(auto, using(crate::proofs::Comparing::bound))]
fn is_double(count: u32, half: usize, more: usize) -> bool
    requires { more < 2 }
    ensures { result ≡ nat_eq count (2 * half + more) }
{
    if half > u32::MAX as usize {
        return false;
    }
    count as usize == 2 * half + more
}

fn is_passed(node: &Node, mode: Mode) -> bool
    ensures { result ≡ is_passed mode node.now }
{
    match node {
        Node::Passed(other) => *other == mode,
        _ => false,
    }
}

/// Whether a node has n children.
pub(crate) fn is_count(count: u32, len: usize) -> bool
    ensures { result ≡ nat_eq count len }
{
    count as usize == len
}
