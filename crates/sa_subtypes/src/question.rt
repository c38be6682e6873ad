//! Whether two types are an instance of a pair.
//!
//! The nodes of a pair are matched against the arguments of the two types. A node that is no variable has to be the one with
//! which the type begins, and each occurrence of a variable has to match the same as its first one. A
//! query takes no memory, so what the first occurrence matches is searched for each time.

ghost use Rattle.std.specs.Prelude.{◌≡◌, drop, length, map, slice_get};
ghost use Rattle.std.specs.Option.{option_map};
ghost use Rattle.sa_subtypes.specs.Questions.{both_fit, class_fits, comparing, counts_up, first_fits, is_end, is_number, item_of};
ghost use Rattle.sa_subtypes.specs.Questions.{pair_fits, past, reached, seeking, occurs, upper_fits, value_below, value_from};
ghost use Rattle.sa_subtypes.specs.Questions.{value_in, walk, walk_all, walk_arg, walk_args, walk_inside, walk_mode, walk_result};
ghost use Rattle.sa_unify.specs.Spelled.{a_type};
ghost use Rattle.sa_ast.specs.Types.{all_bare, all_bare_args, bare, bare_arg, option_bare};

use crate::node_match::{NodeMatch, is_count, match_at};
use crate::part::{TypePart, is_same};
use crate::seek::{SearchResult, first_in, search_types};
use sa_ast::{Mode, ModeTy, Ty};
use sa_unify::Node;
use sqlite_items::Boxed;

/// The nodes of a pair after the first, and those of the supertype's arguments, with the arguments of two types.
#[derive(Clone, Copy)]
pub(crate) struct Question<'a> {
    pub nodes: &'a [Node],
    pub above: &'a [Node],
    /// Whether the arguments of the pair's subtype are the variables 0, 1, 2 and so on.
    pub plain: bool,
    pub lower: &'a [Ty],
    pub upper: &'a [Ty],
}

/// Whether there are terms for the variables with which the pair is that of two types with these arguments.
#[tactic(auto, using(crate::proofs::Comparing::pair_steps))]
pub(crate) fn pair_fits(nodes: &[Node], lower: &[Ty], upper: &[Ty]) -> bool
    ensures { result ≡ pair_fits (map bare lower.now) (map bare upper.now) nodes.now }
{
    match nodes.split_first() {
        Some((first, rest)) => first_fits(first, rest, lower, upper),
        None => false,
    }
}

/// Whether the first node is the list of n arguments, and the nodes after it match.
#[tactic(auto, using(crate::proofs::Comparing::counts))]
fn first_fits(first: &Node, nodes: &[Node], lower: &[Ty], upper: &[Ty]) -> bool
    ensures { result ≡ first_fits (map bare lower.now) (map bare upper.now) nodes.now first.now }
{
    match first {
        Node::List(count) => {
            if !is_count(*count, lower.len()) {
                return false;
            }
            arguments_fit(nodes, lower, upper)
        }
        _ => false,
    }
}

/// Whether the nodes are the arguments of the subtype and then the supertype.
#[tactic(auto, using(crate::proofs::Comparing::pair_steps))]
fn arguments_fit(nodes: &[Node], lower: &[Ty], upper: &[Ty]) -> bool
    ensures { result ≡ upper_fits (map bare lower.now) (map bare upper.now)
        nodes.now (walk_all (seeking None) (all_bare lower.now) nodes.now) }
{
    match search_types(nodes, 0, None, lower) {
        SearchResult::Behind(end) => upper_fits(nodes, end, lower, upper),
        SearchResult::Here(_) => false,
        SearchResult::Nothing => false,
    }
}

/// Whether the supertype begins at an index, and the arguments of both match.
#[tactic(auto, using(crate::proofs::Comparing::pair_steps))]
fn upper_fits(nodes: &[Node], end: usize, lower: &[Ty], upper: &[Ty]) -> bool
    ensures { result ≡ upper_fits (map bare lower.now) (map bare upper.now) nodes.now (past (drop end nodes.now)) }
{
    if end >= nodes.len() {
        return false;
    }
    class_fits(&nodes[end], nodes, &nodes[end + 1..], lower, upper)
}

#[tactic(auto, using(crate::proofs::Comparing::counts))]
fn class_fits(node: &Node, nodes: &[Node], above: &[Node], lower: &[Ty], upper: &[Ty]) -> bool
    ensures { result ≡ class_fits (map bare lower.now) (map bare upper.now) nodes.now above.now node.now }
{
    match node {
        Node::Class(_, count) => {
            if !is_count(*count, upper.len()) {
                return false;
            }
            both_fit(nodes, above, lower, upper)
        }
        _ => false,
    }
}

#[tactic(auto, using(crate::proofs::Comparing::counts))]
fn both_fit(nodes: &[Node], above: &[Node], lower: &[Ty], upper: &[Ty]) -> bool
    ensures { result ≡ both_fit
        (value_from (counts_up 0 (length (map bare lower.now)) nodes.now) (map bare lower.now) (map bare upper.now) nodes.now above.now)
        (map bare lower.now) (map bare upper.now) nodes.now above.now }
{
    let plain = counts_up(nodes, lower.len());
    let question = Question {
        nodes,
        above,
        plain,
        lower,
        upper,
    };
    question.holds()
}

/// Whether nodes begin with the variables 0, 1, 2 and so on, that many.
#[tactic(auto, using(crate::proofs::Comparing::counting))]
fn counts_up(nodes: &[Node], count: usize) -> bool
    ensures { result ≡ counts_up 0 count nodes.now }
{
    for i in 0..count {
        if i >= nodes.len() {
            return false;
        }
        if !is_number(&nodes[i], i) {
            return false;
        }
    }
    true
}

fn is_number(node: &Node, number: usize) -> bool
    ensures { result ≡ is_number number node.now }
{
    match node {
        Node::Variable(other) => *other as usize == number,
        _ => false,
    }
}

impl<'a> Question<'a> {
    /// Whether all nodes are those of the types, with the bindings of the variables.
    #[tactic(auto, using(crate::proofs::Comparing::ends))]
    fn holds(&self) -> bool
        ensures { result ≡ both_fit (value_in self.now) (map bare self.now.lower.now)
            (map bare self.now.upper.now) self.now.nodes.now self.now.above.now }
    {
        match self.types_fit(self.nodes, 0, self.lower) {
            Some(_) => self.upper_holds(),
            None => false,
        }
    }

    #[tactic(auto, using(crate::proofs::Comparing::ends))]
    fn upper_holds(&self) -> bool
        ensures { result ≡ is_end (walk_all (comparing (value_in self.now)) (all_bare self.now.upper.now) self.now.above.now) }
    {
        match self.types_fit(self.above, 0, self.upper) {
            Some(end) => is_at_end(self.above, end),
            None => false,
        }
    }

    /// Matches the nodes from an index on against a type, and gives the index after them.
    #[tactic(auto, using(crate::proofs::Comparing::steps))]
    #[cycle(fit)]
    fn fits(&self, nodes: &[Node], at: usize, ty: &Ty) -> Option<usize>
        ensures { reached nodes.now result ≡ walk (comparing (value_in self.now)) (bare ty.now) (drop at nodes.now) }
    {
        match match_at(nodes, at, TypePart::Typed(ty)) {
            NodeMatch::Variable(number, next) => {
                if self.occurs(number, TypePart::Typed(ty)) {
                    Some(next)
                } else {
                    None
                }
            }
            NodeMatch::Head(next) => self.inside_fits(nodes, next, ty),
            NodeMatch::Another => None,
        }
    }

    /// The same with the parts of a type.
    #[tactic(auto, using(crate::proofs::Comparing::insides))]
    #[cycle(fit)]
    fn inside_fits(&self, nodes: &[Node], at: usize, ty: &Ty) -> Option<usize>
        ensures { reached nodes.now result ≡ walk_inside (comparing (value_in self.now)) (bare ty.now) (drop at nodes.now) }
    {
        match ty {
            Ty::Named(_, args, _) => self.types_fit(nodes, at, args.as_slice()),
            Ty::Same(_) => Some(at),
            Ty::Rout(args, result, _) => {
                let next = self.args_fit(nodes, at, args.as_slice())?;
                self.result_fits(nodes, next, result)
            }
            Ty::Iter(args, result, _) => {
                let next = self.args_fit(nodes, at, args.as_slice())?;
                self.result_fits(nodes, next, result)
            }
        }
    }

    /// The same with several types.
    #[tactic(auto, using(crate::proofs::Comparing::loops))]
    #[cycle(fit)]
    fn types_fit(&self, nodes: &[Node], at: usize, types: &[Ty]) -> Option<usize>
        ensures { reached nodes.now result ≡ walk_all (comparing (value_in self.now)) (all_bare types.now) (drop at nodes.now) }
    {
        let mut next = at;
        for ty in types {
            next = self.fits(nodes, next, ty)?;
        }
        Some(next)
    }

    /// The same with the arguments of a bound type.
    #[tactic(auto, using(crate::proofs::Comparing::loops))]
    #[cycle(fit)]
    fn args_fit(&self, nodes: &[Node], at: usize, args: &[ModeTy]) -> Option<usize>
        ensures { reached nodes.now result ≡ walk_args (comparing (value_in self.now)) (all_bare_args args.now) (drop at nodes.now) }
    {
        let mut next = at;
        for arg in args {
            next = self.arg_fits(nodes, next, arg)?;
        }
        Some(next)
    }

    /// The same with an argument: its mode comes before its type.
    #[tactic(auto, using(crate::proofs::Comparing::insides))]
    #[cycle(fit)]
    fn arg_fits(&self, nodes: &[Node], at: usize, arg: &ModeTy) -> Option<usize>
        ensures { reached nodes.now result ≡ walk_arg (comparing (value_in self.now)) (bare_arg arg.now) (drop at nodes.now) }
    {
        let next = self.mode_fits(nodes, at, arg.mode)?;
        self.fits(nodes, next, &arg.ty)
    }

    #[tactic(auto, using(crate::proofs::Comparing::steps))]
    fn mode_fits(&self, nodes: &[Node], at: usize, mode: Mode) -> Option<usize>
        ensures { reached nodes.now result ≡ walk_mode (comparing (value_in self.now)) mode (drop at nodes.now) }
    {
        match match_at(nodes, at, TypePart::Passed(mode)) {
            NodeMatch::Variable(number, next) => {
                if self.occurs(number, TypePart::Passed(mode)) {
                    Some(next)
                } else {
                    None
                }
            }
            NodeMatch::Head(next) => Some(next),
            NodeMatch::Another => None,
        }
    }

    #[tactic(auto, using(crate::proofs::Comparing::insides))]
    #[cycle(fit)]
    fn result_fits(&self, nodes: &[Node], at: usize, of: &Option<Boxed<Ty>>) -> Option<usize>
        ensures { reached nodes.now result ≡ walk_result (comparing (value_in self.now)) (option_bare of.now) (drop at nodes.now) }
    {
        match of {
            None => Some(at),
            Some(ty) => self.fits(nodes, at, ty.get()),
        }
    }

    /// Whether this is the binding of a variable.
    #[tactic(auto, using(crate::proofs::Comparing::values))]
    fn occurs(&self, number: u32, part: TypePart<'_>) -> bool
        ensures { result ≡ occurs (value_in self.now number) (item_of part.entry) }
    {
        match self.value(number) {
            Some(own) => is_same(own, part),
            None => false,
        }
    }

    /// The binding of a variable: what its first occurrence matches.
    #[tactic(auto, using(crate::proofs::Comparing::values))]
    fn value(&self, number: u32) -> Option<TypePart<'a>>
        ensures { option_map item_of result ≡ value_in self.now number }
    {
        match self.value_below(number) {
            Some(part) => Some(part),
            None => first_in(number, self.upper, self.above),
        }
    }

    #[tactic(auto, using(crate::proofs::Comparing::values))]
    fn value_below(&self, number: u32) -> Option<TypePart<'a>>
        ensures { option_map item_of result ≡ value_below self.now.plain (map bare self.now.lower.now) self.now.nodes.now number }
    {
        if self.plain {
            return type_at(self.lower, number);
        }
        first_in(number, self.lower, self.nodes)
    }
}

/// Whether an index is after all nodes.
#[tactic(auto, using(crate::proofs::Comparing::ends))]
fn is_at_end(nodes: &[Node], place: usize) -> bool
    ensures { result ≡ is_end (past (drop place nodes.now)) }
{
    if place < nodes.len() {
        return false;
    }
    true
}

#[tactic(auto, using(crate::proofs::Comparing::values))]
fn type_at<'a>(types: &'a [Ty], number: u32) -> Option<TypePart<'a>>
    ensures { option_map item_of result ≡ option_map a_type (slice_get (map bare types.now) number) }
{
    let place = number as usize;
    if place < types.len() {
        return Some(TypePart::Typed(&types[place]));
    }
    None
}
