//! The first occurrence of a variable in nodes that are matched against types.

ghost use Rattle.std.specs.Prelude.{◌≡◌, drop};
ghost use Rattle.std.specs.Option.{option_map};
ghost use Rattle.sa_subtypes.specs.Questions.{first_in, is_wanted, item_of, seeking, seen, walk, walk_all};
ghost use Rattle.sa_subtypes.specs.Questions.{walk_arg, walk_args, walk_inside, walk_mode, walk_result};
ghost use Rattle.sa_ast.specs.Types.{all_bare, all_bare_args, bare, bare_arg, option_bare};

use crate::node_match::{NodeMatch, match_at};
use crate::part::TypePart;
use sa_ast::{Mode, ModeTy, Ty};
use sa_unify::Node;
use sqlite_items::Boxed;

/// The result of a search for the first occurrence of a variable.
#[derive(Clone, Copy)]
pub(crate) enum SearchResult<'a> {
    /// What it matches there.
    Here(TypePart<'a>),
    /// No occurrence up to this index.
    Behind(usize),
    /// The nodes don't match the types.
    Nothing,
}

/// What the first occurrence of a variable matches, in nodes that are matched against types.
#[tactic(auto, using(crate::proofs::Comparing::values))]
pub(crate) fn first_in<'a>(number: u32, types: &'a [Ty], nodes: &[Node]) -> Option<TypePart<'a>>
    ensures { option_map item_of result ≡ first_in number (all_bare types.now) nodes.now }
{
    match search_types(nodes, 0, Some(number), types) {
        SearchResult::Here(part) => Some(part),
        SearchResult::Behind(_) => None,
        SearchResult::Nothing => None,
    }
}

/// Searches the nodes from an index on, matched against a type, for the first occurrence of a variable, or for none.
#[tactic(auto, using(crate::proofs::Comparing::steps))]
#[cycle(search)]
fn search<'a>(nodes: &[Node], at: usize, wanted: Option<u32>, ty: &'a Ty) -> SearchResult<'a>
    ensures { seen nodes.now result ≡ walk (seeking wanted) (bare ty.now) (drop at nodes.now) }
{
    match match_at(nodes, at, TypePart::Typed(ty)) {
        NodeMatch::Variable(number, next) => {
            if is_wanted(wanted, number) {
                SearchResult::Here(TypePart::Typed(ty))
            } else {
                SearchResult::Behind(next)
            }
        }
        NodeMatch::Head(next) => search_inside(nodes, next, wanted, ty),
        NodeMatch::Another => SearchResult::Nothing,
    }
}

/// The same in the parts of a type.
#[tactic(auto, using(crate::proofs::Comparing::insides))]
#[cycle(search)]
fn search_inside<'a>(nodes: &[Node], at: usize, wanted: Option<u32>, ty: &'a Ty) -> SearchResult<'a>
    ensures { seen nodes.now result ≡ walk_inside (seeking wanted) (bare ty.now) (drop at nodes.now) }
{
    match ty {
        Ty::Named(_, args, _) => search_types(nodes, at, wanted, args.as_slice()),
        Ty::Same(_) => SearchResult::Behind(at),
        Ty::Rout(args, result, _) => match search_args(nodes, at, wanted, args.as_slice()) {
            SearchResult::Here(part) => SearchResult::Here(part),
            SearchResult::Behind(next) => search_result(nodes, next, wanted, result),
            SearchResult::Nothing => SearchResult::Nothing,
        },
        Ty::Iter(args, result, _) => match search_args(nodes, at, wanted, args.as_slice()) {
            SearchResult::Here(part) => SearchResult::Here(part),
            SearchResult::Behind(next) => search_result(nodes, next, wanted, result),
            SearchResult::Nothing => SearchResult::Nothing,
        },
    }
}

/// The same in several types.
#[tactic(auto, using(crate::proofs::Comparing::loops))]
#[cycle(search)]
pub(crate) fn search_types<'a>(
    nodes: &[Node],
    at: usize,
    wanted: Option<u32>,
    types: &'a [Ty],
) -> SearchResult<'a>
    ensures { seen nodes.now result ≡ walk_all (seeking wanted) (all_bare types.now) (drop at nodes.now) }
{
    let mut next = at;
    for ty in types {
        match search(nodes, next, wanted, ty) {
            SearchResult::Here(part) => return SearchResult::Here(part),
            SearchResult::Behind(following) => next = following,
            SearchResult::Nothing => return SearchResult::Nothing,
        }
    }
    SearchResult::Behind(next)
}

/// The same in the arguments of a bound type.
#[tactic(auto, using(crate::proofs::Comparing::loops))]
#[cycle(search)]
fn search_args<'a>(
    nodes: &[Node],
    at: usize,
    wanted: Option<u32>,
    args: &'a [ModeTy],
) -> SearchResult<'a>
    ensures { seen nodes.now result ≡ walk_args (seeking wanted) (all_bare_args args.now) (drop at nodes.now) }
{
    let mut next = at;
    for arg in args {
        match search_arg(nodes, next, wanted, arg) {
            SearchResult::Here(part) => return SearchResult::Here(part),
            SearchResult::Behind(following) => next = following,
            SearchResult::Nothing => return SearchResult::Nothing,
        }
    }
    SearchResult::Behind(next)
}

/// The same in an argument: its mode comes before its type.
#[tactic(auto, using(crate::proofs::Comparing::insides))]
#[cycle(search)]
fn search_arg<'a>(
    nodes: &[Node],
    at: usize,
    wanted: Option<u32>,
    arg: &'a ModeTy,
) -> SearchResult<'a>
    ensures { seen nodes.now result ≡ walk_arg (seeking wanted) (bare_arg arg.now) (drop at nodes.now) }
{
    match search_mode(nodes, at, wanted, arg.mode) {
        SearchResult::Here(part) => SearchResult::Here(part),
        SearchResult::Behind(next) => search(nodes, next, wanted, &arg.ty),
        SearchResult::Nothing => SearchResult::Nothing,
    }
}

#[tactic(auto, using(crate::proofs::Comparing::steps))]
fn search_mode<'a>(nodes: &[Node], at: usize, wanted: Option<u32>, mode: Mode) -> SearchResult<'a>
    ensures { seen nodes.now result ≡ walk_mode (seeking wanted) mode (drop at nodes.now) }
{
    match match_at(nodes, at, TypePart::Passed(mode)) {
        NodeMatch::Variable(number, next) => {
            if is_wanted(wanted, number) {
                SearchResult::Here(TypePart::Passed(mode))
            } else {
                SearchResult::Behind(next)
            }
        }
        NodeMatch::Head(next) => SearchResult::Behind(next),
        NodeMatch::Another => SearchResult::Nothing,
    }
}

#[tactic(auto, using(crate::proofs::Comparing::insides))]
#[cycle(search)]
fn search_result<'a>(
    nodes: &[Node],
    at: usize,
    wanted: Option<u32>,
    of: &'a Option<Boxed<Ty>>,
) -> SearchResult<'a>
    ensures { seen nodes.now result ≡ walk_result (seeking wanted) (option_bare of.now) (drop at nodes.now) }
{
    match of {
        None => SearchResult::Behind(at),
        Some(ty) => search(nodes, at, wanted, ty.get()),
    }
}

/// Whether a variable is the one that is looked for.
fn is_wanted(wanted: Option<u32>, number: u32) -> bool
    ensures { result ≡ is_wanted wanted number }
{
    match wanted {
        None => false,
        Some(other) => number == other,
    }
}
