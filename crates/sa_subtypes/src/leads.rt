//! Whether declared edges lead from one class with its arguments to another, by the tables.

ghost use Rattle.std.specs.Prelude.{◌≡◌, ◌||◌, ◌-◌, length, map, nat_eq, slice_get};
ghost use Rattle.sa_subtypes.specs.SubtypeTest.{tables_in};
ghost use Rattle.sa_subtypes.specs.Deciding.{found_in, in_list, in_tree, is_by, list_by, place_by, some_place};
ghost use Rattle.sa_hierarchy.specs.Lines.{in_line};
ghost use Rattle.sa_unify.specs.EdgePairs.{nodes_of};
ghost use Rattle.sa_subtypes.specs.Questions.{pair_fits};
ghost use Rattle.sa_ast.specs.TypeEquality.{same_types};
ghost use Rattle.sa_ast.specs.Types.{all_bare, bare};

use crate::edges::SubtypeRelation;
use crate::question::pair_fits;
use sa_ast::Ty;
use sa_hierarchy::{Ancestor, ParentLink, has_ancestor};

impl SubtypeRelation {
    /// Whether edges lead from one class at these arguments to another class at those.
    #[tactic(auto, unfolding(crate::specs::Deciding::found_in))]
    pub(crate) fn leads(&self, lower: u32, args: &[Ty], upper: u32, above: &[Ty]) -> bool
        ensures { result ≡ found_in (tables_in self.now) lower (map bare args.now) upper (map bare above.now) }
    {
        self.is_in_tree(lower, args, upper, above) || self.is_in_list(lower, args, upper, above)
    }

    /// Whether the second class is an ancestor of the first in its tree, at the same arguments.
    #[tactic(auto, unfolding(crate::specs::Deciding::in_tree))]
    fn is_in_tree(&self, lower: u32, args: &[Ty], upper: u32, above: &[Ty]) -> bool
        ensures { result ≡ in_tree (tables_in self.now) lower (map bare args.now) upper (map bare above.now) }
    {
        lower != upper
            && self.has_arity(lower, args)
            && are_same(args, above)
            && self.has_ancestor(lower, upper)
    }

    /// Whether there are as many arguments as the class has parameters.
    #[tactic(auto, using(crate::proofs::Asking::counts))]
    fn has_arity(&self, class: u32, args: &[Ty]) -> bool
        ensures { result ≡ nat_eq (length (map bare args.now)) ((tables_in self.now).arity class) }
    {
        args.len() == self.lineage.names.arity(class)
    }

    /// Whether the second class is the first or an ancestor of it in its tree.
    #[tactic(auto, using(sa_hierarchy::proofs::Jumps::trees))]
    fn has_ancestor(&self, lower: u32, upper: u32) -> bool
        ensures { result ≡ in_line self.now.lineage.links.items lower upper }
    {
        has_ancestor(self.lineage.links.as_slice(), lower, upper)
    }

    /// Whether a pair of the list of the class's root leads there. A class that is no root has the list with as many
    /// arguments as it has parameters.
    #[tactic(auto, using(crate::proofs::Asking::lists))]
    fn is_in_list(&self, lower: u32, args: &[Ty], upper: u32, above: &[Ty]) -> bool
        ensures { result ≡ in_list (tables_in self.now) lower (map bare args.now) upper (map bare above.now) }
    {
        match self.link(lower) {
            None => false,
            Some(link) => {
                if !self.has_list(link, lower, args) {
                    return false;
                }
                self.is_listed(link.root, args, upper, above)
            }
        }
    }

    /// The link of a class.
    fn link(&self, class: u32) -> Option<ParentLink>
        ensures { result ≡ slice_get self.now.lineage.links.items class }
    {
        self.lineage.links.get(class as usize).copied()
    }

    /// Whether the list of the root serves a class with these arguments.
    fn has_list(&self, link: ParentLink, lower: u32, args: &[Ty]) -> bool
        ensures { result ≡ (nat_eq link.root lower || nat_eq (length (map bare args.now)) ((tables_in self.now).arity lower)) }
    {
        link.root == lower || self.has_arity(lower, args)
    }

    /// Whether a pair of a root's list leads there.
    #[tactic(auto, using(crate::proofs::Asking::lists))]
    fn is_listed(&self, root: u32, args: &[Ty], upper: u32, above: &[Ty]) -> bool
        ensures { result ≡ list_by (tables_in self.now) root (map bare args.now) upper (map bare above.now) }
    {
        match self.range(root) {
            None => false,
            Some(range) => self.is_within(root, range.0, range.1, args, upper, above),
        }
    }

    /// The bounds of the list of a class.
    fn range(&self, class: u32) -> Option<(u32, u32)>
        ensures { result ≡ slice_get self.now.lineage.lists.items class }
    {
        self.lineage.lists.get(class as usize).copied()
    }

    /// Whether a pair from an index up to another does.
    #[tactic(auto, using(crate::proofs::Asking::places))]
    fn is_within(
        &self,
        root: u32,
        first: u32,
        end: u32,
        args: &[Ty],
        upper: u32,
        above: &[Ty],
    ) -> bool
        ensures { result ≡ some_place (place_by (tables_in self.now) root (map bare args.now) upper (map bare above.now))
            first (end - first) }
    {
        for place in first..end {
            if self.is_at(root, place, args, upper, above) {
                return true;
            }
        }
        false
    }

    /// Whether the pair at an index does.
    #[tactic(auto, using(crate::proofs::Asking::lists))]
    fn is_at(&self, root: u32, place: u32, args: &[Ty], upper: u32, above: &[Ty]) -> bool
        ensures { result ≡ place_by (tables_in self.now) root (map bare args.now) upper (map bare above.now) place }
    {
        match self.entry(place) {
            None => false,
            Some(entry) => {
                if entry.class != root {
                    return false;
                }
                self.is_by(entry, args, upper, above)
            }
        }
    }

    /// The pair at an index.
    fn entry(&self, place: u32) -> Option<Ancestor>
        ensures { result ≡ slice_get self.now.lineage.above.items place }
    {
        self.lineage.above.get(place as usize).copied()
    }

    /// Whether a pair leads from a class with these arguments to the supertype, or to a type that has it as an ancestor in its tree.
    #[tactic(auto, unfolding(crate::specs::Deciding::is_by))]
    fn is_by(&self, entry: Ancestor, args: &[Ty], upper: u32, above: &[Ty]) -> bool
        ensures { result ≡ is_by (tables_in self.now) entry (map bare args.now) upper (map bare above.now) }
    {
        (entry.upper == upper || self.has_arity(upper, above))
            && self.has_ancestor(entry.upper, upper)
            && self.is_pair(entry.pair, args, above)
    }

    /// Whether two types with these arguments are an instance of a pair.
    fn is_pair(&self, pair: u32, lower: &[Ty], upper: &[Ty]) -> bool
        ensures { result ≡ pair_fits (map bare lower.now) (map bare upper.now) (nodes_of self.now.lineage.pairs pair) }
    {
        pair_fits(self.lineage.pairs.nodes(pair), lower, upper)
    }
}

/// Whether two lists of types are equal.
#[tactic(auto, using(crate::proofs::Asking::equals))]
fn are_same(one: &[Ty], other: &[Ty]) -> bool
    ensures { result ≡ same_types (all_bare one.now) (all_bare other.now) }
{
    *one == *other
}
