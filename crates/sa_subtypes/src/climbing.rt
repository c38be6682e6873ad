//! Whether declared edges lead from a type to another, or to it from `$OB`.

ghost use Rattle.std.specs.Prelude.{◌≡◌, [], map, nat_eq};
ghost use Rattle.std.specs.Cmp.Lexicographic.{pointwise};
ghost use Rattle.sa_subtypes.specs.SubtypeTest.{class_in, climbs_in, leads_in, tables_in, tops_in};
ghost use Rattle.sa_subtypes.specs.Deciding.{found_between};
ghost use Rattle.sa_subtypes.specs.Subtypes.{top, top_name};
ghost use Rattle.sa_ast.specs.TypeEquality.{same_type, same_types};
ghost use Rattle.sa_ast.specs.Types.{Named, all_bare, bare, no_types};

use crate::edges::SubtypeRelation;
use crate::making::TOP;
use sa_ast::{Name, Ty};

impl SubtypeRelation {
    /// Whether edges lead from a type to another, or the two are the same.
    #[tactic(auto, unfolding(crate::specs::SubtypeTest::climbs_in))]
    pub(crate) fn climbs(&self, s: &Ty, t: &Ty) -> bool
        ensures { result ≡ climbs_in self.now (bare s.now) (bare t.now) }
    {
        *s == *t || self.leads_from(s, t)
    }

    /// Whether one or more edges lead from a type to another.
    #[tactic(auto, using(crate::proofs::Asking::froms))]
    fn leads_from(&self, s: &Ty, t: &Ty) -> bool
        ensures { result ≡ leads_in self.now (bare s.now) (bare t.now) }
    {
        match s {
            Ty::Named(name, args, _) => self.leads_to(name, args.as_slice(), t),
            Ty::Same(_) => false,
            Ty::Rout(_, _, _) => false,
            Ty::Iter(_, _, _) => false,
        }
    }

    /// The same of a class with these arguments.
    #[tactic(auto, using(crate::proofs::Asking::tos))]
    fn leads_to(&self, name: &Name, args: &[Ty], t: &Ty) -> bool
        ensures { result ≡ leads_in self.now (Named name.now (all_bare args.now)) (bare t.now) }
    {
        match t {
            Ty::Named(other, above, _) => self.leads_between(name, args, other, above.as_slice()),
            Ty::Same(_) => false,
            Ty::Rout(_, _, _) => false,
            Ty::Iter(_, _, _) => false,
        }
    }

    /// The same of two classes.
    #[tactic(auto, using(crate::proofs::Asking::betweens))]
    fn leads_between(&self, name: &Name, args: &[Ty], other: &Name, above: &[Ty]) -> bool
        ensures { result ≡ found_between (tables_in self.now) (class_in self.now name.now)
            (map bare args.now) (class_in self.now other.now) (map bare above.now) }
    {
        let Some(lower) = self.lineage.names.number(name) else {
            return false;
        };
        let Some(upper) = self.lineage.names.number(other) else {
            return false;
        };
        self.leads(lower, args, upper, above)
    }

    /// Whether a type is a supertype of every type: `$OB`, or a class that edges lead to from `$OB`.
    #[tactic(auto, using(crate::proofs::Asking::tops))]
    pub(crate) fn is_above_all(&self, t: &Ty) -> bool
        ensures { result ≡ tops_in self.now (bare t.now) }
    {
        match t {
            Ty::Named(name, args, _) => self.is_class_above_all(name, args.as_slice()),
            Ty::Same(_) => false,
            Ty::Rout(_, _, _) => false,
            Ty::Iter(_, _, _) => false,
        }
    }

    #[tactic(auto, using(crate::proofs::Asking::top_named))]
    fn is_class_above_all(&self, name: &Name, args: &[Ty]) -> bool
        ensures { result ≡ tops_in self.now (Named name.now (all_bare args.now)) }
    {
        if is_top(name, args) {
            return true;
        }
        self.is_above_top(name, args)
    }

    /// Whether edges lead from `$OB` to a class.
    #[tactic(auto, using(crate::proofs::Asking::betweens))]
    fn is_above_top(&self, name: &Name, args: &[Ty]) -> bool
        ensures { result ≡ found_between (tables_in self.now) (class_in self.now top_name)
            [] (class_in self.now name.now) (map bare args.now) }
    {
        let Some(lower) = self.top else {
            return false;
        };
        let Some(upper) = self.lineage.names.number(name) else {
            return false;
        };
        self.leads(lower, &[], upper, args)
    }
}

/// Whether it is `$OB`.
fn is_top(name: &Name, args: &[Ty]) -> bool
    ensures { result ≡ same_type top (Named name.now (all_bare args.now)) }
{
    is_top_name(name) && is_none(args)
}

fn is_top_name(name: &Name) -> bool
    ensures { result ≡ pointwise nat_eq top_name name.now }
{
    *TOP.as_slice() == *name.as_slice()
}

#[tactic(auto, using(crate::proofs::Asking::nones))]
fn is_none(args: &[Ty]) -> bool
    ensures { result ≡ same_types no_types (all_bare args.now) }
{
    if args.is_empty() {
        return true;
    }
    false
}
