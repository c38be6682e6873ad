//! The subtype relation by the rule for bound types: their arguments one by one, and their results.

ghost use Rattle.std.specs.Prelude.{◌≡◌, ◌||◌, cond, not};
ghost use Rattle.sa_subtypes.specs.Bounds.{arg_holds, args_hold, goes_by, holds, result_holds, rises, occurs_as};
ghost use Rattle.sa_subtypes.specs.SubtypeTest.{climbs_in, immutable_in, tops_in};
ghost use Rattle.sa_ast.specs.TypeEquality.{same_mode, same_type};
ghost use Rattle.sa_ast.specs.Types.{all_bare_args, bare, bare_arg, option_bare};

use crate::edges::SubtypeRelation;
use sa_ast::{Mode, ModeTy, Ty};
use sqlite_items::Boxed;

impl SubtypeRelation {
    /// Whether the first type is a subtype of the second, or, reversed, the second of the first.
    #[tactic(auto, using(crate::proofs::Bounding::holding))]
    #[cycle(holds)]
    pub(crate) fn holds(&self, one: &Ty, other: &Ty, turned: bool) -> bool
        ensures { result ≡ holds (tops_in self.now) (climbs_in self.now) (immutable_in self.now) (bare one.now) (bare other.now) turned }
    {
        match one {
            Ty::Named(_, _, _) => self.rises(one, other, turned),
            Ty::Same(_) => self.rises(one, other, turned),
            Ty::Rout(args, result, _) => match other {
                Ty::Rout(others, other_result, _) => {
                    if self.is_topped(one, other, turned) {
                        return true;
                    }
                    if !self.args_hold(args.as_slice(), others.as_slice(), turned) {
                        return false;
                    }
                    self.result_holds(result, other_result, turned)
                }
                _ => self.rises(one, other, turned),
            },
            Ty::Iter(args, result, _) => match other {
                Ty::Iter(others, other_result, _) => {
                    if self.is_topped(one, other, turned) {
                        return true;
                    }
                    if !self.args_hold(args.as_slice(), others.as_slice(), turned) {
                        return false;
                    }
                    self.result_holds(result, other_result, turned)
                }
                _ => self.rises(one, other, turned),
            },
        }
    }

    /// The rule for the arguments of bound types: equally many, each by its mode.
    #[tactic(auto, using(crate::proofs::Bounding::arguments))]
    #[cycle(holds)]
    fn args_hold(&self, list: &[ModeTy], others: &[ModeTy], turned: bool) -> bool
        ensures { result ≡ args_hold (tops_in self.now) (climbs_in self.now)
            (immutable_in self.now) (all_bare_args list.now) (all_bare_args others.now) turned }
    {
        if list.len() != others.len() {
            return false;
        }
        for (i, arg) in list.iter().enumerate() {
            if !self.arg_holds(arg, &others[i], turned) {
                return false;
            }
        }
        true
    }

    /// The rule for an argument of bound types: the modes are equal; if one type is an immutable class, the types are
    /// equal; else the mode decides the variance.
    #[tactic(auto, using(crate::proofs::Bounding::argument))]
    #[cycle(holds)]
    fn arg_holds(&self, arg: &ModeTy, other: &ModeTy, turned: bool) -> bool
        ensures { result ≡ arg_holds (tops_in self.now) (climbs_in self.now)
            (immutable_in self.now) (bare_arg arg.now) (bare_arg other.now) turned }
    {
        if !is_same_mode(arg.mode, other.mode) {
            return false;
        }
        if self.is_fixed(&arg.ty, &other.ty) {
            return arg.ty == other.ty;
        }
        self.goes_by(arg.mode, &arg.ty, &other.ty, turned)
    }

    /// `in` and `once` are contravariant, `inout` types are equal, and `out` is covariant.
    #[cycle(holds)]
    fn goes_by(&self, mode: Mode, one: &Ty, other: &Ty, turned: bool) -> bool
        ensures { result ≡ goes_by mode (same_type (bare one.now) (bare other.now))
            (holds (tops_in self.now) (climbs_in self.now) (immutable_in self.now) (bare one.now) (bare other.now) turned)
            (holds (tops_in self.now) (climbs_in self.now) (immutable_in self.now) (bare one.now) (bare other.now) (not turned)) }
    {
        match mode {
            Mode::In => self.holds(one, other, !turned),
            Mode::Once => self.holds(one, other, !turned),
            Mode::Inout => *one == *other,
            Mode::Out => self.holds(one, other, turned),
        }
    }

    /// The rule for the results of bound types: both have one or neither has; if one type is an immutable class, the
    /// types are equal; else it is covariant.
    #[tactic(auto, using(crate::proofs::Bounding::results))]
    #[cycle(holds)]
    fn result_holds(&self, of: &Option<Boxed<Ty>>, other: &Option<Boxed<Ty>>, turned: bool) -> bool
        ensures { result ≡ result_holds (tops_in self.now) (climbs_in self.now)
            (immutable_in self.now) (option_bare of.now) (option_bare other.now) turned }
    {
        match of {
            None => other.is_none(),
            Some(one) => match other {
                None => false,
                Some(other) => {
                    let one = one.get();
                    let other = other.get();
                    if self.is_fixed(one, other) {
                        return *one == *other;
                    }
                    self.holds(one, other, turned)
                }
            },
        }
    }

    /// Whether one of two types is an immutable class.
    fn is_fixed(&self, one: &Ty, other: &Ty) -> bool
        ensures { result ≡ (immutable_in self.now (bare one.now) || immutable_in self.now (bare other.now)) }
    {
        self.is_immutable(one) || self.is_immutable(other)
    }

    /// Whether the second of two types (reversed, the first) is a supertype of every type, or edges lead to it from the other.
    fn rises(&self, one: &Ty, other: &Ty, turned: bool) -> bool
        ensures { result ≡ rises (tops_in self.now) (climbs_in self.now) (immutable_in self.now) (bare one.now) (bare other.now) turned }
    {
        if self.is_topped(one, other, turned) {
            return true;
        }
        if turned {
            return self.climbs(other, one);
        }
        self.climbs(one, other)
    }

    fn is_topped(&self, one: &Ty, other: &Ty, turned: bool) -> bool
        ensures { result ≡ tops_in self.now (cond turned (bare one.now) (bare other.now)) }
    {
        if turned {
            return self.is_above_all(one);
        }
        self.is_above_all(other)
    }
}

fn is_same_mode(one: Mode, other: Mode) -> bool
    ensures { result ≡ same_mode one other }
{
    one == other
}
