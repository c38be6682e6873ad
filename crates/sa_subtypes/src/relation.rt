//! The subtype relation of a program: its declared edges at each instance, `$OB` as a supertype of every type, and the rule for bound
//! types.

ghost use Rattle.std.specs.Prelude.{◌≡◌};
ghost use Rattle.sa_subtypes.specs.SubtypeTest.{is_subtype, immutable_in};
ghost use Rattle.sa_unify.specs.Numbers.{kind_bare};
ghost use Rattle.sa_subtypes.specs.Subtypes.{is_immutable_kind};
ghost use Rattle.sa_ast.specs.Types.{bare};

use crate::edges::SubtypeRelation;
use sa_ast::{ClassKind, Ty};

impl SubtypeRelation {
    /// The index among the program's classes of the class with this name.
    pub fn class_place(&self, name: &[u8]) -> Option<u32> {
        self.lineage.names.class(name)
    }

    /// The index of a type's class in a topological order of the program's classes: each class is after those that its edges lead to.
    /// A bound type has none.
    pub fn rank(&self, t: &Ty) -> Option<u32> {
        match t {
            Ty::Named(name, _, _) => {
                let number = self.lineage.names.number(name)?;
                self.lineage.rank.get(number as usize).copied()
            }
            Ty::Same(_) | Ty::Rout(_, _, _) | Ty::Iter(_, _, _) => None,
        }
    }

    /// What kind of class a type is. A bound type is a reference class; SAME and a name that is no class have none.
    pub fn kind(&self, t: &Ty) -> Option<ClassKind>
        ensures { result ≡ kind_bare self.now.lineage.names (bare t.now) }
    {
        self.lineage.names.kind(t)
    }

    /// Whether a type is an immutable class.
    pub fn is_immutable(&self, t: &Ty) -> bool
        ensures { result ≡ immutable_in self.now (bare t.now) }
    {
        match self.kind(t) {
            None => false,
            Some(kind) => is_immutable_kind(kind),
        }
    }

    /// Whether `s` is a subtype of `t`. It takes no memory.
    pub fn is_sub(&self, s: &Ty, t: &Ty) -> bool
        ensures { result ≡ is_subtype self.now s.now t.now }
    {
        self.holds(s, t, false)
    }
}

/// Whether it is the kind of the immutable classes.
fn is_immutable_kind(kind: ClassKind) -> bool
    ensures { result ≡ is_immutable_kind kind }
{
    match kind {
        ClassKind::Reference => false,
        ClassKind::Immutable => true,
        ClassKind::Abstract => false,
        ClassKind::Partial => false,
    }
}
