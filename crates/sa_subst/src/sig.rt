//! Needed instances, signatures and abstract types.

ghost use Rattle.std.specs.Prelude.{◌≡◌};
ghost use Rattle.sa_subst.specs.Abstract.{begins_dollar, is_abstract_type};

use sa_ast::{Class, ModeTy, Name, Ty};
use sqlite_items::Items;

/// A needed instance: a type with its class, in which types are substituted for the parameters and SAME. The class of a bound type
/// is a reference class of the name `ROUT` or `ITER` without parameters, supertypes or features.
#[derive(Drop)]
pub struct TypeInstance {
    pub ty: Ty,
    pub class: Class,
}

/// A signature: its name, its arguments with their modes, and its result.
#[derive(Drop)]
pub struct Sig {
    pub name: Name,
    pub args: Items<ModeTy>,
    pub result: Option<Ty>,
}

/// Whether the type is abstract: its name begins with `$`.
#[tactic(auto, using(sa_ast::proofs::BareTypes::bares), unfolding(crate::specs::Abstract::is_abstract_type))]
pub fn is_abstract(t: &Ty) -> bool
    ensures { result ≡ is_abstract_type t.now }
{
    match t {
        Ty::Named(name, _, _) => begins_with_dollar(name.as_slice()),
        Ty::Same(_) => false,
        Ty::Rout(_, _, _) => false,
        Ty::Iter(_, _, _) => false,
    }
}

/// Whether a name is that of an abstract type.
fn begins_with_dollar(name: &[u8]) -> bool
    ensures { result ≡ begins_dollar name.now }
{
    match name {
        [] => false,
        [first, ..] => *first == b'$',
    }
}
