//! Substitution of types for the parameters of a class and for SAME.
//!
//! A parameter is a name without arguments; a name that is written with arguments is the name of a class. A type that is substituted
//! for a parameter or for SAME gets the position of the name that it replaces, and the types inside it keep their own positions.

ghost use Rattle.std.specs.Prelude.{◌≡◌, IfOk, map};
ghost use Rattle.std.specs.Option.{option_copied, option_map};
ghost use Rattle.sa_subst.specs.Substitution.{HasPlaces, given_for, named, named_alone, placed, substituted, substituted_arg};
ghost use Rattle.sa_subst.specs.Table.{IsTableFor, value_in};

use failure::Failure;
use sa_ast::{ModeTy, Name, Pos, Ty, TypeParam};
use sqlite_items::{Boxed, Items};
use std::alloc::Global;
use std::collections::HashMap;

/// The types that are substituted for the parameters of a class and for SAME, with a table of the parameters, for callers that
/// substitute them in many types.
#[derive(Drop)]
pub struct Substitution<'a> {
    places: HashMap<Name, usize>,
    given: &'a [Ty],
    same: &'a Ty,
}

impl<'a> Substitution<'a> {
    /// The substitution of the given types for the parameters, in order, and of `same` for SAME. A parameter without a
    /// given type at its index stays as it is. Of two parameters with one name the first counts. It fails only where
    /// memory runs out.
    pub fn make(
        alloc: Global,
        params: &[TypeParam],
        given: &'a [Ty],
        same: &'a Ty,
    ) -> Result<Substitution<'a>, Failure>
        ensures { IfOk result (IsTableFor params.now given.now same.now) }
    {
        let places = places_of(alloc, params)?;
        Ok(Substitution {
            places,
            given,
            same,
        })
    }

    /// The type that replaces a name without arguments, if it is a parameter with a given type.
    fn of_name(&self, name: &Name) -> Option<&Ty>
        ensures { option_copied result ≡ value_in self.now name.now }
    {
        let place = *self.places.get(name)?;
        self.given.get(place)
    }
}

/// The indices of the parameters by their names. Of two with one name the first counts.
fn places_of(alloc: Global, params: &[TypeParam]) -> Result<HashMap<Name, usize>, Failure>
    ensures { IfOk result (λ table. HasPlaces table params.now 0) }
{
    let mut places = HashMap::new(alloc);
    let mut at = params.len();
    'params: while at > 0 {
        at -= 1;
        places.insert(params[at].name.name.copy(alloc)?, at)?;
    }
    Ok(places)
}

/// The type with the given types substituted for the parameters, in order, and `same` for SAME. A parameter without
/// a given type at its index stays as it is. It fails only where memory runs out.
pub fn subst(
    alloc: Global,
    t: &Ty,
    params: &[TypeParam],
    given: &[Ty],
    same: &Ty,
) -> Result<Ty, Failure>
    ensures { IfOk result (λ ty. ty ≡ substituted (given_for params.now given.now) same.now t.now) }
{
    let by = Substitution::make(alloc, params, given, same)?;
    subst_with(alloc, t, &by)
}

/// The type with this substitution made in it. It fails only where memory runs out.
#[tactic(auto, using(crate::proofs::Substituting::substituting))]
#[cycle(subst)]
pub fn subst_with(alloc: Global, t: &Ty, by: &Substitution<'_>) -> Result<Ty, Failure>
    ensures { IfOk result (λ ty. ty ≡ substituted (value_in by.now) by.now.same.now t.now) }
{
    match t {
        Ty::Named(name, args, pos) => subst_named(alloc, name, args.as_slice(), *pos, by),
        Ty::Same(pos) => placed_at(alloc, by.same, *pos),
        Ty::Rout(args, result, pos) => {
            let args = subst_args(alloc, args.as_slice(), by)?;
            Ok(Ty::Rout(args, subst_result(alloc, result, by)?, *pos))
        }
        Ty::Iter(args, result, pos) => {
            let args = subst_args(alloc, args.as_slice(), by)?;
            Ok(Ty::Iter(args, subst_result(alloc, result, by)?, *pos))
        }
    }
}

/// The same in a name with its arguments.
#[tactic(auto, using(crate::proofs::Substituting::substituting))]
#[cycle(subst)]
fn subst_named(
    alloc: Global,
    name: &Name,
    args: &[Ty],
    pos: Pos,
    by: &Substitution<'_>,
) -> Result<Ty, Failure>
    ensures { IfOk result (λ ty. ty ≡ named (value_in by.now) name.now (map (substituted (value_in by.now) by.now.same.now) args.now) pos) }
{
    if args.is_empty() {
        return alone(alloc, name, pos, by);
    }
    let name = name.copy(alloc)?;
    Ok(Ty::Named(name, subst_types(alloc, args, by)?, pos))
}

/// The same in a name without arguments.
fn alone(alloc: Global, name: &Name, pos: Pos, by: &Substitution<'_>) -> Result<Ty, Failure>
    ensures { IfOk result (λ ty. ty ≡ named_alone (value_in by.now name.now) name.now pos) }
{
    match by.of_name(name) {
        Some(given) => placed_at(alloc, given, pos),
        None => Ok(Ty::Named(name.copy(alloc)?, Items::new(alloc), pos)),
    }
}

/// The same in each of these types.
#[tactic(auto, using(crate::proofs::Substituting::substituting))]
#[cycle(subst)]
pub fn subst_types(alloc: Global, types: &[Ty], by: &Substitution<'_>) -> Result<Items<Ty>, Failure>
    ensures { IfOk result (λ list. list ≡ map (substituted (value_in by.now) by.now.same.now) types.now) }
{
    let mut copies = Items::new(alloc);
    for ty in types {
        copies.push(subst_with(alloc, ty, by)?)?;
    }
    Ok(copies)
}

/// The same in each argument of a bound type.
#[tactic(auto, using(crate::proofs::Substituting::substituting))]
#[cycle(subst)]
fn subst_args(
    alloc: Global,
    args: &[ModeTy],
    by: &Substitution<'_>,
) -> Result<Items<ModeTy>, Failure>
    ensures { IfOk result (λ list. list ≡ map (substituted_arg (value_in by.now) by.now.same.now) args.now) }
{
    let mut copies = Items::new(alloc);
    for arg in args {
        copies.push(subst_arg(alloc, arg, by)?)?;
    }
    Ok(copies)
}

/// The same in an argument of a bound type.
#[tactic(auto, using(crate::proofs::Substituting::substituting))]
#[cycle(subst)]
fn subst_arg(alloc: Global, arg: &ModeTy, by: &Substitution<'_>) -> Result<ModeTy, Failure>
    ensures { IfOk result (λ copy. copy ≡ substituted_arg (value_in by.now) by.now.same.now arg.now) }
{
    let ty = subst_with(alloc, &arg.ty, by)?;
    Ok(ModeTy { mode: arg.mode, ty })
}

/// The same in the result of a bound type.
#[tactic(auto, using(crate::proofs::Substituting::substituting))]
#[cycle(subst)]
fn subst_result(
    alloc: Global,
    of: &Option<Boxed<Ty>>,
    by: &Substitution<'_>,
) -> Result<Option<Boxed<Ty>>, Failure>
    ensures { IfOk result (λ copy. copy ≡ option_map (substituted (value_in by.now) by.now.same.now) of.now) }
{
    match of {
        None => Ok(None),
        Some(ty) => Ok(Some(Boxed::new(alloc, subst_with(alloc, ty.get(), by)?)?)),
    }
}

/// The type at another position. The types inside it keep their own.
#[tactic(auto, using(crate::proofs::Substituting::placing))]
fn placed_at(alloc: Global, ty: &Ty, pos: Pos) -> Result<Ty, Failure>
    ensures { IfOk result (λ copy. copy ≡ placed ty.now pos) }
{
    Ok(match ty.copy(alloc)? {
        Ty::Named(name, args, _) => Ty::Named(name, args, pos),
        Ty::Same(_) => Ty::Same(pos),
        Ty::Rout(args, result, _) => Ty::Rout(args, result, pos),
        Ty::Iter(args, result, _) => Ty::Iter(args, result, pos),
    })
}
