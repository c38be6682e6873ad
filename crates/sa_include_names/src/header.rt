//! The names in headers and include clauses: each is that of a class, or of a parameter, that is allowed there (E12).

ghost use Rattle.std.specs.Prelude.{◌≡◌, ◌&&◌, ◌==◌, IfOk, None, cond, flat_map, length};
ghost use Rattle.sa_include_names.specs.Headers.{is_never_included, misused, misused_arg, misused_class, misused_names, misused_option};
ghost use Rattle.sa_include_names.specs.Headers.{misused_types};
ghost use Rattle.sa_include_names.specs.Tables.{HasNumbers, first, hidden_in, includes_in, misused_above_in, misused_class_in};
ghost use Rattle.sa_include_names.specs.Tables.{misused_include_in, number_in, passes_in, occurs_in};

use crate::graph::is_marked;
use crate::names::{ClassNumbers, ParamNames};
use failure::Failure;
use sa_ast::{Class, ClassKind, Include, ModeTy, Name, Pos, Ty, TypeParam};
use sqlite_items::Boxed;
use std::alloc::Global;

/// What names denote in a class.
#[derive(Drop)]
struct NameScope<'a> {
    classes: &'a [Class],
    numbers: &'a ClassNumbers,
    /// For each class whether it is AREF or reaches it by its includes.
    arrays: &'a [bool],
    /// The kind of the class.
    kind: ClassKind,
    params: ParamNames,
}

/// The position of the first type in a header or an include clause, in source order and a type before those inside it, whose name
/// isn't allowed there.
#[tactic(auto, using(crate::proofs::Misuses::firsts), unfolding(crate::specs::Headers::misused_names))]
pub(crate) fn first_misused(
    alloc: Global,
    classes: &[Class],
    numbers: &ClassNumbers,
    arrays: &[bool],
) -> Result<Option<Pos>, Failure>
    requires { HasNumbers classes.now numbers.now }
    ensures { IfOk result (λ pos. pos ≡ first (misused_names classes.now arrays.now)) }
{
    for class in classes {
        if let Some(pos) = in_one(alloc, classes, numbers, arrays, class)? {
            return Ok(Some(pos));
        }
    }
    Ok(None)
}

/// The same in one of the classes.
#[tactic(auto, using(crate::proofs::Scopes::scopes))]
fn in_one(
    alloc: Global,
    classes: &[Class],
    numbers: &ClassNumbers,
    arrays: &[bool],
    class: &Class,
) -> Result<Option<Pos>, Failure>
    requires { HasNumbers classes.now numbers.now }
    ensures { IfOk result (λ pos. pos ≡ first (misused_class classes.now arrays.now class.now)) }
{
    let scope = NameScope {
        classes,
        numbers,
        arrays,
        kind: class.kind,
        params: ParamNames::new(alloc, class.params.as_slice())?,
    };
    let pos = in_class(&scope, class);
    Ok(pos)
}

/// The same in the header of a class, in which are the bounds of parameters, the types after `<` and those after `>`, and in its
/// include clauses.
#[tactic(auto, using(crate::proofs::Misuses::firsts), unfolding(crate::specs::Headers::misused_in))]
fn in_class(scope: &NameScope<'_>, class: &Class) -> Option<Pos>
    ensures { result ≡ first (misused_class_in scope.now class.now) }
{
    match in_bounds(scope, class.params.as_slice()) {
        Some(pos) => Some(pos),
        None => match in_types(scope, class.below.as_slice()) {
            Some(pos) => Some(pos),
            None => match in_all_above(scope, class.above.as_slice()) {
                Some(pos) => Some(pos),
                None => in_includes(scope, class.includes.as_slice()),
            },
        },
    }
}

#[tactic(auto, using(crate::proofs::Misuses::firsts))]
fn in_bounds(scope: &NameScope<'_>, params: &[TypeParam]) -> Option<Pos>
    ensures { result ≡ first (flat_map (λ p. misused_option (occurs_in scope.now) p.bound) params.now) }
{
    for param in params {
        if let Some(pos) = in_bound(scope, &param.bound) {
            return Some(pos);
        }
    }
    None
}

fn in_bound(scope: &NameScope<'_>, bound: &Option<Ty>) -> Option<Pos>
    ensures { result ≡ first (misused_option (occurs_in scope.now) bound.now) }
{
    match bound {
        None => None,
        Some(ty) => in_type(scope, ty),
    }
}

#[tactic(auto, using(crate::proofs::Misuses::firsts))]
fn in_all_above(scope: &NameScope<'_>, above: &[Ty]) -> Option<Pos>
    ensures { result ≡ first (flat_map (misused_above_in scope.now) above.now) }
{
    for ty in above {
        if let Some(pos) = in_above(scope, ty) {
            return Some(pos);
        }
    }
    None
}

/// The same in a type after `>`, which is no bound type and no parameter.
#[tactic(auto, using(crate::proofs::Misuses::above))]
fn in_above(scope: &NameScope<'_>, ty: &Ty) -> Option<Pos>
    ensures { result ≡ first (misused_above_in scope.now ty.now) }
{
    match ty {
        Ty::Named(name, given, pos) => {
            if is_param(scope, name, given.as_slice()) {
                return Some(*pos);
            }
            in_type(scope, ty)
        }
        Ty::Same(_) => None,
        Ty::Rout(_, _, pos) => Some(*pos),
        Ty::Iter(_, _, pos) => Some(*pos),
    }
}

/// Whether a name with these parameters is that of a parameter of the class.
fn is_param(scope: &NameScope<'_>, name: &Name, given: &[Ty]) -> bool
    ensures { result ≡ ((length given.now == 0) && hidden_in scope.now.params name.now) }
{
    given.is_empty() && scope.params.hides(name)
}

/// The same in a type: each name in it is that of a parameter, or of a class that isn't partial.
#[tactic(auto, using(crate::proofs::Misuses::misuses))]
#[cycle(types)]
fn in_type(scope: &NameScope<'_>, ty: &Ty) -> Option<Pos>
    ensures { result ≡ first (misused (occurs_in scope.now) ty.now) }
{
    match ty {
        Ty::Named(name, given, pos) => {
            if !may_occur(scope, name, given.as_slice()) {
                return Some(*pos);
            }
            in_types(scope, given.as_slice())
        }
        Ty::Same(_) => None,
        Ty::Rout(args, result, _) => match in_args(scope, args.as_slice()) {
            Some(pos) => Some(pos),
            None => in_result(scope, result),
        },
        Ty::Iter(args, result, _) => match in_args(scope, args.as_slice()) {
            Some(pos) => Some(pos),
            None => in_result(scope, result),
        },
    }
}

#[tactic(auto, using(crate::proofs::Misuses::misuses))]
#[cycle(types)]
fn in_types(scope: &NameScope<'_>, types: &[Ty]) -> Option<Pos>
    ensures { result ≡ first (misused_types (occurs_in scope.now) types.now) }
{
    for ty in types {
        if let Some(pos) = in_type(scope, ty) {
            return Some(pos);
        }
    }
    None
}

#[tactic(auto, using(crate::proofs::Misuses::misuses))]
#[cycle(types)]
fn in_args(scope: &NameScope<'_>, args: &[ModeTy]) -> Option<Pos>
    ensures { result ≡ first (flat_map (misused_arg (occurs_in scope.now)) args.now) }
{
    for arg in args {
        if let Some(pos) = in_type(scope, &arg.ty) {
            return Some(pos);
        }
    }
    None
}

#[tactic(auto, using(crate::proofs::Misuses::misuses))]
#[cycle(types)]
fn in_result(scope: &NameScope<'_>, of: &Option<Boxed<Ty>>) -> Option<Pos>
    ensures { result ≡ first (misused_option (occurs_in scope.now) of.now) }
{
    match of {
        None => None,
        Some(ty) => in_type(scope, ty.get()),
    }
}

/// Whether a name with these parameters is allowed as a type: alone it may be that of a parameter. Partial classes are no
/// types, nor are those that a parameter hides.
fn may_occur(scope: &NameScope<'_>, name: &Name, given: &[Ty]) -> bool
    ensures { result ≡ occurs_in scope.now name.now (length given.now == 0) }
{
    if given.is_empty() && scope.params.hides(name) {
        return true;
    }
    match class_of(scope, name) {
        Some(number) => match scope.classes.get(number as usize) {
            Some(class) => class.kind != ClassKind::Partial,
            None => false,
        },
        None => false,
    }
}

/// The number of the class of this name, unless a parameter hides it.
fn class_of(scope: &NameScope<'_>, name: &Name) -> Option<u32>
    ensures { result ≡ cond (hidden_in scope.now.params name.now) None (number_in scope.now.numbers.now name.now) }
{
    if scope.params.hides(name) {
        None
    } else {
        scope.numbers.of(name)
    }
}

#[tactic(auto, using(crate::proofs::Misuses::firsts))]
fn in_includes(scope: &NameScope<'_>, includes: &[Include]) -> Option<Pos>
    ensures { result ≡ first (flat_map (λ i. misused_include_in scope.now i.ty) includes.now) }
{
    for include in includes {
        if let Some(pos) = in_include(scope, &include.ty) {
            return Some(pos);
        }
    }
    None
}

/// The same in the type of an include clause: that of a class that may be included in the class. What it is given are types.
#[tactic(auto, using(crate::proofs::Misuses::including))]
fn in_include(scope: &NameScope<'_>, ty: &Ty) -> Option<Pos>
    ensures { result ≡ first (misused_include_in scope.now ty.now) }
{
    match ty {
        Ty::Named(name, given, pos) => {
            if !may_include(scope, name) {
                return Some(*pos);
            }
            in_types(scope, given.as_slice())
        }
        Ty::Same(pos) => Some(*pos),
        Ty::Rout(_, _, pos) => Some(*pos),
        Ty::Iter(_, _, pos) => Some(*pos),
    }
}

/// Whether the class may include the class with this name: an abstract class and the classes of the built-in values and of
/// input and output are never included, and an immutable class has no array part.
#[tactic(auto, unfolding(crate::specs::Headers::may_include))]
fn may_include(scope: &NameScope<'_>, name: &Name) -> bool
    ensures { result ≡ includes_in scope.now name.now }
{
    match class_of(scope, name) {
        Some(number) => match scope.classes.get(number as usize) {
            Some(class) => passes(scope, name, number, class),
            None => false,
        },
        None => false,
    }
}

/// The same of the class with this name and number.
fn passes(scope: &NameScope<'_>, name: &Name, number: u32, class: &Class) -> bool
    ensures { result ≡ passes_in scope.now name.now number class.now }
{
    if class.kind == ClassKind::Abstract {
        return false;
    }
    if is_never_included(name.as_slice()) {
        return false;
    }
    if scope.kind != ClassKind::Immutable {
        return true;
    }
    !is_marked(scope.arrays, number)
}

/// Whether it is one of the classes of the prelude that can't be included in any class.
#[tactic(auto, unfolding(crate::specs::Headers::is_never_included))]
fn is_never_included(name: &[u8]) -> bool
    ensures { result ≡ is_never_included name.now }
{
    name == b"BOOL".as_slice()
        || name == b"INT".as_slice()
        || name == b"CHAR".as_slice()
        || name == b"STR".as_slice()
        || name == b"OUT".as_slice()
        || name == b"IN".as_slice()
        || name == b"SYS".as_slice()
}
