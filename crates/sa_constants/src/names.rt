//! Which constant an expression names: `b` is one of the class itself, and `C::b` one of another class, which must be public unless that is
//! the class itself.

use failure::Failure;
use indexmap::IndexMap;
use sa_ast::{Expr, ExprReceiver, FeatureBody, Name};
use sa_instantiate::Instances;
use std::alloc::Global;

/// The constants of all instances, each by its instance and its index among the features there, in their order, with the number of the type
/// that it is declared with.
pub(crate) type Places = IndexMap<(u32, u32), Option<u32>>;

/// The constants of all instances.
pub(crate) fn places(alloc: Global, program: &Instances<'_>) -> Result<Places, Failure> {
    let mut places = IndexMap::new(alloc);
    for class in 0..program.count() {
        add_places(program, class, &mut places)?;
    }
    Ok(places)
}

fn add_places(program: &Instances<'_>, class: u32, places: &mut Places) -> Result<(), Failure> {
    for member in program.members(class) {
        if is_const(program, class, member.feature) {
            let ty = program.result(class, member);
            places.insert((class, member.feature), ty)?;
        }
    }
    Ok(())
}

/// Whether a feature of an instance is a constant.
fn is_const(program: &Instances<'_>, class: u32, feature: u32) -> bool {
    matches!(
        part(program, class, feature),
        Some(FeatureBody::Const(_, _))
    )
}

/// What a feature of an instance is.
pub(crate) fn part<'p>(
    program: &'p Instances<'_>,
    class: u32,
    feature: u32,
) -> Option<&'p FeatureBody> {
    Some(&program.feature(class, feature)?.part)
}

/// The constant that an expression of a class names.
pub(crate) fn named(program: &Instances<'_>, class: u32, e: &Expr) -> Option<(u32, u32)> {
    let Expr::Call(on, name, given, _) = e else {
        return None;
    };
    if !given.is_empty() {
        return None;
    }
    match on {
        ExprReceiver::Implied => const_of(program, class, class, name),
        ExprReceiver::OfClass(ty) => const_of(program, class, program.number_of(class, ty)?, name),
        ExprReceiver::Of(_) => None,
    }
}

/// The constant of a class with a name, as another class sees it.
fn const_of(program: &Instances<'_>, from: u32, class: u32, name: &Name) -> Option<(u32, u32)> {
    let is_own = program.is_same_class(from, class);
    for place in program.named(class, name.as_slice()) {
        if let Some(member) = program.member(class, *place)
            && (is_own || !member.private)
            && is_const(program, class, member.feature)
        {
            return Some((class, member.feature));
        }
    }
    None
}
