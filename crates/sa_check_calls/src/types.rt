//! Types by their numbers, and which type is assignable to which.
//!
//! The numbers less than the count of needed instances are theirs; the following ones are those of the bound types that binds make and that
//! are written nowhere in the program, in the order of the binds.

use crate::check_tables::CheckTables;
use crate::checked_expr::BodyOutput;
use failure::Failure;
use sa_ast::{ClassKind, Pos, Ty};
use sa_typed::TypedExpr;
use sqlite_items::Boxed;

/// The type with a number.
pub fn type_of<'a>(
    view: &'a CheckTables<'_>,
    built: &'a BodyOutput,
    number: u32,
) -> Option<&'a Ty> {
    let needed = view.program.count();
    if number < needed {
        return view.program.ty(number);
    }
    let (ty, _) = built.bound.get_index((number - needed) as usize)?;
    Some(ty)
}

/// The number of a type without parameters of the class and without SAME, or `None` where it is no needed instance, and no bind has made it
/// yet.
pub fn number_of(view: &CheckTables<'_>, built: &BodyOutput, ty: &Ty) -> Option<u32> {
    if let Some(number) = view.program.number(ty) {
        return Some(number);
    }
    let place = built.bound.get_index_of(ty)?;
    let place = u32::try_from(place).ok()?;
    view.program.count().checked_add(place)
}

/// The number of a type as the text of the class writes it.
pub fn written_type(view: &CheckTables<'_>, ty: &Ty) -> Option<u32> {
    match view.program.number_of(view.class, ty) {
        None => view.program.number(ty),
        number => number,
    }
}

/// Whether the type with the first number is a subtype of the type with the second.
pub fn is_sub(view: &CheckTables<'_>, built: &BodyOutput, s: u32, t: u32) -> bool {
    if s == t {
        return true;
    }
    match (type_of(view, built, s), type_of(view, built, t)) {
        (Some(s), Some(t)) => view.program.edges().is_sub(s, t),
        _ => false,
    }
}

/// A value of one type where another one is expected. A value of an immutable class is boxed where an abstract type is expected; the
/// position is that of the boxed expression.
pub fn boxed(
    view: &CheckTables<'_>,
    value: TypedExpr,
    from: u32,
    to: u32,
    pos: Pos,
) -> Result<TypedExpr, Failure> {
    if !is_boxing(view, from, to) {
        return Ok(value);
    }
    Ok(TypedExpr::Box(from, Boxed::new(view.alloc, value)?, pos))
}

/// Whether a value of the first type is boxed where the second type is expected.
fn is_boxing(view: &CheckTables<'_>, from: u32, to: u32) -> bool {
    kind_of(view, from) == ClassKind::Immutable && kind_of(view, to) == ClassKind::Abstract
}

/// The kind of the type with a number. A bound type has the kind of a reference class, also one that a bind makes.
pub fn kind_of(view: &CheckTables<'_>, number: u32) -> ClassKind {
    view.program.kind(number).unwrap_or(ClassKind::Reference)
}

/// Whether the type with a number is one of a class whose features are known: no abstract type.
pub fn is_concrete(view: &CheckTables<'_>, number: u32) -> bool {
    matches!(
        kind_of(view, number),
        ClassKind::Reference | ClassKind::Immutable
    )
}
