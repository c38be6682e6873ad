//! Copies of a typed expression: where several names have one initialiser, each has its own copy.

use sa_typed::{TypedArg, TypedExpr};
use sqlite_items::{Boxed, Items};
use std::alloc::{AllocError, Global};

/// The same expression once more, with the same sites. It fails only where memory runs out.
#[cycle(copy)]
pub(crate) fn copy(alloc: Global, e: &TypedExpr) -> Result<TypedExpr, AllocError> {
    match e {
        TypedExpr::Int(value) => Ok(TypedExpr::Int(*value)),
        TypedExpr::Bool(value) => Ok(TypedExpr::Bool(*value)),
        TypedExpr::Char(value) => Ok(TypedExpr::Char(*value)),
        TypedExpr::Text(text) => Ok(TypedExpr::Text(text.copy(alloc)?)),
        TypedExpr::VoidValue(ty) => Ok(TypedExpr::VoidValue(*ty)),
        TypedExpr::SelfRef => Ok(TypedExpr::SelfRef),
        TypedExpr::Var(number) => Ok(TypedExpr::Var(*number)),
        TypedExpr::Exception => Ok(TypedExpr::Exception),
        TypedExpr::IsVoid(of) => Ok(TypedExpr::IsVoid(boxed(alloc, of)?)),
        TypedExpr::New(ty, pos) => Ok(TypedExpr::New(*ty, *pos)),
        TypedExpr::NewArray(ty, of, pos) => Ok(TypedExpr::NewArray(*ty, boxed(alloc, of)?, *pos)),
        TypedExpr::Array(ty, list, pos) => {
            Ok(TypedExpr::Array(*ty, exprs(alloc, list.as_slice())?, *pos))
        }
        TypedExpr::Call(called, of, list, pos) => {
            let of = boxed(alloc, of)?;
            Ok(TypedExpr::Call(*called, of, args(alloc, list.as_slice())?, *pos))
        }
        TypedExpr::IterCall(site, of, list, pos) => {
            let of = boxed(alloc, of)?;
            Ok(TypedExpr::IterCall(*site, of, args(alloc, list.as_slice())?, *pos))
        }
        TypedExpr::Bind(called, of, list, ty, pos) => {
            let of = boxed(alloc, of)?;
            Ok(TypedExpr::Bind(*called, of, args(alloc, list.as_slice())?, *ty, *pos))
        }
        TypedExpr::Reversed(target, left, right, pos) => {
            let left = boxed(alloc, left)?;
            Ok(TypedExpr::Reversed(*target, left, boxed(alloc, right)?, *pos))
        }
        TypedExpr::And(left, right) => {
            let left = boxed(alloc, left)?;
            Ok(TypedExpr::And(left, boxed(alloc, right)?))
        }
        TypedExpr::Or(left, right) => {
            let left = boxed(alloc, left)?;
            Ok(TypedExpr::Or(left, boxed(alloc, right)?))
        }
        TypedExpr::Box(ty, of, pos) => Ok(TypedExpr::Box(*ty, boxed(alloc, of)?, *pos)),
    }
}

#[cycle(copy)]
fn boxed(alloc: Global, e: &Boxed<TypedExpr>) -> Result<Boxed<TypedExpr>, AllocError> {
    let copied = copy(alloc, e.get())?;
    Ok(Boxed::new(alloc, copied)?)
}

#[cycle(copy)]
fn exprs(alloc: Global, list: &[TypedExpr]) -> Result<Items<TypedExpr>, AllocError> {
    let mut copies = Items::new(alloc);
    for e in list {
        copies.push(copy(alloc, e)?)?;
    }
    Ok(copies)
}

#[cycle(copy)]
fn args(alloc: Global, list: &[TypedArg]) -> Result<Items<TypedArg>, AllocError> {
    let mut copies = Items::new(alloc);
    for arg in list {
        copies.push(argument(alloc, arg)?)?;
    }
    Ok(copies)
}

#[cycle(copy)]
fn argument(alloc: Global, arg: &TypedArg) -> Result<TypedArg, AllocError> {
    match arg {
        TypedArg::Value(mode, e) => Ok(TypedArg::Value(*mode, copy(alloc, e)?)),
        TypedArg::Variable(mode, number) => Ok(TypedArg::Variable(*mode, *number)),
        TypedArg::Open => Ok(TypedArg::Open),
    }
}
