//! The types of expressions, parameters, and callees.

ghost use Rattle.std.specs.Prelude.{◌≡◌};
ghost use Rattle.sa_typing.specs.ExprType.{agree, is_just, is_plain, is_value, result_of, same_param, same_type};
ghost use Rattle.sa_ast.specs.TypeEquality.{same_mode};

use sa_ast::Mode;
use sa_typed::Target;

/// The type of an expression.
#[derive(Clone, Copy)]
pub enum ExprType {
    /// No value.
    NoValue,
    /// A value of the type with this number.
    Of(u32),
    /// A value of the immutable class with this number, boxed to be one of an abstract type.
    BoxedOf(u32),
}

impl ExprType {
    /// Whether it is a value of this type that isn't boxed.
    pub fn is_plain(self, ty: u32) -> bool
        ensures { result ≡ is_plain ty self }
    {
        match self {
            ExprType::Of(own) => own == ty,
            ExprType::NoValue | ExprType::BoxedOf(_) => false,
        }
    }

    /// Whether it is a value.
    pub fn is_value(self) -> bool
        ensures { result ≡ is_value self }
    {
        match self {
            ExprType::Of(_) | ExprType::BoxedOf(_) => true,
            ExprType::NoValue => false,
        }
    }

    /// The type of a call whose result has this type, or that has no result.
    pub fn of_result(result_type: Option<u32>) -> ExprType
        ensures { result ≡ result_of result_type }
    {
        match result_type {
            Some(ty) => ExprType::Of(ty),
            None => ExprType::NoValue,
        }
    }
}

/// A parameter of a callee: its mode, and the number of its type.
#[derive(Clone, Copy)]
pub struct ParamType {
    pub mode: Mode,
    pub ty: u32,
}

/// Whether two parameters have one mode and one type.
pub(crate) fn is_same_param(one: ParamType, other: ParamType) -> bool
    ensures { result ≡ same_param one other }
{
    is_same_mode(one.mode, other.mode) && one.ty == other.ty
}

/// Whether two modes are equal.
pub(crate) fn is_same_mode(one: Mode, other: Mode) -> bool
    ensures { result ≡ same_mode one other }
{
    match one {
        Mode::In => matches!(other, Mode::In),
        Mode::Out => matches!(other, Mode::Out),
        Mode::Inout => matches!(other, Mode::Inout),
        Mode::Once => matches!(other, Mode::Once),
    }
}

/// Whether both are the same type, or there is none.
pub(crate) fn is_same_type(one: Option<u32>, other: Option<u32>) -> bool
    ensures { result ≡ same_type one other }
{
    match (one, other) {
        (Some(one), Some(other)) => one == other,
        (None, None) => true,
        _ => false,
    }
}

/// Whether there is a type, and it is this one.
pub(crate) fn is_just(ty: u32, found: Option<u32>) -> bool
    ensures { result ≡ is_just ty found }
{
    match found {
        Some(found) => found == ty,
        None => false,
    }
}

/// Whether there is a count, and it is this one.
pub(crate) fn is_count(count: usize, found: Option<usize>) -> bool
    ensures { result ≡ is_just count found }
{
    match found {
        Some(found) => found == count,
        None => false,
    }
}

/// Whether both hold, or neither.
pub(crate) fn agree(one: bool, other: bool) -> bool
    ensures { result ≡ agree one other }
{
    if one { other } else { !other }
}

/// The callee of a call, resolved by its receiver.
#[derive(Clone, Copy)]
pub enum ResolvedCallee {
    /// A target of the type with this number.
    Target(Target, u32),
    /// The implementation of the signature with this number.
    Signature(u32),
    /// A bound value of the type with this number.
    Bound(u32),
}
