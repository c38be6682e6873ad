//! What typing a form gives before the type that its context expects is known.
//!
//! `void`, `#(..)` without a type and an array literal are contextual: they take the type that their context expects, which may be known
//! only once the enclosing call is resolved. Their subexpressions are typed from left to right all the same, and only the contextual form
//! waits for its type.

use crate::{CheckedExpr, Variable};
use failure::{Failure, Invariant, broken};
use sa_ast::{Mode, Pos};
use sa_typed::TypedExpr;
use std::alloc::Global;

/// An expression whose children are typed: with the type that it has by itself, or else to be checked against the type that its context
/// expects.
#[cycle(synthesised)]
#[derive(Drop)]
pub enum Synthesised {
    /// An expression that has a type by itself, with its position.
    Typed(CheckedExpr, Pos),
    /// `void`
    Void(Pos),
    /// `#(..)` without a type
    Create(Vec<SynthesisedArg>, Pos),
    /// An array literal
    Items(Vec<Synthesised>, Pos),
}

/// An argument whose children are typed.
#[cycle(synthesised)]
#[derive(Drop)]
pub enum SynthesisedArg {
    Value(Synthesised),
    /// A variable that the call writes: the mode is `out` or `inout`.
    Variable(Mode, Variable),
    /// An argument that a bind leaves open, with the number of its type where one is written.
    Open(Option<u32>),
}

impl SynthesisedArg {
    /// The mode that is written at the argument.
    pub(crate) fn mode(&self) -> Mode {
        match self {
            SynthesisedArg::Value(_) | SynthesisedArg::Open(_) => Mode::In,
            SynthesisedArg::Variable(mode, _) => *mode,
        }
    }

    /// Whether a bind leaves it open.
    pub fn is_open(&self) -> bool {
        matches!(self, SynthesisedArg::Open(_))
    }
}

impl Synthesised {
    /// The position of the expression.
    pub fn pos(&self) -> Pos {
        match self {
            Synthesised::Typed(_, pos)
            | Synthesised::Void(pos)
            | Synthesised::Create(_, pos)
            | Synthesised::Items(_, pos) => *pos,
        }
    }

    /// The first iter call in one that has a type by itself.
    pub fn iter(&self) -> Option<Pos> {
        match self {
            Synthesised::Typed(value, _) => value.iter,
            _ => None,
        }
    }

    /// The expression, where it has a type by itself.
    pub fn into_expr(self) -> Result<TypedExpr, Failure> {
        match self {
            Synthesised::Typed(value, _) => Ok(value.core),
            _ => broken(Invariant::ExcludedForm),
        }
    }

    /// Whether it has a type by itself.
    pub(crate) fn is_typed(&self) -> bool {
        matches!(self, Synthesised::Typed(_, _))
    }
}

/// A value as the only argument of a call. It fails only where memory runs out.
pub fn only_argument(alloc: Global, value: Synthesised) -> Result<Vec<SynthesisedArg>, Failure> {
    let mut args = Vec::new(alloc);
    args.push(SynthesisedArg::Value(value))?;
    Ok(args)
}
