//! What is known of an expression of a constant: its type, and its value or why it has none.

use crate::names::{Places, named, part};
use crate::operators::{binary, unary};
use crate::value::ConstValue;
use failure::Failure;
use sa_ast::{Expr, FeatureBody, Name};
use sa_instantiate::{BOOL, CHAR, INT, Instances, STR};
use std::alloc::Global;

/// Why an expression of the right form has no value.
#[derive(Clone, Copy)]
pub(crate) enum ConstError {
    /// It is out of range, or divides by zero.
    OutOfRange,
    /// It names a constant that has no value.
    Unknown,
}

/// An expression of the right form, by its type. A text is that of the literal.
#[derive(Clone, Copy)]
pub(crate) enum FoldedConst<'t> {
    Int(Result<i32, ConstError>),
    Bool(Result<bool, ConstError>),
    Char(Result<u8, ConstError>),
    Text(Result<&'t Name, ConstError>),
}

impl FoldedConst<'_> {
    /// An expression of the type with this number that names a constant without a value, if constants have the type.
    fn unknown<'t>(ty: u32) -> Option<FoldedConst<'t>> {
        match ty {
            INT => Some(FoldedConst::Int(Err(ConstError::Unknown))),
            BOOL => Some(FoldedConst::Bool(Err(ConstError::Unknown))),
            CHAR => Some(FoldedConst::Char(Err(ConstError::Unknown))),
            STR => Some(FoldedConst::Text(Err(ConstError::Unknown))),
            _ => None,
        }
    }

    /// The number of its type.
    fn ty(&self) -> u32 {
        match self {
            FoldedConst::Int(_) => INT,
            FoldedConst::Bool(_) => BOOL,
            FoldedConst::Char(_) => CHAR,
            FoldedConst::Text(_) => STR,
        }
    }

    /// Why it has no value, where it has none.
    fn lack(&self) -> Option<ConstError> {
        match self {
            FoldedConst::Int(value) => value.err(),
            FoldedConst::Bool(value) => value.err(),
            FoldedConst::Char(value) => value.err(),
            FoldedConst::Text(value) => value.err(),
        }
    }

    /// Its value, where it has one.
    pub(crate) fn value(&self, alloc: Global) -> Result<Option<ConstValue>, Failure> {
        Ok(match self {
            FoldedConst::Int(Ok(value)) => Some(ConstValue::Int(*value)),
            FoldedConst::Bool(Ok(value)) => Some(ConstValue::Bool(*value)),
            FoldedConst::Char(Ok(byte)) => Some(ConstValue::Char(*byte)),
            FoldedConst::Text(Ok(text)) => Some(ConstValue::Text(text.copy(alloc)?)),
            _ => None,
        })
    }
}

/// Whether the fault of a constant is its own.
pub(crate) fn is_faulty(folded: Option<FoldedConst<'_>>) -> bool {
    match folded {
        None => true,
        Some(folded) => matches!(folded.lack(), Some(ConstError::OutOfRange)),
    }
}

/// A whole number with this many added; another value as it is.
fn raised(first: FoldedConst<'_>, more: u32) -> FoldedConst<'_> {
    match first {
        FoldedConst::Int(value) => FoldedConst::Int(sum(value, more)),
        other => other,
    }
}

fn sum(value: Result<i32, ConstError>, more: u32) -> Result<i32, ConstError> {
    value?
        .checked_add_unsigned(more)
        .ok_or(ConstError::OutOfRange)
}

/// What is folded so far.
#[derive(Clone, Copy)]
pub(crate) struct Folding<'f, 't, 'p> {
    pub program: &'t Instances<'p>,
    pub places: &'f Places,
    /// The constants by their indices, where they are folded and of the form and the type of a constant.
    pub folded: &'f [Option<FoldedConst<'t>>],
}

impl<'t> Folding<'_, 't, '_> {
    /// The constant at an index: its expression and the number that is added to it. `None` where its expression isn't of the form of a
    /// constant, or not of its type.
    pub(crate) fn constant(&self, place: usize) -> Option<FoldedConst<'t>> {
        let ((class, feature), declared) = self.places.get_index(place)?;
        let first = match part(self.program, *class, *feature)? {
            FeatureBody::Const(None, more) => raised(FoldedConst::Int(Ok(0)), *more),
            FeatureBody::Const(Some(e), more) => raised(self.expr(*class, e)?, *more),
            _ => return None,
        };
        if *declared != Some(first.ty()) {
            return None;
        }
        Some(first)
    }

    /// An expression of a class. `None` where it isn't of the form of a constant.
    #[cycle(fold)]
    fn expr(&self, class: u32, e: &'t Expr) -> Option<FoldedConst<'t>> {
        match e {
            Expr::Int(value, _) => whole(*value),
            Expr::Bool(value, _) => Some(FoldedConst::Bool(Ok(*value))),
            Expr::Char(byte, _) => Some(FoldedConst::Char(Ok(*byte))),
            Expr::Text(text, _) => Some(FoldedConst::Text(Ok(text))),
            Expr::Binary(op, left, right, _) => {
                let left = self.expr(class, left.get())?;
                let right = self.expr(class, right.get())?;
                binary(*op, left, right)
            }
            Expr::Unary(op, of, _) => unary(*op, self.expr(class, of.get())?),
            _ => self.name(class, e),
        }
    }

    /// A constant that is named.
    fn name(&self, class: u32, e: &Expr) -> Option<FoldedConst<'t>> {
        let place = self.places.get_index_of(&named(self.program, class, e)?)?;
        if let Some(Some(folded)) = self.folded.get(place)
            && folded.lack().is_none()
        {
            return Some(*folded);
        }
        let (_, declared) = self.places.get_index(place)?;
        FoldedConst::unknown((*declared)?)
    }
}

/// A literal of INT.
fn whole<'t>(value: u32) -> Option<FoldedConst<'t>> {
    let value = i32::try_from(value).ok()?;
    Some(FoldedConst::Int(Ok(value)))
}
