//! New objects, objects that a class creates, and the test for void.

use failure::{Invariant, known};
use sa_ast::{ClassKind, Pos, Rejection, Rule};
use sa_check_calls::{
    BodyOutput, Call, CheckContext, CheckTables, CheckedExpr, Expected, Receiver, Synthesised,
    SynthesisedArg, kind_of, of_type, typed_call,
};
use sa_instantiate::{BOOL, INT};
use sa_typed::TypedExpr;
use sqlite_items::Boxed;
use std::alloc::Global;

/// `new`. E30: the class is no reference class. E31: its objects have an array part, whose length is missing.
pub fn new_object(view: &CheckTables<'_>, pos: Pos) -> Result<CheckedExpr, Rejection> {
    if kind_of(view, view.class) != ClassKind::Reference {
        return Err(Rule::UnknownName.at(pos).into());
    }
    if view.program.has_array(view.class) {
        return Err(Rule::NoFeatureFits.at(pos).into());
    }
    Ok(of_type(TypedExpr::New(view.class, pos), view.class))
}

/// `new(n)`. E30: the class is no reference class. E31: its objects have no array part. E33: the length is no INT.
pub fn new_array(
    view: &CheckTables<'_>,
    length: CheckedExpr,
    pos: Pos,
) -> Result<CheckedExpr, Rejection> {
    if kind_of(view, view.class) != ClassKind::Reference {
        return Err(Rule::UnknownName.at(pos).into());
    }
    if !view.program.has_array(view.class) {
        return Err(Rule::NoFeatureFits.at(pos).into());
    }
    if length.ty != Some(INT) {
        return Err(Rule::WrongType.at(pos).into());
    }
    Ok(CheckedExpr {
        core: TypedExpr::NewArray(view.class, Boxed::new(view.alloc, length.core)?, pos),
        ty: Some(view.class),
        iter: length.iter,
    })
}

/// `#C(..)` with the number of its class: a call of `create` on void of the class.
pub fn create(
    context: CheckContext<'_>,
    built: &mut BodyOutput,
    class: Option<u32>,
    args: Vec<SynthesisedArg>,
    pos: Pos,
    expected: Expected,
) -> Result<CheckedExpr, Rejection> {
    let class = known(class, Invariant::CheckedNumber)?;
    let form = Call {
        on: Receiver::Class(class),
        name: b"create",
        args,
        pos,
    };
    typed_call(context, built, form, expected)
}

/// `void(e)`: E41 where the expression is contextual.
pub fn is_void(alloc: Global, of: Synthesised, pos: Pos) -> Result<CheckedExpr, Rejection> {
    let Synthesised::Typed(of, _) = of else {
        return Err(Rule::NoTypeFromContext.at(pos).into());
    };
    Ok(CheckedExpr {
        core: TypedExpr::IsVoid(Boxed::new(alloc, of.core)?),
        ty: Some(BOOL),
        iter: of.iter,
    })
}
