//! Assignments: to a variable, to an attribute of an immutable object, by a call, or to an element.

use crate::body_state::BodyState;
use crate::leave::leave_assigned;
use crate::value::check_assignable;
use failure::{Invariant, known};
use sa_ast::{ClassKind, Expr, ExprReceiver, FeatureBody, Name, Pos, Rejection, Rule};
use sa_check_expr::{
    BodyOutput, Call, CheckContext, CheckTables, Expected, LeavingCall, Receiver, SynthesisedArg,
    Variable, operand, position, synthesise, type_expr, typed_call, variable_named, written_type,
};
use sa_typed::TypedStmt;
use sqlite_items::Boxed;

/// An assignment by name: what is assigned, and the position of the sign.
#[derive(Clone, Copy)]
struct Assignment<'e> {
    name: &'e Name,
    value: &'e Expr,
    pos: Pos,
}

/// `target := value`, at the position of its sign.
pub(crate) fn assign(
    view: &CheckTables<'_>,
    draft: &BodyState,
    built: &mut BodyOutput,
    target: &Expr,
    value: &Expr,
    pos: Pos,
) -> Result<TypedStmt, Rejection> {
    match target {
        Expr::Call(on, name, args, _) if args.is_empty() => {
            assign_name(view, draft, built, on, Assignment { name, value, pos })
        }
        Expr::Index(of, places, _) => {
            let on = indexed(view, draft, built, of)?;
            let args = element_arguments(view, draft, built, places.as_slice(), value)?;
            assign_element(view.at(&draft.place), built, on, args, pos)
        }
        _ => {
            let _target = synthesise(view.at(&draft.place), built, target)?;
            let _value = synthesise(view.at(&draft.place), built, value)?;
            Err(Rule::NotAssignable.at(pos).into())
        }
    }
}

/// The receiver of an index.
fn indexed(
    view: &CheckTables<'_>,
    draft: &BodyState,
    built: &mut BodyOutput,
    of: &Option<Boxed<Expr>>,
) -> Result<Receiver, Rejection> {
    match of {
        None => Ok(Receiver::Own),
        Some(of) => operand(view.at(&draft.place), built, of.get()),
    }
}

/// `x := e`, `r.f := e` or `C::f := e`.
fn assign_name(
    view: &CheckTables<'_>,
    draft: &BodyState,
    built: &mut BodyOutput,
    on: &ExprReceiver,
    assigned: Assignment<'_>,
) -> Result<TypedStmt, Rejection> {
    match on {
        ExprReceiver::Implied => assign_implied(view, draft, built, assigned),
        ExprReceiver::Of(of) => {
            let of = of.get();
            let on = operand(view.at(&draft.place), built, of)?;
            let changed = variable_named(&draft.place, of);
            assign_feature(view, draft, built, on, changed, assigned)
        }
        ExprReceiver::OfClass(ty) => {
            let on = Receiver::Class(known(written_type(view, ty), Invariant::CheckedNumber)?);
            assign_feature(view, draft, built, on, None, assigned)
        }
    }
}

/// `x := e`: a variable, what exits a loop, or else a call on `self`.
fn assign_implied(
    view: &CheckTables<'_>,
    draft: &BodyState,
    built: &mut BodyOutput,
    assigned: Assignment<'_>,
) -> Result<TypedStmt, Rejection> {
    let Assignment { name, value, pos } = assigned;
    if let Some(variable) = draft.lookup(name) {
        return assign_variable(view, draft, built, variable, value, pos);
    }
    if let Some(call) = LeavingCall::of_name(name) {
        return leave_assigned(view, draft, built, call, value, pos);
    }
    assign_feature(view, draft, built, Receiver::Own, None, assigned)
}

/// `x := e` for a variable: it isn't narrowed, and the value is assignable to its type.
fn assign_variable(
    view: &CheckTables<'_>,
    draft: &BodyState,
    built: &mut BodyOutput,
    variable: Variable,
    value: &Expr,
    pos: Pos,
) -> Result<TypedStmt, Rejection> {
    let ty = variable.ty;
    let made = type_expr(view.at(&draft.place), built, value, Expected::Type(ty))?;
    if variable.narrowed {
        return Err(Rule::TypecaseVariable.at(pos).into());
    }
    let core = check_assignable(view, built, made, ty, position(value), pos)?;
    Ok(TypedStmt::Assign(variable.number, core))
}

/// `r.f := e` is the call `r.f(e)`, except for an attribute of an immutable class.
fn assign_feature(
    view: &CheckTables<'_>,
    draft: &BodyState,
    built: &mut BodyOutput,
    on: Receiver,
    changed: Option<Variable>,
    assigned: Assignment<'_>,
) -> Result<TypedStmt, Rejection> {
    let Assignment { name, value, pos } = assigned;
    let made = synthesise(view.at(&draft.place), built, value)?;
    let form = Call::with_value(view.alloc, on, name.as_slice(), made, pos)?;
    if is_attribute_of_immutable(view, &form.on, name) {
        return assign_changed(view, draft, built, form, changed);
    }
    let done = typed_call(view.at(&draft.place), built, form, Expected::Nothing)?;
    Ok(TypedStmt::ExprStmt(done.core))
}

/// `r.f := e` for an attribute of an immutable class: it is `r := r.f(e)`, so `r` is a variable.
fn assign_changed(
    view: &CheckTables<'_>,
    draft: &BodyState,
    built: &mut BodyOutput,
    form: Call<'_>,
    changed: Option<Variable>,
) -> Result<TypedStmt, Rejection> {
    let pos = form.pos;
    let Some(variable) = changed else {
        return Err(Rule::NotAssignable.at(pos).into());
    };
    let made = typed_call(view.at(&draft.place), built, form, Expected::Value)?;
    if variable.narrowed {
        return Err(Rule::TypecaseVariable.at(pos).into());
    }
    let core = check_assignable(view, built, made, variable.ty, pos, pos)?;
    Ok(TypedStmt::Assign(variable.number, core))
}

/// Whether the receiver is of an immutable class, and the name that of one of its attributes.
fn is_attribute_of_immutable(view: &CheckTables<'_>, on: &Receiver, name: &Name) -> bool {
    let Some(ty) = type_of_receiver(view, on) else {
        return false;
    };
    matches!(view.program.kind(ty), Some(ClassKind::Immutable))
        && has_attribute(view, ty, view.program.named(ty, name.as_slice()))
}

/// Whether one of the members of a type at these indices is the reader or the writer of an attribute.
fn has_attribute(view: &CheckTables<'_>, ty: u32, places: &[u32]) -> bool {
    for place in places {
        if is_attribute(view, ty, *place) {
            return true;
        }
    }
    false
}

/// The number of the receiver's type.
fn type_of_receiver(view: &CheckTables<'_>, on: &Receiver) -> Option<u32> {
    match on {
        Receiver::Own => Some(view.class),
        Receiver::Value(value, _) => value.ty,
        Receiver::Class(class) => Some(*class),
        Receiver::Untyped => None,
    }
}

/// Whether the member of a type is the reader or the writer of an attribute.
fn is_attribute(view: &CheckTables<'_>, ty: u32, place: u32) -> bool {
    let Some(member) = view.program.member(ty, place) else {
        return false;
    };
    match view.program.feature(ty, member.feature) {
        None => false,
        Some(feature) => matches!(feature.part, FeatureBody::Attr),
    }
}

/// The indices and the value of `r[i] := e`, as arguments.
fn element_arguments(
    view: &CheckTables<'_>,
    draft: &BodyState,
    built: &mut BodyOutput,
    places: &[Expr],
    value: &Expr,
) -> Result<Vec<SynthesisedArg>, Rejection> {
    let mut args = Vec::new(view.alloc);
    for e in places {
        args.push(SynthesisedArg::Value(synthesise(view.at(&draft.place), built, e)?))?;
    }
    args.push(SynthesisedArg::Value(synthesise(view.at(&draft.place), built, value)?))?;
    Ok(args)
}

/// `r[i] := e` is the call `r.aset(i, e)`.
fn assign_element(
    context: CheckContext<'_>,
    built: &mut BodyOutput,
    on: Receiver,
    args: Vec<SynthesisedArg>,
    pos: Pos,
) -> Result<TypedStmt, Rejection> {
    let form = Call {
        on,
        name: b"aset",
        args,
        pos,
    };
    let done = typed_call(context, built, form, Expected::Nothing)?;
    Ok(TypedStmt::ExprStmt(done.core))
}
