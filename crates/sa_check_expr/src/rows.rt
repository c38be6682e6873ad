//! The typing rule of each form of an expression. Its children are typed first, from left to right, and then the conditions of the rule are
//! checked in their order.

use crate::OperatorCall;
use crate::children::{ArgContext, arguments, synthesise, synthesise_all};
use crate::inside::{
    array, array_object, bound, called, indexed, joined, object_here, object_of, operated, signed,
    void_test, without_inside,
};
use crate::part::parts;
use crate::receiver::{operand, receiver_of};
use sa_ast::{Expr, Operator, Pos, Rejection, Rule};
use sa_check_calls::{
    BodyOutput, CallHead, CheckContext, CheckedExpr, Expected, Receiver, position, variable_named,
    variable_value,
};
use sa_instantiate::{BOOL, INT};

/// Whether an operator is `and` or `or`, whose operands are BOOL.
fn is_of_bool(op: Operator) -> bool {
    op == Operator::And || op == Operator::Or
}

/// Types an expression whose context expects this. The sites of its iter calls and the bound types of its binds are added to `built`, which
/// may have grown where the expression is refused.
#[cycle(typed)]
pub fn type_expr(
    context: CheckContext<'_>,
    built: &mut BodyOutput,
    e: &Expr,
    expected: Expected,
) -> Result<CheckedExpr, Rejection> {
    match e {
        Expr::IsVoid(of, pos) => {
            let of = synthesise(context, built, of.get());
            void_test(context.view.alloc, of, *pos)
        }
        Expr::New(Some(length), pos) => {
            let length = type_expr(context, built, length.get(), Expected::Type(INT));
            array_object(context.view, length, *pos)
        }
        Expr::Create(None, args, pos) => {
            let args = arguments(context, built, args.as_slice(), ArgContext::Call);
            object_here(context.view, built, args, expected, *pos)
        }
        Expr::Create(Some(class), args, pos) => {
            let args = arguments(context, built, args.as_slice(), ArgContext::Call);
            object_of(context, built, class, args, *pos, expected)
        }
        Expr::Items(items, pos) => {
            let items = synthesise_all(context, built, items.as_slice());
            array(context.view, built, items, expected, *pos)
        }
        Expr::Call(on, name, args, pos) => {
            if let Some(variable) = variable_named(context.place, e) {
                return Ok(variable_value(variable));
            }
            let receiver = receiver_of(context, built, on);
            let args = arguments(context, built, args.as_slice(), ArgContext::Call);
            let pos = *pos;
            let head = CallHead { on, name, pos };
            called(context, built, head, receiver, args, expected)
        }
        Expr::Binary(op, one, other, pos) => {
            let (one, other) = (one.get(), other.get());
            if is_of_bool(*op) {
                let left = type_expr(context, built, one, Expected::Type(BOOL));
                let right = type_expr(context, built, other, Expected::Type(BOOL));
                return joined(context.view.alloc, *op, left, right, *pos);
            }
            let left = operand(context, built, one);
            let right = synthesise(context, built, other);
            let operation = OperatorCall {
                op: *op,
                left: position(one),
                pos: *pos,
            };
            operated(context, built, operation, left, right, expected)
        }
        Expr::Unary(op, of, pos) => {
            let of = operand(context, built, of.get());
            signed(context, built, *op, of, *pos, expected)
        }
        Expr::Index(None, places, pos) => {
            let places = synthesise_all(context, built, places.as_slice());
            let own = Ok(Receiver::Own);
            indexed(context, built, own, places, *pos, expected)
        }
        Expr::Index(Some(of), places, pos) => {
            let of = operand(context, built, of.get());
            let places = synthesise_all(context, built, places.as_slice());
            indexed(context, built, of, places, *pos, expected)
        }
        Expr::Bind(head, pos) => bind(context, built, head.get(), *pos),
        _ => without_inside(context, built, e, expected),
    }
}

/// `bind(..)` of a head: E45 unless that is a call by name.
#[cycle(typed)]
fn bind(
    context: CheckContext<'_>,
    built: &mut BodyOutput,
    head: &Expr,
    pos: Pos,
) -> Result<CheckedExpr, Rejection> {
    match head {
        Expr::Call(on, _, args, _) => {
            let receiver = receiver_of(context, built, on);
            let args = arguments(context, built, args.as_slice(), ArgContext::BindHead);
            bound(context, built, head, receiver, args, pos)
        }
        _ => {
            parts(context, built, head)?;
            Err(Rule::BadBind.at(pos).into())
        }
    }
}
