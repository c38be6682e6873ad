//! The children of an expression without the expression itself, for a position at which its typing rule isn't applied.

use crate::children::{ArgContext, arguments, synthesise, synthesise_all};
use crate::inside::{both, done};
use crate::receiver::receiver_of;
use crate::rows::type_expr;
use sa_ast::{Expr, Operator, Rejection};
use sa_check_calls::{BodyOutput, CheckContext, Expected};
use sa_instantiate::{BOOL, INT};

/// Types the children of an expression from left to right, and not the expression itself. The parts of a bind's head are children of the
/// bind.
#[cycle(typed)]
pub fn parts(context: CheckContext<'_>, built: &mut BodyOutput, e: &Expr) -> Result<(), Rejection> {
    match e {
        Expr::Int(_, _) => Ok(()),
        Expr::Bool(_, _) => Ok(()),
        Expr::Char(_, _) => Ok(()),
        Expr::Text(_, _) => Ok(()),
        Expr::SelfRef(_) => Ok(()),
        Expr::Void(_) => Ok(()),
        Expr::Exception(_) => Ok(()),
        Expr::New(None, _) => Ok(()),
        Expr::New(Some(length), _) => {
            done(type_expr(context, built, length.get(), Expected::Type(INT)))
        }
        Expr::IsVoid(of, _) => done(synthesise(context, built, of.get())),
        Expr::Unary(_, of, _) => done(synthesise(context, built, of.get())),
        Expr::Create(_, args, _) => {
            done(arguments(context, built, args.as_slice(), ArgContext::Call))
        }
        Expr::Items(items, _) => done(synthesise_all(context, built, items.as_slice())),
        Expr::Call(on, _, args, _) => {
            let on = receiver_of(context, built, on);
            let args = arguments(context, built, args.as_slice(), ArgContext::Call);
            both(on, args)
        }
        Expr::Binary(Operator::And | Operator::Or, one, other, _) => {
            let one = type_expr(context, built, one.get(), Expected::Type(BOOL));
            let other = type_expr(context, built, other.get(), Expected::Type(BOOL));
            both(one, other)
        }
        Expr::Binary(_, one, other, _) => {
            let one = synthesise(context, built, one.get());
            let other = synthesise(context, built, other.get());
            both(one, other)
        }
        Expr::Index(None, places, _) => { done(synthesise_all(context, built, places.as_slice())) }
        Expr::Index(Some(of), places, _) => {
            let of = synthesise(context, built, of.get());
            let places = synthesise_all(context, built, places.as_slice());
            both(of, places)
        }
        Expr::Bind(head, _) => head_parts(context, built, head.get()),
    }
}

/// Types the children of a bind from left to right.
#[cycle(typed)]
fn head_parts(
    context: CheckContext<'_>,
    built: &mut BodyOutput,
    head: &Expr,
) -> Result<(), Rejection> {
    match head {
        Expr::Call(on, _, args, _) => {
            let on = receiver_of(context, built, on);
            let args = arguments(context, built, args.as_slice(), ArgContext::BindHead);
            both(on, args)
        }
        _ => parts(context, built, head),
    }
}
