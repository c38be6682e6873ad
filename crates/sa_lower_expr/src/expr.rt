//! Lowers an expression to operations and blocks: its subexpressions first, from left to right.

ghost use Rattle.std.specs.Prelude.{◌≡◌, All, IfOk, is_some};
ghost use Rattle.sa_cfg_builder.specs.Contexts.{context_of};
ghost use Rattle.sa_lower_expr.specs.ExprContext.{IsLowered, expr_context, env_of};
ghost use Rattle.sa_lower_expr.specs.Typed.{Gives, HasValue, IsTyped, gives_value};
ghost use Rattle.sa_typing.specs.Contexts.{env};

use crate::calls::lower_call;
use crate::context::{ExprContext, Owner};
use crate::effects::variables_in;
use crate::logic::{Connective, begin_right, joined};
use crate::lowered::{LoweredExpr, Operand, value};
use crate::simple::{array, leaf, new_array, void_test, widened};
use failure::Failure;
use sa_cfg_builder::{LoweringContext, ProgramBuilder};
use sa_typed::TypedExpr;
use sa_typing::{BOOL, ExprType, TypingEnv};
use sqlite_items::Items;
use std::alloc::Global;

/// Lowers the expression of a statement at the end of the open block, and gives the variable that holds its value; a call without a result
/// has none. `scope` is the feature or the initialiser that the statement belongs to, `owner` says which of the two, and `inside` is its
/// context. What temporaries of earlier statements held isn't read any more. The block that is open afterwards is the one where the value
/// is there.
///
/// # Errors
///
/// A `Failure`.
#[tactic(auto, using(crate::proofs::Forms::placed))]
pub fn lower_expr(
    alloc: Global,
    scope: &TypingEnv<'_>,
    owner: Owner,
    inside: &LoweringContext,
    draft: &mut ProgramBuilder,
    e: &TypedExpr,
) -> Result<Option<u32>, Failure>
    requires { IsTyped (env scope.now) (context_of inside.now) e.now }
    ensures { IfOk result (λ var. is_some var ≡ gives_value (env scope.now) (context_of inside.now) e.now) }
{
    let around = ExprContext {
        scope,
        owner,
        inside,
        variables: variables_in(e),
    };
    draft.body.statement(inside);
    let placed = lower(alloc, &around, draft, e)?;
    Ok(placed.var)
}

/// Lowers an expression.
#[tactic(auto, using(crate::proofs::Parts::parts, crate::proofs::Forms::forms))]
#[cycle(place)]
fn lower(
    alloc: Global,
    around: &ExprContext<'_>,
    draft: &mut ProgramBuilder,
    e: &TypedExpr,
) -> Result<LoweredExpr, Failure>
    requires { IsTyped (env_of around.now) (expr_context around.now) e.now }
    ensures { IfOk result (IsLowered around.now e.now) }
{
    match e {
        TypedExpr::IsVoid(of) => {
            let of = operand(alloc, around, draft, of.get())?;
            value(void_test(&mut draft.body, of.var), ExprType::Of(BOOL))
        }
        TypedExpr::NewArray(ty, count, pos) => {
            let count = operand(alloc, around, draft, count.get())?;
            let array = new_array(around, draft, *ty, count.var, *pos);
            value(array, ExprType::Of(*ty))
        }
        TypedExpr::Box(ty, of, pos) => {
            let of = operand(alloc, around, draft, of.get())?;
            let widened = widened(around, draft, *ty, of.var, *pos);
            value(widened, ExprType::BoxedOf(*ty))
        }
        TypedExpr::Array(ty, elements, pos) => {
            let elements = operands(alloc, around, draft, elements.as_slice())?;
            let array = array(around, draft, *ty, elements.as_slice(), *pos);
            value(array, ExprType::Of(*ty))
        }
        TypedExpr::And(left, right) => {
            let left = operand(alloc, around, draft, left.get())?;
            let joint = begin_right(alloc, &mut draft.body, Connective::And, left.var)?;
            let right = operand(alloc, around, draft, right.get())?;
            value(
                joined(alloc, &mut draft.body, joint, right.var),
                ExprType::Of(BOOL),
            )
        }
        TypedExpr::Or(left, right) => {
            let left = operand(alloc, around, draft, left.get())?;
            let joint = begin_right(alloc, &mut draft.body, Connective::Or, left.var)?;
            let right = operand(alloc, around, draft, right.get())?;
            value(
                joined(alloc, &mut draft.body, joint, right.var),
                ExprType::Of(BOOL),
            )
        }
        TypedExpr::Call(_, _, _, _)
        | TypedExpr::IterCall(_, _, _, _)
        | TypedExpr::Bind(_, _, _, _, _)
        | TypedExpr::Reversed(_, _, _, _) => lower_call(alloc, around, draft, e),
        TypedExpr::Int(_)
        | TypedExpr::Bool(_)
        | TypedExpr::Char(_)
        | TypedExpr::Text(_)
        | TypedExpr::VoidValue(_)
        | TypedExpr::SelfRef
        | TypedExpr::Var(_)
        | TypedExpr::Exception
        | TypedExpr::New(_, _) => leaf(alloc, around, draft, e),
    }
}

/// Lowers an expression that has a value.
#[tactic(auto, using(crate::proofs::Forms::placed))]
#[cycle(place)]
pub(crate) fn operand(
    alloc: Global,
    around: &ExprContext<'_>,
    draft: &mut ProgramBuilder,
    e: &TypedExpr,
) -> Result<Operand, Failure>
    requires { HasValue (env_of around.now) (expr_context around.now) e.now }
    ensures { IfOk result (λ operand. Gives (env_of around.now) (expr_context around.now) e.now operand.given) }
{
    let placed = lower(alloc, around, draft, e)?;
    match placed.var {
        Some(var) => Ok(Operand {
            var,
            given: placed.given,
        }),
        None => unreachable!(),
    }
}

/// Lowers expressions that have values, from left to right, and gives the variables that hold these.
#[cycle(place)]
fn operands(
    alloc: Global,
    around: &ExprContext<'_>,
    draft: &mut ProgramBuilder,
    list: &[TypedExpr],
) -> Result<Items<u32>, Failure>
    requires { All (HasValue (env_of around.now) (expr_context around.now)) list.now }
{
    let mut values = Items::new(alloc);
    for e in list {
        let operand = operand(alloc, around, draft, e)?;
        values.push(operand.var)?;
    }
    Ok(values)
}
