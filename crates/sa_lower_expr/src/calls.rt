//! The forms of calls: of routines, of iters, of reversed comparisons, and binds.

ghost use Rattle.std.specs.Prelude.{IfOk};
ghost use Rattle.sa_lower_expr.specs.ExprContext.{IsLowered, expr_context, env_of};
ghost use Rattle.sa_lower_expr.specs.Kinds.{IsCall};
ghost use Rattle.sa_lower_expr.specs.Typed.{IsTyped};

use crate::arguments::{arguments, once_arguments};
use crate::binds::bind;
use crate::call::{Invocation, call, one_passed};
use crate::callees::{reached_on, type_of};
use crate::context::ExprContext;
use crate::expr::operand;
use crate::lowered::{LoweredExpr, value};
use crate::sites::{begin_others, begin_site, end_site};
use failure::Failure;
use sa_cfg_builder::ProgramBuilder;
use sa_typed::TypedExpr;
use sa_typing::{ExprType, ResolvedCallee};
use std::alloc::Global;

/// Lowers a call, a call of an iter, a bind, or a comparison that is called on its second operand.
#[tactic(auto, using(crate::proofs::Parts::receivers, crate::proofs::Forms::calls))]
#[cycle(place)]
pub(crate) fn lower_call(
    alloc: Global,
    around: &ExprContext<'_>,
    draft: &mut ProgramBuilder,
    e: &TypedExpr,
) -> Result<LoweredExpr, Failure>
    requires form { IsCall e.now }
    requires typed { IsTyped (env_of around.now) (expr_context around.now) e.now }
    ensures { IfOk result (IsLowered around.now e.now) }
{
    match e {
        TypedExpr::Call(called, on, args, pos) => {
            let recv = operand(alloc, around, draft, on.get())?;
            let invocation = Invocation::on(reached_on(*called, recv.given), recv, *pos);
            let args = args.as_slice();
            let args = arguments(alloc, around, draft, invocation.reached, args, &[])?;
            call(around, draft, invocation, args)
        }
        TypedExpr::IterCall(number, on, args, pos) => {
            let called = around.scope.sites[*number as usize].called;
            let args = args.as_slice();
            let site = begin_site(alloc, &mut draft.body, *number, args)?;
            let recv = operand(alloc, around, draft, on.get())?;
            let invocation = Invocation::on(reached_on(called, recv.given), recv, *pos);
            let once = once_arguments(alloc, around, draft, args)?;
            begin_others(alloc, &mut draft.body, site)?;
            let once = once.as_slice();
            let args = arguments(alloc, around, draft, invocation.reached, args, once)?;
            end_site(alloc, around, draft, site, invocation, args)
        }
        TypedExpr::Bind(called, on, args, ty, pos) => {
            let recv = operand(alloc, around, draft, on.get())?;
            let invocation = Invocation::on(reached_on(*called, recv.given), recv, *pos);
            let args = args.as_slice();
            let args = arguments(alloc, around, draft, invocation.reached, args, &[])?;
            value(
                bind(alloc, around, draft, invocation, args, *ty),
                ExprType::Of(*ty),
            )
        }
        TypedExpr::Reversed(target, first, second, pos) => {
            let first = operand(alloc, around, draft, first.get())?;
            let second = operand(alloc, around, draft, second.get())?;
            let reached = ResolvedCallee::Target(*target, type_of(second.given));
            let passed = one_passed(alloc, first.var)?;
            call(around, draft, Invocation::on(reached, second, *pos), passed)
        }
        _ => unreachable!(),
    }
}
