//! The sites at which bound iters are called, each with the bound type of its receiver: all calls at a site are of one type.

ghost use Rattle.std.specs.Prelude.{◌≡◌, ◌++◌, IfOk, OnOk, length};
ghost use Rattle.sa_typed.specs.Copy.{arg_of, args_of, arm_of, arms_of, block_of, exit_of, expr_of, exprs_of};
ghost use Rattle.sa_typed.specs.Copy.{option_expr_of, stmt_of, test_of, tests_of};
ghost use Rattle.sa_typing.specs.Contexts.{env, in_branch, outside};
ghost use Rattle.sa_typing.specs.Sites.{agree_on_types, arg_sites, args_sites, branches_sites, calls_bound, cases_sites};
ghost use Rattle.sa_typing.specs.Sites.{exit_sites, expr_sites, exprs_sites, is_bound_call, is_known_as, option_expr_sites};
ghost use Rattle.sa_typing.specs.Sites.{stmt_sites, stmts_sites, tests_sites, with_type};

use crate::builtins::OB;
use crate::context::{TypingContext, TypingEnv};
use crate::expr::type_of_expr;
use crate::expr_type::ExprType;
use failure::Failure;
use sa_typed::{LoopExit, TypedArg, TypedArm, TypedBranch, TypedCallee, TypedExpr, TypedStmt};
use std::alloc::Global;

/// Whether all calls of bound values at a site are of one type, in statements of a feature.
pub(crate) fn sites_agree(
    alloc: Global,
    scope: &TypingEnv<'_>,
    list: &[TypedStmt],
) -> Result<bool, Failure>
    ensures { IfOk result (λ well. well
        ≡ agree_on_types (length scope.now.sites.now) (stmts_sites (env scope.now) outside (block_of list.now))) }
{
    let mut found = Vec::new(alloc);
    add_stmts(scope, TypingContext::outside(), list, &mut found)?;
    agree_on_types(alloc, scope.sites.len(), found.as_slice())
}

/// Whether all calls at a site are of one type, where there are this many sites.
#[tactic(auto, using(crate::proofs::SiteLists::known))]
fn agree_on_types(alloc: Global, sites: usize, calls: &[(u32, u32)]) -> Result<bool, Failure>
    ensures { IfOk result (λ well. well ≡ agree_on_types sites calls.now) }
{
    let mut known = vec![in alloc; None; sites]?;
    for call in calls {
        let (site, ty) = *call;
        let at = site as usize;
        if at >= known.len() {
            return Ok(false);
        }
        if !is_known_as(ty, known[at]) {
            return Ok(false);
        }
        known[at] = Some(ty);
    }
    Ok(true)
}

/// Whether the type that is known of a site is this one, or none is known.
fn is_known_as(ty: u32, known: Option<u32>) -> bool
    ensures { result ≡ is_known_as ty known }
{
    match known {
        Some(known) => known == ty,
        None => true,
    }
}

/// Adds a call at a site, where it is one of a bound value.
#[tactic(auto, using(std::proofs::lemmas::Grind::common_steps))]
fn add_call(
    scope: &TypingEnv<'_>,
    site: u32,
    given: Option<ExprType>,
    found: &mut Vec<(u32, u32)>,
) -> Result<(), Failure>
    ensures { OnOk result (found.new.items ≡ found.old.items ++ with_type site (calls_bound (env scope.now) site) given) }
{
    if !calls_bound(scope, site) {
        return Ok(());
    }
    match given {
        Some(ExprType::Of(ty)) => {
            found.push((site, ty))?;
            Ok(())
        }
        Some(ExprType::NoValue) => Ok(()),
        Some(ExprType::BoxedOf(_)) => Ok(()),
        None => Ok(()),
    }
}

/// Whether a bound value is called at a site.
fn calls_bound(scope: &TypingEnv<'_>, site: u32) -> bool
    ensures { result ≡ calls_bound (env scope.now) site }
{
    match scope.sites.get(site as usize) {
        Some(site) => is_bound_call(site.called),
        None => false,
    }
}

fn is_bound_call(called: TypedCallee) -> bool
    ensures { result ≡ is_bound_call called }
{
    match called {
        TypedCallee::Bound => true,
        TypedCallee::Static(_, _) => false,
        TypedCallee::Dispatch(_) => false,
    }
}

/// Adds the calls in an expression.
#[tactic(auto, using(crate::proofs::SiteLists::parts))]
#[cycle(add_expr)]
fn add_expr(
    scope: &TypingEnv<'_>,
    at: TypingContext,
    e: &TypedExpr,
    found: &mut Vec<(u32, u32)>,
) -> Result<(), Failure>
    ensures { OnOk result (found.new.items ≡ found.old.items ++ expr_sites (env scope.now) at (expr_of e.now)) }
{
    match e {
        TypedExpr::IsVoid(of) => add_expr(scope, at, of.get(), found),
        TypedExpr::NewArray(_, of, _) => add_expr(scope, at, of.get(), found),
        TypedExpr::Box(_, of, _) => add_expr(scope, at, of.get(), found),
        TypedExpr::Array(_, elements, _) => add_exprs(scope, at, elements.as_slice(), found),
        TypedExpr::Call(_, on, args, _) => {
            add_expr(scope, at, on.get(), found)?;
            add_args(scope, at, args.as_slice(), found)
        }
        TypedExpr::IterCall(site, on, args, _) => {
            add_call(scope, *site, type_of_expr(scope, at, on.get()), found)?;
            add_expr(scope, at, on.get(), found)?;
            add_args(scope, at, args.as_slice(), found)
        }
        TypedExpr::Bind(_, on, args, _, _) => {
            add_expr(scope, at, on.get(), found)?;
            add_args(scope, at, args.as_slice(), found)
        }
        TypedExpr::Reversed(_, first, second, _) => {
            add_expr(scope, at, first.get(), found)?;
            add_expr(scope, at, second.get(), found)
        }
        TypedExpr::And(first, second) => {
            add_expr(scope, at, first.get(), found)?;
            add_expr(scope, at, second.get(), found)
        }
        TypedExpr::Or(first, second) => {
            add_expr(scope, at, first.get(), found)?;
            add_expr(scope, at, second.get(), found)
        }
        TypedExpr::Int(_)
        | TypedExpr::Bool(_)
        | TypedExpr::Char(_)
        | TypedExpr::Text(_)
        | TypedExpr::VoidValue(_)
        | TypedExpr::SelfRef
        | TypedExpr::Var(_)
        | TypedExpr::Exception
        | TypedExpr::New(_, _) => Ok(()),
    }
}

#[tactic(auto, using(crate::proofs::SiteLists::lists))]
#[cycle(add_expr)]
fn add_exprs(
    scope: &TypingEnv<'_>,
    at: TypingContext,
    list: &[TypedExpr],
    found: &mut Vec<(u32, u32)>,
) -> Result<(), Failure>
    ensures { OnOk result (found.new.items ≡ found.old.items ++ exprs_sites (env scope.now) at (exprs_of list.now)) }
{
    for e in list {
        add_expr(scope, at, e, found)?;
    }
    Ok(())
}

#[tactic(auto, using(crate::proofs::SiteLists::lists))]
#[cycle(add_expr)]
fn add_args(
    scope: &TypingEnv<'_>,
    at: TypingContext,
    list: &[TypedArg],
    found: &mut Vec<(u32, u32)>,
) -> Result<(), Failure>
    ensures { OnOk result (found.new.items ≡ found.old.items ++ args_sites (env scope.now) at (args_of list.now)) }
{
    for arg in list {
        add_arg(scope, at, arg, found)?;
    }
    Ok(())
}

#[tactic(auto, using(crate::proofs::SiteLists::parts))]
#[cycle(add_expr)]
fn add_arg(
    scope: &TypingEnv<'_>,
    at: TypingContext,
    arg: &TypedArg,
    found: &mut Vec<(u32, u32)>,
) -> Result<(), Failure>
    ensures { OnOk result (found.new.items ≡ found.old.items ++ arg_sites (env scope.now) at (arg_of arg.now)) }
{
    match arg {
        TypedArg::Value(_, value) => add_expr(scope, at, value, found),
        TypedArg::Variable(_, _) | TypedArg::Open => Ok(()),
    }
}

#[tactic(auto, using(crate::proofs::SiteLists::parts))]
fn add_option_expr(
    scope: &TypingEnv<'_>,
    at: TypingContext,
    e: &Option<TypedExpr>,
    found: &mut Vec<(u32, u32)>,
) -> Result<(), Failure>
    ensures { OnOk result (found.new.items ≡ found.old.items ++ option_expr_sites (env scope.now) at (option_expr_of e.now)) }
{
    match e {
        Some(e) => add_expr(scope, at, e, found),
        None => Ok(()),
    }
}

#[tactic(auto, using(crate::proofs::SiteLists::parts))]
fn add_exit(
    scope: &TypingEnv<'_>,
    at: TypingContext,
    left: &LoopExit,
    found: &mut Vec<(u32, u32)>,
) -> Result<(), Failure>
    ensures { OnOk result (found.new.items ≡ found.old.items ++ exit_sites (env scope.now) at (exit_of left.now)) }
{
    match left {
        LoopExit::Break => Ok(()),
        LoopExit::While(test) => add_expr(scope, at, test, found),
        LoopExit::Until(test) => add_expr(scope, at, test, found),
    }
}

/// Adds the calls in a statement.
#[tactic(auto, using(crate::proofs::SiteLists::parts))]
#[cycle(add_stmt)]
fn add_stmt(
    scope: &TypingEnv<'_>,
    at: TypingContext,
    stmt: &TypedStmt,
    found: &mut Vec<(u32, u32)>,
) -> Result<(), Failure>
    ensures { OnOk result (found.new.items ≡ found.old.items ++ stmt_sites (env scope.now) at (stmt_of stmt.now)) }
{
    match stmt {
        TypedStmt::Assign(_, value) => add_expr(scope, at, value, found),
        TypedStmt::ExprStmt(value) => add_expr(scope, at, value, found),
        TypedStmt::Raise(value, _) => add_expr(scope, at, value, found),
        TypedStmt::If(tests, other) => {
            add_tests(scope, at, tests.as_slice(), found)?;
            add_stmts(scope, at, other.as_slice(), found)
        }
        TypedStmt::Loop(number, body) => {
            add_stmts(scope, at.in_loop(*number), body.as_slice(), found)
        }
        TypedStmt::ExitLoop(left) => add_exit(scope, at, left, found),
        TypedStmt::TypeCase(_, arms, other, _) => {
            add_cases(scope, at, arms.as_slice(), found)?;
            match other {
                Some(other) => add_stmts(scope, at, other.as_slice(), found),
                None => Ok(()),
            }
        }
        TypedStmt::Protect(body, arms, other) => {
            let inside = at.guarded();
            add_stmts(scope, inside, body.as_slice(), found)?;
            add_branches(scope, inside, arms.as_slice(), found)?;
            match other {
                Some(other) => add_stmts(scope, inside.in_branch(OB), other.as_slice(), found),
                None => Ok(()),
            }
        }
        TypedStmt::Return(value) => add_option_expr(scope, at, value, found),
        TypedStmt::Yield(value) => add_option_expr(scope, at, value, found),
        TypedStmt::Quit | TypedStmt::Fault(_, _) => Ok(()),
    }
}

#[tactic(auto, using(crate::proofs::SiteLists::lists))]
#[cycle(add_stmt)]
fn add_stmts(
    scope: &TypingEnv<'_>,
    at: TypingContext,
    list: &[TypedStmt],
    found: &mut Vec<(u32, u32)>,
) -> Result<(), Failure>
    ensures { OnOk result (found.new.items ≡ found.old.items ++ stmts_sites (env scope.now) at (block_of list.now)) }
{
    for stmt in list {
        add_stmt(scope, at, stmt, found)?;
    }
    Ok(())
}

#[tactic(auto, using(crate::proofs::SiteLists::lists))]
#[cycle(add_stmt)]
fn add_tests(
    scope: &TypingEnv<'_>,
    at: TypingContext,
    list: &[TypedBranch],
    found: &mut Vec<(u32, u32)>,
) -> Result<(), Failure>
    ensures { OnOk result (found.new.items ≡ found.old.items ++ tests_sites (env scope.now) at (tests_of list.now)) }
{
    for entry in list {
        add_test(scope, at, entry, found)?;
    }
    Ok(())
}

#[tactic(auto, using(crate::proofs::SiteLists::parts))]
#[cycle(add_stmt)]
fn add_test(
    scope: &TypingEnv<'_>,
    at: TypingContext,
    entry: &TypedBranch,
    found: &mut Vec<(u32, u32)>,
) -> Result<(), Failure>
    ensures { OnOk result (found.new.items
        ≡ found.old.items
        ++ (exprs_sites (env scope.now) at (test_of entry.now).0 ++ stmts_sites (env scope.now) at (test_of entry.now).1)) }
{
    add_exprs(scope, at, entry.tests.as_slice(), found)?;
    add_stmts(scope, at, entry.body.as_slice(), found)
}

/// Adds the calls in the branches of a typecase.
#[tactic(auto, using(crate::proofs::SiteLists::lists))]
#[cycle(add_stmt)]
fn add_cases(
    scope: &TypingEnv<'_>,
    at: TypingContext,
    arms: &[TypedArm],
    found: &mut Vec<(u32, u32)>,
) -> Result<(), Failure>
    ensures { OnOk result (found.new.items ≡ found.old.items ++ cases_sites (env scope.now) at (arms_of arms.now)) }
{
    for arm in arms {
        add_case(scope, at, arm, found)?;
    }
    Ok(())
}

#[tactic(auto, using(crate::proofs::SiteLists::parts))]
#[cycle(add_stmt)]
fn add_case(
    scope: &TypingEnv<'_>,
    at: TypingContext,
    arm: &TypedArm,
    found: &mut Vec<(u32, u32)>,
) -> Result<(), Failure>
    ensures { OnOk result (found.new.items ≡ found.old.items ++ stmts_sites (env scope.now) at (arm_of arm.now).2) }
{
    add_stmts(scope, at, arm.body.as_slice(), found)
}

/// Adds the calls in the branches of a protect.
#[tactic(auto, using(crate::proofs::SiteLists::lists))]
#[cycle(add_stmt)]
fn add_branches(
    scope: &TypingEnv<'_>,
    at: TypingContext,
    arms: &[TypedArm],
    found: &mut Vec<(u32, u32)>,
) -> Result<(), Failure>
    ensures { OnOk result (found.new.items ≡ found.old.items ++ branches_sites (env scope.now) at (arms_of arms.now)) }
{
    for arm in arms {
        add_branch(scope, at, arm, found)?;
    }
    Ok(())
}

#[tactic(auto, using(crate::proofs::SiteLists::parts))]
#[cycle(add_stmt)]
fn add_branch(
    scope: &TypingEnv<'_>,
    at: TypingContext,
    arm: &TypedArm,
    found: &mut Vec<(u32, u32)>,
) -> Result<(), Failure>
    ensures { OnOk result (found.new.items
        ≡ found.old.items ++ stmts_sites (env scope.now) (in_branch (arm_of arm.now).0 at) (arm_of arm.now).2) }
{
    add_stmts(scope, at.in_branch(arm.ty), arm.body.as_slice(), found)
}
