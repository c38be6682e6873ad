//! Whether statements are well typed.

ghost use Rattle.std.specs.Prelude.{◌≡◌, ◌&&◌, slice_get};
ghost use Rattle.sa_typed.specs.Copy.{arm_of, arms_of, block_of, exit_of, expr_of, exprs_of, option_expr_of, stmt_of, test_of, tests_of};
ghost use Rattle.sa_typing.specs.Contexts.{env, in_branch};
ghost use Rattle.sa_typing.specs.Rows.{is_type};
ghost use Rattle.sa_typing.specs.Statements.{are_tests, fits_variable, gives_back, is_branch_variable, is_end, narrowed, well_branches};
ghost use Rattle.sa_typing.specs.Statements.{well_cases, well_exit, well_stmt, well_stmts, well_tests};

use crate::builtins::OB;
use crate::context::{TypingContext, TypingEnv};
use crate::expr::{is_assignable_expr, type_of_expr};
use crate::forms::is_test;
use sa_ast::FaultKind;
use sa_typed::{LoopExit, TypedArm, TypedBranch, TypedExpr, TypedStmt};

/// Whether statements are well typed in their context.
#[tactic(auto, using(crate::proofs::Blocks::blocks))]
#[cycle(well)]
pub(crate) fn well_stmts(scope: &TypingEnv<'_>, at: TypingContext, list: &[TypedStmt]) -> bool
    ensures { result ≡ well_stmts (env scope.now) at (block_of list.now) }
{
    for stmt in list {
        if !well_stmt(scope, at, stmt) {
            return false;
        }
    }
    true
}

/// Whether a statement is.
#[tactic(auto, using(sa_typed::proofs::Copies::copies))]
#[cycle(well)]
fn well_stmt(scope: &TypingEnv<'_>, at: TypingContext, stmt: &TypedStmt) -> bool
    ensures { result ≡ well_stmt (env scope.now) at (stmt_of stmt.now) }
{
    match stmt {
        TypedStmt::Assign(var, value) => fits_variable(scope, at, *var, value),
        TypedStmt::ExprStmt(value) => type_of_expr(scope, at, value).is_some(),
        TypedStmt::If(tests, other) => {
            well_tests(scope, at, tests.as_slice()) && well_stmts(scope, at, other.as_slice())
        }
        TypedStmt::Loop(number, body) => {
            at.is_inner(*number) && well_stmts(scope, at.in_loop(*number), body.as_slice())
        }
        TypedStmt::ExitLoop(left) => at.may_leave() && well_exit(scope, at, left),
        TypedStmt::TypeCase(var, arms, other, _) => {
            if !well_cases(scope, at, variable_type(scope, *var), arms.as_slice()) {
                return false;
            }
            match other {
                Some(other) => well_stmts(scope, at, other.as_slice()),
                None => true,
            }
        }
        TypedStmt::Protect(body, arms, other) => {
            let inside = at.guarded();
            if !well_stmts(scope, inside, body.as_slice()) {
                return false;
            }
            if !well_branches(scope, inside, arms.as_slice()) {
                return false;
            }
            match other {
                Some(other) => well_stmts(scope, inside.in_branch(OB), other.as_slice()),
                None => true,
            }
        }
        TypedStmt::Return(value) => !scope.iter && gives_back(scope, at, value),
        TypedStmt::Yield(value) => { scope.iter && !at.protected && gives_back(scope, at, value) }
        TypedStmt::Quit => scope.iter && !at.protected,
        TypedStmt::Raise(value, _) => is_assignable_expr(scope, at, OB, value),
        TypedStmt::Fault(kind, _) => is_end(*kind),
    }
}

/// The type of a variable.
fn variable_type(scope: &TypingEnv<'_>, var: u32) -> Option<u32>
    ensures { result ≡ slice_get scope.now.vars.now var }
{
    scope.vars.get(var as usize).copied()
}

/// Whether a variable takes a value.
fn fits_variable(scope: &TypingEnv<'_>, at: TypingContext, var: u32, value: &TypedExpr) -> bool
    ensures { result ≡ fits_variable (env scope.now) at var (expr_of value.now) }
{
    match scope.vars.get(var as usize) {
        Some(ty) => is_assignable_expr(scope, at, *ty, value),
        None => false,
    }
}

/// Whether tests are BOOLs.
#[tactic(auto, using(crate::proofs::Blocks::tests))]
fn are_tests(scope: &TypingEnv<'_>, at: TypingContext, list: &[TypedExpr]) -> bool
    ensures { result ≡ are_tests (env scope.now) at (exprs_of list.now) }
{
    for e in list {
        if !is_test(type_of_expr(scope, at, e)) {
            return false;
        }
    }
    true
}

/// Whether the arms of an `if` are well typed.
#[tactic(auto, using(crate::proofs::Blocks::blocks))]
#[cycle(well)]
fn well_tests(scope: &TypingEnv<'_>, at: TypingContext, list: &[TypedBranch]) -> bool
    ensures { result ≡ well_tests (env scope.now) at (tests_of list.now) }
{
    for entry in list {
        if !well_test(scope, at, entry) {
            return false;
        }
    }
    true
}

/// Whether an arm of an `if` is.
#[tactic(auto, using(sa_typed::proofs::Copies::copies))]
#[cycle(well)]
fn well_test(scope: &TypingEnv<'_>, at: TypingContext, entry: &TypedBranch) -> bool
    ensures { result
        ≡ (are_tests (env scope.now) at (test_of entry.now).0 && well_stmts (env scope.now) at (test_of entry.now).1) }
{
    are_tests(scope, at, entry.tests.as_slice()) && well_stmts(scope, at, entry.body.as_slice())
}

/// Whether what exits a loop is well typed.
fn well_exit(scope: &TypingEnv<'_>, at: TypingContext, left: &LoopExit) -> bool
    ensures { result ≡ well_exit (env scope.now) at (exit_of left.now) }
{
    match left {
        LoopExit::Break => true,
        LoopExit::While(test) => is_test(type_of_expr(scope, at, test)),
        LoopExit::Until(test) => is_test(type_of_expr(scope, at, test)),
    }
}

/// Whether the branches of a typecase are well typed, by the type of the tested variable.
#[tactic(auto, using(crate::proofs::Blocks::blocks))]
#[cycle(well)]
fn well_cases(
    scope: &TypingEnv<'_>,
    at: TypingContext,
    tested: Option<u32>,
    arms: &[TypedArm],
) -> bool
    ensures { result ≡ well_cases (env scope.now) at tested (arms_of arms.now) }
{
    let Some(own) = tested else {
        return false;
    };
    for arm in arms {
        if !well_case(scope, at, own, arm) {
            return false;
        }
    }
    true
}

/// Whether a branch of a typecase is.
#[tactic(auto, using(sa_typed::proofs::Copies::copies))]
#[cycle(well)]
fn well_case(scope: &TypingEnv<'_>, at: TypingContext, tested: u32, arm: &TypedArm) -> bool
    ensures { result
        ≡ (is_branch_variable (env scope.now) tested (arm_of arm.now).0 (arm_of arm.now).1
        && well_stmts (env scope.now) at (arm_of arm.now).2) }
{
    is_branch_variable(scope, tested, arm.ty, arm.var) && well_stmts(scope, at, arm.body.as_slice())
}

/// Whether the variable of a branch has the type that it has there.
fn is_branch_variable(scope: &TypingEnv<'_>, tested: u32, branch: u32, var: u32) -> bool
    ensures { result ≡ is_branch_variable (env scope.now) tested branch var }
{
    match scope.vars.get(var as usize) {
        Some(ty) => scope.view.is_type(branch) && *ty == narrowed(scope, tested, branch),
        None => false,
    }
}

/// The type that the tested variable has in a branch: its own where this is a subtype of the type of the branch, else the type of the
/// branch.
fn narrowed(scope: &TypingEnv<'_>, tested: u32, branch: u32) -> u32
    ensures { result ≡ narrowed (env scope.now) tested branch }
{
    if scope.view.is_supertype(branch, tested) {
        tested
    } else {
        branch
    }
}

/// Whether the branches of a protect are well typed.
#[tactic(auto, using(crate::proofs::Blocks::blocks))]
#[cycle(well)]
fn well_branches(scope: &TypingEnv<'_>, at: TypingContext, arms: &[TypedArm]) -> bool
    ensures { result ≡ well_branches (env scope.now) at (arms_of arms.now) }
{
    for arm in arms {
        if !well_branch(scope, at, arm) {
            return false;
        }
    }
    true
}

/// Whether a branch of a protect is.
#[tactic(auto, using(sa_typed::proofs::Copies::copies))]
#[cycle(well)]
fn well_branch(scope: &TypingEnv<'_>, at: TypingContext, arm: &TypedArm) -> bool
    ensures { result
        ≡ (is_type (env scope.now).rows (arm_of arm.now).0
        && well_stmts (env scope.now) (in_branch (arm_of arm.now).0 at) (arm_of arm.now).2) }
{
    scope.view.is_type(arm.ty) && well_stmts(scope, at.in_branch(arm.ty), arm.body.as_slice())
}

/// Whether the returned value is of the type of the result, or there is neither.
fn gives_back(scope: &TypingEnv<'_>, at: TypingContext, value: &Option<TypedExpr>) -> bool
    ensures { result ≡ gives_back (env scope.now) at (option_expr_of value.now) }
{
    match (value, scope.gives) {
        (None, None) => true,
        (Some(value), Some(ty)) => is_assignable_expr(scope, at, ty, value),
        _ => false,
    }
}

/// Whether a fault is of one of the kinds with which statements stop the program.
fn is_end(kind: FaultKind) -> bool
    ensures { result ≡ is_end kind }
{
    matches!(
        kind,
        FaultKind::NoBranch | FaultKind::NoReturn | FaultKind::Assert
    )
}
