//! How many nodes a feature, a shared or an expression has: statements, branches of typecases and protects, and expressions, nested ones
//! included. A count that doesn't fit into 32 bits is given as the greatest number that does.

ghost use Rattle.std.specs.Prelude.{◌≡◌, ◌+◌};
ghost use Rattle.sa_typed.specs.Copy.{arg_of, args_of, arm_of, arms_of, block_of, exit_of, expr_of};
ghost use Rattle.sa_typed.specs.Copy.{exprs_of, option_expr_of, stmt_of, test_of, tests_of};
ghost use Rattle.sa_typed.specs.Nodes.{arg_nodes, args_nodes, arms_nodes, capped, exit_nodes, expr_nodes, exprs_nodes};
ghost use Rattle.sa_typed.specs.Nodes.{feature_nodes, option_expr_nodes, shared_nodes, stmt_nodes, stmts_nodes, tests_nodes};

use crate::expr::{TypedArg, TypedExpr};
use crate::feature::TypedFeature;
use crate::program::TypedShared;
use crate::stmt::{LoopExit, TypedArm, TypedBranch, TypedStmt};

/// The number of nodes of a feature's body, or 4294967295 where there are more.
pub fn feature_nodes(feature: &TypedFeature) -> u32
    ensures { result ≡ capped (feature_nodes feature.now) }
{
    count_stmts(0, feature.body.as_slice())
}

/// The number of nodes of a shared's initialiser, or 4294967295 where there are more; 0 where it has none.
pub fn shared_nodes(shared: &TypedShared) -> u32
    ensures { result ≡ capped (shared_nodes shared.now) }
{
    count_option_expr(0, &shared.start)
}

/// The number of nodes of an expression, itself among them, or 4294967295 where there are more.
pub fn expr_nodes(expr: &TypedExpr) -> u32
    ensures { result ≡ capped (expr_nodes (expr_of expr.now)) }
{
    count_expr(0, expr)
}

/// One more.
fn next(count: u32) -> u32
    ensures { result ≡ capped (count + 1) }
{
    count.saturating_add(1)
}

#[tactic(auto, using(crate::proofs::Copies::copies))]
#[cycle(count_expr)]
fn count_expr(count: u32, expr: &TypedExpr) -> u32
    ensures { result ≡ capped (count + expr_nodes (expr_of expr.now)) }
{
    let count = next(count);
    match expr {
        TypedExpr::IsVoid(of) | TypedExpr::NewArray(_, of, _) | TypedExpr::Box(_, of, _) => {
            count_expr(count, of.get())
        }
        TypedExpr::Array(_, elements, _) => count_exprs(count, elements.as_slice()),
        TypedExpr::Call(_, on, args, _)
        | TypedExpr::IterCall(_, on, args, _)
        | TypedExpr::Bind(_, on, args, _, _) => {
            let count = count_expr(count, on.get());
            count_args(count, args.as_slice())
        }
        TypedExpr::Reversed(_, first, second, _)
        | TypedExpr::And(first, second)
        | TypedExpr::Or(first, second) => {
            let count = count_expr(count, first.get());
            count_expr(count, second.get())
        }
        TypedExpr::Int(_)
        | TypedExpr::Bool(_)
        | TypedExpr::Char(_)
        | TypedExpr::Text(_)
        | TypedExpr::VoidValue(_)
        | TypedExpr::SelfRef
        | TypedExpr::Var(_)
        | TypedExpr::Exception
        | TypedExpr::New(_, _) => count,
    }
}

#[tactic(auto, using(crate::proofs::Counts::counts))]
#[cycle(count_expr)]
fn count_exprs(mut count: u32, exprs: &[TypedExpr]) -> u32
    ensures { result ≡ capped (count + exprs_nodes (exprs_of exprs.now)) }
{
    for expr in exprs {
        count = count_expr(count, expr);
    }
    count
}

#[tactic(auto, using(crate::proofs::Counts::counts))]
#[cycle(count_expr)]
fn count_args(mut count: u32, args: &[TypedArg]) -> u32
    ensures { result ≡ capped (count + args_nodes (args_of args.now)) }
{
    for arg in args {
        count = count_arg(count, arg);
    }
    count
}

#[tactic(auto, using(crate::proofs::Copies::copies))]
#[cycle(count_expr)]
fn count_arg(count: u32, arg: &TypedArg) -> u32
    ensures { result ≡ capped (count + arg_nodes (arg_of arg.now)) }
{
    match arg {
        TypedArg::Value(_, value) => count_expr(count, value),
        TypedArg::Variable(_, _) | TypedArg::Open => count,
    }
}

fn count_option_expr(count: u32, expr: &Option<TypedExpr>) -> u32
    ensures { result ≡ capped (count + option_expr_nodes (option_expr_of expr.now)) }
{
    match expr {
        Some(expr) => count_expr(count, expr),
        None => count,
    }
}

fn count_exit(count: u32, left: &LoopExit) -> u32
    ensures { result ≡ capped (count + exit_nodes (exit_of left.now)) }
{
    match left {
        LoopExit::Break => count,
        LoopExit::While(test) | LoopExit::Until(test) => count_expr(count, test),
    }
}

#[tactic(auto, using(crate::proofs::Copies::copies))]
#[cycle(count_stmt)]
fn count_stmt(count: u32, stmt: &TypedStmt) -> u32
    ensures { result ≡ capped (count + stmt_nodes (stmt_of stmt.now)) }
{
    let count = next(count);
    match stmt {
        TypedStmt::Assign(_, value) | TypedStmt::ExprStmt(value) | TypedStmt::Raise(value, _) => {
            count_expr(count, value)
        }
        TypedStmt::If(tests, other) => {
            let count = count_tests(count, tests.as_slice());
            count_stmts(count, other.as_slice())
        }
        TypedStmt::Loop(_, body) => count_stmts(count, body.as_slice()),
        TypedStmt::ExitLoop(left) => count_exit(count, left),
        TypedStmt::Return(value) | TypedStmt::Yield(value) => count_option_expr(count, value),
        TypedStmt::TypeCase(_, arms, other, _) => {
            let count = count_arms(count, arms.as_slice());
            match other {
                Some(other) => count_stmts(count, other.as_slice()),
                None => count,
            }
        }
        TypedStmt::Protect(body, arms, other) => {
            let count = count_stmts(count, body.as_slice());
            let count = count_arms(count, arms.as_slice());
            match other {
                Some(other) => count_stmts(count, other.as_slice()),
                None => count,
            }
        }
        TypedStmt::Quit | TypedStmt::Fault(_, _) => count,
    }
}

#[tactic(auto, using(crate::proofs::Counts::counts))]
#[cycle(count_stmt)]
fn count_stmts(mut count: u32, stmts: &[TypedStmt]) -> u32
    ensures { result ≡ capped (count + stmts_nodes (block_of stmts.now)) }
{
    for stmt in stmts {
        count = count_stmt(count, stmt);
    }
    count
}

#[tactic(auto, using(crate::proofs::Counts::counts))]
#[cycle(count_stmt)]
fn count_tests(mut count: u32, tests: &[TypedBranch]) -> u32
    ensures { result ≡ capped (count + tests_nodes (tests_of tests.now)) }
{
    for test in tests {
        count = count_test(count, test);
    }
    count
}

#[tactic(auto, using(crate::proofs::Copies::copies))]
#[cycle(count_stmt)]
fn count_test(count: u32, test: &TypedBranch) -> u32
    ensures { result ≡ capped (count + (exprs_nodes (test_of test.now).0 + stmts_nodes (test_of test.now).1)) }
{
    let count = count_exprs(count, test.tests.as_slice());
    count_stmts(count, test.body.as_slice())
}

#[tactic(auto, using(crate::proofs::Counts::counts))]
#[cycle(count_stmt)]
fn count_arms(mut count: u32, arms: &[TypedArm]) -> u32
    ensures { result ≡ capped (count + arms_nodes (arms_of arms.now)) }
{
    for arm in arms {
        count = count_arm(count, arm);
    }
    count
}

#[tactic(auto, using(crate::proofs::Copies::copies))]
#[cycle(count_stmt)]
fn count_arm(count: u32, arm: &TypedArm) -> u32
    ensures { result ≡ capped (count + (1 + stmts_nodes (arm_of arm.now).2)) }
{
    let count = next(count);
    count_stmts(count, arm.body.as_slice())
}
