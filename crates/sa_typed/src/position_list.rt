//! The positions that the expressions and statements of a program carry, each before those of its children, and these in the order of the
//! fields. A fault of the running program is reported by the index of its position in this list.

ghost use Rattle.std.specs.Prelude.{◌≡◌, [], ◌∷◌, ◌++◌, flat_map, IfOk, OnOk};
ghost use Rattle.sa_typed.specs.Copy.{arg_of, args_of, arm_of, arms_of, block_of, exit_of, expr_of};
ghost use Rattle.sa_typed.specs.Copy.{exprs_of, option_expr_of, stmt_of, test_of, tests_of};
ghost use Rattle.sa_typed.specs.PositionList.{arg_positions, args_positions, arms_positions, program_positions, exit_positions};
ghost use Rattle.sa_typed.specs.PositionList.{expr_positions, exprs_positions, feature_positions, option_expr_positions};
ghost use Rattle.sa_typed.specs.PositionList.{shared_positions, stmt_positions, stmts_positions, tests_positions};

use crate::expr::{TypedArg, TypedExpr};
use crate::feature::TypedFeature;
use crate::program::{TypedProgram, TypedShared};
use crate::stmt::{LoopExit, TypedArm, TypedBranch, TypedStmt};
use failure::Failure;
use sa_ast::Pos;
use sqlite_items::Items;
use std::alloc::Global;

/// The positions that the expressions and statements of a program carry: those of the shareds' initialisers by number, then those of the
/// features' bodies by number. A position may occur more than once.
pub fn positions(alloc: Global, core: &TypedProgram) -> Result<Items<Pos>, Failure>
    ensures { IfOk result (λ found. found ≡ program_positions core.now) }
{
    let mut found = Items::new(alloc);
    add_shareds(&mut found, core.shareds.as_slice())?;
    add_features(&mut found, core.features.as_slice())?;
    Ok(found)
}

#[tactic(auto, using(crate::proofs::PositionLists::places))]
fn add_shareds(found: &mut Items<Pos>, shareds: &[TypedShared]) -> Result<(), Failure>
    ensures { OnOk result (found.new ≡ found.old ++ flat_map shared_positions shareds.now) }
{
    for shared in shareds {
        add_option_expr(found, &shared.start)?;
    }
    Ok(())
}

#[tactic(auto, using(crate::proofs::PositionLists::places))]
fn add_features(found: &mut Items<Pos>, features: &[TypedFeature]) -> Result<(), Failure>
    ensures { OnOk result (found.new ≡ found.old ++ flat_map feature_positions features.now) }
{
    for feature in features {
        add_stmts(found, feature.body.as_slice())?;
    }
    Ok(())
}

fn add_pos(found: &mut Items<Pos>, pos: Pos) -> Result<(), Failure>
    ensures { OnOk result (found.new ≡ found.old ++ pos ∷ []) }
{
    found.push(pos)?;
    Ok(())
}

#[tactic(auto, using(crate::proofs::PositionLists::parts))]
#[cycle(add_expr)]
fn add_expr(found: &mut Items<Pos>, expr: &TypedExpr) -> Result<(), Failure>
    ensures { OnOk result (found.new ≡ found.old ++ expr_positions (expr_of expr.now)) }
{
    match expr {
        TypedExpr::IsVoid(of) => add_expr(found, of.get()),
        TypedExpr::New(_, pos) => add_pos(found, *pos),
        TypedExpr::NewArray(_, of, pos) | TypedExpr::Box(_, of, pos) => {
            add_pos(found, *pos)?;
            add_expr(found, of.get())
        }
        TypedExpr::Array(_, elements, pos) => {
            add_pos(found, *pos)?;
            add_exprs(found, elements.as_slice())
        }
        TypedExpr::Call(_, on, args, pos)
        | TypedExpr::IterCall(_, on, args, pos)
        | TypedExpr::Bind(_, on, args, _, pos) => {
            add_pos(found, *pos)?;
            add_expr(found, on.get())?;
            add_args(found, args.as_slice())
        }
        TypedExpr::Reversed(_, first, second, pos) => {
            add_pos(found, *pos)?;
            add_expr(found, first.get())?;
            add_expr(found, second.get())
        }
        TypedExpr::And(first, second) | TypedExpr::Or(first, second) => {
            add_expr(found, first.get())?;
            add_expr(found, second.get())
        }
        TypedExpr::Int(_)
        | TypedExpr::Bool(_)
        | TypedExpr::Char(_)
        | TypedExpr::Text(_)
        | TypedExpr::VoidValue(_)
        | TypedExpr::SelfRef
        | TypedExpr::Var(_)
        | TypedExpr::Exception => Ok(()),
    }
}

#[tactic(auto, using(crate::proofs::PositionLists::places))]
#[cycle(add_expr)]
fn add_exprs(found: &mut Items<Pos>, exprs: &[TypedExpr]) -> Result<(), Failure>
    ensures { OnOk result (found.new ≡ found.old ++ exprs_positions (exprs_of exprs.now)) }
{
    for expr in exprs {
        add_expr(found, expr)?;
    }
    Ok(())
}

#[tactic(auto, using(crate::proofs::PositionLists::places))]
#[cycle(add_expr)]
fn add_args(found: &mut Items<Pos>, args: &[TypedArg]) -> Result<(), Failure>
    ensures { OnOk result (found.new ≡ found.old ++ args_positions (args_of args.now)) }
{
    for arg in args {
        add_arg(found, arg)?;
    }
    Ok(())
}

#[tactic(auto, using(crate::proofs::PositionLists::parts))]
#[cycle(add_expr)]
fn add_arg(found: &mut Items<Pos>, arg: &TypedArg) -> Result<(), Failure>
    ensures { OnOk result (found.new ≡ found.old ++ arg_positions (arg_of arg.now)) }
{
    match arg {
        TypedArg::Value(_, value) => add_expr(found, value),
        TypedArg::Variable(_, _) | TypedArg::Open => Ok(()),
    }
}

#[tactic(auto, using(crate::proofs::PositionLists::parts))]
fn add_option_expr(found: &mut Items<Pos>, expr: &Option<TypedExpr>) -> Result<(), Failure>
    ensures { OnOk result (found.new ≡ found.old ++ option_expr_positions (option_expr_of expr.now)) }
{
    match expr {
        Some(expr) => add_expr(found, expr),
        None => Ok(()),
    }
}

#[tactic(auto, using(crate::proofs::PositionLists::parts))]
fn add_exit(found: &mut Items<Pos>, left: &LoopExit) -> Result<(), Failure>
    ensures { OnOk result (found.new ≡ found.old ++ exit_positions (exit_of left.now)) }
{
    match left {
        LoopExit::Break => Ok(()),
        LoopExit::While(test) | LoopExit::Until(test) => add_expr(found, test),
    }
}

#[tactic(auto, using(crate::proofs::PositionLists::parts))]
#[cycle(add_stmt)]
fn add_stmt(found: &mut Items<Pos>, stmt: &TypedStmt) -> Result<(), Failure>
    ensures { OnOk result (found.new ≡ found.old ++ stmt_positions (stmt_of stmt.now)) }
{
    match stmt {
        TypedStmt::Assign(_, value) | TypedStmt::ExprStmt(value) => add_expr(found, value),
        TypedStmt::If(tests, other) => {
            add_tests(found, tests.as_slice())?;
            add_stmts(found, other.as_slice())
        }
        TypedStmt::Loop(_, body) => add_stmts(found, body.as_slice()),
        TypedStmt::ExitLoop(left) => add_exit(found, left),
        TypedStmt::Return(value) | TypedStmt::Yield(value) => add_option_expr(found, value),
        TypedStmt::TypeCase(_, arms, other, pos) => {
            add_pos(found, *pos)?;
            add_arms(found, arms.as_slice())?;
            match other {
                Some(other) => add_stmts(found, other.as_slice()),
                None => Ok(()),
            }
        }
        TypedStmt::Protect(body, arms, other) => {
            add_stmts(found, body.as_slice())?;
            add_arms(found, arms.as_slice())?;
            match other {
                Some(other) => add_stmts(found, other.as_slice()),
                None => Ok(()),
            }
        }
        TypedStmt::Raise(value, pos) => {
            add_pos(found, *pos)?;
            add_expr(found, value)
        }
        TypedStmt::Quit => Ok(()),
        TypedStmt::Fault(_, pos) => add_pos(found, *pos),
    }
}

#[tactic(auto, using(crate::proofs::PositionLists::places))]
#[cycle(add_stmt)]
fn add_stmts(found: &mut Items<Pos>, stmts: &[TypedStmt]) -> Result<(), Failure>
    ensures { OnOk result (found.new ≡ found.old ++ stmts_positions (block_of stmts.now)) }
{
    for stmt in stmts {
        add_stmt(found, stmt)?;
    }
    Ok(())
}

#[tactic(auto, using(crate::proofs::PositionLists::places))]
#[cycle(add_stmt)]
fn add_tests(found: &mut Items<Pos>, tests: &[TypedBranch]) -> Result<(), Failure>
    ensures { OnOk result (found.new ≡ found.old ++ tests_positions (tests_of tests.now)) }
{
    for test in tests {
        add_test(found, test)?;
    }
    Ok(())
}

#[tactic(auto, using(crate::proofs::PositionLists::parts))]
#[cycle(add_stmt)]
fn add_test(found: &mut Items<Pos>, test: &TypedBranch) -> Result<(), Failure>
    ensures { OnOk result (found.new ≡ found.old ++ (exprs_positions (test_of test.now).0 ++ stmts_positions (test_of test.now).1)) }
{
    add_exprs(found, test.tests.as_slice())?;
    add_stmts(found, test.body.as_slice())
}

#[tactic(auto, using(crate::proofs::PositionLists::places))]
#[cycle(add_stmt)]
fn add_arms(found: &mut Items<Pos>, arms: &[TypedArm]) -> Result<(), Failure>
    ensures { OnOk result (found.new ≡ found.old ++ arms_positions (arms_of arms.now)) }
{
    for arm in arms {
        add_arm(found, arm)?;
    }
    Ok(())
}

#[tactic(auto, using(crate::proofs::PositionLists::parts))]
#[cycle(add_stmt)]
fn add_arm(found: &mut Items<Pos>, arm: &TypedArm) -> Result<(), Failure>
    ensures { OnOk result (found.new ≡ found.old ++ stmts_positions (arm_of arm.now).2) }
{
    add_stmts(found, arm.body.as_slice())
}
