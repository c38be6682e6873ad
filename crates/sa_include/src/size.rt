//! How many AST nodes a tree has: its statements, expressions, declared locals and types, each with those inside it, and one
//! more for each 16 bytes of a name or a text. A type that is a parameter counts as many as the type that is substituted for
//! it.

use crate::weights::{Size, Weights, size_of_bytes};
use sa_ast::{
    BranchArm, CaseArm, Expr, ExprArg, ExprReceiver, FeatureBody, FormalParam, Local, ModeTy, Stmt,
    Ty, TypeArm,
};
use sqlite_items::Boxed;

/// The size of a type.
#[cycle(types)]
pub(crate) fn size_of_type(ty: &Ty, weights: &Weights) -> Size {
    match ty {
        Ty::Named(name, given, _) => {
            if given.is_empty() {
                return weights.size_of_name(name);
            }
            let inside = size_of_types(given.as_slice(), weights);
            Size::ONE.plus(size_of_bytes(name)).plus(inside)
        }
        Ty::Same(_) => Size::ONE,
        Ty::Rout(args, result, _) => {
            let inside = size_of_args(args.as_slice(), weights);
            Size::ONE.plus(inside).plus(size_of_result(result, weights))
        }
        Ty::Iter(args, result, _) => {
            let inside = size_of_args(args.as_slice(), weights);
            Size::ONE.plus(inside).plus(size_of_result(result, weights))
        }
    }
}

#[cycle(types)]
fn size_of_types(types: &[Ty], weights: &Weights) -> Size {
    let mut size = Size::ZERO;
    for ty in types {
        size = size.plus(size_of_type(ty, weights));
    }
    size
}

#[cycle(types)]
fn size_of_args(args: &[ModeTy], weights: &Weights) -> Size {
    let mut size = Size::ZERO;
    for arg in args {
        size = size.plus(size_of_type(&arg.ty, weights));
    }
    size
}

#[cycle(types)]
fn size_of_result(of: &Option<Boxed<Ty>>, weights: &Weights) -> Size {
    match of {
        None => Size::ZERO,
        Some(ty) => size_of_type(ty.get(), weights),
    }
}

pub(crate) fn size_of_optional_type(ty: &Option<Ty>, weights: &Weights) -> Size {
    match ty {
        None => Size::ZERO,
        Some(ty) => size_of_type(ty, weights),
    }
}

pub(crate) fn size_of_formals(formals: &[FormalParam], weights: &Weights) -> Size {
    let mut size = Size::ZERO;
    for formal in formals {
        size = size
            .plus(size_of_local(&formal.local))
            .plus(size_of_type(&formal.ty, weights));
    }
    size
}

fn size_of_local(local: &Local) -> Size {
    Size::ONE.plus(size_of_bytes(&local.name))
}

fn size_of_locals(locals: &[Local]) -> Size {
    let mut size = Size::ZERO;
    for local in locals {
        size = size.plus(size_of_local(local));
    }
    size
}

/// The size of what a feature starts with: the value of a shared or of a constant.
pub(crate) fn size_of_value(part: &FeatureBody, weights: &Weights) -> Size {
    match part {
        FeatureBody::Shared(value) => size_of_optional_expr(value, weights),
        FeatureBody::Const(value, _) => size_of_optional_expr(value, weights),
        _ => Size::ZERO,
    }
}

/// The size of an expression.
#[cycle(exprs)]
fn size_of_expr(e: &Expr, weights: &Weights) -> Size {
    match e {
        Expr::Int(_, _) => Size::ONE,
        Expr::Bool(_, _) => Size::ONE,
        Expr::Char(_, _) => Size::ONE,
        Expr::SelfRef(_) => Size::ONE,
        Expr::Void(_) => Size::ONE,
        Expr::Exception(_) => Size::ONE,
        Expr::Text(text, _) => Size::ONE.plus(size_of_bytes(text)),
        Expr::IsVoid(tested, _) => Size::ONE.plus(size_of_expr(tested.get(), weights)),
        Expr::Unary(_, of, _) => Size::ONE.plus(size_of_expr(of.get(), weights)),
        Expr::Bind(call, _) => Size::ONE.plus(size_of_expr(call.get(), weights)),
        Expr::New(count, _) => Size::ONE.plus(size_of_boxed(count, weights)),
        Expr::Create(ty, given, _) => {
            let given = size_of_givens(given.as_slice(), weights);
            Size::ONE
                .plus(size_of_optional_type(ty, weights))
                .plus(given)
        }
        Expr::Items(list, _) => Size::ONE.plus(size_of_exprs(list.as_slice(), weights)),
        Expr::Call(on, name, given, _) => {
            let on = size_of_recv(on, weights);
            let given = size_of_givens(given.as_slice(), weights);
            Size::ONE.plus(size_of_bytes(name)).plus(on).plus(given)
        }
        Expr::Binary(_, left, right, _) => {
            let left = size_of_expr(left.get(), weights);
            Size::ONE
                .plus(left)
                .plus(size_of_expr(right.get(), weights))
        }
        Expr::Index(of, at, _) => {
            let of = size_of_boxed(of, weights);
            Size::ONE
                .plus(of)
                .plus(size_of_exprs(at.as_slice(), weights))
        }
    }
}

#[cycle(exprs)]
fn size_of_exprs(list: &[Expr], weights: &Weights) -> Size {
    let mut size = Size::ZERO;
    for e in list {
        size = size.plus(size_of_expr(e, weights));
    }
    size
}

#[cycle(exprs)]
fn size_of_boxed(e: &Option<Boxed<Expr>>, weights: &Weights) -> Size {
    match e {
        None => Size::ZERO,
        Some(e) => size_of_expr(e.get(), weights),
    }
}

#[cycle(exprs)]
fn size_of_recv(recv: &ExprReceiver, weights: &Weights) -> Size {
    match recv {
        ExprReceiver::Implied => Size::ZERO,
        ExprReceiver::Of(e) => size_of_expr(e.get(), weights),
        ExprReceiver::OfClass(ty) => size_of_type(ty, weights),
    }
}

#[cycle(exprs)]
fn size_of_givens(list: &[ExprArg], weights: &Weights) -> Size {
    let mut size = Size::ZERO;
    for given in list {
        size = size.plus(size_of_given(given, weights));
    }
    size
}

#[cycle(exprs)]
fn size_of_given(given: &ExprArg, weights: &Weights) -> Size {
    match given {
        ExprArg::Value(_, e) => size_of_expr(e, weights),
        ExprArg::Unbound(ty, _) => Size::ONE.plus(size_of_optional_type(ty, weights)),
    }
}

pub(crate) fn size_of_optional_expr(e: &Option<Expr>, weights: &Weights) -> Size {
    match e {
        None => Size::ZERO,
        Some(e) => size_of_expr(e, weights),
    }
}

/// The size of a statement.
#[cycle(stmts)]
fn size_of_stmt(stmt: &Stmt, weights: &Weights) -> Size {
    match stmt {
        Stmt::Declare(locals, ty, value) => {
            let locals = size_of_locals(locals.as_slice());
            let ty = size_of_optional_type(ty, weights);
            let value = size_of_optional_expr(value, weights);
            Size::ONE.plus(locals).plus(ty).plus(value)
        }
        Stmt::Assign(to, value, _) => {
            let to = size_of_expr(to, weights);
            Size::ONE.plus(to).plus(size_of_expr(value, weights))
        }
        Stmt::If(arms, rest, _) => {
            let arms = size_of_arms(arms.as_slice(), weights);
            Size::ONE
                .plus(arms)
                .plus(size_of_stmts(rest.as_slice(), weights))
        }
        Stmt::Loop(body, _) => Size::ONE.plus(size_of_stmts(body.as_slice(), weights)),
        Stmt::Case(tested, arms, rest, _) => {
            let tested = size_of_expr(tested, weights);
            let arms = size_of_case_arms(arms.as_slice(), weights);
            let size = Size::ONE.plus(tested).plus(arms);
            match rest {
                Some(rest) => size.plus(size_of_stmts(rest.as_slice(), weights)),
                None => size,
            }
        }
        Stmt::TypeCase(tested, arms, rest, _) => {
            let arms = size_of_type_arms(arms.as_slice(), weights);
            let size = Size::ONE.plus(size_of_local(tested)).plus(arms);
            match rest {
                Some(rest) => size.plus(size_of_stmts(rest.as_slice(), weights)),
                None => size,
            }
        }
        Stmt::Protect(body, arms, rest, _) => {
            let body = size_of_stmts(body.as_slice(), weights);
            let arms = size_of_type_arms(arms.as_slice(), weights);
            let size = Size::ONE.plus(body).plus(arms);
            match rest {
                Some(rest) => size.plus(size_of_stmts(rest.as_slice(), weights)),
                None => size,
            }
        }
        Stmt::Return(value, _) => Size::ONE.plus(size_of_optional_expr(value, weights)),
        Stmt::Yield(value, _) => Size::ONE.plus(size_of_optional_expr(value, weights)),
        Stmt::Quit(_) => Size::ONE,
        Stmt::Raise(value, _) => Size::ONE.plus(size_of_expr(value, weights)),
        Stmt::Assert(test, _) => Size::ONE.plus(size_of_expr(test, weights)),
        Stmt::ExprStmt(e) => Size::ONE.plus(size_of_expr(e, weights)),
    }
}

/// The size of statements.
#[cycle(stmts)]
pub(crate) fn size_of_stmts(list: &[Stmt], weights: &Weights) -> Size {
    let mut size = Size::ZERO;
    for stmt in list {
        size = size.plus(size_of_stmt(stmt, weights));
    }
    size
}

#[cycle(stmts)]
fn size_of_arms(arms: &[BranchArm], weights: &Weights) -> Size {
    let mut size = Size::ZERO;
    for arm in arms {
        size = size
            .plus(size_of_expr(&arm.test, weights))
            .plus(size_of_stmts(arm.body.as_slice(), weights));
    }
    size
}

#[cycle(stmts)]
fn size_of_case_arms(arms: &[CaseArm], weights: &Weights) -> Size {
    let mut size = Size::ZERO;
    for arm in arms {
        size = size
            .plus(size_of_exprs(arm.values.as_slice(), weights))
            .plus(size_of_stmts(arm.body.as_slice(), weights));
    }
    size
}

#[cycle(stmts)]
fn size_of_type_arms(arms: &[TypeArm], weights: &Weights) -> Size {
    let mut size = Size::ZERO;
    for arm in arms {
        size = size
            .plus(size_of_type(&arm.ty, weights))
            .plus(size_of_stmts(arm.body.as_slice(), weights));
    }
    size
}
