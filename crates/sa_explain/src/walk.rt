//! A walk over the bodies and the initialisers of a program: finds the calls and the binds in them, the features that contain a position,
//! and what is raised at it.

use crate::raised::type_of;
use crate::targets::{Call, CalledFeature, reached_at, reached_by};
use failure::Failure;
use sa_ast::{Pos, Ty};
use sa_typed::{
    LoopExit, Site, TypedArg, TypedArm, TypedBranch, TypedExpr, TypedFeature, TypedProgram,
    TypedShared, TypedStmt,
};
use std::alloc::Global;

/// The result of the walk.
#[derive(Drop)]
pub(crate) struct CallSearch<'a> {
    /// The position of the search.
    place: Pos,
    pub calls: Vec<Call>,
    /// The features whose bodies contain the position, once for each occurrence.
    pub holders: Vec<u32>,
    /// The type of each value that is raised at the position, where it is known.
    pub raised: Vec<Option<&'a Ty>>,
}

/// The feature that is walked, or none in the initialiser of a shared.
#[derive(Clone, Copy)]
pub(crate) struct Body<'a> {
    pub core: &'a TypedProgram,
    pub number: Option<u32>,
    pub feature: Option<&'a TypedFeature>,
}

impl<'a> Body<'a> {
    /// An iter call in the text of the feature.
    pub(crate) fn site(self, number: u32) -> Option<&'a Site> {
        self.feature?.sites.get(number as usize)
    }
}

/// Walks the whole program.
pub(crate) fn seen_in<'a>(
    alloc: Global,
    core: &'a TypedProgram,
    place: Pos,
) -> Result<CallSearch<'a>, Failure> {
    let mut seen = CallSearch {
        place,
        calls: Vec::new(alloc),
        holders: Vec::new(alloc),
        raised: Vec::new(alloc),
    };
    for shared in core.shareds.as_slice() {
        see_shared(&mut seen, core, shared)?;
    }
    for (number, feature) in core.features.as_slice().iter().enumerate() {
        see_feature(&mut seen, core, number, feature)?;
    }
    Ok(seen)
}

fn see_shared<'a>(
    seen: &mut CallSearch<'a>,
    core: &'a TypedProgram,
    shared: &'a TypedShared,
) -> Result<(), Failure> {
    let body = Body {
        core,
        number: None,
        feature: None,
    };
    see_option_expr(seen, body, &shared.start)
}

fn see_feature<'a>(
    seen: &mut CallSearch<'a>,
    core: &'a TypedProgram,
    number: usize,
    feature: &'a TypedFeature,
) -> Result<(), Failure> {
    let body = Body {
        core,
        number: u32::try_from(number).ok(),
        feature: Some(feature),
    };
    see_stmts(seen, body, feature.body.as_slice())
}

/// Notes the feature, where the position is that of the search.
fn see_pos(seen: &mut CallSearch<'_>, body: Body<'_>, pos: Pos) -> Result<(), Failure> {
    if pos == seen.place
        && let Some(number) = body.number
    {
        seen.holders.push(number)?;
    }
    Ok(())
}

/// Notes a call.
fn see_call(
    seen: &mut CallSearch<'_>,
    body: Body<'_>,
    to: Option<CalledFeature>,
    pos: Pos,
) -> Result<(), Failure> {
    if let Some(to) = to {
        seen.calls.push(Call {
            feature: body.number,
            to,
            pos,
        })?;
    }
    see_pos(seen, body, pos)
}

/// Notes the type of what is raised, where it is raised at the position of the search.
fn see_raise<'a>(
    seen: &mut CallSearch<'a>,
    body: Body<'a>,
    value: &'a TypedExpr,
    pos: Pos,
) -> Result<(), Failure> {
    if pos == seen.place {
        seen.raised.push(type_of(body, value))?;
    }
    Ok(())
}

#[cycle(see_expr)]
fn see_expr<'a>(
    seen: &mut CallSearch<'a>,
    body: Body<'a>,
    expr: &'a TypedExpr,
) -> Result<(), Failure> {
    match expr {
        TypedExpr::IsVoid(of) => see_expr(seen, body, of.get()),
        TypedExpr::New(_, pos) => see_pos(seen, body, *pos),
        TypedExpr::NewArray(_, of, pos) | TypedExpr::Box(_, of, pos) => {
            see_pos(seen, body, *pos)?;
            see_expr(seen, body, of.get())
        }
        TypedExpr::Array(_, elements, pos) => {
            see_pos(seen, body, *pos)?;
            see_exprs(seen, body, elements.as_slice())
        }
        TypedExpr::Call(called, on, args, pos) | TypedExpr::Bind(called, on, args, _, pos) => {
            see_call(seen, body, reached_by(*called), *pos)?;
            see_expr(seen, body, on.get())?;
            see_args(seen, body, args.as_slice())
        }
        TypedExpr::IterCall(site, on, args, pos) => {
            see_call(seen, body, reached_from(body, *site), *pos)?;
            see_expr(seen, body, on.get())?;
            see_args(seen, body, args.as_slice())
        }
        TypedExpr::Reversed(target, first, second, pos) => {
            see_call(seen, body, reached_at(*target), *pos)?;
            see_expr(seen, body, first.get())?;
            see_expr(seen, body, second.get())
        }
        TypedExpr::And(first, second) | TypedExpr::Or(first, second) => {
            see_expr(seen, body, first.get())?;
            see_expr(seen, body, second.get())
        }
        TypedExpr::Int(_)
        | TypedExpr::Bool(_)
        | TypedExpr::Char(_)
        | TypedExpr::Text(_)
        | TypedExpr::VoidValue(_)
        | TypedExpr::SelfRef
        | TypedExpr::Var(_)
        | TypedExpr::Exception => Ok(()),
    }
}

/// The target of an iter call at a site.
fn reached_from(body: Body<'_>, site: u32) -> Option<CalledFeature> {
    reached_by(body.site(site)?.called)
}

#[cycle(see_expr)]
fn see_exprs<'a>(
    seen: &mut CallSearch<'a>,
    body: Body<'a>,
    exprs: &'a [TypedExpr],
) -> Result<(), Failure> {
    for expr in exprs {
        see_expr(seen, body, expr)?;
    }
    Ok(())
}

#[cycle(see_expr)]
fn see_args<'a>(
    seen: &mut CallSearch<'a>,
    body: Body<'a>,
    args: &'a [TypedArg],
) -> Result<(), Failure> {
    for arg in args {
        see_arg(seen, body, arg)?;
    }
    Ok(())
}

#[cycle(see_expr)]
fn see_arg<'a>(
    seen: &mut CallSearch<'a>,
    body: Body<'a>,
    arg: &'a TypedArg,
) -> Result<(), Failure> {
    match arg {
        TypedArg::Value(_, value) => see_expr(seen, body, value),
        TypedArg::Variable(_, _) | TypedArg::Open => Ok(()),
    }
}

fn see_option_expr<'a>(
    seen: &mut CallSearch<'a>,
    body: Body<'a>,
    expr: &'a Option<TypedExpr>,
) -> Result<(), Failure> {
    match expr {
        Some(expr) => see_expr(seen, body, expr),
        None => Ok(()),
    }
}

fn see_exit<'a>(
    seen: &mut CallSearch<'a>,
    body: Body<'a>,
    left: &'a LoopExit,
) -> Result<(), Failure> {
    match left {
        LoopExit::Break => Ok(()),
        LoopExit::While(test) | LoopExit::Until(test) => see_expr(seen, body, test),
    }
}

#[cycle(see_stmt)]
fn see_stmt<'a>(
    seen: &mut CallSearch<'a>,
    body: Body<'a>,
    stmt: &'a TypedStmt,
) -> Result<(), Failure> {
    match stmt {
        TypedStmt::Assign(_, value) | TypedStmt::ExprStmt(value) => see_expr(seen, body, value),
        TypedStmt::If(tests, other) => {
            see_tests(seen, body, tests.as_slice())?;
            see_stmts(seen, body, other.as_slice())
        }
        TypedStmt::Loop(_, inside) => see_stmts(seen, body, inside.as_slice()),
        TypedStmt::ExitLoop(left) => see_exit(seen, body, left),
        TypedStmt::Return(value) | TypedStmt::Yield(value) => see_option_expr(seen, body, value),
        TypedStmt::TypeCase(_, arms, other, pos) => {
            see_pos(seen, body, *pos)?;
            see_arms(seen, body, arms.as_slice())?;
            match other {
                Some(other) => see_stmts(seen, body, other.as_slice()),
                None => Ok(()),
            }
        }
        TypedStmt::Protect(inside, arms, other) => {
            see_stmts(seen, body, inside.as_slice())?;
            see_arms(seen, body, arms.as_slice())?;
            match other {
                Some(other) => see_stmts(seen, body, other.as_slice()),
                None => Ok(()),
            }
        }
        TypedStmt::Raise(value, pos) => {
            see_pos(seen, body, *pos)?;
            see_raise(seen, body, value, *pos)?;
            see_expr(seen, body, value)
        }
        TypedStmt::Quit => Ok(()),
        TypedStmt::Fault(_, pos) => see_pos(seen, body, *pos),
    }
}

#[cycle(see_stmt)]
fn see_stmts<'a>(
    seen: &mut CallSearch<'a>,
    body: Body<'a>,
    stmts: &'a [TypedStmt],
) -> Result<(), Failure> {
    for stmt in stmts {
        see_stmt(seen, body, stmt)?;
    }
    Ok(())
}

#[cycle(see_stmt)]
fn see_tests<'a>(
    seen: &mut CallSearch<'a>,
    body: Body<'a>,
    tests: &'a [TypedBranch],
) -> Result<(), Failure> {
    for test in tests {
        see_test(seen, body, test)?;
    }
    Ok(())
}

#[cycle(see_stmt)]
fn see_test<'a>(
    seen: &mut CallSearch<'a>,
    body: Body<'a>,
    test: &'a TypedBranch,
) -> Result<(), Failure> {
    see_exprs(seen, body, test.tests.as_slice())?;
    see_stmts(seen, body, test.body.as_slice())
}

#[cycle(see_stmt)]
fn see_arms<'a>(
    seen: &mut CallSearch<'a>,
    body: Body<'a>,
    arms: &'a [TypedArm],
) -> Result<(), Failure> {
    for arm in arms {
        see_arm(seen, body, arm)?;
    }
    Ok(())
}

#[cycle(see_stmt)]
fn see_arm<'a>(
    seen: &mut CallSearch<'a>,
    body: Body<'a>,
    arm: &'a TypedArm,
) -> Result<(), Failure> {
    see_stmts(seen, body, arm.body.as_slice())
}
