//! Classes as text: each name with the byte at which it is, features with the number of their arguments and the forms of their statements.

use sa_ast::{Class, Feature, FeatureBody, Local, Stmt};
use std::alloc::AllocError;
use std::fmt::Write;

fn local(out: &mut String, local: &Local) -> Result<(), AllocError> {
    out.push(' ')?;
    for byte in local.name.as_slice() {
        out.push(char::from(*byte))?;
    }
    Ok(())
}

fn place(out: &mut String, at: u32) -> Result<(), AllocError> {
    write!(out, "@{at}")
}

fn stmt(out: &mut String, stmt: &Stmt) -> Result<(), AllocError> {
    let (word, pos) = match stmt {
        Stmt::Declare(locals, _, _) => match locals.get(0) {
            Some(local) => (" declare", local.pos),
            None => return out.push_str(" nothing declared"),
        },
        Stmt::Assign(_, _, pos) => (" assign", *pos),
        Stmt::If(_, _, pos) => (" if", *pos),
        Stmt::Loop(_, pos) => (" loop", *pos),
        Stmt::Case(_, _, _, pos) => (" case", *pos),
        Stmt::TypeCase(_, _, _, pos) => (" typecase", *pos),
        Stmt::Protect(_, _, _, pos) => (" protect", *pos),
        Stmt::Return(_, pos) => (" return", *pos),
        Stmt::Yield(_, pos) => (" yield", *pos),
        Stmt::Quit(pos) => (" quit", *pos),
        Stmt::Raise(_, pos) => (" raise", *pos),
        Stmt::Assert(_, pos) => (" assert", *pos),
        Stmt::ExprStmt(_) => return out.push_str(" do"),
    };
    out.push_str(word)?;
    place(out, pos.at)
}

/// The name of the feature, the number of a constant, the number of arguments, the position, and the statements.
fn feature(out: &mut String, feature: &Feature) -> Result<(), AllocError> {
    local(out, &feature.name)?;
    if let FeatureBody::Const(_, number) = &feature.part {
        write!(out, "+{number}")?;
    }
    let formals = feature.formals.len();
    write!(out, "/{formals}")?;
    place(out, feature.name.pos.at)?;
    if let FeatureBody::Routine(body) = &feature.part {
        let stmts = body.get().as_slice();
        if !stmts.is_empty() {
            out.push(':')?;
        }
        for one in stmts {
            stmt(out, one)?;
        }
    }
    Ok(())
}

/// Writes a class.
pub fn class(out: &mut String, class: &Class) -> Result<(), AllocError> {
    local(out, &class.name)?;
    place(out, class.name.pos.at)?;
    for one in class.features.as_slice() {
        feature(out, one)?;
    }
    Ok(())
}
