//! Classes of a source, with their parameters, supertypes, include clauses and features.

use crate::ast_expr::put_expr;
use crate::ast_stmt::{put_initial, put_stmts};
use crate::writer::{Nesting, Writer};
use sa_ast::{
    Access, Class, Expr, Feature, FeatureBody, FeatureModifier, FormalParam, Include, Ty, TypeParam,
};
use std::alloc::{AllocError, Global};

/// The AST of these classes, a declaration or a statement in each line: of those that the files of a program write, and with `all`
/// of the prelude's too.
///
/// # Errors
///
/// `AllocError` where memory runs out.
pub fn dump_ast(alloc: Global, classes: &[Class], all: bool) -> Result<String, AllocError> {
    let mut to = Writer::new(alloc);
    for class in classes {
        if all || class.name.pos.file != 0 {
            put_class(&mut to, class)?;
        }
    }
    let Writer { text, .. } = to;
    Ok(text)
}

/// A class.
fn put_class(to: &mut Writer, class: &Class) -> Result<(), AllocError> {
    to.begin("")?;
    to.kind(class.kind)?;
    to.bytes(class.name.name.as_slice())?;
    put_params(to, class.params.as_slice())?;
    put_types(to, " < ", class.below.as_slice())?;
    put_types(to, " > ", class.above.as_slice())?;
    to.end()?;
    to.deeper();
    for include in class.includes.as_slice() {
        put_include(to, include)?;
    }
    for feature in class.features.as_slice() {
        put_feature(to, feature)?;
    }
    to.shallower();
    Ok(())
}

/// The parameters of a class, with their bounds.
fn put_params(to: &mut Writer, params: &[TypeParam]) -> Result<(), AllocError> {
    let mut first = true;
    for param in params {
        to.put(if first { "{" } else { "," })?;
        to.bytes(param.name.name.as_slice())?;
        put_bound(to, &param.bound)?;
        first = false;
    }
    to.put(if params.is_empty() { "" } else { "}" })
}

fn put_bound(to: &mut Writer, bound: &Option<Ty>) -> Result<(), AllocError> {
    match bound {
        Some(ty) => {
            to.put(" < ")?;
            to.ty(ty)
        }
        None => Ok(()),
    }
}

/// Types after a sign, where there are some.
fn put_types(to: &mut Writer, sign: &str, types: &[Ty]) -> Result<(), AllocError> {
    let mut first = true;
    for ty in types {
        to.put(if first { sign } else { ", " })?;
        to.ty(ty)?;
        first = false;
    }
    Ok(())
}

/// An include clause, with its changes one level deeper.
fn put_include(to: &mut Writer, include: &Include) -> Result<(), AllocError> {
    to.begin(if include.private {
        "private include "
    } else {
        "include "
    })?;
    to.ty(&include.ty)?;
    to.end()?;
    to.deeper();
    for change in include.changes.as_slice() {
        put_change(to, change)?;
    }
    to.shallower();
    Ok(())
}

/// A change of an include clause: a new name, or none for what is left out.
fn put_change(to: &mut Writer, change: &FeatureModifier) -> Result<(), AllocError> {
    to.begin("")?;
    put_access(to, change.access)?;
    match &change.to {
        Some(name) => {
            to.put("rename ")?;
            to.bytes(change.from.name.as_slice())?;
            to.put(" to ")?;
            to.bytes(name.as_slice())?;
        }
        None => {
            to.put("leave_out ")?;
            to.bytes(change.from.name.as_slice())?;
        }
    }
    to.end()
}

/// Who sees a feature, where these aren't all.
fn put_access(to: &mut Writer, access: Access) -> Result<(), AllocError> {
    to.put(match access {
        Access::Public => "",
        Access::Private => "private ",
        Access::ReadOnly => "readonly ",
    })
}

/// A feature, with the statements of its body one level deeper.
fn put_feature(to: &mut Writer, feature: &Feature) -> Result<(), AllocError> {
    to.begin("")?;
    put_access(to, feature.access)?;
    to.put(word_of(feature))?;
    to.bytes(feature.name.name.as_slice())?;
    put_formals(to, feature.formals.as_slice())?;
    to.of_type(&feature.result)?;
    match &feature.part {
        FeatureBody::Shared(value) => put_initial(to, value)?,
        FeatureBody::Const(value, more) => put_constant(to, value, *more)?,
        _ => {}
    }
    to.end()?;
    match &feature.part {
        FeatureBody::Routine(body) => {
            to.deeper();
            put_stmts(to, body.get().as_slice())?;
            to.shallower();
        }
        _ => {}
    }
    Ok(())
}

/// What a feature is.
fn word_of(feature: &Feature) -> &'static str {
    match &feature.part {
        FeatureBody::Routine(_) => match feature.name.name.as_slice().last() {
            Some(b'!') => "iter ",
            _ => "routine ",
        },
        FeatureBody::Signature => "signature ",
        FeatureBody::Stub => "stub ",
        FeatureBody::Builtin(_, _) => "builtin ",
        FeatureBody::Attr => "attr ",
        FeatureBody::Shared(_) => "shared ",
        FeatureBody::Const(_, _) => "const ",
    }
}

/// The arguments of a feature.
fn put_formals(to: &mut Writer, formals: &[FormalParam]) -> Result<(), AllocError> {
    let mut first = true;
    for formal in formals {
        to.put(if first { "(" } else { ", " })?;
        to.mode(formal.mode)?;
        to.bytes(formal.local.name.as_slice())?;
        to.put(": ")?;
        to.ty(&formal.ty)?;
        first = false;
    }
    to.put(if formals.is_empty() { "" } else { ")" })
}

/// The value of a constant: an expression, or 0, plus a number.
fn put_constant(to: &mut Writer, value: &Option<Expr>, more: u32) -> Result<(), AllocError> {
    to.put(" := ")?;
    match value {
        Some(value) if more == 0 => put_expr(to, value, Nesting::Whole),
        Some(value) => {
            to.put("op +")?;
            put_expr(to, value, Nesting::Part)?;
            to.put(" (int ")?;
            to.number(more)?;
            to.put(")")
        }
        None => to.numbered("int ", more),
    }
}
