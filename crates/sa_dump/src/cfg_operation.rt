//! Operations on the variables of a body, each in a line.

use crate::cfg_call::Cfg;
use crate::writer::Writer;
use sa_cfg::{CfgOperation, Constant};
use std::alloc::AllocError;

/// An operation in a line.
pub(crate) fn put_operation(
    to: &mut Writer,
    cfg: Cfg<'_>,
    operation: &CfgOperation,
) -> Result<(), AllocError> {
    to.begin("")?;
    match operation {
        CfgOperation::Const { to: var, value } => {
            cfg.put_result(to, *var)?;
            put_constant(to, cfg, *value)?;
        }
        CfgOperation::Move { to: var, from } => put_unary(to, cfg, *var, "move", *from)?,
        CfgOperation::IsVoid { to: var, from } => put_unary(to, cfg, *var, "is_void", *from)?,
        CfgOperation::SelfRef { to: var } => {
            cfg.put_result(to, *var)?;
            to.put("self")?;
        }
        CfgOperation::Turn => to.put("turn")?,
        CfgOperation::TypeIs { to: var, from, ty } => put_typed(
            to, cfg, *var, "type_is ", *ty, *from,
        )?,
        CfgOperation::Unbox { to: var, from, ty } => put_typed(
            to, cfg, *var, "unbox ", *ty, *from,
        )?,
        CfgOperation::CheckNotVoid { from, fail } => {
            to.put("check_not_void")?;
            cfg.put_part(to, *from)?;
            cfg.put_fail(to, *fail)?;
        }
        CfgOperation::InitShared { shared, from } => {
            to.numbered("init_shared ", *shared)?;
            cfg.put_part(to, *from)?;
        }
        CfgOperation::HasInstance { to: var, site } => {
            cfg.put_result(to, *var)?;
            to.numbered("has_instance site", *site)?;
        }
        CfgOperation::HasFrame { to: var } => {
            cfg.put_result(to, *var)?;
            to.put("has_frame")?;
        }
        CfgOperation::Release { sites } => put_sites(to, sites.as_slice())?,
        CfgOperation::SetException {
            value,
            place,
            to: raised,
        } => {
            to.put("set_exception")?;
            cfg.put_part(to, *value)?;
            to.numbered(" position ", *place)?;
            cfg.put_unwind(to, *raised)?;
        }
        _ => put_making(to, cfg, operation)?,
    }
    to.end()
}

/// A constant.
fn put_constant(to: &mut Writer, cfg: Cfg<'_>, value: Constant) -> Result<(), AllocError> {
    match value {
        Constant::Void(ty) => cfg.put_with_type(to, "void ", ty),
        Constant::Int(value) => {
            to.put("int ")?;
            to.integer(value)
        }
        Constant::Bool(value) => {
            to.put("bool ")?;
            to.truth(value)
        }
        Constant::Char(byte) => to.char_literal(byte),
        Constant::Text(place) => match cfg.program.texts.as_slice().get(place as usize) {
            Some(text) => to.text_literal(text.as_slice()),
            None => to.numbered("text ", place),
        },
    }
}

/// An operation on one variable.
fn put_unary(
    to: &mut Writer,
    cfg: Cfg<'_>,
    var: u32,
    word: &str,
    from: u32,
) -> Result<(), AllocError> {
    cfg.put_result(to, var)?;
    to.put(word)?;
    cfg.put_part(to, from)
}

/// An operation on a type and a variable.
fn put_typed(
    to: &mut Writer,
    cfg: Cfg<'_>,
    var: u32,
    word: &str,
    ty: u32,
    from: u32,
) -> Result<(), AllocError> {
    cfg.put_result(to, var)?;
    cfg.put_with_type(to, word, ty)?;
    cfg.put_part(to, from)
}

/// The sites whose instances are ended, in this order.
fn put_sites(to: &mut Writer, sites: &[u32]) -> Result<(), AllocError> {
    to.put("release")?;
    for site in sites {
        to.numbered(" site", *site)?;
    }
    Ok(())
}

/// An operation that makes an object, or one that calls.
fn put_making(to: &mut Writer, cfg: Cfg<'_>, operation: &CfgOperation) -> Result<(), AllocError> {
    match operation {
        CfgOperation::New { to: var, ty, fail } => {
            cfg.put_result(to, *var)?;
            cfg.put_with_type(to, "new ", *ty)?;
            cfg.put_fail(to, *fail)
        }
        CfgOperation::NewArray {
            to: var,
            ty,
            count,
            fail,
        } => {
            put_typed(to, cfg, *var, "new_array ", *ty, *count)?;
            cfg.put_fail(to, *fail)
        }
        CfgOperation::SetElement {
            array,
            ty,
            at,
            value,
        } => {
            cfg.put_with_type(to, "set_element ", *ty)?;
            cfg.put_part(to, *array)?;
            to.put(" at")?;
            cfg.put_part(to, *at)?;
            cfg.put_part(to, *value)
        }
        CfgOperation::Box {
            to: var,
            from,
            ty,
            fail,
        } => {
            put_typed(to, cfg, *var, "box ", *ty, *from)?;
            cfg.put_fail(to, *fail)
        }
        CfgOperation::BoxFor {
            to: var,
            from,
            ty,
            recv,
            types,
            fail,
        } => {
            put_typed(to, cfg, *var, "box_for ", *ty, *from)?;
            to.put(" where")?;
            cfg.put_part(to, *recv)?;
            to.put(" is ")?;
            cfg.symbols.put_types(to, types.as_slice())?;
            cfg.put_fail(to, *fail)
        }
        _ => put_calling(to, cfg, operation),
    }
}

/// An operation that calls.
fn put_calling(to: &mut Writer, cfg: Cfg<'_>, operation: &CfgOperation) -> Result<(), AllocError> {
    match operation {
        CfgOperation::Call { plan } => {
            cfg.put_optional_result(to, plan.value)?;
            to.put("call")?;
            cfg.put_call(to, plan)?;
            cfg.put_fail(to, plan.fail)
        }
        CfgOperation::Bind { plan, entry } => {
            cfg.put_optional_result(to, plan.value)?;
            to.put("bind ")?;
            put_bound_type(to, cfg, *entry)?;
            to.put(" to")?;
            cfg.put_call(to, plan)?;
            cfg.put_fail(to, plan.fail)
        }
        CfgOperation::Start { site, plan, quit } => {
            cfg.put_optional_result(to, plan.value)?;
            to.numbered("start site", *site)?;
            cfg.put_call(to, plan)?;
            put_quit(to, cfg, *quit)?;
            cfg.put_fail(to, plan.fail)
        }
        CfgOperation::Resume { site, plan, quit } => {
            cfg.put_optional_result(to, plan.value)?;
            to.numbered("resume site", *site)?;
            cfg.put_call(to, plan)?;
            put_quit(to, cfg, *quit)?;
            cfg.put_fail(to, plan.fail)
        }
        CfgOperation::Enter {
            body,
            recv,
            args,
            value,
            quit,
        } => {
            cfg.put_optional_result(to, *value)?;
            to.put("enter ")?;
            cfg.put_body(to, *body)?;
            to.put(" on")?;
            cfg.put_part(to, *recv)?;
            cfg.put_args(to, args.as_slice())?;
            put_quit(to, cfg, *quit)
        }
        _ => Ok(()),
    }
}

/// The variable that says afterwards whether an instance has ended.
fn put_quit(to: &mut Writer, cfg: Cfg<'_>, quit: u32) -> Result<(), AllocError> {
    to.put(", quit")?;
    cfg.put_part(to, quit)
}

/// The type of the bound values of an entry.
fn put_bound_type(to: &mut Writer, cfg: Cfg<'_>, entry: u32) -> Result<(), AllocError> {
    match cfg.program.binds.as_slice().get(entry as usize) {
        Some(layout) => cfg.symbols.put_type(to, layout.ty),
        None => to.numbered("entry ", entry),
    }
}
