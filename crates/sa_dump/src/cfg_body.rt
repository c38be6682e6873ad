//! The control-flow graphs of bodies: blocks, each with an operation in a line and its terminator last.

use crate::cfg_call::Cfg;
use crate::cfg_operation::put_operation;
use crate::cfg_terminator::put_terminator;
use crate::symbols::Symbols;
use crate::writer::Writer;
use sa_cfg::{BasicBlock, BodyParam, CfgBody, CfgProgram};
use sa_typed::{TypedFeature, TypedSignature};
use std::alloc::{AllocError, Global};

/// The control-flow graphs of a program's bodies.
///
/// # Errors
///
/// `AllocError` where memory runs out.
pub fn dump_cfg(
    alloc: Global,
    symbols: Symbols<'_>,
    program: &CfgProgram,
) -> Result<String, AllocError> {
    let mut to = Writer::new(alloc);
    let cfg = Cfg { symbols, program };
    put_signatures(&mut to, cfg, symbols.core.sigs.as_slice())?;
    for (place, body) in program.bodies.as_slice().iter().enumerate() {
        if prints_body(symbols, body) {
            put_body(&mut to, cfg, place, body)?;
        }
    }
    let Writer { text, .. } = to;
    Ok(text)
}

/// The implementation tables of signatures: for each class the body that a call runs. The bodies of all tables are one list.
fn put_signatures(
    to: &mut Writer,
    cfg: Cfg<'_>,
    signatures: &[TypedSignature],
) -> Result<(), AllocError> {
    let mut first = 0;
    for (place, signature) in signatures.iter().enumerate() {
        if cfg.symbols.prints_type(signature.ty as usize) {
            to.begin("signature ")?;
            cfg.symbols.put_signature(to, place)?;
            to.end()?;
            put_implementations(to, cfg, signature, first)?;
        }
        first = signature.impls.len().saturating_add(first);
    }
    Ok(())
}

/// The table of a signature, whose bodies begin at this place of the list.
fn put_implementations(
    to: &mut Writer,
    cfg: Cfg<'_>,
    signature: &TypedSignature,
    first: usize,
) -> Result<(), AllocError> {
    let bodies = cfg.program.targets.as_slice();
    to.deeper();
    for (place, implementation) in signature.impls.as_slice().iter().enumerate() {
        to.begin("")?;
        cfg.symbols.put_type(to, implementation.ty)?;
        to.put(": ")?;
        if let Some(body) = bodies.get(first.saturating_add(place)) {
            cfg.put_body(to, *body)?;
        }
        to.end()?;
    }
    to.shallower();
    Ok(())
}

/// Whether a body is printed: that of a feature which a file of the program writes.
pub(crate) fn prints_body(symbols: Symbols<'_>, body: &CfgBody) -> bool {
    match feature_of(symbols, body) {
        Some(feature) => symbols.prints_at(feature.pos),
        None => symbols.all,
    }
}

/// The feature that a body is of, where it is of one.
fn feature_of<'a>(symbols: Symbols<'a>, body: &CfgBody) -> Option<&'a TypedFeature> {
    symbols.feature(body.feature?)
}

/// A body with its blocks one level deeper.
fn put_body(to: &mut Writer, cfg: Cfg<'_>, place: usize, body: &CfgBody) -> Result<(), AllocError> {
    put_head(to, cfg, place, body)?;
    to.deeper();
    if let Some(feature) = feature_of(cfg.symbols, body) {
        cfg.symbols.put_variables(to, feature)?;
    }
    put_saved(to, cfg, body)?;
    for (number, block) in body.blocks.as_slice().iter().enumerate() {
        put_block(to, cfg, number, block)?;
    }
    to.shallower();
    Ok(())
}

/// The line of a body: its number and its feature, or what else it is made for.
pub(crate) fn put_head(
    to: &mut Writer,
    cfg: Cfg<'_>,
    place: usize,
    body: &CfgBody,
) -> Result<(), AllocError> {
    to.begin("body ")?;
    to.place(place)?;
    to.put(": ")?;
    match feature_of(cfg.symbols, body) {
        Some(feature) => cfg.symbols.put_header(to, feature)?,
        None => {
            let is_last = place.saturating_add(1) >= cfg.program.bodies.len();
            to.put(if is_last { "entry" } else { "adapter" })?;
            put_formals(to, cfg, body.formals.as_slice())?;
        }
    }
    to.end()
}

/// The arguments of a body.
fn put_formals(to: &mut Writer, cfg: Cfg<'_>, formals: &[BodyParam]) -> Result<(), AllocError> {
    let mut first = true;
    for (place, formal) in formals.iter().enumerate() {
        to.put(if first { "(" } else { ", " })?;
        to.mode(formal.mode)?;
        cfg.symbols.put_variable(to, place, formal.ty)?;
        first = false;
    }
    to.put(if formals.is_empty() { "" } else { ")" })
}

/// A line of the variables that are saved while a body is suspended, where there are some.
fn put_saved(to: &mut Writer, cfg: Cfg<'_>, body: &CfgBody) -> Result<(), AllocError> {
    if body.saved.is_empty() {
        return Ok(());
    }
    to.begin("saved")?;
    for var in body.saved.as_slice() {
        cfg.put_part(to, *var)?;
    }
    to.end()
}

/// A block, with its operations and its terminator one level deeper.
fn put_block(
    to: &mut Writer,
    cfg: Cfg<'_>,
    number: usize,
    block: &BasicBlock,
) -> Result<(), AllocError> {
    to.begin("b")?;
    to.place(number)?;
    to.put(":")?;
    to.end()?;
    to.deeper();
    for operation in block.steps.as_slice() {
        put_operation(to, cfg, operation)?;
    }
    to.begin("")?;
    put_terminator(to, cfg, &block.exit)?;
    to.end()?;
    to.shallower();
    Ok(())
}
