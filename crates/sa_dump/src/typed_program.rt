//! A typed program: its types, shareds, signatures and features.

use crate::symbols::Symbols;
use crate::typed_expr::{Scope, put_expr};
use crate::typed_stmt::put_stmts;
use crate::writer::{Nesting, Writer};
use sa_typed::{Site, TypeDef, TypedFeature, TypedImplementation, TypedShared, TypedSignature};
use std::alloc::{AllocError, Global};

/// The typed AST of a program, a declaration or a statement in each line.
///
/// # Errors
///
/// `AllocError` where memory runs out.
pub fn dump_typed(alloc: Global, symbols: Symbols<'_>) -> Result<String, AllocError> {
    let mut to = Writer::new(alloc);
    put_types(&mut to, symbols, symbols.core.types.as_slice())?;
    put_shareds(&mut to, symbols, symbols.core.shareds.as_slice())?;
    put_signatures(&mut to, symbols, symbols.core.sigs.as_slice())?;
    for feature in symbols.core.features.as_slice() {
        if symbols.prints_at(feature.pos) {
            put_feature(&mut to, symbols, feature)?;
        }
    }
    let Writer { text, .. } = to;
    Ok(text)
}

fn put_types(to: &mut Writer, symbols: Symbols<'_>, types: &[TypeDef]) -> Result<(), AllocError> {
    for (place, info) in types.iter().enumerate() {
        if symbols.prints_type(place) {
            put_type(to, symbols, info)?;
        }
    }
    Ok(())
}

/// A type, with the types of its attributes and elements and its supertypes one level deeper.
fn put_type(to: &mut Writer, symbols: Symbols<'_>, info: &TypeDef) -> Result<(), AllocError> {
    to.begin("")?;
    to.kind(info.kind)?;
    to.ty(&info.ty)?;
    to.end()?;
    to.deeper();
    put_listed(to, symbols, "attributes ", info.attrs.as_slice())?;
    if let Some(ty) = info.elem {
        put_listed(to, symbols, "elements ", &[ty])?;
    }
    put_listed(to, symbols, "supertypes ", info.above.as_slice())?;
    to.shallower();
    Ok(())
}

/// A line of a word and types, where there are some.
fn put_listed(
    to: &mut Writer,
    symbols: Symbols<'_>,
    word: &str,
    types: &[u32],
) -> Result<(), AllocError> {
    if types.is_empty() {
        return Ok(());
    }
    to.begin(word)?;
    symbols.put_types(to, types)?;
    to.end()
}

fn put_shareds(
    to: &mut Writer,
    symbols: Symbols<'_>,
    shareds: &[TypedShared],
) -> Result<(), AllocError> {
    for (place, shared) in shareds.iter().enumerate() {
        if symbols.prints_type(shared.class as usize) {
            put_shared(to, symbols, place, shared)?;
        }
    }
    Ok(())
}

/// A shared by its number, with its class, its type, and its initial value where it has one.
fn put_shared(
    to: &mut Writer,
    symbols: Symbols<'_>,
    place: usize,
    shared: &TypedShared,
) -> Result<(), AllocError> {
    to.begin("shared ")?;
    to.place(place)?;
    to.put(" of ")?;
    symbols.put_type(to, shared.class)?;
    symbols.put_of_type(to, Some(shared.ty))?;
    if let Some(value) = &shared.start {
        let scope = Scope {
            symbols,
            sites: &[],
        };
        to.put(" := ")?;
        put_expr(to, scope, value, Nesting::Whole)?;
    }
    to.end()
}

fn put_signatures(
    to: &mut Writer,
    symbols: Symbols<'_>,
    signatures: &[TypedSignature],
) -> Result<(), AllocError> {
    for (place, signature) in signatures.iter().enumerate() {
        if symbols.prints_type(signature.ty as usize) {
            to.begin("signature ")?;
            symbols.put_signature(to, place)?;
            to.of_type(&signature.sig.result)?;
            to.end()?;
            put_implementations(to, symbols, signature.impls.as_slice())?;
        }
    }
    Ok(())
}

/// The implementation table of a signature: for each class below its type what a call does.
fn put_implementations(
    to: &mut Writer,
    symbols: Symbols<'_>,
    implementations: &[TypedImplementation],
) -> Result<(), AllocError> {
    to.deeper();
    for implementation in implementations {
        to.begin("")?;
        symbols.put_type(to, implementation.ty)?;
        to.put(": ")?;
        symbols.put_target(to, implementation.target, Some(implementation.ty))?;
        to.end()?;
    }
    to.shallower();
    Ok(())
}

/// A feature, with its variables, its sites and its statements one level deeper.
fn put_feature(
    to: &mut Writer,
    symbols: Symbols<'_>,
    feature: &TypedFeature,
) -> Result<(), AllocError> {
    to.begin("")?;
    symbols.put_header(to, feature)?;
    to.end()?;
    to.deeper();
    symbols.put_variables(to, feature)?;
    put_sites(to, symbols, feature.sites.as_slice())?;
    to.shallower();
    let scope = Scope {
        symbols,
        sites: feature.sites.as_slice(),
    };
    put_stmts(to, scope, feature.body.as_slice())
}

/// The sites of a feature, each with what it calls and the loop that its instance belongs to.
fn put_sites(to: &mut Writer, symbols: Symbols<'_>, sites: &[Site]) -> Result<(), AllocError> {
    for (place, site) in sites.iter().enumerate() {
        to.begin("site")?;
        to.place(place)?;
        to.put(": ")?;
        symbols.put_callee(to, site.called)?;
        to.numbered(" in loop ", site.owner)?;
        to.end()?;
    }
    Ok(())
}
