//! The types of functions by their content: types with the same parameters and the same results are one type.

ghost use Rattle.std.specs.Prelude.{◌≡◌, ◌++◌, IfOk, OnOk, Some, map, unwrap_or};
ghost use Rattle.indexmap.specs.IndexMap.{get};
ghost use Rattle.wa_flatten.specs.Contents.{content, first_like, letter, Numbers, same_content};

use crate::number::number;
use indexmap::IndexMap;
use std::alloc::{AllocError, AllocFailed, Global};
use wa_syntax::{FuncTy, NoMemory, ValTy};

/// The end of the parameters, which no type of values has as its byte.
const END: u8 = 2;

/// The byte that denotes a type of values.
fn letter_of(ty: ValTy) -> u8
    ensures { result ≡ letter ty }
{
    match ty {
        ValTy::I32 => 0,
        ValTy::I64 => 1,
    }
}

/// Adds the bytes of types of values.
fn add_types(bytes: &mut Vec<u8>, types: &[ValTy]) -> Result<(), AllocError>
    ensures { OnOk result (bytes.new.items ≡ bytes.old.items ++ map letter types.now) }
{
    for ty in types {
        bytes.push(letter_of(*ty))?;
    }
    Ok(())
}

/// The content of a type as bytes: its parameters, an end, and its results.
fn content_of(alloc: Global, ty: &FuncTy) -> Result<Vec<u8>, AllocError>
    ensures { IfOk result (λ bytes. bytes.items ≡ content ty.now) }
{
    let mut bytes = Vec::new(alloc);
    add_types(&mut bytes, ty.params.as_slice())?;
    bytes.push(END)?;
    add_types(&mut bytes, ty.results.as_slice())?;
    Ok(bytes)
}

/// The index under which a content is known, which is this one where it is new.
fn first_same(
    known: &mut IndexMap<Vec<u8>, u32>,
    bytes: Vec<u8>,
    number: u32,
) -> Result<u32, AllocFailed<(Vec<u8>, u32)>>
    ensures first { IfOk result (λ first. first ≡ unwrap_or (get same_content known.old bytes) number) }
    ensures known { IfOk result (λ first. Numbers known.old bytes first known.new) }
{
    if let Some(first) = known.get(&bytes) {
        return Ok(*first);
    }
    known.insert(bytes, number)?;
    Ok(number)
}

/// For each type the first index of one with the same content.
pub(crate) fn first_types(alloc: Global, types: &[FuncTy]) -> Result<Vec<u32>, NoMemory>
    ensures { IfOk result (λ first. map Some first.items ≡ map (first_like types.now) types.now) }
{
    let mut known = IndexMap::new(alloc);
    let mut first = Vec::new(alloc);
    for ty in types {
        let at = number(first.len())?;
        first.push(first_same(&mut known, content_of(alloc, ty)?, at)?)?;
    }
    Ok(first)
}
