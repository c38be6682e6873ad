//! The types of the module's functions: of the imports, of bodies, of `main`, and after them those of the runtime.

use failure::Failure;
use sa_runtime::layout::{BODY_TYPE, PARAMETERS};
use sqlite_items::Items;
use std::alloc::Global;
use wa_syntax::{FuncTy, ValTy};

/// The type of `put`.
pub(crate) const PUT_TYPE: u32 = 0;

/// The type of `get`.
pub(crate) const GET_TYPE: u32 = 1;

/// The type of `stop`.
pub(crate) const STOP_TYPE: u32 = 2;

/// The type of `main`. Those of the functions of bodies come before it.
pub(crate) const MAIN_TYPE: u32 = BODY_TYPE + PARAMETERS as u32 + 1;

/// The types up to that of `main`.
pub(crate) fn own_types(alloc: Global) -> Result<Items<FuncTy>, Failure> {
    let mut types = host_types(alloc)?;
    types.push(func_type(alloc, &[ValTy::I32, ValTy::I32], &[])?)?;
    for arguments in 0..=PARAMETERS {
        types.push(body_type(alloc, arguments)?)?;
    }
    types.push(func_type(alloc, &[], &[ValTy::I32])?)?;
    Ok(types)
}

/// The types of `put` and of `get`.
pub(crate) fn host_types(alloc: Global) -> Result<Items<FuncTy>, Failure> {
    let mut types = Items::new(alloc);
    types.push(func_type(alloc, &[ValTy::I32], &[])?)?;
    types.push(func_type(alloc, &[], &[ValTy::I32])?)?;
    Ok(types)
}

/// The type of the function of a body, of whose arguments so many are parameters: these, `self`, how much deeper activations may nest, and
/// its frame.
fn body_type(alloc: Global, arguments: usize) -> Result<FuncTy, Failure> {
    let mut params = Items::new(alloc);
    for _ in 0..=arguments {
        params.push(ValTy::I64)?;
    }
    params.push(ValTy::I32)?;
    params.push(ValTy::I32)?;
    Ok(FuncTy {
        params,
        results: Items::from_slice(alloc, &[ValTy::I32])?,
    })
}

fn func_type(alloc: Global, params: &[ValTy], results: &[ValTy]) -> Result<FuncTy, Failure> {
    Ok(FuncTy {
        params: Items::from_slice(alloc, params)?,
        results: Items::from_slice(alloc, results)?,
    })
}
