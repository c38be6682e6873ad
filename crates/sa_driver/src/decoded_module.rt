//! The module that some bytes spell, for sentences that name parts of it.

use failure::Failure;
use std::alloc::Global;
use wa_decode::{DecodeFault, decode};
use wa_syntax::Module;

/// The module that bytes spell, or `None` where they spell none.
pub fn decoded_module(alloc: Global, bytes: &[u8]) -> Result<Option<Module>, Failure> {
    if bytes.len() >= u32::MAX as usize {
        return Ok(None);
    }
    match decode(alloc, bytes) {
        Ok(module) => Ok(Some(module)),
        Err(DecodeFault::Malformed) => Ok(None),
        Err(DecodeFault::NoMemory) => Err(Failure::NoMemory),
    }
}
