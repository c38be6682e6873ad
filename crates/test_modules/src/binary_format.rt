//! Reads modules and writes them again. Each line of `binary.txt` is a module as hexadecimal digits; what is printed is
//! compared with the shortest spelling of each.

use crate::LONGEST;
use anyhow::{Context, Result};
use std::alloc::Global;
use std::fs;
use wa_decode::decode;
use wa_encode::encode;

/// Prints each module of the file as it is written again.
pub fn print(rt: &HostRuntime) -> Result<()> {
    let alloc = rt.alloc();
    let modules = fs::read_to_string(rt, "binary.txt").context("reading the modules")?;
    for line in modules.lines() {
        let again = recoded(alloc, line)?;
        println!(rt; "{again}")?;
    }
    Ok(())
}

/// The module of these digits, written again.
fn recoded(alloc: Global, digits: &str) -> Result<String> {
    let bytes = hex::decode(alloc, digits)?;
    if bytes.len() >= LONGEST {
        return None.context("a module is too long");
    }
    let module = decode(alloc, bytes.as_slice())?;
    let again = encode(alloc, &module)?;
    Ok(hex::encode(alloc, again.as_slice())?)
}
