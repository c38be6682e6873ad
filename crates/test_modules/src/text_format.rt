//! Lists modules, and reads texts as listings. Each line of `listed.txt` is a module as hexadecimal digits: what is printed
//! is its listing, and whether the module that is read of this one is the same. Each line of `texts.txt` is a text, with `/`
//! for a line feed: what is printed is the first line with which it is no listing.

use crate::LONGEST;
use anyhow::{Context, Result};
use std::alloc::Global;
use std::fs;
use wa_decode::decode;
use wa_encode::encode;
use wa_syntax::Module;
use wa_text::{read, write};

/// Prints the listing of each module of the file, and why each text is none.
pub fn print(rt: &HostRuntime) -> Result<()> {
    let alloc = rt.alloc();
    let modules = fs::read_to_string(rt, "listed.txt").context("reading the modules")?;
    for line in modules.lines() {
        let module = module_of(alloc, line)?;
        let listing = listed(alloc, &module)?;
        println!(rt; "{listing}{}", read_again(alloc, &module, &listing)?)?;
    }
    let texts = fs::read_to_string(rt, "texts.txt").context("reading the texts")?;
    for line in texts.lines() {
        println!(rt; "{line}: {}", refused(alloc, line)?)?;
    }
    Ok(())
}

/// The module of these digits.
fn module_of(alloc: Global, digits: &str) -> Result<Module> {
    let bytes = hex::decode(alloc, digits)?;
    if bytes.len() >= LONGEST {
        return None.context("a module is too long");
    }
    Ok(decode(alloc, bytes.as_slice())?)
}

/// The listing of a module.
fn listed(alloc: Global, module: &Module) -> Result<String> {
    let listing = write(alloc, module)?;
    let text = str::from_utf8(listing.as_slice()).context("a listing is no text")?;
    Ok(String::from_str(alloc, text)?)
}

/// Whether the module that is read of the listing is the same.
fn read_again(alloc: Global, module: &Module, listing: &str) -> Result<&'static str> {
    if listing.len() >= LONGEST {
        return None.context("a listing is too long");
    }
    let again = read(alloc, listing.as_bytes())?;
    let bytes = encode(alloc, module)?;
    if encode(alloc, &again)?.as_slice() == bytes.as_slice() {
        Ok("read again: the same module")
    } else {
        Ok("read again: another module")
    }
}

/// Why a text is no listing.
fn refused(alloc: Global, line: &str) -> Result<String> {
    let mut text = Vec::new(alloc);
    for byte in line.bytes() {
        text.push(if byte == b'/' { b'\n' } else { byte })?;
    }
    if text.len() >= LONGEST {
        return None.context("a text is too long");
    }
    match read(alloc, text.as_slice()) {
        Ok(_module) => Ok(String::from_str(alloc, "a listing")?),
        Err(fault) => Ok(format!(in alloc; "{fault}")?),
    }
}
