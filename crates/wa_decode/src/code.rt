//! The code of functions (section 5.5.13).

ghost use Rattle.std.specs.Prelude.{◌<◌, length, IfOk};
ghost use Rattle.wa_syntax.specs.Binary.{locals, run};
ghost use Rattle.wa_decode.specs.Codes.{code_of, codes_of, runs_of};
ghost use Rattle.wa_decode.specs.Places.{EndsIn};
ghost use Rattle.wa_decode.specs.Reading.{Reads};

use crate::expression::expression;
use crate::fault::DecodeFault;
use crate::production::{Decoded, Production};
use crate::types::ValueType;
use crate::value::{ends, sized, unsigned};
use sqlite_items::Items;
use std::alloc::Global;
use wa_syntax::{Func, LocalRun, Locals};

/// The most locals that a function may declare.
const MAX_LOCALS: u64 = 1_000_000;

/// A run: consecutive locals of one type (5.5.13).
fn run(alloc: Global, bytes: &[u8], at: u32) -> Decoded<LocalRun>
    requires { length bytes.now < u32.MAX }
    ensures reads { Reads run bytes.now at result }
    ensures ends { IfOk result (λ read. EndsIn bytes.now at read.1) }
{
    let (count, at) = unsigned(bytes, at)?;
    let (ty, end) = ValueType::read(alloc, bytes, at)?;
    Ok((LocalRun { count, ty }, end))
}

/// The locals of a function, without the parameters: a vector of runs (5.5.13).
fn runs(alloc: Global, bytes: &[u8], at: u32) -> Decoded<Locals>
    requires { length bytes.now < u32.MAX }
    ensures reads { Reads runs_of bytes.now at result }
    ensures ends { IfOk result (λ read. EndsIn bytes.now at read.1) }
{
    let (count, mut at) = unsigned(bytes, at)?;
    let mut locals = Locals::new(alloc);
    for _read in 0..count {
        let (run, next) = run(alloc, bytes, at)?;
        locals.push(run.count, run.ty)?;
        at = next;
    }
    Ok((locals, at))
}

/// The locals of a function, of which there are at most `MAX_LOCALS`.
fn locals(alloc: Global, bytes: &[u8], at: u32) -> Decoded<Locals>
    requires { length bytes.now < u32.MAX }
    ensures reads { Reads locals bytes.now at result }
    ensures ends { IfOk result (λ read. EndsIn bytes.now at read.1) }
{
    let (locals, end) = runs(alloc, bytes, at)?;
    if locals.len() <= MAX_LOCALS {
        Ok((locals, end))
    } else {
        Err(DecodeFault::Malformed)
    }
}

/// A function whose type has the index `ty`: the size of its code, its locals and its body (5.5.13).
fn code(alloc: Global, bytes: &[u8], at: u32, ty: u32) -> Decoded<Func>
    requires { length bytes.now < u32.MAX }
    ensures reads { Reads (code_of ty) bytes.now at result }
    ensures ends { IfOk result (λ read. EndsIn bytes.now at read.1) }
{
    let (content, at) = sized(bytes, at)?;
    let (locals, at) = locals(alloc, content, at)?;
    let (body, end) = expression(alloc, content, at)?;
    ends(content, end)?;
    Ok((Func { ty, locals, body }, end))
}

/// The functions whose types have these indices: a vector of as many codes (5.5.13).
pub fn codes(alloc: Global, bytes: &[u8], at: u32, types: &[u32]) -> Decoded<Items<Func>>
    requires { length bytes.now < u32.MAX }
    ensures reads { Reads (codes_of types.now) bytes.now at result }
    ensures ends { IfOk result (λ read. EndsIn bytes.now at read.1) }
{
    let (count, mut at) = unsigned(bytes, at)?;
    if count as usize != types.len() {
        return Err(DecodeFault::Malformed);
    }
    let mut funcs = Items::new(alloc);
    for ty in types {
        let (func, next) = code(alloc, bytes, at, *ty)?;
        funcs.push(func)?;
        at = next;
    }
    Ok((funcs, at))
}
