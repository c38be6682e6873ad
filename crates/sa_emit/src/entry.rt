//! The exported function `main`: it runs the last body of the program, and stops the machine where a raise leaves it.

use crate::types::MAIN_TYPE;
use failure::Failure;
use sa_runtime::layout::{EXCEPTION_KIND, EXCEPTION_PLACE, GREATEST_DEPTH, RESULT, STOP};
use sqlite_items::Items;
use std::alloc::Global;
use wa_syntax::{Func, Instr, Locals, opcode};

/// The function that runs the body whose function has this number. It returns the low half of the body's result.
pub(crate) fn main_function(alloc: Global, body: u32) -> Result<Func, Failure> {
    let mut code = Items::new(alloc);
    code.push(Instr::I64Const(0))?;
    code.push(Instr::I32Const(GREATEST_DEPTH))?;
    code.push(Instr::I32Const(0))?;
    code.push(Instr::Call(body))?;
    code.push(Instr::if_of(alloc, None, stopping(alloc)?, Items::new(alloc))?)?;
    code.push(Instr::GlobalGet(RESULT))?;
    code.push(Instr::Plain(opcode::I32_WRAP_I64))?;
    Ok(Func {
        ty: MAIN_TYPE,
        locals: Locals::new(alloc),
        body: code,
    })
}

/// Stops the machine with the kind and the position of the raise.
fn stopping(alloc: Global) -> Result<Items<Instr>, Failure> {
    let mut code = Items::new(alloc);
    code.push(Instr::GlobalGet(EXCEPTION_KIND))?;
    code.push(Instr::GlobalGet(EXCEPTION_PLACE))?;
    code.push(Instr::Call(STOP))?;
    Ok(code)
}
