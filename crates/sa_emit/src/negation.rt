//! The negation of a truth value of 32 bits that is the operand.

use failure::{Failure, Invariant, broken};
use sqlite_items::Items;
use wa_syntax::Instr;
use wa_syntax::opcode::{
    I32_EQ, I32_EQZ, I32_NE, I64_EQ, I64_GE_S, I64_GE_U, I64_GT_S, I64_LE_S, I64_LT_S, I64_LT_U,
    I64_NE,
};

/// Emits the negation. Where the last instruction is a comparison, the opposite one replaces it.
pub(crate) fn emit_negation(code: &mut Items<Instr>) -> Result<(), Failure> {
    let Some(last) = code.pop() else {
        return broken(Invariant::CfgNumber);
    };
    if let Some(opposite) = opposite_of(&last) {
        return Ok(code.push(Instr::Plain(opposite))?);
    }
    code.push(last)?;
    Ok(code.push(Instr::Plain(I32_EQZ))?)
}

/// The comparison that holds exactly where this one doesn't, if it is one.
fn opposite_of(instr: &Instr) -> Option<u8> {
    let Instr::Plain(opcode) = instr else {
        return None;
    };
    match *opcode {
        I64_LT_S => Some(I64_GE_S),
        I64_GT_S => Some(I64_LE_S),
        I64_EQ => Some(I64_NE),
        I64_NE => Some(I64_EQ),
        I64_GE_U => Some(I64_LT_U),
        I32_EQ => Some(I32_NE),
        I32_NE => Some(I32_EQ),
        _ => None,
    }
}
