//! Instructions that hold no others: what follows their opcodes.

use crate::error::{FormatError, FormatErrorKind};
use crate::reader::Reader;
use wa_syntax::opcode::*;

/// What follows an opcode that was read at a position.
pub(crate) fn read_simple(
    reader: &mut Reader<'_>,
    opcode: u8,
    at: usize,
) -> Result<(), FormatError> {
    match opcode {
        BR | BR_IF | CALL | LOCAL_GET..=GLOBAL_SET => {
            reader.number()?;
            Ok(())
        }
        BR_TABLE => {
            reader.numbers()?;
            reader.number()?;
            Ok(())
        }
        CALL_INDIRECT => {
            reader.number()?;
            reader.expect(0, FormatErrorKind::ReservedByte)
        }
        MEMORY_SIZE | MEMORY_GROW => reader.expect(0, FormatErrorKind::ReservedByte),
        I32_CONST => reader.signed_32(),
        I64_CONST => reader.signed_64(),
        _ if is_access(opcode) => {
            reader.number()?;
            reader.number()?;
            Ok(())
        }
        _ if is_bare(opcode) => Ok(()),
        _ if is_float(opcode) => Err(reader.error_at(at, FormatErrorKind::FloatingPoint)),
        _ => Err(reader.error_at(at, FormatErrorKind::Instruction)),
    }
}

/// Whether an opcode is that of a load or a store of integers.
fn is_access(opcode: u8) -> bool {
    matches!(
        opcode,
        I32_LOAD | I64_LOAD | I32_LOAD8_S..=I64_STORE | I32_STORE8..=I64_STORE32
    )
}

/// Whether nothing follows an opcode.
fn is_bare(opcode: u8) -> bool {
    matches!(
        opcode,
        UNREACHABLE
            | NOP
            | RETURN
            | DROP
            | SELECT
            | I32_EQZ..=I64_GE_U
            | I32_CLZ..=I64_ROTR
            | I32_WRAP_I64
            | I64_EXTEND_I32_S
            | I64_EXTEND_I32_U
    )
}

/// Whether an opcode of the standard is none of the integer part: loads, stores, constants, comparisons, arithmetic and conversions of
/// floats.
fn is_float(opcode: u8) -> bool {
    matches!(
        opcode,
        0x2a | 0x2b | 0x38 | 0x39 | 0x43 | 0x44 | 0x5b..=0x66 | 0x8b..=0xa6 | 0xa8..=0xab | 0xae..=0xbf
    )
}
