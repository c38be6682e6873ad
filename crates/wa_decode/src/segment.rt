//! Initial values (section 5.4.6) and what they begin: globals (5.5.9), and segments of tables (5.5.12) and of memories
//! (5.5.14).

ghost use Rattle.std.specs.Prelude.{◌<◌, length, IfOk};
ghost use Rattle.wa_syntax.specs.Binary.{elem, global, segment};
ghost use Rattle.wa_syntax.specs.BinaryInstructions.{init};
ghost use Rattle.wa_decode.specs.Places.{EndsIn};
ghost use Rattle.wa_decode.specs.Reading.{Reads, init_value};

use crate::fault::DecodeFault;
use crate::production::{Decoded, Production, vector};
use crate::types::global_type;
use crate::value::{Index, byte, byte_vector, expect, signed_32, signed_64, unsigned};
use sqlite_items::Items;
use std::alloc::Global;
use wa_syntax::opcode::{END, GLOBAL_GET, I32_CONST, I64_CONST};
use wa_syntax::{DataSegment, ElemSegment, GlobalDef, Init};

/// An initial value or an offset: one instruction that gives a constant or reads a global, and an end (5.4.6).
fn initial_value(bytes: &[u8], at: u32) -> Decoded<Init>
    requires { length bytes.now < u32.MAX }
    ensures reads { Reads init bytes.now at result }
    ensures ends { IfOk result (λ read. EndsIn bytes.now at read.1) }
{
    let (init, at) = constant(bytes, at)?;
    let end = expect(bytes, at, END)?;
    Ok((init, end))
}

/// An instruction that gives a constant (5.4.5) or reads a global (5.4.3).
fn constant(bytes: &[u8], at: u32) -> Decoded<Init>
    requires { length bytes.now < u32.MAX }
    ensures reads { Reads init_value bytes.now at result }
    ensures ends { IfOk result (λ read. EndsIn bytes.now at read.1) }
{
    let (opcode, at) = byte(bytes, at)?;
    match opcode {
        I32_CONST => {
            let (bits, end) = signed_32(bytes, at)?;
            Ok((Init::Const32(bits), end))
        }
        I64_CONST => {
            let (bits, end) = signed_64(bytes, at)?;
            Ok((Init::Const64(bits), end))
        }
        GLOBAL_GET => {
            let (global, end) = unsigned(bytes, at)?;
            Ok((Init::Global(global), end))
        }
        _ => Err(DecodeFault::Malformed),
    }
}

/// A global (5.5.9).
pub struct OwnGlobal;

impl Production for OwnGlobal {
    type Value = GlobalDef;

    ghost format = { global };

    fn read(alloc: Global, bytes: &[u8], at: u32) -> Decoded<GlobalDef> {
        let (ty, at) = global_type(alloc, bytes, at)?;
        let (init, end) = initial_value(bytes, at)?;
        Ok((GlobalDef { ty, init }, end))
    }
}

/// A segment of a table (5.5.12).
pub struct OwnElemSegment;

impl Production for OwnElemSegment {
    type Value = ElemSegment;

    ghost format = { elem };

    fn read(alloc: Global, bytes: &[u8], at: u32) -> Decoded<ElemSegment> {
        let (table, at) = unsigned(bytes, at)?;
        let (offset, at) = initial_value(bytes, at)?;
        let (funcs, end) = vector::<Index>(alloc, bytes, at)?;
        let elem = ElemSegment {
            table,
            offset,
            funcs,
        };
        Ok((elem, end))
    }
}

/// A segment of a memory (5.5.14).
pub struct OwnDataSegment;

impl Production for OwnDataSegment {
    type Value = DataSegment;

    ghost format = { segment };

    fn read(alloc: Global, bytes: &[u8], at: u32) -> Decoded<DataSegment> {
        let (memory, at) = unsigned(bytes, at)?;
        let (offset, at) = initial_value(bytes, at)?;
        let (content, end) = byte_vector(bytes, at)?;
        let bytes = Items::from_slice(alloc, content)?;
        let segment = DataSegment {
            memory,
            offset,
            bytes,
        };
        Ok((segment, end))
    }
}
