//! Modules (section 5.5.15).

ghost use Rattle.std.specs.Prelude.{◌≡◌, ◌<◌, ◌≤◌, length, IfOk, MatchResult};
ghost use Rattle.wa_syntax.specs.declared.module.Module.{Module};
ghost use Rattle.wa_syntax.specs.Binary.{SpellsModule};
ghost use Rattle.wa_decode.specs.Places.{ReachesIn};
ghost use Rattle.wa_decode.specs.Sections.{IsSections, ReadsTo};
ghost use Rattle.wa_decode.specs.declared.fault.DecodeFault.TheVariants.{NoMemory};

use crate::external::{ExportEntry, ImportEntry};
use crate::fault::DecodeFault;
use crate::production::Decoded;
use crate::section::{code_section, customs, start_section, vector_section};
use crate::segment::{OwnDataSegment, OwnElemSegment, OwnGlobal};
use crate::types::{FunctionType, MemoryType, TableType};
use crate::value::{Index, ends};
use std::alloc::Global;
use wa_syntax::Module;

/// What a module begins with: `\0asm`, and the version of the format.
const PREAMBLE: [u8; 8] = [0x00, 0x61, 0x73, 0x6d, 0x01, 0x00, 0x00, 0x00];

/// The module that bytes spell (5.5.15), in its integer part and with up to 1,000 blocks open at a point and up to
/// 1,000,000 locals in a function.
///
/// `Malformed` comes where no module is spelled so. `NoMemory` comes where memory runs out.
pub fn decode(alloc: Global, bytes: &[u8]) -> Result<Module, DecodeFault>
    requires { length bytes.now < 4294967295 }
    // The bytes spell what is read.
    ensures found { IfOk result (SpellsModule bytes.now) }
    // What they spell is read, unless memory runs out: so `Malformed` comes only where they spell no module.
    ensures complete { (m : Module) → SpellsModule bytes.now m
        → MatchResult result (λ read. read ≡ m) (λ fault. fault ≡ NoMemory) }
    // They don't spell two.
    ensures only { (m n : Module) → SpellsModule bytes.now m → SpellsModule bytes.now n → m ≡ n }
{
    if !bytes.starts_with(&PREAMBLE) {
        return Err(DecodeFault::Malformed);
    }
    let (module, at) = sections(alloc, bytes, PREAMBLE.len() as u32)?;
    let end = customs(bytes, at)?;
    ends(bytes, end)?;
    Ok(module)
}

/// The sections of a module, in their order (5.5.15).
fn sections(alloc: Global, bytes: &[u8], at: u32) -> Decoded<Module>
    requires size { length bytes.now < u32.MAX }
    requires place { at ≤ length bytes.now }
    ensures reaches { IfOk result (λ read. ReachesIn bytes.now at read.1) }
    ensures reads { ReadsTo (IsSections bytes.now at) result }
{
    let (types, at) = vector_section::<FunctionType>(alloc, bytes, at, 1)?;
    let (imports, at) = vector_section::<ImportEntry>(alloc, bytes, at, 2)?;
    let (func_types, at) = vector_section::<Index>(alloc, bytes, at, 3)?;
    let (tables, at) = vector_section::<TableType>(alloc, bytes, at, 4)?;
    let (memories, at) = vector_section::<MemoryType>(alloc, bytes, at, 5)?;
    let (globals, at) = vector_section::<OwnGlobal>(alloc, bytes, at, 6)?;
    let (exports, at) = vector_section::<ExportEntry>(alloc, bytes, at, 7)?;
    let (start, at) = start_section(bytes, at)?;
    let (elems, at) = vector_section::<OwnElemSegment>(alloc, bytes, at, 9)?;
    let (funcs, at) = code_section(alloc, bytes, at, func_types.as_slice())?;
    let (segments, end) = vector_section::<OwnDataSegment>(alloc, bytes, at, 11)?;
    let module = Module {
        types,
        imports,
        funcs,
        tables,
        memories,
        globals,
        exports,
        start,
        elems,
        segments,
    };
    Ok((module, end))
}
