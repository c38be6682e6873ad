//! Modules of WebAssembly Core 1.0 in its integer part, as data, and the numbers of the binary format.
#![tactic(auto)]

mod instr;
mod leb128;
mod locals;
mod module;
mod name;
pub mod opcode;
mod trap;

pub use failure::NoMemory;
pub use instr::Instr;
pub use leb128::{one_spelling, read_i32, read_i64, read_u32, write_i32, write_i64, write_u32};
pub use locals::{LocalRun, Locals};
pub use module::{
    DataSegment, ElemSegment, Export, ExportKind, Func, FuncTy, GlobalDef, GlobalTy, Import,
    ImportKind, Init, Limits, Module, ValTy,
};
pub use name::WasmName;
pub use trap::TrapKind;
