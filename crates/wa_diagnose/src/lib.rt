//! Where bytes stop being a module of WebAssembly Core 1.0 in its integer part, and what is wrong there.
#![tactic(auto)]

mod blocks;
mod body;
mod entries;
mod error;
mod instruction;
mod reader;
mod sections;

pub use error::{FormatError, FormatErrorKind, ModulePart};
pub use sections::find_format_error;
