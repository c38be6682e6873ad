//! Reads a program: its files through a store, and their texts into classes and contracts, up to the first refusal by the size of
//! the files, the tokens, their levels and words, and the grammar, in this order.
#![tactic(auto)]

mod front;
mod read;
mod source_files;
mod tokens;

pub use front::parse_program;
pub use read::{FileContents, ReadFault, read_file};
pub use sa_parser::ParsedFiles;
pub use source_files::{MOST_BYTES, SourceFiles, prelude, read_program};
