//! The parser: the classes and the contracts of a file from its tokens.
#![tactic(auto)]

mod blocks;
mod body;
mod class;
mod contract;
mod declared;
mod file;
mod include;
mod member;
mod names;
mod sharing;
mod signature;
mod starts;
mod statement;

pub use file::{FileKind, ParsedFiles, parse};
