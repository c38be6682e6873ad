//! From a listing to its module.

mod expression;
mod instruction;
mod items;
mod line;
mod module;
mod types;
mod words;

pub use module::read;
