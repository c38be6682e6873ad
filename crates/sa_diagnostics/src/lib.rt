//! Messages of `--explain`: the context of a position in a source (its tokens, what is open there, the classes of the program, names near
//! by), sentences and the line with the position marked, and what is said about tokens and about the rules of bodies.
#![tactic(auto)]

mod body;
mod calls;
mod elsewhere;
mod enclosing;
mod grammar;
mod iters;
mod lexical;
mod line;
mod meant;
mod messages;
mod names;
mod near;
mod open_blocks;
mod operators;
mod slips;
mod source_context;
mod table;
mod tokens;
mod typing;
mod values;

pub use body::about_body;
pub use grammar::unexpected;
pub use lexical::about_bytes;
pub use line::put_marked;
pub use messages::{Message, MessagePart, Sentences, Span};
pub use near::{class_near, feature_near};
pub use open_blocks::{ClosedBlock, OpenBlock, OpenBlocks, last_else_if, open_blocks_before};
pub use source_context::SourceContext;
pub use table::{Declarations, Quality, count_in, feature_in, has_parameter, line_in, plain_name};
pub use tokens::{TokenView, begins_statement, ends_value, is_block, is_closing, is_opening};
