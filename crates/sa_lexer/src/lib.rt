//! The lexer: the tokens of a source text.
#![tactic(auto)]

mod byte;
mod front;
mod gap;
mod lexer;
mod literal;
mod name;
mod number;
mod scan_result;
mod sign;
mod token;
mod word;

pub use lexer::lex;
pub use sign::Sign;
pub use token::{Token, TokenKind, slice_of};
pub use word::Word;
