//! The context of the position that is explained: the tokens around it, and the classes of the program.

use crate::messages::Span;
use crate::table::Declarations;
use crate::tokens::TokenView;
use sa_ast::Pos;
use std::alloc::Global;

/// The position and its context.
#[derive(Clone, Copy)]
pub struct SourceContext<'a> {
    pub alloc: Global,
    pub tokens: TokenView<'a>,
    /// The index of the token at the position.
    pub at: usize,
    pub pos: Pos,
    /// The index of the token with which the feature begins that the position is in, or of the token at the position where it is in none.
    pub feature: usize,
    pub table: Declarations<'a>,
}

impl<'a> SourceContext<'a> {
    /// The bytes of the token at the position.
    pub fn name(self) -> &'a [u8] {
        self.tokens.bytes(self.at)
    }

    /// The bytes of the token with which the feature begins that the position is in, or none where it is in none.
    pub fn feature_name(self) -> Option<&'a [u8]> {
        if self.feature < self.at {
            Some(self.tokens.bytes(self.feature))
        } else {
            None
        }
    }

    /// The span of a token.
    pub fn span(self, at: usize) -> Span {
        Span {
            start: self.tokens.start(at),
            end: self.tokens.end(at),
        }
    }
}
