//! The kinds of tokens, and the bytes that a token spans.

ghost use Rattle.std.specs.Prelude.{◌≡◌, slice_range};
ghost use Rattle.sa_lexer.specs.Token.{IsWithin};

use crate::sign::Sign;
use crate::word::Word;
use sa_ast::Name;

/// The kind of a token, with the value of a number or a literal.
#[derive(Debug, Drop)]
pub enum TokenKind {
    /// A word of the language.
    Word(Word),
    /// A name without a lower-case letter that is no word.
    ClassName,
    /// `$` and a class name.
    AbstractName,
    /// A name with a lower-case letter that is no word.
    Lower,
    /// A name with a lower-case letter, and `!`.
    IterName,
    /// A number, by its value: at most 2147483647.
    Int(u32),
    /// A character literal, by the byte that it denotes.
    Char(u8),
    /// A text literal, by the bytes that it denotes.
    Text(Name),
    /// A sign.
    Sign(Sign),
}

/// A token of a text, which spans the bytes from `start` up to `end`.
#[derive(Debug, Drop)]
pub struct Token {
    pub kind: TokenKind,
    pub start: u32,
    pub end: u32,
}

/// The bytes of the text that the token spans.
pub fn slice_of<'a>(src: &'a [u8], token: &Token) -> &'a [u8]
    requires { IsWithin src.now token.now }
    ensures { result.now ≡ slice_range src.now token.now.start token.now.end }
{
    &src[token.start as usize..token.end as usize]
}
