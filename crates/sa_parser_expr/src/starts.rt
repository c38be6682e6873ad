//! Which token can begin what is optional: a type or an expression. The end of the file begins nothing.

ghost use Rattle.std.specs.Prelude.{◌≡◌, IsSome};
ghost use Rattle.std.specs.Bool.{OnTrue};
ghost use Rattle.std.specs.Option.{option_copied};
ghost use Rattle.sa_parser_expr.specs.Starts.{begins_expression, begins_type};

use sa_lexer::{Sign, TokenKind, Word};

/// Whether the token begins a type.
pub(crate) fn begins_type(token: Option<&TokenKind>) -> bool
    ensures value { result ≡ begins_type (option_copied token.entry) }
    ensures there { OnTrue result (IsSome token.entry) }
{
    match token {
        Some(TokenKind::ClassName | TokenKind::AbstractName) => true,
        Some(TokenKind::Word(word)) => matches!(word, Word::Same | Word::Rout | Word::Iter),
        _ => false,
    }
}

/// Whether the token begins an expression.
pub fn begins_expression(token: Option<&TokenKind>) -> bool
    ensures value { result ≡ begins_expression (option_copied token.entry) }
    ensures there { OnTrue result (IsSome token.entry) }
{
    match token {
        Some(TokenKind::Word(word)) => matches!(
            word,
            Word::Bind
                | Word::Exception
                | Word::False
                | Word::Iter
                | Word::New
                | Word::Rout
                | Word::Same
                | Word::SelfWord
                | Word::True
                | Word::Void
        ),
        Some(TokenKind::Sign(sign)) => matches!(
            sign,
            Sign::Bar | Sign::Hash | Sign::LeftBracket | Sign::LeftParen | Sign::Minus | Sign::Tilde
        ),
        Some(_) => true,
        None => false,
    }
}
