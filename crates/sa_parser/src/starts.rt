//! Which token can begin what is optional: a statement, a member of a class or a class. The end of the file begins
//! nothing.

ghost use Rattle.std.specs.Prelude.{◌≡◌, IsSome};
ghost use Rattle.std.specs.Bool.{OnTrue};
ghost use Rattle.std.specs.Option.{option_copied};
ghost use Rattle.sa_parser.specs.Starts.{begins_class, begins_member, begins_statement};

use crate::class::ClassBody;
use crate::file::FileKind;
use crate::member::ClassContext;
use sa_ast::ClassKind;
use sa_lexer::{TokenKind, Word};
use sa_parser_expr::begins_expression;

/// Whether the token begins a statement.
pub(crate) fn begins_statement(token: Option<&TokenKind>) -> bool
    ensures value { result ≡ begins_statement (option_copied token.entry) }
    ensures there { OnTrue result (IsSome token.entry) }
{
    match token {
        Some(
            TokenKind::Word(
                Word::Assert
                | Word::Case
                | Word::If
                | Word::Loop
                | Word::Protect
                | Word::Quit
                | Word::Raise
                | Word::Return
                | Word::Typecase
                | Word::Yield,
            ),
        ) => true,
        _ => begins_expression(token),
    }
}

/// Whether the token begins a member of this class after these others.
pub(crate) fn begins_member(
    token: Option<&TokenKind>,
    class: ClassContext<'_>,
    others: &ClassBody,
) -> bool
    ensures value { result ≡ begins_member class.entry.kind class.entry.file_kind others.now.invariant (option_copied token.entry) }
    ensures there { OnTrue result (IsSome token.entry) }
{
    match token {
        Some(
            TokenKind::Word(
                Word::Attr
                | Word::Const
                | Word::Include
                | Word::Private
                | Word::Readonly
                | Word::Shared,
            ),
        ) => true,
        Some(TokenKind::Word(Word::Invariant)) => {
            matches!(class.file_kind, FileKind::Program) && others.invariant.is_none()
        }
        Some(TokenKind::Word(Word::Stub)) => matches!(class.kind, ClassKind::Partial),
        Some(TokenKind::Word(Word::Builtin)) => matches!(class.file_kind, FileKind::Prelude),
        Some(TokenKind::Lower | TokenKind::IterName) => true,
        _ => false,
    }
}

/// Whether the token begins a class.
pub(crate) fn begins_class(token: Option<&TokenKind>) -> bool
    ensures value { result ≡ begins_class (option_copied token.entry) }
    ensures there { OnTrue result (IsSome token.entry) }
{
    matches!(
        token,
        Some(TokenKind::Word(Word::Abstract | Word::Class | Word::Immutable | Word::Partial))
    )
}
