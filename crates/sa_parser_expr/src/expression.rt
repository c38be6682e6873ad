//! Expressions, and the conditions of contracts.

ghost use Rattle.std.specs.Prelude.{◌<◌, All, IfErr, IfOk, length, slice_range};
ghost use Rattle.sa_lexer.specs.Token.{IsWithin};
ghost use Rattle.sa_parser_expr.specs.Enclosures.{outside};
ghost use Rattle.sa_parser_expr.specs.Exactly.{ReadsAs, ReadsOf};
ghost use Rattle.sa_parser_expr.specs.Expressions.{IsExpr};
ghost use Rattle.sa_parser_expr.specs.Forms.{expr, nest};
ghost use Rattle.sa_parser_expr.specs.Lexemes.{between, lexemes_of};
ghost use Rattle.sa_parser_expr.specs.Positions.{IsAfter, IsUnexpected, unexpected_at};
ghost use Rattle.sa_parser_expr.specs.declared.grammar.Enclosure.TheVariants.{Open};
ghost use Rattle.sa_parser_expr.specs.declared.grammar.ConditionScope.TheVariants.{Plain};

use crate::grammar::{ConditionScope, Enclosure, Form, read_form};
use crate::tokens::Tokens;
use sa_ast::{Expr, Rejection};
use sa_lexer::Token;
use std::alloc::Global;

/// The longest expression that begins at an index of a file's tokens, and the index after it.
///
/// E06 is at the first token with which the tokens from the index on begin no expression, or at the end of the file.
pub fn read_expr(alloc: Global, tokens: &Tokens<'_>, from: u32) -> Result<(Expr, u32), Rejection>
    ensures next { IfOk result (λ read. IsAfter tokens.now.list.now from read.1) }
    ensures spelled { IfOk result (λ read. IsExpr Plain Open (between tokens.now from read.1) read.0) }
    ensures refused { IfErr result (IsUnexpected tokens.now.file) }
    ensures exact { ReadsAs (nest (expr Plain outside)) tokens.now from result }
{
    read_condition(alloc, tokens, ConditionScope::Plain, from)
}

/// The longest condition of this scope that begins at an index of a file's tokens, and the index after it.
///
/// E06 is at the first token with which the tokens from the index on begin no such condition, or at the end of the file.
pub fn read_condition(
    alloc: Global,
    tokens: &Tokens<'_>,
    scope: ConditionScope,
    from: u32,
) -> Result<(Expr, u32), Rejection>
    ensures next { IfOk result (λ read. IsAfter tokens.now.list.now from read.1) }
    ensures spelled { IfOk result (λ read. IsExpr scope Open (between tokens.now from read.1) read.0) }
    ensures refused { IfErr result (IsUnexpected tokens.now.file) }
    ensures exact { ReadsAs (nest (expr scope outside)) tokens.now from result }
{
    read_form(alloc, tokens, scope, Form::Expr(Enclosure::Open), from)
}

/// `read_expr` over the tokens `tokens` of the text `src`, which is that of the file with index `file`.
pub fn expr(
    alloc: Global,
    tokens: &[Token],
    src: &[u8],
    file: u32,
    from: u32,
) -> Result<(Expr, u32), Rejection>
    requires within { All (IsWithin src.now) tokens.now }
    requires few { length tokens.now < 4294967295 }
    requires short { length src.now < 4294967295 }
    ensures next { IfOk result (λ read. IsAfter tokens.now from read.1) }
    ensures spelled { IfOk result (λ read. IsExpr Plain Open (slice_range (lexemes_of file src.now tokens.now) from read.1) read.0) }
    ensures refused { IfErr result (IsUnexpected file) }
    ensures exact { ReadsOf (nest (expr Plain outside)) (lexemes_of file src.now tokens.now)
        (unexpected_at file src.now tokens.now) from result }
{
    let tokens = Tokens {
        list: tokens,
        src,
        file,
    };
    read_expr(alloc, &tokens, from)
}

/// `read_condition` over the tokens `tokens` of the text `src`, which is that of the file with index `file`.
pub fn condition(
    alloc: Global,
    tokens: &[Token],
    src: &[u8],
    file: u32,
    scope: ConditionScope,
    from: u32,
) -> Result<(Expr, u32), Rejection>
    requires within { All (IsWithin src.now) tokens.now }
    requires few { length tokens.now < 4294967295 }
    requires short { length src.now < 4294967295 }
    ensures next { IfOk result (λ read. IsAfter tokens.now from read.1) }
    ensures spelled { IfOk result (λ read. IsExpr scope Open (slice_range (lexemes_of file src.now tokens.now) from read.1) read.0) }
    ensures refused { IfErr result (IsUnexpected file) }
    ensures exact { ReadsOf (nest (expr scope outside)) (lexemes_of file src.now tokens.now)
        (unexpected_at file src.now tokens.now) from result }
{
    let tokens = Tokens {
        list: tokens,
        src,
        file,
    };
    read_condition(alloc, &tokens, scope, from)
}
