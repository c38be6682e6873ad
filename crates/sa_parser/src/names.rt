//! Names where they are declared, changed or tested.

ghost use Rattle.std.specs.Prelude.{◌≡◌, ◌+◌, ◌≤◌, IfErr, IfOk, vec_len};
ghost use Rattle.sa_parser.specs.Classes.{IsAbstractName, IsClassName};
ghost use Rattle.sa_parser.specs.ConditionForms.{is_bool, with_ast};
ghost use Rattle.sa_parser.specs.Conditions.{IsBool};
ghost use Rattle.sa_parser.specs.Names.{IsLower, IsName, IsNames, name_at};
ghost use Rattle.sa_parser_expr.specs.Exactly.{ReadsAs, map_value};
ghost use Rattle.sa_parser_expr.specs.Lexemes.{IsFeature, IsLexemeAt, between};
ghost use Rattle.sa_parser_expr.specs.Positions.{IsAfter, IsUnexpected};
ghost use Rattle.sa_parser_expr.specs.StatementForms.{name_as, name_form, names_form};
ghost use Rattle.sa_parser_expr.specs.Tests.{is_abstract_name, is_class_name, is_feature};

use sa_ast::{Local, Rejection};
use sa_lexer::{Sign, TokenKind};
use sa_parser_expr::Tokens;
use std::alloc::{AllocError, Global};

/// The token at an index as a name.
fn local(alloc: Global, tokens: &Tokens<'_>, at: u32) -> Result<Local, AllocError>
    ensures { IfOk result (λ local. local ≡ name_at tokens.now at) }
{
    Ok(Local {
        name: tokens.name(alloc, at)?,
        pos: tokens.pos(at),
    })
}

/// `LNAME`
pub(crate) fn lower_name(
    alloc: Global,
    tokens: &Tokens<'_>,
    from: u32,
) -> Result<(Local, u32), Rejection>
    ensures next { IfOk result (λ read. IsAfter tokens.now.list.now from read.1) }
    ensures alone { IfOk result (λ read. read.1 ≡ from + 1) }
    ensures spelled { IfOk result (λ read. IsName IsLower (between tokens.now from read.1) read.0) }
    ensures refused { IfErr result (IsUnexpected tokens.now.file) }
    ensures exact { ReadsAs name_form tokens.now from result }
{
    if !tokens.is_lower(from) {
        return Err(tokens.unexpected(from));
    }
    Ok((local(alloc, tokens, from)?, from + 1))
}

/// `F`: a lower name or the name of an iter.
pub(crate) fn feature_name(
    alloc: Global,
    tokens: &Tokens<'_>,
    from: u32,
) -> Result<(Local, u32), Rejection>
    ensures next { IfOk result (λ read. IsAfter tokens.now.list.now from read.1) }
    ensures alone { IfOk result (λ read. read.1 ≡ from + 1) }
    ensures spelled { IfOk result (λ read. IsName IsFeature (between tokens.now from read.1) read.0) }
    ensures refused { IfErr result (IsUnexpected tokens.now.file) }
    ensures exact { ReadsAs (name_as is_feature) tokens.now from result }
{
    if !tokens.is_feature_name(from) {
        return Err(tokens.unexpected(from));
    }
    Ok((local(alloc, tokens, from)?, from + 1))
}

/// `CNAME`
pub(crate) fn class_name(
    alloc: Global,
    tokens: &Tokens<'_>,
    from: u32,
) -> Result<(Local, u32), Rejection>
    ensures next { IfOk result (λ read. IsAfter tokens.now.list.now from read.1) }
    ensures alone { IfOk result (λ read. read.1 ≡ from + 1) }
    ensures spelled { IfOk result (λ read. IsName IsClassName (between tokens.now from read.1) read.0) }
    ensures refused { IfErr result (IsUnexpected tokens.now.file) }
    ensures exact { ReadsAs (name_as is_class_name) tokens.now from result }
{
    let Some(TokenKind::ClassName) = tokens.kind(from) else {
        return Err(tokens.unexpected(from));
    };
    Ok((local(alloc, tokens, from)?, from + 1))
}

/// `ANAME`
pub(crate) fn abstract_name(
    alloc: Global,
    tokens: &Tokens<'_>,
    from: u32,
) -> Result<(Local, u32), Rejection>
    ensures next { IfOk result (λ read. IsAfter tokens.now.list.now from read.1) }
    ensures alone { IfOk result (λ read. read.1 ≡ from + 1) }
    ensures spelled { IfOk result (λ read. IsName IsAbstractName (between tokens.now from read.1) read.0) }
    ensures refused { IfErr result (IsUnexpected tokens.now.file) }
    ensures exact { ReadsAs (name_as is_abstract_name) tokens.now from result }
{
    let Some(TokenKind::AbstractName) = tokens.kind(from) else {
        return Err(tokens.unexpected(from));
    };
    Ok((local(alloc, tokens, from)?, from + 1))
}

/// The index after the class name `BOOL`.
pub(crate) fn after_bool(tokens: &Tokens<'_>, from: u32) -> Result<u32, Rejection>
    ensures next { IfOk result (IsAfter tokens.now.list.now from) }
    ensures alone { IfOk result (λ next. next ≡ from + 1) }
    ensures spelled { IfOk result (λ _. IsLexemeAt IsBool tokens.now from) }
    ensures refused { IfErr result (IsUnexpected tokens.now.file) }
    ensures exact { ReadsAs (name_as is_bool) tokens.now from (with_ast (name_at tokens.now from) result) }
{
    match tokens.kind(from) {
        Some(TokenKind::ClassName) if tokens.bytes(from) == b"BOOL".as_slice() => Ok(from + 1),
        _ => Err(tokens.unexpected(from)),
    }
}

/// `LNAME {"," LNAME}`
pub(crate) fn lower_names(
    alloc: Global,
    tokens: &Tokens<'_>,
    from: u32,
) -> Result<(Vec<Local>, u32), Rejection>
    ensures count { IfOk result (λ read. from + vec_len read.0 ≤ read.1) }
    ensures next { IfOk result (λ read. IsAfter tokens.now.list.now from read.1) }
    ensures spelled { IfOk result (λ read. IsNames (between tokens.now from read.1) read.0.items) }
    ensures refused { IfErr result (IsUnexpected tokens.now.file) }
    ensures exact { ReadsAs names_form tokens.now from (map_value (λ names. names.items) result) }
{
    let (first, mut next) = lower_name(alloc, tokens, from)?;
    let mut names = Vec::new(alloc);
    names.push(first)?;
    'more: while tokens.is_sign(next, Sign::Comma) {
        let (name, end) = lower_name(alloc, tokens, next + 1)?;
        names.push(name)?;
        next = end;
    }
    names.shrink_to_fit();
    Ok((names, next))
}
