//! Types: one function for each production of their grammar.
//!
//! ```text
//! type         = C given_types | "SAME" | "ROUT" bound_args bound_result | "ITER" bound_args bound_result
//! given_types  = ["{" types "}"]
//! types        = type {"," type}
//! bound_args   = ["{" mode_types "}"]
//! mode_types   = mode_type {"," mode_type}
//! mode_type    = [mode] type
//! mode         = "out" | "inout" | "once" | "in"
//! bound_result = [":" type]
//! ```
//!
//! C is a class name or an abstract name. `once` is allowed in the arguments of ITER alone.

ghost use Rattle.std.specs.Prelude.{◌≤◌, IfErr, IfOk, length};
ghost use Rattle.sa_parser_expr.specs.Exactly.{ReadsAs, Takes};
ghost use Rattle.sa_parser_expr.specs.Forms.{list, nest, type};
ghost use Rattle.sa_parser_expr.specs.Lexemes.{between};
ghost use Rattle.sa_parser_expr.specs.Positions.{IsAfter, IsFrom, IsUnexpected};
ghost use Rattle.sa_parser_expr.specs.TypeForms.{bound_args_form, bound_result_form, given_types_form, mode_form, mode_type_form};
ghost use Rattle.sa_parser_expr.specs.Types.{IsBoundArgs, IsBoundResult, IsGivenTypes, IsMode, IsModeType, IsModeTypes, IsType, IsTypes};

use crate::tokens::Tokens;
use sa_ast::{Mode, ModeTy, Rejection, Ty};
use sa_lexer::{Sign, TokenKind, Word};
use sqlite_items::{Boxed, Items};
use std::alloc::Global;

/// Whether a callable is a routine or an iter. `once` is a mode of the arguments of iters alone.
#[derive(Clone, Copy, Debug, PartialEq, Eq)]
pub enum CallableKind {
    Routine,
    Iter,
}

/// The type that begins at an index, and the index after it. The position of a type is that of its first token.
///
/// E06 is at the first token with which the tokens from the index on begin no type, or at the end of the file.
#[cycle(ty)]
pub fn read_type(alloc: Global, tokens: &Tokens<'_>, from: u32) -> Result<(Ty, u32), Rejection>
    ensures next { IfOk result (λ read. IsAfter tokens.now.list.now from read.1) }
    ensures spelled { IfOk result (λ read. IsType (between tokens.now from read.1) read.0) }
    ensures refused { IfErr result (IsUnexpected tokens.now.file) }
    ensures exact { ReadsAs (nest type) tokens.now from result }
{
    let pos = tokens.pos(from);
    match tokens.kind(from) {
        Some(TokenKind::ClassName | TokenKind::AbstractName) => {
            let name = tokens.name(alloc, from)?;
            let (given, next) = given_types(alloc, tokens, from + 1)?;
            Ok((Ty::Named(name, given, pos), next))
        }
        Some(TokenKind::Word(Word::Same)) => Ok((Ty::Same(pos), from + 1)),
        Some(TokenKind::Word(Word::Rout)) => {
            let (args, next) = bound_args(alloc, tokens, CallableKind::Routine, from + 1)?;
            let (gives, next) = bound_result(alloc, tokens, next)?;
            Ok((Ty::Rout(args, gives, pos), next))
        }
        Some(TokenKind::Word(Word::Iter)) => {
            let (args, next) = bound_args(alloc, tokens, CallableKind::Iter, from + 1)?;
            let (gives, next) = bound_result(alloc, tokens, next)?;
            Ok((Ty::Iter(args, gives, pos), next))
        }
        _ => Err(tokens.unexpected(from)),
    }
}

/// `["{" types "}"]`
#[cycle(ty)]
fn given_types(alloc: Global, tokens: &Tokens<'_>, from: u32) -> Result<(Items<Ty>, u32), Rejection>
    requires { from ≤ length tokens.now.list.now }
    ensures next { IfOk result (λ read. IsFrom tokens.now.list.now from read.1) }
    ensures spelled { IfOk result (λ read. IsGivenTypes (between tokens.now from read.1) read.0) }
    ensures refused { IfErr result (IsUnexpected tokens.now.file) }
    ensures exact { ReadsAs given_types_form tokens.now from result }
{
    if !tokens.is_sign(from, Sign::LeftBrace) {
        return Ok((Items::new(alloc), from));
    }
    let (types, next) = read_types(alloc, tokens, from + 1)?;
    Ok((types, tokens.after_sign(next, Sign::RightBrace)?))
}

/// One type or several with `,` between them, and the index after the last.
#[cycle(ty)]
pub fn read_types(
    alloc: Global,
    tokens: &Tokens<'_>,
    from: u32,
) -> Result<(Items<Ty>, u32), Rejection>
    ensures next { IfOk result (λ read. IsAfter tokens.now.list.now from read.1) }
    ensures spelled { IfOk result (λ read. IsTypes (between tokens.now from read.1) read.0) }
    ensures refused { IfErr result (IsUnexpected tokens.now.file) }
    ensures exact { ReadsAs (list (nest type)) tokens.now from result }
{
    let (first, mut next) = read_type(alloc, tokens, from)?;
    let mut types = Items::new(alloc);
    types.push(first)?;
    'more: while tokens.is_sign(next, Sign::Comma) {
        let (ty, end) = read_type(alloc, tokens, next + 1)?;
        types.push(ty)?;
        next = end;
    }
    Ok((types, next))
}

/// `["{" mode_types "}"]`
#[cycle(ty)]
fn bound_args(
    alloc: Global,
    tokens: &Tokens<'_>,
    callable: CallableKind,
    from: u32,
) -> Result<(Items<ModeTy>, u32), Rejection>
    requires { from ≤ length tokens.now.list.now }
    ensures next { IfOk result (λ read. IsFrom tokens.now.list.now from read.1) }
    ensures spelled { IfOk result (λ read. IsBoundArgs callable (between tokens.now from read.1) read.0) }
    ensures refused { IfErr result (IsUnexpected tokens.now.file) }
    ensures exact { ReadsAs (bound_args_form callable) tokens.now from result }
{
    if !tokens.is_sign(from, Sign::LeftBrace) {
        return Ok((Items::new(alloc), from));
    }
    let (args, next) = mode_types(alloc, tokens, callable, from + 1)?;
    Ok((args, tokens.after_sign(next, Sign::RightBrace)?))
}

/// `mode_type {"," mode_type}`
#[cycle(ty)]
fn mode_types(
    alloc: Global,
    tokens: &Tokens<'_>,
    callable: CallableKind,
    from: u32,
) -> Result<(Items<ModeTy>, u32), Rejection>
    ensures next { IfOk result (λ read. IsAfter tokens.now.list.now from read.1) }
    ensures spelled { IfOk result (λ read. IsModeTypes callable (between tokens.now from read.1) read.0) }
    ensures refused { IfErr result (IsUnexpected tokens.now.file) }
    ensures exact { ReadsAs (list (mode_type_form callable)) tokens.now from result }
{
    let (first, mut next) = mode_type(alloc, tokens, callable, from)?;
    let mut args = Items::new(alloc);
    args.push(first)?;
    'more: while tokens.is_sign(next, Sign::Comma) {
        let (arg, end) = mode_type(alloc, tokens, callable, next + 1)?;
        args.push(arg)?;
        next = end;
    }
    Ok((args, next))
}

/// `[mode] type`
#[cycle(ty)]
fn mode_type(
    alloc: Global,
    tokens: &Tokens<'_>,
    callable: CallableKind,
    from: u32,
) -> Result<(ModeTy, u32), Rejection>
    ensures next { IfOk result (λ read. IsAfter tokens.now.list.now from read.1) }
    ensures spelled { IfOk result (λ read. IsModeType callable (between tokens.now from read.1) read.0) }
    ensures refused { IfErr result (IsUnexpected tokens.now.file) }
    ensures exact { ReadsAs (mode_type_form callable) tokens.now from result }
{
    let (mode, next) = read_mode(tokens, callable, from);
    let (ty, next) = read_type(alloc, tokens, next)?;
    Ok((ModeTy { mode, ty }, next))
}

/// `[":" type]`
#[cycle(ty)]
fn bound_result(
    alloc: Global,
    tokens: &Tokens<'_>,
    from: u32,
) -> Result<(Option<Boxed<Ty>>, u32), Rejection>
    requires { from ≤ length tokens.now.list.now }
    ensures next { IfOk result (λ read. IsFrom tokens.now.list.now from read.1) }
    ensures spelled { IfOk result (λ read. IsBoundResult (between tokens.now from read.1) read.0) }
    ensures refused { IfErr result (IsUnexpected tokens.now.file) }
    ensures exact { ReadsAs bound_result_form tokens.now from result }
{
    if !tokens.is_sign(from, Sign::Colon) {
        return Ok((None, from));
    }
    let (ty, next) = read_type(alloc, tokens, from + 1)?;
    Ok((Some(Boxed::new(alloc, ty)?), next))
}

/// The mode that is written at an index, and the index after it; where none is written, `In` and the index itself.
/// `once` is a mode of iters' arguments alone: elsewhere it isn't read, and can't begin what has to follow.
pub fn read_mode(tokens: &Tokens<'_>, callable: CallableKind, from: u32) -> (Mode, u32)
    ensures from { from ≤ result.1 }
    ensures within { from ≤ length tokens.now.list.now → result.1 ≤ length tokens.now.list.now }
    ensures spelled { IsMode callable (between tokens.now from result.1) result.0 }
    ensures exact { Takes (mode_form callable) tokens.now from result.0 result.1 }
{
    match tokens.kind(from) {
        Some(TokenKind::Word(Word::Out)) => (Mode::Out, from + 1),
        Some(TokenKind::Word(Word::Inout)) => (Mode::Inout, from + 1),
        Some(TokenKind::Word(Word::In)) => (Mode::In, from + 1),
        Some(TokenKind::Word(Word::Once)) if callable == CallableKind::Iter => (
            Mode::Once,
            from + 1,
        ),
        _ => (Mode::In, from),
    }
}
