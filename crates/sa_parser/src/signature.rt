//! Signatures: one function for each production of their grammar.
//!
//! ```text
//! sig            = F arguments written_result
//! arguments      = ["(" formals ")"]
//! formals        = formal {"," formal}
//! formal         = [mode] LNAME {"," LNAME} ":" type
//! written_result = [":" type]
//! ```
//!
//! F is a lower name or the name of an iter. `once` is a mode in the signatures of iters alone.

ghost use Rattle.std.specs.Prelude.{◌≡◌, ◌≤◌, IfErr, IfOk, IfSome, length};
ghost use Rattle.sa_parser.specs.SignatureForms.{arguments_form, formal_form, formals_form, sig_form, written_result_form};
ghost use Rattle.sa_parser.specs.Signatures.{callable_of};
ghost use Rattle.sa_parser_expr.specs.Exactly.{ReadsAs};
ghost use Rattle.sa_parser_expr.specs.Positions.{IsAfter, IsFrom, IsUnexpected, kind_at};

use crate::names::{feature_name, lower_names};
use crate::sharing::{Sharing, counted_type};
use sa_ast::{FormalParam, Local, Rejection, Ty};
use sa_lexer::{Sign, TokenKind};
use sa_parser_expr::{CallableKind, Tokens, read_mode, read_type};
use sqlite_items::Items;
use std::alloc::Global;

/// The name of a feature with its arguments and its result.
#[derive(Drop)]
pub(crate) struct HeaderSignature {
    pub(crate) name: Local,
    pub(crate) formals: Items<FormalParam>,
    pub(crate) result: Option<Ty>,
}

/// The kind of callable of a feature with the name that is there.
fn callable_at(tokens: &Tokens<'_>, at: u32) -> CallableKind
    ensures { IfSome (kind_at tokens.now.list.now at) (λ kind. result ≡ callable_of kind) }
{
    match tokens.kind(at) {
        Some(TokenKind::IterName) => CallableKind::Iter,
        _ => CallableKind::Routine,
    }
}

/// `F arguments written_result`
pub(crate) fn sig(
    alloc: Global,
    tokens: &Tokens<'_>,
    sharing: &mut Sharing,
    from: u32,
) -> Result<(HeaderSignature, u32), Rejection>
    ensures next { IfOk result (λ read. IsAfter tokens.now.list.now from read.1) }
    ensures refused { IfErr result (IsUnexpected tokens.now.file) }
    ensures exact { ReadsAs sig_form tokens.now from result }
{
    let callable = callable_at(tokens, from);
    let (name, next) = feature_name(alloc, tokens, from)?;
    let (formals, next) = arguments(alloc, tokens, sharing, callable, next)?;
    let (gives, next) = written_result(alloc, tokens, next)?;
    let sig = HeaderSignature {
        name,
        formals,
        result: gives,
    };
    Ok((sig, next))
}

/// `["(" formals ")"]`
fn arguments(
    alloc: Global,
    tokens: &Tokens<'_>,
    sharing: &mut Sharing,
    callable: CallableKind,
    from: u32,
) -> Result<(Items<FormalParam>, u32), Rejection>
    requires { from ≤ length tokens.now.list.now }
    ensures next { IfOk result (λ read. IsFrom tokens.now.list.now from read.1) }
    ensures refused { IfErr result (IsUnexpected tokens.now.file) }
    ensures exact { ReadsAs (arguments_form callable) tokens.now from result }
{
    if !tokens.is_sign(from, Sign::LeftParen) {
        return Ok((Items::new(alloc), from));
    }
    let (formals, next) = formals(alloc, tokens, sharing, callable, from + 1)?;
    Ok((formals, tokens.after_sign(next, Sign::RightParen)?))
}

/// `formal {"," formal}`
fn formals(
    alloc: Global,
    tokens: &Tokens<'_>,
    sharing: &mut Sharing,
    callable: CallableKind,
    from: u32,
) -> Result<(Items<FormalParam>, u32), Rejection>
    ensures next { IfOk result (λ read. IsAfter tokens.now.list.now from read.1) }
    ensures refused { IfErr result (IsUnexpected tokens.now.file) }
    ensures exact { ReadsAs (formals_form callable) tokens.now from result }
{
    let (mut list, mut next) = formal(alloc, tokens, sharing, callable, from)?;
    'more: while tokens.is_sign(next, Sign::Comma) {
        let (more, end) = formal(alloc, tokens, sharing, callable, next + 1)?;
        list.append(more)?;
        next = end;
    }
    Ok((list, next))
}

/// `[mode] LNAME {"," LNAME} ":" type`: an argument for each name.
fn formal(
    alloc: Global,
    tokens: &Tokens<'_>,
    sharing: &mut Sharing,
    callable: CallableKind,
    from: u32,
) -> Result<(Items<FormalParam>, u32), Rejection>
    ensures next { IfOk result (λ read. IsAfter tokens.now.list.now from read.1) }
    ensures refused { IfErr result (IsUnexpected tokens.now.file) }
    ensures exact { ReadsAs (formal_form callable) tokens.now from result }
{
    let (mode, next) = read_mode(tokens, callable, from);
    let (names, next) = lower_names(alloc, tokens, next)?;
    let at = tokens.after_sign(next, Sign::Colon)?;
    let mut end = at;
    let mut list = Vec::new(alloc);
    'more: for local in names {
        let (ty, following) = counted_type(alloc, tokens, sharing, at)?;
        list.push(FormalParam { mode, local, ty })?;
        end = following;
    }
    list.shrink_to_fit();
    Ok((Items::from_vec(list), end))
}

/// `[":" type]`
fn written_result(
    alloc: Global,
    tokens: &Tokens<'_>,
    from: u32,
) -> Result<(Option<Ty>, u32), Rejection>
    requires { from ≤ length tokens.now.list.now }
    ensures next { IfOk result (λ read. IsFrom tokens.now.list.now from read.1) }
    ensures refused { IfErr result (IsUnexpected tokens.now.file) }
    ensures exact { ReadsAs written_result_form tokens.now from result }
{
    if !tokens.is_sign(from, Sign::Colon) {
        return Ok((None, from));
    }
    let (ty, next) = read_type(alloc, tokens, from + 1)?;
    Ok((Some(ty), next))
}
