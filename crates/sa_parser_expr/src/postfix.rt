//! What follows a first: calls on it and indexes, and the arguments of calls. One function for each production.
//!
//! ```text
//! post     = first {"." F [args] | "[" exprs "]"}
//! args     = "(" arg_list ")"
//! arg_list = arg {"," arg}
//! arg      = ["out" | "inout"] expr | "_" [":" type]
//! exprs    = expr {"," expr}
//! ```
//!
//! F is a lower name or an iter name. The position of a call is that of this name, and the position of an index is that of the first
//! token of the whole form, which may be a parenthesis.

ghost use Rattle.std.specs.Prelude.{◌+◌, ◌≡◌, ◌<◌, ◌≤◌, IfErr, IfOk, length, Some};
ghost use Rattle.sa_lexer.specs.declared.sign.Sign.TheVariants as sign;
ghost use Rattle.sa_lexer.specs.declared.token.TokenKind.TheVariants as token;
ghost use Rattle.sa_parser_expr.specs.Enclosures.{where_of};
ghost use Rattle.sa_parser_expr.specs.Exactly.{ModeAt, ReadsAs};
ghost use Rattle.sa_parser_expr.specs.ExpressionForms.{arg_form, args_form, call_form, indices_form, post_form};
ghost use Rattle.sa_parser_expr.specs.Expressions.{GivesMode, IsArg, IsArgList, IsArgs, IsCall, IsExprs, IsIndex, IsPost};
ghost use Rattle.sa_parser_expr.specs.Forms.{expr, list, nest};
ghost use Rattle.sa_parser_expr.specs.Lexemes.{between};
ghost use Rattle.sa_parser_expr.specs.Nests.{Nests};
ghost use Rattle.sa_parser_expr.specs.Positions.{IsAfter, IsFrom, IsUnexpected, kind_at};
ghost use Rattle.sa_parser_expr.specs.declared.grammar.ConditionScope.{ConditionScope};

use crate::grammar::{ConditionScope, Enclosure, Form, Grammar};
use crate::tokens::Tokens;
use crate::types::read_type;
use sa_ast::{Expr, ExprArg, ExprReceiver, Mode, Rejection};
use sa_lexer::{Sign, TokenKind, Word};
use sqlite_items::{Boxed, Items};
use std::alloc::Global;

impl<
    F: Fn(Global, &Tokens<'_>, ConditionScope, Form, u32) -> Result<(Expr, u32), Rejection>,
> Grammar<'_, F> {
    /// `first {"." F [args] | "[" exprs "]"}`
    pub(crate) fn post(&self, around: Enclosure, from: u32) -> Result<(Expr, u32), Rejection>
        requires nested { Nests self.now.from (F.pre self.now.nested) (F.post self.now.nested) }
        requires from { self.now.from ≤ from }
        ensures next { IfOk result (λ read. IsAfter self.now.tokens.list.now from read.1) }
        ensures spelled { IfOk result (λ read. IsPost self.now.scope around (between self.now.tokens from read.1) read.0) }
        ensures refused { IfErr result (IsUnexpected self.now.tokens.file) }
        ensures exact { ReadsAs (post_form self.now.scope (where_of around)) self.now.tokens from result }
    {
        let (mut of, mut next) = self.first(around, from)?;
        'more: loop {
            if self.tokens.is_sign(next, Sign::Dot) {
                let on = ExprReceiver::Of(Boxed::new(self.alloc, of)?);
                let (called, end) = self.call(on, next + 1)?;
                of = called;
                next = end;
            } else if self.tokens.is_sign(next, Sign::LeftBracket) {
                let (places, end) = self.index(next)?;
                let on = Some(Boxed::new(self.alloc, of)?);
                of = Expr::Index(on, places, self.tokens.pos(from));
                next = end;
            } else {
                return Ok((of, next));
            }
        }
    }

    /// `F [args]`
    pub(crate) fn call(&self, on: ExprReceiver, from: u32) -> Result<(Expr, u32), Rejection>
        requires nested { Nests self.now.from (F.pre self.now.nested) (F.post self.now.nested) }
        requires from { self.now.from ≤ from }
        ensures next { IfOk result (λ read. IsAfter self.now.tokens.list.now from read.1) }
        ensures spelled { IfOk result (λ read. IsCall self.now.scope on (between self.now.tokens from read.1) read.0) }
        ensures refused { IfErr result (IsUnexpected self.now.tokens.file) }
        ensures exact { ReadsAs (call_form self.now.scope on) self.now.tokens from result }
    {
        if !self.tokens.is_feature_name(from) {
            return Err(self.tokens.unexpected(from));
        }
        let name = self.tokens.name(self.alloc, from)?;
        let (given, next) = self.args(from + 1)?;
        Ok((Expr::Call(on, name, given, self.tokens.pos(from)), next))
    }

    /// `[args]`
    pub(crate) fn args(&self, from: u32) -> Result<(Items<ExprArg>, u32), Rejection>
        requires nested { Nests self.now.from (F.pre self.now.nested) (F.post self.now.nested) }
        requires from { self.now.from ≤ from }
        requires within { from ≤ length self.now.tokens.list.now }
        ensures next { IfOk result (λ read. IsFrom self.now.tokens.list.now from read.1) }
        ensures spelled { IfOk result (λ read. IsArgs self.now.scope (between self.now.tokens from read.1) read.0) }
        ensures refused { IfErr result (IsUnexpected self.now.tokens.file) }
        ensures exact { ReadsAs (args_form self.now.scope) self.now.tokens from result }
    {
        if !self.tokens.is_sign(from, Sign::LeftParen) {
            return Ok((Items::new(self.alloc), from));
        }
        let (given, next) = self.arg_list(from + 1)?;
        Ok((given, self.tokens.after_sign(next, Sign::RightParen)?))
    }

    /// `arg {"," arg}`
    fn arg_list(&self, from: u32) -> Result<(Items<ExprArg>, u32), Rejection>
        requires nested { Nests self.now.from (F.pre self.now.nested) (F.post self.now.nested) }
        requires from { self.now.from < from }
        ensures next { IfOk result (λ read. IsAfter self.now.tokens.list.now from read.1) }
        ensures spelled { IfOk result (λ read. IsArgList self.now.scope (between self.now.tokens from read.1) read.0) }
        ensures refused { IfErr result (IsUnexpected self.now.tokens.file) }
        ensures exact { ReadsAs (list (arg_form self.now.scope)) self.now.tokens from result }
    {
        let (first, mut next) = self.arg(from)?;
        let mut args = Vec::new(self.alloc);
        args.push(first)?;
        'more: while self.tokens.is_sign(next, Sign::Comma) {
            let (one, end) = self.arg(next + 1)?;
            args.push(one)?;
            next = end;
        }
        args.shrink_to_fit();
        Ok((Items::from_vec(args), next))
    }

    /// `["out" | "inout"] expr | "_" [":" type]`
    fn arg(&self, from: u32) -> Result<(ExprArg, u32), Rejection>
        requires nested { Nests self.now.from (F.pre self.now.nested) (F.post self.now.nested) }
        requires from { self.now.from < from }
        ensures next { IfOk result (λ read. IsAfter self.now.tokens.list.now from read.1) }
        ensures spelled { IfOk result (λ read. IsArg self.now.scope (between self.now.tokens from read.1) read.0) }
        ensures refused { IfErr result (IsUnexpected self.now.tokens.file) }
        ensures exact { ReadsAs (arg_form self.now.scope) self.now.tokens from result }
    {
        if self.tokens.is_sign(from, Sign::Underscore) {
            return left_open(self.alloc, &self.tokens, from);
        }
        let (mode, next) = given_mode(&self.tokens, from);
        let (value, next) = self.inner(self.scope, Form::Expr(Enclosure::Open), next)?;
        Ok((ExprArg::Value(mode, value), next))
    }

    /// `"[" exprs "]"`
    pub(crate) fn index(&self, from: u32) -> Result<(Items<Expr>, u32), Rejection>
        requires nested { Nests self.now.from (F.pre self.now.nested) (F.post self.now.nested) }
        requires from { self.now.from ≤ from }
        requires within { from < length self.now.tokens.list.now }
        requires there { kind_at self.now.tokens.list.now from ≡ Some (token.Sign sign.LeftBracket) }
        ensures next { IfOk result (λ read. IsAfter self.now.tokens.list.now from read.1) }
        ensures spelled { IfOk result (λ read. IsIndex self.now.scope (between self.now.tokens from read.1) read.0) }
        ensures refused { IfErr result (IsUnexpected self.now.tokens.file) }
        ensures exact { ReadsAs (indices_form self.now.scope) self.now.tokens (from + 1) result }
    {
        let (places, next) = self.exprs(Enclosure::Open, from + 1)?;
        Ok((places, self.tokens.after_sign(next, Sign::RightBracket)?))
    }

    /// `expr {"," expr}`
    pub(crate) fn exprs(
        &self,
        around: Enclosure,
        from: u32,
    ) -> Result<(Items<Expr>, u32), Rejection>
        requires nested { Nests self.now.from (F.pre self.now.nested) (F.post self.now.nested) }
        requires from { self.now.from < from }
        ensures next { IfOk result (λ read. IsAfter self.now.tokens.list.now from read.1) }
        ensures spelled { IfOk result (λ read. IsExprs self.now.scope around (between self.now.tokens from read.1) read.0) }
        ensures refused { IfErr result (IsUnexpected self.now.tokens.file) }
        ensures exact { ReadsAs (list (nest (expr self.now.scope (where_of around)))) self.now.tokens from result }
    {
        let (first, mut next) = self.inner(self.scope, Form::Expr(around), from)?;
        let mut exprs = Vec::new(self.alloc);
        exprs.push(first)?;
        'more: while self.tokens.is_sign(next, Sign::Comma) {
            let (one, end) = self.inner(self.scope, Form::Expr(around), next + 1)?;
            exprs.push(one)?;
            next = end;
        }
        exprs.shrink_to_fit();
        Ok((Items::from_vec(exprs), next))
    }
}

/// `["out" | "inout"]` before the value of an argument, and the index after it.
fn given_mode(tokens: &Tokens<'_>, from: u32) -> (Mode, u32)
    ensures from { from ≤ result.1 }
    ensures spelled { GivesMode (between tokens.now from result.1) result.0 }
    ensures exact { ModeAt tokens.now from result.0 result.1 }
{
    match tokens.kind(from) {
        Some(TokenKind::Word(Word::Out)) => (Mode::Out, from + 1),
        Some(TokenKind::Word(Word::Inout)) => (Mode::Inout, from + 1),
        _ => (Mode::In, from),
    }
}

/// `"_" [":" type]`, from the `_` on.
fn left_open(alloc: Global, tokens: &Tokens<'_>, from: u32) -> Result<(ExprArg, u32), Rejection>
    requires within { from < length tokens.now.list.now }
    requires there { kind_at tokens.now.list.now from ≡ Some (token.Sign sign.Underscore) }
    ensures next { IfOk result (λ read. IsAfter tokens.now.list.now from read.1) }
    ensures spelled { (scope : ConditionScope) → IfOk result (λ read. IsArg scope (between tokens.now from read.1) read.0) }
    ensures refused { IfErr result (IsUnexpected tokens.now.file) }
    ensures exact { (scope : ConditionScope) → ReadsAs (arg_form scope) tokens.now from result }
{
    let pos = tokens.pos(from);
    if !tokens.is_sign(from + 1, Sign::Colon) {
        return Ok((ExprArg::Unbound(None, pos), from + 1));
    }
    let (ty, next) = read_type(alloc, tokens, from + 2)?;
    Ok((ExprArg::Unbound(Some(ty), pos), next))
}
