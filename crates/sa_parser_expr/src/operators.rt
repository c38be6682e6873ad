//! Expressions of operators.
//!
//! ```text
//! expr    = logical
//! logical = comp {("and" | "or") comp}
//! comp    = sum {("=" | "/=" | "<" | "<=" | ">" | ">=") sum}
//! sum     = prod {("+" | "-") prod}
//! prod    = unary {("*" | "/" | "%") unary}
//! unary   = ("-" | "~") unary | power
//! power   = post ["^" power]
//! ```
//!
//! The four productions of left-associative binary operators are alike, `operation = operand {operator operand}`, and have one
//! function; a `Precedence` says which of them it reads. The position of an operator is that of its sign or word.

ghost use Rattle.std.specs.Prelude.{◌≡◌, ◌<◌, ◌≤◌, IfErr, IfOk, IfSome, OnSome, length};
ghost use Rattle.sa_ast.specs.declared.expr.Expr.TheVariants as tree;
ghost use Rattle.sa_parser_expr.specs.Enclosures.{where_of};
ghost use Rattle.sa_parser_expr.specs.Exactly.{ReadsAs, operand_of, operation_of, operator_at, operators_of};
ghost use Rattle.sa_parser_expr.specs.ExpressionForms.{expr_form, power_form, unary_form};
ghost use Rattle.sa_parser_expr.specs.Expressions.{IsAdding, IsComparing, IsLogical, IsMultiplying, IsOperator, IsPrefix};
ghost use Rattle.sa_parser_expr.specs.Expressions.{IsExpr, IsOperand, IsOperation, IsPower, IsUnary};
ghost use Rattle.sa_parser_expr.specs.Lexemes.{IsLexemeAt, between};
ghost use Rattle.sa_parser_expr.specs.Nests.{Nests};
ghost use Rattle.sa_parser_expr.specs.Positions.{IsAfter, IsUnexpected};
ghost use Rattle.sa_parser_expr.specs.Tests.{adding_kind, comparing_kind, logical_kind, multiplying_kind, prefix_kind};

use crate::grammar::{ConditionScope, Enclosure, Form, Grammar};
use crate::tokens::Tokens;
use sa_ast::{Expr, Operator, Pos, Rejection};
use sa_lexer::{Sign, TokenKind, Word};
use sqlite_items::Boxed;
use std::alloc::{AllocError, Global};

/// The precedence of left-associative binary operators, from the weakest to the strongest.
#[derive(Clone, Copy, Debug, PartialEq, Eq)]
pub(crate) enum Precedence {
    /// `and` and `or`.
    Logical,
    /// `=`, `/=`, `<`, `<=`, `>` and `>=`.
    Comparing,
    /// `+` and `-`.
    Adding,
    /// `*`, `/` and `%`.
    Multiplying,
}

/// The application of a binary operator, with this position.
fn binary(
    alloc: Global,
    op: Operator,
    left: Expr,
    right: Expr,
    pos: Pos,
) -> Result<Expr, AllocError>
    ensures { IfOk result (λ e. e ≡ tree.Binary op left right pos) }
{
    let left = Boxed::new(alloc, left)?;
    let right = Boxed::new(alloc, right)?;
    Ok(Expr::Binary(op, left, right, pos))
}

/// The operator of this precedence that is there, if there is one.
fn operator(precedence: Precedence, tokens: &Tokens<'_>, at: u32) -> Option<Operator>
    ensures within { OnSome result (at < length tokens.now.list.now) }
    ensures spelled { IfSome result (λ op. IsLexemeAt (IsOperator precedence op) tokens.now at) }
    ensures exact { result ≡ operator_at (operators_of precedence) tokens.now at }
{
    match precedence {
        Precedence::Logical => logical(tokens, at),
        Precedence::Comparing => comparing(tokens, at),
        Precedence::Adding => adding(tokens, at),
        Precedence::Multiplying => multiplying(tokens, at),
    }
}

/// `"and" | "or"`
fn logical(tokens: &Tokens<'_>, at: u32) -> Option<Operator>
    ensures within { OnSome result (at < length tokens.now.list.now) }
    ensures spelled { IfSome result (λ op. IsLexemeAt (IsLogical op) tokens.now at) }
    ensures exact { result ≡ operator_at logical_kind tokens.now at }
{
    match tokens.kind(at) {
        Some(TokenKind::Word(Word::And)) => Some(Operator::And),
        Some(TokenKind::Word(Word::Or)) => Some(Operator::Or),
        _ => None,
    }
}

/// `"=" | "/=" | "<" | "<=" | ">" | ">="`
fn comparing(tokens: &Tokens<'_>, at: u32) -> Option<Operator>
    ensures within { OnSome result (at < length tokens.now.list.now) }
    ensures spelled { IfSome result (λ op. IsLexemeAt (IsComparing op) tokens.now at) }
    ensures exact { result ≡ operator_at comparing_kind tokens.now at }
{
    match tokens.kind(at) {
        Some(TokenKind::Sign(Sign::Equal)) => Some(Operator::Eq),
        Some(TokenKind::Sign(Sign::NotEqual)) => Some(Operator::Neq),
        Some(TokenKind::Sign(Sign::Less)) => Some(Operator::Lt),
        Some(TokenKind::Sign(Sign::LessEqual)) => Some(Operator::Leq),
        Some(TokenKind::Sign(Sign::Greater)) => Some(Operator::Gt),
        Some(TokenKind::Sign(Sign::GreaterEqual)) => Some(Operator::Geq),
        _ => None,
    }
}

/// `"+" | "-"`
fn adding(tokens: &Tokens<'_>, at: u32) -> Option<Operator>
    ensures within { OnSome result (at < length tokens.now.list.now) }
    ensures spelled { IfSome result (λ op. IsLexemeAt (IsAdding op) tokens.now at) }
    ensures exact { result ≡ operator_at adding_kind tokens.now at }
{
    match tokens.kind(at) {
        Some(TokenKind::Sign(Sign::Plus)) => Some(Operator::Plus),
        Some(TokenKind::Sign(Sign::Minus)) => Some(Operator::Minus),
        _ => None,
    }
}

/// `"*" | "/" | "%"`
fn multiplying(tokens: &Tokens<'_>, at: u32) -> Option<Operator>
    ensures within { OnSome result (at < length tokens.now.list.now) }
    ensures spelled { IfSome result (λ op. IsLexemeAt (IsMultiplying op) tokens.now at) }
    ensures exact { result ≡ operator_at multiplying_kind tokens.now at }
{
    match tokens.kind(at) {
        Some(TokenKind::Sign(Sign::Star)) => Some(Operator::Times),
        Some(TokenKind::Sign(Sign::Slash)) => Some(Operator::Div),
        Some(TokenKind::Sign(Sign::Percent)) => Some(Operator::Mod),
        _ => None,
    }
}

/// `"-" | "~"`
fn prefix(tokens: &Tokens<'_>, at: u32) -> Option<Operator>
    ensures within { OnSome result (at < length tokens.now.list.now) }
    ensures spelled { IfSome result (λ op. IsLexemeAt (IsPrefix op) tokens.now at) }
    ensures exact { result ≡ operator_at prefix_kind tokens.now at }
{
    match tokens.kind(at) {
        Some(TokenKind::Sign(Sign::Minus)) => Some(Operator::Negate),
        Some(TokenKind::Sign(Sign::Tilde)) => Some(Operator::Not),
        _ => None,
    }
}

impl<
    F: Fn(Global, &Tokens<'_>, ConditionScope, Form, u32) -> Result<(Expr, u32), Rejection>,
> Grammar<'_, F> {
    /// `logical`
    pub(crate) fn expr(&self, around: Enclosure, from: u32) -> Result<(Expr, u32), Rejection>
        requires nested { Nests self.now.from (F.pre self.now.nested) (F.post self.now.nested) }
        requires from { self.now.from ≤ from }
        ensures next { IfOk result (λ read. IsAfter self.now.tokens.list.now from read.1) }
        ensures spelled { IfOk result (λ read. IsExpr self.now.scope around (between self.now.tokens from read.1) read.0) }
        ensures refused { IfErr result (IsUnexpected self.now.tokens.file) }
        ensures exact { ReadsAs (expr_form self.now.scope (where_of around)) self.now.tokens from result }
    {
        self.operation(Precedence::Logical, around, from)
    }

    /// `operand {operator operand}`
    #[cycle(operation)]
    fn operation(
        &self,
        precedence: Precedence,
        around: Enclosure,
        from: u32,
    ) -> Result<(Expr, u32), Rejection>
        requires nested { Nests self.now.from (F.pre self.now.nested) (F.post self.now.nested) }
        requires from { self.now.from ≤ from }
        ensures next { IfOk result (λ read. IsAfter self.now.tokens.list.now from read.1) }
        ensures spelled { IfOk result (λ read. IsOperation self.now.scope precedence around (between self.now.tokens from read.1) read.0) }
        ensures refused { IfErr result (IsUnexpected self.now.tokens.file) }
        ensures exact { ReadsAs (operation_of precedence self.now.scope (where_of around)) self.now.tokens from result }
    {
        let (mut left, mut next) = self.operand(precedence, around, from)?;
        'more: while let Some(op) = operator(precedence, &self.tokens, next) {
            let (right, end) = self.operand(precedence, around, next + 1)?;
            left = binary(self.alloc, op, left, right, self.tokens.pos(next))?;
            next = end;
        }
        Ok((left, next))
    }

    /// An operand of operators of this precedence: an operation of the next stronger ones, or a unary.
    #[cycle(operation)]
    fn operand(
        &self,
        precedence: Precedence,
        around: Enclosure,
        from: u32,
    ) -> Result<(Expr, u32), Rejection>
        requires nested { Nests self.now.from (F.pre self.now.nested) (F.post self.now.nested) }
        requires from { self.now.from ≤ from }
        ensures next { IfOk result (λ read. IsAfter self.now.tokens.list.now from read.1) }
        ensures spelled { IfOk result (λ read. IsOperand self.now.scope precedence around (between self.now.tokens from read.1) read.0) }
        ensures refused { IfErr result (IsUnexpected self.now.tokens.file) }
        ensures exact { ReadsAs (operand_of precedence self.now.scope (where_of around)) self.now.tokens from result }
    {
        match precedence {
            Precedence::Logical => self.operation(Precedence::Comparing, around, from),
            Precedence::Comparing => self.operation(Precedence::Adding, around, from),
            Precedence::Adding => self.operation(Precedence::Multiplying, around, from),
            Precedence::Multiplying => self.unary(around, from),
        }
    }

    /// `("-" | "~") unary | power`
    fn unary(&self, around: Enclosure, from: u32) -> Result<(Expr, u32), Rejection>
        requires nested { Nests self.now.from (F.pre self.now.nested) (F.post self.now.nested) }
        requires from { self.now.from ≤ from }
        ensures next { IfOk result (λ read. IsAfter self.now.tokens.list.now from read.1) }
        ensures spelled { IfOk result (λ read. IsUnary self.now.scope around (between self.now.tokens from read.1) read.0) }
        ensures refused { IfErr result (IsUnexpected self.now.tokens.file) }
        ensures exact { ReadsAs (unary_form self.now.scope (where_of around)) self.now.tokens from result }
    {
        let Some(op) = prefix(&self.tokens, from) else {
            return self.power(around, from);
        };
        let (of, next) = self.unary(around, from + 1)?;
        let of = Boxed::new(self.alloc, of)?;
        Ok((Expr::Unary(op, of, self.tokens.pos(from)), next))
    }

    /// `post ["^" power]`
    fn power(&self, around: Enclosure, from: u32) -> Result<(Expr, u32), Rejection>
        requires nested { Nests self.now.from (F.pre self.now.nested) (F.post self.now.nested) }
        requires from { self.now.from ≤ from }
        ensures next { IfOk result (λ read. IsAfter self.now.tokens.list.now from read.1) }
        ensures spelled { IfOk result (λ read. IsPower self.now.scope around (between self.now.tokens from read.1) read.0) }
        ensures refused { IfErr result (IsUnexpected self.now.tokens.file) }
        ensures exact { ReadsAs (power_form self.now.scope (where_of around)) self.now.tokens from result }
    {
        let (base, next) = self.post(around, from)?;
        if !self.tokens.is_sign(next, Sign::Caret) {
            return Ok((base, next));
        }
        let (exponent, end) = self.power(around, next + 1)?;
        let raised = binary(
            self.alloc,
            Operator::Pow,
            base,
            exponent,
            self.tokens.pos(next),
        )?;
        Ok((raised, end))
    }
}
