//! Lists of statements, and the statements that contain no others: one function for each production of their grammar.
//!
//! ```text
//! stmts   = [stmt] {";" [stmt]}
//! stmt    = if | loop | case | typecase | protect | leave | simple
//! simple  = declare | assign
//! declare = LNAME {"," LNAME} ":" type [":=" expr] | LNAME "::=" expr
//! assign  = expr [":=" expr]
//! leave   = "return" [expr] | "yield" [expr] | "quit" | "raise" expr | "assert" expr
//! ```
//!
//! The position of an assignment is that of its `:=`, and the position of a declaration that of its first name. What may be assigned
//! isn't decided here.

ghost use Rattle.std.specs.Prelude.{◌≡◌, ◌<◌, ◌≤◌, ◌++◌, IfErr, IfOk, OnOk, length, option_to_list};
ghost use Rattle.sa_parser.specs.Bodies.{NestsBodies};
ghost use Rattle.sa_parser.specs.Statements.{IsAssigned, IsLeave, IsOptionalExpr, IsOptionalStmt, IsSimple, IsStmt, IsStmts};
ghost use Rattle.sa_parser_expr.specs.Exactly.{ReadsAs, map_value};
ghost use Rattle.sa_parser_expr.specs.Forms.{follow, nest, refuse, stmts};
ghost use Rattle.sa_parser_expr.specs.Lexemes.{between};
ghost use Rattle.sa_parser_expr.specs.Positions.{IsAfter, IsFrom, IsUnexpected};
ghost use Rattle.sa_parser_expr.specs.StatementForms.{assign_form, assigned_form, declare_by_value_form, declare_form, leave_or};
ghost use Rattle.sa_parser_expr.specs.StatementForms.{optional_stmt_form, optional_value_form, simple_form, stmt_form, value_form};

use crate::body::Stmts;
use crate::names::{lower_name, lower_names};
use crate::starts::begins_statement;
use sa_ast::{Expr, Rejection, Stmt};
use sa_lexer::{Sign, TokenKind, Word};
use sa_parser_expr::{Tokens, begins_expression, read_expr, read_type};
use sqlite_items::Items;
use std::alloc::{AllocError, Global};

impl<F: Fn(Global, &Tokens<'_>, Word, u32) -> Result<(Items<Stmt>, u32), Rejection>> Stmts<'_, F> {
    /// `[stmt] {";" [stmt]}`
    pub(crate) fn stmts(&self, from: u32) -> Result<(Items<Stmt>, u32), Rejection>
        requires nested { NestsBodies self.now.from (F.pre self.now.nested) (F.post self.now.nested) }
        requires from { self.now.from < from }
        requires within { from ≤ length self.now.tokens.list.now }
        ensures next { IfOk result (λ read. IsFrom self.now.tokens.list.now from read.1) }
        ensures spelled { IfOk result (λ read. IsStmts (between self.now.tokens from read.1) read.0) }
        ensures refused { IfErr result (IsUnexpected self.now.tokens.file) }
        ensures exact { ReadsAs (nest stmts) self.now.tokens from result }
    {
        let (first, mut next) = self.optional_stmt(from)?;
        let mut list = Vec::new(self.alloc);
        push_some(&mut list, first)?;
        'more: while self.tokens.is_sign(next, Sign::Semicolon) {
            let (one, end) = self.optional_stmt(next + 1)?;
            push_some(&mut list, one)?;
            next = end;
        }
        list.shrink_to_fit();
        Ok((Items::from_vec(list), next))
    }

    /// `[stmt]`
    fn optional_stmt(&self, from: u32) -> Result<(Option<Stmt>, u32), Rejection>
        requires nested { NestsBodies self.now.from (F.pre self.now.nested) (F.post self.now.nested) }
        requires from { self.now.from < from }
        requires within { from ≤ length self.now.tokens.list.now }
        ensures next { IfOk result (λ read. IsFrom self.now.tokens.list.now from read.1) }
        ensures spelled { IfOk result (λ read. IsOptionalStmt (between self.now.tokens from read.1) (option_to_list read.0)) }
        ensures refused { IfErr result (IsUnexpected self.now.tokens.file) }
        ensures exact { ReadsAs optional_stmt_form self.now.tokens from (map_value option_to_list result) }
    {
        if !begins_statement(self.tokens.kind(from)) {
            return Ok((None, from));
        }
        let (stmt, next) = self.stmt(from)?;
        Ok((Some(stmt), next))
    }

    /// `if | loop | case | typecase | protect | leave | simple`
    fn stmt(&self, from: u32) -> Result<(Stmt, u32), Rejection>
        requires nested { NestsBodies self.now.from (F.pre self.now.nested) (F.post self.now.nested) }
        requires from { self.now.from < from }
        ensures next { IfOk result (λ read. IsAfter self.now.tokens.list.now from read.1) }
        ensures spelled { IfOk result (λ read. IsStmt (between self.now.tokens from read.1) read.0) }
        ensures refused { IfErr result (IsUnexpected self.now.tokens.file) }
        ensures exact { ReadsAs stmt_form self.now.tokens from result }
    {
        match self.tokens.kind(from) {
            Some(TokenKind::Word(Word::If)) => self.if_block(from),
            Some(TokenKind::Word(Word::Loop)) => self.loop_block(from),
            Some(TokenKind::Word(Word::Case)) => self.case_block(from),
            Some(TokenKind::Word(Word::Typecase)) => self.typecase_block(from),
            Some(TokenKind::Word(Word::Protect)) => self.protect_block(from),
            Some(
                TokenKind::Word(
                    Word::Return | Word::Yield | Word::Quit | Word::Raise | Word::Assert,
                ),
            ) => leave(self.alloc, &self.tokens, from),
            _ => simple(self.alloc, &self.tokens, from),
        }
    }
}

/// Adds a statement after these, if there is one.
fn push_some(list: &mut Vec<Stmt>, stmt: Option<Stmt>) -> Result<(), AllocError>
    ensures { OnOk result (list.new.items ≡ list.old.items ++ option_to_list stmt) }
{
    match stmt {
        Some(stmt) => {
            list.push(stmt)?;
            Ok(())
        }
        None => Ok(()),
    }
}

/// `declare | assign`. Where a lower name comes first, the token after it decides.
fn simple(alloc: Global, tokens: &Tokens<'_>, from: u32) -> Result<(Stmt, u32), Rejection>
    ensures next { IfOk result (λ read. IsAfter tokens.now.list.now from read.1) }
    ensures spelled { IfOk result (λ read. IsSimple (between tokens.now from read.1) read.0) }
    ensures refused { IfErr result (IsUnexpected tokens.now.file) }
    ensures exact { ReadsAs simple_form tokens.now from result }
{
    if !tokens.is_lower(from) {
        return assign(alloc, tokens, from);
    }
    match tokens.kind(from + 1) {
        Some(TokenKind::Sign(Sign::Comma | Sign::Colon)) => declare(alloc, tokens, from),
        Some(TokenKind::Sign(Sign::Declare)) => declare_by_value(alloc, tokens, from),
        _ => assign(alloc, tokens, from),
    }
}

/// `LNAME {"," LNAME} ":" type [":=" expr]`
fn declare(alloc: Global, tokens: &Tokens<'_>, from: u32) -> Result<(Stmt, u32), Rejection>
    ensures next { IfOk result (λ read. IsAfter tokens.now.list.now from read.1) }
    ensures spelled { IfOk result (λ read. IsSimple (between tokens.now from read.1) read.0) }
    ensures refused { IfErr result (IsUnexpected tokens.now.file) }
    ensures exact { ReadsAs declare_form tokens.now from result }
{
    let (names, next) = lower_names(alloc, tokens, from)?;
    let next = tokens.after_sign(next, Sign::Colon)?;
    let (ty, next) = read_type(alloc, tokens, next)?;
    let (value, next) = assigned(alloc, tokens, next)?;
    let locals = Items::from_vec(names);
    Ok((Stmt::Declare(locals, Some(ty), value), next))
}

/// `[":=" expr]`
pub(crate) fn assigned(
    alloc: Global,
    tokens: &Tokens<'_>,
    from: u32,
) -> Result<(Option<Expr>, u32), Rejection>
    requires { from ≤ length tokens.now.list.now }
    ensures next { IfOk result (λ read. IsFrom tokens.now.list.now from read.1) }
    ensures spelled { IfOk result (λ read. IsAssigned (between tokens.now from read.1) read.0) }
    ensures refused { IfErr result (IsUnexpected tokens.now.file) }
    ensures exact { ReadsAs assigned_form tokens.now from result }
{
    if !tokens.is_sign(from, Sign::Assign) {
        return Ok((None, from));
    }
    let (value, next) = read_expr(alloc, tokens, from + 1)?;
    Ok((Some(value), next))
}

/// `LNAME "::=" expr`
fn declare_by_value(alloc: Global, tokens: &Tokens<'_>, from: u32) -> Result<(Stmt, u32), Rejection>
    ensures next { IfOk result (λ read. IsAfter tokens.now.list.now from read.1) }
    ensures spelled { IfOk result (λ read. IsSimple (between tokens.now from read.1) read.0) }
    ensures refused { IfErr result (IsUnexpected tokens.now.file) }
    ensures exact { ReadsAs declare_by_value_form tokens.now from result }
{
    let (name, next) = lower_name(alloc, tokens, from)?;
    let next = tokens.after_sign(next, Sign::Declare)?;
    let (value, next) = read_expr(alloc, tokens, next)?;
    let mut locals = Items::new(alloc);
    locals.push(name)?;
    Ok((Stmt::Declare(locals, None, Some(value)), next))
}

/// `expr [":=" expr]`
fn assign(alloc: Global, tokens: &Tokens<'_>, from: u32) -> Result<(Stmt, u32), Rejection>
    ensures next { IfOk result (λ read. IsAfter tokens.now.list.now from read.1) }
    ensures spelled { IfOk result (λ read. IsSimple (between tokens.now from read.1) read.0) }
    ensures refused { IfErr result (IsUnexpected tokens.now.file) }
    ensures exact { ReadsAs (follow value_form assign_form) tokens.now from result }
{
    let (target, next) = read_expr(alloc, tokens, from)?;
    if !tokens.is_sign(next, Sign::Assign) {
        return Ok((Stmt::ExprStmt(target), next));
    }
    let (value, end) = read_expr(alloc, tokens, next + 1)?;
    Ok((Stmt::Assign(target, value, tokens.pos(next)), end))
}

/// `"return" [expr] | "yield" [expr] | "quit" | "raise" expr | "assert" expr`
fn leave(alloc: Global, tokens: &Tokens<'_>, from: u32) -> Result<(Stmt, u32), Rejection>
    ensures next { IfOk result (λ read. IsAfter tokens.now.list.now from read.1) }
    ensures spelled { IfOk result (λ read. IsLeave (between tokens.now from read.1) read.0) }
    ensures refused { IfErr result (IsUnexpected tokens.now.file) }
    ensures exact { ReadsAs (leave_or refuse) tokens.now from result }
{
    let pos = tokens.pos(from);
    match tokens.kind(from) {
        Some(TokenKind::Word(Word::Return)) => {
            let (value, next) = optional_expr(alloc, tokens, from + 1)?;
            Ok((Stmt::Return(value, pos), next))
        }
        Some(TokenKind::Word(Word::Yield)) => {
            let (value, next) = optional_expr(alloc, tokens, from + 1)?;
            Ok((Stmt::Yield(value, pos), next))
        }
        Some(TokenKind::Word(Word::Quit)) => Ok((Stmt::Quit(pos), from + 1)),
        Some(TokenKind::Word(Word::Raise)) => {
            let (value, next) = read_expr(alloc, tokens, from + 1)?;
            Ok((Stmt::Raise(value, pos), next))
        }
        Some(TokenKind::Word(Word::Assert)) => {
            let (test, next) = read_expr(alloc, tokens, from + 1)?;
            Ok((Stmt::Assert(test, pos), next))
        }
        _ => Err(tokens.unexpected(from)),
    }
}

/// `[expr]`
fn optional_expr(
    alloc: Global,
    tokens: &Tokens<'_>,
    from: u32,
) -> Result<(Option<Expr>, u32), Rejection>
    requires { from ≤ length tokens.now.list.now }
    ensures next { IfOk result (λ read. IsFrom tokens.now.list.now from read.1) }
    ensures spelled { IfOk result (λ read. IsOptionalExpr (between tokens.now from read.1) read.0) }
    ensures refused { IfErr result (IsUnexpected tokens.now.file) }
    ensures exact { ReadsAs optional_value_form tokens.now from result }
{
    if !begins_expression(tokens.kind(from)) {
        return Ok((None, from));
    }
    let (value, next) = read_expr(alloc, tokens, from)?;
    Ok((Some(value), next))
}
