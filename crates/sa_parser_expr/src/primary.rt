//! What an expression can begin with: one function for each alternative.
//!
//! ```text
//! first = number | char | text {text} | "true" | "false" | "self" | "exception" | "(" expr ")"
//!       | "void" ["(" expr ")"] | "new" ["(" expr ")"] | F [args] | type "::" F [args]
//!       | "#" [type] [args] | "|" exprs "|" | "bind" "(" post ")" | "[" exprs "]"
//!       | "result" | "initial" "(" expr ")"         in a `post` alone, and not inside an `initial`
//! ```
//!
//! `result` and `initial(e)` are calls of these names.
//! The position of a call is that of its name, and the position of every other form is that of its first token. Parentheses leave no
//! trace in the AST.

ghost use Rattle.std.specs.Prelude.{◌≡◌, ◌<◌, ◌≤◌, IfErr, IfOk, Some, length};
ghost use Rattle.sa_lexer.specs.declared.sign.Sign.TheVariants as sign;
ghost use Rattle.sa_lexer.specs.declared.token.TokenKind.TheVariants as token;
ghost use Rattle.sa_lexer.specs.declared.word.Word.TheVariants as word;
ghost use Rattle.sa_parser_expr.specs.Enclosures.{outside, where_of};
ghost use Rattle.sa_parser_expr.specs.Exactly.{ReadsAs, Takes};
ghost use Rattle.sa_parser_expr.specs.ExpressionForms.{class_call_form, first_form, optional_type_form, parenthesised_form, texts_form};
ghost use Rattle.sa_parser_expr.specs.Expressions.{ContinuesTexts, IsFirst, IsOptionalType, IsParenthesised};
ghost use Rattle.sa_parser_expr.specs.Lexemes.{between};
ghost use Rattle.sa_parser_expr.specs.Nests.{Nests};
ghost use Rattle.sa_parser_expr.specs.Positions.{IsAfter, IsFrom, IsUnexpected, kind_at};
ghost use Rattle.sa_parser_expr.specs.declared.grammar.Enclosure.TheVariants.{Open};
ghost use Rattle.sa_parser_expr.specs.declared.grammar.Enclosure.{Enclosure};
ghost use Rattle.sa_parser_expr.specs.declared.grammar.ConditionScope.TheVariants.{PostClause};

use crate::grammar::{ConditionScope, Enclosure, Form, Grammar};
use crate::starts::begins_type;
use crate::tokens::Tokens;
use crate::types::read_type;
use sa_ast::{Expr, ExprArg, ExprReceiver, Mode, Name, Rejection, Ty};
use sa_lexer::{Sign, TokenKind, Word};
use sqlite_items::{Boxed, Items};
use std::alloc::{AllocError, Global};

impl<
    F: Fn(Global, &Tokens<'_>, ConditionScope, Form, u32) -> Result<(Expr, u32), Rejection>,
> Grammar<'_, F> {
    /// A form that is no operator, call on an expression or index of one.
    pub(crate) fn first(&self, around: Enclosure, from: u32) -> Result<(Expr, u32), Rejection>
        requires nested { Nests self.now.from (F.pre self.now.nested) (F.post self.now.nested) }
        requires from { self.now.from ≤ from }
        ensures next { IfOk result (λ read. IsAfter self.now.tokens.list.now from read.1) }
        ensures spelled { IfOk result (λ read. IsFirst self.now.scope around (between self.now.tokens from read.1) read.0) }
        ensures refused { IfErr result (IsUnexpected self.now.tokens.file) }
        ensures exact { ReadsAs (first_form self.now.scope (where_of around)) self.now.tokens from result }
    {
        let pos = self.tokens.pos(from);
        match self.tokens.kind(from) {
            Some(TokenKind::Int(value)) => Ok((Expr::Int(*value, pos), from + 1)),
            Some(TokenKind::Char(byte)) => Ok((Expr::Char(*byte, pos), from + 1)),
            Some(TokenKind::Text(text)) => {
                let (text, next) = texts(self.alloc, &self.tokens, text, from + 1)?;
                Ok((Expr::Text(text, pos), next))
            }
            Some(TokenKind::Lower | TokenKind::IterName) => self.call(ExprReceiver::Implied, from),
            Some(TokenKind::ClassName | TokenKind::AbstractName) => self.class_call(from),
            Some(TokenKind::Word(word)) => self.first_word(*word, from),
            Some(TokenKind::Sign(sign)) => self.first_sign(around, *sign, from),
            None => Err(self.tokens.unexpected(from)),
        }
    }

    /// A first that begins with this word.
    fn first_word(&self, word: Word, from: u32) -> Result<(Expr, u32), Rejection>
        requires nested { Nests self.now.from (F.pre self.now.nested) (F.post self.now.nested) }
        requires from { self.now.from ≤ from }
        requires within { from < length self.now.tokens.list.now }
        requires there { kind_at self.now.tokens.list.now from ≡ Some (token.Word word) }
        ensures next { IfOk result (λ read. IsAfter self.now.tokens.list.now from read.1) }
        ensures spelled { (around : Enclosure)
            → IfOk result (λ read. IsFirst self.now.scope around (between self.now.tokens from read.1) read.0) }
        ensures refused { IfErr result (IsUnexpected self.now.tokens.file) }
        ensures exact { (around : Enclosure) → ReadsAs (first_form self.now.scope (where_of around)) self.now.tokens from result }
    {
        let pos = self.tokens.pos(from);
        match word {
            Word::True => Ok((Expr::Bool(true, pos), from + 1)),
            Word::False => Ok((Expr::Bool(false, pos), from + 1)),
            Word::SelfWord => Ok((Expr::SelfRef(pos), from + 1)),
            Word::Exception => Ok((Expr::Exception(pos), from + 1)),
            Word::Void => self.void(from),
            Word::New => self.new(from),
            Word::Bind => self.bind(from),
            Word::Same | Word::Rout | Word::Iter => self.class_call(from),
            Word::Result if self.scope == ConditionScope::PostClause => self.result_word(from),
            Word::Initial if self.scope == ConditionScope::PostClause => self.initial(from),
            _ => Err(self.tokens.unexpected(from)),
        }
    }

    /// A first that begins with this sign.
    fn first_sign(&self, around: Enclosure, sign: Sign, from: u32) -> Result<(Expr, u32), Rejection>
        requires nested { Nests self.now.from (F.pre self.now.nested) (F.post self.now.nested) }
        requires from { self.now.from ≤ from }
        requires within { from < length self.now.tokens.list.now }
        requires there { kind_at self.now.tokens.list.now from ≡ Some (token.Sign sign) }
        ensures next { IfOk result (λ read. IsAfter self.now.tokens.list.now from read.1) }
        ensures spelled { IfOk result (λ read. IsFirst self.now.scope around (between self.now.tokens from read.1) read.0) }
        ensures refused { IfErr result (IsUnexpected self.now.tokens.file) }
        ensures exact { ReadsAs (first_form self.now.scope (where_of around)) self.now.tokens from result }
    {
        match sign {
            Sign::LeftParen => self.parenthesised(self.scope, from),
            Sign::Hash => self.create(from),
            Sign::LeftBracket => {
                let (places, next) = self.index(from)?;
                Ok((Expr::Index(None, places, self.tokens.pos(from)), next))
            }
            Sign::Bar if around == Enclosure::Open => self.items(from),
            _ => Err(self.tokens.unexpected(from)),
        }
    }

    /// `"(" expr ")"`, with an expression of this scope.
    fn parenthesised(&self, scope: ConditionScope, from: u32) -> Result<(Expr, u32), Rejection>
        requires nested { Nests self.now.from (F.pre self.now.nested) (F.post self.now.nested) }
        requires from { self.now.from ≤ from }
        ensures next { IfOk result (λ read. IsAfter self.now.tokens.list.now from read.1) }
        ensures spelled { IfOk result (λ read. IsParenthesised scope (between self.now.tokens from read.1) read.0) }
        ensures refused { IfErr result (IsUnexpected self.now.tokens.file) }
        ensures exact { ReadsAs (parenthesised_form scope) self.now.tokens from result }
    {
        let next = self.tokens.after_sign(from, Sign::LeftParen)?;
        let (inner, next) = self.inner(scope, Form::Expr(Enclosure::Open), next)?;
        Ok((inner, self.tokens.after_sign(next, Sign::RightParen)?))
    }

    /// `"void" ["(" expr ")"]`
    fn void(&self, from: u32) -> Result<(Expr, u32), Rejection>
        requires nested { Nests self.now.from (F.pre self.now.nested) (F.post self.now.nested) }
        requires from { self.now.from ≤ from }
        requires within { from < length self.now.tokens.list.now }
        requires there { kind_at self.now.tokens.list.now from ≡ Some (token.Word word.Void) }
        ensures next { IfOk result (λ read. IsAfter self.now.tokens.list.now from read.1) }
        ensures spelled { (around : Enclosure)
            → IfOk result (λ read. IsFirst self.now.scope around (between self.now.tokens from read.1) read.0) }
        ensures refused { IfErr result (IsUnexpected self.now.tokens.file) }
        ensures exact { (around : Enclosure) → ReadsAs (first_form self.now.scope (where_of around)) self.now.tokens from result }
    {
        let pos = self.tokens.pos(from);
        if !self.tokens.is_sign(from + 1, Sign::LeftParen) {
            return Ok((Expr::Void(pos), from + 1));
        }
        let (of, next) = self.parenthesised(self.scope, from + 1)?;
        Ok((Expr::IsVoid(Boxed::new(self.alloc, of)?, pos), next))
    }

    /// `"new" ["(" expr ")"]`
    fn new(&self, from: u32) -> Result<(Expr, u32), Rejection>
        requires nested { Nests self.now.from (F.pre self.now.nested) (F.post self.now.nested) }
        requires from { self.now.from ≤ from }
        requires within { from < length self.now.tokens.list.now }
        requires there { kind_at self.now.tokens.list.now from ≡ Some (token.Word word.New) }
        ensures next { IfOk result (λ read. IsAfter self.now.tokens.list.now from read.1) }
        ensures spelled { (around : Enclosure)
            → IfOk result (λ read. IsFirst self.now.scope around (between self.now.tokens from read.1) read.0) }
        ensures refused { IfErr result (IsUnexpected self.now.tokens.file) }
        ensures exact { (around : Enclosure) → ReadsAs (first_form self.now.scope (where_of around)) self.now.tokens from result }
    {
        let pos = self.tokens.pos(from);
        if !self.tokens.is_sign(from + 1, Sign::LeftParen) {
            return Ok((Expr::New(None, pos), from + 1));
        }
        let (count, next) = self.parenthesised(self.scope, from + 1)?;
        Ok((Expr::New(Some(Boxed::new(self.alloc, count)?), pos), next))
    }

    /// `type "::" F [args]`
    fn class_call(&self, from: u32) -> Result<(Expr, u32), Rejection>
        requires nested { Nests self.now.from (F.pre self.now.nested) (F.post self.now.nested) }
        requires from { self.now.from ≤ from }
        ensures next { IfOk result (λ read. IsAfter self.now.tokens.list.now from read.1) }
        ensures spelled { (around : Enclosure)
            → IfOk result (λ read. IsFirst self.now.scope around (between self.now.tokens from read.1) read.0) }
        ensures refused { IfErr result (IsUnexpected self.now.tokens.file) }
        ensures exact { ReadsAs (class_call_form self.now.scope) self.now.tokens from result }
    {
        let (class, next) = read_type(self.alloc, &self.tokens, from)?;
        let next = self.tokens.after_sign(next, Sign::DoubleColon)?;
        self.call(ExprReceiver::OfClass(class), next)
    }

    /// `"#" [type] [args]`
    fn create(&self, from: u32) -> Result<(Expr, u32), Rejection>
        requires nested { Nests self.now.from (F.pre self.now.nested) (F.post self.now.nested) }
        requires from { self.now.from ≤ from }
        requires within { from < length self.now.tokens.list.now }
        requires there { kind_at self.now.tokens.list.now from ≡ Some (token.Sign sign.Hash) }
        ensures next { IfOk result (λ read. IsAfter self.now.tokens.list.now from read.1) }
        ensures spelled { (around : Enclosure)
            → IfOk result (λ read. IsFirst self.now.scope around (between self.now.tokens from read.1) read.0) }
        ensures refused { IfErr result (IsUnexpected self.now.tokens.file) }
        ensures exact { (around : Enclosure) → ReadsAs (first_form self.now.scope (where_of around)) self.now.tokens from result }
    {
        let (class, next) = optional_type(self.alloc, &self.tokens, from + 1)?;
        let (given, next) = self.args(next)?;
        Ok((Expr::Create(class, given, self.tokens.pos(from)), next))
    }

    /// `"|" exprs "|"`
    fn items(&self, from: u32) -> Result<(Expr, u32), Rejection>
        requires nested { Nests self.now.from (F.pre self.now.nested) (F.post self.now.nested) }
        requires from { self.now.from ≤ from }
        requires within { from < length self.now.tokens.list.now }
        requires there { kind_at self.now.tokens.list.now from ≡ Some (token.Sign sign.Bar) }
        ensures next { IfOk result (λ read. IsAfter self.now.tokens.list.now from read.1) }
        ensures spelled { IfOk result (λ read. IsFirst self.now.scope Open (between self.now.tokens from read.1) read.0) }
        ensures refused { IfErr result (IsUnexpected self.now.tokens.file) }
        ensures exact { ReadsAs (first_form self.now.scope outside) self.now.tokens from result }
    {
        let (items, next) = self.exprs(Enclosure::Items, from + 1)?;
        let next = self.tokens.after_sign(next, Sign::Bar)?;
        Ok((Expr::Items(items, self.tokens.pos(from)), next))
    }

    /// `"bind" "(" post ")"`
    fn bind(&self, from: u32) -> Result<(Expr, u32), Rejection>
        requires nested { Nests self.now.from (F.pre self.now.nested) (F.post self.now.nested) }
        requires from { self.now.from ≤ from }
        requires within { from < length self.now.tokens.list.now }
        requires there { kind_at self.now.tokens.list.now from ≡ Some (token.Word word.Bind) }
        ensures next { IfOk result (λ read. IsAfter self.now.tokens.list.now from read.1) }
        ensures spelled { (around : Enclosure)
            → IfOk result (λ read. IsFirst self.now.scope around (between self.now.tokens from read.1) read.0) }
        ensures refused { IfErr result (IsUnexpected self.now.tokens.file) }
        ensures exact { (around : Enclosure) → ReadsAs (first_form self.now.scope (where_of around)) self.now.tokens from result }
    {
        let next = self.tokens.after_sign(from + 1, Sign::LeftParen)?;
        let (head, next) = self.inner(self.scope, Form::Post, next)?;
        let next = self.tokens.after_sign(next, Sign::RightParen)?;
        let head = Boxed::new(self.alloc, head)?;
        Ok((Expr::Bind(head, self.tokens.pos(from)), next))
    }

    /// `"result"`
    fn result_word(&self, from: u32) -> Result<(Expr, u32), Rejection>
        requires within { from < length self.now.tokens.list.now }
        requires there { kind_at self.now.tokens.list.now from ≡ Some (token.Word word.Result) }
        requires scope { self.now.scope ≡ PostClause }
        ensures next { IfOk result (λ read. IsAfter self.now.tokens.list.now from read.1) }
        ensures spelled { (around : Enclosure)
            → IfOk result (λ read. IsFirst self.now.scope around (between self.now.tokens from read.1) read.0) }
        ensures refused { IfErr result (IsUnexpected self.now.tokens.file) }
        ensures exact { (around : Enclosure) → ReadsAs (first_form self.now.scope (where_of around)) self.now.tokens from result }
    {
        let name = self.tokens.name(self.alloc, from)?;
        let given = Items::new(self.alloc);
        let pos = self.tokens.pos(from);
        Ok((
            Expr::Call(ExprReceiver::Implied, name, given, pos),
            from + 1,
        ))
    }

    /// `"initial" "(" expr ")"`
    fn initial(&self, from: u32) -> Result<(Expr, u32), Rejection>
        requires nested { Nests self.now.from (F.pre self.now.nested) (F.post self.now.nested) }
        requires from { self.now.from ≤ from }
        requires within { from < length self.now.tokens.list.now }
        requires there { kind_at self.now.tokens.list.now from ≡ Some (token.Word word.Initial) }
        requires scope { self.now.scope ≡ PostClause }
        ensures next { IfOk result (λ read. IsAfter self.now.tokens.list.now from read.1) }
        ensures spelled { (around : Enclosure)
            → IfOk result (λ read. IsFirst self.now.scope around (between self.now.tokens from read.1) read.0) }
        ensures refused { IfErr result (IsUnexpected self.now.tokens.file) }
        ensures exact { (around : Enclosure) → ReadsAs (first_form self.now.scope (where_of around)) self.now.tokens from result }
    {
        let (old, next) = self.parenthesised(ConditionScope::Plain, from + 1)?;
        let mut given = Items::new(self.alloc);
        given.push(ExprArg::Value(Mode::In, old))?;
        let name = self.tokens.name(self.alloc, from)?;
        let pos = self.tokens.pos(from);
        Ok((Expr::Call(ExprReceiver::Implied, name, given, pos), next))
    }
}

/// `[type]`
fn optional_type(
    alloc: Global,
    tokens: &Tokens<'_>,
    from: u32,
) -> Result<(Option<Ty>, u32), Rejection>
    requires { from ≤ length tokens.now.list.now }
    ensures next { IfOk result (λ read. IsFrom tokens.now.list.now from read.1) }
    ensures spelled { IfOk result (λ read. IsOptionalType (between tokens.now from read.1) read.0) }
    ensures refused { IfErr result (IsUnexpected tokens.now.file) }
    ensures exact { ReadsAs optional_type_form tokens.now from result }
{
    if !begins_type(tokens.kind(from)) {
        return Ok((None, from));
    }
    let (ty, next) = read_type(alloc, tokens, from)?;
    Ok((Some(ty), next))
}

/// `{text}` after a first text: one text of the bytes of all.
fn texts(
    alloc: Global,
    tokens: &Tokens<'_>,
    first: &Name,
    from: u32,
) -> Result<(Name, u32), AllocError>
    requires { from ≤ length tokens.now.list.now }
    ensures next { IfOk result (λ read. IsFrom tokens.now.list.now from read.1) }
    ensures spelled { IfOk result (λ read. ContinuesTexts first.now (between tokens.now from read.1) read.0) }
    ensures exact { IfOk result (λ read. Takes (texts_form first.now) tokens.now from read.0 read.1) }
{
    let mut bytes = Vec::from_slice(alloc, first.as_slice())?;
    let mut next = from;
    'more: while let Some(TokenKind::Text(text)) = tokens.kind(next) {
        bytes.extend_from_slice(text.as_slice())?;
        next += 1;
    }
    Ok((Name::from_slice(alloc, bytes.as_slice())?, next))
}
