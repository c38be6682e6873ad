//! The grammar of expressions, cut where expressions nest: the functions of its productions take what reads a nested
//! expression as a parameter, so that each is proved by itself.

ghost use Rattle.std.specs.Prelude.{◌<◌, IfErr, IfOk};
ghost use Rattle.sa_parser_expr.specs.Exactly.{ReadsAs, nested_form};
ghost use Rattle.sa_parser_expr.specs.Expressions.{IsForm};
ghost use Rattle.sa_parser_expr.specs.Lexemes.{between};
ghost use Rattle.sa_parser_expr.specs.Nests.{Nests};
ghost use Rattle.sa_parser_expr.specs.Positions.{IsAfter, IsUnexpected};

use crate::tokens::Tokens;
use sa_ast::{Expr, Rejection};
use std::alloc::Global;

/// Whether `result` and `initial` are allowed in an expression.
#[derive(Clone, Copy, Debug, PartialEq, Eq)]
pub enum ConditionScope {
    /// They aren't: in statements, in a `pre`, in an invariant and inside an `initial`.
    Plain,
    /// They are: in a `post`.
    PostClause,
}

/// What directly encloses an expression.
#[derive(Clone, Copy, Debug, PartialEq, Eq)]
pub(crate) enum Enclosure {
    /// Nothing, or an open `(` or `[`: a `|` begins an array literal.
    Open,
    /// An array literal in which no `(`, `[` or `{` is open: a `|` ends it, and can't begin another one.
    Items,
}

/// The production by which a nested expression is read.
#[derive(Clone, Copy, Debug, PartialEq, Eq)]
pub(crate) enum Form {
    /// An expression.
    Expr(Enclosure),
    /// The head of a bind: no operators.
    Post,
}

/// The productions of an expression of this scope that begins at `from` or after it.
#[derive(Clone, Copy)]
pub(crate) struct Grammar<'a, F> {
    pub alloc: Global,
    pub tokens: Tokens<'a>,
    pub scope: ConditionScope,
    pub from: u32,
    /// Reads a form at an index after `from`.
    pub nested: F,
}

impl<
    F: Fn(Global, &Tokens<'_>, ConditionScope, Form, u32) -> Result<(Expr, u32), Rejection>,
> Grammar<'_, F> {
    /// A nested form of this scope.
    pub(crate) fn inner(
        &self,
        scope: ConditionScope,
        form: Form,
        from: u32,
    ) -> Result<(Expr, u32), Rejection>
        requires nested { Nests self.now.from (F.pre self.now.nested) (F.post self.now.nested) }
        requires from { self.now.from < from }
        ensures next { IfOk result (λ read. IsAfter self.now.tokens.list.now from read.1) }
        ensures spelled { IfOk result (λ read. IsForm scope form (between self.now.tokens from read.1) read.0) }
        ensures refused { IfErr result (IsUnexpected self.now.tokens.file) }
        ensures exact { ReadsAs (nested_form scope form) self.now.tokens from result }
    {
        (self.nested)(self.alloc, &self.tokens, scope, form, from)
    }
}

/// The expression of this scope and form that begins at an index, and the index after it.
pub(crate) fn read_form(
    alloc: Global,
    tokens: &Tokens<'_>,
    scope: ConditionScope,
    form: Form,
    from: u32,
) -> Result<(Expr, u32), Rejection>
    ensures next { IfOk result (λ read. IsAfter tokens.now.list.now from read.1) }
    ensures spelled { IfOk result (λ read. IsForm scope form (between tokens.now from read.1) read.0) }
    ensures refused { IfErr result (IsUnexpected tokens.now.file) }
    ensures exact { ReadsAs (nested_form scope form) tokens.now from result }
{
    let grammar = Grammar {
        alloc,
        tokens: *tokens,
        scope,
        from,
        nested: read_form,
    };
    match form {
        Form::Expr(around) => grammar.expr(around, from),
        Form::Post => grammar.post(Enclosure::Open, from),
    }
}
