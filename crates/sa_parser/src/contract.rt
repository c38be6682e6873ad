//! Contracts: the clauses of routines, and the invariants of classes. One function for each production of their grammar.
//!
//! ```text
//! clauses   = [pre] [post]                                         of which the prelude has none
//! pre       = "pre" expr
//! post      = "post" expr
//! invariant = "invariant" ":" "BOOL" "is" "return" expr closing
//! closing   = [";"] "end"
//! ```
//!
//! `result` and `initial` are allowed in the expression of a `post` alone.

ghost use Rattle.std.specs.Prelude.{◌≡◌, ◌≤◌, IfErr, IfOk, length};
ghost use Rattle.std.specs.Option.{option_to_list};
ghost use Rattle.sa_ast.specs.declared.contract.Condition.{Condition};
ghost use Rattle.sa_parser.specs.Classes.{contract_of};
ghost use Rattle.sa_parser.specs.ConditionForms.{clause_form, clauses_form, closing_form, condition_form, holding_form, with_ast};
ghost use Rattle.sa_parser.specs.Conditions.{no_clauses};
ghost use Rattle.sa_parser_expr.specs.Exactly.{ReadsAs};
ghost use Rattle.sa_parser_expr.specs.Positions.{IsAfter, IsFrom, IsUnexpected};

use crate::file::FileKind;
use crate::names::after_bool;
use sa_ast::{Condition, Contract, Rejection};
use sa_lexer::{Sign, Word};
use sa_parser_expr::{ConditionScope, Tokens, read_condition};
use std::alloc::Global;

/// The clauses of a routine.
#[derive(Drop)]
pub(crate) struct Clauses {
    pub(crate) pre: Option<Condition>,
    pub(crate) post: Option<Condition>,
}

impl Clauses {
    /// The clauses of a feature for which none is written.
    pub(crate) fn none() -> Clauses
        ensures { result ≡ no_clauses }
    {
        Clauses {
            pre: None,
            post: None,
        }
    }

    /// The contract of this feature of this class that they make, if one of them is written.
    pub(crate) fn of(self, class: u32, feature: u32) -> Option<Contract>
        ensures { option_to_list result ≡ contract_of class feature self.pre self.post }
    {
        if self.pre.is_none() && self.post.is_none() {
            return None;
        }
        let Clauses { pre, post } = self;
        Some(Contract::Clauses {
            class,
            feature,
            pre,
            post,
        })
    }
}

/// `[pre] [post]`
pub(crate) fn feature_clauses(
    alloc: Global,
    tokens: &Tokens<'_>,
    file_kind: FileKind,
    from: u32,
) -> Result<(Clauses, u32), Rejection>
    requires { from ≤ length tokens.now.list.now }
    ensures next { IfOk result (λ read. IsFrom tokens.now.list.now from read.1) }
    ensures refused { IfErr result (IsUnexpected tokens.now.file) }
    ensures exact { ReadsAs (clauses_form file_kind) tokens.now from result }
{
    if file_kind == FileKind::Prelude {
        return Ok((Clauses::none(), from));
    }
    let (pre, next) = clause(alloc, tokens, Word::Pre, ConditionScope::Plain, from)?;
    let (post, next) = clause(alloc, tokens, Word::Post, ConditionScope::PostClause, next)?;
    Ok((Clauses { pre, post }, next))
}

/// `[WORD expr]`
fn clause(
    alloc: Global,
    tokens: &Tokens<'_>,
    word: Word,
    scope: ConditionScope,
    from: u32,
) -> Result<(Option<Condition>, u32), Rejection>
    requires { from ≤ length tokens.now.list.now }
    ensures next { IfOk result (λ read. IsFrom tokens.now.list.now from read.1) }
    ensures refused { IfErr result (IsUnexpected tokens.now.file) }
    ensures exact { ReadsAs (clause_form word scope) tokens.now from result }
{
    if !tokens.is_word(from, word) {
        return Ok((None, from));
    }
    let (condition, next) = condition(alloc, tokens, scope, from + 1)?;
    Ok((Some(condition), next))
}

/// `expr`, which has the position of its first token.
fn condition(
    alloc: Global,
    tokens: &Tokens<'_>,
    scope: ConditionScope,
    from: u32,
) -> Result<(Condition, u32), Rejection>
    ensures next { IfOk result (λ read. IsAfter tokens.now.list.now from read.1) }
    ensures refused { IfErr result (IsUnexpected tokens.now.file) }
    ensures exact { ReadsAs (condition_form scope) tokens.now from result }
{
    let (test, next) = read_condition(alloc, tokens, scope, from)?;
    let pos = tokens.pos(from);
    Ok((Condition { test, pos }, next))
}

/// `":" "BOOL" "is" "return" expr closing`, after `invariant`.
pub(crate) fn invariant(
    alloc: Global,
    tokens: &Tokens<'_>,
    from: u32,
) -> Result<(Condition, u32), Rejection>
    ensures next { IfOk result (λ read. IsAfter tokens.now.list.now from read.1) }
    ensures refused { IfErr result (IsUnexpected tokens.now.file) }
    ensures exact { ReadsAs holding_form tokens.now from result }
{
    let next = tokens.after_sign(from, Sign::Colon)?;
    let next = after_bool(tokens, next)?;
    let next = tokens.after_word(next, Word::Is)?;
    let next = tokens.after_word(next, Word::Return)?;
    let (holds, next) = condition(alloc, tokens, ConditionScope::Plain, next)?;
    Ok((holds, after_closing(tokens, next)?))
}

/// The index after `[";"] "end"`.
fn after_closing(tokens: &Tokens<'_>, from: u32) -> Result<u32, Rejection>
    ensures next { IfOk result (IsAfter tokens.now.list.now from) }
    ensures refused { IfErr result (IsUnexpected tokens.now.file) }
    ensures exact { (holds : Condition) → ReadsAs (closing_form holds) tokens.now from (with_ast holds result) }
{
    if tokens.is_sign(from, Sign::Semicolon) {
        return tokens.after_word(from + 1, Word::End);
    }
    tokens.after_word(from, Word::End)
}
