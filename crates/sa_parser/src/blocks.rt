//! Statements that contain others: one function for each production of their grammar.
//!
//! ```text
//! if          = "if" arms ending
//! arms        = arm {"elsif" arm}
//! arm         = expr "then" stmts
//! ending      = else "end"
//! else        = ["else" stmts]
//! loop        = "loop" stmts "end"
//! case        = "case" expr case_choice
//! case_choice = case_arms ending
//! case_arms   = {"when" case_arm}
//! case_arm    = values "then" stmts
//! values      = expr {"," expr}
//! typecase    = "typecase" LNAME type_choice
//! protect     = "protect" stmts type_choice
//! type_choice = branches ending
//! branches    = {"when" branch}
//! branch      = type "then" stmts
//! ```
//!
//! The position of each of the statements is that of its word.

ghost use Rattle.std.specs.Prelude.{◌≡◌, ◌<◌, ◌≤◌, IfErr, IfOk, length};
ghost use Rattle.sa_lexer.specs.declared.word.Word.TheVariants as word;
ghost use Rattle.sa_ast.specs.declared.stmt.Stmt.TheVariants as tree;
ghost use Rattle.sa_parser.specs.BlockForms.{case_choice_form, type_choice_form};
ghost use Rattle.sa_parser.specs.Bodies.{NestsBodies};
ghost use Rattle.sa_parser.specs.Statements.{IsArm, IsArms, IsBranch, IsBranches, IsCaseArm, IsCaseArms, IsCaseChoice};
ghost use Rattle.sa_parser.specs.Statements.{IsElse, IsEnding, IsStmt, IsTypeChoice, IsValues};
ghost use Rattle.sa_parser_expr.specs.Exactly.{ReadsAs};
ghost use Rattle.sa_parser_expr.specs.Forms.{list, refuse, shift};
ghost use Rattle.sa_parser_expr.specs.Lexemes.{between};
ghost use Rattle.sa_parser_expr.specs.Positions.{IsAfter, IsFrom, IsUnexpected};
ghost use Rattle.sa_parser_expr.specs.StatementForms.{arm_form, arms_form, branch_form, branches_form, case_arm_form, case_arms_form};
ghost use Rattle.sa_parser_expr.specs.StatementForms.{case_form, else_form, ending_form, if_form};
ghost use Rattle.sa_parser_expr.specs.StatementForms.{loop_form, protect_form, typecase_form, value_form};
ghost use Rattle.sa_parser_expr.specs.Tests.{is_word};

use crate::body::Stmts;
use crate::names::lower_name;
use sa_ast::{BranchArm, CaseArm, Expr, Local, Pos, Rejection, Stmt, TypeArm};
use sa_lexer::{Sign, Word};
use sa_parser_expr::{Tokens, read_expr, read_type};
use sqlite_items::Items;
use std::alloc::Global;

/// The arms of a `case`, and its `else`.
#[derive(Drop)]
struct CaseChoice {
    arms: Items<CaseArm>,
    rest: Option<Items<Stmt>>,
}

/// The branches of a `typecase` or a `protect`, and its `else`.
#[derive(Drop)]
struct TypeChoice {
    branches: Items<TypeArm>,
    rest: Option<Items<Stmt>>,
}

fn case_of(tested: Expr, choice: CaseChoice, pos: Pos) -> Stmt
    ensures { result ≡ tree.Case tested choice.arms choice.rest pos }
{
    Stmt::Case(tested, choice.arms, choice.rest, pos)
}

fn typecase_of(tested: Local, choice: TypeChoice, pos: Pos) -> Stmt
    ensures { result ≡ tree.TypeCase tested choice.branches choice.rest pos }
{
    Stmt::TypeCase(tested, choice.branches, choice.rest, pos)
}

fn protect_of(body: Items<Stmt>, choice: TypeChoice, pos: Pos) -> Stmt
    ensures { result ≡ tree.Protect body choice.branches choice.rest pos }
{
    Stmt::Protect(body, choice.branches, choice.rest, pos)
}

impl<F: Fn(Global, &Tokens<'_>, Word, u32) -> Result<(Items<Stmt>, u32), Rejection>> Stmts<'_, F> {
    /// `"if" arms ending`
    pub(crate) fn if_block(&self, from: u32) -> Result<(Stmt, u32), Rejection>
        requires nested { NestsBodies self.now.from (F.pre self.now.nested) (F.post self.now.nested) }
        requires from { self.now.from < from }
        ensures next { IfOk result (λ read. IsAfter self.now.tokens.list.now from read.1) }
        ensures spelled { IfOk result (λ read. IsStmt (between self.now.tokens from read.1) read.0) }
        ensures refused { IfErr result (IsUnexpected self.now.tokens.file) }
        ensures exact { ReadsAs (shift (is_word word.If) if_form refuse) self.now.tokens from result }
    {
        let next = self.tokens.after_word(from, Word::If)?;
        let (arms, next) = self.arms(next)?;
        let (rest, next) = self.ending(next)?;
        let rest = rest.unwrap_or(Items::new(self.alloc));
        Ok((Stmt::If(arms, rest, self.tokens.pos(from)), next))
    }

    /// `arm {"elsif" arm}`
    fn arms(&self, from: u32) -> Result<(Items<BranchArm>, u32), Rejection>
        requires nested { NestsBodies self.now.from (F.pre self.now.nested) (F.post self.now.nested) }
        requires from { self.now.from < from }
        ensures next { IfOk result (λ read. IsAfter self.now.tokens.list.now from read.1) }
        ensures spelled { IfOk result (λ read. IsArms (between self.now.tokens from read.1) read.0) }
        ensures refused { IfErr result (IsUnexpected self.now.tokens.file) }
        ensures exact { ReadsAs arms_form self.now.tokens from result }
    {
        let (first, mut next) = self.arm(from)?;
        let mut arms = Vec::new(self.alloc);
        arms.push(first)?;
        'more: while self.tokens.is_word(next, Word::Elsif) {
            let (one, end) = self.arm(next + 1)?;
            arms.push(one)?;
            next = end;
        }
        arms.shrink_to_fit();
        Ok((Items::from_vec(arms), next))
    }

    /// `expr "then" stmts`
    fn arm(&self, from: u32) -> Result<(BranchArm, u32), Rejection>
        requires nested { NestsBodies self.now.from (F.pre self.now.nested) (F.post self.now.nested) }
        requires from { self.now.from < from }
        ensures next { IfOk result (λ read. IsAfter self.now.tokens.list.now from read.1) }
        ensures spelled { IfOk result (λ read. IsArm (between self.now.tokens from read.1) read.0) }
        ensures refused { IfErr result (IsUnexpected self.now.tokens.file) }
        ensures exact { ReadsAs arm_form self.now.tokens from result }
    {
        let (test, next) = read_expr(self.alloc, &self.tokens, from)?;
        let (body, next) = self.body(Word::Then, next)?;
        Ok((BranchArm { test, body }, next))
    }

    /// `else "end"`
    fn ending(&self, from: u32) -> Result<(Option<Items<Stmt>>, u32), Rejection>
        requires nested { NestsBodies self.now.from (F.pre self.now.nested) (F.post self.now.nested) }
        requires from { self.now.from < from }
        requires within { from ≤ length self.now.tokens.list.now }
        ensures next { IfOk result (λ read. IsAfter self.now.tokens.list.now from read.1) }
        ensures spelled { IfOk result (λ read. IsEnding (between self.now.tokens from read.1) read.0) }
        ensures refused { IfErr result (IsUnexpected self.now.tokens.file) }
        ensures exact { ReadsAs ending_form self.now.tokens from result }
    {
        let (rest, next) = self.else_part(from)?;
        Ok((rest, self.tokens.after_word(next, Word::End)?))
    }

    /// `["else" stmts]`
    fn else_part(&self, from: u32) -> Result<(Option<Items<Stmt>>, u32), Rejection>
        requires nested { NestsBodies self.now.from (F.pre self.now.nested) (F.post self.now.nested) }
        requires from { self.now.from < from }
        requires within { from ≤ length self.now.tokens.list.now }
        ensures next { IfOk result (λ read. IsFrom self.now.tokens.list.now from read.1) }
        ensures spelled { IfOk result (λ read. IsElse (between self.now.tokens from read.1) read.0) }
        ensures refused { IfErr result (IsUnexpected self.now.tokens.file) }
        ensures exact { ReadsAs else_form self.now.tokens from result }
    {
        if !self.tokens.is_word(from, Word::Else) {
            return Ok((None, from));
        }
        let (body, next) = self.body(Word::Else, from)?;
        Ok((Some(body), next))
    }

    /// `"loop" stmts "end"`
    pub(crate) fn loop_block(&self, from: u32) -> Result<(Stmt, u32), Rejection>
        requires nested { NestsBodies self.now.from (F.pre self.now.nested) (F.post self.now.nested) }
        requires from { self.now.from < from }
        ensures next { IfOk result (λ read. IsAfter self.now.tokens.list.now from read.1) }
        ensures spelled { IfOk result (λ read. IsStmt (between self.now.tokens from read.1) read.0) }
        ensures refused { IfErr result (IsUnexpected self.now.tokens.file) }
        ensures exact { ReadsAs (shift (is_word word.Loop) loop_form refuse) self.now.tokens from result }
    {
        let (body, next) = self.body(Word::Loop, from)?;
        let next = self.tokens.after_word(next, Word::End)?;
        Ok((Stmt::Loop(body, self.tokens.pos(from)), next))
    }

    /// `"case" expr case_choice`
    pub(crate) fn case_block(&self, from: u32) -> Result<(Stmt, u32), Rejection>
        requires nested { NestsBodies self.now.from (F.pre self.now.nested) (F.post self.now.nested) }
        requires from { self.now.from < from }
        ensures next { IfOk result (λ read. IsAfter self.now.tokens.list.now from read.1) }
        ensures spelled { IfOk result (λ read. IsStmt (between self.now.tokens from read.1) read.0) }
        ensures refused { IfErr result (IsUnexpected self.now.tokens.file) }
        ensures exact { ReadsAs (shift (is_word word.Case) case_form refuse) self.now.tokens from result }
    {
        let next = self.tokens.after_word(from, Word::Case)?;
        let (tested, next) = read_expr(self.alloc, &self.tokens, next)?;
        let (choice, next) = self.case_choice(next)?;
        Ok((case_of(tested, choice, self.tokens.pos(from)), next))
    }

    /// `case_arms ending`
    fn case_choice(&self, from: u32) -> Result<(CaseChoice, u32), Rejection>
        requires nested { NestsBodies self.now.from (F.pre self.now.nested) (F.post self.now.nested) }
        requires from { self.now.from < from }
        requires within { from ≤ length self.now.tokens.list.now }
        ensures next { IfOk result (λ read. IsAfter self.now.tokens.list.now from read.1) }
        ensures spelled { IfOk result (λ read. IsCaseChoice (between self.now.tokens from read.1) read.0) }
        ensures refused { IfErr result (IsUnexpected self.now.tokens.file) }
        ensures exact { ReadsAs case_choice_form self.now.tokens from result }
    {
        let (arms, next) = self.case_arms(from)?;
        let (rest, next) = self.ending(next)?;
        Ok((CaseChoice { arms, rest }, next))
    }

    /// `{"when" case_arm}`
    fn case_arms(&self, from: u32) -> Result<(Items<CaseArm>, u32), Rejection>
        requires nested { NestsBodies self.now.from (F.pre self.now.nested) (F.post self.now.nested) }
        requires from { self.now.from < from }
        requires within { from ≤ length self.now.tokens.list.now }
        ensures next { IfOk result (λ read. IsFrom self.now.tokens.list.now from read.1) }
        ensures spelled { IfOk result (λ read. IsCaseArms (between self.now.tokens from read.1) read.0) }
        ensures refused { IfErr result (IsUnexpected self.now.tokens.file) }
        ensures exact { ReadsAs case_arms_form self.now.tokens from result }
    {
        let mut arms = Items::new(self.alloc);
        let mut next = from;
        'more: while self.tokens.is_word(next, Word::When) {
            let (arm, end) = self.case_arm(next + 1)?;
            arms.push(arm)?;
            next = end;
        }
        Ok((arms, next))
    }

    /// `values "then" stmts`
    fn case_arm(&self, from: u32) -> Result<(CaseArm, u32), Rejection>
        requires nested { NestsBodies self.now.from (F.pre self.now.nested) (F.post self.now.nested) }
        requires from { self.now.from < from }
        ensures next { IfOk result (λ read. IsAfter self.now.tokens.list.now from read.1) }
        ensures spelled { IfOk result (λ read. IsCaseArm (between self.now.tokens from read.1) read.0) }
        ensures refused { IfErr result (IsUnexpected self.now.tokens.file) }
        ensures exact { ReadsAs case_arm_form self.now.tokens from result }
    {
        let (values, next) = values(self.alloc, &self.tokens, from)?;
        let (body, next) = self.body(Word::Then, next)?;
        Ok((CaseArm { values, body }, next))
    }

    /// `"typecase" LNAME type_choice`
    pub(crate) fn typecase_block(&self, from: u32) -> Result<(Stmt, u32), Rejection>
        requires nested { NestsBodies self.now.from (F.pre self.now.nested) (F.post self.now.nested) }
        requires from { self.now.from < from }
        ensures next { IfOk result (λ read. IsAfter self.now.tokens.list.now from read.1) }
        ensures spelled { IfOk result (λ read. IsStmt (between self.now.tokens from read.1) read.0) }
        ensures refused { IfErr result (IsUnexpected self.now.tokens.file) }
        ensures exact { ReadsAs (shift (is_word word.Typecase) typecase_form refuse) self.now.tokens from result }
    {
        let next = self.tokens.after_word(from, Word::Typecase)?;
        let (tested, next) = lower_name(self.alloc, &self.tokens, next)?;
        let (choice, next) = self.type_choice(next)?;
        Ok((typecase_of(tested, choice, self.tokens.pos(from)), next))
    }

    /// `"protect" stmts type_choice`
    pub(crate) fn protect_block(&self, from: u32) -> Result<(Stmt, u32), Rejection>
        requires nested { NestsBodies self.now.from (F.pre self.now.nested) (F.post self.now.nested) }
        requires from { self.now.from < from }
        ensures next { IfOk result (λ read. IsAfter self.now.tokens.list.now from read.1) }
        ensures spelled { IfOk result (λ read. IsStmt (between self.now.tokens from read.1) read.0) }
        ensures refused { IfErr result (IsUnexpected self.now.tokens.file) }
        ensures exact { ReadsAs (shift (is_word word.Protect) protect_form refuse) self.now.tokens from result }
    {
        let (body, next) = self.body(Word::Protect, from)?;
        let (choice, next) = self.type_choice(next)?;
        Ok((protect_of(body, choice, self.tokens.pos(from)), next))
    }

    /// `branches ending`
    fn type_choice(&self, from: u32) -> Result<(TypeChoice, u32), Rejection>
        requires nested { NestsBodies self.now.from (F.pre self.now.nested) (F.post self.now.nested) }
        requires from { self.now.from < from }
        requires within { from ≤ length self.now.tokens.list.now }
        ensures next { IfOk result (λ read. IsAfter self.now.tokens.list.now from read.1) }
        ensures spelled { IfOk result (λ read. IsTypeChoice (between self.now.tokens from read.1) read.0) }
        ensures refused { IfErr result (IsUnexpected self.now.tokens.file) }
        ensures exact { ReadsAs type_choice_form self.now.tokens from result }
    {
        let (branches, next) = self.branches(from)?;
        let (rest, next) = self.ending(next)?;
        Ok((TypeChoice { branches, rest }, next))
    }

    /// `{"when" branch}`
    fn branches(&self, from: u32) -> Result<(Items<TypeArm>, u32), Rejection>
        requires nested { NestsBodies self.now.from (F.pre self.now.nested) (F.post self.now.nested) }
        requires from { self.now.from < from }
        requires within { from ≤ length self.now.tokens.list.now }
        ensures next { IfOk result (λ read. IsFrom self.now.tokens.list.now from read.1) }
        ensures spelled { IfOk result (λ read. IsBranches (between self.now.tokens from read.1) read.0) }
        ensures refused { IfErr result (IsUnexpected self.now.tokens.file) }
        ensures exact { ReadsAs branches_form self.now.tokens from result }
    {
        let mut branches = Items::new(self.alloc);
        let mut next = from;
        'more: while self.tokens.is_word(next, Word::When) {
            let (one, end) = self.branch(next + 1)?;
            branches.push(one)?;
            next = end;
        }
        Ok((branches, next))
    }

    /// `type "then" stmts`
    fn branch(&self, from: u32) -> Result<(TypeArm, u32), Rejection>
        requires nested { NestsBodies self.now.from (F.pre self.now.nested) (F.post self.now.nested) }
        requires from { self.now.from < from }
        ensures next { IfOk result (λ read. IsAfter self.now.tokens.list.now from read.1) }
        ensures spelled { IfOk result (λ read. IsBranch (between self.now.tokens from read.1) read.0) }
        ensures refused { IfErr result (IsUnexpected self.now.tokens.file) }
        ensures exact { ReadsAs branch_form self.now.tokens from result }
    {
        let (ty, next) = read_type(self.alloc, &self.tokens, from)?;
        let (body, next) = self.body(Word::Then, next)?;
        Ok((TypeArm { ty, body }, next))
    }
}

/// `expr {"," expr}`
fn values(alloc: Global, tokens: &Tokens<'_>, from: u32) -> Result<(Items<Expr>, u32), Rejection>
    ensures next { IfOk result (λ read. IsAfter tokens.now.list.now from read.1) }
    ensures spelled { IfOk result (λ read. IsValues (between tokens.now from read.1) read.0) }
    ensures refused { IfErr result (IsUnexpected tokens.now.file) }
    ensures exact { ReadsAs (list value_form) tokens.now from result }
{
    let (first, mut next) = read_expr(alloc, tokens, from)?;
    let mut values = Items::new(alloc);
    values.push(first)?;
    'more: while tokens.is_sign(next, Sign::Comma) {
        let (value, end) = read_expr(alloc, tokens, next + 1)?;
        values.push(value)?;
        next = end;
    }
    Ok((values, next))
}
