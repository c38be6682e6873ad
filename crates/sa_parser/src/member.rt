//! The members of a class, which are its features, its includes and its invariant: one function for each alternative of their
//! grammar.
//!
//! ```text
//! member = ["private"] sig clauses whole_body
//!        | ["private"] "stub" sig                    in partial classes alone
//!        | ["private"] "builtin" sig                 in the prelude alone
//!        | ["private" | "readonly"] attr
//!        | ["private" | "readonly"] shared
//!        | ["private"] const
//!        | ["private"] include
//!        | invariant                                 in the program alone, and once in a class
//! whole_body = "is" stmts "end"
//! ```

ghost use Rattle.std.specs.Prelude.{◌+◌, ◌≡◌, ◌≤◌, Bool, IfErr, IfOk, length};
ghost use Rattle.sa_parser.specs.Classes.{enclosing};
ghost use Rattle.sa_parser.specs.FeatureForms.{IsAllowed, builtin_form, called_form, declared_or, member_form, open_form};
ghost use Rattle.sa_parser.specs.FeatureForms.{routine_form, whole_body_form, without_clauses};
ghost use Rattle.sa_parser.specs.Features.{feature_of, features_of};
ghost use Rattle.sa_parser.specs.declared.member.Declaration.TheVariants as declaration;
ghost use Rattle.sa_parser_expr.specs.Exactly.{ReadsAs, map_value};
ghost use Rattle.sa_parser_expr.specs.Forms.{refuse};
ghost use Rattle.sa_parser_expr.specs.Positions.{IsAfter, IsUnexpected, kind_at};

use crate::body::read_body;
use crate::contract::{Clauses, feature_clauses, invariant};
use crate::declared::{attr, constants, shared};
use crate::file::FileKind;
use crate::include::include;
use crate::sharing::Sharing;
use crate::signature::{HeaderSignature, sig};
use sa_ast::{
    Access, Body, ClassKind, Condition, Feature, FeatureBody, Include, Name, Rejection, Shared,
};
use sa_lexer::{TokenKind, Word};
use sa_parser_expr::Tokens;
use sqlite_items::Items;
use std::alloc::Global;

/// The class that has the members.
#[derive(Clone, Copy)]
pub(crate) struct ClassContext<'a> {
    /// Its index among the classes.
    pub(crate) place: u32,
    pub(crate) name: &'a Name,
    pub(crate) kind: ClassKind,
    pub(crate) file_kind: FileKind,
}

/// What a member in the sense of the grammar gives.
#[derive(Drop)]
pub(crate) enum Declaration {
    /// A feature of the AST for each of its names.
    Variables(Items<Feature>),
    /// A feature with a signature, and its clauses.
    Called(Feature, Clauses),
    Include(Include),
    /// The invariant of the class.
    Invariant(Condition),
}

/// The feature of a signature.
pub(crate) fn of_sig(sig: HeaderSignature, access: Access, part: FeatureBody) -> Feature
    ensures { result ≡ feature_of sig access part }
{
    Feature {
        name: sig.name,
        access,
        formals: sig.formals,
        result: sig.result,
        part,
    }
}

/// A member of a class.
pub(crate) fn member(
    alloc: Global,
    tokens: &Tokens<'_>,
    class: ClassContext<'_>,
    sharing: &mut Sharing,
    from: u32,
) -> Result<(Declaration, u32), Rejection>
    ensures count { IfOk result (λ read. from + length (features_of read.0) ≤ read.1) }
    ensures next { IfOk result (λ read. IsAfter tokens.now.list.now from read.1) }
    ensures refused { IfErr result (IsUnexpected tokens.now.file) }
    ensures exact { (invariants : Bool) → IsAllowed class.entry.file_kind invariants (kind_at tokens.now.list.now from)
        → ReadsAs (member_form (enclosing class.entry) invariants) tokens.now from result }
{
    match tokens.kind(from) {
        Some(TokenKind::Word(Word::Private)) => {
            after_access(alloc, tokens, class, sharing, Access::Private, from + 1)
        }
        Some(TokenKind::Word(Word::Readonly)) => {
            let (features, next) = variables(alloc, tokens, sharing, Access::ReadOnly, from + 1)?;
            Ok((Declaration::Variables(features), next))
        }
        Some(TokenKind::Word(Word::Invariant)) => {
            let (holds, next) = invariant(alloc, tokens, from + 1)?;
            Ok((Declaration::Invariant(holds), next))
        }
        _ => after_access(alloc, tokens, class, sharing, Access::Public, from),
    }
}

/// What comes after `["private"]`.
fn after_access(
    alloc: Global,
    tokens: &Tokens<'_>,
    class: ClassContext<'_>,
    sharing: &mut Sharing,
    access: Access,
    from: u32,
) -> Result<(Declaration, u32), Rejection>
    ensures count { IfOk result (λ read. from + length (features_of read.0) ≤ read.1) }
    ensures next { IfOk result (λ read. IsAfter tokens.now.list.now from read.1) }
    ensures refused { IfErr result (IsUnexpected tokens.now.file) }
    ensures exact { ReadsAs (open_form (enclosing class.entry) access) tokens.now from result }
{
    match tokens.kind(from) {
        Some(TokenKind::Word(Word::Include)) => {
            let (include, next) = include(alloc, tokens, access, from + 1)?;
            Ok((Declaration::Include(include), next))
        }
        Some(TokenKind::Word(Word::Attr | Word::Shared)) => {
            let (features, next) = variables(alloc, tokens, sharing, access, from)?;
            Ok((Declaration::Variables(features), next))
        }
        Some(TokenKind::Word(Word::Const)) => {
            let (features, next) = constants(alloc, tokens, sharing, access, from + 1)?;
            Ok((Declaration::Variables(features), next))
        }
        _ => called(alloc, tokens, class, sharing, access, from),
    }
}

/// `attr | shared`
fn variables(
    alloc: Global,
    tokens: &Tokens<'_>,
    sharing: &mut Sharing,
    access: Access,
    from: u32,
) -> Result<(Items<Feature>, u32), Rejection>
    ensures count { IfOk result (λ read. from + length read.0 ≤ read.1) }
    ensures next { IfOk result (λ read. IsAfter tokens.now.list.now from read.1) }
    ensures refused { IfErr result (IsUnexpected tokens.now.file) }
    ensures exact { ReadsAs (declared_or access refuse) tokens.now from (map_value declaration.Variables result) }
{
    match tokens.kind(from) {
        Some(TokenKind::Word(Word::Attr)) => attr(alloc, tokens, sharing, access, from + 1),
        Some(TokenKind::Word(Word::Shared)) => shared(alloc, tokens, sharing, access, from + 1),
        _ => Err(tokens.unexpected(from)),
    }
}

/// `sig clauses whole_body | "stub" sig | "builtin" sig`
fn called(
    alloc: Global,
    tokens: &Tokens<'_>,
    class: ClassContext<'_>,
    sharing: &mut Sharing,
    access: Access,
    from: u32,
) -> Result<(Declaration, u32), Rejection>
    ensures count { IfOk result (λ read. from + length (features_of read.0) ≤ read.1) }
    ensures next { IfOk result (λ read. IsAfter tokens.now.list.now from read.1) }
    ensures refused { IfErr result (IsUnexpected tokens.now.file) }
    ensures exact { ReadsAs (called_form (enclosing class.entry) access) tokens.now from result }
{
    match tokens.kind(from) {
        Some(TokenKind::Word(Word::Stub)) if class.kind == ClassKind::Partial => {
            let (sig, next) = sig(alloc, tokens, sharing, from + 1)?;
            let stub = of_sig(sig, access, FeatureBody::Stub);
            Ok((Declaration::Called(stub, Clauses::none()), next))
        }
        Some(TokenKind::Word(Word::Builtin)) if class.file_kind == FileKind::Prelude => {
            let (builtin, next) = builtin(alloc, tokens, class, sharing, access, from + 1)?;
            Ok((Declaration::Called(builtin, Clauses::none()), next))
        }
        _ => routine(alloc, tokens, class, sharing, access, from),
    }
}

/// `sig`, after `builtin`.
fn builtin(
    alloc: Global,
    tokens: &Tokens<'_>,
    class: ClassContext<'_>,
    sharing: &mut Sharing,
    access: Access,
    from: u32,
) -> Result<(Feature, u32), Rejection>
    ensures next { IfOk result (λ read. IsAfter tokens.now.list.now from read.1) }
    ensures refused { IfErr result (IsUnexpected tokens.now.file) }
    ensures exact { ReadsAs (builtin_form class.entry.name.now access) tokens.now from (map_value without_clauses result) }
{
    let (sig, next) = sig(alloc, tokens, sharing, from)?;
    let of = class.name.copy(alloc)?;
    let name = sig.name.name.copy(alloc)?;
    Ok((of_sig(sig, access, FeatureBody::Builtin(of, name)), next))
}

/// `sig clauses whole_body`
fn routine(
    alloc: Global,
    tokens: &Tokens<'_>,
    class: ClassContext<'_>,
    sharing: &mut Sharing,
    access: Access,
    from: u32,
) -> Result<(Declaration, u32), Rejection>
    ensures count { IfOk result (λ read. from + length (features_of read.0) ≤ read.1) }
    ensures next { IfOk result (λ read. IsAfter tokens.now.list.now from read.1) }
    ensures refused { IfErr result (IsUnexpected tokens.now.file) }
    ensures exact { ReadsAs (routine_form (enclosing class.entry) access) tokens.now from result }
{
    let (sig, next) = sig(alloc, tokens, sharing, from)?;
    let (clauses, next) = feature_clauses(alloc, tokens, class.file_kind, next)?;
    let (body, next) = whole_body(alloc, tokens, next)?;
    let routine = of_sig(sig, access, FeatureBody::Routine(body));
    Ok((Declaration::Called(routine, clauses), next))
}

/// `"is" stmts "end"`
fn whole_body(alloc: Global, tokens: &Tokens<'_>, from: u32) -> Result<(Body, u32), Rejection>
    ensures next { IfOk result (λ read. IsAfter tokens.now.list.now from read.1) }
    ensures refused { IfErr result (IsUnexpected tokens.now.file) }
    ensures exact { ReadsAs whole_body_form tokens.now from result }
{
    let (body, next) = read_body(alloc, tokens, Word::Is, from)?;
    let next = tokens.after_word(next, Word::End)?;
    Ok((Shared::new(alloc, body)?, next))
}
