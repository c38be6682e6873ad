//! Attributes, shareds and constants: one function for each production of their grammar.
//!
//! ```text
//! attr         = "attr" LNAME {"," LNAME} ":" type
//! shared       = "shared" LNAME {"," LNAME} ":" shared_parts
//! shared_parts = type [":=" expr]
//! const        = "const" LNAME (":" type ":=" expr | [":=" expr] {"," LNAME})
//! ```
//!
//! Each name is a feature of its own. The type and the initialiser that several names share are read for each of them,
//! so that each feature has its own. A constant without a written type has no type in the AST; it is the initialiser
//! plus the number of names before it.

ghost use Rattle.std.specs.Prelude.{◌+◌, ◌≡◌, ◌≤◌, IfErr, IfOk, length};
ghost use Rattle.sa_parser.specs.FeatureForms as form;
ghost use Rattle.sa_parser.specs.FeatureForms.{attr_form, constants_form, counted_constants_of};
ghost use Rattle.sa_parser.specs.FeatureForms.{shared_form, shared_parts_form, typed_constant_of};
ghost use Rattle.sa_parser.specs.Features.{variable_of};
ghost use Rattle.sa_parser.specs.AstReads.{ReadsAst};
ghost use Rattle.sa_parser_expr.specs.Exactly.{ReadsAs};
ghost use Rattle.sa_parser_expr.specs.StatementForms.{assigned_form};
ghost use Rattle.sa_parser_expr.specs.Positions.{IsAfter, IsFrom, IsUnexpected};

use crate::names::{lower_name, lower_names};
use crate::sharing::{Sharing, counted_type};
use crate::statement::assigned;
use sa_ast::{Access, Expr, Feature, FeatureBody, Local, Rejection, Ty};
use sa_lexer::Sign;
use sa_parser_expr::{Tokens, read_expr, read_type};
use sqlite_items::Items;
use std::alloc::Global;

/// A feature without arguments.
fn variable(
    alloc: Global,
    access: Access,
    name: Local,
    ty: Option<Ty>,
    part: FeatureBody,
) -> Feature
    ensures { result ≡ variable_of access ty part name }
{
    Feature {
        name,
        access,
        formals: Items::new(alloc),
        result: ty,
        part,
    }
}

/// The type of a shared, and its initialiser.
#[derive(Drop)]
struct SharedParts {
    ty: Ty,
    value: Option<Expr>,
}

fn shared_of(alloc: Global, access: Access, name: Local, parts: SharedParts) -> Feature
    ensures { result ≡ form.shared_of access parts name }
{
    variable(
        alloc,
        access,
        name,
        Some(parts.ty),
        FeatureBody::Shared(parts.value),
    )
}

/// `LNAME {"," LNAME} ":" type`, after `attr`.
pub(crate) fn attr(
    alloc: Global,
    tokens: &Tokens<'_>,
    sharing: &mut Sharing,
    access: Access,
    from: u32,
) -> Result<(Items<Feature>, u32), Rejection>
    ensures count { IfOk result (λ read. from + length read.0 ≤ read.1) }
    ensures next { IfOk result (λ read. IsAfter tokens.now.list.now from read.1) }
    ensures refused { IfErr result (IsUnexpected tokens.now.file) }
    ensures exact { ReadsAs (attr_form access) tokens.now from result }
{
    let (names, next) = lower_names(alloc, tokens, from)?;
    let at = tokens.after_sign(next, Sign::Colon)?;
    let mut end = at;
    let mut features = Items::new(alloc);
    'more: for name in names {
        let (ty, following) = counted_type(alloc, tokens, sharing, at)?;
        features.push(variable(alloc, access, name, Some(ty), FeatureBody::Attr))?;
        end = following;
    }
    Ok((features, end))
}

/// `LNAME {"," LNAME} ":" shared_parts`, after `shared`.
pub(crate) fn shared(
    alloc: Global,
    tokens: &Tokens<'_>,
    sharing: &mut Sharing,
    access: Access,
    from: u32,
) -> Result<(Items<Feature>, u32), Rejection>
    ensures count { IfOk result (λ read. from + length read.0 ≤ read.1) }
    ensures next { IfOk result (λ read. IsAfter tokens.now.list.now from read.1) }
    ensures refused { IfErr result (IsUnexpected tokens.now.file) }
    ensures exact { ReadsAs (shared_form access) tokens.now from result }
{
    let (names, next) = lower_names(alloc, tokens, from)?;
    let at = tokens.after_sign(next, Sign::Colon)?;
    let mut end = at;
    let mut features = Items::new(alloc);
    'more: for name in names {
        let (parts, following) = counted_parts(alloc, tokens, sharing, at)?;
        features.push(shared_of(alloc, access, name, parts))?;
        end = following;
    }
    Ok((features, end))
}

/// `shared_parts`, counted for one of the names that share them.
fn counted_parts(
    alloc: Global,
    tokens: &Tokens<'_>,
    sharing: &mut Sharing,
    from: u32,
) -> Result<(SharedParts, u32), Rejection>
    ensures next { IfOk result (λ read. IsAfter tokens.now.list.now from read.1) }
    ensures refused { IfErr result (IsUnexpected tokens.now.file) }
    ensures exact { ReadsAs shared_parts_form tokens.now from result }
{
    let (parts, next) = shared_parts(alloc, tokens, from)?;
    sharing.count(tokens, from, next)?;
    Ok((parts, next))
}

/// `type [":=" expr]`
fn shared_parts(
    alloc: Global,
    tokens: &Tokens<'_>,
    from: u32,
) -> Result<(SharedParts, u32), Rejection>
    ensures next { IfOk result (λ read. IsAfter tokens.now.list.now from read.1) }
    ensures refused { IfErr result (IsUnexpected tokens.now.file) }
    ensures exact { ReadsAs shared_parts_form tokens.now from result }
{
    let (ty, next) = read_type(alloc, tokens, from)?;
    let (value, next) = assigned(alloc, tokens, next)?;
    Ok((SharedParts { ty, value }, next))
}

/// `LNAME (":" type ":=" expr | [":=" expr] {"," LNAME})`, after `const`.
pub(crate) fn constants(
    alloc: Global,
    tokens: &Tokens<'_>,
    sharing: &mut Sharing,
    access: Access,
    from: u32,
) -> Result<(Items<Feature>, u32), Rejection>
    ensures count { IfOk result (λ read. from + length read.0 ≤ read.1) }
    ensures next { IfOk result (λ read. IsAfter tokens.now.list.now from read.1) }
    ensures refused { IfErr result (IsUnexpected tokens.now.file) }
    ensures exact { ReadsAs (constants_form access) tokens.now from result }
{
    let (first, next) = lower_name(alloc, tokens, from)?;
    if tokens.is_sign(next, Sign::Colon) {
        typed_constant(alloc, tokens, access, first, next + 1)
    } else {
        counted_constants(alloc, tokens, sharing, access, first, next)
    }
}

/// `type ":=" expr`, after the name and its `:`.
fn typed_constant(
    alloc: Global,
    tokens: &Tokens<'_>,
    access: Access,
    name: Local,
    from: u32,
) -> Result<(Items<Feature>, u32), Rejection>
    ensures count { IfOk result (λ read. from + length read.0 ≤ read.1) }
    ensures next { IfOk result (λ read. IsAfter tokens.now.list.now from read.1) }
    ensures refused { IfErr result (IsUnexpected tokens.now.file) }
    ensures exact { ReadsAs (typed_constant_of access name) tokens.now from result }
{
    let (ty, next) = read_type(alloc, tokens, from)?;
    let next = tokens.after_sign(next, Sign::Assign)?;
    let (value, next) = read_expr(alloc, tokens, next)?;
    let part = FeatureBody::Const(Some(value), 0);
    let mut features = Items::new(alloc);
    features.push(variable(alloc, access, name, Some(ty), part))?;
    Ok((features, next))
}

/// `[":=" expr] {"," LNAME}`, after the first name.
fn counted_constants(
    alloc: Global,
    tokens: &Tokens<'_>,
    sharing: &mut Sharing,
    access: Access,
    first: Local,
    from: u32,
) -> Result<(Items<Feature>, u32), Rejection>
    requires { from ≤ length tokens.now.list.now }
    ensures count { IfOk result (λ read. from + length read.0 ≤ read.1 + 1) }
    ensures next { IfOk result (λ read. IsFrom tokens.now.list.now from read.1) }
    ensures refused { IfErr result (IsUnexpected tokens.now.file) }
    ensures exact { ReadsAs (counted_constants_of access first) tokens.now from result }
{
    let (value, mut next) = assigned(alloc, tokens, from)?;
    let part = FeatureBody::Const(value, 0);
    let mut features = Items::new(alloc);
    features.push(variable(alloc, access, first, None, part))?;
    let mut number = 0;
    'more: while tokens.is_sign(next, Sign::Comma) {
        let (name, end) = lower_name(alloc, tokens, next + 1)?;
        let value = counted_value(alloc, tokens, sharing, from)?;
        number += 1;
        let part = FeatureBody::Const(value, number);
        features.push(variable(alloc, access, name, None, part))?;
        next = end;
    }
    Ok((features, next))
}

/// `[":=" expr]`, counted for one of the names that share it.
fn counted_value(
    alloc: Global,
    tokens: &Tokens<'_>,
    sharing: &mut Sharing,
    from: u32,
) -> Result<Option<Expr>, Rejection>
    requires { from ≤ length tokens.now.list.now }
    ensures refused { IfErr result (IsUnexpected tokens.now.file) }
    ensures exact { ReadsAst assigned_form tokens.now from result }
{
    let (value, next) = assigned(alloc, tokens, from)?;
    sharing.count(tokens, from, next)?;
    Ok(value)
}
