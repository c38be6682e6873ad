//! Includes: one function for each production of their grammar.
//!
//! ```text
//! include          = "include" type optional_changes
//! optional_changes = [changes]
//! changes          = change {"," change}
//! change           = F "->" new_name
//! new_name         = [["private" | "readonly"] F]
//! ```
//!
//! F is a lower name or the name of an iter. Whether both names of a change are of one kind isn't decided here.

ghost use Rattle.std.specs.Prelude.{◌≡◌, ◌≤◌, IfErr, IfOk, length};
ghost use Rattle.sa_parser.specs.FeatureForms.{change_form, changed_form, include_form, is_private, optional_changes_form, renamed};
ghost use Rattle.sa_parser.specs.declared.member.Declaration.TheVariants as member;
ghost use Rattle.sa_parser_expr.specs.Exactly.{ReadsAs, map_value};
ghost use Rattle.sa_parser_expr.specs.Forms.{list};
ghost use Rattle.sa_parser_expr.specs.Lexemes.{Lexeme};
ghost use Rattle.sa_parser_expr.specs.Positions.{IsAfter, IsFrom, IsUnexpected};

use crate::names::feature_name;
use sa_ast::{Access, FeatureModifier, Include, Local, Name, Rejection};
use sa_lexer::{Sign, TokenKind, Word};
use sa_parser_expr::{Tokens, read_type};
use sqlite_items::Items;
use std::alloc::Global;

/// What comes after the arrow of a change.
#[derive(Drop)]
struct NewName {
    access: Access,
    name: Option<Name>,
}

fn change_of(left: Local, new: NewName) -> FeatureModifier
    ensures { result ≡ record { from = left; to = new.name; access = new.access } }
{
    FeatureModifier {
        from: left,
        to: new.name,
        access: new.access,
    }
}

/// `type optional_changes`, after `include` and the words of access before it.
pub(crate) fn include(
    alloc: Global,
    tokens: &Tokens<'_>,
    access: Access,
    from: u32,
) -> Result<(Include, u32), Rejection>
    ensures next { IfOk result (λ read. IsAfter tokens.now.list.now from read.1) }
    ensures refused { IfErr result (IsUnexpected tokens.now.file) }
    ensures exact { ReadsAs (include_form (is_private access)) tokens.now from (map_value member.Include result) }
{
    let (ty, next) = read_type(alloc, tokens, from)?;
    let (changes, next) = optional_changes(alloc, tokens, next)?;
    let include = Include {
        ty,
        private: access == Access::Private,
        changes,
    };
    Ok((include, next))
}

/// `[changes]`
fn optional_changes(
    alloc: Global,
    tokens: &Tokens<'_>,
    from: u32,
) -> Result<(Items<FeatureModifier>, u32), Rejection>
    requires { from ≤ length tokens.now.list.now }
    ensures next { IfOk result (λ read. IsFrom tokens.now.list.now from read.1) }
    ensures refused { IfErr result (IsUnexpected tokens.now.file) }
    ensures exact { ReadsAs optional_changes_form tokens.now from result }
{
    if !tokens.is_feature_name(from) {
        return Ok((Items::new(alloc), from));
    }
    changes(alloc, tokens, from)
}

/// `change {"," change}`
fn changes(
    alloc: Global,
    tokens: &Tokens<'_>,
    from: u32,
) -> Result<(Items<FeatureModifier>, u32), Rejection>
    ensures next { IfOk result (λ read. IsAfter tokens.now.list.now from read.1) }
    ensures refused { IfErr result (IsUnexpected tokens.now.file) }
    ensures exact { ReadsAs (list change_form) tokens.now from result }
{
    let (first, mut next) = change(alloc, tokens, from)?;
    let mut changes = Items::new(alloc);
    changes.push(first)?;
    'more: while tokens.is_sign(next, Sign::Comma) {
        let (change, end) = change(alloc, tokens, next + 1)?;
        changes.push(change)?;
        next = end;
    }
    Ok((changes, next))
}

/// `F "->" new_name`
fn change(
    alloc: Global,
    tokens: &Tokens<'_>,
    from: u32,
) -> Result<(FeatureModifier, u32), Rejection>
    ensures next { IfOk result (λ read. IsAfter tokens.now.list.now from read.1) }
    ensures refused { IfErr result (IsUnexpected tokens.now.file) }
    ensures exact { ReadsAs change_form tokens.now from result }
{
    let (left, next) = feature_name(alloc, tokens, from)?;
    let next = tokens.after_sign(next, Sign::Arrow)?;
    let (new, next) = new_name(alloc, tokens, next)?;
    Ok((change_of(left, new), next))
}

/// `[["private" | "readonly"] F]`
fn new_name(alloc: Global, tokens: &Tokens<'_>, from: u32) -> Result<(NewName, u32), Rejection>
    requires { from ≤ length tokens.now.list.now }
    ensures next { IfOk result (λ read. IsFrom tokens.now.list.now from read.1) }
    ensures refused { IfErr result (IsUnexpected tokens.now.file) }
    ensures exact { (f : Lexeme) → ReadsAs (changed_form f) tokens.now from (map_value (renamed f) result) }
{
    let (access, next) = match tokens.kind(from) {
        Some(TokenKind::Lower | TokenKind::IterName) => (Access::Public, from),
        Some(TokenKind::Word(Word::Private)) => (Access::Private, from + 1),
        Some(TokenKind::Word(Word::Readonly)) => (Access::ReadOnly, from + 1),
        _ => {
            let new = NewName {
                access: Access::Public,
                name: None,
            };
            return Ok((new, from));
        }
    };
    let (name, next) = feature_name(alloc, tokens, next)?;
    let name = Some(name.name);
    Ok((NewName { access, name }, next))
}
