//! Classes: one function for each production of their grammar.
//!
//! ```text
//! class         = "abstract" "class" abstract_head "is" signatures "end"
//!               | kind "class" concrete_head "is" members "end"
//! kind          = ["immutable" | "partial"]
//! abstract_head = ANAME params subs [">" types]
//! concrete_head = CNAME params subs
//! params        = ["{" param_list "}"]
//! param_list    = param {"," param}
//! param         = CNAME ["<" type]
//! subs          = ["<" types]
//! signatures    = [sig] {";" [sig]}
//! members       = [member] {";" [member]}
//! ```

ghost use Rattle.std.specs.Prelude.{◌≡◌, ℕ, ◌+◌, ◌<◌, ◌≤◌, List, [], ◌∷◌, ◌++◌, IfErr, IfOk, OnOk, length};
ghost use Rattle.std.specs.Option.{option_to_list};
ghost use Rattle.sa_parser_expr.specs.Exactly.{ReadsAs, map_value};
ghost use Rattle.sa_parser_expr.specs.Forms.{list};
ghost use Rattle.sa_parser_expr.specs.Positions.{IsAfter, IsFrom, IsUnexpected};
ghost use Rattle.sa_parser.specs.declared.member.Declaration.{Declaration};
ghost use Rattle.sa_parser.specs.ClassForms.{abstract_form, abstract_head_form, class_form, concrete_class_form, concrete_head_form};
ghost use Rattle.sa_parser.specs.ClassForms.{KindAt, edges_form, members_form, members_inside_form, none_yet, optional_member_form};
ghost use Rattle.sa_parser.specs.ClassForms.{optional_sig_form, param_form, params_form, signatures_form, signatures_inside_form};
ghost use Rattle.sa_parser.specs.ClassForms.{types_after_form};
ghost use Rattle.sa_parser.specs.Classes.{clauses_at, contract_of, enclosing, includes_of, class_body_of, invariants_of, or_before};
ghost use Rattle.sa_parser.specs.Classes.{signed, whole_of, whole_with};
ghost use Rattle.sa_parser.specs.ConditionForms.{with_ast};
ghost use Rattle.sa_parser.specs.Features.{features_of};
ghost use Rattle.sa_parser.specs.MappedReads.{ReadsMade};

use crate::contract::Clauses;
use crate::file::FileKind;
use crate::member::{ClassContext, Declaration, member, of_sig};
use crate::names::{abstract_name, class_name};
use crate::sharing::Sharing;
use crate::signature::sig;
use crate::starts::begins_member;
use sa_ast::{
    Access, Class, ClassKind, Condition, Contract, Feature, FeatureBody, Include, Local, Rejection,
    Ty, TypeParam,
};
use sa_lexer::{Sign, TokenKind, Word};
use sa_parser_expr::{Tokens, read_type, read_types};
use sqlite_items::Items;
use std::alloc::{AllocError, Global};

/// The header of a class: what comes between its `class` and its `is`.
#[derive(Drop)]
struct Head {
    name: Local,
    params: Items<TypeParam>,
    edges: DeclaredEdges,
}

/// The supertypes and the subtypes that a class declares.
#[derive(Drop)]
struct DeclaredEdges {
    below: Items<Ty>,
    above: Items<Ty>,
}

/// The body of a class: what comes between its `is` and its `end`.
#[derive(Drop)]
pub(crate) struct ClassBody {
    includes: Items<Include>,
    features: Items<Feature>,
    /// The clauses of the features.
    clauses: Items<Contract>,
    /// The invariant of the class.
    pub(crate) invariant: Option<Condition>,
}

impl ClassBody {
    fn new(alloc: Global) -> ClassBody
        ensures features { result.features ≡ [] }
        ensures exact { result ≡ signed [] }
    {
        ClassBody {
            includes: Items::new(alloc),
            features: Items::new(alloc),
            clauses: Items::new(alloc),
            invariant: None,
        }
    }

    /// Adds what a member of the class with this index gives after the others.
    fn put(&mut self, class: u32, member: Declaration) -> Result<(), AllocError>
        requires { length self.old.features < 4294967296 }
        ensures includes { OnOk result (self.new.includes ≡ self.old.includes ++ includes_of member) }
        ensures features { OnOk result (self.new.features ≡ self.old.features ++ features_of member) }
        ensures clauses { OnOk result (self.new.clauses ≡ self.old.clauses ++ clauses_at class (length self.old.features) member) }
        ensures invariant { OnOk result (self.new.invariant ≡ or_before (invariants_of member) self.old.invariant) }
    {
        match member {
            Declaration::Variables(features) => self.features.append(features),
            Declaration::Called(feature, clauses) => self.put_called(class, feature, clauses),
            Declaration::Include(include) => self.includes.push(include),
            Declaration::Invariant(holds) => {
                self.invariant = Some(holds);
                Ok(())
            }
        }
    }

    /// Adds a feature of the class with this index after the others, and its clauses.
    fn put_called(
        &mut self,
        class: u32,
        feature: Feature,
        clauses: Clauses,
    ) -> Result<(), AllocError>
        requires { length self.old.features < 4294967296 }
        ensures features { OnOk result (self.new.features ≡ self.old.features ++ feature ∷ []) }
        ensures clauses { OnOk result (self.new.clauses
            ≡ self.old.clauses ++ contract_of class (length self.old.features) clauses.pre clauses.post) }
        ensures others { OnOk result ((self.new.includes ≡ self.old.includes) × (self.new.invariant ≡ self.old.invariant)) }
    {
        let place = self.features.len() as u32;
        if let Some(contract) = clauses.of(class, place) {
            self.clauses.push(contract)?;
        }
        self.features.push(feature)
    }
}

/// A class with its contracts.
#[derive(Drop)]
pub(crate) struct WholeClass {
    pub(crate) class: Class,
    /// The clauses of its features.
    pub(crate) clauses: Items<Contract>,
    pub(crate) invariant: Option<Condition>,
}

fn whole_class(kind: ClassKind, head: Head, inside: ClassBody) -> WholeClass
    ensures { result ≡ whole_with kind head inside }
{
    let class = Class {
        kind,
        name: head.name,
        params: head.params,
        below: head.edges.below,
        above: head.edges.above,
        includes: inside.includes,
        features: inside.features,
    };
    WholeClass {
        class,
        clauses: inside.clauses,
        invariant: inside.invariant,
    }
}

/// A class, which has this index among the classes.
pub(crate) fn class(
    alloc: Global,
    tokens: &Tokens<'_>,
    file_kind: FileKind,
    place: u32,
    sharing: &mut Sharing,
    from: u32,
) -> Result<(WholeClass, u32), Rejection>
    ensures next { IfOk result (λ read. IsAfter tokens.now.list.now from read.1) }
    ensures refused { IfErr result (IsUnexpected tokens.now.file) }
    ensures exact { ReadsMade (class_form file_kind) (whole_of place) tokens.now from result }
{
    if tokens.is_word(from, Word::Abstract) {
        return abstract_class(alloc, tokens, sharing, from + 1);
    }
    concrete_class(alloc, tokens, file_kind, place, sharing, from)
}

/// `"class" abstract_head "is" signatures "end"`
fn abstract_class(
    alloc: Global,
    tokens: &Tokens<'_>,
    sharing: &mut Sharing,
    from: u32,
) -> Result<(WholeClass, u32), Rejection>
    ensures next { IfOk result (λ read. IsAfter tokens.now.list.now from read.1) }
    ensures refused { IfErr result (IsUnexpected tokens.now.file) }
    ensures exact { (place : ℕ) → ReadsMade abstract_form (whole_of place) tokens.now from result }
{
    let next = tokens.after_word(from, Word::Class)?;
    let (head, next) = abstract_head(alloc, tokens, next)?;
    let (inside, next) = abstract_inside(alloc, tokens, sharing, next)?;
    Ok((whole_class(ClassKind::Abstract, head, inside), next))
}

/// `ANAME params subs [">" types]`
fn abstract_head(alloc: Global, tokens: &Tokens<'_>, from: u32) -> Result<(Head, u32), Rejection>
    ensures next { IfOk result (λ read. IsAfter tokens.now.list.now from read.1) }
    ensures refused { IfErr result (IsUnexpected tokens.now.file) }
    ensures exact { ReadsAs abstract_head_form tokens.now from result }
{
    let (name, next) = abstract_name(alloc, tokens, from)?;
    let (params, next) = params(alloc, tokens, next)?;
    let (edges, next) = edges(alloc, tokens, next)?;
    let head = Head {
        name,
        params,
        edges,
    };
    Ok((head, next))
}

/// `subs [">" types]`
fn edges(alloc: Global, tokens: &Tokens<'_>, from: u32) -> Result<(DeclaredEdges, u32), Rejection>
    requires { from ≤ length tokens.now.list.now }
    ensures next { IfOk result (λ read. IsFrom tokens.now.list.now from read.1) }
    ensures refused { IfErr result (IsUnexpected tokens.now.file) }
    ensures exact { ReadsAs edges_form tokens.now from result }
{
    let (below, next) = types_after(alloc, tokens, Sign::Less, from)?;
    let (above, next) = types_after(alloc, tokens, Sign::Greater, next)?;
    Ok((DeclaredEdges { below, above }, next))
}

/// `"is" signatures "end"`
fn abstract_inside(
    alloc: Global,
    tokens: &Tokens<'_>,
    sharing: &mut Sharing,
    from: u32,
) -> Result<(ClassBody, u32), Rejection>
    ensures next { IfOk result (λ read. IsAfter tokens.now.list.now from read.1) }
    ensures refused { IfErr result (IsUnexpected tokens.now.file) }
    ensures exact { ReadsMade signatures_inside_form signed tokens.now from result }
{
    let next = tokens.after_word(from, Word::Is)?;
    let (features, next) = signatures(alloc, tokens, sharing, next)?;
    let next = tokens.after_word(next, Word::End)?;
    let mut inside = ClassBody::new(alloc);
    inside.features = features;
    Ok((inside, next))
}

/// `kind "class" concrete_head "is" members "end"`
fn concrete_class(
    alloc: Global,
    tokens: &Tokens<'_>,
    file_kind: FileKind,
    place: u32,
    sharing: &mut Sharing,
    from: u32,
) -> Result<(WholeClass, u32), Rejection>
    ensures next { IfOk result (λ read. IsAfter tokens.now.list.now from read.1) }
    ensures refused { IfErr result (IsUnexpected tokens.now.file) }
    ensures exact { ReadsMade (concrete_class_form file_kind) (whole_of place) tokens.now from result }
{
    let (kind, next) = kind(tokens, from);
    let next = tokens.after_word(next, Word::Class)?;
    let (head, next) = concrete_head(alloc, tokens, next)?;
    let class = ClassContext {
        place,
        name: &head.name.name,
        kind,
        file_kind,
    };
    let (inside, next) = concrete_inside(alloc, tokens, class, sharing, next)?;
    Ok((whole_class(kind, head, inside), next))
}

/// `["immutable" | "partial"]`
fn kind(tokens: &Tokens<'_>, from: u32) -> (ClassKind, u32)
    ensures from { from ≤ result.1 }
    ensures within { from ≤ length tokens.now.list.now → result.1 ≤ length tokens.now.list.now }
    ensures exact { KindAt tokens.now.list.now from result.0 result.1 }
{
    match tokens.kind(from) {
        Some(TokenKind::Word(Word::Immutable)) => (ClassKind::Immutable, from + 1),
        Some(TokenKind::Word(Word::Partial)) => (ClassKind::Partial, from + 1),
        _ => (ClassKind::Reference, from),
    }
}

/// `CNAME params subs`
fn concrete_head(alloc: Global, tokens: &Tokens<'_>, from: u32) -> Result<(Head, u32), Rejection>
    ensures next { IfOk result (λ read. IsAfter tokens.now.list.now from read.1) }
    ensures refused { IfErr result (IsUnexpected tokens.now.file) }
    ensures exact { ReadsAs concrete_head_form tokens.now from result }
{
    let (name, next) = class_name(alloc, tokens, from)?;
    let (params, next) = params(alloc, tokens, next)?;
    let (below, next) = types_after(alloc, tokens, Sign::Less, next)?;
    let head = Head {
        name,
        params,
        edges: DeclaredEdges {
            below,
            above: Items::new(alloc),
        },
    };
    Ok((head, next))
}

/// `"is" members "end"`
fn concrete_inside(
    alloc: Global,
    tokens: &Tokens<'_>,
    class: ClassContext<'_>,
    sharing: &mut Sharing,
    from: u32,
) -> Result<(ClassBody, u32), Rejection>
    ensures next { IfOk result (λ read. IsAfter tokens.now.list.now from read.1) }
    ensures refused { IfErr result (IsUnexpected tokens.now.file) }
    ensures exact { ReadsMade (members_inside_form (enclosing class.entry)) (class_body_of class.entry.place) tokens.now from result }
{
    let next = tokens.after_word(from, Word::Is)?;
    let (inside, next) = members(alloc, tokens, class, sharing, next)?;
    let next = tokens.after_word(next, Word::End)?;
    Ok((inside, next))
}

/// `["{" param_list "}"]`
fn params(
    alloc: Global,
    tokens: &Tokens<'_>,
    from: u32,
) -> Result<(Items<TypeParam>, u32), Rejection>
    requires { from ≤ length tokens.now.list.now }
    ensures next { IfOk result (λ read. IsFrom tokens.now.list.now from read.1) }
    ensures refused { IfErr result (IsUnexpected tokens.now.file) }
    ensures exact { ReadsAs params_form tokens.now from result }
{
    if !tokens.is_sign(from, Sign::LeftBrace) {
        return Ok((Items::new(alloc), from));
    }
    let (params, next) = param_list(alloc, tokens, from + 1)?;
    Ok((params, tokens.after_sign(next, Sign::RightBrace)?))
}

/// `param {"," param}`
fn param_list(
    alloc: Global,
    tokens: &Tokens<'_>,
    from: u32,
) -> Result<(Items<TypeParam>, u32), Rejection>
    ensures next { IfOk result (λ read. IsAfter tokens.now.list.now from read.1) }
    ensures refused { IfErr result (IsUnexpected tokens.now.file) }
    ensures exact { ReadsAs (list param_form) tokens.now from result }
{
    let (first, mut next) = param(alloc, tokens, from)?;
    let mut params = Items::new(alloc);
    params.push(first)?;
    'more: while tokens.is_sign(next, Sign::Comma) {
        let (param, end) = param(alloc, tokens, next + 1)?;
        params.push(param)?;
        next = end;
    }
    Ok((params, next))
}

/// `CNAME ["<" type]`
fn param(alloc: Global, tokens: &Tokens<'_>, from: u32) -> Result<(TypeParam, u32), Rejection>
    ensures next { IfOk result (λ read. IsAfter tokens.now.list.now from read.1) }
    ensures refused { IfErr result (IsUnexpected tokens.now.file) }
    ensures exact { ReadsAs param_form tokens.now from result }
{
    let (name, next) = class_name(alloc, tokens, from)?;
    if !tokens.is_sign(next, Sign::Less) {
        return Ok((TypeParam { name, bound: None }, next));
    }
    let (ty, next) = read_type(alloc, tokens, next + 1)?;
    let bound = Some(ty);
    Ok((TypeParam { name, bound }, next))
}

/// `["<" types]`, or the same with another sign.
fn types_after(
    alloc: Global,
    tokens: &Tokens<'_>,
    sign: Sign,
    from: u32,
) -> Result<(Items<Ty>, u32), Rejection>
    requires { from ≤ length tokens.now.list.now }
    ensures next { IfOk result (λ read. IsFrom tokens.now.list.now from read.1) }
    ensures refused { IfErr result (IsUnexpected tokens.now.file) }
    ensures exact { ReadsAs (types_after_form sign) tokens.now from result }
{
    if !tokens.is_sign(from, sign) {
        return Ok((Items::new(alloc), from));
    }
    read_types(alloc, tokens, from + 1)
}

/// `[sig] {";" [sig]}`
fn signatures(
    alloc: Global,
    tokens: &Tokens<'_>,
    sharing: &mut Sharing,
    from: u32,
) -> Result<(Items<Feature>, u32), Rejection>
    requires { from ≤ length tokens.now.list.now }
    ensures next { IfOk result (λ read. IsFrom tokens.now.list.now from read.1) }
    ensures refused { IfErr result (IsUnexpected tokens.now.file) }
    ensures exact { ReadsAs signatures_form tokens.now from result }
{
    let (first, mut next) = optional_signature(alloc, tokens, sharing, from)?;
    let mut features = Items::new(alloc);
    if let Some(feature) = first {
        features.push(feature)?;
    }
    'more: while tokens.is_sign(next, Sign::Semicolon) {
        let (one, end) = optional_signature(alloc, tokens, sharing, next + 1)?;
        if let Some(feature) = one {
            features.push(feature)?;
        }
        next = end;
    }
    Ok((features, next))
}

/// `[sig]`
fn optional_signature(
    alloc: Global,
    tokens: &Tokens<'_>,
    sharing: &mut Sharing,
    from: u32,
) -> Result<(Option<Feature>, u32), Rejection>
    requires { from ≤ length tokens.now.list.now }
    ensures next { IfOk result (λ read. IsFrom tokens.now.list.now from read.1) }
    ensures refused { IfErr result (IsUnexpected tokens.now.file) }
    ensures exact { ReadsAs optional_sig_form tokens.now from (map_value option_to_list result) }
{
    if !tokens.is_feature_name(from) {
        return Ok((None, from));
    }
    let (sig, next) = sig(alloc, tokens, sharing, from)?;
    Ok((
        Some(of_sig(sig, Access::Public, FeatureBody::Signature)),
        next,
    ))
}

/// `[member] {";" [member]}`
fn members(
    alloc: Global,
    tokens: &Tokens<'_>,
    class: ClassContext<'_>,
    sharing: &mut Sharing,
    from: u32,
) -> Result<(ClassBody, u32), Rejection>
    requires { from ≤ length tokens.now.list.now }
    ensures next { IfOk result (λ read. IsFrom tokens.now.list.now from read.1) }
    ensures refused { IfErr result (IsUnexpected tokens.now.file) }
    ensures exact { ReadsMade (members_form (enclosing class.entry)) (class_body_of class.entry.place) tokens.now from result }
{
    let mut inside = ClassBody::new(alloc);
    let mut next = add_member(alloc, tokens, class, sharing, &mut inside, from)?;
    'more: while tokens.is_sign(next, Sign::Semicolon) {
        next = add_member(alloc, tokens, class, sharing, &mut inside, next + 1)?;
    }
    Ok((inside, next))
}

/// `[member]`, whose parts are added after those of the others.
fn add_member(
    alloc: Global,
    tokens: &Tokens<'_>,
    class: ClassContext<'_>,
    sharing: &mut Sharing,
    inside: &mut ClassBody,
    from: u32,
) -> Result<u32, Rejection>
    requires within { from ≤ length tokens.now.list.now }
    requires count { length inside.old.features ≤ from }
    ensures count { IfOk result (λ next. length inside.new.features ≤ next) }
    ensures next { IfOk result (IsFrom tokens.now.list.now from) }
    ensures refused { IfErr result (IsUnexpected tokens.now.file) }
    ensures exact { (others : List Declaration) → inside.old ≡ class_body_of class.entry.place others
        → ReadsMade (optional_member_form (enclosing class.entry) (none_yet others)) (λ more. class_body_of class.entry.place (others ++ more))
        tokens.now from (with_ast inside.new result) }
{
    if !begins_member(tokens.kind(from), class, inside) {
        return Ok(from);
    }
    let (member, next) = member(alloc, tokens, class, sharing, from)?;
    inside.put(class.place, member)?;
    Ok(next)
}
