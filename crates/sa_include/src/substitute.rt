//! What an included feature is in the including class: types with the given ones substituted for the included class's parameters,
//! and statements that are shared where nothing in them changes.

ghost use Rattle.std.specs.Prelude.{◌≡◌, IfOk};
ghost use Rattle.std.specs.Option.{option_map};
ghost use Rattle.sa_subst.specs.Table.{put_in};
ghost use Rattle.sa_subst.specs.Trees.{expr_with};
ghost use Rattle.sa_include.specs.Parts.{part_with};

use crate::budget::{Budget, FEATURE_FORMS};
use crate::size::{
    size_of_formals, size_of_optional_type, size_of_stmts, size_of_type, size_of_value,
};
use crate::weights::{Weights, size_of_bytes};
use failure::Failure;
use sa_ast::{
    Access, Body, Expr, Feature, FeatureBody, FormalParam, Local, Name, Shared, Ty, TypeParam,
};
use sa_subst::{Substitution, subst_expr, subst_stmts, subst_with};
use sqlite_items::Items;
use std::alloc::Global;

/// What an include clause substitutes for the parameters of the class that it includes.
#[derive(Drop)]
pub(crate) struct TypeArguments<'a> {
    by: Substitution<'a>,
    /// Whether a given type differs from the parameter that it stands for.
    changes: bool,
    weights: Weights,
}

impl<'a> TypeArguments<'a> {
    /// The given types for the parameters in order. A parameter without one stays, and one without a parameter is
    /// dropped. SAME stays as it is, and means the including class then.
    pub(crate) fn new(
        alloc: Global,
        params: &[TypeParam],
        given: &'a [Ty],
        same: &'a Ty,
    ) -> Result<TypeArguments<'a>, Failure> {
        let weights = weights_of(alloc, params, given)?;
        let by = Substitution::make(alloc, params, given, same)?;
        Ok(TypeArguments {
            by,
            changes: has_change(params, given),
            weights,
        })
    }
}

/// How many AST nodes count for each parameter with a given type: those of that type.
fn weights_of(alloc: Global, params: &[TypeParam], given: &[Ty]) -> Result<Weights, Failure> {
    let none = Weights::new(alloc);
    let mut weights = Weights::new(alloc);
    for (place, param) in params.iter().enumerate() {
        let Some(ty) = given.get(place) else {
            break;
        };
        weights.add(alloc, param, size_of_type(ty, &none).forms)?;
    }
    Ok(weights)
}

/// Whether a given type isn't the parameter that it stands for.
fn has_change(params: &[TypeParam], given: &[Ty]) -> bool {
    for (place, param) in params.iter().enumerate() {
        let Some(ty) = given.get(place) else {
            return false;
        };
        if !is_named(ty, &param.name.name) {
            return true;
        }
    }
    false
}

/// Whether a type is this name alone.
fn is_named(ty: &Ty, name: &Name) -> bool {
    match ty {
        Ty::Named(other, given, _) => given.is_empty() && other == name,
        _ => false,
    }
}

/// Whether the statements of a feature write one of these parameters.
pub(crate) fn is_open(feature: &Feature, params: &Weights) -> bool {
    match &feature.part {
        FeatureBody::Routine(body) => size_of_stmts(body.get().as_slice(), params).has_params,
        _ => false,
    }
}

/// The AST nodes of an included feature without its statements, with its name in the including class.
fn forms_of_head(feature: &Feature, name: &Name, weights: &Weights) -> u64 {
    let formals = size_of_formals(feature.formals.as_slice(), weights);
    let result = size_of_optional_type(&feature.result, weights);
    let value = size_of_value(&feature.part, weights);
    let head = size_of_bytes(name).plus(formals).plus(result).plus(value);
    head.forms.saturating_add(FEATURE_FORMS)
}

/// A part of a feature in an including class, and whether its statements may write a parameter of some class.
#[derive(Drop)]
struct IncludedPart {
    part: FeatureBody,
    open: bool,
}

/// What a feature is called in an including class, and who sees it there.
#[derive(Drop)]
pub(crate) struct RenamedFeature {
    pub(crate) name: Name,
    pub(crate) access: Access,
}

/// A feature of an including class, and whether its statements may write a parameter of some class.
#[derive(Drop)]
pub(crate) struct Included {
    pub(crate) feature: Feature,
    pub(crate) open: bool,
}

/// What included features are made with.
#[derive(Drop)]
pub(crate) struct Maker<'a> {
    /// The parameters of all classes of the program.
    pub(crate) params: &'a Weights,
    pub(crate) budget: Budget,
}

impl<'a> Maker<'a> {
    /// A feature in the including class. `open` is whether its statements may write a parameter of some class.
    ///
    /// # Errors
    ///
    /// `NoMemory` also where the includes of the program would bring more than they may.
    pub(crate) fn include(
        &mut self,
        alloc: Global,
        feature: &Feature,
        open: bool,
        renamed: RenamedFeature,
        arguments: &TypeArguments<'_>,
    ) -> Result<Included, Failure> {
        self.budget
            .take(forms_of_head(feature, &renamed.name, &arguments.weights))?;
        let IncludedPart { part, open } = self.part(alloc, &feature.part, open, arguments)?;
        let feature = with_part(alloc, feature, renamed, part, &arguments.by)?;
        Ok(Included { feature, open })
    }

    /// The part of an included feature. The statements of a routine or an iter are copied only if a type in them
    /// changes.
    fn part(
        &mut self,
        alloc: Global,
        part: &FeatureBody,
        open: bool,
        arguments: &TypeArguments<'_>,
    ) -> Result<IncludedPart, Failure> {
        if open && arguments.changes {
            if let FeatureBody::Routine(body) = part {
                return self.routine(alloc, body, arguments);
            }
        }
        let part = subst_part(alloc, part, &arguments.by)?;
        Ok(IncludedPart { part, open })
    }

    /// A routine or an iter whose statements may write a parameter.
    fn routine(
        &mut self,
        alloc: Global,
        body: &Body,
        arguments: &TypeArguments<'_>,
    ) -> Result<IncludedPart, Failure> {
        let list = body.get().as_slice();
        let size = size_of_stmts(list, &arguments.weights);
        if !size.has_params {
            let part = FeatureBody::Routine(body.share()?);
            return Ok(IncludedPart { part, open: true });
        }
        self.budget.take(size.forms)?;
        let copy = subst_stmts(alloc, list, &arguments.by)?;
        let open = size_of_stmts(copy.as_slice(), self.params).has_params;
        let part = FeatureBody::Routine(Shared::new(alloc, copy)?);
        Ok(IncludedPart { part, open })
    }
}

/// A feature with types substituted, of this name and access and with this part.
fn with_part(
    alloc: Global,
    feature: &Feature,
    renamed: RenamedFeature,
    part: FeatureBody,
    by: &Substitution<'_>,
) -> Result<Feature, Failure> {
    let formals = subst_formals(alloc, feature.formals.as_slice(), by)?;
    let result = subst_optional_type(alloc, &feature.result, by)?;
    let RenamedFeature { name, access } = renamed;
    Ok(Feature {
        name: Local {
            name,
            pos: feature.name.pos,
        },
        access,
        formals,
        result,
        part,
    })
}

/// A part of a feature with types substituted. Statements are shared, as they are.
pub(crate) fn subst_part(
    alloc: Global,
    part: &FeatureBody,
    by: &Substitution<'_>,
) -> Result<FeatureBody, Failure>
    ensures { IfOk result (λ copy. copy ≡ part_with (put_in by.now) part.now) }
{
    match part {
        FeatureBody::Routine(body) => Ok(FeatureBody::Routine(body.share()?)),
        FeatureBody::Signature => Ok(FeatureBody::Signature),
        FeatureBody::Stub => Ok(FeatureBody::Stub),
        FeatureBody::Builtin(class, feature) => {
            let class = class.copy(alloc)?;
            Ok(FeatureBody::Builtin(class, feature.copy(alloc)?))
        }
        FeatureBody::Attr => Ok(FeatureBody::Attr),
        FeatureBody::Shared(e) => Ok(FeatureBody::Shared(subst_optional_expr(alloc, e, by)?)),
        FeatureBody::Const(e, more) => Ok(FeatureBody::Const(
            subst_optional_expr(alloc, e, by)?,
            *more,
        )),
    }
}

fn subst_optional_expr(
    alloc: Global,
    e: &Option<Expr>,
    by: &Substitution<'_>,
) -> Result<Option<Expr>, Failure>
    ensures { IfOk result (λ copy. copy ≡ option_map (expr_with (put_in by.now)) e.now) }
{
    match e {
        None => Ok(None),
        Some(e) => Ok(Some(subst_expr(alloc, e, by)?)),
    }
}

/// The arguments of a feature with types substituted.
fn subst_formals(
    alloc: Global,
    formals: &[FormalParam],
    by: &Substitution<'_>,
) -> Result<Items<FormalParam>, Failure> {
    let mut copies = Items::new(alloc);
    for formal in formals {
        copies.push(subst_formal(alloc, formal, by)?)?;
    }
    Ok(copies)
}

fn subst_formal(
    alloc: Global,
    formal: &FormalParam,
    by: &Substitution<'_>,
) -> Result<FormalParam, Failure> {
    let name = formal.local.name.copy(alloc)?;
    let ty = subst_with(alloc, &formal.ty, by)?;
    Ok(FormalParam {
        mode: formal.mode,
        local: Local {
            name,
            pos: formal.local.pos,
        },
        ty,
    })
}

/// A type that may be missing with types substituted.
fn subst_optional_type(
    alloc: Global,
    ty: &Option<Ty>,
    by: &Substitution<'_>,
) -> Result<Option<Ty>, Failure> {
    match ty {
        None => Ok(None),
        Some(ty) => Ok(Some(subst_with(alloc, ty, by)?)),
    }
}
