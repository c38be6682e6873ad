//! The parameters and result of a target of a class: a feature, a built-in one, or the reader or writer of an attribute or a shared.

ghost use Rattle.std.specs.Prelude.{◌≡◌, option_and_then, slice_get};
ghost use Rattle.sa_typing.specs.Rows.{rows};
ghost use Rattle.sa_typing.specs.Targets.{builtin_parameter, count_if, feature_arity, feature_parameter, shared_type};
ghost use Rattle.sa_typing.specs.Targets.{in_parameter, is_target_iter, only_parameter};
ghost use Rattle.sa_typing.specs.Targets.{set_result, target_arity, target_parameter, target_result};

use crate::builtins::{arity_of, first_type, is_of, result_type, second_type};
use crate::expr_type::ParamType;
use crate::view::TypingView;
use sa_ast::Mode;
use sa_prelude::BuiltinFeature;
use sa_typed::{Target, TypedFeature};

/// How many parameters a target of a class has, or `None` where it is none of the class.
pub(crate) fn target_arity(view: &TypingView<'_>, class: u32, target: Target) -> Option<usize>
    ensures { result ≡ target_arity (rows view.now) class target }
{
    match target {
        Target::Feature(number) => { feature_arity(view.features.get(number as usize)?, class) }
        Target::Builtin(feature) => count_if(arity_of(feature), is_of(view, class, feature)),
        Target::Get(place) => count_if(0, view.attribute(class, place).is_some()),
        Target::Set(place) => count_if(1, view.attribute(class, place).is_some()),
        Target::GetShared(number) => count_if(0, shared_type(view, number).is_some()),
        Target::SetShared(number) => count_if(1, shared_type(view, number).is_some()),
    }
}

/// A count, where a test is true.
fn count_if(count: usize, test: bool) -> Option<usize>
    ensures { result ≡ count_if count test }
{
    if test { Some(count) } else { None }
}

/// How many parameters a feature has, where it is one of the class.
fn feature_arity(feature: &TypedFeature, class: u32) -> Option<usize>
    ensures { result ≡ feature_arity feature.now class }
{
    count_if(feature.modes.len(), feature.class == class)
}

/// The number of the type of a shared.
fn shared_type(view: &TypingView<'_>, number: u32) -> Option<u32>
    ensures { result ≡ shared_type (rows view.now) number }
{
    match view.shareds.get(number as usize) {
        Some(shared) => Some(shared.ty),
        None => None,
    }
}

/// The parameter of a target of a class at an index, or `None` where it has none.
pub fn target_parameter(
    view: &TypingView<'_>,
    class: u32,
    target: Target,
    place: usize,
) -> Option<ParamType>
    ensures { result ≡ target_parameter (rows view.now) class target place }
{
    match target {
        Target::Feature(number) => { feature_parameter(view.features.get(number as usize)?, place) }
        Target::Builtin(feature) => builtin_parameter(view, class, feature, place),
        Target::Set(attribute) => only_parameter(view.attribute(class, attribute), place),
        Target::SetShared(number) => only_parameter(shared_type(view, number), place),
        Target::Get(_) | Target::GetShared(_) => None,
    }
}

/// A parameter of a feature: its mode, and the type of its variable.
fn feature_parameter(feature: &TypedFeature, place: usize) -> Option<ParamType>
    ensures { result ≡ feature_parameter feature.now place }
{
    let mode = *feature.modes.get(place)?;
    let ty = *feature.vars.get(place)?;
    Some(ParamType { mode, ty })
}

/// A parameter of a built-in feature.
fn builtin_parameter(
    view: &TypingView<'_>,
    class: u32,
    feature: BuiltinFeature,
    place: usize,
) -> Option<ParamType>
    ensures { result ≡ builtin_parameter (rows view.now) class feature place }
{
    match place {
        0 => in_parameter(first_type(view, feature)),
        1 => in_parameter(second_type(view, class, feature)),
        _ => None,
    }
}

/// The first and only parameter of the writer of an attribute or a shared.
fn only_parameter(ty: Option<u32>, place: usize) -> Option<ParamType>
    ensures { result ≡ only_parameter ty place }
{
    match place {
        0 => in_parameter(ty),
        _ => None,
    }
}

/// A parameter of mode `in`.
fn in_parameter(ty: Option<u32>) -> Option<ParamType>
    ensures { result ≡ in_parameter ty }
{
    match ty {
        Some(ty) => Some(ParamType { mode: Mode::In, ty }),
        None => None,
    }
}

/// The number of the type of the result of a target of a class, or `None` where it gives nothing.
pub fn target_result(view: &TypingView<'_>, class: u32, target: Target) -> Option<u32>
    ensures { result ≡ target_result (rows view.now) class target }
{
    match target {
        Target::Feature(number) => feature_result(view, number),
        Target::Builtin(feature) => result_type(view, class, feature),
        Target::Get(place) => view.attribute(class, place),
        Target::Set(_) => set_result(view, class),
        Target::GetShared(number) => shared_type(view, number),
        Target::SetShared(_) => None,
    }
}

fn feature_result(view: &TypingView<'_>, number: u32) -> Option<u32>
    ensures { result ≡ option_and_then (λ f. f.result) (slice_get view.now.features.now number) }
{
    match view.features.get(number as usize) {
        Some(feature) => feature.result,
        None => None,
    }
}

/// The writer of an attribute gives a changed copy of an immutable value, and nothing for an object.
fn set_result(view: &TypingView<'_>, class: u32) -> Option<u32>
    ensures { result ≡ set_result (rows view.now) class }
{
    if view.is_immutable(class) {
        Some(class)
    } else {
        None
    }
}

/// Whether a target is an iter.
pub fn is_target_iter(view: &TypingView<'_>, target: Target) -> bool
    ensures { result ≡ is_target_iter (rows view.now) target }
{
    match target {
        Target::Feature(number) => match view.features.get(number as usize) {
            Some(feature) => feature.iter,
            None => false,
        },
        _ => false,
    }
}
