//! Whether the types of a program are well formed, each by itself: its kind, its attributes, and its supertypes.

ghost use Rattle.std.specs.Prelude.{◌≡◌, IfOk, None, nat_eq};
ghost use Rattle.std.specs.Cmp.Lexicographic.{pointwise};
ghost use Rattle.sa_typing.specs.Rows.{rows};
ghost use Rattle.sa_typing.specs.Types.{have_supertypes_in, has_next, is_closed, has_supertypes_in, is_next, makes_up};
ghost use Rattle.sa_typing.specs.Types.{are_valid_supertypes, fits_class, fits_bound, fits_kind, is_variance_alike, has_fault_attributes, has_layout};
ghost use Rattle.sa_typing.specs.Types.{has_no_attributes, is_after, is_alike};
ghost use Rattle.sa_typing.specs.Types.{is_bound_supertype, is_param_alike, is_part, is_plain_immutable, is_plain_reference, is_result_alike};
ghost use Rattle.sa_typing.specs.Types.{is_valid_supertype, put_in, rises_from, call_types_alike, well_base_types, well_type, well_types};
ghost use Rattle.sa_typing.specs.Types.{are_two_ints};

use crate::builtins::{BOOL, CHAR, FAULT, INT, OB, STR};
use crate::call_type::CallType;
use crate::expr_type::{ParamType, agree, is_same_mode};
use crate::features::{are_types, is_type_or_none};
use crate::view::{
    TypingView, call_type_at, is_abstract_kind, is_immutable_kind, is_reference_kind,
};
use failure::{Failure, Invariant};
use sa_ast::{ClassKind, Mode, Ty};
use sa_graph::word;
use sa_subst::is_abstract;
use sa_typed::TypeDef;
use std::alloc::Global;

/// Whether all types are well formed.
#[tactic(auto, using(crate::proofs::Listed::types))]
pub(crate) fn well_types(alloc: Global, view: &TypingView<'_>) -> Result<bool, Failure>
    ensures { IfOk result (λ well. well ≡ well_types (rows view.now) 0 view.now.types.now) }
{
    for (number, info) in view.types.iter().enumerate() {
        if !well_type(alloc, view, number, info)? {
            return Ok(false);
        }
    }
    Ok(true)
}

fn well_type(
    alloc: Global,
    view: &TypingView<'_>,
    number: usize,
    info: &TypeDef,
) -> Result<bool, Failure>
    ensures { IfOk result (λ well. well ≡ well_type (rows view.now) number info.now) }
{
    let above = info.above.as_slice();
    let closed = is_closed(alloc, view, word(number, Invariant::CheckedCount)?, above)?;
    Ok(
        fits_kind(view, number, info)
            && has_layout(view, info)
            && is_rising(above)
            && are_valid_supertypes(view, number, above)
            && closed,
    )
}

/// Whether the supertypes of a type's supertypes are its supertypes too. This is so where one of them has all the others as supertypes, if
/// it is so of that one.
fn is_closed(alloc: Global, view: &TypingView<'_>, ty: u32, above: &[u32]) -> Result<bool, Failure>
    ensures { IfOk result (λ closed. closed ≡ is_closed (rows view.now) ty above.now) }
{
    if has_next(alloc, view, above, above)? {
        return Ok(true);
    }
    let holders = holders(alloc, ty, above)?;
    Ok(have_supertypes_in(view, holders.as_slice(), above))
}

/// Whether, for one of the types in a list, it and its proper supertypes are these.
#[tactic(auto, using(crate::proofs::Listed::uppers))]
fn has_next(
    alloc: Global,
    view: &TypingView<'_>,
    above: &[u32],
    list: &[u32],
) -> Result<bool, Failure>
    ensures { IfOk result (λ found. found ≡ has_next (rows view.now) above.now list.now) }
{
    for upper in list {
        if is_next(alloc, view, above, *upper)? {
            return Ok(true);
        }
    }
    Ok(false)
}

/// Whether a type and its proper supertypes are these.
fn is_next(alloc: Global, view: &TypingView<'_>, above: &[u32], upper: u32) -> Result<bool, Failure>
    ensures { IfOk result (λ is. is ≡ is_next (rows view.now) above.now upper) }
{
    match view.types.get(upper as usize) {
        Some(info) => makes_up(alloc, upper, above, info),
        None => Ok(false),
    }
}

/// Whether a type with this number and its proper supertypes are these.
#[tactic(auto, unfolding(crate::specs::Types::makes_up))]
fn makes_up(alloc: Global, upper: u32, above: &[u32], info: &TypeDef) -> Result<bool, Failure>
    ensures { IfOk result (λ is. is ≡ makes_up upper above.now info.now) }
{
    let own = info.above.as_slice();
    if own.len() + 1 != above.len() {
        return Ok(false);
    }
    let holders = holders(alloc, upper, own)?;
    Ok(are_same(holders.as_slice(), above))
}

/// Whether two lists are equal.
#[tactic(auto, using(sa_ast::proofs::Pointwise::places))]
fn are_same(one: &[u32], other: &[u32]) -> bool
    ensures { result ≡ pointwise nat_eq one.now other.now }
{
    if one.len() != other.len() {
        return false;
    }
    for (i, item) in one.iter().enumerate() {
        if *item != other[i] {
            return false;
        }
    }
    true
}

/// Whether the kind of a type is that of its name.
#[tactic(auto, using(sa_ast::proofs::BareTypes::bares))]
fn fits_kind(view: &TypingView<'_>, number: usize, info: &TypeDef) -> bool
    ensures { result ≡ fits_kind (rows view.now) number info.now }
{
    match &info.ty {
        Ty::Named(_, _, _) => fits_class(info),
        Ty::Same(_) => false,
        Ty::Rout(_, _, _) => fits_bound(view, number, info),
        Ty::Iter(_, _, _) => fits_bound(view, number, info),
    }
}

/// Whether a class is abstract where its name begins with `$`, and isn't partial.
fn fits_class(info: &TypeDef) -> bool
    ensures { result ≡ fits_class info.now }
{
    match info.kind {
        ClassKind::Partial => false,
        _ => agree(is_abstract(&info.ty), is_abstract_kind(info.kind)),
    }
}

/// Whether the types of a bound type are types of the program, and it is a reference without attributes and elements.
fn fits_bound(view: &TypingView<'_>, number: usize, info: &TypeDef) -> bool
    ensures { result ≡ fits_bound (rows view.now) number info.now }
{
    call_type_at(view.bound, number).is_some()
        && is_reference_kind(info.kind)
        && info.attrs.is_empty()
        && !info.array
}

/// Whether the types of its attributes and elements are types of the program, an abstract type has no attributes, and only objects
/// have elements.
fn has_layout(view: &TypingView<'_>, info: &TypeDef) -> bool
    ensures { result ≡ has_layout (rows view.now) info.now }
{
    info.slots as usize == info.attrs.len()
        && are_types(view, info.attrs.as_slice())
        && is_type_or_none(view, info.elem)
        && (info.attrs.is_empty() || !is_abstract_kind(info.kind))
        && (!info.array || is_reference_kind(info.kind))
}

/// The supertypes of a type in ascending order, itself among them.
#[tactic(auto, using(crate::proofs::Listed::holders))]
fn holders(alloc: Global, ty: u32, above: &[u32]) -> Result<Vec<u32>, Failure>
    ensures { IfOk result (λ list. list.items ≡ put_in ty above.now) }
{
    let mut list = Vec::new(alloc);
    let mut waits = true;
    for upper in above {
        if waits && ty < *upper {
            list.push(ty)?;
            waits = false;
        }
        list.push(*upper)?;
    }
    if waits {
        list.push(ty)?;
    }
    Ok(list)
}

/// Whether each number is greater than the one before it.
#[tactic(auto, using(crate::proofs::Listed::rising))]
fn is_rising(list: &[u32]) -> bool
    ensures { result ≡ rises_from None list.now }
{
    let mut last = None;
    for item in list {
        if !is_after(last, *item) {
            return false;
        }
        last = Some(*item);
    }
    true
}

/// Whether a number is greater than the one before it, if there is one.
pub(crate) fn is_after(last: Option<u32>, item: u32) -> bool
    ensures { result ≡ is_after last item }
{
    match last {
        Some(last) => last < item,
        None => true,
    }
}

/// Whether these types may be supertypes of one.
#[tactic(auto, using(crate::proofs::Listed::uppers))]
fn are_valid_supertypes(view: &TypingView<'_>, number: usize, list: &[u32]) -> bool
    ensures { result ≡ are_valid_supertypes (rows view.now) number list.now }
{
    for upper in list {
        if !is_valid_supertype(view, number, *upper) {
            return false;
        }
    }
    true
}

/// Whether a type may be a supertype of another: it is abstract, or a bound type for whose values those of the other may be used.
fn is_valid_supertype(view: &TypingView<'_>, number: usize, upper: u32) -> bool
    ensures { result ≡ is_valid_supertype (rows view.now) number upper }
{
    view.is_abstract(upper) || is_bound_supertype(view, number, upper)
}

/// Whether all proper supertypes of the types in a list are among these.
#[tactic(auto, using(crate::proofs::Listed::uppers))]
fn have_supertypes_in(view: &TypingView<'_>, holders: &[u32], list: &[u32]) -> bool
    ensures { result ≡ have_supertypes_in (rows view.now) holders.now list.now }
{
    for upper in list {
        if !has_supertypes_in(view, holders, *upper) {
            return false;
        }
    }
    true
}

/// Whether all proper supertypes of a type are among these.
fn has_supertypes_in(view: &TypingView<'_>, holders: &[u32], upper: u32) -> bool
    ensures { result ≡ has_supertypes_in (rows view.now) holders.now upper }
{
    match view.types.get(upper as usize) {
        Some(info) => is_part(info.above.as_slice(), holders),
        None => false,
    }
}

/// Whether a list is a sublist of another, in the same order.
#[tactic(auto, using(crate::proofs::Listed::parts))]
fn is_part(part: &[u32], whole: &[u32]) -> bool
    ensures { result ≡ is_part part.now whole.now }
{
    let mut found = 0usize;
    for item in whole {
        if found < part.len() && part[found] == *item {
            found += 1;
        }
    }
    found == part.len()
}

/// Whether values of a bound type may be used as those of another.
fn is_bound_supertype(view: &TypingView<'_>, number: usize, upper: u32) -> bool
    ensures { result ≡ is_bound_supertype (rows view.now) number upper }
{
    match (
        call_type_at(view.bound, number),
        call_type_at(view.bound, upper as usize),
    ) {
        (Some(lower), Some(upper)) => call_types_alike(view, lower, upper),
        _ => false,
    }
}

fn call_types_alike(view: &TypingView<'_>, lower: &CallType, upper: &CallType) -> bool
    ensures { result ≡ call_types_alike (rows view.now) lower.now upper.now }
{
    agree(lower.iter, upper.iter)
        && is_result_alike(view, lower.result, upper.result)
        && are_params_alike(view, lower.params.as_slice(), upper.params.as_slice())
}

#[tactic(auto, using(sa_ast::proofs::Pointwise::places))]
fn are_params_alike(view: &TypingView<'_>, lower: &[ParamType], upper: &[ParamType]) -> bool
    ensures { result ≡ pointwise (is_param_alike (rows view.now)) lower.now upper.now }
{
    if lower.len() != upper.len() {
        return false;
    }
    for (i, param) in lower.iter().enumerate() {
        if !is_param_alike(view, *param, upper[i]) {
            return false;
        }
    }
    true
}

fn is_param_alike(view: &TypingView<'_>, lower: ParamType, upper: ParamType) -> bool
    ensures { result ≡ is_param_alike (rows view.now) lower upper }
{
    is_same_mode(lower.mode, upper.mode) && is_variance_alike(view, lower.mode, lower.ty, upper.ty)
}

fn is_variance_alike(view: &TypingView<'_>, mode: Mode, lower: u32, upper: u32) -> bool
    ensures { result ≡ is_variance_alike (rows view.now) mode lower upper }
{
    match mode {
        Mode::In => is_alike(view, upper, lower),
        Mode::Once => is_alike(view, upper, lower),
        Mode::Out => is_alike(view, lower, upper),
        Mode::Inout => lower == upper,
    }
}

fn is_result_alike(view: &TypingView<'_>, lower: Option<u32>, upper: Option<u32>) -> bool
    ensures { result ≡ is_result_alike (rows view.now) lower upper }
{
    match (lower, upper) {
        (Some(lower), Some(upper)) => is_alike(view, lower, upper),
        (None, None) => true,
        _ => false,
    }
}

/// Whether a type is another or a subtype of it, with the same representation of values: where they differ, neither is immutable.
fn is_alike(view: &TypingView<'_>, lower: u32, upper: u32) -> bool
    ensures { result ≡ is_alike (rows view.now) lower upper }
{
    lower == upper
        || (!view.is_immutable(lower)
            && !view.is_immutable(upper)
            && view.is_strict_supertype(upper, lower))
}

/// Whether the types that have the same numbers in each program are what they have to be.
pub(crate) fn well_base_types(view: &TypingView<'_>) -> bool
    ensures { result ≡ well_base_types (rows view.now) }
{
    view.is_abstract(OB)
        && is_plain_immutable(view, BOOL)
        && is_plain_immutable(view, INT)
        && is_plain_immutable(view, CHAR)
        && is_plain_reference(view, STR)
        && has_no_attributes(view, STR)
        && is_plain_reference(view, FAULT)
        && has_fault_attributes(view)
        && view.is_strict_supertype(OB, FAULT)
}

/// Whether a type is an immutable class without attributes.
fn is_plain_immutable(view: &TypingView<'_>, ty: u32) -> bool
    ensures { result ≡ is_plain_immutable (rows view.now) ty }
{
    match view.types.get(ty as usize) {
        Some(info) => is_immutable_kind(info.kind) && info.attrs.is_empty(),
        None => false,
    }
}

/// Whether a type is a reference class without elements.
fn is_plain_reference(view: &TypingView<'_>, ty: u32) -> bool
    ensures { result ≡ is_plain_reference (rows view.now) ty }
{
    view.is_reference(ty) && call_type_at(view.bound, ty as usize).is_none() && !view.has_array(ty)
}

/// Whether a type has no attributes.
fn has_no_attributes(view: &TypingView<'_>, ty: u32) -> bool
    ensures { result ≡ has_no_attributes (rows view.now) ty }
{
    match view.types.get(ty as usize) {
        Some(info) => info.attrs.is_empty(),
        None => false,
    }
}

/// Whether FAULT has two attributes of INT, its kind and its line.
fn has_fault_attributes(view: &TypingView<'_>) -> bool
    ensures { result ≡ has_fault_attributes (rows view.now) }
{
    match view.types.get(FAULT as usize) {
        Some(info) => are_two_ints(info.attrs.as_slice()),
        None => false,
    }
}

fn are_two_ints(list: &[u32]) -> bool
    ensures { result ≡ are_two_ints list.now }
{
    match list {
        [first, second] => *first == INT && *second == INT,
        _ => false,
    }
}
