//! The words of a bind, which the call of its values reads: what is called, and which arguments the values capture.

use crate::dispatch::{Implementations, implementations_of};
use crate::{EmitContext, is_immutable, shared_at};
use failure::{Failure, Invariant, broken, known};
use sa_cfg::{BoundLayout, CallTarget};
use sa_prelude::BuiltinFeature;
use sa_runtime::layout::{
    CHOSEN_ADAPTER, CHOSEN_ITER, CHOSEN_ROUTINE, FIRST_BOUND_BUILTIN, GET_OF_OBJECT, GET_OF_VALUE,
    GET_SHARED, ITER, ROUTINE, SET_OF_OBJECT, SET_OF_VALUE, SET_SHARED, attribute_at,
    first_element_at,
};
use sqlite_items::Items;
use std::alloc::Global;

/// How many arguments have their bytes in one word.
const ARGUMENTS_A_WORD: usize = 8;

/// What a bound value calls.
#[derive(Clone, Copy)]
struct BoundTarget {
    /// The number of the form.
    kind: u32,
    /// The index in the table, the offset of an attribute in its object, or the address of a shared.
    number: u32,
}

/// The words of a bind, in the order of their addresses.
///
/// # Errors
///
/// A `Failure`: `Broken` where a number of the entry is out of range.
pub(crate) fn entry_words(
    alloc: Global,
    around: &EmitContext<'_>,
    entry: &BoundLayout,
) -> Result<Items<u64>, Failure> {
    let called = called_of(around, entry)?;
    let count = known(u32::try_from(entry.open.len()).ok(), Invariant::CfgNumber)?;
    let given = given(entry.open.as_slice());
    let mut words = Items::new(alloc);
    words.push(word(called.kind, called.number))?;
    words.push(word(entry.class, first_of(around, entry)?))?;
    words.push(word(count, given))?;
    for open in entry.open.as_slice().chunks(ARGUMENTS_A_WORD) {
        words.push(open_word(open))?;
    }
    Ok(words)
}

/// A word of two halves, the one at the lower address first.
fn word(low: u32, high: u32) -> u64 {
    u64::from(low) + 0x1_0000_0000 * u64::from(high)
}

/// A word with a byte for each argument: 1 where it is open.
fn open_word(open: &[bool]) -> u64 {
    let mut word = 0u64;
    for is_open in open.iter().rev() {
        word = word.wrapping_mul(0x100).wrapping_add(u64::from(*is_open));
    }
    word
}

/// How many arguments aren't open.
pub(crate) fn given(open: &[bool]) -> u32 {
    let mut count = 0u32;
    for is_open in open {
        if !*is_open {
            count = count.saturating_add(1);
        }
    }
    count
}

/// What the values of a bind call.
fn called_of(around: &EmitContext<'_>, entry: &BoundLayout) -> Result<BoundTarget, Failure> {
    match entry.callee {
        CallTarget::Body(body) => body_called(around, body),
        CallTarget::Dispatch(sig) => Ok(of_kind(chosen_kind(around, sig)?, 0)),
        CallTarget::Builtin(feature) => {
            let kind = FIRST_BOUND_BUILTIN + u32::from(feature.number());
            Ok(of_kind(kind, 0))
        }
        CallTarget::Get(place) => {
            let kind = of_object_or_value(around, entry, GET_OF_OBJECT, GET_OF_VALUE)?;
            Ok(of_kind(kind, attribute_at(place)))
        }
        CallTarget::Set(place) => {
            let kind = of_object_or_value(around, entry, SET_OF_OBJECT, SET_OF_VALUE)?;
            Ok(of_kind(kind, attribute_at(place)))
        }
        CallTarget::GetShared(shared) => Ok(of_kind(GET_SHARED, shared_at(shared)?)),
        CallTarget::SetShared(shared) => Ok(of_kind(SET_SHARED, shared_at(shared)?)),
        CallTarget::Bound => broken(Invariant::ExcludedForm),
    }
}

fn of_kind(kind: u32, number: u32) -> BoundTarget {
    BoundTarget { kind, number }
}

/// The body of a feature, by its index in the table.
fn body_called(around: &EmitContext<'_>, body: u32) -> Result<BoundTarget, Failure> {
    let place = placed(around, body)?;
    let kind = if is_iter(around, body)? {
        ITER
    } else {
        ROUTINE
    };
    Ok(of_kind(kind, place))
}

/// The place of a body in the table. The answer is `Broken` where no bind calls it through the table.
pub(crate) fn placed(around: &EmitContext<'_>, body: u32) -> Result<u32, Failure> {
    let place = known(
        around.program.places.get(body as usize).copied(),
        Invariant::TableIndex,
    )?;
    known(place, Invariant::TableIndex)
}

/// The form of what the receiver's class chooses. The implementations of a signature are alike in it, so the first one decides. Where there
/// is none, no value is made.
fn chosen_kind(around: &EmitContext<'_>, sig: u32) -> Result<u32, Failure> {
    let Some(first) = around.program.rows.first(sig) else {
        return Ok(CHOSEN_ROUTINE);
    };
    if implementations_of(around, sig)? == Implementations::Adapters {
        return Ok(CHOSEN_ADAPTER);
    }
    let number = around.program.body_of_implementation(first)?;
    if is_iter(around, number)? {
        return Ok(CHOSEN_ITER);
    }
    Ok(CHOSEN_ROUTINE)
}

fn is_iter(around: &EmitContext<'_>, number: u32) -> Result<bool, Failure> {
    let body = around.program.body(number)?;
    Ok(body.iter)
}

/// One form for objects, and another for immutable values.
fn of_object_or_value(
    around: &EmitContext<'_>,
    entry: &BoundLayout,
    object: u32,
    value: u32,
) -> Result<u32, Failure> {
    if is_immutable(around, entry.class)? {
        return Ok(value);
    }
    Ok(object)
}

/// What has to be known of the class: the offset of the elements in its objects, or how many attributes its values have.
fn first_of(around: &EmitContext<'_>, entry: &BoundLayout) -> Result<u32, Failure> {
    match entry.callee {
        CallTarget::Builtin(feature) => first_of_builtin(around, entry.class, feature),
        CallTarget::Set(_) => around.attributes(entry.class),
        _ => Ok(0),
    }
}

/// The offset of the elements that a built-in feature reads, writes or makes.
fn first_of_builtin(
    around: &EmitContext<'_>,
    class: u32,
    feature: BuiltinFeature,
) -> Result<u32, Failure> {
    match feature {
        BuiltinFeature::ArefAget | BuiltinFeature::ArefAset | BuiltinFeature::ArrayCreate => {
            Ok(first_element_at(around.attributes(class)?))
        }
        BuiltinFeature::StrOf => Ok(first_element_at(0)),
        _ => Ok(0),
    }
}
