//! The types of a typed program.

use crate::bound_supertypes::BoundTypeIndex;
use crate::class_supertypes::universal_supertypes;
use failure::{Failure, Invariant, known};
use indexmap::IndexMap;
use sa_ast::{ClassKind, Ty};
use sa_instantiate::Instances;
use sa_typed::TypeDef;
use sqlite_items::Items;
use std::alloc::Global;

/// The types of a program: the needed ones with their abstract supertypes, and after them the bound types that binds make.
pub(crate) fn type_infos(
    alloc: Global,
    program: &Instances<'_>,
    bound: &IndexMap<Ty, ()>,
    above: Vec<Items<u32>>,
) -> Result<Items<TypeDef>, Failure> {
    let shapes = bound_shapes(alloc, program, bound)?;
    let mut infos = Items::new(alloc);
    add_needed(alloc, program, &shapes, above, &mut infos)?;
    add_bound(alloc, program, &shapes, bound, &mut infos)?;
    Ok(infos)
}

/// Appends the needed types.
fn add_needed(
    alloc: Global,
    program: &Instances<'_>,
    shapes: &BoundTypeIndex<'_>,
    above: Vec<Items<u32>>,
    infos: &mut Items<TypeDef>,
) -> Result<(), Failure> {
    let mut number = 0u32;
    for uppers in above {
        infos.push(needed_info(alloc, program, shapes, number, uppers)?)?;
        number = known(number.checked_add(1), Invariant::CheckedCount)?;
    }
    Ok(())
}

/// Appends the bound types that binds make.
fn add_bound(
    alloc: Global,
    program: &Instances<'_>,
    shapes: &BoundTypeIndex<'_>,
    bound: &IndexMap<Ty, ()>,
    infos: &mut Items<TypeDef>,
) -> Result<(), Failure> {
    let uppers = universal_supertypes(alloc, program)?;
    let mut number = program.count();
    for place in 0..bound.len() {
        let (ty, _) = known(bound.get_index(place), Invariant::CheckedNumber)?;
        infos.push(bound_info(alloc, program, shapes, number, ty, uppers.as_slice())?)?;
        number = known(number.checked_add(1), Invariant::CheckedCount)?;
    }
    Ok(())
}

/// All bound types by their keys.
fn bound_shapes<'a>(
    alloc: Global,
    program: &'a Instances<'_>,
    bound: &'a IndexMap<Ty, ()>,
) -> Result<BoundTypeIndex<'a>, Failure> {
    let mut shapes = BoundTypeIndex::new(alloc);
    for number in 0..program.count() {
        shapes.add(
            alloc,
            number,
            known(program.ty(number), Invariant::CheckedNumber)?,
        )?;
    }
    add_bound_shapes(alloc, program.count(), bound, &mut shapes)?;
    Ok(shapes)
}

/// Adds the bound types that binds make, whose numbers begin at `first`, after those with their keys.
fn add_bound_shapes<'a>(
    alloc: Global,
    first: u32,
    bound: &'a IndexMap<Ty, ()>,
    shapes: &mut BoundTypeIndex<'a>,
) -> Result<(), Failure> {
    let mut number = first;
    for place in 0..bound.len() {
        let (ty, _) = known(bound.get_index(place), Invariant::CheckedNumber)?;
        shapes.add(alloc, number, ty)?;
        number = known(number.checked_add(1), Invariant::CheckedCount)?;
    }
    Ok(())
}

/// A needed type.
fn needed_info(
    alloc: Global,
    program: &Instances<'_>,
    shapes: &BoundTypeIndex<'_>,
    number: u32,
    uppers: Items<u32>,
) -> Result<TypeDef, Failure> {
    let ty = known(program.ty(number), Invariant::CheckedNumber)?;
    let Some(class) = program.class(number) else {
        return bound_info(alloc, program, shapes, number, ty, uppers.as_slice());
    };
    let attrs = attribute_types(alloc, program, number)?;
    Ok(TypeDef {
        ty: ty.copy(alloc)?,
        kind: class.kind,
        slots: known(u32::try_from(attrs.len()).ok(), Invariant::CheckedCount)?,
        attrs,
        array: program.has_array(number),
        elem: program.element(number),
        above: uppers,
    })
}

/// The numbers of the attributes' types.
fn attribute_types(
    alloc: Global,
    program: &Instances<'_>,
    number: u32,
) -> Result<Items<u32>, Failure> {
    let mut types = Items::new(alloc);
    let mut slot = 0u32;
    for _feature in program.slots(number) {
        types.push(known(program.slot_type(number, slot), Invariant::CheckedNumber)?)?;
        slot = known(slot.checked_add(1), Invariant::CheckedCount)?;
    }
    Ok(types)
}

/// A bound type, which has the kind of a reference class and no attributes.
fn bound_info(
    alloc: Global,
    program: &Instances<'_>,
    shapes: &BoundTypeIndex<'_>,
    number: u32,
    ty: &Ty,
    uppers: &[u32],
) -> Result<TypeDef, Failure> {
    let mut above = shapes.above(alloc, program.edges(), number, ty)?;
    above.extend_from_slice(uppers)?;
    above.sort_unstable();
    Ok(TypeDef {
        ty: ty.copy(alloc)?,
        kind: ClassKind::Reference,
        slots: 0,
        attrs: Items::new(alloc),
        array: false,
        elem: None,
        above: Items::from_vec(above),
    })
}
