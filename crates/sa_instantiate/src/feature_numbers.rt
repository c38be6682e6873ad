//! The numbers of bodies and shareds, counted over all instances in order.

use crate::type_list::TypeList;
use failure::{Failure, Invariant, known};
use sa_graph::word;
use sqlite_items::Items;
use std::alloc::Global;

/// By type, the number of its first routine or iter with a body.
pub(crate) fn first_bodies(
    alloc: Global,
    list: &TypeList<'_>,
    count: u32,
) -> Result<Items<u32>, Failure> {
    let mut firsts = Items::new(alloc);
    let mut first = 0u32;
    for ty in 0..count {
        firsts.push(first)?;
        first = known(
            first.checked_add(bodies_of(list, ty)?),
            Invariant::CheckedCount,
        )?;
    }
    Ok(firsts)
}

/// By type, the number of its first shared.
pub(crate) fn first_shareds(
    alloc: Global,
    list: &TypeList<'_>,
    count: u32,
) -> Result<Items<u32>, Failure> {
    let mut firsts = Items::new(alloc);
    let mut first = 0u32;
    for ty in 0..count {
        firsts.push(first)?;
        first = known(
            first.checked_add(shareds_of(list, ty)?),
            Invariant::CheckedCount,
        )?;
    }
    Ok(firsts)
}

/// How many routines and iters with a body the class of a type has. A bound type has none.
fn bodies_of(list: &TypeList<'_>, ty: u32) -> Result<u32, Failure> {
    match list.table(ty) {
        None => Ok(0),
        Some(table) => word(table.bodies(), Invariant::CheckedCount),
    }
}

/// How many shareds the class of a type has. A bound type has none.
fn shareds_of(list: &TypeList<'_>, ty: u32) -> Result<u32, Failure> {
    match list.table(ty) {
        None => Ok(0),
        Some(table) => word(table.shareds(), Invariant::CheckedCount),
    }
}
