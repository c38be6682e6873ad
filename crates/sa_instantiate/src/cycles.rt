//! Immutable instances that contain themselves through attributes of immutable classes.

use crate::program::Instances;
use failure::{Failure, Invariant};
use sa_ast::{ClassKind, Rejection, Rule};
use sa_graph::{Graph, word};
use std::alloc::Global;

/// Refuses with E15 at the name of the class of the first immutable instance that contains itself through attributes of immutable classes.
pub(crate) fn check_cycles(alloc: Global, program: &Instances<'_>) -> Result<(), Rejection> {
    let graph = holding(alloc, program)?;
    let order = graph.order(alloc)?;
    match graph.first_on_cycle(alloc, order.as_slice())? {
        None => Ok(()),
        Some(ty) => Err(cycle_at(program, ty)),
    }
}

/// The refusal at the name of the class of a type.
fn cycle_at(program: &Instances<'_>, ty: usize) -> Rejection {
    let Ok(ty) = u32::try_from(ty) else {
        return Rejection::Failed(Failure::Broken(Invariant::InstanceTable));
    };
    match program.class(ty) {
        None => Rejection::Failed(Failure::Broken(Invariant::InstanceTable)),
        Some(class) => Rule::Cycle.at(class.name.pos).into(),
    }
}

/// The graph of the immutable instances, each with an edge to those of its attributes.
fn holding(alloc: Global, program: &Instances<'_>) -> Result<Graph, Failure> {
    let mut starts = Vec::new(alloc);
    let mut ends = Vec::new(alloc);
    for ty in 0..program.count() {
        if is_immutable(program, ty) {
            add_held(program, ty, &mut starts, &mut ends)?;
        }
    }
    Graph::new(alloc, program.count() as usize, starts, ends)
}

/// Adds the edges of an instance.
fn add_held(
    program: &Instances<'_>,
    ty: u32,
    starts: &mut Vec<u32>,
    ends: &mut Vec<u32>,
) -> Result<(), Failure> {
    for slot in 0..word(program.slots(ty).len(), Invariant::CheckedCount)? {
        if let Some(to) = immutable_at(program, ty, slot) {
            starts.push(ty)?;
            ends.push(to)?;
        }
    }
    Ok(())
}

/// The type of an attribute, if it is an immutable class.
fn immutable_at(program: &Instances<'_>, ty: u32, slot: u32) -> Option<u32> {
    let to = program.slot_type(ty, slot)?;
    if is_immutable(program, to) {
        return Some(to);
    }
    None
}

fn is_immutable(program: &Instances<'_>, ty: u32) -> bool {
    program.kind(ty) == Some(ClassKind::Immutable)
}
