//! A topological order of the abstract types: each comes after those after its `<`.

use failure::{Failure, Invariant, known};
use sa_graph::Graph;
use sa_instantiate::Instances;
use std::alloc::Global;

/// The numbers of the types after the `<` of a type.
pub(crate) fn parents(
    alloc: Global,
    program: &Instances<'_>,
    ty: u32,
) -> Result<Vec<u32>, Failure> {
    let mut numbers = Vec::new(alloc);
    let Some(class) = program.class(ty) else {
        return Ok(numbers);
    };
    for below in class.below.as_slice() {
        numbers.push(known(program.number_of(ty, below), Invariant::SignatureTable)?)?;
    }
    Ok(numbers)
}

/// The numbers of the abstract types, each after the types after its `<`.
pub(crate) fn upper_first(alloc: Global, program: &Instances<'_>) -> Result<Vec<u32>, Failure> {
    let mut starts = Vec::new(alloc);
    let mut ends = Vec::new(alloc);
    for ty in 0..program.count() {
        for parent in parents(alloc, program, ty)? {
            starts.push(ty)?;
            ends.push(parent)?;
        }
    }
    let graph = Graph::new(alloc, program.count() as usize, starts, ends)?;
    abstract_ones(alloc, program, graph.order(alloc)?.as_slice())
}

/// Those of the types that are abstract, in the same order.
fn abstract_ones(
    alloc: Global,
    program: &Instances<'_>,
    types: &[u32],
) -> Result<Vec<u32>, Failure> {
    let mut numbers = Vec::new(alloc);
    for ty in types {
        if program.is_abstract(*ty) {
            numbers.push(*ty)?;
        }
    }
    Ok(numbers)
}
