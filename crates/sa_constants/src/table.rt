//! The table of constants, and the first one that is refused.

use crate::folded::{FoldedConst, Folding, is_faulty};
use crate::links::graph;
use crate::names::{Places, places};
use crate::value::ConstValue;
use failure::{Failure, Invariant};
use indexmap::IndexMap;
use sa_ast::{Rejection, Rule};
use sa_graph::{entry, put};
use sa_instantiate::Instances;
use std::alloc::Global;

/// The values of the constants of a program, found by instance and feature.
#[derive(Drop)]
pub struct ConstTable {
    values: IndexMap<(u32, u32), ConstValue>,
}

impl ConstTable {
    /// The constants of a program.
    ///
    /// # Errors
    ///
    /// E23 at the name of the first constant that is none, and a `Failure`.
    pub fn make(alloc: Global, program: &Instances<'_>) -> Result<ConstTable, Rejection> {
        let places = places(alloc, program)?;
        let folded = fold_all(alloc, program, &places)?;
        if let Some(place) = folded.iter().position(|folded| is_faulty(*folded)) {
            return Err(refusal(program, &places, place));
        }
        Ok(ConstTable::of_folded(alloc, &places, &folded)?)
    }

    /// The constants that have a value, where `folded` has them by their indices.
    fn of_folded(
        alloc: Global,
        places: &Places,
        folded: &[Option<FoldedConst<'_>>],
    ) -> Result<ConstTable, Failure> {
        let mut values = IndexMap::new(alloc);
        for (place, folded) in folded.iter().enumerate() {
            add_value(alloc, places, place, folded, &mut values)?;
        }
        Ok(ConstTable { values })
    }

    /// The value of a constant, by the number of its instance and its index among the features there.
    pub fn value(&self, class: u32, feature: u32) -> Option<&ConstValue> {
        self.values.get(&(class, feature))
    }
}

/// Folds each constant after those that it names. One that depends on itself isn't folded.
fn fold_all<'t>(
    alloc: Global,
    program: &'t Instances<'_>,
    places: &Places,
) -> Result<Vec<Option<FoldedConst<'t>>>, Failure> {
    let graph = graph(alloc, program, places)?;
    let order = graph.order(alloc)?;
    let cyclic = graph.cyclic(alloc, order.as_slice())?;
    let mut all = vec![in alloc; None; places.len()]?;
    for place in order {
        let place = place as usize;
        if !entry(&cyclic, place, Invariant::ConstantTable)? {
            let folding = Folding {
                program,
                places,
                folded: &all,
            };
            let folded = folding.constant(place);
            put(&mut all, place, folded, Invariant::ConstantTable)?;
        }
    }
    Ok(all)
}

/// Adds the value of the constant at an index, if it has one.
fn add_value(
    alloc: Global,
    places: &Places,
    place: usize,
    folded: &Option<FoldedConst<'_>>,
    values: &mut IndexMap<(u32, u32), ConstValue>,
) -> Result<(), Failure> {
    let (Some((constant, _)), Some(folded)) = (places.get_index(place), folded) else {
        return Ok(());
    };
    if let Some(value) = folded.value(alloc)? {
        values.insert(*constant, value)?;
    }
    Ok(())
}

/// The refusal of the constant at an index.
fn refusal(program: &Instances<'_>, places: &Places, place: usize) -> Rejection {
    let Some(((class, feature), _)) = places.get_index(place) else {
        return Rejection::Failed(Failure::Broken(Invariant::ConstantTable));
    };
    match program.feature(*class, *feature) {
        None => Rejection::Failed(Failure::Broken(Invariant::ConstantTable)),
        Some(feature) => Rule::NotConstant.at(feature.name.pos).into(),
    }
}
