//! Which constants each constant names, and an order in which each comes after those.

use crate::names::{Places, named, part};
use failure::{Failure, Invariant};
use sa_ast::{Expr, FeatureBody};
use sa_graph::{Graph, word};
use sa_instantiate::Instances;
use std::alloc::Global;

/// The constants that constants name, as edges between their indices.
#[derive(Drop)]
struct Links<'a, 'p> {
    program: &'a Instances<'p>,
    places: &'a Places,
    starts: Vec<u32>,
    ends: Vec<u32>,
}

/// The graph of constants: an edge goes from each to those that its expression names.
pub(crate) fn graph(
    alloc: Global,
    program: &Instances<'_>,
    places: &Places,
) -> Result<Graph, Failure> {
    let mut links = Links {
        program,
        places,
        starts: Vec::new(alloc),
        ends: Vec::new(alloc),
    };
    for i in 0..places.len() {
        links.add(i)?;
    }
    let Links { starts, ends, .. } = links;
    Graph::new(alloc, places.len(), starts, ends)
}

impl Links<'_, '_> {
    /// Adds the names in the expression of the constant at an index.
    fn add(&mut self, from: usize) -> Result<(), Failure> {
        let Some(((class, feature), _)) = self.places.get_index(from) else {
            return Ok(());
        };
        let program = self.program;
        match part(program, *class, *feature) {
            Some(FeatureBody::Const(Some(e), _)) => self.add_names(
                word(from, Invariant::ConstantTable)?,
                *class,
                e,
            ),
            _ => Ok(()),
        }
    }

    /// Adds the names in an expression. Other forms than the operators have no nested names that count.
    #[cycle(names)]
    fn add_names(&mut self, from: u32, class: u32, e: &Expr) -> Result<(), Failure> {
        match e {
            Expr::Binary(_, left, right, _) => {
                self.add_names(from, class, left.get())?;
                self.add_names(from, class, right.get())
            }
            Expr::Unary(_, of, _) => self.add_names(from, class, of.get()),
            _ => self.add_name(from, class, e),
        }
    }

    fn add_name(&mut self, from: u32, class: u32, e: &Expr) -> Result<(), Failure> {
        let Some(to) = named(self.program, class, e) else {
            return Ok(());
        };
        if let Some(place) = self.places.get_index_of(&to) {
            self.starts.push(from)?;
            self.ends.push(word(place, Invariant::ConstantTable)?)?;
        }
        Ok(())
    }
}
