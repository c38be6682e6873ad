//! The bodies that bound values call, and those of the implementations that have no index by their signature, with their indices in the
//! table of functions, after those that have one.

use crate::reachability::Reachable;
use crate::sums::{number, sum};
use failure::{Failure, Invariant, broken, known};
use sa_cfg::{BoundLayout, CallTarget, CfgProgram};
use sa_dispatch::ImplementationTable;
use sqlite_items::Items;
use std::alloc::Global;

/// The indices of bodies that bound values call.
#[derive(Drop)]
pub(crate) struct Places {
    /// The index of the first such body.
    pub first: u32,
    /// For each body of the program its index, if it has one.
    pub of: Items<Option<u32>>,
    /// The bodies in the order of their indices.
    pub bodies: Items<u32>,
}

/// The indices of a program's bodies: of those that binds name, and of the implementations that have no index by their signature.
pub(crate) fn places_of(
    alloc: Global,
    flat: &CfgProgram,
    rows: &ImplementationTable,
    reached: &Reachable,
) -> Result<Places, Failure> {
    let mut places = no_places(alloc, flat, rows)?;
    places.add_binds(flat, reached)?;
    places.add_signatures(flat, rows, reached)?;
    Ok(places)
}

/// No body has an index.
fn no_places(
    alloc: Global,
    flat: &CfgProgram,
    rows: &ImplementationTable,
) -> Result<Places, Failure> {
    let mut places = Places {
        first: rows.size(),
        of: Items::new(alloc),
        bodies: Items::new(alloc),
    };
    for _ in 0..flat.bodies.len() {
        places.of.push(None)?;
    }
    Ok(places)
}

impl Places {
    /// Adds the bodies that the values of reached binds call.
    fn add_binds(&mut self, flat: &CfgProgram, reached: &Reachable) -> Result<(), Failure> {
        for (bind, is_reached) in flat.binds.as_slice().iter().zip(reached.binds.iter()) {
            if *is_reached {
                self.add_bind(bind)?;
            }
        }
        Ok(())
    }

    /// Adds the implementations of reached signatures that have no range of the table.
    fn add_signatures(
        &mut self,
        flat: &CfgProgram,
        rows: &ImplementationTable,
        reached: &Reachable,
    ) -> Result<(), Failure> {
        for sig in 0..rows.signatures() {
            if reached.signatures.get(sig as usize) == Some(&true) {
                self.add_signature(flat, rows, sig)?;
            }
        }
        Ok(())
    }

    /// Adds the body that the values of a bind call.
    fn add_bind(&mut self, bind: &BoundLayout) -> Result<(), Failure> {
        match bind.callee {
            CallTarget::Body(body) => self.add(body),
            _ => Ok(()),
        }
    }

    /// Adds a body that isn't there yet.
    fn add(&mut self, body: u32) -> Result<(), Failure> {
        let at = body as usize;
        if at >= self.of.len() {
            return broken(Invariant::TableIndex);
        }
        if known(self.of.get(at).copied(), Invariant::TableIndex)?.is_some() {
            return Ok(());
        }
        let place = sum(self.first, number(self.bodies.len())?)?;
        self.of.set(at, Some(place));
        self.bodies.push(body)?;
        Ok(())
    }

    /// Adds the implementations of a signature that has no range of the table.
    fn add_signature(
        &mut self,
        flat: &CfgProgram,
        rows: &ImplementationTable,
        sig: u32,
    ) -> Result<(), Failure> {
        if rows.types(sig).is_empty() || rows.span(sig).is_some() {
            return Ok(());
        }
        let first = known(rows.first(sig), Invariant::TableIndex)?;
        let end = sum(first, number(rows.types(sig).len())?)?;
        for row in first..end {
            self.add(*known(flat.targets.get(row as usize), Invariant::TableIndex)?)?;
        }
        Ok(())
    }
}
