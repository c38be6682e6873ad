//! The tables of the program that all bodies share. Texts and binds are added while bodies are built, and none is removed, so that an index
//! names the same one to the end; positions are there from the beginning.

use crate::texts::TextPool;
use failure::{Failure, Invariant, known};
use indexmap::IndexMap;
use sa_ast::Pos;
use sa_cfg::{BoundLayout, FaultExit, Handler};
use sqlite_items::Items;
use std::alloc::Global;

/// The index of a position in the program's positions, and its line.
#[derive(Clone, Copy, Debug, PartialEq, Eq, Hash)]
struct Spot {
    place: u32,
    line: u32,
}

/// The tables of the program.
#[derive(Drop)]
pub struct Tables {
    /// The different texts so far.
    pub texts: TextPool,
    /// The layouts of the bound values that the binds so far make.
    pub binds: Items<BoundLayout>,
    /// The first index of each position in the program's positions, with its line.
    spots: IndexMap<Pos, Spot>,
}

impl Tables {
    /// Tables without texts and binds, for a program with these positions and their lines.
    pub fn new(alloc: Global, positions: &[Pos], lines: &[u32]) -> Result<Tables, Failure> {
        Ok(Tables {
            texts: TextPool::new(alloc),
            binds: Items::new(alloc),
            spots: spots(alloc, positions, lines)?,
        })
    }

    /// Adds the layout of the values that a bind makes, and gives its index.
    pub fn bind(&mut self, entry: BoundLayout) -> Result<u32, Failure> {
        let number = known(
            u32::try_from(self.binds.len()).ok(),
            Invariant::CheckedCount,
        )?;
        self.binds.push(entry)?;
        Ok(number)
    }

    /// What a fault at a position reports, with the handler of a raise there.
    ///
    /// # Errors
    ///
    /// `Broken` where the program lacks the position.
    pub fn fail(&self, pos: Pos, raised: Handler) -> Result<FaultExit, Failure> {
        let spot = known(self.spots.get(&pos).copied(), Invariant::PositionMissing)?;
        Ok(FaultExit {
            place: spot.place,
            line: spot.line,
            raised,
        })
    }
}

/// The first index of each position, with its line.
fn spots(alloc: Global, positions: &[Pos], lines: &[u32]) -> Result<IndexMap<Pos, Spot>, Failure> {
    let mut spots = IndexMap::new(alloc);
    for (place, (pos, line)) in positions.iter().zip(lines.iter()).enumerate() {
        let place = known(u32::try_from(place).ok(), Invariant::CheckedCount)?;
        if !spots.contains_key(pos) {
            spots.insert(*pos, Spot { place, line: *line })?;
        }
    }
    Ok(spots)
}
