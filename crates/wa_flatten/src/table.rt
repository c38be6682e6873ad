//! The table of functions. Its size alone costs nothing: elements that no segment fills take no memory past the first ones.

ghost use Rattle.std.specs.Prelude.{◌≡◌, ◌<◌, IfOk, OnOk, None, Some, length, replicate, slice_get, slice_set};

use indexmap::IndexMap;
use std::alloc::{AllocError, AllocFailed, Global};
use std::marker::Model;

/// The elements of a table that are kept as a list, whatever its segments fill.
const LISTED: usize = 65_536;

/// A table: each element is the index of a function, or none. Contracts see the list of its elements.
#[derive(Drop)]
pub struct TableInstance {
    size: usize,
    /// The first elements.
    listed: Vec<Option<u32>>,
    /// The functions of the elements after them, by the index of the element.
    others: IndexMap<u32, u32>,
}

impl Model for TableInstance {
    ghost use Rattle.std.specs.Prelude.{◌≤◌, List, ℕ, Option, vec_len};
    ghost use Rattle.wa_flatten.specs.Places.{places};

    ghost Value = { List (Option ℕ) };

    ghost view = { λ t. places t.size t.listed.items t.others };

    ghost invariant = { λ t. vec_len t.listed ≤ t.size };
}

impl TableInstance {
    /// A table of so many elements without a function, for segments that fill so many of them.
    pub(crate) fn new(
        alloc: Global,
        size: usize,
        filled: usize,
    ) -> Result<TableInstance, AllocError>
        ensures { IfOk result (λ table. table ≡ replicate size None) }
    {
        let mut listed = Vec::new(alloc);
        listed.resize(size.min(filled.saturating_add(LISTED)), None)?;
        Ok(TableInstance {
            size,
            listed,
            others: IndexMap::new(alloc),
        })
    }

    /// Puts a function at an index.
    pub(crate) fn put(&mut self, at: u32, func: u32) -> Result<(), AllocFailed<(u32, u32)>>
        requires { at < length self.old }
        ensures put { OnOk result (self.new ≡ slice_set self.old at (Some func)) }
        ensures size { length self.new ≡ length self.old }
    {
        let place = at as usize;
        if place < self.listed.len() {
            self.listed.as_mut_slice()[place] = Some(func);
            return Ok(());
        }
        self.others.insert(at, func)?;
        Ok(())
    }

    /// The element at an index: a function or none. `None` past the end of the table.
    pub fn get(&self, at: u32) -> Option<Option<u32>>
        ensures { result ≡ slice_get self.now at }
    {
        if let Some(entry) = self.listed.get(at as usize) {
            return Some(*entry);
        }
        if at as usize >= self.size {
            return None;
        }
        Some(self.others.get(&at).copied())
    }
}
