//! The sites of a feature by the loops that own their instances, so that all loops together cost one walk over the sites.

use failure::{Failure, Invariant, known};
use indexmap::IndexMap;
use sa_typed::Site;
use sqlite_items::Items;
use std::alloc::Global;

/// The sites of a feature by their loops.
#[derive(Drop)]
pub(crate) struct LoopSites {
    /// The sites of each loop that has some, rising, by the loop's index.
    by_loop: IndexMap<u32, Items<u32>>,
}

impl LoopSites {
    /// These sites.
    pub fn of(alloc: Global, sites: &[Site]) -> Result<LoopSites, Failure> {
        let mut all = LoopSites {
            by_loop: IndexMap::new(alloc),
        };
        for (number, site) in sites.iter().enumerate() {
            let number = known(u32::try_from(number).ok(), Invariant::CheckedCount)?;
            all.add(alloc, site.owner, number)?;
        }
        Ok(all)
    }

    /// Adds a site after the others of its loop.
    fn add(&mut self, alloc: Global, owner: u32, site: u32) -> Result<(), Failure> {
        if let Some(sites) = self.by_loop.get_mut(&owner) {
            sites.push(site)?;
            return Ok(());
        }
        let mut sites = Items::new(alloc);
        sites.push(site)?;
        self.by_loop.insert(owner, sites)?;
        Ok(())
    }

    /// Whether a loop has sites.
    pub fn has(&self, number: u32) -> bool {
        self.by_loop.contains_key(&number)
    }

    /// The sites of a loop, rising.
    pub fn of_loop(&self, number: u32) -> &[u32] {
        match self.by_loop.get(&number) {
            Some(sites) => sites.as_slice(),
            None => &[],
        }
    }
}
