//! The fragments for loops that drive instances, and for iters, at the end of the open block.

use crate::body::BodyBuilder;
use failure::Failure;
use sa_cfg::{CallOperation, CfgOperation, Terminator};
use sqlite_items::Items;
use std::alloc::Global;

impl BodyBuilder {
    /// Goes on in `resume` where the site has an instance, otherwise in `start`, which is open then.
    pub fn test_site(
        &mut self,
        alloc: Global,
        site: u32,
        start: u32,
        resume: u32,
    ) -> Result<(), Failure> {
        let test = self.temporary()?;
        self.step(CfgOperation::HasInstance { to: test, site })?;
        let branch = Terminator::Branch {
            test,
            yes: resume,
            no: start,
        };
        self.end(alloc, branch, start)
    }

    /// Starts an instance, and goes on in `left` where it ends at once. The block that is open then is the one where it has yielded a
    /// value.
    pub fn start(
        &mut self,
        alloc: Global,
        site: u32,
        plan: CallOperation,
        left: u32,
    ) -> Result<(), Failure> {
        let quit = self.temporary()?;
        self.step(CfgOperation::Start { site, plan, quit })?;
        self.go_on(alloc, quit, left)
    }

    /// Resumes the instance of the site, and goes on in `left` where it ends. The block that is open then is the one where it has yielded a
    /// value.
    pub fn resume(
        &mut self,
        alloc: Global,
        site: u32,
        plan: CallOperation,
        left: u32,
    ) -> Result<(), Failure> {
        let quit = self.temporary()?;
        self.step(CfgOperation::Resume { site, plan, quit })?;
        self.go_on(alloc, quit, left)
    }

    /// Goes on in a new block, or in `left` where the instance has ended.
    fn go_on(&mut self, alloc: Global, quit: u32, left: u32) -> Result<(), Failure> {
        let on = self.block(alloc)?;
        let branch = Terminator::Branch {
            test: quit,
            yes: left,
            no: on,
        };
        self.end(alloc, branch, on)
    }

    /// Yields a value, and opens the block in which a resumption goes on.
    pub fn suspend(&mut self, alloc: Global, value: Option<u32>) -> Result<(), Failure> {
        let next = self.block(alloc)?;
        let exit = Terminator::Suspend {
            value,
            resume: Some(next),
        };
        self.end(alloc, exit, next)
    }

    /// Ends the instances of the sites in this order.
    pub fn release(&mut self, alloc: Global, sites: &[u32]) -> Result<(), Failure> {
        let sites = Items::from_slice(alloc, sites)?;
        self.step(CfgOperation::Release { sites })
    }
}
