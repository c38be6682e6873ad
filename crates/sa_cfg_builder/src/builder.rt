//! The tables of the program and the body that is being built, as one value that lowering changes.

use crate::body::{BodyBuilder, BodyHeader};
use crate::tables::Tables;
use failure::Failure;
use std::alloc::Global;

/// The builder of a program: its tables so far, and the body that is being built.
#[derive(Drop)]
pub struct ProgramBuilder {
    pub tables: Tables,
    pub body: BodyBuilder,
}

impl ProgramBuilder {
    /// No body yet, for a program with these tables.
    pub fn new(alloc: Global, tables: Tables) -> ProgramBuilder {
        ProgramBuilder {
            tables,
            body: BodyBuilder::none(alloc),
        }
    }

    /// Begins a body, as `BodyBuilder::begin` says, and drops the former one.
    pub fn begin(&mut self, alloc: Global, head: BodyHeader) -> Result<(), Failure> {
        self.body = BodyBuilder::begin(alloc, head)?;
        Ok(())
    }
}
