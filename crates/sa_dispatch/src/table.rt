//! The implementations of a program's signatures, and their indices in the table of functions.

ghost use Rattle.std.specs.Prelude.{◌≡◌, [], ◌∷◌, ◌++◌, ◌<◌, length, slice_get, unwrap_or, OnOk};
ghost use Rattle.std.specs.Option.{SomeIff};
ghost use Rattle.sa_dispatch.specs.Implementations.{first_of, implementation_of};
ghost use Rattle.sa_dispatch.specs.Rising.{IsRising};

use crate::signature::{DispatchTable, PackedRange, end_of, sum};
use failure::Failure;
use sqlite_items::Items;
use std::alloc::Global;
use std::marker::Model;

/// The implementations of a program's signatures. Contracts see, for each signature, the types that implement it.
///
/// A signature has a range of the table of functions, but for one with few types that are sparse. No call of these allocates memory.
#[derive(Drop)]
pub struct ImplementationTable {
    signatures: Items<DispatchTable>,
    /// How many implementations they have together.
    count: u32,
    /// The length of the table that has their ranges.
    size: u32,
}

impl Model for ImplementationTable {
    ghost use Rattle.std.specs.Prelude.{List, ℕ};
    ghost use Rattle.sa_dispatch.specs.Layout.{IsConsistent, implementing_types};

    ghost Value = { List (List ℕ) };

    ghost view = { λ rows. implementing_types rows.signatures };

    ghost invariant = { λ rows. IsConsistent rows.signatures rows.count };
}

impl ImplementationTable {
    /// No signature.
    pub(crate) fn new(alloc: Global) -> ImplementationTable
        ensures { result ≡ [] }
    {
        ImplementationTable {
            signatures: Items::new(alloc),
            count: 0,
            size: 0,
        }
    }

    /// One more signature, by the types that implement it and its range of the table.
    ///
    /// # Errors
    ///
    /// A `Failure`: `Broken` where 32 bits don't hold the number of signatures or of implementations.
    pub(crate) fn add(
        &mut self,
        types: Items<u32>,
        span: Option<PackedRange>,
    ) -> Result<(), Failure>
        requires { IsRising types }
        ensures { OnOk result (self.new ≡ self.old ++ types ∷ []) }
    {
        let count = sum(self.count, types.len())?;
        sum(1, self.signatures.len())?;
        let signature = DispatchTable {
            types,
            first: self.count,
            span,
        };
        self.signatures.push(signature)?;
        self.count = count;
        self.size = self.size.max(end_of(span));
        Ok(())
    }

    /// The index of a signature's implementation for a type in the list of the implementations of all signatures: none where there is no
    /// such signature or the type doesn't implement it.
    pub fn implementation(&self, sig: u32, ty: u32) -> Option<u32>
        ensures { result ≡ implementation_of self.now sig ty }
    {
        let signature = self.signatures.get(sig as usize)?;
        signature.implementation(ty)
    }

    /// The index of a signature's implementation for a type in the table of functions: none where the signature has no range, or the type
    /// doesn't implement it.
    pub fn place(&self, sig: u32, ty: u32) -> Option<u32> {
        let span = self.span(sig)?;
        self.implementation(sig, ty)?;
        span.first.checked_add(ty.checked_sub(span.least)?)
    }

    /// The length of the table that has the ranges of all signatures.
    pub fn size(&self) -> u32 {
        self.size
    }

    /// The range of the table that a signature has, if it has one.
    pub fn span(&self, sig: u32) -> Option<PackedRange> {
        self.signatures.get(sig as usize)?.span
    }

    /// The types that implement a signature, rising: none where there is no such signature.
    pub fn types(&self, sig: u32) -> &[u32]
        ensures { result.now ≡ unwrap_or (slice_get self.now sig) [] }
    {
        match self.signatures.get(sig as usize) {
            Some(signature) => signature.types.as_slice(),
            None => &[],
        }
    }

    /// The index of a signature's first implementation in the list of the implementations of all signatures.
    pub fn first(&self, sig: u32) -> Option<u32>
        ensures { SomeIff result (sig < length self.now) (first_of self.now sig) }
    {
        Some(self.signatures.get(sig as usize)?.first)
    }

    /// The number of signatures.
    pub fn signatures(&self) -> u32
        ensures { result ≡ length self.now }
    {
        self.signatures.len() as u32
    }
}
