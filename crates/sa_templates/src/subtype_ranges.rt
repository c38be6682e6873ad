//! For each type the concrete types among it and its subtypes, as ranges of consecutive numbers. Only values of concrete types come about,
//! so a test of a value's type is a test of its number against these ranges.

use failure::{Failure, Invariant, known};
use sa_ast::ClassKind;
use sa_cfg::{CfgProgram, TypeLayout};
use std::alloc::Global;

/// Types whose numbers follow one another.
#[derive(Clone, Copy)]
pub struct TypeRange {
    /// The least of the numbers.
    pub least: u32,
    /// The greatest of the numbers, which is the least where there is one type.
    pub greatest: u32,
}

/// For each type the concrete types among it and its subtypes.
#[derive(Drop)]
pub struct SubtypeRanges {
    spans: Vec<Vec<TypeRange>>,
}

impl SubtypeRanges {
    /// Those of the types of a program, in one pass over their layouts and the supertypes of each.
    ///
    /// # Errors
    ///
    /// A `Failure`: `Broken` where 32 bits don't hold the number of types, or a layout names a type that isn't there.
    pub fn of(alloc: Global, flat: &CfgProgram) -> Result<SubtypeRanges, Failure> {
        let layouts = flat.layouts.as_slice();
        let mut below = SubtypeRanges {
            spans: Vec::new(alloc),
        };
        for _ in layouts {
            below.spans.push(Vec::new(alloc))?;
        }
        for (place, layout) in layouts.iter().enumerate() {
            below.add_layout(place, layout)?;
        }
        Ok(below)
    }

    /// The concrete types among a type and its subtypes, in rising ranges that don't touch: none where there is no such type.
    pub fn spans(&self, ty: u32) -> &[TypeRange] {
        match self.spans.get(ty as usize) {
            Some(spans) => spans.as_slice(),
            None => &[],
        }
    }

    /// Adds the next type to the lists of its supertypes and of itself.
    fn add_layout(&mut self, place: usize, layout: &TypeLayout) -> Result<(), Failure> {
        if !is_concrete(layout.kind) {
            return Ok(());
        }
        let ty = known(u32::try_from(place).ok(), Invariant::CfgNumber)?;
        self.add(ty, ty)?;
        for above in layout.above.as_slice() {
            self.add(*above, ty)?;
        }
        Ok(())
    }

    /// Adds a type to the list of another one, of which it is a subtype or which it is. Its number is greater than those that were added
    /// before.
    fn add(&mut self, above: u32, ty: u32) -> Result<(), Failure> {
        let spans = known(self.spans.get_mut(above as usize), Invariant::CfgNumber)?;
        add_type(spans, ty)
    }
}

/// The ranges of rising types.
pub fn ranges_of(alloc: Global, types: &[u32]) -> Result<Vec<TypeRange>, Failure> {
    let mut spans = Vec::new(alloc);
    for ty in types {
        add_type(&mut spans, *ty)?;
    }
    Ok(spans)
}

/// Whether values have types of this kind for their class.
fn is_concrete(kind: ClassKind) -> bool {
    matches!(kind, ClassKind::Reference | ClassKind::Immutable)
}

/// Adds a type that is greater than those of the ranges.
fn add_type(spans: &mut Vec<TypeRange>, ty: u32) -> Result<(), Failure> {
    if let Some(last) = spans.last_mut() {
        if last.greatest.checked_add(1) == Some(ty) {
            last.greatest = ty;
            return Ok(());
        }
    }
    spans.push(TypeRange {
        least: ty,
        greatest: ty,
    })?;
    Ok(())
}
