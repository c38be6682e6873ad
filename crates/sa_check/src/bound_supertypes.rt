//! Which bound types are supertypes of a bound type.

use failure::Failure;
use indexmap::IndexMap;
use sa_ast::{Mode, ModeTy, Ty};
use sa_subtypes::SubtypeRelation;
use sqlite_items::Items;
use std::alloc::{AllocError, Global};

/// A bound type with its number.
#[derive(Clone, Copy)]
struct NumberedType<'a> {
    number: u32,
    ty: &'a Ty,
}

/// Bound types with their numbers, in ascending order, by a key: the kind, the presence of a result and the modes. Bound types with
/// different keys aren't subtypes of each other.
#[derive(Drop)]
pub(crate) struct BoundTypeIndex<'a> {
    by_shape: IndexMap<Vec<u8>, Vec<NumberedType<'a>>>,
}

impl<'a> BoundTypeIndex<'a> {
    pub(crate) fn new(alloc: Global) -> BoundTypeIndex<'a> {
        BoundTypeIndex {
            by_shape: IndexMap::new(alloc),
        }
    }

    /// Adds a type to those with its key. A type that isn't bound is left out.
    pub(crate) fn add(&mut self, alloc: Global, number: u32, ty: &'a Ty) -> Result<(), Failure> {
        let Some(shape) = shape_of(alloc, ty)? else {
            return Ok(());
        };
        if let Some(list) = self.by_shape.get_mut(shape.as_slice()) {
            list.push(NumberedType { number, ty })?;
            return Ok(());
        }
        let mut list = Vec::new(alloc);
        list.push(NumberedType { number, ty })?;
        self.by_shape.insert(shape, list)?;
        Ok(())
    }

    /// The numbers of the bound types that are proper supertypes of a type, in ascending order.
    pub(crate) fn above(
        &self,
        alloc: Global,
        edges: &SubtypeRelation,
        number: u32,
        ty: &Ty,
    ) -> Result<Vec<u32>, Failure> {
        let mut above = Vec::new(alloc);
        let Some(shape) = shape_of(alloc, ty)? else {
            return Ok(above);
        };
        let Some(list) = self.by_shape.get(shape.as_slice()) else {
            return Ok(above);
        };
        for other in list.as_slice() {
            if other.number != number && edges.is_sub(ty, other.ty) {
                above.push(other.number)?;
            }
        }
        Ok(above)
    }
}

/// The two kinds of bound types.
#[derive(Clone, Copy)]
enum Bound {
    Rout,
    Iter,
}

/// The kind, the presence of a result and the modes of a bound type, as bytes.
fn shape_of(alloc: Global, ty: &Ty) -> Result<Option<Vec<u8>>, AllocError> {
    match ty {
        Ty::Named(_, _, _) | Ty::Same(_) => Ok(None),
        Ty::Rout(args, gives, _) => {
            let head = head_byte(Bound::Rout, gives.is_some());
            Ok(Some(shape(alloc, head, args.as_slice())?))
        }
        Ty::Iter(args, gives, _) => {
            let head = head_byte(Bound::Iter, gives.is_some());
            Ok(Some(shape(alloc, head, args.as_slice())?))
        }
    }
}

/// The first byte of a key, followed by those of the modes.
fn shape(alloc: Global, head: u8, args: &[ModeTy]) -> Result<Vec<u8>, AllocError> {
    let mut bytes = Vec::new(alloc);
    bytes.push(head)?;
    for arg in args {
        bytes.push(mode_byte(arg.mode))?;
    }
    Ok(bytes)
}

/// The byte of a kind, for a type with a result or without one.
fn head_byte(bound: Bound, has_result: bool) -> u8 {
    match (bound, has_result) {
        (Bound::Rout, false) => 0,
        (Bound::Rout, true) => 1,
        (Bound::Iter, false) => 2,
        (Bound::Iter, true) => 3,
    }
}

fn mode_byte(mode: Mode) -> u8 {
    match mode {
        Mode::In => 0,
        Mode::Out => 1,
        Mode::Inout => 2,
        Mode::Once => 3,
    }
}
