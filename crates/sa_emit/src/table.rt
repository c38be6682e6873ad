//! The table of functions that dispatched calls and calls of bound values go through: for each implementation of a signature with a range
//! the function that does it, and after them the functions of the other bodies that bound values call.

use crate::places::Places;
use crate::reachability::Reachable;
use crate::sums::{number, sum};
use failure::{Failure, Invariant, known};
use sa_templates::EmitProgram;
use sqlite_items::Items;
use std::alloc::Global;
use std::mem;
use wa_syntax::{ElemSegment, Init, Limits};

/// The table. Each module has one, since the runtime calls bound values through it.
pub(crate) fn tables(alloc: Global, places: &Places) -> Result<Items<Limits>, Failure> {
    let size = sum(places.first, number(places.bodies.len())?)?;
    let table = Limits {
        min: size,
        max: Some(size),
    };
    Ok(Items::from_slice(alloc, &[table])?)
}

/// The segments so far, and the functions of consecutive indices that aren't in one yet.
#[derive(Drop)]
struct SegmentBuilder {
    elems: Items<ElemSegment>,
    first: u32,
    funcs: Items<u32>,
}

/// The segments of the table: one for each run of consecutive indices.
pub(crate) fn elements(
    alloc: Global,
    program: EmitProgram<'_>,
    reached: &Reachable,
    places: &Places,
) -> Result<Items<ElemSegment>, Failure> {
    let mut filled = SegmentBuilder {
        elems: Items::new(alloc),
        first: 0,
        funcs: Items::new(alloc),
    };
    let implementations = implementations(alloc, program, reached)?;
    for (place, func) in implementations.iter().enumerate() {
        if let Some(func) = func {
            filled.add(alloc, number(place)?, *func)?;
        }
    }
    add_placed(alloc, &mut filled, program, places)?;
    filled.close(alloc)?;
    let SegmentBuilder {
        elems,
        first: _,
        funcs: _,
    } = filled;
    Ok(elems)
}

/// By index, the function of the signature's implementation that has it.
fn implementations(
    alloc: Global,
    program: EmitProgram<'_>,
    reached: &Reachable,
) -> Result<Vec<Option<u32>>, Failure> {
    let mut funcs = vec![in alloc; None; program.rows.size() as usize]?;
    for sig in 0..program.rows.signatures() {
        if reached.signatures.get(sig as usize) == Some(&true) {
            add_signature(&mut funcs, program, sig)?;
        }
    }
    Ok(funcs)
}

/// Puts the functions of a signature's implementations at their indices.
fn add_signature(
    funcs: &mut Vec<Option<u32>>,
    program: EmitProgram<'_>,
    sig: u32,
) -> Result<(), Failure> {
    for ty in program.rows.types(sig) {
        add_implementation(funcs, program, sig, *ty)?;
    }
    Ok(())
}

/// Puts the function of a signature's implementation for a type at its index, if it has one.
fn add_implementation(
    funcs: &mut Vec<Option<u32>>,
    program: EmitProgram<'_>,
    sig: u32,
    ty: u32,
) -> Result<(), Failure> {
    let Some(place) = program.rows.place(sig, ty) else {
        return Ok(());
    };
    let row = known(program.rows.implementation(sig, ty), Invariant::CfgNumber)?;
    let func = program.function_of(program.body_of_implementation(row)?)?;
    *known(funcs.get_mut(place as usize), Invariant::CfgNumber)? = Some(func);
    Ok(())
}

/// Adds the functions of the bodies after those of the implementations.
fn add_placed(
    alloc: Global,
    filled: &mut SegmentBuilder,
    program: EmitProgram<'_>,
    places: &Places,
) -> Result<(), Failure> {
    for (following, body) in places.bodies.as_slice().iter().enumerate() {
        let place = sum(places.first, number(following)?)?;
        filled.add(alloc, place, program.function_of(*body)?)?;
    }
    Ok(())
}

impl SegmentBuilder {
    /// Adds the function of an index, which is greater than those before it.
    fn add(&mut self, alloc: Global, place: u32, func: u32) -> Result<(), Failure> {
        if sum(self.first, number(self.funcs.len())?)? != place {
            self.close(alloc)?;
            self.first = place;
        }
        self.funcs.push(func)?;
        Ok(())
    }

    /// Makes a segment of the functions that aren't in one yet.
    fn close(&mut self, alloc: Global) -> Result<(), Failure> {
        if self.funcs.is_empty() {
            return Ok(());
        }
        let funcs = mem::replace(&mut self.funcs, Items::new(alloc));
        self.elems.push(ElemSegment {
            table: 0,
            offset: Init::Const32(self.first),
            funcs,
        })?;
        Ok(())
    }
}
