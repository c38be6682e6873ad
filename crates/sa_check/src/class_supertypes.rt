//! The abstract supertypes of each needed type: besides bound types, only these are supertypes of other types. A type is a subtype of one
//! of another class only where edges lead from class to class, and it is a subtype of all supertypes of its supertypes. So the types are
//! tried in a topological order, in which each comes after its supertypes, the nearest first, and what is known isn't tested again.

use failure::{Failure, Invariant, known};
use sa_ast::Ty;
use sa_instantiate::{Instances, OB};
use sqlite_items::Items;
use std::alloc::Global;

/// An abstract type by its number, and the rank of its class: each class has a greater rank than its supertypes.
#[derive(Clone, Copy)]
struct AbstractType {
    rank: u32,
    number: u32,
}

/// The abstract types of a program.
#[derive(Drop)]
struct AbstractTypes {
    /// The numbers of those that are supertypes of every type, in ascending order.
    tops: Vec<u32>,
    /// The others, each after its supertypes.
    others: Vec<AbstractType>,
    /// For each of the others so far, which of the others are its supertypes.
    above: Vec<Vec<bool>>,
}

/// By needed type, the numbers of its proper abstract supertypes, in ascending order.
pub(crate) fn supertypes_by_type(
    alloc: Global,
    program: &Instances<'_>,
) -> Result<Vec<Items<u32>>, Failure> {
    let mut uppers = uppers_of(alloc, program)?;
    uppers.find_above(alloc, program)?;
    let mut all = Vec::new(alloc);
    for number in 0..program.count() {
        let ty = known(program.ty(number), Invariant::CheckedNumber)?;
        let found = uppers.found(alloc, program, ty)?;
        all.push(uppers.numbers(alloc, found.as_slice(), number)?)?;
    }
    Ok(all)
}

/// The numbers of the abstract types that are supertypes of every type, in ascending order.
pub(crate) fn universal_supertypes(
    alloc: Global,
    program: &Instances<'_>,
) -> Result<Items<u32>, Failure> {
    let AbstractTypes { tops, .. } = uppers_of(alloc, program)?;
    Ok(Items::from_vec(tops))
}

/// The abstract types of a program, of which none has been tried.
fn uppers_of(alloc: Global, program: &Instances<'_>) -> Result<AbstractTypes, Failure> {
    let mut uppers = AbstractTypes {
        tops: Vec::new(alloc),
        others: Vec::new(alloc),
        above: Vec::new(alloc),
    };
    for number in 0..program.count() {
        if program.is_abstract(number) {
            uppers.add(program, number)?;
        }
    }
    uppers
        .others
        .sort_unstable_by_key(|upper| (upper.rank, upper.number));
    Ok(uppers)
}

impl AbstractTypes {
    /// Adds an abstract type.
    fn add(&mut self, program: &Instances<'_>, number: u32) -> Result<(), Failure> {
        if program.is_sub(OB, number) {
            self.tops.push(number)?;
            return Ok(());
        }
        let rank = known(
            program
                .edges()
                .rank(known(program.ty(number), Invariant::CheckedNumber)?),
            Invariant::CheckedNumber,
        )?;
        self.others.push(AbstractType { rank, number })?;
        Ok(())
    }

    /// Finds for each of the others which of them are its supertypes.
    fn find_above(&mut self, alloc: Global, program: &Instances<'_>) -> Result<(), Failure> {
        for place in 0..self.others.len() {
            let upper = *known(self.others.get(place), Invariant::CheckedNumber)?;
            let found = self.found(
                alloc,
                program,
                known(program.ty(upper.number), Invariant::CheckedNumber)?,
            )?;
            self.above.push(found)?;
        }
        Ok(())
    }

    /// Which of the others are supertypes of a type. Their own supertypes have been found.
    fn found(&self, alloc: Global, program: &Instances<'_>, ty: &Ty) -> Result<Vec<bool>, Failure> {
        let mut found = vec![in alloc; false; self.others.len()]?;
        let Some(rank) = program.edges().rank(ty) else {
            return Ok(found);
        };
        for place in (0..self.above.len()).rev() {
            if self.is_asked(place, rank, found.as_slice()) && self.is_below(program, ty, place)? {
                let above = known(self.above.get(place), Invariant::CheckedNumber)?;
                add_found(found.as_mut_slice(), place, above.as_slice());
            }
        }
        Ok(found)
    }

    /// Whether a type whose class has this rank, and that is a subtype of those found so far, may be a subtype of the one at an index too.
    fn is_asked(&self, place: usize, rank: u32, found: &[bool]) -> bool {
        match self.others.get(place) {
            Some(upper) => upper.rank < rank && found.get(place) == Some(&false),
            None => false,
        }
    }

    /// Whether a type is a subtype of the one at an index.
    fn is_below(&self, program: &Instances<'_>, ty: &Ty, place: usize) -> Result<bool, Failure> {
        let upper = known(self.others.get(place), Invariant::CheckedNumber)?;
        Ok(
            program.edges().is_sub(
                ty,
                known(program.ty(upper.number), Invariant::CheckedNumber)?,
            ),
        )
    }

    /// The numbers of the supertypes of every type and of those that are found, except a type's own, in ascending order.
    fn numbers(&self, alloc: Global, found: &[bool], own: u32) -> Result<Items<u32>, Failure> {
        let mut numbers = Vec::new(alloc);
        for top in self.tops.iter() {
            if *top != own {
                numbers.push(*top)?;
            }
        }
        for (upper, is_found) in self.others.iter().zip(found.iter()) {
            if *is_found {
                numbers.push(upper.number)?;
            }
        }
        numbers.sort_unstable();
        Ok(Items::from_vec(numbers))
    }
}

/// Adds an index, and the indices of its supertypes.
fn add_found(found: &mut [bool], place: usize, above: &[bool]) {
    if place < found.len() {
        found[place] = true;
    }
    for (one, is_above) in found.iter_mut().zip(above.iter()) {
        *one = *one || *is_above;
    }
}
