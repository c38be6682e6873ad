//! The members of a class by their names.

use crate::members::Member;
use failure::{Failure, Invariant, known};
use indexmap::IndexSet;
use sa_ast::Class;
use sa_graph::{IndexGroups, word};
use std::alloc::Global;

/// The indices of the members of a class by their names.
#[derive(Drop)]
pub(crate) struct MemberNames<'a> {
    /// The distinct names, each numbered by its index.
    names: IndexSet<&'a [u8]>,
    /// The indices of the members by the numbers of their names.
    places: IndexGroups,
}

impl<'a> MemberNames<'a> {
    pub(crate) fn of_members(
        alloc: Global,
        class: &'a Class,
        members: &[Member],
    ) -> Result<MemberNames<'a>, Failure> {
        let mut names = IndexSet::new(alloc);
        let mut numbers = Vec::new(alloc);
        for member in members {
            numbers.push(number(&mut names, name_of(class, member)?)?)?;
        }
        let places = IndexGroups::new(alloc, names.len(), numbers.as_slice())?;
        Ok(MemberNames { names, places })
    }

    /// The indices of the members with a name, in order.
    pub(crate) fn places(&self, name: &[u8]) -> &[u32] {
        let Some(number) = self.number(name) else {
            return &[];
        };
        self.places.of(number)
    }

    fn number(&self, name: &[u8]) -> Option<u32> {
        u32::try_from(self.names.get_index_of(name)?).ok()
    }
}

fn name_of<'a>(class: &'a Class, member: &Member) -> Result<&'a [u8], Failure> {
    let feature = known(
        class.features.get(member.feature as usize),
        Invariant::ClassTable,
    )?;
    Ok(feature.name.name.as_slice())
}

/// The number of a name, which is appended where it isn't there yet.
fn number<'a>(names: &mut IndexSet<&'a [u8]>, name: &'a [u8]) -> Result<u32, Failure> {
    if let Some(place) = names.get_index_of(name) {
        return word(place, Invariant::ClassTable);
    }
    let place = word(names.len(), Invariant::ClassTable)?;
    names.insert(name)?;
    Ok(place)
}
