//! The types of a program by number, with the tables of their classes.

use failure::{Failure, Invariant, known};
use indexmap::IndexSet;
use sa_ast::{Class, Ty};
use sa_graph::word;
use sa_terms::{ClassTable, INT};
use sqlite_items::Items;
use std::alloc::Global;

/// A needed instance. A bound type has no class.
#[derive(Drop)]
pub(crate) struct InstanceRow {
    pub ty: Ty,
    /// The index of its class's table among the tables of classes.
    pub class: Option<u32>,
}

/// Types in the order of their numbers, each once, the tables of their classes, and the types of the terms.
#[derive(Drop)]
pub(crate) struct TypeList<'a> {
    classes: Items<ClassTable<'a>>,
    pub(crate) rows: Items<InstanceRow>,
    /// The types of the rows, each at the index of its row.
    places: IndexSet<Ty>,
    /// By type, the number of the type of each term of its class.
    terms: Items<Items<u32>>,
}

impl<'a> TypeList<'a> {
    pub(crate) fn new(alloc: Global) -> TypeList<'a> {
        TypeList {
            classes: Items::new(alloc),
            rows: Items::new(alloc),
            places: IndexSet::new(alloc),
            terms: Items::new(alloc),
        }
    }

    pub(crate) fn row(&self, ty: u32) -> Option<&InstanceRow> {
        self.rows.get(ty as usize)
    }

    /// The table of a type's class. A bound type has none.
    pub(crate) fn table(&self, ty: u32) -> Option<&ClassTable<'a>> {
        self.classes.get(self.row(ty)?.class? as usize)
    }

    /// A type's class. A bound type has none.
    pub(crate) fn class(&self, ty: u32) -> Option<&'a Class> {
        Some(self.table(ty)?.class())
    }

    /// The number of a type without parameters.
    pub(crate) fn number(&self, ty: &Ty) -> Option<u32> {
        u32::try_from(self.places.get_index_of(ty)?).ok()
    }

    /// The number of the type that a term is for a type's class.
    pub(crate) fn of_term(&self, ty: u32, term: u32) -> Option<u32> {
        self.terms.get(ty as usize)?.get(term as usize).copied()
    }

    /// Appends a type that isn't in the list, and gives its number.
    pub(crate) fn add(
        &mut self,
        alloc: Global,
        ty: Ty,
        class: Option<u32>,
    ) -> Result<u32, Failure> {
        let number = word(self.rows.len(), Invariant::CheckedCount)?;
        let copy = ty.copy(alloc)?;
        self.places.insert(ty)?;
        self.rows.push(InstanceRow { ty: copy, class })?;
        Ok(number)
    }

    /// Appends the table of a class to the tables, and gives its index.
    pub(crate) fn add_table(&mut self, alloc: Global, class: &'a Class) -> Result<u32, Failure> {
        let place = word(self.classes.len(), Invariant::CheckedCount)?;
        self.classes.push(ClassTable::make(alloc, class)?)?;
        Ok(place)
    }

    /// Appends the terms of the next type.
    pub(crate) fn add_terms(&mut self, terms: Items<u32>) -> Result<(), Failure> {
        self.terms.push(terms)?;
        Ok(())
    }

    /// How many distinct types the class of a type writes, and one of them by its index.
    pub(crate) fn written(&self, ty: u32) -> usize {
        match self.table(ty) {
            None => 0,
            Some(table) => table.written(),
        }
    }

    pub(crate) fn written_at(&self, ty: u32, place: usize) -> Result<&'a Ty, Failure> {
        let table = known(self.table(ty), Invariant::InstanceTable)?;
        known(table.written_at(place), Invariant::InstanceTable)
    }
}

/// The terms before the written ones in each class: the class itself, and INT.
pub(crate) fn first_terms(alloc: Global, ty: u32) -> Result<Items<u32>, Failure> {
    Ok(Items::from_slice(alloc, &[ty, INT])?)
}

/// The type arguments of a type.
pub(crate) fn type_args(ty: &Ty) -> &[Ty] {
    match ty {
        Ty::Named(_, args, _) => args.as_slice(),
        _ => &[],
    }
}
