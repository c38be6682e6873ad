//! The worklist algorithm that finds the needed instances.
//!
//! The list begins with nine types. Then its instances are processed in order, and each type of an instance that isn't in the list yet is
//! checked and appended.

use crate::instantiation::{Instantiation, MOST_NODES};
use crate::type_list::{TypeList, first_terms, type_args};
use failure::{Failure, Invariant, known, limit};
use indexmap::IndexSet;
use sa_ast::{Class, ClassKind, FlatClass, Name, Pos, Rejection, Rule, Ty, TypeParam};
use sa_graph::word;
use sa_subtypes::SubtypeRelation;
use sa_terms::{DEEPEST, depth, size};
use sqlite_items::Items;
use std::alloc::Global;

/// The greatest number of instances.
const MOST_INSTANCES: usize = 2_000;

/// The names of the first needed instances, in the order of their numbers.
const FIRST: [&[u8]; 9] = [
    b"$OB", b"$STR", b"$IS_EQ", b"BOOL", b"INT", b"CHAR", b"STR", b"FAULT", b"MAIN",
];

/// The list while it grows.
#[derive(Drop)]
struct Worklist<'a> {
    flat: &'a FlatClass,
    edges: &'a SubtypeRelation,
    list: TypeList<'a>,
    /// The classes that have a table, by their indices among the program's classes, in the order of the tables.
    tabled: IndexSet<u32>,
    /// Of how many types the instances so far consist.
    nodes: u64,
}

/// The needed instances of flattened classes, in the order of first need.
pub(crate) fn needed_types<'a>(
    alloc: Global,
    flat: &'a FlatClass,
    edges: &'a SubtypeRelation,
) -> Result<TypeList<'a>, Rejection> {
    let mut walk = Worklist {
        flat,
        edges,
        list: TypeList::new(alloc),
        tabled: IndexSet::new(alloc),
        nodes: 0,
    };
    for name in FIRST.iter() {
        walk.add_first(alloc, *name)?;
    }
    for ty in 0..MOST_INSTANCES {
        if ty < walk.list.rows.len() {
            walk.go_through(alloc, word(ty, Invariant::CheckedCount)?)?;
        }
    }
    Ok(walk.list)
}

impl<'a> Worklist<'a> {
    /// The class with a name, with its index. A partial class is no type.
    fn class(&self, name: &[u8]) -> Option<(u32, &'a Class)> {
        let place = self.edges.class_place(name)?;
        let class = self.flat.classes.get(place as usize)?;
        if class.kind == ClassKind::Partial {
            return None;
        }
        Some((place, class))
    }

    /// Appends one of the first types to the list.
    fn add_first(&mut self, alloc: Global, name: &[u8]) -> Result<(), Rejection> {
        let Some((place, class)) = self.class(name) else {
            return Err(Rule::ClassNotUsable.at(Pos { file: 0, at: 0 }).into());
        };
        let table = self.table(alloc, place, class)?;
        let name = Name::from_slice(alloc, name)?;
        let ty = Ty::Named(name, Items::new(alloc), class.name.pos);
        self.list.add(alloc, ty, Some(table))?;
        Ok(())
    }

    /// The index of the table of a class, which is made where there is none.
    fn table(&mut self, alloc: Global, place: u32, class: &'a Class) -> Result<u32, Failure> {
        if let Some(table) = self.tabled.get_index_of(&place) {
            return word(table, Invariant::CheckedCount);
        }
        self.tabled.insert(place)?;
        self.list.add_table(alloc, class)
    }

    /// Finds the number of each type that an instance writes.
    fn go_through(&mut self, alloc: Global, ty: u32) -> Result<(), Rejection> {
        let Some(class) = self.list.class(ty) else {
            self.list.add_terms(Items::new(alloc))?;
            return Ok(());
        };
        let own = known(self.list.row(ty), Invariant::InstanceTable)?
            .ty
            .copy(alloc)?;
        let at = Instantiation::of(alloc, class.params.as_slice(), &own)?;
        let terms = self.terms(alloc, ty, class.params.as_slice(), &at)?;
        self.list.add_terms(terms)?;
        Ok(())
    }

    /// The numbers of the types that a type's class with these parameters writes, at an instance of it, after those of the first terms.
    fn terms(
        &mut self,
        alloc: Global,
        ty: u32,
        params: &[TypeParam],
        at: &Instantiation<'_>,
    ) -> Result<Items<u32>, Rejection> {
        let mut terms = first_terms(alloc, ty)?;
        for place in 0..self.list.written(ty) {
            let written = self.list.written_at(ty, place)?;
            check_not_hidden(params, written)?;
            let needed = at.put_into(alloc, written)?;
            terms.push(self.number(alloc, needed)?)?;
        }
        Ok(terms)
    }

    /// The number of a needed type, which is appended to the list where it isn't there yet.
    fn number(&mut self, alloc: Global, ty: Ty) -> Result<u32, Rejection> {
        if let Some(number) = self.list.number(&ty) {
            return Ok(number);
        }
        let table = self.usable(alloc, &ty)?;
        self.check_limits(&ty)?;
        self.count_nodes(&ty)?;
        Ok(self.list.add(alloc, ty, table)?)
    }

    fn count_nodes(&mut self, ty: &Ty) -> Result<(), Failure> {
        self.nodes = self.nodes.saturating_add(size(ty));
        if self.nodes > MOST_NODES {
            return limit();
        }
        Ok(())
    }

    /// The index of the table of a type's class, or the refusal of a type that is no use of a class. A bound type has no class.
    fn usable(&mut self, alloc: Global, ty: &Ty) -> Result<Option<u32>, Rejection> {
        let Ty::Named(name, args, pos) = ty else {
            return Ok(None);
        };
        let Some((place, class)) = self.class(name.as_slice()) else {
            return Err(Rule::ClassNotUsable.at(*pos).into());
        };
        if args.len() != class.params.len() {
            return Err(Rule::ParameterCount.at(*pos).into());
        }
        if !self.meets_bounds(alloc, class.params.as_slice(), ty)? {
            return Err(Rule::BoundNotMet.at(*pos).into());
        }
        Ok(Some(self.table(alloc, place, class)?))
    }

    /// Whether each type argument is a subtype of its parameter's bound.
    fn meets_bounds(&self, alloc: Global, params: &[TypeParam], ty: &Ty) -> Result<bool, Failure> {
        let at = Instantiation::of(alloc, params, ty)?;
        for (param, arg) in params.iter().zip(type_args(ty)) {
            if !self.meets_bound(alloc, param, arg, &at)? {
                return Ok(false);
            }
        }
        Ok(true)
    }

    fn meets_bound(
        &self,
        alloc: Global,
        param: &TypeParam,
        arg: &Ty,
        at: &Instantiation<'_>,
    ) -> Result<bool, Failure> {
        let Some(bound) = &param.bound else {
            return Ok(true);
        };
        let bound = at.put_into(alloc, bound)?;
        Ok(self.edges.is_sub(arg, &bound))
    }

    /// The refusal of a type that is too deep or one too many.
    fn check_limits(&self, ty: &Ty) -> Result<(), Rejection> {
        if depth(ty) > DEEPEST {
            return Err(Rule::TypeTooDeep.at(position(ty)).into());
        }
        if self.list.rows.len() >= MOST_INSTANCES {
            return Err(Rule::TooManyInstances.at(position(ty)).into());
        }
        Ok(())
    }
}

/// The refusal of a type whose name is that of a parameter, which hides a class of that name, and which has types of its own.
fn check_not_hidden(params: &[TypeParam], written: &Ty) -> Result<(), Rejection> {
    match written {
        Ty::Named(name, args, pos) => {
            if !args.is_empty() && params.iter().any(|param| param.name.name == *name) {
                return Err(Rule::ClassNotUsable.at(*pos).into());
            }
            Ok(())
        }
        _ => Ok(()),
    }
}

/// The position of a type.
fn position(ty: &Ty) -> Pos {
    match ty {
        Ty::Named(_, _, pos) => *pos,
        Ty::Same(pos) => *pos,
        Ty::Rout(_, _, pos) => *pos,
        Ty::Iter(_, _, pos) => *pos,
    }
}
