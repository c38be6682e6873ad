//! The tables of a program, by the numbers of its types.

use crate::cycles::check_cycles;
use crate::feature_numbers::{first_bodies, first_shareds};
use crate::main_routine::main_routine;
use crate::signature::signature_of;
use crate::type_list::{TypeList, type_args};
use crate::walk::needed_types;
use failure::{Failure, Invariant, known};
use sa_ast::{Class, ClassKind, Feature, FlatClass, Rejection, Ty};
use sa_graph::word;
use sa_subst::{Sig, Substitution};
use sa_subtypes::SubtypeRelation;
use sa_terms::{MAIN, Member};
use sqlite_items::Items;
use std::alloc::Global;

/// The instances that a program needs, with their numbers, their classes and the numbers of the types that these write.
#[derive(Drop)]
pub struct Instances<'a> {
    edges: &'a SubtypeRelation,
    list: TypeList<'a>,
    count: u32,
    /// By type, the number of its first routine or iter with a body.
    bodies: Items<u32>,
    /// By type, the number of its first shared.
    shareds: Items<u32>,
    /// The number of the routine that is run.
    main: u32,
}

impl<'a> Instances<'a> {
    /// The instances that the flattened classes of a program need, in the order of first need, where `edges` is the subtype relation of the
    /// classes.
    ///
    /// It refuses with E24 where there is no routine to run; then with E12 (no such class), E13 (number of parameters),
    /// E14 (a bound that isn't met), E52 (too deep) or E51 (too many instances) at the first type in the order of need
    /// for which one of them holds, in this order; then with E15 at the name of the class of the first immutable instance
    /// that holds itself through attributes of immutable classes. It answers that memory has run out also where the needed
    /// types are made of more than 4,194,304 types.
    pub fn instantiate(
        alloc: Global,
        flat: &'a FlatClass,
        edges: &'a SubtypeRelation,
    ) -> Result<Instances<'a>, Rejection> {
        let main = main_routine(flat, edges.class_place(b"MAIN".as_slice()))?;
        let list = needed_types(alloc, flat, edges)?;
        let program = Instances::of_list(alloc, list, main, edges)?;
        check_cycles(alloc, &program)?;
        Ok(program)
    }

    /// The tables over the needed instances, where `main` is the index of the routine that is run among the features of MAIN.
    fn of_list(
        alloc: Global,
        list: TypeList<'a>,
        main: u32,
        edges: &'a SubtypeRelation,
    ) -> Result<Instances<'a>, Failure> {
        let count = word(list.rows.len(), Invariant::CheckedCount)?;
        let bodies = first_bodies(alloc, &list, count)?;
        let shareds = first_shareds(alloc, &list, count)?;
        let main = known(
            body_number(&list, bodies.as_slice(), MAIN, main),
            Invariant::InstanceTable,
        )?;
        Ok(Instances {
            edges,
            list,
            count,
            bodies,
            shareds,
            main,
        })
    }

    /// How many instances there are.
    pub fn count(&self) -> u32 {
        self.count
    }

    /// The subtype relation.
    pub fn edges(&self) -> &SubtypeRelation {
        self.edges
    }

    /// A type by its number.
    pub fn ty(&self, number: u32) -> Option<&Ty> {
        Some(&self.list.row(number)?.ty)
    }

    /// The class of a type. A bound type has none.
    pub fn class(&self, ty: u32) -> Option<&Class> {
        self.list.class(ty)
    }

    /// The kind of class that a type is. A bound type is a reference class.
    pub fn kind(&self, ty: u32) -> Option<ClassKind> {
        let row = self.list.row(ty)?;
        if row.class.is_none() {
            return Some(ClassKind::Reference);
        }
        Some(self.list.class(ty)?.kind)
    }

    /// Whether a type is abstract.
    pub fn is_abstract(&self, ty: u32) -> bool {
        matches!(self.kind(ty), Some(ClassKind::Abstract))
    }

    /// Whether two types are instances of one class, whatever its parameters are.
    pub fn is_same_class(&self, one: u32, other: u32) -> bool {
        if one == other {
            return true;
        }
        match (self.class(one), self.class(other)) {
            (Some(one), Some(other)) => one.name.name == other.name.name,
            _ => false,
        }
    }

    /// The number of a type without parameters or SAME.
    pub fn number(&self, ty: &Ty) -> Option<u32> {
        self.list.number(ty)
    }

    /// The number of a type as the class of an instance writes it.
    pub fn number_of(&self, class: u32, written: &Ty) -> Option<u32> {
        if let Ty::Same(_) = written {
            return Some(class);
        }
        let term = self.list.table(class)?.term(written)?;
        self.list.of_term(class, term)
    }

    /// Whether the first type is a subtype of the second.
    pub fn is_sub(&self, s: u32, t: u32) -> bool {
        if s == t {
            return true;
        }
        match (self.ty(s), self.ty(t)) {
            (Some(below), Some(above)) => self.edges.is_sub(below, above),
            _ => false,
        }
    }

    /// The members of a type's class, in the order of its features, each reader before its writer. A bound type has none.
    pub fn members(&self, ty: u32) -> &[Member] {
        match self.list.table(ty) {
            None => &[],
            Some(table) => table.members(),
        }
    }

    /// A member of a type's class by its index.
    pub fn member(&self, ty: u32, place: u32) -> Option<&Member> {
        self.members(ty).get(place as usize)
    }

    /// A feature of a type's class by its index.
    pub fn feature(&self, ty: u32, place: u32) -> Option<&Feature> {
        self.class(ty)?.features.get(place as usize)
    }

    /// The indices of the members with a name, in order. A bound type has none.
    pub fn named(&self, ty: u32, name: &[u8]) -> &[u32] {
        match self.list.table(ty) {
            None => &[],
            Some(table) => table.named(name),
        }
    }

    /// The number of the type of a parameter of a member, by the parameter's index.
    pub fn argument(&self, ty: u32, member: &Member, k: usize) -> Option<u32> {
        self.list.of_term(ty, *member.args.get(k)?)
    }

    /// The number of the type of a member's result, if it has one.
    pub fn result(&self, ty: u32, member: &Member) -> Option<u32> {
        self.list.of_term(ty, member.result?)
    }

    /// The signature of a member: its name, its modes, and its types with the instance's types substituted.
    pub fn signature(&self, alloc: Global, ty: u32, place: u32) -> Result<Sig, Failure> {
        let class = known(self.list.class(ty), Invariant::InstanceTable)?;
        let member = known(self.member(ty, place), Invariant::InstanceTable)?;
        let feature = known(self.feature(ty, member.feature), Invariant::InstanceTable)?;
        let own = known(self.ty(ty), Invariant::InstanceTable)?;
        let by = Substitution::make(alloc, class.params.as_slice(), type_args(own), own)?;
        signature_of(alloc, feature, member, &by)
    }

    /// The indices among the features of the attributes of a type's class, in order.
    pub fn slots(&self, ty: u32) -> &[u32] {
        match self.list.table(ty) {
            None => &[],
            Some(table) => table.attributes(),
        }
    }

    /// The index of a feature among the attributes.
    pub fn slot_of(&self, ty: u32, feature: u32) -> Option<u32> {
        self.list.table(ty)?.slot(feature)
    }

    /// The number of the type of an attribute, by its index among the attributes.
    pub fn slot_type(&self, ty: u32, slot: u32) -> Option<u32> {
        let term = self.list.table(ty)?.attribute_term(slot)?;
        self.list.of_term(ty, term)
    }

    /// The number of a routine or iter with a body, counted over all instances in order.
    pub fn body_number(&self, ty: u32, feature: u32) -> Option<u32> {
        body_number(&self.list, self.bodies.as_slice(), ty, feature)
    }

    /// The number of a shared, counted over all instances in order.
    pub fn shared_number(&self, ty: u32, feature: u32) -> Option<u32> {
        let place = self.list.table(ty)?.shared(feature)?;
        number_from(self.shareds.as_slice(), ty, place)
    }

    /// Whether objects of a type have an array part.
    pub fn has_array(&self, ty: u32) -> bool {
        match self.list.table(ty) {
            None => false,
            Some(table) => table.has_array(),
        }
    }

    /// The number of the type of the elements of the array part, where a feature of the class reads or writes them.
    pub fn element(&self, ty: u32) -> Option<u32> {
        let term = self.list.table(ty)?.element()?;
        self.list.of_term(ty, term)
    }

    /// The number of the routine that is run.
    pub fn main(&self) -> u32 {
        self.main
    }
}

/// The number of a routine or iter with a body, where the bodies of each type begin at these numbers.
fn body_number(list: &TypeList<'_>, bodies: &[u32], ty: u32, feature: u32) -> Option<u32> {
    number_from(bodies, ty, list.table(ty)?.body(feature)?)
}

/// The number of a feature at this index among those of its sort in a type's class.
fn number_from(firsts: &[u32], ty: u32, place: u32) -> Option<u32> {
    firsts.get(ty as usize)?.checked_add(place)
}
