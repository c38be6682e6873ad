//! What a class declares, computed once for all its instances.

use crate::array_part::{element_of, has_array};
use crate::member_names::MemberNames;
use crate::members::{Member, members_of};
use crate::numbered::FeatureCounts;
use crate::terms::TypeTerms;
use failure::Failure;
use sa_ast::{Class, Ty};
use sqlite_items::Items;
use std::alloc::Global;

/// The table of a class, computed once for all its instances: the distinct types that the class writes, which are its terms, and its
/// features by name and by what they are.
///
/// The term 0 is the class itself, the term 1 is INT, and the types that the class writes are the terms from 2 on.
#[derive(Drop)]
pub struct ClassTable<'a> {
    class: &'a Class,
    terms: TypeTerms<'a>,
    members: Items<Member>,
    names: MemberNames<'a>,
    counted: FeatureCounts,
    has_array: bool,
    /// The term of the elements' type.
    element: Option<u32>,
}

impl<'a> ClassTable<'a> {
    /// The table of a class whose features are all that it has. It fails where memory runs out, or with
    /// `Broken` where its tables lack an entry for each other, which no class causes.
    pub fn make(alloc: Global, class: &'a Class) -> Result<ClassTable<'a>, Failure> {
        let terms = TypeTerms::of_class(alloc, class)?;
        let members = members_of(alloc, class, &terms)?;
        let names = MemberNames::of_members(alloc, class, members.as_slice())?;
        let counted = FeatureCounts::of_features(alloc, class.features.as_slice(), &terms)?;
        let element = element_of(class.features.as_slice(), &terms);
        Ok(ClassTable {
            class,
            terms,
            members,
            names,
            counted,
            has_array: has_array(class.features.as_slice()),
            element,
        })
    }

    /// The class.
    pub fn class(&self) -> &'a Class {
        self.class
    }

    /// How many different types the class writes.
    pub fn written(&self) -> usize {
        self.terms.count()
    }

    /// A type that the class writes, by its index among them. They are in text order, each at its first occurrence and before the types
    /// nested in it.
    pub fn written_at(&self, place: usize) -> Option<&'a Ty> {
        self.terms.at(place)
    }

    /// The term of SAME or of a type that the class writes. Another type has none.
    pub fn term(&self, ty: &Ty) -> Option<u32> {
        self.terms.term(ty)
    }

    /// The members, in the order of the features, each reader before its writer.
    pub fn members(&self) -> &[Member] {
        self.members.as_slice()
    }

    /// The indices of the members with a name, in order.
    pub fn named(&self, name: &[u8]) -> &[u32] {
        self.names.places(name)
    }

    /// The index of a feature among the routines and iters with a body.
    pub fn body(&self, feature: u32) -> Option<u32> {
        self.counted.bodies.place(feature)
    }

    /// The index of a feature among the shareds.
    pub fn shared(&self, feature: u32) -> Option<u32> {
        self.counted.shareds.place(feature)
    }

    /// The index of a feature among the attributes.
    pub fn slot(&self, feature: u32) -> Option<u32> {
        self.counted.attributes.place(feature)
    }

    /// How many routines and iters with a body there are.
    pub fn bodies(&self) -> usize {
        self.counted.bodies.features().len()
    }

    /// How many shareds there are.
    pub fn shareds(&self) -> usize {
        self.counted.shareds.features().len()
    }

    /// The indices among the features of those that are attributes, in order.
    pub fn attributes(&self) -> &[u32] {
        self.counted.attributes.features()
    }

    /// The term of an attribute's type, by its index among the attributes.
    pub fn attribute_term(&self, slot: u32) -> Option<u32> {
        self.counted.attribute_terms.get(slot as usize).copied()
    }

    /// Whether objects of the class have an array part: whether a feature is a built-in of AREF or ARRAY.
    pub fn has_array(&self) -> bool {
        self.has_array
    }

    /// The term of the elements' type, where a feature reads or writes elements.
    pub fn element(&self) -> Option<u32> {
        self.element
    }
}
