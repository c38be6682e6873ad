//! A whole typed program: its types, features, signatures and shareds, each with its number.

use crate::expr::TypedExpr;
use crate::feature::{Target, TypedFeature};
use sa_ast::{ClassKind, Ty};
use sa_subst::Sig;
use sqlite_items::Items;

/// A type of the program: an instance that the program needs, or a bound type. The needed instances come first, in the order in which the
/// need for them was found; bound types that a bind makes and that are written nowhere follow in the order of the binds.
#[derive(Drop)]
pub struct TypeDef {
    pub ty: Ty,
    /// A bound type has the kind of a reference class.
    pub kind: ClassKind,
    /// The number of attributes.
    pub slots: u32,
    /// The numbers of the attributes' types, in the order of the attributes.
    pub attrs: Items<u32>,
    /// Whether objects of the type have an array part.
    pub array: bool,
    /// The number of the elements' type, where the class can read or write elements.
    pub elem: Option<u32>,
    /// The numbers of the proper supertypes of the type, in ascending order.
    pub above: Items<u32>,
}

/// A concrete subtype of the type of a signature, and its implementation of the signature.
#[derive(Clone, Copy, Debug, PartialEq, Eq, Hash)]
pub struct TypedImplementation {
    pub ty: u32,
    pub target: Target,
}

/// A signature of an abstract type, with its implementations in ascending order of their types' numbers.
#[derive(Drop)]
pub struct TypedSignature {
    pub ty: u32,
    pub sig: Sig,
    pub impls: Items<TypedImplementation>,
}

/// A shared of an instance that the program needs: its type, the number of the instance, and its initialiser.
#[derive(Drop)]
pub struct TypedShared {
    pub ty: u32,
    pub class: u32,
    pub start: Option<TypedExpr>,
}

/// A typed program. Features and shareds are ordered by instance, in the order of the flattened features; signatures by abstract instance,
/// in the order in which the type has them.
#[derive(Drop)]
pub struct TypedProgram {
    pub types: Items<TypeDef>,
    pub features: Items<TypedFeature>,
    pub sigs: Items<TypedSignature>,
    pub shareds: Items<TypedShared>,
    /// The number of the feature that the program runs.
    pub main: u32,
    /// The line starts of each text of the program, by the positions of its line feeds, in ascending order: the line of a position is as
    /// many lines after the first as there are line feeds before it.
    pub newlines: Items<Items<u32>>,
}
