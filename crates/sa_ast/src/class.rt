//! Classes and their features, as they are written and after their includes are resolved.

use crate::expr::Expr;
use crate::name::Name;
use crate::stmt::{Body, Local};
use crate::ty::{Mode, Ty};
use sqlite_items::Items;

/// An argument of a feature.
#[derive(Drop)]
pub struct FormalParam {
    pub mode: Mode,
    pub local: Local,
    pub ty: Ty,
}

/// The visibility of a feature.
#[derive(Clone, Copy, Debug, PartialEq, Eq, Hash)]
pub enum Access {
    Public,
    /// Visible to the code of its class alone.
    Private,
    /// The reader of an attribute or a shared is public, and its writer is private.
    ReadOnly,
}

/// What a feature is.
#[derive(Drop)]
pub enum FeatureBody {
    Routine(Body),
    /// A feature of an abstract class.
    Signature,
    /// A feature that the including class has to define.
    Stub,
    /// A feature that the implementation defines, by the names of the class and the feature as the prelude writes them.
    Builtin(Name, Name),
    Attr,
    Shared(Option<Expr>),
    /// The expression plus the number. Where no expression is written, it counts as 0.
    Const(Option<Expr>, u32),
}

/// A feature of a class. It is an iter where its name ends in `!`.
#[derive(Drop)]
pub struct Feature {
    pub name: Local,
    pub access: Access,
    pub formals: Items<FormalParam>,
    pub result: Option<Ty>,
    pub part: FeatureBody,
}

/// A modifier of an include clause: the features of this name get the name `to`, or are left out where there is none.
#[derive(Drop)]
pub struct FeatureModifier {
    pub from: Local,
    pub to: Option<Name>,
    pub access: Access,
}

/// An include clause.
#[derive(Drop)]
pub struct Include {
    pub ty: Ty,
    pub private: bool,
    pub changes: Items<FeatureModifier>,
}

/// The kind of a class.
#[derive(Clone, Copy, Debug, PartialEq, Eq, Hash)]
pub enum ClassKind {
    Reference,
    Immutable,
    Abstract,
    Partial,
}

/// A type parameter of a class, with the type that bounds it.
#[derive(Drop)]
pub struct TypeParam {
    pub name: Local,
    pub bound: Option<Ty>,
}

/// A class.
#[derive(Drop)]
pub struct Class {
    pub kind: ClassKind,
    pub name: Local,
    pub params: Items<TypeParam>,
    /// The supertypes, written after `<`.
    pub below: Items<Ty>,
    /// The subtypes, written after `>`.
    pub above: Items<Ty>,
    pub includes: Items<Include>,
    pub features: Items<Feature>,
}

/// Classes after their includes are resolved: each has all its features, those that came by an include first.
#[derive(Drop)]
pub struct FlatClass {
    pub classes: Items<Class>,
}
