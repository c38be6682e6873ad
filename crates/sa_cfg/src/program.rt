//! The whole program as control-flow graphs: its bodies, and the tables that they name entries of by index.

use crate::body::CfgBody;
use crate::call::CallTarget;
use sa_ast::{ClassKind, Name, Pos};
use sqlite_items::Items;

/// The layout of a type: what is known of it while a program runs.
#[derive(Drop)]
pub struct TypeLayout {
    pub kind: ClassKind,
    /// The indices of the attributes' types, in the order of the attributes.
    pub attrs: Items<u32>,
    /// Whether objects of the type have an array part.
    pub array: bool,
    /// The index of the elements' type, where the class can read or write elements.
    pub elem: Option<u32>,
    /// The indices of the type's other supertypes, rising.
    pub above: Items<u32>,
}

/// The layout of bound values of one kind: what they store and call.
#[derive(Drop)]
pub struct BoundLayout {
    /// The index of the bound type.
    pub ty: u32,
    /// What a call of the bound value does: a body of a feature, a built-in, an attribute or a shared; or a signature, whose
    /// implementation is chosen when the value is made.
    pub callee: CallTarget,
    /// The index of the type whose feature is called, or 0 for a signature.
    pub class: u32,
    /// For each parameter of the feature, whether its argument is left open.
    pub open: Items<bool>,
}

/// A program as control-flow graphs.
#[derive(Drop)]
pub struct CfgProgram {
    /// The bodies of the features at the features' indices, then the adapters, which only `targets` names, and last the body that runs the
    /// initialisers of the shareds and calls `main`.
    pub bodies: Items<CfgBody>,
    /// The different texts of the program, each once.
    pub texts: Items<Name>,
    /// The positions that faults name by index.
    pub positions: Items<Pos>,
    /// How many attributes each type has.
    pub types: Items<u32>,
    /// For each implementation of a signature, in the order of the signatures and of their implementations, the index of the body that does
    /// it, with the boxing of arguments, result and copies out.
    pub targets: Items<u32>,
    /// The layout of each type.
    pub layouts: Items<TypeLayout>,
    /// The index of the type of each shared.
    pub shareds: Items<u32>,
    pub binds: Items<BoundLayout>,
}
