//! Routines and iters, targets of calls, and the sites of iter calls.

use crate::stmt::TypedStmt;
use sa_ast::{Mode, Pos};
use sa_prelude::BuiltinFeature;
use sqlite_items::Items;

/// What a call does, once the class of its receiver is known.
#[derive(Clone, Copy, Debug, PartialEq, Eq, Hash)]
pub enum Target {
    /// Calls a routine or an iter, by its number.
    Feature(u32),
    /// Calls a built-in feature.
    Builtin(BuiltinFeature),
    /// Reads an attribute, by its index among the attributes of the class.
    Get(u32),
    /// Writes an attribute.
    Set(u32),
    /// Reads a shared by its number.
    GetShared(u32),
    /// Writes a shared.
    SetShared(u32),
}

/// The callee of a call.
#[derive(Clone, Copy, Debug, PartialEq, Eq, Hash)]
pub enum TypedCallee {
    /// A feature of the type with this number, resolved at compile time.
    Static(Target, u32),
    /// The implementation of a signature, chosen by the class of the receiver at run time.
    Dispatch(u32),
    /// A bound value.
    Bound,
}

/// An iter call in the text of a feature. Its instance belongs to the loop with the number `owner`.
#[derive(Clone, Copy, Debug, PartialEq, Eq, Hash)]
pub struct Site {
    pub owner: u32,
    pub called: TypedCallee,
    pub pos: Pos,
}

/// A routine or an iter of an instance that the program needs, at the position of its name.
#[derive(Drop)]
pub struct TypedFeature {
    /// The number of the instance.
    pub class: u32,
    pub iter: bool,
    /// The modes of the parameters, which are the first variables.
    pub modes: Items<Mode>,
    /// The numbers of the variables' types: the parameters, then the other variables in the order of their declarations.
    pub vars: Items<u32>,
    pub result: Option<u32>,
    /// The sites in the order in which they were typed.
    pub sites: Items<Site>,
    pub body: Items<TypedStmt>,
    pub pos: Pos,
}
