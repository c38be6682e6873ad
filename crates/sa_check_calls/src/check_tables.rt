//! What typing an expression reads: the tables of the program, and the scope of the expression in its feature.

use indexmap::IndexMap;
use sa_ast::Name;
use sa_conformance::Signatures;
use sa_constants::ConstTable;
use sa_instantiate::Instances;
use std::alloc::Global;

/// What is the same for all forms of one feature.
#[derive(Clone, Copy)]
pub struct CheckTables<'a> {
    pub alloc: Global,
    pub program: &'a Instances<'a>,
    pub signatures: &'a Signatures,
    pub consts: &'a ConstTable,
    /// The number of the instance whose feature it is.
    pub class: u32,
}

/// A variable in scope.
#[derive(Clone, Copy, Debug, PartialEq, Eq)]
pub struct Variable {
    /// The number of its type: in a branch of a typecase the one that it has there.
    pub ty: u32,
    /// Whether it is the variable of a typecase in one of its branches.
    pub narrowed: bool,
    /// Its number in the feature.
    pub number: u32,
}

/// The scope of a form: the variables and the loops, protects and branches that enclose it in its feature. A name is in scope at most once.
#[derive(Drop)]
pub struct CheckScope {
    pub vars: IndexMap<Name, Variable>,
    /// The number of loops that enclose the form.
    pub loops: u32,
    /// The number of the innermost one.
    pub owner: Option<u32>,
    /// The number of loops that enclose the innermost protect, plus 1, or 0 outside any protect.
    pub guard: u32,
    /// The number of the type of `exception`, in a branch of a protect.
    pub branch: Option<u32>,
}

impl CheckScope {
    /// The scope outside any loop and any protect, with no variable.
    pub fn new(alloc: Global) -> CheckScope {
        CheckScope {
            vars: IndexMap::new(alloc),
            loops: 0,
            owner: None,
            guard: 0,
            branch: None,
        }
    }
}

/// What typing a form reads: the tables, and the form's scope.
#[derive(Clone, Copy)]
pub struct CheckContext<'a> {
    pub view: &'a CheckTables<'a>,
    pub place: &'a CheckScope,
}

impl CheckTables<'_> {
    /// The same tables with a scope of the feature.
    pub fn at<'b>(&'b self, place: &'b CheckScope) -> CheckContext<'b> {
        CheckContext { view: self, place }
    }
}
