//! The state of a feature while its body is typed: its variables, its loops, and the scope of the next form.

use failure::{Failure, Invariant, known};
use sa_ast::{Local, Name, Rejection, Rule};
use sa_check_expr::{CheckScope, Variable, is_iter_name};
use sqlite_items::Items;
use std::alloc::Global;

/// The kind of a feature with a body.
#[derive(Clone, Copy, PartialEq, Eq)]
pub enum FeatureKind {
    Routine,
    Iter,
}

impl FeatureKind {
    /// The kind of a feature with this name.
    pub fn of_name(name: &Name) -> FeatureKind {
        if is_iter_name(name.as_slice()) {
            FeatureKind::Iter
        } else {
            FeatureKind::Routine
        }
    }
}

/// A feature whose body is being typed.
#[derive(Drop)]
pub struct BodyState {
    /// The scope of the next form.
    pub place: CheckScope,
    /// The numbers of the variables' types, by the numbers of the variables.
    pub vars: Items<u32>,
    /// The number of loops that have begun.
    loops: u32,
    /// The number of nodes in copies of initialisers.
    pub(crate) copied: u32,
    pub kind: FeatureKind,
    /// The number of the result's type.
    pub result: Option<u32>,
}

/// A loop that has begun, with the state to restore at its end. Loops are numbered in text order.
#[derive(Clone, Copy)]
pub struct SavedLoop {
    pub number: u32,
    loops: u32,
    owner: Option<u32>,
}

/// A protect that has begun, with the state to restore at its end.
#[derive(Clone, Copy)]
pub struct SavedProtect {
    guard: u32,
    branch: Option<u32>,
}

impl BodyState {
    /// A feature without variables, at the beginning of its body.
    pub fn new(alloc: Global, kind: FeatureKind, gives: Option<u32>) -> BodyState {
        BodyState {
            place: CheckScope::new(alloc),
            vars: Items::new(alloc),
            loops: 0,
            copied: 0,
            kind,
            result: gives,
        }
    }

    /// Makes a variable of a type, without a name, and gives its number.
    pub fn variable(&mut self, ty: u32) -> Result<u32, Failure> {
        let number = known(u32::try_from(self.vars.len()).ok(), Invariant::CheckedCount)?;
        self.vars.push(ty)?;
        Ok(number)
    }

    /// Declares a variable of a type from here to the end of the statement list, and gives its number. It is refused where the name is in
    /// scope already.
    pub fn declare(&mut self, alloc: Global, local: &Local, ty: u32) -> Result<u32, Rejection> {
        if self.place.vars.contains_key(&local.name) {
            return Err(Rule::DeclaredTwice.at(local.pos).into());
        }
        let number = self.variable(ty)?;
        let variable = Variable {
            ty,
            narrowed: false,
            number,
        };
        self.place.vars.insert(local.name.copy(alloc)?, variable)?;
        Ok(number)
    }

    /// The variable of a name that is in scope.
    pub fn lookup(&self, name: &Name) -> Option<Variable> {
        self.place.vars.get(name).copied()
    }

    /// Rebinds a name that is in scope to another variable.
    pub fn replace(&mut self, name: &Name, variable: Variable) {
        if let Some(seen) = self.place.vars.get_mut(name) {
            *seen = variable;
        }
    }

    /// Ends the scope of all variables except the first `outside` ones in scope.
    pub fn leave_scope(&mut self, outside: usize) {
        self.place.vars.truncate(outside);
    }

    /// Begins a loop.
    pub fn begin_loop(&mut self) -> Result<SavedLoop, Failure> {
        let open = SavedLoop {
            number: self.loops,
            loops: self.place.loops,
            owner: self.place.owner,
        };
        self.loops = known(open.number.checked_add(1), Invariant::CheckedCount)?;
        self.place.loops = known(open.loops.checked_add(1), Invariant::CheckedCount)?;
        self.place.owner = Some(open.number);
        Ok(open)
    }

    /// Ends a loop.
    pub fn end_loop(&mut self, open: SavedLoop) {
        self.place.loops = open.loops;
        self.place.owner = open.owner;
    }

    /// Begins a protect. Its branches set the type of `exception`.
    pub fn begin_protect(&mut self) -> Result<SavedProtect, Failure> {
        let open = SavedProtect {
            guard: self.place.guard,
            branch: self.place.branch,
        };
        self.place.guard = known(self.place.loops.checked_add(1), Invariant::CheckedCount)?;
        Ok(open)
    }

    /// Ends a protect.
    pub fn end_protect(&mut self, open: SavedProtect) {
        self.place.guard = open.guard;
        self.place.branch = open.branch;
    }
}
