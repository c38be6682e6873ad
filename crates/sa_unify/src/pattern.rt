//! Types with variables, spelled as a list of nodes in prefix order: a node comes before its children.

ghost use Rattle.std.specs.Prelude.{◌≡◌, IfOk};
ghost use Rattle.sa_unify.specs.Terms.{held};

use failure::Failure;
use sa_ast::{Mode, Name};
use std::alloc::Global;

/// A node of a type.
#[derive(Drop, PartialEq, Eq, Hash)]
pub enum Node {
    /// A variable by its number. It stands for any type, and for the same one at each occurrence.
    Variable(u32),
    /// A class by its name, with the number of its arguments, which follow.
    Class(Name, u32),
    /// A bound routine, with the number of its children: for each argument its mode and its type, and the type
    /// of the result, if it has one.
    Routine(u32),
    /// A bound iter in the same way.
    Iter(u32),
    /// The mode of an argument.
    Passed(Mode),
    /// A list of types, with their number.
    List(u32),
}

impl Node {
    /// How many children it has.
    pub(crate) fn holds(&self) -> usize
        ensures { result ≡ held self.now }
    {
        match self {
            Node::Variable(_) => 0,
            Node::Class(_, count) => *count as usize,
            Node::Routine(count) => *count as usize,
            Node::Iter(count) => *count as usize,
            Node::Passed(_) => 0,
            Node::List(count) => *count as usize,
        }
    }

    /// A copy of the node. It fails only if memory runs out.
    pub(crate) fn copy(&self, alloc: Global) -> Result<Node, Failure>
        ensures { IfOk result (λ node. node ≡ self.now) }
    {
        Ok(match self {
            Node::Variable(number) => Node::Variable(*number),
            Node::Class(name, count) => Node::Class(name.copy(alloc)?, *count),
            Node::Routine(count) => Node::Routine(*count),
            Node::Iter(count) => Node::Iter(*count),
            Node::Passed(mode) => Node::Passed(*mode),
            Node::List(count) => Node::List(*count),
        })
    }
}
