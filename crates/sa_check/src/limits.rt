//! The size of a typed program, and the number of its dispatch pairs.

use sa_ast::{Pos, Rejection, Rule};
use sa_check_stmt::MOST_NODES;

/// The greatest number of dispatch pairs of a program, each of a signature and a concrete subtype of the signature's type.
pub(crate) const MOST_PAIRS: u32 = 100_000;

/// The number of nodes, features and shareds so far.
#[derive(Clone, Copy)]
pub(crate) struct Size {
    sum: u32,
    /// The name of the feature with which the sum passed its limit.
    passed: Option<Pos>,
}

impl Size {
    pub(crate) fn new() -> Size {
        Size {
            sum: 0,
            passed: None,
        }
    }

    /// Counts a feature or a shared, by its name and the number of its nodes. It answers whether the sum is within its limit.
    pub(crate) fn add(&mut self, name: Pos, nodes: u32) -> bool {
        self.sum = self.sum.saturating_add(nodes).saturating_add(1);
        if self.passed.is_none() && self.sum > MOST_NODES {
            self.passed = Some(name);
        }
        self.passed.is_none()
    }

    /// E55 where the sum has passed its limit.
    pub(crate) fn within(&self) -> Result<(), Rejection> {
        match self.passed {
            None => Ok(()),
            Some(name) => Err(Rule::ProgramTooLarge.at(name).into()),
        }
    }
}
