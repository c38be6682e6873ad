//! How much work the supertypes of a program may take.

use failure::{Failure, limit};

/// How many units of work are done for the supertypes of one program: one for each step, and eight for each node that is
/// written.
///
/// Supertypes that hold their parameters several times over, or chains of thousands of classes whose supertypes have
/// arguments, would take time and memory without a bound in the size of the source. Past this limit the answer is that
/// memory has run out.
const LIMIT: u32 = 200_000_000;

/// How many units the writing of a node takes.
const NODE: usize = 8;

/// The work that may still be done.
#[derive(Drop)]
pub struct WorkBudget {
    left: u32,
}

impl WorkBudget {
    /// The budget of a program for which no work has been done.
    pub fn new() -> WorkBudget {
        WorkBudget { left: LIMIT }
    }

    /// How many units are left.
    pub fn left(&self) -> u32 {
        self.left
    }

    /// Counts one unit. It fails where the limit is passed.
    pub fn unit(&mut self) -> Result<(), Failure> {
        self.units(1)
    }

    /// Counts the writing of some nodes. It fails where the limit is passed.
    pub fn nodes(&mut self, count: usize) -> Result<(), Failure> {
        self.units(count.saturating_mul(NODE))
    }

    /// Counts some units. It fails where the limit is passed.
    pub fn units(&mut self, count: usize) -> Result<(), Failure> {
        let Ok(count) = u32::try_from(count) else {
            return limit();
        };
        match self.left.checked_sub(count) {
            Some(left) => {
                self.left = left;
                Ok(())
            }
            None => limit(),
        }
    }
}
