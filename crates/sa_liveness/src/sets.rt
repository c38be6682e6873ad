//! Sets of the variables of a body, temporaries not included.

use failure::Failure;
use sa_cfg::FIRST_TEMPORARY;
use sqlite_items::Items;
use std::alloc::Global;

/// How many variables a machine word has bits for.
const IN_A_WORD: u32 = 64;

/// A set of variables with numbers less than `FIRST_TEMPORARY`: one bit for each.
#[derive(Clone, Copy, PartialEq, Eq)]
pub struct VarSet {
    words: [u64; 4],
}

impl VarSet {
    /// The set of no variable.
    pub const NONE: VarSet = VarSet { words: [0; 4] };

    /// The set of this variable, or of none where it is a temporary.
    pub fn of(var: u32) -> VarSet {
        VarSet::NONE.with(var)
    }

    /// The set with this variable, unless it is a temporary.
    pub fn with(self, var: u32) -> VarSet {
        if var >= FIRST_TEMPORARY {
            return self;
        }
        let mut words = self.words;
        words[(var / IN_A_WORD) as usize] |= 1u64 << (var % IN_A_WORD);
        VarSet { words }
    }

    /// The set with this variable, where there is one.
    pub fn with_some(self, var: Option<u32>) -> VarSet {
        match var {
            Some(var) => self.with(var),
            None => self,
        }
    }

    /// The variables that are in one of the two sets.
    pub fn union(self, other: VarSet) -> VarSet {
        let [a, b, c, d] = self.words;
        let [e, f, g, h] = other.words;
        VarSet {
            words: [a | e, b | f, c | g, d | h],
        }
    }

    /// The variables of this set that aren't in the other one.
    pub fn without(self, other: VarSet) -> VarSet {
        let [a, b, c, d] = self.words;
        let [e, f, g, h] = other.words;
        VarSet {
            words: [a & !e, b & !f, c & !g, d & !h],
        }
    }

    /// Whether a variable is in the set. No temporary is.
    pub fn has(&self, var: u32) -> bool {
        if var >= FIRST_TEMPORARY {
            return false;
        }
        (self.words[(var / IN_A_WORD) as usize] >> (var % IN_A_WORD)) & 1 == 1
    }

    /// The variables of the set, rising.
    pub fn rising(&self, alloc: Global) -> Result<Items<u32>, Failure> {
        let mut vars = Items::new(alloc);
        for var in 0..FIRST_TEMPORARY {
            if self.has(var) {
                vars.push(var)?;
            }
        }
        Ok(vars)
    }
}
