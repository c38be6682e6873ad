//! How deep a position is nested in the code of a body.

use failure::{Failure, Invariant, known};

/// How many blocks, loops and conditions are around a position in the code of a body. It is passed down, and is one more in each block that
/// is further in.
#[derive(Clone, Copy, Debug, PartialEq, Eq)]
pub struct LabelDepth(u32);

impl LabelDepth {
    /// Directly in the code of the body.
    pub fn outermost() -> LabelDepth {
        LabelDepth(0)
    }

    /// So many blocks further in. The answer is `Broken` where 32 bits don't hold how deep that is.
    pub fn further_in(self, blocks: u32) -> Result<LabelDepth, Failure> {
        Ok(LabelDepth(known(self.0.checked_add(blocks), Invariant::LabelDepth)?))
    }

    /// How much is around the position.
    pub fn depth(self) -> u32 {
        self.0
    }

    /// The label, at this position, of what encloses it `around` levels further out.
    ///
    /// # Errors
    ///
    /// `Broken` where the position isn't enclosed by that many.
    pub fn label(self, around: u32) -> Result<u32, Failure> {
        known(
            known(self.0.checked_sub(around), Invariant::LabelDepth)?.checked_sub(1),
            Invariant::LabelDepth,
        )
    }

    /// The label of the block around the code of the body.
    pub fn outer_label(self) -> u32 {
        self.0
    }
}
