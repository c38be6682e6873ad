//! The blocks that are open at a point of a function.

/// The most blocks that may be open at a point.
const MOST: usize = 1000;

/// An open block.
#[derive(Clone, Copy, Debug, PartialEq, Eq)]
pub(crate) enum ControlFrame {
    /// A `block`, a `loop`, or an `if` after its `else`.
    Block,
    /// An `if` before an `else`.
    If,
}

/// The blocks that are open, the outermost first.
#[derive(Drop)]
pub(crate) struct Blocks {
    open: [ControlFrame; MOST],
    depth: usize,
}

impl Blocks {
    /// No open block.
    pub(crate) fn none() -> Blocks {
        Blocks {
            open: [ControlFrame::Block; MOST],
            depth: 0,
        }
    }

    /// Opens a block, or gives nothing where `MOST` are open.
    pub(crate) fn begin(&mut self, block: ControlFrame) -> Option<()> {
        let place = self.open.get_mut(self.depth)?;
        *place = block;
        self.depth = self.depth.saturating_add(1);
        Some(())
    }

    /// Closes the innermost block, or gives nothing where none is open.
    pub(crate) fn finish(&mut self) -> Option<ControlFrame> {
        let depth = self.depth.checked_sub(1)?;
        self.depth = depth;
        self.open.get(depth).copied()
    }
}
