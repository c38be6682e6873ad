//! Structured regions as a type.

ghost use Rattle.std.specs.Prelude.{◌≡◌};
ghost use Rattle.sa_structure.specs.Regions.{piece_after, first, first_of, piece, pieces};

use sqlite_items::Items;

/// A structured region, a piece of structured control. The pieces of a list follow one another.
#[derive(Drop)]
pub enum Region {
    /// The operations and the terminator of a block. The block in which it continues begins after it, or is jumped to.
    Basic(u32),
    /// The same, for a block that ends with a branch: the list is where the branch goes if its test holds.
    If(u32, Items<Region>),
    /// A labelled block: a jump inside it to the block that begins after it leaves it.
    LabelledBlock(Items<Region>),
    /// A loop: a jump inside it to the block that it begins with begins it anew.
    Loop(Items<Region>),
    /// The dispatch: the body begins here, or resumes in the block before which it was suspended.
    Dispatch,
}

/// The block that a list begins with. A list that begins with the dispatch begins with none.
#[tactic(auto, using(crate::proofs::Pieces::beginnings))]
#[cycle(first)]
pub fn first_of(list: &[Region]) -> Option<u32>
    ensures { result ≡ first (pieces list.now) }
{
    match list.split_first() {
        Some((shape, _)) => first_of_region(shape),
        None => None,
    }
}

/// The block that a piece begins with.
#[tactic(auto, using(crate::proofs::Pieces::beginnings))]
#[cycle(first)]
fn first_of_region(shape: &Region) -> Option<u32>
    ensures { result ≡ first_of (piece shape.now) }
{
    match shape {
        Region::Basic(block) => Some(*block),
        Region::If(block, _) => Some(*block),
        Region::LabelledBlock(list) => first_of(list.as_slice()),
        Region::Loop(list) => first_of(list.as_slice()),
        Region::Dispatch => None,
    }
}

/// The block that begins after a piece: the one that the rest of its list begins with, or else the one after the list.
#[tactic(auto, using(crate::proofs::Pieces::beginnings))]
pub fn block_after(rest: &[Region], following: Option<u32>) -> Option<u32>
    ensures { result ≡ piece_after (pieces rest.now) following }
{
    match rest.split_first() {
        Some((shape, _)) => first_of_region(shape),
        None => following,
    }
}
