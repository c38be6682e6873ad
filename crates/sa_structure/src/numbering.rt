//! The verifier of the numbering: whether the blocks in which a body begins and resumes are numbered by their indices among the entries.

ghost use Rattle.std.specs.Prelude.{◌≡◌, IsTrue, Some, slice_get};
ghost use Rattle.sa_structure.specs.Numbering.{AreNumbered, ArePlaces, IsPlace};
ghost use Rattle.sa_structure.specs.Stands as are;

/// Whether the first entry is block 0, each entry has a number, and numbers are indices of the entries, also those by which blocks are
/// reached again.
pub(crate) fn are_numbered(entries: &[u32], numbers: &[Option<u32>], again: &[Option<u32>]) -> bool
    ensures { IsTrue result → AreNumbered entries.now numbers.now again.now }
{
    is_place(entries, 0, 0)
        && have_numbers(entries, numbers)
        && are_places(entries, numbers)
        && are_places(entries, again)
}

/// Whether each entry has a number.
#[tactic(auto, using(crate::proofs::Trials::tried))]
fn have_numbers(entries: &[u32], numbers: &[Option<u32>]) -> bool
    ensures { result ≡ are.each (are.is_numbered numbers.now) entries.now }
{
    for block in entries {
        if !is_numbered(numbers, *block) {
            return false;
        }
    }
    true
}

/// Whether a block has a number.
pub(crate) fn is_numbered(numbers: &[Option<u32>], block: u32) -> bool
    ensures { result ≡ are.is_numbered numbers.now block }
{
    numbers.get(block as usize).copied().flatten().is_some()
}

/// Whether the number of each block that has one is its index among the entries.
#[tactic(auto, using(crate::proofs::Places::numbered))]
fn are_places(entries: &[u32], numbers: &[Option<u32>]) -> bool
    ensures { IsTrue result → ArePlaces entries.now numbers.now }
{
    for block in 0..numbers.len() {
        if !is_its_place(entries, numbers, block) {
            return false;
        }
    }
    true
}

/// Whether the number of a block, if it has one, is its index among the entries.
fn is_its_place(entries: &[u32], numbers: &[Option<u32>], block: usize) -> bool
    ensures { IsTrue result → IsPlace entries.now numbers.now block }
{
    match numbers.get(block) {
        Some(Some(number)) => is_place(entries, *number, block),
        Some(None) | None => true,
    }
}

/// Whether a block is the entry with this number.
fn is_place(entries: &[u32], number: u32, block: usize) -> bool
    ensures { IsTrue result → slice_get entries.now number ≡ Some block }
{
    match entries.get(number as usize) {
        Some(entry) => *entry as usize == block,
        None => false,
    }
}
