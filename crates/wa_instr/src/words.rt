//! Words in an array: locals, operands and globals. No validated module reaches past the end of one; a read there
//! gives 0, and a write does nothing.

ghost use Rattle.std.specs.Prelude.{◌≡◌, ◌%◌, ◌^◌, ◌<◌, ℕ, List, ◌∷◌, slice_index, slice_set, length};
ghost use Rattle.wa_instr.specs.Stack.{Holds};

/// The word at an index, and 0 past the end.
#[inline(always)]
pub fn read(words: &[u64], at: usize) -> u64
    ensures { result ≡ slice_index words.now at }
{
    match words.get(at) {
        Some(word) => *word,
        None => 0,
    }
}

/// Sets the word at an index, if there is one.
#[inline(always)]
pub fn write(words: &mut [u64], at: usize, word: u64)
    ensures { words.new ≡ slice_set words.old at word }
{
    if at < words.len() {
        words[at] = word;
    }
}

/// The low 32 bits of a word: what an `i32` reads of it.
#[inline(always)]
pub fn low(word: u64) -> u32
    ensures { result ≡ word % 2 ^ 32 }
{
    (word % (1 << 32)) as u32
}

/// Puts a word on the operands, which end at a height, and gives their new height.
#[inline(always)]
#[tactic(auto, using(crate::proofs::Stacks::pushed))]
pub fn push(words: &mut [u64], height: usize, word: u64) -> usize
    ensures { (stack : List ℕ) → Holds words.old height stack → height < length words.old → Holds words.new result (word ∷ stack) }
{
    if height < words.len() {
        words[height] = word;
        return height + 1;
    }
    height.wrapping_add(1)
}
