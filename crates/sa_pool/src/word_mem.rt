//! A memory of words.

ghost use Rattle.std.specs.Prelude.{◌≡◌, ℕ, ◌^◌, ◌<◌, List, length, slice_index, slice_set};

/// Words of 64 bits at the indices from 0 on. Contracts see the list of the words.
pub trait WordMem {
    ghost words: { Self → List ℕ };

    /// How many words there are.
    fn len(&self) -> u32
        ensures { result ≡ length (words self.now) };

    /// The word at this index.
    fn load(&self, at: u32) -> u64
        requires { at < length (words self.now) }
        ensures { result ≡ slice_index (words self.now) at };

    /// Changes the word at this index, and no other.
    fn store(&mut self, at: u32, word: u64)
        requires { at < length (words self.old) }
        ensures { words self.new ≡ slice_set (words self.old) at word };

    ghost counted: { (mem : Self) → length (words mem) < 2 ^ 32 };
}
