//! A memory of words in a vector.

ghost use Rattle.std.specs.Prelude.{◌^◌, ◌<◌, length};

use crate::word_mem::WordMem;

/// The words of a vector, of which there are fewer than 2^32.
#[derive(Debug, Drop)]
pub struct VecMem {
    pub words: Vec<u64>,
    ghost counted: { length words.items < 2 ^ 32 },
}

impl WordMem for VecMem {
    ghost words = { λ mem. mem.words.items };

    fn len(&self) -> u32 {
        self.words.len() as u32
    }

    fn load(&self, at: u32) -> u64 {
        self.words[at as usize]
    }

    fn store(&mut self, at: u32, word: u64) {
        self.words[at as usize] = word;
    }

    ghost counted = { λ mem. mem.counted };
}
