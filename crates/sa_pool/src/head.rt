//! The first word of the memory, with the counts of a pool and the beginning of its chain of free slots.

ghost use Rattle.sa_pool.specs.Head.{Says};

/// What the first word says.
#[derive(Clone, Copy)]
pub struct Head {
    /// How many slots were ever taken: they are the first ones.
    pub used: u16,
    /// One more than the first slot of the chain, or 0 where the chain is empty.
    pub top: u16,
    /// How many slots are live.
    pub live: u16,
}

impl Head {
    /// What this word says.
    pub fn of(word: u64) -> Head
        ensures { Says word result.used result.top result.live }
    {
        Head {
            used: (word % 0x1_0000) as u16,
            top: (word / 0x1_0000 % 0x1_0000) as u16,
            live: (word / 0x1_0000_0000 % 0x1_0000) as u16,
        }
    }

    /// The word that says this.
    pub fn word(self) -> u64
        ensures { Says result self.used self.top self.live }
    {
        u64::from(self.live) * 0x1_0000_0000 + u64::from(self.top) * 0x1_0000 + u64::from(self.used)
    }
}
