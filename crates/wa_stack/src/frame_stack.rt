//! A stack of frames of words, last in, first out. Each frame holds the words last set in it, whatever the others do.

ghost use Rattle.std.specs.Prelude.{◌≡◌, ◌+◌, ◌-◌, ◌<◌, ◌≤◌, ◌∷◌, [], ◌++◌, length, drop, replicate, slice_index, slice_range, OnOk, OnErr};
ghost use Rattle.std.specs.Borrow.{sem};
ghost use Rattle.wa_stack.specs.Frames.{top, with_word};
ghost use Rattle.wa_stack.specs.Lending.{LendsTop};

use failure::NoMemory;
use std::alloc::Global;
use std::marker::Model;

/// The open frames. Contracts see each as the list of its words, the frame that was opened last first.
///
/// A frame that is closed leaves its memory to the next ones.
#[derive(Debug, Drop)]
pub struct FrameStack {
    words: Vec<u64>,
    /// Where the top frame begins.
    base: usize,
    /// What `base` was before each frame was opened.
    bases: Vec<usize>,
}

impl Model for FrameStack {
    ghost use Rattle.std.specs.Prelude.{ℕ, ◌≤◌, List, length, reverse};
    ghost use Rattle.wa_stack.specs.Frames.{frames, IsInOrder};

    ghost Value = { List (List ℕ) };

    ghost view = { λ r. frames r.base (reverse r.bases.items) r.words.items };

    ghost invariant = { λ r. (r.base ≤ length r.words.items) × IsInOrder r.base (reverse r.bases.items) };
}

impl FrameStack {
    /// A stack with no frame.
    pub fn new(alloc: Global) -> FrameStack
        ensures { result ≡ [] }
    {
        FrameStack {
            words: Vec::new(alloc),
            base: 0,
            bases: Vec::new(alloc),
        }
    }

    /// How many frames are open.
    #[inline]
    pub fn depth(&self) -> usize
        ensures { result ≡ length self.now }
    {
        self.bases.as_slice().len()
    }

    /// Opens a frame of `len` words, which are 0.
    ///
    /// # Errors
    ///
    /// `NoMemory` where there is no memory for the words. The frames are then unchanged.
    pub fn enter(&mut self, len: u32) -> Result<(), NoMemory>
        ensures ok { OnOk result (self.new ≡ replicate len 0 ∷ self.old) }
        ensures err { OnErr result (self.new ≡ self.old) }
    {
        self.enter_with(0, 0, len)
    }

    /// Opens a frame of `len` words. The first ones are the `count` words of the frame below from its word `from` on, as the
    /// arguments of a call, and the others are 0.
    ///
    /// # Errors
    ///
    /// `NoMemory` where there is no memory for the words. The frames are then unchanged.
    #[inline(always)]
    pub fn enter_with(&mut self, from: usize, count: u32, len: u32) -> Result<(), NoMemory>
        requires within { from + count ≤ length (top self.old) }
        requires room { count ≤ len }
        ensures ok { let arguments = slice_range (top self.old) from (from + count) in
            OnOk result (self.new ≡ (arguments ++ replicate (len - count) 0) ∷ self.old) }
        ensures err { OnErr result (self.new ≡ self.old) }
    {
        self.bases.reserve(1)?;
        self.words.reserve(len as usize)?;
        let start = self.base + from;
        let base = self.words.len();
        self.words
            .extend_from_within(start..start + count as usize)?;
        self.words.resize(base + len as usize, 0)?;
        self.bases.push_reserved(self.base);
        self.base = base;
        Ok(())
    }

    /// Closes the top frame.
    #[inline(always)]
    pub fn leave(&mut self)
        requires { 0 < length self.old }
        ensures { self.new ≡ drop 1 self.old }
    {
        self.words.truncate(self.base);
        self.base = self.bases.pop().unwrap();
    }

    /// The word of the top frame at this index.
    #[inline]
    pub fn get(&self, at: u32) -> u64
        requires { at < length (top self.now) }
        ensures { result ≡ slice_index (top self.now) at }
    {
        self.top()[at as usize]
    }

    /// Sets the word of the top frame at this index.
    #[inline]
    pub fn set(&mut self, at: u32, word: u64)
        requires { at < length (top self.old) }
        ensures { self.new ≡ with_word self.old at word }
    {
        self.top_mut()[at as usize] = word;
    }

    /// The words of the top frame.
    #[inline]
    pub fn top(&self) -> &[u64]
        requires { 0 < length self.now }
        ensures { result.now ≡ top self.now }
    {
        &self.words[self.base..]
    }

    /// The words of the top frame, for writing.
    #[inline]
    pub fn top_mut(&mut self) -> &mut [u64]
        requires { 0 < length self.old }
        ensures* writes_back { sem 𝓛 (LendsTop self.entry result) }
        ensures value { result.now ≡ top self.old }
    {
        self.words.slice_mut(self.base..)
    }
}
