//! The open activations (section 4.2.10.2 of the WebAssembly Core Specification 1.0): their words, and where each caller continues.

ghost use Rattle.std.specs.Prelude.{◌≡◌, ◌==◌, ◌+◌, ◌-◌, ◌<◌, ◌≤◌, ◌^◌, ◌↔◌, ℕ, List, [], ◌∷◌, ◌++◌, drop, length};
ghost use Rattle.std.specs.Prelude.{max, nat_le, replicate, reverse, slice_index, OnOk, IfErr, IsErrOf, vec_len};
ghost use Rattle.wa_stack.specs.Frames.{top, with_word};
ghost use Rattle.wa_exec.specs.Beginning.{AreNone};
ghost use Rattle.wa_exec.specs.Activations.{OnTop, HasEntered, HasLeft};
ghost use Rattle.wa_exec.specs.declared.calls.Caller.{Caller};
ghost use Rattle.wa_exec.specs.Describes.{IsInside};

use crate::halt::Halt;
use std::alloc::Global;
use wa_flatten::FlatFunction;
use wa_instr::{read, write};
use wa_stack::FrameStack;

/// The most activations at a time.
pub(crate) const DEPTH: usize = 40_000;

/// Where a caller continues: the index of its next instruction, and the height of its operands without the arguments.
#[derive(Clone, Copy)]
pub(crate) struct Caller {
    at: usize,
    height: usize,
}

/// The open activations, and where the last one is.
#[derive(Drop)]
pub(crate) struct CallStack {
    /// The index of the next instruction.
    pub at: usize,
    pub region: FrameStack,
    pub callers: Vec<Caller>,
    /// The height of the operands. It is not adjacent to the index, since two that are copied as one wait for both to be written.
    pub height: usize,
}

/// How many words the top frame has.
#[inline(always)]
fn top_len(region: &FrameStack) -> usize
    ensures { result ≡ length (top region.now) }
{
    if region.depth() == 0 {
        return 0;
    }
    region.top().len()
}

/// Whether the top frame has so many words from an index on.
#[inline(always)]
fn has_words(region: &FrameStack, from: usize, count: u32) -> bool
    ensures { result ≡ nat_le (from + count) (length (top region.now)) }
{
    let len = top_len(region);
    from <= len && count as usize <= len - from
}

/// Opens the frame of a function, whose first words are the top `params` operands of the frame below.
#[inline(always)]
fn open_frame(region: &mut FrameStack, from: usize, params: u32, len: u32) -> Result<(), Halt>
    ensures inside { IfErr result IsInside }
    ensures memory { IfErr result (λ halt. halt ≡ Halt.NoMemory) }
    ensures first { region.old ≡ [] → OnOk result (region.new ≡ replicate (max len params) 0 ∷ []) }
    ensures opens { (arguments stack : List ℕ) (below : List (List ℕ))
        → OnTop region.old (from + params) (arguments ++ stack) below → length arguments ≡ params
        → OnOk result (region.new ≡ (reverse arguments ++ replicate (max len params - params) 0) ∷ region.old) }
{
    let len = len.max(params);
    if has_words(region, from, params) {
        return region
            .enter_with(from, params, len)
            .map_err(|_| Halt::NoMemory);
    }
    region.enter(len).map_err(|_| Halt::NoMemory)
}

/// Closes the top frame, if there is one.
#[inline(always)]
fn close_frame(region: &mut FrameStack)
    ensures { region.new ≡ drop 1 region.old }
{
    if region.depth() == 0 {
        return;
    }
    region.leave();
}

/// The word of the top frame at an index.
#[inline]
fn top_word(region: &FrameStack, at: usize) -> u64
    ensures { result ≡ slice_index (top region.now) at }
{
    if region.depth() == 0 {
        return 0;
    }
    read(region.top(), at)
}

/// Sets the word of the top frame at an index, if there is one.
#[inline]
fn set_top(region: &mut FrameStack, at: usize, word: u64)
    ensures set { region.new ≡ with_word region.old at word }
    ensures small { length (top region.old) < 2 ^ 64 }
{
    if region.depth() == 0 {
        return;
    }
    write(region.top_mut(), at, word);
}

impl CallStack {
    pub(crate) fn new(alloc: Global) -> CallStack
        ensures { AreNone result }
    {
        CallStack {
            at: 0,
            region: FrameStack::new(alloc),
            callers: Vec::new(alloc),
            height: 0,
        }
    }

    /// Whether no activation is open.
    pub(crate) fn is_empty(&self) -> bool
        ensures { result ≡ (vec_len self.now.callers == 0) }
    {
        self.callers.is_empty()
    }

    /// Opens an activation of a function, whose arguments are the top operands.
    ///
    /// # Errors
    ///
    /// `TooDeep` where 40,000 are open, and `NoMemory`.
    #[inline(always)]
    pub(crate) fn enter(&mut self, body: FlatFunction) -> Result<(), Halt>
        ensures ok { OnOk result (vec_len self.new.callers ≡ vec_len self.old.callers + 1) }
        ensures inside { IfErr result IsInside }
        ensures deep { IsErrOf result Halt.TooDeep ↔ (40000 ≤ vec_len self.old.callers) }
        ensures enters { HasEntered body self.old self.new result }
    {
        if self.callers.len() >= DEPTH {
            return Err(Halt::TooDeep);
        }
        let height = self.height.wrapping_sub(body.params as usize);
        let caller = Caller {
            at: self.at,
            height,
        };
        if self.callers.push(caller).is_err() {
            return Err(Halt::NoMemory);
        }
        open_frame(&mut self.region, height, body.params, body.len)?;
        self.at = body.entry as usize;
        self.height = body.locals as usize;
        Ok(())
    }

    /// Closes the last activation and continues in its caller.
    #[inline(always)]
    fn close(&mut self)
        ensures count { vec_len self.new.callers ≡ vec_len self.old.callers - 1 }
        ensures region { self.new.region ≡ drop 1 self.old.region }
        ensures caller { (callers : List Caller) (caller : Caller) → self.old.callers.items ≡ callers ++ caller ∷ []
            → (self.new.callers.items ≡ callers) × (self.new.at ≡ caller.at) × (self.new.height ≡ caller.height) }
    {
        close_frame(&mut self.region);
        let Some(caller) = self.callers.pop() else {
            return;
        };
        self.at = caller.at;
        self.height = caller.height;
    }

    /// Closes the last activation and continues in its caller, with the result as an operand.
    #[inline(always)]
    pub(crate) fn leave(&mut self, value: Option<u64>)
        ensures count { vec_len self.new.callers ≡ vec_len self.old.callers - 1 }
        ensures leaves { HasLeft value self.old self.new }
    {
        self.close();
        let Some(word) = value else {
            return;
        };
        self.give(word);
    }

    /// Pushes an operand in the last activation.
    #[inline]
    pub(crate) fn give(&mut self, word: u64)
        ensures callers { self.new.callers ≡ self.old.callers }
        ensures at { self.new.at ≡ self.old.at }
        ensures depth { length self.new.region ≡ length self.old.region }
        ensures long { length (top self.new.region) ≡ length (top self.old.region) }
        ensures gives { (stack : List ℕ) (below : List (List ℕ))
            → OnTop self.old.region self.old.height stack below → self.old.height < length (top self.old.region)
            → OnTop self.new.region self.new.height (word ∷ stack) below }
    {
        set_top(&mut self.region, self.height, word);
        self.height = self.height.wrapping_add(1);
    }

    /// Pops the top operand of the last activation.
    #[inline]
    pub(crate) fn take(&mut self) -> u64
        ensures rest { self.new ≡ record self.old { height = self.new.height } }
        ensures takes { (word : ℕ) (stack : List ℕ) (below : List (List ℕ)) → OnTop self.old.region self.old.height (word ∷ stack) below
            → (result ≡ word) × (self.new.height ≡ self.old.height - 1) × OnTop self.new.region self.new.height stack below }
    {
        self.height = self.height.wrapping_sub(1);
        top_word(&self.region, self.height)
    }
}
