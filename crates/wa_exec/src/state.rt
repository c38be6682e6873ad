//! What a run changes in the machine: its activations, its globals, its table and its memory.

ghost use Rattle.std.specs.Prelude.{◌≡◌, ℕ, ◌*◌, ◌%◌, ◌^◌, ◌≤◌, max, true, List, ◌∷◌, length, vec_len};
ghost use Rattle.wa_exec.specs.Activations.{OnTop};
ghost use Rattle.wa_exec.specs.Goes.{Config, Safe};
ghost use Rattle.wa_exec.specs.Linking.{flat_of};
ghost use Rattle.wa_exec.specs.Machines.{Represents};
ghost use Rattle.wa_exec.specs.States.{HasGrown, HasLookedUp, HasRun, KeepsOthers};
ghost use Rattle.wa_exec.specs.ActivationExit.{IsPaid};
ghost use Rattle.wa_flatten.specs.Codes.{layout_of};
ghost use Rattle.wa_syntax.specs.Operations.{page};
ghost use Rattle.wa_syntax.specs.declared.module.Module.{Module};

use crate::activation::{ActivationExit, PauseReason, pages, run_activation};
use crate::calls::CallStack;
use crate::link::Linked;
use wa_flatten::{Code, PAGE, TableInstance};
use wa_instr::low;
use wa_syntax::TrapKind;

/// What a run changes.
#[derive(Drop)]
pub(crate) struct State {
    pub calls: CallStack,
    /// The functions that are to be run one after another, the next one last: `main`, and after it the start function.
    pub waiting: Vec<u32>,
    /// What the last of them returned.
    pub value: Option<u64>,
    pub globals: Vec<u64>,
    pub table: TableInstance,
    pub bytes: Vec<u8>,
    /// The most pages that the memory may have.
    pub most_pages: usize,
}

impl State {
    /// Runs the instructions of the last activation. Where none is open, there is nothing to run.
    #[inline(always)]
    pub(crate) fn run(&mut self, code: &Code, before: u64, fuel: u64) -> ActivationExit
        ensures steps { before ≤ result.steps }
        ensures within { result.steps ≤ max before fuel }
        ensures paid { IsPaid result.pause before result.steps fuel }
        ensures run { (m : Module) (frame : List ℕ) (frames : List (List ℕ)) (s : Config)
            → Represents m (layout_of code.now) (flat_of self.old) s → Safe m s → self.old.calls.region ≡ frame ∷ frames
            → HasRun m (layout_of code.now) self.old self.new frame frames s before fuel result.steps result.pause }
        ensures others { KeepsOthers self.old self.new }
        ensures calls { vec_len self.new.calls.callers ≡ vec_len self.old.calls.callers }
        ensures waiting { vec_len self.new.waiting ≡ vec_len self.old.waiting }
    {
        let at = self.calls.at;
        let height = self.calls.height;
        if self.calls.region.depth() == 0 {
            return ActivationExit {
                at,
                height,
                steps: before,
                pause: PauseReason::Returned(None),
            };
        }
        let stretch = run_activation(
            code.ops.as_slice(),
            code.targets.as_slice(),
            self.calls.region.top_mut(),
            self.globals.as_mut_slice(),
            self.bytes.as_mut_slice(),
            at,
            height,
            before,
            fuel,
        );
        self.calls.at = stretch.at;
        self.calls.height = stretch.height;
        stretch
    }

    /// The function that an indirect call through the table calls. Its index in the table is the top operand.
    #[inline(always)]
    pub(crate) fn callee(&mut self, linked: &Linked, ty: u32) -> Result<u32, TrapKind>
        ensures rest { self.new ≡ record self.old { calls = self.new.calls } }
        ensures looks_up { (place : ℕ) (stack : List ℕ) (below : List (List ℕ))
            → OnTop self.old.calls.region self.old.calls.height (place ∷ stack) below
            → HasLookedUp linked.now ty self.old self.new result place }
        ensures calls { vec_len self.new.calls.callers ≡ vec_len self.old.calls.callers }
        ensures waiting { vec_len self.new.waiting ≡ vec_len self.old.waiting }
    {
        match self.table.get(low(self.calls.take())) {
            None => Err(TrapKind::Element),
            Some(None) => Err(TrapKind::Uninitialised),
            Some(Some(func)) => {
                if linked.is_of_type(func, ty) {
                    Ok(func)
                } else {
                    Err(TrapKind::Mismatch)
                }
            }
        }
    }

    /// `memory.grow`: gives the old size in pages, or -1 where the new one passes the most pages.
    ///
    /// # Errors
    ///
    /// Where there is no memory for the pages.
    pub(crate) fn grow(&mut self) -> bool
        ensures rest { self.new ≡ record self.old { calls = self.new.calls; bytes = self.new.bytes } }
        ensures whole { (pages : ℕ) → length self.old.bytes.items ≡ pages * page → self.old.most_pages ≤ 65536 → result ≡ true
            → (size : ℕ) × (length self.new.bytes.items ≡ size * page) }
        ensures grows { (pages word : ℕ) (stack : List ℕ) (below : List (List ℕ))
            → OnTop self.old.calls.region self.old.calls.height (word ∷ stack) below
            → length self.old.bytes.items ≡ pages * page → self.old.most_pages ≤ 65536 → result ≡ true
            → HasGrown self.old self.new pages (word % 2 ^ 32) stack below }
        ensures calls { vec_len self.new.calls.callers ≡ vec_len self.old.calls.callers }
        ensures waiting { vec_len self.new.waiting ≡ vec_len self.old.waiting }
    {
        let more = low(self.calls.take()) as usize;
        let old = pages(self.bytes.as_slice());
        let len = self.bytes.len().saturating_add(more * PAGE);
        if len > self.most_pages.saturating_mul(PAGE) {
            self.calls.give(u64::from(u32::MAX));
            return true;
        }
        if self.bytes.resize(len, 0).is_err() {
            return false;
        }
        self.calls.give(old);
        true
    }
}
