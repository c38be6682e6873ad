//! The types of the operands that an instruction finds, by the validation algorithm of the standard (appendix A.3).

ghost use Rattle.std.specs.Prelude.{◌≡◌, [], ◌∷◌, ◌++◌, Decides, OnOk, IfErr, IfSome, IsNone, option_to_list};
ghost use Rattle.wa_syntax.specs.Instructions.{Drop as DropInstruction, Select};
ghost use Rattle.wa_syntax.specs.Validity.{Context, Gives, Takes, IsTyped};
ghost use Rattle.wa_valid.specs.Operands.{stack, no_operands, any_operands, with_operand, IsOf, IsBoth, AreApart, Fits, Answers, TakesOff};
ghost use Rattle.wa_valid.specs.Rules.{Says};

use crate::fault::{Fault, ValidationRule, require};
use std::alloc::Global;
use wa_syntax::ValTy;

/// What is known of an operand's type.
#[derive(Clone, Copy)]
pub enum Operand {
    Known(ValTy),
    /// Any type fits, since the point can't be reached.
    Unknown,
}

/// Whether the operand may have this type.
fn is_of(operand: Operand, ty: ValTy) -> bool
    ensures { Decides result (IsOf operand ty) }
{
    match operand {
        Operand::Known(known) => ty == known,
        Operand::Unknown => true,
    }
}

/// The meet of two operands: the one that may have just the types that both may have, if there are any.
fn both(one: Operand, other: Operand) -> Option<Operand>
    ensures some { IfSome result (IsBoth one other) }
    ensures none { IsNone result → AreApart one other }
{
    match one {
        Operand::Known(ty) => { if is_of(other, ty) { Some(one) } else { None } }
        Operand::Unknown => Some(other),
    }
}

/// The operands of a block at a point in it, the latest last. Contracts see them as a `Stack`.
#[derive(Drop)]
pub struct Operands {
    types: Vec<Operand>,
    /// Whether the point can't be reached. Then operands of any types may be below these.
    unreachable: bool,
}

impl Operands {
    /// The operands at the beginning of a block: none. Takes no memory.
    pub fn new(alloc: Global) -> Operands
        ensures { stack result ≡ no_operands }
    {
        Operands {
            types: Vec::new(alloc),
            unreachable: false,
        }
    }

    /// Adds an operand.
    fn add(&mut self, operand: Operand) -> ValidationRule
        ensures ok { OnOk result (stack self.new ≡ with_operand operand (stack self.old)) }
        ensures err { IfErr result (λ fault. fault ≡ Fault.NoMemory) }
    {
        self.types.push(operand)?;
        Ok(())
    }

    /// Takes the last operand off, whatever its type.
    fn take(&mut self) -> Result<Operand, Fault>
        ensures { TakesOff (stack self.old) (stack self.new) result }
    {
        if let Some(operand) = self.types.pop() {
            return Ok(operand);
        }
        if self.unreachable {
            return Ok(Operand::Unknown);
        }
        Err(Fault::Invalid)
    }

    /// Adds an operand of a type.
    fn push(&mut self, ty: ValTy) -> ValidationRule
        ensures answers { Answers (Gives [] (ty ∷ [])) (stack self.old) (stack self.new) result }
        ensures err { IfErr result (λ fault. fault ≡ Fault.NoMemory) }
    {
        self.add(Operand::Known(ty))
    }

    /// Takes the last operand off, which has to be of a type.
    fn pop(&mut self, ty: ValTy) -> ValidationRule
        ensures { Answers (Gives (ty ∷ []) []) (stack self.old) (stack self.new) result }
    {
        let operand = self.take()?;
        require(is_of(operand, ty))
    }

    /// Adds what a block or a label gives, if anything.
    pub fn push_result(&mut self, ty: Option<ValTy>) -> ValidationRule
        ensures { Answers (Gives [] (option_to_list ty)) (stack self.old) (stack self.new) result }
    {
        match ty {
            Some(ty) => self.push(ty),
            None => Ok(()),
        }
    }

    /// Takes off what a block or a label wants, if anything.
    pub fn pop_result(&mut self, ty: Option<ValTy>) -> ValidationRule
        ensures { Answers (Gives (option_to_list ty) []) (stack self.old) (stack self.new) result }
    {
        match ty {
            Some(ty) => self.pop(ty),
            None => Ok(()),
        }
    }

    /// Adds the results of a function.
    pub fn push_all(&mut self, types: &[ValTy]) -> ValidationRule
        ensures { Answers (Gives [] types.now) (stack self.old) (stack self.new) result }
    {
        for ty in types {
            self.push(*ty)?;
        }
        Ok(())
    }

    /// Takes operands of these types off, the last one first. Where the point can't be reached and no operand is left,
    /// the others are not gone through, so that a call takes no longer than its operands took.
    pub fn pop_all(&mut self, types: &[ValTy]) -> ValidationRule
        ensures { Answers (Gives types.now []) (stack self.old) (stack self.new) result }
    {
        let mut rest = types;
        while let Some((last, front)) = rest.split_last() {
            if self.is_any() {
                return Ok(());
            }
            self.pop(*last)?;
            rest = front;
        }
        Ok(())
    }

    /// Whether no operand is known here.
    fn is_empty(&self) -> bool
        ensures { Decides result ((stack self.now).own ≡ []) }
    {
        self.types.is_empty()
    }

    /// Whether operands of any types may be here.
    fn is_any(&self) -> bool
        ensures { Decides result (stack self.now ≡ any_operands) }
    {
        self.unreachable && self.types.is_empty()
    }

    /// Takes at most two operands off, the second one on top, and adds at most one.
    pub fn apply(
        &mut self,
        first: Option<ValTy>,
        second: Option<ValTy>,
        given: Option<ValTy>,
    ) -> ValidationRule
        ensures { Answers (Gives (option_to_list first ++ option_to_list second) (option_to_list given))
            (stack self.old) (stack self.new) result }
    {
        self.pop_result(second)?;
        self.pop_result(first)?;
        self.push_result(given)
    }

    /// `drop` (3.3.2): [t] → [].
    pub fn drop_one(&mut self) -> ValidationRule
        ensures { (c : Context) → Answers (IsTyped c DropInstruction) (stack self.old) (stack self.new) result }
    {
        self.take()?;
        Ok(())
    }

    /// The operands of `select` (3.3.2): two of one type below an i32, of which one stays.
    pub fn select(&mut self) -> ValidationRule
        ensures { (c : Context) → Answers (IsTyped c Select) (stack self.old) (stack self.new) result }
    {
        self.pop(ValTy::I32)?;
        let one = self.take()?;
        let other = self.take()?;
        match both(one, other) {
            Some(kept) => self.add(kept),
            None => Err(Fault::Invalid),
        }
    }

    /// The point after an instruction after which control doesn't continue.
    pub fn set_unreachable(&mut self)
        ensures { stack self.new ≡ any_operands }
    {
        self.types.clear();
        self.unreachable = true;
    }

    /// Ends a block that has to give a result of this type, if any, and no more.
    pub fn finish(&mut self, ty: Option<ValTy>) -> ValidationRule
        ensures { Says (Fits (stack self.old) (option_to_list ty)) result }
    {
        self.pop_result(ty)?;
        require(self.is_empty())
    }
}
