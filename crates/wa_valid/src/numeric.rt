//! Numeric instructions (section 3.3.1).

ghost use Rattle.std.specs.Prelude.{◌≡◌, [], ◌∷◌, option_map};
ghost use Rattle.wa_syntax.specs.Instructions.{Numeric, numeric_type, takes_gives};
ghost use Rattle.wa_syntax.specs.Validity.{Context, IsTyped};
ghost use Rattle.wa_valid.specs.Effects.{type_of_effect, arithmetic_type};
ghost use Rattle.wa_valid.specs.Operands.{stack, Answers};

use crate::fault::{Fault, ValidationRule};
use crate::operands::Operands;
use wa_syntax::ValTy::{self, I32, I64};
use wa_syntax::opcode::*;

/// What a numeric instruction takes, the second operand on top, and gives.
#[derive(Clone, Copy)]
pub struct Effect {
    first: ValTy,
    second: Option<ValTy>,
    given: ValTy,
}

/// A numeric instruction other than the constants, by its opcode.
pub fn numeric(operands: &mut Operands, opcode: u8) -> ValidationRule
    ensures { (c : Context) → Answers (IsTyped c (Numeric opcode)) (stack operands.old) (stack operands.new) result }
{
    match effect_of(opcode) {
        Some(effect) => operands.apply(Some(effect.first), effect.second, Some(effect.given)),
        None => Err(Fault::Invalid),
    }
}

/// The effect of an opcode, if it is that of a numeric instruction other than the constants.
fn effect_of(opcode: u8) -> Option<Effect>
    ensures { option_map type_of_effect result ≡ numeric_type opcode }
{
    if opcode == I32_EQZ {
        return one(I32, I32);
    }
    if I32_EQ <= opcode && opcode <= I32_GE_U {
        return two(I32, I32);
    }
    if opcode == I64_EQZ {
        return one(I64, I32);
    }
    if I64_EQ <= opcode && opcode <= I64_GE_U {
        return two(I64, I32);
    }
    arithmetic(opcode)
}

/// The effect of an opcode past the tests and comparisons.
fn arithmetic(opcode: u8) -> Option<Effect>
    ensures { option_map type_of_effect result ≡ arithmetic_type opcode }
{
    if I32_CLZ <= opcode && opcode <= I32_POPCNT {
        return one(I32, I32);
    }
    if I32_ADD <= opcode && opcode <= I32_ROTR {
        return two(I32, I32);
    }
    if I64_CLZ <= opcode && opcode <= I64_POPCNT {
        return one(I64, I64);
    }
    if I64_ADD <= opcode && opcode <= I64_ROTR {
        return two(I64, I64);
    }
    if opcode == I32_WRAP_I64 {
        return one(I64, I32);
    }
    if I64_EXTEND_I32_S <= opcode && opcode <= I64_EXTEND_I32_U {
        return one(I32, I64);
    }
    None
}

/// The effect of an operator of one operand.
fn one(taken: ValTy, given: ValTy) -> Option<Effect>
    ensures { option_map type_of_effect result ≡ takes_gives (taken ∷ []) given }
{
    Some(Effect {
        first: taken,
        second: None,
        given,
    })
}

/// The effect of an operator of two operands.
fn two(taken: ValTy, given: ValTy) -> Option<Effect>
    ensures { option_map type_of_effect result ≡ takes_gives (taken ∷ taken ∷ []) given }
{
    Some(Effect {
        first: taken,
        second: Some(taken),
        given,
    })
}
