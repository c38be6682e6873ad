//! The numeric instructions (section 4.4.1 of the WebAssembly Core Specification 1.0) on the operands of an activation.

ghost use Rattle.std.specs.Prelude.{◌≡◌, ◌-◌, ◌%◌, ◌^◌, ℕ, List, ◌∷◌};
ghost use Rattle.wa_instr.specs.Stack.{Holds, Puts};
ghost use Rattle.wa_syntax.specs.Numeric.{IsI32Operator, IsI64Operator, i32_result, i64_result};

use crate::words::{low, read, write};
use wa_num::{i32_op, i64_op};
use wa_syntax::TrapKind;

/// An operator on i32.
#[inline(always)]
fn i32_operator(op: u8, a: u64, b: u64) -> Result<u64, TrapKind>
    ensures { result ≡ i32_result op (a % 2 ^ 32) (b % 2 ^ 32) }
{
    match i32_op(op, low(a), low(b)) {
        Ok(word) => Ok(u64::from(word)),
        Err(kind) => Err(kind),
    }
}

/// Replaces the top operand by what an operator on i32 gives of it.
///
/// # Errors
///
/// The trap of the operator. The operands are then unspecified.
#[inline(always)]
pub fn unary32(op: u8, words: &mut [u64], height: usize) -> Result<(), TrapKind>
    ensures { (a : ℕ) (stack : List ℕ) → Holds words.old height (a ∷ stack) → IsI32Operator op
        → Puts (i32_result op (a % 2 ^ 32) 0) result words.new height stack }
{
    let at = height.wrapping_sub(1);
    let word = i32_operator(op, read(words, at), 0)?;
    write(words, at, word);
    Ok(())
}

/// Replaces the two top operands by what an operator on i32 gives of them.
///
/// # Errors
///
/// The trap of the operator. The operands are then unspecified.
#[inline(always)]
pub fn binary32(op: u8, words: &mut [u64], height: usize) -> Result<(), TrapKind>
    ensures { (b a : ℕ) (stack : List ℕ) → Holds words.old height (b ∷ a ∷ stack) → IsI32Operator op
        → Puts (i32_result op (a % 2 ^ 32) (b % 2 ^ 32)) result words.new (height - 1) stack }
{
    // Once it is known that there are two operands, none of their indices is compared with the end of the words.
    if height < 2 || height > words.len() {
        return Ok(());
    }
    let at = height.wrapping_sub(2);
    let word = i32_operator(op, read(words, at), read(words, height.wrapping_sub(1)))?;
    write(words, at, word);
    Ok(())
}

/// Replaces the top operand by what an operator on i64, or a conversion, gives of it.
///
/// # Errors
///
/// The trap of the operator. The operands are then unspecified.
#[inline(always)]
pub fn unary64(op: u8, words: &mut [u64], height: usize) -> Result<(), TrapKind>
    ensures { (a : ℕ) (stack : List ℕ) → Holds words.old height (a ∷ stack) → IsI64Operator op
        → Puts (i64_result op a 0) result words.new height stack }
{
    let at = height.wrapping_sub(1);
    let word = i64_op(op, read(words, at), 0)?;
    write(words, at, word);
    Ok(())
}

/// Replaces the two top operands by what an operator on i64 gives of them.
///
/// # Errors
///
/// The trap of the operator. The operands are then unspecified.
#[inline(always)]
pub fn binary64(op: u8, words: &mut [u64], height: usize) -> Result<(), TrapKind>
    ensures { (b a : ℕ) (stack : List ℕ) → Holds words.old height (b ∷ a ∷ stack) → IsI64Operator op
        → Puts (i64_result op a b) result words.new (height - 1) stack }
{
    // Once it is known that there are two operands, none of their indices is compared with the end of the words.
    if height < 2 || height > words.len() {
        return Ok(());
    }
    let at = height.wrapping_sub(2);
    let word = i64_op(op, read(words, at), read(words, height.wrapping_sub(1)))?;
    write(words, at, word);
    Ok(())
}
