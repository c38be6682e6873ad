//! The operators on i32, in the order of their opcodes.

ghost use Rattle.std.specs.Prelude.{◌≡◌};
ghost use Rattle.std.specs.Int.{w32};
ghost use Rattle.wa_syntax.specs.Numeric.{ieqz, ieq, ine, ilt_s, ilt_u, igt_s, igt_u, ile_s, ile_u, ige_s, ige_u};
ghost use Rattle.wa_syntax.specs.Numeric.{iclz, ictz, ipopcnt, iadd, isub, imul, idiv_s, idiv_u, irem_s, irem_u, iand};
ghost use Rattle.wa_syntax.specs.Numeric.{ior, ixor, ishl, ishr_s, ishr_u, irotl, irotr, i32_result};

use wa_syntax::{TrapKind, opcode};

// Tests and comparisons (4.3.2): 1 where it holds, else 0.

#[inline]
fn eqz(a: u32) -> u32
    ensures { result ≡ ieqz a }
{
    (a == 0) as u32
}

#[inline]
fn eq(a: u32, b: u32) -> u32
    ensures { result ≡ ieq a b }
{
    (a == b) as u32
}

#[inline]
fn ne(a: u32, b: u32) -> u32
    ensures { result ≡ ine a b }
{
    (a != b) as u32
}

#[inline]
fn lt_s(a: u32, b: u32) -> u32
    ensures { result ≡ ilt_s w32 a b }
{
    (a.cast_signed() < b.cast_signed()) as u32
}

#[inline]
fn lt_u(a: u32, b: u32) -> u32
    ensures { result ≡ ilt_u a b }
{
    (a < b) as u32
}

#[inline]
fn gt_s(a: u32, b: u32) -> u32
    ensures { result ≡ igt_s w32 a b }
{
    (a.cast_signed() > b.cast_signed()) as u32
}

#[inline]
fn gt_u(a: u32, b: u32) -> u32
    ensures { result ≡ igt_u a b }
{
    (a > b) as u32
}

#[inline]
fn le_s(a: u32, b: u32) -> u32
    ensures { result ≡ ile_s w32 a b }
{
    (a.cast_signed() <= b.cast_signed()) as u32
}

#[inline]
fn le_u(a: u32, b: u32) -> u32
    ensures { result ≡ ile_u a b }
{
    (a <= b) as u32
}

#[inline]
fn ge_s(a: u32, b: u32) -> u32
    ensures { result ≡ ige_s w32 a b }
{
    (a.cast_signed() >= b.cast_signed()) as u32
}

#[inline]
fn ge_u(a: u32, b: u32) -> u32
    ensures { result ≡ ige_u a b }
{
    (a >= b) as u32
}

// Counts of bits (4.3.2).

#[inline]
fn clz(a: u32) -> u32
    ensures { result ≡ iclz w32 a }
{
    a.leading_zeros()
}

#[inline]
fn ctz(a: u32) -> u32
    ensures { result ≡ ictz w32 a }
{
    a.trailing_zeros()
}

#[inline]
fn popcnt(a: u32) -> u32
    ensures { result ≡ ipopcnt a }
{
    a.count_ones()
}

// Arithmetic (4.3.2).

#[inline]
fn add(a: u32, b: u32) -> u32
    ensures { result ≡ iadd w32 a b }
{
    a.wrapping_add(b)
}

#[inline]
fn sub(a: u32, b: u32) -> u32
    ensures { result ≡ isub w32 a b }
{
    a.wrapping_sub(b)
}

#[inline]
fn mul(a: u32, b: u32) -> u32
    ensures { result ≡ imul w32 a b }
{
    a.wrapping_mul(b)
}

#[inline]
fn div_s(a: u32, b: u32) -> Result<u32, TrapKind>
    ensures { result ≡ idiv_s w32 a b }
{
    if b == 0 {
        return Err(TrapKind::DivZero);
    }
    match a.cast_signed().checked_div(b.cast_signed()) {
        Some(quotient) => Ok(quotient.cast_unsigned()),
        None => Err(TrapKind::Overflow),
    }
}

#[inline]
fn div_u(a: u32, b: u32) -> Result<u32, TrapKind>
    ensures { result ≡ idiv_u a b }
{
    a.checked_div(b).ok_or(TrapKind::DivZero)
}

#[inline]
fn rem_s(a: u32, b: u32) -> Result<u32, TrapKind>
    ensures { result ≡ irem_s w32 a b }
{
    if b == 0 {
        return Err(TrapKind::DivZero);
    }
    let remainder = a.cast_signed().wrapping_rem(b.cast_signed());
    Ok(remainder.cast_unsigned())
}

#[inline]
fn rem_u(a: u32, b: u32) -> Result<u32, TrapKind>
    ensures { result ≡ irem_u a b }
{
    a.checked_rem(b).ok_or(TrapKind::DivZero)
}

// Bits (4.3.2).

#[inline]
fn and(a: u32, b: u32) -> u32
    ensures { result ≡ iand a b }
{
    a & b
}

#[inline]
fn or(a: u32, b: u32) -> u32
    ensures { result ≡ ior a b }
{
    a | b
}

#[inline]
fn xor(a: u32, b: u32) -> u32
    ensures { result ≡ ixor a b }
{
    a ^ b
}

#[inline]
fn shl(a: u32, b: u32) -> u32
    ensures { result ≡ ishl w32 a b }
{
    a << (b % 32)
}

#[inline]
fn shr_s(a: u32, b: u32) -> u32
    ensures { result ≡ ishr_s w32 a b }
{
    a.cast_signed().wrapping_shr(b).cast_unsigned()
}

#[inline]
fn shr_u(a: u32, b: u32) -> u32
    ensures { result ≡ ishr_u w32 a b }
{
    a >> (b % 32)
}

#[inline]
fn rotl(a: u32, b: u32) -> u32
    ensures { result ≡ irotl w32 a b }
{
    a.rotate_left(b)
}

#[inline]
fn rotr(a: u32, b: u32) -> u32
    ensures { result ≡ irotr w32 a b }
{
    a.rotate_right(b)
}

/// What the operator of this opcode gives of the operands `a` and `b`. A test gives 0 or 1, and an operator of one operand
/// ignores `b`. What is no operator's opcode is taken as the last operator, as in `i32_result`, so that one jump table finds each.
///
/// # Errors
///
/// `DivZero` for a division or a remainder by zero, and `Overflow` for the signed quotient of the least number by -1.
#[inline(always)]
#[tactic(auto, unfolding(wa_syntax::specs::Numeric::i32_result))]
pub fn i32_op(op: u8, a: u32, b: u32) -> Result<u32, TrapKind>
    ensures { result ≡ i32_result op a b }
{
    match op {
        opcode::I32_EQZ => Ok(eqz(a)),
        opcode::I32_EQ => Ok(eq(a, b)),
        opcode::I32_NE => Ok(ne(a, b)),
        opcode::I32_LT_S => Ok(lt_s(a, b)),
        opcode::I32_LT_U => Ok(lt_u(a, b)),
        opcode::I32_GT_S => Ok(gt_s(a, b)),
        opcode::I32_GT_U => Ok(gt_u(a, b)),
        opcode::I32_LE_S => Ok(le_s(a, b)),
        opcode::I32_LE_U => Ok(le_u(a, b)),
        opcode::I32_GE_S => Ok(ge_s(a, b)),
        opcode::I32_GE_U => Ok(ge_u(a, b)),
        opcode::I32_CLZ => Ok(clz(a)),
        opcode::I32_CTZ => Ok(ctz(a)),
        opcode::I32_POPCNT => Ok(popcnt(a)),
        opcode::I32_ADD => Ok(add(a, b)),
        opcode::I32_SUB => Ok(sub(a, b)),
        opcode::I32_MUL => Ok(mul(a, b)),
        opcode::I32_DIV_S => div_s(a, b),
        opcode::I32_DIV_U => div_u(a, b),
        opcode::I32_REM_S => rem_s(a, b),
        opcode::I32_REM_U => rem_u(a, b),
        opcode::I32_AND => Ok(and(a, b)),
        opcode::I32_OR => Ok(or(a, b)),
        opcode::I32_XOR => Ok(xor(a, b)),
        opcode::I32_SHL => Ok(shl(a, b)),
        opcode::I32_SHR_S => Ok(shr_s(a, b)),
        opcode::I32_SHR_U => Ok(shr_u(a, b)),
        opcode::I32_ROTL => Ok(rotl(a, b)),
        _ => Ok(rotr(a, b)),
    }
}
