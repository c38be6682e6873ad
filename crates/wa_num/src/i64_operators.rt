//! The operators on i64 and the conversions, in the order of their opcodes.

ghost use Rattle.std.specs.Prelude.{◌≡◌};
ghost use Rattle.std.specs.Int.{w32, w64};
ghost use Rattle.wa_syntax.specs.Numeric.{ieqz, ieq, ine, ilt_s, ilt_u, igt_s, igt_u, ile_s, ile_u, ige_s, ige_u, iclz, ictz};
ghost use Rattle.wa_syntax.specs.Numeric.{ipopcnt, iadd, isub, imul, idiv_s, idiv_u, irem_s, irem_u, iand, ior, ixor, ishl};
ghost use Rattle.wa_syntax.specs.Numeric.{ishr_s, ishr_u, irotl, irotr, wrap, extend_s, extend_u, i64_result};

use wa_syntax::{TrapKind, opcode};

// Tests and comparisons (4.3.2): 1 where it holds, else 0.

#[inline]
fn eqz(a: u64) -> u64
    ensures { result ≡ ieqz a }
{
    (a == 0) as u64
}

#[inline]
fn eq(a: u64, b: u64) -> u64
    ensures { result ≡ ieq a b }
{
    (a == b) as u64
}

#[inline]
fn ne(a: u64, b: u64) -> u64
    ensures { result ≡ ine a b }
{
    (a != b) as u64
}

#[inline]
fn lt_s(a: u64, b: u64) -> u64
    ensures { result ≡ ilt_s w64 a b }
{
    (a.cast_signed() < b.cast_signed()) as u64
}

#[inline]
fn lt_u(a: u64, b: u64) -> u64
    ensures { result ≡ ilt_u a b }
{
    (a < b) as u64
}

#[inline]
fn gt_s(a: u64, b: u64) -> u64
    ensures { result ≡ igt_s w64 a b }
{
    (a.cast_signed() > b.cast_signed()) as u64
}

#[inline]
fn gt_u(a: u64, b: u64) -> u64
    ensures { result ≡ igt_u a b }
{
    (a > b) as u64
}

#[inline]
fn le_s(a: u64, b: u64) -> u64
    ensures { result ≡ ile_s w64 a b }
{
    (a.cast_signed() <= b.cast_signed()) as u64
}

#[inline]
fn le_u(a: u64, b: u64) -> u64
    ensures { result ≡ ile_u a b }
{
    (a <= b) as u64
}

#[inline]
fn ge_s(a: u64, b: u64) -> u64
    ensures { result ≡ ige_s w64 a b }
{
    (a.cast_signed() >= b.cast_signed()) as u64
}

#[inline]
fn ge_u(a: u64, b: u64) -> u64
    ensures { result ≡ ige_u a b }
{
    (a >= b) as u64
}

// Counts of bits (4.3.2).

#[inline]
fn clz(a: u64) -> u64
    ensures { result ≡ iclz w64 a }
{
    a.leading_zeros() as u64
}

#[inline]
fn ctz(a: u64) -> u64
    ensures { result ≡ ictz w64 a }
{
    a.trailing_zeros() as u64
}

#[inline]
fn popcnt(a: u64) -> u64
    ensures { result ≡ ipopcnt a }
{
    a.count_ones() as u64
}

// Arithmetic (4.3.2).

#[inline]
fn add(a: u64, b: u64) -> u64
    ensures { result ≡ iadd w64 a b }
{
    a.wrapping_add(b)
}

#[inline]
fn sub(a: u64, b: u64) -> u64
    ensures { result ≡ isub w64 a b }
{
    a.wrapping_sub(b)
}

#[inline]
fn mul(a: u64, b: u64) -> u64
    ensures { result ≡ imul w64 a b }
{
    a.wrapping_mul(b)
}

#[inline]
fn div_s(a: u64, b: u64) -> Result<u64, TrapKind>
    ensures { result ≡ idiv_s w64 a b }
{
    if b == 0 {
        return Err(TrapKind::DivZero);
    }
    match a.cast_signed().checked_div(b.cast_signed()) {
        Some(quotient) => Ok(quotient.cast_unsigned()),
        None => Err(TrapKind::Overflow),
    }
}

#[inline]
fn div_u(a: u64, b: u64) -> Result<u64, TrapKind>
    ensures { result ≡ idiv_u a b }
{
    a.checked_div(b).ok_or(TrapKind::DivZero)
}

#[inline]
fn rem_s(a: u64, b: u64) -> Result<u64, TrapKind>
    ensures { result ≡ irem_s w64 a b }
{
    if b == 0 {
        return Err(TrapKind::DivZero);
    }
    let remainder = a.cast_signed().wrapping_rem(b.cast_signed());
    Ok(remainder.cast_unsigned())
}

#[inline]
fn rem_u(a: u64, b: u64) -> Result<u64, TrapKind>
    ensures { result ≡ irem_u a b }
{
    a.checked_rem(b).ok_or(TrapKind::DivZero)
}

// Bits (4.3.2).

#[inline]
fn and(a: u64, b: u64) -> u64
    ensures { result ≡ iand a b }
{
    a & b
}

#[inline]
fn or(a: u64, b: u64) -> u64
    ensures { result ≡ ior a b }
{
    a | b
}

#[inline]
fn xor(a: u64, b: u64) -> u64
    ensures { result ≡ ixor a b }
{
    a ^ b
}

#[inline]
fn shl(a: u64, b: u64) -> u64
    ensures { result ≡ ishl w64 a b }
{
    a << (b % 64)
}

#[inline]
fn shr_s(a: u64, b: u64) -> u64
    ensures { result ≡ ishr_s w64 a b }
{
    a.cast_signed()
        .wrapping_shr((b % 64) as u32)
        .cast_unsigned()
}

#[inline]
fn shr_u(a: u64, b: u64) -> u64
    ensures { result ≡ ishr_u w64 a b }
{
    a >> (b % 64)
}

#[inline]
fn rotl(a: u64, b: u64) -> u64
    ensures { result ≡ irotl w64 a b }
{
    a.rotate_left((b % 64) as u32)
}

#[inline]
fn rotr(a: u64, b: u64) -> u64
    ensures { result ≡ irotr w64 a b }
{
    a.rotate_right((b % 64) as u32)
}

// Conversions (4.3.4): an i32 is the lowest 32 bits.

#[inline]
fn wrap_i64(a: u64) -> u64
    ensures { result ≡ wrap w32 a }
{
    a & 0xffff_ffff
}

#[inline]
fn extend_i32_s(a: u64) -> u64
    ensures { result ≡ extend_s w32 w64 (wrap w32 a) }
{
    let narrow = (wrap_i64(a) as u32).cast_signed();
    (narrow as i64).cast_unsigned()
}

#[inline]
fn extend_i32_u(a: u64) -> u64
    ensures { result ≡ extend_u (wrap w32 a) }
{
    wrap_i64(a)
}

/// What the operator of this opcode gives of the operands `a` and `b`. A test gives 0 or 1, and an operator of one operand
/// ignores `b`. `i32.wrap_i64` gives the lowest 32 bits of `a`, and `i64.extend_i32_s` and `i64.extend_i32_u` read these
/// bits alone. What is no operator's opcode is taken as the last one, as in `i64_result`, so that one jump table finds each.
///
/// # Errors
///
/// `DivZero` for a division or a remainder by zero, and `Overflow` for the signed quotient of the least number by -1.
#[inline(always)]
#[tactic(auto, unfolding(wa_syntax::specs::Numeric::i64_result))]
pub fn i64_op(op: u8, a: u64, b: u64) -> Result<u64, TrapKind>
    ensures { result ≡ i64_result op a b }
{
    match op {
        opcode::I64_EQZ => Ok(eqz(a)),
        opcode::I64_EQ => Ok(eq(a, b)),
        opcode::I64_NE => Ok(ne(a, b)),
        opcode::I64_LT_S => Ok(lt_s(a, b)),
        opcode::I64_LT_U => Ok(lt_u(a, b)),
        opcode::I64_GT_S => Ok(gt_s(a, b)),
        opcode::I64_GT_U => Ok(gt_u(a, b)),
        opcode::I64_LE_S => Ok(le_s(a, b)),
        opcode::I64_LE_U => Ok(le_u(a, b)),
        opcode::I64_GE_S => Ok(ge_s(a, b)),
        opcode::I64_GE_U => Ok(ge_u(a, b)),
        opcode::I64_CLZ => Ok(clz(a)),
        opcode::I64_CTZ => Ok(ctz(a)),
        opcode::I64_POPCNT => Ok(popcnt(a)),
        opcode::I64_ADD => Ok(add(a, b)),
        opcode::I64_SUB => Ok(sub(a, b)),
        opcode::I64_MUL => Ok(mul(a, b)),
        opcode::I64_DIV_S => div_s(a, b),
        opcode::I64_DIV_U => div_u(a, b),
        opcode::I64_REM_S => rem_s(a, b),
        opcode::I64_REM_U => rem_u(a, b),
        opcode::I64_AND => Ok(and(a, b)),
        opcode::I64_OR => Ok(or(a, b)),
        opcode::I64_XOR => Ok(xor(a, b)),
        opcode::I64_SHL => Ok(shl(a, b)),
        opcode::I64_SHR_S => Ok(shr_s(a, b)),
        opcode::I64_SHR_U => Ok(shr_u(a, b)),
        opcode::I64_ROTL => Ok(rotl(a, b)),
        opcode::I64_ROTR => Ok(rotr(a, b)),
        opcode::I32_WRAP_I64 => Ok(wrap_i64(a)),
        opcode::I64_EXTEND_I32_S => Ok(extend_i32_s(a)),
        _ => Ok(extend_i32_u(a)),
    }
}
