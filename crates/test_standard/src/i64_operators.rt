//! What the WebAssembly engine of Node.js gives for each operator on i64, each conversion, and two operands.

use wa_num::i64_op;
use wa_syntax::TrapKind::{self, DivZero, Overflow};
use wa_syntax::opcode::*;

const LEAST: u64 = 1 << 63;

const MINUS_1: u64 = u64::MAX;

const MINUS_2: u64 = u64::MAX - 1;

const MINUS_3: u64 = u64::MAX - 2;

const MINUS_7: u64 = u64::MAX - 6;

const UP: u64 = 0x1234_5678_9abc_def0;

const DOWN: u64 = 0xfedc_ba98_7654_3210;

const VECTORS: [(u8, u64, u64, Result<u64, TrapKind>); 87] = [
    (I64_EQZ, 0, 7, Ok(1)),
    (I64_EQZ, LEAST, 0, Ok(0)),
    (I64_EQ, UP, UP, Ok(1)),
    (I64_EQ, LEAST, 0, Ok(0)),
    (I64_NE, UP, UP, Ok(0)),
    (I64_NE, LEAST, 0, Ok(1)),
    (I64_LT_S, MINUS_1, 1, Ok(1)),
    (I64_LT_S, 1, MINUS_1, Ok(0)),
    (I64_LT_S, LEAST, LEAST, Ok(0)),
    (I64_LT_U, MINUS_1, 1, Ok(0)),
    (I64_LT_U, 1, MINUS_1, Ok(1)),
    (I64_LT_U, LEAST, LEAST, Ok(0)),
    (I64_GT_S, MINUS_1, 1, Ok(0)),
    (I64_GT_S, 1, MINUS_1, Ok(1)),
    (I64_GT_S, LEAST, LEAST, Ok(0)),
    (I64_GT_U, MINUS_1, 1, Ok(1)),
    (I64_GT_U, 1, MINUS_1, Ok(0)),
    (I64_GT_U, LEAST, LEAST, Ok(0)),
    (I64_LE_S, MINUS_1, 1, Ok(1)),
    (I64_LE_S, 1, MINUS_1, Ok(0)),
    (I64_LE_S, LEAST, LEAST, Ok(1)),
    (I64_LE_U, MINUS_1, 1, Ok(0)),
    (I64_LE_U, 1, MINUS_1, Ok(1)),
    (I64_LE_U, LEAST, LEAST, Ok(1)),
    (I64_GE_S, MINUS_1, 1, Ok(0)),
    (I64_GE_S, 1, MINUS_1, Ok(1)),
    (I64_GE_S, LEAST, LEAST, Ok(1)),
    (I64_GE_U, MINUS_1, 1, Ok(1)),
    (I64_GE_U, 1, MINUS_1, Ok(0)),
    (I64_GE_U, LEAST, LEAST, Ok(1)),
    (I64_CLZ, 0, 7, Ok(64)),
    (I64_CLZ, UP, 0, Ok(3)),
    (I64_CLZ, LEAST, 0, Ok(0)),
    (I64_CLZ, 1, 0, Ok(63)),
    (I64_CTZ, 0, 7, Ok(64)),
    (I64_CTZ, UP, 0, Ok(4)),
    (I64_CTZ, LEAST, 0, Ok(63)),
    (I64_CTZ, 1, 0, Ok(0)),
    (I64_POPCNT, 0, 7, Ok(0)),
    (I64_POPCNT, MINUS_1, 0, Ok(64)),
    (I64_POPCNT, UP, 0, Ok(32)),
    (I64_ADD, MINUS_1, 1, Ok(0)),
    (I64_ADD, UP, DOWN, Ok(0x1111_1111_1111_1100)),
    (I64_SUB, 0, 1, Ok(MINUS_1)),
    (I64_SUB, DOWN, UP, Ok(0xeca8_641f_db97_5320)),
    (I64_MUL, MINUS_1, MINUS_1, Ok(1)),
    (I64_MUL, UP, DOWN, Ok(0x236d_88fe_5618_cf00)),
    (I64_DIV_S, MINUS_7, 2, Ok(MINUS_3)),
    (I64_DIV_S, LEAST, MINUS_1, Err(Overflow)),
    (I64_DIV_S, 7, MINUS_2, Ok(MINUS_3)),
    (I64_DIV_S, 5, 0, Err(DivZero)),
    (I64_DIV_U, MINUS_7, 2, Ok(0x7fff_ffff_ffff_fffc)),
    (I64_DIV_U, LEAST, MINUS_1, Ok(0)),
    (I64_DIV_U, 5, 0, Err(DivZero)),
    (I64_REM_S, MINUS_7, 2, Ok(MINUS_1)),
    (I64_REM_S, LEAST, MINUS_1, Ok(0)),
    (I64_REM_S, 7, MINUS_2, Ok(1)),
    (I64_REM_S, 5, 0, Err(DivZero)),
    (I64_REM_U, MINUS_7, 2, Ok(1)),
    (I64_REM_U, LEAST, MINUS_1, Ok(LEAST)),
    (I64_REM_U, 5, 0, Err(DivZero)),
    (I64_AND, UP, DOWN, Ok(0x1214_1218_1214_1210)),
    (I64_OR, UP, DOWN, Ok(0xfefc_fef8_fefc_fef0)),
    (I64_XOR, UP, DOWN, Ok(0xece8_ece0_ece8_ece0)),
    (I64_SHL, 1, 65, Ok(2)),
    (I64_SHL, DOWN, 64, Ok(DOWN)),
    (I64_SHL, UP, 4, Ok(0x2345_6789_abcd_ef00)),
    (I64_SHR_S, LEAST, 65, Ok(0xc000_0000_0000_0000)),
    (I64_SHR_S, DOWN, MINUS_1, Ok(MINUS_1)),
    (I64_SHR_S, UP, 4, Ok(0x123_4567_89ab_cdef)),
    (I64_SHR_U, LEAST, 65, Ok(0x4000_0000_0000_0000)),
    (I64_SHR_U, DOWN, MINUS_1, Ok(1)),
    (I64_SHR_U, UP, 4, Ok(0x123_4567_89ab_cdef)),
    (I64_ROTL, UP, 68, Ok(0x2345_6789_abcd_ef01)),
    (I64_ROTL, DOWN, 64, Ok(DOWN)),
    (I64_ROTL, 1, MINUS_1, Ok(LEAST)),
    (I64_ROTR, UP, 68, Ok(0x123_4567_89ab_cdef)),
    (I64_ROTR, DOWN, 64, Ok(DOWN)),
    (I64_ROTR, 1, MINUS_1, Ok(2)),
    (I32_WRAP_I64, UP, 0, Ok(0x9abc_def0)),
    (I32_WRAP_I64, 0xffff_ffff_0000_0000, 0, Ok(0)),
    (I64_EXTEND_I32_S, 0x8000_0000, 0, Ok(0xffff_ffff_8000_0000)),
    (I64_EXTEND_I32_S, 0x7fff_ffff, 0, Ok(0x7fff_ffff)),
    (I64_EXTEND_I32_S, UP, 0, Ok(0xffff_ffff_9abc_def0)),
    (I64_EXTEND_I32_U, 0x8000_0000, 0, Ok(0x8000_0000)),
    (I64_EXTEND_I32_U, 0x7fff_ffff, 0, Ok(0x7fff_ffff)),
    (I64_EXTEND_I32_U, UP, 0, Ok(0x9abc_def0)),
];

#[test]
fn each_operator_on_i64_gives_what_another_engine_gives(rt: HostRuntime) {
    for &(op, a, b, expected) in &VECTORS {
        assert!(rt;
            (I64_EQZ <= op && op <= I64_GE_U)
                || (I64_CLZ <= op && op <= I64_ROTR)
                || op == I32_WRAP_I64
                || op == I64_EXTEND_I32_S
                || op == I64_EXTEND_I32_U
        );
        assert_eq!(rt; i64_op(op, a, b), expected, "{op} of {a} and {b}");
    }
}
