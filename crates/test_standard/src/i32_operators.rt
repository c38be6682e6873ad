//! What the WebAssembly engine of Node.js gives for each operator on i32 and two operands.

use wa_num::i32_op;
use wa_syntax::TrapKind::{self, DivZero, Overflow};
use wa_syntax::opcode::*;

const LEAST: u32 = 1 << 31;

const MINUS_1: u32 = u32::MAX;

const MINUS_2: u32 = u32::MAX - 1;

const MINUS_3: u32 = u32::MAX - 2;

const MINUS_7: u32 = u32::MAX - 6;

const UP: u32 = 0x1234_5678;

const DOWN: u32 = 0xfedc_ba98;

const VECTORS: [(u8, u32, u32, Result<u32, TrapKind>); 79] = [
    (I32_EQZ, 0, 7, Ok(1)),
    (I32_EQZ, LEAST, 0, Ok(0)),
    (I32_EQ, UP, UP, Ok(1)),
    (I32_EQ, LEAST, 0, Ok(0)),
    (I32_NE, UP, UP, Ok(0)),
    (I32_NE, LEAST, 0, Ok(1)),
    (I32_LT_S, MINUS_1, 1, Ok(1)),
    (I32_LT_S, 1, MINUS_1, Ok(0)),
    (I32_LT_S, LEAST, LEAST, Ok(0)),
    (I32_LT_U, MINUS_1, 1, Ok(0)),
    (I32_LT_U, 1, MINUS_1, Ok(1)),
    (I32_LT_U, LEAST, LEAST, Ok(0)),
    (I32_GT_S, MINUS_1, 1, Ok(0)),
    (I32_GT_S, 1, MINUS_1, Ok(1)),
    (I32_GT_S, LEAST, LEAST, Ok(0)),
    (I32_GT_U, MINUS_1, 1, Ok(1)),
    (I32_GT_U, 1, MINUS_1, Ok(0)),
    (I32_GT_U, LEAST, LEAST, Ok(0)),
    (I32_LE_S, MINUS_1, 1, Ok(1)),
    (I32_LE_S, 1, MINUS_1, Ok(0)),
    (I32_LE_S, LEAST, LEAST, Ok(1)),
    (I32_LE_U, MINUS_1, 1, Ok(0)),
    (I32_LE_U, 1, MINUS_1, Ok(1)),
    (I32_LE_U, LEAST, LEAST, Ok(1)),
    (I32_GE_S, MINUS_1, 1, Ok(0)),
    (I32_GE_S, 1, MINUS_1, Ok(1)),
    (I32_GE_S, LEAST, LEAST, Ok(1)),
    (I32_GE_U, MINUS_1, 1, Ok(1)),
    (I32_GE_U, 1, MINUS_1, Ok(0)),
    (I32_GE_U, LEAST, LEAST, Ok(1)),
    (I32_CLZ, 0, 7, Ok(32)),
    (I32_CLZ, UP, 0, Ok(3)),
    (I32_CLZ, LEAST, 0, Ok(0)),
    (I32_CLZ, 1, 0, Ok(31)),
    (I32_CTZ, 0, 7, Ok(32)),
    (I32_CTZ, UP, 0, Ok(3)),
    (I32_CTZ, LEAST, 0, Ok(31)),
    (I32_CTZ, 1, 0, Ok(0)),
    (I32_POPCNT, 0, 7, Ok(0)),
    (I32_POPCNT, MINUS_1, 0, Ok(32)),
    (I32_POPCNT, UP, 0, Ok(13)),
    (I32_ADD, MINUS_1, 1, Ok(0)),
    (I32_ADD, UP, DOWN, Ok(0x1111_1110)),
    (I32_SUB, 0, 1, Ok(MINUS_1)),
    (I32_SUB, DOWN, UP, Ok(0xeca8_6420)),
    (I32_MUL, MINUS_1, MINUS_1, Ok(1)),
    (I32_MUL, UP, DOWN, Ok(0x3506_8740)),
    (I32_DIV_S, MINUS_7, 2, Ok(MINUS_3)),
    (I32_DIV_S, LEAST, MINUS_1, Err(Overflow)),
    (I32_DIV_S, 7, MINUS_2, Ok(MINUS_3)),
    (I32_DIV_S, 5, 0, Err(DivZero)),
    (I32_DIV_U, MINUS_7, 2, Ok(0x7fff_fffc)),
    (I32_DIV_U, LEAST, MINUS_1, Ok(0)),
    (I32_DIV_U, 5, 0, Err(DivZero)),
    (I32_REM_S, MINUS_7, 2, Ok(MINUS_1)),
    (I32_REM_S, LEAST, MINUS_1, Ok(0)),
    (I32_REM_S, 7, MINUS_2, Ok(1)),
    (I32_REM_S, 5, 0, Err(DivZero)),
    (I32_REM_U, MINUS_7, 2, Ok(1)),
    (I32_REM_U, LEAST, MINUS_1, Ok(LEAST)),
    (I32_REM_U, 5, 0, Err(DivZero)),
    (I32_AND, UP, DOWN, Ok(0x1214_1218)),
    (I32_OR, UP, DOWN, Ok(0xfefc_fef8)),
    (I32_XOR, UP, DOWN, Ok(0xece8_ece0)),
    (I32_SHL, 1, 33, Ok(2)),
    (I32_SHL, DOWN, 32, Ok(DOWN)),
    (I32_SHL, UP, 4, Ok(0x2345_6780)),
    (I32_SHR_S, LEAST, 33, Ok(0xc000_0000)),
    (I32_SHR_S, DOWN, MINUS_1, Ok(MINUS_1)),
    (I32_SHR_S, UP, 4, Ok(0x123_4567)),
    (I32_SHR_U, LEAST, 33, Ok(0x4000_0000)),
    (I32_SHR_U, DOWN, MINUS_1, Ok(1)),
    (I32_SHR_U, UP, 4, Ok(0x123_4567)),
    (I32_ROTL, UP, 36, Ok(0x2345_6781)),
    (I32_ROTL, DOWN, 32, Ok(DOWN)),
    (I32_ROTL, 1, MINUS_1, Ok(LEAST)),
    (I32_ROTR, UP, 36, Ok(0x8123_4567)),
    (I32_ROTR, DOWN, 32, Ok(DOWN)),
    (I32_ROTR, 1, MINUS_1, Ok(2)),
];

#[test]
fn each_operator_on_i32_gives_what_another_engine_gives(rt: HostRuntime) {
    for &(op, a, b, expected) in &VECTORS {
        assert!(rt; (I32_EQZ <= op && op <= I32_GE_U) || (I32_CLZ <= op && op <= I32_ROTR));
        assert_eq!(rt; i32_op(op, a, b), expected, "{op} of {a} and {b}");
    }
}
