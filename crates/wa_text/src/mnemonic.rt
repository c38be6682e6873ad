//! The names of opcodes: the standard's mnemonics.

ghost use Rattle.std.specs.Prelude.{◌≡◌, ◌≢◌, ℕ, List, map, option_copied, Contains, MatchOption, Some};
ghost use Rattle.wa_text.specs.Mnemonics.{access_names, name_in, plain_names};

use wa_syntax::opcode::*;

/// Instructions that are an opcode alone, with their names.
const PLAIN: [(u8, &str); 68] = [
    (UNREACHABLE, "unreachable"),
    (NOP, "nop"),
    (RETURN, "return"),
    (DROP, "drop"),
    (SELECT, "select"),
    (MEMORY_SIZE, "memory.size"),
    (MEMORY_GROW, "memory.grow"),
    (I32_EQZ, "i32.eqz"),
    (I32_EQ, "i32.eq"),
    (I32_NE, "i32.ne"),
    (I32_LT_S, "i32.lt_s"),
    (I32_LT_U, "i32.lt_u"),
    (I32_GT_S, "i32.gt_s"),
    (I32_GT_U, "i32.gt_u"),
    (I32_LE_S, "i32.le_s"),
    (I32_LE_U, "i32.le_u"),
    (I32_GE_S, "i32.ge_s"),
    (I32_GE_U, "i32.ge_u"),
    (I64_EQZ, "i64.eqz"),
    (I64_EQ, "i64.eq"),
    (I64_NE, "i64.ne"),
    (I64_LT_S, "i64.lt_s"),
    (I64_LT_U, "i64.lt_u"),
    (I64_GT_S, "i64.gt_s"),
    (I64_GT_U, "i64.gt_u"),
    (I64_LE_S, "i64.le_s"),
    (I64_LE_U, "i64.le_u"),
    (I64_GE_S, "i64.ge_s"),
    (I64_GE_U, "i64.ge_u"),
    (I32_CLZ, "i32.clz"),
    (I32_CTZ, "i32.ctz"),
    (I32_POPCNT, "i32.popcnt"),
    (I32_ADD, "i32.add"),
    (I32_SUB, "i32.sub"),
    (I32_MUL, "i32.mul"),
    (I32_DIV_S, "i32.div_s"),
    (I32_DIV_U, "i32.div_u"),
    (I32_REM_S, "i32.rem_s"),
    (I32_REM_U, "i32.rem_u"),
    (I32_AND, "i32.and"),
    (I32_OR, "i32.or"),
    (I32_XOR, "i32.xor"),
    (I32_SHL, "i32.shl"),
    (I32_SHR_S, "i32.shr_s"),
    (I32_SHR_U, "i32.shr_u"),
    (I32_ROTL, "i32.rotl"),
    (I32_ROTR, "i32.rotr"),
    (I64_CLZ, "i64.clz"),
    (I64_CTZ, "i64.ctz"),
    (I64_POPCNT, "i64.popcnt"),
    (I64_ADD, "i64.add"),
    (I64_SUB, "i64.sub"),
    (I64_MUL, "i64.mul"),
    (I64_DIV_S, "i64.div_s"),
    (I64_DIV_U, "i64.div_u"),
    (I64_REM_S, "i64.rem_s"),
    (I64_REM_U, "i64.rem_u"),
    (I64_AND, "i64.and"),
    (I64_OR, "i64.or"),
    (I64_XOR, "i64.xor"),
    (I64_SHL, "i64.shl"),
    (I64_SHR_S, "i64.shr_s"),
    (I64_SHR_U, "i64.shr_u"),
    (I64_ROTL, "i64.rotl"),
    (I64_ROTR, "i64.rotr"),
    (I32_WRAP_I64, "i32.wrap_i64"),
    (I64_EXTEND_I32_S, "i64.extend_i32_s"),
    (I64_EXTEND_I32_U, "i64.extend_i32_u"),
];

/// Loads and stores, with their names.
const ACCESSES: [(u8, &str); 19] = [
    (I32_LOAD, "i32.load"),
    (I64_LOAD, "i64.load"),
    (I32_LOAD8_S, "i32.load8_s"),
    (I32_LOAD8_U, "i32.load8_u"),
    (I32_LOAD16_S, "i32.load16_s"),
    (I32_LOAD16_U, "i32.load16_u"),
    (I64_LOAD8_S, "i64.load8_s"),
    (I64_LOAD8_U, "i64.load8_u"),
    (I64_LOAD16_S, "i64.load16_s"),
    (I64_LOAD16_U, "i64.load16_u"),
    (I64_LOAD32_S, "i64.load32_s"),
    (I64_LOAD32_U, "i64.load32_u"),
    (I32_STORE, "i32.store"),
    (I64_STORE, "i64.store"),
    (I32_STORE8, "i32.store8"),
    (I32_STORE16, "i32.store16"),
    (I64_STORE8, "i64.store8"),
    (I64_STORE16, "i64.store16"),
    (I64_STORE32, "i64.store32"),
];

/// The name of an opcode in a table.
fn name_in(table: &[(u8, &'static str)], opcode: u8) -> Option<&'static str>
    ensures { option_copied result ≡ name_in (map (λ row. (row.0, row.1.now)) table.now) opcode }
{
    for (other, name) in table {
        if *other == opcode {
            return Some(*name);
        }
    }
    None
}

/// The opcode of a name in a table.
fn opcode_in(table: &[(u8, &'static str)], name: &[u8]) -> Option<u8>
    ensures { let rows : List (ℕ × List ℕ) = map (λ row. (row.0, row.1.now)) table.now in
        MatchOption result ((opcode : ℕ) → Contains rows (opcode, name.now) → ⊥) (λ opcode. Contains rows (opcode, name.now)) }
{
    for (opcode, other) in table {
        if other.as_bytes() == name {
            return Some(*opcode);
        }
    }
    None
}

/// The name of an instruction that is its opcode alone, or `None` where the opcode is that of no such instruction.
pub fn plain_name(opcode: u8) -> Option<&'static str>
    ensures { option_copied result ≡ name_in plain_names opcode }
{
    name_in(&PLAIN, opcode)
}

/// The name of a load or a store, or `None` where the opcode is that of neither.
pub fn access_name(opcode: u8) -> Option<&'static str>
    ensures { option_copied result ≡ name_in access_names opcode }
{
    name_in(&ACCESSES, opcode)
}

/// The opcode of an instruction that is its opcode alone, by its name.
pub fn plain_opcode(name: &[u8]) -> Option<u8>
    ensures { MatchOption result ((opcode : ℕ) → name_in plain_names opcode ≢ Some name.now)
        (λ opcode. name_in plain_names opcode ≡ Some name.now) }
{
    opcode_in(&PLAIN, name)
}

/// The opcode of a load or a store, by its name.
pub fn access_opcode(name: &[u8]) -> Option<u8>
    ensures { MatchOption result ((opcode : ℕ) → name_in access_names opcode ≢ Some name.now)
        (λ opcode. name_in access_names opcode ≡ Some name.now) }
{
    opcode_in(&ACCESSES, name)
}
