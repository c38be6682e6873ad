//! Calls of a pool in an order of no pattern, and its answers.

ghost use Rattle.std.specs.Prelude.{◌≡◌, ◌<◌, [], true, false, slice_index_or, slice_set, IfOk, OnOk};
ghost use Rattle.test_slots.specs.Flags.{AreLive};

use sa_pool::{Pool, VecMem};
use std::alloc::{AllocError, Global};

/// How many slots a pool has.
const SLOTS: usize = 10_000;

/// How many words a slot has.
const SLOT_WORDS: u32 = 2;

/// How many calls follow those that take all slots.
const ROUNDS: u32 = 20_000;

/// The calls as the module reads them, and the answers as it is expected to put them.
#[derive(Drop)]
pub struct Calls {
    pub asked: Vec<u8>,
    pub answered: Vec<u8>,
    /// How many calls there are.
    pub count: u32,
    /// How many slots are live in the end.
    pub live: u32,
}

/// All slots are taken, and one more is asked for; then slots are given back and taken in an order of no pattern.
pub fn all_calls(alloc: Global) -> Result<Calls, AllocError> {
    let mut calls = Calls {
        asked: Vec::new(alloc),
        answered: Vec::new(alloc),
        count: 0,
        live: 0,
    };
    let mut pool = pool_of(alloc, SLOT_WORDS)?;
    let mut flags = no_flags(alloc, SLOTS)?;
    take_all(&mut pool, &mut flags, &mut calls)?;
    give_and_take(&mut pool, &mut flags, &mut calls)?;
    calls.live = pool.live();
    Ok(calls)
}

/// A pool in which no slot is live.
fn pool_of(alloc: Global, slot_words: u32) -> Result<Pool<VecMem>, AllocError>
    requires some { 0 < slot_words }
    requires few { slot_words < 100000 }
    ensures { IfOk result (λ pool. pool.live ≡ []) }
{
    let len = SLOTS * slot_words as usize + 1;
    let words = vec![in alloc; 0; len]?;
    Ok(Pool::new(VecMem { words }, slot_words))
}

/// This number of slots without a flag.
fn no_flags(alloc: Global, len: usize) -> Result<Vec<bool>, AllocError>
    ensures { IfOk result (λ flags. AreLive [] flags.items) }
{
    vec![in alloc; false; len]
}

/// Takes all slots of a pool in which none is live, and asks for one more.
fn take_all(
    pool: &mut Pool<VecMem>,
    flags: &mut [bool],
    calls: &mut Calls,
) -> Result<(), AllocError>
    requires { AreLive pool.old.live flags.old }
    ensures { OnOk result (AreLive pool.new.live flags.new) }
{
    for _ in 0..=SLOTS {
        ask(take(pool, flags), calls)?;
    }
    Ok(())
}

/// Gives slots back and takes them.
fn give_and_take(
    pool: &mut Pool<VecMem>,
    flags: &mut [bool],
    calls: &mut Calls,
) -> Result<(), AllocError>
    requires { AreLive pool.old.live flags.old }
{
    let mut random = 1;
    for _ in 0..ROUNDS {
        random = next(random);
        let slot = (random >> 16) % 10_000;
        call(pool, flags, slot, calls)?;
    }
    Ok(())
}

/// Gives this slot back if it is live, and else takes one.
fn call(
    pool: &mut Pool<VecMem>,
    flags: &mut [bool],
    slot: u32,
    calls: &mut Calls,
) -> Result<(), AllocError>
    requires { AreLive pool.old.live flags.old }
    ensures { OnOk result (AreLive pool.new.live flags.new) }
{
    if is_set(flags, slot) {
        give(pool, flags, slot);
        return tell(slot, calls);
    }
    ask(take(pool, flags), calls)
}

/// The number after this one.
fn next(random: u32) -> u32 {
    random.wrapping_mul(1_103_515_245).wrapping_add(12_345)
}

/// Whether the slot has a flag.
fn is_set(flags: &[bool], slot: u32) -> bool
    ensures { result ≡ slice_index_or flags.now slot false }
{
    match flags.get(slot as usize) {
        Some(flag) => *flag,
        None => false,
    }
}

/// Takes a slot and sets its flag.
fn take(pool: &mut Pool<VecMem>, flags: &mut [bool]) -> Option<u32>
    requires { AreLive pool.old.live flags.old }
    ensures { AreLive pool.new.live flags.new }
{
    match pool.take() {
        Some(slot) => {
            set(flags, slot, true);
            Some(slot)
        }
        None => None,
    }
}

/// Gives a slot back and clears its flag.
fn give(pool: &mut Pool<VecMem>, flags: &mut [bool], slot: u32)
    requires live { AreLive pool.old.live flags.old }
    requires set { slice_index_or flags.old slot false ≡ true }
    ensures { AreLive pool.new.live flags.new }
{
    set(flags, slot, false);
    pool.give(slot);
}

/// Sets the flag of a slot.
fn set(flags: &mut [bool], slot: u32, flag: bool)
    ensures { flags.new ≡ slice_set flags.old slot flag }
{
    let at = slot as usize;
    if at < flags.len() {
        flags[at] = flag;
    }
}

/// Adds a call that takes a slot, with its answer.
fn ask(slot: Option<u32>, calls: &mut Calls) -> Result<(), AllocError> {
    calls.asked.push(0)?;
    calls.count = calls.count.saturating_add(1);
    let number = slot.unwrap_or(u32::MAX);
    calls.answered.push((number % 256) as u8)?;
    calls.answered.push((number / 256 % 256) as u8)?;
    Ok(())
}

/// Adds a call that gives a slot back.
fn tell(slot: u32, calls: &mut Calls) -> Result<(), AllocError> {
    calls.asked.push(1)?;
    calls.count = calls.count.saturating_add(1);
    calls.asked.push((slot % 256) as u8)?;
    calls.asked.push((slot / 256 % 256) as u8)?;
    Ok(())
}
