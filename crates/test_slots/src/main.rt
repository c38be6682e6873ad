//! Takes slots of a pool and gives them back, in an order of no pattern, and does the same by the functions of a module.
#![tactic(auto)]

mod calls;
mod driver;

use anyhow::{Context, Result};
use calls::all_calls;
use driver::driver;
use host_io::{MemSink, MemSource};
use wa_encode::encode;
use wa_run::run_bytes;

/// How many steps are enough for the module to end.
const FUEL: u64 = 10_000_000;

fn main(rt: HostRuntime) -> Result<()> {
    let alloc = rt.alloc();
    let calls = all_calls(alloc)?;
    let bytes = encode(alloc, &driver(alloc)?)?;
    if bytes.len() >= u32::MAX as usize {
        return None.context("the module is too long");
    }
    let mut input = MemSource::new(calls.asked, Vec::new(alloc));
    let mut out = MemSink::new(alloc, Vec::new(alloc));
    let run = run_bytes(alloc, bytes.as_slice(), FUEL, &mut input, &mut out);
    println!(rt; "{:?}", run.answer)?;
    println!(rt; "{} calls, {} slots live", calls.count, calls.live)?;
    println!(rt;
        "the same answers: {}",
        out.taken() == calls.answered.as_slice()
    )?;
    Ok(())
}
