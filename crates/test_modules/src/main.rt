//! Modules there and back: from bytes to bytes again, by `wa_decode` and `wa_encode`, and from bytes to a listing and back to a module, by
//! `wa_text`. What is printed is compared with `stdout`.
#![tactic(auto)]

mod binary_format;
mod text_format;

use anyhow::Result;

/// Modules and texts are shorter than this, in bytes.
const LONGEST: usize = 65_536;

fn main(rt: HostRuntime) -> Result<()> {
    binary_format::print(&rt)?;
    text_format::print(&rt)
}
