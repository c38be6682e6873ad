//! Tables of operators, numbers, modules and bodies, each with what WebAssembly Core 1.0 says of it. What is expected comes
//! from the standard, and from other tools, which say the same where nothing else is noted.
#![tactic(auto)]

#[cfg(test)]
mod decoding;
#[cfg(test)]
mod i32_operators;
#[cfg(test)]
mod i64_operators;
#[cfg(test)]
mod leb128;
#[cfg(test)]
mod validation;
