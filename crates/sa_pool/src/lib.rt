//! The allocator of frame slots, in a memory of words and as functions of a WebAssembly module.
#![tactic(auto)]

mod head;
mod module_code;
mod pool;
mod vec_mem;
mod word_mem;

pub use module_code::{PoolCode, code};
pub use pool::Pool;
pub use vec_mem::VecMem;
pub use word_mem::WordMem;
