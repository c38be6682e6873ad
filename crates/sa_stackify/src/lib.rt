//! Which values that the operations of a CFG body give stay on the operand stack of its function until they are read, and which go into
//! locals.
//!
//! Nothing is reordered: a value stays an operand where it is read once, in its own block, and where what is on top of it on the stack by
//! then is read with it. A constant and `self` are read where they are needed.
#![tactic(auto)]

mod forms;
mod live_out;
mod operands;
mod plan;
mod reading;
mod result_place;
mod results;
mod save_set;

pub use forms::{BuiltinForm, form_of, swapped_opcode};
pub use plan::Planner;
pub use reading::add_set;
pub use result_place::ResultPlace;
pub use results::result_of;
pub use save_set::SaveSet;
