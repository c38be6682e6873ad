//! The globals of the module, in the order of their numbers.

use failure::Failure;
use sa_runtime::trace::Tracing;
use sqlite_items::Items;
use std::alloc::Global;
use wa_syntax::{GlobalDef, GlobalTy, Init, ValTy};

/// The result of a call; the value, the kind and the position of a raise; the kind of a fault that is forwarded; the address of the next
/// object, which is `base` at first; the frame of an iter that was entered. In a traced module the site that starts an instance next, and
/// the number of instances that were started, follow.
pub(crate) fn globals(
    alloc: Global,
    base: u32,
    tracing: Tracing,
) -> Result<Items<GlobalDef>, Failure> {
    let word = global(ValTy::I64, Init::Const64(0));
    let number = global(ValTy::I32, Init::Const32(0));
    let next_object = global(ValTy::I32, Init::Const32(base));
    let of_each_module = [word, word, number, number, number, next_object, number];
    let mut globals = Items::from_slice(alloc, &of_each_module)?;
    if let Tracing::On(_) = tracing {
        globals.push(number)?;
        globals.push(word)?;
    }
    Ok(globals)
}

fn global(val: ValTy, init: Init) -> GlobalDef {
    GlobalDef {
        ty: GlobalTy { val, mutable: true },
        init,
    }
}
