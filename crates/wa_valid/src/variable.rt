//! Variable instructions (section 3.3.3) of globals.

ghost use Rattle.std.specs.Prelude.{◌≡◌};
ghost use Rattle.wa_syntax.specs.Instructions.{GlobalGet, GlobalSet};
ghost use Rattle.wa_syntax.specs.Validity.{IsTyped};
ghost use Rattle.wa_syntax.specs.Validity as validity;
ghost use Rattle.wa_valid.specs.Operands.{stack, Answers};

use crate::context::Context;
use crate::fault::{ValidationRule, require};
use crate::operands::Operands;

/// `global.get`: [] → [t].
pub fn global_get(context: &Context, operands: &mut Operands, global: u32) -> ValidationRule
    ensures { (c : validity.Context) → c.globals ≡ context.now.globals
        → Answers (IsTyped c (GlobalGet global)) (stack operands.old) (stack operands.new) result }
{
    let ty = context.global_type(global)?;
    operands.apply(None, None, Some(ty.val))
}

/// `global.set`, of a mutable global: [t] → [].
pub fn global_set(context: &Context, operands: &mut Operands, global: u32) -> ValidationRule
    ensures { (c : validity.Context) → c.globals ≡ context.now.globals
        → Answers (IsTyped c (GlobalSet global)) (stack operands.old) (stack operands.new) result }
{
    let ty = context.global_type(global)?;
    require(ty.mutable)?;
    operands.apply(Some(ty.val), None, None)
}
