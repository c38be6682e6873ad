//! Valid modules (section 3.4.10).

ghost use Rattle.std.specs.Prelude.{◌≡◌, ◌≤◌, All, length, IfOk, IfErr, MatchResult};
ghost use Rattle.wa_syntax.specs.ValidModule.{IsValid};
ghost use Rattle.wa_syntax.specs.Validity.{IsTypedFunction};
ghost use Rattle.wa_valid.specs.Names.{names};
ghost use Rattle.wa_valid.specs.Verdict.{IsRefused, NamesFirst};

use crate::context::Context;
use crate::fault::ValidFault;
use crate::instruction::function;
use crate::module::outside_bodies;
use std::alloc::Global;
use std::marker::Model;
use wa_syntax::{Func, Module};

/// A module that `validate` found valid. Contracts see the module.
#[derive(Drop)]
pub struct Valid {
    module: Module,
}

impl Model for Valid {
    ghost use Rattle.std.specs.Coded.{codes};
    ghost use Rattle.wa_syntax.specs.contracts.module.Module as module_contract;
    ghost use Rattle.wa_syntax.specs.declared.module.Module.{Module};
    ghost use Rattle.wa_syntax.specs.ValidModule.{IsValid};

    ghost Value = { Module };

    ghost coded = { Prim.hlevel (codes, module_contract.the_row.coded) };

    ghost view = { λ v. v.module };

    ghost invariant = { λ v. IsValid v.module };
}

impl Valid {
    /// The module.
    pub fn module(&self) -> &Module
        ensures same { result.now ≡ self.now }
        ensures valid { IsValid result.now }
    {
        &self.module
    }
}

/// Takes a module that is valid (3.4.10), in its integer part.
///
/// `Invalid` comes where the module isn't valid: with the index of the first own function whose body is ill typed if all
/// rules outside bodies hold, and else with `None`. `NoMemory` comes where memory runs out.
pub fn validate(alloc: Global, m: Module) -> Result<Valid, ValidFault>
    ensures module { IfOk result (λ valid. valid ≡ m) }
    ensures valid { IfOk result (λ valid. IsValid m) }
    ensures refused { IfErr result (IsRefused m) }
{
    check(alloc, &m)?;
    Ok(Valid { module: m })
}

/// Whether a module is valid.
fn check(alloc: Global, m: &Module) -> Result<(), ValidFault>
    ensures { MatchResult result (λ _. IsValid m.now) (IsRefused m.now) }
{
    let context = Context::new(alloc, m)?;
    outside_bodies(alloc, &context, m)?;
    bodies(alloc, &context, m.funcs.as_slice())
}

/// The bodies of the module's own functions, in order (3.4.1).
fn bodies(alloc: Global, context: &Context, funcs: &[Func]) -> Result<(), ValidFault>
    requires { All (λ ty. length ty.results ≤ 1) context.now.types.now }
    ensures { MatchResult result (λ _. All (IsTypedFunction (names context.now)) funcs.now) (NamesFirst (names context.now) funcs.now) }
{
    for (at, func) in funcs.iter().enumerate() {
        if let Err(fault) = function(alloc, context, func) {
            return Err(fault.in_body(at));
        }
    }
    Ok(())
}
