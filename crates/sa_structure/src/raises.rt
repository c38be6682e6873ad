//! Where the raises of operations go.

ghost use Rattle.std.specs.Prelude.{◌≡◌};
ghost use Rattle.sa_liveness.specs.Saved.{raised_by};
ghost use Rattle.sa_structure.specs.Stands.{is_raise_of, leaves};

use sa_cfg::{CfgBody, CfgOperation, Handler, Terminator};

/// Where a fault or a raise of an operation goes.
pub fn raised_of(step: &CfgOperation) -> Option<Handler>
    ensures { result ≡ raised_by step.now }
{
    match step {
        CfgOperation::New { fail, .. } => Some(fail.raised),
        CfgOperation::NewArray { fail, .. } => Some(fail.raised),
        CfgOperation::Box { fail, .. } => Some(fail.raised),
        CfgOperation::BoxFor { fail, .. } => Some(fail.raised),
        CfgOperation::CheckNotVoid { fail, .. } => Some(fail.raised),
        CfgOperation::Call { plan } => Some(plan.fail.raised),
        CfgOperation::Bind { plan, .. } => Some(plan.fail.raised),
        CfgOperation::Start { plan, .. } => Some(plan.fail.raised),
        CfgOperation::Resume { plan, .. } => Some(plan.fail.raised),
        _ => None,
    }
}

/// Whether the block that a raise goes to does nothing but leave the body with this raise. Operations don't jump to such a block.
pub fn leaves(body: &CfgBody, raised: Handler) -> bool
    ensures { result ≡ leaves body.now raised }
{
    match body.blocks.get(raised.block as usize) {
        Some(block) => block.steps.is_empty() && is_its_exit(&block.exit, raised),
        None => false,
    }
}

/// Whether a terminator leaves the body with this raise.
fn is_its_exit(exit: &Terminator, raised: Handler) -> bool
    ensures { result ≡ is_raise_of raised exit.now }
{
    match exit {
        Terminator::Raise { value, place, kind } => {
            *value == raised.value && *place == raised.place && *kind == raised.kind
        }
        _ => false,
    }
}
