//! Which values of operations can be left as an operand.

use crate::forms::{BuiltinForm, form_of};
use crate::operands::is_not;
use sa_cfg::{CallOperation, CallTarget, CfgBody, CfgOperation};
use sa_structure::leaves;

/// The variable that gets the value of an operation, where its instructions can leave that as an operand.
pub fn result_of(step: &CfgOperation) -> Option<u32> {
    match step {
        CfgOperation::Const { to, .. } => Some(*to),
        CfgOperation::Move { to, .. } => Some(*to),
        CfgOperation::SelfRef { to } => Some(*to),
        CfgOperation::IsVoid { to, .. } => Some(*to),
        CfgOperation::New { to, .. } => Some(*to),
        CfgOperation::NewArray { to, .. } => Some(*to),
        CfgOperation::Unbox { to, .. } => Some(*to),
        CfgOperation::TypeIs { to, .. } => Some(*to),
        CfgOperation::HasInstance { to, .. } => Some(*to),
        CfgOperation::HasFrame { to } => Some(*to),
        CfgOperation::Call { plan } => plan.value,
        CfgOperation::Bind { plan, .. } => plan.value,
        _ => None,
    }
}

/// Whether an operation can leave its value as a truth value of 32 bits.
pub(crate) fn gives_truth(step: &CfgOperation) -> bool {
    match step {
        CfgOperation::IsVoid { .. } => true,
        CfgOperation::TypeIs { .. } => true,
        CfgOperation::HasInstance { .. } => true,
        CfgOperation::HasFrame { .. } => true,
        CfgOperation::Call { plan } => is_comparison(plan) || is_not(plan),
        _ => false,
    }
}

fn is_comparison(plan: &CallOperation) -> bool {
    match plan.callee {
        CallTarget::Builtin(feature) => matches!(form_of(feature), BuiltinForm::Compares(_)),
        _ => false,
    }
}

/// Whether each reader of an operation's value can do the operation itself.
pub(crate) fn is_free(step: &CfgOperation) -> bool {
    matches!(
        step,
        CfgOperation::Const { .. } | CfgOperation::SelfRef { .. }
    )
}

/// Whether an operation calculates a number that is in its variable before it is known to be in range, and a raise of it leaves the body,
/// so that nothing sees which variable that was.
pub(crate) fn calculates(body: &CfgBody, step: &CfgOperation) -> bool {
    let CfgOperation::Call { plan } = step else {
        return false;
    };
    let CallTarget::Builtin(feature) = plan.callee else {
        return false;
    };
    let form = form_of(feature);
    let calculates = matches!(form, BuiltinForm::Calculates(_) | BuiltinForm::Negate);
    calculates && leaves(body, plan.fail.raised)
}

/// The variable that says whether the instance of an operation has ended.
pub(crate) fn quit_of(step: &CfgOperation) -> Option<u32> {
    match step {
        CfgOperation::Start { quit, .. } => Some(*quit),
        CfgOperation::Resume { quit, .. } => Some(*quit),
        _ => None,
    }
}
