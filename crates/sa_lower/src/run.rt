//! The body that a run begins with: it evaluates the initialisers of the shareds in their order, each for a turn and with the
//! void value of its class as `self`, and calls `main`.

ghost use Rattle.std.specs.Prelude.{◌<◌, All, length};
ghost use Rattle.sa_lower.specs.TypedParts.{HasWellTypedInitialiser};
ghost use Rattle.sa_typing.specs.Rows.{rows};

use crate::adapter::no_position;
use failure::{Failure, Invariant, known};
use sa_cfg::{CallOperation, CallTarget, CfgBody, CfgOperation, Constant, Terminator};
use sa_cfg_builder::{BodyBuilder, BodyHeader, LoweringContext, ProgramBuilder};
use sa_lower_expr::{Owner, lower_expr};
use sa_typed::{TypedFeature, TypedShared};
use sa_typing::{TypingView, env_of_initialiser};
use sqlite_items::Items;
use std::alloc::Global;

/// The body that a run begins with, where the feature with this index is `main`.
pub(crate) fn run_body(
    alloc: Global,
    view: &TypingView<'_>,
    main: u32,
    draft: &mut ProgramBuilder,
) -> Result<CfgBody, Failure>
    requires main { main < length view.now.features.now }
    requires starts { All (HasWellTypedInitialiser (rows view.now)) view.now.shareds.now }
{
    draft.begin(alloc, head(alloc))?;
    for (number, shared) in view.shareds.iter().enumerate() {
        let number = known(u32::try_from(number).ok(), Invariant::CheckedCount)?;
        initialise(alloc, view, number, shared, draft)?;
    }
    let feature = &view.features[main as usize];
    let value = call_main(alloc, main, feature, &mut draft.body)?;
    draft.body.finish(alloc, Terminator::Return { value })
}

/// The header of the body.
fn head(alloc: Global) -> BodyHeader {
    BodyHeader {
        feature: None,
        iter: false,
        formals: Items::new(alloc),
        variable_count: 0,
        sites: 0,
    }
}

/// Sets a shared to the value of its initialiser, where it has one.
fn initialise(
    alloc: Global,
    view: &TypingView<'_>,
    number: u32,
    shared: &TypedShared,
    draft: &mut ProgramBuilder,
) -> Result<(), Failure>
    requires { HasWellTypedInitialiser (rows view.now) shared.now }
{
    let Some(start) = &shared.start else {
        return Ok(());
    };
    draft.body.step(CfgOperation::Turn)?;
    let scope = env_of_initialiser(view, shared.class);
    let inside = LoweringContext::of_body();
    let value = lower_expr(alloc, &scope, Owner::Initialiser, &inside, draft, start)?;
    let Some(from) = value else { unreachable!() };
    draft.body.step(CfgOperation::InitShared {
        shared: number,
        from,
    })
}

/// Calls `main`, the feature with this index, with a void self, and gives the variable that holds its result, if it has one.
fn call_main(
    alloc: Global,
    number: u32,
    main: &TypedFeature,
    body: &mut BodyBuilder,
) -> Result<Option<u32>, Failure> {
    body.statement(&LoweringContext::of_body());
    let recv = body.temporary()?;
    body.step(CfgOperation::Const {
        to: recv,
        value: Constant::Void(main.class),
    })?;
    let value = match main.result {
        Some(_) => Some(body.temporary()?),
        None => None,
    };
    body.step(CfgOperation::Call {
        plan: CallOperation {
            callee: CallTarget::Body(number),
            class: main.class,
            recv,
            args: Items::new(alloc),
            value,
            fail: no_position(),
        },
    })?;
    Ok(value)
}
