//! The adapter of an implementation of a signature by an iter. It is entered for an instance at its start and at each resumption, and does
//! both by one operation. The receiver and the `once` arguments are passed at a start alone, so they are unboxed and boxed there alone.

use crate::adapter::{receiver, value_of};
use crate::arguments::{Arguments, pass, widen_back, widened, widened_value};
use crate::passing::{ArgConversion, passing_of, widened_result};
use crate::signatures::AdapterCall;
use failure::{Failure, Invariant, known};
use sa_ast::Mode;
use sa_cfg::{CallOperand, CfgBody, CfgOperation, Terminator};
use sa_cfg_builder::BodyBuilder;
use sa_typing::ParamType;
use sqlite_items::Items;
use std::alloc::Global;

/// What a start has prepared: the variable that holds the receiver as its own class has it, and for each argument the variable that is
/// passed for it, boxed where it is a `once` one.
#[derive(Drop)]
struct StartedAdapter {
    recv: u32,
    vars: Items<u32>,
}

/// The adapter of an implementation by the iter with this index, in a body that has begun.
pub(crate) fn adapter_iter(
    alloc: Global,
    implemented: AdapterCall<'_>,
    iter: u32,
    body: &mut BodyBuilder,
) -> Result<CfgBody, Failure> {
    let begun = begin(alloc, implemented, body)?;
    let passed = pass_all(alloc, implemented, &begun, body)?;
    let Arguments { args, backs } = passed;
    let value = value_of(implemented, body)?;
    let quit = body.temporary()?;
    body.step(CfgOperation::Enter {
        body: iter,
        recv: begun.recv,
        args,
        value,
        quit,
    })?;
    end_or_go_on(alloc, body, quit)?;
    let value = widened_value(value, widened_result(implemented), body)?;
    widen_back(backs.as_slice(), body)?;
    let exit = Terminator::Suspend {
        value,
        resume: None,
    };
    body.finish(alloc, exit)
}

/// Takes what a start passes. The block in which a start and a resumption go on is open afterwards.
fn begin(
    alloc: Global,
    implemented: AdapterCall<'_>,
    body: &mut BodyBuilder,
) -> Result<StartedAdapter, Failure> {
    let test = body.temporary()?;
    body.step(CfgOperation::HasFrame { to: test })?;
    let fresh = body.block(alloc)?;
    let joined = body.block(alloc)?;
    let branch = Terminator::Branch {
        test,
        yes: joined,
        no: fresh,
    };
    body.end(alloc, branch, fresh)?;
    let recv = receiver(implemented, body)?;
    let vars = once_arguments(alloc, implemented, body)?;
    body.end(alloc, Terminator::Jump(joined), joined)?;
    Ok(StartedAdapter { recv, vars })
}

/// The variables of the arguments, those of the `once` ones as the implementation takes them.
fn once_arguments(
    alloc: Global,
    implemented: AdapterCall<'_>,
    body: &mut BodyBuilder,
) -> Result<Items<u32>, Failure> {
    let mut vars = Items::new(alloc);
    for (place, param) in implemented.params().iter().enumerate() {
        vars.push(once_argument(implemented, place, *param, body)?)?;
    }
    Ok(vars)
}

/// The variable of the argument at this index.
fn once_argument(
    implemented: AdapterCall<'_>,
    place: usize,
    param: ParamType,
    body: &mut BodyBuilder,
) -> Result<u32, Failure> {
    let var = known(u32::try_from(place).ok(), Invariant::CheckedCount)?;
    if param.mode != Mode::Once {
        return Ok(var);
    }
    match passing_of(implemented, place, param) {
        ArgConversion::WidenedIn(ty) => widened(var, ty, body),
        _ => Ok(var),
    }
}

/// The arguments as the iter takes them. Those that aren't `once` are boxed anew.
fn pass_all(
    alloc: Global,
    implemented: AdapterCall<'_>,
    begun: &StartedAdapter,
    body: &mut BodyBuilder,
) -> Result<Arguments, Failure> {
    let mut passed = Arguments::none(alloc);
    let vars = begun.vars.as_slice();
    for (place, (param, var)) in implemented.params().iter().zip(vars.iter()).enumerate() {
        if param.mode == Mode::Once {
            pass_begun(*var, &mut passed)?;
        } else {
            pass(implemented, place, *param, body, &mut passed)?;
        }
    }
    Ok(passed)
}

/// One more argument, which was prepared at the start.
fn pass_begun(var: u32, passed: &mut Arguments) -> Result<(), Failure> {
    passed.args.push(CallOperand {
        mode: Mode::Once,
        var: Some(var),
    })?;
    Ok(())
}

/// Ends the instance where the iter has ended. The block where it has yielded is open afterwards.
fn end_or_go_on(alloc: Global, body: &mut BodyBuilder, quit: u32) -> Result<(), Failure> {
    let ended = body.block(alloc)?;
    let yielded = body.block(alloc)?;
    let branch = Terminator::Branch {
        test: quit,
        yes: ended,
        no: yielded,
    };
    body.end(alloc, branch, ended)?;
    body.end(alloc, Terminator::Quit, yielded)
}
