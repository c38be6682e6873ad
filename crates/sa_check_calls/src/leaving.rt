//! `while!`, `until!` and `break!`, which exit the innermost loop and are built in.

use crate::checking::check_value;
use crate::iter::innermost_loop;
use crate::synthesised::SynthesisedArg;
use crate::{BodyOutput, CheckContext, CheckTables, Expected};
use sa_ast::{ExprReceiver, Name, Pos, Rejection, Rule};
use sa_instantiate::BOOL;
use sa_typed::{LoopExit, TypedExpr, TypedStmt};

/// A call that exits the innermost loop.
#[derive(Clone, Copy, Debug, PartialEq, Eq)]
pub enum LeavingCall {
    Break,
    While,
    Until,
}

impl LeavingCall {
    /// The one of this name, where no receiver is written.
    pub fn of_name(name: &Name) -> Option<LeavingCall> {
        match name.as_slice() {
            b"break!" => Some(LeavingCall::Break),
            b"while!" => Some(LeavingCall::While),
            b"until!" => Some(LeavingCall::Until),
            _ => None,
        }
    }

    /// The one that a call is, by its receiver and its name.
    pub fn of_call(on: &ExprReceiver, name: &Name) -> Option<LeavingCall> {
        match on {
            ExprReceiver::Implied => LeavingCall::of_name(name),
            ExprReceiver::Of(_) | ExprReceiver::OfClass(_) => None,
        }
    }
}

/// The statement that exits the innermost loop, with its arguments typed: the test of `while!` and `until!`. It is refused at `pos`:
///
/// - E35, E38: it is outside a loop, or a protect is between it and its loop.
/// - E31: `break!` has an argument, or another one hasn't exactly one.
/// - E33: its argument isn't a BOOL.
pub fn leave_form(
    context: CheckContext<'_>,
    built: &BodyOutput,
    call: LeavingCall,
    args: Vec<SynthesisedArg>,
    pos: Pos,
) -> Result<TypedStmt, Rejection> {
    innermost_loop(context.place, pos)?;
    let exit = match call {
        LeavingCall::Break => break_form(args, pos)?,
        LeavingCall::While => LoopExit::While(test(context.view, built, args, pos)?),
        LeavingCall::Until => LoopExit::Until(test(context.view, built, args, pos)?),
    };
    Ok(TypedStmt::ExitLoop(exit))
}

/// `break!`: E31 where it has an argument.
fn break_form(args: Vec<SynthesisedArg>, pos: Pos) -> Result<LoopExit, Rejection> {
    if args.is_empty() {
        Ok(LoopExit::Break)
    } else {
        Err(Rule::NoFeatureFits.at(pos).into())
    }
}

/// The test of `while!` and `until!`: E31 unless it is the only argument, or where it is one that the call writes; E33 unless
/// it is a BOOL.
fn test(
    view: &CheckTables<'_>,
    built: &BodyOutput,
    args: Vec<SynthesisedArg>,
    pos: Pos,
) -> Result<TypedExpr, Rejection> {
    let SynthesisedArg::Value(value) = only(args, pos)? else {
        return Err(Rule::NoFeatureFits.at(pos).into());
    };
    let value = check_value(view, built, value, Expected::Type(BOOL))?;
    value.into_bool(pos)
}

/// The only argument: E31 where there is none, or more than one.
fn only(args: Vec<SynthesisedArg>, pos: Pos) -> Result<SynthesisedArg, Rejection> {
    let mut args = args;
    let last = args.pop();
    match last {
        Some(arg) => {
            if args.is_empty() {
                Ok(arg)
            } else {
                Err(Rule::NoFeatureFits.at(pos).into())
            }
        }
        None => Err(Rule::NoFeatureFits.at(pos).into()),
    }
}
