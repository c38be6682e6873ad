//! The arguments of a call: as overload resolution sees them, and as they are passed to the parameters of the callee.

use crate::checking::checked_to;
use crate::synthesised::{Synthesised, SynthesisedArg};
use crate::{BodyOutput, CheckTables, ChosenParam, first_iter, type_of};
use failure::{Failure, Invariant, known};
use sa_ast::{Mode, Pos, Rejection, Rule, Ty};
use sa_overload::ActualArg;
use sa_typed::TypedArg;
use sqlite_items::Items;

/// The arguments of a call as overload resolution sees them. A contextual one has no type yet.
pub fn actual_args(
    view: &CheckTables<'_>,
    built: &BodyOutput,
    args: &[SynthesisedArg],
) -> Result<Items<ActualArg>, Failure> {
    let mut seen = Items::new(view.alloc);
    for arg in args {
        seen.push(seen_argument(view, built, arg)?)?;
    }
    Ok(seen)
}

fn seen_argument(
    view: &CheckTables<'_>,
    built: &BodyOutput,
    arg: &SynthesisedArg,
) -> Result<ActualArg, Failure> {
    let ty = seen_type(view, built, own_type(arg)?)?;
    Ok(ActualArg {
        mode: arg.mode(),
        ty,
        left: arg.is_open(),
    })
}

/// The number of the type that an argument has by itself, if it has one.
fn own_type(arg: &SynthesisedArg) -> Result<Option<u32>, Failure> {
    match arg {
        SynthesisedArg::Value(Synthesised::Typed(value, _)) => Ok(Some(known(
            value.ty,
            Invariant::CheckedNumber,
        )?)),
        SynthesisedArg::Value(_) => Ok(None),
        SynthesisedArg::Variable(_, variable) => Ok(Some(variable.ty)),
        SynthesisedArg::Open(ty) => Ok(*ty),
    }
}

/// The type with a number, if there is one.
fn seen_type(
    view: &CheckTables<'_>,
    built: &BodyOutput,
    number: Option<u32>,
) -> Result<Option<Ty>, Failure> {
    match number {
        None => Ok(None),
        Some(number) => Ok(Some(known(type_of(view, built, number), Invariant::CheckedNumber)?.copy(
            view.alloc,
        )?)),
    }
}

/// The arguments of a call, passed to their parameters.
#[derive(Drop)]
pub struct PassedArgs {
    pub args: Items<TypedArg>,
    /// The first iter call in them.
    pub iter: Option<Pos>,
    /// The first one in those of `once` parameters.
    pub once: Option<Pos>,
}

/// An argument, passed to its parameter.
#[derive(Drop)]
struct PassedArg {
    arg: TypedArg,
    iter: Option<Pos>,
    /// Whether a contextual one has the type of its parameter.
    fits: bool,
}

impl PassedArgs {
    fn add(&mut self, passed: PassedArg, mode: Mode) -> Result<(), Failure> {
        let PassedArg {
            arg,
            iter,
            fits: _fits,
        } = passed;
        self.args.push(arg)?;
        self.iter = first_iter(self.iter, iter);
        if mode == Mode::Once {
            self.once = first_iter(self.once, iter);
        }
        Ok(())
    }
}

/// The arguments of a call, passed to the parameters of the callee to which it resolved, contextual ones from left to right. A contextual
/// one that has another type than its parameter doesn't fit any more: E31 at the call.
#[cycle(check)]
pub fn pass_args(
    view: &CheckTables<'_>,
    built: &BodyOutput,
    args: Vec<SynthesisedArg>,
    params: &[ChosenParam],
    pos: Pos,
) -> Result<PassedArgs, Rejection> {
    let mut all = PassedArgs {
        args: Items::new(view.alloc),
        iter: None,
        once: None,
    };
    let mut fit = true;
    for arg in args {
        let param = *known(params.get(all.args.len()), Invariant::CheckedNumber)?;
        let passed = passed_argument(view, built, arg, param)?;
        fit = fit && passed.fits;
        all.add(passed, param.mode)?;
    }
    if !fit {
        return Err(Rule::NoFeatureFits.at(pos).into());
    }
    Ok(all)
}

#[cycle(check)]
fn passed_argument(
    view: &CheckTables<'_>,
    built: &BodyOutput,
    arg: SynthesisedArg,
    param: ChosenParam,
) -> Result<PassedArg, Rejection> {
    match arg {
        SynthesisedArg::Value(value) => passed_value(view, built, value, param),
        SynthesisedArg::Variable(_, variable) => Ok(PassedArg {
            arg: TypedArg::Variable(param.mode, variable.number),
            iter: None,
            fits: true,
        }),
        SynthesisedArg::Open(_) => Ok(PassedArg {
            arg: TypedArg::Open,
            iter: None,
            fits: true,
        }),
    }
}

#[cycle(check)]
fn passed_value(
    view: &CheckTables<'_>,
    built: &BodyOutput,
    value: Synthesised,
    param: ChosenParam,
) -> Result<PassedArg, Rejection> {
    let is_typed = value.is_typed();
    let value = checked_to(view, built, value, param.ty)?;
    Ok(PassedArg {
        arg: TypedArg::Value(param.mode, value.core),
        iter: value.iter,
        fits: is_typed || value.from == param.ty,
    })
}
