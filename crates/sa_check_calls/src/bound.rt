//! Calls of bound values: `call` of a bound routine, and `call!` of a bound iter.

use crate::check_tables::CheckTables;
use crate::checked_expr::BodyOutput;
use crate::choice::{ChosenFeature, ChosenParam};
use crate::expected::Expected;
use crate::target::Resolved;
use crate::types::{number_of, type_of};
use failure::{Failure, Invariant, broken, known};
use sa_ast::{ModeTy, Pos, Rejection, Rule, Ty};
use sa_overload::{ActualArg, CandidateSignature, fits};
use sa_typed::TypedCallee;
use sqlite_items::{Boxed, Items};
use std::alloc::Global;

/// The name by which the values of a type are called, where it is a bound type.
pub fn bound_name(view: &CheckTables<'_>, built: &BodyOutput, of: u32) -> Option<&'static [u8]> {
    match type_of(view, built, of)? {
        Ty::Rout(_, _, _) => Some(b"call"),
        Ty::Iter(_, _, _) => Some(b"call!"),
        Ty::Named(_, _, _) | Ty::Same(_) => None,
    }
}

/// The callee of a call of a bound value of the type with the number `of`: E31 unless number, modes, presence of a result and types fit.
pub fn bound_callee(
    view: &CheckTables<'_>,
    built: &BodyOutput,
    of: u32,
    seen: &[ActualArg],
    pos: Pos,
    expected: Expected,
) -> Result<ChosenFeature, Rejection> {
    let described = described_type(
        view.alloc,
        known(type_of(view, built, of), Invariant::CheckedNumber)?,
    )?;
    if !fits(&described, seen, expected.is_result(), view.program.edges()) {
        return Err(Rule::NoFeatureFits.at(pos).into());
    }
    Ok(ChosenFeature {
        resolved: Resolved::Called(TypedCallee::Bound),
        params: params(view, built, described.args.as_slice())?,
        result: number_of_result(view, built, &described.result)?,
    })
}

/// A bound type as overload resolution sees it.
fn described_type(alloc: Global, ty: &Ty) -> Result<CandidateSignature, Failure> {
    match ty {
        Ty::Rout(args, gives, _) | Ty::Iter(args, gives, _) => Ok(CandidateSignature {
            args: copied_args(alloc, args.as_slice())?,
            result: copied_result(alloc, gives)?,
        }),
        Ty::Named(_, _, _) | Ty::Same(_) => broken(Invariant::ExcludedForm),
    }
}

fn copied_args(alloc: Global, args: &[ModeTy]) -> Result<Items<ModeTy>, Failure> {
    let mut copies = Items::new(alloc);
    for arg in args {
        let ty = arg.ty.copy(alloc)?;
        copies.push(ModeTy { mode: arg.mode, ty })?;
    }
    Ok(copies)
}

fn copied_result(alloc: Global, gives: &Option<Boxed<Ty>>) -> Result<Option<Ty>, Failure> {
    match gives {
        None => Ok(None),
        Some(ty) => Ok(Some(ty.get().copy(alloc)?)),
    }
}

fn params(
    view: &CheckTables<'_>,
    built: &BodyOutput,
    args: &[ModeTy],
) -> Result<Items<ChosenParam>, Failure> {
    let mut params = Items::new(view.alloc);
    for arg in args {
        let ty = known(number_of(view, built, &arg.ty), Invariant::CheckedNumber)?;
        params.push(ChosenParam { mode: arg.mode, ty })?;
    }
    Ok(params)
}

fn number_of_result(
    view: &CheckTables<'_>,
    built: &BodyOutput,
    gives: &Option<Ty>,
) -> Result<Option<u32>, Failure> {
    match gives {
        None => Ok(None),
        Some(ty) => Ok(Some(known(number_of(view, built, ty), Invariant::CheckedNumber)?)),
    }
}
