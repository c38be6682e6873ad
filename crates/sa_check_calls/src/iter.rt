//! Iter calls and their sites.

use crate::calls::{Call, callee};
use crate::passing::{PassedArgs, pass_args};
use crate::receiver::Receiver;
use crate::{
    BodyOutput, CheckContext, CheckScope, CheckTables, CheckedExpr, ChosenFeature, Expected,
    first_iter,
};
use failure::{Failure, Invariant, known};
use sa_ast::{Pos, Rejection, Rule};
use sa_typed::{Site, TypedExpr};
use sqlite_items::Boxed;
use std::alloc::Global;

/// Whether a name is that of an iter.
pub fn is_iter_name(name: &[u8]) -> bool {
    matches!(name, [.., b'!'])
}

/// The number of the loop that an iter call belongs to: E35 outside a loop, and E38 where a protect is between the call and its loop.
pub(crate) fn innermost_loop(place: &CheckScope, pos: Pos) -> Result<u32, Rejection> {
    let Some(owner) = place.owner else {
        return Err(Rule::IterOutsideLoop.at(pos).into());
    };
    if place.guard > place.loops {
        return Err(Rule::NotAllowedInProtect.at(pos).into());
    }
    Ok(owner)
}

/// An iter call that isn't the head of a bind. It is refused as `call` says.
pub(crate) fn iter_call(
    context: CheckContext<'_>,
    built: &mut BodyOutput,
    form: Call<'_>,
    expected: Expected,
) -> Result<CheckedExpr, Rejection> {
    let owner = innermost_loop(context.place, form.pos)?;
    let callee = callee(context.view, built, &form, expected)?;
    in_loop(context.view, built, form, callee, owner)
}

/// The iter call of a callee, in the loop with the number `owner`.
fn in_loop(
    view: &CheckTables<'_>,
    built: &mut BodyOutput,
    form: Call<'_>,
    callee: ChosenFeature,
    owner: u32,
) -> Result<CheckedExpr, Rejection> {
    let called = known(callee.resolved.called(), Invariant::CheckedNumber)?;
    let Call {
        on,
        name: _name,
        args,
        pos,
    } = form;
    let passed = pass_args(view, built, args, callee.params.as_slice(), pos)?;
    let site = Site { owner, called, pos };
    at_site(view.alloc, built, site, on, passed, callee.result)
}

/// The iter call at a new site, whose result has the type `ty`.
fn at_site(
    alloc: Global,
    built: &mut BodyOutput,
    site: Site,
    on: Receiver,
    passed: PassedArgs,
    ty: Option<u32>,
) -> Result<CheckedExpr, Rejection> {
    if let Some(inner) = first_iter(on.iter(), passed.once) {
        return Err(Rule::IterInSelfOrOnce.at(inner).into());
    }
    let pos = site.pos;
    let number = new_site(built, site)?;
    Ok(iter_value(alloc, number, on, passed, ty, pos)?)
}

/// The iter call at a site, whose result has the type `ty`.
fn iter_value(
    alloc: Global,
    site: u32,
    on: Receiver,
    passed: PassedArgs,
    ty: Option<u32>,
    pos: Pos,
) -> Result<CheckedExpr, Failure> {
    let PassedArgs {
        args,
        iter: _iter,
        once: _once,
    } = passed;
    let on = Boxed::new(alloc, on.into_expr()?)?;
    Ok(CheckedExpr {
        core: TypedExpr::IterCall(site, on, args, pos),
        ty,
        iter: Some(pos),
    })
}

/// The number of a new site.
fn new_site(built: &mut BodyOutput, site: Site) -> Result<u32, Failure> {
    let number = known(
        u32::try_from(built.sites.len()).ok(),
        Invariant::CheckedCount,
    )?;
    built.sites.push(site)?;
    Ok(number)
}
