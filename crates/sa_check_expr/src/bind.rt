//! Binds: a call some of whose arguments are passed later.

use failure::{Failure, Invariant, known};
use sa_ast::{Expr, ModeTy, Pos, Rejection, Rule, Ty};
use sa_check_calls::{
    BodyOutput, Call, Candidate, CheckContext, CheckScope, CheckTables, CheckedExpr, LeavingCall,
    PassedArgs, Receiver, SynthesisedArg, actual_args, bound_candidate, described_choice,
    description, first_iter, is_iter_name, number_of, pass_args, position, variable_named,
};
use sa_overload::CandidateSignature;
use sa_typed::{TypedCallee, TypedExpr};
use sqlite_items::{Boxed, Items};
use std::alloc::Global;

/// `bind(..)` of a head with its subexpressions typed. It is refused at `pos` with E45:
///
/// - unless the head is a call by name that isn't a variable, `call`, `call!` or a built-in iter;
/// - if an argument of the head is `out` or `inout`;
/// - if the head resolves to a const.
///
/// The head is refused at its name as another call is, except that it may be outside a loop and within a protect.
pub fn bind_form(
    context: CheckContext<'_>,
    built: &mut BodyOutput,
    head: &Expr,
    on: Receiver,
    args: Vec<SynthesisedArg>,
    pos: Pos,
) -> Result<CheckedExpr, Rejection> {
    let Some(name) = bindable_name(context.place, head) else {
        return Err(Rule::BadBind.at(pos).into());
    };
    if writes(args.as_slice()) {
        return Err(Rule::BadBind.at(pos).into());
    }
    let form = Call {
        on,
        name,
        args,
        pos: position(head),
    };
    bind(context.view, built, form, pos)
}

/// The name of a head that is a call by name and can be bound: it isn't a variable, `call`, `call!`, `while!`, `until!` or
/// `break!`.
fn bindable_name<'e>(place: &CheckScope, head: &'e Expr) -> Option<&'e [u8]> {
    let Expr::Call(on, name, _, _) = head else {
        return None;
    };
    let word = name.as_slice();
    if variable_named(place, head).is_some()
        || LeavingCall::of_call(on, name).is_some()
        || matches!(word, b"call" | b"call!")
    {
        return None;
    }
    Some(word)
}

/// Whether the call writes a variable.
fn writes(args: &[SynthesisedArg]) -> bool {
    args.iter()
        .any(|arg| matches!(arg, SynthesisedArg::Variable(_, _)))
}

/// The callee of the head of a bind, and the number of the type of the bound value.
#[derive(Clone, Copy)]
struct Head {
    of: u32,
    candidate: Candidate,
    called: TypedCallee,
    ty: u32,
}

/// The bound value of a head.
fn bind(
    view: &CheckTables<'_>,
    built: &mut BodyOutput,
    form: Call<'_>,
    pos: Pos,
) -> Result<CheckedExpr, Rejection> {
    let head = head_of(view, built, &form, pos)?;
    let Call {
        on,
        name: _name,
        args,
        pos: at,
    } = form;
    let passed = head_passed(view, built, head, args, at)?;
    Ok(bound_value(view.alloc, head, on, passed, pos)?)
}

/// What a head resolves to: E45 where that is a const.
fn head_of(
    view: &CheckTables<'_>,
    built: &mut BodyOutput,
    form: &Call<'_>,
    pos: Pos,
) -> Result<Head, Rejection> {
    let of = form.on.ty(view, form.pos)?;
    let candidate = head_candidate(view, built, of, form)?;
    let Some(called) = head_called(view, of, candidate)? else {
        return Err(Rule::BadBind.at(pos).into());
    };
    let ty = bound_number(view, built, form, candidate, pos)?;
    Ok(Head {
        of,
        candidate,
        called,
        ty,
    })
}

/// The candidate to which a head resolves.
fn head_candidate(
    view: &CheckTables<'_>,
    built: &BodyOutput,
    of: u32,
    form: &Call<'_>,
) -> Result<Candidate, Rejection> {
    let seen = actual_args(view, built, form.args.as_slice())?;
    bound_candidate(view, of, form.name, seen.as_slice(), form.pos)
}

/// What a candidate calls. A const calls nothing.
fn head_called(
    view: &CheckTables<'_>,
    of: u32,
    candidate: Candidate,
) -> Result<Option<TypedCallee>, Failure> {
    Ok(described_choice(view, of, candidate)?.resolved.called())
}

/// The arguments of a head, passed to the parameters of its callee.
fn head_passed(
    view: &CheckTables<'_>,
    built: &BodyOutput,
    head: Head,
    args: Vec<SynthesisedArg>,
    at: Pos,
) -> Result<PassedArgs, Rejection> {
    let choice = described_choice(view, head.of, head.candidate)?;
    pass_args(view, built, args, choice.params.as_slice(), at)
}

/// The bind of the head's callee.
fn bound_value(
    alloc: Global,
    head: Head,
    on: Receiver,
    passed: PassedArgs,
    pos: Pos,
) -> Result<CheckedExpr, Failure> {
    let PassedArgs {
        args,
        iter,
        once: _once,
    } = passed;
    let iter = first_iter(on.iter(), iter);
    let on = Boxed::new(alloc, on.into_expr()?)?;
    Ok(CheckedExpr {
        core: TypedExpr::Bind(head.called, on, args, head.ty, pos),
        ty: Some(head.ty),
        iter,
    })
}

/// The number of the type of a bound value.
fn bound_number(
    view: &CheckTables<'_>,
    built: &mut BodyOutput,
    form: &Call<'_>,
    candidate: Candidate,
    pos: Pos,
) -> Result<u32, Failure> {
    let ty = bound_type(view, form, candidate, pos)?;
    number_of_bound(view, built, ty)
}

/// The type of a bound value at the position of its bind: over the open arguments in order, each with the mode and the type
/// of its parameter. The types keep the positions at which the candidate writes them.
fn bound_type(
    view: &CheckTables<'_>,
    form: &Call<'_>,
    candidate: Candidate,
    pos: Pos,
) -> Result<Ty, Failure> {
    let CandidateSignature {
        args: params,
        result: gives,
    } = description(view, candidate)?;
    let open = open_params(view.alloc, form.args.as_slice(), params.as_slice())?;
    let gives = match gives {
        None => None,
        Some(ty) => Some(Boxed::new(view.alloc, ty)?),
    };
    if is_iter_name(form.name) {
        Ok(Ty::Iter(open, gives, pos))
    } else {
        Ok(Ty::Rout(open, gives, pos))
    }
}

/// The parameters whose arguments are left open.
fn open_params(
    alloc: Global,
    args: &[SynthesisedArg],
    params: &[ModeTy],
) -> Result<Items<ModeTy>, Failure> {
    let mut open = Items::new(alloc);
    for (arg, param) in args.iter().zip(params) {
        if arg.is_open() {
            let ty = param.ty.copy(alloc)?;
            open.push(ModeTy {
                mode: param.mode,
                ty,
            })?;
        }
    }
    Ok(open)
}

/// The number of the type of a bound value, which is a new one where it is no needed instance and no bind has made it.
fn number_of_bound(view: &CheckTables<'_>, built: &mut BodyOutput, ty: Ty) -> Result<u32, Failure> {
    if let Some(number) = number_of(view, built, &ty) {
        return Ok(number);
    }
    let place = known(
        u32::try_from(built.bound.len()).ok(),
        Invariant::CheckedCount,
    )?;
    built.bound.insert(ty, ())?;
    known(
        view.program.count().checked_add(place),
        Invariant::CheckedCount,
    )
}
