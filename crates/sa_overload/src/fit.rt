//! Which candidates of a call fit it: number, modes and presence of a result agree, and each argument's type is assignable to the
//! type of its parameter.

ghost use Rattle.std.specs.Prelude.{◌≡◌};
ghost use Rattle.std.specs.Cmp.Lexicographic.{pointwise};
ghost use Rattle.sa_overload.specs.Fit.{is_fit, is_written_alike, takes, goes_to};

use sa_ast::{Mode, ModeTy, Ty};
use sa_subtypes::SubtypeRelation;
use sqlite_items::Items;

/// A candidate of a call, which is a feature or a signature: its parameters in order, and its result if it has one.
#[derive(Drop)]
pub struct CandidateSignature {
    pub args: Items<ModeTy>,
    pub result: Option<Ty>,
}

/// An argument of a call.
#[derive(Drop)]
pub struct ActualArg {
    /// `Out` and `Inout` as they are written at the call, and `In` if neither is.
    pub mode: Mode,
    /// Its type. An argument that takes its type from its context has none yet, and fits every type.
    pub ty: Option<Ty>,
    /// Whether it is left open, as in a `bind`. Such an argument fits every mode.
    pub left: bool,
}

/// Whether a candidate fits a call with these arguments, whose context expects a result or expects none.
pub fn fits(
    cand: &CandidateSignature,
    args: &[ActualArg],
    expects_result: bool,
    edges: &SubtypeRelation,
) -> bool
    ensures { result ≡ is_fit edges.now args.now expects_result cand.now }
{
    cand.result.is_some() == expects_result && take_all(cand.args.as_slice(), args, edges)
}

/// Whether there are as many arguments as parameters, and each parameter takes its argument.
#[tactic(auto, using(crate::proofs::Pairs::pairs))]
fn take_all(params: &[ModeTy], args: &[ActualArg], edges: &SubtypeRelation) -> bool
    ensures { result ≡ pointwise (takes edges.now) params.now args.now }
{
    if params.len() != args.len() {
        return false;
    }
    for (i, param) in params.iter().enumerate() {
        if !takes(param, &args[i], edges) {
            return false;
        }
    }
    true
}

/// Whether a parameter takes an argument, by its mode and its type.
fn takes(param: &ModeTy, arg: &ActualArg, edges: &SubtypeRelation) -> bool
    ensures { result ≡ takes edges.now param.now arg.now }
{
    if !arg.left && !is_written_alike(arg.mode, param.mode) {
        return false;
    }
    match &arg.ty {
        None => true,
        Some(ty) => takes_type(param, ty, edges),
    }
}

/// Whether a parameter takes an argument of this type.
fn takes_type(param: &ModeTy, given: &Ty, edges: &SubtypeRelation) -> bool
    ensures { result ≡ goes_to edges.now param.now.mode param.now.ty given.now }
{
    match param.mode {
        Mode::In | Mode::Once => edges.is_sub(given, &param.ty),
        Mode::Inout => *given == param.ty,
        Mode::Out => edges.is_sub(&param.ty, given),
    }
}

/// Whether arguments of the two modes are written alike at a call, where nothing is written before those of `in` and `once`.
fn is_written_alike(one: Mode, other: Mode) -> bool
    ensures { result ≡ is_written_alike one other }
{
    match one {
        Mode::In | Mode::Once => other == Mode::In || other == Mode::Once,
        Mode::Out | Mode::Inout => one == other,
    }
}
