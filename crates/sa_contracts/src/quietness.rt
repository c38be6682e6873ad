//! Which typed expressions are quiet: they only read, so that a program with them runs as one without them, except where they stop it.

ghost use Rattle.std.specs.Prelude.{◌≡◌, ◌&&◌};
ghost use Rattle.sa_typed.specs.Copy.{arg_of, args_of, expr_of};
ghost use Rattle.sa_contracts.specs.Quiet.{are_quiet_args, is_quiet, is_quiet_arg, is_quiet_builtin, is_quiet_call};
ghost use Rattle.sa_contracts.specs.Quiet.{is_quiet_target, reads_alone};

use sa_prelude::BuiltinFeature;
use sa_typed::{Target, TypedArg, TypedCallee, TypedExpr};

/// Whether an expression is quiet: it is made of literals, void values, `self`, variables, reads of attributes and of shareds, tests for
/// void, `and` and `or`, and calls of built-in features that create and change nothing.
#[tactic(auto, using(crate::proofs::QuietArgs::quiet))]
#[cycle(quiet)]
pub fn quiet(e: &TypedExpr) -> bool
    ensures { result ≡ is_quiet (expr_of e.now) }
{
    match e {
        TypedExpr::Int(_)
        | TypedExpr::Bool(_)
        | TypedExpr::Char(_)
        | TypedExpr::Text(_)
        | TypedExpr::VoidValue(_)
        | TypedExpr::SelfRef
        | TypedExpr::Var(_) => true,
        TypedExpr::IsVoid(of) => quiet(of.get()),
        TypedExpr::And(first, second) | TypedExpr::Or(first, second) => {
            quiet(first.get()) && quiet(second.get())
        }
        TypedExpr::Call(called, on, args, _) => {
            if !is_quiet_call(*called) {
                return false;
            }
            quiet(on.get()) && are_quiet_args(args.as_slice())
        }
        TypedExpr::Reversed(target, first, second, _) => {
            if !is_quiet_builtin(*target) {
                return false;
            }
            quiet(first.get()) && quiet(second.get())
        }
        TypedExpr::Exception
        | TypedExpr::New(_, _)
        | TypedExpr::NewArray(_, _, _)
        | TypedExpr::Array(_, _, _)
        | TypedExpr::IterCall(_, _, _, _)
        | TypedExpr::Bind(_, _, _, _, _)
        | TypedExpr::Box(_, _, _) => false,
    }
}

/// Whether the arguments are quiet: all are values.
#[tactic(auto, using(crate::proofs::QuietArgs::quiet))]
#[cycle(quiet)]
fn are_quiet_args(args: &[TypedArg]) -> bool
    ensures { result ≡ are_quiet_args (args_of args.now) }
{
    for arg in args {
        if !is_quiet_arg(arg) {
            return false;
        }
    }
    true
}

#[tactic(auto, using(crate::proofs::QuietArgs::quiet))]
#[cycle(quiet)]
fn is_quiet_arg(arg: &TypedArg) -> bool
    ensures { result ≡ is_quiet_arg (arg_of arg.now) }
{
    match arg {
        TypedArg::Value(_, value) => quiet(value),
        TypedArg::Variable(_, _) | TypedArg::Open => false,
    }
}

/// Whether a call is quiet by its callee, which is statically known.
fn is_quiet_call(called: TypedCallee) -> bool
    ensures { result ≡ is_quiet_call called }
{
    match called {
        TypedCallee::Static(target, _) => is_quiet_target(target),
        TypedCallee::Dispatch(_) | TypedCallee::Bound => false,
    }
}

/// Whether a target reads an attribute or a shared, or is a built-in feature that creates and changes nothing.
fn is_quiet_target(target: Target) -> bool
    ensures { result ≡ is_quiet_target target }
{
    match target {
        Target::Get(_) | Target::GetShared(_) => true,
        Target::Builtin(_) => is_quiet_builtin(target),
        Target::Feature(_) | Target::Set(_) | Target::SetShared(_) => false,
    }
}

/// Whether a target is a built-in feature that creates and changes nothing.
fn is_quiet_builtin(target: Target) -> bool
    ensures { result ≡ is_quiet_builtin target }
{
    match target {
        Target::Builtin(feature) => reads_alone(feature),
        _ => false,
    }
}

/// Whether a built-in feature creates no object, changes nothing, and neither writes output nor reads input.
fn reads_alone(feature: BuiltinFeature) -> bool
    ensures { result ≡ reads_alone feature }
{
    match feature {
        BuiltinFeature::BoolIsEq
        | BuiltinFeature::BoolNot
        | BuiltinFeature::IntPlus
        | BuiltinFeature::IntMinus
        | BuiltinFeature::IntTimes
        | BuiltinFeature::IntNegate
        | BuiltinFeature::IntDiv
        | BuiltinFeature::IntMod
        | BuiltinFeature::IntIsEq
        | BuiltinFeature::IntIsLt
        | BuiltinFeature::IntBand
        | BuiltinFeature::IntBor
        | BuiltinFeature::IntBxor
        | BuiltinFeature::IntChar
        | BuiltinFeature::CharIsEq
        | BuiltinFeature::CharIsLt
        | BuiltinFeature::CharInt
        | BuiltinFeature::StrSize
        | BuiltinFeature::StrAget
        | BuiltinFeature::SysObEq
        | BuiltinFeature::ArefAsize
        | BuiltinFeature::ArefAget => true,
        BuiltinFeature::IntStr
        | BuiltinFeature::CharStr
        | BuiltinFeature::StrCat
        | BuiltinFeature::StrSubstring
        | BuiltinFeature::StrOf
        | BuiltinFeature::OutPut
        | BuiltinFeature::OutPutInt
        | BuiltinFeature::OutPutChar
        | BuiltinFeature::InGetByte
        | BuiltinFeature::ArefAset
        | BuiltinFeature::ArrayCreate => false,
    }
}
