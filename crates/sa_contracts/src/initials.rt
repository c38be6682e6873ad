//! The `initial`s of a `post`: each is replaced by a variable, which is declared at the start of the body with the value of its argument.

ghost use Rattle.std.specs.Prelude.{◌≡◌, ◌++◌, [], ◌∷◌, IfOk, OnOk, length, nat_eq};
ghost use Rattle.std.specs.Cmp.Lexicographic.{pointwise};
ghost use Rattle.sa_ast.specs.declared.expr.Expr.TheVariants as expr;
ghost use Rattle.sa_contracts.specs.InitialValues.{call_declared, call_replaced, initial_word, value_of, variable_declared};
ghost use Rattle.sa_contracts.specs.InitialValues.{declared_by, declared_by_argument, declared_by_arguments, declared_by_exprs};
ghost use Rattle.sa_contracts.specs.InitialValues.{value_in, variable_name, variable_read};
ghost use Rattle.sa_contracts.specs.InitialValues.{declared_by_option, declared_by_receiver, replaced, replaced_argument};
ghost use Rattle.sa_contracts.specs.InitialValues.{replaced_arguments, replaced_exprs, replaced_option, replaced_receiver};

use crate::budget::Budget;
use crate::copy::{copy_expr, copy_name, copy_optional_type, copy_type};
use failure::Failure;
use itoa::Buffer;
use sa_ast::{Expr, ExprArg, ExprReceiver, Local, Name, Operator, Pos, Stmt, Ty};
use sqlite_items::{Boxed, Items};
use std::alloc::{AllocError, Global};

/// The test of a condition with a variable in place of each `initial`, whose declarations are appended to those in the list. The variables
/// are numbered by their indices in it.
#[tactic(auto, using(crate::proofs::TakenAt::forms))]
#[cycle(taking)]
pub(crate) fn take_initials(
    alloc: Global,
    e: &Expr,
    declared: &mut Items<Stmt>,
    budget: &mut Budget,
) -> Result<Expr, Failure>
    ensures form { IfOk result (λ form. form ≡ replaced e.now declared.old) }
    ensures declarations { OnOk result (declared.new ≡ declared_by e.now declared.old) }
{
    match e {
        Expr::Int(_, _)
        | Expr::Bool(_, _)
        | Expr::Char(_, _)
        | Expr::Text(_, _)
        | Expr::SelfRef(_)
        | Expr::Void(_)
        | Expr::Exception(_) => copy_expr(alloc, e, budget),
        Expr::IsVoid(tested, pos) => {
            Ok(Expr::IsVoid(take_in_boxed(alloc, tested, declared, budget)?, *pos))
        }
        Expr::New(count, pos) => {
            Ok(Expr::New(take_in_optional(alloc, count, declared, budget)?, *pos))
        }
        Expr::Create(ty, args, pos) => {
            take_in_create(alloc, args.as_slice(), ty, *pos, declared, budget)
        }
        Expr::Items(items, pos) => {
            let items = take_in_exprs(alloc, items.as_slice(), declared, budget)?;
            Ok(Expr::Items(items, *pos))
        }
        Expr::Call(on, name, args, pos) => {
            let on = take_in_receiver(alloc, on, declared, budget)?;
            take_in_call(alloc, args.as_slice(), on, name, *pos, declared, budget)
        }
        Expr::Binary(op, left, right, pos) => {
            let left = take_in_boxed(alloc, left, declared, budget)?;
            take_in_binary(alloc, right, *op, left, *pos, declared, budget)
        }
        Expr::Unary(op, of, pos) => {
            Ok(Expr::Unary(*op, take_in_boxed(alloc, of, declared, budget)?, *pos))
        }
        Expr::Index(of, at, pos) => {
            let of = take_in_optional(alloc, of, declared, budget)?;
            take_in_index(alloc, at.as_slice(), of, *pos, declared, budget)
        }
        Expr::Bind(call, pos) => {
            Ok(Expr::Bind(take_in_boxed(alloc, call, declared, budget)?, *pos))
        }
    }
}

/// The `#` with these arguments.
#[cycle(taking)]
fn take_in_create(
    alloc: Global,
    args: &[ExprArg],
    ty: &Option<Ty>,
    pos: Pos,
    declared: &mut Items<Stmt>,
    budget: &mut Budget,
) -> Result<Expr, Failure>
    ensures form { IfOk result (λ form. form ≡ expr.Create ty.now (replaced_arguments args.now declared.old) pos) }
    ensures declarations { OnOk result (declared.new ≡ declared_by_arguments args.now declared.old) }
{
    let args = take_in_args(alloc, args, declared, budget)?;
    Ok(Expr::Create(copy_optional_type(alloc, ty, budget)?, args, pos))
}

/// The call with these arguments, whose receiver is done.
#[cycle(taking)]
fn take_in_call(
    alloc: Global,
    args: &[ExprArg],
    on: ExprReceiver,
    name: &Name,
    pos: Pos,
    declared: &mut Items<Stmt>,
    budget: &mut Budget,
) -> Result<Expr, Failure>
    ensures form { IfOk result (λ form. form ≡ call_replaced name.now on (replaced_arguments args.now declared.old) pos
        (length (declared_by_arguments args.now declared.old))) }
    ensures declarations { OnOk result (declared.new ≡ call_declared name.now (replaced_arguments args.now declared.old) pos
        (declared_by_arguments args.now declared.old)) }
{
    let args = take_in_args(alloc, args, declared, budget)?;
    taken_call(alloc, name, on, args, pos, declared, budget)
}

/// The operation with this right operand, whose left operand is done.
#[cycle(taking)]
fn take_in_binary(
    alloc: Global,
    right: &Boxed<Expr>,
    op: Operator,
    left: Boxed<Expr>,
    pos: Pos,
    declared: &mut Items<Stmt>,
    budget: &mut Budget,
) -> Result<Expr, Failure>
    ensures form { IfOk result (λ form. form ≡ expr.Binary op left (replaced right.now declared.old) pos) }
    ensures declarations { OnOk result (declared.new ≡ declared_by right.now declared.old) }
{
    Ok(Expr::Binary(
        op,
        left,
        take_in_boxed(alloc, right, declared, budget)?,
        pos,
    ))
}

/// The element at these indices, where the expression that has the elements is done.
#[cycle(taking)]
fn take_in_index(
    alloc: Global,
    at: &[Expr],
    of: Option<Boxed<Expr>>,
    pos: Pos,
    declared: &mut Items<Stmt>,
    budget: &mut Budget,
) -> Result<Expr, Failure>
    ensures form { IfOk result (λ form. form ≡ expr.Index of (replaced_exprs at.now declared.old) pos) }
    ensures declarations { OnOk result (declared.new ≡ declared_by_exprs at.now declared.old) }
{
    Ok(Expr::Index(of, take_in_exprs(alloc, at, declared, budget)?, pos))
}

#[cycle(taking)]
fn take_in_boxed(
    alloc: Global,
    e: &Boxed<Expr>,
    declared: &mut Items<Stmt>,
    budget: &mut Budget,
) -> Result<Boxed<Expr>, Failure>
    ensures form { IfOk result (λ form. form ≡ replaced e.now declared.old) }
    ensures declarations { OnOk result (declared.new ≡ declared_by e.now declared.old) }
{
    let taken = take_initials(alloc, e.get(), declared, budget)?;
    Ok(Boxed::new(alloc, taken)?)
}

#[tactic(auto, using(crate::proofs::TakenAt::options))]
#[cycle(taking)]
fn take_in_optional(
    alloc: Global,
    e: &Option<Boxed<Expr>>,
    declared: &mut Items<Stmt>,
    budget: &mut Budget,
) -> Result<Option<Boxed<Expr>>, Failure>
    ensures form { IfOk result (λ form. form ≡ replaced_option e.now declared.old) }
    ensures declarations { OnOk result (declared.new ≡ declared_by_option e.now declared.old) }
{
    match e {
        None => Ok(None),
        Some(e) => {
            let taken = take_initials(alloc, e.get(), declared, budget)?;
            Ok(Some(Boxed::new(alloc, taken)?))
        }
    }
}

#[tactic(auto, using(crate::proofs::TakenAt::exprs))]
#[cycle(taking)]
fn take_in_exprs(
    alloc: Global,
    list: &[Expr],
    declared: &mut Items<Stmt>,
    budget: &mut Budget,
) -> Result<Items<Expr>, Failure>
    ensures form { IfOk result (λ form. form ≡ replaced_exprs list.now declared.old) }
    ensures declarations { OnOk result (declared.new ≡ declared_by_exprs list.now declared.old) }
{
    let mut taken = Items::new(alloc);
    for e in list {
        taken.push(take_initials(alloc, e, declared, budget)?)?;
    }
    Ok(taken)
}

#[tactic(auto, using(crate::proofs::TakenAt::receivers))]
#[cycle(taking)]
fn take_in_receiver(
    alloc: Global,
    on: &ExprReceiver,
    declared: &mut Items<Stmt>,
    budget: &mut Budget,
) -> Result<ExprReceiver, Failure>
    ensures form { IfOk result (λ form. form ≡ replaced_receiver on.now declared.old) }
    ensures declarations { OnOk result (declared.new ≡ declared_by_receiver on.now declared.old) }
{
    match on {
        ExprReceiver::Implied => Ok(ExprReceiver::Implied),
        ExprReceiver::Of(e) => Ok(ExprReceiver::Of(take_in_boxed(alloc, e, declared, budget)?)),
        ExprReceiver::OfClass(ty) => Ok(ExprReceiver::OfClass(copy_type(alloc, ty, budget)?)),
    }
}

#[tactic(auto, using(crate::proofs::TakenAt::arguments))]
#[cycle(taking)]
fn take_in_args(
    alloc: Global,
    args: &[ExprArg],
    declared: &mut Items<Stmt>,
    budget: &mut Budget,
) -> Result<Items<ExprArg>, Failure>
    ensures form { IfOk result (λ form. form ≡ replaced_arguments args.now declared.old) }
    ensures declarations { OnOk result (declared.new ≡ declared_by_arguments args.now declared.old) }
{
    let mut taken = Items::new(alloc);
    for arg in args {
        taken.push(take_in_arg(alloc, arg, declared, budget)?)?;
    }
    Ok(taken)
}

#[tactic(auto, using(crate::proofs::TakenAt::argument))]
#[cycle(taking)]
fn take_in_arg(
    alloc: Global,
    arg: &ExprArg,
    declared: &mut Items<Stmt>,
    budget: &mut Budget,
) -> Result<ExprArg, Failure>
    ensures form { IfOk result (λ form. form ≡ replaced_argument arg.now declared.old) }
    ensures declarations { OnOk result (declared.new ≡ declared_by_argument arg.now declared.old) }
{
    match arg {
        ExprArg::Value(mode, e) => {
            Ok(ExprArg::Value(*mode, take_initials(alloc, e, declared, budget)?))
        }
        ExprArg::Unbound(ty, pos) => Ok(ExprArg::Unbound(
            copy_optional_type(alloc, ty, budget)?,
            *pos,
        )),
    }
}

/// A call of this name, whose receiver and arguments are done: the variable of an `initial`, or the call.
fn taken_call(
    alloc: Global,
    name: &Name,
    on: ExprReceiver,
    args: Items<ExprArg>,
    pos: Pos,
    declared: &mut Items<Stmt>,
    budget: &mut Budget,
) -> Result<Expr, Failure>
    ensures form { IfOk result (λ form. form ≡ call_replaced name.now on args pos (length declared.old)) }
    ensures declarations { OnOk result (declared.new ≡ call_declared name.now args pos declared.old) }
{
    if is_initial(name) {
        return declare_initial(alloc, args, pos, declared);
    }
    Ok(Expr::Call(on, copy_name(alloc, name, budget)?, args, pos))
}

/// The word.
const INITIAL: &[u8] = b"initial";

/// Whether a call of this name is an `initial`. No feature has this name, since it is a word.
fn is_initial(name: &Name) -> bool
    ensures { result ≡ pointwise nat_eq name.now initial_word }
{
    name.as_slice() == INITIAL
}

/// Declares the variable of an `initial` with the value of its argument, and gives the variable.
fn declare_initial(
    alloc: Global,
    args: Items<ExprArg>,
    pos: Pos,
    declared: &mut Items<Stmt>,
) -> Result<Expr, Failure>
    ensures form { IfOk result (λ form. form ≡ variable_read (length declared.old) pos) }
    ensures declarations { OnOk result
        (declared.new ≡ declared.old ++ variable_declared (length declared.old) (value_of args) pos ∷ []) }
{
    let number = declared.len();
    let variable = initial_name(alloc, number)?;
    declared.push(declaration(alloc, number, value_of(args), pos)?)?;
    Ok(Expr::Call(ExprReceiver::Implied, variable, Items::new(alloc), pos))
}

/// The variable with this number, declared with the value.
fn declaration(
    alloc: Global,
    number: usize,
    value: Option<Expr>,
    pos: Pos,
) -> Result<Stmt, AllocError>
    ensures { IfOk result (λ declared. declared ≡ variable_declared number value pos) }
{
    let name = initial_name(alloc, number)?;
    let mut names = Items::new(alloc);
    names.push(Local { name, pos })?;
    Ok(Stmt::Declare(names, None, value))
}

/// The value of the last argument.
#[tactic(auto, using(crate::proofs::TakenAt::values))]
fn value_of(args: Items<ExprArg>) -> Option<Expr>
    ensures { result ≡ value_of args }
{
    let mut args = args;
    match args.pop() {
        Some(last) => value_in(last),
        None => None,
    }
}

/// The value of an argument.
#[tactic(auto, using(crate::proofs::TakenAt::values))]
fn value_in(argument: ExprArg) -> Option<Expr>
    ensures { result ≡ value_in argument }
{
    match argument {
        ExprArg::Value(_, value) => Some(value),
        ExprArg::Unbound(_, _) => None,
    }
}

/// The name of the variable with this number, which no source can spell.
fn initial_name(alloc: Global, number: usize) -> Result<Name, AllocError>
    ensures { IfOk result (λ name. name ≡ variable_name number) }
{
    let mut name = Vec::from_slice(alloc, b"initial!")?;
    name.extend_from_slice(Buffer::new().format(number).as_bytes())?;
    Name::from_slice(alloc, name.as_slice())
}
