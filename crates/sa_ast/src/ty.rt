//! Types as they are written. Two types are equal where they are equal but for their positions.

ghost use Rattle.std.specs.Prelude.{◌≡◌, ◌↔◌, IfOk, IsTrue, fold};
ghost use Rattle.std.specs.Cmp.{on_equiv, partial_equiv_from_equiv};
ghost use Rattle.std.specs.Cmp.Lexicographic.{pointwise};
ghost use Rattle.std.specs.Hash.{on_Alike, same_Alike};
ghost use Rattle.std.specs.Ordering.{on};
ghost use Rattle.sa_ast.specs.TypeEquality.{same_arg, same_result, same_type};
ghost use Rattle.sa_ast.specs.TypeEquality.{same_arg_Decides, same_arg_equiv, same_type_Decides, same_type_equiv};
ghost use Rattle.sa_ast.specs.TypeHash.{arg_writes, args_writes, result_writes, type_writes, types_writes};
ghost use Rattle.sa_ast.specs.Types.{SameArg, SameType, all_bare, all_bare_args, bare, bare_arg, option_bare};

use crate::name::Name;
use crate::pos::Pos;
use sqlite_items::{Boxed, Items};
use std::alloc::{AllocError, Global};
use std::hash::{Hash, Hasher};

/// The mode in which an argument is passed.
#[derive(Clone, Copy, Debug, PartialEq, Eq, Hash)]
pub enum Mode {
    In,
    Out,
    Inout,
    Once,
}

/// The mode and the type of an argument.
#[cycle(ty)]
#[derive(Drop)]
pub struct ModeTy {
    pub mode: Mode,
    pub ty: Ty,
}

/// A type. Its position is that of its first token.
#[cycle(ty)]
#[derive(Drop)]
pub enum Ty {
    /// A class with its type arguments, or a type parameter.
    Named(Name, Items<Ty>, Pos),
    /// The class that has the feature.
    Same(Pos),
    /// A bound routine by its arguments and its result.
    Rout(Items<ModeTy>, Option<Boxed<Ty>>, Pos),
    /// A bound iter by its arguments and its result.
    Iter(Items<ModeTy>, Option<Boxed<Ty>>, Pos),
}

impl Ty {
    /// A copy of the type, with the same positions. It fails only where memory runs out.
    #[cycle(copy)]
    pub fn copy(&self, alloc: Global) -> Result<Ty, AllocError>
        ensures { IfOk result (λ ty. ty ≡ self.now) }
    {
        Ok(match self {
            Ty::Named(name, params, pos) => Ty::Named(
                name.copy(alloc)?,
                copy_params(alloc, params.as_slice())?,
                *pos,
            ),
            Ty::Same(pos) => Ty::Same(*pos),
            Ty::Rout(args, result, pos) => Ty::Rout(
                copy_args(alloc, args.as_slice())?,
                copy_result(alloc, result)?,
                *pos,
            ),
            Ty::Iter(args, result, pos) => Ty::Iter(
                copy_args(alloc, args.as_slice())?,
                copy_result(alloc, result)?,
                *pos,
            ),
        })
    }
}

#[cycle(copy)]
fn copy_params(alloc: Global, params: &[Ty]) -> Result<Items<Ty>, AllocError>
    ensures { IfOk result (λ copies. copies ≡ params.now) }
{
    let mut copies = Items::new(alloc);
    for ty in params {
        copies.push(ty.copy(alloc)?)?;
    }
    Ok(copies)
}

#[cycle(copy)]
fn copy_args(alloc: Global, args: &[ModeTy]) -> Result<Items<ModeTy>, AllocError>
    ensures { IfOk result (λ copies. copies ≡ args.now) }
{
    let mut copies = Items::new(alloc);
    for arg in args {
        let ty = arg.ty.copy(alloc)?;
        copies.push(ModeTy { mode: arg.mode, ty })?;
    }
    Ok(copies)
}

#[cycle(copy)]
fn copy_result(alloc: Global, of: &Option<Boxed<Ty>>) -> Result<Option<Boxed<Ty>>, AllocError>
    ensures { IfOk result (λ copy. copy ≡ of.now) }
{
    match of {
        None => Ok(None),
        Some(ty) => Ok(Some(Boxed::new(alloc, ty.get().copy(alloc)?)?)),
    }
}

impl PartialEq for Ty {
    ghost eq = { on bare same_type };

    ghost laws = { partial_equiv_from_equiv (on_equiv bare same_type_equiv) };

    #[tactic(auto, using(crate::proofs::TypeTests::decided))]
    fn eq(&self, other: &Ty) -> bool
        ensures value { result ≡ on bare same_type self.now other.now }
        ensures same { IsTrue result ↔ SameType self.now other.now }
    {
        is_same_type(self, other)
    }
}

impl Eq for Ty {
    ghost laws = { on_equiv bare same_type_equiv };
}

impl PartialEq for ModeTy {
    ghost eq = { on bare_arg same_arg };

    ghost laws = { partial_equiv_from_equiv (on_equiv bare_arg same_arg_equiv) };

    #[tactic(auto, using(crate::proofs::TypeTests::decided))]
    fn eq(&self, other: &ModeTy) -> bool
        ensures value { result ≡ on bare_arg same_arg self.now other.now }
        ensures same { IsTrue result ↔ SameArg self.now other.now }
    {
        is_same_arg(self, other)
    }
}

impl Eq for ModeTy {
    ghost laws = { on_equiv bare_arg same_arg_equiv };
}

#[tactic(auto, using(crate::proofs::TypeTests::tests))]
#[cycle(same)]
fn is_same_type(one: &Ty, other: &Ty) -> bool
    ensures { result ≡ on bare same_type one.now other.now }
{
    match (one, other) {
        (Ty::Named(name, params, _), Ty::Named(other_name, other_params, _)) => {
            name == other_name && are_same_params(params.as_slice(), other_params.as_slice())
        }
        (Ty::Same(_), Ty::Same(_)) => true,
        (Ty::Rout(args, result, _), Ty::Rout(other_args, other_result, _)) => {
            are_same_args(args.as_slice(), other_args.as_slice())
                && is_same_result(result, other_result)
        }
        (Ty::Iter(args, result, _), Ty::Iter(other_args, other_result, _)) => {
            are_same_args(args.as_slice(), other_args.as_slice())
                && is_same_result(result, other_result)
        }
        _ => false,
    }
}

#[tactic(auto, using(crate::proofs::Pointwise::places))]
#[cycle(same)]
fn are_same_params(one: &[Ty], other: &[Ty]) -> bool
    ensures { result ≡ pointwise (on bare same_type) one.now other.now }
{
    if one.len() != other.len() {
        return false;
    }
    for (i, ty) in one.iter().enumerate() {
        if !is_same_type(ty, &other[i]) {
            return false;
        }
    }
    true
}

#[tactic(auto, using(crate::proofs::Pointwise::places))]
#[cycle(same)]
fn are_same_args(one: &[ModeTy], other: &[ModeTy]) -> bool
    ensures { result ≡ pointwise (on bare_arg same_arg) one.now other.now }
{
    if one.len() != other.len() {
        return false;
    }
    for (i, arg) in one.iter().enumerate() {
        if !is_same_arg(arg, &other[i]) {
            return false;
        }
    }
    true
}

#[tactic(auto, using(crate::proofs::TypeTests::tests))]
#[cycle(same)]
fn is_same_arg(one: &ModeTy, other: &ModeTy) -> bool
    ensures { result ≡ on bare_arg same_arg one.now other.now }
{
    one.mode == other.mode && is_same_type(&one.ty, &other.ty)
}

#[cycle(same)]
fn is_same_result(one: &Option<Boxed<Ty>>, other: &Option<Boxed<Ty>>) -> bool
    ensures { result ≡ on option_bare same_result one.now other.now }
{
    match (one, other) {
        (None, None) => true,
        (Some(one), Some(other)) => is_same_type(one.get(), other.get()),
        _ => false,
    }
}

/// The number that is hashed where no more types come. What is hashed of a type begins with another number.
const END: u8 = 4;

impl Hash for Ty {
    ghost hash_input = { λ ty. type_writes (bare ty) };

    ghost respects_eq = { (on_Alike bare (same_Alike type_writes same_type_Decides)).fed };

    fn hash<H: Hasher>(&self, state: &mut H) {
        hash_type(self, state)
    }
}

impl Hash for ModeTy {
    ghost hash_input = { λ arg. arg_writes (bare_arg arg) };

    ghost respects_eq = { (on_Alike bare_arg (same_Alike arg_writes same_arg_Decides)).fed };

    fn hash<H: Hasher>(&self, state: &mut H) {
        hash_arg(self, state)
    }
}

#[tactic(auto, using(crate::proofs::TypeHashes::hashes))]
#[cycle(hash)]
fn hash_type<H: Hasher>(ty: &Ty, state: &mut H)
    ensures { state.new ≡ fold H.write state.old (type_writes (bare ty.now)) }
{
    match ty {
        Ty::Named(name, params, _) => {
            state.write_u8(0);
            name.hash(state);
            hash_params(params.as_slice(), state);
        }
        Ty::Same(_) => state.write_u8(1),
        Ty::Rout(args, result, _) => {
            state.write_u8(2);
            hash_args(args.as_slice(), state);
            hash_result(result, state);
        }
        Ty::Iter(args, result, _) => {
            state.write_u8(3);
            hash_args(args.as_slice(), state);
            hash_result(result, state);
        }
    }
}

#[tactic(auto, using(crate::proofs::TypeHashes::hashes))]
#[cycle(hash)]
fn hash_params<H: Hasher>(params: &[Ty], state: &mut H)
    ensures { state.new ≡ fold H.write state.old (types_writes (all_bare params.now)) }
{
    for ty in params {
        hash_type(ty, state);
    }
    state.write_u8(END);
}

#[tactic(auto, using(crate::proofs::TypeHashes::hashes))]
#[cycle(hash)]
fn hash_args<H: Hasher>(args: &[ModeTy], state: &mut H)
    ensures { state.new ≡ fold H.write state.old (args_writes (all_bare_args args.now)) }
{
    for arg in args {
        hash_arg(arg, state);
    }
    state.write_u8(END);
}

#[tactic(auto, using(crate::proofs::TypeHashes::hashes))]
#[cycle(hash)]
fn hash_arg<H: Hasher>(arg: &ModeTy, state: &mut H)
    ensures { state.new ≡ fold H.write state.old (arg_writes (bare_arg arg.now)) }
{
    arg.mode.hash(state);
    hash_type(&arg.ty, state);
}

#[tactic(auto, using(crate::proofs::TypeHashes::hashes))]
#[cycle(hash)]
fn hash_result<H: Hasher>(of: &Option<Boxed<Ty>>, state: &mut H)
    ensures { state.new ≡ fold H.write state.old (result_writes (option_bare of.now)) }
{
    match of {
        None => state.write_u8(END),
        Some(ty) => hash_type(ty.get(), state),
    }
}
