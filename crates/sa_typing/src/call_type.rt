//! The call types of bound values and of signatures, with types given by their numbers.

ghost use Rattle.std.specs.Prelude.{◌≡◌, IfOk, map};
ghost use Rattle.sa_ast.specs.Types.{all_bare, all_bare_args, bare, option_bare};
ghost use Rattle.sa_typing.specs.CallTypes.{AreNumbers, bound_call_type, characters_in, is_char, is_char_alone, is_char_array, is_iter_name};
ghost use Rattle.sa_typing.specs.CallTypes.{number_of, parameters_of, result_number, call_type_with, signature_call_type, call_type_of_bound};

use crate::expr_type::ParamType;
use failure::{Failure, Invariant};
use sa_ast::{ModeTy, Ty};
use sa_graph::word;
use sa_typed::{TypeDef, TypedSignature};
use sqlite_items::{Boxed, Items};
use std::alloc::Global;
use std::collections::HashMap;

/// A call type: the parameters and result of a call, and whether it is one of an iter.
#[derive(Drop)]
pub struct CallType {
    pub iter: bool,
    pub params: Items<ParamType>,
    /// The number of the result's type, if it has one.
    pub result: Option<u32>,
}

/// The numbers of the types of a program.
#[derive(Drop)]
pub(crate) struct Numbers<'a> {
    by_type: HashMap<Ty, u32>,
    types: &'a [TypeDef],
}

impl<'a> Numbers<'a> {
    /// The numbers of these types. Of two types that are the same, the first counts.
    #[tactic(auto, using(crate::proofs::Numbered::numbers))]
    pub(crate) fn make(alloc: Global, types: &'a [TypeDef]) -> Result<Numbers<'a>, Failure>
        ensures numbers { IfOk result AreNumbers }
        ensures types { IfOk result (λ numbers. numbers.types.now ≡ types.now) }
    {
        let mut by_type = HashMap::new(alloc);
        let mut at = types.len();
        'types: while at > 0 {
            at -= 1;
            let number = word(at, Invariant::CheckedCount)?;
            by_type.insert(types[at].ty.copy(alloc)?, number)?;
        }
        Ok(Numbers { by_type, types })
    }

    /// The number of a type, where the program has it.
    fn of(&self, ty: &Ty) -> Option<u32>
        requires { AreNumbers self.now }
        ensures { result ≡ number_of self.now.types.now (bare ty.now) }
    {
        self.by_type.get(ty).copied()
    }

    /// The call types of the bound types, by type.
    #[tactic(auto, using(crate::proofs::Numbered::shapes))]
    pub(crate) fn bound_call_types(&self, alloc: Global) -> Result<Vec<Option<CallType>>, Failure>
        requires { AreNumbers self.now }
        ensures { IfOk result (λ shapes. shapes.items
            ≡ map (call_type_of_bound self.now.types.now) self.now.types.now) }
    {
        let mut shapes = Vec::new(alloc);
        for info in self.types {
            shapes.push(self.bound_call_type(alloc, &info.ty)?)?;
        }
        Ok(shapes)
    }

    /// The call type of a bound type. Another type has none, nor has one whose types the program lacks.
    #[tactic(auto, using(sa_ast::proofs::BareTypes::bares))]
    fn bound_call_type(&self, alloc: Global, ty: &Ty) -> Result<Option<CallType>, Failure>
        requires { AreNumbers self.now }
        ensures { IfOk result (λ shape. shape ≡ bound_call_type self.now.types.now (bare ty.now)) }
    {
        match ty {
            Ty::Rout(args, gives, _) => {
                self.shape(alloc, false, args.as_slice(), self.boxed_number(gives))
            }
            Ty::Iter(args, gives, _) => {
                self.shape(alloc, true, args.as_slice(), self.boxed_number(gives))
            }
            Ty::Named(_, _, _) => Ok(None),
            Ty::Same(_) => Ok(None),
        }
    }

    /// The call types of signatures.
    #[tactic(auto, using(crate::proofs::Numbered::shapes))]
    pub(crate) fn signature_call_types(
        &self,
        alloc: Global,
        sigs: &[TypedSignature],
    ) -> Result<Vec<Option<CallType>>, Failure>
        requires { AreNumbers self.now }
        ensures { IfOk result (λ shapes. shapes.items ≡ map (signature_call_type self.now.types.now) sigs.now) }
    {
        let mut shapes = Vec::new(alloc);
        for sig in sigs {
            shapes.push(self.signature_call_type(alloc, sig)?)?;
        }
        Ok(shapes)
    }

    /// The call type of a signature, unless the program lacks one of its types.
    fn signature_call_type(
        &self,
        alloc: Global,
        sig: &TypedSignature,
    ) -> Result<Option<CallType>, Failure>
        requires { AreNumbers self.now }
        ensures { IfOk result (λ shape. shape ≡ signature_call_type self.now.types.now sig.now) }
    {
        let iter = is_iter_name(sig.sig.name.as_slice());
        let gives = self.result_number(&sig.sig.result);
        self.shape(alloc, iter, sig.sig.args.as_slice(), gives)
    }

    /// The number of a result's type: `Some(None)` without a result, and `None` where the program lacks the type.
    fn result_number(&self, gives: &Option<Ty>) -> Option<Option<u32>>
        requires { AreNumbers self.now }
        ensures { result ≡ result_number self.now.types.now (option_bare gives.now) }
    {
        match gives {
            None => Some(None),
            Some(ty) => Some(Some(self.of(ty)?)),
        }
    }

    /// The same of a result that is boxed.
    fn boxed_number(&self, gives: &Option<Boxed<Ty>>) -> Option<Option<u32>>
        requires { AreNumbers self.now }
        ensures { result ≡ result_number self.now.types.now (option_bare gives.now) }
    {
        match gives {
            None => Some(None),
            Some(ty) => Some(Some(self.of(ty.get())?)),
        }
    }

    /// The call type of these arguments and a result of this number, where the program has the types.
    fn shape(
        &self,
        alloc: Global,
        iter: bool,
        args: &[ModeTy],
        gives: Option<Option<u32>>,
    ) -> Result<Option<CallType>, Failure>
        requires { AreNumbers self.now }
        ensures { IfOk result (λ shape. shape
            ≡ call_type_with iter (parameters_of self.now.types.now (all_bare_args args.now)) gives) }
    {
        let Some(result) = gives else {
            return Ok(None);
        };
        let Some(params) = self.parameters(alloc, args)? else {
            return Ok(None);
        };
        Ok(Some(CallType {
            iter,
            params,
            result,
        }))
    }

    /// These arguments as parameters, where the program has their types.
    #[tactic(auto, using(crate::proofs::Numbered::parameters))]
    fn parameters(
        &self,
        alloc: Global,
        args: &[ModeTy],
    ) -> Result<Option<Items<ParamType>>, Failure>
        requires { AreNumbers self.now }
        ensures { IfOk result (λ params. params ≡ parameters_of self.now.types.now (all_bare_args args.now)) }
    {
        let mut params = Items::new(alloc);
        for arg in args {
            let Some(ty) = self.of(&arg.ty) else {
                return Ok(None);
            };
            params.push(ParamType { mode: arg.mode, ty })?;
        }
        Ok(Some(params))
    }
}

/// Whether a name is that of an iter.
fn is_iter_name(name: &[u8]) -> bool
    ensures { result ≡ is_iter_name name.now }
{
    name.ends_with(b"!")
}

/// The number of ARRAY{CHAR}, where it is a type of the program.
#[tactic(auto, using(crate::proofs::Numbered::arrays))]
pub(crate) fn characters_of(types: &[TypeDef]) -> Result<Option<u32>, Failure>
    ensures { IfOk result (λ found. found ≡ characters_in 0 types.now) }
{
    for (number, info) in types.iter().enumerate() {
        if is_char_array(&info.ty) {
            return Ok(Some(word(number, Invariant::CheckedCount)?));
        }
    }
    Ok(None)
}

/// Whether a type is ARRAY{CHAR}.
#[tactic(auto, using(sa_ast::proofs::BareTypes::bares))]
fn is_char_array(ty: &Ty) -> bool
    ensures { result ≡ is_char_array (bare ty.now) }
{
    match ty {
        Ty::Named(name, given, _) => {
            name.as_slice() == b"ARRAY".as_slice() && is_char_alone(given.as_slice())
        }
        Ty::Same(_) => false,
        Ty::Rout(_, _, _) => false,
        Ty::Iter(_, _, _) => false,
    }
}

/// Whether these types are CHAR alone.
#[tactic(auto, using(crate::proofs::Numbered::named))]
fn is_char_alone(given: &[Ty]) -> bool
    ensures { result ≡ is_char_alone (all_bare given.now) }
{
    given.len() == 1 && is_char(&given[0])
}

#[tactic(auto, using(sa_ast::proofs::BareTypes::bares, crate::proofs::Numbered::named))]
fn is_char(ty: &Ty) -> bool
    ensures { result ≡ is_char (bare ty.now) }
{
    match ty {
        Ty::Named(name, given, _) => name.as_slice() == b"CHAR".as_slice() && given.is_empty(),
        Ty::Same(_) => false,
        Ty::Rout(_, _, _) => false,
        Ty::Iter(_, _, _) => false,
    }
}
