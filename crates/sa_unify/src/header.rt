//! The header of a class, in which types are spelled as nodes: a parameter is a variable, and SAME is the class with its
//! parameters.

ghost use Rattle.std.specs.Prelude.{◌≡◌, ◌+◌, ◌*◌, ◌++◌, IfOk, flat_map, length};
ghost use Rattle.sa_ast.specs.Types.{bare};
ghost use Rattle.sa_subst.specs.Substitution.{HasPlaces};
ghost use Rattle.sa_unify.specs.Headers.{arg_nodes, count_of, named_nodes, own_in, place_in, result_nodes, ty_nodes};
ghost use Rattle.sa_unify.specs.Spelled.{alone, variables};

use crate::names::Names;
use crate::pattern::Node;
use failure::{Failure, Invariant, known};
use sa_ast::{ModeTy, Name, Ty, TypeParam};
use sa_graph::word;
use sqlite_items::Boxed;
use std::alloc::Global;
use std::collections::HashMap;

/// The header of a class in which types are spelled as nodes.
#[derive(Drop)]
pub(crate) struct Header<'a> {
    pub alloc: Global,
    /// The class's own number.
    pub class: u32,
    pub name: &'a Name,
    /// How many parameters it has.
    pub arity: u32,
    /// The parameters by their names.
    pub params: HashMap<Name, u32>,
    pub names: &'a Names,
}

/// The indices of parameters by their names. Of two with one name the first counts.
pub(crate) fn param_places(
    alloc: Global,
    params: &[TypeParam],
) -> Result<HashMap<Name, u32>, Failure>
    ensures { IfOk result (λ table. HasPlaces table params.now 0) }
{
    let mut places = HashMap::new(alloc);
    let mut at = params.len();
    'params: while at > 0 {
        at -= 1;
        places.insert(
            params[at].name.name.copy(alloc)?,
            word(at, Invariant::SubtypeTable)?,
        )?;
    }
    Ok(places)
}

impl Header<'_> {
    /// Spells the variables of all parameters, in order.
    #[tactic(auto, using(crate::proofs::Headers::headers))]
    pub(crate) fn spell_params(&self, out: &mut Vec<Node>) -> Result<(), Failure>
        ensures { IfOk result (λ _. out.new.items ≡ out.old.items ++ variables self.now.arity) }
    {
        for number in 0..self.arity {
            out.push(Node::Variable(number))?;
        }
        Ok(())
    }

    /// Spells the class with its parameters.
    #[tactic(auto, using(crate::proofs::Headers::headers))]
    pub(crate) fn spell_own(&self, out: &mut Vec<Node>) -> Result<(), Failure>
        ensures { IfOk result (λ _. out.new.items ≡ out.old.items ++ own_in self.now) }
    {
        out.push(Node::Class(self.name.copy(self.alloc)?, self.arity))?;
        self.spell_params(out)
    }

    /// Spells a type.
    #[tactic(auto, using(crate::proofs::Headers::headers, crate::proofs::Headers::bound_types))]
    #[cycle(spell)]
    pub(crate) fn spell(&self, out: &mut Vec<Node>, ty: &Ty) -> Result<(), Failure>
        ensures { IfOk result (λ _. out.new.items ≡ out.old.items ++ ty_nodes self.now ty.now) }
    {
        match ty {
            Ty::Same(_) => self.spell_own(out),
            Ty::Named(name, args, _) => self.spell_named(out, name, args.as_slice()),
            Ty::Rout(args, result, _) => {
                let count = count_held(args.as_slice(), result)?;
                out.push(Node::Routine(count))?;
                self.spell_args(out, args.as_slice())?;
                self.spell_result(out, result)?;
                Ok(())
            }
            Ty::Iter(args, result, _) => {
                let count = count_held(args.as_slice(), result)?;
                out.push(Node::Iter(count))?;
                self.spell_args(out, args.as_slice())?;
                self.spell_result(out, result)?;
                Ok(())
            }
        }
    }

    /// Spells a name with its arguments. One with arguments is no parameter.
    #[tactic(auto, using(crate::proofs::Headers::headers))]
    #[cycle(spell)]
    fn spell_named(&self, out: &mut Vec<Node>, name: &Name, args: &[Ty]) -> Result<(), Failure>
        ensures { IfOk result (λ _. out.new.items ≡ out.old.items ++ named_nodes self.now name.now args.now) }
    {
        if args.is_empty() {
            return self.spell_alone(out, name);
        }
        out.push(Node::Class(
            name.copy(self.alloc)?,
            word(args.len(), Invariant::SubtypeTable)?,
        ))?;
        self.spell_types(out, args)
    }

    /// Spells a name without arguments.
    fn spell_alone(&self, out: &mut Vec<Node>, name: &Name) -> Result<(), Failure>
        ensures { IfOk result (λ _. out.new.items ≡ out.old.items ++ alone (place_in self.now name.now) name.now) }
    {
        match self.param(name) {
            Some(number) => {
                out.push(Node::Variable(number))?;
                Ok(())
            }
            None => {
                out.push(Node::Class(name.copy(self.alloc)?, 0))?;
                Ok(())
            }
        }
    }

    /// The number of the parameter with a name, if there is one.
    pub(crate) fn param(&self, name: &Name) -> Option<u32>
        ensures { result ≡ place_in self.now name.now }
    {
        self.params.get(name).copied()
    }

    /// Spells types in a row.
    #[tactic(auto, using(crate::proofs::Headers::headers))]
    #[cycle(spell)]
    pub(crate) fn spell_types(&self, out: &mut Vec<Node>, types: &[Ty]) -> Result<(), Failure>
        ensures { IfOk result (λ _. out.new.items ≡ out.old.items ++ flat_map (ty_nodes self.now) types.now) }
    {
        for ty in types {
            self.spell(out, ty)?;
        }
        Ok(())
    }

    #[tactic(auto, using(crate::proofs::Headers::headers))]
    #[cycle(spell)]
    fn spell_args(&self, out: &mut Vec<Node>, args: &[ModeTy]) -> Result<(), Failure>
        ensures { IfOk result (λ _. out.new.items ≡ out.old.items ++ flat_map (arg_nodes self.now) args.now) }
    {
        for arg in args {
            self.spell_arg(out, arg)?;
        }
        Ok(())
    }

    #[tactic(auto, using(crate::proofs::Headers::headers))]
    #[cycle(spell)]
    fn spell_arg(&self, out: &mut Vec<Node>, arg: &ModeTy) -> Result<(), Failure>
        ensures { IfOk result (λ _. out.new.items ≡ out.old.items ++ arg_nodes self.now arg.now) }
    {
        out.push(Node::Passed(arg.mode))?;
        self.spell(out, &arg.ty)
    }

    #[tactic(auto, using(crate::proofs::Headers::headers))]
    #[cycle(spell)]
    fn spell_result(&self, out: &mut Vec<Node>, of: &Option<Boxed<Ty>>) -> Result<(), Failure>
        ensures { IfOk result (λ _. out.new.items ≡ out.old.items ++ result_nodes self.now of.now) }
    {
        match of {
            None => Ok(()),
            Some(ty) => self.spell(out, ty.get()),
        }
    }
}

/// How many nodes a bound type with these arguments and this result has.
fn count_held(args: &[ModeTy], of: &Option<Boxed<Ty>>) -> Result<u32, Failure>
    ensures { IfOk result (λ count. count ≡ 2 * length args.now + count_of of.now) }
{
    let both = known(args.len().checked_mul(2), Invariant::SubtypeTable)?;
    match of {
        None => word(both, Invariant::SubtypeTable),
        Some(_) => word(
            known(both.checked_add(1), Invariant::SubtypeTable)?,
            Invariant::SubtypeTable,
        ),
    }
}
