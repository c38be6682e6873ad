//! The names of classes, each of which is defined once (E10), and the names of the parameters of a class.

ghost use Rattle.std.specs.Prelude.{◌≡◌, ◌≢◌, Err, IfOk, None, OnOk, Some, false, nat_eq, true};
ghost use Rattle.std.specs.Cmp.Lexicographic.{pointwise};
ghost use Rattle.indexmap.specs.IndexMap.{Updates};
ghost use Rattle.sa_include_names.specs.Names.{DifferInName};
ghost use Rattle.sa_ast.specs.declared.refusal.Rejection.TheVariants.{Refused};
ghost use Rattle.sa_ast.specs.declared.refusal.Refusal.{Refusal};
ghost use Rattle.sa_include_names.specs.Refusals.{RefusesRepeated};
ghost use Rattle.sa_include_names.specs.Tables.{HasNumbers, HasParams, hidden_in, number_in};

use failure::{Failure, Invariant};
use indexmap::{IndexMap, IndexSet};
use sa_ast::{Class, Name, Rejection, Rule, TypeParam};
use sa_graph::word;
use std::alloc::{AllocError, Global};

/// The number of each class, its index in the program's list, by its name.
#[derive(Drop)]
pub(crate) struct ClassNumbers {
    by_name: IndexMap<Name, u32>,
}

impl ClassNumbers {
    /// The numbers of the classes, whose names must differ. The later of two classes with one name is refused.
    #[tactic(auto, using(crate::proofs::Numbers::numbering))]
    pub(crate) fn new(alloc: Global, classes: &[Class]) -> Result<ClassNumbers, Rejection>
        ensures numbers { IfOk result (HasNumbers classes.now) }
        ensures differ { OnOk result (DifferInName classes.now) }
        ensures refused { (refusal : Refusal) → result ≡ Err (Refused refusal) → RefusesRepeated classes.now refusal }
    {
        let mut numbers = ClassNumbers {
            by_name: IndexMap::new(alloc),
        };
        for (place, class) in classes.iter().enumerate() {
            if !numbers.add(
                alloc,
                &class.name.name,
                word(place, Invariant::IncludeTable)?,
            )? {
                return Err(Rule::ClassDefinedTwice.at(class.name.pos).into());
            }
        }
        Ok(numbers)
    }

    /// Gives a name its number, and returns whether it had none.
    fn add(&mut self, alloc: Global, name: &Name, number: u32) -> Result<bool, Failure>
        ensures added { OnOk result (Updates (pointwise nat_eq) self.old.by_name self.new.by_name name.now (Some number)) }
        ensures new { IfOk result (λ new. new ≡ true → number_in self.old name.now ≡ None) }
        ensures old { IfOk result (λ new. new ≡ false → number_in self.old name.now ≢ None) }
    {
        let before = self.by_name.insert(name.copy(alloc)?, number)?;
        Ok(before.is_none())
    }

    /// The number of the class with this name.
    pub(crate) fn of(&self, name: &Name) -> Option<u32>
        ensures { result ≡ number_in self.now name.now }
    {
        self.by_name.get(name).copied()
    }
}

/// The names of a class's parameters. Inside the class such a name is the parameter, whatever class has the name, and written
/// with parameters of its own it is nothing.
#[derive(Drop)]
pub(crate) struct ParamNames {
    names: IndexSet<Name>,
}

impl ParamNames {
    pub(crate) fn new(alloc: Global, params: &[TypeParam]) -> Result<ParamNames, AllocError>
        ensures { IfOk result (HasParams params.now) }
    {
        let mut names = IndexSet::new(alloc);
        for param in params {
            names.insert(param.name.name.copy(alloc)?)?;
        }
        Ok(ParamNames { names })
    }

    /// Whether a parameter hides the class of this name.
    pub(crate) fn hides(&self, name: &Name) -> bool
        ensures { result ≡ hidden_in self.now name.now }
    {
        self.names.contains(name)
    }
}
