//! The contracts of a program, found by the class and the feature that they are about, and which of them a feature has to keep.

ghost use Rattle.std.specs.Prelude.{◌≡◌, IfOk, None, OnOk, Some, if◌then◌else◌, nat_eq};
ghost use Rattle.std.specs.Option.{option_copied};
ghost use Rattle.indexmap.specs.IndexMap.{Updates};
ghost use Rattle.sa_contracts.specs.ContractTables.{HasContracts, HasOneMore, clauses_in, duties_in, invariant_in, plain_duties};
ghost use Rattle.sa_contracts.specs.ContractTables.{same_key};
ghost use Rattle.sa_contracts.specs.WovenClasses.{has_duties, is_iter_name, keeps_invariant};

use failure::{Failure, Invariant};
use indexmap::IndexMap;
use sa_ast::{Access, Condition, Contract, Feature, Name};
use std::alloc::Global;

/// A feature by the number of its class among the program's, and its own number among those that the class writes.
#[derive(Clone, Copy, Debug, PartialEq, Eq, Hash)]
pub(crate) struct FeatureKey {
    pub(crate) class: usize,
    pub(crate) feature: usize,
}

/// The clauses of a feature.
#[derive(Clone, Copy)]
struct Clauses<'a> {
    pre: Option<&'a Condition>,
    post: Option<&'a Condition>,
}

/// What a routine or an iter has to keep.
#[derive(Clone, Copy)]
pub(crate) struct FeatureContract<'a> {
    pub(crate) pre: Option<&'a Condition>,
    pub(crate) post: Option<&'a Condition>,
    /// The invariant of the class that writes it, where it is a public routine.
    pub(crate) invariant: Option<&'a Condition>,
}

impl<'a> FeatureContract<'a> {
    /// Whether there is something to keep.
    pub(crate) fn is_some(&self) -> bool
        ensures { result ≡ has_duties (plain_duties self.now) }
    {
        self.pre.is_some() || self.post.is_some() || self.invariant.is_some()
    }
}

/// The contracts of a program. Of two for one class or feature, the later counts.
#[derive(Drop)]
pub(crate) struct ContractTable<'a> {
    clauses: IndexMap<FeatureKey, Clauses<'a>>,
    /// By the number of the class.
    invariants: IndexMap<usize, &'a Condition>,
}

impl<'a> ContractTable<'a> {
    #[tactic(auto, using(crate::proofs::Tables::tables))]
    pub(crate) fn new(
        alloc: Global,
        contracts: &'a [Contract],
    ) -> Result<ContractTable<'a>, Failure>
        ensures { IfOk result (λ table. HasContracts table contracts.now) }
    {
        let mut table = ContractTable {
            clauses: IndexMap::new(alloc),
            invariants: IndexMap::new(alloc),
        };
        for contract in contracts {
            table.add(contract)?;
        }
        Ok(table)
    }

    #[tactic(auto, using(crate::proofs::Tables::tables))]
    fn add(&mut self, contract: &'a Contract) -> Result<(), Failure>
        ensures { OnOk result (HasOneMore self.old self.new contract.now) }
    {
        match contract {
            Contract::Clauses {
                class,
                feature,
                pre,
                post,
            } => {
                let place = FeatureKey {
                    class: *class as usize,
                    feature: *feature as usize,
                };
                let clauses = Clauses {
                    pre: pre.as_ref(),
                    post: post.as_ref(),
                };
                self.add_clauses(place, clauses)?;
                Ok(())
            }
            Contract::Invariant { class, holds } => {
                self.add_invariant(*class as usize, holds)?;
                Ok(())
            }
        }
    }

    fn add_clauses(&mut self, place: FeatureKey, clauses: Clauses<'a>) -> Result<(), Failure>
        ensures added { OnOk result (Updates same_key self.old.clauses self.new.clauses place (Some clauses.entry)) }
        ensures kept { self.new.invariants ≡ self.old.invariants }
    {
        self.clauses.insert(place, clauses)?;
        Ok(())
    }

    fn add_invariant(&mut self, class: usize, holds: &'a Condition) -> Result<(), Failure>
        ensures added { OnOk result (Updates nat_eq self.old.invariants self.new.invariants class (Some holds.entry)) }
        ensures kept { self.new.clauses ≡ self.old.clauses }
    {
        self.invariants.insert(class, holds)?;
        Ok(())
    }

    /// What a routine or an iter has to keep.
    pub(crate) fn of(&self, place: FeatureKey, feature: &Feature) -> FeatureContract<'a>
        ensures { plain_duties result ≡ duties_in self.now place.class place.feature feature.now }
    {
        let Clauses { pre, post } = self.clauses_at(place);
        let invariant = self.invariant_for(place.class, feature);
        FeatureContract {
            pre,
            post,
            invariant,
        }
    }

    /// The clauses of a feature.
    fn clauses_at(&self, place: FeatureKey) -> Clauses<'a>
        ensures { (option_copied result.pre, option_copied result.post) ≡ clauses_in self.now place.class place.feature }
    {
        match self.clauses.get(&place) {
            Some(clauses) => *clauses,
            None => Clauses {
                pre: None,
                post: None,
            },
        }
    }

    /// The invariant of the class with this number, where the feature keeps it.
    fn invariant_for(&self, class: usize, feature: &Feature) -> Option<&'a Condition>
        ensures { option_copied result ≡ (if keeps_invariant feature.now then invariant_in self.now class else None) }
    {
        if !keeps_invariant(feature) {
            return None;
        }
        self.invariants.get(&class).copied()
    }
}

/// Whether the feature keeps the invariant of its class: a public one that is no iter.
fn keeps_invariant(feature: &Feature) -> bool
    ensures { result ≡ keeps_invariant feature.now }
{
    matches!(feature.access, Access::Public) && !is_iter(&feature.name.name)
}

/// Whether a name is that of an iter.
pub(crate) fn is_iter(name: &Name) -> bool
    ensures { result ≡ is_iter_name name.now }
{
    name.as_slice().ends_with(b"!")
}
