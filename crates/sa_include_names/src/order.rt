//! A topological order, in which each class is after those that it includes. There is none if a class includes itself, by itself
//! or by others (E15).

ghost use Rattle.std.specs.Prelude.{◌≡◌, ◌≤◌, Err, IfOk, MatchOption, OnOk, count_by};
ghost use Rattle.sa_graph.specs.Paths.{NoneBefore, node_count};
ghost use Rattle.sa_ast.specs.declared.refusal.Rejection.TheVariants.{Refused};
ghost use Rattle.sa_ast.specs.declared.refusal.Refusal.{Refusal};
ghost use Rattle.sa_ast.specs.declared.rule.Rule.TheVariants.{ClassNotUsable};
ghost use Rattle.sa_ast.specs.Types.{bare};
ghost use Rattle.sa_include_names.specs.Includes.{AreArrays, IsSecond, brings_array, number_named};
ghost use Rattle.sa_include_names.specs.Refusals.{AreIncludesRight, RefusesNames};
ghost use Rattle.sa_include_names.specs.Tables.{CycleAt, HasNumbers, IsNamed, MisusedAt, NoneMisused, number_in};

use crate::graph::{array_parts, include_graph, is_marked};
use crate::header::first_misused;
use crate::names::ClassNumbers;
use failure::{Failure, Invariant};
use sa_ast::{Class, Include, Pos, Rejection, Rule, Ty};
use sa_graph::Graph;
use std::alloc::Global;

/// Which classes of a program include which. A class has the number of its index in the program's list.
#[derive(Drop)]
pub struct Includes {
    numbers: ClassNumbers,
    order: Vec<u32>,
    /// For each class whether it is AREF or reaches it by its includes.
    arrays: Vec<bool>,
}

impl Includes {
    /// The includes of these classes, whose headers and include clauses are right.
    ///
    /// # Errors
    ///
    /// E10 at the name of the first class, in source order, whose name an earlier one has; then E12 at the first type in a
    /// header or an include clause, in source order and a type before those inside it, whose name isn't allowed there; then
    /// E15 at the name of the first class, in text order, that includes itself, by itself or by others. `NoMemory` where
    /// memory runs out, and `Broken` where the number of a class isn't below their count, which no program causes.
    #[tactic(auto, using(crate::proofs::Verdicts::verdicts))]
    pub fn new(alloc: Global, classes: &[Class]) -> Result<Includes, Rejection>
        ensures numbers { IfOk result (λ includes. HasNumbers classes.now includes.numbers) }
        ensures arrays { IfOk result (λ includes. AreArrays classes.now includes.arrays.items) }
        ensures right { OnOk result (AreIncludesRight classes.now) }
        ensures refused { (refusal : Refusal) → result ≡ Err (Refused refusal) → RefusesNames classes.now refusal }
    {
        let numbers = ClassNumbers::new(alloc, classes)?;
        let graph = include_graph(alloc, classes, &numbers)?;
        let arrays = array_parts(alloc, classes, &graph, &numbers)?;
        names_stand(alloc, classes, &numbers, &arrays)?;
        let order = include_order(alloc, classes, &graph)?;
        Ok(Includes {
            numbers,
            order,
            arrays,
        })
    }

    /// The numbers of all classes, in an order in which each class is after those that it includes.
    pub fn order(&self) -> &[u32] {
        self.order.as_slice()
    }

    /// The class that the type of an include clause names.
    #[tactic(auto, using(sa_ast::proofs::BareTypes::bares))]
    pub fn included(&self, ty: &Ty) -> Option<u32>
        ensures { result ≡ number_named (number_in self.now.numbers) (bare ty.now) }
    {
        match ty {
            Ty::Named(name, _, _) => self.numbers.of(name),
            Ty::Same(_) => None,
            Ty::Rout(_, _, _) => None,
            Ty::Iter(_, _, _) => None,
        }
    }

    /// The index of the second of these include clauses that is of AREF or of a class that reaches it by its includes, if there
    /// are two.
    #[tactic(auto, using(crate::proofs::Seconds::seconds))]
    pub fn second_with_array(&self, includes: &[Include]) -> Option<usize>
        ensures { MatchOption result
            (count_by (brings_array (number_in self.now.numbers) self.now.arrays.items) includes.now ≤ 1)
            (IsSecond (brings_array (number_in self.now.numbers) self.now.arrays.items) includes.now) }
    {
        let mut one = false;
        for (clause, include) in includes.iter().enumerate() {
            if self.has_array(include) {
                if one {
                    return Some(clause);
                }
                one = true;
            }
        }
        None
    }

    fn has_array(&self, include: &Include) -> bool
        ensures { result ≡ brings_array (number_in self.now.numbers) self.now.arrays.items include.now }
    {
        match self.included(&include.ty) {
            Some(class) => is_marked(&self.arrays, class),
            None => false,
        }
    }
}

/// Checks that each name in a header or an include clause is allowed there.
///
/// # Errors
///
/// E12 at the first type, in source order and before those inside it, whose name may not.
#[tactic(auto, using(crate::proofs::Scopes::misused_first))]
fn names_stand(
    alloc: Global,
    classes: &[Class],
    numbers: &ClassNumbers,
    arrays: &[bool],
) -> Result<(), Rejection>
    requires { HasNumbers classes.now numbers.now }
    ensures none { OnOk result (NoneMisused classes.now arrays.now) }
    ensures misused { (refusal : Refusal) → result ≡ Err (Refused refusal) → MisusedAt classes.now arrays.now refusal }
{
    match first_misused(alloc, classes, numbers, arrays)? {
        None => Ok(()),
        Some(pos) => Err(misused_at(pos)),
    }
}

/// The refusal of a name that isn't allowed at this position.
fn misused_at(pos: Pos) -> Rejection
    ensures { (refusal : Refusal) → result ≡ Refused refusal → refusal ≡ record { rule = ClassNotUsable; pos = pos } }
{
    Rule::ClassNotUsable.at(pos).into()
}

/// The numbers of the classes in an order in which each class is after those that it includes.
///
/// # Errors
///
/// E15 at the name of the first class in source order that includes itself, by itself or by others.
#[tactic(auto, using(crate::proofs::Verdicts::first_named))]
fn include_order(alloc: Global, classes: &[Class], graph: &Graph) -> Result<Vec<u32>, Rejection>
    ensures none { OnOk result (NoneBefore graph.now (node_count graph.now)) }
    ensures cycle { (refusal : Refusal) → result ≡ Err (Refused refusal) → CycleAt classes.now graph.now refusal }
{
    let order = graph.order(alloc)?;
    match graph.first_on_cycle(alloc, &order)? {
        None => Ok(order),
        Some(number) => Err(cycle_at(classes, number)),
    }
}

/// The refusal at the name of a class on a cycle.
fn cycle_at(classes: &[Class], number: usize) -> Rejection
    ensures { (refusal : Refusal) → result ≡ Refused refusal → IsNamed classes.now number refusal }
{
    match classes.get(number) {
        Some(class) => Rule::Cycle.at(class.name.pos).into(),
        None => Rejection::Failed(Failure::Broken(Invariant::IncludeTable)),
    }
}
