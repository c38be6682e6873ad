//! The edges of a program are built and verified.

ghost use Rattle.std.specs.Prelude.{◌≡◌, IfErr, IfOk, OnOk};
ghost use Rattle.sa_subtypes.specs.SubtypeTest.{AreSubtypesOf};
ghost use Rattle.sa_subtypes.specs.Refusals.{AreEdgesRight, RefusesEdges};

use crate::edges::SubtypeRelation;
use sa_ast::{FlatClass, Rejection, Rule};
use sa_hierarchy::build_hierarchy;
use sa_unify::{Names, WorkBudget, first_misplaced, written_edges};
use std::alloc::Global;

/// The name of the type that is a supertype of every type.
pub(crate) const TOP: &[u8; 3] = b"$OB";

impl SubtypeRelation {
    /// The edges of a program's classes.
    ///
    /// It refuses with E19 at the first type after a `<`, in source order, that is no abstract class; and, where there is
    /// none, with E18 at the name of the first class, in source order, that lies on a cycle of edges, whatever their
    /// parameters are. It answers that memory has run out also where the supertypes take more than 200,000,000 units of
    /// work, or the verifier of their tables as many once more: one for each step and eight for each node of a type that is
    /// written. So they do only if they hold parameters many times over or where thousands of classes in a chain change
    /// the arguments.
    #[tactic(auto, using(crate::proofs::Answering::making, crate::proofs::Refusing::refusing))]
    pub fn make(alloc: Global, flat: &FlatClass) -> Result<SubtypeRelation, Rejection>
        ensures subtypes { IfOk result (λ edges. AreSubtypesOf flat.now edges) }
        ensures right { OnOk result (AreEdgesRight flat.now) }
        ensures refused { IfErr result (RefusesEdges flat.now) }
    {
        let classes = flat.classes.as_slice();
        let names = Names::make(alloc, classes)?;
        if let Some(pos) = first_misplaced(classes, &names) {
            return Err(Rejection::Refused(Rule::SupertypeNotAbstract.at(pos)));
        }
        let mut work = WorkBudget::new();
        let written = written_edges(alloc, &mut work, classes, &names)?;
        let lineage = build_hierarchy(alloc, &mut work, classes, names, written.as_slice())?;
        let mut trial = WorkBudget::new();
        lineage.try_tables(alloc, &mut trial)?;
        lineage.try_written(alloc, written.as_slice())?;
        let top = lineage.names.class(TOP.as_slice());
        Ok(SubtypeRelation { lineage, top })
    }
}
