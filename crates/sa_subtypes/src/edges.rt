//! The edges that the classes of a program declare, as verified tables.

ghost use Rattle.std.specs.Prelude.{◌≡◌};
ghost use Rattle.std.proofs.Props.{props};
ghost use Rattle.sa_hierarchy.specs.Hierarchies.{AreTried, tables};
ghost use Rattle.sa_unify.specs.Numbers.{number_in};
ghost use Rattle.sa_subtypes.specs.Subtypes.{top_name};

use sa_hierarchy::Hierarchy;

/// The edges that the classes of a program declare, arranged so that a query takes no memory.
#[derive(Drop)]
pub struct SubtypeRelation {
    pub(crate) lineage: Hierarchy,
    /// The number of `$OB`, if it is a class.
    pub(crate) top: Option<u32>,
    ghost tried: { ∥ AreTried (tables lineage) ∥₁ },
    ghost topmost: { top ≡ number_in lineage.names.places top_name } by { Prim.hlevel props },
}
