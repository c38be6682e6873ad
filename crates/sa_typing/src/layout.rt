//! Whether immutable classes have a finite layout: none contains itself through attributes of immutable classes.

ghost use Rattle.std.specs.Prelude.{◌≡◌, ◌++◌, ◌↔◌, IfOk, IsTrue, OnOk, filter, length, replicate};
ghost use Rattle.sa_graph.specs.Paths.{ends_of, node_count, starts_of};
ghost use Rattle.sa_typing.specs.Layout.{IsAcyclic, ends_from, held, starts_from};
ghost use Rattle.sa_typing.specs.Rows.{is_immutable, rows};

use crate::view::{TypingView, is_immutable_kind};
use failure::{Failure, Invariant, broken};
use sa_graph::{Graph, word};
use sa_typed::TypeDef;
use std::alloc::Global;

/// Whether no immutable class contains itself through attributes of immutable classes.
#[tactic(auto, using(crate::proofs::Holding::flat))]
pub(crate) fn is_acyclic(alloc: Global, view: &TypingView<'_>) -> Result<bool, Failure>
    ensures { IfOk result (λ flat. IsTrue flat ↔ IsAcyclic (rows view.now)) }
{
    let graph = holding(alloc, view)?;
    let order = graph.order(alloc)?;
    match graph.first_on_cycle(alloc, order.as_slice())? {
        None => Ok(true),
        Some(node) => {
            if node < view.types.len() {
                Ok(false)
            } else {
                broken(Invariant::GraphNode)
            }
        }
    }
}

/// The graph of the immutable classes, each with an edge to those of its attributes.
#[tactic(auto, using(crate::proofs::Holding::held_from))]
fn holding(alloc: Global, view: &TypingView<'_>) -> Result<Graph, Failure>
    ensures count { IfOk result (λ graph. node_count graph ≡ length view.now.types.now) }
    ensures starts { IfOk result (λ graph. starts_of graph ≡ starts_from (rows view.now) 0 view.now.types.now) }
    ensures ends { IfOk result (λ graph. ends_of graph ≡ ends_from (rows view.now) view.now.types.now) }
{
    let mut starts = Vec::new(alloc);
    let mut ends = Vec::new(alloc);
    for (number, info) in view.types.iter().enumerate() {
        if is_immutable_kind(info.kind) {
            add_held(
                view,
                word(number, Invariant::CheckedCount)?,
                info.attrs.as_slice(),
                &mut starts,
                &mut ends,
            )?;
        }
    }
    Graph::new(alloc, view.types.len(), starts, ends)
}

/// Adds the edges of an immutable class with these attributes.
#[tactic(auto, using(crate::proofs::Holding::held_by))]
fn add_held(
    view: &TypingView<'_>,
    number: u32,
    attrs: &[u32],
    starts: &mut Vec<u32>,
    ends: &mut Vec<u32>,
) -> Result<(), Failure>
    ensures starts { OnOk result (starts.new.items
        ≡ starts.old.items ++ replicate (length (filter (is_immutable (rows view.now)) attrs.now)) number) }
    ensures ends { OnOk result (ends.new.items ≡ ends.old.items ++ filter (is_immutable (rows view.now)) attrs.now) }
{
    for attr in attrs {
        if view.is_immutable(*attr) {
            starts.push(number)?;
            ends.push(*attr)?;
        }
    }
    Ok(())
}
