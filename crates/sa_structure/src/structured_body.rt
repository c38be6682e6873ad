//! The structured regions of a body, found and verified.

ghost use Rattle.std.specs.Prelude.{◌≡◌, ◌==◌, length, not, IfOk, IfSome, IsTrue};
ghost use Rattle.sa_structure.specs.Right.{StandsFor};

use crate::building::{ListResult, RegionPlan, build_list};
use crate::dominators::{Dominators, Order, Tree};
use crate::flow::{Flow, flow_of};
use crate::loops::{EdgesBack, Loops, edges_back};
use crate::numbering::are_numbered;
use crate::placing::placing_of;
use crate::regions::Region;
use crate::verifier::{Against, occurs};
use failure::{Failure, Invariant, known};
use sa_cfg::CfgBody;
use sa_graph::{Graph, put, word};
use sqlite_items::Items;
use std::alloc::Global;

/// How deep regions nest at most.
const DEEPEST: u32 = 300;

/// How often edges are cut at most.
const CUTS: u32 = 8;

/// The structured regions of a body.
#[derive(Drop)]
pub struct StructuredBody {
    pub list: Items<Region>,
    /// The blocks in which the body begins and resumes, by the numbers of the dispatch. The first is block 0.
    pub entries: Items<u32>,
    /// For each block its number in the dispatch, if it has one.
    pub numbers: Items<Option<u32>>,
    /// For each block its number in the dispatch, if jumps to it go by way of that. There are none where the dispatch is made once.
    pub again: Items<Option<u32>>,
}

impl StructuredBody {
    /// Whether jumps go back to the dispatch, which is in a loop then.
    pub fn repeats(&self) -> bool
        ensures { result ≡ not (length self.now.again == 0) }
    {
        !self.again.is_empty()
    }
}

/// The flow graph of a body without crossing edges, and what is known of it.
#[derive(Drop)]
struct Known {
    flow: Flow,
    order: Order,
    dominators: Dominators,
    back: Graph,
    edges: EdgesBack,
}

/// The structured regions of a body. It is `None` where they would nest too deep, or the steps that were taken to find them don't lead to
/// any.
///
/// # Errors
///
/// A `Failure`: `Broken` where a number of the body names no block.
pub fn structure_of(alloc: Global, body: &CfgBody) -> Result<Option<StructuredBody>, Failure>
    ensures { IfOk result (λ found. IfSome found (StandsFor body.now)) }
{
    let mut flow = flow_of(alloc, body)?;
    let blocks = body.blocks.len();
    let mut again = vec![in alloc; None; blocks]?;
    let mut repeats = false;
    for _ in 0..CUTS {
        let Some(known) = known_of(alloc, flow)? else {
            return Ok(None);
        };
        if known.edges.crossing.is_empty() {
            return shape_found(alloc, body, known, &again, repeats);
        }
        flow = cut_crossing(known, &mut again)?;
        repeats = true;
    }
    Ok(None)
}

/// What is known of a flow graph.
fn known_of(alloc: Global, flow: Flow) -> Result<Option<Known>, Failure> {
    let graph = flow.graph(alloc)?;
    let back = graph.transposed(alloc)?;
    let order = Order::of(alloc, &graph)?;
    let Some(dominators) = Dominators::of(alloc, &order, &back)? else {
        return Ok(None);
    };
    let tree = Tree::of(alloc, &dominators)?;
    let edges = edges_back(alloc, &flow, &order, &tree)?;
    Ok(Some(Known {
        flow,
        order,
        dominators,
        back,
        edges,
    }))
}

/// Cuts the crossing edges: their ends are reached by way of the dispatch.
fn cut_crossing(known: Known, again: &mut Vec<Option<u32>>) -> Result<Flow, Failure> {
    let Known {
        mut flow,
        edges,
        ..
    } = known;
    for edge in edges.crossing.iter() {
        flow.cut(*edge)?;
        let (_, end, _) = flow.edge(*edge)?;
        let block = end.saturating_sub(1);
        let number = place_of(&flow.entries, block)?;
        put(again, block as usize, Some(number), Invariant::CfgNumber)?;
    }
    Ok(flow)
}

/// The index of a block among the entries.
fn place_of(entries: &[u32], block: u32) -> Result<u32, Failure> {
    let place = entries.iter().position(|other| *other == block);
    word(known(place, Invariant::CfgNumber)?, Invariant::CfgNumber)
}

/// The regions of a flow graph without crossing edges, where they are right.
fn shape_found(
    alloc: Global,
    body: &CfgBody,
    known: Known,
    again: &[Option<u32>],
    repeats: bool,
) -> Result<Option<StructuredBody>, Failure>
    ensures { IfOk result (λ found. IfSome found (StandsFor body.now)) }
{
    let loops = Loops::of(alloc, &known.order, &known.back, &known.edges)?;
    let placing = placing_of(alloc, &known.flow, &known.order, &known.dominators, loops)?;
    let entries = known.flow.entries.as_slice();
    let plan = RegionPlan {
        body,
        order: &known.order,
        placing: &placing,
        chooses: entries.len() > 1,
    };
    let ListResult::List(list) = build_list(alloc, plan, DEEPEST)? else {
        return Ok(None);
    };
    let list = in_loop(alloc, list, repeats)?;
    let against = Against {
        body,
        entries,
        again: if repeats { again } else { &[] },
    };
    let shaped = described(alloc, list, against)?;
    if !stands_for(alloc, body, &shaped)? {
        return Ok(None);
    }
    Ok(Some(shaped))
}

/// Whether regions stand for a body, with its blocks numbered as the dispatch has them.
fn stands_for(alloc: Global, body: &CfgBody, shaped: &StructuredBody) -> Result<bool, Failure>
    ensures { IfOk result (λ so. IsTrue so → StandsFor body.now shaped.now) }
{
    let entries = shaped.entries.as_slice();
    let again = shaped.again.as_slice();
    let against = Against {
        body,
        entries,
        again,
    };
    if !occurs(alloc, against, shaped.list.as_slice())? {
        return Ok(false);
    }
    Ok(are_numbered(entries, shaped.numbers.as_slice(), again))
}

/// Regions whose dispatch is jumped back to, as a loop.
fn in_loop(alloc: Global, list: Items<Region>, repeats: bool) -> Result<Items<Region>, Failure> {
    if !repeats {
        return Ok(list);
    }
    let mut outer = Items::new(alloc);
    outer.push(Region::Loop(list))?;
    Ok(outer)
}

/// What has to be known of the regions where they are emitted.
fn described(
    alloc: Global,
    list: Items<Region>,
    against: Against<'_>,
) -> Result<StructuredBody, Failure> {
    let mut numbers = vec![in alloc; None; against.body.blocks.len()]?;
    for (place, block) in against.entries.iter().enumerate() {
        put(
            &mut numbers,
            *block as usize,
            Some(word(place, Invariant::CfgNumber)?),
            Invariant::CfgNumber,
        )?;
    }
    Ok(StructuredBody {
        list,
        entries: Items::from_slice(alloc, against.entries)?,
        numbers: Items::from_vec(numbers),
        again: Items::from_slice(alloc, against.again)?,
    })
}
