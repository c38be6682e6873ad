//! The order of a graph's nodes, and which of them lie on a cycle.

use sa_graph::Graph;
use std::test::*;

#[test]
fn nodes_on_a_cycle_are_told_from_those_that_reach_one(rt: HostRuntime) -> Result<(), Fail> {
    let alloc = rt.alloc();
    let starts = Vec::from_slice(alloc, &[0, 1, 2, 3, 4, 6])?;
    let ends = Vec::from_slice(alloc, &[1, 2, 1, 2, 3, 6])?;
    let graph = Graph::new(alloc, 7, starts, ends)?;
    let order = graph.order(alloc)?;
    assert_eq!(rt; order.as_slice(), [2, 1, 0, 3, 4, 5, 6].as_slice());
    let cyclic = graph.cyclic(alloc, order.as_slice())?;
    assert_eq!(rt;
        cyclic.as_slice(),
        [false, true, true, false, false, false, true].as_slice()
    );
    assert_eq!(rt; graph.first_on_cycle(alloc, order.as_slice())?, Some(1));
    Ok(())
}
