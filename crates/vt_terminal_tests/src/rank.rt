//! Tests of costs under other caps than that of pools.

use std::alloc::{AllocError, Global};
use std::test::Fail;
use vt_rank::*;

/// Nodes 1 to `last`, each with two commands that may run the next one; the last has none. Group k - 1 is node k.
fn doubling(alloc: Global, last: u8) -> Result<Graph, AllocError> {
    let mut nodes = Vec::new(alloc);
    let mut groups = Vec::new(alloc);
    nodes.push(Vec::new(alloc))?;
    for node in 0..last {
        let mut items = Vec::new(alloc);
        if node < last - 1 {
            for _ in 0..2 {
                items.push(Item::Step)?;
                items.push(Item::Group(usize::from(node) + 1))?;
            }
        }
        nodes.push(items)?;
        let mut group = Vec::new(alloc);
        group.push(node + 1)?;
        groups.push(group)?;
    }
    Ok(Graph {
        nodes,
        groups,
        most: Vec::new(alloc),
    })
}

fn costs_of(graph: &Graph, cap: u32) -> Result<Result<Costs, OverBudget>, Fail> {
    match rank(graph) {
        Ok(ranks) => Ok(costs(graph, &ranks, cap)),
        Err(_circle) => Err(Fail::new("a circle")),
    }
}

/// The cost of a node, or the node or group over the cap.
fn cost_of(graph: &Graph, cap: u32, node: u8) -> Result<Result<u32, OverBudget>, Fail> {
    Ok(match costs_of(graph, cap)? {
        Ok(costs) => Ok(costs.node(node)),
        Err(over) => Err(over),
    })
}

// The number of doubling nodes and the cap, with the cost of the first node.
const DOUBLING: [(u8, u32, Result<u32, OverBudget>); 5] = [
    (5, 30, Ok(30)),
    (5, 29, Err(OverBudget::Node(1))),
    (5, 0, Err(OverBudget::Node(1))),
    (32, u32::MAX, Ok(u32::MAX - 1)),
    (200, u32::MAX, Err(OverBudget::Node(1))),
];

#[test]
fn other_caps(rt: HostRuntime) -> Result<(), Fail> {
    for (count, cap, wanted) in DOUBLING {
        let graph = doubling(rt.alloc(), count)?;
        assert_eq!(rt; cost_of(&graph, cap, 1)?, wanted, "{count}");
    }
    // A group of which three runs need more than 32 bits.
    let mut graph = doubling(rt.alloc(), 32)?;
    graph.groups.push(Vec::from_slice(rt.alloc(), &[1, 1, 1])?)?;
    assert_eq!(rt; cost_of(&graph, u32::MAX, 1)?, Err(OverBudget::Group(32)));
    Ok(())
}
