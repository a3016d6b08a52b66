//! The circles of a graph: each in what is left without the items of the nodes on those before it.

ghost use Rattle.std.specs.Prelude.{◌≡◌, [], IfOk, slice_set};
ghost use Rattle.vt_rank.specs.Graphs.{triggered, lists};
ghost use Rattle.check_circles.specs.Circles.{cleared, AreCircles};

use crate::reduced_graph::reduced;
use std::alloc::{AllocError, Global};
use vt_rank::{Circle, Graph, Item, rank};

/// Returns the circles of a graph: the one through the least node on any circle, then the next in the graph without the items of
/// those nodes, until there is none. No two of them share a node.
///
/// Reads each item of the graph once, however many circles there are. Each circle costs as much as 256 items of at
/// most 256 nodes each.
///
/// # Errors
/// `AllocError` when an allocation is refused.
pub fn circles(alloc: Global, graph: &Graph) -> Result<Vec<Circle>, AllocError>
    ensures { IfOk result (λ found. AreCircles (triggered graph.now) found.items) }
{
    let mut small = reduced(alloc, graph)?;
    take_circles(alloc, &mut small)
}

/// Returns the circles of a graph, and takes the items of their nodes out of it.
fn take_circles(alloc: Global, graph: &mut Graph) -> Result<Vec<Circle>, AllocError>
    ensures { IfOk result (λ found. AreCircles (triggered graph.old) found.items) }
{
    let mut found = Vec::new(alloc);
    while let Err(circle) = rank(graph) {
        clear(graph, circle.path.as_slice());
        found.push(circle)?;
    }
    Ok(found)
}

/// Takes the items of some nodes out of a graph.
fn clear(graph: &mut Graph, nodes: &[u8])
    ensures nodes { lists graph.new.nodes ≡ cleared nodes.now (lists graph.old.nodes) }
    ensures groups { lists graph.new.groups ≡ lists graph.old.groups }
    ensures most { graph.new.most.items ≡ graph.old.most.items }
{
    for node in nodes {
        clear_items(&mut graph.nodes, usize::from(*node));
    }
}

fn clear_items(nodes: &mut Vec<Vec<Item>>, index: usize)
    ensures { lists nodes.new ≡ slice_set (lists nodes.old) index [] }
{
    if let Some(items) = nodes.get_mut(index) {
        items.clear();
    }
}
