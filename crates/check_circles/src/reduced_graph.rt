//! Graphs with the same triggers, and at most one item for each node.

ghost use Rattle.std.specs.Prelude.{◌≡◌, ℕ, ◌<◌, [], ◌∷◌, IfOk, slice_index_or};
ghost use Rattle.vt_rank.specs.Graphs.{lists, items_of, nodes_of, triggered};
ghost use Rattle.vt_rank.specs.declared.graph.Item.TheVariants.{Most, Group};
ghost use Rattle.check_circles.specs.ReducedGraphs.{Marks, AreMarked, HaveSameMembers, HasEachOnce, IsReduced};

use std::alloc::{AllocError, Global};
use vt_rank::{Graph, Item};

/// Returns a graph with the same triggers, in which each node has at most one item and triggers no node twice.
///
/// Reads each item once, with its nodes, and the groups of `Graph::most` once.
pub(crate) fn reduced(alloc: Global, graph: &Graph) -> Result<Graph, AllocError>
    ensures { IfOk result (λ small. IsReduced graph.now small) }
{
    let nodes = single_items(alloc)?;
    let groups = all_targets(alloc, graph)?;
    Ok(Graph {
        nodes,
        groups,
        most: Vec::new(alloc),
    })
}

/// One item for each node: the group of the same number.
fn single_items(alloc: Global) -> Result<Vec<Vec<Item>>, AllocError>
    ensures { IfOk result (λ nodes. (n : ℕ) → n < 256 → slice_index_or (lists nodes) n [] ≡ Group n ∷ []) }
{
    let mut nodes = Vec::new(alloc);
    for node in 0..256usize {
        nodes.push(single_item(alloc, node)?)?;
    }
    Ok(nodes)
}

fn single_item(alloc: Global, group: usize) -> Result<Vec<Item>, AllocError>
    ensures { IfOk result (λ items. items.items ≡ Group group ∷ []) }
{
    let mut items = Vec::new(alloc);
    items.push(Item::Group(group))?;
    Ok(items)
}

/// The nodes that each node triggers, without repeats.
fn all_targets(alloc: Global, graph: &Graph) -> Result<Vec<Vec<u8>>, AllocError>
    ensures { IfOk result (λ rows. (n : ℕ) → n < 256 → HasEachOnce (triggered graph.now n) (slice_index_or (lists rows) n [])) }
{
    let most = targets_of_most(alloc, graph)?;
    let mut rows = Vec::new(alloc);
    for node in 0..256usize {
        rows.push(targets(alloc, graph, node as u8, most.as_slice())?)?;
    }
    Ok(rows)
}

/// The nodes of `Item::Most`, without repeats.
fn targets_of_most(alloc: Global, graph: &Graph) -> Result<Vec<u8>, AllocError>
    ensures { IfOk result (λ nodes. HasEachOnce (nodes_of graph.now Most) nodes.items) }
{
    let mut marks = [false; 256];
    for group in &graph.most {
        mark(&mut marks, graph.group(*group));
    }
    marked(alloc, &marks)
}

/// The nodes that a node triggers, without repeats. `most` has the nodes of `Item::Most`.
fn targets(alloc: Global, graph: &Graph, node: u8, most: &[u8]) -> Result<Vec<u8>, AllocError>
    requires { HaveSameMembers (nodes_of graph.now Most) most.now }
    ensures { IfOk result (λ nodes. HasEachOnce (triggered graph.now node) nodes.items) }
{
    let mut marks = [false; 256];
    for item in items(graph, node) {
        mark_item(&mut marks, graph, *item, most);
    }
    marked(alloc, &marks)
}

fn items(graph: &Graph, node: u8) -> &[Item]
    ensures { result.now ≡ items_of graph.now node }
{
    match graph.nodes.get(usize::from(node)) {
        Some(items) => items.as_slice(),
        None => &[],
    }
}

// ---- marks

/// Marks the nodes of an item. `most` has the nodes of `Item::Most`.
fn mark_item(marks: &mut [bool; 256], graph: &Graph, item: Item, most: &[u8])
    requires { HaveSameMembers (nodes_of graph.now Most) most.now }
    ensures { Marks marks.old marks.new (nodes_of graph.now item) }
{
    match item {
        Item::Step => {}
        Item::Group(group) => mark(marks, graph.group(group)),
        Item::Most => mark(marks, most),
    }
}

fn mark(marks: &mut [bool; 256], nodes: &[u8])
    ensures { Marks marks.old marks.new nodes.now }
{
    for node in nodes {
        marks[usize::from(*node)] = true;
    }
}

/// The nodes that are marked, without repeats.
fn marked(alloc: Global, marks: &[bool; 256]) -> Result<Vec<u8>, AllocError>
    ensures { IfOk result (λ nodes. AreMarked marks.now nodes.items) }
{
    let mut nodes = Vec::new(alloc);
    for node in 0..256usize {
        if marks[node] {
            nodes.push(node as u8)?;
        }
    }
    Ok(nodes)
}
