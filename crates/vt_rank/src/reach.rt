//! Reachability along paths of any length: for each node the set of nodes that it leads to.

ghost use Rattle.std.specs.Prelude.{ℕ, ◌<◌, ◌↔◌};
ghost use Rattle.vt_rank.specs.Graphs.{nodes_of, triggered};
ghost use Rattle.vt_rank.specs.Paths.{IsOnCircle};
ghost use Rattle.vt_rank.specs.NodeSets.{Adds, IsSetOf, IsJoined, row, AreTargets, Reaches, Leads};
ghost use Rattle.vt_rank.specs.declared.graph.Item.TheVariants.{Most};

use crate::graph::{Graph, Item};
use crate::node_set::NodeSet;

/// Returns the least node on any circle. `known` is a node on a circle. Afterwards each row has the nodes that
/// its node leads to.
pub(crate) fn least_on_circles(rows: &mut [NodeSet; 256], graph: &Graph, known: u8) -> u8
    requires targets { AreTargets graph.now rows.old }
    requires known { IsOnCircle graph.now known }
    ensures on { IsOnCircle graph.now result }
    ensures least { (n : ℕ) → n < result → IsOnCircle graph.now n → ⊥ }
{
    close(rows, graph);
    for node in 0..known {
        if rows[usize::from(node)].contains(node) {
            return node;
        }
    }
    known
}

/// The nodes that each node leads to, by paths of any length.
pub(crate) fn all_targets(graph: &Graph) -> [NodeSet; 256]
    ensures { (m n : ℕ) → Reaches result m n ↔ Leads graph.now m n }
{
    let mut rows = [NodeSet::new(); 256];
    write_targets(&mut rows, graph);
    close(&mut rows, graph);
    rows
}

// Extends single triggers to paths of any length, by joining them at each node.
fn close(rows: &mut [NodeSet; 256], graph: &Graph)
    requires { AreTargets graph.now rows.old }
    ensures { (m n : ℕ) → Reaches rows.new m n ↔ Leads graph.now m n }
{
    for via in 0..256usize {
        join_at(rows, via as u8);
    }
}

// Adds to each row with node `via` the nodes that `via` reaches.
fn join_at(rows: &mut [NodeSet; 256], via: u8)
    ensures { (m : ℕ) → IsJoined (row rows.old m) (row rows.new m) (row rows.old via) via }
{
    let beyond = rows[usize::from(via)];
    for node in 0..256usize {
        rows[node].join(via, &beyond);
    }
}

// ---- single triggers

/// Writes the nodes triggered by each node. Each node's items are read once, and the groups of `Item::Most` once.
pub(crate) fn write_targets(rows: &mut [NodeSet; 256], graph: &Graph)
    ensures { AreTargets graph.now rows.new }
{
    let most = targets_of_most(graph);
    for node in 0..256usize {
        rows[node] = targets(graph, node as u8, &most);
    }
}

fn targets(graph: &Graph, node: u8, most: &NodeSet) -> NodeSet
    requires { IsSetOf most.now (nodes_of graph.now Most) }
    ensures { IsSetOf result (triggered graph.now node) }
{
    let mut targets = NodeSet::new();
    for item in graph.items(node) {
        insert_targets(&mut targets, graph, *item, most);
    }
    targets
}

fn insert_targets(targets: &mut NodeSet, graph: &Graph, item: Item, most: &NodeSet)
    requires { IsSetOf most.now (nodes_of graph.now Most) }
    ensures { Adds targets.old targets.new (nodes_of graph.now item) }
{
    match item {
        Item::Step => {}
        Item::Group(group) => targets.insert_nodes(graph.group(group)),
        Item::Most => targets.insert_all(most),
    }
}

fn targets_of_most(graph: &Graph) -> NodeSet
    ensures { IsSetOf result (nodes_of graph.now Most) }
{
    let mut targets = NodeSet::new();
    for group in &graph.most {
        targets.insert_nodes(graph.group(*group));
    }
    targets
}
