//! The nodes that some nodes trigger, directly or through others.

ghost use Rattle.std.specs.Prelude.{◌≡◌, ◌==◌, ℕ, ◌<◌, ◌⊎◌, ◌↔◌, true, false, slice_index_or, Contains};
ghost use Rattle.vt_rank.specs.NodeSets.{IsIn, bit_of, Reaches, IsReached};

use crate::graph::Graph;
use crate::node_set::NodeSet;
use crate::reach::all_targets;

/// Whether each node is one of `start`, or is triggered by one of them, directly or through others.
///
/// Does not allocate. Uses eight kilobytes of stack on x86-64, for a set of nodes for each node. Reads each item once,
/// with its nodes, and joins the 256 sets at each node.
pub fn reached(graph: &Graph, start: &[u8]) -> [bool; 256]
    ensures { (n : ℕ) → n < 256 → (slice_index_or result n false ≡ true) ↔ IsReached graph.now start.now n }
{
    let rows = all_targets(graph);
    members(&with_rows(&rows, start))
}

/// Some nodes, and the nodes of their rows.
fn with_rows(rows: &[NodeSet; 256], nodes: &[u8]) -> NodeSet
    ensures { (n : ℕ) → IsIn result n ↔ (Contains nodes.now n ⊎ ((m : ℕ) × Contains nodes.now m × Reaches rows.now m n)) }
{
    let mut set = NodeSet::new();
    set.insert_nodes(nodes);
    for node in nodes {
        set.insert_all(&rows[usize::from(*node)]);
    }
    set
}

/// Whether each node is in a set.
fn members(set: &NodeSet) -> [bool; 256]
    ensures { (n : ℕ) → n < 256 → slice_index_or result n false ≡ (bit_of set.now n == 1) }
{
    let mut members = [false; 256];
    for node in 0..256usize {
        members[node] = set.contains(node as u8);
    }
    members
}
