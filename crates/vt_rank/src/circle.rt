//! The reported circle, through the least node on any circle.

ghost use Rattle.std.specs.Prelude.{◌≡◌, ℕ, ◌∷◌, List, IfSome, IfNone, slice_index};
ghost use Rattle.vt_rank.specs.Paths.{IsCircle, IsDistinct, IsOnCircle, IsLeastOnCircles};
ghost use Rattle.vt_rank.specs.NodeSets.{AreTargets};
ghost use Rattle.vt_rank.specs.Graphs.{triggered};

use crate::graph::Graph;
use crate::node_set::NodeSet;
use crate::reach::{least_on_circles, write_targets};
use arrayvec::ArrayVec;

/// A circle of triggers: each node of the path triggers the next, and the last one the first. The nodes are
/// distinct.
#[derive(Drop)]
pub struct Circle {
    /// The nodes, beginning with the least node on any circle of the graph.
    pub path: ArrayVec<u8, 256>,
}

/// Returns a circle through the least node on any circle. `known` is a node on a circle.
pub(crate) fn least_circle(graph: &Graph, rows: &mut [NodeSet; 256], known: u8) -> Circle
    requires targets { AreTargets graph.now rows.old }
    requires known { IsOnCircle graph.now known }
    ensures circle { IsCircle (triggered graph.now) result.path.items }
    ensures once { IsDistinct result.path.items }
    ensures least { IsLeastOnCircles (triggered graph.now) (slice_index result.path.items 0) }
{
    let least = least_on_circles(rows, graph, known);
    // The search for the least node has extended the targets to paths of any length.
    write_targets(rows, graph);
    Circle {
        path: circle_through(graph, rows, least).unwrap(),
    }
}

// Returns a circle that begins with a node, if there is one, by a depth-first search from that node.
fn circle_through(graph: &Graph, targets: &[NodeSet; 256], start: u8) -> Option<ArrayVec<u8, 256>>
    requires { AreTargets graph.now targets.now }
    ensures circle { IfSome result (λ path. IsCircle (triggered graph.now) path.items) }
    ensures once { IfSome result (λ path. IsDistinct path.items) }
    ensures first { IfSome result (λ path. slice_index path.items 0 ≡ start) }
    ensures none { IfNone result ((rest : List ℕ) → IsCircle (triggered graph.now) (start ∷ rest) → ⊥) }
{
    let mut seen = NodeSet::new();
    let mut path = ArrayVec::new();
    path.push(start);
    'search: while let Some(node) = path.pop() {
        if let Some(next) = targets[usize::from(node)].outside(&seen) {
            path.push(node);
            if next == start {
                return Some(path);
            }
            seen.insert(next);
            path.push(next);
        }
    }
    None
}
