//! Ranking of the nodes of a graph.

ghost use Rattle.std.specs.Prelude.{◌≡◌, ◌<◌, ℕ, List, IfOk, OnOk, IfErr, slice_index};
ghost use Rattle.vt_rank.specs.Paths.{AreRanks, RanksFall, HasNoCircle, IsCircle, IsDistinct, IsLeastOnCircles};
ghost use Rattle.vt_rank.specs.declared.graph.Graph.{Graph as Network};
ghost use Rattle.vt_rank.specs.Graphs.{triggered};

use crate::circle::{Circle, least_circle};
use crate::graph::Graph;
use crate::node_set::NodeSet;
use crate::reach::write_targets;
use crate::search::Search;
use std::alloc::{AllocError, Global};
use std::marker::Model;

/// A rank for each node of a graph, below that of every node that triggers it.
#[derive(Drop)]
pub struct Ranks {
    ranks: [u8; 256],
    // The nodes by rising rank.
    order: [u8; 256],
}

impl Model for Ranks {
    ghost use Rattle.std.specs.Prelude.{◌≡◌, ◌<◌, ℕ, List, slice_index};

    ghost Value = { List ℕ };

    ghost view = { λ r. r.ranks };

    ghost invariant = { λ r. (n : ℕ) → n < 256 → slice_index r.order (slice_index r.ranks n) ≡ n };
}

impl Ranks {
    /// The rank of a node.
    pub fn of(&self, node: u8) -> u8
        ensures { result ≡ slice_index self.now node }
    {
        self.ranks[usize::from(node)]
    }

    /// The node of a rank, or any node if no node has that rank.
    pub(crate) fn node_of(&self, rank: u8) -> u8
        ensures { (n : ℕ) → n < 256 → slice_index self.now n ≡ rank → result ≡ n }
    {
        self.order[usize::from(rank)]
    }
}

/// Ranks the nodes of a graph so that ranks fall along every trigger, or returns a circle of triggers. The
/// circle begins with the least node on any circle; which circle through that node is unspecified.
///
/// Does not allocate. Uses eleven kilobytes of stack on x86-64, eight of them for a set of nodes for each node.
/// Reads the items of each node once, with their groups, and the groups of `Graph::most` once. If there is a
/// circle, it also joins the 256 sets at each node, reads all items once more, and searches again.
pub fn rank(graph: &Graph) -> Result<Ranks, Circle>
    // Ranks fall along every trigger, and a graph with ranks has no circle.
    ensures falls { IfOk result (AreRanks graph.now) }
    ensures none { OnOk result (HasNoCircle (triggered graph.now)) }

    // The path is a circle of distinct nodes, and begins with the least node on any circle.
    ensures circle { IfErr result (λ c. IsCircle (triggered graph.now) c.path.items) }
    ensures once { IfErr result (λ c. IsDistinct c.path.items) }
    ensures least { IfErr result (λ c. IsLeastOnCircles (triggered graph.now) (slice_index c.path.items 0)) }
{
    let mut rows = [NodeSet::new(); 256];
    rank_with_rows(graph, &mut rows)
}

/// Like `rank`, but with the set of nodes for each node on the heap. Uses three kilobytes of stack on x86-64, and
/// frees the eight kilobytes of the sets before it returns.
pub fn rank_on_heap(alloc: Global, graph: &Graph) -> Result<Result<Ranks, Circle>, AllocError>
    // Ranks fall along every trigger, and a graph with ranks has no circle.
    ensures falls { IfOk result (λ ranked. IfOk ranked (AreRanks graph.now)) }
    ensures none { IfOk result (λ ranked. OnOk ranked (HasNoCircle (triggered graph.now))) }

    // The path is a circle of distinct nodes, and begins with the least node on any circle.
    ensures circle { IfOk result (λ ranked. IfErr ranked (λ c. IsCircle (triggered graph.now) c.path.items)) }
    ensures once { IfOk result (λ ranked. IfErr ranked (λ c. IsDistinct c.path.items)) }
    ensures least { IfOk result (λ ranked. IfErr ranked (λ c. IsLeastOnCircles (triggered graph.now) (slice_index c.path.items 0))) }
{
    let mut rows = Vec::from_elem(alloc, NodeSet::new(), 256)?;
    let Some(rows) = rows.as_mut_array() else {
        unreachable!();
    };
    Ok(rank_with_rows(graph, rows))
}

/// Ranks the nodes of a graph with a table for the nodes triggered by each node, which it writes first.
fn rank_with_rows(graph: &Graph, rows: &mut [NodeSet; 256]) -> Result<Ranks, Circle>
    ensures falls { IfOk result (AreRanks graph.now) }
    ensures none { OnOk result (HasNoCircle (triggered graph.now)) }
    ensures circle { IfErr result (λ c. IsCircle (triggered graph.now) c.path.items) }
    ensures once { IfErr result (λ c. IsDistinct c.path.items) }
    ensures least { IfErr result (λ c. IsLeastOnCircles (triggered graph.now) (slice_index c.path.items 0)) }
{
    write_targets(rows, graph);
    let mut search = Search::new();
    for node in 0..256usize {
        if let Err(known) = search.visit(graph, rows, node as u8) {
            return Err(least_circle(graph, rows, known));
        }
    }
    Ok(Ranks {
        ranks: search.ranks,
        order: search.order,
    })
}
