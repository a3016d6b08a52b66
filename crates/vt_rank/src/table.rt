//! A table of the nodes' costs, each cut at a limit, and sums over it.

ghost use Rattle.std.specs.Prelude.{◌≡◌, ◌+◌, ◌<◌, min, length, sum_by, slice_index};
ghost use Rattle.vt_rank.specs.Graphs.{nodes_of, triggered};
ghost use Rattle.vt_rank.specs.Paths.{AreRanks};
ghost use Rattle.vt_rank.specs.Costs.{item_cost, node_total, cost_of};
ghost use Rattle.vt_rank.specs.Tables.{IsFilled, AreSettled, IsMost};

use crate::graph::{Graph, Item};
use crate::ranking::Ranks;

// A table without costs yet.
pub(crate) fn no_costs() -> [u64; 256]
    ensures { length result ≡ 256 }
{
    [0; 256]
}

// Sets the cost of the node of a rank, after those of all lesser ranks. Each cost is cut at the limit. The cost
// of `Item::Most` is computed at the first node that has one.
pub(crate) fn fill(
    graph: &Graph,
    ranks: &Ranks,
    rank: u8,
    limit: u64,
    table: &mut [u64; 256],
    most: &mut Option<u64>,
)
    requires limit { 0 < limit }
    requires ranks { AreRanks graph.now ranks.now }
    requires filled { IsFilled graph.now ranks.now limit rank table.old }
    requires most { IsMost graph.now limit most.old }
    ensures filled { IsFilled graph.now ranks.now limit (rank + 1) table.new }
    ensures most { IsMost graph.now limit most.new }
{
    let node = ranks.node_of(rank);
    if ranks.of(node) == rank {
        let cost = cost_of_node(graph, table, node, limit, most);
        table[usize::from(node)] = cost;
    }
}

// ---- sums, each cut at a limit

fn cost_of_node(
    graph: &Graph,
    table: &[u64; 256],
    node: u8,
    limit: u64,
    most: &mut Option<u64>,
) -> u64
    requires limit { 0 < limit }
    requires settled { AreSettled graph.now limit table.now (triggered graph.now node) }
    requires most { IsMost graph.now limit most.old }
    ensures cost { result ≡ min (node_total (cost_of graph.now) graph.now node) limit }
    ensures most { IsMost graph.now limit most.new }
{
    let mut total = 0u64;
    for item in graph.items(node) {
        let cost = cost_of_item(graph, table, *item, limit, most);
        total = total.saturating_add(cost).min(limit);
    }
    total
}

fn cost_of_item(
    graph: &Graph,
    table: &[u64; 256],
    item: Item,
    limit: u64,
    most: &mut Option<u64>,
) -> u64
    requires limit { 0 < limit }
    requires settled { AreSettled graph.now limit table.now (nodes_of graph.now item) }
    requires most { IsMost graph.now limit most.old }
    ensures cost { result ≡ min (item_cost (cost_of graph.now) graph.now item) limit }
    ensures most { IsMost graph.now limit most.new }
{
    match item {
        Item::Step => 1,
        Item::Group(group) => cost_of_nodes(table, graph.group(group), limit),
        Item::Most => cost_of_most_once(graph, table, limit, most),
    }
}

fn cost_of_most_once(graph: &Graph, table: &[u64; 256], limit: u64, most: &mut Option<u64>) -> u64
    requires settled { AreSettled graph.now limit table.now (nodes_of graph.now Item.Most) }
    requires most { IsMost graph.now limit most.old }
    ensures cost { result ≡ min (item_cost (cost_of graph.now) graph.now Item.Most) limit }
    ensures most { IsMost graph.now limit most.new }
{
    if let Some(cost) = *most {
        return cost;
    }
    let cost = cost_of_most(graph, table, limit);
    *most = Some(cost);
    cost
}

fn cost_of_most(graph: &Graph, table: &[u64; 256], limit: u64) -> u64
    ensures { result ≡ min (item_cost (slice_index table.now) graph.now Item.Most) limit }
{
    let mut greatest = 0;
    for group in &graph.most {
        greatest = greatest.max(cost_of_nodes(table, graph.group(*group), limit));
    }
    greatest
}

/// The sum of the costs of nodes in a table, repeats counted, cut at a limit.
pub fn cost_of_nodes(table: &[u64; 256], nodes: &[u8], limit: u64) -> u64
    ensures { result ≡ min (sum_by (slice_index table.now) nodes.now) limit }
{
    let mut total = 0u64;
    for node in nodes {
        total = total.saturating_add(table[usize::from(*node)]).min(limit);
    }
    total
}
