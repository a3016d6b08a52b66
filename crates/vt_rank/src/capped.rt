//! Costs under a cap.

ghost use Rattle.std.specs.Prelude.{◌≡◌, ℕ, List, ◌<◌, ◌≤◌, ◌^◌, IfOk, IfErr, IfSome, IfNone, length, slice_index};
ghost use Rattle.vt_rank.specs.Paths.{AreRanks};
ghost use Rattle.vt_rank.specs.declared.graph.Graph.{Graph as Network};
ghost use Rattle.vt_rank.specs.Costs.{group_total, AreCosts, AreCostsUpTo, IsWithin, IsFirstOverCap, CostsAreTotals};

use crate::budget::{Costs, OverBudget};
use crate::graph::Graph;
use crate::ranking::Ranks;
use crate::table::{cost_of_nodes, fill, no_costs};

/// Returns the cost of each node, or what is over the cap: the least node, or the first group if no node is over it. A step costs
/// one, a group the sum of its nodes' costs, and `Item::Most` the cost of the costliest of its groups, or 0 without groups.
/// `ranks` must be those of this graph.
///
/// Does not allocate. Uses about three kilobytes of stack on x86-64. It is not inlined, so that this stack is free again when it
/// returns. Visits each node once. Reads each item once, with the nodes of its group, the groups of `Item::Most` once in all, and
/// at the end each group once more.
#[inline(never)]
pub fn costs(graph: &Graph, ranks: &Ranks, cap: u32) -> Result<Costs, OverBudget>
    requires { AreRanks graph.now ranks.now }
    ensures costs { IfOk result (AreCosts graph.now) }
    ensures within { IfOk result (λ _. IsWithin graph.now cap) }
    ensures over { IfErr result (IsFirstOverCap graph.now cap) }

    // The cost of a node is the sum of its items' costs.
    ensures totals { CostsAreTotals graph.now }
{
    let limit = u64::from(cap) + 1;
    let mut table = no_costs();
    let mut most = None;
    for rank in 0..256usize {
        fill(graph, ranks, rank as u8, limit, &mut table, &mut most);
    }
    if let Some(node) = node_over(&table, cap) {
        return Err(OverBudget::Node(node));
    }
    if let Some(group) = group_over(graph, &table, cap) {
        return Err(OverBudget::Group(group));
    }
    let mut costs = Costs { costs: [0; 256] };
    copy_costs(&table, &mut costs.costs);
    Ok(costs)
}

/// The cost of each node, but at most `limit`. `ranks` must be those of this graph.
///
/// Does not allocate. Reads each item once, with the nodes of its group, and the groups of `Item::Most` once in all.
pub fn costs_up_to(graph: &Graph, ranks: &Ranks, limit: u64) -> [u64; 256]
    requires limit { 0 < limit }
    requires ranks { AreRanks graph.now ranks.now }
    ensures { AreCostsUpTo graph.now limit result }
{
    let mut table = no_costs();
    let mut most = None;
    for rank in 0..256usize {
        fill(graph, ranks, rank as u8, limit, &mut table, &mut most);
    }
    table
}

// Returns the least node over the cap.
fn node_over(table: &[u64; 256], cap: u32) -> Option<u8>
    ensures over { IfSome result (λ n. cap < slice_index table.now n) }
    ensures least { IfSome result (λ n. (m : ℕ) → m < n → slice_index table.now m ≤ cap) }
    ensures none { IfNone result ((n : ℕ) → n < 256 → slice_index table.now n ≤ cap) }
{
    for node in 0..256usize {
        if table[node] > u64::from(cap) {
            return Some(node as u8);
        }
    }
    None
}

// Copies costs that fit 32 bits.
fn copy_costs(table: &[u64; 256], costs: &mut [u32; 256])
    requires { (n : ℕ) → n < 256 → slice_index table.now n < 2 ^ 32 }
    ensures size { length costs.new ≡ 256 }
    ensures copies { (n : ℕ) → n < 256 → slice_index costs.new n ≡ slice_index table.now n }
{
    for node in 0..256usize {
        costs[node] = table[node] as u32;
    }
}

// Returns the first group over the cap.
fn group_over(graph: &Graph, table: &[u64; 256], cap: u32) -> Option<usize>
    ensures over { IfSome result (λ k. cap < group_total (slice_index table.now) graph.now k) }
    ensures first { IfSome result (λ k. (j : ℕ) → j < k → group_total (slice_index table.now) graph.now j ≤ cap) }
    ensures none { IfNone result ((k : ℕ) → group_total (slice_index table.now) graph.now k ≤ cap) }
{
    let limit = u64::from(cap) + 1;
    for group in 0..graph.groups.len() {
        if cost_of_nodes(table, graph.group(group), limit) > u64::from(cap) {
            return Some(group);
        }
    }
    None
}
