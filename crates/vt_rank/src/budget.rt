//! The costs of nodes and groups, and the first of them over a cap.

ghost use Rattle.std.specs.Prelude.{◌≡◌, slice_index};
ghost use Rattle.vt_rank.specs.Costs.{group_cost, AreCosts};

use crate::graph::Graph;
use std::marker::Model;

/// The cost of each node of a graph.
#[derive(Drop)]
pub struct Costs {
    pub(crate) costs: [u32; 256],
}

impl Model for Costs {
    ghost use Rattle.std.specs.Prelude.{ℕ, List};

    ghost Value = { List ℕ };

    ghost view = { λ c. c.costs };
}

/// A node or a group with a cost over the cap.
#[derive(Clone, Copy, Debug, PartialEq, Eq)]
pub enum OverBudget {
    /// The least node over the cap.
    Node(u8),
    /// The first group over the cap, if no node is over it.
    Group(usize),
}

impl Costs {
    /// The cost of a node.
    pub fn node(&self, node: u8) -> u32
        ensures { result ≡ slice_index self.now node }
    {
        self.costs[usize::from(node)]
    }

    /// The cost of a group of the graph: the sum over its nodes, repeats counted. `graph` must be the
    /// graph of these costs.
    pub fn group(&self, graph: &Graph, group: usize) -> u32
        requires { AreCosts graph.now self.now }
        ensures { result ≡ group_cost graph.now group }
    {
        let mut total = 0;
        for node in graph.group(group) {
            total += self.costs[usize::from(*node)];
        }
        total
    }
}
