//! Ranks and costs of macros on a graph of triggers, or a circle among them.
//!
//! - `Graph` has an `Item` for each step, group and choice of a node.
//! - `rank` returns `Ranks` or a `Circle`; `rank_on_heap` does the same with less stack. `costs` returns `Costs`, or
//!   what is `OverBudget`. `reached` returns the nodes that some nodes trigger.
//! - `laws` has theorems about the definitions in specs/.
//!
//! vt_verify makes the graph of a pool. Come here to ask how macros are ranked, and what they cost.
//!
//! docs/PROFILE.md has the rules: "Triggers and circles", "Costs and budgets". A node is a macro, an item the
//! cost of one of its macro commands, and a group the macros listed at an event of an object.
#![tactic(auto)]

mod budget;
mod capped;
mod circle;
mod gather;
mod graph;
pub mod laws;
mod node_set;
mod ranking;
mod reach;
mod search;
mod table;

pub use budget::{Costs, OverBudget};
pub use capped::{costs, costs_up_to};
pub use circle::Circle;
pub use gather::reached;
pub use graph::{Graph, Item};
pub use ranking::{Ranks, rank, rank_on_heap};
pub use table::cost_of_nodes;
