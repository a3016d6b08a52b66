//! Theorems about ranks and costs. Each is the contract of a function with an empty body.

ghost use Rattle.std.specs.Prelude.{ℕ, List};
ghost use Rattle.vt_rank.specs.Costs.{CostsAreTotals};
ghost use Rattle.vt_rank.specs.Graphs.{triggered};
ghost use Rattle.vt_rank.specs.Paths.{AreRanks, HasNoCircle, RanksFall};
ghost use Rattle.vt_rank.specs.declared.graph.Graph.{Graph as Network};

/// A graph with ranks that fall along every trigger has no circle.
pub fn ranks_leave_no_circle()
    ensures { (g : Network) (ranks : List ℕ) → RanksFall g ranks → HasNoCircle (triggered g) }
{}

/// In a graph with ranks, the cost of a node is the sum of its items' costs.
pub fn costs_are_totals()
    ensures { (g : Network) (ranks : List ℕ) → AreRanks g ranks → CostsAreTotals g }
{}
