//! The depth-first search that ranks the nodes.

ghost use Rattle.std.specs.Prelude.{ℕ, [], OnOk, IfErr};

use crate::graph::Graph;
use crate::node_set::NodeSet;
use arrayvec::ArrayVec;

/// The nodes ranked so far, each above all nodes that it triggers, and the nodes seen.
#[derive(Drop)]
pub(crate) struct Search {
    pub(crate) ranks: [u8; 256],
    // The nodes by rising rank.
    pub(crate) order: [u8; 256],
    ranked: NodeSet,
    seen: NodeSet,
    count: usize,
}

impl Search {
    ghost use Rattle.vt_rank.specs.Searches.{IsSearch};
    ghost use Rattle.vt_rank.specs.NodeSets.{IsIn, AreTargets};
    ghost use Rattle.vt_rank.specs.Paths.{IsOnCircle};
    ghost use Rattle.vt_rank.specs.declared.graph.Graph.{Graph as Network};

    pub(crate) fn new() -> Search
        ensures { (g : Network) → IsSearch g result [] }
    {
        Search {
            ranks: [0; 256],
            order: [0; 256],
            ranked: NodeSet::new(),
            seen: NodeSet::new(),
            count: 0,
        }
    }

    /// Ranks a node and all nodes that it reaches, or returns a node on a circle.
    pub(crate) fn visit(
        &mut self,
        graph: &Graph,
        targets: &[NodeSet; 256],
        start: u8,
    ) -> Result<(), u8>
        requires targets { AreTargets graph.now targets.now }
        requires search { IsSearch graph.now self.old [] }
        ensures search { OnOk result (IsSearch graph.now self.new []) }
        ensures ranked { OnOk result (IsIn self.new.ranked start) }
        ensures kept { OnOk result ((n : ℕ) → IsIn self.old.ranked n → IsIn self.new.ranked n) }
        ensures circle { IfErr result (IsOnCircle graph.now) }
    {
        if self.ranked.contains(start) {
            return Ok(());
        }
        self.seen.insert(start);
        let mut path: ArrayVec<u8, 256> = ArrayVec::new();
        path.push(start);
        'search: while let Some(node) = path.pop() {
            match targets[usize::from(node)].outside(&self.ranked) {
                None => {
                    self.ranks[usize::from(node)] = self.count as u8;
                    self.order[self.count] = node;
                    self.ranked.insert(node);
                    self.count += 1;
                }
                Some(next) => {
                    if self.seen.contains(next) {
                        return Err(next);
                    }
                    self.seen.insert(next);
                    path.push(node);
                    path.push(next);
                }
            }
        }
        Ok(())
    }
}
