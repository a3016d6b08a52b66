//! Graphs of triggers.

ghost use Rattle.std.specs.Prelude.{◌≡◌};
ghost use Rattle.vt_rank.specs.Graphs.{items_of, group_of};

/// An item of a node.
#[derive(Clone, Copy, PartialEq, Eq)]
pub enum Item {
    /// A step, which costs one and triggers no node.
    Step,
    /// All nodes of a group, given by its index.
    Group(usize),
    /// The nodes of all groups in `Graph::most`, at the cost of the costliest of these groups.
    Most,
}

/// A graph of 256 nodes. A node triggers the nodes of its items.
///
/// A node without an entry in `nodes` has no items, and entries from 256 on are ignored. A missing group has no
/// nodes.
#[derive(Drop)]
pub struct Graph {
    /// The items of each node.
    pub nodes: Vec<Vec<Item>>,
    /// The nodes of each group, with possible repeats.
    pub groups: Vec<Vec<u8>>,
    /// The indices of the groups of `Item::Most`.
    pub most: Vec<usize>,
}

impl Graph {
    pub(crate) fn items(&self, node: u8) -> &[Item]
        ensures { result.now ≡ items_of self.now node }
    {
        match self.nodes.get(usize::from(node)) {
            Some(items) => items.as_slice(),
            None => &[],
        }
    }

    /// The nodes of a group.
    pub fn group(&self, group: usize) -> &[u8]
        ensures { result.now ≡ group_of self.now group }
    {
        match self.groups.get(group) {
            Some(nodes) => nodes.as_slice(),
            None => &[],
        }
    }
}
