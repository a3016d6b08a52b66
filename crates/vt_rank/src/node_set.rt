//! Sets of nodes.

ghost use Rattle.std.specs.Prelude.{◌≡◌, ◌==◌, ℕ, [], ◌∷◌, ◌⊎◌, IfSome, IfNone};
ghost use Rattle.vt_rank.specs.NodeSets.{bit_of, IsIn, Adds, IsJoined};

/// A set of nodes, with one bit for each node.
#[derive(Clone, Copy)]
pub(crate) struct NodeSet {
    words: [u64; 4],
}

impl NodeSet {
    pub(crate) fn new() -> NodeSet
        ensures { (n : ℕ) → IsIn result n → ⊥ }
    {
        NodeSet { words: [0; 4] }
    }

    pub(crate) fn contains(&self, node: u8) -> bool
        ensures { result ≡ (bit_of self.now node == 1) }
    {
        self.words[usize::from(node / 64)] >> (node % 64) & 1 == 1
    }

    pub(crate) fn insert(&mut self, node: u8)
        ensures { Adds self.old self.new (node ∷ []) }
    {
        self.words[usize::from(node / 64)] |= 1u64 << (node % 64);
    }

    pub(crate) fn insert_nodes(&mut self, nodes: &[u8])
        ensures { Adds self.old self.new nodes.now }
    {
        for node in nodes {
            self.insert(*node);
        }
    }

    pub(crate) fn insert_all(&mut self, others: &NodeSet)
        ensures kept { (n : ℕ) → IsIn self.old n → IsIn self.new n }
        ensures there { (n : ℕ) → IsIn others.now n → IsIn self.new n }
        ensures only { (n : ℕ) → IsIn self.new n → IsIn self.old n ⊎ IsIn others.now n }
    {
        for place in 0..4usize {
            self.words[place] |= others.words[place];
        }
    }

    /// Returns a node of the set that is not in another set, if there is one.
    pub(crate) fn outside(&self, others: &NodeSet) -> Option<u8>
        ensures found { IfSome result (λ n. IsIn self.now n × (IsIn others.now n → ⊥)) }
        ensures none { IfNone result ((n : ℕ) → IsIn self.now n → IsIn others.now n) }
    {
        for place in 0..4u8 {
            let rest = self.words[usize::from(place)] & !others.words[usize::from(place)];
            if rest != 0 {
                return Some(64 * place + rest.trailing_zeros() as u8);
            }
        }
        None
    }

    /// Inserts the nodes of `beyond` if this set contains `via`.
    pub(crate) fn join(&mut self, via: u8, beyond: &NodeSet)
        ensures { IsJoined self.old self.new beyond.now via }
    {
        if self.contains(via) {
            self.insert_all(beyond);
        }
    }
}
