//! Sets of pairs.

ghost use Rattle.std.specs.Prelude.{◌≡◌, ◌↔◌, ◌⊎◌, ℕ, IfSome, IsTrue, OnOk};
ghost use Rattle.std.proofs.Props.{props};
ghost use Rattle.log_reach.specs.PairSets.{has_pair};

use std::alloc::{AllocError, Global};
use std::collections::BTreeSet;

/// A set of pairs. It is quick to put the pair that was put last.
#[derive(Drop)]
pub(crate) struct Pairs {
    pairs: BTreeSet<(u8, u16)>,
    /// The pair that was put last.
    last: Option<(u8, u16)>,
    ghost is_in: { IfSome last (λ pair. IsTrue (has_pair pairs pair)) } by { Prim.hlevel props },
}

impl Pairs {
    /// No pairs. Does not allocate.
    pub(crate) fn new(alloc: Global) -> Pairs
        ensures { (pair : ℕ × ℕ) → ¬ IsTrue (has_pair result.pairs pair) }
    {
        Pairs {
            pairs: BTreeSet::new(alloc),
            last: None,
        }
    }

    /// Puts a pair into the set.
    pub(crate) fn put(&mut self, pair: (u8, u16)) -> Result<(), AllocError>
        ensures { OnOk result ((other : ℕ × ℕ) → IsTrue (has_pair self.new.pairs other) ↔ (IsTrue (has_pair self.old.pairs other) ⊎ (other ≡ pair))) }
    {
        if let Some(last) = self.last {
            if last == pair {
                return Ok(());
            }
        }
        self.pairs.insert(pair)?;
        self.last = Some(pair);
        Ok(())
    }

    /// Whether a pair is in the set.
    pub(crate) fn contains(&self, pair: (u8, u16)) -> bool
        ensures { result ≡ has_pair self.now.pairs pair }
    {
        self.pairs.contains(&pair)
    }
}
