//! How much each source has sent.

ghost use Rattle.std.specs.Prelude.{◌≡◌, ◌≢◌, ℕ, [], ◌∷◌, ◌++◌, OnOk, IfOk, map};
ghost use Rattle.log_traffic.specs.Counted.{nothing, with_frame, counts_in, SumUpTo};

use crate::counts::Counts;
use crate::load::load_of;
use crate::report::Share;
use std::alloc::{AllocError, Global};

/// The counts of what each source has sent, and of what all have sent.
#[derive(Drop)]
pub(crate) struct Sources {
    alloc: Global,
    /// The counts of each address.
    counts: [Counts; 256],
    pub(crate) total: Counts,
    // The frames of the sources sum to those of all, as long as these are not saturated.
    ghost sums: { SumUpTo counts total.frames },
}

impl Sources {
    ghost use Rattle.log_traffic.specs.Shares.{share_of, senders, senders_among};

    /// No sources. Does not allocate.
    pub(crate) fn new(alloc: Global) -> Sources
        ensures counts { (source : ℕ) → counts_in result.counts source ≡ nothing }
        ensures total { result.total ≡ nothing }
    {
        Sources {
            alloc,
            counts: [Counts::default(); 256],
            total: Counts::default(),
        }
    }

    /// Counts a frame with so many bytes of data.
    pub(crate) fn add_frame(&mut self, source: u8, length: usize)
        ensures own { counts_in self.new.counts source ≡ with_frame (counts_in self.old.counts source) length }
        ensures others { (other : ℕ) → other ≢ source → counts_in self.new.counts other ≡ counts_in self.old.counts other }
        ensures total { self.new.total ≡ with_frame self.old.total length }
    {
        self.counts[usize::from(source)].add_frame(length);
        self.total.add_frame(length);
    }

    /// The counts of what a source has sent.
    pub(crate) fn counts_from(&self, source: u8) -> Counts
        ensures { result ≡ counts_in self.now.counts source }
    {
        self.counts[usize::from(source)]
    }

    /// The share of each source, by rising addresses, in a log of so many microseconds.
    pub(crate) fn shares(&self, microseconds: u64) -> Result<Vec<Share>, AllocError>
        ensures shares { IfOk result (λ shares. shares.items ≡ map (share_of microseconds self.now.counts) (senders self.now.counts)) }
    {
        let mut shares = Vec::new(self.alloc);
        for source in 0..=u8::MAX {
            self.put_share(source, microseconds, &mut shares)?;
        }
        Ok(shares)
    }

    /// Appends the share of a source, if it has sent a frame.
    fn put_share(
        &self,
        source: u8,
        microseconds: u64,
        shares: &mut Vec<Share>,
    ) -> Result<(), AllocError>
        ensures { OnOk result (shares.new.items ≡ shares.old.items ++ map (share_of microseconds self.now.counts) (senders_among self.now.counts (source ∷ []))) }
    {
        let counts = self.counts_from(source);
        if counts.frames > 0 {
            let load = load_of(counts.bits, microseconds);
            shares.push(Share {
                source,
                counts,
                load,
            })?;
        }
        Ok(())
    }
}
