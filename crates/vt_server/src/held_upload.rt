//! The upload of a set, in a box.

ghost use Rattle.std.specs.Prelude.{◌≡◌, ◌≤◌, ◌+◌, ◌-◌, ◌^◌, ◌++◌, [], length, min, drop, IfOk, OnOk, OnErr};

use crate::OutOfMemory;
use std::alloc::Global;
use std::marker::Model;
use vt_pool::Reading;

/// The upload of a set. It is in a box, so that a table of 256 of them takes 2 KB, whatever an upload takes.
#[derive(Drop)]
pub(crate) struct HeldUpload {
    counted: Box<Counted>,
}

impl Model for HeldUpload {
    ghost use Rattle.vt_pool.specs.PoolUploads.{Arrived, arrived_code};

    ghost Value = { Arrived };

    ghost coded = { arrived_code };

    ghost view = { λ u. u.counted.value };
}

/// An upload with the number of its bytes so far.
#[derive(Drop)]
struct Counted {
    reading: Reading,
    len: usize,
}

impl Model for Counted {
    ghost use Rattle.vt_pool.specs.PoolUploads.{Arrived, arrived_code};
    ghost use Rattle.std.specs.Prelude.{◌≡◌, ◌-◌, ◌^◌, length, min};

    ghost Value = { Arrived };

    ghost coded = { arrived_code };

    ghost view = { λ u. u.reading };

    ghost invariant = { λ u. u.len ≡ min (length u.reading.bytes) (2 ^ 64 - 1) };
}

impl HeldUpload {
    /// Makes an empty upload.
    pub(crate) fn new(alloc: Global) -> Result<HeldUpload, OutOfMemory>
        ensures { IfOk result (λ upload. upload.bytes ≡ []) }
    {
        let counted = Counted {
            reading: Reading::new(alloc),
            len: 0,
        };
        let counted = Box::new(alloc, counted)?;
        Ok(HeldUpload { counted })
    }

    /// The bytes so far.
    pub(crate) fn reading(&self) -> &Reading
        ensures { result.now ≡ self.now }
    {
        &self.counted.reading
    }

    /// The number of the bytes so far.
    pub(crate) fn len(&self) -> usize
        ensures { result ≡ min (length self.now.bytes) (2 ^ 64 - 1) }
    {
        self.counted.len
    }

    /// Reserves capacity for `count` more bytes. After an error the upload is unchanged.
    pub(crate) fn reserve(&mut self, count: usize) -> Result<(), OutOfMemory>
        ensures bytes { self.new.bytes ≡ self.old.bytes }
        ensures ok { OnOk result (count ≤ self.new.spare) }
        ensures err { OnErr result (self.new ≡ self.old) }
    {
        self.counted.reading.reserve(count)
    }

    /// Appends the bytes of a piece from index `from` on. The upload has capacity for them.
    pub(crate) fn feed(&mut self, piece: Vec<u8>, from: usize)
        requires from { from ≤ length piece.items }
        requires spare { length piece.items ≤ from + self.old.spare }
        ensures { self.new.bytes ≡ self.old.bytes ++ drop from piece.items }
    {
        self.counted.feed(piece, from);
    }
}

impl Counted {
    /// Appends the bytes of a piece from index `from` on. The upload has capacity for them.
    fn feed(&mut self, piece: Vec<u8>, from: usize)
        requires from { from ≤ length piece.items }
        requires spare { length piece.items ≤ from + self.old.spare }
        ensures { self.new.bytes ≡ self.old.bytes ++ drop from piece.items }
    {
        let count = piece.len() - from;
        match self.reading.feed(piece, from) {
            Ok(()) => self.len = self.len.saturating_add(count),
            Err(_) => unreachable!(),
        }
    }
}
