//! Rows of bytes, filled from the first to the last.

ghost use Rattle.std.specs.Prelude.{◌≡◌, ◌≢◌, ◌≤◌, ◌<◌, ◌+◌, ◌*◌, ◌⊎◌, ◌++◌, [], length, drop, replicate, slice_index_or, IfOk, OnOk};

use crate::run::Run;
use std::alloc::{AllocError, Global};

/// Rows of bytes, as runs.
#[derive(Drop)]
pub(crate) struct Raster {
    runs: Vec<Run>,
    /// The number of bytes in a row.
    size: u16,
    /// The number of rows; 0 if a row has no bytes.
    height: u16,
    /// The row of the next byte.
    row: u16,
    /// The index of the next byte in its row.
    first: u16,
    ghost inside: { row < height → first < size },
    ghost most: { row ≤ height },
}

impl Raster {
    ghost use Rattle.draw_svg.specs.FilledRows.{IsFilled, HaveSameSize, Fills, AreFew};
    ghost use Rattle.draw_svg.specs.Rasters.{unpacked};

    /// Empty rows.
    pub(crate) fn new(alloc: Global, size: u16, height: u16) -> Raster
        ensures empty { IsFilled result [] }
        ensures rows { result.height * result.size ≡ height * size }
        ensures size { result.size ≡ size }
        ensures most { result.height ≤ height }
        ensures none { (result.runs.items ≡ []) × (result.row ≡ 0) }
    {
        Raster {
            runs: Vec::new(alloc),
            size,
            height: if size == 0 { 0 } else { height },
            row: 0,
            first: 0,
        }
    }

    /// The runs.
    pub(crate) fn into_runs(self) -> Vec<Run>
        ensures { result ≡ self.runs }
    {
        let Raster { runs, .. } = self;
        runs
    }

    /// Fills rows with bytes. Those after the end of the last row are ignored. Bytes of one value side by side become one run in each row.
    pub(crate) fn put_bytes(&mut self, bytes: &[u8]) -> Result<(), AllocError>
        ensures filled { OnOk result (Fills self.old self.new bytes.now) }
        ensures few { OnOk result (AreFew self.old self.new (length bytes.now)) }
    {
        let mut rest = bytes;
        while let [byte, ..] = rest {
            let count = repeats(rest);
            self.put(count, *byte)?;
            rest = &rest[count..];
        }
        Ok(())
    }

    /// Fills rows with pairs of a count and a byte. Bytes after the end of the last row are ignored, and so is a count without a byte.
    pub(crate) fn put_pairs(&mut self, pairs: &[u8]) -> Result<(), AllocError>
        ensures filled { OnOk result (Fills self.old self.new (unpacked pairs.now)) }
        ensures few { OnOk result (AreFew self.old self.new (length pairs.now)) }
    {
        let mut rest = pairs;
        while let [count, byte, after @ ..] = rest {
            self.put(usize::from(*count), *byte)?;
            rest = after;
        }
        Ok(())
    }

    /// Fills rows with a byte, `count` times or to the end of the last row.
    fn put(&mut self, count: usize, byte: u8) -> Result<(), AllocError>
        ensures filled { OnOk result (Fills self.old self.new (replicate count byte)) }
        ensures few { OnOk result (AreFew self.old self.new 1) }
    {
        let mut left = count;
        while left > 0 && self.row < self.height {
            left -= self.put_in_row(left, byte)?;
        }
        Ok(())
    }

    /// Puts a byte into the current row, `count` times or as often as there is room. Returns how often.
    fn put_in_row(&mut self, count: usize, byte: u8) -> Result<usize, AllocError>
        requires some { 0 < count }
        requires row { self.old.row < self.old.height }
        ensures part { IfOk result (λ part. (0 < part) × (part ≤ count)) }
        ensures filled { IfOk result (λ part. Fills self.old self.new (replicate part byte)) }
        ensures one { OnOk result (length self.new.runs.items ≡ length self.old.runs.items + 1) }
        ensures rows { IfOk result (λ part. ((part ≡ count) × (self.old.row ≤ self.new.row)) ⊎ (self.new.row ≡ self.old.row + 1)) }
    {
        let part = count.min(usize::from(self.size - self.first)) as u16;
        self.runs.push(Run {
            row: self.row,
            start: self.first,
            count: part,
            byte,
        })?;
        self.pass(part);
        Ok(usize::from(part))
    }

    /// Passes bytes of the current row, and ends the row if they are its last.
    fn pass(&mut self, count: u16)
        requires row { self.old.row < self.old.height }
        requires fits { self.old.first + count ≤ self.old.size }
        ensures position { self.new.row * self.new.size + self.new.first ≡ self.old.row * self.old.size + self.old.first + count }
        ensures rows { (self.new.row ≡ self.old.row) ⊎ (self.new.row ≡ self.old.row + 1) }
        ensures ended { self.old.first + count ≡ self.old.size → self.new.row ≡ self.old.row + 1 }
        ensures kept { (self.new.runs ≡ self.old.runs) × HaveSameSize self.old self.new }
    {
        let next = self.first + count;
        if next < self.size {
            self.first = next;
        } else {
            self.first = 0;
            self.row += 1;
        }
    }
}

/// The number of bytes at the front that are equal to the first.
fn repeats(bytes: &[u8]) -> usize
    requires { 0 < length bytes.now }
    ensures some { (0 < result) × (result ≤ length bytes.now) }
    ensures same { bytes.now ≡ replicate result (slice_index_or bytes.now 0 0) ++ drop result bytes.now }
    ensures all { result < length bytes.now → slice_index_or bytes.now result 0 ≢ slice_index_or bytes.now 0 0 }
{
    let mut count = 1usize;
    while count < bytes.len() && bytes[count] == bytes[0] {
        count += 1;
    }
    count
}
