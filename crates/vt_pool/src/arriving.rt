//! Pool uploads, read while their pieces arrive.

ghost use Rattle.std.specs.Prelude.{◌≡◌, ◌≤◌, ◌+◌, ◌-◌, [], ◌++◌, length, drop, List, vec_len, vec_capacity, IfOk, IfErr, OnOk, OnErr, IsOk, IfSome, IfNone};
ghost use Rattle.vt_pool.specs.PoolUploads.{IsLasting, HasNoFaultYet, IsReadTo, WereReadTo};
ghost use Rattle.vt_pool.specs.Pools.{PoolEntry, AreRecords, joined, IsInForce, IsFault, IsWantOfMemory};

use crate::OutOfMemory;
use crate::passing::pass_records;
use crate::pool::{Pool, read_pool};
use std::alloc::Global;
use std::marker::Model;
use vt_records::PoolFault;

/// A pool upload: its bytes so far and its spare capacity. Its result does not depend on how the pool was cut into
/// pieces. ISO 11783-6; docs/PROFILE.md, "Object Pool Transfer (11)".
pub struct Reading {
    bytes: Vec<u8>,
    // The index of the pool's first byte.
    start: usize,
    // The number of bytes in whole records, and the lasting fault, which more bytes do not cure.
    whole: usize,
    fault: Option<PoolFault>,
    alloc: Global,
}

// Written out, so that the crates above need not prove it again.
impl Drop for Reading {
    fn drop(self) {
        let Reading {
            bytes: _bytes,
            start: _start,
            whole: _whole,
            fault: _fault,
            alloc: _alloc,
        } = self;
    }
}

impl Model for Reading {
    ghost use Rattle.std.specs.Prelude.{◌≤◌, ◌-◌, drop, vec_len, vec_capacity};
    ghost use Rattle.vt_pool.specs.PoolUploads.{Arrived, arrived_code, IsReadTo};

    ghost Value = { Arrived };

    ghost coded = { arrived_code };

    ghost view = { λ r. record { bytes = drop r.start r.bytes.items; spare = vec_capacity r.bytes - vec_len r.bytes } };

    ghost invariant = { λ r. (r.start ≤ vec_len r.bytes) × IsReadTo (drop r.start r.bytes.items) r.whole r.fault };
}

impl Reading {
    /// Makes an empty upload, without an allocation.
    pub fn new(alloc: Global) -> Reading
        ensures bytes { result.bytes ≡ [] }
        ensures spare { result.spare ≡ 0 }
    {
        Reading {
            bytes: Vec::new(alloc),
            start: 0,
            whole: 0,
            fault: None,
            alloc,
        }
    }

    /// Appends the bytes of a piece from index `from` on, and reads the records that they complete. Does not allocate within
    /// the reserved capacity; an empty upload takes over the piece without a copy. After an error the piece is returned, and
    /// the upload is unchanged. docs/PROFILE.md, "Object Pool Transfer (11)".
    pub fn feed(&mut self, piece: Vec<u8>, from: usize) -> Result<(), (Vec<u8>, OutOfMemory)>
        requires { from ≤ length piece.items }
        ensures ok { OnOk result (self.new.bytes ≡ self.old.bytes ++ drop from piece.items) }
        ensures err { OnErr result (self.new ≡ self.old) }
        ensures back { IfErr result (λ refused. refused.0.items ≡ piece.items) }
        ensures empty { self.old.bytes ≡ [] → IsOk result }
        ensures ready { length piece.items ≤ from + self.old.spare → IsOk result }
    {
        append(&mut self.bytes, &mut self.start, piece, from)?;
        let (whole, fault) = read_on(&self.bytes[self.start..], self.whole, self.fault);
        self.whole = whole;
        self.fault = fault;
        Ok(())
    }

    /// Reserves capacity for `count` more bytes. After an error the upload is unchanged.
    pub fn reserve(&mut self, count: usize) -> Result<(), OutOfMemory>
        ensures bytes { self.new.bytes ≡ self.old.bytes }
        ensures ok { OnOk result (count ≤ self.new.spare) }
        ensures spare { self.old.spare ≤ self.new.spare }
        ensures err { OnErr result (self.new ≡ self.old) }
        ensures ready { count ≤ self.old.spare → IsOk result }
    {
        self.bytes.reserve(count)
    }

    /// The fault of the bytes so far, if more bytes cannot cure it. `None` if they have no fault, or only end inside a
    /// record. Does not allocate.
    pub fn fault(&self) -> Option<PoolFault>
        ensures some { IfSome result (λ fault. IsFault self.now.bytes fault × IsLasting fault) }
        ensures none { IfNone result (HasNoFaultYet self.now.bytes) }
    {
        self.fault
    }

    /// Reads the bytes so far as a pool, like `read_pool`, independent of their pieces. An error names the first faulty
    /// record.
    pub fn pool(&self) -> Result<Pool<'_>, PoolFault>
        ensures pool { IfOk result (λ pool. (records : List PoolEntry) × AreRecords records × (self.now.bytes ≡ joined records) × IsInForce records pool) }
        ensures only { (records : List PoolEntry) → AreRecords records → self.now.bytes ≡ joined records → IfErr result IsWantOfMemory }
        ensures fault { IfErr result (IsFault self.now.bytes) }
    {
        read_pool(self.alloc, &self.bytes[self.start..])
    }
}

// Appends a piece; if no bytes follow `start` yet, the piece becomes the buffer without a copy.
fn append(
    bytes: &mut Vec<u8>,
    start: &mut usize,
    piece: Vec<u8>,
    from: usize,
) -> Result<(), (Vec<u8>, OutOfMemory)>
    requires start { start.old ≤ vec_len bytes.old }
    requires from { from ≤ length piece.items }
    ensures start { start.new ≤ vec_len bytes.new }
    ensures ok { OnOk result (drop start.new bytes.new.items ≡ drop start.old bytes.old.items ++ drop from piece.items) }
    ensures err { OnErr result ((start.new ≡ start.old) × (bytes.new.items ≡ bytes.old.items)) }
    ensures spare { OnErr result ((vec_len bytes.new ≡ vec_len bytes.old) × (vec_capacity bytes.new ≡ vec_capacity bytes.old)) }
    ensures back { IfErr result (λ refused. refused.0.items ≡ piece.items) }
    ensures empty { drop start.old bytes.old.items ≡ [] → IsOk result }
    ensures ready { length piece.items ≤ from + (vec_capacity bytes.old - vec_len bytes.old) → IsOk result }
{
    if bytes.len() == *start {
        *bytes = piece;
        *start = from;
        return Ok(());
    }
    if let Err(error) = bytes.reserve(piece.len() - from) {
        return Err((piece, error));
    }
    // The capacity is reserved, so this cannot fail.
    let _ = bytes.extend_from_slice(&piece[from..]);
    Ok(())
}

// Reads the records that the last bytes complete. An earlier fault stays.
fn read_on(pool: &[u8], whole: usize, fault: Option<PoolFault>) -> (usize, Option<PoolFault>)
    requires { WereReadTo pool.now whole fault }
    ensures { IsReadTo pool.now result.0 result.1 }
{
    match fault {
        Some(_) => (whole, fault),
        None => pass_records(pool, whole),
    }
}
