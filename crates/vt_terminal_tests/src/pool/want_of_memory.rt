//! Tests of pools with failing allocations: an error changes nothing, and the call may be repeated.

ghost use Rattle.std.specs.Prelude.{◌<◌, ◌≤◌, length, IfOk};
ghost use Rattle.vt_kinds.specs.Ids.{null_id};

use std::alloc::{AllocError, AllocGlobal, Global};
use std::process::Abort;
use std::test::Fail;
use vt_objects::{Object, ObjectId};
use vt_pool::{Pool, PoolFault, Reading, read_pool, write_object};

/// A record with each kind of list, text and bytes.
const RECORDS: &[u8] = &[
    0, 1, 0, 16, 17, 18, 19, 1, 1, 2, 20, 21, 22, 23, 24, 25, 26, 27, 28, 29, 30, 31, // Working Set
    3, 1, 3, 16, 17, 18, 19, 20, 2, 2, 21, 22, 23, 24, 25, 26, 27, 28, 29, 30, 31, 32, 33, 34, 35,
    36, // Container
    4, 1, 4, 16, 2, 1, 17, 18, 19, 20, 21, 22, // Soft Key Mask
    8, 1, 8, 16, 17, 18, 19, 20, 21, 22, 23, 24, 25, 26, 27, 28, 3, 29, 30, 31, 32, 1, 33, 34, // Input String
    10, 1, 10, 16, 17, 18, 19, 20, 21, 22, 2, 23, 1, 24, 25, 26, 27, 28, 29, // Input List
    16, 1, 16, 16, 17, 18, 19, 20, 21, 22, 23, 24, 3, 1, 25, 26, 27, 28, 29, 30, 31, 32, 33, 34,
    35, 36, 37, 38, // Output Polygon
    20, 1, 20, 16, 17, 18, 19, 20, 21, 22, 23, 24, 5, 0, 0, 0, 1, 25, 26, 27, 28, 29, 30, 31, // Picture Graphic
    22, 1, 22, 4, 0, 16, 17, 18, 19, // String Variable
    27, 1, 27, 16, 17, // Object Pointer
    28, 1, 28, 8, 0, 16, 17, 18, 19, 20, 21, 22, 23, // Macro
];

/// Where the records begin, and the pool's end.
const BEGINS: &[usize] = &[0, 22, 48, 60, 84, 103, 131, 155, 164, 169, 182];

fn is_begin(at: usize) -> bool {
    BEGINS.contains(&at)
}

/// A message with these bytes after its function.
fn message(alloc: Global, bytes: &[u8]) -> Result<Vec<u8>, AllocError>
    ensures { IfOk result (λ message. 1 ≤ length message.items) }
{
    let mut message = Vec::new(alloc);
    message.push(0x11)?;
    message.extend_from_slice(bytes)?;
    Ok(message)
}

fn read_again<'a>(alloc: Global, bytes: &'a [u8]) -> Result<Pool<'a>, PoolFault> {
    match read_pool(alloc, bytes) {
        Ok(pool) => Ok(pool),
        Err(PoolFault::OutOfMemory { at }) if is_begin(at) => read_pool(alloc, bytes),
        Err(fault) => Err(fault),
    }
}

fn pool_again<'a>(reading: &'a Reading) -> Result<Pool<'a>, PoolFault> {
    match reading.pool() {
        Ok(pool) => Ok(pool),
        Err(PoolFault::OutOfMemory { at }) if is_begin(at) => reading.pool(),
        Err(fault) => Err(fault),
    }
}

fn copied_again(alloc: Global, object: &Object<&[u8]>) -> Result<Object<Vec<u8>>, AllocError> {
    match object.copied(alloc) {
        Ok(copy) => Ok(copy),
        Err(_) => object.copied(alloc),
    }
}

/// Appends a record; repeats the call once after an error.
fn write_again(
    rt: &(impl Abort + AllocGlobal),
    id: ObjectId,
    object: &Object<Vec<u8>>,
    out: &mut Vec<u8>,
) -> Result<(), AllocError>
    requires { id < null_id }
{
    let before = out.len();
    if write_object(rt.alloc(), id, object, out).is_ok() {
        return Ok(());
    }
    assert_eq!(rt; out.len(), before);
    write_object(rt.alloc(), id, object, out)
}

/// Expects that copies of a pool's objects are written as the bytes that were read.
fn expect_written(
    rt: &(impl Abort + AllocGlobal),
    pool: &Pool<'_>,
    bytes: &[u8],
) -> Result<(), AllocError> {
    let mut out = Vec::new(rt.alloc());
    for (id, object) in pool.objects() {
        if id.raw() < 0xFFFF {
            let copy = copied_again(rt.alloc(), object)?;
            write_again(rt, *id, &copy, &mut out)?;
        }
    }
    assert_eq!(rt; out.as_slice(), bytes);
    Ok(())
}

fn message_again(alloc: Global, bytes: &[u8]) -> Result<Vec<u8>, AllocError>
    ensures { IfOk result (λ message. 1 ≤ length message.items) }
{
    match message(alloc, bytes) {
        Ok(message) => Ok(message),
        Err(_) => message(alloc, bytes),
    }
}

/// Adds a piece; repeats the call once after an error.
fn feed_again(
    rt: &(impl Abort + AllocGlobal),
    reading: &mut Reading,
    bytes: &[u8],
) -> Result<(), AllocError> {
    match reading.feed(message_again(rt.alloc(), bytes)?, 1) {
        Ok(()) => Ok(()),
        Err((piece, _)) => {
            assert!(rt; piece.get(1..) == Some(bytes));
            assert!(rt; reading.feed(piece, 1).is_ok());
            Ok(())
        }
    }
}

fn reserve_again(reading: &mut Reading, count: usize) -> Result<(), AllocError> {
    match reading.reserve(count) {
        Ok(()) => Ok(()),
        Err(_) => reading.reserve(count),
    }
}

fn part(bytes: &[u8], from: usize, to: usize) -> &[u8] {
    bytes.get(from..to).unwrap_or(&[])
}

// Uploads the bytes in three pieces; capacity is reserved for the last one, so it cannot fail.
fn expect_arrived(rt: &(impl Abort + AllocGlobal), bytes: &[u8]) -> Result<(), Fail> {
    let mut reading = Reading::new(rt.alloc());
    feed_again(rt, &mut reading, part(bytes, 0, 5))?;
    feed_again(rt, &mut reading, part(bytes, 5, 30))?;
    let rest = part(bytes, 30, bytes.len());
    reserve_again(&mut reading, rest.len())?;
    let last = message_again(rt.alloc(), rest)?;
    assert!(rt; reading.feed(last, 1).is_ok());
    let pool = pool_again(&reading)?;
    expect_written(rt, &pool, bytes)?;
    Ok(())
}

#[test]
fn want_of_memory(rt: HostRuntime) -> Result<(), Fail> {
    let pool = read_again(rt.alloc(), RECORDS)?;
    expect_written(&rt, &pool, RECORDS)?;
    expect_arrived(&rt, RECORDS)?;
    Ok(())
}
