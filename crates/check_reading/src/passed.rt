//! Records of types that this terminal leaves out, and whose length is known.

ghost use Rattle.std.specs.Prelude.{◌≡◌, ◌≤◌, ◌<◌, length, IfSome};
ghost use Rattle.check_reading.specs.Passed as passed;

use byteorder::{ByteOrder, LittleEndian};
use vt_objects::ObjectId;
use vt_records::RecordFault;

/// A record of a type that this terminal leaves out. It is passed over: the records after it are read.
#[derive(Clone, Copy, PartialEq, Eq)]
pub struct PassedRecord {
    /// The ID of the object.
    pub id: ObjectId,
    /// The number of its type: 29 to 37, 39 or 40.
    pub number: u8,
    /// The index of the record's first byte.
    pub at: usize,
}

/// The number of bytes of the record at the front, if it has this fault for its type, its length is known, and it is whole.
pub(crate) fn passed_size(fault: RecordFault, bytes: &[u8]) -> Option<usize>
    ensures size { result ≡ passed.passed_size fault bytes.now }
    ensures whole { IfSome result (λ size. 2 < size × (size ≤ length bytes.now)) }
{
    if !matches!(fault, RecordFault::LeftOutType | RecordFault::UnknownType) {
        return None;
    }
    let size = size_in(bytes)?;
    if size <= bytes.len() {
        Some(size)
    } else {
        None
    }
}

/// The number of bytes of a record by its type and its counts (ISO 11783-6, the section of each object).
fn size_in(bytes: &[u8]) -> Option<usize>
    ensures size { result ≡ passed.size_in bytes.now }
    ensures some { IfSome result (λ size. 2 < size) }
{
    match byte(bytes, 2) {
        29 | 31 | 32 => Some(6 + 6 * byte(bytes, 5)),
        30 => Some(7 + 6 * byte(bytes, 6)),
        33 => Some(6),
        34 => Some(17 + 2 * byte(bytes, 14) + 6 * byte(bytes, 15) + 2 * byte(bytes, 16)),
        35 => Some(10 + 2 * byte(bytes, 8) + 2 * byte(bytes, 9)),
        36 => Some(34),
        37 => Some(12 + 2 * byte(bytes, 10) + 2 * byte(bytes, 11)),
        39 => Some(5 + word(bytes, 3)),
        40 => Some(5 + 7 * word(bytes, 3)),
        _ => None,
    }
}

/// The byte at an index, or 0 past the end.
fn byte(bytes: &[u8], at: usize) -> usize
    ensures value { result ≡ passed.byte bytes.now at }
    ensures small { result ≤ 255 }
{
    match bytes.get(at) {
        Some(byte) => usize::from(*byte),
        None => 0,
    }
}

/// The number of two bytes at an index.
fn word(bytes: &[u8], at: usize) -> usize
    requires { at ≤ 3 }
    ensures value { result ≡ passed.word bytes.now at }
    ensures small { result ≤ 65535 }
{
    byte(bytes, at) + 256 * byte(bytes, at + 1)
}

/// The record of a type that is left out, by its first bytes.
pub(crate) fn passed_record(bytes: &[u8], at: usize) -> PassedRecord
    requires { 2 < length bytes.now }
    ensures { result ≡ passed.passed_record bytes.now at }
{
    PassedRecord {
        id: ObjectId::from_raw(LittleEndian::read_u16(&bytes[0..2])),
        number: bytes[2],
        at,
    }
}
