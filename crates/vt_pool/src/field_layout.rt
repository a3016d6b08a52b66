//! The layout of a record's fields: enough to find the record's end and its faults.

ghost use Rattle.std.specs.Prelude.{◌≡◌, ◌<◌, ◌≤◌, ◌^◌, length, take, drop, IfSome, IfNone};
ghost use Rattle.vt_pool.specs.FieldLayouts.{count_in, with_count, field_size, counts_behind, field_fault, IsLongEnough};

use byteorder::{ByteOrder, LittleEndian};
use vt_kinds::{Decimals, Scale};
use vt_records::PoolFault;

/// The elements that a count field counts.
#[derive(Clone, Copy)]
pub enum Counted {
    Objects,
    Macros,
    Others,
}

/// The layout of a record's field.
#[derive(Clone, Copy)]
pub enum FieldLayout {
    /// A number of this many bytes.
    Number(usize),
    /// The number of entries of a later list, in this many bytes.
    Count(Counted, usize),
    /// A list of as many entries as counted, each of this many bytes.
    List(Counted, usize),
    /// The four bytes of a scale.
    Scale,
    /// The byte of decimals.
    Decimals,
}

/// The counts of a record read so far.
#[derive(Clone, Copy)]
pub struct EntryCounts {
    objects: usize,
    macros: usize,
    others: usize,
}

impl EntryCounts {
    pub fn none() -> EntryCounts
        ensures { result ≡ record { objects = 0; macros = 0; others = 0 } }
    {
        EntryCounts {
            objects: 0,
            macros: 0,
            others: 0,
        }
    }

    fn get(self, of: Counted) -> usize
        ensures { result ≡ count_in self of }
    {
        match of {
            Counted::Objects => self.objects,
            Counted::Macros => self.macros,
            Counted::Others => self.others,
        }
    }

    fn with(self, of: Counted, count: usize) -> EntryCounts
        ensures { result ≡ with_count self of count }
    {
        match of {
            Counted::Objects => EntryCounts {
                objects: count,
                ..self
            },
            Counted::Macros => EntryCounts {
                macros: count,
                ..self
            },
            Counted::Others => EntryCounts {
                others: count,
                ..self
            },
        }
    }
}

impl FieldLayout {
    /// Splits the field's bytes off the front, given the counts before it; `None` if the bytes are too few.
    pub fn split<'a>(self, counts: EntryCounts, bytes: &'a [u8]) -> Option<(&'a [u8], &'a [u8])>
        ensures there { IfSome result (λ split. field_size self counts ≤ length bytes.now) }
        ensures front { IfSome result (λ split. split.0.now ≡ take (field_size self counts) bytes.now) }
        ensures rest { IfSome result (λ split. split.1.now ≡ drop (field_size self counts) bytes.now) }
        ensures none { IfNone result (length bytes.now < field_size self counts) }
    {
        let size = self.size(counts)?;
        if bytes.len() < size {
            return None;
        }
        Some(bytes.split_at(size))
    }

    /// The number of bytes of the field, or `None` if it does not fit a `usize`.
    fn size(self, counts: EntryCounts) -> Option<usize>
        ensures some { IfSome result (λ size. size ≡ field_size self counts) }
        ensures none { IfNone result (2 ^ 64 ≤ field_size self counts) }
    {
        match self {
            FieldLayout::Number(size) | FieldLayout::Count(_, size) => Some(size),
            FieldLayout::List(of, size) => counts.get(of).checked_mul(size),
            FieldLayout::Scale => Some(4),
            FieldLayout::Decimals => Some(1),
        }
    }

    /// The counts after the field, which has these bytes.
    pub fn count(self, bytes: &[u8], counts: EntryCounts) -> EntryCounts
        requires { IsLongEnough self bytes.now }
        ensures { result ≡ counts_behind self bytes.now counts }
    {
        match self {
            FieldLayout::Count(of, size) => {
                counts.with(of, LittleEndian::read_uint(bytes, size) as usize)
            }
            _ => counts,
        }
    }

    /// The fault of the field, which has these bytes and is at index `at` of the pool.
    pub fn fault(self, bytes: &[u8], at: usize) -> Option<PoolFault>
        requires { IsLongEnough self bytes.now }
        ensures { result ≡ field_fault self bytes.now at }
    {
        match self {
            FieldLayout::Scale => {
                match Scale::from_bytes([bytes[0], bytes[1], bytes[2], bytes[3]]) {
                    Some(_) => None,
                    None => Some(PoolFault::Scale { at }),
                }
            }
            FieldLayout::Decimals => match Decimals::new(bytes[0]) {
                Some(_) => None,
                None => Some(PoolFault::Decimals { at }),
            },
            _ => None,
        }
    }
}
