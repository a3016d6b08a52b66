//! The sentences of faults of records.

use crate::checked_pool::CheckedPool;
use crate::label::Label;
use crate::types::type_name;
use byteorder::{ByteOrder, LittleEndian};
use std::fmt;
use std::num::f32_from_bits_with_nan;
use vt_objects::{Kind, ObjectId};
use vt_pool::PoolFault;

/// The place of the scale in the record of an Input Number, and in that of an Output Number. The decimals are four bytes behind it.
const SCALES: [(Kind, usize); 2] = [(Kind::InputNumber, 29), (Kind::OutputNumber, 21)];

/// The bytes from a scale to the decimals behind it.
const SCALE_BYTES: usize = 4;

/// The sentence of a fault, with what the bytes say of its record.
#[derive(Clone, Copy, Drop)]
pub(crate) struct FaultSentence<'a> {
    pub(crate) source: CheckedPool<'a>,
    pub(crate) fault: PoolFault,
}

impl fmt::Display for FaultSentence<'_> {
    fn fmt<W: fmt::Write>(&self, f: &mut fmt::Formatter<W>) -> fmt::Result {
        match self.fault {
            PoolFault::Truncated { at } => {
                f.write_str("the bytes end inside this record")?;
                self.write_record(f, at)?;
                self.write_before(f, at)
            }
            PoolFault::UnknownType { at } => {
                f.write_str("VT version 3 has no object of this type")?;
                self.write_type(f, at)
            }
            PoolFault::LeftOutType { at } => {
                f.write_str("an auxiliary function or input, which this terminal does not have")?;
                self.write_type(f, at)
            }
            PoolFault::Scale { at } => self.write_scale(f, at),
            PoolFault::Decimals { at } => self.write_decimals(f, at),
            PoolFault::OutOfMemory { .. } => {
                f.write_str("the memory for this record was refused")
            }
            PoolFault::NullId { at } => {
                f.write_str("the record has the ID 65535, which means no object")?;
                self.write_before(f, at)
            }
        }
    }
}

impl FaultSentence<'_> {
    /// Writes the ID and the type of a record of another type, and the record before it. A record that is passed over is what it seems, if all
    /// bytes after it could be read: then nothing is said of the one before.
    fn write_type<W: fmt::Write>(&self, f: &mut fmt::Formatter<W>, at: usize) -> fmt::Result {
        self.write_record(f, at)?;
        if self.source.is_passed(at) && self.source.is_read() {
            return Ok(());
        }
        self.write_before(f, at)
    }

    /// Writes the ID and the type of the record at an index, if the bytes have them.
    fn write_record<W: fmt::Write>(&self, f: &mut fmt::Formatter<W>, at: usize) -> fmt::Result {
        let Some([low, high, number, ..]) = self.source.bytes.get(at..) else {
            return Ok(());
        };
        let id = ObjectId::from_raw(u16::from_le_bytes([*low, *high]));
        write!(f, ": ID {}", id.raw())?;
        if let Some(name) = self.source.names.get(id) {
            write!(f, " `{name}`")?;
        }
        write!(f, ", type {number}")?;
        match (Kind::from_number(*number), type_name(*number)) {
            (Some(kind), _) => write!(f, " {kind}"),
            (None, Some(name)) => write!(f, " {name}"),
            (None, None) => Ok(()),
        }
    }

    /// Writes the record before the one at an index, if it has counts. If one of them is wrong, the next record does not begin where it ends.
    fn write_before<W: fmt::Write>(&self, f: &mut fmt::Formatter<W>, at: usize) -> fmt::Result {
        let Some(begin) = self.source.record_before(at) else {
            return Ok(());
        };
        match self.source.label_of_record(begin) {
            Some(label) if has_counts(label.kind) => write!(
                f,
                "; a count in the record before it, {label} at {begin}, may be wrong"
            ),
            Some(_) | None => Ok(()),
        }
    }

    fn write_scale<W: fmt::Write>(&self, f: &mut fmt::Formatter<W>, at: usize) -> fmt::Result {
        if let Some(label) = self.number_with(at, 0) {
            write!(f, "{label}: ")?;
        }
        let Some([b0, b1, b2, b3, ..]) = self.source.bytes.get(at..) else {
            return f.write_str("the scale is none of 1, 0.1, 0.01 and 0.001");
        };
        let scale = f32_from_bits_with_nan(LittleEndian::read_u32(&[*b0, *b1, *b2, *b3]));
        write!(f, "the scale {scale} is none of 1, 0.1, 0.01 and 0.001")?;
        match nearest_scale(scale) {
            Some(nearest) => write!(f, "; the nearest is {nearest}"),
            None => Ok(()),
        }
    }

    fn write_decimals<W: fmt::Write>(&self, f: &mut fmt::Formatter<W>, at: usize) -> fmt::Result {
        if let Some(label) = self.number_with(at, SCALE_BYTES) {
            write!(f, "{label}: ")?;
        }
        match self.source.bytes.get(at) {
            Some(decimals) => write!(f, "the number of decimals is {decimals}, above 7"),
            None => f.write_str("the number of decimals is above 7"),
        }
    }

    /// The number object whose record has its scale so many bytes before an index.
    fn number_with(&self, at: usize, behind: usize) -> Option<Label<'_>> {
        for (kind, place) in SCALES.iter() {
            if let Some(begin) = at.checked_sub(place.saturating_add(behind))
                && let Some(label) = self.source.label_of_record(begin)
                && label.kind == Some(*kind)
            {
                return Some(label);
            }
        }
        None
    }
}

/// Whether records of a kind have counts.
fn has_counts(kind: Option<Kind>) -> bool {
    !matches!(
        kind,
        Some(Kind::NumberVariable | Kind::ObjectPointer) | None
    )
}

/// The scale of this terminal that is nearest to another, by their ratio. `None` for what is no positive number.
fn nearest_scale(scale: f32) -> Option<&'static str> {
    if scale > 0.316_227_8 && scale < 1e30 {
        Some("1")
    } else if scale > 0.031_622_78 && scale < 1.0 {
        Some("0.1")
    } else if scale > 0.003_162_278 && scale < 1.0 {
        Some("0.01")
    } else if scale > 0.0 && scale < 1.0 {
        Some("0.001")
    } else {
        None
    }
}
