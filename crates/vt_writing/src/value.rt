//! The values of a record.

ghost use Rattle.std.specs.Prelude.{◌≡◌, ◌++◌, OnOk};
ghost use Rattle.std.specs.List.{AllByRecursion, flat_map};
ghost use Rattle.vt_writing.specs.Values.{Fitting, is_count, spelling};

use crate::entry::{entries_fit, put_entries};
use crate::ranges;
use crate::write::{put_u8, put_u16, put_u32};
use std::alloc::AllocError;
use vt_kinds::{Child, Decimals, Language, MacroEntry, ObjectId, Point, Scale};

/// The value of a field in an object's record. The values that two objects of one kind have in a field are of one variant, and
/// equal by `==` exactly if they are the same in the record.
#[derive(Clone, Copy, PartialEq, Eq)]
pub enum Value<'a> {
    Byte(u8),
    /// A number of two bytes, or the ID of an object.
    Word(u16),
    Long(u32),
    SignedLong(i32),
    Scale(Scale),
    Decimals(Decimals),
    /// The number of children or keys.
    ObjectCount(u8),
    MacroCount(u8),
    /// The number of languages, items or points, or of the bytes of a short text.
    Count(u8),
    /// The number of bytes of a long text or of a macro.
    LongCount(u16),
    /// The number of bytes of a picture.
    PictureCount(u32),
    Children(&'a [Child]),
    Keys(&'a [ObjectId]),
    Items(&'a [ObjectId]),
    Macros(&'a [MacroEntry]),
    Languages(&'a [Language]),
    Points(&'a [Point]),
    Bytes(&'a [u8]),
}

// A list in an `ArrayVec` needs a value for its free places.
impl Default for Value<'_> {
    fn default() -> Self {
        Value::Byte(0)
    }
}

impl Value<'_> {
    /// Whether the value is the number of entries or bytes of a later one.
    pub fn is_count(&self) -> bool
        ensures { result ≡ is_count self.now }
    {
        matches!(
            self,
            Value::ObjectCount(_)
                | Value::MacroCount(_)
                | Value::Count(_)
                | Value::LongCount(_)
                | Value::PictureCount(_)
        )
    }

    /// Appends the value.
    fn write(&self, out: &mut Vec<u8>) -> Result<(), AllocError>
        ensures { OnOk result (out.new.items ≡ out.old.items ++ spelling self.now) }
    {
        match *self {
            Value::Byte(n) | Value::ObjectCount(n) | Value::MacroCount(n) | Value::Count(n) =>
                put_u8(out, n),
            Value::Word(n) | Value::LongCount(n) => put_u16(out, n),
            Value::Long(n) | Value::PictureCount(n) => put_u32(out, n),
            Value::SignedLong(n) => put_u32(out, n.cast_unsigned()),
            Value::Scale(scale) => out.extend_from_slice(&scale.to_bytes()),
            Value::Decimals(decimals) => put_u8(out, decimals.count()),
            Value::Children(children) => put_entries(out, children),
            Value::Keys(keys) => put_entries(out, keys),
            Value::Items(items) => put_entries(out, items),
            Value::Macros(macros) => put_entries(out, macros),
            Value::Languages(languages) => put_entries(out, languages),
            Value::Points(points) => put_entries(out, points),
            Value::Bytes(bytes) => out.extend_from_slice(bytes),
        }
    }

    /// Theorem: the value fits its field.
    fn fits(&self)
        ensures { Fitting self.now }
    {
        match *self {
            Value::Children(children) => entries_fit(children),
            Value::Keys(keys) => entries_fit(keys),
            Value::Items(items) => entries_fit(items),
            Value::Macros(macros) => entries_fit(macros),
            Value::Languages(languages) => entries_fit(languages),
            Value::Points(points) => entries_fit(points),
            Value::Byte(n) | Value::ObjectCount(n) | Value::MacroCount(n) | Value::Count(n) =>
                ranges::byte(n),
            Value::Word(n) | Value::LongCount(n) => ranges::word(n),
            Value::Long(n) | Value::PictureCount(n) => ranges::long(n),
            Value::SignedLong(n) => ranges::signed_long(n),
            Value::Scale(scale) => ranges::scale(scale),
            Value::Decimals(decimals) => ranges::decimals(decimals),
            Value::Bytes(bytes) => ranges::bytes(bytes),
        }
    }
}

/// Appends each value.
pub(crate) fn write_each(values: &[Value], out: &mut Vec<u8>) -> Result<(), AllocError>
    ensures { OnOk result (out.new.items ≡ out.old.items ++ flat_map spelling values.now) }
{
    for value in values {
        value.write(out)?;
    }
    Ok(())
}

/// Theorem: each value fits its field.
pub(crate) fn each_fits(values: &[Value])
    ensures { AllByRecursion Fitting values.now }
{
    for value in values {
        value.fits();
    }
}
