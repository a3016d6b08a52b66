//! Reads numbers and bytes from the front of a slice.

ghost use Rattle.std.specs.Prelude.{◌≡◌, ◌<◌, ◌≤◌, ◌+◌, length, Some, IfOk, IfErr};
ghost use Rattle.std.specs.Int.{w16, w32};
ghost use Rattle.byteorder.specs.Endian.{little_number};
ghost use Rattle.vt_records.specs.TableReads.{Finds, number_at, signed_at, bytes_at};
ghost use Rattle.vt_records.specs.declared.record_fault.RecordFault.TheVariants as stops;

use crate::record_fault::RecordFault;
use byteorder::{ByteOrder, LittleEndian};
use std::marker::Model;
use vt_kinds::{LongText, MacroBytes, ObjectId, PictureBytes, ShortText};

/// The remaining bytes of a record. Methods for numbers require enough bytes: one call of `need` tests this for all
/// numbers at the head of a record.
#[derive(Drop)]
pub struct Reader<'a> {
    rest: &'a [u8],
}

impl<'a> Model for Reader<'a> {
    ghost use Rattle.std.specs.Prelude.{ℕ, List};

    ghost Value = { List ℕ };

    ghost view = { λ r. r.rest.now };
}

impl<'a> Reader<'a> {
    pub fn new(bytes: &'a [u8]) -> Reader<'a>
        ensures { result ≡ bytes.now }
    {
        Reader { rest: bytes }
    }

    /// Returns the remaining bytes.
    pub fn rest(self) -> &'a [u8]
        ensures { result.now ≡ self.entry }
    {
        self.rest
    }

    /// Fails with `Truncated` if fewer than `count` bytes remain.
    pub fn need(&self, count: usize) -> Result<(), RecordFault>
        ensures ok { IfOk result (λ _. count ≤ length self.now) }
        ensures err { IfErr result (λ stop. (stop ≡ stops.Truncated) × (length self.now < count)) }
    {
        if self.rest.len() < count {
            return Err(RecordFault::Truncated);
        }
        Ok(())
    }

    #[tactic(auto, unfolding(crate::specs::TableReads::number_at))]
    pub fn u8(&mut self) -> u8
        requires { 1 ≤ length self.old }
        ensures read { number_at 1 self.old ≡ Some (result, self.new) }
        ensures len { length self.new + 1 ≡ length self.old }
    {
        self.front(1)[0]
    }

    /// Reads one byte, or fails if none remains.
    #[tactic(auto, unfolding(crate::specs::TableReads::number_at))]
    pub fn try_u8(&mut self) -> Result<u8, RecordFault>
        ensures { Finds (λ x. (x, self.new)) result (number_at 1 self.old) }
    {
        let front = self.bytes(1)?;
        Ok(front[0])
    }

    #[tactic(auto, unfolding(crate::specs::TableReads::number_at))]
    pub fn u16(&mut self) -> u16
        requires { 2 ≤ length self.old }
        ensures read { number_at 2 self.old ≡ Some (result, self.new) }
        ensures len { length self.new + 2 ≡ length self.old }
    {
        LittleEndian::read_u16(self.front(2))
    }

    #[tactic(auto, unfolding(crate::specs::TableReads::number_at))]
    pub fn u32(&mut self) -> u32
        requires { 4 ≤ length self.old }
        ensures read { number_at 4 self.old ≡ Some (result, self.new) }
        ensures len { length self.new + 4 ≡ length self.old }
    {
        LittleEndian::read_u32(self.front(4))
    }

    pub fn id(&mut self) -> ObjectId
        requires { 2 ≤ length self.old }
        ensures read { number_at 2 self.old ≡ Some (result, self.new) }
        ensures len { length self.new + 2 ≡ length self.old }
    {
        ObjectId::from_raw(self.u16())
    }

    #[tactic(auto, unfolding(crate::specs::TableReads::signed_at))]
    pub fn i16(&mut self) -> i16
        requires { 2 ≤ length self.old }
        ensures read { signed_at w16 self.old ≡ Some (result, self.new) }
        ensures len { length self.new + 2 ≡ length self.old }
    {
        self.u16().cast_signed()
    }

    #[tactic(auto, unfolding(crate::specs::TableReads::signed_at))]
    pub fn i32(&mut self) -> i32
        requires { 4 ≤ length self.old }
        ensures read { signed_at w32 self.old ≡ Some (result, self.new) }
        ensures len { length self.new + 4 ≡ length self.old }
    {
        self.u32().cast_signed()
    }

    /// Reads four bytes.
    #[tactic(auto, unfolding(crate::specs::TableReads::number_at))]
    pub fn four_bytes(&mut self) -> [u8; 4]
        requires { 4 ≤ length self.old }
        ensures read { number_at 4 self.old ≡ Some (little_number 4 result, self.new) }
        ensures len { length self.new + 4 ≡ length self.old }
    {
        let front = self.front(4);
        [front[0], front[1], front[2], front[3]]
    }

    /// Splits `count` bytes off the front; so many must remain.
    #[tactic(auto, unfolding(crate::specs::TableReads::bytes_at))]
    fn front(&mut self, count: usize) -> &'a [u8]
        requires { count ≤ length self.old }
        ensures read { bytes_at count self.old ≡ Some (result.now, self.new) }
        ensures front { length result.now ≡ count }
        ensures len { length self.new + count ≡ length self.old }
    {
        let (front, rest) = self.rest.split_at(count);
        self.rest = rest;
        front
    }

    #[tactic(auto, unfolding(crate::specs::TableReads::bytes_at))]
    pub fn bytes(&mut self, count: usize) -> Result<&'a [u8], RecordFault>
        ensures read { Finds (λ x. (x.now, self.new)) result (bytes_at count self.old) }
        ensures len { IfOk result (λ x. length x.now ≡ count) }
    {
        self.need(count)?;
        Ok(self.front(count))
    }

    /// Reads a short text of `count` bytes.
    pub fn short_text(&mut self, count: u8) -> Result<ShortText<&'a [u8]>, RecordFault>
        ensures read { Finds (λ x. (x, self.new)) result (bytes_at count self.old) }
        ensures len { IfOk result (λ x. length x ≡ count) }
    {
        Ok(ShortText::new(self.bytes(usize::from(count))?))
    }

    /// Reads a long text of `count` bytes.
    pub fn long_text(&mut self, count: u16) -> Result<LongText<&'a [u8]>, RecordFault>
        ensures read { Finds (λ x. (x, self.new)) result (bytes_at count self.old) }
        ensures len { IfOk result (λ x. length x ≡ count) }
    {
        Ok(LongText::new(self.bytes(usize::from(count))?))
    }

    /// Reads `count` bytes of a macro.
    pub fn macro_bytes(&mut self, count: u16) -> Result<MacroBytes<&'a [u8]>, RecordFault>
        ensures read { Finds (λ x. (x, self.new)) result (bytes_at count self.old) }
        ensures len { IfOk result (λ x. length x ≡ count) }
    {
        Ok(MacroBytes::new(self.bytes(usize::from(count))?))
    }

    /// Reads `count` bytes of a picture.
    pub fn picture_bytes(&mut self, count: u32) -> Result<PictureBytes<&'a [u8]>, RecordFault>
        ensures read { Finds (λ x. (x, self.new)) result (bytes_at count self.old) }
        ensures len { IfOk result (λ x. length x ≡ count) }
    {
        Ok(PictureBytes::new(self.bytes(count as usize)?))
    }
}
