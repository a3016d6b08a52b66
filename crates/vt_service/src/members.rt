//! The members of a request.

ghost use Rattle.std.specs.Prelude.{◌≡◌, ◌⊎◌, ◌≤◌, Ok, Err, IfOk, IfErr, MatchResult};
ghost use Rattle.serde_json.specs.View.{view};
ghost use Rattle.vt_service.specs.Members.{bytes_in, frame_in, frame_of, member_name, most_of, name_in, number_in, text_in, typed_in};
ghost use Rattle.vt_service.specs.declared.members.Malformed.TheVariants as malformed;

use arrayvec::ArrayVec;
use hex::FromHexError;
use serde_json::Value;
use std::alloc::Global;
use vt_can::{CanId, Frame};
use vt_dialogs::{Typed, typed_of};

/// Why a line is no valid request.
#[derive(Clone, Copy, PartialEq, Eq)]
pub enum Malformed {
    /// Memory was refused. The line can be sent again.
    NoMemory,
    /// The line is no JSON in UTF-8, or is nested deeper than 127.
    NotJson,
    /// The line is no object with a member `do` that names a request.
    UnknownRequest,
    /// A member that the request needs is missing, or has another form.
    WrongMember(Member),
}

/// A member of a request.
#[derive(Clone, Copy, PartialEq, Eq)]
pub enum Member {
    Own,
    Name,
    Time,
    Address,
    Object,
    Value,
    Mask,
    X,
    Y,
    Frame,
    Pool,
    Text,
    Typed,
    Memory,
    SoftKeyWidth,
    SoftKeyHeight,
    VirtualSoftKeys,
    PhysicalSoftKeys,
    SmallFonts,
    LargeFonts,
    FontStyles,
    BootTime,
    GraphicType,
    Hardware,
    Width,
    Height,
}

impl Member {
    /// The name of the member.
    pub fn name(self) -> &'static str
        ensures { result.now ≡ member_name self }
    {
        match self {
            Member::Own => "own",
            Member::Name => "name",
            Member::Time => "time",
            Member::Address => "address",
            Member::Object => "object",
            Member::Value => "value",
            Member::Mask => "mask",
            Member::X => "x",
            Member::Y => "y",
            Member::Frame => "frame",
            Member::Pool => "pool",
            Member::Text => "text",
            Member::Typed => "typed",
            Member::Memory => "memory",
            Member::SoftKeyWidth => "soft_key_width",
            Member::SoftKeyHeight => "soft_key_height",
            Member::VirtualSoftKeys => "virtual_soft_keys",
            Member::PhysicalSoftKeys => "physical_soft_keys",
            Member::SmallFonts => "small_fonts",
            Member::LargeFonts => "large_fonts",
            Member::FontStyles => "font_styles",
            Member::BootTime => "boot_time",
            Member::GraphicType => "graphic_type",
            Member::Hardware => "hardware",
            Member::Width => "width",
            Member::Height => "height",
        }
    }

    /// The greatest number of a member that is a number. 0 for a text.
    fn most(self) -> u64
        ensures { result ≡ most_of self }
    {
        match self {
            Member::Own => 253,
            Member::Time => u64::MAX,
            Member::Value | Member::X | Member::Y | Member::Memory => 0xFFFF_FFFF,
            Member::Object | Member::Mask | Member::Width | Member::Height => 0xFFFF,
            Member::Address
            | Member::SoftKeyWidth
            | Member::SoftKeyHeight
            | Member::VirtualSoftKeys
            | Member::PhysicalSoftKeys
            | Member::SmallFonts
            | Member::LargeFonts
            | Member::FontStyles
            | Member::BootTime
            | Member::GraphicType
            | Member::Hardware => 0xFF,
            Member::Name | Member::Frame | Member::Pool | Member::Text | Member::Typed => 0,
        }
    }
}

/// The number of a member.
pub(crate) fn number_in(request: &Value, member: Member) -> Result<u64, Malformed>
    ensures value { result ≡ number_in (view request.now) member }
    ensures most { IfOk result (λ n. n ≤ most_of member) }
{
    match request.get(member.name()).and_then(Value::as_u64) {
        Some(number) if number <= member.most() => Ok(number),
        _ => Err(Malformed::WrongMember(member)),
    }
}

/// The number of a member in 8 bits.
pub(crate) fn number_8(request: &Value, member: Member) -> Result<u8, Malformed>
    requires { most_of member ≤ 255 }
    ensures { result ≡ number_in (view request.now) member }
{
    Ok(number_in(request, member)? as u8)
}

/// The number of a member in 16 bits.
pub(crate) fn number_16(request: &Value, member: Member) -> Result<u16, Malformed>
    requires { most_of member ≤ 65535 }
    ensures { result ≡ number_in (view request.now) member }
{
    Ok(number_in(request, member)? as u16)
}

/// The number of a member in 32 bits.
pub(crate) fn number_32(request: &Value, member: Member) -> Result<u32, Malformed>
    requires { most_of member ≤ 4294967295 }
    ensures { result ≡ number_in (view request.now) member }
{
    Ok(number_in(request, member)? as u32)
}

/// The text of a member.
fn text_in(request: &Value, member: Member) -> Result<&str, Malformed>
    ensures { MatchResult result
        (λ text. text_in (view request.now) member ≡ Ok text.now)
        (λ e. text_in (view request.now) member ≡ Err e) }
{
    match request.get(member.name()).and_then(Value::as_str) {
        Some(text) => Ok(text),
        None => Err(Malformed::WrongMember(member)),
    }
}

/// The bytes of a member, in hexadecimal.
pub(crate) fn bytes_in(alloc: Global, request: &Value, member: Member) -> Result<Vec<u8>, Malformed>
    ensures ok { IfOk result (λ bytes. bytes_in (view request.now) member ≡ Ok bytes.items) }
    ensures err { IfErr result (λ e. (e ≡ malformed.NoMemory) ⊎ (bytes_in (view request.now) member ≡ Err e)) }
{
    let text = text_in(request, member)?;
    match hex::decode(alloc, text.as_bytes()) {
        Ok(bytes) => Ok(bytes),
        Err(FromHexError::OutOfMemory) => Err(Malformed::NoMemory),
        Err(_) => Err(Malformed::WrongMember(member)),
    }
}

/// The NAME of a request, in 16 hexadecimal digits (ISO 11783-5).
pub(crate) fn name_in(request: &Value) -> Result<u64, Malformed>
    ensures { result ≡ name_in (view request.now) }
{
    let text = text_in(request, Member::Name)?;
    let mut bytes = [0; 8];
    match hex::decode_to_slice(text.as_bytes(), &mut bytes) {
        Ok(()) => Ok(u64::from_be_bytes(bytes)),
        Err(_) => Err(Malformed::WrongMember(Member::Name)),
    }
}

/// The frame of a request.
pub(crate) fn frame_in(request: &Value) -> Result<Frame, Malformed>
    ensures { result ≡ frame_in (view request.now) }
{
    let text = text_in(request, Member::Frame)?;
    match frame_of(text.as_bytes()) {
        Some(frame) => Ok(frame),
        None => Err(Malformed::WrongMember(Member::Frame)),
    }
}

/// A frame as `ID#DATA`: eight hexadecimal digits of an identifier of 29 bits, and two for each byte, at most eight.
fn frame_of(text: &[u8]) -> Option<Frame>
    ensures { result ≡ frame_of text.now }
{
    if text.len() < 9 || text.len() > 25 || text[8] != b'#' {
        return None;
    }
    let mut number = [0; 4];
    hex::decode_to_slice(&text[..8], &mut number).ok()?;
    let id = CanId::from_raw(u32::from_be_bytes(number))?;
    let data = &text[9..];
    let mut bytes = ArrayVec::from([0; 8]);
    bytes.truncate(data.len() / 2);
    hex::decode_to_slice(data, bytes.as_mut_slice()).ok()?;
    Some(Frame { id, bytes })
}

/// The typed number of a request.
pub(crate) fn typed_in(request: &Value) -> Result<Typed, Malformed>
    ensures { result ≡ typed_in (view request.now) }
{
    let text = text_in(request, Member::Typed)?;
    match typed_of(text.as_bytes()) {
        Some(typed) => Ok(typed),
        None => Err(Malformed::WrongMember(Member::Typed)),
    }
}
