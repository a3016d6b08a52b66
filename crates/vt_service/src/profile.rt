//! The profile of a terminal that a request begins.

ghost use Rattle.std.specs.Prelude.{◌≡◌, ◌≤◌, IfOk};
ghost use Rattle.serde_json.specs.View.{view};
ghost use Rattle.vt_service.specs.Members.{most_of};
ghost use Rattle.vt_service.specs.Requests.{fonts_in, hardware_in, number_or, profile_in, soft_keys_in};

use crate::members::{Malformed, Member, number_in};
use serde_json::Value;
use vt_server::Profile;

/// The soft keys of a profile.
#[derive(Clone, Copy)]
pub(crate) struct SoftKeys {
    width: u8,
    height: u8,
    in_navigation: u8,
    physical: u8,
}

/// The fonts of a profile.
#[derive(Clone, Copy)]
pub(crate) struct Fonts {
    small: u8,
    large: u8,
    styles: u8,
}

/// The hardware of a profile.
#[derive(Clone, Copy)]
pub(crate) struct Hardware {
    boot_time: u8,
    graphic_type: u8,
    hardware: u8,
}

/// The profile of a request. A missing member has the number of the standard profile.
pub(crate) fn profile_in(request: &Value) -> Result<Profile, Malformed>
    ensures { result ≡ profile_in (view request.now) }
{
    let standard = Profile::standard();
    let memory = number_or(request, Member::Memory, u64::from(standard.memory))? as u32;
    let keys = soft_keys_in(request, standard)?;
    let fonts = fonts_in(request, standard)?;
    let hardware = hardware_in(request, standard)?;
    let width = number_or(request, Member::Width, u64::from(standard.width))? as u16;
    let height = number_or(request, Member::Height, u64::from(standard.height))? as u16;
    Ok(Profile {
        memory,
        soft_key_width: keys.width,
        soft_key_height: keys.height,
        virtual_soft_keys: keys.in_navigation,
        physical_soft_keys: keys.physical,
        small_fonts: fonts.small,
        large_fonts: fonts.large,
        font_styles: fonts.styles,
        boot_time: hardware.boot_time,
        graphic_type: hardware.graphic_type,
        hardware: hardware.hardware,
        width,
        height,
    })
}

fn soft_keys_in(request: &Value, standard: Profile) -> Result<SoftKeys, Malformed>
    ensures { result ≡ soft_keys_in (view request.now) standard }
{
    let width = byte_or(request, Member::SoftKeyWidth, standard.soft_key_width)?;
    let height = byte_or(request, Member::SoftKeyHeight, standard.soft_key_height)?;
    let in_navigation = byte_or(request, Member::VirtualSoftKeys, standard.virtual_soft_keys)?;
    let physical = byte_or(
        request,
        Member::PhysicalSoftKeys,
        standard.physical_soft_keys,
    )?;
    Ok(SoftKeys {
        width,
        height,
        in_navigation,
        physical,
    })
}

fn fonts_in(request: &Value, standard: Profile) -> Result<Fonts, Malformed>
    ensures { result ≡ fonts_in (view request.now) standard }
{
    let small = byte_or(request, Member::SmallFonts, standard.small_fonts)?;
    let large = byte_or(request, Member::LargeFonts, standard.large_fonts)?;
    let styles = byte_or(request, Member::FontStyles, standard.font_styles)?;
    Ok(Fonts {
        small,
        large,
        styles,
    })
}

fn hardware_in(request: &Value, standard: Profile) -> Result<Hardware, Malformed>
    ensures { result ≡ hardware_in (view request.now) standard }
{
    let boot_time = byte_or(request, Member::BootTime, standard.boot_time)?;
    let graphic_type = byte_or(request, Member::GraphicType, standard.graphic_type)?;
    let hardware = byte_or(request, Member::Hardware, standard.hardware)?;
    Ok(Hardware {
        boot_time,
        graphic_type,
        hardware,
    })
}

/// The number of a member in 8 bits, or `standard` if the member is missing.
fn byte_or(request: &Value, member: Member, standard: u8) -> Result<u8, Malformed>
    requires { most_of member ≡ 255 }
    ensures { result ≡ number_or (view request.now) member standard }
{
    Ok(number_or(request, member, u64::from(standard))? as u8)
}

/// The number of a member, or `standard` if the member is missing.
fn number_or(request: &Value, member: Member, standard: u64) -> Result<u64, Malformed>
    requires { standard ≤ most_of member }
    ensures value { result ≡ number_or (view request.now) member standard }
    ensures most { IfOk result (λ n. n ≤ most_of member) }
{
    if request.get(member.name()).is_none() {
        return Ok(standard);
    }
    number_in(request, member)
}
