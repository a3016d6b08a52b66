//! The standard palette (ISO 11783-6; docs/PROFILE.md, "Colours").

ghost use Rattle.std.specs.Prelude.{◌≡◌, ◌++◌, ◌<◌, OnOk};
ghost use Rattle.draw_svg.specs.Palette.{colour_text, level};

use std::alloc::AllocError;

/// Colours 0 to 15, which have names.
const NAMED: [&str; 16] = [
    "#000000", "#FFFFFF", "#009900", "#009999", "#990000", "#990099", "#999900", "#CCCCCC",
    "#999999", "#0000FF", "#00FF00", "#00FFFF", "#FF0000", "#FF00FF", "#FFFF00", "#000099",
];

/// The levels of red, green and blue of colours 16 to 231.
const LEVELS: [&str; 6] = ["00", "33", "66", "99", "CC", "FF"];

/// The number of the first colour of 6 levels of red, green and blue.
const FIRST_MIXED: u8 = 16;

/// The number of the first colour that is a maker's own.
const FIRST_OWN: u8 = 232;

/// Appends a colour as `#RRGGBB`.
pub(crate) fn push_colour(out: &mut Vec<u8>, colour: u8) -> Result<(), AllocError>
    ensures { OnOk result (out.new.items ≡ out.old.items ++ colour_text colour) }
{
    if colour < FIRST_MIXED {
        return out.extend_from_slice(NAMED[usize::from(colour)].as_bytes());
    }
    if colour >= FIRST_OWN {
        return out.extend_from_slice(b"#FF00FF");
    }
    let mixed = colour - FIRST_MIXED;
    out.extend_from_slice(b"#")?;
    push_level(out, mixed / 36)?;
    push_level(out, mixed / 6 % 6)?;
    push_level(out, mixed % 6)
}

fn push_level(out: &mut Vec<u8>, index: u8) -> Result<(), AllocError>
    requires { index < 6 }
    ensures { OnOk result (out.new.items ≡ out.old.items ++ level index) }
{
    out.extend_from_slice(LEVELS[usize::from(index)].as_bytes())
}
