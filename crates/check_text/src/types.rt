//! The names of object types that this terminal does not have.

/// The name of an object type of ISO 11783-6 by its number: of the auxiliary objects, and of those of later versions. `None` for those up
/// to 28, which this terminal has, and for a number that the standard does not use.
pub(crate) fn type_name(number: u8) -> Option<&'static str> {
    Some(match number {
        29 => "Auxiliary Function",
        30 => "Auxiliary Input",
        31 => "Auxiliary Function Type 2",
        32 => "Auxiliary Input Type 2",
        33 => "Auxiliary Control Designator Type 2",
        34 => "Window Mask, of version 4",
        35 => "Key Group, of version 4",
        36 => "Graphics Context, of version 4",
        37 => "Output List, of version 4",
        38 => "Extended Input Attributes, of version 4",
        39 => "Colour Map, of version 4",
        40 => "Object Label Reference List, of version 4",
        41 => "External Object Definition, of version 5",
        42 => "External Reference NAME, of version 5",
        43 => "External Object Pointer, of version 5",
        44 => "Animation, of version 5",
        45 => "Colour Palette, of version 6",
        46 => "Graphic Data, of version 6",
        47 => "Working Set Special Controls, of version 6",
        48 => "Scaled Graphic, of version 6",
        _ => return None,
    })
}
