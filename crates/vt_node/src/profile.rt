//! The technical data of a terminal (docs/PROFILE.md, "Other messages").

ghost use Rattle.std.specs.Prelude.{◌≡◌};
ghost use Rattle.vt_node.specs.Profile.{standard};

/// The version of the standard.
pub const VERSION: u8 = 3;

/// The answers of a terminal to requests for its technical data (ISO 11783-6). They do not change what it draws or accepts.
#[derive(Clone, Copy, PartialEq, Eq)]
pub struct Profile {
    /// The memory for pools, in bytes.
    pub memory: u32,
    /// The width of a soft key, in pixels.
    pub soft_key_width: u8,
    /// The height of a soft key, in pixels.
    pub soft_key_height: u8,
    /// The number of virtual soft keys.
    pub virtual_soft_keys: u8,
    /// The number of physical soft keys.
    pub physical_soft_keys: u8,
    /// The small fonts, a bit for each size.
    pub small_fonts: u8,
    /// The large fonts, a bit for each size.
    pub large_fonts: u8,
    /// The styles of fonts, a bit for each.
    pub font_styles: u8,
    /// The boot time in seconds.
    pub boot_time: u8,
    /// The graphic type: 0 for two colours, 1 for 16, 2 for 256.
    pub graphic_type: u8,
    /// The hardware, a bit for each feature.
    pub hardware: u8,
    /// The width of a mask, in pixels.
    pub width: u16,
    /// The height of a mask, in pixels.
    pub height: u16,
}

impl Profile {
    /// The profile of docs/PROFILE.md, "Other messages": 1 MB, masks of 480 by 480 pixels, six soft keys of 64 by 64 pixels.
    pub fn standard() -> Profile
        ensures { result ≡ standard }
    {
        Profile {
            memory: 1_048_576,
            soft_key_width: 64,
            soft_key_height: 64,
            virtual_soft_keys: 64,
            physical_soft_keys: 6,
            small_fonts: 0x7F,
            large_fonts: 0x7F,
            font_styles: 0,
            boot_time: 0,
            graphic_type: 2,
            hardware: 0,
            width: 480,
            height: 480,
        }
    }
}
