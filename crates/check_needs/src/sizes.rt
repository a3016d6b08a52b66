//! The sizes of a terminal.

/// The size of an area in pixels.
#[derive(Clone, Copy, PartialEq, Eq)]
pub struct Area {
    /// The width.
    pub width: u16,
    /// The height.
    pub height: u16,
}

/// The areas of a terminal's masks and keys, and the number of its keys.
#[derive(Clone, Copy, PartialEq, Eq)]
pub struct Sizes {
    /// The area of a data mask or an alarm mask.
    pub mask: Area,
    /// The area of a key.
    pub key: Area,
    /// The most keys of a soft key mask.
    pub keys: u8,
}

/// The sizes of this terminal (docs/PROFILE.md, "Get Number of Soft Keys (C2)" and "Get Hardware (C7)").
pub const TERMINAL_SIZES: Sizes = Sizes {
    mask: Area {
        width: 480,
        height: 480,
    },
    key: Area {
        width: 64,
        height: 64,
    },
    keys: 64,
};
