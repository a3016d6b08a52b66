//! The formats of image data.

ghost use Rattle.std.specs.Prelude.{◌≡◌, ◌<◌};
ghost use Rattle.draw_svg.specs.Formats.{format_of, pixels_in_byte, bytes_in_row, pixel};

/// A format of image data: the number of bits of a pixel.
#[derive(Clone, Copy, PartialEq, Eq)]
pub enum PixelFormat {
    /// One bit: eight pixels in a byte, of colour 0 or 1.
    OneBit,
    /// Four bits: two pixels in a byte, of a colour up to 15.
    FourBits,
    /// Eight bits: one pixel in a byte.
    EightBits,
}

impl PixelFormat {
    /// The format with a number: 0, 1 or 2. `None` for any other number.
    pub fn from_number(number: u8) -> Option<PixelFormat>
        ensures { result ≡ format_of number }
    {
        match number {
            0 => Some(PixelFormat::OneBit),
            1 => Some(PixelFormat::FourBits),
            2 => Some(PixelFormat::EightBits),
            _ => None,
        }
    }

    /// The number of pixels in a byte.
    pub fn pixels_in_byte(self) -> u16
        ensures { result ≡ pixels_in_byte self }
    {
        match self {
            PixelFormat::OneBit => 8,
            PixelFormat::FourBits => 2,
            PixelFormat::EightBits => 1,
        }
    }

    /// The number of bytes in a row of `width` pixels. Each row begins with a new byte.
    pub fn bytes_in_row(self, width: u16) -> u16
        ensures { result ≡ bytes_in_row self width }
    {
        width.div_ceil(self.pixels_in_byte())
    }

    /// The colour number of a pixel of a byte. Index 0 is the leftmost pixel, in the highest bits.
    pub fn pixel(self, byte: u8, index: u16) -> u8
        requires { index < pixels_in_byte self }
        ensures { result ≡ pixel self byte index }
    {
        match self {
            PixelFormat::OneBit => (byte >> (7 - index)) % 2,
            PixelFormat::FourBits => if index == 0 { byte >> 4 } else { byte & 0x0F },
            PixelFormat::EightBits => byte,
        }
    }
}
