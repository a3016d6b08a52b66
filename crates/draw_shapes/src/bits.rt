//! Options and styles as bits.

ghost use Rattle.std.specs.Prelude.{◌≡◌, ◌<◌};
ghost use Rattle.draw_shapes.specs.Bits.{has_bit};

/// Whether a bit is set, by its number.
pub(crate) fn has_bit(byte: u8, bit: u8) -> bool
    requires { bit < 8 }
    ensures { result ≡ has_bit byte bit }
{
    (byte >> bit) % 2 == 1
}
