//! The load of the bus.

ghost use Rattle.std.specs.Prelude.{◌≡◌};
ghost use Rattle.log_traffic.specs.Loads.{load_of};

use std::fmt;

/// The load of a bus of 250 kbit/s by one bit in one microsecond, in tenths of a percent: a microsecond has a quarter of a bit.
const BIT_IN_MICROSECOND: u64 = 4000;

/// The load of a bus of 250 kbit/s by these bits in a span of microseconds, in tenths of a percent. `None` for a span of 0.
pub fn load_of(bits: u64, span: u64) -> Option<u64>
    ensures { result ≡ load_of bits span }
{
    bits.saturating_mul(BIT_IN_MICROSECOND).checked_div(span)
}

/// A load in tenths of a percent, such as `12.5 %`.
#[derive(Clone, Copy)]
pub struct Percent(pub u64);

impl fmt::Display for Percent {
    fn fmt<W: fmt::Write>(&self, f: &mut fmt::Formatter<W>) -> fmt::Result {
        let whole = self.0 / 10;
        let tenths = self.0 % 10;
        write!(f, "{whole}.{tenths} %")
    }
}
