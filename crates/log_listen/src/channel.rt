//! Channels of transfers.

ghost use Rattle.std.specs.Prelude.{◌≡◌};
ghost use Rattle.log_listen.specs.Channels.{channel_of};

use vt_can::CanId;
use vt_can::assigned::{ETP_DT, TP_DT};

/// The channel from one address to another in a protocol: the identifier of its packets, with priority 7.
pub(crate) fn channel_of(is_extended: bool, source: u8, destination: u8) -> u32
    ensures { result ≡ channel_of is_extended source destination }
{
    let pgn = if is_extended { ETP_DT } else { TP_DT };
    CanId::new(7, pgn, destination, source).raw()
}
