//! Messages of implements to terminals.

ghost use Rattle.std.specs.Prelude.{◌≡◌};
ghost use Rattle.log_pools.specs.Pieces.{id_of};

use vt_can::CanId;
use vt_can::assigned::ECU_TO_VT;

/// A message of an implement to a terminal.
#[derive(Clone, Copy)]
pub struct ImplementMessage<'a> {
    /// The line of the log at which the message was whole, from 1.
    pub line: u64,
    /// The address of the implement.
    pub source: u8,
    /// The address of the terminal.
    pub destination: u8,
    /// The bytes, of which the first is the function.
    pub bytes: &'a [u8],
}

impl ImplementMessage<'_> {
    /// The identifier of the messages from this source to this destination, with priority 7.
    pub(crate) fn id(&self) -> u32
        ensures { result ≡ id_of self.now.source self.now.destination }
    {
        CanId::new(7, ECU_TO_VT, self.destination, self.source).raw()
    }
}
