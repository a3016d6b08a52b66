//! The status message.

ghost use Rattle.std.specs.Prelude.{◌≡◌};
ghost use Rattle.vt_server.specs.shown.ShownSet.{status_frame};
ghost use Rattle.vt_server.specs.shown.DisplayValues.{display_value};

use crate::shown::ShownMasks;
use byteorder::{ByteOrder, LittleEndian};
use vt_can::Frame;
use vt_can::assigned::{GLOBAL_ADDRESS, VT_STATUS};
use vt_node::message_to;

/// The status message: the shown set, its active mask and the soft key mask of that mask.
pub(crate) fn status_frame(own: u8, shown: &ShownMasks) -> Frame
    ensures { result ≡ status_frame own (display_value shown.now) }
{
    let mut bytes = [VT_STATUS, shown.address, 0, 0, 0, 0, 0, 0xFF];
    LittleEndian::write_u16(&mut bytes[2..4], shown.mask.raw());
    LittleEndian::write_u16(&mut bytes[4..6], shown.soft_keys.raw());
    message_to(own, GLOBAL_ADDRESS, bytes)
}
