//! A CAN frame.

use crate::frames::identifier::CanId;
use arrayvec::ArrayVec;

/// A CAN frame: its identifier, and up to eight bytes of data.
#[derive(Clone, Default, Drop)]
pub struct Frame {
    pub id: CanId,
    pub bytes: ArrayVec<u8, 8>,
}
