//! What a host asks of the working sets (docs/PROFILE.md, "Working sets", "Transport").

ghost use Rattle.std.specs.Prelude.{◌≡◌, is_some, length, slice_get};
ghost use Rattle.std.specs.Option.{option_copied};
ghost use Rattle.vt_can.specs.Assigned.{SENDER_TIMEOUT};
ghost use Rattle.vt_can.specs.transport.Sessions.{is_overdue};
ghost use Rattle.vt_node.specs.Watches.{is_silent};
ghost use Rattle.vt_server.specs.message.UploadEnds.{upload_end};
ghost use Rattle.vt_server.specs.state.AddressStates.{progress_of};
ghost use Rattle.vt_server.specs.States.{state_of};

use crate::terminal::Terminal;
use crate::upload_end::UploadEnd;
use vt_can::assigned::{ECU_TO_VT, TRANSFER};
use vt_names::Set;

/// How much of an upload has arrived.
#[derive(Clone, Copy, PartialEq, Eq)]
pub struct Progress {
    /// The number of bytes of the pool that have arrived.
    pub came: usize,
    /// The number of bytes of the pool that have arrived, or are announced by a message that is arriving.
    pub announced: usize,
}

impl Terminal {
    /// The number of working sets, with a pool or without.
    pub fn count_of_sets(&self) -> usize
        ensures { result ≡ length (state_of self.now).sets }
    {
        self.registry.len()
    }

    /// The working set at an index in the order of registration.
    pub fn set_by_index(&self, index: usize) -> Option<&Set>
        ensures { option_copied result ≡ slice_get (state_of self.now).sets index }
    {
        self.registry.at(index)
    }

    /// Whether a message in packets is being sent to an address.
    pub fn is_sending(&self, address: u8) -> bool
        ensures { result ≡ is_some ((state_of self.now).places address).sending }
    {
        self.node.is_sending(address)
    }

    /// Whether the session that sends a message to an address would be overdue at a time. False if there is no such session.
    /// docs/PROFILE.md, "Timeouts".
    pub fn is_overdue_to(&self, address: u8, time: u64) -> bool
        ensures { result ≡ is_overdue SENDER_TIMEOUT time ((state_of self.now).places address).sending }
    {
        self.node.is_overdue_to(address, time)
    }

    /// Whether the set of an address would be silent at a frame line with this time. docs/PROFILE.md, "Silence".
    pub fn is_silent_at(&self, address: u8, time: u64) -> bool
        ensures { result ≡ is_silent time ((state_of self.now).places address).heard }
    {
        self.registry.is_silent_at(address, time)
    }

    /// How much of the upload of an address has arrived, including the message that is arriving.
    pub fn progress(&self, address: u8) -> Progress
        ensures { result ≡ progress_of ((state_of self.now).places address) }
    {
        let whole = self.contents.upload_len(address);
        let (came, size) = self.node.arrived(address, ECU_TO_VT, TRANSFER);
        Progress {
            came: whole.saturating_add(came.saturating_sub(1)),
            announced: whole.saturating_add((size as usize).saturating_sub(1)),
        }
    }

    /// The result of the upload that the last frame ended. Valid only after a frame that ended an upload, for which the reply to End of
    /// Object Pool was sent; otherwise it may be the result of an earlier upload.
    pub fn upload_end(&self) -> Option<UploadEnd>
        ensures { result ≡ upload_end self.now }
    {
        self.upload_end
    }

    /// The latest time so far, in microseconds.
    pub fn time(&self) -> u64
        ensures { result ≡ (state_of self.now).now }
    {
        self.time
    }
}
