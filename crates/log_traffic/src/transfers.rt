//! Transfers of messages in packets.

ghost use Rattle.std.specs.Prelude.{◌≡◌, ◌∷◌, List, [], OnOk, IfOk, length};
ghost use Rattle.vt_can.specs.declared.frames.frame.Frame.{Frame as CanFrame};
ghost use Rattle.log_listen.specs.Listeners.{HasHeard, IsAnswer};
ghost use Rattle.log_traffic.specs.Counted.{more};
ghost use Rattle.log_traffic.specs.Passages.{CountsTransfers};

use crate::requests::{Request, Requests};
use log_listen::{Broken, Listener, SentMessage};
use std::alloc::{AllocError, Global};
use vt_can::Frame;

/// The counts of a log's transfers in both transport protocols. A transfer is from one node to another: what is sent to all is not
/// counted. A count that would not fit stays at `u64::MAX`.
#[derive(Clone, Copy, Default)]
pub struct Transfers {
    /// The number of transfers that became whole.
    pub whole: u64,
    /// The number of transfers that were broken off: by an abort, or by a new request before all of their packets had come.
    pub broken: u64,
    /// The number of transfers that were open at the end of the log.
    pub unended: u64,
    /// The number of packets that were received beyond those that their message needed, in the transfers that became whole.
    pub repeated_packets: u64,
    /// The transfer that took the longest time of those that became whole; the first of them if several took as long.
    pub longest: Option<LongTransfer>,
}

/// A transfer that became whole, with the time that it took.
#[derive(Clone, Copy)]
pub struct LongTransfer {
    /// The number of the line with its request.
    pub line: u64,
    /// The address of the sender.
    pub source: u8,
    /// The address of the other end.
    pub destination: u8,
    /// The number of bytes of the message.
    pub bytes: u64,
    /// The microseconds from the request to the packet that made the message whole.
    pub time: u64,
}

impl Transfers {
    /// Counts a message that became whole at a time, with its request.
    fn with_message(self, sent: &SentMessage, request: Option<Request>, time: u64) -> Transfers
        ensures whole { result.whole ≡ more self.whole 1 }
        ensures broken { result.broken ≡ self.broken }
    {
        let whole = self.whole.saturating_add(1);
        let Some(request) = request else {
            return Transfers { whole, ..self };
        };
        let bytes = sent.bytes.len() as u64;
        let repeated = request.packets.saturating_sub(bytes.div_ceil(7));
        let transfer = LongTransfer {
            line: request.line,
            source: sent.source,
            destination: sent.destination,
            bytes,
            time: time.saturating_sub(request.time),
        };
        Transfers {
            whole,
            repeated_packets: self.repeated_packets.saturating_add(repeated),
            longest: Some(longer(self.longest, transfer)),
            ..self
        }
    }
}

/// The longer one of two transfers, or the first if they took the same time.
fn longer(first: Option<LongTransfer>, second: LongTransfer) -> LongTransfer {
    match first {
        Some(first) if first.time >= second.time => first,
        _ => second,
    }
}

/// The open transfers, and what was counted of them.
#[derive(Drop)]
pub(crate) struct TransferCounter {
    listener: Listener,
    broken: Vec<Broken>,
    requests: Requests,
    counted: Transfers,
}

impl TransferCounter {
    /// No transfers. Does not allocate.
    pub(crate) fn new(alloc: Global) -> TransferCounter
        ensures heard { HasHeard [] result.listener }
        ensures whole { result.counted.whole ≡ 0 }
        ensures broken { result.counted.broken ≡ 0 }
    {
        TransferCounter {
            listener: Listener::new(alloc),
            broken: Vec::new(alloc),
            requests: Requests::new(alloc),
            counted: Transfers::default(),
        }
    }

    /// Takes the frame of a line, whose time is no earlier than that of the frame before. Returns the message in packets that it completes,
    /// if it completes one.
    pub(crate) fn take(
        &mut self,
        line: u64,
        time: u64,
        frame: &Frame,
    ) -> Result<Option<SentMessage>, AllocError>
        ensures heard { OnOk result ((frames : List CanFrame) → HasHeard frames self.old.listener → HasHeard (frame.now ∷ frames) self.new.listener) }
        ensures counted { OnOk result ((frames : List CanFrame) → HasHeard frames self.old.listener
            → CountsTransfers frames frame.now self.old.counted self.new.counted) }
        ensures answer { IfOk result (λ sent. (frames : List CanFrame) → HasHeard frames self.old.listener → IsAnswer frames frame.now sent) }
    {
        self.requests.note(line, time, frame)?;
        self.broken.clear();
        let sent = self.listener.hear(frame, &mut self.broken)?;
        let broken = self.broken.len() as u64;
        self.counted.broken = self.counted.broken.saturating_add(broken);
        let Some(sent) = sent else {
            return Ok(None);
        };
        let request = self.requests.remove(frame);
        self.counted = self.counted.with_message(&sent, request, time);
        Ok(Some(sent))
    }

    /// The counts of the transfers so far.
    pub(crate) fn report(&self) -> Transfers
        ensures whole { result.whole ≡ self.now.counted.whole }
        ensures broken { result.broken ≡ self.now.counted.broken }
        ensures unended { result.unended ≡ length self.now.listener.transfers.entries }
    {
        Transfers {
            unended: self.listener.open_count() as u64,
            ..self.counted
        }
    }
}
