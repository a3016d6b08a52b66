//! The TP sender.

ghost use Rattle.std.specs.Prelude.{◌≡◌, ◌↔◌, ℕ, ◌%◌, ◌^◌, false, Some, None, Err, [], ◌∷◌, is_some, IsSome, IfOk, OnErr, IfSome, IfNone};
ghost use Rattle.std.specs.FinMap as finite;
ghost use Rattle.vt_can.specs.Assigned as assigned;
ghost use Rattle.vt_can.specs.transport.FirstTimes.{IsFirstTime};
ghost use Rattle.vt_can.specs.transport.Sessions.{is_overdue, SomeOverdue, AreOfAddresses};
ghost use Rattle.vt_can.specs.frames.Frame.{source_of};
ghost use Rattle.vt_transport.specs.Wire.{rts_frame};
ghost use Rattle.vt_transport.specs.declared.messages.TpFrame.TheVariants as declared;
ghost use Rattle.vt_transport.specs.Senders.{Answers, Starts, TimesOut, has_size, answer, answer_of, is_of_group};

use crate::messages::{GREATEST_SIZE, LEAST_SIZE, Reply, TpFrame};
use crate::sending::Outgoing;
use crate::wire;
use arrayvec::ArrayVec;
use std::alloc::Global;
use std::marker::Model;
use thiserror::Error;
use vt_can::assigned::{SENDER_TIMEOUT, VT_TO_ECU};
use vt_can::{Frame, Reason, Sessions, Timed};

/// Why a message cannot be sent.
#[derive(Clone, Copy, Debug, PartialEq, Eq, Error)]
pub enum SendFault {
    /// A message to that destination is being sent.
    #[error("a message to that destination is still being sent")]
    Busy,
    /// The message has fewer than 9 or more than 1785 bytes.
    #[error("a message has 9 to 1785 bytes")]
    Size,
    /// The memory for the message was refused.
    #[error("the memory for the message was refused")]
    OutOfMemory,
}

/// The TP sender of a node, with at most one session for each destination. Contracts see it as the map of the messages by
/// destination, and the node's address.
///
/// docs/PROFILE.md, "The TP sender".
pub struct Sender {
    own_address: u8,
    sessions: Sessions<Outgoing>,
    alloc: Global,
}

// Written out, not derived: the drop is proved once here, and not in each crate above.
impl Drop for Sender {
    fn drop(self) {
        let Sender {
            own_address: _own_address,
            sessions: _sessions,
            alloc: _alloc,
        } = self;
    }
}

impl Model for Sender {
    ghost use Rattle.std.specs.Prelude.{◌≡◌};
    ghost use Rattle.vt_can.specs.Assigned.{SENDER_TIMEOUT};
    ghost use Rattle.vt_transport.specs.declared.messages.TpFrame.TheVariants as declared;
    ghost use Rattle.vt_transport.specs.Senders.{SenderState, sender_state_code};

    ghost Value = { SenderState };

    ghost coded = { sender_state_code };

    ghost view = { λ s. record { own_address = s.own_address; sessions = s.sessions.sessions } };

    ghost invariant = { λ s. s.sessions.timeout ≡ SENDER_TIMEOUT };
}

impl Sender {
    /// Creates the sender of the node at an address, without sessions. Does not allocate.
    pub fn new(alloc: Global, own_address: u8) -> Sender
        ensures { result ≡ record { own_address = own_address; sessions = finite.empty } }
    {
        Sender {
            own_address,
            sessions: Sessions::new(alloc, SENDER_TIMEOUT),
            alloc,
        }
    }

    /// Starts to send a message of 9 to 1785 bytes, and returns its request to send. Only the low 24 bits
    /// of the parameter group number count. The faults are tested in the order of the enum; after one the
    /// sender is unchanged. docs/PROFILE.md, "The TP sender".
    ///
    /// The parameter group may be any. Aborts are those of a virtual terminal: only an abort with PGN 00E600 ends the session to
    /// its source, whatever the parameter group of that session.
    pub fn start(&mut self, now: u64, to: u8, pgn: u32, message: &[u8]) -> Result<Frame, SendFault>
        ensures ok { IfOk result
            (λ frame. Starts self.old self.new now to (record { pgn = pgn % 2 ^ 24; bytes = message.now }) frame) }
        ensures busy { (result ≡ Err SendFault.Busy) ↔ IsSome (finite.get self.old.sessions to) }
        ensures size { (result ≡ Err SendFault.Size)
            ↔ ((finite.get self.old.sessions to ≡ None) × (has_size message.now ≡ false)) }
        ensures err { OnErr result (self.new ≡ self.old) }
    {
        if self.sessions.get(to).is_some() {
            return Err(SendFault::Busy);
        }
        let size = message.len();
        if size < usize::from(LEAST_SIZE) || size > usize::from(GREATEST_SIZE) {
            return Err(SendFault::Size);
        }
        let Ok(bytes) = Vec::from_slice(self.alloc, message) else {
            return Err(SendFault::OutOfMemory);
        };
        if self.sessions.allocate().is_err() {
            return Err(SendFault::OutOfMemory);
        }
        let pgn = pgn % (1 << 24);
        self.sessions.put(to, now, Outgoing::new(pgn, bytes));
        Ok(wire::rts_frame(self.own_address, to, size as u16, pgn))
    }

    /// The first time at which a session is overdue, or `None` if none ever is. docs/PROFILE.md, "Timeouts".
    pub fn overdue_from(&self) -> Option<u64>
        ensures { IsFirstTime (SomeOverdue assigned.SENDER_TIMEOUT self.now.sessions) result }
    {
        self.sessions.overdue_from()
    }

    /// Whether the session to a destination would be overdue at the time `now`. False if no message is being sent there.
    /// docs/PROFILE.md, "Timeouts".
    pub fn is_overdue(&self, to: u8, now: u64) -> bool
        ensures { result ≡ is_overdue assigned.SENDER_TIMEOUT now (finite.get self.now.sessions to) }
    {
        self.sessions.is_overdue(to, now)
    }

    /// Whether a message is being sent to a destination.
    pub fn is_sending(&self, to: u8) -> bool
        ensures { result ≡ is_some (finite.get self.now.sessions to) }
    {
        self.sessions.get(to).is_some()
    }

    /// Processes a frame, and returns the frames to send to its source. Does not allocate. docs/PROFILE.md, "The TP sender".
    pub fn hear(&mut self, now: u64, frame: &Frame) -> ArrayVec<Frame, 255>
        ensures { Answers self.old self.new (source_of frame.now) (answer self.old now frame.now)
            result.items }
    {
        let to = frame.id.source();
        match wire::tp_frame(self.own_address, frame) {
            Some(TpFrame::Cts { count, next, pgn }) => {
                self.clear_to_send(now, to, count, next, pgn)
            }
            Some(TpFrame::EndOfMessage { pgn }) => self.end_of_message(to, pgn),
            Some(TpFrame::Aborted { pgn }) => self.aborted(to, pgn),
            _ => ArrayVec::new(),
        }
    }

    /// Ends the overdue session with the lowest destination address, and returns its abort. A session is overdue more than
    /// `SENDER_TIMEOUT` after its last frame. Call it until it returns `None`. docs/PROFILE.md, "Timeouts".
    pub fn expire(&mut self, now: u64) -> Option<Frame>
        ensures some { IfSome result (λ frame. TimesOut self.old self.new now frame) }
        ensures none { IfNone result (self.new ≡ self.old) }
        ensures all { IfNone result
            ((to : ℕ) → is_overdue assigned.SENDER_TIMEOUT now (finite.get self.old.sessions to) ≡ false) }
        ensures addresses { AreOfAddresses self.old.sessions }
    {
        let (to, session) = self.sessions.expire(now)?;
        let abort = Reply::Abort {
            reason: Reason::Timeout,
            pgn: session.pgn(),
        };
        Some(wire::reply_frame(self.own_address, to, abort))
    }

    fn clear_to_send(
        &mut self,
        now: u64,
        to: u8,
        count: u8,
        next: u8,
        pgn: u32,
    ) -> ArrayVec<Frame, 255>
        ensures { Answers self.old self.new to
            (answer_of self.old to now (Some (declared.Cts count next pgn))) result.items }
    {
        let Some(Timed { last, session }) = self.sessions.take(to) else {
            return ArrayVec::new();
        };
        if pgn != session.pgn() {
            self.sessions.put(to, last, session);
            return ArrayVec::new();
        }
        if count == 0 {
            self.sessions.put(to, now.max(last), session);
            return ArrayVec::new();
        }
        if next == 0 || next > session.packets() {
            let abort = Reply::Abort {
                reason: Reason::Disorder,
                pgn,
            };
            return one(wire::reply_frame(self.own_address, to, abort));
        }
        let frames = session.frames(self.own_address, to, next, count);
        self.sessions.put(to, now.max(last), session);
        frames
    }

    fn end_of_message(&mut self, to: u8, pgn: u32) -> ArrayVec<Frame, 255>
        ensures { Answers self.old self.new to
            (answer_of self.old to 0 (Some (declared.EndOfMessage pgn))) result.items }
    {
        if !self.sends(to, pgn) {
            return ArrayVec::new();
        }
        self.sessions.remove(to);
        ArrayVec::new()
    }

    fn aborted(&mut self, to: u8, pgn: u32) -> ArrayVec<Frame, 255>
        ensures { Answers self.old self.new to
            (answer_of self.old to 0 (Some (declared.Aborted pgn))) result.items }
    {
        if pgn != VT_TO_ECU {
            return ArrayVec::new();
        }
        self.sessions.remove(to);
        ArrayVec::new()
    }

    // Whether the message being sent to a destination is of this parameter group.
    fn sends(&self, to: u8, pgn: u32) -> bool
        ensures { result ≡ is_of_group pgn (finite.get self.now.sessions to) }
    {
        match self.sessions.get(to) {
            Some(timed) => pgn == timed.session.pgn(),
            None => false,
        }
    }
}

fn one(frame: Frame) -> ArrayVec<Frame, 255>
    ensures { result.items ≡ frame ∷ [] }
{
    let mut frames = ArrayVec::new();
    frames.push(frame);
    frames
}
