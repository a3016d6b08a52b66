//! The ETP receiver.

ghost use Rattle.std.specs.Prelude.{◌≡◌, ℕ, false, Some, None, List, length, IfOk, OnOk, OnErr, IsOk, IfSome, IfNone};
ghost use Rattle.std.specs.FinMap as finite;
ghost use Rattle.vt_can.specs.Assigned as assigned;
ghost use Rattle.vt_can.specs.transport.FirstTimes.{IsFirstTime};
ghost use Rattle.vt_can.specs.transport.Sessions.{is_overdue, alive, SomeOverdue, AreOfAddresses};
ghost use Rattle.vt_can.specs.frames.Frame.{source_of};
ghost use Rattle.vt_can.specs.transport.Messages.{size_and_first_byte};
ghost use Rattle.vt_can.specs.transport.Receivers.{outcome, timely_outcome, AnswersWith, MakesStep, OthersStay, HasCapacityFor, OpensNone, TimesOut};
ghost use Rattle.vt_extended.specs.Wire.{etp_frame};
ghost use Rattle.vt_extended.specs.Messages.{opens};
ghost use Rattle.vt_extended.specs.Steps.{after_rts, after_part, step};
ghost use Rattle.vt_extended.specs.Arrivals.{arrived_in};
ghost use Rattle.vt_extended.specs.Protocol.{protocol};
ghost use Rattle.vt_extended.specs.declared.messages.EtpFrame.TheVariants as declared;
ghost use Rattle.vt_extended.specs.declared.messages.Part.TheVariants as parts;

use crate::messages::{EtpFrame, Opening, Part, Reply};
use crate::session::Session;
use crate::{OutOfMemory, wire};
use std::alloc::Global;
use std::marker::Model;
use std::mem;
use vt_can::assigned::ETP_TIMEOUT;
use vt_can::{Frame, Heard, Reason, Received, Sessions, Timed};

/// The ETP receiver of a node, with at most one session for each source. Contracts see it as the map of the sessions by source, the
/// node's address, and the number of bytes reserved for a message. Without its table no byte is reserved.
///
/// docs/PROFILE.md, "The ETP receiver".
pub struct Receiver {
    own_address: u8,
    sessions: Sessions<Session>,
    // The memory reserved by `prepare`.
    spare: Vec<u8>,
    alloc: Global,
}

// Written out, not derived: the drop is proved once here, and not in each crate above.
impl Drop for Receiver {
    fn drop(self) {
        let Receiver {
            own_address: _own_address,
            sessions: _sessions,
            spare: _spare,
            alloc: _alloc,
        } = self;
    }
}

impl Model for Receiver {
    ghost use Rattle.std.specs.Prelude.{◌≡◌, vec_len, vec_capacity, if◌then◌else◌};
    ghost use Rattle.vt_can.specs.Assigned.{ETP_TIMEOUT};
    ghost use Rattle.vt_can.specs.transport.Receivers.{ReceiverState, receiver_state_code};
    ghost use Rattle.vt_extended.specs.SessionState.{SessionState, session_state_code};

    ghost Value = { ReceiverState SessionState };

    ghost coded = { receiver_state_code session_state_code };

    ghost view = { λ r. record { own_address = r.own_address; sessions = r.sessions.sessions; spare = if r.sessions.allocated then vec_capacity r.spare else 0 } };

    ghost invariant = { λ r. (vec_len r.spare ≡ 0) × (r.sessions.timeout ≡ ETP_TIMEOUT) };
}

impl Receiver {
    /// Creates the receiver of the node at an address, without sessions. Does not allocate.
    pub fn new(alloc: Global, own_address: u8) -> Receiver
        ensures own_address { result.own_address ≡ own_address }
        ensures sessions { result.sessions ≡ finite.empty }
        ensures spare { result.spare ≡ 0 }
    {
        Receiver {
            own_address,
            sessions: Sessions::new(alloc, ETP_TIMEOUT),
            spare: Vec::new(alloc),
            alloc,
        }
    }

    /// Processes a frame received at `now`. Only a request to send allocates: for the whole message, and the first one also for the
    /// table. After `OutOfMemory` the receiver is unchanged. docs/PROFILE.md, "The ETP receiver".
    pub fn hear(&mut self, now: u64, frame: &Frame) -> Result<Heard, OutOfMemory>
        ensures step { IfOk result (λ heard. MakesStep protocol self.old self.new (source_of frame.now) (outcome protocol self.old now frame.now) heard) }
        ensures others { OthersStay self.old self.new (source_of frame.now) }
        ensures err { OnErr result (self.new ≡ self.old) }
        ensures ready { HasCapacityFor protocol (etp_frame self.old.own_address frame.now) self.old.spare → IsOk result }
        ensures spare { OpensNone protocol (etp_frame self.old.own_address frame.now) → self.new.spare ≡ self.old.spare }
    {
        let source = frame.id.source();
        match wire::etp_frame(self.own_address, frame) {
            Some(EtpFrame::Rts(opening)) => self.open(now, source, opening),
            Some(EtpFrame::Part(part)) => Ok(self.receive_part(now, source, part)),
            Some(EtpFrame::Aborted) => Ok(self.aborted(source)),
            _ => Ok(Heard::Nothing),
        }
    }

    /// Ends the overdue session with the lowest source address, and returns its abort. A session is overdue more than `ETP_TIMEOUT`
    /// after its last frame. Call it until it returns `None`. docs/PROFILE.md, "Timeouts".
    pub fn expire(&mut self, now: u64) -> Option<Frame>
        ensures own_address { self.new.own_address ≡ self.old.own_address }
        ensures spare { self.new.spare ≡ self.old.spare }
        ensures some { IfSome result (λ frame. TimesOut protocol self.old self.new now frame) }
        ensures none { IfNone result (self.new ≡ self.old) }
        ensures all { IfNone result ((source : ℕ) → is_overdue assigned.ETP_TIMEOUT now (finite.get self.old.sessions source) ≡ false) }
        ensures addresses { AreOfAddresses self.old.sessions }
    {
        let (source, session) = self.sessions.expire(now)?;
        let abort = Reply::Abort {
            reason: Reason::Timeout,
            pgn: session.pgn(),
        };
        Some(wire::reply_frame(self.own_address, source, abort))
    }

    /// The first time at which a session is overdue, or `None` if none ever is. docs/PROFILE.md, "Timeouts".
    pub fn overdue_from(&self) -> Option<u64>
        ensures { IsFirstTime (SomeOverdue assigned.ETP_TIMEOUT self.now.sessions) result }
    {
        self.sessions.overdue_from()
    }

    /// How much has arrived of a message from a source, if it is of this parameter group and begins with this byte: the number of bytes
    /// so far, and the announced size. Both are 0 if there is no such message.
    pub fn arrived(&self, source: u8, pgn: u32, first: u8) -> (usize, u32)
        ensures { result ≡ arrived_in pgn first (finite.get self.now.sessions source) }
    {
        match self.sessions.get(source) {
            Some(timed) => timed.session.arrived(pgn, first),
            None => (0, 0),
        }
    }

    /// Reserves the memory that `hear` needs for this frame, so that it is not refused, even after calls of `expire`. The sessions are
    /// unchanged. Returns the size and first byte of the message that `hear` hands out after those calls, if any. docs/PROFILE.md, "The
    /// ETP receiver".
    pub fn prepare(&mut self, now: u64, frame: &Frame) -> Result<Option<(usize, u8)>, OutOfMemory>
        ensures own_address { self.new.own_address ≡ self.old.own_address }
        ensures sessions { self.new.sessions ≡ self.old.sessions }
        ensures ready { OnOk result (HasCapacityFor protocol (etp_frame self.old.own_address frame.now) self.new.spare) }
        ensures free { HasCapacityFor protocol (etp_frame self.old.own_address frame.now) self.old.spare → IsOk result }
        ensures spare { OpensNone protocol (etp_frame self.old.own_address frame.now) → self.new.spare ≡ self.old.spare }
        ensures answer { IfOk result (λ answer. answer ≡ size_and_first_byte (timely_outcome protocol self.old now frame.now).message) }
    {
        match wire::etp_frame(self.own_address, frame) {
            Some(EtpFrame::Rts(opening)) => {
                self.set_aside(opening)?;
                Ok(None)
            }
            Some(EtpFrame::Part(Part::Packet { number, bytes: _ })) => {
                Ok(self.completed_by(now, frame.id.source(), number))
            }
            _ => Ok(None),
        }
    }

    fn open(&mut self, now: u64, source: u8, opening: Opening) -> Result<Heard, OutOfMemory>
        ensures step { IfOk result (λ heard. MakesStep protocol self.old self.new source (after_rts now opening) heard) }
        ensures others { OthersStay self.old self.new source }
        ensures err { OnErr result (self.new ≡ self.old) }
        ensures ready { HasCapacityFor protocol (Some (declared.Rts opening)) self.old.spare → IsOk result }
        ensures spare { opens opening ≡ false → self.new.spare ≡ self.old.spare }
    {
        if !opening.opens() {
            self.sessions.remove(source);
            return Ok(answered(self.own_address, source, Some(opening.first_reply())));
        }
        self.spare.reserve_exact(opening.size as usize)?;
        self.sessions.allocate()?;
        let bytes = mem::replace(&mut self.spare, Vec::new(self.alloc));
        self.sessions.put(source, now, Session::new(opening, bytes));
        Ok(answered(self.own_address, source, Some(opening.first_reply())))
    }

    fn receive_part(&mut self, now: u64, source: u8, part: Part) -> Heard
        ensures step { MakesStep protocol self.old self.new source (after_part now (finite.get self.old.sessions source) part) result }
        ensures others { OthersStay self.old self.new source }
        ensures spare { self.new.spare ≡ self.old.spare }
    {
        let Some(Timed { last, session }) = self.sessions.take(source) else {
            return Heard::Nothing;
        };
        match session.receive(part) {
            Received::Refused(reply) => answered(self.own_address, source, Some(reply)),
            Received::More(session, reply) => {
                self.sessions.put(source, now.max(last), session);
                answered(self.own_address, source, reply)
            }
            Received::Whole { pgn, bytes, reply } => Heard::Message {
                source,
                pgn,
                bytes,
                reply: wire::reply_frame(self.own_address, source, reply),
            },
        }
    }

    fn aborted(&mut self, source: u8) -> Heard
        ensures step { MakesStep protocol self.old self.new source (step 0 (finite.get self.old.sessions source) declared.Aborted) result }
        ensures others { OthersStay self.old self.new source }
        ensures spare { self.new.spare ≡ self.old.spare }
    {
        self.sessions.remove(source);
        Heard::Nothing
    }

    fn set_aside(&mut self, opening: Opening) -> Result<(), OutOfMemory>
        ensures own_address { self.new.own_address ≡ self.old.own_address }
        ensures sessions { self.new.sessions ≡ self.old.sessions }
        ensures ready { OnOk result (HasCapacityFor protocol (Some (declared.Rts opening)) self.new.spare) }
        ensures free { HasCapacityFor protocol (Some (declared.Rts opening)) self.old.spare → IsOk result }
        ensures spare { opens opening ≡ false → self.new.spare ≡ self.old.spare }
    {
        if opening.opens() {
            self.spare.reserve_exact(opening.size as usize)?;
            self.sessions.allocate()?;
        }
        Ok(())
    }

    fn completed_by(&self, now: u64, source: u8, number: u8) -> Option<(usize, u8)>
        ensures { (packet : List ℕ) → length packet ≡ 7
            → result ≡ size_and_first_byte (after_part now (alive assigned.ETP_TIMEOUT now (finite.get self.now.sessions source)) (parts.Packet number packet)).message }
    {
        if self.sessions.is_overdue(source, now) {
            return None;
        }
        self.sessions.get(source)?.session.completed_by(number)
    }
}

fn answered(own_address: u8, source: u8, reply: Option<Reply>) -> Heard
    ensures { AnswersWith protocol own_address source reply None result }
{
    match reply {
        Some(reply) => Heard::Reply(wire::reply_frame(own_address, source, reply)),
        None => Heard::Nothing,
    }
}
