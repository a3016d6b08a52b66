//! The address claims and the transport sessions of the terminal.

ghost use Rattle.std.specs.Prelude.{◌≡◌, ◌≢◌, ◌↔◌, [], true, None, Some, is_some, length, IfOk, IfSome, IfNone, IsSome, OnOk, OnErr, Err};
ghost use Rattle.std.specs.FinMap as finite;
ghost use Rattle.vt_can.specs.Assigned as assigned;
ghost use Rattle.vt_can.specs.frames.Frame.{source_of};
ghost use Rattle.vt_can.specs.transport.Messages.{size_and_first_byte};
ghost use Rattle.vt_can.specs.transport.Receivers.{HasCapacityFor};
ghost use Rattle.vt_can.specs.transport.Sessions.{AreOfAddresses, NoneExpires, alive, is_overdue};
ghost use Rattle.vt_can.specs.transport.Steps.{stepped};
ghost use Rattle.vt_names.specs.Claims.{IsRisingByName, heard, address_of, holder_of, answer};
ghost use Rattle.vt_transport.specs.Protocol as tp;
ghost use Rattle.vt_transport.specs.Wire.{tp_frame, rts_frame};
ghost use Rattle.vt_transport.specs.Senders.{timeout_frame, has_size};
ghost use Rattle.vt_extended.specs.Protocol as etp;
ghost use Rattle.vt_extended.specs.Wire.{etp_frame};
ghost use Rattle.vt_can.specs.transport.FirstTimes.{IsFirstTime};
ghost use Rattle.vt_node.specs.Arrivals.{arrived_at};
ghost use Rattle.vt_node.specs.Nodes.{HasOverdue, HasTaken, HasAnswered, HasExpired, abort_by, sender_answer, tp_taken, etp_taken};

use crate::OutOfMemory;
use arrayvec::ArrayVec;
use std::alloc::Global;
use std::marker::Model;
use vt_can::assigned::VT_TO_ECU;
use vt_can::{Frame, Heard, earlier};
use vt_names::{ClaimMeaning, Claims, Name};
use vt_transport::SendFault;

/// The address claims that a node received, and its transport sessions, both for the node's own address.
pub struct Node {
    claims: Claims,
    tp: vt_transport::Receiver,
    etp: vt_extended::Receiver,
    sender: vt_transport::Sender,
}

// Written out, not derived: the drop is proved once here, and not in each crate above.
impl Drop for Node {
    fn drop(self) {
        let Node {
            claims: _claims,
            tp: _tp,
            etp: _etp,
            sender: _sender,
        } = self;
    }
}

impl Model for Node {
    ghost use Rattle.std.specs.Prelude.{◌≡◌};
    ghost use Rattle.vt_node.specs.Nodes.{NodeState, node_code};

    ghost Value = { NodeState };

    ghost coded = { node_code };

    ghost view = { λ n. record { claims = n.claims; tp = n.tp.sessions; etp = n.etp.sessions; sending = n.sender.sessions; tp_spare = n.tp.spare; etp_spare = n.etp.spare } };

    ghost invariant = { λ n. (n.tp.own_address ≡ n.claims.own) × (n.etp.own_address ≡ n.claims.own) × (n.sender.own_address ≡ n.claims.own) };
}

impl Node {
    /// Creates a node without claims and sessions. Does not allocate.
    pub fn new(alloc: Global, own: u8, name: Name) -> Node
        ensures claims { result.claims ≡ record { own = own; name = name; addresses = [] } }
        ensures tp { result.tp ≡ finite.empty }
        ensures etp { result.etp ≡ finite.empty }
        ensures sending { result.sending ≡ finite.empty }
    {
        Node {
            claims: Claims::new(alloc, own, name),
            tp: vt_transport::Receiver::new(alloc, own),
            etp: vt_extended::Receiver::new(alloc, own),
            sender: vt_transport::Sender::new(alloc, own),
        }
    }
    /// The node's own address.
    pub fn own(&self) -> u8
        ensures { result ≡ self.now.claims.own }
    {
        self.claims.own()
    }

    /// The node's own NAME.
    pub fn name(&self) -> Name
        ensures { result ≡ self.now.claims.name }
    {
        self.claims.name()
    }

    /// Returns the address of a NAME.
    pub fn address_of(&self, name: Name) -> Option<u8>
        ensures address { result ≡ address_of self.now.claims.addresses name }
        ensures rising { IsRisingByName self.now.claims.addresses }
    {
        self.claims.address_of(name)
    }

    /// Returns the holder of an address.
    pub fn holder(&self, address: u8) -> Option<Name>
        ensures { result ≡ holder_of self.now.claims.addresses address }
    {
        self.claims.holder(address)
    }

    /// Returns what the claim of an address by a NAME means for this node, and records nothing.
    pub fn answer(&self, address: u8, name: Name) -> ClaimMeaning
        ensures { result ≡ answer self.now.claims address name }
    {
        self.claims.answer(address, name)
    }

    /// Records the claim of an address by a NAME. After `OutOfMemory` nothing is changed.
    pub fn receive_claim(&mut self, address: u8, name: Name) -> Result<(), OutOfMemory>
        ensures ok { OnOk result (self.new ≡ record self.old { claims = heard self.old.claims address name }) }
        ensures err { OnErr result (self.new ≡ self.old) }
    {
        let _meaning = self.claims.hear(address, name)?;
        Ok(())
    }

    /// Reserves the memory for a frame of the transport protocol, and returns the size and the first byte of the message
    /// that the frame will complete, if any. The sessions are unchanged.
    pub fn prepare_tp(
        &mut self,
        now: u64,
        frame: &Frame,
    ) -> Result<Option<(usize, u8)>, OutOfMemory>
        ensures same { self.new ≡ record self.old { tp_spare = self.new.tp_spare } }
        ensures ready { OnOk result (HasCapacityFor tp.protocol (tp_frame self.old.claims.own frame.now) self.new.tp_spare) }
        ensures completed { IfOk result (λ completed. completed ≡ size_and_first_byte
            (stepped tp.protocol now (alive assigned.TP_TIMEOUT now (finite.get self.old.tp (source_of frame.now))) (tp_frame self.old.claims.own frame.now)).message) }
    {
        self.tp.prepare(now, frame)
    }

    /// Reserves the memory for a frame of the extended transport protocol, and returns the size and the first byte of the
    /// message that the frame will complete, if any. The sessions are unchanged.
    pub fn prepare_etp(
        &mut self,
        now: u64,
        frame: &Frame,
    ) -> Result<Option<(usize, u8)>, OutOfMemory>
        ensures same { self.new ≡ record self.old { etp_spare = self.new.etp_spare } }
        ensures ready { OnOk result (HasCapacityFor etp.protocol (etp_frame self.old.claims.own frame.now) self.new.etp_spare) }
        ensures completed { IfOk result (λ completed. completed ≡ size_and_first_byte
            (stepped etp.protocol now (alive assigned.ETP_TIMEOUT now (finite.get self.old.etp (source_of frame.now))) (etp_frame self.old.claims.own frame.now)).message) }
    {
        self.etp.prepare(now, frame)
    }

    /// Processes a frame of the transport protocol as the receiver. Its memory must be reserved by `prepare_tp`.
    pub fn receive_tp(&mut self, now: u64, frame: &Frame) -> Heard
        requires { HasCapacityFor tp.protocol (tp_frame self.old.claims.own frame.now) self.old.tp_spare }
        ensures taken { HasTaken (tp_taken self.old now frame.now) (source_of frame.now) self.old.tp self.new.tp result }
        ensures rest { self.new ≡ record self.old { tp = self.new.tp; tp_spare = self.new.tp_spare } }
    {
        match self.tp.hear(now, frame) {
            Ok(heard) => heard,
            Err(_) => unreachable!(),
        }
    }

    /// Processes a frame of the extended transport protocol as the receiver. Its memory must be reserved by `prepare_etp`.
    pub fn receive_etp(&mut self, now: u64, frame: &Frame) -> Heard
        requires { HasCapacityFor etp.protocol (etp_frame self.old.claims.own frame.now) self.old.etp_spare }
        ensures taken { HasTaken (etp_taken self.old now frame.now) (source_of frame.now) self.old.etp self.new.etp result }
        ensures rest { self.new ≡ record self.old { etp = self.new.etp; etp_spare = self.new.etp_spare } }
    {
        match self.etp.hear(now, frame) {
            Ok(heard) => heard,
            Err(_) => unreachable!(),
        }
    }

    /// How much has arrived of a message from an address, if it is of this parameter group and begins with this byte: the number of bytes
    /// so far, and the announced size. Both are 0 if there is no such message. Of two, the one in the extended protocol counts.
    pub fn arrived(&self, address: u8, pgn: u32, first: u8) -> (usize, u32)
        ensures { result ≡ arrived_at pgn first (finite.get self.now.tp address) (finite.get self.now.etp address) }
    {
        let long = self.etp.arrived(address, pgn, first);
        if long.1 == 0 {
            return self.tp.arrived(address, pgn, first);
        }
        long
    }

    /// Whether the session that sends a message to an address would be overdue at the time `now`. False if there is no such session.
    pub fn is_overdue_to(&self, address: u8, now: u64) -> bool
        ensures { result ≡ is_overdue assigned.SENDER_TIMEOUT now (finite.get self.now.sending address) }
    {
        self.sender.is_overdue(address, now)
    }

    /// Whether a message is being sent to an address.
    pub fn is_sending(&self, address: u8) -> bool
        ensures { result ≡ is_some (finite.get self.now.sending address) }
    {
        self.sender.is_sending(address)
    }

    /// Processes a frame of the transport protocol as the sender, and returns the frames to send.
    pub fn receive_as_sender(&mut self, now: u64, frame: &Frame) -> ArrayVec<Frame, 255>
        ensures answered { HasAnswered (sender_answer self.old now frame.now) (source_of frame.now) self.old.sending self.new.sending result.items }
        ensures rest { self.new ≡ record self.old { sending = self.new.sending } }
    {
        self.sender.hear(now, frame)
    }

    /// Ends the overdue receiving session with the lowest address, and returns its abort.
    pub fn expire_tp(&mut self, now: u64) -> Option<Frame>
        ensures some { IfSome result (HasExpired assigned.TP_TIMEOUT (abort_by tp.protocol self.old.claims.own) self.old.tp self.new.tp now) }
        ensures none { IfNone result (NoneExpires assigned.TP_TIMEOUT self.old.tp self.new.tp now) }
        ensures addresses { AreOfAddresses self.old.tp }
        ensures rest { self.new ≡ record self.old { tp = self.new.tp } }
    {
        self.tp.expire(now)
    }

    pub fn expire_etp(&mut self, now: u64) -> Option<Frame>
        ensures some { IfSome result (HasExpired assigned.ETP_TIMEOUT (abort_by etp.protocol self.old.claims.own) self.old.etp self.new.etp now) }
        ensures none { IfNone result (NoneExpires assigned.ETP_TIMEOUT self.old.etp self.new.etp now) }
        ensures addresses { AreOfAddresses self.old.etp }
        ensures rest { self.new ≡ record self.old { etp = self.new.etp } }
    {
        self.etp.expire(now)
    }

    /// Ends the overdue sending session with the lowest address, and returns its abort.
    pub fn expire_sending(&mut self, now: u64) -> Option<Frame>
        ensures some { IfSome result (HasExpired assigned.SENDER_TIMEOUT (timeout_frame self.old.claims.own) self.old.sending self.new.sending now) }
        ensures none { IfNone result (NoneExpires assigned.SENDER_TIMEOUT self.old.sending self.new.sending now) }
        ensures addresses { AreOfAddresses self.old.sending }
        ensures rest { self.new ≡ record self.old { sending = self.new.sending } }
    {
        self.sender.expire(now)
    }

    /// The first time at which a session is overdue, or `None` if none ever is. docs/PROFILE.md, "Timeouts".
    pub fn overdue_from(&self) -> Option<u64>
        ensures { IsFirstTime (HasOverdue self.now) result }
    {
        let receiving = earlier(self.tp.overdue_from(), self.etp.overdue_from());
        earlier(receiving, self.sender.overdue_from())
    }

    /// Starts to send a message of 9 to 1785 bytes, and returns its request to send.
    pub fn start(&mut self, now: u64, to: u8, message: &[u8]) -> Result<Frame, SendFault>
        requires { has_size message.now ≡ true }
        ensures ok { IfOk result (λ frame. (finite.get self.old.sending to ≡ None)
            × (self.new ≡ record self.old { sending = finite.insert self.old.sending to (record { last = now; session = record { pgn = assigned.VT_TO_ECU; bytes = message.now } }) })
            × (frame ≡ rts_frame self.old.claims.own to (length message.now) assigned.VT_TO_ECU)) }
        ensures busy { (result ≡ Err SendFault.Busy) ↔ IsSome (finite.get self.old.sending to) }
        ensures size { result ≢ Err SendFault.Size }
        ensures err { OnErr result (self.new ≡ self.old) }
    {
        self.sender.start(now, to, VT_TO_ECU, message)
    }
}
