//! The handling of frames of transport sessions.

ghost use Rattle.std.specs.Prelude.{◌≡◌, ◌+◌, ◌≤◌, None, true, is_some, length};
ghost use Rattle.std.specs.Option.{option_to_list};
ghost use Rattle.vt_can.specs.frames.Frame.{source_of};
ghost use Rattle.vt_can.specs.transport.Receivers.{HasCapacityFor};
ghost use Rattle.vt_names.specs.Registry.{set_at};
ghost use Rattle.vt_transport.specs.Protocol as tp;
ghost use Rattle.vt_transport.specs.Wire.{tp_frame};
ghost use Rattle.vt_extended.specs.Protocol as etp;
ghost use Rattle.vt_extended.specs.Wire.{etp_frame};
ghost use Rattle.vt_server.specs.frame.FrameContracts.{FitsCompleted, FitsOneFrame, HandlesMessage, BeginsWithByte, AppliesMeaning, Handles, message_by};
ghost use Rattle.vt_server.specs.message.MessageEffects.{TRANSFER};
ghost use Rattle.vt_server.specs.Outputs.{HasSpare};
ghost use Rattle.vt_node.specs.ReceiverResults.{frames_in, message_in};
ghost use Rattle.vt_server.specs.frame.SessionEffects.{message_to_terminal};
ghost use Rattle.vt_server.specs.shown.Screens.{TellsChanges};
ghost use Rattle.vt_server.specs.States.{state_of};
ghost use Rattle.vt_server.specs.Terminals as spec;
ghost use Rattle.vt_server.specs.state.PoolTables.{content_of, spare_of};
ghost use Rattle.vt_node.specs.declared.bus.FrameMeaning.TheVariants as meanings;

use crate::message::upload::PreparedMessage;
use crate::output::{Output, send_all, send_reply};
use crate::terminal::Terminal;
use vt_can::assigned::ECU_TO_VT;
use vt_can::{Bytes, Frame, Heard};

impl Terminal {
    /// Handles a message of one frame.
    pub(crate) fn take_message(
        &mut self,
        frame: &Frame,
        upload: PreparedMessage,
        outputs: &mut Vec<Output>,
    )
        requires capacity { HasSpare 2 outputs.old }
        requires ready { is_some (set_at (source_of frame.now) (state_of self.old).sets) ≡ true
            → FitsOneFrame (content_of self.old.contents (source_of frame.now)) (spare_of self.old.contents (source_of frame.now)) frame.now.bytes.items upload }
        ensures takes { AppliesMeaning (state_of self.old) meanings.Message frame.now (state_of self.new) outputs.old.items outputs.new.items }
        ensures tells { TellsChanges self.old self.new }
        ensures capacity { HasSpare 1 outputs.new }
    {
        let reply = self.answer(frame.id.source(), frame.bytes.as_slice(), upload);
        send_reply(outputs, reply);
    }

    /// Handles a frame of the transport protocol, both as receiver and as sender.
    pub(crate) fn take_tp(
        &mut self,
        frame: &Frame,
        upload: PreparedMessage,
        outputs: &mut Vec<Output>,
    )
        requires capacity { HasSpare 258 outputs.old }
        requires session { HasCapacityFor tp.protocol (tp_frame self.old.node.claims.own frame.now) self.old.node.tp_spare }
        requires ready { is_some (set_at (source_of frame.now) (state_of self.old).sets) ≡ true
            → FitsCompleted (content_of self.old.contents (source_of frame.now)) (spare_of self.old.contents (source_of frame.now))
            (message_by self.old self.old.time ((state_of self.old).places (source_of frame.now)) meanings.Tp frame.now) upload }
        ensures takes { AppliesMeaning (state_of self.old) meanings.Tp frame.now (state_of self.new) outputs.old.items outputs.new.items }
        ensures tells { TellsChanges self.old self.new }
        ensures capacity { HasSpare 1 outputs.new }
    {
        let source = frame.id.source();
        if self.node.is_sending(source) {
            self.take_tp_as_sender(frame, upload, outputs);
            return;
        }
        let (reply, message) = parts_of(self.node.receive_tp(self.time, frame));
        send_reply(outputs, reply);
        let reply = self.take_whole(source, message, upload);
        send_reply(outputs, reply);
    }

    // Handles a frame from an address to which a message is being sent. The answer is an array with capacity for 255 frames, and
    // only this path pays for it.
    fn take_tp_as_sender(
        &mut self,
        frame: &Frame,
        upload: PreparedMessage,
        outputs: &mut Vec<Output>,
    )
        requires capacity { HasSpare 258 outputs.old }
        requires session { HasCapacityFor tp.protocol (tp_frame self.old.node.claims.own frame.now) self.old.node.tp_spare }
        requires ready { is_some (set_at (source_of frame.now) (state_of self.old).sets) ≡ true
            → FitsCompleted (content_of self.old.contents (source_of frame.now)) (spare_of self.old.contents (source_of frame.now))
            (message_by self.old self.old.time ((state_of self.old).places (source_of frame.now)) meanings.Tp frame.now) upload }
        ensures tells { TellsChanges self.old self.new }
        ensures takes { AppliesMeaning (state_of self.old) meanings.Tp frame.now (state_of self.new) outputs.old.items outputs.new.items }
        ensures capacity { HasSpare 1 outputs.new }
    {
        let source = frame.id.source();
        let (reply, message) = parts_of(self.node.receive_tp(self.time, frame));
        send_reply(outputs, reply);
        send_all(outputs, self.node.receive_as_sender(self.time, frame));
        let reply = self.take_whole(source, message, upload);
        send_reply(outputs, reply);
    }

    /// Handles a frame of the extended transport protocol.
    pub(crate) fn take_etp(
        &mut self,
        frame: &Frame,
        upload: PreparedMessage,
        outputs: &mut Vec<Output>,
    )
        requires capacity { HasSpare 3 outputs.old }
        requires session { HasCapacityFor etp.protocol (etp_frame self.old.node.claims.own frame.now) self.old.node.etp_spare }
        requires ready { is_some (set_at (source_of frame.now) (state_of self.old).sets) ≡ true
            → FitsCompleted (content_of self.old.contents (source_of frame.now)) (spare_of self.old.contents (source_of frame.now))
            (message_by self.old self.old.time ((state_of self.old).places (source_of frame.now)) meanings.Etp frame.now) upload }
        ensures takes { AppliesMeaning (state_of self.old) meanings.Etp frame.now (state_of self.new) outputs.old.items outputs.new.items }
        ensures tells { TellsChanges self.old self.new }
        ensures capacity { HasSpare 1 outputs.new }
    {
        let (reply, message) = parts_of(self.node.receive_etp(self.time, frame));
        send_reply(outputs, reply);
        let reply = self.take_whole(frame.id.source(), message, upload);
        send_reply(outputs, reply);
    }

    /// Handles a message that came in packets, if one is whole, and returns the reply. A piece of a pool is taken over as it is.
    fn take_whole(
        &mut self,
        source: u8,
        message: Option<Bytes>,
        upload: PreparedMessage,
    ) -> Option<Frame>
        requires ready { is_some (set_at source (state_of self.old).sets) ≡ true
            → FitsCompleted (content_of self.old.contents source) (spare_of self.old.contents source) message upload }
        ensures handles { Handles (state_of self.old) source message result (state_of self.new) }
        ensures tells { TellsChanges self.old self.new }
    {
        let bytes = message?.into_vec();
        match upload {
            PreparedMessage::Capacity => {
                self.take_piece(source, bytes);
                None
            }
            upload => self.answer(source, &bytes, upload),
        }
    }

    /// Appends a piece to the upload of a set.
    fn take_piece(&mut self, source: u8, piece: Vec<u8>)
        requires { is_some (set_at source (state_of self.old).sets) ≡ true
            → BeginsWithByte TRANSFER piece.items × (length piece.items ≤ 1 + spare_of self.old.contents source) }
        ensures answers { HandlesMessage (state_of self.old) source piece.items None (state_of self.new) }
        ensures tells { TellsChanges self.old self.new }
    {
        if self.registered(source) {
            self.contents.feed(source, piece, 1);
        }
    }
}

/// What a receiver answers, as the reply to send and the bytes of a message to the terminal.
fn parts_of(heard: Heard) -> (Option<Frame>, Option<Bytes>)
    ensures reply { option_to_list result.0 ≡ frames_in heard }
    ensures message { result.1 ≡ message_to_terminal (message_in heard) }
{
    match heard {
        Heard::Nothing => (None, None),
        Heard::Reply(reply) => (Some(reply), None),
        Heard::Message {
            pgn,
            bytes,
            reply,
            ..
        } => {
            if pgn == ECU_TO_VT {
                (Some(reply), Some(bytes))
            } else {
                (Some(reply), None)
            }
        }
    }
}
