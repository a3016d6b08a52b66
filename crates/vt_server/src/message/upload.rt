//! Messages from the master of a set, and its uploads (docs/PROFILE.md, "Whole messages", "Object Pool Transfer (11)").

ghost use Rattle.std.specs.Prelude.{◌≡◌, ℕ, List, true, is_some, IfOk, OnOk, length, slice_index, Some, not, ◌&&◌, ◌==◌};
ghost use Rattle.vt_can.specs.transport.Messages.{size_and_first_byte, Message};
ghost use Rattle.vt_names.specs.Registry.{set_at};
ghost use Rattle.vt_server.specs.frame.FrameContracts.{FitsMessage, FitsOneFrame, IsEnd, HandlesMessage, IsReplyTo, CapacityStays};
ghost use Rattle.vt_server.specs.shown.Screens.{TellsChanges, redraws};
ghost use Rattle.vt_server.specs.States.{state_of};
ghost use Rattle.vt_server.specs.Terminals as spec;
ghost use Rattle.vt_server.specs.state.PoolTables.{content_of, spare_of};

use crate::OutOfMemory;
use crate::message::end_of_pool::{ACCEPTED, Judgement};
use crate::message::replies::reply_to;
use crate::terminal::Terminal;
use vt_can::Frame;
use vt_can::assigned::{END_OF_POOL, TRANSFER};
use vt_node::{message_to, technical_reply};
use vt_objects::Command;

/// Work done in advance for the message that a frame completes.
#[derive(Drop)]
pub(crate) enum PreparedMessage {
    /// Nothing.
    Nothing,
    /// Capacity for a piece of a pool.
    Capacity,
    /// Capacity for a piece of a pool, and the piece, copied from the frame.
    Piece(Vec<u8>),
    /// The judgement of the upload that the message ends.
    End(Judgement),
}

impl Terminal {
    /// Does the work in advance for a message of one frame. Changes nothing but capacity.
    pub(crate) fn prepare_frame(
        &mut self,
        source: u8,
        bytes: &[u8],
    ) -> Result<PreparedMessage, OutOfMemory>
        ensures same { state_of self.new ≡ state_of self.old }
        ensures reserved { CapacityStays self.old self.new }
        ensures redraws { redraws self.new ≡ redraws self.old }
        ensures ready { IfOk result (FitsOneFrame (content_of self.new.contents source) (spare_of self.new.contents source) bytes.now) }
    {
        match bytes.first() {
            Some(&TRANSFER) => {
                let piece = Vec::from_slice(self.alloc, bytes)?;
                self.contents.reserve(self.alloc, source, bytes.len())?;
                Ok(PreparedMessage::Piece(piece))
            }
            Some(&END_OF_POOL) => self.prepare_end(source),
            _ => Ok(PreparedMessage::Nothing),
        }
    }

    /// Does the work in advance for a message in packets, from its announced size and first byte.
    pub(crate) fn prepare_announced(
        &mut self,
        source: u8,
        completed: Option<(usize, u8)>,
    ) -> Result<PreparedMessage, OutOfMemory>
        ensures same { state_of self.new ≡ state_of self.old }
        ensures reserved { CapacityStays self.old self.new }
        ensures redraws { redraws self.new ≡ redraws self.old }
        ensures ready { (message : Message) → completed ≡ size_and_first_byte (Some message)
            → IfOk result (FitsMessage (content_of self.new.contents source) (spare_of self.new.contents source) message.bytes) }
    {
        match completed {
            Some((size, TRANSFER)) => {
                self.contents.reserve(self.alloc, source, size)?;
                Ok(PreparedMessage::Capacity)
            }
            Some((_, END_OF_POOL)) => self.prepare_end(source),
            _ => Ok(PreparedMessage::Nothing),
        }
    }

    /// Judges the upload of an address.
    fn prepare_end(&self, source: u8) -> Result<PreparedMessage, OutOfMemory>
        ensures { IfOk result (IsEnd (content_of self.now.contents source)) }
    {
        let judgement = self.contents.judge(self.alloc, source)?;
        Ok(PreparedMessage::End(judgement))
    }

    /// Handles a message from the master of a set and returns its reply, if it has one.
    pub(crate) fn answer(
        &mut self,
        source: u8,
        bytes: &[u8],
        upload: PreparedMessage,
    ) -> Option<Frame>
        requires { is_some (set_at source (state_of self.old).sets) ≡ true → FitsOneFrame (content_of self.old.contents source) (spare_of self.old.contents source) bytes.now upload }
        ensures answers { HandlesMessage (state_of self.old) source bytes.now result (state_of self.new) }
        ensures tells { TellsChanges self.old self.new }
    {
        if !self.registered(source) {
            return None;
        }
        let own = self.node.own();
        match upload {
            PreparedMessage::Nothing => {
                let reply = self.reply(source, bytes)?;
                Some(message_to(own, source, reply))
            }
            PreparedMessage::Capacity => unreachable!(),
            PreparedMessage::Piece(piece) => {
                self.contents.feed(source, piece, 1);
                None
            }
            PreparedMessage::End(judgement) => {
                let reply = self.contents.end(source, judgement);
                self.redraws |= reply == ACCEPTED && self.shown == Some(source);
                Some(message_to(own, source, reply))
            }
        }
    }

    /// The reply to a technical request or to a command; `None` for any other message.
    fn reply(&mut self, source: u8, bytes: &[u8]) -> Option<[u8; 8]>
        ensures replies { IsReplyTo (state_of self.old) source bytes.now result (state_of self.new) }
        ensures tells { TellsChanges self.old self.new }
    {
        if let Some(reply) = technical_reply(&self.profile, bytes) {
            return Some(reply);
        }
        let command = Command::read(bytes)?;
        let is_kept = self.contents.keeps_look(source, &command);
        let error = self.contents.apply(source, &command)?;
        self.redraws |= is_redrawn(is_kept, error, self.shown == Some(source));
        Some(reply_to(&command, error))
    }
}

/// Whether a command may change the screen: it is done on the shown set, and may change the set's look.
fn is_redrawn(is_kept: bool, error: u8, is_shown: bool) -> bool
    ensures { result ≡ (not is_kept && (error == 0) && is_shown) }
{
    !is_kept && error == 0 && is_shown
}
