//! Messages of this terminal that the recorded one did not send in time.

use log_answers::{Said, Topic};
use std::alloc::{AllocError, Global};
use std::collections::BTreeMap;

/// The last message of each topic that was not answered in time.
///
/// The memory grows with the topics, and not with the messages.
#[derive(Drop)]
pub(crate) struct Unanswered {
    messages: BTreeMap<u64, Message>,
}

/// A message, and how often in a row it was not answered, less the late answers.
#[derive(Drop)]
struct Message {
    said: Said,
    count: u64,
}

impl Unanswered {
    /// No messages. Allocates nothing.
    pub(crate) fn new(alloc: Global) -> Unanswered {
        Unanswered {
            messages: BTreeMap::new(alloc),
        }
    }

    /// Adds a message that was not answered in time. After an error nothing is added.
    pub(crate) fn add(&mut self, said: &Said) -> Result<(), AllocError> {
        let key = key_of(said.topic);
        let count = match self.messages.get(&key) {
            Some(last) if last.said.bytes == said.bytes => last.count.saturating_add(1),
            _ => 1,
        };
        let said = said.clone()?;
        self.messages.insert(key, Message { said, count })?;
        Ok(())
    }

    /// Whether a message of the recorded terminal is a late answer: the last message on its topic that was not answered in time has its
    /// bytes. There are no more late answers than messages without an answer.
    pub(crate) fn takes_late(&mut self, answer: &Said) -> bool {
        let key = key_of(answer.topic);
        let Some(last) = self.messages.get_mut(&key) else {
            return false;
        };
        if last.count == 0 || last.said.bytes != answer.bytes {
            return false;
        }
        last.count = last.count.saturating_sub(1);
        true
    }
}

/// A topic as a number, which no other topic has.
fn key_of(topic: Topic) -> u64 {
    let Topic {
        destination,
        function,
        object,
    } = topic;
    let has_object = u8::from(object.is_some());
    let [high, low] = object.unwrap_or(0).to_be_bytes();
    u64::from_be_bytes([0, 0, 0, has_object, destination, function, high, low])
}
