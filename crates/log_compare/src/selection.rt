//! Which differences are reported, by the options of the comparison.

use check_text::Names;
use log_answers::{Said, Topic};
use log_options::{ObjectWord, TopicFilter, TopicPart};
use std::io::Write;
use vt_cli::Program;
use vt_objects::ObjectId;

/// The differences that a filter selects, with the names of objects.
#[derive(Clone, Copy, Drop)]
pub(crate) struct Selection<'a> {
    pub(crate) filter: &'a TopicFilter<'a>,
    pub(crate) names: &'a Names,
}

impl Selection<'_> {
    /// Whether a difference is reported, by the message whose line it has.
    pub(crate) fn has(&self, said: &Said) -> bool {
        let TopicFilter {
            range,
            only,
            ignored,
        } = self.filter;
        range.has(said.line, said.time)
            && (only.is_empty() || self.fits_one(said.topic, only))
            && !self.fits_one(said.topic, ignored)
    }

    /// Whether some differences may be passed over.
    pub(crate) fn is_given(&self) -> bool {
        let TopicFilter {
            range,
            only,
            ignored,
        } = self.filter;
        range.from.is_some() || range.to.is_some() || !only.is_empty() || !ignored.is_empty()
    }

    /// Whether each name in the options is the name of an object. Writes to `errors` the first that is not.
    pub(crate) fn has_known_names<F: Program, E: Write>(&self, files: &F, errors: &mut E) -> bool {
        let parts = self.filter.only.iter().chain(self.filter.ignored.iter());
        for part in parts {
            if let Some(unknown) = object_of(*part).and_then(|word| word.unknown_name(self.names)) {
                let _ = writeln!(errors, "{}: {unknown}", files.name());
                return false;
            }
        }
        true
    }

    /// Whether a topic has one of these parts.
    fn fits_one(&self, topic: Topic, parts: &[TopicPart<'_>]) -> bool {
        parts.iter().any(|part| self.fits(topic, *part))
    }

    /// Whether a topic has a part.
    fn fits(&self, topic: Topic, part: TopicPart<'_>) -> bool {
        match part {
            TopicPart::Function(function) => topic.function == function,
            TopicPart::Destination(destination) => topic.destination == destination,
            TopicPart::Object(object) => topic
                .object
                .is_some_and(|id| object.is(ObjectId::from_raw(id), self.names)),
        }
    }
}

/// The object of a part that is one.
fn object_of<'a>(part: TopicPart<'a>) -> Option<ObjectWord<'a>> {
    match part {
        TopicPart::Object(object) => Some(object),
        TopicPart::Function(_) | TopicPart::Destination(_) => None,
    }
}
