//! The sentences of items.

use crate::checked_pool::CheckedPool;
use crate::circles::circle_in;
use crate::command_text::CommandText;
use crate::events::event_name;
use crate::fault_sentences::FaultSentence;
use crate::item::Item;
use crate::kinds_text::KindsText;
use crate::label::Label;
use crate::spot::SpotWords;
use crate::value_sentences::ValueSentence;
use crate::warning_sentences::WarningSentence;
use check_inspect::{Finding, Note, ReferenceAt, Spot};
use std::fmt;
use vt_objects::ObjectId;
use vt_verify::TERMINAL_LIMITS;

/// The sentence of an item, with the kinds and names of its objects.
#[derive(Clone, Copy, Drop)]
pub(crate) struct Sentence<'a, 'b> {
    pub(crate) source: CheckedPool<'a>,
    pub(crate) item: Item<'b>,
}

impl fmt::Display for Sentence<'_, '_> {
    fn fmt<W: fmt::Write>(&self, f: &mut fmt::Formatter<W>) -> fmt::Result {
        let source = self.source;
        match self.item {
            Item::Finding(finding) => write!(f, "{}", FindingSentence { source, finding }),
            Item::Clash(replaced) => write!(
                f,
                "{}: {} at {} has the same ID and replaces it; give one of them another number",
                source.replaced_label(replaced),
                Label {
                    name: None,
                    ..source.label(replaced.id)
                },
                replaced.by
            ),
            Item::Replaced(replaced) => write!(
                f,
                "{} is replaced by the record at {}",
                source.replaced_label(replaced),
                replaced.by
            ),
            Item::Warning(warning) => write!(f, "{}", WarningSentence { source, warning }),
            Item::Value(warning) => write!(f, "{}", ValueSentence { source, warning }),
            Item::Note(note) => f.write_str(note_sentence(note)),
        }
    }
}

/// The sentence of a finding, with the kinds and names of its objects.
#[derive(Clone, Copy, Drop)]
pub(crate) struct FindingSentence<'a, 'b> {
    pub(crate) source: CheckedPool<'a>,
    pub(crate) finding: &'b Finding,
}

impl fmt::Display for FindingSentence<'_, '_> {
    fn fmt<W: fmt::Write>(&self, f: &mut fmt::Formatter<W>) -> fmt::Result {
        match self.finding {
            Finding::Record(fault) => {
                let source = self.source;
                let fault = *fault;
                write!(f, "{}", FaultSentence { source, fault })
            }
            Finding::NoWorkingSet => f.write_str("no object is a Working Set"),
            Finding::TwoWorkingSets { id } => {
                write!(f, "{}: one Working Set too many", self.source.label(*id))
            }
            Finding::Missing(found) | Finding::MacroMissing(found) => self.write_missing(f, found),
            Finding::WrongKind(found) | Finding::MacroKind(found) => {
                self.write_named(f, found)?;
                let kinds = KindsText {
                    kinds: found.reference.kinds,
                };
                write!(f, ", a kind that is not allowed there; expected {kinds}")
            }
            Finding::TooDeep { chain } => self.write_chain(f, chain.as_slice()),
            Finding::MacroBytes { id } => {
                write!(
                    f,
                    "{}: the bytes end inside a command",
                    self.source.label(*id)
                )
            }
            Finding::MacroCommand { id, at, function } => {
                let command = CommandText {
                    at: *at,
                    function: *function,
                };
                let label = self.source.label(*id);
                write!(f, "{label}: {command} is not allowed in a macro")
            }
            Finding::MacroValue {
                id,
                at,
                object,
                attribute,
            } => write!(
                f,
                "{}: the command at byte {at} changes attribute {attribute}, which {} does not have",
                self.source.label(*id),
                self.source.label(*object)
            ),
            Finding::MacroCircle { path } => self.write_circle(f, path.as_slice()),
            Finding::OverBudget { id, event } => self.write_over_budget(f, *id, *event),
        }
    }
}

/// The sentence of a note: which rules were not judged, and why.
fn note_sentence(note: Note) -> &'static str {
    match note {
        Note::Unread { .. } => {
            "the bytes from here on cannot be read, so nothing is called missing or unused (R01 NoWorkingSet, R03 Missing, R08 MacroMissing, W02 Unused not judged; all other codes only for the objects that were read)"
        }
        Note::UnknownTriggers => {
            "a macro ends inside a command, so triggers are not known (R11 MacroCircle, R12 OverBudget not judged; R07 MacroCommand, R08 MacroMissing, R09 MacroKind, R10 MacroValue not for the commands of such a macro)"
        }
        Note::UnknownCosts => {
            "macros trigger each other in a circle, so costs are not known (R12 OverBudget not judged)"
        }
        Note::PassedOver => {
            "records of types that this terminal does not have are passed over, so what they refer to is not known (W02 Unused not judged; R03 Missing and R08 MacroMissing not for their IDs)"
        }
    }
}

impl FindingSentence<'_, '_> {
    fn write_missing<W: fmt::Write>(
        &self,
        f: &mut fmt::Formatter<W>,
        found: &ReferenceAt,
    ) -> fmt::Result {
        if found.reference.id.is_null() {
            let spot = SpotWords { spot: found.spot };
            let parent = self.source.label(found.reference.parent);
            return write!(
                f,
                "{parent}: {spot} names no object (65535) where one is needed"
            );
        }
        self.write_named(f, found)?;
        f.write_str(", which is not there")
    }

    /// Writes which object names which.
    fn write_named<W: fmt::Write>(
        &self,
        f: &mut fmt::Formatter<W>,
        found: &ReferenceAt,
    ) -> fmt::Result {
        let parent = self.source.label(found.reference.parent);
        let named = self.source.label(found.reference.id);
        let spot = SpotWords { spot: found.spot };
        write!(f, "{parent}: {spot} names {named}")?;
        match found.spot {
            Spot::Through { pointer, .. } => {
                write!(f, " through {}", self.source.label(pointer))
            }
            _ => Ok(()),
        }
    }

    /// Writes a chain of inclusions, each object by its label, or only its circle.
    fn write_chain<W: fmt::Write>(
        &self,
        f: &mut fmt::Formatter<W>,
        chain: &[ObjectId],
    ) -> fmt::Result {
        let circle = circle_in(chain);
        match circle {
            Some(_) => f.write_str("a circle of inclusions:")?,
            None => write!(
                f,
                "inclusions more than {} deep:",
                TERMINAL_LIMITS.inclusions
            )?,
        }
        for (index, id) in circle.unwrap_or(chain).iter().enumerate() {
            let separator = if index == 0 { "" } else { " >" };
            write!(f, "{separator} {}", self.source.label(*id))?;
        }
        Ok(())
    }

    /// Writes a circle of macros, each by its label, and the first once more.
    fn write_circle<W: fmt::Write>(&self, f: &mut fmt::Formatter<W>, path: &[u8]) -> fmt::Result {
        f.write_str("macros trigger each other in a circle:")?;
        for id in path {
            let macro_object = ObjectId::from_raw(u16::from(*id));
            write!(f, " {} >", self.source.label(macro_object))?;
        }
        match path.first() {
            Some(id) => write!(f, " {id}"),
            None => Ok(()),
        }
    }

    fn write_over_budget<W: fmt::Write>(
        &self,
        f: &mut fmt::Formatter<W>,
        id: ObjectId,
        event: Option<u8>,
    ) -> fmt::Result {
        let label = self.source.label(id);
        match event {
            Some(event) => write!(f, "{label}: event {event} ({})", event_name(event))?,
            None => write!(f, "{label}")?,
        }
        write!(f, " can take more than {} steps", TERMINAL_LIMITS.steps)
    }
}
