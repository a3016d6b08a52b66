//! Questions without an answer so far.

ghost use Rattle.std.specs.Prelude.{◌≡◌, ◌++◌, [], map, OnOk};
ghost use Rattle.std.specs.List.{position};
ghost use Rattle.std.specs.Option.{option_to_list};
ghost use Rattle.log_answers.specs.declared.difference.Difference.TheVariants.{OursAlone};
ghost use Rattle.log_answers.specs.Messages.{is_on, said_by};
ghost use Rattle.log_answers.specs.OpenQuestions.{Answers, Hears, LosesOverdue, TakesOldest};

use crate::difference::Difference;
use crate::said::{Said, is_on, said_in};
use crate::tally::{Tally, count};
use crate::topic::Topic;
use std::alloc::{AllocError, Global};
use std::collections::VecDeque;
use vt_server::Output;

/// The questions without an answer so far, the oldest first.
#[derive(Drop)]
pub(crate) struct OpenQuestions {
    pub(crate) questions: VecDeque<Said>,
}

impl OpenQuestions {
    /// No question.
    pub(crate) fn new(alloc: Global) -> OpenQuestions
        ensures { result.questions.items ≡ [] }
    {
        OpenQuestions {
            questions: VecDeque::new(alloc),
        }
    }

    /// Adds the messages that this terminal sends at a line. They are open from then on.
    pub(crate) fn ask(
        &mut self,
        line: u64,
        time: u64,
        outputs: &[Output],
        tally: &mut Tally,
    ) -> Result<(), AllocError>
        ensures { OnOk result (self.new.questions.items ≡ self.old.questions.items ++ said_by line time outputs.now) }
    {
        for output in outputs {
            if let Output::Frame(frame) = output {
                match said_in(line, time, frame)? {
                    Some(question) => self.questions.push_back(question)?,
                    None => count(&mut tally.not_compared),
                }
            }
        }
        Ok(())
    }

    /// Lists the questions that are older than the wait, and removes them. The questions must be in the order of their times.
    pub(crate) fn expire(
        &mut self,
        wait: u64,
        now: u64,
        tally: &mut Tally,
        differences: &mut Vec<Difference>,
    ) -> Result<(), AllocError>
        ensures { OnOk result (LosesOverdue wait now self.old.questions.items self.new.questions.items differences.old.items differences.new.items) }
    {
        while let Some(oldest) = self.questions.front() {
            if now.saturating_sub(oldest.time) <= wait {
                break;
            }
            if let Some(question) = self.questions.pop_front() {
                count(&mut tally.ours_alone);
                differences.push(Difference::OursAlone(question))?;
            }
        }
        Ok(())
    }

    /// Removes the oldest question on a topic, and returns it.
    fn take_oldest(&mut self, topic: Topic) -> Option<Said>
        ensures { TakesOldest topic self.old.questions.items result self.new.questions.items }
    {
        match self.place_of_oldest(topic) {
            Some(place) => self.questions.remove(place),
            None => None,
        }
    }

    /// The place of the oldest question on a topic.
    fn place_of_oldest(&self, topic: Topic) -> Option<usize>
        ensures { result ≡ position (is_on topic) self.now.questions.items }
    {
        self.questions
            .iter()
            .position(|question| is_on(topic, question))
    }

    /// Processes an answer, if there is one.
    pub(crate) fn hear(
        &mut self,
        answer: Option<Said>,
        tally: &mut Tally,
        differences: &mut Vec<Difference>,
    ) -> Result<(), AllocError>
        ensures { OnOk result (Hears (option_to_list answer) self.old.questions.items self.new.questions.items differences.old.items differences.new.items) }
    {
        match answer {
            Some(answer) => self.answer(answer, tally, differences),
            None => Ok(()),
        }
    }

    /// Processes an answer: removes the oldest question on its topic, and lists how the answer differs from it.
    fn answer(
        &mut self,
        theirs: Said,
        tally: &mut Tally,
        differences: &mut Vec<Difference>,
    ) -> Result<(), AllocError>
        ensures { OnOk result (Answers theirs self.old.questions.items self.new.questions.items differences.old.items differences.new.items) }
    {
        match self.take_oldest(theirs.topic) {
            None => {
                count(&mut tally.theirs_alone);
                differences.push(Difference::TheirsAlone(theirs))?;
            }
            Some(ours) if ours.bytes == theirs.bytes => count(&mut tally.same),
            Some(ours) => {
                count(&mut tally.differ);
                differences.push(Difference::Differ { ours, theirs })?;
            }
        }
        Ok(())
    }

    /// Lists all questions, and removes them.
    pub(crate) fn end(
        &mut self,
        tally: &mut Tally,
        differences: &mut Vec<Difference>,
    ) -> Result<(), AllocError>
        ensures told { OnOk result (differences.new.items ≡ differences.old.items ++ map OursAlone self.old.questions.items) }
        ensures none { OnOk result (self.new.questions.items ≡ []) }
    {
        while let Some(question) = self.questions.pop_front() {
            count(&mut tally.ours_alone);
            differences.push(Difference::OursAlone(question))?;
        }
        Ok(())
    }
}
