//! The working sets of a replay.

use crate::answers::Answer;
use crate::line_before::LineBefore;
use crate::reached::Reached;
use crate::shown_masks::shown_set;
use std::alloc::{AllocError, Global};
use std::collections::BTreeMap;
use vt_can::{Frame, Line, LineFault};
use vt_machine::Live;
use vt_objects::{Event, ObjectId, SortedStore};
use vt_server::{Output, Terminal};

/// The working sets that had a pool, by their addresses.
#[derive(Drop)]
pub(crate) struct ReachedSets {
    alloc: Global,
    pub(crate) sets: BTreeMap<u8, Reached>,
    /// What was known before the line that the terminal takes.
    line: Option<LineBefore>,
}

impl ReachedSets {
    /// The working sets that a terminal has before the first line, and what it draws.
    pub(crate) fn new(alloc: Global, terminal: &Terminal) -> Result<ReachedSets, AllocError> {
        let mut sets = ReachedSets {
            alloc,
            sets: BTreeMap::new(alloc),
            line: None,
        };
        for address in 0..=u8::MAX {
            sets.note_pool(address, terminal)?;
        }
        sets.note_drawing(terminal)?;
        Ok(sets)
    }

    /// Notes what a line may reach, before the terminal takes it.
    pub(crate) fn before(&mut self, reading: &Result<Line<'_>, LineFault>, terminal: &Terminal) {
        self.line = Some(LineBefore::of_reading(reading, terminal));
    }

    /// Notes what a line has reached, from its outputs.
    pub(crate) fn after(
        &mut self,
        outputs: &[Output],
        terminal: &Terminal,
    ) -> Result<(), AllocError> {
        let line = self.take_line(terminal);
        self.note_answers(outputs, line.mask, terminal)?;
        // The line with which the address is lost raises no event, and no line after it does. An operator's line never loses the address.
        if !terminal.is_lost() {
            self.note_events(outputs, &line, terminal)?;
        }
        if terminal.redraws() {
            self.note_drawing(terminal)?;
        }
        Ok(())
    }

    /// Notes what the operator's action of a line raises, unless it is refused, and what a change of the shown set raises.
    fn note_events(
        &mut self,
        outputs: &[Output],
        line: &LineBefore,
        terminal: &Terminal,
    ) -> Result<(), AllocError> {
        let is_refused = outputs
            .iter()
            .any(|output| matches!(output, Output::Refused(_)));
        if !is_refused {
            self.note_deed(line, terminal)?;
        }
        self.note_change(line, terminal)
    }

    /// What was known before the line, which is then forgotten.
    fn take_line(&mut self, terminal: &Terminal) -> LineBefore {
        match self.line.take() {
            Some(line) => line,
            None => LineBefore::without_input(terminal),
        }
    }

    /// Notes what the frames of the terminal answer, by the active mask before the line.
    fn note_answers(
        &mut self,
        outputs: &[Output],
        mask: ObjectId,
        terminal: &Terminal,
    ) -> Result<(), AllocError> {
        for output in outputs {
            if let Output::Frame(frame) = output {
                self.note_answer(frame, mask, terminal)?;
            }
        }
        Ok(())
    }

    /// Notes the objects of the pool at an address, if there is one.
    fn note_pool(&mut self, address: u8, terminal: &Terminal) -> Result<(), AllocError> {
        let Some(live) = terminal.set(address) else {
            return Ok(());
        };
        let mut set = match self.sets.remove(&address) {
            Some(set) => set,
            None => Reached::new(self.alloc),
        };
        set.note_pool(live.store())?;
        self.sets.insert(address, set)?;
        Ok(())
    }

    /// Notes what a frame of the terminal answers.
    fn note_answer(
        &mut self,
        frame: &Frame,
        mask: ObjectId,
        terminal: &Terminal,
    ) -> Result<(), AllocError> {
        let Some((address, answer)) = Answer::in_frame(frame) else {
            return Ok(());
        };
        match answer {
            Answer::Pool => self.note_pool(address, terminal),
            Answer::Done(effect) => match self.sets.get_mut(&address) {
                Some(set) => set.note_done(terminal.set(address), mask, effect),
                None => Ok(()),
            },
            Answer::Refused => {
                if let Some(set) = self.sets.get_mut(&address) {
                    set.count_refused();
                }
                Ok(())
            }
        }
    }

    /// Notes what the operator's action of a line raises on the set that was shown before it.
    fn note_deed(&mut self, line: &LineBefore, terminal: &Terminal) -> Result<(), AllocError> {
        let (Some((deed, id)), Some(address)) = (line.deed, line.shown) else {
            return Ok(());
        };
        match self.set_with_pool(address, terminal) {
            Some((set, live)) => set.note_deed(live.store(), deed, id),
            None => Ok(()),
        }
    }

    /// Notes what a change of the shown set raises.
    fn note_change(&mut self, line: &LineBefore, terminal: &Terminal) -> Result<(), AllocError> {
        let now = terminal.shown();
        if line.shown == now {
            return Ok(());
        }
        self.raise_at(line.shown, Event::Deactivate, terminal)?;
        self.raise_at(now, Event::Activate, terminal)
    }

    /// Notes what an event of the Working Set at an address raises.
    fn raise_at(
        &mut self,
        address: Option<u8>,
        event: Event,
        terminal: &Terminal,
    ) -> Result<(), AllocError> {
        let Some(address) = address else {
            return Ok(());
        };
        match self.set_with_pool(address, terminal) {
            Some((set, live)) => set.macros.raise(live.store(), live.working_set(), event),
            None => Ok(()),
        }
    }

    /// Notes the objects that the screen draws.
    fn note_drawing(&mut self, terminal: &Terminal) -> Result<(), AllocError> {
        let Some((address, live)) = shown_set(terminal) else {
            return Ok(());
        };
        match self.sets.get_mut(&address) {
            Some(set) => set.note_drawing(live),
            None => Ok(()),
        }
    }

    /// What was reached of the set at an address, and its pool, if it has one.
    fn set_with_pool<'a>(
        &'a mut self,
        address: u8,
        terminal: &'a Terminal,
    ) -> Option<(&'a mut Reached, &'a Live<SortedStore>)> {
        let set = self.sets.get_mut(&address)?;
        let live = terminal.set(address)?;
        Some((set, live))
    }
}
