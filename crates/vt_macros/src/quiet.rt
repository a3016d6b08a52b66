//! Quiet macros: they leave unchanged what the text of a screen shows (docs/PROFILE.md, "The drawing and the screen text").

ghost use Rattle.std.specs.Prelude.{◌≡◌, true, false, set, slice_index_or};
ghost use Rattle.std.specs.List.{list_all};
ghost use Rattle.vt_verify.specs.Triggers.{listing};
ghost use Rattle.vt_effects.specs.Soundness.{shape_in};
ghost use Rattle.vt_macros.specs.Indexes.{IsIndexOf, are_quiet_events, command_in, is_quiet_event, pieces_in};
ghost use Rattle.vt_macros.specs.QuietMacros as quiet;

use crate::index::{Index, Span};
use vt_effects::writes_unseen;
use vt_objects::{Command, ObjectId, Raised, Store, row_events};

impl Index {
    /// Finds the quiet macros of `order` and records them in the index: a macro is quiet if its commands write no field that
    /// a screen's text shows, and trigger only known quiet macros. If `order` is that of the ranks, with each macro after
    /// those that it triggers, none is missed. No contract states this.
    pub fn find_quiet<S: Store>(&mut self, store: &S, order: &[u8])
        requires { IsIndexOf (shape_in (S.contents store.now)) self.old }
        ensures { IsIndexOf (shape_in (S.contents store.now)) self.new }
    {
        for id in order {
            if self.is_quiet_macro(store, *id) {
                self.add_quiet(*id);
            }
        }
    }

    /// Whether events trigger only known quiet macros.
    pub fn are_quiet(&self, raised: &[Raised]) -> bool
        ensures { result ≡ are_quiet_events self.now raised.now }
    {
        raised
            .iter()
            .all(|event| self.is_quiet_at(event.id, event.event.number()))
    }

    /// Whether an event, by its number, triggers only known quiet macros.
    pub fn is_quiet_at(&self, id: ObjectId, event: u8) -> bool
        ensures { result ≡ is_quiet_event self.now (listing id event) }
    {
        self.macros_at(id, event)
            .iter()
            .all(|id| self.is_known_quiet(*id))
    }

    fn is_known_quiet(&self, id: u8) -> bool
        ensures { result ≡ slice_index_or self.now.quiet.items id false }
    {
        match self.quiet.get(usize::from(id)) {
            Some(is_quiet) => *is_quiet,
            None => false,
        }
    }

    fn add_quiet(&mut self, id: u8)
        ensures rest { self.new ≡ record self.old { quiet = self.new.quiet } }
        ensures known { self.new.quiet.items ≡ set self.old.quiet.items id true }
    {
        let index = usize::from(id);
        if index < self.quiet.len() {
            self.quiet[index] = true;
        }
    }

    /// Whether all commands of a macro are quiet.
    fn is_quiet_macro<S: Store>(&self, store: &S, id: u8) -> bool
        requires { IsIndexOf (shape_in (S.contents store.now)) self.now }
        ensures { result ≡ list_all (λ piece. quiet.is_quiet_in (shape_in (S.contents store.now)) self.now.quiet.items (command_in self.now piece)) (pieces_in self.now id) }
    {
        self.pieces(id)
            .iter()
            .all(|piece| self.is_quiet_piece(store, piece))
    }

    fn is_quiet_piece<S: Store>(&self, store: &S, piece: &Span) -> bool
        requires { IsIndexOf (shape_in (S.contents store.now)) self.now }
        ensures { result ≡ quiet.is_quiet_in (shape_in (S.contents store.now)) self.now.quiet.items (command_in self.now piece.now) }
    {
        match self.command(piece) {
            Some(command) => self.is_quiet(store, &command),
            None => false,
        }
    }

    /// Whether a command writes no field that a screen's text shows, and triggers only known quiet macros.
    fn is_quiet<S: Store>(&self, store: &S, command: &Command<'_>) -> bool
        requires { IsIndexOf (shape_in (S.contents store.now)) self.now }
        ensures { result ≡ quiet.is_quiet (shape_in (S.contents store.now)) self.now.quiet.items command.now }
    {
        is_unseen(store, command) && self.are_quiet(&row_events(command))
    }
}

/// Whether a command writes no field that a screen's text shows. False if its object is missing.
fn is_unseen<S: Store>(store: &S, command: &Command<'_>) -> bool
    ensures { result ≡ quiet.is_unseen_in (shape_in (S.contents store.now)) command.now }
{
    let Some(id) = command.object() else {
        return true;
    };
    match store.get(id) {
        Some(object) => writes_unseen(command, object.kind()),
        None => false,
    }
}
