//! An index of a pool's macros: those that run at an event, and the commands of each macro.

ghost use Rattle.std.specs.Prelude.{◌≡◌, ◌++◌, ◌∷◌, ◌==◌, ◌+◌, ℕ, [], length, map, Some, is_some, IsTrue, IfOk, OnOk, if◌then◌else◌, false, slice_index_or};
ghost use Rattle.vt_commands.specs.Commands.{command_at};
ghost use Rattle.vt_commands.specs.Pieces.{cut};
ghost use Rattle.vt_stores.specs.Shapes.{Shape, shape_of};
ghost use Rattle.vt_verify.specs.Macros.{cut_or_none, commands};
ghost use Rattle.vt_verify.specs.TriggerGraphs.{macros_of_event};
ghost use Rattle.vt_verify.specs.Triggers.{listing, listed};
ghost use Rattle.vt_macros.specs.Indexes.{in_span, command_in, pieces_in, IsIndexOf, HasSpansInBounds};

use std::alloc::{AllocError, Global};
use vt_objects::laws::cut_is_one;
use vt_objects::{Command, ObjectId, split_command};
use vt_verify::{Accepted, Listings};

/// A range of indices, from `start` to just before `end`.
#[derive(Clone, Copy, PartialEq, Eq)]
pub struct Span {
    start: usize,
    end: usize,
}

/// The macros that run at the events of a pool, and their commands, in its own memory. Stays valid for every later store,
/// since no command changes either.
pub struct Index {
    listings: Listings,
    /// The bytes of the macros, by rank.
    bytes: Vec<u8>,
    /// The range of each macro command in the bytes.
    pieces: Vec<Span>,
    /// The range of each macro's commands in `pieces`.
    macros: Vec<Span>,
    /// For each macro, whether it is known to be quiet.
    pub(crate) quiet: Vec<bool>,
}

// Written by hand, so that the crates above need not prove it again.
impl Drop for Index {
    fn drop(self) {
        let Index {
            listings: _listings,
            bytes: _bytes,
            pieces: _pieces,
            macros: _macros,
            quiet: _quiet,
        } = self;
    }
}

impl Index {
    /// The index of the macros of a pool.
    pub fn new(alloc: Global, accepted: &Accepted) -> Result<Index, AllocError>
        ensures { IfOk result (IsIndexOf (shape_of accepted.now)) }
    {
        let index = Index::of_commands(alloc, accepted)?;
        let listings = accepted.listings(alloc)?;
        Ok(index.with_listings(listings))
    }

    /// The index of the commands of a pool's macros, without listings: no macro runs at an event.
    pub fn of_commands(alloc: Global, accepted: &Accepted) -> Result<Index, AllocError>
        ensures { IfOk result (λ index. (id : ℕ) → map (command_in index) (pieces_in index id) ≡ map Some (commands (shape_of accepted.now) id)) }
    {
        let mut index = Index::without_commands(alloc)?;
        for id in accepted.by_rank() {
            index.put_macro(*id, accepted.macro_bytes(*id))?;
        }
        Ok(index)
    }

    /// Returns the index with its listings replaced, and without quiet macros.
    pub fn with_listings(mut self, listings: Listings) -> Index
        ensures rest { result ≡ record self { listings = listings; quiet = result.quiet } }
        ensures quiet { (id : ℕ) → slice_index_or result.quiet.items id false ≡ false }
    {
        self.listings = listings;
        self.quiet.fill(false);
        self
    }

    /// The macros that run at an event of an object, in the order of its list. Empty if the object is missing or `event`
    /// is not an event's number.
    pub fn macros_at(&self, id: ObjectId, event: u8) -> &[u8]
        ensures macros { result.now ≡ macros_of_event self.now.listings (listing id event) }
        ensures listed { (shape : Shape) → IsIndexOf shape self.now → result.now ≡ listed shape (listing id event) }
    {
        self.listings.at(id, event)
    }

    /// The ranges of the commands of a macro, in order.
    pub fn pieces(&self, id: u8) -> &[Span]
        ensures pieces { result.now ≡ pieces_in self.now id }
        ensures commands { (shape : Shape) → IsIndexOf shape self.now → map (command_in self.now) result.now ≡ map Some (commands shape id) }
    {
        match self.macros.get(usize::from(id)) {
            Some(span) => part(&self.pieces, *span),
            None => &[],
        }
    }

    /// The command at a range of the macros' bytes. `Some` for each range of `pieces`.
    pub fn command(&self, piece: &Span) -> Option<Command<'_>>
        ensures { result ≡ command_in self.now piece.now }
    {
        Command::read(part(&self.bytes, *piece))
    }

    fn without_commands(alloc: Global) -> Result<Index, AllocError>
        ensures pieces { IfOk result (λ index. index.pieces.items ≡ []) }
        ensures within { IfOk result HasSpansInBounds }
    {
        let none = Span { start: 0, end: 0 };
        let macros = Vec::from_elem(alloc, none, 256)?;
        let quiet = Vec::from_elem(alloc, false, 256)?;
        Ok(Index {
            listings: Listings::new(alloc),
            bytes: Vec::new(alloc),
            pieces: Vec::new(alloc),
            macros,
            quiet,
        })
    }

    /// Appends the commands of a macro.
    fn put_macro(&mut self, id: u8, bytes: &[u8]) -> Result<(), AllocError>
        requires whole { IsTrue (is_some (cut bytes.now)) }
        requires within { HasSpansInBounds self.old }
        ensures listings { OnOk result (self.new.listings ≡ self.old.listings) }
        ensures within { OnOk result (HasSpansInBounds self.new) }
        // The commands of the macro read as in its bytes, and those of other macros are unchanged.
        ensures commands { OnOk result ((other : ℕ) → map (command_in self.new) (pieces_in self.new other) ≡ (if other == id then map command_at (cut_or_none bytes.now) else map (command_in self.old) (pieces_in self.old other))) }
    {
        // The remaining bytes are cut into the same commands as in the whole.
        cut_is_one();
        let start = self.pieces.len();
        let mut rest = bytes;
        while let Some((piece, next)) = split_command(rest) {
            self.put_piece(piece)?;
            rest = next;
        }
        let end = self.pieces.len();
        self.macros[usize::from(id)] = Span { start, end };
        Ok(())
    }

    /// Appends a command.
    fn put_piece(&mut self, piece: &[u8]) -> Result<(), AllocError>
        ensures listings { self.new.listings ≡ self.old.listings }
        ensures macros { self.new.macros.items ≡ self.old.macros.items }
        ensures bytes { OnOk result (self.new.bytes.items ≡ self.old.bytes.items ++ piece.now) }
        ensures pieces { OnOk result (self.new.pieces.items ≡ self.old.pieces.items ++ record { start = length self.old.bytes.items; end = length self.old.bytes.items + length piece.now } ∷ []) }
    {
        let start = self.bytes.len();
        self.bytes.extend_from_slice(piece)?;
        let end = self.bytes.len();
        self.pieces.push(Span { start, end })?;
        Ok(())
    }
}

/// The elements of a span, from its start to its end.
fn part<T>(all: &[T], span: Span) -> &[T]
    ensures { result.now ≡ in_span all.now span }
{
    let front = all.get(..span.end).unwrap_or(all);
    front.get(span.start..).unwrap_or(&[])
}
