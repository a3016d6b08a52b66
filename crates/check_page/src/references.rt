//! The references of an object, each with its place in words.

use check_inspect::Spot;
use check_text::{CommandText, SpotText, event_name};
use serde_json::Value;
use std::alloc::{AllocError, Global};
use std::fmt::Display;
use vt_objects::{
    MacroEntry, Object, ObjectId, SortedStore, Target, slots, split_command, targets,
};
use vt_verify::{kind_for, macro_command, named_macro};

/// The references of an object as a list, each as a list of an ID and a place: those of its fields, lists and macro entries, and of a macro
/// those of its commands. References to no object are left out.
pub(crate) fn references_value(
    alloc: Global,
    objects: &SortedStore,
    id: ObjectId,
    object: &Object<Vec<u8>>,
) -> Result<Value, AllocError> {
    let mut list = ReferenceList {
        alloc,
        values: Vec::new(alloc),
    };
    for slot in slots(object) {
        let spot = Spot::Slot(slot.place);
        list.put(slot.id, &SpotText { spot })?;
    }
    list.put_entries(object.macros())?;
    if let Some(bytes) = named_macro(id, object) {
        list.put_commands(objects, bytes)?;
    }
    Ok(list.into_value())
}

/// The references of an object so far.
#[derive(Drop)]
struct ReferenceList {
    alloc: Global,
    values: Vec<Value>,
}

impl ReferenceList {
    /// The references as a list.
    fn into_value(self) -> Value {
        Value::Array(self.values)
    }

    /// Appends a reference, unless it is to no object.
    fn put<P: Display>(&mut self, id: ObjectId, place: &P) -> Result<(), AllocError> {
        if id == ObjectId::NULL {
            return Ok(());
        }
        let mut pair = Vec::new(self.alloc);
        pair.push(Value::from(u64::from(id.raw())))?;
        pair.push(Value::String(format!(in self.alloc; "{place}")?))?;
        self.values.push(Value::Array(pair))?;
        Ok(())
    }

    /// Appends the macros of an object's entries.
    fn put_entries(&mut self, entries: &[MacroEntry]) -> Result<(), AllocError> {
        for (index, entry) in entries.iter().enumerate() {
            let place = format!(in self.alloc;
                "macro entry {index} ({})",
                event_name(entry.event)
            )?;
            self.put(ObjectId::from_raw(u16::from(entry.macro_id)), &place)?;
        }
        Ok(())
    }

    /// Appends what the commands of a macro name, up to bytes that end inside a command.
    fn put_commands(&mut self, objects: &SortedStore, bytes: &[u8]) -> Result<(), AllocError> {
        let mut rest = bytes;
        for _ in 0..bytes.len() {
            let Some((piece, next)) = split_command(rest) else {
                break;
            };
            self.put_command(objects, bytes.len().saturating_sub(rest.len()), piece)?;
            rest = next;
        }
        Ok(())
    }

    /// Appends what a command names, which begins at an offset of the macro's bytes.
    fn put_command(
        &mut self,
        objects: &SortedStore,
        at: usize,
        piece: &[u8],
    ) -> Result<(), AllocError> {
        let Some(command) = macro_command(piece) else {
            return Ok(());
        };
        let function = match piece.first() {
            Some(function) => *function,
            None => 0,
        };
        let (first, second) = targets(&command, kind_for(objects, &command));
        self.put_target(first, at, function)?;
        self.put_target(second, at, function)
    }

    /// Appends a target of a command, if there is one.
    fn put_target(
        &mut self,
        target: Option<Target>,
        at: usize,
        function: u8,
    ) -> Result<(), AllocError> {
        match target {
            Some(target) => self.put(target.id, &CommandText { at, function }),
            None => Ok(()),
        }
    }
}
