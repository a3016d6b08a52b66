//! The operator's entries of numbers and texts (docs/PROFILE.md, "The operator").

ghost use Rattle.std.specs.Prelude.{◌≡◌, ◌≤◌, ◌==◌, true, Ok, IfOk, length};
ghost use Rattle.std.specs.Option.{option_map};
ghost use Rattle.std.specs.List.{list_all};
ghost use Rattle.std.specs.FinMap as finite;
ghost use Rattle.vt_kinds.specs.Records.{seen};
ghost use Rattle.vt_machine.specs.OperatorEntries as entering;
ghost use Rattle.vt_machine.specs.OperatorEntries.{text_of, text_at, text_fits};
ghost use Rattle.vt_machine.specs.OperatorActions.{ComesTo, ComesToShown, WouldRefuse};

use crate::live::Live;
use crate::operator::{Acted, OperatorRefusal, message, raised};
use arrayvec::ArrayVec;
use byteorder::{ByteOrder, LittleEndian};
use vt_commands::function;
use vt_effects::byte;
use vt_objects::{Event, Object, ObjectId, Raised, Store};

impl<S: Store> Live<S> {
    /// Enters a number in an Input Boolean (0 or 1), an Input Number (from its least to its greatest value, before offset
    /// and scale) or an Input List (the index of an item). Stores it in the object, or in its variable if it has one.
    /// Raises Entry of Value on the object, and if the stored number changes, Entry of New Value and Value too. Refuses,
    /// in this order, an object that is not shown, one of another kind, a disabled one, and a number that is not
    /// accepted; a refusal changes nothing.
    pub fn enter_number(&mut self, id: ObjectId, number: u32) -> Result<Acted, OperatorRefusal>
        ensures { ComesToShown self.old id (λ shown mask. entering.enter_number shown self.old id number) result self.new }
    {
        if !self.shows(id) {
            return Err(OperatorRefusal::NotShown);
        }
        match number_place(self.store(), id, number) {
            Err(refusal) => Err(refusal),
            Ok(place) => Ok(self.keep_number(id, place, number)),
        }
    }

    /// Stores a number, and raises the events of its entry.
    fn keep_number(&mut self, id: ObjectId, place: ObjectId, number: u32) -> Acted
        ensures { ComesTo self.old (entering.store_number self.old id place number) (Ok result) self.new }
    {
        let is_new = !is_number(self.store(), place, number);
        put_number(&mut self.store, place, number);
        self.are_marked = false;
        let steps = self.raise_all(&entry_events(id, is_new));
        let message = number_message(id, number);
        Acted { message, steps }
    }
}

impl<S: Store> Live<S> {
    /// Enters a text in an Input String. Stores it, filled up with spaces, in the object, or in its variable if it has
    /// one. Raises Entry of Value on the object, and if the stored text changes, Entry of New Value and Value too. The
    /// message has the text as entered. Refuses, in this order, an object that is not shown, one of another kind, a
    /// disabled one, and a text of more bytes than the object's or its variable's; a refusal changes nothing.
    pub fn enter_text(&mut self, id: ObjectId, text: &[u8]) -> Result<Acted, OperatorRefusal>
        ensures { ComesToShown self.old id (λ shown mask. entering.enter_text shown self.old id text.now) result self.new }
    {
        if !self.shows(id) {
            return Err(OperatorRefusal::NotShown);
        }
        match text_place(self.store(), id, text) {
            Err(refusal) => Err(refusal),
            Ok(place) => Ok(self.keep_text(id, place, text)),
        }
    }

    /// The refusal that `enter_text` would return, or `None` if it would accept the text. Changes nothing.
    pub fn text_fault(&mut self, id: ObjectId, text: &[u8]) -> Option<OperatorRefusal>
        ensures fault { WouldRefuse self.old id (λ shown mask. entering.enter_text shown self.old id text.now) result }
        ensures same { self.new ≡ self.old }
    {
        if !self.shows(id) {
            return Some(OperatorRefusal::NotShown);
        }
        match text_place(self.store(), id, text) {
            Err(refusal) => Some(refusal),
            Ok(_place) => None,
        }
    }

    /// Stores a text, and raises the events of its entry.
    fn keep_text(&mut self, id: ObjectId, place: ObjectId, text: &[u8]) -> Acted
        requires fits { text_fits text.now (text_at self.old.objects place) ≡ true }
        requires short { length text.now ≤ 255 }
        ensures { ComesTo self.old (entering.store_text self.old id place text.now) (Ok result) self.new }
    {
        let is_new = !is_text(self.store(), place, text);
        put_text(&mut self.store, place, text);
        self.are_marked = false;
        let steps = self.raise_all(&entry_events(id, is_new));
        let message = text_message(id, text);
        Acted { message, steps }
    }
}

/// The object that stores the text of an input, or the refusal of the text.
fn text_place<S: Store>(store: &S, id: ObjectId, text: &[u8]) -> Result<ObjectId, OperatorRefusal>
    ensures place { result ≡ entering.text_place (S.contents store.now) id text.now (finite.get (S.contents store.now) id) }
    ensures fits { IfOk result (λ place. text_fits text.now (text_at (S.contents store.now) place) ≡ true) }
    ensures short { IfOk result (λ place. length text.now ≤ 255) }
{
    let Some(Object::InputString(input)) = store.get(id) else {
        return Err(OperatorRefusal::WrongKind);
    };
    let place = kept_at(id, input.variable);
    if input.enabled == 0 {
        return Err(OperatorRefusal::Disabled);
    }
    if text.len() > input.text.as_slice().len() {
        return Err(OperatorRefusal::TooLong);
    }
    if !text_fits(store, place, text) {
        return Err(OperatorRefusal::TooLong);
    }
    Ok(place)
}

/// The stored text of an object, or `None` if it has none.
fn text_at<S: Store>(store: &S, id: ObjectId) -> Option<&[u8]>
    ensures { option_map (λ text. text.now) result ≡ text_at (S.contents store.now) id }
{
    match store.get(id) {
        Some(Object::InputString(input)) => Some(input.text.as_slice()),
        Some(Object::StringVariable(variable)) => Some(variable.text.as_slice()),
        _ => None,
    }
}

fn text_fits<S: Store>(store: &S, id: ObjectId, text: &[u8]) -> bool
    ensures { result ≡ text_fits text.now (text_at (S.contents store.now) id) }
{
    match text_at(store, id) {
        Some(kept) => text.len() <= kept.len(),
        None => false,
    }
}

/// Whether an object stores this text.
fn is_text<S: Store>(store: &S, id: ObjectId, text: &[u8]) -> bool
    ensures { result ≡ entering.same_text text.now (text_at (S.contents store.now) id) }
{
    match text_at(store, id) {
        Some(kept) => is_filled(text, kept),
        None => false,
    }
}

/// Whether the stored text is `text` filled up with spaces.
fn is_filled(text: &[u8], kept: &[u8]) -> bool
    ensures { result ≡ entering.is_filled text.now kept.now }
{
    let mut rest = kept;
    for byte in text {
        let Some((first, more)) = rest.split_first() else {
            return false;
        };
        if first != byte {
            return false;
        }
        rest = more;
    }
    is_blank(rest)
}

fn is_blank(bytes: &[u8]) -> bool
    ensures { result ≡ list_all (λ byte. byte == 32) bytes.now }
{
    for byte in bytes {
        if *byte != b' ' {
            return false;
        }
    }
    true
}

/// Stores a text in an object, filled up with spaces.
fn put_text<S: Store>(store: &mut S, id: ObjectId, text: &[u8])
    requires { text_fits text.now (text_at (S.contents store.old) id) ≡ true }
    ensures { S.contents store.new ≡ entering.put_at (S.contents store.old) id (entering.with_text text.now) (finite.get (S.contents store.old) id) }
{
    match store.get_mut(id) {
        Some(object) => set_text(object, text),
        None => {}
    }
}

fn set_text(object: &mut Object<Vec<u8>>, text: &[u8])
    requires { text_fits text.now (text_of (seen object.old)) ≡ true }
    ensures { seen object.new ≡ entering.with_text text.now (seen object.old) }
{
    match object {
        Object::InputString(input) => input.text.overwrite(text),
        Object::StringVariable(variable) => variable.text.overwrite(text),
        _ => {}
    }
}

/// The message of a text that is entered.
pub fn text_message(id: ObjectId, text: &[u8]) -> ArrayVec<u8, 259>
    requires { length text.now ≤ 255 }
    ensures { result.items ≡ entering.text_message id text.now }
{
    let mut head = [function::STRING_VALUE, 0, 0, text.len() as u8];
    LittleEndian::write_u16(&mut head[1..3], id.raw());
    let mut message = message(&head);
    match message.try_extend_from_slice(text) {
        Ok(()) => message,
        Err(_full) => unreachable!(),
    }
}

/// The object that stores the number of an input, or the refusal of the number.
fn number_place<S: Store>(store: &S, id: ObjectId, number: u32) -> Result<ObjectId, OperatorRefusal>
    ensures { result ≡ entering.number_place id number (finite.get (S.contents store.now) id) }
{
    match store.get(id) {
        Some(Object::InputBoolean(input)) => {
            place_if(
                input.enabled != 0,
                number <= 1,
                OperatorRefusal::Range,
                kept_at(id, input.variable),
            )
        }
        Some(Object::InputNumber(input)) => place_if(
            input.options_two % 2 == 1,
            input.min <= number && number <= input.max,
            OperatorRefusal::Range,
            kept_at(id, input.variable),
        ),
        Some(Object::InputList(list)) => place_if(
            list.options % 2 == 1,
            number < u32::from(list.items.len()),
            OperatorRefusal::Range,
            kept_at(id, list.variable),
        ),
        _ => Err(OperatorRefusal::WrongKind),
    }
}

fn place_if(
    is_enabled: bool,
    passes: bool,
    refusal: OperatorRefusal,
    place: ObjectId,
) -> Result<ObjectId, OperatorRefusal>
    ensures { result ≡ entering.place_if is_enabled passes refusal place }
{
    if !is_enabled {
        return Err(OperatorRefusal::Disabled);
    }
    if !passes {
        return Err(refusal);
    }
    Ok(place)
}

/// The object that stores a value: the variable, or the object itself if `variable` is NULL.
fn kept_at(id: ObjectId, variable: ObjectId) -> ObjectId
    ensures { result ≡ entering.kept_at id variable }
{
    if variable.is_null() { id } else { variable }
}

/// Whether an object stores this number.
fn is_number<S: Store>(store: &S, id: ObjectId, number: u32) -> bool
    ensures { result ≡ entering.is_number number (finite.get (S.contents store.now) id) }
{
    match store.get(id) {
        Some(Object::InputBoolean(input)) => u32::from(input.value) == number,
        Some(Object::InputNumber(input)) => input.value == number,
        Some(Object::InputList(list)) => u32::from(list.value) == number,
        Some(Object::NumberVariable(variable)) => variable.value == number,
        _ => false,
    }
}

/// Stores a number in an object.
fn put_number<S: Store>(store: &mut S, id: ObjectId, number: u32)
    ensures { S.contents store.new ≡ entering.put_at (S.contents store.old) id (entering.with_number number) (finite.get (S.contents store.old) id) }
{
    match store.get_mut(id) {
        Some(object) => set_number(object, number),
        None => {}
    }
}

fn set_number(object: &mut Object<Vec<u8>>, number: u32)
    ensures { seen object.new ≡ entering.with_number number (seen object.old) }
{
    match object {
        Object::InputBoolean(input) => input.value = byte(number),
        Object::InputNumber(input) => input.value = number,
        Object::InputList(list) => list.value = byte(number),
        Object::NumberVariable(variable) => variable.value = number,
        _ => {}
    }
}

fn number_message(id: ObjectId, number: u32) -> ArrayVec<u8, 259>
    ensures { result.items ≡ entering.number_message id number }
{
    let mut bytes = [function::NUMERIC_VALUE, 0, 0, 0xFF, 0, 0, 0, 0];
    LittleEndian::write_u16(&mut bytes[1..3], id.raw());
    LittleEndian::write_u32(&mut bytes[4..8], number);
    message(&bytes)
}

/// The events of an entry, with those of a new value if the stored value has changed.
fn entry_events(id: ObjectId, is_new: bool) -> ArrayVec<Raised, 3>
    ensures { result.items ≡ entering.entry_events id is_new }
{
    let mut events = ArrayVec::new();
    events.push(raised(id, Event::EntryOfValue));
    if is_new {
        events.push(raised(id, Event::EntryOfNewValue));
        events.push(raised(id, Event::Value));
    }
    events
}
