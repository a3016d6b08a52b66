//! What a display reads of a terminal: its working sets, their objects and their pictures. A call that writes a text makes it the text
//! of the session, and returns the number of its bytes, or 2^64 - 1 if memory was refused.

ghost use Rattle.std.specs.Prelude.{◌≡◌, ◌++◌, ◌∷◌, [], None, Some, nat_lt, if◌then◌else◌, is_some, unwrap_or, IfOk, OnOk, OnErr};
ghost use Rattle.std.specs.List.{flat_map};
ghost use Rattle.std.specs.Option.{option_map};
ghost use Rattle.byteorder.specs.Endian.{little_bytes};
ghost use Rattle.vt_kinds.specs.Ids.{null_id};
ghost use Rattle.vt_server.specs.States.{state_of};
ghost use Rattle.vt_server.specs.Terminals.{pool_at};
ghost use Rattle.vt_session.specs.Readings.{IsPartIn, IsPictureIn, Lists, ListsElements, Parts, Pictures, TellsActive, TellsPool, TellsSize, TellsTouched, WritesObject, active_of, element_bytes, elements_shown, four_ids, head_bytes, mask_in, numbers_of, pool_by, record_in, set_bytes, size_in, sizes_of, touched_of};

use crate::session::Session;
use check_needs::{Area, Sizes};
use draw_picture::{ListedElement, draw, draw_part, list_elements, picture_size, touched};
use std::alloc::{AllocError, Global};
use vt_machine::Live;
use vt_names::Set;
use vt_node::Profile;
use vt_objects::{ObjectId, SortedStore};
use vt_server::Terminal;
use vt_writing::write_object;

/// Lists the working sets in the order of registration, 16 bytes each: the address; 1 or 0 for whether it has a pool, is shown and
/// has a NAME; four bytes of 0; and the NAME from its lowest byte on, or 0 (ISO 11783-5).
pub fn sets(session: &mut Session) -> u64
    ensures { Lists session.old session.new result }
{
    session.text.clear();
    match write_sets(&session.terminal, &mut session.text) {
        Ok(()) => session.text.len() as u64,
        Err(_) => {
            session.text.clear();
            u64::MAX
        }
    }
}

fn write_sets(terminal: &Terminal, text: &mut Vec<u8>) -> Result<(), AllocError>
    ensures { OnOk result (text.new.items ≡ text.old.items ++ flat_map (set_bytes (state_of terminal.now)) (state_of terminal.now).sets) }
{
    for index in 0..terminal.count_of_sets() {
        if let Some(set) = terminal.set_by_index(index) {
            text.extend_from_slice(&set_bytes(terminal, set))?;
        }
    }
    Ok(())
}

fn set_bytes(terminal: &Terminal, set: &Set) -> [u8; 16]
    ensures { result ≡ set_bytes (state_of terminal.now) set.now }
{
    let address = set.address();
    let name = set.name().map_or(0, |name| name.raw()).to_le_bytes();
    [
        address,
        u8::from(terminal.set(address).is_some()),
        u8::from(terminal.shown() == Some(address)),
        u8::from(set.name().is_some()),
        0,
        0,
        0,
        0,
        name[0],
        name[1],
        name[2],
        name[3],
        name[4],
        name[5],
        name[6],
        name[7],
    ]
}

/// The active mask of the set at an address, its soft key mask, its selected input and its held key, 16 bits each, the first lowest. Each
/// is 65535 if there is none. Without a set that has a pool, all four are 65535.
pub fn active(session: &mut Session, address: u32) -> u64
    ensures { TellsActive session.old address session.new result }
{
    match pool_at(&session.terminal, address) {
        Some(live) => ids_of(live),
        None => u64::MAX,
    }
}

/// Whether there is a set with a pool at an address: 1 or 0.
pub fn has_pool(session: &mut Session, address: u32) -> u64
    ensures { TellsPool session.old address session.new result }
{
    match pool_at(&session.terminal, address) {
        Some(_) => 1,
        None => 0,
    }
}

fn ids_of(live: &Live<SortedStore>) -> u64
    ensures { result ≡ active_of (Some live.now) }
{
    four_ids(
        live.active_mask(),
        live.soft_key_mask(),
        live.selected_input().unwrap_or(ObjectId::NULL),
        live.held_key().unwrap_or(ObjectId::NULL),
    )
}

/// Four IDs in one number, the first lowest.
fn four_ids(a: ObjectId, b: ObjectId, c: ObjectId, d: ObjectId) -> u64
    ensures { result ≡ four_ids a b c d }
{
    let high = u64::from(d.raw()) * 65_536 + u64::from(c.raw());
    (high * 65_536 + u64::from(b.raw())) * 65_536 + u64::from(a.raw())
}

/// Writes the record of an object of the set at an address as it is now, in the layout of object pools (ISO 11783-6). Without such an
/// object the text is empty.
pub fn object(session: &mut Session, address: u32, id: u32) -> u64
    ensures { WritesObject session.old address id session.new result }
{
    session.text.clear();
    match write_record(&session.terminal, address, id, &mut session.text) {
        Ok(()) => session.text.len() as u64,
        Err(_) => u64::MAX,
    }
}

/// Appends the record of an object of the set at an address as it is now. Nothing is appended without such an object.
pub fn write_record(
    terminal: &Terminal,
    address: u32,
    id: u32,
    text: &mut Vec<u8>,
) -> Result<(), AllocError>
    ensures ok { OnOk result (text.new.items ≡ text.old.items ++ record_in (pool_by (state_of terminal.now) address) id) }
    ensures err { OnErr result (text.new.items ≡ text.old.items) }
{
    let Some(live) = pool_at(terminal, address) else {
        return Ok(());
    };
    let Some(id) = object_id(id) else {
        return Ok(());
    };
    match live.get(id) {
        Some(object) => write_object(*text.allocator(), id, object, text),
        None => Ok(()),
    }
}

/// Draws a mask of the set at an address with its soft keys as SVG, or the active mask if `mask` is 65535 or more. Without a set that has a
/// pool the text is empty.
pub fn picture(session: &mut Session, address: u32, mask: u32) -> u64
    ensures { Pictures session.old address mask session.new result }
{
    session.text.clear();
    let alloc = *session.text.allocator();
    match picture_at(alloc, &session.terminal, address, mask) {
        Ok(text) => {
            session.text = text;
            session.text.len() as u64
        }
        Err(_) => u64::MAX,
    }
}

/// Draws a mask as `picture` does. Without a set that has a pool nothing is drawn.
pub fn picture_at(
    alloc: Global,
    terminal: &Terminal,
    address: u32,
    mask: u32,
) -> Result<Vec<u8>, AllocError>
    ensures { IfOk result (λ text. IsPictureIn (pool_by (state_of terminal.now) address) (state_of terminal.now).profile mask text.items) }
{
    let Some(live) = pool_at(terminal, address) else {
        return Ok(Vec::new(alloc));
    };
    draw(
        alloc,
        live.store(),
        sizes_of(terminal.profile()),
        mask_in(live, mask),
    )
}

/// Draws an object of the set at an address by itself as SVG. Without such an object the text is empty.
pub fn part(session: &mut Session, address: u32, id: u32) -> u64
    ensures { Parts session.old address id session.new result }
{
    session.text.clear();
    let alloc = *session.text.allocator();
    match part_at(alloc, &session.terminal, address, id) {
        Ok(text) => {
            session.text = text;
            session.text.len() as u64
        }
        Err(_) => u64::MAX,
    }
}

/// Draws an object as `part` does.
pub fn part_at(
    alloc: Global,
    terminal: &Terminal,
    address: u32,
    id: u32,
) -> Result<Vec<u8>, AllocError>
    ensures { IfOk result (λ text. IsPartIn (pool_by (state_of terminal.now) address) (state_of terminal.now).profile id text.items) }
{
    let Some(live) = pool_at(terminal, address) else {
        return Ok(Vec::new(alloc));
    };
    let Some(id) = object_id(id) else {
        return Ok(Vec::new(alloc));
    };
    draw_part(alloc, live.store(), sizes_of(terminal.profile()), id)
}

/// The size of the picture of a mask, chosen as for `picture`: its width, and its height times 2^32. It is 0 without a set that has a pool.
pub fn size(session: &mut Session, address: u32, mask: u32) -> u64
    ensures { TellsSize session.old address mask session.new result }
{
    match pool_at(&session.terminal, address) {
        Some(live) => size_of(live, session.terminal.profile(), mask),
        None => 0,
    }
}

fn size_of(live: &Live<SortedStore>, profile: &Profile, mask: u32) -> u64
    ensures { result ≡ size_in profile.now (Some live.now) mask }
{
    let (width, height) = picture_size(live.store(), sizes_of(profile), mask_in(live, mask));
    u64::from(height) * 0x1_0000_0000 + u64::from(width)
}

/// The area of a mask and that of a key.
fn sizes_of(profile: &Profile) -> Sizes
    ensures { result ≡ sizes_of profile.now }
{
    Sizes {
        mask: Area {
            width: profile.width,
            height: profile.height,
        },
        key: Area {
            width: u16::from(profile.soft_key_width),
            height: u16::from(profile.soft_key_height),
        },
        keys: profile.virtual_soft_keys,
    }
}

fn mask_in(live: &Live<SortedStore>, mask: u32) -> ObjectId
    ensures { result ≡ mask_in live.now.objects mask }
{
    match object_id(mask) {
        Some(id) => id,
        None => live.active_mask(),
    }
}

/// Lists the elements of the active mask of the shown set and of its soft keys, in the order in which they are drawn, 40 bytes each. The
/// first eight bytes are: the ID, 2 bytes; the kind and the number of elements around it, a byte each; the index of the element around it,
/// 2 bytes, or 65535; and two bytes of 0. Then follow in 4 bytes each: the left and the upper edge, the width and the height, and the left,
/// top, right and bottom bounds of its visible part. Each number has its lowest byte first. Positions and sizes are in pixels, positions
/// from the upper left corner of the mask.
pub fn shown_elements(session: &mut Session) -> u64
    ensures { ListsElements session.old session.new result }
{
    session.text.clear();
    match write_elements(&session.terminal, &mut session.text) {
        Ok(()) => session.text.len() as u64,
        Err(_) => {
            session.text.clear();
            u64::MAX
        }
    }
}

fn write_elements(terminal: &Terminal, text: &mut Vec<u8>) -> Result<(), AllocError>
    ensures { OnOk result (text.new.items ≡ text.old.items ++ flat_map element_bytes (elements_shown (state_of terminal.now))) }
{
    let list = elements_of(*text.allocator(), terminal)?;
    for element in list.as_slice() {
        write_element(text, element)?;
    }
    Ok(())
}

fn write_element(text: &mut Vec<u8>, element: &ListedElement) -> Result<(), AllocError>
    ensures { OnOk result (text.new.items ≡ text.old.items ++ element_bytes element.now) }
{
    text.extend_from_slice(&head_bytes(element))?;
    write_numbers(text, &numbers_of(element))?;
    Ok(())
}

/// What an element is: its ID, its kind, how many elements are around it, and the index of the one around it.
fn head_bytes(element: &ListedElement) -> [u8; 8]
    ensures { result ≡ head_bytes element.now }
{
    let id = element.id.raw().to_le_bytes();
    let around = element.around.unwrap_or(u16::MAX).to_le_bytes();
    [
        id[0],
        id[1],
        element.kind,
        element.depth,
        around[0],
        around[1],
        0,
        0,
    ]
}

/// Where an element is: its place, its size and its bounds.
fn numbers_of(element: &ListedElement) -> [u32; 8]
    ensures { result ≡ numbers_of element.now }
{
    [
        element.at.x.cast_unsigned(),
        element.at.y.cast_unsigned(),
        element.width,
        element.height,
        element.bounds.left.cast_unsigned(),
        element.bounds.top.cast_unsigned(),
        element.bounds.right.cast_unsigned(),
        element.bounds.bottom.cast_unsigned(),
    ]
}

/// Appends numbers of four bytes.
pub(crate) fn write_numbers(text: &mut Vec<u8>, numbers: &[u32]) -> Result<(), AllocError>
    ensures { OnOk result (text.new.items ≡ text.old.items ++ flat_map (little_bytes 4) numbers.now) }
{
    for number in numbers {
        text.extend_from_slice(&number.to_le_bytes())?;
    }
    Ok(())
}

/// The elements of the active mask of the shown set. None without a shown set.
pub fn elements_of(alloc: Global, terminal: &Terminal) -> Result<Vec<ListedElement>, AllocError>
    ensures { IfOk result (λ list. list.items ≡ elements_shown (state_of terminal.now)) }
{
    let Some(live) = shown_pool(terminal) else {
        return Ok(Vec::new(alloc));
    };
    let sizes = sizes_of(terminal.profile());
    list_elements(alloc, live.store(), sizes, live.active_mask())
}

/// The ID of the key, button or input that is shown at a place in pixels from the upper left corner of the mask; 65535 if there is none, and
/// 2^64 - 1 if memory was refused.
pub fn touch(session: &mut Session, x: u32, y: u32) -> u64
    ensures { TellsTouched session.old x y session.new result }
{
    let alloc = *session.text.allocator();
    match elements_of(alloc, &session.terminal) {
        Ok(list) => u64::from(touched_in(&list, x, y).raw()),
        Err(_) => u64::MAX,
    }
}

/// The ID of the key, button or input of some elements that is shown at a place, or NULL.
pub fn touched_in(elements: &[ListedElement], x: u32, y: u32) -> ObjectId
    ensures { result ≡ touched_of elements.now x y }
{
    let (Ok(x), Ok(y)) = (i32::try_from(x), i32::try_from(y)) else {
        return ObjectId::NULL;
    };
    touched(elements, x, y).unwrap_or(ObjectId::NULL)
}

/// The pool of the shown set, if one is shown.
fn shown_pool(terminal: &Terminal) -> Option<&Live<SortedStore>>
    ensures { option_map (λ live. live.now) result ≡ pool_at (state_of terminal.now) (state_of terminal.now).shown }
{
    let address = terminal.shown()?;
    terminal.set(address)
}

/// The pool of the set at an address, if it has one.
pub(crate) fn pool_at(terminal: &Terminal, address: u32) -> Option<&Live<SortedStore>>
    ensures { option_map (λ live. live.now) result ≡ pool_by (state_of terminal.now) address }
{
    let address = u8::try_from(address).ok()?;
    terminal.set(address)
}

/// The ID of an object with this number, if it is one.
pub(crate) fn object_id(number: u32) -> Option<ObjectId>
    ensures { result ≡ (if nat_lt number null_id then Some number else None) }
{
    let id = ObjectId::from_raw(u16::try_from(number).ok()?);
    if id.is_null() { None } else { Some(id) }
}
