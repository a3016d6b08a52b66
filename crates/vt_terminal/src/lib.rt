//! The static library of the terminal for C. A terminal is in the caller's memory and is reached by a pointer.
//!
//! Each function but `vt_version`, `vt_size`, `vt_init` and `vt_done` lends the session behind the pointer to one safe function.
//! docs/EMBEDDING.md explains the calls, and include/vt_terminal.h declares them for C.
//!
//! What each call does is in vt_session. Come here to ask which functions C sees.
#![tactic(auto)]

ghost use Rattle.std.specs.Prelude.{◌≡◌};
ghost use Rattle.std.specs.Borrow.{full_share, sem};
ghost use Rattle.std.specs.Mem.{type_size};
ghost use Rattle.std.specs.Ptr.{lies_at, room_at};
ghost use Rattle.vt_session.specs.contracts.session.Session.{the_row};
ghost use Rattle.vt_session.specs.Calls.{Acts, Claims, Draws, Hears, Nexts, TellsCount, TellsData, TellsDeadline, TellsId, TellsLooks, TellsLost, TellsRedraws, TellsShown, SendsStatus, TellsWord, Texts, Ticks};
ghost use Rattle.vt_session.specs.Dialogs.{TellsRaw, WritesLimits, WritesValue};
ghost use Rattle.vt_session.specs.Preloads.{Preloads};
ghost use Rattle.vt_session.specs.Readings.{Lists, ListsElements, Parts, Pictures, TellsActive, TellsPool, TellsSize, TellsTouched, WritesObject};
ghost use Rattle.vt_session.specs.Sessions.{Begins, profile_of};
ghost use Rattle.vt_session.specs.Words.{WritesWords};

use std::alloc::Global;
use vt_session::session::Session;
use vt_session::{dialog, outputs, preload, reading, screen, session, words};

/// A terminal behind a pointer.
#[repr(C)]
pub struct VtTerminal {
    opaque: u8,
}

/// The version of the interface: 65536 times the first number, 256 times the second, and the third.
const VERSION: u32 = 0x0000_0200;

/// The version of the interface, which include/vt_terminal.h names VT_VERSION.
#[unsafe(no_mangle)]
pub extern "C" fn vt_version() -> u32
    ensures { result ≡ VERSION }
{
    VERSION
}

/// The number of bytes of a terminal. Its memory must begin at a multiple of 16.
#[unsafe(no_mangle)]
pub extern "C" fn vt_size() -> usize
    ensures { result ≡ type_size the_row }
{
    std::mem::size_of::<Session>()
}

/// Makes a terminal in the caller's memory, with an address, a NAME and a profile. If its own address is above 253, it takes no input.
/// `keys` has the width, the height, and the numbers of virtual and physical soft keys, the first lowest, a byte each; `fonts` the small
/// and the large fonts and the styles; `hardware` the boot time, the graphic type and the hardware; and `size` the width and the height of
/// a mask, 16 bits each. The highest byte of `fonts` and of `hardware` is ignored.
#[unsafe(no_mangle)]
pub unsafe extern "C" fn vt_init(
    alloc: Global,
    at: *mut VtTerminal,
    own: u32,
    name: u64,
    memory: u32,
    keys: u32,
    fonts: u32,
    hardware: u32,
    size: u32,
)
    requires* { sem 𝓛 (room_at the_row at) }
    ensures* { ∃ₛ (λ (after : Session). sem 𝓛 (lies_at the_row full_share at after) ∗ ⌜ Begins own name (profile_of memory keys fonts hardware size) after ⌝) }
{
    unsafe {
        (at as *mut Session).write(session::begin(
            alloc, own, name, memory, keys, fonts, hardware, size,
        ))
    }
}

/// Ends a terminal. Its memory is then free for the caller again.
#[unsafe(no_mangle)]
pub unsafe extern "C" fn vt_done(at: *mut VtTerminal)
    ghost before: { Session }
    requires* { sem 𝓛 (lies_at the_row full_share at before) }
    ensures* { sem 𝓛 (room_at the_row at) }
{
    session::discard(unsafe { (at as *mut Session).read() })
}

/// Receives a frame of the bus at a time in microseconds, and returns a status. `bits` has the data bytes, the first lowest.
#[unsafe(no_mangle)]
pub unsafe extern "C" fn vt_hear_bits(
    at: *mut VtTerminal,
    time: u64,
    id: u32,
    count: u32,
    bits: u64,
) -> u32
    ghost before: { Session }
    requires* { sem 𝓛 (lies_at the_row full_share at before) }
    ensures* { ∃ₛ (λ (after : Session). sem 𝓛 (lies_at the_row full_share at after) ∗ ⌜ Hears before time id count bits after result ⌝) }
{
    session::hear(unsafe { &mut *(at as *mut Session) }, time, id, count, bits)
}

/// Advances the time to `time`, in microseconds, without a frame, and returns a status.
#[unsafe(no_mangle)]
pub unsafe extern "C" fn vt_tick(at: *mut VtTerminal, time: u64) -> u32
    ghost before: { Session }
    requires* { sem 𝓛 (lies_at the_row full_share at before) }
    ensures* { ∃ₛ (λ (after : Session). sem 𝓛 (lies_at the_row full_share at after) ∗ ⌜ Ticks before time after result ⌝) }
{
    session::tick(unsafe { &mut *(at as *mut Session) }, time)
}

/// Does an action of the operator at a time in microseconds: 0 press, 1 release, 2 select, 3 number, 4 the set at an address. Returns a
/// status.
#[unsafe(no_mangle)]
pub unsafe extern "C" fn vt_act(
    at: *mut VtTerminal,
    time: u64,
    kind: u32,
    id: u32,
    number: u32,
) -> u32
    ghost before: { Session }
    requires* { sem 𝓛 (lies_at the_row full_share at before) }
    ensures* { ∃ₛ (λ (after : Session). sem 𝓛 (lies_at the_row full_share at after) ∗ ⌜ Acts before time kind id number after result ⌝) }
{
    session::act(
        unsafe { &mut *(at as *mut Session) },
        time,
        kind,
        id,
        number,
    )
}

/// Makes the address claim the one output that waits, as a host sends it at its start. Returns a status.
#[unsafe(no_mangle)]
pub unsafe extern "C" fn vt_claim(at: *mut VtTerminal) -> u32
    ghost before: { Session }
    requires* { sem 𝓛 (lies_at the_row full_share at before) }
    ensures* { ∃ₛ (λ (after : Session). sem 𝓛 (lies_at the_row full_share at after) ∗ ⌜ Claims before after result ⌝) }
{
    outputs::claim(unsafe { &mut *(at as *mut Session) })
}

/// Makes the status message the one output that waits, as a host sends it each second. Returns a status.
#[unsafe(no_mangle)]
pub unsafe extern "C" fn vt_status(at: *mut VtTerminal) -> u32
    ghost before: { Session }
    requires* { sem 𝓛 (lies_at the_row full_share at before) }
    ensures* { ∃ₛ (λ (after : Session). sem 𝓛 (lies_at the_row full_share at after) ∗ ⌜ SendsStatus before after result ⌝) }
{
    outputs::status(unsafe { &mut *(at as *mut Session) })
}

/// Takes the next output: 0 if none waits, 1 for a frame, 2 for a refusal to the operator, 3 for an event.
#[unsafe(no_mangle)]
pub unsafe extern "C" fn vt_next(at: *mut VtTerminal) -> u32
    ghost before: { Session }
    requires* { sem 𝓛 (lies_at the_row full_share at before) }
    ensures* { ∃ₛ (λ (after : Session). sem 𝓛 (lies_at the_row full_share at after) ∗ ⌜ Nexts before after result ⌝) }
{
    outputs::next(unsafe { &mut *(at as *mut Session) })
}

/// The identifier of the frame taken last, the number of the refusal, or the kind of the event.
#[unsafe(no_mangle)]
pub unsafe extern "C" fn vt_output_id(at: *mut VtTerminal) -> u32
    ghost before: { Session }
    requires* { sem 𝓛 (lies_at the_row full_share at before) }
    ensures* { ∃ₛ (λ (after : Session). sem 𝓛 (lies_at the_row full_share at after) ∗ ⌜ TellsId before after result ⌝) }
{
    outputs::output_id(unsafe { &mut *(at as *mut Session) })
}

/// The number of data bytes of the frame taken last, or the address of the event.
#[unsafe(no_mangle)]
pub unsafe extern "C" fn vt_output_count(at: *mut VtTerminal) -> u32
    ghost before: { Session }
    requires* { sem 𝓛 (lies_at the_row full_share at before) }
    ensures* { ∃ₛ (λ (after : Session). sem 𝓛 (lies_at the_row full_share at after) ∗ ⌜ TellsCount before after result ⌝) }
{
    outputs::output_count(unsafe { &mut *(at as *mut Session) })
}

/// The data bytes of the frame taken last, the first lowest, or the two numbers of the event, 32 bits each.
#[unsafe(no_mangle)]
pub unsafe extern "C" fn vt_output_data(at: *mut VtTerminal) -> u64
    ghost before: { Session }
    requires* { sem 𝓛 (lies_at the_row full_share at before) }
    ensures* { ∃ₛ (λ (after : Session). sem 𝓛 (lies_at the_row full_share at after) ∗ ⌜ TellsData before after result ⌝) }
{
    outputs::output_data(unsafe { &mut *(at as *mut Session) })
}

/// 1 if the screen may differ from the one before the last input, or else 0.
#[unsafe(no_mangle)]
pub unsafe extern "C" fn vt_redraws(at: *mut VtTerminal) -> u32
    ghost before: { Session }
    requires* { sem 𝓛 (lies_at the_row full_share at before) }
    ensures* { ∃ₛ (λ (after : Session). sem 𝓛 (lies_at the_row full_share at after) ∗ ⌜ TellsRedraws before after result ⌝) }
{
    screen::redraws(unsafe { &mut *(at as *mut Session) })
}

/// Draws the screen and returns the number of bytes of its text, or 2^64 - 1 if memory was refused.
#[unsafe(no_mangle)]
pub unsafe extern "C" fn vt_text_of_screen(at: *mut VtTerminal) -> u64
    ghost before: { Session }
    requires* { sem 𝓛 (lies_at the_row full_share at before) }
    ensures* { ∃ₛ (λ (after : Session). sem 𝓛 (lies_at the_row full_share at after) ∗ ⌜ Draws before after result ⌝) }
{
    screen::screen(unsafe { &mut *(at as *mut Session) })
}

/// Eight bytes of the text written last, from an index on, the first lowest.
#[unsafe(no_mangle)]
pub unsafe extern "C" fn vt_screen_word(at: *mut VtTerminal, index: u64) -> u64
    ghost before: { Session }
    requires* { sem 𝓛 (lies_at the_row full_share at before) }
    ensures* { ∃ₛ (λ (after : Session). sem 𝓛 (lies_at the_row full_share at after) ∗ ⌜ TellsWord before index after result ⌝) }
{
    screen::screen_word(unsafe { &mut *(at as *mut Session) }, index)
}

/// A number that changes with each call that may have changed the picture of the shown set.
#[unsafe(no_mangle)]
pub unsafe extern "C" fn vt_look(at: *mut VtTerminal) -> u64
    ghost before: { Session }
    requires* { sem 𝓛 (lies_at the_row full_share at before) }
    ensures* { ∃ₛ (λ (after : Session). sem 𝓛 (lies_at the_row full_share at after) ∗ ⌜ TellsLooks before after result ⌝) }
{
    screen::looks(unsafe { &mut *(at as *mut Session) })
}

/// The address of the shown set, or 254 if none is shown.
#[unsafe(no_mangle)]
pub unsafe extern "C" fn vt_shown(at: *mut VtTerminal) -> u32
    ghost before: { Session }
    requires* { sem 𝓛 (lies_at the_row full_share at before) }
    ensures* { ∃ₛ (λ (after : Session). sem 𝓛 (lies_at the_row full_share at after) ∗ ⌜ TellsShown before after result ⌝) }
{
    screen::shown(unsafe { &mut *(at as *mut Session) })
}

/// 1 if the terminal lost its address, or else 0.
#[unsafe(no_mangle)]
pub unsafe extern "C" fn vt_lost(at: *mut VtTerminal) -> u32
    ghost before: { Session }
    requires* { sem 𝓛 (lies_at the_row full_share at before) }
    ensures* { ∃ₛ (λ (after : Session). sem 𝓛 (lies_at the_row full_share at after) ∗ ⌜ TellsLost before after result ⌝) }
{
    screen::lost(unsafe { &mut *(at as *mut Session) })
}

/// The first time at which a tick is due, in microseconds, or 2^64 - 1 if there is none.
#[unsafe(no_mangle)]
pub unsafe extern "C" fn vt_deadline(at: *mut VtTerminal) -> u64
    ghost before: { Session }
    requires* { sem 𝓛 (lies_at the_row full_share at before) }
    ensures* { ∃ₛ (λ (after : Session). sem 𝓛 (lies_at the_row full_share at after) ∗ ⌜ TellsDeadline before after result ⌝) }
{
    screen::deadline(unsafe { &mut *(at as *mut Session) })
}

/// Lists the working sets in the terminal's text, 16 bytes each, and returns the number of its bytes, or 2^64 - 1 if memory was refused.
#[unsafe(no_mangle)]
pub unsafe extern "C" fn vt_text_of_sets(at: *mut VtTerminal) -> u64
    ghost before: { Session }
    requires* { sem 𝓛 (lies_at the_row full_share at before) }
    ensures* { ∃ₛ (λ (after : Session). sem 𝓛 (lies_at the_row full_share at after) ∗ ⌜ Lists before after result ⌝) }
{
    reading::sets(unsafe { &mut *(at as *mut Session) })
}

/// The active mask of the set at an address, its soft key mask, its selected input and its held key, 16 bits each, the first lowest. Each
/// is 65535 if there is none.
#[unsafe(no_mangle)]
pub unsafe extern "C" fn vt_ids_of_active(at: *mut VtTerminal, address: u32) -> u64
    ghost before: { Session }
    requires* { sem 𝓛 (lies_at the_row full_share at before) }
    ensures* { ∃ₛ (λ (after : Session). sem 𝓛 (lies_at the_row full_share at after) ∗ ⌜ TellsActive before address after result ⌝) }
{
    reading::active(unsafe { &mut *(at as *mut Session) }, address)
}

/// Whether there is a set with a pool at an address: 1 or 0.
#[unsafe(no_mangle)]
pub unsafe extern "C" fn vt_has_pool(at: *mut VtTerminal, address: u32) -> u64
    ghost before: { Session }
    requires* { sem 𝓛 (lies_at the_row full_share at before) }
    ensures* { ∃ₛ (λ (after : Session). sem 𝓛 (lies_at the_row full_share at after) ∗ ⌜ TellsPool before address after result ⌝) }
{
    reading::has_pool(unsafe { &mut *(at as *mut Session) }, address)
}

/// Writes the record of an object of the set at an address as the terminal's text, and returns the number of its bytes, or 2^64 - 1 if
/// memory was refused.
#[unsafe(no_mangle)]
pub unsafe extern "C" fn vt_text_of_object(at: *mut VtTerminal, address: u32, id: u32) -> u64
    ghost before: { Session }
    requires* { sem 𝓛 (lies_at the_row full_share at before) }
    ensures* { ∃ₛ (λ (after : Session). sem 𝓛 (lies_at the_row full_share at after) ∗ ⌜ WritesObject before address id after result ⌝) }
{
    reading::object(unsafe { &mut *(at as *mut Session) }, address, id)
}

/// Draws a mask of the set at an address as SVG in the terminal's text, and returns the number of its bytes, or 2^64 - 1 if memory was
/// refused.
#[unsafe(no_mangle)]
pub unsafe extern "C" fn vt_text_of_picture(at: *mut VtTerminal, address: u32, mask: u32) -> u64
    ghost before: { Session }
    requires* { sem 𝓛 (lies_at the_row full_share at before) }
    ensures* { ∃ₛ (λ (after : Session). sem 𝓛 (lies_at the_row full_share at after) ∗ ⌜ Pictures before address mask after result ⌝) }
{
    reading::picture(unsafe { &mut *(at as *mut Session) }, address, mask)
}

/// Draws an object of the set at an address by itself as SVG in the terminal's text, and returns the number of its bytes, or 2^64 - 1 if
/// memory was refused.
#[unsafe(no_mangle)]
pub unsafe extern "C" fn vt_text_of_part(at: *mut VtTerminal, address: u32, id: u32) -> u64
    ghost before: { Session }
    requires* { sem 𝓛 (lies_at the_row full_share at before) }
    ensures* { ∃ₛ (λ (after : Session). sem 𝓛 (lies_at the_row full_share at after) ∗ ⌜ Parts before address id after result ⌝) }
{
    reading::part(unsafe { &mut *(at as *mut Session) }, address, id)
}

/// The size of the picture that `vt_text_of_picture` draws: its width in pixels, and its height times 2^32. 0 without a set that has a
/// pool.
#[unsafe(no_mangle)]
pub unsafe extern "C" fn vt_size_of_picture(at: *mut VtTerminal, address: u32, mask: u32) -> u64
    ghost before: { Session }
    requires* { sem 𝓛 (lies_at the_row full_share at before) }
    ensures* { ∃ₛ (λ (after : Session). sem 𝓛 (lies_at the_row full_share at after) ∗ ⌜ TellsSize before address mask after result ⌝) }
{
    reading::size(unsafe { &mut *(at as *mut Session) }, address, mask)
}

/// Lists the elements of the shown mask and its soft keys in the terminal's text, 40 bytes each, and returns the number of its bytes, or
/// 2^64 - 1 if memory was refused.
#[unsafe(no_mangle)]
pub unsafe extern "C" fn vt_text_of_elements(at: *mut VtTerminal) -> u64
    ghost before: { Session }
    requires* { sem 𝓛 (lies_at the_row full_share at before) }
    ensures* { ∃ₛ (λ (after : Session). sem 𝓛 (lies_at the_row full_share at after) ∗ ⌜ ListsElements before after result ⌝) }
{
    reading::shown_elements(unsafe { &mut *(at as *mut Session) })
}

/// The ID of the key, button or input that is shown at a place in pixels from the upper left corner of the mask. It is 65535 if there is
/// none, or 2^64 - 1 if memory was refused.
#[unsafe(no_mangle)]
pub unsafe extern "C" fn vt_id_at(at: *mut VtTerminal, x: u32, y: u32) -> u64
    ghost before: { Session }
    requires* { sem 𝓛 (lies_at the_row full_share at before) }
    ensures* { ∃ₛ (λ (after : Session). sem 𝓛 (lies_at the_row full_share at after) ∗ ⌜ TellsTouched before x y after result ⌝) }
{
    reading::touch(unsafe { &mut *(at as *mut Session) }, x, y)
}

/// Writes the limits of an input of the set at an address as the terminal's text, 24 bytes, and returns the number of its bytes, or 2^64 - 1
/// if memory was refused.
#[unsafe(no_mangle)]
pub unsafe extern "C" fn vt_text_of_limits(at: *mut VtTerminal, address: u32, id: u32) -> u64
    ghost before: { Session }
    requires* { sem 𝓛 (lies_at the_row full_share at before) }
    ensures* { ∃ₛ (λ (after : Session). sem 𝓛 (lies_at the_row full_share at after) ∗ ⌜ WritesLimits before address id after result ⌝) }
{
    dialog::limits(unsafe { &mut *(at as *mut Session) }, address, id)
}

/// Writes the shown text of an input or output field of the set at an address as the terminal's text, and returns the number of its bytes,
/// or 2^64 - 1 if memory was refused.
#[unsafe(no_mangle)]
pub unsafe extern "C" fn vt_text_of_value(at: *mut VtTerminal, address: u32, id: u32) -> u64
    ghost before: { Session }
    requires* { sem 𝓛 (lies_at the_row full_share at before) }
    ensures* { ∃ₛ (λ (after : Session). sem 𝓛 (lies_at the_row full_share at after) ∗ ⌜ WritesValue before address id after result ⌝) }
{
    dialog::value_text(unsafe { &mut *(at as *mut Session) }, address, id)
}

/// The exact raw value of a typed number for an Input Number of the set at an address, or 2^64 - 1 if there is none. The number is negative
/// if `sign` is not 0. `digits` are its digits without the point, and `decimals` is the number of digits after the point.
#[unsafe(no_mangle)]
pub unsafe extern "C" fn vt_raw_of(
    at: *mut VtTerminal,
    address: u32,
    id: u32,
    sign: u32,
    digits: u64,
    decimals: u32,
) -> u64
    ghost before: { Session }
    requires* { sem 𝓛 (lies_at the_row full_share at before) }
    ensures* { ∃ₛ (λ (after : Session). sem 𝓛 (lies_at the_row full_share at after) ∗ ⌜ TellsRaw before address id sign digits decimals after result ⌝) }
{
    dialog::raw(
        unsafe { &mut *(at as *mut Session) },
        address,
        id,
        sign,
        digits,
        decimals,
    )
}

/// Writes the meaning of a frame in words as the terminal's text, and returns the number of its bytes, or 2^64 - 1 if memory was refused.
/// `bits` has the data bytes, the first lowest. Without such a frame the text is empty.
#[unsafe(no_mangle)]
pub unsafe extern "C" fn vt_text_of_words(
    at: *mut VtTerminal,
    id: u32,
    count: u32,
    bits: u64,
) -> u64
    ghost before: { Session }
    requires* { sem 𝓛 (lies_at the_row full_share at before) }
    ensures* { ∃ₛ (λ (after : Session). sem 𝓛 (lies_at the_row full_share at after) ∗ ⌜ WritesWords before id count bits after result ⌝) }
{
    words::words(unsafe { &mut *(at as *mut Session) }, id, count, bits)
}

/// Enters a text of the operator into an object at a time in microseconds, and returns a status.
#[unsafe(no_mangle)]
pub unsafe extern "C" fn vt_text_bytes(at: *mut VtTerminal, time: u64, id: u32, text: &[u8]) -> u32
    ghost before: { Session }
    requires* { sem 𝓛 (lies_at the_row full_share at before) }
    ensures* { ∃ₛ (λ (after : Session). sem 𝓛 (lies_at the_row full_share at after) ∗ ⌜ Texts before time id text.entry after result ⌝) }
{
    session::text(unsafe { &mut *(at as *mut Session) }, time, id, text)
}

/// Adds a working set with the pool of these bytes, and returns a status.
#[unsafe(no_mangle)]
pub unsafe extern "C" fn vt_preload_bytes(at: *mut VtTerminal, address: u32, pool: &[u8]) -> u32
    ghost before: { Session }
    requires* { sem 𝓛 (lies_at the_row full_share at before) }
    ensures* { ∃ₛ (λ (after : Session). sem 𝓛 (lies_at the_row full_share at after) ∗ ⌜ Preloads before address pool.now after result ⌝) }
{
    preload::preload(unsafe { &mut *(at as *mut Session) }, address, pool)
}
