//! Draws the screen of a working set as text.

ghost use Rattle.std.specs.Prelude.{◌≡◌, ◌++◌, None, OnOk, OnErr, IfOk, map};
ghost use Rattle.std.specs.FinMap as finite;
ghost use Rattle.vt_kinds.specs.Ids.{null_id};
ghost use Rattle.vt_layout.specs.Lines.{line};
ghost use Rattle.vt_layout.specs.Screens.{heading, mask_name, shortened, GainsScreen};
ghost use Rattle.vt_layout.specs.Walks.{drawing};

use crate::drawing::draw_mask;
use crate::page::Page;
use std::alloc::{AllocError, Global};
use vt_machine::Live;
use vt_objects::{ObjectId, Store, push_number};

/// The initial capacity of the screen text, in bytes.
const CAPACITY: usize = 4096;

/// Appends the screen of the working set at an address: a line with its active mask, then one for each element that the
/// mask and its soft keys show, at most 2,000 of them, and a last line if there are more. Ends after those lines, however
/// many paths lead to elements. After `OutOfMemory` the vector is unchanged (ISO 11783-6; docs/PROFILE.md, "The drawing
/// and the screen text").
pub fn draw<S: Store>(
    alloc: Global,
    address: u8,
    live: &Live<S>,
    out: &mut Vec<u8>,
) -> Result<(), AllocError>
    ensures drawn { OnOk result (GainsScreen address live.now.objects out.old.items out.new.items) }
    ensures unchanged { OnErr result (out.new.items ≡ out.old.items) }
{
    let text = screen(alloc, address, live.store(), live.active_mask())?;
    out.extend_from_slice(&text)
}

/// The screen of a mask.
fn screen<S: Store>(
    alloc: Global,
    address: u8,
    store: &S,
    mask: ObjectId,
) -> Result<Vec<u8>, AllocError>
    ensures text { IfOk result (λ text. text.items ≡ heading address mask ++ shortened (map (line (S.contents store.now)) (drawing (S.contents store.now) mask))) }
    ensures named { IfOk result (λ text. finite.get (S.contents store.now) null_id ≡ None) }
{
    let mut page = Page::new(heading(alloc, address, mask)?);
    draw_mask(store, mask, &mut page)?;
    page.finish()
}

/// The first line: the address of the working set and its active mask.
fn heading(alloc: Global, address: u8, mask: ObjectId) -> Result<Vec<u8>, AllocError>
    ensures { IfOk result (λ text. text.items ≡ heading address mask) }
{
    let mut text = Vec::with_capacity(alloc, CAPACITY)?;
    let address = hex::encode_upper(alloc, [address])?;
    text.extend_from_slice(b"screen ")?;
    text.extend_from_slice(address.as_bytes())?;
    text.extend_from_slice(b" mask ")?;
    write_mask(&mut text, mask)?;
    text.extend_from_slice(b"\n")?;
    Ok(text)
}

fn write_mask(text: &mut Vec<u8>, mask: ObjectId) -> Result<(), AllocError>
    ensures { OnOk result (text.new.items ≡ text.old.items ++ mask_name mask) }
{
    if mask.is_null() {
        return text.extend_from_slice(b"none");
    }
    push_number(text, b"", mask.raw())
}
