//! The pictures of masks and keys.

use crate::objects::begun_line;
use crate::room::PictureRoom;
use check_needs::Sizes;
use check_text::CheckedPool;
use draw_gallery::masks_of;
use draw_picture::{ListedElement, draw, draw_part, list_elements, picture_size};
use serde_json::Value;
use std::alloc::{AllocError, Global};
use std::io::{self, Write};
use vt_cli::JsonLine;
use vt_objects::{Object, ObjectId};

/// A pool, and the sizes of its pictures.
#[derive(Clone, Copy, Drop)]
pub(crate) struct Album<'a> {
    pub(crate) alloc: Global,
    pub(crate) source: &'a CheckedPool<'a>,
    pub(crate) sizes: Sizes,
}

impl Album<'_> {
    /// Writes a line of JSON for each mask for which there is room: its picture, and the elements of it.
    pub(crate) fn put_masks<W: Write>(
        &self,
        room: &mut PictureRoom,
        out: &mut W,
    ) -> io::Result<()> {
        let masks = masks_of(self.alloc, &self.source.inspection.objects)?;
        for mask in masks.iter() {
            if room.is_full() {
                room.leave_out();
                continue;
            }
            let picture = draw(
                self.alloc,
                &self.source.inspection.objects,
                self.sizes,
                *mask,
            )?;
            if room.take(picture.len()) {
                self.mask_line(*mask, picture.as_slice())?.write(out)?;
            }
        }
        Ok(())
    }

    /// The line of a mask with this picture.
    fn mask_line(&self, mask: ObjectId, picture: &[u8]) -> Result<JsonLine, AllocError> {
        let objects = &self.source.inspection.objects;
        let (width, height) = picture_size(objects, self.sizes, mask);
        let elements = list_elements(self.alloc, objects, self.sizes, mask)?;
        let mut list = Vec::new(self.alloc);
        for element in elements.iter() {
            list.push(element_value(self.alloc, element)?)?;
        }
        let mut line = begun_line(self.alloc, self.source, mask)?;
        line.put("elements", Value::Array(list))?;
        line.put_number("height", u64::from(height))?;
        line.put_bytes_if("svg", Some(picture))?;
        line.put_number("width", u64::from(width))?;
        Ok(line)
    }

    /// Writes a line of JSON for each key for which there is room: its code, and its picture.
    pub(crate) fn put_keys<W: Write>(&self, room: &mut PictureRoom, out: &mut W) -> io::Result<()> {
        for (id, object) in self.source.inspection.objects.entries() {
            if let Object::Key(key) = object {
                self.put_key(*id, key.key_code, room, out)?;
            }
        }
        Ok(())
    }

    /// Writes the line of a key with this code, if there is room.
    fn put_key<W: Write>(
        &self,
        id: ObjectId,
        code: u8,
        room: &mut PictureRoom,
        out: &mut W,
    ) -> io::Result<()> {
        if room.is_full() {
            room.leave_out();
            return Ok(());
        }
        let picture = draw_part(self.alloc, &self.source.inspection.objects, self.sizes, id)?;
        if !room.take(picture.len()) {
            return Ok(());
        }
        let mut line = begun_line(self.alloc, self.source, id)?;
        line.put_number("code", u64::from(code))?;
        line.put_bytes_if("svg", Some(picture.as_slice()))?;
        line.write(out)
    }
}

/// An element of a picture as a list of numbers: the ID, the index of the element around it or -1, the corner, the size, and the bounds of
/// what is shown of it, from the left and the top to the right and the bottom.
fn element_value(alloc: Global, element: &ListedElement) -> Result<Value, AllocError> {
    let around = match element.around {
        Some(index) => i64::from(index),
        None => -1,
    };
    let numbers = [
        i64::from(element.id.raw()),
        around,
        i64::from(element.at.x),
        i64::from(element.at.y),
        i64::from(element.width),
        i64::from(element.height),
        i64::from(element.bounds.left),
        i64::from(element.bounds.top),
        i64::from(element.bounds.right),
        i64::from(element.bounds.bottom),
    ];
    let mut list = Vec::new(alloc);
    for number in numbers {
        list.push(Value::from(number))?;
    }
    Ok(Value::Array(list))
}
