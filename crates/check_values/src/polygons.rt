//! The points of Polygons.

ghost use Rattle.std.specs.Prelude.{◌≡◌, ◌++◌, OnOk};
ghost use Rattle.vt_kinds.specs.Records.{seen};
ghost use Rattle.check_values.specs.Listed.{each_from};
ghost use Rattle.check_values.specs.Polygons as spec;

use crate::warning::{PointOutside, ValueWarning};
use std::alloc::AllocError;
use vt_objects::{Object, ObjectId, Point};

/// The least points of a polygon.
const LEAST_POINTS: u8 = 3;

/// Appends a Polygon of fewer than three points.
pub(crate) fn put_few_points(
    id: ObjectId,
    object: &Object<Vec<u8>>,
    found: &mut Vec<ValueWarning>,
) -> Result<(), AllocError>
    ensures { OnOk result (found.new.items ≡ found.old.items ++ spec.few_points id (seen object.now)) }
{
    let Object::Polygon(o) = object else {
        return Ok(());
    };
    let points = o.points.len();
    if points < LEAST_POINTS {
        found.push(ValueWarning::FewPoints { id, points })?;
    }
    Ok(())
}

/// Appends the points of a Polygon that are outside of its area.
pub(crate) fn put_points_outside(
    id: ObjectId,
    object: &Object<Vec<u8>>,
    found: &mut Vec<ValueWarning>,
) -> Result<(), AllocError>
    ensures { OnOk result (found.new.items ≡ found.old.items ++ spec.points_outside id (seen object.now)) }
{
    let Object::Polygon(o) = object else {
        return Ok(());
    };
    put_outside(id, o.width, o.height, o.points.as_slice(), found)
}

fn put_outside(
    id: ObjectId,
    width: u16,
    height: u16,
    points: &[Point],
    found: &mut Vec<ValueWarning>,
) -> Result<(), AllocError>
    ensures { OnOk result (found.new.items ≡ found.old.items ++ each_from (spec.unless_inside id width height) 0 points.now) }
{
    for (index, point) in points.iter().enumerate() {
        put_if_outside(id, width, height, index, *point, found)?;
    }
    Ok(())
}

/// Appends a point that is outside of an area.
fn put_if_outside(
    id: ObjectId,
    width: u16,
    height: u16,
    index: usize,
    point: Point,
    found: &mut Vec<ValueWarning>,
) -> Result<(), AllocError>
    ensures { OnOk result (found.new.items ≡ found.old.items ++ spec.unless_inside id width height index point) }
{
    if point.x > width || point.y > height {
        found.push(ValueWarning::PointOutside(PointOutside {
            id,
            index,
            point,
            width,
            height,
        }))?;
    }
    Ok(())
}
