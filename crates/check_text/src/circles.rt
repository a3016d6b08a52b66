//! Circles in chains of inclusions.

ghost use Rattle.std.specs.Prelude.{◌≡◌, ◌==◌, ◌<◌, length, option_map, position, IfSome};
ghost use Rattle.check_text.specs.Circles.{circle_in};

use vt_objects::ObjectId;

/// The circle in a chain: from the first ID that comes again up to where it comes again. `None` if no ID comes again.
pub fn circle_in(chain: &[ObjectId]) -> Option<&[ObjectId]>
    ensures { option_map (λ circle. circle.now) result ≡ circle_in chain.now }
{
    let mut left = chain;
    while let Some((id, rest)) = left.split_first() {
        if let Some(index) = place_of(rest, *id) {
            return Some(&left[..index + 2]);
        }
        left = rest;
    }
    None
}

/// The index of an ID, or `None`.
fn place_of(ids: &[ObjectId], id: ObjectId) -> Option<usize>
    ensures place { result ≡ position (λ other. other == id) ids.now }
    ensures within { IfSome result (λ index. index < length ids.now) }
{
    ids.iter().position(|other| *other == id)
}
