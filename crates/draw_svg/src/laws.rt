//! Theorems about the definitions.

ghost use Rattle.draw_svg.specs.Laws.{CharactersAreNoMarkup};
ghost use Rattle.draw_svg.specs.ImageLaws.{RunsAreTheImage, RowsHoldTheirPixels};
ghost use Rattle.draw_svg.specs.StrokeLaws.{StrokesAreThePixels};

/// Characters are no markup: each is written as itself, or as a reference to its number in decimal. A control character is written
/// as a reference to another character.
pub fn characters_are_no_markup()
    ensures { CharactersAreNoMarkup }
{}

/// The runs of a row are the whole row, and each run is at its place in the image data. No run is past the last row, and
/// there are none without a format.
pub fn runs_are_the_image()
    ensures { RunsAreTheImage }
{}

/// A row has a byte for each of its pixels, and no byte without a pixel.
pub fn rows_hold_their_pixels()
    ensures { RowsHoldTheirPixels }
{}

/// The strokes of a byte that repeats are its pixels: in each column a stroke has a pixel exactly if its colour is there, and exactly one
/// of the strokes has the colour that is there.
pub fn strokes_are_the_pixels()
    ensures { StrokesAreThePixels }
{}
