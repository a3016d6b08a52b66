//! Theorems about the definitions.

ghost use Rattle.page_blocks.specs.Laws.{DataHasNoMarkup};

/// No text begins a tag in the data of the page: the data have no `<`.
pub fn data_has_no_markup()
    ensures { DataHasNoMarkup }
{}
