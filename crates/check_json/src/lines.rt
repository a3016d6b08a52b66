//! The lines of items and of counts.

ghost use Rattle.std.specs.Prelude.{◌≡◌, Some, IfOk, string_bytes};
ghost use Rattle.serde_json.specs.Read.{read};
ghost use Rattle.check_json.specs.Json as json_of;

use crate::details::details_of;
use crate::objects::{message_value, summary_value, totals_value};
use check_text::{CheckedPool, Item, ItemLine, Summary, Totals};
use std::alloc::{AllocError, Global};

/// The line of an item, without a newline: it reads back as the item's message with its details.
pub fn item_json(
    alloc: Global,
    source: &CheckedPool<'_>,
    message: &ItemLine<'_>,
    item: Item<'_>,
) -> Result<String, AllocError>
    ensures reads_back { IfOk result (λ line. read (string_bytes line) ≡ Some (json_of.line_data (json_of.head_of message.now) (json_of.details_of source.now item.entry))) }
{
    let details = details_of(alloc, source, item)?;
    let value = message_value(alloc, message, details)?;
    value.to_string(alloc)
}

/// The line of the counts, without a newline.
pub fn summary_json(alloc: Global, summary: Summary<'_>) -> Result<String, AllocError>
    ensures reads_back { IfOk result (λ line. read (string_bytes line) ≡ Some (json_of.summary_data summary.entry)) }
{
    let value = summary_value(alloc, summary)?;
    value.to_string(alloc)
}

/// The line of the counts of several pools, without a newline.
pub fn totals_json(alloc: Global, totals: Totals) -> Result<String, AllocError>
    ensures reads_back { IfOk result (λ line. read (string_bytes line) ≡ Some (json_of.totals_data totals)) }
{
    let value = totals_value(alloc, totals)?;
    value.to_string(alloc)
}
