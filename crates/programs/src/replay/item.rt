//! The type of the items. With another file in the place of this one, the lists have other items.

use crate::replay::line_error::LineError;
use crate::replay::words::number_of;

/// An item of a list.
pub type Item = u64;

/// Parses a word as an item.
pub fn item_of(word: &str) -> Result<Item, LineError> {
    number_of(word, "ITEM")
}
