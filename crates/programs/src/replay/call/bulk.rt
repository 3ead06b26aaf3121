//! The parser for commands that add several items.

use crate::replay::item::{Item, item_of};
use crate::replay::line_error::LineError;
use crate::replay::words::{count_of, items_of, list_of};
use std::alloc::Allocator;
use thin_runner::command::Command;

/// Parses the words of a line as a command that adds several items. Returns `None` if the words do
/// not have the form of such a command.
pub fn parse<A: Allocator>(
    alloc: A,
    words: &[&str],
) -> Result<Option<Command<Item, A>>, LineError> {
    Ok(Some(match words {
        ["resize", length, item] => Command::Resize(count_of(length, "LENGTH")?, item_of(item)?),
        ["extend_from_slice", items @ ..] => Command::ExtendFromSlice(items_of(alloc, items)?),
        ["extend", hint, items @ ..] => {
            let lower = count_of(hint, "HINT")?;
            Command::Extend(items_of(alloc, items)?, lower)
        }
        ["append", items @ ..] => Command::Append(list_of(alloc, items)?),
        _ => return Ok(None),
    }))
}
