//! The parser for `dedup`, and for commands that remove or replace a range.

use crate::replay::item::Item;
use crate::replay::line_error::LineError;
use crate::replay::words::{count_of, items_of, steps_of};
use std::alloc::Allocator;
use thin_runner::command::Command;

/// Parses the words of a line as a `dedup` command, or as a command that removes or replaces a
/// range. Returns `None` if the words do not have the form of such a command.
///
/// # Errors
///
/// Fails if the words have this form, but one of them is invalid. Also fails if there is not enough
/// memory.
pub fn parse<A: Allocator + Copy>(
    alloc: A,
    words: &[&str],
) -> Result<Option<Command<Item, A>>, LineError> {
    Ok(Some(match words {
        ["dedup"] => Command::Dedup,
        ["drain", start, end, steps] => {
            let start = count_of(start, "START")?;
            let end = count_of(end, "END")?;
            Command::Drain(start, end, steps_of(alloc, steps)?)
        }
        ["splice", start, end, steps, hint, items @ ..] => {
            let start = count_of(start, "START")?;
            let end = count_of(end, "END")?;
            let steps = steps_of(alloc, steps)?;
            let lower = count_of(hint, "HINT")?;
            Command::Splice(start, end, steps, items_of(alloc, items)?, lower)
        }
        _ => return Ok(None),
    }))
}
