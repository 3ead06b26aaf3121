//! The parser for commands that change the capacity of the list, split the list, or clone the list.

use crate::replay::item::Item;
use crate::replay::line_error::LineError;
use crate::replay::words::count_of;
use std::alloc::Allocator;
use thin_runner::command::Command;

/// Parses the words as a command that changes the capacity of the list, or splits or clones the
/// list. Returns `None` if they have another form.
pub fn parse<A: Allocator>(words: &[&str]) -> Result<Option<Command<Item, A>>, LineError> {
    Ok(Some(match words {
        ["reserve", count] => Command::Reserve(count_of(count, "COUNT")?),
        ["reserve_exact", count] => Command::ReserveExact(count_of(count, "COUNT")?),
        ["shrink_to_fit"] => Command::ShrinkToFit,
        ["split_off", index] => Command::SplitOff(count_of(index, "INDEX")?),
        ["clone"] => Command::Clone,
        _ => return Ok(None),
    }))
}
